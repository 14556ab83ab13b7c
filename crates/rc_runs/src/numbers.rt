//! The numbers with which a program compares.

use rc_lang::lines::{Stmt, Test};
use rc_lang::program::Program;
use std::alloc::{AllocError, Global};

/// The least number that a submit or a request is answered with: a negative errno.
const LEAST: i64 = -4095;

/// The greatest: a count of bytes.
const GREATEST: i64 = 4096;

/// The numbers with which ifs of the program compare a variable and those beside them, from -4095 to 4096; sorted, each
/// once.
pub fn compared_numbers(alloc: Global, program: &Program) -> Result<Vec<i32>, AllocError> {
    let mut numbers = Vec::new(alloc);
    for thread in program.threads() {
        for line in &thread.lines {
            if let Stmt::If(Test::Compare(_, _, number)) = line.stmt {
                push_near(&mut numbers, number)?;
            }
        }
    }
    numbers.sort_unstable();
    numbers.dedup();
    Ok(numbers)
}

/// Adds a number and those beside it, where they are answers.
fn push_near(numbers: &mut Vec<i32>, number: i64) -> Result<(), AllocError> {
    for near in [number.saturating_sub(1), number, number.saturating_add(1)] {
        if LEAST <= near && near <= GREATEST {
            numbers.push(near as i32)?;
        }
    }
    Ok(())
}
