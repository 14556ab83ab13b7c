//! On which variables something depends.

use crate::stuck::quiet::VARIABLES;
use rc_lang::lines::{Line, Op, Operand, Stmt, Test};
use rc_lang::program::Program;
use std::alloc::{AllocError, Global};

/// For each variable of each thread, 64 places a thread, whether an `if` compares it, or a variable computed from it.
pub fn kept_variables(alloc: Global, program: &Program) -> Result<Vec<bool>, AllocError> {
    let mut kept = Vec::new(alloc);
    for thread in program.threads() {
        push_of_thread(alloc, &mut kept, &thread.lines)?;
    }
    Ok(kept)
}

/// Adds those of a thread with these lines.
fn push_of_thread(alloc: Global, kept: &mut Vec<bool>, lines: &[Line]) -> Result<(), AllocError> {
    let mut own = vec![in alloc; false; VARIABLES]?;
    for _round in 0..VARIABLES {
        keep_of_lines(&mut own, lines);
    }
    kept.extend_from_slice(&own)
}

/// Keeps the variables that these lines compare, and those from which they compute a variable that is kept.
fn keep_of_lines(own: &mut [bool], lines: &[Line]) {
    for line in lines {
        match line.stmt {
            Stmt::If(Test::Compare(x, _, _)) => keep(own, x),
            Stmt::Do(Op::Assign(x, y)) => keep_of(own, x, Operand::Variable(y)),
            Stmt::Do(Op::Add(x, y, z) | Op::Subtract(x, y, z)) => {
                keep_of(own, x, y);
                keep_of(own, x, z);
            }
            _ => {}
        }
    }
}

/// Keeps an operand, where the variable that is computed from it is kept.
fn keep_of(own: &mut [bool], x: usize, operand: Operand) {
    let is_kept = matches!(own.get(x), Some(true));
    if let Operand::Variable(y) = operand
        && is_kept
    {
        keep(own, y);
    }
}

/// Keeps a variable.
fn keep(own: &mut [bool], x: usize) {
    if x < own.len() {
        own[x] = true;
    }
}
