//! What the lines of logs say. Those that come again aren't taken apart again.

use crate::lines::{declared_says, says_of};
use crate::names::add_name;
use crate::steps::{Kept, Names, Step};
use crate::sums::{NO_SUM, is_same, summed};
use rc_lang::program::Program;
use rc_log::call::{Call, Why};
use rc_log::declared::read_declared;
use rc_log::line::read_line;
use rc_log::words::word_at;
use std::alloc::{AllocError, Global};

/// So many lines are kept at most, with what they say.
const MOST_LINES: usize = 16_384;

/// What a line says.
#[derive(Clone, Copy)]
pub enum Told {
    /// Nothing that is kept.
    Nothing,
    Step(Step),
    /// It can't be read.
    Wrong(Why),
}

/// What a line says.
pub fn told_by(
    alloc: Global,
    program: &Program,
    names: &mut Names,
    line: &[u8],
) -> Result<Told, AllocError> {
    let sum = summed(NO_SUM, line);
    if let Some(told) = told_before(names, sum, line) {
        return Ok(told);
    }
    let told = taken_apart(alloc, program, names, line)?;
    match told {
        Told::Nothing => keep(alloc, names, sum, line, None)?,
        Told::Step(step) => keep(alloc, names, sum, line, Some(step))?,
        Told::Wrong(_) => {}
    }
    Ok(told)
}

/// What a line of this sum says, if it is kept.
fn told_before(names: &Names, sum: u64, line: &[u8]) -> Option<Told> {
    let kept = names.lines.get(&sum)?;
    if !is_same(line, &kept.line) {
        return None;
    }
    Some(match kept.step {
        Some(step) => Told::Step(step),
        None => Told::Nothing,
    })
}

/// Keeps a line and what it says, unless another one has its sum.
fn keep(
    alloc: Global,
    names: &mut Names,
    sum: u64,
    line: &[u8],
    step: Option<Step>,
) -> Result<(), AllocError> {
    if names.lines.len() < MOST_LINES && !names.lines.contains_key(&sum) {
        let line = Vec::from_slice(alloc, line)?;
        names.lines.insert(sum, Kept { line, step })?;
    }
    Ok(())
}

/// What the words of a line say.
fn taken_apart(
    alloc: Global,
    program: &Program,
    names: &mut Names,
    line: &[u8],
) -> Result<Told, AllocError> {
    match read_line(program, line) {
        Ok(said) => called(alloc, names, line, said.call),
        Err(Why::NoCall) => declared(alloc, names, line),
        Err(why) => Ok(Told::Wrong(why)),
    }
}

/// What a line says that is a thread's call.
fn called(alloc: Global, names: &mut Names, line: &[u8], call: Call) -> Result<Told, AllocError> {
    let Some(says) = says_of(alloc, names, line, call)? else {
        return Ok(Told::Nothing);
    };
    let thread = add_name(alloc, &mut names.threads, word_at(line, 0))?;
    let place = add_name(alloc, &mut names.places, word_at(line, 1))?;
    Ok(Told::Step(Step {
        thread,
        place,
        says,
    }))
}

/// What a line declares.
fn declared(alloc: Global, names: &mut Names, line: &[u8]) -> Result<Told, AllocError> {
    match read_declared(line) {
        Ok(declared) => Ok(Told::Step(Step {
            thread: 0,
            place: 0,
            says: declared_says(alloc, names, declared)?,
        })),
        Err(why) => Ok(Told::Wrong(why)),
    }
}
