//! Where each thread is, and its variables.

use rc_lang::lines::{Line, Locks};
use rc_lang::program::Program;
use rc_read::source::{Lines, put_line_words};
use rc_text::names::thread_name;
use rc_text::text::{put_counted, put_piece, put_pieces, put_signed};
use rc_world::controls::Next;
use rc_world::world::World;
use std::alloc::AllocError;

/// Adds each thread of a world: what it has next, and its variables. The lines are those of its model.
pub fn put_threads(
    text: &mut Vec<u8>,
    lines: &Lines<'_>,
    world: &World<'_>,
) -> Result<(), AllocError> {
    let count = world.program().threads().len();
    for thread in 0..count as u32 {
        put_thread(text, lines, world, thread)?;
    }
    Ok(())
}

fn put_thread(
    text: &mut Vec<u8>,
    lines: &Lines<'_>,
    world: &World<'_>,
    thread: u32,
) -> Result<(), AllocError> {
    let name = thread_name(world.program(), thread);
    put_pieces(text, &[b"thread ", name, b": "])?;
    put_next(text, lines, world, thread)?;
    put_variables(text, world, thread)
}

/// Adds what a thread has next.
fn put_next(
    text: &mut Vec<u8>,
    lines: &Lines<'_>,
    world: &World<'_>,
    thread: u32,
) -> Result<(), AllocError> {
    match world.next(thread) {
        Next::Ready(line) => put_line(text, b"line ", lines, Some(line)),
        Next::TakenLock(wanted) => {
            let line = world.line(thread);
            put_line(text, b"waits for the lock at line ", lines, line)?;
            put_holders(text, world, wanted)
        }
        Next::Ended => put_piece(text, b"ended"),
    }
}

/// Adds the number and the words of a line.
fn put_line(
    text: &mut Vec<u8>,
    before: &[u8],
    lines: &Lines<'_>,
    line: Option<Line>,
) -> Result<(), AllocError> {
    let Some(line) = line else {
        return Ok(());
    };
    put_counted(text, before, u64::from(line.number), b", ")?;
    put_line_words(text, lines, line.number)
}

/// Adds who has the locks that a thread waits for.
fn put_holders(text: &mut Vec<u8>, world: &World<'_>, wanted: Locks) -> Result<(), AllocError> {
    let holders = world.holders();
    let sq = if wanted.sq { holders.sq } else { None };
    let cq = if wanted.cq { holders.cq } else { None };
    if sq.is_some() && sq == cq {
        return put_has(text, world.program(), sq, b"it");
    }
    put_has(text, world.program(), sq, b"sq")?;
    put_has(text, world.program(), cq, b"cq")
}

/// Adds who has something, if somebody has it.
fn put_has(
    text: &mut Vec<u8>,
    program: &Program,
    holder: Option<u32>,
    what: &[u8],
) -> Result<(), AllocError> {
    match holder {
        Some(holder) => {
            let name = thread_name(program, holder);
            put_pieces(text, &[b"; ", name, b" has ", what])
        }
        None => Ok(()),
    }
}

/// Adds the variables of a thread that aren't 0.
fn put_variables(text: &mut Vec<u8>, world: &World<'_>, number: u32) -> Result<(), AllocError> {
    put_piece(text, b"\n  variables:")?;
    if let Some(thread) = world.program().threads().get(number as usize) {
        for (x, name) in thread.variables.iter().enumerate() {
            put_variable(text, name, world.variable(number, x))?;
        }
    }
    put_piece(text, b"\n")
}

fn put_variable(text: &mut Vec<u8>, name: &[u8], value: i64) -> Result<(), AllocError> {
    if value == 0 {
        return Ok(());
    }
    put_pieces(text, &[b" ", name, b"="])?;
    put_signed(text, value)
}
