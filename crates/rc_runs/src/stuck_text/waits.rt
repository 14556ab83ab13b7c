//! What the threads of a world wait for that can't go on, in words.

ghost use Rattle.rc_runs.specs.Waits as spec;
ghost use Rattle.rc_text.specs.Text.{Puts};

use crate::stuck_text::had::Had;
use crate::stuck_text::lacking::put_lacking;
use crate::stuck_text::standing::{Standing, standings};
use rc_lang::lines::{Op, Stmt, Test};
use rc_lang::program::{Items, Program};
use rc_text::names::{buffer_name, pool_name, side_of, thread_name};
use rc_text::text::{put_counted, put_number, put_piece, put_pieces, put_signed};
use rc_world::world::World;
use std::alloc::{AllocError, Global};

/// How many cases of a peek are named.
const MOST_CASES: usize = 4;

/// A thread that hasn't ended, by its name, and where it is and what it waits for.
#[derive(Drop)]
pub struct Wait {
    pub name: String,
    pub says: String,
}

/// What is said of each thread of a world that hasn't ended, where it is known who had what.
pub fn waits_of(alloc: Global, world: &World<'_>, had: &Had) -> Result<Vec<Wait>, AllocError> {
    let all = standings(alloc, world)?;
    let mut waits = Vec::new(alloc);
    for standing in &all {
        waits.push(wait_of(alloc, world, had, &all, standing)?)?;
    }
    Ok(waits)
}

/// Adds a line for each of these threads, with something before it.
pub fn put_waits(text: &mut Vec<u8>, before: &[u8], waits: &[Wait]) -> Result<(), AllocError>
    ensures { Puts text.old text.new (spec.wait_lines before.now waits.now) result }
{
    for wait in waits {
        put_wait(text, before, wait)?;
    }
    Ok(())
}

fn put_wait(text: &mut Vec<u8>, before: &[u8], wait: &Wait) -> Result<(), AllocError>
    ensures { Puts text.old text.new (spec.wait_line before.now wait.now) result }
{
    let (name, says) = (wait.name.as_bytes(), wait.says.as_bytes());
    put_pieces(text, &[before, name, b" ", says, b"\n"])
}

/// What is said of one of these threads.
fn wait_of(
    alloc: Global,
    world: &World<'_>,
    had: &Had,
    all: &[Standing],
    standing: &Standing,
) -> Result<Wait, AllocError> {
    let mut says = Vec::new(alloc);
    match standing.holder {
        Some(holder) => put_taken(&mut says, world.program(), standing, holder)?,
        None => put_round(&mut says, alloc, world, had, all, standing)?,
    }
    let name = thread_name(world.program(), standing.thread);
    Ok(Wait {
        name: String::from_utf8_lossy(alloc, name)?,
        says: String::from_utf8_lossy(alloc, &says)?,
    })
}

/// Adds that a thread waits for a lock.
fn put_taken(
    text: &mut Vec<u8>,
    program: &Program,
    standing: &Standing,
    holder: u32,
) -> Result<(), AllocError> {
    let number = u64::from(standing.line.number);
    put_counted(text, b"waits at line ", number, b" for the lock")?;
    if let Stmt::Lock(wanted) = standing.line.stmt {
        put_piece(text, side_of(wanted).as_bytes())?;
    }
    put_pieces(text, &[b" that ", thread_name(program, holder), b" has"])
}

/// Adds where a thread goes round, and for what.
fn put_round(
    text: &mut Vec<u8>,
    alloc: Global,
    world: &World<'_>,
    had: &Had,
    all: &[Standing],
    standing: &Standing,
) -> Result<(), AllocError> {
    let number = u64::from(standing.line.number);
    match standing.line.stmt {
        Stmt::Peek(_) => {
            put_counted(text, b"polls at line ", number, b": peek_cqe")?;
            put_polled(text, alloc, world, standing)
        }
        Stmt::If(Test::Take(pool, list)) => {
            put_counted(text, b"asks at line ", number, b": if take")?;
            put_asked(text, world, had, all, standing, pool, list)
        }
        Stmt::Do(Op::Submit(_) | Op::SubmitAndWait(_, _)) => {
            put_counted(text, b"submits at line ", number, b"; nothing is queued")
        }
        Stmt::If(Test::ReadyZero) => {
            put_counted(text, b"asks at line ", number, b": if sq_ready == 0; ")?;
            put_counted(text, b"", world.queued().len() as u64, b" queued")
        }
        Stmt::If(Test::SpaceAtLeast(wanted)) => {
            put_counted(text, b"asks at line ", number, b": if sq_space_left >= ")?;
            put_counted(text, b"", u64::from(wanted), b"; ")?;
            put_counted(text, b"", world.queued().len() as u64, b" queued")
        }
        _ => put_circle(text, world.program(), standing),
    }
}

/// Adds the loop in which a thread goes round.
fn put_circle(
    text: &mut Vec<u8>,
    program: &Program,
    standing: &Standing,
) -> Result<(), AllocError> {
    let top = match program.threads().get(standing.thread as usize) {
        Some(thread) => standing.top(thread),
        None => standing.line.number,
    };
    put_counted(text, b"goes round at line ", u64::from(top), b"")
}

/// Adds for which completions a thread polls, and what the front one is.
fn put_polled(
    text: &mut Vec<u8>,
    alloc: Global,
    world: &World<'_>,
    standing: &Standing,
) -> Result<(), AllocError> {
    let cases = cases_of(alloc, world.program(), standing)?;
    put_cases(text, &cases)?;
    match world.completions().first() {
        Some(front) => {
            put_counted(text, b"; the front is ", front.user_data, b"")?;
            if !cases.contains(&front.user_data) {
                return Ok(());
            }
            put_piece(text, b" with ")?;
            put_signed(text, i64::from(front.res))
        }
        None => put_pending(text, world),
    }
}

/// Adds how many requests are pending and queued.
fn put_pending(text: &mut Vec<u8>, world: &World<'_>) -> Result<(), AllocError> {
    match world.pending_len() {
        0 => put_piece(text, b"; nothing is pending")?,
        count => put_counted(text, b"; ", count as u64, b" pending")?,
    }
    match world.queued().len() {
        0 => Ok(()),
        count => put_counted(text, b", ", count as u64, b" queued"),
    }
}

/// The user data of the cases of a peek.
fn cases_of(alloc: Global, program: &Program, standing: &Standing) -> Result<Vec<u64>, AllocError> {
    let mut cases = Vec::new(alloc);
    let Some(thread) = program.threads().get(standing.thread as usize) else {
        return Ok(cases);
    };
    for line in &thread.lines {
        if let Stmt::Case(peek, user_data) = line.stmt
            && peek == standing.place
        {
            cases.push(user_data)?;
        }
    }
    Ok(cases)
}

/// Adds the cases of a peek.
fn put_cases(text: &mut Vec<u8>, cases: &[u64]) -> Result<(), AllocError> {
    for (place, user_data) in cases.iter().enumerate() {
        if place == MOST_CASES {
            let more = (cases.len() - place) as u64;
            return put_counted(text, b" and ", more, b" more");
        }
        put_piece(text, before_case(place, cases.len()))?;
        put_number(text, *user_data)?;
    }
    Ok(())
}

/// What is written before the case at a place of so many.
fn before_case(place: usize, count: usize) -> &'static [u8] {
    if place == 0 {
        b", for "
    } else if place.saturating_add(1) == count {
        b" or "
    } else {
        b", "
    }
}

/// Adds the items for which a thread asks, and where what is lacking is.
fn put_asked(
    text: &mut Vec<u8>,
    world: &World<'_>,
    had: &Had,
    all: &[Standing],
    standing: &Standing,
    pool: Option<usize>,
    list: usize,
) -> Result<(), AllocError> {
    let program = world.program();
    if let Some(pool) = pool {
        put_pieces(text, &[b" ", pool_name(program, pool)])?;
    }
    let Some(thread) = program.threads().get(standing.thread as usize) else {
        return Ok(());
    };
    let Some(items) = thread.lists.get(list) else {
        return Ok(());
    };
    put_items(text, program, items)?;
    put_lacking(text, world, had, all, pool, items)
}

/// Adds items as they are written.
fn put_items(text: &mut Vec<u8>, program: &Program, items: &Items) -> Result<(), AllocError> {
    for share in &items.shares {
        put_pieces(text, &[b" ", buffer_name(program, share.buffer)])?;
        put_counted(text, b":", u64::from(share.count), b"")?;
    }
    for token in &items.tokens {
        put_counted(text, b" t:", *token, b"")?;
    }
    if items.credits > 0 {
        put_counted(text, b" c:", u64::from(items.credits), b"")?;
    }
    Ok(())
}
