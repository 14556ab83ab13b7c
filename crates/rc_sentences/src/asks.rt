//! What a refused line asks for, and what is there.

mod ends;
mod over;
mod side_asks;

use crate::line_at::Begins;
use crate::walked::Refused;
use ends::put_ends;
use over::Lines;
use rc_lang::lines::{Stmt, Test};
use rc_lang::program::Program;
use rc_rules::asks::asks_of;
use rc_rules::cause::Cause;
use rc_rules::mode::unlocked;
use rc_rules::needs::Asks;
use rc_rules::state::State;
use rc_split::part::Part;
use rc_text::text::{put_piece, put_pieces};
use side_asks::{is_short, missing_part, put_side};
use std::alloc::{AllocError, Global};

/// What a refused line asks for and what is there in its place, in words on one line, and the first part of that that
/// isn't held, if one is missing.
#[derive(Drop)]
pub struct Need {
    pub asks: Vec<u8>,
    pub missing: Option<Missing>,
}

/// A part that isn't held on a side of the flag (that of a flag that is 0, or the other), and whether it is on the other.
#[derive(Clone, Copy)]
pub struct Missing {
    pub part: Part,
    pub zero: bool,
    pub on_other: bool,
}

/// What the line of a pool or the header of a thread asks for that is refused for the cause, and what the lines up to it
/// give.
pub fn header_need(
    alloc: Global,
    program: &Program,
    begins: Begins,
    cause: Cause,
) -> Result<Need, AllocError> {
    let lines = match begins {
        Begins::Pool(line) => Lines::up_to_stock(program, line),
        Begins::Thread(thread) => Lines::up_to_thread(program, thread),
    };
    let mut asks = Vec::new(alloc);
    match cause {
        Cause::OverShares => over::put_shares(&mut asks, lines)?,
        Cause::TokenTwice => over::put_token(&mut asks, lines)?,
        Cause::OverCredits => over::put_credits(&mut asks, lines)?,
        _ => {}
    }
    Ok(Need {
        asks,
        missing: None,
    })
}

/// What a line asks for that is refused for the cause.
pub fn line_need(alloc: Global, refused: Refused, cause: Cause) -> Result<Need, AllocError> {
    let mut need = Need {
        asks: Vec::new(alloc),
        missing: None,
    };
    let Some(state) = refused.state() else {
        return Ok(need);
    };
    let stmt = refused.stmt(refused.place);
    let thread = refused.walked.number;
    match asks_of(stmt, cause) {
        Some(Asks::Agreeing) => put_ends(&mut need.asks, refused, stmt)?,
        Some(Asks::SqLock) if is_of_both(refused.program(), stmt) => {
            put_both(&mut need.asks, state)?
        }
        Some(asks) => {
            put_asked(&mut need.asks, thread, state, asks)?;
            need.missing = missing_of(thread, state, asks);
        }
        None => {}
    }
    Ok(need)
}

/// Whether a line puts into the pool without a name or takes from it, in a program with a lock for each side.
pub(crate) fn is_of_both(program: &Program, stmt: Stmt) -> bool {
    let is_unnamed = match stmt {
        Stmt::Put(None, _) => true,
        Stmt::If(Test::Take(None, _)) => true,
        _ => false,
    };
    is_unnamed && program.version() >= 4
}

/// Adds that both sides of the ring are asked for, and which one is held.
fn put_both(text: &mut Vec<u8>, state: &State) -> Result<(), AllocError> {
    let zero = state.on(true).is_live();
    let mode = state.on(zero).mode().unwrap_or(unlocked());
    let held: &[u8] = match (mode.sq.is_some(), mode.cq.is_some()) {
        (true, _) => b"sq",
        (_, true) => b"cq",
        _ => b"none",
    };
    put_pieces(text, &[b"asks for both sides of the ring; held: ", held])
}

/// The part that is asked for of a state and that is missing on a side, the zero one first.
fn missing_of(thread: usize, state: &State, asks: Asks) -> Option<Missing> {
    let zero = is_short(state.on(true), thread, true, asks);
    let part = missing_part(state.on(zero), thread, zero, asks)?;
    Some(Missing {
        part,
        zero,
        on_other: state.on(!zero).holds(part),
    })
}

/// Adds what is asked for of a state, on a side on which less is there; which one, if it is the only one.
fn put_asked(
    text: &mut Vec<u8>,
    thread: usize,
    state: &State,
    asks: Asks,
) -> Result<(), AllocError> {
    let zero = is_short(state.on(true), thread, true, asks);
    let other = is_short(state.on(false), thread, false, asks);
    put_side(text, state.on(zero), thread, zero, asks)?;
    if state.flag().is_none() || zero == other {
        return Ok(());
    }
    put_piece(text, if zero { b" (flag 0)" } else { b" (flag not 0)" })
}
