//! What is asked for of one side of a state.

use crate::parts::{Claim, Counted, first_missing, put_parts, said};
use crate::state_text::{put_kind, put_kinds};
use rc_lang::program::Program;
use rc_rules::kinds::token_of;
use rc_rules::mode::{Slot, Submitting, sq_of, unlocked};
use rc_rules::needs::Asks;
use rc_rules::side::Side;
use rc_split::part::Part;
use rc_text::names::buffer_name;
use rc_text::text::{put_counted, put_number, put_piece, put_pieces};
use std::alloc::AllocError;

/// What is known of the submission side of the ring on a side.
fn sq_on(side: &Side) -> Submitting {
    sq_of(side.mode().unwrap_or(unlocked()))
}

/// The part that is asked for and isn't there, if it is one.
pub fn missing_part(side: &Side, thread: usize, zero: bool, asks: Asks) -> Option<Part> {
    let view = side.view();
    let program = view.program;
    let part = match asks {
        Asks::Part(part) => part,
        Asks::Whole(buffer) => Part::Shares(buffer, view.shares_at(buffer)),
        Asks::Items(list) => return first_missing(program, said(program, thread, list, true), side),
        Asks::Loop(list) => return first_missing(program, said(program, thread, list, zero), side),
        _ => return None,
    };
    if side.holds(part) { None } else { Some(part) }
}

/// How many entries a loop's items allow to be queued.
fn queue_on(program: &Program, thread: usize, list: usize) -> u32 {
    match program.lists_of(thread).get(list) {
        Some(items) => items.queue.unwrap_or(program.entries()),
        None => program.entries(),
    }
}

/// Whether less is there on the side than is asked for.
pub fn is_short(side: &Side, thread: usize, zero: bool, asks: Asks) -> bool {
    !side.is_met(side.view().program.lists_of(thread), zero, asks)
}

/// Adds at which stage a slot is.
pub fn put_slot(text: &mut Vec<u8>, program: &Program, slot: Slot) -> Result<(), AllocError> {
    match slot {
        Slot::Closed => put_piece(text, b"no entry is open"),
        Slot::Vacant => put_piece(text, b"the entry is vacant"),
        Slot::Prepared(kind) => {
            put_piece(text, b"the entry is prepared ")?;
            put_kind(text, program, kind)
        }
    }
}

/// Adds which stage is asked for, and that of the slot.
fn put_slot_asked(text: &mut Vec<u8>, side: &Side, asked: &[u8]) -> Result<(), AllocError> {
    put_pieces(text, &[b"asks for ", asked, b"; "])?;
    put_slot(text, side.view().program, sq_on(side).slot)
}

/// Adds what the line of a token says, and how the entry is.
fn put_line(text: &mut Vec<u8>, side: &Side, user_data: u64) -> Result<(), AllocError> {
    put_counted(text, b"asks for what token ", user_data, b" says, ")?;
    if let Some(token) = token_of(side.view(), user_data) {
        put_kinds(text, side.view().program, token)?;
    }
    put_piece(text, b"; ")?;
    put_slot(text, side.view().program, sq_on(side).slot)
}

/// Adds a part that is asked for, and how many of it are held.
fn put_part_asked(text: &mut Vec<u8>, side: &Side, part: Part) -> Result<(), AllocError> {
    match part {
        Part::Shares(buffer, count) => {
            let shares: &[u8] = if count == 1 { b" share" } else { b" shares" };
            put_counted(text, b"asks for ", u64::from(count), shares)?;
            put_held(text, side, buffer)
        }
        Part::Token(user_data) => {
            put_counted(text, b"asks for t:", user_data, b"; it isn't held")
        }
        Part::Credits(count) => {
            let credits: &[u8] = if count == 1 { b" credit" } else { b" credits" };
            put_counted(text, b"asks for ", u64::from(count), credits)?;
            put_counted(text, b"; held: ", u64::from(side.credits()), b"")
        }
    }
}

/// Adds which buffer's shares are asked for, and how many are held.
fn put_held(text: &mut Vec<u8>, side: &Side, buffer: usize) -> Result<(), AllocError> {
    let name = buffer_name(side.view().program, buffer);
    put_pieces(text, &[b" of ", name, b"; held: "])?;
    put_number(text, u64::from(side.shares(buffer)))
}

/// Adds that all shares of a buffer are asked for, and how many are held.
fn put_whole(text: &mut Vec<u8>, side: &Side, buffer: usize) -> Result<(), AllocError> {
    let shares = side.view().shares_at(buffer);
    if shares == 1 {
        put_piece(text, b"asks for the one share")?;
    } else {
        put_counted(text, b"asks for all ", u64::from(shares), b" shares")?;
    }
    put_held(text, side, buffer)
}

/// Adds what items say, and what of that is missing.
fn put_missing(text: &mut Vec<u8>, side: &Side, said: Claim) -> Result<(), AllocError> {
    put_parts(text, side.view().program, Counted::Said(said))?;
    put_piece(text, b"; missing:")?;
    put_parts(text, side.view().program, Counted::Missing(said, side))
}

/// Adds what a loop's top or its end asks for, and what of that isn't there.
fn put_loop(
    text: &mut Vec<u8>,
    side: &Side,
    thread: usize,
    list: usize,
    zero: bool,
) -> Result<(), AllocError> {
    if missing_part(side, thread, zero, Asks::Loop(list)).is_some() {
        put_piece(text, b"the loop keeps")?;
        return put_missing(text, side, said(side.view().program, thread, list, zero));
    }
    if sq_on(side).slot != Slot::Closed {
        return put_slot_asked(text, side, b"no open entry");
    }
    let queue = u64::from(queue_on(side.view().program, thread, list));
    put_counted(text, b"the loop keeps q:", queue, b"; q is ")?;
    put_number(text, u64::from(sq_on(side).queued))
}

/// Adds what is asked for of a side, and what is there.
pub fn put_side(
    text: &mut Vec<u8>,
    side: &Side,
    thread: usize,
    zero: bool,
    asks: Asks,
) -> Result<(), AllocError> {
    let view = side.view();
    match asks {
        Asks::Part(part) => put_part_asked(text, side, part),
        Asks::Whole(buffer) => put_whole(text, side, buffer),
        Asks::Items(list) => {
            put_piece(text, b"puts")?;
            put_missing(text, side, said(view.program, thread, list, true))
        }
        Asks::Loop(list) => put_loop(text, side, thread, list, zero),
        Asks::Place(buffer, place) => {
            let bytes = view.bytes_at(buffer);
            put_bytes(text, b"a place below ", bytes, b"", place)
        }
        Asks::Length(buffer, length) => {
            let bytes = view.bytes_at(buffer);
            put_bytes(text, b"at most ", bytes, b" bytes", length)
        }
        asks => put_ring_asked(text, side, asks),
    }
}

/// Adds what is asked for of the rings, and how they are.
fn put_ring_asked(text: &mut Vec<u8>, side: &Side, asks: Asks) -> Result<(), AllocError> {
    let program = side.view().program;
    match asks {
        Asks::SqLock => put_lock(text, program, b" sq"),
        Asks::CqLock => put_lock(text, program, b" cq"),
        Asks::Closed => put_slot_asked(text, side, b"no open entry"),
        Asks::Vacant => put_slot_asked(text, side, b"a vacant entry"),
        Asks::Prepared => put_slot_asked(text, side, b"a prepared entry"),
        Asks::Line(user_data) => put_line(text, side, user_data),
        Asks::Peeked => put_piece(
            text,
            b"asks for a completion that is peeked; nothing is peeked",
        ),
        Asks::Seen => put_piece(
            text,
            b"asks that the completion which `cqe_get_data64` got is seen; it isn't",
        ),
        Asks::Room => put_room(text, side),
        Asks::Left => put_left(text, side),
        _ => Ok(()),
    }
}

/// Adds which lock is asked for. Before version 4 there is one for both sides.
fn put_lock(text: &mut Vec<u8>, program: &Program, side: &[u8]) -> Result<(), AllocError> {
    let side = if program.version() < 4 { b"" } else { side };
    put_pieces(text, &[b"asks for the lock", side, b"; it isn't held"])
}

/// Adds how many entries may be queued, from version 4 on how many tokens may be those of queued requests, and from version
/// 5 on how many credits may be theirs.
fn put_room(text: &mut Vec<u8>, side: &Side) -> Result<(), AllocError> {
    let program = side.view().program;
    let queued = u64::from(sq_on(side).queued);
    put_counted(text, b"asks for room in the queue; q is ", queued, b" of ")?;
    put_counted(text, b"", u64::from(program.entries()), b" entries")?;
    if program.version() < 4 {
        return Ok(());
    }
    put_out(text, program, side.lacking())?;
    if program.version() < 5 {
        return Ok(());
    }
    put_credits_out(text, program.entries(), side.credits_out())
}

/// Adds how few credits may be out where the ring has room for certain, and how many are.
fn put_credits_out(text: &mut Vec<u8>, entries: u32, out: u32) -> Result<(), AllocError> {
    match entries {
        1 => put_piece(text, b", or no credit")?,
        entries => put_counted(text, b", or fewer than ", u64::from(entries), b" credits")?,
    }
    let credits: &[u8] = if out == 1 {
        b" credit is"
    } else {
        b" credits are"
    };
    put_counted(text, b"; ", u64::from(out), credits)
}

/// Adds how many tokens aren't held, and how few may be so where the ring has room for certain.
fn put_out(text: &mut Vec<u8>, program: &Program, lacking: u32) -> Result<(), AllocError> {
    let tokens = program.tokens().len();
    if lacking as usize >= tokens {
        put_piece(text, b", and no token is held")?;
    } else {
        let held: &[u8] = if lacking == 1 {
            b" tokens isn't held"
        } else {
            b" tokens aren't held"
        };
        put_counted(text, b", and ", u64::from(lacking), b" of the ")?;
        put_counted(text, b"", tokens as u64, held)?;
    }
    put_piece(text, b": room is known where ")?;
    match program.entries() {
        1 => put_piece(text, b"none is out"),
        entries => put_counted(text, b"fewer than ", u64::from(entries), b" are out"),
    }
}

fn put_left(text: &mut Vec<u8>, side: &Side) -> Result<(), AllocError> {
    let left = u64::from(side.view().left());
    let entries: &[u8] = if left == 1 { b" entry" } else { b" entries" };
    put_counted(text, b"at most ", left, entries)?;
    put_counted(text, b" may stay queued (`left ", left, b"`); ")?;
    put_counted(text, b"", u64::from(sq_on(side).queued), b" may be")
}

/// Adds how many bytes are asked for, between two words, and how many there are.
fn put_bytes(
    text: &mut Vec<u8>,
    before: &[u8],
    bytes: u32,
    after: &[u8],
    there: u32,
) -> Result<(), AllocError> {
    put_pieces(text, &[b"asks for ", before])?;
    put_number(text, u64::from(bytes))?;
    put_pieces(text, &[after, b"; it is "])?;
    put_number(text, u64::from(there))
}
