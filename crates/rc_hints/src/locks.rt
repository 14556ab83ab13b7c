//! Locks in locks, in a model with a lock for each side.

use crate::lines::word_at;
use rc_lang::lines::{Block, Locks};
use rc_read::parts::Parts;
use rc_read::words::is;
use rc_text::text::{put_counted, put_piece, put_pieces};
use std::alloc::AllocError;

/// An open lock: the number of its line, and its sides.
#[derive(Clone, Copy)]
struct Open {
    number: u64,
    locks: Locks,
}

/// What is to be done about a lock in another.
#[derive(Clone, Copy)]
enum Way {
    /// The thread has cq alone: the submission side alone may be taken.
    TakesSq,
    /// The thread has sq alone: it is given back first.
    Closes,
    /// The thread has all that the line takes.
    HasAll,
}

/// The sides that a line takes which is a lock.
fn wanted(words: &[&[u8]]) -> Locks {
    let side = word_at(words, 1);
    Locks {
        sq: !is(side, b"cq"),
        cq: !is(side, b"sq"),
    }
}

/// Which sides the open locks have.
fn held(parts: &Parts) -> Locks {
    let mut held = Locks {
        sq: false,
        cq: false,
    };
    for block in &parts.draft.blocks {
        if let Block::InLock(_, locks) = *block {
            held = held.with(locks);
        }
    }
    held
}

fn number_at(parts: &Parts, place: usize) -> u64 {
    match parts.draft.lines.get(place) {
        Some(line) => u64::from(line.number),
        None => 0,
    }
}

/// The innermost open lock that has one of these sides; the innermost of all where none does.
fn open_with(parts: &Parts, wanted: Locks) -> Option<Open> {
    let mut found = None;
    let mut shares = false;
    for block in &parts.draft.blocks {
        if let Block::InLock(place, locks) = *block {
            let has = locks.sq && wanted.sq || locks.cq && wanted.cq;
            if has || !shares {
                let number = number_at(parts, place);
                found = Some(Open { number, locks });
            }
            shares = shares || has;
        }
    }
    found
}

/// What is to be done about a line that takes these sides, where those are held.
fn way_of(held: Locks, wanted: Locks) -> Way {
    if wanted.cq && !held.cq {
        Way::Closes
    } else if wanted.sq && !held.sq {
        Way::TakesSq
    } else {
        Way::HasAll
    }
}

/// A lock as it is written.
fn written(locks: Locks) -> &'static [u8] {
    match (locks.sq, locks.cq) {
        (true, false) => b"lock sq {",
        (false, true) => b"lock cq {",
        _ => b"lock {",
    }
}

/// Sides that a thread has.
fn sides(locks: Locks) -> &'static [u8] {
    match (locks.sq, locks.cq) {
        (true, false) => b"sq",
        (false, true) => b"cq",
        _ => b"both sides",
    }
}

/// Adds what is to be done about a lock that takes these sides.
fn put_way(text: &mut Vec<u8>, way: Way, wanted: Locks) -> Result<(), AllocError> {
    match way {
        Way::TakesSq => put_piece(text, b"write 'lock sq {': the thread has cq"),
        Way::Closes => put_piece(text, b"close that first: cq is taken before sq"),
        Way::HasAll => put_pieces(text, &[b"the thread has ", sides(wanted), b" already"]),
    }
}

/// Adds the hint for a lock that may not be in the open one, and says whether one is open.
pub fn put_inner(text: &mut Vec<u8>, parts: &Parts, words: &[&[u8]]) -> Result<bool, AllocError> {
    let wanted = wanted(words);
    let Some(Open { number, locks }) = open_with(parts, wanted) else {
        return Ok(false);
    };
    let (taken, open) = (written(wanted), written(locks));
    put_pieces(
        text,
        &[b"'", taken, b"' may not be here: the '", open, b"'"],
    )?;
    put_counted(text, b" of line ", number, b" is open; ")?;
    put_way(text, way_of(held(parts), wanted), wanted)?;
    Ok(true)
}

/// Adds what to write for a lock that may not be in the open one.
pub fn put_fix(text: &mut Vec<u8>, parts: &Parts, words: &[&[u8]]) -> Result<(), AllocError> {
    let wanted = wanted(words);
    let Some(Open { number, .. }) = open_with(parts, wanted) else {
        return Ok(());
    };
    match way_of(held(parts), wanted) {
        Way::TakesSq => put_piece(
            text,
            b"Write `lock sq {` in its place, which may be in a `lock cq {` and in an arm.",
        ),
        Way::Closes => {
            put_counted(
                text,
                b"Close the lock of line ",
                number,
                b" above this line, ",
            )?;
            put_piece(
                text,
                b"or take `lock cq {` first, around that lock, and none here.",
            )
        }
        Way::HasAll => put_piece(
            text,
            b"Keep the body of the inner block, and remove its first line and its `}`.",
        ),
    }
}
