//! Moves and items as they are written, and what is noted of those that aren't enabled.

use crate::moves::{Move, is_separator, uncommented};
use crate::spelling::move_of_item;
use crate::steps::Moved;
use crate::why::{Reason, reason_of};
use rc_lang::program::Program;
use rc_report::script::Script;
use rc_report::step_engine::NoSteps;
use rc_report::trace::End;
use rc_text::names::{side_of, thread_name};
use rc_text::text::{put_counted, put_number, put_piece, put_pieces, put_signed};
use rc_world::event::Item;
use rc_world::schedule::halves;
use rc_world::world::World;
use std::alloc::AllocError;

/// Adds a move as it is written.
pub fn put_move(text: &mut Vec<u8>, program: &Program, named: Move) -> Result<(), AllocError> {
    match named {
        Move::One(item) => put_item(text, program, item),
        Move::Steps { thread, count } => put_steps(text, program, thread, b"*", count),
        Move::Until { thread, line } => put_steps(text, program, thread, b"@", line),
    }
}

// Adds steps of a thread: its name, a mark and a number.
fn put_steps(
    text: &mut Vec<u8>,
    program: &Program,
    thread: u32,
    mark: &[u8],
    number: u32,
) -> Result<(), AllocError> {
    put_pieces(text, &[thread_name(program, thread), mark])?;
    put_number(text, u64::from(number))
}

/// Adds an item as it is written in a schedule.
pub fn put_item(text: &mut Vec<u8>, program: &Program, item: Item) -> Result<(), AllocError> {
    match item {
        Item::Thread { thread, take } => {
            put_piece(text, thread_name(program, thread))?;
            put_answer(text, take)
        }
        Item::Kernel {
            user_data,
            res,
            fill,
        } => {
            put_counted(text, b"k:", user_data, b"")?;
            put_result(text, res, fill)
        }
    }
}

// Adds the answer of an item, if it has one.
fn put_answer(text: &mut Vec<u8>, answer: Option<i32>) -> Result<(), AllocError> {
    match answer {
        Some(answer) => put_result(text, answer, 0),
        None => Ok(()),
    }
}

// Adds a result, and a fill byte that isn't 0.
fn put_result(text: &mut Vec<u8>, res: i32, fill: u8) -> Result<(), AllocError> {
    put_piece(text, b"=")?;
    put_signed(text, i64::from(res))?;
    if fill == 0 {
        return Ok(());
    }
    put_counted(text, b":", u64::from(fill), b"")
}

/// Adds what is noted of steps whose trace ended so in this world: a line for each move whose steps up to a line of its
/// thread were the most that it has, and a line for the item that isn't enabled, by the move that spelled it.
pub fn put_of_steps(
    notes: &mut Vec<u8>,
    world: &World<'_>,
    moved: &Moved,
    end: End,
) -> Result<(), AllocError> {
    for (place, named) in moved.moves.iter().enumerate() {
        if moved.counts.get(place) == Some(&65_536) {
            put_most(notes, world.program(), place, *named)?;
        }
    }
    match place_of_refused(end) {
        Some(place) => put_refused(notes, world, moved, place),
        None => Ok(()),
    }
}

// Adds the line for a move that made the most steps up to a line.
fn put_most(
    text: &mut Vec<u8>,
    program: &Program,
    place: usize,
    named: Move,
) -> Result<(), AllocError> {
    if !matches!(named, Move::Until { .. }) {
        return Ok(());
    }
    put_named(text, program, b"move ", place, named)?;
    put_piece(text, b"ends after 65536 steps\n")
}

/// Adds what is noted of steps that can't be read: a line for the move, or for the item of a schedule that is written as a
/// move.
pub fn put_of_unread(
    notes: &mut Vec<u8>,
    script: &Script<'_>,
    unread: NoSteps,
) -> Result<(), AllocError> {
    let NoSteps::Schedule(number) = unread else {
        return Ok(());
    };
    match script {
        Script::Moves(moves) => put_unread_move(notes, moves, number),
        Script::Schedule(schedule) => match piece_numbered(schedule.as_bytes(), number) {
            Some(piece) if is_move(piece) => put_is_move(notes, number, piece),
            _ => Ok(()),
        },
    }
}

// Adds the line for the move with this number, from 1, which can't be read.
fn put_unread_move(notes: &mut Vec<u8>, moves: &[u8], number: u64) -> Result<(), AllocError> {
    let Some(piece) = move_numbered(moves, number) else {
        return Ok(());
    };
    put_counted(notes, b"ringcheck: move ", number, b" can't be read: `")?;
    for byte in piece {
        let is_printed = 32 < *byte && *byte < 127;
        notes.push(if is_printed { *byte } else { b'?' })?;
    }
    put_piece(notes, b"`\n")
}

// The piece of moves with this number, from 1.
fn move_numbered(moves: &[u8], number: u64) -> Option<&[u8]> {
    let mut left = number;
    for line in moves.split(|b| *b == b'\n') {
        for piece in uncommented(line).split(|b| is_separator(*b)) {
            if !piece.is_empty() {
                left = left.saturating_sub(1);
            }
            if left == 0 {
                return Some(piece);
            }
        }
    }
    None
}

// The piece of a schedule with this number, from 1.
fn piece_numbered(schedule: &[u8], number: u64) -> Option<&[u8]> {
    let mut rest = schedule;
    for _before in 1..number {
        rest = halves(b',', rest)?.1;
    }
    match halves(b',', rest) {
        Some((piece, _)) => Some(piece),
        None => Some(rest),
    }
}

// Adds the line for the piece of a schedule with this number, which is a move.
fn put_is_move(text: &mut Vec<u8>, number: u64, piece: &[u8]) -> Result<(), AllocError> {
    put_counted(text, b"ringcheck: item ", number, b", ")?;
    put_pieces(
        text,
        &[
            piece,
            b", is a move: it needs '--moves' in place of '--schedule'\n",
        ],
    )
}

// Whether a piece of a schedule is written as so many steps of a thread, or as its steps up to a line.
fn is_move(piece: &[u8]) -> bool {
    let mut has_mark = false;
    for b in piece {
        if *b <= 32 || *b >= 127 {
            return false;
        }
        has_mark = has_mark || *b == b'*' || *b == b'@';
    }
    has_mark
}

// The place of the item that isn't enabled, if a trace ends at one.
fn place_of_refused(end: End) -> Option<usize> {
    match end {
        End::NotEnabled(number) => Some(number.checked_sub(1)? as usize),
        _ => None,
    }
}

// Adds the line that says why the item at this place isn't enabled, by the move that spelled it: the item itself, where
// no moves did.
fn put_refused(
    text: &mut Vec<u8>,
    world: &World<'_>,
    moved: &Moved,
    place: usize,
) -> Result<(), AllocError> {
    let Some(item) = moved.steps.items.get(place) else {
        return Ok(());
    };
    let Some(reason) = reason_of(world, item) else {
        return Ok(());
    };
    let program = world.program();
    let number = move_of_item(&moved.counts, place as u64).unwrap_or(place);
    match moved.moves.get(number) {
        Some(named) => put_named(text, program, b"move ", number, *named)?,
        None => put_named(text, program, b"item ", place, Move::One(*item))?,
    }
    put_piece(text, b"isn't enabled: ")?;
    put_reason(text, program, reason)?;
    put_piece(text, b"\n")
}

// Adds a move or an item: the word for it, its number, from 1, and how it is written.
fn put_named(
    text: &mut Vec<u8>,
    program: &Program,
    word: &[u8],
    place: usize,
    named: Move,
) -> Result<(), AllocError> {
    let number = (place as u64).saturating_add(1);
    put_pieces(text, &[b"ringcheck: ", word])?;
    put_counted(text, b"", number, b", ")?;
    put_move(text, program, named)?;
    put_piece(text, b", ")
}

// Adds why an item isn't enabled.
fn put_reason(text: &mut Vec<u8>, program: &Program, reason: Reason) -> Result<(), AllocError> {
    match reason {
        Reason::LockTaken { holder, taken } => {
            put_pieces(text, &[thread_name(program, holder), b" has the lock"])?;
            put_piece(text, side_of(taken).as_bytes())
        }
        Reason::Ended(thread) => put_pieces(text, &[thread_name(program, thread), b" has ended"]),
        Reason::NoSubmit(line) => put_counted(text, b"line ", u64::from(line), b" is no submit"),
        Reason::NoChoice(line) => {
            put_counted(text, b"line ", u64::from(line), b" is answered by 0 or 1")
        }
        Reason::TooMany(queued) => put_counted(text, b"the queue has only ", queued, b""),
        Reason::NoErrno(answer) => {
            put_signed(text, i64::from(answer))?;
            put_piece(text, b" is no errno")
        }
        Reason::NotPending(user_data) => {
            put_counted(text, b"no request ", user_data, b" is pending")
        }
        Reason::TooManyBytes { user_data, most } => {
            put_counted(text, b"request ", user_data, b" moves at most ")?;
            put_counted(text, b"", u64::from(most), b" bytes")
        }
        Reason::NoRead(user_data) => put_counted(text, b"request ", user_data, b" is no read"),
    }
}
