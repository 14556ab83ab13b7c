//! The ends of branches and arms that join: at which stage the slot is at each, or whether the completion is got.

use super::side_asks::put_slot;
use crate::walked::Refused;
use rc_lang::lines::{Line, Stmt, Test};
use rc_lang::program::Program;
use rc_rules::mode::{Mode, is_got, peeked_of, same_slot, sq_of};
use rc_rules::state::State;
use rc_text::text::{put_counted, put_piece};
use std::alloc::AllocError;

/// What is shown of each end.
#[derive(Clone, Copy)]
enum Shown {
    /// The stage of the slot.
    Slot,
    /// Whether the completion is got.
    Got,
}

/// Whether what is known before a line goes to the end that a closing line ends: the closing line itself, an else or an
/// if that it belongs to, and the ends of the arms of its peek.
fn is_end(closing: Stmt, last: usize, place: usize, stmt: Stmt) -> bool {
    match (closing, stmt) {
        (Stmt::EndIf(opening), _) => place == opening || place == last,
        (Stmt::EndPeek(peek), Stmt::EndArm(arm)) => arm == peek,
        _ => false,
    }
}

/// What is known of the ring, where something reaches the end: of an if, where its test fails.
fn known_at(state: &State, stmt: Stmt) -> Option<Mode> {
    let mut end = state.again();
    if let Stmt::If(Test::Compare(variable, op, n)) = stmt {
        if state.flag() == Some(variable) {
            end.flag_test(op, n, false);
        }
    }
    match end.on(true).mode() {
        Some(mode) => Some(mode),
        None => end.on(false).mode(),
    }
}

/// What is known of the ring at the end before the line at a place, if that is one that a refused line joins and
/// something reaches it.
fn end_at(refused: Refused, closing: Stmt, place: usize) -> Option<Mode> {
    let stmt = refused.stmt(place);
    if !is_end(closing, refused.place, place, stmt) {
        return None;
    }
    known_at(refused.walked.states.get(place)?, stmt)
}

/// What the ends differ in: the stage of the slot, or else whether the completion is got.
fn difference(refused: Refused, closing: Stmt) -> Shown {
    let mut first = None;
    for place in 0..=refused.place {
        if let Some(mode) = end_at(refused, closing, place) {
            let slot = sq_of(mode).slot;
            let seen = first.unwrap_or(slot);
            if !same_slot(seen, slot) {
                return Shown::Slot;
            }
            first = Some(seen);
        }
    }
    Shown::Got
}

/// Adds what is shown of an end.
fn put_shown(
    text: &mut Vec<u8>,
    program: &Program,
    mode: Mode,
    shown: Shown,
) -> Result<(), AllocError> {
    match shown {
        Shown::Slot => put_slot(text, program, sq_of(mode).slot),
        Shown::Got if is_got(peeked_of(mode)) => put_piece(text, b"the completion is got"),
        Shown::Got => put_piece(text, b"no completion is got"),
    }
}

/// Adds an end, and what is shown of it.
fn put_end(
    text: &mut Vec<u8>,
    program: &Program,
    line: Line,
    mode: Mode,
    shown: Shown,
) -> Result<(), AllocError> {
    let number = u64::from(line.number);
    match line.stmt {
        Stmt::If(_) => put_counted(text, b"if the test at line ", number, b" fails, ")?,
        _ => put_counted(text, b"at line ", number, b", ")?,
    }
    put_shown(text, program, mode, shown)
}

/// Adds the ends that join at a refused line, and what each of them leaves where they differ.
pub fn put_ends(text: &mut Vec<u8>, refused: Refused, closing: Stmt) -> Result<(), AllocError> {
    let shown = difference(refused, closing);
    let mut between: &[u8] = b"";
    for place in 0..=refused.place {
        let Some(mode) = end_at(refused, closing, place) else {
            continue;
        };
        if let Some(line) = refused.walked.line(place) {
            put_piece(text, between)?;
            put_end(text, refused.program(), line, mode, shown)?;
            between = b"; ";
        }
    }
    Ok(())
}
