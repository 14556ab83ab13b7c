//! Variables that say what is held.

use super::loops::{Kept, put_line};
use crate::walked::Refused;
use rc_lang::lines::{Comparison, Op, Stmt, Test};
use rc_text::text::{put_counted, put_piece, put_pieces};
use std::alloc::AllocError;

/// The test of a variable in whose branch a refused line is, innermost: its place, and the variable.
fn test_around(refused: Refused) -> Option<(usize, usize)> {
    let mut found = None;
    for place in 0..refused.place {
        let test = match refused.stmt(place) {
            Stmt::Else(test) => test,
            _ => place,
        };
        if let Stmt::If(Test::Compare(variable, _, _)) = refused.stmt(test) {
            if refused.place < refused.program().end_at(refused.walked.number, place) {
                found = Some((test, variable));
            }
        }
    }
    found
}

/// Whether a variable is given a number above a place, and below the line that begins the block which ends there.
fn is_set(refused: Refused, variable: usize, end: usize) -> bool {
    let mut is_set = false;
    for place in 0..end {
        is_set = match refused.stmt(place) {
            Stmt::Do(Op::Set(x, n)) => is_set || x == variable && n != 0,
            Stmt::Case(_, _) | Stmt::Other(_) | Stmt::Nothing(_) => false,
            Stmt::If(_) | Stmt::Else(_) | Stmt::Loop(_) => false,
            _ => is_set,
        };
    }
    is_set
}

/// Whether a variable is given 0 above a refused line.
fn is_cleared(refused: Refused, variable: usize) -> bool {
    for place in 0..refused.place {
        if let Stmt::Do(Op::Set(x, 0)) = refused.stmt(place) {
            if x == variable {
                return true;
            }
        }
    }
    false
}

/// A loop of the thread: the last one above the refused line, by its place and the number of its list.
fn loop_above(refused: Refused) -> Option<(usize, usize)> {
    let mut found = None;
    for place in 0..refused.place {
        if let Stmt::Loop(list) = refused.stmt(place) {
            found = Some((place, list));
        }
    }
    found
}

/// The name of a variable of the thread.
fn name_of<'a>(refused: Refused<'a>, variable: usize) -> Option<&'a [u8]> {
    let thread = refused.walked.thread;
    let name = thread.variables.get(variable)?;
    Some(name)
}

/// The variable that the loops of the thread name.
fn flag_of(refused: Refused) -> Option<usize> {
    refused.walked.thread.flag()
}

/// Adds that the flag may say that a part is given away at a place.
pub fn put_zero(text: &mut Vec<u8>, refused: Refused, place: usize) -> Result<(), AllocError> {
    let Some(name) = flag_of(refused).and_then(|flag| name_of(refused, flag)) else {
        return Ok(());
    };
    put_pieces(text, &[b", or let the flag say that it is out: `", name])?;
    put_counted(
        text,
        b" = 0` below line ",
        u64::from(refused.number(place)),
        b"",
    )
}

/// Adds that a variable says what is held, where a refused line is in the branch of its test, and the end that has what is
/// missing there sets it; and says whether that is so.
pub fn put_when(text: &mut Vec<u8>, refused: Refused, holding: usize) -> Result<bool, AllocError> {
    let Some((test, variable)) = test_around(refused) else {
        return Ok(false);
    };
    let Some(name) = name_of(refused, variable) else {
        return Ok(false);
    };
    if flag_of(refused).is_some() || !is_set(refused, variable, holding) {
        return Ok(false);
    }
    put_pieces(
        text,
        &[b"Let a loop name `", name, b"`, which says what is held: "],
    )?;
    put_named(text, refused, name)?;
    if refused.program().version() < 2 {
        put_piece(text, b", from `ringcheck 2` on")?;
    }
    if !is_cleared(refused, variable) {
        put_pieces(text, &[b"; write `", name, b" = 0` where it isn't held"])?;
    }
    if !is_against_zero(refused.stmt(test)) {
        put_counted(
            text,
            b"; and test it against 0 alone, line ",
            u64::from(refused.number(test)),
            b" too",
        )?;
    }
    put_piece(text, b".")?;
    Ok(true)
}

/// Adds the line of the last loop above with the name of a variable, or of one that is to be there.
fn put_named(text: &mut Vec<u8>, refused: Refused, name: &[u8]) -> Result<(), AllocError> {
    let Some((place, list)) = loop_above(refused) else {
        return put_pieces(text, &[b"`loop keeps when ", name, b" {`"]);
    };
    let Some(items) = refused.walked.thread.lists.get(list) else {
        return Ok(());
    };
    let kept = Kept {
        items,
        part: None,
        flagged: false,
        queue: items.queue,
    };
    put_counted(text, b"line ", u64::from(refused.number(place)), b", ")?;
    put_line(text, refused, kept, Some(name))
}

/// Whether a test is one of 0 against all other numbers.
fn is_against_zero(stmt: Stmt) -> bool {
    match stmt {
        Stmt::If(Test::Compare(_, Comparison::Equal | Comparison::NotEqual, n)) => n == 0,
        _ => false,
    }
}
