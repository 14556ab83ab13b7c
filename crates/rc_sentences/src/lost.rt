//! How a part that a refused line asks for was lost, on the ways that lead to the line.

pub(crate) mod ways;

use crate::asks::Missing;
use crate::parts::{put_part, put_pool};
use crate::puts::{count_in, with_count};
use crate::walked::Refused;
use rc_lang::lines::{Op, Stmt};
use rc_lang::program::Stock;
use rc_read::source::{Lines, put_line_words};
use rc_split::part::Part;
use rc_text::names::pool_name;
use rc_text::text::{put_counted, put_number, put_piece, put_pieces};
use std::alloc::AllocError;
use ways::{Loss, Point};

/// A refused line, by the lines of its text.
#[derive(Clone, Copy)]
struct Page<'a> {
    lines: &'a Lines<'a>,
    refused: Refused<'a>,
}

/// Adds how a part was lost that a refused line misses: one line, without a line feed.
pub fn put_lost(
    text: &mut Vec<u8>,
    lines: &Lines,
    refused: Refused,
    missing: Missing,
    loss: Loss,
) -> Result<(), AllocError> {
    put_loss(text, Page { lines, refused }, missing, loss)
}

/// The number of the last line above a refused one before which a part is held.
pub fn last_held(refused: Refused, part: Part) -> Option<u32> {
    let mut last = None;
    for (place, state) in refused.walked.states.iter().enumerate() {
        if place < refused.place && state.holds(part) {
            last = Some(refused.number(place));
        }
    }
    last
}

/// Adds how a part is lost.
fn put_loss(
    text: &mut Vec<u8>,
    page: Page,
    missing: Missing,
    loss: Loss,
) -> Result<(), AllocError> {
    match loss {
        Loss::Peeked(part) => {
            put_part(text, page.refused.program(), part)?;
            put_pieces(
                text,
                &[
                    b" belongs to the peeked request until ",
                    calls_for(page.refused, part),
                ],
            )
        }
        Loss::Got(part) => {
            put_part(text, page.refused.program(), part)?;
            put_piece(text, b" comes back when the completion that is got is seen")
        }
        Loss::At(point, by_flag) => {
            put_part(text, page.refused.program(), missing.part)?;
            put_at(text, page, point, by_flag)
        }
        Loss::Ends(lacking, by_flag, holding) => {
            put_part(text, page.refused.program(), missing.part)?;
            put_pieces(text, &[b" isn't held", flag_text(by_flag, lacking.zero)])?;
            put_ends(text, page, lacking.place, holding)
        }
        Loss::Never => {
            let flag = flag_text(missing.on_other, missing.zero);
            put_part(text, page.refused.program(), missing.part)?;
            put_pieces(text, &[b" isn't held", flag, b" on any path to this line"])?;
            put_header(text, page, missing.part)
        }
    }
}

/// The calls that give a part of the peeked request back.
fn calls_for(refused: Refused, part: Part) -> &'static [u8] {
    match part {
        Part::Credits(_) => b"cqe_seen",
        _ if refused.program().version() < 5 => b"cqe_seen",
        _ => b"cqe_get_data64 or cqe_seen",
    }
}

/// Adds at which line a part is lost, and how.
fn put_at(text: &mut Vec<u8>, page: Page, point: Point, by_flag: bool) -> Result<(), AllocError> {
    put_piece(text, b" is held before ")?;
    put_line(text, page, point.place)?;
    let flag = flag_text(by_flag, point.zero);
    put_pieces(text, &[b", and not after it", flag, b": "])?;
    put_how(text, page, point.place)
}

/// Adds at which end a part isn't held, and at which it is.
fn put_ends(
    text: &mut Vec<u8>,
    page: Page,
    lacking: usize,
    holding: usize,
) -> Result<(), AllocError> {
    put_end(text, page, lacking)?;
    put_piece(text, b"; it is")?;
    put_end(text, page, holding)
}

/// With which flag, where that matters.
fn flag_text(by_flag: bool, zero: bool) -> &'static [u8] {
    match (by_flag, zero) {
        (false, _) => b"",
        (true, true) => b" with flag 0",
        (true, false) => b" with flag not 0",
    }
}

/// Adds that a pool begins with a part.
fn put_stock(text: &mut Vec<u8>, page: Page, stock: &Stock, part: Part) -> Result<(), AllocError> {
    let program = page.refused.program();
    put_piece(text, b"; ")?;
    put_pool(text, program, stock.pool)?;
    put_counted(text, b", line ", u64::from(stock.line), b", begins with ")?;
    put_part(text, program, part)
}

/// Adds the number and the words of the line at a place.
fn put_line(text: &mut Vec<u8>, page: Page, place: usize) -> Result<(), AllocError> {
    let number = page.refused.number(place);
    put_counted(text, b"line ", u64::from(number), b", ")?;
    put_line_words(text, page.lines, number)
}

/// Adds which of the ends that the line at a place joins it is, by where its branch or its arm begins.
fn put_end(text: &mut Vec<u8>, page: Page, end: usize) -> Result<(), AllocError> {
    let (what, place): (&[u8], usize) = match page.refused.stmt(end) {
        Stmt::Break(_, _, _) => {
            let number = u64::from(page.refused.number(end));
            return put_counted(text, b" at the break of line ", number, b"");
        }
        Stmt::EndArm(_) => (b" at the end of the arm of ", arm_of(page, end)),
        Stmt::Else(test) => (b" at the end of the branch of ", test),
        Stmt::EndIf(opening) => (b" at the end of the branch of ", opening),
        _ => (b" where the test fails of ", end),
    };
    put_piece(text, what)?;
    put_line(text, page, place)
}

/// The place of the line that begins the arm that ends at a place.
fn arm_of(page: Page, end: usize) -> usize {
    let mut arm = end;
    for place in 0..end {
        match page.refused.stmt(place) {
            Stmt::Case(_, _) | Stmt::Other(_) | Stmt::Nothing(_) => arm = place,
            _ => {}
        }
    }
    arm
}

/// Adds how a part goes that is held before the line at a place and not after it.
fn put_how(text: &mut Vec<u8>, page: Page, place: usize) -> Result<(), AllocError> {
    match page.refused.stmt(place) {
        Stmt::Do(Op::GetSqe | Op::PrepRead(_, _, _, _) | Op::PrepWrite(_, _, _, _, _)) => {
            put_piece(text, b"given to the open entry")?;
            match request_of(page.refused, place) {
                Some(user_data) => put_counted(text, b", then to request ", user_data, b""),
                None => Ok(()),
            }
        }
        Stmt::Do(Op::SetData64(_)) => put_piece(text, b"given to the request"),
        Stmt::Put(None, _) => put_piece(text, b"put into the pool"),
        Stmt::Put(Some(pool), _) => {
            put_pieces(
                text,
                &[b"put into ", pool_name(page.refused.program(), pool)],
            )
        }
        Stmt::Loop(_) => put_piece(text, b"the loop doesn't keep it"),
        Stmt::If(_) => put_piece(text, b"it isn't held with the flag of this branch"),
        _ => put_piece(
            text,
            b"the flag is written, and it isn't held with each flag",
        ),
    }
}

/// The request that the entry becomes that is open after the line at a place.
pub(crate) fn request_of(refused: Refused, place: usize) -> Option<u64> {
    for line in refused
        .walked
        .thread
        .lines
        .iter()
        .skip(place.saturating_add(1))
    {
        match line.stmt {
            Stmt::Do(Op::SetData64(user_data)) => return Some(user_data),
            Stmt::Do(Op::GetSqe) => return None,
            _ => {}
        }
    }
    None
}

/// Adds which pool, or which thread of another line, begins with some of a part, if one does and it isn't credits.
fn put_header(text: &mut Vec<u8>, page: Page, part: Part) -> Result<(), AllocError> {
    if matches!(part, Part::Credits(_)) {
        return Ok(());
    }
    for stock in page.refused.program().stock() {
        let count = count_in(&stock.items, part);
        if count > 0 {
            return put_stock(text, page, stock, with_count(part, count));
        }
    }
    for thread in page.refused.program().threads() {
        let count = count_in(&thread.items, part);
        if thread.line != page.refused.walked.thread.line && count > 0 {
            put_pieces(text, &[b"; thread ", thread.declared_name(), b", line "])?;
            put_number(text, u64::from(thread.line))?;
            put_piece(text, b", begins with ")?;
            return put_part(text, page.refused.program(), with_count(part, count));
        }
    }
    Ok(())
}
