//! Headers that hold what another thread needs.

use crate::parts::{put_part, shares_of};
use crate::walked::Refused;
use rc_lang::program::Thread;
use rc_split::part::Part;
use rc_text::text::{put_counted, put_piece, put_pieces};
use std::alloc::AllocError;

/// How many shares of a buffer a thread begins with.
fn shares_in(thread: &Thread, buffer: usize) -> u32 {
    shares_of(&thread.items.shares, buffer)
}

/// What all pools and headers together have of a buffer's shares, and the first thread of another line that begins with
/// some, with how many.
#[derive(Clone, Copy)]
struct Begun<'a> {
    given: u32,
    other: Option<(&'a Thread, u32)>,
}

/// What pools and headers have of a buffer's shares at the start.
fn at_start(refused: Refused<'_>, buffer: usize) -> Begun<'_> {
    let mut given: u32 = 0;
    let mut other = None;
    for stock in refused.program().stock() {
        given = given.saturating_add(shares_of(&stock.items.shares, buffer));
    }
    for thread in refused.program().threads() {
        let held = shares_in(thread, buffer);
        given = given.saturating_add(held);
        if thread.line != refused.walked.thread.line && held > 0 && other.is_none() {
            other = Some((thread, held));
        }
    }
    Begun { given, other }
}

/// How many threads have the text of a refused one: its copies, or it alone.
fn copies_of(refused: Refused<'_>) -> u32 {
    let mut copies: u32 = 0;
    for thread in refused.program().threads() {
        if thread.line == refused.walked.thread.line {
            copies = copies.saturating_add(1);
        }
    }
    copies
}

/// Adds that the header of a thread is to hold a part, since no header has the rest.
fn put_more(
    text: &mut Vec<u8>,
    refused: Refused,
    own: &Thread,
    part: Part,
) -> Result<(), AllocError> {
    let line = u64::from(own.line);
    put_counted(text, b"Let the header, line ", line, b", hold ")?;
    put_part(text, refused.program(), part)?;
    put_piece(text, b": no header has the rest.")
}

/// Adds that a thread is to begin with a part, and that another one now begins with so much of it.
fn put_other(
    text: &mut Vec<u8>,
    refused: Refused,
    part: Part,
    thread: &Thread,
    held: Part,
) -> Result<(), AllocError> {
    let (line, name) = (u64::from(thread.line), thread.declared_name());
    put_piece(text, b"Take ")?;
    put_part(text, refused.program(), held)?;
    put_counted(text, b" from the header of line ", line, b" and ")?;
    put_piece(text, b"let this thread begin with ")?;
    put_part(text, refused.program(), part)?;
    put_pieces(
        text,
        &[b", or let ", name, b" pass it on by a request or the pool."],
    )
}

/// Adds which header has the shares of a buffer that a thread never holds.
pub fn put_move(text: &mut Vec<u8>, refused: Refused, part: Part) -> Result<(), AllocError> {
    let Part::Shares(buffer, count) = part else {
        return Ok(());
    };
    let own = refused.walked.thread;
    let Begun { given, other } = at_start(refused, buffer);
    let wanted = count.saturating_sub(shares_in(own, buffer));
    let free = refused.program().shares_at(buffer).saturating_sub(given);
    if wanted > 0 && wanted.saturating_mul(copies_of(refused)) <= free {
        return put_more(text, refused, own, part);
    }
    match other {
        Some((thread, held)) => {
            put_other(text, refused, part, thread, Part::Shares(buffer, held))
        }
        None => Ok(()),
    }
}
