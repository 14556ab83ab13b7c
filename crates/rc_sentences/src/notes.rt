//! Notes on a program: which of its `if take` never find what they ask for.

use crate::parts::put_part;
use crate::puts::{Puts, begun_in, count_of, with_count};
use rc_lang::lines::{Stmt, Test};
use rc_lang::program::{Program, Thread};
use rc_read::source::{Lines, put_line_words};
use rc_split::part::Part;
use rc_text::names::pool_name;
use rc_text::text::{put_counted, put_piece, put_pieces};
use std::alloc::{AllocError, Global};

/// How many bytes most notes have at most.
const MOST_BYTES: usize = 128;

/// A part that is taken from a pool, and how many of it come there at most, which are fewer.
#[derive(Clone, Copy)]
struct Shortage {
    part: Part,
    put: u32,
    pool: Option<usize>,
}

/// A note on a line: its number, from 1, and a sentence, which begins with the line.
#[derive(Drop)]
pub struct Note {
    pub line: u32,
    pub text: Vec<u8>,
}

/// A note on each `if take` that asks for more than its pool has at the start and the lines of the program put there, in the
/// order of their lines: its first branch is never taken.
pub fn notes_on(alloc: Global, lines: &Lines, program: &Program) -> Result<Vec<Note>, AllocError> {
    let mut notes = Vec::new(alloc);
    let puts = Puts::of(alloc, program)?;
    for thread in program.threads() {
        if !thread.is_further() {
            push_notes(&mut notes, lines, &puts, thread)?;
        }
    }
    Ok(notes)
}

/// Adds the notes on a thread.
fn push_notes(
    notes: &mut Vec<Note>,
    lines: &Lines,
    puts: &Puts<'_>,
    thread: &Thread,
) -> Result<(), AllocError> {
    for line in &thread.lines {
        if let Some(shortage) = shortage_at(puts, thread, line.stmt) {
            push_note(notes, lines, puts, line.number, shortage)?;
        }
    }
    Ok(())
}

/// The first part that a statement takes although no lines put enough of it there, if there is one.
fn shortage_at(puts: &Puts<'_>, thread: &Thread, stmt: Stmt) -> Option<Shortage> {
    let Stmt::If(Test::Take(pool, list)) = stmt else {
        return None;
    };
    let items = thread.lists.get(list)?;
    for share in &items.shares {
        let shortage = shortage_of(puts, pool, Part::Shares(share.buffer, share.count));
        if shortage.is_some() {
            return shortage;
        }
    }
    for token in &items.tokens {
        let shortage = shortage_of(puts, pool, Part::Token(*token));
        if shortage.is_some() {
            return shortage;
        }
    }
    shortage_of(puts, pool, Part::Credits(items.credits))
}

/// How many of a part are put into a pool, if fewer than that.
fn shortage_of(puts: &Puts<'_>, pool: Option<usize>, part: Part) -> Option<Shortage> {
    let put = puts.count(pool, part);
    (put < count_of(part)).then_some(Shortage { part, put, pool })
}

/// Adds the note on the line with this number.
fn push_note(
    notes: &mut Vec<Note>,
    lines: &Lines,
    puts: &Puts<'_>,
    number: u32,
    shortage: Shortage,
) -> Result<(), AllocError> {
    let mut text = Vec::with_capacity(*notes.allocator(), MOST_BYTES)?;
    put_counted(&mut text, b"line ", u64::from(number), b", ")?;
    put_line_words(&mut text, lines, number)?;
    // The line ends with a blank and a brace.
    text.truncate(text.len().saturating_sub(2));
    put_piece(&mut text, b": ")?;
    put_shortage(&mut text, puts, shortage)?;
    put_piece(&mut text, b", so its first branch is never taken")?;
    Ok(notes.push(Note { line: number, text })?)
}

/// Adds what is put of a part.
fn put_shortage(text: &mut Vec<u8>, puts: &Puts<'_>, shortage: Shortage) -> Result<(), AllocError> {
    let Shortage { part, put, pool } = shortage;
    if put == 0 {
        put_piece(text, b"nothing puts ")?;
        put_part(text, puts.program, part)?;
    } else {
        put_piece(text, b"no more than ")?;
        put_part(text, puts.program, with_count(part, put))?;
        let is_begun = begun_in(puts.program, pool, part) > 0;
        put_piece(
            text,
            if is_begun {
                b" is there at the start or put"
            } else {
                b" is put"
            },
        )?;
    }
    match pool {
        Some(pool) => put_pool(text, puts, part, pool),
        None => Ok(()),
    }
}

/// Adds into which pool a part isn't put, and which one with a name gets it, if one does.
fn put_pool(
    text: &mut Vec<u8>,
    puts: &Puts<'_>,
    part: Part,
    pool: usize,
) -> Result<(), AllocError> {
    put_pieces(text, &[b" into ", pool_name(puts.program, pool)])?;
    for other in 0..puts.program.pools().len() {
        if puts.has(other, part) {
            let name = pool_name(puts.program, other);
            return put_pieces(text, &[b" (it is put into ", name, b")"]);
        }
    }
    Ok(())
}
