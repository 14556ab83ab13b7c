//! Lines of C.

use crate::place::Place;
use rc_read::source::first_word;
use rc_text::text::{put_piece, put_pieces};
use std::alloc::AllocError;

/// Adds the blanks before a line.
pub fn put_indentation(text: &mut Vec<u8>, depth: usize) -> Result<(), AllocError> {
    for _ in 0..depth {
        put_piece(text, b"    ")?;
    }
    Ok(())
}

/// Adds a line of these pieces.
pub fn put_line(text: &mut Vec<u8>, place: Place<'_>, pieces: &[&[u8]]) -> Result<(), AllocError> {
    put_indentation(text, place.depth)?;
    put_pieces(text, pieces)?;
    put_piece(text, b"\n")
}

/// Adds a line that logs the event of the statement: its words, and what they are filled with.
pub fn put_event(text: &mut Vec<u8>, place: Place<'_>, pieces: &[&[u8]]) -> Result<(), AllocError> {
    let number = place.decimal(u64::from(place.number))?;
    let name = place.thread.declared_name();
    put_indentation(text, place.depth)?;
    match place.thread.copy {
        None => put_pieces(text, &[b"EVENT(\"", name, b" "])?,
        Some(_) => put_pieces(text, &[b"COPY_EVENT(\"", name, b"[%u] "])?,
    }
    put_pieces(text, &[&number, b" "])?;
    put_pieces(text, pieces)?;
    put_piece(text, b");\n")
}

/// Adds the statement's line of the model as a comment, to the end of the line.
pub fn put_comment(text: &mut Vec<u8>, place: Place<'_>) -> Result<(), AllocError> {
    let number = place.decimal(u64::from(place.number))?;
    put_pieces(text, &[b"/* ", &number, b":"])?;
    put_words(text, place.source)?;
    put_piece(text, b" */\n")
}

/// Adds the words of a line of the model, with a blank before each.
fn put_words(text: &mut Vec<u8>, line: &[u8]) -> Result<(), AllocError> {
    let mut rest = line;
    while let Some((word, after)) = first_word(rest) {
        put_pieces(text, &[b" ", word])?;
        rest = after;
    }
    Ok(())
}

/// Adds the statement's line of the model as a comment in a line of its own.
pub fn put_source(text: &mut Vec<u8>, place: Place<'_>) -> Result<(), AllocError> {
    put_indentation(text, place.depth)?;
    put_comment(text, place)
}

/// Adds the end of a block of C, with the line of the model that ends it.
pub fn put_closing(text: &mut Vec<u8>, place: Place<'_>) -> Result<(), AllocError> {
    put_indentation(text, place.depth)?;
    put_piece(text, b"} ")?;
    put_comment(text, place)
}
