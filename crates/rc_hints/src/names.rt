//! Names in their places: what is declared, and names that aren't.

use crate::hint::Hint;
use crate::near::{Nearest, nearer, none_near};
use crate::places::{Place, column_at};
use crate::wording::put_framed;
use rc_lang::numbers::number_of;
use rc_read::parts::Parts;
use rc_read::table::Part;
use rc_read::words::is;
use rc_text::text::{put_number, put_piece, put_pieces};
use std::alloc::AllocError;

/// Whether the file with this number is declared.
pub fn has_file(parts: &Parts, word: &[u8]) -> bool {
    let number = number_of(0, 1023, word);
    parts
        .files
        .iter()
        .any(|f| number == Some(u64::from(f.number)))
}

/// Whether the token with this user data is declared.
pub fn has_token(parts: &Parts, word: &[u8]) -> bool {
    let number = number_of(0, u64::MAX, word);
    parts.tokens.iter().any(|t| number == Some(t.user_data))
}

/// Whether the buffer with this name is declared.
pub fn has_buffer(parts: &Parts, word: &[u8]) -> bool {
    parts.buffers.iter().any(|b| is(&b.name, word))
}

/// Whether the pool with this name is declared.
pub fn has_pool(parts: &Parts, word: &[u8]) -> bool {
    parts.pools.iter().any(|name| is(name, word))
}

/// Whether a thread with this name, or copies of one, are above, or are open. Where none is open the draft has no name.
pub fn has_thread(parts: &Parts, word: &[u8]) -> bool {
    is(&parts.draft.name, word) || parts.threads.iter().any(|t| is(t.declared_name(), word))
}

/// Adds what is before the name with this place in a list, and says whether the name is shown.
fn put_between(text: &mut Vec<u8>, place: usize) -> Result<bool, AllocError> {
    if place == 8 {
        put_piece(text, b", ..")?;
    }
    if place > 0 && place < 8 {
        put_piece(text, b", ")?;
    }
    Ok(place < 8)
}

/// Adds the name with this place in a list, if it is shown; answers the nearest spelling so far.
fn put_name<'a>(
    text: &mut Vec<u8>,
    word: &[u8],
    so_far: Nearest<'a>,
    place: usize,
    name: &'a [u8],
) -> Result<Nearest<'a>, AllocError> {
    if put_between(text, place)? {
        put_piece(text, name)?;
    }
    nearer(*text.allocator(), word, so_far, name)
}

fn put_buffers(text: &mut Vec<u8>, parts: &Parts, word: &[u8]) -> Result<(), AllocError> {
    let mut nearest = none_near();
    for (i, buffer) in parts.buffers.iter().enumerate() {
        nearest = put_name(text, word, nearest, i, &buffer.name)?;
    }
    put_nearest(text, nearest)
}

/// Adds the nearest spelling, if one is near.
fn put_nearest(text: &mut Vec<u8>, nearest: Nearest) -> Result<(), AllocError> {
    if nearest.distance < 3 {
        put_framed(text, b"; the nearest is '", nearest.word, b"'")?;
    }
    Ok(())
}

fn put_pools(text: &mut Vec<u8>, parts: &Parts, word: &[u8]) -> Result<(), AllocError> {
    let mut nearest = none_near();
    for (i, name) in parts.pools.iter().enumerate() {
        nearest = put_name(text, word, nearest, i, name)?;
    }
    put_nearest(text, nearest)
}

fn put_files(text: &mut Vec<u8>, parts: &Parts) -> Result<(), AllocError> {
    for (i, file) in parts.files.iter().enumerate() {
        if put_between(text, i)? {
            put_number(text, u64::from(file.number))?;
        }
    }
    Ok(())
}

fn put_tokens(text: &mut Vec<u8>, parts: &Parts) -> Result<(), AllocError> {
    for (i, token) in parts.tokens.iter().enumerate() {
        if put_between(text, i)? {
            put_number(text, token.user_data)?;
        }
    }
    Ok(())
}

/// What is declared.
#[derive(Clone, Copy)]
pub enum Kind {
    File,
    Buffer,
    Token,
    Pool,
    Thread,
}

/// The word that says what is declared.
pub fn word_of(kind: Kind) -> &'static [u8] {
    match kind {
        Kind::File => b"file",
        Kind::Buffer => b"buffer",
        Kind::Token => b"token",
        Kind::Pool => b"pool",
        Kind::Thread => b"thread",
    }
}

/// What a place names that has to be declared above, and isn't.
fn unknown_at(parts: &Parts, place: Place) -> Option<Kind> {
    match place.part {
        Part::File => (!has_file(parts, place.word)).then_some(Kind::File),
        Part::Buffer | Part::ReadBuffer => {
            (!has_buffer(parts, place.word)).then_some(Kind::Buffer)
        }
        Part::Token | Part::HeldToken => (!has_token(parts, place.word)).then_some(Kind::Token),
        Part::Pool => (!has_pool(parts, place.word)).then_some(Kind::Pool),
        _ => None,
    }
}

fn count_of(parts: &Parts, kind: Kind) -> usize {
    match kind {
        Kind::File => parts.files.len(),
        Kind::Buffer => parts.buffers.len(),
        Kind::Token => parts.tokens.len(),
        Kind::Pool => parts.pools.len(),
        Kind::Thread => parts.threads.len(),
    }
}

fn put_unknown(
    hint: &mut Hint,
    parts: &Parts,
    line: &[u8],
    place: Place,
    kind: Kind,
) -> Result<(), AllocError> {
    hint.column = Some(column_at(line, place));
    let text = &mut hint.words;
    put_pieces(text, &[b"no ", word_of(kind), b" "])?;
    put_framed(text, b"'", place.word, b"' is declared above; declared: ")?;
    if count_of(parts, kind) == 0 {
        return put_piece(text, b"none");
    }
    match kind {
        Kind::File => put_files(text, parts),
        Kind::Buffer => put_buffers(text, parts, place.word),
        Kind::Token => put_tokens(text, parts),
        Kind::Pool => put_pools(text, parts, place.word),
        Kind::Thread => Ok(()),
    }
}

/// Adds the hint for a file, a buffer, a token or a pool that isn't declared.
pub fn put_unknown_name(
    hint: &mut Hint,
    parts: &Parts,
    line: &[u8],
    places: &[Place],
) -> Result<(), AllocError> {
    for place in places {
        if let Some(kind) = unknown_at(parts, *place) {
            return put_unknown(hint, parts, line, *place, kind);
        }
    }
    Ok(())
}
