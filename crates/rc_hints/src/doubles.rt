//! What is declared or named twice.

use crate::hint::Hint;
use crate::lines::{between, column_of, place_of, word_at};
use crate::names::{Kind, has_buffer, has_file, has_pool, has_thread, has_token, word_of};
use crate::places::{Place, column_at};
use crate::wording::put_framed;
use rc_read::parts::Parts;
use rc_read::table::Part;
use rc_read::words::is;
use rc_text::text::{put_counted, put_piece, put_pieces};
use std::alloc::AllocError;

/// What a place declares that is declared already.
fn known_at(parts: &Parts, place: Place) -> Option<Kind> {
    match place.part {
        Part::NewFile => has_file(parts, place.word).then_some(Kind::File),
        Part::NewBuffer => has_buffer(parts, place.word).then_some(Kind::Buffer),
        Part::NewToken => has_token(parts, place.word).then_some(Kind::Token),
        Part::NewPool => has_pool(parts, place.word).then_some(Kind::Pool),
        Part::NewThread => has_thread(parts, place.word).then_some(Kind::Thread),
        _ => None,
    }
}

/// Whether two places are of items that name the same.
fn are_alike(place: &Place, other: &Place) -> bool {
    match (place.part, other.part) {
        (Part::Buffer, Part::Buffer) | (Part::HeldToken, Part::HeldToken) => {
            is(place.word, other.word)
        }
        (Part::Credits, Part::Credits) | (Part::Queued, Part::Queued) => true,
        _ => false,
    }
}

/// Whether an item names what one before it does: in its list, or a token in either.
fn repeats(before: &[Place], place: &Place) -> bool {
    let mut found = false;
    for other in before {
        found = match other.part {
            Part::Flag => found && matches!(place.part, Part::HeldToken),
            _ => found || are_alike(place, other),
        };
    }
    found
}

/// Whether two words of a line begin kinds of one word, and of one buffer where they have one.
fn are_one_kind(words: &[&[u8]], at: usize, other: usize) -> bool {
    let word = word_at(words, at);
    let has_buffer = is(word, b"read") || is(word, b"write");
    let buffer = word_at(words, at.saturating_add(1));
    let other_buffer = word_at(words, other.saturating_add(1));
    is(word, word_at(words, other)) && (!has_buffer || is(buffer, other_buffer))
}

/// Whether two places of a line begin kinds, and the same one.
fn begin_one_kind(words: &[&[u8]], place: &Place, other: &Place) -> bool {
    match (place.part, other.part) {
        (Part::KindWord, Part::KindWord) => are_one_kind(words, place.at, other.at),
        _ => false,
    }
}

/// Whether a place begins a kind that one before it begins, too.
fn repeats_kind(before: &[Place], place: &Place, words: &[&[u8]]) -> bool {
    for other in before {
        if begin_one_kind(words, place, other) {
            return true;
        }
    }
    false
}

/// Adds that a kind of a token is one that it has already.
fn put_kind_again(
    hint: &mut Hint,
    line: &[u8],
    place: &Place,
    words: &[&[u8]],
) -> Result<(), AllocError> {
    hint.column = Some(column_of(line, place.at));
    let text = &mut hint.words;
    put_framed(text, b"'", place.word, b"")?;
    if is(place.word, b"read") || is(place.word, b"write") {
        put_framed(text, b" ", word_at(words, place.at.saturating_add(1)), b"")?;
    }
    put_piece(text, b"' is a kind of this token already")
}

/// Adds that an item names again what an earlier one does.
fn put_again(hint: &mut Hint, line: &[u8], place: &Place, item: &[u8]) -> Result<(), AllocError> {
    hint.column = Some(column_of(line, place.at));
    let text = &mut hint.words;
    put_framed(text, b"'", item, b"' names ")?;
    let name = match place.part {
        Part::HeldToken => item,
        _ => between(item, 0, place_of(item, b':').unwrap_or(0)),
    };
    put_framed(text, b"'", name, b"' again")
}

/// Whether a line says what the pool without a name has at the start, as one above it does.
fn is_stock_again(parts: &Parts, words: &[&[u8]]) -> bool {
    is(word_at(words, 0), b"pool")
        && is(word_at(words, 1), b"holds")
        && parts.stock.iter().any(|stock| stock.pool.is_none())
}

/// Adds that what the pool without a name has is said already, and at which line.
fn put_stock_again(hint: &mut Hint, parts: &Parts, line: &[u8]) -> Result<(), AllocError> {
    hint.column = Some(column_of(line, 1));
    let text = &mut hint.words;
    put_piece(
        text,
        b"what the pool without a name holds is said above already",
    )?;
    match parts.stock.iter().find(|stock| stock.pool.is_none()) {
        Some(stock) => put_counted(text, b", at line ", u64::from(stock.line), b""),
        None => Ok(()),
    }
}

/// Adds that what a place declares is declared already.
fn put_known(hint: &mut Hint, line: &[u8], place: Place, kind: Kind) -> Result<(), AllocError> {
    hint.column = Some(column_at(line, place));
    let text = &mut hint.words;
    put_pieces(text, &[word_of(kind), b" "])?;
    put_framed(text, b"'", place.word, b"' is declared above already")
}

/// Adds the hint for a name that is declared or named twice.
pub fn put_double_name(
    hint: &mut Hint,
    parts: &Parts,
    places: &[Place],
    line: &[u8],
    words: &[&[u8]],
) -> Result<(), AllocError> {
    for place in places {
        if let Some(kind) = known_at(parts, *place) {
            return put_known(hint, line, *place, kind);
        }
    }
    if is_stock_again(parts, words) {
        return put_stock_again(hint, parts, line);
    }
    for i in 0..places.len() {
        let (before, place) = (&places[..i], &places[i]);
        if repeats(before, place) {
            return put_again(hint, line, place, word_at(words, place.at));
        }
        if repeats_kind(before, place, words) {
            return put_kind_again(hint, line, place, words);
        }
    }
    Ok(())
}
