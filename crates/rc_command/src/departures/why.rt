//! Why a line departs, in words.

use crate::departures::places_text::put_places;
use rc_follow::places::Departure;
use rc_log::call::Lack;
use rc_log::words::{is, word_at};
use rc_report::source::Lines;
use rc_text::text::{put_counted, put_piece, put_pieces};
use std::alloc::{AllocError, Global};

/// Adds what a line says that its thread does: the call with the words after it.
pub fn put_says(text: &mut Vec<u8>, line: &[u8], departure: &Departure) -> Result<(), AllocError> {
    let call = word_at(line, 2);
    let verb = verb_of(call);
    put_pieces(text, &[word_at(line, 0), verb, call])?;
    for number in 3..7 {
        let word = word_at(line, number);
        if !word.is_empty() {
            put_pieces(text, &[b" ", word])?;
        }
    }
    match departure {
        Departure::Elsewhere(_) => put_piece(text, missing(call)),
        _ => Ok(()),
    }
}

/// Adds why a line departs.
pub fn put_why(
    text: &mut Vec<u8>,
    alloc: Global,
    lines: &Lines<'_>,
    line: &[u8],
    departure: &Departure,
) -> Result<(), AllocError> {
    match departure {
        Departure::NoThread => put_pieces(text, &[b"the model has no thread ", word_at(line, 0)]),
        Departure::Lacks(lack) => put_lack(text, line, *lack),
        Departure::NoSqLock => put_piece(text, b"the thread doesn't hold the submission lock"),
        Departure::NoCqLock => put_piece(text, b"the thread doesn't hold the completion lock"),
        Departure::Out(out) => put_counted(text, b"the model has ", *out as u64, b" out"),
        Departure::Used(used) => put_counted(text, b"the model has ", *used as u64, b""),
        Departure::Elsewhere(places) => put_places(text, alloc, lines, line, places),
        Departure::TooMany => Ok(()),
    }
}

/// How a thread does this.
fn verb_of<'a>(call: &'a [u8]) -> &'a [u8] {
    if is_mark(call) {
        b" "
    } else if is(call, b"buffer") || is(call, b"token") || is(call, b"file") {
        b" says "
    } else {
        b" calls "
    }
}

/// Whether a thread does this itself, and doesn't call it.
fn is_mark(call: &[u8]) -> bool {
    is(call, b"reads") || is(call, b"writes") || is(call, b"ends")
}

/// What a thread hasn't that does this to a buffer.
fn missing(call: &[u8]) -> &'static [u8] {
    if is(call, b"reads") {
        b" without a share of it"
    } else if is(call, b"writes") {
        b" without all shares of it"
    } else {
        b""
    }
}

/// Adds why no line of a program makes a call, or why it hasn't what a line declares.
fn put_lack(text: &mut Vec<u8>, line: &[u8], lack: Lack) -> Result<(), AllocError> {
    let first = word_at(line, 3);
    match lack {
        Lack::NoEntry => put_piece(text, b"the model never finds the ring full"),
        Lack::NoSuchRequest => put_piece(text, b"the model has no such request"),
        Lack::NoFlags => put_piece(text, b"the model has no flags"),
        Lack::FsyncFlags => put_piece(text, b"the model has no such flags"),
        Lack::UnsaidFile => put_piece(text, b"nobody said which file that is"),
        Lack::NoFile => put_pieces(text, &[b"the model has no file ", first]),
        Lack::UnsaidBuffer => put_piece(text, b"nobody said which buffer that is"),
        Lack::PastBuffer => put_piece(text, b"that goes past the end of its buffer"),
        Lack::NoBuffer => put_pieces(text, &[b"the model has no buffer ", buffer_word(line)]),
        Lack::NoPool => put_pieces(text, &[b"the model has no pool ", first]),
        Lack::NoToken => put_pieces(text, &[b"the model has no token ", first]),
        Lack::SmallBuffer(bytes) => {
            put_counted(text, b"the model's has ", u64::from(bytes), b" bytes")
        }
    }
}

/// The word that names the line's buffer: the first one after a mark of it and where it is declared, else the second one.
fn buffer_word(line: &[u8]) -> &[u8] {
    let call = word_at(line, 2);
    if is_mark(call) || is(call, b"buffer") {
        word_at(line, 3)
    } else {
        word_at(line, 4)
    }
}
