//! What a word means, and what is known before its line.

use crate::forms::{meaning_of, put_form};
use crate::known::{program_of, put_known};
use crate::marks::{Kind, Mark, fit_of};
use crate::names::{byte_of, declaration_of, mark_at};
use crate::page::Page;
use crate::place::{Position, Range, number_of};
use crate::words::Words;
use rc_read::parts::Region;
use rc_read::words::is;
use rc_report::text::{put_piece, put_pieces};
use std::alloc::{AllocError, Global};

/// How many kinds a token has at most.
const MOST_KINDS: usize = 4;

/// What is shown of a word, in lines of plain text, and where the word is.
#[derive(Drop)]
pub struct Hover {
    pub text: Vec<u8>,
    pub range: Range,
}

/// What is shown of the word at a place: what it means, and what is known before its line. Blanks and comments have
/// nothing.
pub fn hover_at(alloc: Global, text: &[u8], at: Position) -> Result<Option<Hover>, AllocError> {
    let page = Page::of(alloc, text)?;
    hover_on(alloc, text, &page, at)
}

/// The same, of a model that was looked at line by line.
fn hover_on(
    alloc: Global,
    text: &[u8],
    page: &Page,
    at: Position,
) -> Result<Option<Hover>, AllocError> {
    let (line, byte) = byte_of(page, at);
    let words = Words::of(alloc, page.line(line))?;
    let Some(place) = words.place_at(byte) else {
        return Ok(None);
    };
    let mut shown = meaning(alloc, page, at, &words, place)?;
    put_before(alloc, &mut shown, text, page, line)?;
    Ok(Some(Hover {
        text: shown,
        range: page.range(line, &words.word(place)),
    }))
}

/// What the word at a place means.
fn meaning(
    alloc: Global,
    page: &Page,
    at: Position,
    words: &Words,
    place: usize,
) -> Result<Vec<u8>, AllocError> {
    let mut shown = Vec::new(alloc);
    match mark_at(page, at) {
        Some(mark) => put_mark(alloc, &mut shown, page, &mark)?,
        None => put_word(alloc, &mut shown, page, at, words, place)?,
    }
    Ok(shown)
}

/// Adds what is known before a line, if it is one of a thread.
fn put_before(
    alloc: Global,
    shown: &mut Vec<u8>,
    text: &[u8],
    page: &Page,
    line: usize,
) -> Result<(), AllocError> {
    let above = page.above(line);
    let is_inside = matches!(above.region, Region::InThread) && above.scope < line;
    if !is_inside {
        return Ok(());
    }
    match program_of(alloc, text)? {
        Some(program) => {
            let (header, number) = (number_of(above.scope), number_of(line));
            put_known(
                shown,
                &program,
                header.saturating_add(1),
                number.saturating_add(1),
            )
        }
        None => Ok(()),
    }
}

/// Adds what a word means that is no name: an item, or the form of its line.
fn put_word(
    alloc: Global,
    shown: &mut Vec<u8>,
    page: &Page,
    at: Position,
    words: &Words,
    place: usize,
) -> Result<(), AllocError> {
    match words.text(place) {
        [b'c', b':', ..] => put_piece(shown, b"credits: how many completions it may still cause"),
        [b'q', b':', ..] => put_piece(shown, b"how many entries may be queued there"),
        _ => put_row(alloc, shown, page, at.line as usize, words),
    }
}

/// Adds the form of a line, and what it does.
fn put_row(
    alloc: Global,
    shown: &mut Vec<u8>,
    page: &Page,
    line: usize,
    words: &Words,
) -> Result<(), AllocError> {
    let above = page.above(line);
    let Some(fit) = fit_of(alloc, above.version, above.region, words)? else {
        return put_piece(shown, b"no form begins so here");
    };
    put_form(shown, fit.row)?;
    put_pieces(shown, &[b": ", meaning_of(fit.row).as_bytes()])
}

/// Adds what a name is the name of.
fn put_mark(
    alloc: Global,
    shown: &mut Vec<u8>,
    page: &Page,
    mark: &Mark,
) -> Result<(), AllocError> {
    if mark.kind == Kind::Variable {
        return put_variable(alloc, shown, page, mark);
    }
    match declaration_of(page, mark) {
        Some(declared) => put_declared(alloc, shown, page, &declared),
        None => put_pieces(shown, &[mark.name.text, b" isn't declared"]),
    }
}

/// Adds whose variable a name is.
fn put_variable(
    alloc: Global,
    shown: &mut Vec<u8>,
    page: &Page,
    mark: &Mark,
) -> Result<(), AllocError> {
    let header = Words::of(alloc, page.line(mark.scope))?;
    let (name, thread) = (mark.name.text, header.text(1));
    put_pieces(shown, &[b"variable ", name, b" of thread ", thread])
}

/// Adds what a line declares.
fn put_declared(
    alloc: Global,
    shown: &mut Vec<u8>,
    page: &Page,
    declared: &Mark,
) -> Result<(), AllocError> {
    let words = Words::of(alloc, page.line(declared.line))?;
    put_pieces(shown, &[words.text(0), b" ", words.text(1)])?;
    match declared.kind {
        Kind::File => put_pieces(shown, &[b": ", words.text(2), b" bytes"]),
        Kind::Buffer => {
            let (bytes, shares) = (words.text(2), words.text(3));
            put_pieces(shown, &[b": bytes ", bytes, b", shares ", shares])
        }
        Kind::Token => put_token(shown, &words),
        _ => Ok(()),
    }
}

/// Adds what a token's request may be, by the words of its line.
fn put_token(shown: &mut Vec<u8>, words: &Words) -> Result<(), AllocError> {
    let mut between: &[u8] = b": ";
    let mut place: usize = 2;
    for _ in 0..MOST_KINDS {
        if place >= words.count() {
            break;
        }
        put_kind(shown, words, place, between)?;
        between = b", or ";
        // The words of a kind are followed by `or`, or by nothing.
        place = place
            .saturating_add(words_of(words.text(place)))
            .saturating_add(1);
    }
    Ok(())
}

/// How many words a kind has that begins with this one.
fn words_of(kind: &[u8]) -> usize {
    if is(kind, b"read") {
        2
    } else if is(kind, b"write") {
        3
    } else {
        1
    }
}

/// Adds a kind, by its words from a place on, after what is between two kinds.
fn put_kind(
    shown: &mut Vec<u8>,
    words: &Words,
    place: usize,
    between: &[u8],
) -> Result<(), AllocError> {
    let kind = words.text(place);
    let buffer = words.text(place.saturating_add(1));
    if is(kind, b"read") {
        return put_pieces(
            shown,
            &[between, b"a read into ", buffer, b", with all its shares"],
        );
    }
    if is(kind, b"write") {
        let shares = words.text(place.saturating_add(2));
        return put_pieces(
            shown,
            &[between, b"a write of ", buffer, b", shares ", shares],
        );
    }
    put_pieces(shown, &[between, kind])
}
