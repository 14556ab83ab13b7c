//! What could be where a line can't be read.

use crate::doubles::put_double_name;
use crate::forms::{needed_version, put_form};
use crate::lines::word_at;
use crate::locks::put_fix;
use crate::names::{has_token, put_unknown_name};
use crate::others::{
    has_two_locks, put_braces, put_case, put_flag, put_head, put_nesting, put_strange,
    put_too_large,
};
use crate::places::places_of;
use crate::ranges::put_bad_number;
use rc_read::ReadCause;
use rc_read::kinds::count_or;
use rc_read::parts::Parts;
use rc_read::words::{is, put_words};
use rc_text::text::{put_counted, put_piece};
use std::alloc::{AllocError, Global};

/// What is wrong with a line that can't be read.
#[derive(Drop)]
pub struct Hint {
    /// The column of the word that is wrong, from 1, where it is one; after the last word, the column after its end.
    pub column: Option<usize>,
    /// What is wrong there: one line of text, without its line feed.
    pub words: Vec<u8>,
    /// What to write, in one sentence; nothing where the words of the line show no more than the cause does.
    pub fix: Vec<u8>,
}

/// What is wrong with a line that can't be read, by its number, from 1, its cause, and what was read above it. At the
/// model's end all lines were read, also that one.
pub fn hint_on(
    alloc: Global,
    line: &[u8],
    number: u32,
    cause: ReadCause,
    above: &Parts,
) -> Result<Hint, AllocError> {
    let mut hint = Hint {
        column: None,
        words: Vec::new(alloc),
        fix: Vec::new(alloc),
    };
    let mut words = Vec::new(alloc);
    put_words(&mut words, line)?;
    put_hint(&mut hint, line, &words, number, cause, above)?;
    fix_line(&mut hint.fix, &words, cause, above)?;
    Ok(hint)
}

/// Adds what is wrong with a line of these words.
fn put_hint(
    hint: &mut Hint,
    line: &[u8],
    words: &[&[u8]],
    number: u32,
    cause: ReadCause,
    above: &Parts,
) -> Result<(), AllocError> {
    let alloc = *hint.words.allocator();
    let places = places_of(alloc, above.head.version, words)?;
    match cause {
        ReadCause::NotAscii => put_strange(hint, line),
        ReadCause::BadHead => put_head(&mut hint.words, above, words),
        ReadCause::BadLine => put_form(alloc, hint, above, line, words),
        ReadCause::BadNumber => put_bad_number(hint, above, line, &places),
        ReadCause::UnknownName => put_unknown_name(hint, above, line, &places),
        ReadCause::DoubleName => put_double_name(hint, above, &places, line, words),
        ReadCause::Braces => put_braces(&mut hint.words, above, words, number <= above.count),
        ReadCause::TooLarge => put_too_large(&mut hint.words, above, line, words),
        ReadCause::BadNesting => put_nesting(&mut hint.words, above, words),
        ReadCause::BadCase => put_case(&mut hint.words, above, words),
        ReadCause::OtherFlag => put_flag(&mut hint.words, above),
    }
}

/// Adds a hint as it is printed: after its column, if it has one.
pub fn put_printed(text: &mut Vec<u8>, hint: &Hint) -> Result<(), AllocError> {
    if let Some(column) = hint.column {
        put_counted(text, b"column ", column as u64, b": ")?;
    }
    put_piece(text, &hint.words)
}

/// Adds what to write for a line that can't be read, where its words show more than the cause does.
fn fix_line(
    fix: &mut Vec<u8>,
    words: &[&[u8]],
    cause: ReadCause,
    above: &Parts,
) -> Result<(), AllocError> {
    match cause {
        ReadCause::BadLine => put_version(fix, above, words),
        ReadCause::DoubleName => put_fewer_kinds(fix, words, above),
        ReadCause::BadNesting if has_two_locks(above) && is(word_at(words, 0), b"lock") => {
            put_fix(fix, above, words)
        }
        _ => Ok(()),
    }
}

/// Adds what to write where a token names a kind twice.
fn put_fewer_kinds(fix: &mut Vec<u8>, words: &[&[u8]], above: &Parts) -> Result<(), AllocError> {
    let has_kinds = is(word_at(words, 0), b"token") && count_or(words) > 0;
    if !has_kinds || has_token(above, word_at(words, 1)) {
        return Ok(());
    }
    put_piece(
        fix,
        b"Leave the second out: no two kinds of a token have one word and one buffer.",
    )
}

/// Adds with which version a model is to begin that has a form of a later one.
fn put_version(fix: &mut Vec<u8>, above: &Parts, words: &[&[u8]]) -> Result<(), AllocError> {
    match needed_version(*fix.allocator(), above, words)? {
        Some(version) => put_counted(
            fix,
            b"Begin the model with `ringcheck ",
            u64::from(version),
            b"`.",
        ),
        None => Ok(()),
    }
}
