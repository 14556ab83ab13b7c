//! What is written as in C, and what stands for it here.

use crate::hint::Hint;
use crate::lines::{column_of, word_at};
use crate::wording::put_framed;
use rc_lang::lines::Block;
use rc_read::parts::{Parts, Region};
use rc_read::spots::fits;
use rc_read::table::Part;
use rc_read::words::is;
use rc_text::text::put_piece;
use std::alloc::AllocError;

/// What to write for a line that begins with a word of C, or of another place.
fn for_word(parts: &Parts, word: &[u8]) -> Option<&'static [u8]> {
    if is(word, b"wait_cqe") || is(word, b"io_uring_wait_cqe") {
        Some(
            b"a wait is a loop around 'lock {' and 'peek_cqe r {', which the arm that has reaped leaves by 'break'",
        )
    } else if is(word, b"return") {
        Some(b"a thread ends at its last line: put what is left out into a branch")
    } else if is(word, b"continue") {
        Some(b"a round ends at the last line of its loop: put what is left out into a branch")
    } else if is(word, b"submit") {
        Some(b"write 'r = submit', since it answers a number")
    } else if is(word, b"submit_and_wait") {
        Some(b"write 'r = submit_and_wait 1', since it answers a number")
    } else if is(word, b"else") && matches!(parts.draft.blocks.as_slice(), [.., Block::InPeek(_)]) {
        Some(b"write 'other {' for another completion, and 'none {' for none")
    } else if is(word, b"else") {
        Some(b"write '} else {' on one line")
    } else {
        None
    }
}

/// The sign of a word that adds or takes away in place.
fn sign_of(word: &[u8]) -> Option<&'static [u8]> {
    if is(word, b"+=") {
        Some(b" + ")
    } else if is(word, b"-=") {
        Some(b" - ")
    } else {
        None
    }
}

/// Adds how a sum is written.
fn put_sum(hint: &mut Hint, line: &[u8], words: &[&[u8]], sign: &[u8]) -> Result<(), AllocError> {
    hint.column = Some(column_of(line, 1));
    let text = &mut hint.words;
    let (first, second) = (word_at(words, 0), word_at(words, 1));
    put_framed(text, b"'", second, b"' is no word of a statement; write '")?;
    put_framed(text, b"", first, b" = ")?;
    put_framed(text, b"", first, sign)?;
    put_framed(text, b"", word_at(words, 2), b"'")
}

/// Adds how a sum is written, where a line is one with this sign, and says whether it is.
fn put_if_sum(
    hint: &mut Hint,
    line: &[u8],
    words: &[&[u8]],
    sign: &[u8],
) -> Result<bool, AllocError> {
    let (first, third) = (word_at(words, 0), word_at(words, 2));
    let is_sum = words.len() == 3 && fits(Part::Variable, first) && fits(Part::Operand, third);
    if is_sum {
        put_sum(hint, line, words, sign)?;
    }
    Ok(is_sum)
}

/// Adds how an entry is asked for, where a line gives it to a variable, and says whether it does.
fn put_if_entry(hint: &mut Hint, line: &[u8], given: &[u8]) -> Result<bool, AllocError> {
    let is_entry = is(given, b"get_sqe");
    if is_entry {
        hint.column = Some(column_of(line, 0));
        put_piece(
            &mut hint.words,
            b"write 'get_sqe' alone, since no variable has the entry",
        )?;
    }
    Ok(is_entry)
}

/// Adds what to write for a line in a thread that is as in C, and says whether it is.
pub fn put_slip(
    hint: &mut Hint,
    parts: &Parts,
    line: &[u8],
    words: &[&[u8]],
) -> Result<bool, AllocError> {
    if !matches!(parts.region, Region::InThread) {
        return Ok(false);
    }
    let (first, second) = (word_at(words, 0), word_at(words, 1));
    if let Some(sign) = sign_of(second) {
        return put_if_sum(hint, line, words, sign);
    }
    if is(second, b"=") {
        return put_if_entry(hint, line, word_at(words, 2));
    }
    let Some(advice) = for_word(parts, first) else {
        return Ok(false);
    };
    hint.column = Some(column_of(line, 0));
    put_framed(
        &mut hint.words,
        b"no statement begins with '",
        first,
        b"' here; ",
    )?;
    put_piece(&mut hint.words, advice)?;
    Ok(true)
}
