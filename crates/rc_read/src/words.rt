//! The words of a line, as slices of it.

ghost use Rattle.std.specs.Prelude.{◌≡◌, OnOk, take};
ghost use Rattle.std.specs.Str.{bytes_eq};
ghost use Rattle.rc_lang.specs.Names as names;
ghost use Rattle.rc_read.specs.Sentences.{any_strange, is_strange};
ghost use Rattle.rc_read.specs.Texts.{AddsWords, texts_of};
ghost use Rattle.rc_read.specs.Words as spec;

use crate::reserved::is_reserved;
use std::alloc::AllocError;

/// Whether a word has these bytes.
pub fn is(word: &[u8], text: &[u8]) -> bool
    ensures { result ≡ bytes_eq word.now text.now }
{
    word == text
}

fn is_strange(b: u8) -> bool
    ensures { result ≡ is_strange b }
{
    (b > 126) | ((b < 32) & (b != b'\t') & (b != b'\r'))
}

fn any_strange(bytes: &[u8]) -> bool
    ensures { result ≡ any_strange bytes.now }
{
    let mut any = false;
    for b in bytes {
        any = any | is_strange(*b);
    }
    any
}

/// Whether a strange byte is among a line's first 256.
pub fn begins_strange(line: &[u8]) -> bool
    ensures { result ≡ any_strange (take 256 line.now) }
{
    if line.len() > 256 {
        any_strange(&line[..256])
    } else {
        any_strange(line)
    }
}

pub fn is_blank(b: u8) -> bool
    ensures { result ≡ spec.is_blank b }
{
    b == b'\t' || b == b'\r' || b == b' '
}

// Adds a word, unless it is empty.
fn push_word<'a>(words: &mut Vec<&'a [u8]>, word: &'a [u8]) -> Result<(), AllocError>
    ensures { AddsWords result words.old words.new (spec.word_if_any word.now) }
{
    if !word.is_empty() {
        words.push(word)?;
    }
    Ok(())
}

/// Puts the words of a line there, without its comment.
pub fn put_words<'a>(words: &mut Vec<&'a [u8]>, line: &'a [u8]) -> Result<(), AllocError>
    ensures { OnOk result (texts_of words.new.items ≡ spec.words_of line.now) }
{
    words.clear();
    let mut start = 0;
    for i in 0..line.len() {
        if line[i] == b'#' {
            push_word(words, &line[start..i])?;
            return Ok(());
        }
        if is_blank(line[i]) {
            push_word(words, &line[start..i])?;
            start = i + 1;
        }
    }
    push_word(words, &line[start..])?;
    Ok(())
}

fn is_name_byte(b: u8) -> bool
    ensures { result ≡ names.is_name_byte b }
{
    b.is_ascii_lowercase() || b.is_ascii_digit() || b == b'_'
}

fn all_name_bytes(bytes: &[u8]) -> bool
    ensures { result ≡ names.all_name_bytes bytes.now }
{
    bytes.iter().all(|b| is_name_byte(*b))
}

/// Whether a word is spelt as a name is: a small letter, and then at most 15 small letters, digits and `_`.
pub fn is_spelt(word: &[u8]) -> bool
    ensures { result ≡ names.is_spelt word.now }
{
    match word {
        [] => false,
        [first, rest @ ..] => {
            first.is_ascii_lowercase() && rest.len() < 16 && all_name_bytes(rest)
        }
    }
}

/// Whether a word is a name.
pub fn is_name(word: &[u8]) -> bool
    ensures { result ≡ names.is_name word.now }
{
    is_spelt(word) && !is_reserved(word)
}
