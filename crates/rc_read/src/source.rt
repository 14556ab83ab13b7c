//! The lines of a model, and the words of a line as they are printed.

ghost use Rattle.std.specs.Prelude.{◌≡◌, ◌<◌, ◌≤◌, ◌++◌, [], ◌∷◌, IfOk, MatchOption, length, slice_index_or, take, drop, false};
ghost use Rattle.rc_read.specs.Words.{text_lines, word_if_any, words_of};
ghost use Rattle.rc_read.specs.Source.{Begins, begins_blank, behind_blanks, line_numbered, line_words, opening_words};
ghost use Rattle.rc_text.specs.Text.{Puts};

use crate::words::is_blank;
use rc_text::text::{put_piece, put_pieces};
use std::alloc::{AllocError, Global};
use std::marker::Model;

/// A model whose lines are found.
#[derive(Drop)]
pub struct Lines<'a> {
    text: &'a [u8],
    lines: Vec<&'a [u8]>,
}

// In contracts it is the model.
impl<'a> Model for Lines<'a> {
    ghost use Rattle.std.specs.Prelude.{◌≡◌, ℕ, List, map};
    ghost use Rattle.rc_read.specs.Words.{text_lines};

    ghost Value = { List ℕ };

    ghost view = { λ l. l.text.now };

    ghost invariant = { λ l. map (λ line. line.now) l.lines.items ≡ text_lines l.text.now };
}

impl<'a> Lines<'a> {
    /// Finds the lines of a model. Answers an error only where memory ran out.
    pub fn of(alloc: Global, text: &'a [u8]) -> Result<Lines<'a>, AllocError>
        ensures { IfOk result (λ lines. lines ≡ text.now) }
    {
        let mut lines = Vec::new(alloc);
        let mut rest = text;
        while !rest.is_empty() {
            let (line, after) = first_line(rest);
            lines.push(line)?;
            rest = after;
        }
        Ok(Lines { text, lines })
    }

    /// The line with this number, from 1, without its line feed; nothing where there is no such line.
    pub fn line(&self, number: u32) -> &'a [u8]
        ensures { result.now ≡ line_numbered (text_lines self.now) number }
    {
        if number == 0 {
            return &[];
        }
        match self.lines.get(number as usize - 1) {
            Some(line) => line,
            None => &[],
        }
    }
}

/// Adds the words of the line with this number, from 1, without its comment, with one blank between two. Nothing is added
/// where the line has no word, or the model no such line.
pub fn put_line_words(text: &mut Vec<u8>, lines: &Lines<'_>, number: u32) -> Result<(), AllocError>
    ensures { Puts text.old text.new (line_words lines.now number) result }
{
    match first_word(lines.line(number)) {
        Some((word, after)) => {
            put_piece(text, word)?;
            put_after_blanks(text, after)
        }
        None => Ok(()),
    }
}

/// The words of the line with this number, from 1, that opens a block, without the brace at their end.
pub fn opening_words(alloc: Global, lines: &Lines<'_>, number: u32) -> Result<Vec<u8>, AllocError>
    ensures { IfOk result (λ words. words.items ≡ opening_words lines.now number) }
{
    let mut words = Vec::new(alloc);
    put_line_words(&mut words, lines, number)?;
    words.truncate(words.len().saturating_sub(2));
    Ok(words)
}

/// Adds the words of a part of a line, each after a blank.
fn put_after_blanks(text: &mut Vec<u8>, line: &[u8]) -> Result<(), AllocError>
    ensures { Puts text.old text.new (behind_blanks (words_of line.now)) result }
{
    let mut rest = line;
    while let Some((word, after)) = first_word(rest) {
        put_pieces(text, &[b" ", word])?;
        rest = after;
    }
    Ok(())
}

/// The first line of a model that isn't empty, and what comes after its line feed.
fn first_line(text: &[u8]) -> (&[u8], &[u8])
    requires { 0 < length text.now }
    ensures lines { text_lines text.now ≡ result.0.now ∷ text_lines result.1.now }
    ensures shorter { length result.1.now < length text.now }
{
    for i in 0..text.len() {
        if text[i] == b'\n' {
            return (&text[..i], &text[i + 1..]);
        }
    }
    (text, &[])
}

/// The first word of a part of a line, and what comes after it.
pub fn first_word(line: &[u8]) -> Option<(&[u8], &[u8])>
    ensures { MatchOption result (words_of line.now ≡ []) (λ r. Begins line.now r.0.now r.1.now) }
{
    let rest = &line[blanks_in_front(line)..];
    let end = letters_in_front(rest);
    if end == 0 {
        return None;
    }
    Some((&rest[..end], &rest[end..]))
}

/// How many blanks the bytes begin with.
fn blanks_in_front(line: &[u8]) -> usize
    ensures within { result ≤ length line.now }
    ensures words { words_of line.now ≡ words_of (drop result line.now) }
    ensures then { begins_blank (drop result line.now) ≡ false }
{
    for count in 0..line.len() {
        if !is_blank(line[count]) {
            return count;
        }
    }
    line.len()
}

/// How many bytes of a word they begin with.
fn letters_in_front(line: &[u8]) -> usize
    ensures within { result ≤ length line.now }
    ensures words { words_of line.now ≡ word_if_any (take result line.now) ++ words_of (drop result line.now) }
    ensures none { result ≡ 0 → begins_blank line.now ≡ false → words_of line.now ≡ [] }
{
    for count in 0..line.len() {
        if line[count] == b'#' || is_blank(line[count]) {
            return count;
        }
    }
    line.len()
}
