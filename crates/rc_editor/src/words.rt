//! The words of a line, and where they are.

use crate::place::up_to;
use rc_read::words::is;
use rc_report::source::first_word;
use rc_report::text::put_pieces;
use std::alloc::{AllocError, Global};

/// How many bytes of a line are looked at: as many as a line may have.
const MOST_BYTES: usize = 256;

/// Adds a word, after a blank unless it is the first.
pub fn put_spaced(text: &mut Vec<u8>, is_first: bool, word: &[u8]) -> Result<(), AllocError> {
    let blank: &[u8] = if is_first { b"" } else { b" " };
    put_pieces(text, &[blank, word])
}

/// Whether a line has words beside its comment.
pub fn has_words(line: &[u8]) -> bool {
    first_word(up_to(line, MOST_BYTES)).is_some()
}

/// Whether this is the first word of a line.
pub fn begins_with(line: &[u8], word: &[u8]) -> bool {
    match first_word(up_to(line, MOST_BYTES)) {
        Some((first, _)) => is(first, word),
        None => false,
    }
}

/// A word: its bytes, and at which byte of its line it begins.
#[derive(Clone, Copy)]
pub struct Word<'a> {
    pub text: &'a [u8],
    pub start: usize,
}

impl Word<'_> {
    /// The byte after the word.
    pub fn end(&self) -> usize {
        self.start.saturating_add(self.text.len())
    }

    /// Whether a cursor before this byte of the line is at the word, or right after it.
    pub fn touches(&self, byte: usize) -> bool {
        self.start <= byte && byte <= self.end()
    }
}

/// The words of a line without its comment.
#[derive(Drop)]
pub struct Words<'a> {
    pub texts: Vec<&'a [u8]>,
    starts: Vec<usize>,
}

impl<'a> Words<'a> {
    /// Finds the words of a line.
    pub fn of(alloc: Global, line: &'a [u8]) -> Result<Words<'a>, AllocError> {
        let line = up_to(line, MOST_BYTES);
        let mut words = Words {
            texts: Vec::new(alloc),
            starts: Vec::new(alloc),
        };
        let mut rest = line;
        while let Some((word, after)) = first_word(rest) {
            let end = line.len().saturating_sub(after.len());
            words.push(word, end.saturating_sub(word.len()))?;
            rest = after;
        }
        Ok(words)
    }

    /// Adds a word that begins at this byte.
    fn push(&mut self, text: &'a [u8], start: usize) -> Result<(), AllocError> {
        self.texts.push(text)?;
        self.starts.push(start)?;
        Ok(())
    }

    /// How many they are.
    pub fn count(&self) -> usize {
        self.texts.len()
    }

    /// The word at a place. After the last it is empty.
    pub fn word(&self, place: usize) -> Word<'a> {
        Word {
            text: self.text(place),
            start: self.starts.get(place).copied().unwrap_or(0),
        }
    }

    /// The bytes of the word at a place, none after the last.
    pub fn text(&self, place: usize) -> &'a [u8] {
        match self.texts.get(place) {
            Some(text) => text,
            None => &[],
        }
    }

    /// The bytes of the words from a place on.
    pub fn from(&self, place: usize) -> &[&'a [u8]] {
        let texts = self.texts.as_slice();
        if place <= texts.len() {
            &texts[place..]
        } else {
            &[]
        }
    }

    /// The place of the word at a byte of the line, or right before it.
    pub fn place_at(&self, byte: usize) -> Option<usize> {
        (0..self.count()).find(|place| self.word(*place).touches(byte))
    }

    /// The last word. Without words it is empty.
    pub fn last(&self) -> Word<'a> {
        self.word(self.count().saturating_sub(1))
    }

    /// Whether the line ends a block.
    pub fn closes(&self) -> bool {
        is(self.text(0), b"}")
    }

    /// Whether the line begins a block.
    pub fn opens(&self) -> bool {
        is(self.last().text, b"{")
    }
}
