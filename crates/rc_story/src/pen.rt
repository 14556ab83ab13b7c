//! Texts that are written in pieces.

use itoa::Buffer;
use rc_text::text::{put_number, put_piece, put_signed};
use std::alloc::{AllocError, Global};

/// A piece of a text: a word, a number, or markup, which is never escaped and takes no room.
#[derive(Clone, Copy)]
pub enum Piece<'a> {
    Word(&'a [u8]),
    Number(u64),
    Signed(i64),
    Markup(&'a [u8]),
}

/// No text.
pub const NOTHING: Piece<'static> = Piece::Word(b"");

/// How many bytes these pieces take.
pub fn length_of(pieces: &[Piece<'_>]) -> u64 {
    let mut length: u64 = 0;
    for piece in pieces {
        let mut buffer = Buffer::new();
        let bytes = match *piece {
            Piece::Word(word) => word.len(),
            Piece::Number(number) => buffer.format(number).len(),
            Piece::Signed(number) => buffer.format(number).len(),
            Piece::Markup(_) => 0,
        };
        length = length.saturating_add(bytes as u64);
    }
    length
}

/// What is before the first `{}` of a form, and what is after it. A form without one is before it.
pub fn split_form(form: &[u8]) -> (&[u8], &[u8]) {
    for (place, byte) in form.iter().enumerate() {
        if *byte == b'{' {
            let (before, after) = (form.get(..place), form.get(place.saturating_add(2)..));
            return (before.unwrap_or(form), after.unwrap_or(b""));
        }
    }
    (form, b"")
}

/// A text that grows. Where memory runs out it takes no more, and says so at the end: so no call has to.
#[derive(Drop)]
pub struct Pen {
    text: Vec<u8>,
    is_out: bool,
}

impl Pen {
    /// A text without a byte.
    pub fn new(alloc: Global) -> Pen {
        Pen {
            text: Vec::new(alloc),
            is_out: false,
        }
    }

    /// Whether nothing was to be written.
    pub fn is_empty(&self) -> bool {
        self.text.is_empty() && !self.is_out
    }

    /// Adds a piece.
    pub fn put(&mut self, piece: Piece<'_>) {
        let put = match piece {
            Piece::Word(word) | Piece::Markup(word) => put_piece(&mut self.text, word),
            Piece::Number(number) => put_number(&mut self.text, number),
            Piece::Signed(number) => put_signed(&mut self.text, number),
        };
        self.is_out = self.is_out || put.is_err();
    }

    /// Adds a form, with a piece in place of each `{}`.
    pub fn write(&mut self, form: &[u8], pieces: &[Piece<'_>]) {
        let mut rest = form;
        for piece in pieces {
            let (before, after) = split_form(rest);
            self.put(Piece::Word(before));
            self.put(*piece);
            rest = after;
        }
        self.put(Piece::Word(rest));
    }

    /// Adds these pieces as text of an XML file.
    pub fn put_escaped(&mut self, pieces: &[Piece<'_>]) {
        for piece in pieces {
            match *piece {
                Piece::Word(word) => self.escape(word),
                other => self.put(other),
            }
        }
    }

    fn escape(&mut self, word: &[u8]) {
        for byte in word {
            match *byte {
                b'&' => self.put(Piece::Word(b"&amp;")),
                b'<' => self.put(Piece::Word(b"&lt;")),
                b'>' => self.put(Piece::Word(b"&gt;")),
                b'"' => self.put(Piece::Word(b"&quot;")),
                other => self.put(Piece::Word(&[other])),
            }
        }
    }

    /// The text, or an error where memory ran out.
    pub fn text(self) -> Result<Vec<u8>, AllocError> {
        let Pen { text, is_out } = self;
        if is_out { Err(AllocError) } else { Ok(text) }
    }
}
