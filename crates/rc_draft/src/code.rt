//! Code that is written piece by piece, and tidied as its blocks end.

use crate::piece::{Head, Line, Piece, Shape};
use std::alloc::AllocError;

/// The pieces of a thread's code.
#[derive(Drop)]
pub struct Code {
    pub pieces: Vec<Piece>,
    open: Vec<Opened>,
    // How many blocks are open that nothing reaches.
    skipped: u32,
}

// Where a block and its second branch begin.
#[derive(Clone, Copy)]
struct Opened {
    at: usize,
    middle: Option<usize>,
}

impl Code {
    /// No code.
    pub fn new(alloc: std::alloc::Global) -> Code {
        Code {
            pieces: Vec::new(alloc),
            open: Vec::new(alloc),
            skipped: 0,
        }
    }

    /// Adds a piece, unless nothing reaches it.
    pub fn add(&mut self, piece: Piece) -> Result<(), AllocError> {
        match piece.shape {
            Shape::Line(_) => self.add_line(piece),
            Shape::Open(_) => self.add_open(piece),
            Shape::Else => self.add_middle(piece),
            Shape::Close => self.add_close(piece),
        }
    }

    // Whether what comes next isn't reached.
    fn is_over(&self) -> bool {
        let is_broken = match self.pieces.last() {
            Some(piece) => piece.is_break(),
            None => false,
        };
        is_broken || self.skipped > 0
    }

    fn add_line(&mut self, piece: Piece) -> Result<(), AllocError> {
        if self.is_over() {
            return Ok(());
        }
        self.pieces.push(piece).map_err(AllocError::from)
    }

    fn add_open(&mut self, piece: Piece) -> Result<(), AllocError> {
        if self.is_over() {
            self.skipped = self.skipped.saturating_add(1);
            return Ok(());
        }
        let at = self.pieces.len();
        self.open
            .push(Opened { at, middle: None })
            .map_err(AllocError::from)?;
        self.pieces.push(piece).map_err(AllocError::from)
    }

    fn add_middle(&mut self, piece: Piece) -> Result<(), AllocError> {
        if self.skipped > 0 {
            return Ok(());
        }
        let middle = self.pieces.len();
        if let Some(opened) = self.open.last_mut() {
            opened.middle = Some(middle);
        }
        self.pieces.push(piece).map_err(AllocError::from)
    }

    fn add_close(&mut self, piece: Piece) -> Result<(), AllocError> {
        if self.skipped > 0 {
            self.skipped -= 1;
            return Ok(());
        }
        let Some(opened) = self.open.pop() else {
            return Ok(());
        };
        match self.pieces.get(opened.at).copied() {
            Some(head) if is_tidied(head) => self.rejoin(head, opened),
            _ => self.pieces.push(piece).map_err(AllocError::from),
        }
    }

    // Ends an `if` or a lock.
    fn rejoin(&mut self, head: Piece, opened: Opened) -> Result<(), AllocError> {
        let len = self.pieces.len();
        let middle = opened.middle.unwrap_or(len);
        let first = self.part(opened.at.saturating_add(1), middle)?;
        let second = self.part(middle.saturating_add(1), len)?;
        self.pieces.truncate(opened.at);
        if is_alike(&first, &second) {
            self.put(&first)
        } else if second.is_empty() || is_ended(&first) {
            self.put_block(head, &first, &second)
        } else {
            self.put_turned(head, &first, &second)
        }
    }

    // The pieces from one place up to another.
    fn part(&self, from: usize, to: usize) -> Result<Vec<Piece>, AllocError> {
        let mut part = Vec::new(*self.pieces.allocator());
        for at in from..to {
            if let Some(piece) = self.pieces.get(at) {
                part.push(*piece).map_err(AllocError::from)?;
            }
        }
        Ok(part)
    }

    fn put(&mut self, pieces: &[Piece]) -> Result<(), AllocError> {
        self.pieces.extend_from_slice(pieces)
    }

    // A block, and what comes after it.
    fn put_block(
        &mut self,
        head: Piece,
        inside: &[Piece],
        after: &[Piece],
    ) -> Result<(), AllocError> {
        self.put(&[head])?;
        self.put(inside)?;
        self.put(&[Piece::close()])?;
        self.put(after)
    }

    // An `if`, the other way round where that is shorter.
    fn put_turned(
        &mut self,
        head: Piece,
        first: &[Piece],
        second: &[Piece],
    ) -> Result<(), AllocError> {
        match head.turned() {
            Some(turned) if first.is_empty() || is_ended(second) => {
                self.put_block(turned, second, first)
            }
            _ => {
                self.put(&[head])?;
                self.put(first)?;
                self.put_block(Piece::middle(), second, &[])
            }
        }
    }
}

// Whether a block is tidied at its end.
fn is_tidied(head: Piece) -> bool {
    matches!(
        head.shape,
        Shape::Open(Head::If(_)) | Shape::Open(Head::Lock(_))
    )
}

// Whether nothing after these pieces is reached.
fn is_ended(pieces: &[Piece]) -> bool {
    match pieces.last() {
        Some(piece) => piece.is_break(),
        None => false,
    }
}

// Whether both are the same, but for comments.
fn is_alike(first: &[Piece], second: &[Piece]) -> bool {
    if first.len() != second.len() {
        return false;
    }
    for (one, two) in first.iter().zip(second) {
        if one.shape != two.shape || is_begin(one.shape) {
            return false;
        }
    }
    true
}

// Whether a loop begins that says how it is left: no two are the same.
fn is_begin(shape: Shape) -> bool {
    matches!(shape, Shape::Line(Line::Begin(_)))
}
