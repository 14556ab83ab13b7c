//! A thread of a model, whose loops are filled.

use crate::fill::Fill;
use crate::refill::put_line;
use crate::row::{declared, size};
use rc_lang::lines::Stmt;
use rc_lang::program::{Program, Thread};
use rc_read::source::Lines;
use std::alloc::{AllocError, Global};

/// How many bytes a line may have.
const LINE_BYTES: usize = 256;

/// A thread of a model: the model's program and its lines.
#[derive(Clone, Copy)]
pub struct Source<'a> {
    pub alloc: Global,
    pub program: &'a Program,
    pub lines: &'a Lines<'a>,
    pub part: &'a Thread,
}

impl<'a> Source<'a> {
    /// The number of the first thread's header.
    pub fn first_header(&self) -> u32 {
        match self.program.threads().first() {
            Some(part) => part.line,
            None => 1,
        }
    }

    /// The name of the thread's flag.
    pub fn flag(&self) -> Option<&'a [u8]> {
        let flag = self.part.flag()?;
        Some(self.part.variables.get(flag)?.as_slice())
    }

    /// How many parts a row has.
    pub fn width(&self) -> usize {
        let parts = self
            .program
            .buffers()
            .len()
            .saturating_add(self.program.tokens().len());
        parts.saturating_add(1)
    }

    /// Whether the loop's line has not too many bytes with these items.
    pub fn has_room(&self, fill: &Fill) -> Result<bool, AllocError> {
        let mut text = Vec::new(self.alloc);
        put_line(&mut text, self.lines.line(fill.line), Some(fill))?;
        Ok(text.len() <= LINE_BYTES)
    }

    /// More changes than there can be: each takes something from a loop, or is its first or its last. The
    /// loops in one that goes back are filled twice.
    pub fn most_changes(&self) -> Result<u64, AllocError> {
        let items = size(&declared(self.alloc, self.program)?);
        let each = items
            .saturating_mul(2)
            .saturating_add(u64::from(self.program.entries()) + 2);
        Ok(each.saturating_mul(2).saturating_mul(loops_in(self.part)))
    }
}

/// How many loops a thread has, and one more.
fn loops_in(part: &Thread) -> u64 {
    let mut count: u64 = 1;
    for line in &part.lines {
        if let Stmt::Loop(_) = line.stmt {
            count = count.saturating_add(1);
        }
    }
    count
}

/// The number of the line that closes the block at a place.
pub fn end_of(part: &Thread, place: usize) -> Option<u32> {
    let end = part.ends.get(place)?;
    Some(part.lines.get(*end)?.number)
}
