//! A model, line by line: the names and the blocks in it, and what its lines may be.

use crate::marks::{Fit, LineAt, Mark, fit_of, push_marks};
use crate::place::{Range, line_at, lines_of, range_in, without_return};
use crate::words::{Word, Words};
use rc_read::parts::Region;
use rc_read::table::Row;
use rc_read::words::is;
use std::alloc::{AllocError, Global};

/// What is known of a model above a line.
#[derive(Clone, Copy)]
pub struct Above {
    /// The version of the notation. Without a head it is the last one.
    pub version: u32,
    pub region: Region,
    /// The line of the open thread, from 0.
    pub scope: usize,
    /// The place of the innermost open block among the blocks.
    pub block: Option<usize>,
}

/// A block: its form, the line and the word of its opening brace, and those of its closing brace, if it has one.
#[derive(Clone, Copy)]
pub struct Block<'a> {
    pub row: Option<Row>,
    pub line: usize,
    pub brace: Word<'a>,
    pub close: Option<(usize, Word<'a>)>,
    /// The place of the block around it.
    pub outer: Option<usize>,
}

/// A model, line by line.
#[derive(Drop)]
pub struct Page<'a> {
    pub lines: Vec<&'a [u8]>,
    pub marks: Vec<Mark<'a>>,
    pub blocks: Vec<Block<'a>>,
    above: Vec<Above>,
    last: Above,
}

/// Above the first line.
fn start() -> Above {
    Above {
        version: 5,
        region: Region::Start,
        scope: 0,
        block: None,
    }
}

fn row_of(fit: Option<Fit>) -> Option<Row> {
    Some(fit?.row)
}

/// The version that a form of the head says, and else the last one.
fn version_in(fit: Option<Fit>) -> u32 {
    match fit {
        Some(fit) if fit.words == 2 => match fit.row {
            Row::Version => 1,
            Row::SecondVersion => 2,
            Row::ThirdVersion => 3,
            Row::FourthVersion => 4,
            _ => 5,
        },
        _ => 5,
    }
}

impl<'a> Page<'a> {
    /// Looks at the lines of a model.
    pub fn of(alloc: Global, text: &'a [u8]) -> Result<Page<'a>, AllocError> {
        let mut page = Page {
            lines: Vec::new(alloc),
            marks: Vec::new(alloc),
            blocks: Vec::new(alloc),
            above: Vec::new(alloc),
            last: start(),
        };
        for (number, line) in lines_of(alloc, text)?.iter().enumerate() {
            page.add(alloc, number, without_return(line))?;
        }
        Ok(page)
    }

    /// Adds a line.
    fn add(&mut self, alloc: Global, number: usize, line: &'a [u8]) -> Result<(), AllocError> {
        let words = Words::of(alloc, line)?;
        self.lines.push(line)?;
        self.above.push(self.last)?;
        self.look_at(alloc, number, &words)
    }

    /// Notes what a line says.
    fn look_at(
        &mut self,
        alloc: Global,
        number: usize,
        words: &Words<'a>,
    ) -> Result<(), AllocError> {
        if words.count() == 0 {
            return Ok(());
        }
        let above = self.last;
        let fit = fit_of(alloc, above.version, above.region, words)?;
        if is(words.text(0), b"thread") {
            self.last.scope = number;
            self.last.block = None;
        }
        let here = LineAt {
            line: number,
            scope: self.last.scope,
            version: above.version,
        };
        if let Some(fit) = fit {
            push_marks(&mut self.marks, here, words, fit)?;
        }
        self.note_braces(number, words, fit)?;
        self.last.region = self.region_after(above.region, words);
        if let Region::Start = above.region {
            self.last.version = version_in(fit);
        }
        Ok(())
    }

    /// Notes which blocks a line ends and begins.
    fn note_braces(
        &mut self,
        number: usize,
        words: &Words<'a>,
        fit: Option<Fit>,
    ) -> Result<(), AllocError> {
        if words.closes() {
            self.close(number, words.word(0));
        }
        if words.opens() {
            self.blocks.push(Block {
                row: row_of(fit),
                line: number,
                brace: words.last(),
                close: None,
                outer: self.last.block,
            })?;
            self.last.block = Some(self.blocks.len().saturating_sub(1));
        }
        Ok(())
    }

    /// Ends the innermost open block.
    fn close(&mut self, number: usize, brace: Word<'a>) {
        let Some(place) = self.last.block else {
            return;
        };
        if let Some(block) = self.blocks.get_mut(place) {
            block.close = Some((number, brace));
            self.last.block = block.outer;
        }
    }

    /// In which part of the model the line is after one with words.
    fn region_after(&self, region: Region, words: &Words) -> Region {
        if is(words.text(0), b"thread") {
            return Region::InThread;
        }
        match region {
            Region::Start => Region::Second,
            Region::Second => Region::Declarations,
            Region::InThread if self.last.block.is_none() => Region::Between,
            _ => region,
        }
    }

    /// What is known above a line, from 0; after the last line, what is known at the end.
    pub fn above(&self, line: usize) -> Above {
        self.above.get(line).copied().unwrap_or(self.last)
    }

    /// The block at a place among the blocks.
    pub fn block_at(&self, place: Option<usize>) -> Option<&Block<'a>> {
        self.blocks.get(place?)
    }

    /// The version of the notation.
    pub fn version(&self) -> u32 {
        self.last.version
    }

    /// A line, from 0, without its end; nothing after the last.
    pub fn line(&self, number: usize) -> &'a [u8] {
        line_at(&self.lines, number)
    }

    /// The range from one byte of a line up to another.
    pub fn range_from(&self, line: usize, start: usize, end: usize) -> Range {
        range_in(self.line(line), line, start, end)
    }

    /// The range of a word of a line.
    pub fn range(&self, line: usize, word: &Word) -> Range {
        self.range_from(line, word.start, word.end())
    }
}
