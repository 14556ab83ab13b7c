//! Where a name is declared, and where it is named.

use crate::marks::{Kind, Mark};
use crate::page::Page;
use crate::place::{Position, Range, byte_at};
use crate::words::{Word, Words};
use rc_read::table::Row;
use rc_read::words::is;
use std::alloc::{AllocError, Global};

/// A word that is shown together with others, and whether it gives what it names a value, or declares it.
#[derive(Clone, Copy)]
pub struct Highlight {
    pub range: Range,
    pub writes: bool,
}

/// The line of a place, and the byte of that line before which it is.
pub fn byte_of(page: &Page, at: Position) -> (usize, usize) {
    let line = at.line as usize;
    (line, byte_at(page.line(line), at.character))
}

/// The name at a place.
pub fn mark_at<'a>(page: &Page<'a>, at: Position) -> Option<Mark<'a>> {
    let (line, byte) = byte_of(page, at);
    for mark in &page.marks {
        if mark.line == line && mark.around.touches(byte) {
            return Some(*mark);
        }
    }
    None
}

/// The declaration of what a name is the name of: that of a variable is its first use.
pub fn declaration_of<'a>(page: &Page<'a>, name: &Mark) -> Option<Mark<'a>> {
    for mark in &page.marks {
        let declares = mark.declares || name.kind == Kind::Variable;
        if declares && mark.is_same(name) {
            return Some(*mark);
        }
    }
    None
}

/// The place of the block whose brace is at a byte of a line.
fn block_at(page: &Page, line: usize, byte: usize) -> Option<usize> {
    for (place, block) in page.blocks.iter().enumerate() {
        let opens = block.line == line && block.brace.touches(byte);
        let closes = match block.close {
            Some((end, brace)) => end == line && brace.touches(byte),
            None => false,
        };
        if opens || closes {
            return Some(place);
        }
    }
    None
}

/// The place of the innermost loop around a line.
fn loop_around(page: &Page, line: usize) -> Option<usize> {
    let mut next = page.above(line).block;
    for _ in 0..page.blocks.len() {
        let place = next?;
        let block = page.blocks.get(place)?;
        if matches!(block.row, Some(Row::Loop | Row::LoopWhen)) {
            return Some(place);
        }
        next = block.outer;
    }
    None
}

/// The place of the block to which a brace or a `break` at a place belongs.
fn block_of(alloc: Global, page: &Page, at: Position) -> Result<Option<usize>, AllocError> {
    let (line, byte) = byte_of(page, at);
    if let Some(place) = block_at(page, line, byte) {
        return Ok(Some(place));
    }
    let words = Words::of(alloc, page.line(line))?;
    let is_break = is(words.text(0), b"break") && words.word(0).touches(byte);
    Ok(if is_break {
        loop_around(page, line)
    } else {
        None
    })
}

/// The range of the words of a line.
pub fn words_range(alloc: Global, page: &Page, line: usize) -> Result<Range, AllocError> {
    let words = Words::of(alloc, page.line(line))?;
    let start = words.word(0).start;
    Ok(page.range_from(line, start, words.last().end()))
}

/// Where what is named at a place is declared. A variable is declared by its first use; a brace and a `break` lead to the
/// line that opens the block.
pub fn definition(alloc: Global, text: &[u8], at: Position) -> Result<Option<Range>, AllocError> {
    let page = Page::of(alloc, text)?;
    if let Some(name) = mark_at(&page, at) {
        return Ok(declared_range(&page, &name));
    }
    let place = block_of(alloc, &page, at)?;
    match page.block_at(place) {
        Some(block) => Ok(Some(words_range(alloc, &page, block.line)?)),
        None => Ok(None),
    }
}

/// Where what a name is the name of is declared.
fn declared_range(page: &Page, name: &Mark) -> Option<Range> {
    let declared = declaration_of(page, name)?;
    Some(page.range(declared.line, &declared.name))
}

/// Whether two names are the same word of a model.
fn is_there(mark: &Mark, other: Option<Mark>) -> bool {
    match other {
        Some(other) => mark.line == other.line && mark.name.start == other.name.start,
        None => false,
    }
}

/// Where that is named which is named at a place, with its declaration or without.
pub fn references(
    alloc: Global,
    text: &[u8],
    at: Position,
    with_declaration: bool,
) -> Result<Vec<Range>, AllocError> {
    let page = Page::of(alloc, text)?;
    let mut ranges = Vec::new(alloc);
    let Some(name) = mark_at(&page, at) else {
        return Ok(ranges);
    };
    let declared = declaration_of(&page, &name);
    for mark in &page.marks {
        if mark.is_same(&name) && (with_declaration || !is_there(mark, declared)) {
            ranges.push(page.range(mark.line, &mark.name))?;
        }
    }
    Ok(ranges)
}

/// The words that are shown together with the one at a place: all that name the same, or the braces of a block.
pub fn highlights(alloc: Global, text: &[u8], at: Position) -> Result<Vec<Highlight>, AllocError> {
    let page = Page::of(alloc, text)?;
    let mut shown = Vec::new(alloc);
    match mark_at(&page, at) {
        Some(name) => push_same(&mut shown, &page, &name)?,
        None => {
            let place = block_of(alloc, &page, at)?;
            push_braces(&mut shown, &page, place)?;
        }
    }
    Ok(shown)
}

/// Adds all names of what this is the name of.
fn push_same(shown: &mut Vec<Highlight>, page: &Page, name: &Mark) -> Result<(), AllocError> {
    for mark in &page.marks {
        if mark.is_same(name) {
            push_word(shown, page, mark.line, &mark.name, mark.writes)?;
        }
    }
    Ok(())
}

/// Adds the braces of the block at a place among the blocks.
fn push_braces(
    shown: &mut Vec<Highlight>,
    page: &Page,
    place: Option<usize>,
) -> Result<(), AllocError> {
    let Some(block) = page.block_at(place) else {
        return Ok(());
    };
    push_word(shown, page, block.line, &block.brace, false)?;
    match block.close {
        Some((line, brace)) => push_word(shown, page, line, &brace, false),
        None => Ok(()),
    }
}

/// Adds a word.
fn push_word(
    shown: &mut Vec<Highlight>,
    page: &Page,
    line: usize,
    word: &Word,
    writes: bool,
) -> Result<(), AllocError> {
    let range = page.range(line, word);
    shown.push(Highlight { range, writes })?;
    Ok(())
}
