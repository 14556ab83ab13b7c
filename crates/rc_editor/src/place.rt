//! Places in a model, as editors count them.

use rc_report::text::{put_piece, put_pieces};
use std::alloc::{AllocError, Global};

/// How many lines are looked at: one more than a program may have.
const MOST_LINES: usize = 4097;

/// A place in a model: its line, from 0, and how many UTF-16 units of the line are before it.
#[derive(Clone, Copy)]
pub struct Position {
    pub line: u32,
    pub character: u32,
}

/// From one place up to another, which is not in it.
#[derive(Clone, Copy)]
pub struct Range {
    pub start: Position,
    pub end: Position,
}

/// What is in the place of a range afterwards.
#[derive(Drop)]
pub struct Edit {
    pub range: Range,
    pub text: Vec<u8>,
}

/// The bytes up to this one, or all where there are fewer.
pub fn up_to(bytes: &[u8], end: usize) -> &[u8] {
    if end <= bytes.len() {
        &bytes[..end]
    } else {
        bytes
    }
}

/// The bytes from this one on, or none where there are fewer.
pub fn after(bytes: &[u8], start: usize) -> &[u8] {
    if start <= bytes.len() {
        &bytes[start..]
    } else {
        &[]
    }
}

/// How many UTF-16 units a character has that begins with this byte of UTF-8. The bytes inside a character have none.
fn units_of(b: u8) -> u32 {
    match b {
        0..=0x7f => 1,
        0x80..=0xbf => 0,
        0xc0..=0xef => 1,
        _ => 2,
    }
}

/// The number of a line, as editors count.
pub fn number_of(line: usize) -> u32 {
    u32::try_from(line).unwrap_or(u32::MAX)
}

/// The place before this byte of a line.
pub fn position_at(line: &[u8], number: usize, end: usize) -> Position {
    let mut character: u32 = 0;
    for b in up_to(line, end) {
        character = character.saturating_add(units_of(*b));
    }
    Position {
        line: number_of(number),
        character,
    }
}

/// The range from one byte of a line up to another.
pub fn range_in(line: &[u8], number: usize, start: usize, end: usize) -> Range {
    Range {
        start: position_at(line, number, start),
        end: position_at(line, number, end),
    }
}

/// The byte of a line before which a place is, by the UTF-16 units before it. After the line's end it is the end.
pub fn byte_at(line: &[u8], character: u32) -> usize {
    let mut units: u32 = 0;
    for (place, b) in line.iter().enumerate() {
        if units >= character && units_of(*b) > 0 {
            return place;
        }
        units = units.saturating_add(units_of(*b));
    }
    line.len()
}

/// The first line of a model, and what is after its line feed, where it has one.
fn cut_line(text: &[u8]) -> (&[u8], Option<&[u8]>) {
    for end in 0..text.len() {
        if text[end] == b'\n' {
            return (&text[..end], Some(&text[end + 1..]));
        }
    }
    (text, None)
}

/// The lines of a model, also the bytes after the last line feed.
pub fn lines_of(alloc: Global, text: &[u8]) -> Result<Vec<&[u8]>, AllocError> {
    let mut lines = Vec::new(alloc);
    let mut left = Some(text);
    for _ in 0..MOST_LINES {
        let Some(rest) = left else {
            return Ok(lines);
        };
        let (line, behind) = cut_line(rest);
        lines.push(line)?;
        left = behind;
    }
    Ok(lines)
}

/// A line without the carriage return at its end: editors count that as a part of the line's end.
pub fn without_return(line: &[u8]) -> &[u8] {
    match line {
        [front @ .., b'\r'] => front,
        _ => line,
    }
}

/// The line at a place, and nothing after the last.
pub fn line_at<'a>(lines: &[&'a [u8]], number: usize) -> &'a [u8] {
    match lines.get(number) {
        Some(line) => line,
        None => &[],
    }
}

/// The bytes from one place to another.
pub fn between(bytes: &[u8], start: usize, end: usize) -> &[u8] {
    after(up_to(bytes, end), start)
}

/// At which byte of a model each of its lines begins.
fn starts_of(alloc: Global, lines: &[&[u8]]) -> Result<Vec<usize>, AllocError> {
    let mut starts = Vec::new(alloc);
    let mut start: usize = 0;
    for line in lines {
        starts.push(start)?;
        start = start.saturating_add(line.len()).saturating_add(1);
    }
    Ok(starts)
}

/// The model after these edits, which are in its order and apart from one another.
pub fn edited(alloc: Global, text: &[u8], edits: &[Edit]) -> Result<Vec<u8>, AllocError> {
    let lines = lines_of(alloc, text)?;
    let starts = starts_of(alloc, &lines)?;
    let mut whole = Vec::new(alloc);
    let mut done = 0;
    for edit in edits {
        let start = byte_in(&lines, &starts, text, edit.range.start);
        put_pieces(&mut whole, &[between(text, done, start), &edit.text])?;
        done = byte_in(&lines, &starts, text, edit.range.end);
    }
    put_piece(&mut whole, after(text, done))?;
    Ok(whole)
}

/// The byte of a model before which a place is; after the last line its end.
fn byte_in(lines: &[&[u8]], starts: &[usize], text: &[u8], at: Position) -> usize {
    let number = at.line as usize;
    match starts.get(number) {
        Some(start) => start.saturating_add(byte_at(line_at(lines, number), at.character)),
        None => text.len(),
    }
}

/// Adds an edit that puts these bytes in the place of a range.
pub fn push_edit(
    alloc: Global,
    edits: &mut Vec<Edit>,
    range: Range,
    text: &[u8],
) -> Result<(), AllocError> {
    let text = Vec::from_slice(alloc, text)?;
    edits.push(Edit { range, text })?;
    Ok(())
}

/// The edits that make another model of one, line by line. Both have the same number of lines, whose ends stay.
pub fn edits_to(alloc: Global, text: &[u8], other: &[u8]) -> Result<Vec<Edit>, AllocError> {
    let (lines, news) = (lines_of(alloc, text)?, lines_of(alloc, other)?);
    let mut edits = Vec::new(alloc);
    for (number, line) in lines.iter().enumerate() {
        let (line, new) = (without_return(line), without_return(line_at(&news, number)));
        if line != new {
            let range = range_in(line, number, 0, line.len());
            push_edit(alloc, &mut edits, range, new)?;
        }
    }
    Ok(edits)
}
