//! How much there is of each part of a program: the shares of each buffer, each token, and the credits.

use rc_lang::program::{Items, Program, Share};
use rc_rules::side::Side;
use rc_text::text::{put_number, put_piece, put_pieces};
use std::alloc::{AllocError, Global};

/// As much as the program declares.
pub fn declared(alloc: Global, program: &Program) -> Result<Vec<u32>, AllocError> {
    let mut row = Vec::new(alloc);
    for buffer in program.buffers() {
        row.push(buffer.shares)?;
    }
    for _ in program.tokens() {
        row.push(1)?;
    }
    row.push(program.completion_entries())?;
    Ok(row)
}

/// As much as is held on a side.
fn held(alloc: Global, side: &Side) -> Result<Vec<u32>, AllocError> {
    let program = side.view().program;
    let mut row = Vec::new(alloc);
    for buffer in 0..program.buffers().len() {
        row.push(side.shares(buffer))?;
    }
    for token in program.tokens() {
        row.push(u32::from(side.has_token(token.user_data)))?;
    }
    row.push(side.credits())?;
    Ok(row)
}

/// The same, if something reaches the side.
pub fn held_if_live(alloc: Global, side: &Side) -> Result<Option<Vec<u32>>, AllocError> {
    Ok(if side.is_live() {
        Some(held(alloc, side)?)
    } else {
        None
    })
}

/// As much as a list says.
pub fn listed(
    alloc: Global,
    program: &Program,
    shares: &[Share],
    tokens: &[u64],
    credits: u32,
) -> Result<Vec<u32>, AllocError> {
    let mut row = Vec::new(alloc);
    for buffer in 0..program.buffers().len() {
        row.push(count_of(shares, buffer))?;
    }
    for token in program.tokens() {
        row.push(u32::from(tokens.contains(&token.user_data)))?;
    }
    row.push(credits)?;
    Ok(row)
}

/// As much as a list says while the flag is 0.
pub fn row_of(alloc: Global, program: &Program, items: &Items) -> Result<Vec<u32>, AllocError> {
    listed(alloc, program, &items.shares, &items.tokens, items.credits)
}

/// How many shares of a buffer are listed.
fn count_of(shares: &[Share], buffer: usize) -> u32 {
    for share in shares {
        if share.buffer == buffer {
            return share.count;
        }
    }
    0
}

/// How much there is of the part at a place.
fn count_at(row: &[u32], place: usize) -> u32 {
    row.get(place).copied().unwrap_or(0)
}

/// Keeps of each part no more than another row has.
pub fn lessen(row: &mut Vec<u32>, other: &[u32]) {
    for (place, count) in row.as_mut_slice().iter_mut().enumerate() {
        *count = (*count).min(count_at(other, place));
    }
}

/// Has of each part as much as another row, or more.
pub fn larger(row: &mut Vec<u32>, other: &[u32]) {
    for (place, count) in row.as_mut_slice().iter_mut().enumerate() {
        *count = (*count).max(count_at(other, place));
    }
}

/// Whether a row has of each part as much as another.
pub fn covers(row: &[u32], other: &[u32]) -> bool {
    for (place, count) in other.iter().enumerate() {
        if count_at(row, place) < *count {
            return false;
        }
    }
    true
}

/// What two rows have together.
pub fn added(alloc: Global, row: &[u32], more: &[u32]) -> Result<Vec<u32>, AllocError> {
    let mut sums = Vec::new(alloc);
    for (place, count) in row.iter().enumerate() {
        sums.push(count.saturating_add(count_at(more, place)))?;
    }
    Ok(sums)
}

/// What a row has above another.
pub fn above(alloc: Global, row: &[u32], other: &[u32]) -> Result<Vec<u32>, AllocError> {
    let mut rest = Vec::new(alloc);
    for (place, count) in row.iter().enumerate() {
        rest.push(count.saturating_sub(count_at(other, place)))?;
    }
    Ok(rest)
}

/// How many items a row has.
pub fn size(row: &[u32]) -> u64 {
    let mut size: u64 = 0;
    for count in row {
        size = size.saturating_add(u64::from(*count));
    }
    size
}

/// Adds a part and how much of it there is, if any.
fn put_item(text: &mut Vec<u8>, name: &[u8], count: u32) -> Result<(), AllocError> {
    if count == 0 {
        return Ok(());
    }
    put_pieces(text, &[b" ", name, b":"])?;
    put_number(text, u64::from(count))
}

/// Adds the items of a row, in the order of the declarations.
pub fn put_row(text: &mut Vec<u8>, program: &Program, row: &[u32]) -> Result<(), AllocError> {
    let (buffers, tokens) = (program.buffers(), program.tokens());
    for (place, buffer) in buffers.iter().enumerate() {
        put_item(text, &buffer.name, count_at(row, place))?;
    }
    for (place, token) in tokens.iter().enumerate() {
        if count_at(row, buffers.len().saturating_add(place)) > 0 {
            put_piece(text, b" t:")?;
            put_number(text, token.user_data)?;
        }
    }
    let last = buffers.len().saturating_add(tokens.len());
    put_item(text, b"c", count_at(row, last))
}
