//! Comments: lines of C, and what no log shows.

use crate::piece::Comment;
use rc_text::text::{put_piece, put_pieces};
use std::alloc::AllocError;

/// How many bytes a line has at most.
pub const MOST_BYTES: usize = 250;

/// Adds a comment to a line that began at a place of the text. Places that don't fit are left out.
pub fn put_comment(
    text: &mut Vec<u8>,
    begin: usize,
    places: &[Vec<u8>],
    lists: &[Vec<u32>],
    comment: Comment,
) -> Result<(), AllocError> {
    match comment {
        Comment::Nothing => Ok(()),
        Comment::Place(place) => put_places(text, begin, places, &[place]),
        Comment::Places(list) => match lists.get(list as usize) {
            Some(list) => put_places(text, begin, places, list),
            None => Ok(()),
        },
        Comment::Unseen { errno, less } => put_piece(text, unseen_words(errno, less)),
    }
}

fn unseen_words(errno: bool, less: bool) -> &'static [u8] {
    match (errno, less) {
        (true, true) => b"  # no log: errno, less than all",
        (true, false) => b"  # no log: errno",
        (false, true) => b"  # no log: less than all",
        (false, false) => b"",
    }
}

// Adds places of C: each file once, where they are sorted.
fn put_places(
    text: &mut Vec<u8>,
    begin: usize,
    places: &[Vec<u8>],
    list: &[u32],
) -> Result<(), AllocError> {
    let mut last: &[u8] = b"";
    let mut mark: &[u8] = b"  # ";
    for number in list {
        if let Some(place) = places.get(*number as usize) {
            let (file, line) = file_and_line(place);
            let is_more = file == last;
            let width = text.len().saturating_sub(begin).saturating_add(place.len());
            if width.saturating_add(4) < MOST_BYTES {
                put_place(text, mark, (file, line), is_more)?;
                last = file;
                mark = b" ";
            }
        }
    }
    Ok(())
}

fn put_place(
    text: &mut Vec<u8>,
    mark: &[u8],
    place: (&[u8], &[u8]),
    is_more: bool,
) -> Result<(), AllocError> {
    let (file, line) = place;
    if is_more {
        put_pieces(text, &[b",", line])
    } else {
        put_pieces(text, &[mark, file, b":", line])
    }
}

// The name of the file of a place, without its folders, and the line.
fn file_and_line(place: &[u8]) -> (&[u8], &[u8]) {
    let mut from = 0usize;
    let mut colon = place.len();
    for (at, byte) in place.iter().enumerate() {
        if *byte == b'/' {
            from = at.saturating_add(1);
        }
        if *byte == b':' {
            colon = at;
        }
    }
    (
        part(place, from, colon),
        part(place, colon.saturating_add(1), place.len()),
    )
}

fn part(bytes: &[u8], from: usize, to: usize) -> &[u8] {
    if from <= to && to <= bytes.len() {
        &bytes[from..to]
    } else {
        &[]
    }
}
