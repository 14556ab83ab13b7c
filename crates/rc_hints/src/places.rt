//! The places of a line.

use crate::fitting::items_in_front;
use crate::lines::{column_of, from, word_at};
use rc_read::spots::{Spot, put_spots};
use rc_read::table::{Part, parts_of};
use rc_read::words::is;
use std::alloc::{AllocError, Global};

/// A word in its place: in which word of the line it is, and from which byte of that on.
#[derive(Clone, Copy)]
pub struct Place<'a> {
    pub part: Part,
    pub word: &'a [u8],
    pub at: usize,
    pub offset: usize,
}

/// The column of a place, from 1.
pub fn column_at(line: &[u8], place: Place) -> usize {
    column_of(line, place.at).saturating_add(place.offset)
}

/// Whether a name is at the beginning of a word that goes on: that of a share, or of a thread with copies.
fn begins(spot: Spot, word: &[u8]) -> bool {
    let is_name = matches!(spot.part, Part::Buffer | Part::NewThread);
    is_name && spot.word.len() < word.len()
}

/// Where in its word the word of a spot begins: a number is at the end, but for a bracket.
fn offset_of(spot: Spot, word: &[u8]) -> usize {
    let before = word.len().saturating_sub(spot.word.len());
    match spot.part {
        Part::Copies => before.saturating_sub(1),
        _ => before,
    }
}

/// Adds the places of a word, from this spot on: of a share those of its name and its number, as of copies, and else one.
/// Answers which spot is the next.
fn push_word<'a>(
    places: &mut Vec<Place<'a>>,
    spots: &[Spot<'a>],
    first: usize,
    word: &[u8],
    at: usize,
) -> Result<usize, AllocError> {
    for i in first..spots.len() {
        let spot = spots[i];
        let begins = begins(spot, word);
        places.push(Place {
            part: spot.part,
            word: spot.word,
            at,
            offset: if begins { 0 } else { offset_of(spot, word) },
        })?;
        if !begins {
            return Ok(i + 1);
        }
    }
    Ok(spots.len())
}

/// Whether a word of a part is in a place of its own: a fixed word isn't, nor is `or` between kinds.
fn has_spot(part: Part, word: &[u8]) -> bool {
    match part {
        Part::Fixed(_) => false,
        Part::Kinds => !is(word, b"or"),
        _ => true,
    }
}

/// The places of a line that has a form of this version.
pub fn places_of<'a>(
    alloc: Global,
    version: u32,
    words: &[&'a [u8]],
) -> Result<Vec<Place<'a>>, AllocError> {
    let mut places = Vec::new(alloc);
    let mut spots = Vec::new(alloc);
    let Some(row) = put_spots(version, &mut spots, words)? else {
        return Ok(places);
    };
    let mut next = 0;
    let mut at: usize = 0;
    for part in parts_of(row) {
        let count = match part {
            Part::Items => items_in_front(version, from(words, at)),
            Part::Kinds => from(words, at).len(),
            _ => 1,
        };
        for _ in 0..count {
            let word = word_at(words, at);
            if has_spot(*part, word) {
                next = push_word(&mut places, &spots, next, word, at)?;
            }
            at = at.saturating_add(1);
        }
    }
    Ok(places)
}
