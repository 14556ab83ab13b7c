//! The names of the pools that threads have to themselves.

use rc_replay::replayed::Replayed;
use rc_text::text::{put_number, put_piece};
use std::alloc::{AllocError, Global};

/// How many letters a name has at most.
pub const MOST_LETTERS: usize = 16;

/// A name for the pool of a thread, unlike all names of the logs and those that are taken.
pub fn own_name(
    alloc: Global,
    replayed: &Replayed,
    thread: &[u8],
    taken: &[Vec<u8>],
) -> Result<Vec<u8>, AllocError> {
    let mut name = cut_name(alloc, thread, &[])?;
    for number in 2..1000 {
        if !is_taken(replayed, taken, &name) {
            break;
        }
        let mut digits = Vec::new(alloc);
        put_number(&mut digits, number)?;
        name = cut_name(alloc, thread, &digits)?;
    }
    Ok(name)
}

// The name of a thread behind a word, cut so that these digits fit behind it.
fn cut_name(alloc: Global, thread: &[u8], digits: &[u8]) -> Result<Vec<u8>, AllocError> {
    let mut name = Vec::new(alloc);
    put_piece(&mut name, b"kept_")?;
    put_piece(&mut name, thread)?;
    name.truncate(MOST_LETTERS.saturating_sub(digits.len()));
    put_piece(&mut name, digits)?;
    Ok(name)
}

fn is_taken(replayed: &Replayed, taken: &[Vec<u8>], name: &[u8]) -> bool {
    for thread in &replayed.threads {
        if thread.name.as_slice() == name {
            return true;
        }
    }
    for buffer in &replayed.buffers {
        if buffer.name.as_slice() == name {
            return true;
        }
    }
    is_among(&replayed.pools, name) || is_among(taken, name)
}

fn is_among(names: &[Vec<u8>], name: &[u8]) -> bool {
    for other in names {
        if other.as_slice() == name {
            return true;
        }
    }
    false
}
