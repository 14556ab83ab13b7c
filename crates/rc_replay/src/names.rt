//! Names and the numbers that they have; lists by number.

use indexmap::IndexSet;
use std::alloc::{AllocError, Global};

/// The number of a name, which is added where it is new.
pub fn add_name(
    alloc: Global,
    names: &mut IndexSet<Vec<u8>>,
    word: &[u8],
) -> Result<u32, AllocError> {
    if let Some(number) = names.get_index_of(word) {
        return Ok(short(number));
    }
    let (number, _) = names.insert_full(Vec::from_slice(alloc, word)?)?;
    Ok(short(number))
}

/// A place or a count as a number of 32 bits: the greatest where it has more.
pub fn short(number: usize) -> u32 {
    number.min(u32::MAX as usize) as u32
}

/// The value at a place, and this other one where there is none.
pub fn at<T: Copy>(values: &[T], place: u32, other: T) -> T {
    match values.get(place as usize) {
        Some(value) => *value,
        None => other,
    }
}

/// Sets the value at a place, if there is one.
pub fn set<T: Copy>(values: &mut [T], place: u32, value: T) {
    if let Some(old) = values.get_mut(place as usize) {
        *old = value;
    }
}
