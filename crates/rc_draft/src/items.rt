//! Lists of items: what is held, put and taken.

use rc_replay::replayed::{Held, Holding, Part};
use std::alloc::{AllocError, Global};

/// What a holding has that can be put: shares and tokens.
pub fn items_of(alloc: Global, holding: &Holding) -> Result<Vec<Held>, AllocError> {
    let mut items = Vec::new(alloc);
    for held in &holding.parts {
        if matches!(held.part, Part::Buffer(_) | Part::Token(_)) {
            items.push(*held).map_err(AllocError::from)?;
        }
    }
    Ok(items)
}

/// Whether both are the same part, of those that can be put.
pub fn is_same(one: Part, two: Part) -> bool {
    match (one, two) {
        (Part::Buffer(one), Part::Buffer(two)) => one == two,
        (Part::Token(one), Part::Token(two)) => one == two,
        _ => false,
    }
}

/// How many of a part there are.
pub fn count(items: &[Held], part: Part) -> u32 {
    for held in items {
        if is_same(held.part, part) {
            return held.count;
        }
    }
    0
}

/// Whether one has all that the other has.
pub fn covers(one: &[Held], other: &[Held]) -> bool {
    for held in other {
        if count(one, held.part) < held.count {
            return false;
        }
    }
    true
}

/// What one has more than another.
pub fn above(alloc: Global, one: &[Held], other: &[Held]) -> Result<Vec<Held>, AllocError> {
    let mut items = Vec::new(alloc);
    for held in one {
        let more = held.count.saturating_sub(count(other, held.part));
        add(&mut items, held.part, more)?;
    }
    Ok(items)
}

/// What both have.
pub fn both(alloc: Global, one: &[Held], other: &[Held]) -> Result<Vec<Held>, AllocError> {
    let mut items = Vec::new(alloc);
    for held in one {
        let less = held.count.min(count(other, held.part));
        add(&mut items, held.part, less)?;
    }
    Ok(items)
}

/// What both have together.
pub fn joined(alloc: Global, one: &[Held], other: &[Held]) -> Result<Vec<Held>, AllocError> {
    let mut items = Vec::new(alloc);
    for held in one {
        let more = held.count.saturating_add(count(other, held.part));
        add(&mut items, held.part, more)?;
    }
    for held in other {
        if count(one, held.part) == 0 {
            add(&mut items, held.part, held.count)?;
        }
    }
    Ok(items)
}

/// Those of the items that are of some parts.
pub fn of_parts(alloc: Global, items: &[Held], parts: &[Part]) -> Result<Vec<Held>, AllocError> {
    let mut some = Vec::new(alloc);
    for held in items {
        if is_among(parts, held.part) {
            add(&mut some, held.part, held.count)?;
        }
    }
    Ok(some)
}

fn is_among(parts: &[Part], part: Part) -> bool {
    for other in parts {
        if is_same(*other, part) {
            return true;
        }
    }
    false
}

/// Adds so many of a part that isn't there, if they are any.
pub fn add(items: &mut Vec<Held>, part: Part, count: u32) -> Result<(), AllocError> {
    if count > 0 {
        items.push(Held { part, count }).map_err(AllocError::from)?;
    }
    Ok(())
}

/// Whether both have the same.
pub fn is_equal(one: &[Held], other: &[Held]) -> bool {
    covers(one, other) && covers(other, one)
}

/// How many tokens there are.
pub fn tokens(items: &[Held]) -> u32 {
    let mut tokens = 0u32;
    for held in items {
        if matches!(held.part, Part::Token(_)) {
            tokens = tokens.saturating_add(1);
        }
    }
    tokens
}

/// Lists of items, each once.
#[derive(Drop)]
pub struct Lists {
    pub lists: Vec<Vec<Held>>,
}

impl Lists {
    /// The number of a list.
    pub fn add(&mut self, items: Vec<Held>) -> Result<u32, AllocError> {
        for (place, list) in self.lists.iter().enumerate() {
            if is_equal(list, &items) {
                return Ok(crate::marks::number_of(place));
            }
        }
        let number = crate::marks::number_of(self.lists.len());
        self.lists.push(items).map_err(AllocError::from)?;
        Ok(number)
    }

    /// A list, by its number.
    pub fn get(&self, number: u32) -> &[Held] {
        match self.lists.get(number as usize) {
            Some(list) => list,
            None => &[],
        }
    }
}
