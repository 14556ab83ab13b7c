//! Sets of nodes.

use std::alloc::{AllocError, Global};

/// Which of some numbers are in a set.
#[derive(Drop)]
pub struct Marks {
    has: Vec<bool>,
}

impl Marks {
    /// None of so many numbers.
    pub fn new(alloc: Global, len: usize) -> Result<Marks, AllocError> {
        Ok(Marks {
            has: vec![in alloc; false; len]?,
        })
    }

    /// These of so many numbers.
    pub fn of(alloc: Global, len: usize, numbers: &[u32]) -> Result<Marks, AllocError> {
        let mut marks = Marks::new(alloc, len)?;
        for number in numbers {
            let _ = marks.add(*number);
        }
        Ok(marks)
    }

    /// The same set.
    pub fn copied(&self) -> Result<Marks, AllocError> {
        Ok(Marks {
            has: self.has.clone()?,
        })
    }

    /// Whether a number is in it.
    pub fn has(&self, number: u32) -> bool {
        match self.has.get(number as usize) {
            Some(is) => *is,
            None => false,
        }
    }

    /// Adds a number. Whether it wasn't there.
    pub fn add(&mut self, number: u32) -> bool {
        match self.has.get_mut(number as usize) {
            Some(is) => {
                let is_new = !*is;
                *is = true;
                is_new
            }
            None => false,
        }
    }

    /// Whether some number is in both.
    pub fn meets(&self, other: &Marks) -> bool {
        for (one, two) in self.has.iter().zip(&other.has) {
            if *one && *two {
                return true;
            }
        }
        false
    }

    /// Leaves those that are in another set too.
    pub fn keep(&mut self, other: &Marks) {
        for (one, two) in self.has.iter_mut().zip(&other.has) {
            *one = *one && *two;
        }
    }
}

/// The number of a place.
pub fn number_of(place: usize) -> u32 {
    place.min(u32::MAX as usize) as u32
}
