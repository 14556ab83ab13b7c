//! What is held at a place of a thread.

use crate::row::{covers, held_if_live, lessen};
use rc_rules::state::State;
use std::alloc::{AllocError, Global};

/// What is held at a place while the flag is 0, and while it isn't; nothing where the thread doesn't come there so. A
/// thread without a flag has the first alone.
#[derive(Drop)]
pub struct Held {
    pub zero: Option<Vec<u32>>,
    pub other: Option<Vec<u32>>,
}

impl Held {
    /// What a state has.
    pub fn of(alloc: Global, state: &State<'_>) -> Result<Held, AllocError> {
        let zero = held_if_live(alloc, state.on(true))?;
        let other = held_if_live(alloc, state.on(false))?;
        Ok(Held { zero, other })
    }

    /// Where nothing comes.
    pub fn nowhere() -> Held {
        Held {
            zero: None,
            other: None,
        }
    }

    /// Whether the thread comes there.
    pub fn is_reached(&self) -> bool {
        self.zero.is_some() || self.other.is_some()
    }

    /// Whether all of these is held that a loop keeps, with the flag and without.
    pub fn covers(&self, zero: &[u32], other: &[u32]) -> bool {
        has_all(&self.zero, zero) && has_all(&self.other, other)
    }

    /// Other ways come there.
    pub fn join(&mut self, more: Held) {
        join_side(&mut self.zero, more.zero);
        join_side(&mut self.other, more.other);
    }
}

/// Whether a row has all of another, if there is one.
fn has_all(row: &Option<Vec<u32>>, kept: &[u32]) -> bool {
    match row {
        Some(row) => covers(row, kept),
        None => true,
    }
}

fn join_side(row: &mut Option<Vec<u32>>, more: Option<Vec<u32>>) {
    let Some(more) = more else {
        return;
    };
    match row {
        Some(row) => lessen(row, &more),
        None => *row = Some(more),
    }
}
