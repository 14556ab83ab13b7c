//! A world as text.

use crate::choices::{choices_of, put_choices};
use crate::pool::put_pools;
use crate::requests::{put_requests, put_slot};
use crate::threads::put_threads;
use rc_read::source::Lines;
use rc_world::world::World;
use std::alloc::{AllocError, Global};

/// A world in words, whose program was read from these bytes: what each thread has next, its variables, the open entry,
/// the requests, the pools, and what is enabled.
pub fn state_text(alloc: Global, text: &[u8], world: &World<'_>) -> Result<Vec<u8>, AllocError> {
    let mut state = Vec::new(alloc);
    put_threads(&mut state, &Lines::of(alloc, text)?, world)?;
    put_slot(&mut state, world.program(), world.slot())?;
    put_requests(&mut state, world)?;
    put_pools(&mut state, world)?;
    put_choices(&mut state, world.program(), &choices_of(alloc, world)?)?;
    Ok(state)
}
