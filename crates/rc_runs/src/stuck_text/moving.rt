//! Steps of a world, for what is said of it.

use rc_world::controls::Next;
use rc_world::event::{Event, Item};
use rc_world::world::{Stop, World};
use std::alloc::AllocError;

/// Makes the step that an item names, and answers its event; none where it isn't enabled or the world has a fault.
pub fn moved(world: &mut World<'_>, item: &Item) -> Result<Option<Event>, AllocError> {
    if world.made() > u64::from(u32::MAX) || !world.enabled(item) {
        return Ok(None);
    }
    match world.apply(item) {
        Ok(event) => Ok(Some(event)),
        Err(Stop::Fault(_)) => Ok(None),
        Err(Stop::OutOfMemory) => Err(AllocError),
    }
}

/// The same, where no fault of another thread is looked for.
pub fn advanced(world: &mut World<'_>, item: &Item) -> Result<Option<Event>, AllocError> {
    if world.made() > u64::from(u32::MAX) || !world.enabled(item) {
        return Ok(None);
    }
    world.advance(item)
}

/// The thread that has to move so that this one can: itself, or who has the lock for which it waits.
pub fn mover(world: &World<'_>, thread: u32) -> u32 {
    let mut first = thread;
    for _ in 0..2 {
        let Next::TakenLock(wanted) = world.next(first) else {
            return first;
        };
        match world.holders().taken_by(wanted) {
            Some(holder) => first = holder,
            None => return first,
        }
    }
    first
}
