//! A quick guess whether a world is stuck.

use crate::random::Random;
use crate::step::{Step, make};
use crate::stuck::closing::goes_on;
use crate::stuck::quiet::{is_at_any, line_moves};
use rc_world::controls::Next;
use rc_world::event::Item;
use rc_world::world::World;
use std::alloc::{AllocError, Global};

/// How many rounds of all threads are made at most.
const ROUNDS: u32 = 100;

/// Whether nothing moves in some rounds of steps of all threads.
pub fn seems_stuck(alloc: Global, world: &World<'_>) -> Result<bool, AllocError> {
    let count = world.program().threads().len() as u32;
    if world.pending_len() > 0 || have_ended(world, count) {
        return Ok(false);
    }
    let mut random = Random::new(1, Vec::new(alloc));
    let mut world = world.copy(alloc)?;
    for _round in 0..ROUNDS {
        if !is_still_round(&mut world, count, &mut random)? {
            return Ok(false);
        }
    }
    Ok(true)
}

/// Whether all of so many threads have ended.
fn have_ended(world: &World<'_>, count: u32) -> bool {
    for thread in 0..count {
        if goes_on(world, thread) {
            return false;
        }
    }
    true
}

/// Makes a step of each thread, and answers whether none moved anything.
fn is_still_round(
    world: &mut World<'_>,
    count: u32,
    random: &mut Random,
) -> Result<bool, AllocError> {
    for thread in 0..count {
        if !is_still_step(world, thread, random)? {
            return Ok(false);
        }
    }
    Ok(true)
}

/// Makes a step of this thread, and answers whether it moved nothing.
fn is_still_step(
    world: &mut World<'_>,
    thread: u32,
    random: &mut Random,
) -> Result<bool, AllocError> {
    if !matches!(world.next(thread), Next::Ready(_)) {
        return Ok(true);
    }
    if line_moves(world, thread) || world.made() > u64::from(u32::MAX) {
        return Ok(false);
    }
    let take = is_at_any(world, thread).then_some(random.place(2) as i32);
    match make(world, &Item::Thread { thread, take })? {
        Step::Made => Ok(goes_on(world, thread)),
        _ => Ok(false),
    }
}
