//! Steps of weak runs.

ghost use Rattle.std.specs.Prelude.{◌≡◌, IfOk, IfSome};
ghost use Rattle.rc_world.specs.WeakRuns.{IsWeakStep};

use rc_world::event::{Event, Item};
use rc_world::world::World;
use std::alloc::AllocError;

/// How many requests a world makes at most.
const MOST_MADE: u64 = u64::MAX - 1;

/// Makes the step that an item names, where it is enabled and does no harm itself, and answers its event. Otherwise the
/// world stays.
pub fn step(world: &mut World<'_>, item: &Item) -> Result<Option<Event>, AllocError>
    ensures { IfOk result (λ event. IfSome event (λ e. IsWeakStep world.old e world.new)) }
{
    if world.made() > MOST_MADE - 1 || !world.enabled(item) {
        return Ok(None);
    }
    world.advance(item)
}

/// Makes a step of a thread that the machine may not have: an `if take` goes to its second branch, or a load gives this
/// byte. Where it has none the world stays.
pub fn stray(world: &mut World<'_>, thread: u32, byte: u8) -> Option<Event>
    ensures { IfSome result (λ e. IsWeakStep world.old e world.new) }
{
    if world.strays(thread) {
        Some(world.stray(thread, byte))
    } else {
        None
    }
}
