//! Worlds to which others lead anyway.

ghost use Rattle.std.specs.Prelude.{◌≡◌, ◌<◌, length, true, All, Contains, IfOk};

use crate::alike::{are_alike, are_alike_beside};
use crate::hidden::Ground;
use crate::node::Node;
use crate::room::Room;
use rc_world::world::World;
use std::alloc::AllocError;

/// Takes away each world to which another leads by steps that the thread can make at any time: what follows from the one
/// then follows from the other.
pub fn drop_covered<'a>(
    ground: Ground<'_, '_>,
    worlds: &mut Vec<Node<'a>>,
    room: &mut Room<'a>,
) -> Result<(), AllocError>
    ensures { IfOk result (λ _. All (Contains worlds.old.items) worlds.new.items) }
{
    for at in (0..worlds.len()).rev() {
        if is_covered(ground, worlds, at) {
            let covered = worlds.remove(at);
            room.give(covered)?;
        }
    }
    Ok(())
}

/// Whether another of the worlds leads to the one at this place.
fn is_covered(ground: Ground<'_, '_>, worlds: &[Node<'_>], at: usize) -> bool
    ensures { result ≡ true → at < length worlds.now }
{
    match worlds.get(at) {
        Some(node) => is_led_to(ground, worlds, at, node),
        None => false,
    }
}

/// Whether one of the worlds leads to this one, which is at this place, or is like it, and was reached over the same lines
/// of the text, or more.
fn is_led_to(ground: Ground<'_, '_>, worlds: &[Node<'_>], at: usize, node: &Node<'_>) -> bool {
    for (place, other) in worlds.iter().enumerate() {
        if place != at
            && comes_to(ground, other.world(), node.world())
            && other.has_made_all(node)
        {
            return true;
        }
    }
    false
}

/// Whether the one leads to the other or is like it.
fn comes_to(ground: Ground<'_, '_>, one: &World<'_>, other: &World<'_>) -> bool {
    leads_to(ground, one, other) || are_alike(ground.reads, one, other)
}

/// Whether the thread has another place in the one world than in the other, and comes to that place.
fn leads_to(ground: Ground<'_, '_>, one: &World<'_>, other: &World<'_>) -> bool {
    match (one.place(ground.thread), other.place(ground.thread)) {
        (Some(from), Some(to)) => {
            from != to
                && ground
                    .loops
                    .lead(one.program(), ground.reads, ground.thread, from, to)
                && are_alike_beside(ground.reads, ground.thread, one, other)
        }
        _ => false,
    }
}
