//! How a search goes on from a world by hidden steps.

ghost use Rattle.std.specs.Prelude.{◌≡◌, IfOk};
ghost use Rattle.rc_lang.specs.Program.{Program};
ghost use Rattle.rc_follow.specs.Searches.{Visits};

use crate::alike::are_alike_beside;
use crate::hidden::{Ground, Way, push_hidden, way_on};
use crate::kept::Found;
use crate::node::Node;
use crate::room::{Room, is_there};
use rc_log::call::Call;
use std::alloc::AllocError;

/// Where fewer worlds than these are still to be looked at, a search remembers only those at the ends of loops' turns.
const FEW_WORLDS: usize = 8;

/// Goes on from a world after many steps, so that the search looks at other worlds too.
pub fn look_further<'a>(
    ground: Ground<'_, 'a>,
    node: Node<'a>,
    found: &mut Found<'a>,
    room: &mut Room<'a>,
) -> Result<(), AllocError>
    ensures { IfOk result (λ _. (P : Program) → Visits P ground.entry.noted.now node.entry ground.entry.thread ground.entry.call found.old found.new) }
{
    let way = way_on(ground, node.world());
    look_on(ground, node, way, false, found, room)?;
    Ok(())
}

/// Goes on from a world by each hidden step of the thread, which has this way, unless the search goes on from one that is
/// like it, or comes to the same in another way. `is_begun` says whether the search begins from it.
pub fn look_on<'a>(
    ground: Ground<'_, 'a>,
    node: Node<'a>,
    way: Way,
    is_begun: bool,
    found: &mut Found<'a>,
    room: &mut Room<'a>,
) -> Result<(), AllocError>
    ensures { IfOk result (λ _. (P : Program) → Visits P ground.entry.noted.now node.entry ground.entry.thread ground.entry.call found.old found.new) }
{
    if is_known(ground, way, is_begun, &node, found, room)? {
        room.give(node)?;
    } else {
        push_hidden(ground, node, way, room, &mut found.todo)?;
    }
    Ok(())
}

/// Whether the search goes on from a world that is like this one, or comes to it in another way.
fn is_known<'a>(
    ground: Ground<'_, 'a>,
    way: Way,
    is_begun: bool,
    node: &Node<'a>,
    found: &Found<'a>,
    room: &mut Room<'a>,
) -> Result<bool, AllocError> {
    match way {
        Way::Back(_) if is_begun => Ok(false),
        Way::Back(top) if is_beside_begun(ground, top, node, found) => Ok(true),
        Way::Back(_) => room.has_seen(ground.reads, ground.alloc, node),
        _ if found.todo.len() < FEW_WORLDS => Ok(false),
        _ => room.has_seen(ground.reads, ground.alloc, node),
    }
}

/// Whether a world from which the thread goes back to this loop is like one that the search begins from, or the search
/// comes to it anyway.
fn is_beside_begun(ground: Ground<'_, '_>, top: usize, node: &Node<'_>, found: &Found<'_>) -> bool {
    is_there(ground.reads, node, ground.begun) || comes_to_it(ground, top, node, found)
}

/// Whether the search goes on anyway from the first line of the loop at this place, to which the thread goes back: from a
/// world that it begins from, or after an unlock.
fn comes_to_it(ground: Ground<'_, '_>, top: usize, node: &Node<'_>, found: &Found<'_>) -> bool {
    is_in_loop(ground, top, node, ground.begun)
        || matches!(ground.call, Call::Unlock(_)) && is_in_loop(ground, top, node, &found.worlds)
}

/// Whether this world will be like one of these once the thread is at the first line of the loop at this place.
fn is_in_loop(ground: Ground<'_, '_>, top: usize, node: &Node<'_>, nodes: &[Node<'_>]) -> bool {
    for there in nodes {
        if is_at_top(ground.thread, top, there)
            && are_alike_beside(ground.reads, ground.thread, there.world(), node.world())
        {
            return true;
        }
    }
    false
}

/// Whether the thread is at the top of the loop at this place, or at its first line.
fn is_at_top(thread: u32, top: usize, node: &Node<'_>) -> bool {
    match node.world().place(thread) {
        Some(place) => place == top || place == top.saturating_add(1),
        None => false,
    }
}
