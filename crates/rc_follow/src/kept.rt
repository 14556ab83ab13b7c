//! The worlds to which a line leads, and those that are still to be looked at.

ghost use Rattle.std.specs.Prelude.{◌≡◌, IfOk};
ghost use Rattle.rc_lang.specs.Program.{Program};
ghost use Rattle.rc_follow.specs.Searches.{MayAdd, Visits};

use crate::hidden::Ground;
use crate::node::Node;
use crate::reads::Reads;
use crate::room::{Room, is_there};
use crate::visible::{complete, make};
use rc_log::call::Call;
use std::alloc::{AllocError, Global};

/// What a search finds.
#[derive(Drop)]
pub struct Found<'a> {
    /// The worlds to which the line leads.
    pub worlds: Vec<Node<'a>>,
    /// Whether it was a step of the text.
    pub is_step: bool,
    /// Worlds before the line that aren't looked at yet.
    pub todo: Vec<Node<'a>>,
}

impl<'a> Found<'a> {
    /// Nothing.
    pub fn new(alloc: Global) -> Found<'a> {
        Found {
            worlds: Vec::new(alloc),
            is_step: false,
            todo: Vec::new(alloc),
        }
    }
}

/// Keeps the world after the call. A peek may find what completes now.
pub fn keep_made<'a>(
    ground: Ground<'_, '_>,
    node: Node<'a>,
    found: &mut Found<'a>,
    room: &mut Room<'a>,
) -> Result<(), AllocError>
    ensures { IfOk result (λ _. (P : Program) → Visits P ground.entry.noted.now node.entry ground.entry.thread ground.entry.call found.old found.new) }
{
    match ground.call {
        Call::Peek { user_data, res } if node.world().completions().is_empty() => {
            keep_peeked(ground, node, user_data, res, found, room)
        }
        _ => keep_called(ground, node, found, room),
    }
}

/// Keeps the world after the request with this user data has completed and the thread has peeked.
fn keep_peeked<'a>(
    ground: Ground<'_, '_>,
    mut node: Node<'a>,
    user_data: u64,
    res: i32,
    found: &mut Found<'a>,
    room: &mut Room<'a>,
) -> Result<(), AllocError>
    ensures { IfOk result (λ _. (P : Program) → Visits P ground.entry.noted.now node.entry ground.entry.thread ground.entry.call found.old found.new) }
{
    if complete(ground, &mut node, user_data, res)? {
        keep_called(ground, node, found, room)?;
    } else {
        room.give(node)?;
    }
    Ok(())
}

/// Keeps the world after the thread's step that is the call.
fn keep_called<'a>(
    ground: Ground<'_, '_>,
    mut node: Node<'a>,
    found: &mut Found<'a>,
    room: &mut Room<'a>,
) -> Result<(), AllocError>
    ensures { IfOk result (λ _. (P : Program) → Visits P ground.entry.noted.now node.entry ground.entry.thread ground.entry.call found.old found.new) }
{
    if make(ground, &mut node)? {
        found.is_step = true;
        keep(ground.reads, node, found, room)?;
    } else {
        room.give(node)?;
    }
    Ok(())
}

/// Adds a world, unless one that is like it is there which was reached over the same lines of the text, or more.
pub fn keep<'a>(
    reads: &Reads,
    node: Node<'a>,
    found: &mut Found<'a>,
    room: &mut Room<'a>,
) -> Result<(), AllocError>
    ensures worlds { IfOk result (λ _. MayAdd node.entry found.old.worlds.items found.new.worlds.items) }
    ensures todo { found.new.todo.items ≡ found.old.todo.items }
{
    if is_there(reads, &node, &found.worlds) {
        room.give(node)?;
    } else {
        found.worlds.push(node)?;
    }
    Ok(())
}
