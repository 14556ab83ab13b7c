//! Worlds that searches have looked at, and worlds whose memory is used again.

ghost use Rattle.std.specs.Prelude.{◌≡◌, [], IfOk};

use crate::alike::are_alike;
use crate::node::Node;
use crate::reads::Reads;
use crate::spent::{Purpose, SpentWorlds};
use rc_world::world::weak::Lists;
use std::alloc::{AllocError, Global};

/// The worlds that a search has seen and remembers, those from which searches found nothing more, and spare worlds.
#[derive(Drop)]
pub struct Room<'a> {
    seen: Vec<Node<'a>>,
    // The world in which the search made the call first.
    first: Option<Node<'a>>,
    spent: SpentWorlds<'a>,
    spare: Vec<Node<'a>>,
    lists: Lists,
}

impl<'a> Room<'a> {
    /// With no world.
    pub fn new(alloc: Global) -> Room<'a> {
        Room {
            seen: Vec::new(alloc),
            first: None,
            spent: SpentWorlds::new(alloc),
            spare: Vec::new(alloc),
            lists: Lists::new(alloc),
        }
    }

    /// The same world again.
    pub fn copy(&mut self, alloc: Global, node: &Node<'a>) -> Result<Node<'a>, AllocError>
        ensures { IfOk result (λ n. n ≡ node.now) }
    {
        match self.spare.pop() {
            Some(mut spare) => {
                spare.copy_from(alloc, &mut self.lists, node)?;
                Ok(spare)
            }
            None => node.copy(alloc),
        }
    }

    /// Takes a world that is needed no more.
    pub fn give(&mut self, node: Node<'a>) -> Result<(), AllocError> {
        self.spare.push(node)?;
        Ok(())
    }

    /// Takes worlds that are needed no more.
    pub fn give_all(&mut self, nodes: &mut Vec<Node<'a>>) -> Result<(), AllocError>
        ensures { IfOk result (λ _. nodes.new.items ≡ []) }
    {
        self.spare.append(nodes)
    }

    /// Whether the search has seen a world that is like this one. It has from now on.
    pub fn has_seen(
        &mut self,
        reads: &Reads,
        alloc: Global,
        node: &Node<'a>,
    ) -> Result<bool, AllocError> {
        if is_there(reads, node, &self.seen) {
            return Ok(true);
        }
        let again = self.copy(alloc, node)?;
        self.seen.push(again)?;
        Ok(false)
    }

    /// How many of the worlds that it has seen it remembers.
    pub fn seen(&self) -> usize {
        self.seen.len()
    }

    /// Another search begins.
    pub fn forget(&mut self) -> Result<(), AllocError> {
        self.first = None;
        self.spare.append(&mut self.seen)
    }

    /// Another log begins.
    pub fn forget_all(&mut self) {
        self.spent.clear();
    }

    /// Remembers the world in which the search made the call first.
    pub fn note_first(&mut self, alloc: Global, node: &Node<'a>) -> Result<(), AllocError> {
        let again = self.copy(alloc, node)?;
        self.first = Some(again);
        Ok(())
    }

    /// The search has ended. Where it found the one world alone to which the call led first, going on without the call led
    /// to nothing else.
    pub fn end_search(&mut self, purpose: Purpose, found: usize) -> Result<(), AllocError> {
        let Some(first) = self.first.take() else {
            return Ok(());
        };
        if found != 1 {
            return self.give(first);
        }
        match self.spent.keep(purpose, first)? {
            Some(forgotten) => self.give(forgotten),
            None => Ok(()),
        }
    }

    /// Whether a search for the same went on from a world like this one, without the call, and found nothing more.
    pub fn is_spent(&self, reads: &Reads, purpose: Purpose, node: &Node<'_>) -> bool {
        self.spent.has(reads, purpose, node)
    }
}

/// How many worlds that are alike are kept at most, where each was reached over other lines of the text.
const MOST_ALIKE: usize = 8;

/// Whether one of these worlds is like this one and was reached over the same lines of the text, or more; or many are
/// like it.
pub fn is_there(reads: &Reads, node: &Node<'_>, nodes: &[Node<'_>]) -> bool {
    let mut alike = 0usize;
    for there in nodes {
        if are_alike(reads, there.world(), node.world()) {
            if there.has_made_all(node) {
                return true;
            }
            alike = alike.saturating_add(1);
        }
    }
    alike >= MOST_ALIKE
}
