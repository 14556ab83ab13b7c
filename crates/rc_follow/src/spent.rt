//! Worlds in which a call was made, and from which going on without it led to nothing else. They are remembered: a search
//! for a later line that reaches a world like one of them stops there.

use crate::alike::are_alike;
use crate::node::Node;
use crate::noted::Noted;
use crate::reads::Reads;
use rc_log::call::Call;
use rc_world::controls::Holders;
use std::alloc::{AllocError, Global};
use std::mem::swap;

/// The most worlds that are kept.
const MOST_SPENT: usize = 32;

/// What a search is for: the line's thread and call, and what the log says of its mutexes. From worlds that are alike the
/// same hidden steps lead to the call.
#[derive(Clone, Copy)]
pub struct Purpose {
    thread: u32,
    call: Call,
    mutexes: Holders,
    is_alone: bool,
}

impl Purpose {
    /// What a search for this line is for.
    pub fn of(noted: &Noted, thread: u32, call: Call) -> Purpose {
        Purpose {
            thread,
            call,
            mutexes: noted.mutexes(),
            is_alone: noted.is_alone(),
        }
    }

    /// Whether a thread may go on without the call: past a take or a put, or by a peek in vain.
    pub fn may_go_on(self) -> bool {
        are_same(self.call, self.call)
    }

    fn is_same(self, other: Purpose) -> bool {
        self.thread == other.thread
            && self.is_alone == other.is_alone
            && self.mutexes.sq == other.mutexes.sq
            && self.mutexes.cq == other.mutexes.cq
            && are_same(self.call, other.call)
    }
}

/// Whether two calls are the same mark of a pool, or peeks at the same request. The results of peeks don't matter: each is
/// the same wherever its search makes the call.
fn are_same(one: Call, other: Call) -> bool {
    match (one, other) {
        (Call::Put(one), Call::Put(other)) => one.pool == other.pool && one.buffer == other.buffer,
        (Call::Take(one), Call::Take(other)) => {
            one.pool == other.pool && one.buffer == other.buffer
        }
        (
            Call::Peek { user_data: one, .. },
            Call::Peek {
                user_data: other,
                ..
            },
        ) => one == other,
        _ => false,
    }
}

/// A world in which a call was made, and what the search was for.
#[derive(Drop)]
struct Spent<'a> {
    purpose: Purpose,
    node: Node<'a>,
}

/// A bounded set of worlds. When it is full, a new world replaces the oldest.
#[derive(Drop)]
pub struct SpentWorlds<'a> {
    known: Vec<Spent<'a>>,
    // Where the next world goes when the set is full.
    next: usize,
}

impl<'a> SpentWorlds<'a> {
    /// An empty set.
    pub fn new(alloc: Global) -> SpentWorlds<'a> {
        SpentWorlds {
            known: Vec::new(alloc),
            next: 0,
        }
    }

    /// Whether a world like this one is among them, where the search was for the same, and the way to this one made the
    /// calls of all lines of the text that the way to that one made: so going on from here makes no other line's call either.
    pub fn has(&self, reads: &Reads, purpose: Purpose, node: &Node<'_>) -> bool {
        for spent in &self.known {
            if spent.purpose.is_same(purpose)
                && are_alike(reads, spent.node.world(), node.world())
                && node.has_made_all(&spent.node)
            {
                return true;
            }
        }
        false
    }

    /// Adds a world. Returns the one that it replaces, if there was no room.
    pub fn keep(
        &mut self,
        purpose: Purpose,
        node: Node<'a>,
    ) -> Result<Option<Node<'a>>, AllocError> {
        let mut spent = Spent { purpose, node };
        if self.known.len() < MOST_SPENT {
            self.known.push(spent)?;
            return Ok(None);
        }
        if let Some(there) = self.known.get_mut(self.next) {
            swap(there, &mut spent);
        }
        self.next = self.next.wrapping_add(1) % MOST_SPENT;
        Ok(Some(spent.node))
    }

    /// Forgets them all.
    pub fn clear(&mut self) {
        self.known.clear();
        self.next = 0;
    }
}
