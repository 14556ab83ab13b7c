//! What the code of a thread is drafted from.

use crate::graph::Graph;
use crate::guards::Guards;
use crate::items::{above, add, items_of, of_parts};
use rc_lang::lines::Locks;
use rc_machine::machine::Node;
use rc_replay::replayed::{Held, Holding, Kind, Part, Replayed, Request, Submit, Token};
use std::alloc::{AllocError, Global};

/// The logs as they were replayed, and the thread.
#[derive(Clone, Copy)]
pub struct Source<'a> {
    pub alloc: Global,
    pub replayed: &'a Replayed,
    pub holdings: &'a [Holding],
    pub guards: Guards,
    /// Whether entries may stay queued where the lock is released.
    pub has_left: bool,
    /// Whether the ring may lack room then: there are more tokens than entries.
    pub is_tight: bool,
}

/// The same, and the nodes of the thread's machine.
#[derive(Clone, Copy)]
pub struct Plan<'a> {
    pub source: Source<'a>,
    pub graph: &'a Graph<'a>,
}

impl<'a> Source<'a> {
    /// The items of a holding.
    pub fn items(self, holding: u32) -> Result<Vec<Held>, AllocError> {
        match self.holdings.get(holding as usize) {
            Some(holding) => items_of(self.alloc, holding),
            None => Ok(Vec::new(self.alloc)),
        }
    }

    /// A token.
    pub fn token(self, token: u32) -> Option<&'a Token> {
        self.replayed.tokens.get(token as usize)
    }

    /// How many shares a buffer has.
    pub fn shares(self, buffer: u32) -> u32 {
        match self.replayed.buffers.get(buffer as usize) {
            Some(buffer) => buffer.shares,
            None => 1,
        }
    }

    /// What a request of a token owns that comes back in any case: of each buffer the least that one of its requests
    /// takes.
    pub fn request_items(self, number: u32) -> Result<Vec<Held>, AllocError> {
        let mut items = Vec::new(self.alloc);
        if let Some(token) = self.token(number) {
            self.add_least(&mut items, *token)?;
        }
        add(&mut items, Part::Token(number), 1)?;
        Ok(items)
    }

    // Adds the shares of the buffer of a token's first request, if the others take some of it too.
    fn add_least(self, items: &mut Vec<Held>, token: Token) -> Result<(), AllocError> {
        let Some(buffer) = token.buffer else {
            return Ok(());
        };
        let mut least = self.owned(first_request(token), buffer);
        for other in token.others {
            if let Some(request) = other {
                least = least.min(self.owned(request, buffer));
            }
        }
        add(items, Part::Buffer(buffer), least)
    }

    /// What a request of a token takes.
    pub fn sent_items(self, number: u32, request: u32) -> Result<Vec<Held>, AllocError> {
        let mut items = Vec::new(self.alloc);
        if let Some(token) = self.token(number) {
            let request = request_of(*token, request);
            if let Some(buffer) = request.buffer {
                add(
                    &mut items,
                    Part::Buffer(buffer),
                    self.owned(request, buffer),
                )?;
            }
        }
        add(&mut items, Part::Token(number), 1)?;
        Ok(items)
    }

    /// What one holding has more than another.
    pub fn moved(self, one: u32, other: u32) -> Result<Vec<Held>, AllocError> {
        let one = self.items(one)?;
        let other = self.items(other)?;
        above(self.alloc, &one, &other)
    }

    /// Those of the items that are of a thing.
    pub fn some_of(self, items: &[Held], thing: u32) -> Result<Vec<Held>, AllocError> {
        match self.replayed.things.get(thing as usize) {
            Some(thing) => of_parts(self.alloc, items, &thing.parts),
            None => Ok(Vec::new(self.alloc)),
        }
    }

    /// The thing that all of the items are of.
    pub fn thing_of(self, items: &[Held]) -> Option<u32> {
        let mut thing: Option<u32> = None;
        for held in items {
            let own = self.thing_of_part(held.part)?;
            if let Some(other) = thing {
                if other != own {
                    return None;
                }
            }
            thing = Some(own);
        }
        thing
    }

    fn thing_of_part(self, part: Part) -> Option<u32> {
        match part {
            Part::Buffer(buffer) => Some(self.replayed.buffers.get(buffer as usize)?.thing),
            Part::Token(token) => Some(self.token(token)?.thing),
            _ => None,
        }
    }

    /// The locks that a send takes.
    pub fn send_locks(self, is_in_arm: bool) -> Option<Locks> {
        if is_in_arm {
            self.guards.of_send_in_arm()
        } else {
            self.guards.of_send()
        }
    }

    /// Whether a send may stand in an arm of a peek: no loop is needed for it.
    pub fn is_sent_in_arm(self, submit: Submit) -> bool {
        match submit {
            Submit::None => !self.is_tight,
            _ => self.has_left && !self.is_tight,
        }
    }

    // How many shares of a buffer a request owns.
    fn owned(self, request: Request, buffer: u32) -> u32 {
        if request.buffer != Some(buffer) {
            return 0;
        }
        match request.kind {
            Kind::Read => self.shares(buffer),
            Kind::Write => 1,
            _ => 0,
        }
    }
}

/// The first request of a token.
pub fn first_request(token: Token) -> Request {
    Request {
        kind: token.kind,
        buffer: token.buffer,
        file: token.file,
        len: token.len,
    }
}

/// A request of a token, by its number.
pub fn request_of(token: Token, number: u32) -> Request {
    let [one, two, three] = token.others;
    let other = match number {
        1 => one,
        2 => two,
        3 => three,
        _ => None,
    };
    match other {
        Some(request) => request,
        None => first_request(token),
    }
}

impl<'a> Plan<'a> {
    /// What is held at a node, of what can be put.
    pub fn items(self, node: u32) -> Result<Vec<Held>, AllocError> {
        match self.graph.node(node) {
            Some(node) => self.source.items(node.held),
            None => Ok(Vec::new(self.source.alloc)),
        }
    }

    /// A node, unless it is the end.
    pub fn node(self, node: u32) -> Option<&'a Node> {
        self.graph.node(node)
    }
}
