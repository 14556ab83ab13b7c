//! What a log is replayed with, and what was learned of all logs before.

use crate::ahead::{Ahead, NEVER, NOTHING, Touch};
use crate::course::Larger;
use crate::ledger::{Share, count_in, set_in};
use crate::making::Ground;
use crate::names::{at, short};
use crate::replayed::{Kind, Part};
use crate::shapes::{Deed, Shapes, requests_of};
use crate::users::Users;
use indexmap::IndexMap;
use std::alloc::{AllocError, Global};

/// What all logs are replayed with.
#[derive(Clone, Copy)]
pub struct Stage<'a> {
    pub ground: Ground<'a>,
    pub shapes: &'a Shapes,
    /// How many there are of each part.
    pub totals: &'a [u32],
    pub users: &'a Users,
}

/// A part of a log that is replayed.
#[derive(Clone, Copy)]
pub struct Scene<'a> {
    pub stage: Stage<'a>,
    /// The number of its first event.
    pub first: u32,
    pub events: &'a [Larger],
    pub ahead: &'a [Ahead],
    pub touches: &'a [Vec<Touch>],
}

/// Where a log is: an event by its number, its thread, and its place in C.
#[derive(Clone, Copy)]
pub struct Moment {
    pub event: u32,
    pub thread: u32,
    pub place: u32,
}

/// A thing that a mark moves, and whether one share of its buffer is moved alone.
#[derive(Clone, Copy)]
pub struct Moved {
    pub thing: u32,
    pub is_lent: bool,
}

/// A thing that lies in a pool from the beginning: who put it there, and where it is taken first.
#[derive(Clone, Copy)]
pub struct Stock {
    pub thread: u32,
    pub pool: u32,
    pub thing: u32,
    pub place: u32,
}

/// What was learned of the logs.
#[derive(Drop)]
pub struct Learned {
    /// What each thread begins with.
    pub starts: Vec<Vec<Share>>,
    /// What lies in pools from the beginning.
    pub stocks: Vec<Stock>,
    /// Which pools things were put into and taken from.
    pub homes: IndexMap<(u32, u32), bool>,
    /// Whether `homes` is known.
    pub is_used: bool,
    /// Whether a thread was found to begin with more.
    pub is_grown: bool,
}

impl Learned {
    /// Nothing, of no threads.
    pub fn none(alloc: Global) -> Learned {
        Learned {
            starts: Vec::new(alloc),
            stocks: Vec::new(alloc),
            homes: IndexMap::new(alloc),
            is_used: false,
            is_grown: false,
        }
    }

    /// Nothing, of so many threads.
    pub fn new(alloc: Global, threads: usize) -> Result<Learned, AllocError> {
        let mut learned = Learned::none(alloc);
        for _ in 0..threads {
            learned.starts.push(Vec::new(alloc))?;
        }
        Ok(learned)
    }

    /// The same once more.
    pub fn copied(&self, alloc: Global) -> Result<Learned, AllocError> {
        let mut copied = Learned::none(alloc);
        for shares in &self.starts {
            copied.starts.push(Vec::from_slice(alloc, shares)?)?;
        }
        copied.stocks = Vec::from_slice(alloc, &self.stocks)?;
        for home in self.homes.keys() {
            copied.homes.insert(*home, true)?;
        }
        copied.is_used = self.is_used;
        Ok(copied)
    }

    /// A thread begins with so many more of a part.
    pub fn begin_with(&mut self, thread: u32, part: u32, count: u32) -> Result<(), AllocError> {
        if let Some(start) = self.starts.get_mut(thread as usize) {
            let count = count_in(start, part).saturating_add(count);
            set_in(start, part, count)?;
        }
        self.is_grown = true;
        Ok(())
    }

    /// Whether a thing was put into a pool, or taken from it.
    pub fn is_home(&self, pool: u32, thing: u32) -> bool {
        self.homes.contains_key(&(pool, thing))
    }

    /// A thing was put into a pool, or taken from it.
    pub fn add_home(&mut self, pool: u32, thing: u32) -> Result<(), AllocError> {
        self.homes.insert((pool, thing), true)?;
        Ok(())
    }
}

impl Stage<'_> {
    /// How many buffers there are.
    fn buffers(&self) -> u32 {
        short(self.ground.tables.buffers.names.len())
    }

    /// How many tokens there are.
    fn tokens(&self) -> u32 {
        short(self.ground.tables.user_data.len())
    }

    /// The number of a part: buffers, tokens, requests that are out, and completions that aren't seen.
    pub fn part(&self, part: Part) -> u32 {
        let (buffers, tokens) = (self.buffers(), self.tokens());
        let outs = buffers.saturating_add(tokens);
        match part {
            Part::Buffer(buffer) => buffer,
            Part::Token(token) => buffers.saturating_add(token),
            Part::Out(token) => outs.saturating_add(token),
            Part::Got(token) => outs.saturating_add(tokens).saturating_add(token),
        }
    }

    /// The part of a number.
    pub fn part_at(&self, number: u32) -> Part {
        let (buffers, tokens) = (self.buffers(), self.tokens());
        if number < buffers {
            return Part::Buffer(number);
        }
        let token = number - buffers;
        if token < tokens {
            return Part::Token(token);
        }
        let out = token - tokens;
        if out < tokens {
            Part::Out(out)
        } else {
            Part::Got(out - tokens)
        }
    }

    /// The thing with which a part moves; none of a request that is out, and of a token that stays with its thread.
    pub fn thing_of(&self, number: u32) -> Option<u32> {
        let part = self.part_at(number);
        let thing = match part {
            Part::Buffer(buffer) => buffer,
            Part::Token(token) => at(&self.ground.parts.thing_of, token, NEVER),
            _ => return None,
        };
        if self.stays(thing, part) {
            None
        } else {
            Some(thing)
        }
    }

    /// Whether a thing has a buffer of several shares.
    pub fn is_shared(&self, thing: u32) -> bool {
        !self.is_bare(thing) && at(self.totals, thing, 0) > 1
    }

    /// Whether a token stays with its thread where the thing that it belongs to is moved: nobody else uses it, and the
    /// others share the buffer.
    pub fn stays(&self, thing: u32, part: Part) -> bool {
        match part {
            Part::Token(token) => self.is_shared(thing) && self.users.is_of_one(token),
            _ => false,
        }
    }

    /// Whether a thing is a token alone.
    pub fn is_bare(&self, thing: u32) -> bool {
        thing >= self.buffers()
    }

    /// The number of a pool among owners, which are threads and then pools.
    pub fn owner_of(&self, pool: u32) -> u32 {
        short(self.ground.tables.threads.names.len()).saturating_add(pool)
    }

    /// The pool that an owner is, if it is one.
    pub fn pool_of(&self, owner: u32) -> Option<u32> {
        owner.checked_sub(short(self.ground.tables.threads.names.len()))
    }

    /// The buffer of a request, and how many shares of it the request needs.
    pub fn share_of(&self, token: u32, which: u32) -> Option<(u32, u32)> {
        let request = self.ground.parts.request(token, which)?;
        let buffer = request.buffer?;
        match request.kind {
            Kind::Read => Some((buffer, at(self.totals, buffer, 0))),
            _ => Some((buffer, 1)),
        }
    }
}

impl<'a> Stage<'a> {
    /// The name of a part.
    pub fn part_name(self, number: u32) -> &'a [u8] {
        match self.part_at(number) {
            Part::Buffer(buffer) => self.ground.tables.buffers.name(buffer),
            Part::Token(token) => self.ground.tables.tokens.name(token),
            Part::Out(token) => self.ground.tables.tokens.name(token),
            Part::Got(token) => self.ground.tables.tokens.name(token),
        }
    }
}

impl Scene<'_> {
    /// An event by its number, if it is among those that are looked at.
    pub fn event(&self, event: u32) -> Option<Larger> {
        let place = event.checked_sub(self.first)?;
        self.events.get(place as usize).copied()
    }

    /// What comes after an event.
    pub fn ahead(&self, event: u32) -> Ahead {
        match event.checked_sub(self.first) {
            Some(place) => at(self.ahead, place, NOTHING),
            None => NOTHING,
        }
    }

    /// Whether an event needs all shares of a buffer.
    pub fn needs_all(&self, event: u32, buffer: u32) -> bool {
        let Some(larger) = self.event(event) else {
            return true;
        };
        let Some(shape) = self.stage.shapes.at(larger.shape) else {
            return true;
        };
        for sent in requests_of(&shape.deed) {
            if let Some((other, count)) = self.stage.share_of(sent.token, sent.request)
                && other == buffer
                && count > 1
            {
                return true;
            }
        }
        matches!(&shape.deed, Deed::Fill(_))
    }

    /// The touch of a thing at a place in order, if there is one.
    pub fn touch(&self, thing: u32, number: u32) -> Option<Touch> {
        self.touches
            .get(thing as usize)?
            .get(number as usize)
            .copied()
    }
}
