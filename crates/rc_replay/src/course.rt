//! The larger events of a log that are looked at together.

use crate::names::{at, set, short};
use std::alloc::{AllocError, Global};

/// So many events are replayed at a time, and as many more are looked at.
const BLOCK: usize = 32_768;

/// The shape of requests that a thread still makes: no shape has this number.
pub const UNKNOWN: u32 = u32::MAX;

/// A larger event of a thread.
#[derive(Clone, Copy)]
pub struct Larger {
    pub thread: u32,
    pub shape: u32,
}

/// The events of a log that are made and aren't replayed yet. Events are by their numbers in the log.
#[derive(Drop)]
pub struct Course {
    /// The log, by its place in the order of all.
    pub log: u32,
    /// The number of the first of them.
    pub first: u32,
    pub events: Vec<Larger>,
    /// How many entries are queued.
    pub queued: u32,
    /// Of each token what was asked for with it last.
    pub latest: Vec<Option<u32>>,
    /// Of each thread the event that the log's end cuts off, where that is known.
    pub cuts: Vec<Option<u32>>,
}

impl Course {
    /// Before the first event of a log: so many tokens, and the events that its end cuts off.
    pub fn new(
        alloc: Global,
        log: u32,
        tokens: usize,
        cuts: Vec<Option<u32>>,
    ) -> Result<Course, AllocError> {
        Ok(Course {
            log,
            first: 0,
            events: Vec::new(alloc),
            queued: 0,
            latest: vec![in alloc; None; tokens]?,
            cuts,
        })
    }

    /// The number of the next event.
    pub fn next(&self) -> u32 {
        self.first.saturating_add(short(self.events.len()))
    }

    /// Adds an event.
    pub fn push(&mut self, thread: u32, shape: u32) -> Result<(), AllocError> {
        self.events.push(Larger { thread, shape })?;
        Ok(())
    }

    /// Sets the shape of an event.
    pub fn set_shape(&mut self, event: u32, thread: u32, shape: u32) {
        if let Some(place) = event.checked_sub(self.first) {
            set(&mut self.events, place, Larger { thread, shape });
        }
    }

    /// Whether the log's end cuts off an event of a thread.
    pub fn is_cut(&self, thread: u32, event: u32) -> bool {
        at(&self.cuts, thread, None) == Some(event)
    }

    /// Whether there are enough events.
    pub fn is_full(&self) -> bool {
        self.events.len() >= BLOCK.saturating_mul(2)
    }

    /// How many of them are replayed next: all, where the log is over.
    pub fn block(&self, is_over: bool) -> usize {
        if is_over {
            self.events.len()
        } else {
            self.events.len().min(BLOCK)
        }
    }

    /// Forgets so many, which were replayed.
    pub fn forget(&mut self, alloc: Global, count: usize) -> Result<(), AllocError> {
        let rest = match self.events.get(count..) {
            Some(rest) => Vec::from_slice(alloc, rest)?,
            None => Vec::new(alloc),
        };
        self.events = rest;
        self.first = self.first.saturating_add(short(count));
        Ok(())
    }
}
