//! What a thread was seen to do with each thing, in order: the steps of a tree.
//!
//! A *stretch* begins where the thread gets a thing: it takes or reaps it, or has had it. It goes on as long as the
//! thread does something with this thing, and ends where it gives it away or does something else. Stretches that begin
//! alike share their first steps.

use crate::graph::add_new;
use crate::marks::number_of;
use rc_replay::replayed::{Sent, Submit};
use std::alloc::{AllocError, Global};

/// What is done at a step. Lists of items are named by number.
#[derive(Clone, Copy, PartialEq)]
pub enum Doing {
    /// All stretches begin behind it.
    Root,
    /// The thread has had a list of items.
    Own(u32),
    /// A pool and a list.
    Take(u32, u32),
    /// A token, the place of the class of its completion, and whether this is used before it is seen.
    Reap(u32, u32, bool),
    Fill(u32),
    Load(u32),
    Send(Submit),
    Submit(Submit),
    /// A pool and a list.
    Put(u32, u32),
    Seen,
    End,
}

/// What is done, its requests, and its lines of C.
#[derive(Clone, Copy)]
pub struct Made<'a> {
    pub doing: Doing,
    pub requests: &'a [Sent],
    pub places: &'a [u32],
}

/// Where a stretch is behind a step.
#[derive(Clone, Copy)]
pub struct Standing {
    /// The list of what is in hand.
    pub hand: u32,
    /// The thing that the stretch is about.
    pub thing: Option<u32>,
    /// Whether a completion is used that isn't seen yet.
    pub is_early: bool,
    /// Whether it stands in the arm of a peek.
    pub is_in_arm: bool,
}

/// A step.
#[derive(Drop)]
pub struct Step {
    pub doing: Doing,
    pub requests: Vec<Sent>,
    pub places: Vec<u32>,
    pub standing: Standing,
    /// The steps that come next.
    pub next: Vec<u32>,
    /// Whether a stretch ended here.
    pub is_end: bool,
}

/// The steps of a thread. The first is the root.
#[derive(Drop)]
pub struct Steps {
    pub steps: Vec<Step>,
}

impl Steps {
    /// The root alone. The list of this number is empty.
    pub fn new(alloc: Global, empty: u32) -> Result<Steps, AllocError> {
        let mut steps = Steps {
            steps: Vec::new(alloc),
        };
        let root = Made {
            doing: Doing::Root,
            requests: &[],
            places: &[],
        };
        let standing = Standing {
            hand: empty,
            thing: None,
            is_early: false,
            is_in_arm: false,
        };
        steps.push(root, standing)?;
        Ok(steps)
    }

    /// A step.
    pub fn get(&self, at: u32) -> Option<&Step> {
        self.steps.get(at as usize)
    }

    /// The steps that come behind a step.
    pub fn next(&self, at: u32) -> &[u32] {
        match self.get(at) {
            Some(step) => &step.next,
            None => &[],
        }
    }

    /// The step behind another at which this is done. It is added where it isn't there.
    pub fn step(&mut self, at: u32, made: Made<'_>, standing: Standing) -> Result<u32, AllocError> {
        if let Some(step) = self.found(at, made) {
            self.add_places(step, made.places)?;
            return Ok(step);
        }
        let step = number_of(self.steps.len());
        self.push(made, standing)?;
        if let Some(before) = self.steps.get_mut(at as usize) {
            before.next.push(step)?;
        }
        Ok(step)
    }

    /// Has a stretch end behind a step.
    pub fn end(&mut self, at: u32) {
        if let Some(step) = self.steps.get_mut(at as usize) {
            step.is_end = true;
        }
    }

    fn push(&mut self, made: Made<'_>, standing: Standing) -> Result<(), AllocError> {
        let alloc = *self.steps.allocator();
        let step = Step {
            doing: made.doing,
            requests: made.requests.to_vec(alloc)?,
            places: made.places.to_vec(alloc)?,
            standing,
            next: Vec::new(alloc),
            is_end: false,
        };
        self.steps.push(step).map_err(AllocError::from)
    }

    // The step behind another at which the same is done.
    fn found(&self, at: u32, made: Made<'_>) -> Option<u32> {
        for number in self.next(at) {
            if let Some(step) = self.get(*number) {
                if step.doing == made.doing && is_alike(&step.requests, made.requests) {
                    return Some(*number);
                }
            }
        }
        None
    }

    fn add_places(&mut self, at: u32, places: &[u32]) -> Result<(), AllocError> {
        match self.steps.get_mut(at as usize) {
            Some(step) => add_places(&mut step.places, places),
            None => Ok(()),
        }
    }
}

/// Adds the places that aren't there.
pub fn add_places(places: &mut Vec<u32>, more: &[u32]) -> Result<(), AllocError> {
    for place in more {
        add_new(places, *place)?;
    }
    Ok(())
}

// Whether both are the same requests of the same tokens.
fn is_alike(one: &[Sent], other: &[Sent]) -> bool {
    if one.len() != other.len() {
        return false;
    }
    for (one, other) in one.iter().zip(other) {
        if one.token != other.token || one.request != other.request {
            return false;
        }
    }
    true
}
