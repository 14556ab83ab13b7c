//! The stretches of a thread, read off its events.

use crate::doings::place_of;
use crate::items::{Lists, above, covers};
use crate::source::Source;
use crate::steps::{Doing, Made, Standing, Steps};
use indexmap::IndexMap;
use rc_replay::replayed::{Act, Event, Held};
use std::alloc::AllocError;

/// The steps of a thread while its events are read.
#[derive(Drop)]
pub struct Stretches {
    pub steps: Steps,
    pub lists: Lists,
    // Where an event leads from a step.
    known: IndexMap<(u32, u32), u32>,
}

/// What is done, and what it takes of what is in hand.
#[derive(Clone, Copy)]
pub struct Small<'a> {
    pub made: Made<'a>,
    /// What has to be in hand.
    pub needs: &'a [Held],
    /// What is in hand no more behind it.
    pub gives: &'a [Held],
    /// What it is about.
    pub thing: Option<u32>,
    /// All that is held before it.
    pub held: &'a [Held],
}

impl Stretches {
    /// No steps.
    pub fn new(source: Source<'_>) -> Result<Stretches, AllocError> {
        let mut lists = Lists {
            lists: Vec::new(source.alloc),
        };
        let empty = lists.add(Vec::new(source.alloc))?;
        Ok(Stretches {
            steps: Steps::new(source.alloc, empty)?,
            lists,
            known: IndexMap::new(source.alloc),
        })
    }

    /// Adds an event after a step. Answers the step after which the next event comes.
    pub fn add_known(
        &mut self,
        source: Source<'_>,
        at: u32,
        number: u32,
    ) -> Result<u32, AllocError> {
        if let Some(to) = self.known.get(&(at, number)) {
            return Ok(*to);
        }
        let Some(event) = source.replayed.events.get(number as usize) else {
            return Ok(at);
        };
        let from = self.unlocked(source, at, event);
        let to = self.add_event(source, from, event)?;
        self.known.insert((at, number), to)?;
        Ok(to)
    }

    // The step behind which an event comes: the root, where the thread unlocks before it and the step is in an arm.
    fn unlocked(&mut self, source: Source<'_>, at: u32, event: &Event) -> u32 {
        if !event.is_unlocked || source.guards.is_peek_kept() {
            return at;
        }
        match self.steps.get(at) {
            Some(step) if step.standing.is_in_arm => {}
            _ => return at,
        }
        self.steps.end(at);
        0
    }

    // Adds an event after a step. Answers the step after which the next event comes.
    fn add_event(&mut self, source: Source<'_>, at: u32, event: &Event) -> Result<u32, AllocError> {
        match &event.act {
            Act::Send { requests, submit } if source.has_left => {
                self.add_each(source, at, event, requests, *submit)
            }
            Act::Send { requests, submit } => self.add_all(source, at, event, requests, *submit),
            Act::Submit(submit) => self.add_plain(source, at, event, Doing::Submit(*submit)),
            Act::End => self.add_plain(source, at, event, Doing::End),
            Act::Reap {
                token,
                class,
                is_early,
            } => {
                let doing = Doing::Reap(*token, place_of(*class), *is_early);
                let items = source.request_items(*token)?;
                self.add_gain(source, at, event, doing, items)
            }
            Act::Seen { .. } => self.add_seen(at, event),
            Act::Take { pool, .. } => {
                let items = source.moved(event.after, event.before)?;
                self.add_take(source, at, event, *pool, items)
            }
            Act::Put { pool, .. } => self.add_put(source, at, event, *pool),
            Act::Fill(buffer) => {
                let shares = source.shares(*buffer);
                self.add_touch(source, at, event, Doing::Fill(*buffer), (*buffer, shares))
            }
            Act::Load(buffer) => {
                self.add_touch(source, at, event, Doing::Load(*buffer), (*buffer, 1))
            }
            Act::Cut => Ok(at),
        }
    }

    /// Adds what is done with what is in hand, or with what the thread has had.
    pub fn add_small(
        &mut self,
        source: Source<'_>,
        at: u32,
        small: Small<'_>,
    ) -> Result<u32, AllocError> {
        let mut from = at;
        if !self.fits(source, at, small) {
            self.steps.end(at);
            from = self.own(source, small)?;
        }
        let Some(step) = self.steps.get(from) else {
            return Ok(0);
        };
        let mut standing = step.standing;
        let hand = above(source.alloc, self.lists.get(standing.hand), small.gives)?;
        standing.hand = self.lists.add(hand)?;
        let to = self.steps.step(from, small.made, standing)?;
        Ok(self.closed(to))
    }

    // The step at which a stretch begins with what the thread has had.
    fn own(&mut self, source: Source<'_>, small: Small<'_>) -> Result<u32, AllocError> {
        if small.needs.is_empty() {
            return Ok(0);
        }
        let items = match small.thing {
            Some(thing) => source.some_of(small.held, thing)?,
            None => small.needs.to_vec(source.alloc)?,
        };
        let list = self.lists.add(items)?;
        let made = Made {
            doing: Doing::Own(list),
            requests: &[],
            places: &[],
        };
        let standing = Standing {
            hand: list,
            thing: small.thing,
            is_early: false,
            is_in_arm: false,
        };
        self.steps.step(0, made, standing)
    }

    // Whether this goes on with the stretch of a step.
    fn fits(&self, source: Source<'_>, at: u32, small: Small<'_>) -> bool {
        let Some(step) = self.steps.get(at) else {
            return false;
        };
        let standing = step.standing;
        let is_about = standing.is_early || standing.thing == small.thing && small.thing.is_some();
        let has_room = !standing.is_in_arm || is_in_arm(source, small.made.doing);
        at != 0 && is_about && has_room && covers(self.lists.get(standing.hand), small.needs)
    }

    /// The step after which the next event comes: the root, where nothing is left in hand.
    pub fn closed(&mut self, at: u32) -> u32 {
        match self.steps.get(at) {
            Some(step) => {
                let standing = step.standing;
                if standing.is_early || !self.lists.get(standing.hand).is_empty() {
                    return at;
                }
            }
            None => return 0,
        }
        self.steps.end(at);
        0
    }
}

// Whether this can stand in an arm of a peek.
fn is_in_arm(source: Source<'_>, doing: Doing) -> bool {
    match doing {
        Doing::Send(submit) | Doing::Submit(submit) => source.is_sent_in_arm(submit),
        Doing::End => false,
        _ => true,
    }
}
