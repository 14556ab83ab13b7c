//! What events of a thread are, as steps of its stretches.

use crate::items::{above, joined};
use crate::source::Source;
use crate::steps::{Doing, Made, Standing};
use crate::stretches::{Small, Stretches};
use rc_replay::replayed::{Class, Event, Held, Part, Sent, Submit};
use std::alloc::AllocError;

impl Stretches {
    /// Adds requests one by one, and their submit.
    pub fn add_each(
        &mut self,
        source: Source<'_>,
        at: u32,
        event: &Event,
        requests: &[Sent],
        submit: Submit,
    ) -> Result<u32, AllocError> {
        let mut at = at;
        let mut held = source.items(event.before)?;
        for sent in requests {
            at = self.add_sent(source, at, &held, &[*sent], (Submit::None, &[]))?;
            let gone = source.sent_items(sent.token, sent.request)?;
            held = above(source.alloc, &held, &gone)?;
        }
        match submit {
            Submit::None => Ok(at),
            _ => self.add_plain(source, at, event, Doing::Submit(submit)),
        }
    }

    /// Adds requests together.
    pub fn add_all(
        &mut self,
        source: Source<'_>,
        at: u32,
        event: &Event,
        requests: &[Sent],
        submit: Submit,
    ) -> Result<u32, AllocError> {
        let held = source.items(event.before)?;
        self.add_sent(source, at, &held, requests, (submit, &event.places))
    }

    fn add_sent(
        &mut self,
        source: Source<'_>,
        at: u32,
        held: &[Held],
        requests: &[Sent],
        submit: (Submit, &[u32]),
    ) -> Result<u32, AllocError> {
        let (submit, places) = submit;
        let mut items = Vec::new(source.alloc);
        for sent in requests {
            let more = source.sent_items(sent.token, sent.request)?;
            items = joined(source.alloc, &items, &more)?;
        }
        let made = Made {
            doing: Doing::Send(submit),
            requests,
            places,
        };
        let small = Small {
            made,
            needs: &items,
            gives: &items,
            thing: source.thing_of(&items),
            held,
        };
        self.add_small(source, at, small)
    }

    /// Adds what needs nothing.
    pub fn add_plain(
        &mut self,
        source: Source<'_>,
        at: u32,
        event: &Event,
        doing: Doing,
    ) -> Result<u32, AllocError> {
        let small = Small {
            made: made(doing, event),
            needs: &[],
            gives: &[],
            thing: None,
            held: &[],
        };
        self.add_small(source, at, small)
    }

    /// Adds a touch of a buffer of which there are so many shares.
    pub fn add_touch(
        &mut self,
        source: Source<'_>,
        at: u32,
        event: &Event,
        doing: Doing,
        shares: (u32, u32),
    ) -> Result<u32, AllocError> {
        let (buffer, count) = shares;
        let needs = [Held {
            part: Part::Buffer(buffer),
            count,
        }];
        let held = source.items(event.before)?;
        let small = Small {
            made: made(doing, event),
            needs: &needs,
            gives: &[],
            thing: source.thing_of(&needs),
            held: &held,
        };
        self.add_small(source, at, small)
    }

    pub fn add_put(
        &mut self,
        source: Source<'_>,
        at: u32,
        event: &Event,
        pool: u32,
    ) -> Result<u32, AllocError> {
        let items = source.moved(event.before, event.after)?;
        if items.is_empty() {
            return Ok(at);
        }
        let list = self.lists.add(items.clone()?)?;
        let held = source.items(event.before)?;
        let small = Small {
            made: made(Doing::Put(pool, list), event),
            needs: &items,
            gives: &items,
            thing: source.thing_of(&items),
            held: &held,
        };
        self.add_small(source, at, small)
    }

    pub fn add_take(
        &mut self,
        source: Source<'_>,
        at: u32,
        event: &Event,
        pool: u32,
        items: Vec<Held>,
    ) -> Result<u32, AllocError> {
        if items.is_empty() {
            return Ok(at);
        }
        let list = self.lists.add(items.clone()?)?;
        self.add_gain(source, at, event, Doing::Take(pool, list), items)
    }

    /// Adds that a thing is got: a stretch begins.
    pub fn add_gain(
        &mut self,
        source: Source<'_>,
        at: u32,
        event: &Event,
        doing: Doing,
        items: Vec<Held>,
    ) -> Result<u32, AllocError> {
        self.steps.end(at);
        let thing = source.thing_of(&items);
        let standing = Standing {
            hand: self.lists.add(items)?,
            thing,
            is_early: matches!(doing, Doing::Reap(_, _, true)),
            is_in_arm: matches!(doing, Doing::Reap(_, _, _)),
        };
        self.steps.step(0, made(doing, event), standing)
    }

    /// Adds that a completion is seen that was used before.
    pub fn add_seen(&mut self, at: u32, event: &Event) -> Result<u32, AllocError> {
        let Some(step) = self.steps.get(at) else {
            return Ok(at);
        };
        let mut standing = step.standing;
        if !standing.is_early {
            return Ok(at);
        }
        standing.is_early = false;
        let at = self.steps.step(at, made(Doing::Seen, event), standing)?;
        Ok(self.closed(at))
    }
}

// What an event does.
fn made(doing: Doing, event: &Event) -> Made<'_> {
    Made {
        doing,
        requests: &[],
        places: &event.places,
    }
}

/// The place of a class. Nothing is known of one that isn't there.
pub fn place_of(class: Option<Class>) -> u32 {
    match class {
        Some(Class::Short) => 1,
        Some(Class::Zero) => 2,
        Some(Class::Negative) => 3,
        Some(Class::Full) | None => 0,
    }
}
