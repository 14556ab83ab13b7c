//! What a replay gives: holdings, events and windows, each that is the same once.

use crate::ledger::Share;
use crate::names::{at, set, short};
use crate::replayed::{Act, Event, Held, Holding};
use crate::shapes::{Deed, Shape};
use crate::stage::{Stage, Stock};
use crate::windows::{Tracks, Traits};
use indexmap::{IndexMap, IndexSet};
use std::alloc::{AllocError, Global};

/// What an event is made of.
#[derive(Clone, Copy)]
pub enum Origin {
    /// An event of a log, by its shape.
    Shape(u32),
    /// A put that no log has, by its number.
    Stock(u32),
}

/// An event: what it is made of, what it moves, and what was held before and after.
#[derive(Clone, Copy)]
pub struct Done {
    pub origin: Origin,
    pub thing: Option<u32>,
    pub before: u32,
    pub after: u32,
}

/// The most parts of all holdings.
const MOST_PARTS: usize = 16_000_000;

/// What a replay gives.
#[derive(Drop)]
pub struct Outcome {
    holding_keys: IndexSet<Vec<u32>>,
    pub holdings: Vec<Holding>,
    /// How many parts they have.
    parts: usize,
    /// Each event, by whether no log has it, its shape, its thing, and what was held before and after.
    keys: IndexMap<(bool, u32, Option<u32>, u32, u32), bool>,
    done: Vec<Done>,
    pub tracks: Tracks,
    /// Which threads reap, and which reap early.
    pub reaps: Vec<(bool, bool)>,
}

/// The key of a holding.
fn holding_key(alloc: Global, shares: &[Share]) -> Result<Vec<u32>, AllocError> {
    let mut key = Vec::new(alloc);
    for share in shares {
        key.extend_from_slice(&[share.part, share.count])?;
    }
    Ok(key)
}

/// The holding of these shares.
fn holding_of(stage: Stage<'_>, shares: &[Share]) -> Result<Holding, AllocError> {
    let mut parts = Vec::new(stage.ground.alloc);
    for share in shares {
        parts.push(Held {
            part: stage.part_at(share.part),
            count: share.count,
        })?;
    }
    Ok(Holding { parts })
}

impl Outcome {
    /// Nothing of so many threads.
    pub fn new(alloc: Global, threads: usize) -> Result<Outcome, AllocError> {
        Ok(Outcome {
            holding_keys: IndexSet::new(alloc),
            holdings: Vec::new(alloc),
            parts: 0,
            keys: IndexMap::new(alloc),
            done: Vec::new(alloc),
            tracks: Tracks::new(alloc, threads)?,
            reaps: vec![in alloc; (false, false); threads]?,
        })
    }

    /// Whether there are so many holdings that no more are kept.
    pub fn is_full(&self) -> bool {
        self.parts > MOST_PARTS
    }

    /// The number of a holding, which is added where it is new.
    pub fn holding(&mut self, stage: Stage<'_>, shares: &[Share]) -> Result<u32, AllocError> {
        let key = holding_key(stage.ground.alloc, shares)?;
        if let Some(number) = self.holding_keys.get_index_of(key.as_slice()) {
            return Ok(short(number));
        }
        let number = short(self.holdings.len());
        self.parts = self.parts.saturating_add(shares.len());
        self.holdings.push(holding_of(stage, shares)?)?;
        self.holding_keys.insert(key)?;
        Ok(number)
    }

    /// The number of an event, which is added where it is new.
    pub fn event(&mut self, done: Done) -> Result<u32, AllocError> {
        let (is_stock, number) = match done.origin {
            Origin::Shape(number) => (false, number),
            Origin::Stock(number) => (true, number),
        };
        let key = (is_stock, number, done.thing, done.before, done.after);
        if let Some(number) = self.keys.get_index_of(&key) {
            return Ok(short(number));
        }
        let number = short(self.done.len());
        self.done.push(done)?;
        self.keys.insert(key, true)?;
        Ok(number)
    }

    /// A thread does an event. Answers its number.
    pub fn add(&mut self, stage: Stage<'_>, thread: u32, done: Done) -> Result<u32, AllocError> {
        let event = self.event(done)?;
        if let Origin::Shape(number) = done.origin
            && let Some(shape) = stage.shapes.at(number)
        {
            self.note_reap(thread, &shape.deed);
        }
        self.tracks.add(thread, event, traits_of(stage, done))?;
        Ok(event)
    }

    /// A thread that reaps is one that reaps.
    fn note_reap(&mut self, thread: u32, deed: &Deed) {
        if let Deed::Reap {
            token: _,
            class: _,
            is_early,
        } = deed
        {
            let (_, was_early) = at(&self.reaps, thread, (false, false));
            set(&mut self.reaps, thread, (true, was_early || *is_early));
        }
    }

    /// The events.
    pub fn events(&self, stage: Stage<'_>, stocks: &[Stock]) -> Result<Vec<Event>, AllocError> {
        let mut events = Vec::new(stage.ground.alloc);
        for done in &self.done {
            let event = match done.origin {
                Origin::Shape(number) => shaped(stage, *done, number)?,
                Origin::Stock(number) => stocked(stage, stocks, *done, number)?,
            };
            events.push(event)?;
        }
        Ok(events)
    }
}

/// What an event is, of what windows depend on.
fn traits_of(stage: Stage<'_>, done: Done) -> Traits {
    let Origin::Shape(number) = done.origin else {
        return Traits {
            is_put: true,
            is_known: done.thing.is_some(),
        };
    };
    match stage.shapes.at(number) {
        Some(shape) => traits_by(&shape.deed, done.thing),
        None => Traits {
            is_put: false,
            is_known: false,
        },
    }
}

/// What an event of this deed is.
fn traits_by(deed: &Deed, thing: Option<u32>) -> Traits {
    let is_put = matches!(deed, Deed::Put { pool: _, buffer: _ });
    let is_take = matches!(deed, Deed::Take { pool: _, buffer: _ });
    let is_cut = matches!(deed, Deed::Cut { requests: _ });
    Traits {
        is_put,
        is_known: !is_cut && (thing.is_some() || !is_put && !is_take),
    }
}

/// An event of a log.
fn shaped(stage: Stage<'_>, done: Done, number: u32) -> Result<Event, AllocError> {
    match stage.shapes.at(number) {
        Some(shape) => event_of(shape, done),
        None => nothing(stage.ground.alloc, done),
    }
}

/// An event of this shape.
fn event_of(shape: &Shape, done: Done) -> Result<Event, AllocError> {
    Ok(Event {
        act: act_of(&shape.deed, done.thing)?,
        before: done.before,
        after: done.after,
        is_unlocked: shape.is_unlocked,
        place: shape.place,
        places: shape.places.clone()?,
    })
}

/// An event that says nothing.
fn nothing(alloc: Global, done: Done) -> Result<Event, AllocError> {
    Ok(Event {
        act: Act::Cut,
        before: done.before,
        after: done.after,
        is_unlocked: false,
        place: 0,
        places: Vec::new(alloc),
    })
}

/// A put that no log has.
fn stocked(
    stage: Stage<'_>,
    stocks: &[Stock],
    done: Done,
    number: u32,
) -> Result<Event, AllocError> {
    let alloc = stage.ground.alloc;
    let Some(stock) = stocks.get(number as usize) else {
        return nothing(alloc, done);
    };
    let mut places = Vec::new(alloc);
    places.push(stock.place)?;
    Ok(Event {
        act: Act::Put {
            pool: stock.pool,
            thing: done.thing,
        },
        before: done.before,
        after: done.after,
        is_unlocked: false,
        place: stock.place,
        places,
    })
}

/// What a thread does, with the thing that it moves.
fn act_of(deed: &Deed, thing: Option<u32>) -> Result<Act, AllocError> {
    match deed {
        Deed::Send { requests, submit } => Ok(Act::Send {
            requests: requests.clone()?,
            submit: *submit,
        }),
        Deed::Cut { requests: _ } => Ok(Act::Cut),
        Deed::Submit(submit) => Ok(Act::Submit(*submit)),
        Deed::Reap {
            token,
            class,
            is_early,
        } => Ok(Act::Reap {
            token: *token,
            class: *class,
            is_early: *is_early,
        }),
        Deed::Seen { token } => Ok(Act::Seen { token: *token }),
        Deed::Put { pool, buffer: _ } => Ok(Act::Put { pool: *pool, thing }),
        Deed::Take { pool, buffer: _ } => Ok(Act::Take { pool: *pool, thing }),
        Deed::Fill(buffer) => Ok(Act::Fill(*buffer)),
        Deed::Load(buffer) => Ok(Act::Load(*buffer)),
        Deed::End => Ok(Act::End),
    }
}
