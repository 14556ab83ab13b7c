//! What comes later in a log: the next takes and puts of a thread, and the next touch of a thing.

use crate::course::Larger;
use crate::names::{at, set, short};
use crate::parts::Parts;
use crate::shapes::{Deed, Shapes, requests_of};
use indexmap::IndexMap;
use std::alloc::{AllocError, Global};

/// Past all events.
pub const NEVER: u32 = u32::MAX;

/// What comes after an event, by the numbers of events. What comes later than those that are looked at is never.
#[derive(Clone, Copy)]
pub struct Ahead {
    /// The thread's next event.
    pub next: u32,
    /// The thread's next take.
    pub take: u32,
    /// The thread's next put.
    pub put: u32,
    /// The thread's next put into the same pool.
    pub same_put: u32,
    /// Anybody's next take from the same pool.
    pub pool_take: u32,
}

/// Nothing comes after.
pub const NOTHING: Ahead = Ahead {
    next: NEVER,
    take: NEVER,
    put: NEVER,
    same_put: NEVER,
    pool_take: NEVER,
};

/// A touch of a thing.
#[derive(Clone, Copy)]
pub struct Touch {
    pub event: u32,
    pub thread: u32,
}

/// A log from its end on.
#[derive(Drop)]
struct Behind {
    /// Of each thread the next event, take and put.
    nexts: Vec<u32>,
    takes: Vec<u32>,
    puts: Vec<u32>,
    /// Of each pool the next take.
    pool_takes: Vec<u32>,
    /// Of each thread and pool the next put.
    same_puts: IndexMap<(u32, u32), u32>,
}

/// The pool of a mark, and whether it is a take.
fn mark_of(deed: &Deed) -> Option<(u32, bool)> {
    match deed {
        Deed::Put { pool, buffer: _ } => Some((*pool, false)),
        Deed::Take { pool, buffer: _ } => Some((*pool, true)),
        _ => None,
    }
}

/// What comes after each of these events of a log. The first of them has this number.
pub fn look_ahead(
    alloc: Global,
    shapes: &Shapes,
    events: &[Larger],
    first: u32,
    threads: usize,
    pools: usize,
) -> Result<Vec<Ahead>, AllocError> {
    let mut behind = Behind {
        nexts: vec![in alloc; NEVER; threads]?,
        takes: vec![in alloc; NEVER; threads]?,
        puts: vec![in alloc; NEVER; threads]?,
        pool_takes: vec![in alloc; NEVER; pools]?,
        same_puts: IndexMap::new(alloc),
    };
    let mut ahead = vec![in alloc; NOTHING; events.len()]?;
    for back in 1..=events.len() {
        let place = short(events.len() - back);
        if let Some(event) = events.get(place as usize) {
            let seen = behind.before(shapes, *event, first.saturating_add(place))?;
            set(&mut ahead, place, seen);
        }
    }
    Ok(ahead)
}

impl Behind {
    /// What comes after the event of this number, which is then before the others.
    fn before(&mut self, shapes: &Shapes, event: Larger, number: u32) -> Result<Ahead, AllocError> {
        let thread = event.thread;
        let mut ahead = Ahead {
            next: at(&self.nexts, thread, NEVER),
            take: at(&self.takes, thread, NEVER),
            put: at(&self.puts, thread, NEVER),
            same_put: NEVER,
            pool_take: NEVER,
        };
        set(&mut self.nexts, thread, number);
        let Some(shape) = shapes.at(event.shape) else {
            return Ok(ahead);
        };
        if let Some((pool, is_take)) = mark_of(&shape.deed) {
            ahead.pool_take = at(&self.pool_takes, pool, NEVER);
            if is_take {
                set(&mut self.pool_takes, pool, number);
                set(&mut self.takes, thread, number);
            } else {
                set(&mut self.puts, thread, number);
                ahead.same_put = self
                    .same_puts
                    .insert((thread, pool), number)?
                    .unwrap_or(NEVER);
            }
        }
        Ok(ahead)
    }
}

/// The touches of each thing in these events of a log, in order.
pub fn touches_of(
    alloc: Global,
    shapes: &Shapes,
    parts: &Parts,
    events: &[Larger],
    first: u32,
) -> Result<Vec<Vec<Touch>>, AllocError> {
    let mut touches = Vec::new(alloc);
    for _ in 0..parts.things.len() {
        touches.push(Vec::new(alloc))?;
    }
    for (place, event) in events.iter().enumerate() {
        let touch = Touch {
            event: first.saturating_add(short(place)),
            thread: event.thread,
        };
        if let Some(shape) = shapes.at(event.shape) {
            add_touches(parts, &mut touches, &shape.deed, touch)?;
        }
    }
    Ok(touches)
}

/// Adds the touches of an event.
fn add_touches(
    parts: &Parts,
    touches: &mut [Vec<Touch>],
    deed: &Deed,
    touch: Touch,
) -> Result<(), AllocError> {
    if let Some(buffer) = touched(deed) {
        add_touch(touches, buffer, touch)?;
    }
    for sent in requests_of(deed) {
        add_touch(touches, at(&parts.thing_of, sent.token, NEVER), touch)?;
    }
    Ok(())
}

/// The buffer that is read or written.
pub fn touched(deed: &Deed) -> Option<u32> {
    match deed {
        Deed::Fill(buffer) => Some(*buffer),
        Deed::Load(buffer) => Some(*buffer),
        _ => None,
    }
}

/// Adds a touch of a thing.
fn add_touch(touches: &mut [Vec<Touch>], thing: u32, touch: Touch) -> Result<(), AllocError> {
    if let Some(touches) = touches.get_mut(thing as usize) {
        touches.push(touch)?;
    }
    Ok(())
}
