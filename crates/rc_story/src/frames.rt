//! The events of a run, each with the line that it was made at and the world after it.

use rc_lang::lines::Line;
use rc_world::controls::{Holders, Look};
use rc_world::event::{Event, Item};
use rc_world::world::{Slot, World};

/// What is drawn of a world.
#[derive(Clone, Copy)]
pub struct Moment {
    /// The numbers of the threads that hold the locks.
    pub holders: Holders,
    /// The open submission entry.
    pub slot: Slot,
    /// How many requests were made.
    pub made: u64,
    /// How many requests are queued.
    pub queued: u64,
    /// How many completions are in the ring.
    pub completions: u64,
    /// Whether the front completion is got.
    pub is_got: bool,
}

/// What is drawn of the world before the first event.
pub const START: Moment = Moment {
    holders: Holders { sq: None, cq: None },
    slot: Slot::Closed,
    made: 0,
    queued: 0,
    completions: 0,
    is_got: false,
};

/// An event of a run.
#[derive(Clone, Copy)]
pub struct Frame {
    /// What happened.
    pub event: Event,
    /// The line of the thread that made it.
    pub line: Option<Line>,
    /// The world after it.
    pub after: Moment,
}

/// What is drawn of this world.
pub fn moment_of(world: &World<'_>) -> Moment {
    Moment {
        holders: world.holders(),
        slot: world.slot(),
        made: world.made(),
        queued: world.queued().len() as u64,
        completions: world.completions().len() as u64,
        is_got: is_got(world),
    }
}

/// Whether the front completion is got: its request is reaped, and its entry still there.
pub fn is_got(world: &World<'_>) -> bool {
    matches!(world.look(), Look::Got)
}

/// The line that an item's thread has next.
pub fn line_of(world: &World<'_>, item: &Item) -> Option<Line> {
    match *item {
        Item::Thread { thread, .. } => world.line(thread),
        Item::Kernel { .. } => None,
    }
}
