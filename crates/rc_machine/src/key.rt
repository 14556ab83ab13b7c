//! What tells the nodes of a machine apart.

use crate::holdings::Tables;
use rc_replay::replayed::{Act, Class, Event, Submit};
use std::alloc::AllocError;

/// What is held at a node, and what the thread does there or has done.
#[derive(Clone, Copy, PartialEq, Eq, Hash)]
pub struct Key {
    pub held: u32,
    pub spot: Spot,
}

/// What a thread does at a node, and where in C.
#[derive(Clone, Copy, PartialEq, Eq, Hash)]
pub enum Spot {
    After {
        deed: Deed,
        place: u32,
    },
    Wait {
        place: u32,
    },
    Take {
        pool: u32,
        place: u32,
    },
    Send {
        list: u32,
        submit: Submit,
    },
    Submit {
        submit: Submit,
        place: u32,
    },
    Put {
        pool: u32,
        thing: u32,
        place: u32,
        step: u32,
    },
    Fill {
        buffer: u32,
        place: u32,
    },
    Load {
        buffer: u32,
        place: u32,
    },
    Seen {
        token: u32,
        place: u32,
    },
    End,
}

/// What a thread has just done.
#[derive(Clone, Copy, PartialEq, Eq, Hash)]
pub enum Deed {
    Started,
    Sent,
    Submitted,
    Reaped(u32),
    /// It has put things. The step counts those that it puts before it does anything else, else it is 0.
    Put(u32),
    Took(u32),
    Filled,
    Loaded,
    Saw(u32),
    Ended,
}

/// The key of the node where an event comes.
pub fn key_before(tables: &mut Tables, event: &Event, step: u32) -> Result<Key, AllocError> {
    let spot = spot_of(tables, event, step)?;
    let held = match spot {
        Spot::End => tables.holding(Vec::new(tables.alloc))?,
        _ => tables.held(event.before),
    };
    Ok(Key { held, spot })
}

/// What a thread does where an event comes.
fn spot_of(tables: &mut Tables, event: &Event, step: u32) -> Result<Spot, AllocError> {
    let place = event.place;
    Ok(match &event.act {
        Act::Send { requests, submit } => Spot::Send {
            list: tables.list(Vec::from_slice(tables.alloc, requests)?)?,
            submit: *submit,
        },
        Act::Submit(submit) => Spot::Submit {
            submit: *submit,
            place,
        },
        Act::Reap { .. } => Spot::Wait { place },
        Act::Put { pool, thing } => Spot::Put {
            pool: *pool,
            thing: thing.unwrap_or(0),
            place,
            step,
        },
        Act::Take { pool, .. } => Spot::Take { pool: *pool, place },
        Act::Fill(buffer) => Spot::Fill {
            buffer: *buffer,
            place,
        },
        Act::Load(buffer) => Spot::Load {
            buffer: *buffer,
            place,
        },
        Act::Seen { token } => Spot::Seen {
            token: *token,
            place,
        },
        Act::End | Act::Cut => Spot::End,
    })
}

/// The key of the node behind an event.
pub fn key_after(tables: &Tables, event: &Event, step: u32) -> Key {
    let deed = match &event.act {
        Act::Send { .. } => Deed::Sent,
        Act::Submit(_) => Deed::Submitted,
        Act::Reap { token, .. } => Deed::Reaped(*token),
        Act::Put { .. } => Deed::Put(step),
        Act::Take { thing, .. } => Deed::Took(thing.unwrap_or(0)),
        Act::Fill(_) => Deed::Filled,
        Act::Load(_) => Deed::Loaded,
        Act::Seen { token } => Deed::Saw(*token),
        Act::End | Act::Cut => Deed::Ended,
    };
    Key {
        held: tables.held(event.after),
        spot: Spot::After {
            deed,
            place: event.place,
        },
    }
}

/// The key of the node where a thread begins.
pub fn key_of_start(tables: &Tables, held: u32) -> Key {
    Key {
        held: tables.held(held),
        spot: Spot::After {
            deed: Deed::Started,
            place: 0,
        },
    }
}

/// The place of a class among the four. Where the log doesn't say how a request ended, it moved all.
fn place_of_class(class: Option<Class>) -> u32 {
    match class {
        None | Some(Class::Full) => 0,
        Some(Class::Short) => 1,
        Some(Class::Zero) => 2,
        Some(Class::Negative) => 3,
    }
}

/// The place of the class of the completion that an event takes away.
pub fn class_of(event: &Event) -> Option<u32> {
    match event.act {
        Act::Reap { class, .. } => Some(place_of_class(class)),
        _ => None,
    }
}

/// What an event takes: the token of a completion, or a thing.
pub fn label_of(event: &Event) -> Option<u32> {
    match event.act {
        Act::Reap { token, .. } => Some(token),
        Act::Take { thing, .. } => thing,
        _ => None,
    }
}
