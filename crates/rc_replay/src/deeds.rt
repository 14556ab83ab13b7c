//! What a thread does by a line of a log.

use crate::hands::{Hand, Peeked};
use crate::replayed::{Class, Kind};
use crate::shapes::{Deed, Shape, Shapes};
use crate::steps::Says;
use crate::tables::Tables;
use std::alloc::{AllocError, Global};

/// How a completion's request ended.
pub fn class_of(tables: &Tables, asked: Option<u32>, res: i32) -> Class {
    if res < 0 {
        return Class::Negative;
    }
    let Some(asked) = tables.asked_at(asked) else {
        return Class::Full;
    };
    match asked.kind {
        Kind::Other => Class::Full,
        Kind::Fsync { is_datasync: _ } | Kind::Nop if res == 0 => Class::Full,
        Kind::Fsync { is_datasync: _ } | Kind::Nop => Class::Short,
        _ if res == 0 => Class::Zero,
        _ if i64::from(res) == i64::from(asked.len) => Class::Full,
        _ => Class::Short,
    }
}

/// What a thread does by a mark.
pub fn deed_of(says: Says) -> Option<Deed> {
    match says {
        Says::Reads(buffer) => Some(Deed::Load(buffer)),
        Says::Writes(buffer) => Some(Deed::Fill(buffer)),
        Says::Put(pool) => Some(Deed::Put { pool, buffer: None }),
        Says::PutOf { pool, buffer } => Some(Deed::Put {
            pool,
            buffer: Some(buffer),
        }),
        Says::Take(pool) => Some(Deed::Take { pool, buffer: None }),
        Says::TakeOf { pool, buffer } => Some(Deed::Take {
            pool,
            buffer: Some(buffer),
        }),
        Says::Ends => Some(Deed::End),
        _ => None,
    }
}

/// Why no model has what a line says; empty where it may.
pub fn why_not(says: Says) -> &'static [u8] {
    match says {
        Says::NoEntry => b"get_sqe found no entry: the ring was full",
        Says::Flags => b"an entry has flags, which no model has",
        Says::Unnamed => b"nobody said which buffer this is (RINGCHECK_BUFFER)",
        _ => b"",
    }
}

/// Whether both touch the same buffer in the same way.
pub fn is_same_touch(one: &Deed, other: &Deed) -> bool {
    match (one, other) {
        (Deed::Fill(one), Deed::Fill(other)) => *one == *other,
        (Deed::Load(one), Deed::Load(other)) => *one == *other,
        _ => false,
    }
}

/// What a thread does that sees the completion that it found.
pub fn seen_deed(hand: &Hand, peeked: Peeked) -> Deed {
    let token = peeked.token;
    match hand.peeked {
        Some(peeked) if peeked.is_early => Deed::Seen { token },
        _ => Deed::Reap {
            token,
            class: Some(peeked.class),
            is_early: false,
        },
    }
}

/// The places of an event, rising: the other one is that of the peek of a completion that is taken away at once.
pub fn places_of(
    alloc: Global,
    deed: &Deed,
    place: u32,
    other: Option<u32>,
) -> Result<Vec<u32>, AllocError> {
    let mut places = Vec::new(alloc);
    places.push(place)?;
    if let Deed::Seen { token: _ } = deed {
        return Ok(places);
    }
    if let Some(other) = other
        && other != place
    {
        places.push(other)?;
        places.sort()?;
    }
    Ok(places)
}

/// The shape of an event that the log's end cuts off.
pub fn cut_shape(alloc: Global, shapes: &mut Shapes, number: u32) -> Result<u32, AllocError> {
    let requests = Vec::from_slice(alloc, shapes.requests(number))?;
    let Some(shape) = shapes.at(number) else {
        return Ok(number);
    };
    let cut = Shape {
        deed: Deed::Cut { requests },
        place: shape.place,
        places: Vec::from_slice(alloc, &shape.places)?,
        is_unlocked: shape.is_unlocked,
    };
    shapes.number(alloc, cut)
}
