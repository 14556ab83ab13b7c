//! Like things: with the same parts, which are sent from the same places.

use crate::graph::by_node;
use crate::holdings::number;
use indexmap::IndexMap;
use rc_replay::replayed::{Act, Kind, Part, Replayed, Request, Token};
use std::alloc::{AllocError, Global};

/// The things that are like others, in lists.
pub fn like_things(alloc: Global, replayed: &Replayed) -> Result<Vec<Vec<u32>>, AllocError> {
    let mut lists: IndexMap<Vec<u32>, Vec<u32>> = IndexMap::new(alloc);
    let places = places_of(alloc, replayed)?;
    for (thing, places) in (0u32..).zip(places.iter()) {
        if let Some(look) = look_of(alloc, replayed, thing, places)? {
            add_like(alloc, &mut lists, look, thing)?;
        }
    }
    let mut like = Vec::new(alloc);
    for (_, things) in lists {
        like.push(things)?;
    }
    Ok(like)
}

/// Adds a thing to those that look like it.
fn add_like(
    alloc: Global,
    lists: &mut IndexMap<Vec<u32>, Vec<u32>>,
    look: Vec<u32>,
    thing: u32,
) -> Result<(), AllocError> {
    lists.entry(look)?.or_insert(Vec::new(alloc)).push(thing)?;
    Ok(())
}

/// The places in C from which each thing is sent, in order.
fn places_of(alloc: Global, replayed: &Replayed) -> Result<Vec<Vec<u32>>, AllocError> {
    let mut rows = Vec::new(alloc);
    for event in &replayed.events {
        if let Act::Send { requests, .. } = &event.act {
            for request in requests {
                if let Some(token) = replayed.tokens.get(request.token as usize) {
                    rows.push((token.thing, request.named))?;
                }
            }
        }
    }
    let mut places = by_node(alloc, replayed.things.len(), rows)?;
    for list in places.iter_mut() {
        list.dedup();
    }
    Ok(places)
}

/// What a thing looks like: its buffer, its tokens and the places from which it is sent. One without a buffer, or that
/// isn't sent, is like no other.
fn look_of(
    alloc: Global,
    replayed: &Replayed,
    thing: u32,
    places: &[u32],
) -> Result<Option<Vec<u32>>, AllocError> {
    let parts = ordered_parts(alloc, replayed, thing)?;
    if places.is_empty() || !matches!(parts.first(), Some(Part::Buffer(_))) {
        return Ok(None);
    }
    let mut look = Vec::new(alloc);
    for part in &parts {
        add_look(&mut look, replayed, &parts, *part)?;
    }
    look.extend_from_slice(places)?;
    Ok(Some(look))
}

/// Adds what a part looks like.
fn add_look(
    look: &mut Vec<u32>,
    replayed: &Replayed,
    parts: &[Part],
    part: Part,
) -> Result<(), AllocError> {
    match part {
        Part::Buffer(buffer) => {
            look.push(shares_of(replayed, buffer))?;
            Ok(())
        }
        Part::Token(token) | Part::Out(token) | Part::Got(token) => match replayed
            .tokens
            .get(token as usize)
        {
            Some(token) => add_token(look, parts, *token),
            None => Ok(()),
        },
    }
}

/// How many shares a buffer has.
fn shares_of(replayed: &Replayed, buffer: u32) -> u32 {
    match replayed.buffers.get(buffer as usize) {
        Some(buffer) => buffer.shares,
        None => 0,
    }
}

/// Adds what a token looks like: its requests.
fn add_token(look: &mut Vec<u32>, parts: &[Part], token: Token) -> Result<(), AllocError> {
    let first = Request {
        kind: token.kind,
        buffer: token.buffer,
        file: token.file,
        len: token.len,
    };
    add_request(look, parts, first)?;
    for other in token.others {
        if let Some(other) = other {
            add_request(look, parts, other)?;
        }
    }
    look.push(u32::MAX)?;
    Ok(())
}

/// Adds what a request looks like: its kind, its file, and which of the buffers it names.
fn add_request(look: &mut Vec<u32>, parts: &[Part], request: Request) -> Result<(), AllocError> {
    let place = place_of(parts, request.buffer);
    look.extend_from_slice(&[rank_of(request.kind), file_of(request.file), place])
}

/// The place of a buffer among parts; their number where it isn't there.
fn place_of(parts: &[Part], buffer: Option<u32>) -> u32 {
    if let Some(buffer) = buffer {
        for (place, part) in (0u32..).zip(parts.iter()) {
            if *part == Part::Buffer(buffer) {
                return place;
            }
        }
    }
    number(parts.len())
}

/// The parts of a thing: its buffers, and then its tokens by what they look like.
pub fn ordered_parts(
    alloc: Global,
    replayed: &Replayed,
    thing: u32,
) -> Result<Vec<Part>, AllocError> {
    let mut rows = Vec::new(alloc);
    if let Some(thing) = replayed.things.get(thing as usize) {
        for part in &thing.parts {
            rows.push(row_of(replayed, *part))?;
        }
    }
    rows.sort_unstable();
    let mut parts = Vec::new(alloc);
    for (rank, _, number) in rows {
        parts.push(if rank == 0 {
            Part::Buffer(number)
        } else {
            Part::Token(number)
        })?;
    }
    Ok(parts)
}

/// What a part is ordered by. A buffer has the rank 0.
fn row_of(replayed: &Replayed, part: Part) -> (u32, u32, u32) {
    match part {
        Part::Buffer(buffer) => (0, 0, buffer),
        Part::Token(number) | Part::Out(number) | Part::Got(number) => match replayed
            .tokens
            .get(number as usize)
        {
            Some(token) => (rank_of(token.kind), file_of(token.file), number),
            None => (u32::MAX, 0, number),
        },
    }
}

/// The rank of a kind, from 1 on.
fn rank_of(kind: Kind) -> u32 {
    match kind {
        Kind::Read => 1,
        Kind::Write => 2,
        Kind::Fsync { is_datasync: false } => 3,
        Kind::Fsync { is_datasync: true } => 4,
        Kind::Nop => 5,
        Kind::Other => 6,
    }
}

/// A file's number, from 1 on; 0 where there is none.
fn file_of(file: Option<u32>) -> u32 {
    match file {
        Some(file) => file.saturating_add(1),
        None => 0,
    }
}
