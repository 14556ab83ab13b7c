//! Two like things, exchanged.

use crate::holdings::{Tables, order_of, part_of};
use crate::key::{Deed, Key, Spot};
use crate::like::ordered_parts;
use rc_replay::replayed::{Held, Part, Replayed, Sent};
use std::alloc::{AllocError, Global};

/// Two things, and which of their parts stand for each other.
#[derive(Drop)]
pub struct Exchange {
    one: u32,
    other: u32,
    parts: Vec<(Part, Part)>,
}

impl Exchange {
    /// Two like things.
    pub fn new(
        alloc: Global,
        replayed: &Replayed,
        one: u32,
        other: u32,
    ) -> Result<Exchange, AllocError> {
        let mut parts = Vec::new(alloc);
        let ones = ordered_parts(alloc, replayed, one)?;
        let others = ordered_parts(alloc, replayed, other)?;
        for (part, like) in ones.iter().zip(others.iter()) {
            parts.push((*part, *like))?;
        }
        Ok(Exchange { one, other, parts })
    }

    /// What a thing is exchanged for.
    pub fn thing(&self, thing: u32) -> u32 {
        if thing == self.one {
            self.other
        } else if thing == self.other {
            self.one
        } else {
            thing
        }
    }

    /// What a token is exchanged for.
    pub fn token(&self, token: u32) -> u32 {
        match self.held_part(Part::Token(token)) {
            Part::Token(like) => like,
            _ => token,
        }
    }

    /// What a buffer is exchanged for.
    fn buffer(&self, buffer: u32) -> u32 {
        match self.held_part(Part::Buffer(buffer)) {
            Part::Buffer(like) => like,
            _ => buffer,
        }
    }

    /// What a part of a thing is exchanged for.
    fn held_part(&self, part: Part) -> Part {
        for (one, other) in &self.parts {
            if *one == part {
                return *other;
            }
            if *other == part {
                return *one;
            }
        }
        part
    }

    /// What a part is exchanged for.
    fn part(&self, part: Part) -> Part {
        match part {
            Part::Out(token) => Part::Out(self.token(token)),
            Part::Got(token) => Part::Got(self.token(token)),
            _ => self.held_part(part),
        }
    }

    /// A holding with the parts exchanged.
    pub fn holding(&self, tables: &mut Tables, holding: u32) -> Result<u32, AllocError> {
        let mut rows = Vec::new(tables.alloc);
        for held in tables.parts(holding) {
            let (rank, number) = order_of(self.part(held.part));
            rows.push((rank, number, held.count))?;
        }
        rows.sort_unstable();
        let mut parts = Vec::new(tables.alloc);
        for (rank, number, count) in rows {
            let part = part_of(rank, number);
            parts.push(Held { part, count })?;
        }
        tables.holding(parts)
    }

    /// A list of requests with the tokens exchanged.
    fn list(&self, tables: &mut Tables, list: u32) -> Result<u32, AllocError> {
        let mut requests = Vec::new(tables.alloc);
        for request in tables.requests(list) {
            requests.push(Sent {
                token: self.token(request.token),
                ..*request
            })?;
        }
        tables.list(requests)
    }

    /// The label of an arm of a node, exchanged.
    pub fn label(&self, key: Key, label: u32) -> u32 {
        match key.spot {
            Spot::Take { .. } => self.thing(label),
            _ => self.token(label),
        }
    }

    /// The key of a node with the parts exchanged.
    pub fn key(&self, tables: &mut Tables, key: Key) -> Result<Key, AllocError> {
        Ok(Key {
            held: self.holding(tables, key.held)?,
            spot: self.spot(tables, key.spot)?,
        })
    }

    /// What is done at a node, with the parts exchanged.
    fn spot(&self, tables: &mut Tables, spot: Spot) -> Result<Spot, AllocError> {
        Ok(match spot {
            Spot::After { deed, place } => Spot::After {
                deed: self.deed(deed),
                place,
            },
            Spot::Send { list, submit } => Spot::Send {
                list: self.list(tables, list)?,
                submit,
            },
            Spot::Put {
                pool,
                thing,
                place,
                step,
            } => Spot::Put {
                pool,
                thing: self.thing(thing),
                place,
                step,
            },
            Spot::Fill { buffer, place } => Spot::Fill {
                buffer: self.buffer(buffer),
                place,
            },
            Spot::Load { buffer, place } => Spot::Load {
                buffer: self.buffer(buffer),
                place,
            },
            Spot::Seen { token, place } => Spot::Seen {
                token: self.token(token),
                place,
            },
            same => same,
        })
    }

    /// What was done, with the parts exchanged.
    fn deed(&self, deed: Deed) -> Deed {
        match deed {
            Deed::Reaped(token) => Deed::Reaped(self.token(token)),
            Deed::Saw(token) => Deed::Saw(self.token(token)),
            Deed::Took(thing) => Deed::Took(self.thing(thing)),
            same => same,
        }
    }
}
