//! Holdings, each once, and how they differ.

ghost use Rattle.std.specs.Prelude.{◌≤◌, length};

use indexmap::IndexSet;
use rc_replay::replayed::{Held, Holding, Part, Sent};
use std::alloc::{AllocError, Global};

/// Holdings and lists of requests, each once and by number.
#[derive(Drop)]
pub struct Tables {
    pub alloc: Global,
    holdings: IndexSet<Vec<Held>>,
    lists: IndexSet<Vec<Sent>>,
    /// What stands for each holding that was replayed.
    replayed: Vec<u32>,
}

/// How much more there is of a part, or less.
#[derive(Clone, Copy)]
pub struct Change {
    pub part: Part,
    pub by: i64,
}

impl Tables {
    /// The holdings that were replayed, under their numbers. Without outs, one stands for each that doesn't say which
    /// requests are out.
    pub fn new(alloc: Global, holdings: &[Holding], has_outs: bool) -> Result<Tables, AllocError> {
        let mut tables = Tables {
            alloc,
            holdings: IndexSet::new(alloc),
            lists: IndexSet::new(alloc),
            replayed: Vec::new(alloc),
        };
        tables.add_all(holdings)?;
        tables.stand_for_all(holdings, has_outs)?;
        Ok(tables)
    }

    /// Adds holdings.
    fn add_all(&mut self, holdings: &[Holding]) -> Result<(), AllocError> {
        for holding in holdings {
            self.add(&holding.parts)?;
        }
        Ok(())
    }

    /// The number of a holding with these parts.
    fn add(&mut self, parts: &[Held]) -> Result<u32, AllocError> {
        self.holding(Vec::from_slice(self.alloc, parts)?)
    }

    /// Notes what stands for each of the holdings that were replayed.
    fn stand_for_all(&mut self, holdings: &[Holding], has_outs: bool) -> Result<(), AllocError> {
        for holding in holdings {
            self.stand_for(&holding.parts, has_outs)?;
        }
        Ok(())
    }

    /// Notes what stands for a holding.
    fn stand_for(&mut self, parts: &[Held], has_outs: bool) -> Result<(), AllocError> {
        let number = if has_outs {
            self.add(parts)?
        } else {
            self.holding(without_outs(self.alloc, parts)?)?
        };
        self.replayed.push(number)?;
        Ok(())
    }

    /// What stands for a holding that was replayed.
    pub fn held(&self, replayed: u32) -> u32 {
        self.replayed.get(replayed as usize).copied().unwrap_or(0)
    }

    /// The number of a holding.
    pub fn holding(&mut self, parts: Vec<Held>) -> Result<u32, AllocError> {
        Ok(number(self.holdings.insert_full(parts)?.0))
    }

    /// The number of a list of requests.
    pub fn list(&mut self, requests: Vec<Sent>) -> Result<u32, AllocError> {
        Ok(number(self.lists.insert_full(requests)?.0))
    }

    /// The parts of a holding.
    pub fn parts(&self, holding: u32) -> &[Held] {
        match self.holdings.get_index(holding as usize) {
            Some(parts) => parts,
            None => &[],
        }
    }

    /// The requests of a list.
    pub fn requests(&self, list: u32) -> &[Sent] {
        match self.lists.get_index(list as usize) {
            Some(requests) => requests,
            None => &[],
        }
    }

    /// Whether there is some of a part.
    pub fn has(&self, holding: u32, part: Part) -> bool {
        count_of(self.parts(holding), part) > 0
    }

    /// Whether a request of the token is out, which the thread alone sends and reaps.
    pub fn is_out(&self, holding: u32, token: u32) -> bool {
        self.has(holding, Part::Out(token))
    }

    /// How many requests are out, which the thread alone sends and reaps.
    pub fn count_out(&self, holding: u32) -> usize {
        let mut count: usize = 0;
        for held in self.parts(holding) {
            if let Part::Out(_) = held.part {
                count = count.saturating_add(1);
            }
        }
        count
    }

    /// What is there in the second holding and not in the first, and the other way round.
    pub fn changes(&self, from: u32, to: u32) -> Result<Vec<Change>, AllocError> {
        let mut changes = Vec::new(self.alloc);
        add_more(&mut changes, self.parts(from), self.parts(to))?;
        add_gone(&mut changes, self.parts(from), self.parts(to))?;
        Ok(changes)
    }

    /// The holding with these changes; none where less than nothing would be left.
    pub fn changed(&mut self, holding: u32, changes: &[Change]) -> Result<Option<u32>, AllocError> {
        let mut parts = Vec::from_slice(self.alloc, self.parts(holding))?;
        for change in changes {
            if !change_one(&mut parts, *change)? {
                return Ok(None);
            }
        }
        Ok(Some(self.holding(parts)?))
    }

    /// All holdings.
    pub fn into_holdings(self) -> Result<Vec<Holding>, AllocError> {
        let mut holdings = Vec::new(self.alloc);
        for parts in self.holdings {
            holdings.push(Holding { parts })?;
        }
        Ok(holdings)
    }
}

/// Parts without the requests that are out.
fn without_outs(alloc: Global, parts: &[Held]) -> Result<Vec<Held>, AllocError> {
    let mut others = Vec::new(alloc);
    for held in parts {
        if !matches!(held.part, Part::Out(_)) {
            others.push(*held)?;
        }
    }
    Ok(others)
}

/// A place in a table as a number.
pub fn number(place: usize) -> u32 {
    u32::try_from(place).unwrap_or(u32::MAX)
}

/// The order of parts: buffers, tokens, requests that are out and completions that aren't seen, each by number.
pub fn order_of(part: Part) -> (u32, u32) {
    match part {
        Part::Buffer(buffer) => (0, buffer),
        Part::Token(token) => (1, token),
        Part::Out(token) => (2, token),
        Part::Got(token) => (3, token),
    }
}

/// The part with an order.
pub fn part_of(rank: u32, number: u32) -> Part {
    match rank {
        0 => Part::Buffer(number),
        1 => Part::Token(number),
        2 => Part::Out(number),
        _ => Part::Got(number),
    }
}

/// How much there is of a part.
fn count_of(parts: &[Held], part: Part) -> u32 {
    match parts.get(place_of(parts, part)) {
        Some(held) if held.part == part => held.count,
        _ => 0,
    }
}

/// Where a part is among others that are in order, or would be.
fn place_of(parts: &[Held], part: Part) -> usize
    ensures { result ≤ length parts.now }
{
    let wanted = order_of(part);
    for (place, held) in parts.iter().enumerate() {
        if order_of(held.part) >= wanted {
            return place;
        }
    }
    parts.len()
}

/// Adds what there is more or less of in the second than in the first.
fn add_more(changes: &mut Vec<Change>, from: &[Held], to: &[Held]) -> Result<(), AllocError> {
    for held in to {
        let by = i64::from(held.count) - i64::from(count_of(from, held.part));
        if by != 0 {
            changes.push(Change {
                part: held.part,
                by,
            })?;
        }
    }
    Ok(())
}

/// Adds what there is in the first and not in the second.
fn add_gone(changes: &mut Vec<Change>, from: &[Held], to: &[Held]) -> Result<(), AllocError> {
    for held in from {
        if count_of(to, held.part) == 0 {
            changes.push(Change {
                part: held.part,
                by: -i64::from(held.count),
            })?;
        }
    }
    Ok(())
}

/// Makes a change. Answers false where less than nothing would be left.
fn change_one(parts: &mut Vec<Held>, change: Change) -> Result<bool, AllocError> {
    let place = place_of(parts, change.part);
    let old = count_of(parts, change.part);
    let Ok(count) = u32::try_from(i64::from(old).saturating_add(change.by)) else {
        return Ok(false);
    };
    if old > 0 {
        set_count(parts, place, count);
    } else if count > 0 {
        let part = change.part;
        parts.insert(place, Held { part, count })?;
    }
    Ok(true)
}

/// Sets how much there is of the part at a place.
fn set_count(parts: &mut Vec<Held>, place: usize, count: u32) {
    if place >= parts.len() {
        return;
    }
    if count == 0 {
        parts.remove(place);
    } else if let Some(held) = parts.get_mut(place) {
        held.count = count;
    }
}
