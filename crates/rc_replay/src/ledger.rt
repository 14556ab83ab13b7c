//! Who has how much of each part: threads and pools, and nobody yet.

ghost use Rattle.std.specs.Prelude.{◌≤◌, length};

use crate::names::{at, set};
use std::alloc::{AllocError, Global};

/// So many of a part, by its number.
#[derive(Clone, Copy)]
pub struct Share {
    pub part: u32,
    pub count: u32,
}

/// Who has how much of each part. An owner is a thread or a pool, by number.
#[derive(Drop)]
pub struct Ledger {
    /// What each owner has, in the order of the parts.
    held: Vec<Vec<Share>>,
    /// Who has some of each part.
    owners: Vec<Vec<u32>>,
    /// How many of each part nobody has had yet.
    pub unborn: Vec<u32>,
    /// Of each owner a number that is given to what it has, until that changes.
    pub numbers: Vec<Option<u32>>,
}

/// The first place of shares, in the order of the parts, whose part isn't below this one.
fn place_of(shares: &[Share], part: u32) -> usize
    ensures { result ≤ length shares.now }
{
    let (mut low, mut high) = (0, shares.len());
    for _ in 0..64 {
        if low >= high {
            break;
        }
        let middle = low + (high - low) / 2;
        match shares.get(middle) {
            Some(share) if share.part < part => low = middle.saturating_add(1),
            _ => high = middle,
        }
    }
    low.min(shares.len())
}

/// How many of a part these are.
pub fn count_in(shares: &[Share], part: u32) -> u32 {
    match shares.get(place_of(shares, part)) {
        Some(share) if share.part == part => share.count,
        _ => 0,
    }
}

/// Sets how many of a part these are.
pub fn set_in(shares: &mut Vec<Share>, part: u32, count: u32) -> Result<(), AllocError> {
    let place = place_of(shares, part);
    if let Some(share) = shares.get_mut(place)
        && share.part == part
    {
        share.count = count;
        if count == 0 {
            let _ = shares.remove(place);
        }
        return Ok(());
    }
    if count > 0 {
        shares.insert(place, Share { part, count })?;
    }
    Ok(())
}

/// An owner is among those of a part, or isn't any more.
fn list(owners: &mut Vec<u32>, owner: u32, has_some: bool) -> Result<(), AllocError> {
    for place in 0..owners.len() {
        if owners.get(place).copied() == Some(owner) {
            if !has_some {
                let _ = owners.swap_remove(place);
            }
            return Ok(());
        }
    }
    if has_some {
        owners.push(owner)?;
    }
    Ok(())
}

impl Ledger {
    /// Nobody has had anything: so many owners, and the parts of which there are so many each.
    pub fn new(alloc: Global, owners: usize, totals: &[u32]) -> Result<Ledger, AllocError> {
        let mut ledger = Ledger {
            held: Vec::new(alloc),
            owners: Vec::new(alloc),
            unborn: Vec::from_slice(alloc, totals)?,
            numbers: vec![in alloc; None; owners]?,
        };
        for _ in 0..owners {
            ledger.held.push(Vec::new(alloc))?;
        }
        for _ in 0..totals.len() {
            ledger.owners.push(Vec::new(alloc))?;
        }
        Ok(ledger)
    }

    /// What an owner has.
    pub fn held(&self, owner: u32) -> &[Share] {
        match self.held.get(owner as usize) {
            Some(shares) => shares,
            None => &[],
        }
    }

    /// How many of a part an owner has.
    pub fn count(&self, owner: u32, part: u32) -> u32 {
        count_in(self.held(owner), part)
    }

    /// Another owner than this one that has some of a part.
    pub fn other_owner(&self, part: u32, owner: u32) -> Option<u32> {
        for other in self.owners.get(part as usize)? {
            if *other != owner {
                return Some(*other);
            }
        }
        None
    }

    /// Sets how many of a part an owner has.
    fn put(&mut self, owner: u32, part: u32, count: u32) -> Result<(), AllocError> {
        set(&mut self.numbers, owner, None);
        if let Some(shares) = self.held.get_mut(owner as usize) {
            set_in(shares, part, count)?;
        }
        match self.owners.get_mut(part as usize) {
            Some(owners) => list(owners, owner, count > 0),
            None => Ok(()),
        }
    }

    /// Gives so many of a part to an owner.
    pub fn give(&mut self, owner: u32, part: u32, count: u32) -> Result<(), AllocError> {
        let count = self.count(owner, part).saturating_add(count);
        self.put(owner, part, count)
    }

    /// Takes at most so many of a part from an owner. Answers how many.
    pub fn take(&mut self, owner: u32, part: u32, most: u32) -> Result<u32, AllocError> {
        let count = self.count(owner, part);
        let taken = count.min(most);
        self.put(owner, part, count.saturating_sub(taken))?;
        Ok(taken)
    }

    /// At most so many of a part are had from here on. Answers how many.
    pub fn bear(&mut self, part: u32, most: u32) -> u32 {
        let born = at(&self.unborn, part, 0).min(most);
        let left = at(&self.unborn, part, 0).saturating_sub(born);
        set(&mut self.unborn, part, left);
        born
    }
}
