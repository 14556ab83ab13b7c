//! The bytes of a buffer, which take no memory while all are the same.

ghost use Rattle.std.specs.Prelude.{◌≡◌, ◌<◌, ◌≤◌, length, replicate, slice_get, slice_set, IfOk};
ghost use Rattle.rc_world.specs.Parts.{bytes_in, refilled};
ghost use Rattle.rc_world.specs.WorldParts.{Becomes};

use std::alloc::{AllocError, Global};
use std::marker::Model;

// The bytes of a buffer.
#[derive(Drop)]
pub(super) struct Bytes {
    len: usize,
    // The first of them.
    first: Vec<u8>,
    // Each byte after these.
    rest: u8,
}

impl Model for Bytes {
    ghost use Rattle.std.specs.Prelude.{ℕ, List, ◌≤◌, length};
    ghost use Rattle.rc_world.specs.Parts.{bytes_in};

    ghost Value = { List ℕ };

    ghost view = { λ b. bytes_in b.len b.rest b.first.items };

    ghost invariant = { λ b. length b.first.items ≤ b.len };
}

impl Bytes {
    // So many bytes, each of them 0.
    pub(super) fn zeroed(alloc: Global, len: usize) -> Bytes
        ensures { result ≡ replicate len 0 }
    {
        Bytes {
            len,
            first: Vec::new(alloc),
            rest: 0,
        }
    }

    // The same bytes again.
    pub(super) fn copy(&self, alloc: Global) -> Result<Bytes, AllocError>
        ensures { IfOk result (λ b. b ≡ self.now) }
    {
        Ok(Bytes {
            len: self.len,
            first: Vec::from_slice(alloc, &self.first)?,
            rest: self.rest,
        })
    }

    // The byte at a place.
    pub(super) fn get(&self, i: usize) -> Option<u8>
        ensures { result ≡ slice_get self.now i }
    {
        match self.first.get(i) {
            Some(byte) => Some(*byte),
            None if i < self.len => Some(self.rest),
            None => None,
        }
    }

    // A byte is written at a place.
    pub(super) fn store(&mut self, i: usize, byte: u8) -> Result<(), AllocError>
        requires { i < length self.old }
        ensures { Becomes result self.old self.new (λ bytes. slice_set bytes i byte) }
    {
        grow(&mut self.first, i + 1, self.rest)?;
        self.first[i] = byte;
        Ok(())
    }

    // A byte is written at every place.
    pub(super) fn fill(&mut self, byte: u8)
        ensures { self.new ≡ replicate (length self.old) byte }
    {
        self.first.clear();
        self.rest = byte;
    }

    // A byte is written at the first places, so many of them. Where each byte is that one, nothing changes.
    pub(super) fn refill(&mut self, count: usize, fill: u8) -> Result<(), AllocError>
        requires { count ≤ length self.old }
        ensures { Becomes result self.old self.new (refilled count fill) }
    {
        if count == self.len {
            self.fill(fill);
            return Ok(());
        }
        if self.first.is_empty() && self.rest == fill {
            return Ok(());
        }
        grow(&mut self.first, count, self.rest)?;
        fill_first(&mut self.first, count, fill);
        Ok(())
    }
}

// The first bytes are so many, or more: those that are added are the rest's.
fn grow(first: &mut Vec<u8>, count: usize, rest: u8) -> Result<(), AllocError>
    ensures { Becomes result first.old.items first.new.items (bytes_in count rest) }
{
    if first.len() < count {
        first.resize(count, rest)?;
    }
    Ok(())
}

// The first bytes, so many of them, become the fill byte.
fn fill_first(bytes: &mut Vec<u8>, count: usize, fill: u8)
    requires { count ≤ length bytes.old.items }
    ensures { bytes.new.items ≡ refilled count fill bytes.old.items }
{
    for i in 0..count {
        bytes[i] = fill;
    }
}
