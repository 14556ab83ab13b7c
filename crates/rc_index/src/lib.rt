//! Masked wrapping counters: the places of the items of a ring, from the front.
//!
//! A ring has a power of two of entries and two unsigned 32-bit counters, head and tail, that run freely and wrap.
//! The place of a counter `c` is `c & (entries - 1)`, and the ring holds `tail - head` items, modulo 2^32 (io_uring(7)).
#![tactic(auto)]

ghost use Rattle.std.specs.Prelude.{◌≡◌, ◌+◌, ◌%◌, ◌<◌, ◌≤◌, ◌↔◌, [], ◌∷◌, ◌++◌, length, drop, slice_get, IsTrue, IsNone, IfSome, OnSome};
ghost use Rattle.std.specs.Int.{IsPowerOfTwo};
ghost use Rattle.rc_index.specs.RingList.{IsRingList, empty_list};

use std::marker::Model;

/// The head and the tail of a ring of `entries` places. Nothing here takes memory.
#[derive(Debug, Drop)]
pub struct Indices {
    entries: u32,
    head: u32,
    tail: u32,
}

// Clauses see the list of the places of the items, and the place after it.
impl Model for Indices {
    ghost use Rattle.rc_index.specs.RingList.{RingList, ring_list};
    ghost use Rattle.rc_index.specs.Counters.{AreCounters};

    ghost Value = { RingList };

    ghost view = { λ a. ring_list a.entries a.head a.tail };

    ghost invariant = { λ a. AreCounters a.entries a.head a.tail };
}

impl Indices {
    /// An empty ring of `entries` places (a power of two, 1 to 2048) whose counters are 0.
    pub fn new(entries: u32) -> Indices
        requires power { IsPowerOfTwo entries }
        requires small { entries ≤ 2048 }
        ensures value { result ≡ empty_list entries 0 }
        ensures law { IsRingList result }
    {
        Indices::opened_at(entries, 0)
    }

    /// An empty ring of `entries` places (a power of two, 1 to 2048) whose counters are both `counter`.
    pub fn opened_at(entries: u32, counter: u32) -> Indices
        requires power { IsPowerOfTwo entries }
        requires small { entries ≤ 2048 }
        ensures value { result ≡ empty_list entries (counter % entries) }
        ensures law { IsRingList result }
    {
        Indices {
            entries,
            head: counter,
            tail: counter,
        }
    }

    /// The number of places.
    pub fn entries(&self) -> u32
        ensures { result ≡ self.now.entries }
    {
        self.entries
    }

    /// The number of items.
    pub fn len(&self) -> u32
        ensures value { result ≡ length self.now.places }
        ensures law { IsRingList self.now }
    {
        self.tail.wrapping_sub(self.head)
    }

    /// How many items can still be added.
    pub fn space(&self) -> u32
        ensures { result + length self.now.places ≡ self.now.entries }
    {
        self.entries - self.len()
    }

    /// Whether there is no item.
    pub fn is_empty(&self) -> bool
        ensures { IsTrue result ↔ (length self.now.places ≡ 0) }
    {
        self.len() == 0
    }

    /// Whether every place has an item.
    pub fn is_full(&self) -> bool
        ensures full { IsTrue result ↔ (length self.now.places ≡ self.now.entries) }
        ensures within { length self.now.places ≤ self.now.entries }
    {
        self.len() == self.entries
    }

    /// The place that the next item gets, or `None` where the ring is full.
    pub fn push_place(&self) -> Option<u32>
        ensures full { IsNone result ↔ (length self.now.places ≡ self.now.entries) }
        ensures room { OnSome result (length self.now.places < self.now.entries) }
        ensures value { IfSome result (λ p. p ≡ self.now.next) }
    {
        if self.is_full() {
            return None;
        }
        Some(self.masked(self.tail))
    }

    /// Adds an item after the others, at the place that `push_place` answers.
    pub fn advance_tail(&mut self)
        requires { length self.old.places < self.old.entries }
        ensures value { self.new ≡ record self.old {
          places = self.old.places ++ self.old.next ∷ [];
          next = (self.old.next + 1) % self.old.entries;
        } }
        ensures law { IsRingList self.new }
    {
        self.tail = self.tail.wrapping_add(1);
    }

    /// The place of the first item, or `None` where the ring is empty.
    pub fn front_place(&self) -> Option<u32>
        ensures { result ≡ slice_get self.now.places 0 }
    {
        self.place(0)
    }

    /// Takes the first item away.
    pub fn advance_head(&mut self)
        requires { 0 < length self.old.places }
        ensures value { self.new ≡ record self.old { places = drop 1 self.old.places } }
        ensures law { IsRingList self.new }
    {
        self.head = self.head.wrapping_add(1);
    }

    /// The place of the `i`-th item, counted from 0 at the front, or `None` where there are no more than `i` items.
    pub fn place(&self, i: u32) -> Option<u32>
        ensures { result ≡ slice_get self.now.places i }
    {
        if i >= self.len() {
            return None;
        }
        Some(self.masked(self.head.wrapping_add(i)))
    }

    // The place of a counter.
    fn masked(&self, counter: u32) -> u32
        ensures { result ≡ counter % self.now.entries }
    {
        counter & (self.entries - 1)
    }
}
