//! Slots of the submission ring, with their stage in their type.

ghost use Rattle.std.specs.Prelude.{◌≡◌, Bool, true, false, Some};
ghost use Rattle.rc_ring.specs.Rings.{Prepares, SetData64Call, AbandonCall, ParkCall, after_call, open_place, is_prepared_slot, slot_bytes};
ghost use Rattle.rc_entry.specs.declared.Entry.TheVariants.{Nop, Fsync, Read, Write};
ghost use Rattle.rc_ring.specs.Spelled.{SpellsWithData};

use crate::rings::Ring;
use rc_entry::Entry;
use std::marker::Model;

/// The stage of a slot without an entry.
#[derive(Debug, Drop)]
pub struct Vacant;

/// The stage of a slot with an entry.
#[derive(Debug, Drop)]
pub struct Prepared;

/// A stage that a slot can be at.
pub trait SlotStage {
    /// Whether a slot at this stage has an entry.
    ghost has_entry: { Bool };
}

impl SlotStage for Vacant {
    ghost has_entry = { false };
}

impl SlotStage for Prepared {
    ghost has_entry = { true };
}

/// The open place of a [`Ring`]. It has to be spent: a slot that is let go doesn't compile.
#[derive(Debug)]
pub struct Slot<S> {
    place: u32,
    stage: S,
}

// Clauses see the place.
impl<S> Model for Slot<S> {
    ghost use Rattle.std.specs.Prelude.{ℕ};

    ghost Value = { ℕ };

    ghost view = { λ s. s.place };
}

impl<S: SlotStage + Drop> Slot<S> {
    /// Closes the slot and queues nothing.
    pub fn abandon(self, ring: &mut Ring)
        requires place { open_place ring.old ≡ Some self }
        requires stage { is_prepared_slot ring.old.slot ≡ S.has_entry }
        requires out { ring.old.parked ≡ false }
        ensures { ring.new ≡ after_call AbandonCall ring.old }
    {
        let Slot { place: _, stage: _ } = self;
        ring.close();
    }

    /// Leaves the slot open, with what was prepared in it, in the ring alone.
    pub fn park(self, ring: &mut Ring)
        requires place { open_place ring.old ≡ Some self }
        requires stage { is_prepared_slot ring.old.slot ≡ S.has_entry }
        requires out { ring.old.parked ≡ false }
        ensures { ring.new ≡ after_call ParkCall ring.old }
    {
        let Slot { place: _, stage: _ } = self;
        ring.keep();
    }
}

impl Slot<Vacant> {
    // A slot at the place.
    pub(crate) fn opened(place: u32) -> Slot<Vacant>
        ensures { result ≡ place }
    {
        Slot {
            place,
            stage: Vacant,
        }
    }

    /// Prepares a read of `len` bytes from the place `off` of a file into the memory at `addr`
    /// (io_uring_prep_read(3)).
    pub fn prep_read(
        self,
        ring: &mut Ring,
        fd: i32,
        addr: u64,
        len: u32,
        off: u64,
    ) -> Slot<Prepared>
        requires place { open_place ring.old ≡ Some self }
        requires stage { is_prepared_slot ring.old.slot ≡ false }
        requires out { ring.old.parked ≡ false }
        ensures entry { Prepares ring.old ring.new (Read fd addr len off 0) }
        ensures slot { result ≡ self }
    {
        self.filled(
            ring,
            &Entry::Read {
                fd,
                addr,
                len,
                off,
                user_data: 0,
            },
        )
    }

    /// Prepares a write of `len` bytes from the memory at `addr` to the place `off` of a file
    /// (io_uring_prep_write(3)).
    pub fn prep_write(
        self,
        ring: &mut Ring,
        fd: i32,
        addr: u64,
        len: u32,
        off: u64,
    ) -> Slot<Prepared>
        requires place { open_place ring.old ≡ Some self }
        requires stage { is_prepared_slot ring.old.slot ≡ false }
        requires out { ring.old.parked ≡ false }
        ensures entry { Prepares ring.old ring.new (Write fd addr len off 0) }
        ensures slot { result ≡ self }
    {
        self.filled(
            ring,
            &Entry::Write {
                fd,
                addr,
                len,
                off,
                user_data: 0,
            },
        )
    }

    /// Prepares an fsync of a file, or with `datasync` an fdatasync (io_uring_prep_fsync(3)).
    pub fn prep_fsync(self, ring: &mut Ring, fd: i32, datasync: bool) -> Slot<Prepared>
        requires place { open_place ring.old ≡ Some self }
        requires stage { is_prepared_slot ring.old.slot ≡ false }
        requires out { ring.old.parked ≡ false }
        ensures entry { Prepares ring.old ring.new (Fsync fd datasync 0) }
        ensures slot { result ≡ self }
    {
        self.filled(
            ring,
            &Entry::Fsync {
                fd,
                datasync,
                user_data: 0,
            },
        )
    }

    /// Prepares a request that does nothing (io_uring_prep_nop(3)).
    pub fn prep_nop(self, ring: &mut Ring) -> Slot<Prepared>
        requires place { open_place ring.old ≡ Some self }
        requires stage { is_prepared_slot ring.old.slot ≡ false }
        requires out { ring.old.parked ≡ false }
        ensures entry { Prepares ring.old ring.new (Nop 0) }
        ensures slot { result ≡ self }
    {
        self.filled(ring, &Entry::Nop { user_data: 0 })
    }

    // Writes the entry into the slot's place.
    fn filled(self, ring: &mut Ring, entry: &Entry) -> Slot<Prepared>
        requires place { open_place ring.old ≡ Some self }
        requires stage { is_prepared_slot ring.old.slot ≡ false }
        ensures entry { Prepares ring.old ring.new entry.now }
        ensures slot { result ≡ self }
    {
        let Slot {
            place,
            stage: Vacant,
        } = self;
        ring.prepare(place, entry);
        Slot::prepared(place)
    }
}

impl Slot<Prepared> {
    // A slot at the place.
    pub(crate) fn prepared(place: u32) -> Slot<Prepared>
        ensures { result ≡ place }
    {
        Slot {
            place,
            stage: Prepared,
        }
    }

    /// Gives the entry its `user_data` (io_uring_sqe_set_data64(3)) and queues it.
    pub fn set_data64(self, ring: &mut Ring, user_data: u64)
        requires place { open_place ring.old ≡ Some self }
        requires stage { is_prepared_slot ring.old.slot ≡ true }
        requires out { ring.old.parked ≡ false }
        ensures after { ring.new ≡ after_call (SetData64Call user_data) ring.old }
        ensures spells { SpellsWithData user_data (slot_bytes ring.old.slot) }
    {
        let Slot {
            place,
            stage: Prepared,
        } = self;
        ring.queue(place, user_data);
    }
}
