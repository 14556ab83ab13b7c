//! Both rings of an io_uring.

ghost use Rattle.std.specs.Prelude.{◌≡◌, ◌+◌, ◌*◌, ◌%◌, ◌<◌, ◌≤◌, ◌↔◌, true, false, [], length, slice_get, IsNone, IfSome, Some, OnSome, IfNone, IsErr, IfOk, OnOk, OnErr};
ghost use Rattle.std.specs.Int.{IsPowerOfTwo};
ghost use Rattle.std.specs.Option.{option_copied};
ghost use Rattle.rc_index.specs.RingList.{IsRingList};
ghost use Rattle.rc_ring.specs.Rings.{NoSlot, empty_rings, slot_count, used, is_prepared_slot, slot_bytes, open_place, Prepares, GetSqeCall, SetData64Call, AbandonCall, ParkCall, ResumeCall, SubmitCall, PostCall, CqeSeenCall, after_call};
ghost use Rattle.rc_ring.specs.Spelled.{HoldEntries, SpellsWithData};

use crate::slots::{Prepared, Slot, Vacant};
use rc_entry::{Cqe, Entry, decode_cqe, encode_cqe, encode_sqe};
use rc_index::Indices;
use std::alloc::{AllocError, Global};
use std::marker::Model;

/// The completion ring is full.
#[derive(Clone, Copy, PartialEq, Eq, Debug)]
pub struct Overflow;

// What the place after the queued entries is used for.
#[derive(Clone, Copy, PartialEq, Eq, Debug)]
enum Stage {
    Closed,
    Vacant,
    Prepared,
}

/// The submission ring and the completion ring (io_uring_setup(2)), and at most one open slot.
///
/// Only what makes a ring takes memory.
#[derive(Debug, Drop)]
pub struct Ring {
    submissions: Indices,
    completions: Indices,
    sqes: Vec<[u8; 64]>,
    cqes: Vec<[u8; 16]>,
    stage: Stage,
    parked: bool,
}

// Clauses see the open slot, the list of the queued entries and that of the completions.
impl Model for Ring {
    ghost use Rattle.rc_ring.specs.Rings.{Rings};

    ghost Value = { Rings };

    ghost use Rattle.rc_ring.specs.Places.{rings_of, IsWellFormed};

    ghost view = { λ a. rings_of a.submissions a.completions a.sqes.items a.cqes.items
        a.parked a.stage };

    ghost invariant = { λ a. IsWellFormed a.submissions a.completions a.sqes.items a.cqes.items
        a.parked a.stage };
}

impl Ring {
    /// Empty rings whose counters are 0: `entries` (a power of two, 1 to 1024) places for submissions and twice as
    /// many for completions (io_uring_setup(2)).
    ///
    /// # Errors
    ///
    /// [`AllocError`] where the memory for the entries was refused.
    pub fn new(alloc: Global, entries: u32) -> Result<Ring, AllocError>
        requires power { IsPowerOfTwo entries }
        requires small { entries ≤ 1024 }
        ensures { IfOk result (λ ring. ring ≡ empty_rings entries (2 * entries) 0 0) }
    {
        Ring::with_cq(alloc, entries, 2 * entries)
    }

    /// Empty rings whose counters are 0: `entries` (a power of two, 1 to 1024) places for submissions and `cq` (a
    /// power of two, `entries` to 2048) for completions (`IORING_SETUP_CQSIZE` of io_uring_setup(2)).
    ///
    /// # Errors
    ///
    /// [`AllocError`] where the memory for the entries was refused.
    pub fn with_cq(alloc: Global, entries: u32, cq: u32) -> Result<Ring, AllocError>
        requires power { IsPowerOfTwo entries }
        requires small { entries ≤ 1024 }
        requires cq_power { IsPowerOfTwo cq }
        requires cq_least { entries ≤ cq }
        requires cq_small { cq ≤ 2048 }
        ensures { IfOk result (λ ring. ring ≡ empty_rings entries cq 0 0) }
    {
        Ring::over(alloc, Indices::new(entries), Indices::new(cq))
    }

    /// Empty rings of `entries` (a power of two, 1 to 1024) and twice as many places, whose counters are `sq` and
    /// `cq`.
    ///
    /// # Errors
    ///
    /// [`AllocError`] where the memory for the entries was refused.
    pub fn opened_at(alloc: Global, entries: u32, sq: u32, cq: u32) -> Result<Ring, AllocError>
        requires power { IsPowerOfTwo entries }
        requires small { entries ≤ 1024 }
        ensures { IfOk result (λ ring. ring
            ≡ empty_rings entries (2 * entries) (sq % entries) (cq % (2 * entries))) }
    {
        let submissions = Indices::opened_at(entries, sq);
        let completions = Indices::opened_at(2 * entries, cq);
        Ring::over(alloc, submissions, completions)
    }

    // Rings over these empty counters.
    fn over(alloc: Global, sq: Indices, cq: Indices) -> Result<Ring, AllocError>
        requires sq_law { IsRingList sq }
        requires sq_empty { sq.places ≡ [] }
        requires cq_law { IsRingList cq }
        requires cq_empty { cq.places ≡ [] }
        ensures { IfOk result (λ ring. ring ≡ empty_rings sq.entries cq.entries sq.next cq.next) }
    {
        let sqes = vec![in alloc; [0; 64]; sq.entries() as usize]?;
        let cqes = vec![in alloc; [0; 16]; cq.entries() as usize]?;
        Ok(Ring {
            submissions: sq,
            completions: cq,
            sqes,
            cqes,
            stage: Stage::Closed,
            parked: false,
        })
    }

    /// Opens the next slot of the submission ring (io_uring_get_sqe(3)), or `None` where the ring is full.
    pub fn get_sqe(&mut self) -> Option<Slot<Vacant>>
        requires { self.old.slot ≡ NoSlot }
        ensures full { IsNone result ↔ (used self.old ≡ self.old.entries) }
        ensures place { IfSome result (λ slot. slot ≡ self.old.place) }
        ensures some { OnSome result (self.new ≡ after_call GetSqeCall self.old) }
        ensures out { OnSome result (self.new.parked ≡ false) }
        ensures none { IfNone result (self.new ≡ self.old) }
    {
        match self.submissions.push_place() {
            None => None,
            Some(place) => {
                self.stage = Stage::Vacant;
                Some(Slot::opened(place))
            }
        }
    }

    /// The place of the open slot.
    pub fn open_place(&self) -> Option<u32>
        ensures { result ≡ open_place self.now }
    {
        match self.stage {
            Stage::Closed => None,
            Stage::Vacant | Stage::Prepared => self.submissions.push_place(),
        }
    }

    /// Whether a slot is open that has an entry.
    pub fn open_prepared(&self) -> bool
        ensures { result ≡ is_prepared_slot self.now.slot }
    {
        self.stage == Stage::Prepared
    }

    /// Whether the open slot is in the ring alone.
    pub fn parked(&self) -> bool
        ensures value { result ≡ self.now.parked }
        ensures open { result ≡ true → slot_count self.now.slot ≡ 1 }
    {
        self.parked
    }

    /// Hands out the parked slot, which has no entry.
    pub fn resume_vacant(&mut self) -> Slot<Vacant>
        requires parked { self.old.parked ≡ true }
        requires stage { is_prepared_slot self.old.slot ≡ false }
        ensures place { open_place self.old ≡ Some result }
        ensures after { self.new ≡ after_call ResumeCall self.old }
    {
        Slot::opened(self.resumed())
    }

    /// Hands out the parked slot with its entry.
    pub fn resume_prepared(&mut self) -> Slot<Prepared>
        requires parked { self.old.parked ≡ true }
        requires stage { is_prepared_slot self.old.slot ≡ true }
        ensures place { open_place self.old ≡ Some result }
        ensures after { self.new ≡ after_call ResumeCall self.old }
    {
        Slot::prepared(self.resumed())
    }

    /// The bytes of the `i`-th queued entry, counted from 0 at the front, or `None` where there are no more than `i`.
    pub fn queued_sqe(&self, i: u32) -> Option<&[u8; 64]>
        ensures value { option_copied result ≡ slice_get self.now.queued i }
        ensures law { HoldEntries self.now }
    {
        match self.submissions.place(i) {
            None => None,
            Some(place) => Some(&self.sqes[place as usize]),
        }
    }

    /// Takes the first `take` entries off the queue and answers how many are left (io_uring_submit(3), where the
    /// kernel took `take`).
    pub fn submit(&mut self, take: u32) -> u32
        requires closed { self.old.slot ≡ NoSlot }
        requires queued { take ≤ length self.old.queued }
        ensures left { result ≡ length self.new.queued }
        ensures after { self.new ≡ after_call (SubmitCall take) self.old }
    {
        for _ in 0..take {
            self.take_first();
        }
        self.submissions.len()
    }

    // Takes the first entry off the queue.
    fn take_first(&mut self)
        requires { 0 < length self.old.queued }
        ensures { self.new ≡ after_call (SubmitCall 1) self.old }
    {
        self.submissions.advance_head();
    }

    /// Adds a completion after the others.
    ///
    /// # Errors
    ///
    /// [`Overflow`] where the completion ring is full, and nothing changes.
    pub fn post(&mut self, cqe: Cqe) -> Result<(), Overflow>
        ensures full { IsErr result ↔ (length self.old.completions ≡ self.old.completion_entries) }
        ensures ok { OnOk result (self.new ≡ after_call (PostCall cqe) self.old) }
        ensures err { OnErr result (self.new ≡ self.old) }
    {
        match self.completions.push_place() {
            None => Err(Overflow),
            Some(place) => {
                self.cqes[place as usize] = encode_cqe(&cqe);
                self.completions.advance_tail();
                Ok(())
            }
        }
    }

    /// The first completion (io_uring_peek_cqe(3)), or `None` where there is no completion.
    pub fn peek_cqe(&self) -> Option<Cqe>
        ensures { result ≡ slice_get self.now.completions 0 }
    {
        match self.completions.front_place() {
            None => None,
            Some(place) => decode_cqe(&self.cqes[place as usize]).ok(),
        }
    }

    /// Takes the first completion away (io_uring_cqe_seen(3)).
    pub fn cqe_seen(&mut self)
        requires { 0 < length self.old.completions }
        ensures { self.new ≡ after_call CqeSeenCall self.old }
    {
        self.completions.advance_head();
    }

    /// How many entries of the submission ring are taken and not submitted; an open slot counts as one
    /// (io_uring_sq_ready(3)).
    pub fn sq_ready(&self) -> u32
        ensures { result ≡ used self.now }
    {
        self.submissions.len() + u32::from(self.stage != Stage::Closed)
    }

    /// How many entries of the submission ring are free (io_uring_sq_space_left(3)).
    pub fn sq_space_left(&self) -> u32
        ensures { result + used self.now ≡ self.now.entries }
    {
        self.submissions.entries() - self.sq_ready()
    }

    // The place of the open slot, which is in the ring alone no more.
    fn resumed(&mut self) -> u32
        requires { self.old.parked ≡ true }
        ensures place { open_place self.old ≡ Some result }
        ensures after { self.new ≡ after_call ResumeCall self.old }
    {
        self.parked = false;
        self.submissions.push_place().unwrap()
    }

    // Writes an entry into the open slot.
    pub(crate) fn prepare(&mut self, place: u32, entry: &Entry)
        requires place { open_place self.old ≡ Some place }
        requires stage { is_prepared_slot self.old.slot ≡ false }
        ensures { Prepares self.old self.new entry.now }
    {
        self.sqes[place as usize] = encode_sqe(entry);
        self.stage = Stage::Prepared;
    }

    // Gives the open slot's entry its user_data, and queues it.
    pub(crate) fn queue(&mut self, place: u32, user_data: u64)
        requires place { open_place self.old ≡ Some place }
        requires stage { is_prepared_slot self.old.slot ≡ true }
        requires out { self.old.parked ≡ false }
        ensures after { self.new ≡ after_call (SetData64Call user_data) self.old }
        ensures spells { SpellsWithData user_data (slot_bytes self.old.slot) }
    {
        let entry = &mut self.sqes[place as usize];
        entry[32..40].copy_from_slice(&user_data.to_le_bytes());
        self.submissions.advance_tail();
        self.stage = Stage::Closed;
    }

    // Closes the open slot.
    pub(crate) fn close(&mut self)
        requires { self.old.parked ≡ false }
        ensures { self.new ≡ after_call AbandonCall self.old }
    {
        self.stage = Stage::Closed;
    }

    // Parks the open slot.
    pub(crate) fn keep(&mut self)
        requires { slot_count self.old.slot ≡ 1 }
        ensures { self.new ≡ after_call ParkCall self.old }
    {
        self.parked = true;
    }
}
