//! The requests that the entries of a ring ask for.

ghost use Rattle.std.specs.Prelude.{◌≡◌, ◌+◌, ◌<◌, ◌≤◌, ◌^◌, false, [], ◌∷◌, ◌++◌, length, drop, slice_get, Some, IfOk, OnOk, OnErr};
ghost use Rattle.std.specs.Int.{IsPowerOfTwo};
ghost use Rattle.rc_lang.specs.declared.request.Kind.TheVariants.{Fsync, Read, Write};
ghost use Rattle.rc_lang.specs.declared.request.Request.{Request as SpecRequest};
ghost use Rattle.rc_world.specs.declared.world.Slot.TheVariants.{Closed, Vacant, Prepared};
ghost use Rattle.rc_world.specs.Machine.{new_request, slot_len};
ghost use Rattle.rc_run.specs.Held.{AreDistinct};
ghost use Rattle.rc_run.specs.Requests.{address_of, after_data, buffer_at, data_of, data_of_entry, empty_ring, named, prepared_nop_or_other, request_of, with_prepared};

use rc_entry::{Cqe, Entry, decode_sqe};
use rc_lang::request::{Kind, Request};
use rc_ring::Ring;
use rc_world::event::Completion;
use std::alloc::{AllocError, Global};
use std::marker::Model;

/// The serial number of a queued request, by its user data.
#[derive(Clone, Copy)]
pub struct Serial {
    pub user_data: u64,
    pub serial: u64,
    /// Whether its entry, a nop's, stands for another request without a buffer.
    pub other: bool,
}

/// A ring of entries, with the serial numbers of the queued ones, which no entry carries. Between two calls an open
/// entry is parked in the ring.
#[derive(Drop)]
pub struct RequestRing {
    ring: Ring,
    serials: Vec<Serial>,
    // Whether the open entry, a nop's, stands for another request without a buffer.
    other: bool,
    made: u64,
}

// Clauses see requests.
impl Model for RequestRing {
    ghost use Rattle.rc_run.specs.Requests as requests;

    ghost Value = { requests.RequestRing };

    ghost use Rattle.rc_run.specs.Held.{IsHeld, ring_of};

    ghost view = { λ a. ring_of a.ring a.serials.items a.other a.made };

    ghost invariant = { λ a. IsHeld a.ring a.serials.items };
}

impl RequestRing {
    /// A ring with nothing in it.
    pub fn new(
        alloc: Global,
        entries: u32,
        completion_entries: u32,
    ) -> Result<RequestRing, AllocError>
        requires power { IsPowerOfTwo entries }
        requires small { entries ≤ 1024 }
        requires completion_power { IsPowerOfTwo completion_entries }
        requires completion_least { entries ≤ completion_entries }
        requires completion_small { completion_entries ≤ 2048 }
        ensures { IfOk result (λ r. r ≡ empty_ring entries completion_entries) }
    {
        Ok(RequestRing {
            ring: Ring::with_cq(alloc, entries, completion_entries)?,
            serials: Vec::new(alloc),
            other: false,
            made: 0,
        })
    }

    /// Opens an entry.
    pub fn open(&mut self)
        requires closed { self.old.slot ≡ Closed }
        requires room { length self.old.queued < self.old.entries }
        ensures { self.new ≡ record self.old { slot = Vacant; datasync = false } }
    {
        let slot = self.ring.get_sqe().unwrap();
        slot.park(&mut self.ring);
        self.other = false;
    }

    /// Makes the open entry a read.
    pub fn prepare_read(&mut self, fd: i32, buffer: u32, len: u32, off: u32)
        requires { self.old.slot ≡ Vacant }
        ensures { self.new ≡ with_prepared self.old (new_request Read fd buffer len off) false }
    {
        let slot = self.ring.resume_vacant();
        let slot = slot.prep_read(&mut self.ring, fd, address_of(buffer), len, u64::from(off));
        slot.park(&mut self.ring);
    }

    /// Makes the open entry a write.
    pub fn prepare_write(&mut self, fd: i32, buffer: u32, len: u32, off: u32)
        requires { self.old.slot ≡ Vacant }
        ensures { self.new ≡ with_prepared self.old (new_request Write fd buffer len off) false }
    {
        let slot = self.ring.resume_vacant();
        let slot = slot.prep_write(&mut self.ring, fd, address_of(buffer), len, u64::from(off));
        slot.park(&mut self.ring);
    }

    /// Makes the open entry an fsync, or with `datasync` an fdatasync.
    pub fn prepare_fsync(&mut self, fd: i32, datasync: bool)
        requires { self.old.slot ≡ Vacant }
        ensures { self.new ≡ with_prepared self.old (new_request Fsync fd 0 0 0) datasync }
    {
        let slot = self.ring.resume_vacant();
        let slot = slot.prep_fsync(&mut self.ring, fd, datasync);
        slot.park(&mut self.ring);
    }

    /// Makes the open entry a nop, or with `other` one that stands for another request without a buffer.
    pub fn prepare_nop(&mut self, other: bool)
        requires { self.old.slot ≡ Vacant }
        ensures { self.new ≡ with_prepared self.old (prepared_nop_or_other other) false }
    {
        let slot = self.ring.resume_vacant();
        let slot = slot.prep_nop(&mut self.ring);
        slot.park(&mut self.ring);
        self.other = other;
    }

    /// Queues the prepared entry with this user data, which no queued one has.
    pub fn queue(&mut self, user_data: u64) -> Result<(), AllocError>
        requires prepared { (q : SpecRequest) × (self.old.slot ≡ Prepared q) }
        requires fresh { AreDistinct (data_of self.old.queued ++ user_data ∷ []) }
        requires room { self.old.made + 1 < 2 ^ 64 }
        ensures ok { OnOk result ((q : SpecRequest) → self.old.slot ≡ Prepared q
            → self.new ≡ after_data self.old user_data q) }
        ensures err { OnErr result (self.new ≡ self.old) }
    {
        let _held = self.ring.queued_sqe(0);
        let serial = self.made + 1;
        self.serials.push(Serial {
            user_data,
            serial,
            other: self.other,
        })?;
        let slot = self.ring.resume_prepared();
        slot.set_data64(&mut self.ring, user_data);
        self.made = serial;
        Ok(())
    }

    /// The `i`-th queued request.
    pub fn request(&self, i: u32) -> Option<Request>
        ensures { result ≡ slice_get self.now.queued i }
    {
        match self.ring.queued_sqe(i) {
            None => None,
            Some(bytes) => match decode_sqe(bytes) {
                Ok(entry) => Some(request_of(&self.serials, entry)),
                Err(_) => unreachable!(),
            },
        }
    }

    /// Takes the first `count` requests off the queue.
    pub fn hand_over(&mut self, count: u32)
        requires closed { self.old.slot ≡ Closed }
        requires queued { count ≤ length self.old.queued }
        requires distinct { AreDistinct (data_of self.old.queued) }
        ensures { self.new ≡ record self.old { queued = drop count self.old.queued } }
    {
        drop(self.serials.drain(..count as usize));
        self.ring.submit(count);
    }

    /// Adds a completion, for which there is room.
    pub fn post(&mut self, completion: Completion)
        requires { length self.old.completions < self.old.completion_entries }
        ensures { self.new ≡ record self.old {
          completions = self.old.completions ++ completion ∷ [];
        } }
    {
        let Completion { user_data, res } = completion;
        self.ring.post(Cqe { user_data, res }).unwrap();
    }

    /// The front completion.
    pub fn front(&self) -> Option<Completion>
        ensures { result ≡ slice_get self.now.completions 0 }
    {
        let Cqe { user_data, res } = self.ring.peek_cqe()?;
        Some(Completion { user_data, res })
    }

    /// Takes the front completion away.
    pub fn see(&mut self)
        requires { 0 < length self.old.completions }
        ensures { self.new ≡ record self.old { completions = drop 1 self.old.completions } }
    {
        self.ring.cqe_seen();
    }

    /// How many entries are queued or open.
    pub fn used(&self) -> u32
        ensures value { result ≡ length self.now.queued + slot_len self.now.slot }
        ensures within { result ≤ self.now.entries }
    {
        let _left = self.ring.sq_space_left();
        self.ring.sq_ready()
    }

    /// How many requests are queued.
    pub fn queued(&self) -> u32
        ensures value { result ≡ length self.now.queued }
        ensures within { result ≤ self.now.entries }
    {
        let open = u32::from(self.ring.parked());
        self.used() - open
    }

    /// Lets go of the open entry, if there is one; nothing is queued.
    pub fn abandon(&mut self)
        ensures { self.new ≡ record self.old { slot = Closed; datasync = false } }
    {
        if !self.ring.parked() {
            return;
        }
        if self.ring.open_prepared() {
            self.ring.resume_prepared().abandon(&mut self.ring);
        } else {
            self.ring.resume_vacant().abandon(&mut self.ring);
        }
    }
}

// The address of a buffer.
fn address_of(buffer: u32) -> u64
    ensures { result ≡ address_of buffer }
{
    4096 * (u64::from(buffer) + 1)
}

// The buffer at an address.
fn buffer_at(address: u64) -> u32
    ensures { result ≡ buffer_at address }
{
    ((address / 4096).saturating_sub(1) % 4294967296) as u32
}

// The request that an entry asks for.
fn request_of(serials: &[Serial], entry: Entry) -> Request
    ensures { result ≡ request_of (named (data_of_entry entry) serials.now) entry }
{
    let (user_data, request) = match entry {
        Entry::Nop { user_data } => (user_data, new_request(Kind::Nop, -1, 0, 0, 0)),
        Entry::Fsync { fd, user_data, .. } => (user_data, new_request(Kind::Fsync, fd, 0, 0, 0)),
        Entry::Read {
            fd,
            addr,
            len,
            off,
            user_data,
        } => (
            user_data,
            new_request(Kind::Read, fd, buffer_at(addr), len, off),
        ),
        Entry::Write {
            fd,
            addr,
            len,
            off,
            user_data,
        } => (
            user_data,
            new_request(Kind::Write, fd, buffer_at(addr), len, off),
        ),
    };
    let Serial { serial, other, .. } = named(serials, user_data);
    let kind = match request.kind {
        Kind::Nop if other => Kind::Other,
        kind => kind,
    };
    Request {
        serial,
        kind,
        user_data,
        ..request
    }
}

// A request without serial number and user data.
fn new_request(kind: Kind, fd: i32, buffer: u32, len: u32, off: u64) -> Request
    ensures { result ≡ new_request kind fd buffer len off }
{
    Request {
        serial: 0,
        kind,
        fd,
        buffer,
        len,
        off,
        user_data: 0,
    }
}

// What the table has of a user data.
fn named(serials: &[Serial], user_data: u64) -> Serial
    ensures { result ≡ named user_data serials.now }
{
    for serial in serials {
        if serial.user_data == user_data {
            return *serial;
        }
    }
    Serial {
        user_data: 0,
        serial: 0,
        other: false,
    }
}
