//! What the steps of threads and of the kernel do to the rings and the buffers.

ghost use Rattle.std.specs.Prelude.{◌≡◌, ◌+◌, ◌<◌, ◌≤◌, ◌^◌, true, false, length, map, option_map, pos, IfSome, IsSome};
ghost use Rattle.std.specs.List.{list_any};
ghost use Rattle.std.specs.Vec.{vec_capacity, vec_len};
ghost use Rattle.rc_lang.specs.declared.lines.Stmt.TheVariants.{Do};
ghost use Rattle.rc_world.specs.declared.event.Item.TheVariants.{Kernel};
ghost use Rattle.rc_world.specs.Changes.{CallIsSmall, StmtIsSmall};
ghost use Rattle.rc_world.specs.Faults.{clash, clashes};
ghost use Rattle.rc_world.specs.Items.{item_step};
ghost use Rattle.rc_world.specs.Kept.{BufferExists};
ghost use Rattle.rc_world.specs.Machine as machine;
ghost use Rattle.rc_world.specs.Machine.{bytes_of, fills, hands_over, stores};
ghost use Rattle.rc_world.specs.Parts.{refilled};
ghost use Rattle.rc_world.specs.WorldParts.{Becomes, HaveBegun, Tries, TriesEvent, begun_buffers, given_in, ring_step, view_pending};

use super::bytes::Bytes;
use super::faults::{has_buffer, names};
use super::requests::{is_read, place_of_pending, remove_first};
use super::{Pending, Slot, World};
use crate::controls::Look;
use crate::event::{Completion, Event};
use rc_lang::lines::{Op, Stmt};
use rc_lang::request::{Kind, Request};
use std::alloc::AllocError;

impl<'a> World<'a> {
    // What a statement of a thread does to the rings and the buffers, where a submit is answered this.
    pub(super) fn rings(&mut self, thread: u32, stmt: Stmt, taken: i32) -> Result<(), AllocError>
        requires exists { thread < length self.old.controls.threads }
        requires small { StmtIsSmall self.old.program stmt }
        requires step { IsSome (ring_step self.old thread taken stmt) }
        requires room { self.old.made + 1 < 2 ^ 64 }
        ensures { Tries result self.old self.new (λ w. ring_step w thread taken stmt) }
    {
        match stmt {
            Stmt::Do(op) => self.call(thread, op, taken),
            _ => Ok(()),
        }
    }

    // What a statement without a block does to them.
    fn call(&mut self, thread: u32, op: Op, taken: i32) -> Result<(), AllocError>
        requires exists { thread < length self.old.controls.threads }
        requires small { CallIsSmall self.old.program op }
        requires step { IsSome (ring_step self.old thread taken (Do op)) }
        requires room { self.old.made + 1 < 2 ^ 64 }
        ensures { Tries result self.old self.new (λ w. ring_step w thread taken (Do op)) }
    {
        match op {
            Op::Store(buffer, i, x) => {
                let byte = self.controls.byte(thread, x);
                self.store(buffer, i, byte)?;
            }
            Op::Fill(buffer, x) => {
                let byte = self.controls.byte(thread, x);
                self.fill(buffer, byte);
            }
            Op::GetSqe => self.open(),
            Op::PrepRead(fd, buffer, len, off) => {
                self.prepare(request_of(Kind::Read, fd, buffer, len, off));
            }
            Op::PrepWrite(fd, buffer, len, off, _) => {
                self.prepare(request_of(Kind::Write, fd, buffer, len, off));
            }
            Op::PrepFsync(fd, _) => self.prepare(request_of(Kind::Fsync, fd, 0, 0, 0)),
            Op::PrepNop => self.prepare(new_request(Kind::Nop, -1, 0, 0, 0)),
            Op::PrepOther => self.prepare(new_request(Kind::Other, -1, 0, 0, 0)),
            Op::SetData64(user_data) => self.queue(user_data)?,
            Op::Submit(_) | Op::SubmitAndWait(_, _) => self.hand_over(taken)?,
            Op::CqeGetData64 => self.get_data(),
            Op::CqeSeen => self.see(),
            _ => {}
        }
        Ok(())
    }

    // A byte is written at a place of a buffer.
    fn store(&mut self, buffer: usize, i: u32, byte: u8) -> Result<(), AllocError>
        requires { IsSome (stores self.old buffer i byte (bytes_of self.old buffer)) }
        ensures { Tries result self.old self.new (λ w. stores w buffer i byte (bytes_of w buffer)) }
    {
        match &mut self.buffers[buffer] {
            Some(bytes) => bytes.store(i as usize, byte)?,
            None => unreachable!(),
        }
        Ok(())
    }

    // A byte is written at every place of a buffer.
    fn fill(&mut self, buffer: usize, byte: u8)
        requires { IsSome (fills self.old buffer byte (bytes_of self.old buffer)) }
        ensures { fills self.old buffer byte (bytes_of self.old buffer) ≡ Some self.new }
    {
        match &mut self.buffers[buffer] {
            Some(bytes) => bytes.fill(byte),
            None => unreachable!(),
        }
    }

    // An entry is opened.
    fn open(&mut self)
        requires { IsSome (machine.opens_entry self.old self.old.slot) }
        ensures { machine.opens_entry self.old self.old.slot ≡ Some self.new }
    {
        self.slot = Slot::Vacant;
    }

    // The open entry is filled.
    fn prepare(&mut self, request: Request)
        requires exists { BufferExists self.old.program request }
        requires step { IsSome (machine.prepares self.old request self.old.slot) }
        ensures { machine.prepares self.old request self.old.slot ≡ Some self.new }
    {
        self.slot = Slot::Prepared(request);
    }

    // The prepared entry is queued with this user data.
    fn queue(&mut self, user_data: u64) -> Result<(), AllocError>
        requires step { IsSome (machine.queues self.old user_data self.old.slot) }
        requires room { self.old.made + 1 < 2 ^ 64 }
        ensures { Tries result self.old self.new (λ w. machine.queues w user_data w.slot) }
    {
        let Slot::Prepared(request) = self.slot else {
            unreachable!()
        };
        let serial = self.made + 1;
        self.queued.push(Request {
            serial,
            user_data,
            ..request
        })?;
        self.slot = Slot::Closed;
        self.made = serial;
        Ok(())
    }

    // The first queued requests become pending, as many as the submit took.
    fn hand_over(&mut self, taken: i32) -> Result<(), AllocError>
        requires { machine.is_take self.old taken ≡ true }
        ensures { Becomes result self.old self.new (λ w. hands_over w (machine.count_in taken)) }
    {
        let count = count_in(taken);
        self.pending.reserve(count)?;
        let begun = &self.queued[..count];
        self.has_clash = begin_all(&mut self.pending, &mut self.buffers, begun, self.has_clash);
        drop(self.queued.drain(..count));
        Ok(())
    }

    // The request of the front completion is no longer in flight, which it wasn't before where the front is got.
    fn get_data(&mut self)
        requires { IsSome (machine.gets_front self.old self.old.completions) }
        ensures { machine.gets_front self.old self.old.completions ≡ Some self.new }
    {
        let user_data = self.completions[0].user_data;
        match self.controls.look() {
            Look::Unseen | Look::Peeked => remove_first(&mut self.completed, user_data),
            Look::Got => {}
        }
    }

    // The same, and the front completion goes.
    fn see(&mut self)
        requires { IsSome (machine.reaps_front self.old self.old.completions) }
        ensures { machine.reaps_front self.old self.old.completions ≡ Some self.new }
    {
        self.get_data();
        self.completions.remove(0);
    }

    // The pending request with this user data completes; the first bytes of a read become the fill byte.
    pub(super) fn complete(
        &mut self,
        user_data: u64,
        res: i32,
        fill: u8,
    ) -> Result<Event, AllocError>
        requires calm { clashes self.old.pending ≡ false }
        requires step { IsSome (item_step self.old (Kernel user_data res fill)) }
        ensures { TriesEvent result self.old self.new
            (λ w. item_step w (Kernel user_data res fill)) }
    {
        let Some(place) = place_of_pending(&self.pending, user_data) else {
            unreachable!()
        };
        let completion = Completion { user_data, res };
        self.completed.reserve(1)?;
        self.completions.reserve(1)?;
        refill(&mut self.pending[place].bytes, count_in(res), fill)?;
        self.completions.push(completion).unwrap();
        let Pending { request, bytes } = self.pending.remove(place);
        give_back(&mut self.buffers, request.buffer as usize, bytes);
        self.completed.push(request).unwrap();
        Ok(Event::ByKernel(completion))
    }
}

// The first bytes of a read become the fill byte.
fn refill(bytes: &mut Option<Bytes>, count: usize, fill: u8) -> Result<(), AllocError>
    requires { IfSome bytes.old (λ b. count ≤ length b) }
    ensures { Becomes result bytes.old bytes.new (option_map (refilled count fill)) }
{
    match bytes {
        Some(bytes) => bytes.refill(count, fill),
        None => Ok(()),
    }
}

// The bytes of a read come back to their buffer.
fn give_back(buffers: &mut Vec<Option<Bytes>>, buffer: usize, bytes: Option<Bytes>)
    requires { IfSome bytes (λ _. buffer < length buffers.old.items) }
    ensures { buffers.new.items ≡ given_in buffers.old.items buffer bytes }
{
    match bytes {
        Some(bytes) => buffers[buffer] = Some(bytes),
        None => {}
    }
}

// The number in a count or a negative errno, which counts for 0.
fn count_in(number: i32) -> usize
    ensures { result ≡ machine.count_in number }
{
    usize::try_from(number).unwrap_or(0)
}

// A request before it has its serial number and its user data.
fn new_request(kind: Kind, fd: i32, buffer: u32, len: u32, off: u32) -> Request
    ensures { result ≡ machine.new_request kind fd buffer len off }
{
    Request {
        serial: 0,
        kind,
        fd,
        buffer,
        len,
        off: u64::from(off),
        user_data: 0,
    }
}

// The same of a declared file and a buffer.
fn request_of(kind: Kind, fd: u32, buffer: usize, len: u32, off: u32) -> Request
    requires file { fd ≤ 1023 }
    requires buffer { buffer < 64 }
    ensures { result ≡ machine.new_request kind (pos fd) buffer len off }
{
    new_request(kind, fd as i32, buffer as u32, len, off)
}

// These requests become pending, in order; whether two of the pending ones clash then.
fn begin_all(
    pending: &mut Vec<Pending>,
    buffers: &mut Vec<Option<Bytes>>,
    requests: &[Request],
    had_clash: bool,
) -> bool
    requires room { vec_len pending.old + length requests.now ≤ vec_capacity pending.old }
    requires clash { had_clash ≡ clashes (map view_pending pending.old.items) }
    ensures pending { HaveBegun pending.old pending.new buffers.old.items requests.now }
    ensures buffers { buffers.new.items ≡ begun_buffers buffers.old.items requests.now }
    ensures clash { result ≡ clashes (map view_pending pending.new.items) }
{
    let mut has_clash = had_clash;
    for request in requests {
        has_clash = has_clash || clashes_with(*request, pending);
        let bytes = taken_bytes(buffers, *request);
        pending
            .push(Pending {
                request: *request,
                bytes,
            })
            .unwrap();
    }
    has_clash
}

// The bytes that a request takes with it as it becomes pending.
fn taken_bytes(buffers: &mut Vec<Option<Bytes>>, request: Request) -> Option<Bytes>
    ensures bytes { result ≡ machine.taken_bytes buffers.old.items request }
    ensures buffers { buffers.new.items ≡ machine.without_taken buffers.old.items request }
{
    if !is_read(request.kind) {
        return None;
    }
    match buffers.get_mut(request.buffer as usize) {
        Some(bytes) => bytes.take(),
        None => None,
    }
}

// Whether the request and a pending one name one buffer, and one of the two is a read.
fn clashes_with(request: Request, pending: &[Pending]) -> bool
    ensures { result ≡ list_any (λ p. clash request p.request) pending.now }
{
    pending
        .iter()
        .any(|pending| clash(request, pending.request))
}

fn clash(a: Request, b: Request) -> bool
    ensures { result ≡ clash a b }
{
    has_buffer(a.kind) && names(a.buffer as usize, b) && (is_read(a.kind) || is_read(b.kind))
}
