//! What the steps of threads do to the rings and the buffers.

ghost use Rattle.std.specs.Prelude.{◌≡◌, ◌+◌, ◌<◌, ◌≤◌, ◌^◌, IsSome, OnErr, OnOk, Some, true, length, map, take};
ghost use Rattle.std.specs.Arc.{arc_value};
ghost use Rattle.std.specs.Vec.{vec_capacity, vec_len};
ghost use Rattle.rc_world.specs.Changes.{CallIsSmall, StmtIsSmall};
ghost use Rattle.rc_lang.specs.declared.lines.Stmt.TheVariants.{Do};
ghost use Rattle.rc_world.specs.declared.world.Slot.TheVariants.{Closed};
ghost use Rattle.rc_world.specs.Machine.{count_in, hands_over, is_take, taken_bytes, without_front, without_taken};
ghost use Rattle.rc_world.specs.WorldParts.{begun_buffers, begun_pending, view_bytes};
ghost use Rattle.rc_run.specs.Held.{AreDistinct};
ghost use Rattle.rc_run.specs.Machine.{IsClosedAt, IsFreshAt, IsSameRest, IsSized, datasync_by, datasync_by_op, fill_step, get_step, pending_of, reap_step, ring_step, store_step, views, world_of};
ghost use Rattle.rc_run.specs.Requests.{data_of};

use super::{Machine, Pending};
use crate::request_ring::RequestRing;
use rc_lang::lines::{Op, Stmt};
use rc_lang::request::Request;
use rc_world::controls::Look;
use rc_world::world::requests::{is_read, remove_first};
use std::alloc::AllocError;

impl Machine {
    // What a statement of a thread does to the rings and the buffers, where a submit is answered this.
    pub(super) fn rings(&mut self, thread: u32, stmt: Stmt, taken: i32) -> Result<(), AllocError>
        requires exists { thread < length self.old.controls.threads }
        requires small { StmtIsSmall (arc_value self.old.admitted) stmt }
        requires sized { IsSized self.old }
        requires step { IsSome (ring_step self.old thread taken stmt) }
        requires suits { IsClosedAt self.old.ring.slot stmt }
        requires fresh { IsFreshAt (world_of self.old) stmt }
        requires room { self.old.ring.made + 1 < 2 ^ 64 }
        ensures ok { OnOk result (ring_step self.old thread taken stmt ≡ Some (world_of self.new)) }
        ensures err { OnErr result (world_of self.new ≡ world_of self.old) }
        ensures flag_kept { OnErr result (self.new.ring.datasync ≡ self.old.ring.datasync) }
        ensures flag { OnOk result
            (self.new.ring.datasync ≡ datasync_by stmt self.old.ring.datasync) }
        ensures rest { IsSameRest self.old self.new }
    {
        match stmt {
            Stmt::Do(op) => self.call(thread, op, taken),
            _ => Ok(()),
        }
    }

    // What a statement without a block does to them.
    fn call(&mut self, thread: u32, op: Op, taken: i32) -> Result<(), AllocError>
        requires exists { thread < length self.old.controls.threads }
        requires small { CallIsSmall (arc_value self.old.admitted) op }
        requires sized { IsSized self.old }
        requires step { IsSome (ring_step self.old thread taken (Do op)) }
        requires suits { IsClosedAt self.old.ring.slot (Do op) }
        requires fresh { IsFreshAt (world_of self.old) (Do op) }
        requires room { self.old.ring.made + 1 < 2 ^ 64 }
        ensures ok { OnOk result
            (ring_step self.old thread taken (Do op) ≡ Some (world_of self.new)) }
        ensures err { OnErr result (world_of self.new ≡ world_of self.old) }
        ensures flag_kept { OnErr result (self.new.ring.datasync ≡ self.old.ring.datasync) }
        ensures flag { OnOk result
            (self.new.ring.datasync ≡ datasync_by_op op self.old.ring.datasync) }
        ensures rest { IsSameRest self.old self.new }
    {
        match op {
            Op::Store(buffer, i, x) => {
                let byte = self.controls.byte(thread, x);
                self.store(buffer, i, byte);
            }
            Op::Fill(buffer, x) => {
                let byte = self.controls.byte(thread, x);
                self.fill(buffer, byte);
            }
            Op::GetSqe => self.ring.open(),
            Op::PrepRead(fd, buffer, len, off) => {
                self.ring.prepare_read(fd as i32, buffer as u32, len, off);
            }
            Op::PrepWrite(fd, buffer, len, off, _) => {
                self.ring.prepare_write(fd as i32, buffer as u32, len, off);
            }
            Op::PrepFsync(fd, datasync) => self.ring.prepare_fsync(fd as i32, datasync),
            Op::PrepNop => self.ring.prepare_nop(false),
            Op::PrepOther => self.ring.prepare_nop(true),
            Op::SetData64(user_data) => self.ring.queue(user_data)?,
            Op::Submit(_) | Op::SubmitAndWait(_, _) => self.hand_over(taken)?,
            Op::CqeGetData64 => self.get_data(),
            Op::CqeSeen => self.see(),
            _ => {}
        }
        Ok(())
    }

    // A byte is written at a place of a buffer.
    fn store(&mut self, buffer: usize, i: u32, byte: u8)
        requires { IsSome (store_step self.old buffer i byte) }
        ensures step { store_step self.old buffer i byte ≡ Some (world_of self.new) }
        ensures rest { self.new ≡ record self.old { buffers = self.new.buffers } }
    {
        match &mut self.buffers[buffer] {
            Some(bytes) => bytes[i as usize] = byte,
            None => unreachable!(),
        }
    }

    // A byte is written at every place of a buffer.
    fn fill(&mut self, buffer: usize, byte: u8)
        requires { IsSome (fill_step self.old buffer byte) }
        ensures step { fill_step self.old buffer byte ≡ Some (world_of self.new) }
        ensures rest { self.new ≡ record self.old { buffers = self.new.buffers } }
    {
        match &mut self.buffers[buffer] {
            Some(bytes) => bytes.fill(byte),
            None => unreachable!(),
        }
    }

    // The first queued requests become pending, as many as the submit took.
    fn hand_over(&mut self, taken: i32) -> Result<(), AllocError>
        requires take { is_take (world_of self.old) taken ≡ true }
        requires closed { self.old.ring.slot ≡ Closed }
        requires distinct { AreDistinct (data_of self.old.ring.queued) }
        requires sized { IsSized self.old }
        ensures ok { OnOk result
            (world_of self.new ≡ hands_over (world_of self.old) (count_in taken)) }
        ensures err { OnErr result (world_of self.new ≡ world_of self.old) }
        ensures datasync { self.new.ring.datasync ≡ self.old.ring.datasync }
        ensures rest { IsSameRest self.old self.new }
        ensures controls { self.new.controls ≡ self.old.controls }
    {
        let count = count_in(taken);
        self.pending.reserve(count as usize)?;
        begin_all(&self.ring, &mut self.pending, &mut self.buffers, count);
        self.ring.hand_over(count);
        Ok(())
    }

    // The request of the front completion is no longer in flight, which it wasn't before where the front is got.
    fn get_data(&mut self)
        requires step { IsSome (get_step self.old) }
        requires sized { IsSized self.old }
        ensures step { get_step self.old ≡ Some (world_of self.new) }
        ensures datasync { self.new.ring.datasync ≡ self.old.ring.datasync }
        ensures rest { IsSameRest self.old self.new }
        ensures controls { self.new.controls ≡ self.old.controls }
    {
        let Some(completion) = self.ring.front() else {
            unreachable!()
        };
        let look = self.controls.look();
        remove_front(&mut self.completed, look, completion.user_data);
    }

    // The same, and the front completion goes.
    fn see(&mut self)
        requires step { IsSome (reap_step self.old) }
        requires sized { IsSized self.old }
        ensures step { reap_step self.old ≡ Some (world_of self.new) }
        ensures datasync { self.new.ring.datasync ≡ self.old.ring.datasync }
        ensures rest { IsSameRest self.old self.new }
        ensures controls { self.new.controls ≡ self.old.controls }
    {
        let Some(completion) = self.ring.front() else {
            unreachable!()
        };
        let look = self.controls.look();
        remove_front(&mut self.completed, look, completion.user_data);
        self.ring.see();
    }
}

// Leaves the requests without that of the front completion, which has this user data. A front that is got has none there.
fn remove_front(requests: &mut Vec<Request>, look: Look, user_data: u64)
    ensures items { requests.new.items ≡ without_front look user_data requests.old.items }
    ensures fewer { vec_len requests.new ≤ vec_len requests.old }
    ensures capacity { vec_capacity requests.new ≡ vec_capacity requests.old }
{
    match look {
        Look::Unseen => remove_first(requests, user_data),
        Look::Peeked => remove_first(requests, user_data),
        Look::Got => {}
    }
}

// The first queued requests become pending, in order.
fn begin_all(
    ring: &RequestRing,
    pending: &mut Vec<Pending>,
    buffers: &mut Vec<Option<Vec<u8>>>,
    count: u32,
)
    requires room { vec_len pending.old + count ≤ vec_capacity pending.old }
    requires queued { count ≤ length ring.now.queued }
    ensures pending { map pending_of pending.new.items
        ≡ begun_pending (map pending_of pending.old.items) (views buffers.old)
        (take count ring.now.queued) }
    ensures buffers { views buffers.new
        ≡ begun_buffers (views buffers.old) (take count ring.now.queued) }
{
    for i in 0..count {
        let Some(request) = ring.request(i) else {
            unreachable!()
        };
        let bytes = taken_bytes(buffers, request);
        pending.push_reserved(Pending { request, bytes });
    }
}

// The bytes that a request takes with it as it becomes pending.
fn taken_bytes(buffers: &mut Vec<Option<Vec<u8>>>, request: Request) -> Option<Vec<u8>>
    ensures bytes { view_bytes result ≡ taken_bytes (views buffers.old) request }
    ensures buffers { views buffers.new ≡ without_taken (views buffers.old) request }
{
    if !is_read(request.kind) {
        return None;
    }
    match buffers.get_mut(request.buffer as usize) {
        Some(bytes) => bytes.take(),
        None => None,
    }
}

// The number in a count or a negative errno, which counts for 0.
fn count_in(number: i32) -> u32
    ensures { result ≡ count_in number }
{
    u32::try_from(number).unwrap_or(0)
}
