//! The least fault of a world.

ghost use Rattle.std.specs.Prelude.{◌≡◌, ◌+◌, ◌&&◌, ◌<◌, ◌≤◌, ℕ, None, map, option_map, slice_get, true};
ghost use Rattle.std.specs.List.{list_any};
ghost use Rattle.rc_split.specs.Pools.{all_pooled, overfills};
ghost use Rattle.rc_world.specs.Controls.{list_here};
ghost use Rattle.rc_world.specs.Faults as spec;
ghost use Rattle.rc_world.specs.Harm.{is_pending, line_of};
ghost use Rattle.rc_world.specs.WorldParts.{view_access, view_pending};

use self::statements::{
    Access, access_of, conflicts, is_cq_call, is_out_at, is_prepared, is_raw_at, is_sq_call,
};
use super::requests::is_read;
use super::{Pending, World};
use crate::controls::Look;
use crate::fault::{Fault, FaultKind, Party};
use rc_lang::lines::{Op, Stmt};
use rc_lang::request::{Kind, Request};

mod harm;
mod statements;

impl<'a> World<'a> {
    /// The world's fault: of several the one with the least number, and there the first thread's.
    pub fn fault(&self) -> Option<Fault>
        ensures { result ≡ spec.fault_of self.now }
    {
        if self.has_harm() {
            self.first_fault(&FaultKind::ALL)
        } else {
            None
        }
    }

    fn has_both_locks(&self, thread: u32) -> bool
        ensures { result ≡ spec.has_both_locks self.now thread }
    {
        self.controls.has_sq(thread) && self.controls.has_cq(thread)
    }

    // Whether the next statement of a thread is a call of a side whose lock it hasn't.
    fn lacks_lock(&self, thread: u32, stmt: Stmt) -> bool
        ensures { result ≡ spec.lacks_lock self.now thread stmt }
    {
        is_sq_call(stmt) && !self.controls.has_sq(thread)
            || is_cq_call(stmt) && !self.controls.has_cq(thread)
    }

    // The first fault of these kinds.
    fn first_fault(&self, kinds: &[FaultKind]) -> Option<Fault>
        ensures { result ≡ slice_get (spec.faults_by self.now kinds.now) 0 }
    {
        for kind in kinds {
            if let Some(fault) = self.fault_of_kind(*kind) {
                return Some(fault);
            }
        }
        None
    }

    // The first fault of this kind.
    fn fault_of_kind(&self, kind: FaultKind) -> Option<Fault>
        ensures { result ≡ slice_get (spec.faults_of self.now kind) 0 }
    {
        if self.in_kernel(kind) {
            let party = Party::InKernel;
            return Some(Fault { kind, party });
        }
        for thread in 0..self.controls.count() {
            if let Some(fault) = self.fault_at(kind, thread) {
                return Some(fault);
            }
        }
        None
    }

    // The fault of this kind that a thread has.
    fn fault_at(&self, kind: FaultKind, thread: u32) -> Option<Fault>
        requires { thread ≤ 64 }
        ensures { result ≡ slice_get (spec.fault_at self.now kind thread (line_of self.now thread))
            0 }
    {
        let line = self.controls.line(self.program, thread)?;
        if self.has_fault(kind, thread, line.stmt) {
            let line = line.number;
            let party = Party::At { thread, line };
            Some(Fault { kind, party })
        } else {
            None
        }
    }

    // Whether the kernel has the fault of this kind.
    fn in_kernel(&self, kind: FaultKind) -> bool
        ensures { result ≡ spec.in_kernel self.now kind }
    {
        match kind {
            FaultKind::KernelClash => self.has_clash,
            FaultKind::Overflow => self.overflows(),
            _ => false,
        }
    }

    fn overflows(&self) -> bool
        ensures { result ≡ spec.overflows self.now self.now.pending }
    {
        !self.pending.is_empty()
            && self.program.completion_entries() as usize <= self.completions.len()
    }

    // Whether a thread has the fault of this kind, whose next statement is this.
    fn has_fault(&self, kind: FaultKind, thread: u32, stmt: Stmt) -> bool
        requires { thread ≤ 64 }
        ensures { result ≡ spec.has_fault self.now kind thread stmt }
    {
        match kind {
            FaultKind::WriteOfPending => self.writes_pending(access_of(stmt)),
            FaultKind::ReadOfFilling => self.reads_filling(access_of(stmt)),
            FaultKind::KernelClash => false,
            FaultKind::ThreadRace => self.races(thread, access_of(stmt)),
            FaultKind::RingFull => self.controls.has_sq(thread) && self.is_full_at(stmt),
            FaultKind::Overflow => false,
            FaultKind::AmbiguousData => {
                self.controls.has_sq(thread) && self.is_ambiguous_at(stmt)
            }
            FaultKind::UnknownReap => self.controls.has_cq(thread) && self.is_unknown_at(stmt),
            FaultKind::NoLock => self.lacks_lock(thread, stmt),
            FaultKind::RawEntry => self.controls.has_sq(thread) && is_raw_at(self.slot, stmt),
            FaultKind::OutOfBuffer => is_out_at(self.program, stmt),
            FaultKind::DoublePut => self.is_double_at(thread, stmt),
        }
    }

    fn writes_pending(&self, access: Option<Access>) -> bool
        ensures { result ≡ spec.writes_pending self.now.pending (option_map view_access access) }
    {
        match access {
            Some(access) => access.writes && is_named(&self.pending, access.buffer),
            None => false,
        }
    }

    fn reads_filling(&self, access: Option<Access>) -> bool
        ensures { result ≡ spec.reads_filling self.now.pending (option_map view_access access) }
    {
        match access {
            Some(access) => !access.writes && is_filling(&self.pending, access.buffer),
            None => false,
        }
    }

    // Whether a later thread has the same buffer next, and one of the two writes it.
    fn races(&self, thread: u32, access: Option<Access>) -> bool
        requires { thread ≤ 64 }
        ensures { result ≡ spec.races self.now thread (option_map view_access access) }
    {
        if access.is_none() {
            return false;
        }
        for other in thread + 1..self.controls.count() {
            if conflicts(access, self.next_access(other)) {
                return true;
            }
        }
        false
    }

    // What the next statement of a thread does with a buffer.
    fn next_access(&self, thread: u32) -> Option<Access>
        ensures { option_map view_access result ≡ spec.access_at (line_of self.now thread) }
    {
        access_of(self.controls.line(self.program, thread)?.stmt)
    }

    fn is_full_at(&self, stmt: Stmt) -> bool
        ensures { result ≡ spec.is_full_at self.now stmt }
    {
        match stmt {
            Stmt::Do(Op::GetSqe) => self.program.entries() as usize <= self.used_entries(),
            _ => false,
        }
    }

    fn is_ambiguous_at(&self, stmt: Stmt) -> bool
        ensures { result ≡ spec.is_ambiguous_at self.now stmt }
    {
        match stmt {
            Stmt::Do(Op::SetData64(user_data)) => {
                is_prepared(self.slot) && self.is_in_flight(user_data)
            }
            _ => false,
        }
    }

    // Whether a request with this user data is queued, pending, or completed and not reaped.
    fn is_in_flight(&self, user_data: u64) -> bool
        ensures { result ≡ spec.is_in_flight self.now user_data }
    {
        any_has_data(&self.queued, user_data)
            || any_pending_has_data(&self.pending, user_data)
            || any_has_data(&self.completed, user_data)
    }

    fn is_unknown_at(&self, stmt: Stmt) -> bool
        ensures { result ≡ spec.is_unknown_at self.now stmt }
    {
        match stmt {
            Stmt::Do(Op::CqeGetData64) => !self.front_is_known(),
            Stmt::Do(Op::CqeSeen) => !self.front_is_known(),
            _ => false,
        }
    }

    fn is_double_at(&self, thread: u32, stmt: Stmt) -> bool
        ensures { result ≡ spec.is_double_at self.now thread stmt }
    {
        match stmt {
            Stmt::Put(pool, k) => self.may_put(thread, pool) && self.overfills(thread, k),
            _ => false,
        }
    }

    // Whether a thread has the locks that a put to this pool asks for.
    fn may_put(&self, thread: u32, pool: Option<usize>) -> bool
        ensures { result ≡ spec.may_put self.now thread pool }
    {
        match pool {
            Some(_) => true,
            None => self.has_both_locks(thread),
        }
    }

    // Whether the pools have no room for these items of a thread. A number that names no list says no items.
    fn overfills(&self, thread: u32, k: usize) -> bool
        ensures { result ≡ overfills self.now.program
            (all_pooled self.now.program self.now.controls.pools)
            (list_here self.now.program self.now.controls thread k) }
    {
        let pools = self.controls.pools();
        match self.program.lists_of(thread as usize).get(k) {
            Some(items) => pools.are_overfilled_by(self.program, items),
            None => !(pools.credits() <= u64::from(self.program.completion_entries())),
        }
    }

    // Whether the front completion is peeked and that of exactly one completed request, or got.
    fn front_is_known(&self) -> bool
        ensures { result ≡ spec.front_is_known self.now self.now.controls.look self.now.completions }
    {
        match self.controls.look() {
            Look::Unseen => false,
            Look::Peeked => self.front_is_one(),
            Look::Got => !self.completions.is_empty(),
        }
    }

    // Whether the front completion is that of exactly one completed request.
    fn front_is_one(&self) -> bool
        ensures { result ≡ spec.front_is_one self.now self.now.completions }
    {
        match self.completions.first() {
            Some(completion) => count_of(&self.completed, completion.user_data) == 1,
            None => false,
        }
    }
}

// Whether a request of this kind names a buffer.
pub(super) fn has_buffer(kind: Kind) -> bool
    ensures { result ≡ spec.has_buffer kind }
{
    match kind {
        Kind::Nop => false,
        Kind::Fsync => false,
        Kind::Read => true,
        Kind::Write => true,
        Kind::Other => false,
    }
}

// Whether the request names the buffer.
pub(super) fn names(buffer: usize, request: Request) -> bool
    ensures { result ≡ spec.names buffer request }
{
    has_buffer(request.kind) && request.buffer as usize == buffer
}

fn reads_into(buffer: usize, request: Request) -> bool
    ensures { result ≡ spec.reads_into buffer request }
{
    is_read(request.kind) && request.buffer as usize == buffer
}

// Whether a pending request names the buffer.
fn is_named(pending: &[Pending], buffer: usize) -> bool
    ensures { result ≡ spec.is_named (map view_pending pending.now) buffer }
{
    for pending in pending {
        if names(buffer, pending.request) {
            return true;
        }
    }
    false
}

// Whether a pending read fills the buffer.
fn is_filling(pending: &[Pending], buffer: usize) -> bool
    ensures { result ≡ spec.is_filling (map view_pending pending.now) buffer }
{
    for pending in pending {
        if reads_into(buffer, pending.request) {
            return true;
        }
    }
    false
}

fn any_has_data(requests: &[Request], user_data: u64) -> bool
    ensures { result ≡ list_any (spec.has_data user_data) requests.now }
{
    requests
        .iter()
        .any(|request| request.user_data == user_data)
}

fn any_pending_has_data(pending: &[Pending], user_data: u64) -> bool
    ensures { result ≡ is_pending user_data (map view_pending pending.now) }
{
    for pending in pending {
        if pending.request.user_data == user_data {
            return true;
        }
    }
    false
}

// How many of the requests have this user data.
fn count_of(requests: &[Request], user_data: u64) -> usize
    ensures { result ≡ spec.count_of user_data requests.now }
{
    requests
        .iter()
        .filter(|request| request.user_data == user_data)
        .count()
}
