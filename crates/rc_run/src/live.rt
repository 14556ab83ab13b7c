//! A run under way.

ghost use Rattle.std.specs.Prelude.{◌≡◌, ◌≢◌, ◌≤◌, ◌<◌, ◌↔◌, ℕ, negsuc, ◌≤ℤ◌, [], not, None, IsTrue, IfOk, IfErr, IfSome, IfNone, OnOk, OnErr, Some, true, length, slice_get};
ghost use Rattle.std.specs.Arc.{arc_value};
ghost use Rattle.rc_world.specs.Faults.{is_holder};
ghost use Rattle.rc_world.specs.Items.{next_of};
ghost use Rattle.rc_world.specs.Machine.{start_world};
ghost use Rattle.rc_world.specs.Runs.{IsRun, IsSafe};
ghost use Rattle.rc_run.specs.Calm.{IsCalm};
ghost use Rattle.rc_run.specs.Jobs.{allows};
ghost use Rattle.rc_run.specs.LiveParts.{free_parts};
ghost use Rattle.rc_run.specs.Lives.{IsInOrder, IsNotOut, IsOut, IsPendingAt, Lent, Posted, Turned, begun, can_move, free, has_ended, holds_lock, is_free};

use crate::job::Job;
use crate::machine::{Machine, Pending};
use rc_admit::admitted::Admitted;
use rc_admit::laws::safe_worlds;
use rc_lang::request::Request;
use rc_world::controls::Next;
use rc_world::event::{Completion, Event};
use rc_world::laws::no_deadlock;
use std::alloc::{AllocError, Global};
use std::marker::Model;
use std::sync::Arc;

/// What a turn answers.
#[derive(Clone, Copy, PartialEq, Eq, Debug)]
pub enum Turn {
    /// The thread made its next step.
    Done(Event),
    /// It is about to take a lock that another thread holds.
    Waits,
    /// It has ended, or there is no such thread.
    Ended,
}

/// A run under way: the events so far, and where they lead.
#[derive(Drop)]
pub struct Live {
    machine: Machine,
    // The serial numbers of the requests whose jobs are out.
    out: Vec<u64>,
    history: Vec<Event>,
    alloc: Global,
}

// Clauses see the events, the world to which they lead, and which jobs are out.
impl Model for Live {
    ghost use Rattle.rc_run.specs.Lives as lives;

    ghost Value = { lives.Live };

    ghost use Rattle.rc_run.specs.LiveParts.{IsLive, view_live};

    ghost view = { view_live };

    ghost invariant = { IsLive };
}

impl Live {
    /// A run without an event.
    pub fn start(alloc: Global, admitted: Arc<Admitted, Global>) -> Result<Live, AllocError>
        ensures { IfOk result (λ l. l ≡ begun (arc_value admitted)) }
    {
        let machine = Machine::start(alloc, admitted)?;
        Ok(Live {
            machine,
            out: Vec::new(alloc),
            history: Vec::new(alloc),
            alloc,
        })
    }

    /// How many requests are queued.
    pub fn queued(&self) -> u32
        ensures value { result ≡ length self.now.world.queued }
        ensures few { result ≤ 1024 }
    {
        let entries = self.machine.program().entries();
        prove!(entries <= 1024);
        self.machine.ring.queued()
    }

    /// How many requests are pending.
    pub fn pending(&self) -> usize
        ensures { result ≡ length self.now.world.pending }
    {
        self.machine.pending.len()
    }

    /// How many pending requests have no job that is out.
    pub fn free(&self) -> usize
        ensures { result ≡ length (free self.now) }
    {
        free_count(&self.machine.pending, &self.out)
    }

    /// How many completed requests wait to be reaped.
    pub fn completed(&self) -> usize
        ensures { result ≡ length self.now.world.completed }
    {
        self.machine.completed.len()
    }

    /// The front completion.
    pub fn front(&self) -> Option<Completion>
        ensures { result ≡ slice_get self.now.world.completions 0 }
    {
        self.machine.ring.front()
    }

    /// What a thread has next.
    #[inline(always)]
    pub fn next(&self, thread: u32) -> Next
        ensures { result ≡ next_of self.now.world.program self.now.world.controls thread }
    {
        self.machine.next(thread)
    }

    /// Whether a thread has ended, or there is no such thread.
    pub fn has_ended(&self, thread: usize) -> bool
        ensures { result ≡ has_ended self.now.world thread }
    {
        self.look();
        match u32::try_from(thread) {
            Ok(thread) => matches!(self.machine.next(thread), Next::Ended),
            Err(_) => true,
        }
    }

    /// Whether a thread can make an event: it has a next that isn't a taken lock.
    pub fn can_move(&self, thread: usize) -> bool
        ensures { result ≡ can_move self.now.world thread }
    {
        self.look();
        match u32::try_from(thread) {
            Ok(thread) => matches!(self.machine.next(thread), Next::Ready(_)),
            Err(_) => false,
        }
    }

    /// Whether a thread holds a lock of the program.
    pub fn holds_lock(&self, thread: u32) -> bool
        ensures { result ≡ holds_lock self.now.world thread }
    {
        let holders = self.machine.controls.holders();
        is_holder(holders.sq, thread) || is_holder(holders.cq, thread)
    }

    /// The events so far.
    pub fn history(&self) -> &[Event]
        ensures { result.now ≡ self.now.history }
    {
        &self.history
    }

    /// The events. An open entry is let go of; takes no memory.
    pub fn close(self) -> Vec<Event>
        ensures { result.items ≡ self.history }
    {
        let Live {
            mut machine,
            history,
            ..
        } = self;
        machine.ring.abandon();
        history
    }

    /// The program that runs.
    pub fn admitted(&self) -> &Admitted
        ensures { result.now ≡ self.now.world.program }
    {
        &self.machine.admitted
    }

    /// What the type keeps: the events are those of a run of the program, which is safe.
    pub fn promise(&self)
        ensures run { IsRun (start_world self.now.world.program) self.now.history self.now.world }
        ensures safe { IsSafe self.now.world.program }
    {
        let _ = self.machine.admitted.program();
    }

    // What holds where the run is.
    pub(crate) fn look(&self)
        ensures { IsCalm self.now.world }
    {
        self.machine.program();
        self.promise();
        safe_worlds();
        no_deadlock();
    }

    /// The next step of a thread; a submit takes as many as are queued, at most `take`, or fails with a negative one, and an
    /// `if any` takes its first branch, or its second with 0.
    pub fn turn(&mut self, thread: u32, take: i32) -> Result<Turn, AllocError>
        requires { negsuc 4094 ≤ℤ take }
        ensures ok { IfOk result (λ t. Turned self.old thread take t self.new) }
        ensures err { OnErr result (self.new ≡ self.old) }
    {
        self.look();
        let line = match self.machine.next(thread) {
            Next::Ended => return Ok(Turn::Ended),
            Next::TakenLock(_) => return Ok(Turn::Waits),
            Next::Ready(line) => line,
        };
        self.history.reserve(self.out.len() + 1)?;
        let given = self.machine.given(line.stmt, take);
        let event = self.machine.step(thread, line, given)?;
        self.history.push_reserved(event);
        Ok(Turn::Done(event))
    }

    /// The job of a request that is pending and whose job isn't out: of those, in the order of their serial numbers, the
    /// one that the choice names.
    pub fn take_job(&mut self, choice: u32) -> Result<Option<Job>, AllocError>
        ensures some { IfOk result (λ o. IfSome o (λ j. Lent self.old choice j self.new)) }
        ensures none { IfOk result (λ o. IfNone o ((free self.old ≡ []) × (self.new ≡ self.old))) }
        ensures err { OnErr result (self.new ≡ self.old) }
        ensures order { IsInOrder self.old.world.pending }
    {
        self.look();
        let count = free_count(&self.machine.pending, &self.out);
        if count == 0 {
            return Ok(None);
        }
        let Some(place) = free_place(&self.machine.pending, &self.out, choice as usize % count)
        else {
            unreachable!()
        };
        self.history.reserve(self.out.len() + 1)?;
        self.machine.completed.reserve(self.out.len() + 1)?;
        self.out.reserve(1)?;
        let job = self.machine.job(self.alloc, place)?;
        self.out.push_reserved(job.request().serial);
        Ok(Some(job))
    }

    /// The result of a job: its request completes. A job that isn't out comes back.
    pub fn post(&mut self, job: Job, res: i32) -> Result<(), Job>
        requires { allows job res ≡ true }
        ensures ok { OnOk result (Posted self.old job res self.new) }
        ensures back { IfErr result (λ j. j ≡ job) }
        ensures same { OnErr result (self.new ≡ self.old) }
        ensures not_out { OnErr result (IsNotOut self.old job.request) }
    {
        match self.place_of(job.request()) {
            Some((place, number)) => {
                self.complete(place, number, job, res);
                Ok(())
            }
            None => Err(job),
        }
    }

    // Where a request is pending whose job is out, and where its serial number is.
    fn place_of(&self, request: Request) -> Option<(usize, usize)>
        ensures some { IfSome result (λ p. IsOut self.now request p.0 p.1) }
        ensures none { IfNone result (IsNotOut self.now request) }
    {
        let Some(place) = pending_place(&self.machine.pending, request) else {
            return None;
        };
        let Some(number) = number_of(&self.out, request.serial) else {
            return None;
        };
        Some((place, number))
    }

    // The result of a job that is out.
    fn complete(&mut self, place: usize, number: usize, job: Job, res: i32)
        requires out { IsOut self.old job.request place number }
        requires allowed { allows job res ≡ true }
        ensures { Posted self.old job res self.new }
    {
        self.look();
        let (_, bytes) = job.into_parts();
        self.out.remove(number);
        let event = self.machine.complete(place, res, &bytes);
        self.history.push_reserved(event);
    }
}

// Whether the thread is the holder of a lock.
fn is_holder(holder: Option<u32>, thread: u32) -> bool
    ensures { result ≡ is_holder holder thread }
{
    match holder {
        Some(holder) => holder == thread,
        None => false,
    }
}

// Whether a job of the request is out.
fn is_out(out: &[u64], request: Request) -> bool
    ensures { result ≡ not (is_free out.now request) }
{
    out.contains(&request.serial)
}

// How many pending requests are free.
fn free_count(pending: &[Pending], out: &[u64]) -> usize
    ensures { result ≡ length (free_parts out.now pending.now) }
{
    pending
        .iter()
        .filter(|item| !is_out(out, item.request))
        .count()
}

// The place of a free request, by its place among the free ones.
fn free_place(pending: &[Pending], out: &[u64], n: usize) -> Option<usize>
    ensures within { IfSome result (λ k. k < length pending.now) }
    ensures some { IfSome result
        (λ k. slice_get pending.now k ≡ slice_get (free_parts out.now pending.now) n) }
    ensures none { IfNone result (slice_get (free_parts out.now pending.now) n ≡ None) }
{
    let mut left = n;
    for k in 0..pending.len() {
        if is_out(out, pending[k].request) {
            continue;
        }
        if left == 0 {
            return Some(k);
        }
        left -= 1;
    }
    None
}

// Where a request is pending.
fn pending_place(pending: &[Pending], request: Request) -> Option<usize>
    ensures some { IfSome result (λ k. IsPendingAt pending.now request k) }
    ensures none { IfNone result ((k : ℕ) → ¬ IsPendingAt pending.now request k) }
{
    for k in 0..pending.len() {
        if same_request(pending[k].request, request) {
            return Some(k);
        }
    }
    None
}

// Where a serial number is.
fn number_of(out: &[u64], serial: u64) -> Option<usize>
    ensures some { IfSome result (λ n. (n < length out.now) × (slice_get out.now n ≡ Some serial)) }
    ensures none { IfNone result ((n : ℕ) → slice_get out.now n ≢ Some serial) }
{
    for n in 0..out.len() {
        if out[n] == serial {
            return Some(n);
        }
    }
    None
}

// Whether the two are one request.
fn same_request(a: Request, b: Request) -> bool
    ensures { IsTrue result ↔ (a ≡ b) }
{
    a == b
}
