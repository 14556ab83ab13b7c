//! What lies under the lock of a run: the run itself, and which of its threads runs next.

ghost use Rattle.std.specs.Prelude.{◌≡◌, ◌↔◌, ◌⊎◌, ◌+◌, ◌^◌, ◌<◌, ◌≤ℤ◌, ℕ, negsuc, true, false, IfErr, IfNone, IfOk, IfSome, IsTrue, OnErr, OnOk, OnSome, length};
ghost use Rattle.std.specs.List.{list_any};
ghost use Rattle.rc_lang.specs.Program.{lines_of};
ghost use Rattle.rc_run.specs.Jobs.{allows};
ghost use Rattle.rc_run.specs.Lives.{HoldersGo, IsNotOut, Lent, Posted, Turned};
ghost use Rattle.rc_run.specs.LockedRun.{KeepsRest, LendsNone, after_no_turn, after_refusal, is_stopped, with_turn};
ghost use Rattle.rc_run.specs.Scheduler.{AnyRuns, Dispatches, IsFirstIn, IsNextDue, NobodyIn, RunsNext, awaits_front, due, is_case_for, new_queue, state_at, waits, with_put, with_state};

use crate::job::Job;
use crate::live::{Live, Turn};
use crate::locked::{Counted, LockedRun, RunConfig};
use rc_device::device::Device;
use rc_lang::lines::{Line, Stmt};
use rc_lang::program::Program;
use rc_world::event::{Action, Event};
use std::alloc::{AllocError, Global};
use std::marker::Model;
use std::sync::ledger::Ledger;

// A thread that waits is due after so many events in any case.
const MAX_WAIT: usize = 1000;

/// The state of a thread.
#[derive(Clone, Copy)]
pub enum State {
    /// It makes events, if it can.
    Running,
    /// It could go on, and lets others run.
    Ready,
    /// It found nothing to do when there were so many events.
    Waiting(usize),
}

/// The threads of a run, by their numbers in the program.
#[derive(Drop)]
pub struct RunQueue {
    states: Vec<State>,
    // Where the search for the next one begins: round robin.
    next: usize,
    // How many events there were when items were put into a pool last.
    last_put: usize,
}

impl Model for RunQueue {
    ghost use Rattle.rc_run.specs.Scheduler as scheduler;

    ghost Value = { scheduler.RunQueue };

    ghost view = { λ q. record { states = q.states.items; next = q.next; last_put = q.last_put } };
}

impl RunQueue {
    /// All are running.
    pub fn new(alloc: Global, threads: usize) -> Result<RunQueue, AllocError>
        ensures { IfOk result (λ r. r ≡ new_queue threads) }
    {
        Ok(RunQueue {
            states: vec![in alloc; State::Running; threads]?,
            next: 0,
            last_put: 0,
        })
    }

    // Notes a turn, after which the run is this.
    fn note(&mut self, turn: Option<Turn>, live: &Live)
        ensures { self.new ≡ with_put turn live.now self.old }
    {
        if matches!(
            turn,
            Some(Turn::Done(Event::ByThread {
                action: Action::ItemsPut,
                ..
            }))
        ) {
            self.last_put = live.history().len();
        }
    }

    fn set(&mut self, thread: usize, state: State)
        ensures { self.new ≡ with_state self.old thread state }
    {
        if thread < self.states.len() {
            self.states[thread] = state;
        }
    }

    // Has the next thread run that is due, unless one is running that can make an event.
    fn dispatch(&mut self, live: &Live) -> Option<usize>
        ensures next { Dispatches live.now self.old result self.new }
        ensures holders_go { HoldersGo live.now.world }
    {
        live.look();
        if self.any_runs(live) {
            return None;
        }
        let thread = next_due(self, live)?;
        self.set(thread, State::Running);
        self.next = thread + 1;
        Some(thread)
    }

    // Whether a thread is running that can make an event.
    fn any_runs(&self, live: &Live) -> bool
        ensures { IsTrue result ↔ AnyRuns live.now self.now }
    {
        for thread in 0..live.admitted().program().threads().len() {
            if matches!(self.state(thread), State::Running) && live.can_move(thread) {
                return true;
            }
        }
        false
    }

    // Whether a thread is to run again, and can make an event.
    fn is_due(&self, live: &Live, thread: usize) -> bool
        ensures { result ≡ due live.now self.now thread }
    {
        let is_due = match self.state(thread) {
            State::Running => false,
            State::Ready => true,
            State::Waiting(since) => {
                live.pending() == 0
                    || since < self.last_put
                    || live.history().len().saturating_sub(since) >= MAX_WAIT
                    || awaits_front(live, thread)
            }
        };
        is_due && live.can_move(thread)
    }

    fn state(&self, thread: usize) -> State
        ensures { result ≡ state_at self.now.states thread }
    {
        self.states.get(thread).copied().unwrap_or(State::Running)
    }
}

// Whether a thread has a case for the completion that is reaped next.
fn awaits_front(live: &Live, thread: usize) -> bool
    ensures { result ≡ awaits_front live.now thread }
{
    match live.front() {
        Some(front) => has_case(lines(live.admitted().program(), thread), front.user_data),
        None => false,
    }
}

fn lines(program: &Program, thread: usize) -> &[Line]
    ensures { result.now ≡ lines_of program.now thread }
{
    match program.threads().get(thread) {
        Some(thread) => &thread.lines,
        None => &[],
    }
}

fn has_case(lines: &[Line], user_data: u64) -> bool
    ensures { result ≡ list_any (λ l. is_case_for user_data l.stmt) lines.now }
{
    lines.iter().any(|line| matches!(line.stmt, Stmt::Case(_, other) if other == user_data))
}

// The next thread that is due, round robin.
fn next_due(queue: &RunQueue, live: &Live) -> Option<usize>
    ensures some { IfSome result (IsNextDue live.now queue.now) }
    ensures none { IfNone result ((i : ℕ) → due live.now queue.now i ≡ false) }
    ensures fits { IfSome result (λ i. i + 1 < 2 ^ 64) }
{
    let next = queue.next;
    match first_due(queue, live, next, queue.states.len()) {
        Some(thread) => Some(thread),
        None => first_due(queue, live, 0, next),
    }
}

// The first that is due from one place to another.
fn first_due(queue: &RunQueue, live: &Live, from: usize, to: usize) -> Option<usize>
    ensures some { IfSome result (IsFirstIn (due live.now queue.now) from to) }
    ensures none { IfNone result (NobodyIn (due live.now queue.now) from to) }
{
    for thread in from..to {
        if queue.is_due(live, thread) {
            return Some(thread);
        }
    }
    None
}

/// A run, and the states of its threads. A thread that hasn't ended waits, for a lock too, only while another one is
/// running that can make an event, or a request is pending.
#[derive(Drop)]
pub struct Scheduler<D: Device, L: Ledger + RunConfig> {
    run: LockedRun<D, L>,
    queue: RunQueue,
}

impl<D: Device, L: Ledger + RunConfig> Model for Scheduler<D, L> {
    ghost use Rattle.rc_run.specs.Scheduler as scheduler;

    ghost Value = { scheduler.Scheduler };

    ghost view = { λ s. record { run = s.run; queue = s.queue } };

    ghost invariant = { λ s. scheduler.MovesOn (record { run = s.run; queue = s.queue }) };
}

impl<D: Device, L: Ledger + RunConfig> Scheduler<D, L> {
    /// A run whose threads are all running.
    pub fn new(run: LockedRun<D, L>, queue: RunQueue) -> Scheduler<D, L>
        requires { queue ≡ new_queue (length queue.states) }
        ensures { result ≡ record { run = run; queue = queue } }
    {
        Scheduler { run, queue }
    }

    /// The run, as it is.
    pub fn run(&self) -> &LockedRun<D, L>
        ensures { result.now ≡ self.now.run }
    {
        &self.run
    }

    /// The run, at its end.
    pub fn into_run(self) -> LockedRun<D, L>
        ensures { result ≡ self.run }
    {
        let Scheduler { run, .. } = self;
        run
    }

    /// Makes the next statement of a thread, and counts it; none if the run is to stop. Answers also which thread runs
    /// next.
    pub fn turn(
        &mut self,
        thread: u32,
        take: i32,
        mine: &mut Counted<L>,
    ) -> (Option<Turn>, Option<usize>)
        requires { negsuc 4094 ≤ℤ take }
        ensures some { IfSome result.0
            (λ t. Turned self.old.run.run thread take t self.new.run.run) }
        ensures goes_on { OnSome result.0 (is_stopped self.old.run ≡ false) }
        ensures rest { IfSome result.0
            (λ t. self.new.run ≡ with_turn self.old.run self.new.run.run t) }
        ensures none { IfNone result.0 (self.new.run ≡ after_no_turn self.old.run) }
        ensures next { let queue = with_put result.0 self.new.run.run self.old.queue in
            RunsNext queue result.1 self.new }
    {
        let turn = self.run.turn(thread, take, mine);
        self.queue.note(turn, self.run.live());
        (turn, self.queue.dispatch(self.run.live()))
    }

    /// Puts a thread into this state, and answers which one runs next, which may be the same.
    pub fn suspend(&mut self, thread: usize, state: State) -> Option<usize>
        ensures run { self.new.run ≡ self.old.run }
        ensures next { RunsNext (with_state self.old.queue thread state) result self.new }
    {
        self.queue.set(thread, state);
        self.queue.dispatch(self.run.live())
    }

    /// Whether a thread waits: it isn't running and hasn't ended, and the run goes on.
    pub fn waits(&self, thread: usize) -> bool
        ensures { result ≡ waits self.now thread }
    {
        !matches!(self.queue.state(thread), State::Running)
            && !self.run.live().has_ended(thread)
            && !self.run.is_stopped()
    }

    /// Lends a job, if there is one. Refused memory is noted.
    pub fn take_job(&mut self, choice: u32) -> Option<Job>
        ensures some { IfSome result (λ j. Lent self.old.run.run choice j self.new.run.run) }
        ensures rest { OnSome result (KeepsRest self.old.run self.new.run) }
        ensures none { IfNone result (LendsNone self.old.run self.new.run) }
        ensures queue { self.new.queue ≡ self.old.queue }
    {
        self.run.take_job(choice)
    }

    /// Makes the result of a job an event, and answers which thread runs next. A job that isn't out comes back.
    pub fn post(
        &mut self,
        job: Job,
        res: i32,
        mine: &mut Counted<L>,
    ) -> (Result<(), Job>, Option<usize>)
        requires allowed { allows job res ≡ true }
        requires given { D.gives job.request.user_data res ⊎ (res ≡ negsuc 11) }
        ensures ok { OnOk result.0 (Posted self.old.run.run job res self.new.run.run) }
        ensures rest { OnOk result.0 (KeepsRest self.old.run self.new.run) }
        ensures back { IfErr result.0 (λ j. j ≡ job) }
        ensures same { OnErr result.0 (self.new.run ≡ self.old.run) }
        ensures not_out { OnErr result.0 (IsNotOut self.old.run.run job.request) }
        ensures next { RunsNext self.old.queue result.1 self.new }
    {
        let posted = self.run.post(job, res, mine);
        (posted, self.queue.dispatch(self.run.live()))
    }

    /// Notes that memory was refused.
    pub fn refuse(&mut self)
        ensures { self.new ≡ record self.old { run = after_refusal self.old.run } }
    {
        self.run.refuse();
    }
}
