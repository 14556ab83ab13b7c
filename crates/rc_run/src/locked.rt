//! What lies under the lock of a run.

ghost use Rattle.std.specs.Prelude.{◌≡◌, ◌⊎◌, ◌↔◌, ◌<◌, ◌≤◌, ℕ, negsuc, ◌≤ℤ◌, [], true, false, IfErr, IfNone, IfSome, IsTrue, MatchOption, OnErr, OnOk, OnSome, length};
ghost use Rattle.rc_run.specs.Jobs.{allows};
ghost use Rattle.rc_run.specs.Reports.{AllEnded, IsUnended};
ghost use Rattle.rc_run.specs.Lives.{IsNotOut, Lent, Posted, Turned, begun, free};
ghost use Rattle.rc_run.specs.LockedRun.{EndsAs, IsLockedRun, IsOver, KeepsRest, LendsNone, after_no_turn, after_refusal, is_stopped, with_turn};
ghost use Rattle.rc_world.specs.Runs.{IsSafe};

use crate::job::Job;
use crate::live::{Live, Turn};
use rc_device::device::Device;
use rc_world::controls::Next;
use rc_world::event::Event;
use std::marker::{Brand, Model, PhantomData};
use std::sync::ledger::{Book, Ledger, Share};

// With so many completions that wait to be reaped no worker is woken: the next one would come after them.
const ENOUGH: usize = 4;

/// The configuration of a run: its program, and how many events of threads there may be. A type stands for both, so that
/// what is found under the lock is a run of that program.
pub trait RunConfig {
    ghost use Rattle.std.specs.Prelude.{ℕ};
    ghost use Rattle.rc_lang.specs.Program.{Program};

    ghost program: { Program };

    ghost limit: { ℕ };
}

impl RunConfig for Brand {
    ghost use Rattle.std.specs.Prelude.{[]};

    ghost program = { record {
      version = 1;
      entries = 0;
      completion_entries = 0;
      left = 0;
      files = [];
      buffers = [];
      tokens = [];
      pools = [];
      stock = [];
      threads = [];
    } };

    ghost limit = { 0 };
}

/// What a thread has counted, with its part of the ledger.
#[derive(Drop)]
pub struct Counted<L: Ledger> {
    pub events: u64,
    pub share: Share<L>,
    pub ghost one: { share.parts ≡ 1 },
    pub ghost same: { share.amount ≡ events },
}

/// How a run ended, once its threads have stopped.
#[derive(Clone, Copy)]
pub enum Ending {
    /// Each thread has ended, and no growth was refused.
    Ended,
    /// The limit is reached, and a thread hasn't ended.
    Limit,
    /// A growth was refused.
    Memory,
}

/// A run that is under way, with the book of its events.
#[derive(Drop)]
pub struct LockedRun<D: Device, L: Ledger + RunConfig> {
    live: Live,
    events: Book<L>,
    // How many events of threads there may be, and how many there are.
    limit: u64,
    turns: u64,
    // Whether memory was refused.
    memory: bool,
    of: PhantomData<D>,
}

// Clauses see all but the book.
impl<D: Device, L: Ledger + RunConfig> Model for LockedRun<D, L> {
    ghost use Rattle.rc_run.specs.LockedRun as locked;

    ghost Value = { locked.LockedRun };

    ghost view = { λ s. locked.locked_run s.live s.turns s.limit s.memory };

    ghost invariant = { λ s. locked.IsLockedRun D.gives L.program L.limit s.events.total
        (locked.locked_run s.live s.turns s.limit s.memory) };
}

impl<D: Device, L: Ledger + RunConfig> LockedRun<D, L> {
    /// A run with no event, and a book of none.
    pub fn new(live: Live, events: Book<L>, limit: u64) -> LockedRun<D, L>
        requires live { live ≡ begun L.program }
        requires safe { IsSafe L.program }
        requires limit { limit ≡ L.limit }
        requires total { events.total ≡ 0 }
        ensures { result ≡ record { run = live; turns = 0; limit = limit; memory = false } }
    {
        LockedRun {
            live,
            events,
            limit,
            turns: 0,
            memory: false,
            of: PhantomData,
        }
    }

    /// The run itself.
    pub fn live(&self) -> &Live
        ensures { result.now ≡ self.now.run }
    {
        &self.live
    }

    /// How many workers to wake: for each job one, unless four completions wait to be reaped.
    pub fn workers(&self) -> usize
        ensures few { length self.now.run.world.completed < 4
            → result ≡ length (free self.now.run) }
        ensures enough { 4 ≤ length self.now.run.world.completed → result ≡ 0 }
    {
        if self.live.completed() < ENOUGH {
            self.live.free()
        } else {
            0
        }
    }

    /// Makes the next statement of a thread, and counts it. None if the limit is reached or memory was refused.
    pub fn turn(&mut self, thread: u32, take: i32, mine: &mut Counted<L>) -> Option<Turn>
        requires { negsuc 4094 ≤ℤ take }
        ensures some { IfSome result (λ t. Turned self.old.run thread take t self.new.run) }
        ensures goes_on { OnSome result (is_stopped self.old ≡ false) }
        ensures rest { IfSome result (λ t. self.new ≡ with_turn self.old self.new.run t) }
        ensures none { IfNone result (self.new ≡ after_no_turn self.old) }
    {
        if self.memory || self.turns >= self.limit {
            return None;
        }
        let Counted {
            events: count,
            share,
        } = mine;
        match self.live.turn(thread, take) {
            Ok(Turn::Done(event)) => {
                let _len = self.live.history().len();
                self.events.add(share, 1);
                self.events.audit(share);
                *count += 1;
                self.turns += 1;
                Some(Turn::Done(event))
            }
            Ok(Turn::Waits) => Some(Turn::Waits),
            Ok(Turn::Ended) => Some(Turn::Ended),
            Err(_) => {
                self.memory = true;
                None
            }
        }
    }

    /// Lends a job, if there is one. Refused memory is noted.
    pub fn take_job(&mut self, choice: u32) -> Option<Job>
        ensures some { IfSome result (λ j. Lent self.old.run choice j self.new.run) }
        ensures rest { OnSome result (KeepsRest self.old self.new) }
        ensures none { IfNone result (LendsNone self.old self.new) }
    {
        match self.live.take_job(choice) {
            Ok(job) => job,
            Err(_) => {
                self.memory = true;
                None
            }
        }
    }

    /// Makes the result of a job an event, and counts it. A job that isn't out comes back.
    pub fn post(&mut self, job: Job, res: i32, mine: &mut Counted<L>) -> Result<(), Job>
        requires allowed { allows job res ≡ true }
        requires given { D.gives job.request.user_data res ⊎ (res ≡ negsuc 11) }
        ensures ok { OnOk result (Posted self.old.run job res self.new.run) }
        ensures rest { OnOk result (KeepsRest self.old self.new) }
        ensures back { IfErr result (λ j. j ≡ job) }
        ensures same { OnErr result (self.new ≡ self.old) }
        ensures not_out { OnErr result (IsNotOut self.old.run job.request) }
    {
        let Counted {
            events: count,
            share,
        } = mine;
        match self.live.post(job, res) {
            Ok(()) => {
                let _len = self.live.history().len();
                self.events.add(share, 1);
                self.events.audit(share);
                *count += 1;
                Ok(())
            }
            Err(job) => Err(job),
        }
    }

    /// Notes that memory was refused.
    pub fn refuse(&mut self)
        ensures { self.new ≡ after_refusal self.old }
    {
        self.memory = true;
    }

    /// How the run ended. If a thread hasn't ended, the limit comes before memory.
    pub fn ending(&self) -> Ending
        ensures { EndsAs self.now result }
    {
        match unended(&self.live) {
            None if self.memory => Ending::Memory,
            None => Ending::Ended,
            Some(_) if self.turns >= self.limit => Ending::Limit,
            Some(_) => Ending::Memory,
        }
    }

    /// The events, which are those that were counted.
    pub fn close(self, all: &mut Share<L>) -> Vec<Event>
        requires { all.old.parts ≡ L.parts }
        ensures history { result.items ≡ self.run.history }
        ensures kept { IsLockedRun D.gives L.program L.limit all.old.amount self }
    {
        let LockedRun {
            live,
            mut events,
            ..
        } = self;
        events.audit(all);
        live.close()
    }

    /// Whether the threads are to stop.
    pub fn is_over(&self) -> bool
        ensures { IsTrue result ↔ IsOver self.now }
    {
        self.is_stopped() || unended(&self.live).is_none()
    }

    /// Whether a worker has nothing to do yet.
    pub fn is_idle(&self) -> bool
        ensures { IsTrue result ↔ ((free self.now.run ≡ []) × ¬ IsOver self.now) }
    {
        !self.is_over() && self.live.free() == 0
    }

    /// Whether the limit is reached or memory was refused. For a thread that hasn't ended the run is over only then.
    pub fn is_stopped(&self) -> bool
        ensures { result ≡ is_stopped self.now }
    {
        self.memory || self.turns >= self.limit
    }
}

/// A thread that hasn't ended.
pub fn unended(live: &Live) -> Option<u32>
    ensures { MatchOption result (AllEnded live.now.world) (IsUnended live.now.world) }
{
    live.promise();
    for thread in 0..live.admitted().program().threads().len() as u32 {
        match live.next(thread) {
            Next::Ready(_) => return Some(thread),
            Next::TakenLock(_) => return Some(thread),
            Next::Ended => {}
        }
    }
    None
}
