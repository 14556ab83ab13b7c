//! Groups of threads: those of the program, or the workers, from their start to what they counted.

ghost use Rattle.std.specs.Prelude.{◌≡◌, ◌+◌, ◌≤◌, IfOk, sum};
ghost use Rattle.rc_run.specs.Rooms.{HasRoom, IsStarted};

use crate::gate::Gate;
use crate::locked::{Counted, RunConfig};
use crate::runner::program_thread::run_thread;
use crate::runner::shared::Shared;
use crate::runner::worker::work;
use rc_device::chooser::Chooser;
use rc_device::device::Device;
use std::alloc::{AllocError, Global};
use std::sync::Wait;
use std::sync::ledger::{Ledger, Share};
use std::thread::{JoinHandle, Scope, Threads};

/// What the threads of a group do.
#[derive(Clone, Copy)]
pub enum Role {
    /// Each runs the thread of the program with its number.
    Program,
    /// Each serves jobs.
    Worker,
}

// A thread that runs, or the count of one that couldn't be made.
#[derive(Drop)]
pub enum Started<L: Ledger> {
    Running(JoinHandle<Counted<L>>),
    Over(Counted<L>),
}

/// The threads that are started, and room for what each counts.
#[derive(Drop)]
pub struct ThreadGroup<L: Ledger> {
    pub started: Vec<Started<L>>,
    pub counts: Vec<u64>,
}

// Starts a thread of a group. If it can't be made the run is to stop, and it is called here, to its end.
fn spawn<
    's,
    E,
    D: Device + Drop + Send + 's,
    C: Chooser + Drop + Send + 's,
    G: Gate + Sync + 's,
    L: Ledger + RunConfig + Send + Sync + 's,
    R: Threads + Wait + Sync + 's,
>(
    scope: &Scope<'s, E>,
    rt: &'s R,
    shared: &'s Shared<D, C, L>,
    gate: &'s G,
    role: Role,
    number: u32,
    mine: Counted<L>,
) -> Started<L> {
    let act = move || match role {
        Role::Program => run_thread(rt, shared, gate, number, mine),
        Role::Worker => work(rt, shared, mine),
    };
    match scope.spawn(act) {
        Ok(handle) => Started::Running(handle),
        Err(refused) => {
            shared.stop(rt);
            Started::Over((refused.value)())
        }
    }
}

impl<L: Ledger> ThreadGroup<L> {
    /// No thread, with room for so many.
    pub fn new(alloc: Global, count: u32) -> Result<ThreadGroup<L>, AllocError>
        ensures { IfOk result (λ g. HasRoom count g.started g.counts) }
    {
        Ok(ThreadGroup {
            started: Vec::with_capacity(alloc, count as usize)?,
            counts: Vec::with_capacity(alloc, count as usize)?,
        })
    }

    /// Starts its threads, each with a part of the share. If one can't be made the run is to stop.
    pub fn start<
        's,
        E,
        D: Device + Drop + Send + 's,
        C: Chooser + Drop + Send + 's,
        G: Gate + Sync + 's,
        R: Threads + Wait + Sync + 's,
    >(
        self,
        scope: &Scope<'s, E>,
        rt: &'s R,
        shared: &'s Shared<D, C, L>,
        gate: &'s G,
        role: Role,
        count: u32,
        all: &mut Share<L>,
    ) -> ThreadGroup<L>
    where
        L: RunConfig + Send + Sync + 's,
        requires room { HasRoom count self.started self.counts }
        requires parts { count ≤ all.old.parts }
        requires amount { all.old.amount ≡ 0 }
        ensures started { IsStarted count result.started result.counts }
        ensures parts { all.new.parts + count ≡ all.old.parts }
        ensures amount { all.new.amount ≡ 0 }
    {
        let ThreadGroup {
            mut started,
            counts,
        } = self;
        for number in 0..count {
            let mine = Counted {
                events: 0,
                share: all.split_off(1, 0),
            };
            started.push_reserved(spawn(scope, rt, shared, gate, role, number, mine));
        }
        ThreadGroup { started, counts }
    }

    /// Waits for each thread, and answers what each counted. The shares come back into one.
    pub fn join<R: Threads>(self, rt: &R, count: u32, all: &mut Share<L>) -> Vec<u64>
        requires started { IsStarted count self.started self.counts }
        ensures parts { all.new.parts ≡ all.old.parts + count }
        ensures amount { all.new.amount ≡ all.old.amount + sum result.items }
    {
        let ThreadGroup {
            started,
            mut counts,
        } = self;
        for one in started {
            let Counted { events, share } = match one {
                Started::Running(handle) => handle.join(rt),
                Started::Over(counted) => counted,
            };
            all.merge(share);
            counts.push_reserved(events);
        }
        counts
    }
}
