//! Real threads over a run that is under way.

ghost use Rattle.std.specs.Prelude.{◌≡◌, ◌+◌, false, sum, IfOk};
ghost use Rattle.std.specs.Arc.{arc_value};
ghost use Rattle.rc_run.specs.Reports.{Tells};
ghost use Rattle.rc_run.specs.Rooms.{HasRoom};

mod program_thread;
mod shared;
mod thread_group;
mod worker;

use crate::gate::Gate;
use crate::locked::{Ending, LockedRun, RunConfig};
use crate::report::{RunFault, RunReport};
use crate::runner::shared::Shared;
use crate::runner::thread_group::{Role, ThreadGroup};
use rc_admit::admitted::Admitted;
use rc_device::chooser::Chooser;
use rc_device::device::Device;
use std::alloc::{AllocError, Global};
use std::marker::Brand;
use std::sync::ledger::{Blank, Ledger, Share};
use std::sync::{Arc, Wait};
use std::thread;
use std::thread::Threads;

// How many threads serve jobs.
const WORKERS: u32 = 2;

// The threads of a run: those of the program, and the workers.
#[derive(Drop)]
struct Groups<L: Ledger> {
    program: ThreadGroup<L>,
    workers: ThreadGroup<L>,
}

impl<L: Ledger> Groups<L> {
    // No thread, with room for so many of the program, and for the workers.
    fn new(alloc: Global, threads: u32) -> Result<Groups<L>, AllocError>
        ensures program { IfOk result (λ g. HasRoom threads g.program.started g.program.counts) }
        ensures workers { IfOk result (λ g. HasRoom WORKERS g.workers.started g.workers.counts) }
    {
        Ok(Groups {
            program: ThreadGroup::new(alloc, threads)?,
            workers: ThreadGroup::new(alloc, WORKERS)?,
        })
    }
}

// What the threads counted, with a share that has all their parts.
#[derive(Drop)]
struct Counts<L: Ledger> {
    turns: Vec<u64>,
    posts: Vec<u64>,
    all: Share<L>,
}

// Starts the threads, and waits for each.
fn run_all<
    D: Device + Drop + Send,
    C: Chooser + Drop + Send,
    G: Gate + Sync,
    L: Ledger + RunConfig + Send + Sync,
    R: Threads + Wait + Sync,
>(
    rt: &R,
    shared: &Shared<D, C, L>,
    gate: &G,
    threads: u32,
    groups: Groups<L>,
    all: Share<L>,
) -> Counts<L>
    requires program { HasRoom threads groups.program.started groups.program.counts }
    requires workers { HasRoom WORKERS groups.workers.started groups.workers.counts }
    requires share { (all.parts ≡ threads + WORKERS) × (all.amount ≡ 0) }
    ensures parts { result.all.parts ≡ threads + WORKERS }
    ensures amount { result.all.amount ≡ sum result.turns.items + sum result.posts.items }
{
    thread::scope(
        thread::scope_env(),
        rt,
        move |scope| -> Counts<L>
            requires program { HasRoom threads groups.program.started groups.program.counts }
            requires workers { HasRoom WORKERS groups.workers.started groups.workers.counts }
            requires share { (all.parts ≡ threads + WORKERS) × (all.amount ≡ 0) }
            ensures parts { result.all.parts ≡ threads + WORKERS }
            ensures amount { result.all.amount ≡ sum result.turns.items + sum result.posts.items }
        {
            let mut all = all;
            let Groups { program, workers } = groups;
            let program = program.start(scope, rt, shared, gate, Role::Program, threads, &mut all);
            let workers = workers.start(scope, rt, shared, gate, Role::Worker, WORKERS, &mut all);
            let turns = program.join(rt, threads, &mut all);
            let posts = workers.join(rt, WORKERS, &mut all);
            Counts { turns, posts, all }
        },
    )
}

// Reads the answer off what was under the lock.
fn finished<D: Device, L: Ledger + RunConfig>(
    admitted: &Admitted,
    limit: u64,
    locked: LockedRun<D, L>,
    counts: Counts<L>,
) -> Result<RunReport, RunFault>
    requires program { L.program ≡ admitted.now }
    requires limit { L.limit ≡ limit }
    requires whole { counts.all.parts ≡ L.parts }
    requires amount { counts.all.amount ≡ sum counts.turns.items + sum counts.posts.items }
    ensures tells { Tells D.gives admitted.now limit result }
    ensures refused { IfOk result (λ _. locked.memory ≡ false) }
{
    let Counts {
        turns,
        posts,
        mut all,
    } = counts;
    let ending = locked.ending();
    let report = RunReport {
        history: locked.close(&mut all),
        turns,
        posts,
    };
    match ending {
        Ending::Ended => Ok(report),
        Ending::Limit => Err(RunFault::Limit(report)),
        Ending::Memory => Err(RunFault::OutOfMemory(report)),
    }
}

// The answer if memory was refused before any thread was started.
fn refused<D: Device>(alloc: Global, admitted: &Admitted, limit: u64) -> Result<RunReport, RunFault>
    ensures { Tells D.gives admitted.now limit result }
{
    admitted.program();
    Err(RunFault::OutOfMemory(RunReport {
        history: Vec::new(alloc),
        turns: Vec::new(alloc),
        posts: Vec::new(alloc),
    }))
}

// Runs the program, with a ledger of as many parts as there are threads.
fn run_in<
    L: Ledger + RunConfig + Send + Sync,
    D: Device + Drop + Send,
    C: Chooser + Drop + Send,
    G: Gate + Sync,
    R: Threads + Wait + Sync,
>(
    rt: &R,
    alloc: Global,
    admitted: Arc<Admitted, Global>,
    device: D,
    chooser: C,
    gate: &G,
    limit: u64,
    threads: u32,
    blank: Blank,
) -> Result<RunReport, RunFault>
    requires program { L.program ≡ arc_value admitted }
    requires limit { L.limit ≡ limit }
    requires name { blank.name ≡ L.name }
    requires parts { (blank.parts ≡ L.parts) × (blank.parts ≡ threads + WORKERS) }
    ensures { Tells D.gives (arc_value admitted) limit result }
{
    let (book, all) = blank.open::<L>();
    let Ok(groups) = Groups::new(alloc, threads) else {
        return refused::<D>(alloc, &admitted, limit);
    };
    let Ok(shared) = Shared::new(alloc, &admitted, book, limit, device, chooser) else {
        return refused::<D>(alloc, &admitted, limit);
    };
    let counts = run_all(rt, &shared, gate, threads, groups, all);
    let Shared { scheduler, .. } = shared;
    finished(&admitted, limit, scheduler.into_inner().into_run(), counts)
}

/// Runs a program: a thread for each of its threads, and two workers, which have the device serve its requests, until
/// each of its threads has ended, memory ran out, or its threads have made as many events as the limit says.
///
/// What a submit takes, which request is served next and what the device is granted is chosen by the chooser. The
/// history is that of a run of the program, which is safe: no world of it has a fault. A refused growth is reported even
/// if each thread has ended. That it ends isn't promised.
pub fn run<
    D: Device + Drop + Send,
    C: Chooser + Drop + Send,
    G: Gate + Drop + Sync,
    R: Threads + Wait + Sync,
>(
    rt: &R,
    alloc: Global,
    admitted: Arc<Admitted, Global>,
    device: D,
    chooser: C,
    gate: G,
    limit: u64,
) -> Result<RunReport, RunFault>
    ensures { Tells D.gives (arc_value admitted) limit result }
{
    let threads = admitted.program().threads().len() as u32;
    run_in::<Brand, D, C, G, R>(
        rt,
        alloc,
        admitted,
        device,
        chooser,
        &gate,
        limit,
        threads,
        Blank::new(u64::from(threads) + u64::from(WORKERS)),
    )
}
