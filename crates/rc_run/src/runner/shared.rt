//! What the threads of a run share.

ghost use Rattle.std.specs.Prelude.{◌≡◌, ◌<◌};
ghost use Rattle.std.specs.Arc.{arc_value};

use crate::live::Live;
use crate::locked::{LockedRun, RunConfig};
use crate::scheduler::{RunQueue, Scheduler};
use rc_admit::admitted::Admitted;
use rc_device::chooser::Chooser;
use rc_device::device::Device;
use std::alloc::{AllocError, Global};
use std::hint::spin_loop;
use std::sync::ledger::{Book, Ledger};
use std::sync::{Arc, Condvar, Mutex, MutexGuard, Wait};

// How often a thread tries to take the lock of the run before it sleeps until it has it: that is held for a moment, and to
// wake a thread takes a hundred such moments.
const TRIES: u32 = 500;

/// What the threads share. Each lock is held for a moment; that of the chooser also inside that of the run.
///
/// The state of a thread changes only under the lock of the run, and a thread that waits looks there before it sleeps: so
/// no wake is lost, with the lock held or without.
#[derive(Drop)]
pub struct Shared<D: Device, C, L: Ledger + RunConfig> {
    pub scheduler: Mutex<Scheduler<D, L>>,
    pub device: Mutex<D>,
    pub chooser: Mutex<C>,
    /// For each thread of the program, that it runs again.
    pub runs_again: Vec<Condvar>,
    /// For the workers, that there is a job.
    pub has_job: Condvar,
}

impl<D: Device, C, L: Ledger + RunConfig> Shared<D, C, L> {
    /// A run at its start, with a book of no event.
    pub fn new(
        alloc: Global,
        admitted: &Arc<Admitted, Global>,
        book: Book<L>,
        limit: u64,
        device: D,
        chooser: C,
    ) -> Result<Shared<D, C, L>, AllocError>
    where
        D: Drop,
        C: Drop,
        requires program { L.program ≡ arc_value admitted.now }
        requires limit { limit ≡ L.limit }
        requires total { book.total ≡ 0 }
    {
        let threads = admitted.program().threads().len();
        let live = Live::start(alloc, Arc::try_clone(admitted)?)?;
        let queue = RunQueue::new(alloc, threads)?;
        let mut runs_again = Vec::new(alloc);
        for _ in 0..threads {
            runs_again.push(Condvar::new())?;
        }
        Ok(Shared {
            scheduler: Mutex::new(Scheduler::new(LockedRun::new(live, book, limit), queue)),
            device: Mutex::new(device),
            chooser: Mutex::new(chooser),
            runs_again,
            has_job: Condvar::new(),
        })
    }

    /// Takes the lock of the run.
    pub fn hold<R: Wait>(&self, rt: &R) -> MutexGuard<'_, Scheduler<D, L>> {
        for _ in 0..TRIES {
            if let Some(guard) = self.scheduler.try_lock() {
                return guard;
            }
            spin_loop();
        }
        self.scheduler.lock(rt)
    }

    /// Wakes the thread that runs next, and so many workers.
    pub fn wake(&self, thread: Option<usize>, workers: usize) {
        if let Some(condvar) = thread.and_then(|thread| self.runs_again.get(thread)) {
            condvar.notify_one();
        }
        match workers {
            0 => {}
            1 => self.has_job.notify_one(),
            _ => self.has_job.notify_all(),
        }
    }

    /// Wakes all who sleep: one that leaves for good may have been what they waited for.
    pub fn wake_all(&self) {
        for condvar in &self.runs_again {
            condvar.notify_one();
        }
        self.has_job.notify_all();
    }

    /// Has the run stop, since memory was refused.
    pub fn stop<R: Wait>(&self, rt: &R) {
        self.hold(rt).refuse();
        self.wake_all();
    }
}

/// A choice below n.
#[inline(always)]
pub fn draw<D: Device, C: Chooser, L: Ledger + RunConfig, R: Wait>(
    rt: &R,
    shared: &Shared<D, C, L>,
    n: u32,
) -> u32
    requires { 0 < n }
    ensures { result < n }
{
    shared.chooser.lock(rt).pick(n)
}
