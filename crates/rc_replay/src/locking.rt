//! Which threads lock and unlock which mutexes.

use rc_lang::lines::Locks;
use std::alloc::{AllocError, Global};

/// No mutexes.
const NONE: Locks = Locks {
    sq: false,
    cq: false,
};

/// Which mutexes a thread locks and unlocks.
#[derive(Clone, Copy)]
struct Use {
    locked: Locks,
    unlocked: Locks,
    /// Locked only after it put or took something.
    late: Locks,
}

/// Which threads lock and unlock which mutexes.
#[derive(Drop)]
pub struct Locking {
    threads: Vec<Use>,
    /// Whether a mutex of one side was locked.
    pub has_sides: bool,
}

impl Locking {
    /// So many threads, which lock nothing yet.
    pub fn new(alloc: Global, count: usize) -> Result<Locking, AllocError> {
        let none = Use {
            locked: NONE,
            unlocked: NONE,
            late: NONE,
        };
        Ok(Locking {
            threads: vec![in alloc; none; count]?,
            has_sides: false,
        })
    }

    /// A thread locks these. One that is alone may do so late: what it put and took before concerns nobody else.
    pub fn lock(&mut self, thread: u32, locks: Locks, is_late: bool) {
        self.has_sides = self.has_sides || locks.sq != locks.cq;
        let is_only = self.threads.len() == 1;
        if let Some(used) = self.threads.get_mut(thread as usize) {
            used.locked = used.locked.with(locks);
            if is_late && !is_only {
                used.late = used.late.with(locks);
            }
        }
    }

    /// A thread unlocks these.
    pub fn unlock(&mut self, thread: u32, locks: Locks) {
        self.has_sides = self.has_sides || locks.sq != locks.cq;
        if let Some(used) = self.threads.get_mut(thread as usize) {
            used.unlocked = used.unlocked.with(locks);
        }
    }

    /// Of each side, whether more than one thread locks or unlocks its mutex.
    pub fn shared(&self) -> Locks {
        let (mut any, mut shared) = (NONE, NONE);
        for used in &self.threads {
            let locks = used.locked.with(used.unlocked);
            shared = Locks {
                sq: shared.sq || any.sq && locks.sq,
                cq: shared.cq || any.cq && locks.cq,
            };
            any = any.with(locks);
        }
        shared
    }

    /// The mutexes that a thread locks before it puts or takes anything and never unlocks, and that nobody else locks.
    pub fn kept_by(&self, thread: u32, shared: Locks) -> Option<Locks> {
        let used = self.threads.get(thread as usize)?;
        let kept = Locks {
            sq: used.locked.sq && !used.unlocked.sq && !used.late.sq && !shared.sq,
            cq: used.locked.cq && !used.unlocked.cq && !used.late.cq && !shared.cq,
        };
        if kept.sq || kept.cq { Some(kept) } else { None }
    }
}
