//! When the threads of a run make their turns, and what a gate sees of them.

use super::{Flags, LastButOne, Late, linger, prints};
use crate::run::examples::{HANDOFF, admitted};
use rc_device::chooser::Seeded;
use rc_device::disk::Disk;
use rc_run::gate::Gate;
use rc_run::runner::run;
use std::alloc::Global;
use std::sync::Arc;
use std::sync::atomic::{AtomicU64, Ordering};
use std::test::*;

/// Holds this turn of each of two threads until that of the other has come, thread 0 some time longer. Sees that the
/// turns of each thread are counted from 1, and each is answered once.
#[derive(Drop)]
struct Together {
    flags: Arc<Flags, Global>,
    answers: Arc<[AtomicU64; 2], Global>,
    turn: u64,
}

impl Together {
    fn expect(&self, holds: bool) {
        if !holds {
            self.flags.raise(&self.flags.wrong);
        }
    }

    fn answers(&self, thread: u32) -> u64 {
        match self.answers.get(thread as usize) {
            Some(count) => count.load(Ordering::SeqCst),
            None => 0,
        }
    }
}

impl Gate for Together {
    fn pass(&self, thread: u32, turn: u64) {
        self.expect(self.answers(thread).checked_add(1) == Some(turn));
        if turn == self.turn && thread == 0 {
            self.flags.meet(&self.flags.first, &self.flags.second);
            linger();
        } else if turn == self.turn {
            self.flags.meet(&self.flags.second, &self.flags.first);
        }
    }

    fn answered(&self, thread: u32, turn: u64) {
        self.expect(self.answers(thread).checked_add(1) == Some(turn));
        if let Some(count) = self.answers.get(thread as usize) {
            count.store(turn, Ordering::SeqCst);
        }
    }
}

// At turn 2 thread 1 finds the lock that thread 0 took with turn 1.
#[test]
fn run_on_one_thread(rt: HostRuntime) -> Result<(), Fail> {
    let alloc = rt.alloc();
    for turn in [1, 2] {
        let flags = Arc::new(alloc, Flags::new())?;
        let answers = Arc::new(alloc, [AtomicU64::new(0), AtomicU64::new(0)])?;
        let admitted = admitted(alloc, HANDOFF)?;
        let disk = Disk::new(alloc, admitted.program())?;
        let gate = Together {
            flags: Arc::try_clone(&flags)?,
            answers: Arc::try_clone(&answers)?,
            turn,
        };
        let report = run(&rt, alloc, admitted, disk, Seeded::new(1), gate, 1000000)
            .ok()
            .ok_or("ends")?;
        assert!(rt; flags.met(), "turn {turn}");
        let answered = [
            answers[0].load(Ordering::SeqCst),
            answers[1].load(Ordering::SeqCst),
        ];
        assert_eq!(rt; report.turns.as_slice(), answered.as_slice());
        assert_eq!(rt; prints(alloc, &report.history)?.as_slice(), [0].as_slice());
    }
    Ok(())
}

/// Holds the turn with which thread 0 ends until thread 1 has had time to sleep.
#[derive(Drop)]
struct LateEnd(Arc<Flags, Global>);

impl Gate for LateEnd {
    fn pass(&self, thread: u32, turn: u64) {
        if thread == 0 && turn == 10 {
            linger();
            self.0.raise(&self.0.first);
        }
    }

    fn answered(&self, _thread: u32, _turn: u64) {}
}

#[test]
fn a_sleeper_that_an_end_wakes_is_woken_again(rt: HostRuntime) -> Result<(), Fail> {
    let alloc = rt.alloc();
    let flags = Arc::new(alloc, Flags::new())?;
    let admitted = admitted(alloc, HANDOFF)?;
    let device = Late {
        disk: Disk::new(alloc, admitted.program())?,
        flags: Arc::try_clone(&flags)?,
    };
    let gate = LateEnd(Arc::try_clone(&flags)?);
    let report = run(&rt, alloc, admitted, device, LastButOne, gate, 1000000)
        .ok()
        .ok_or("ends")?;
    assert!(rt; !flags.wrong.load(Ordering::SeqCst));
    assert_eq!(rt; report.turns.first(), Some(&9));
    Ok(())
}
