//! Runs of small programs on threads.

mod early;
mod jobs;
mod turns;

use rc_device::chooser::Chooser;
use rc_device::device::Device;
use rc_device::disk::Disk;
use rc_lang::request::Request;
use rc_world::event::{Action, Event};
use std::alloc::Global;
use std::sync::Arc;
use std::sync::atomic::{AtomicBool, Ordering};
use std::thread;

/// The values that are printed.
fn prints(alloc: Global, history: &[Event]) -> Result<Vec<i64>, std::alloc::AllocError> {
    let mut printed = Vec::new(alloc);
    for event in history {
        if let Event::ByThread {
            action: Action::Printed(value),
            ..
        } = event
        {
            printed.push(*value).map_err(|_| std::alloc::AllocError)?;
        }
    }
    Ok(printed)
}

/// Asks a flag, many times if need be. Answers whether it is up.
fn comes(flag: &AtomicBool) -> bool {
    for _ in 0..20000000 {
        if flag.load(Ordering::SeqCst) {
            return true;
        }
        thread::yield_now();
    }
    false
}

/// Leaves the processor to the others for some milliseconds.
fn linger() {
    for _ in 0..20000 {
        thread::yield_now();
    }
}

/// Two flags, and whether something went wrong, as that one was asked for in vain.
#[derive(Drop)]
struct Flags {
    first: AtomicBool,
    second: AtomicBool,
    wrong: AtomicBool,
}

impl Flags {
    fn new() -> Flags {
        Flags {
            first: AtomicBool::new(false),
            second: AtomicBool::new(false),
            wrong: AtomicBool::new(false),
        }
    }

    fn raise(&self, flag: &AtomicBool) {
        flag.store(true, Ordering::SeqCst);
    }

    /// Waits for a flag.
    fn wait_for(&self, flag: &AtomicBool) {
        if !comes(flag) {
            self.raise(&self.wrong);
        }
    }

    /// Raises a flag, and waits for the other.
    fn meet(&self, own: &AtomicBool, other: &AtomicBool) {
        self.raise(own);
        self.wait_for(other);
    }

    /// Whether both were raised, and nothing went wrong.
    fn met(&self) -> bool {
        self.first.load(Ordering::SeqCst)
            && self.second.load(Ordering::SeqCst)
            && !self.wrong.load(Ordering::SeqCst)
    }
}

/// A disk that is always granted 5, and serves some time after the first flag is up.
#[derive(Drop)]
struct Late {
    disk: Disk,
    flags: Arc<Flags, Global>,
}

impl Device for Late {
    ghost use Rattle.std.specs.Prelude.{pos, negsuc, ◌≤ℤ◌};

    ghost gives = { λ _ res. (negsuc 4094 ≤ℤ res) × (res ≤ℤ pos 4096) };

    fn serve(&mut self, request: &Request, bytes: &mut [u8], _grant: i32) -> i32 {
        self.flags.wait_for(&self.flags.first);
        linger();
        self.disk.serve(request, bytes, 5)
    }
}

/// Picks the last but one.
#[derive(Drop)]
struct LastButOne;

impl Chooser for LastButOne {
    fn pick(&mut self, n: u32) -> u32 {
        n.saturating_sub(2)
    }
}
