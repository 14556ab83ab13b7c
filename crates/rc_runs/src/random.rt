//! The choices of a walk.

ghost use Rattle.std.specs.Prelude.{◌≡◌, ◌<◌, ◌≤◌};

use rc_device::chooser::{Chooser, Seeded};
use rc_lang::request::Request;
use rc_world::world::requests::{largest, may_complete};

/// How many more steps a thread makes before another may move.
const STAYS: [u32; 5] = [0, 2, 5, 10, 20];

/// The submission ring can't take more at the moment (`io_uring_submit(3)`).
const EAGAIN: i32 = 11;

/// A device failed (`io_uring_enter(2)`).
const EIO: i32 = 5;

/// How many entries a submission ring has at most.
const MOST_QUEUED: usize = 1024;

/// How many bytes a request moves at most.
const MOST_MOVED: u32 = 4096;

/// What makes the choices of walks.
#[derive(Drop)]
pub struct Random {
    chooser: Seeded,
    // The numbers that the program compares with.
    numbers: Vec<i32>,
}

impl Random {
    /// The choices of this seed, with the numbers that a program compares with.
    pub fn new(seed: u32, numbers: Vec<i32>) -> Random {
        Random {
            chooser: Seeded::new(u64::from(seed)),
            numbers,
        }
    }

    /// One of so many places, at least one.
    pub fn place(&mut self, count: usize) -> usize
        requires { 0 < count }
        ensures { result < count }
    {
        self.chooser.pick(u32::MAX) as usize % count
    }

    /// How many more steps a thread makes.
    pub fn stay(&mut self) -> u32 {
        STAYS[self.place(STAYS.len())]
    }

    /// Whether the kernel moves, where it can: one time in twelve.
    pub fn is_for_kernel(&mut self) -> bool {
        self.place(12) == 0
    }

    /// What a submit is answered where so many entries are queued, at most 1,024. None: it takes them all, as it does three
    /// times in four.
    pub fn take(&mut self, queued: usize) -> Option<i32> {
        if self.place(4) != 0 {
            return None;
        }
        let most = queued.min(MOST_QUEUED);
        let answer = match self.compared() {
            Some(number) if number <= most as i32 => number,
            _ => self.part(most),
        };
        Some(answer)
    }

    /// A part of what is queued, or an error.
    fn part(&mut self, most: usize) -> i32
        requires { most ≤ MOST_QUEUED }
    {
        let count = self.place(most + 2);
        if count <= most { count as i32 } else { -EAGAIN }
    }

    /// What a request completes with: all its bytes, none, one or an error, or a number that the program compares with.
    pub fn result(&mut self, request: Request) -> i32 {
        match self.compared() {
            Some(number) if may_complete(request, number) => number,
            _ => self.moved(largest(request).min(MOST_MOVED)),
        }
    }

    /// All of so many bytes, none, one or an error.
    fn moved(&mut self, most: u32) -> i32
        requires { most ≤ MOST_MOVED }
    {
        match self.place(6) {
            0 => -EIO,
            1 => 0,
            2 => most.min(1) as i32,
            _ => most as i32,
        }
    }

    /// A number that the program compares with, two times in five where there is one.
    fn compared(&mut self) -> Option<i32> {
        let count = self.numbers.len();
        if count == 0 || self.place(5) >= 2 {
            return None;
        }
        let place = self.place(count);
        self.numbers.get(place).copied()
    }
}
