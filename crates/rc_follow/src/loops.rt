//! How a thread comes to other places by steps that it can make at any time.

ghost use Rattle.std.specs.Prelude.{◌<◌, length};

use crate::passing::{At, Pass};
use crate::reads::Reads;
use rc_lang::lines::Stmt;
use rc_lang::program::{Program, Thread};
use rc_rules::state::State;
use rc_verify::labels::Labels;
use std::alloc::{AllocError, Global};

/// How many buffers a program has at most.
const BUFFERS: usize = 64;

/// How many shares of each buffer a thread holds, where its flag is 0 and where it is another number.
#[derive(Clone, Copy)]
struct Shares {
    zero: [u32; 64],
    other: [u32; 64],
}

/// Of each line of each thread whether the thread holds after it all shares of buffers that it holds before it.
#[derive(Drop)]
pub struct Loops {
    threads: Vec<Vec<bool>>,
}

impl Loops {
    /// Finds it for the threads of a program.
    pub fn new(alloc: Global, program: &Program) -> Result<Loops, AllocError> {
        let mut threads = Vec::new(alloc);
        for thread in 0..program.threads().len() {
            threads.push(keeping_lines(alloc, program, thread as u32)?)?;
        }
        Ok(Loops { threads })
    }

    /// Whether the thread comes from one place to another by steps that it can make at any time. A loop's line that loses
    /// no share counts as the loop's first line, since no call is between them.
    pub fn lead(
        &self,
        program: &Program,
        reads: &Reads,
        thread: u32,
        from: usize,
        to: usize,
    ) -> bool {
        let Some(part) = program.threads().get(thread as usize) else {
            return false;
        };
        let pass = Pass {
            part,
            lists: program.lists_of(thread as usize),
            reads,
            thread,
        };
        let mut at = At::place(from);
        for _step in 0..part.lines.len() {
            if self.is_turn_to(part, thread, at.place, to) {
                return true;
            }
            let Some(next) = pass.after(at) else {
                return false;
            };
            at = next;
            if at.place == to {
                return true;
            }
        }
        false
    }

    /// Whether the place is the end of a turn of the loop at the other place, which loses no share.
    fn is_turn_to(&self, part: &Thread, thread: u32, place: usize, top: usize) -> bool {
        match part.lines.get(place) {
            Some(line) => match line.stmt {
                Stmt::EndLoop(of, _) => of == top && self.keeps(thread, top),
                _ => false,
            },
            None => false,
        }
    }

    fn keeps(&self, thread: u32, place: usize) -> bool {
        match self.threads.get(thread as usize) {
            Some(lines) => lines.get(place).copied().unwrap_or(false),
            None => false,
        }
    }
}

fn keeping_lines(alloc: Global, program: &Program, thread: u32) -> Result<Vec<bool>, AllocError>
    requires { thread < length program.now.threads }
{
    let mut labels = Labels::new(program, thread);
    let mut lines = Vec::new(alloc);
    for _line in 0..labels.thread().lines.len() {
        let before = shares_in(labels.state());
        match labels.next() {
            Ok(true) => lines.push(are_within(&before, &shares_in(labels.state())))?,
            _ => return Ok(lines),
        }
    }
    Ok(lines)
}

fn shares_in(state: &State<'_>) -> Shares {
    let mut shares = Shares {
        zero: [0; 64],
        other: [0; 64],
    };
    for buffer in 0..BUFFERS {
        shares.zero[buffer] = state.on(true).shares(buffer);
        shares.other[buffer] = state.on(false).shares(buffer);
    }
    shares
}

fn are_within(few: &Shares, many: &Shares) -> bool {
    for buffer in 0..BUFFERS {
        if few.zero[buffer] > many.zero[buffer] || few.other[buffer] > many.other[buffer] {
            return false;
        }
    }
    true
}
