//! A thread that is walked over once, and what is known before each of its lines.

ghost use Rattle.std.specs.Prelude.{◌<◌, length};

use rc_lang::lines::{Line, Locks, Stmt};
use rc_lang::program::{Program, Thread};
use rc_lang::view::View;
use rc_rules::state::State;
use rc_verify::labels::Labels;
use std::alloc::{AllocError, Global};

/// A thread, by its number, and what is known before each of its lines, up to the first that is refused, that line
/// included.
#[derive(Drop)]
pub struct Walked<'a> {
    pub program: &'a Program,
    pub thread: &'a Thread,
    pub number: usize,
    pub states: Vec<State<'a>>,
}

impl Walked<'_> {
    /// The line at a place.
    pub fn line(&self, place: usize) -> Option<Line> {
        self.thread.lines.get(place).copied()
    }
}

/// Walks over a thread. Not inlined: its labels need room on the stack.
#[inline(never)]
pub fn walk(alloc: Global, program: &Program, number: u32) -> Result<Walked<'_>, AllocError>
    requires { number < length program.now.threads }
{
    let mut labels = Labels::new(program, number);
    let thread = labels.thread();
    let mut states = Vec::with_capacity(alloc, thread.lines.len())?;
    for _ in &thread.lines {
        states.push(labels.state().again())?;
        if !matches!(labels.next(), Ok(true)) {
            break;
        }
    }
    Ok(Walked {
        program,
        thread,
        number: number as usize,
        states,
    })
}

/// Of each line of a thread whether something reaches it, up to the first that is refused, that line included. Not
/// inlined, as `walk`.
#[inline(never)]
pub fn reached_lines(alloc: Global, program: &Program, number: u32) -> Result<Vec<bool>, AllocError>
    requires { number < length program.now.threads }
{
    let mut labels = Labels::new(program, number);
    let thread = labels.thread();
    let mut reached = Vec::with_capacity(alloc, thread.lines.len())?;
    for _ in &thread.lines {
        reached.push(is_reached(labels.state()))?;
        if !matches!(labels.next(), Ok(true)) {
            break;
        }
    }
    Ok(reached)
}

/// Whether something reaches a line before which this is known.
pub fn is_reached(state: &State<'_>) -> bool {
    state.on(true).is_live() || state.on(false).is_live()
}

/// A refused line: its thread, walked up to it, and its place there.
#[derive(Clone, Copy)]
pub struct Refused<'a> {
    pub walked: &'a Walked<'a>,
    pub place: usize,
}

impl<'a> Refused<'a> {
    /// The program.
    pub fn program(self) -> &'a Program {
        self.walked.program
    }

    /// The program, as the line's thread names its parts.
    pub fn view(self) -> View<'a> {
        self.walked.program.view(self.walked.number)
    }

    /// What is known before the refused line, if it is one of the thread.
    pub fn state(self) -> Option<&'a State<'a>> {
        self.walked.states.get(self.place)
    }

    /// The statement at a place of the thread. After the last line it is as a lock, which changes no part.
    pub fn stmt(self, place: usize) -> Stmt {
        match self.walked.line(place) {
            Some(line) => line.stmt,
            None => Stmt::Lock(Locks { sq: true, cq: true }),
        }
    }

    /// The number of the line at a place of the thread.
    pub fn number(self, place: usize) -> u32 {
        match self.walked.line(place) {
            Some(line) => line.number,
            None => 0,
        }
    }
}
