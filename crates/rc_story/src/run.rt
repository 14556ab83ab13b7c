//! A run that is drawn.

use crate::frames::Frame;
use rc_lang::lines::{Locks, Op, Stmt};
use rc_lang::program::Program;
use rc_read::source::Lines;
use rc_text::names::thread_name;
use rc_world::fault::{Fault, FaultKind, Party};
use rc_world::world::World;

/// Both locks.
pub const BOTH: Locks = Locks { sq: true, cq: true };

/// What a statement does with a buffer.
#[derive(Clone, Copy)]
pub enum Verb {
    Load,
    Store,
    Fill,
}

/// A statement that touches a buffer, by its number.
#[derive(Clone, Copy)]
pub struct Touch {
    pub verb: Verb,
    pub buffer: usize,
}

/// A thread and the line that it has next.
#[derive(Clone, Copy)]
pub struct Turn {
    pub thread: u32,
    /// The number of the line.
    pub line: u32,
    pub stmt: Stmt,
}

/// A run: its program with the lines of its text, its events, the world after the last of them, the fault in which it
/// ends, and how many of its events aren't drawn.
#[derive(Clone, Copy)]
pub struct Run<'s, 'a> {
    pub program: &'a Program,
    pub lines: &'s Lines<'a>,
    pub world: &'s World<'a>,
    pub frames: &'s [Frame],
    pub fault: Option<Fault>,
    /// The thread at fault.
    pub culprit: Option<Turn>,
    /// The other thread of a race: the first after it that races with it.
    pub rival: Option<Turn>,
    pub cut: u64,
    /// Whether the program has sides: it takes the lock of one without the other.
    pub has_sides: bool,
}

impl<'s, 'a> Run<'s, 'a> {
    /// A run that ends in `world`, at `fault` if there is one. The first `cut` events aren't drawn.
    pub fn of(
        lines: &'s Lines<'a>,
        world: &'s World<'a>,
        frames: &'s [Frame],
        fault: Option<Fault>,
        cut: u64,
    ) -> Run<'s, 'a> {
        let culprit = culprit_of(world, fault);
        Run {
            program: world.program(),
            lines,
            world,
            frames,
            fault,
            culprit,
            rival: rival_of(world, fault, culprit),
            cut,
            has_sides: has_sides(world.program()),
        }
    }

    /// The event with this number, from 1.
    pub fn frame(&self, number: u64) -> Option<Frame> {
        self.frames.get(number.checked_sub(1)? as usize).copied()
    }

    /// The number of the kernel's lane: how many threads there are.
    pub fn kernel(&self) -> u32 {
        self.program.threads().len() as u32
    }

    /// The name of a lane.
    pub fn lane_name(&self, lane: u32) -> &'a [u8] {
        if lane == self.kernel() {
            b"kernel"
        } else {
            thread_name(self.program, lane)
        }
    }

    /// The lane of what is at fault.
    pub fn fault_lane(&self) -> u32 {
        match self.culprit {
            Some(culprit) => culprit.thread,
            None => self.kernel(),
        }
    }

    /// What the thread at fault is about to do with a buffer. A prep of too many bytes is drawn as a store.
    pub fn fault_touch(&self) -> Option<Touch> {
        let stmt = self.culprit?.stmt;
        match (self.fault?.kind, stmt) {
            (
                FaultKind::OutOfBuffer,
                Stmt::Do(Op::PrepRead(_, buffer, _, _) | Op::PrepWrite(_, buffer, _, _, _)),
            ) => Some(Touch {
                verb: Verb::Store,
                buffer,
            }),
            (FaultKind::WriteOfPending | FaultKind::ReadOfFilling, _) => touch_of(stmt),
            (FaultKind::ThreadRace | FaultKind::OutOfBuffer, _) => touch_of(stmt),
            _ => None,
        }
    }
}

/// What a statement does with a buffer.
pub fn touch_of(stmt: Stmt) -> Option<Touch> {
    let (verb, buffer) = match stmt {
        Stmt::Do(Op::Load(_, buffer, _)) => (Verb::Load, buffer),
        Stmt::Do(Op::Store(buffer, _, _)) => (Verb::Store, buffer),
        Stmt::Do(Op::Fill(buffer, _)) => (Verb::Fill, buffer),
        _ => return None,
    };
    Some(Touch { verb, buffer })
}

/// A thread that has a line next.
fn turn_of(world: &World<'_>, thread: u32) -> Option<Turn> {
    let line = world.line(thread)?;
    Some(Turn {
        thread,
        line: line.number,
        stmt: line.stmt,
    })
}

fn culprit_of(world: &World<'_>, fault: Option<Fault>) -> Option<Turn> {
    match fault?.party {
        Party::At { thread, .. } => turn_of(world, thread),
        Party::InKernel => None,
    }
}

/// Of a race the first thread after this one that is about to touch the same buffer, where one of both writes it.
fn rival_of(world: &World<'_>, fault: Option<Fault>, culprit: Option<Turn>) -> Option<Turn> {
    let culprit = culprit?;
    if fault?.kind != FaultKind::ThreadRace {
        return None;
    }
    let touch = touch_of(culprit.stmt)?;
    for thread in culprit.thread.saturating_add(1)..world.program().threads().len() as u32 {
        if let Some(rival) = turn_of(world, thread) {
            if matches!(touch_of(rival.stmt), Some(other) if races(touch, other)) {
                return Some(rival);
            }
        }
    }
    None
}

/// Whether both touch one buffer, and one of them writes it.
fn races(one: Touch, other: Touch) -> bool {
    match (one.verb, other.verb) {
        (Verb::Load, Verb::Load) => false,
        _ => one.buffer == other.buffer,
    }
}

/// Whether a program takes the lock of one side without the other.
fn has_sides(program: &Program) -> bool {
    for thread in program.threads() {
        for line in &thread.lines {
            if matches!(line.stmt, Stmt::Lock(locks) if locks != BOTH) {
                return true;
            }
        }
    }
    false
}
