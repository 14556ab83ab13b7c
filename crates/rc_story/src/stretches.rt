//! The rows of a picture, and the rounds of loops that are drawn once.

ghost use Rattle.std.specs.Prelude.{◌≤◌, length};

use crate::frames::Frame;
use crate::run::Run;
use rc_lang::lines::{Line, Stmt, Test};
use rc_world::event::{Action, Event};
use rc_world::fault::FaultKind;
use std::alloc::{AllocError, Global};

/// A row. Events are named by their numbers, from 1.
#[derive(Clone, Copy)]
pub enum Stretch {
    /// The events that are left out: those up to this.
    Before(u64),
    /// An event.
    Event(u64),
    /// Rounds of a thread that come so many times more, in the events from the first to the last.
    Again {
        thread: u32,
        count: u64,
        first: u64,
        last: u64,
    },
    /// The fault.
    Fault,
    /// The other thread of a race.
    Rival,
    /// Nothing.
    Empty,
}

impl Stretch {
    /// The number of the last event that a row stands for, of so many.
    pub fn last(self, count: u64) -> u64 {
        match self {
            Stretch::Before(number) | Stretch::Event(number) => number,
            Stretch::Again { last, .. } => last,
            Stretch::Fault | Stretch::Rival | Stretch::Empty => count,
        }
    }

    /// Whether a row is one of a fault. Those come last.
    pub fn is_fault(self) -> bool {
        matches!(self, Stretch::Fault | Stretch::Rival)
    }
}

/// The rows of a run, of whose events no more are left out than there are.
pub fn stretches_of(alloc: Global, run: &Run<'_, '_>) -> Result<Vec<Stretch>, AllocError> {
    let mut rows = Vec::new(alloc);
    if run.cut > 0 {
        rows.push(Stretch::Before(run.cut))?;
    }
    push_events(&mut rows, run.frames, run.cut as usize)?;
    if run.fault.is_some() {
        rows.push(Stretch::Fault)?;
    }
    if matches!(run.fault, Some(fault) if fault.kind == FaultKind::ThreadRace) {
        rows.push(Stretch::Rival)?;
    }
    if rows.is_empty() {
        rows.push(Stretch::Empty)?;
    }
    Ok(rows)
}

/// Adds the rows of the events from a place on.
fn push_events(rows: &mut Vec<Stretch>, frames: &[Frame], from: usize) -> Result<(), AllocError> {
    // Where the next row begins, and the round that is under way.
    let mut next = from;
    let mut round = None;
    for at in from..frames.len() {
        if at < next {
            continue;
        }
        if round.is_none() {
            round = round_at(frames, at);
        }
        let row = match round {
            Some(Round { told, end, again }) if told == at => {
                next = end;
                round = None;
                again
            }
            _ => Stretch::Event(at as u64 + 1),
        };
        rows.push(row)?;
    }
    Ok(())
}

/// A round that repeats: the place after it, the place after its repeats, and their row.
#[derive(Clone, Copy)]
struct Round {
    told: usize,
    end: usize,
    again: Stretch,
}

/// The round that begins at a place, if it repeats at least twice.
fn round_at(frames: &[Frame], at: usize) -> Option<Round> {
    let rest = frames.get(at..)?;
    let Event::ByThread { thread, .. } = rest.first()?.event else {
        return None;
    };
    let size = round_size(rest, thread);
    let count = repeats(rest, size);
    if count < 2 {
        return None;
    }
    let told = at.saturating_add(size);
    let end = told.saturating_add(size.saturating_mul(count));
    let again = Stretch::Again {
        thread,
        count: count as u64,
        first: (told as u64).saturating_add(1),
        last: end as u64,
    };
    Some(Round { told, end, again })
}

/// The length of the round of a thread that these events begin with, or 0 if they begin with none.
fn round_size(frames: &[Frame], thread: u32) -> usize
    ensures { result ≤ length frames.now }
{
    let Some((first, others)) = frames.split_first() else {
        return 0;
    };
    if !matches!(
        first.event,
        Event::ByThread {
            action: Action::Looped,
            ..
        }
    ) {
        return 0;
    }
    for i in 0..others.len() {
        if others[i].event == first.event {
            return i + 1;
        }
        if !is_quiet(others[i], thread) {
            return 0;
        }
    }
    0
}

/// How many times the first so many events, which are quiet, come again at once.
fn repeats(frames: &[Frame], size: usize) -> usize
    requires { size ≤ length frames.now }
{
    if size == 0 {
        return 0;
    }
    let mut alike: usize = 0;
    for (frame, later) in frames.iter().zip(&frames[size..]) {
        if frame.event != later.event {
            return alike / size;
        }
        alike = alike.saturating_add(1);
    }
    alike / size
}

/// Whether an event is one of this thread, and moves nothing that is drawn but the lock.
fn is_quiet(frame: Frame, mover: u32) -> bool {
    let Event::ByThread { thread, action, .. } = frame.event else {
        return false;
    };
    let is_step = match action {
        Action::VariableSet(_) | Action::Printed(_) => true,
        Action::Locked(_) | Action::Released(_) | Action::PeekedNone => true,
        Action::Looped | Action::LoopLeft | Action::Branched(false) => true,
        Action::Branched(true) => !matches!(
            frame.line,
            Some(Line {
                stmt: Stmt::If(Test::Take(_, _)),
                ..
            })
        ),
        Action::Submitted(answer) => answer <= 0,
        _ => false,
    };
    thread == mover && is_step
}
