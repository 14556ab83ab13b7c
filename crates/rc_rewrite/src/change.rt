//! What a walk over a stretch of a thread says of the items of its loops.

ghost use Rattle.std.specs.Prelude.{◌<◌, length};

use crate::fill::{Fill, Fills, Listed, Progress};
use crate::held::Held;
use crate::kept::{Kept, sq_on};
use crate::parted::has_when;
use crate::source::{Source, end_of};
use rc_lang::lines::{Line, Stmt};
use rc_lang::program::{Program, Thread};
use rc_rules::cause::Cause;
use rc_rules::mode::{Slot, unlocked};
use rc_rules::side::Side;
use rc_rules::state::State;
use rc_verify::labels::Labels;
use std::alloc::AllocError;

/// A stretch as it is walked over: its program, what is added to the numbers of its lines for those of the source, the
/// place of its first line, and the one after its lines.
#[derive(Clone, Copy)]
pub struct Trial<'a> {
    pub source: Source<'a>,
    pub program: &'a Program,
    pub shift: u32,
    pub begin: usize,
    pub end: usize,
    /// How many blocks are open there.
    pub blocks: usize,
}

/// What a walk came to.
#[derive(Drop)]
pub enum Walked {
    /// The items of the loop on this line are others now.
    Filled(u32),
    /// A line is refused, and the loop on this line, which is around it, has gone back to earlier items.
    GoneBack(u32),
    /// A line is refused, and no other items help.
    Refused,
    /// It can't be read as a model of its own.
    Unread,
    /// All of its lines were walked over. This is held after them, and where its breaks join, if something comes there.
    Ended { held: Held, left: Held },
}

/// A loop of a thread: the numbers of its line and of the line that ends it, in the source, and that of its items among
/// the thread's lists.
#[derive(Clone, Copy)]
struct LoopAt<'a> {
    part: &'a Thread,
    line: u32,
    end: u32,
    list: usize,
}

/// Walks over a stretch up to the first loop whose items change: one that is reached and wasn't met before is filled
/// with what is there, and one that is refused for its items is filled with less. If that is too little for a line in
/// it, it goes back to what it had. Not inlined: 46 KB of stack.
#[inline(never)]
pub fn walk(trial: Trial<'_>, fills: &mut Fills) -> Result<Walked, AllocError>
    requires { 0 < length trial.program.now.threads }
{
    let mut labels = Labels::new(trial.program, 0);
    let part = labels.thread();
    for line in &part.lines {
        if labels.place() == trial.end {
            break;
        }
        if labels.place() >= trial.begin && is_filled(trial, fills, part, *line, &labels)? {
            return Ok(Walked::Filled(trial.number(*line)));
        }
        if let Err(cause) = labels.next() {
            return refused(trial, fills, part, *line, cause, labels.state());
        }
    }
    let held = Held::of(trial.source.alloc, labels.state())?;
    for _ in 0..trial.blocks.saturating_add(2) {
        let _ = labels.next();
    }
    let left = Held::of(trial.source.alloc, labels.state())?;
    Ok(Walked::Ended { held, left })
}

impl Trial<'_> {
    /// The number of a line in the source.
    fn number(&self, line: Line) -> u32 {
        line.number.wrapping_add(self.shift)
    }
}

/// Fills the loop of a line, if it opens one that is reached and wasn't met before. Whether the model is another then.
fn is_filled(
    trial: Trial<'_>,
    fills: &mut Fills,
    part: &Thread,
    line: Line,
    labels: &Labels<'_>,
) -> Result<bool, AllocError> {
    let Stmt::Loop(list) = line.stmt else {
        return Ok(false);
    };
    let state = labels.state();
    let is_reached = state.on(true).is_live() || state.on(false).is_live();
    if !is_reached || fills.on(trial.number(line)).is_some() {
        return Ok(false);
    }
    let at = loop_at(trial, part, line, labels.place(), list);
    let fill = first_fill(trial, at, state)?;
    let is_change = fill.is_change();
    fills.put(fill)?;
    Ok(is_change)
}

/// The loop at a place.
fn loop_at<'a>(
    trial: Trial<'_>,
    part: &'a Thread,
    line: Line,
    place: usize,
    list: usize,
) -> LoopAt<'a> {
    LoopAt {
        part,
        line: trial.number(line),
        end: end_of(part, place)
            .unwrap_or(line.number)
            .wrapping_add(trial.shift),
        list,
    }
}

/// What changes at a refused line: its loop gets less, or a loop around it goes back.
fn refused(
    trial: Trial<'_>,
    fills: &mut Fills,
    part: &Thread,
    line: Line,
    cause: Cause,
    state: &State,
) -> Result<Walked, AllocError> {
    let Some(at) = refused_loop(trial, part, line, cause) else {
        return gone_back(fills, trial.number(line));
    };
    match lesser_fill(trial, fills, at, cause, state)? {
        Some(fill) => {
            fills.put(fill)?;
            Ok(Walked::Filled(at.line))
        }
        None => Ok(Walked::Refused),
    }
}

/// A loop around a refused line goes back to what it had.
fn gone_back(fills: &mut Fills, line: u32) -> Result<Walked, AllocError> {
    Ok(match fills.go_back(line)? {
        Some(top) => Walked::GoneBack(top),
        None => Walked::Refused,
    })
}

/// The loop of a refused line, if it is refused for the loop's items.
fn refused_loop<'a>(
    trial: Trial<'_>,
    part: &'a Thread,
    line: Line,
    cause: Cause,
) -> Option<LoopAt<'a>> {
    match (line.stmt, cause) {
        (Stmt::Loop(list), Cause::LoopEntry) => Some(loop_at(trial, part, line, 0, list)),
        (Stmt::EndLoop(place, list), Cause::LoopBody) => Some(loop_at(
            trial,
            part,
            *part.lines.get(place)?,
            place,
            list,
        )),
        _ => None,
    }
}

/// A loop that wasn't met before is filled with what is there.
fn first_fill(trial: Trial<'_>, at: LoopAt<'_>, state: &State) -> Result<Fill, AllocError> {
    let kept = Kept::most(trial.source.alloc, trial.program)?;
    let own = spelt(trial, at, state, listed(trial, at)?)?;
    let items = spelt(trial, at, state, lessened(trial, at, state, kept)?)?;
    Ok(Fill::first(at.line, at.end, own, items))
}

/// A loop that was filled is filled with less. One where an entry is open can't be helped, and stays as it is in the
/// source.
fn lesser_fill(
    trial: Trial<'_>,
    fills: &Fills,
    at: LoopAt<'_>,
    cause: Cause,
    state: &State,
) -> Result<Option<Fill>, AllocError> {
    let Some(old) = fills.on(at.line) else {
        return Ok(None);
    };
    if old.progress != Progress::Open {
        return Ok(None);
    }
    let kept = lessened(trial, at, state, listed(trial, at)?)?;
    let items = spelt(trial, at, state, kept)?;
    let is_helped = !has_open_entry(state) && items.text.as_slice() != old.items.text.as_slice();
    let is_end = matches!(cause, Cause::LoopBody);
    let mut fill = old.lesser(items, is_helped && is_end)?;
    if !is_helped {
        fill.progress = Progress::Left;
    }
    Ok(Some(fill))
}

/// What the program lists for a loop.
fn listed(trial: Trial<'_>, at: LoopAt<'_>) -> Result<Kept, AllocError> {
    match at.part.lists.get(at.list) {
        Some(items) => Kept::of(trial.source.alloc, trial.program, items),
        None => Kept::most(trial.source.alloc, trial.program),
    }
}

/// What a loop keeps, lessened to what comes to its top.
fn lessened(
    trial: Trial<'_>,
    at: LoopAt<'_>,
    state: &State,
    kept: Kept,
) -> Result<Kept, AllocError> {
    let mut kept = kept;
    kept.lessen(trial.source.alloc, state, names_flag(trial, at))?;
    Ok(kept)
}

/// Whether the loop's line names a flag.
fn names_flag(trial: Trial<'_>, at: LoopAt<'_>) -> bool {
    has_when(trial.source.lines.line(at.line))
}

/// What a loop keeps, and that as its line has it, with the flag that it names.
fn spelt(
    trial: Trial<'_>,
    at: LoopAt<'_>,
    state: &State,
    kept: Kept,
) -> Result<Listed, AllocError> {
    let flag = if names_flag(trial, at) {
        trial.source.flag()
    } else {
        None
    };
    let mut text = Vec::new(trial.source.alloc);
    kept.put(&mut text, trial.program, flag, is_locked(state))?;
    Ok(Listed {
        zero: kept.zero,
        other: kept.other,
        text,
    })
}

/// Whether an entry is open.
fn has_open_entry(state: &State) -> bool {
    sq_on(state.on(true)).slot != Slot::Closed || sq_on(state.on(false)).slot != Slot::Closed
}

/// Whether the lock of the submission side is held.
fn is_locked(state: &State) -> bool {
    has_sq_lock(state.on(true)) || has_sq_lock(state.on(false))
}

fn has_sq_lock(side: &Side) -> bool {
    side.mode().unwrap_or(unlocked()).sq.is_some()
}
