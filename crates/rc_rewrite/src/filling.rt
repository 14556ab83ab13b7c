//! The loops of a model, filled thread by thread.

use crate::change::{Trial, Walked, walk};
use crate::fill::{Fill, Fills, Listed, Progress};
use crate::held::Held;
use crate::kept::Kept;
use crate::parted::has_when;
use crate::row::row_of;
use crate::source::{Source, end_of};
use crate::stretch::{Stretch, stretch_end};
use rc_lang::lines::{Line, Stmt};
use rc_lang::program::{Program, Thread};
use rc_read::source::Lines;
use std::alloc::{AllocError, Global};

/// A loop that is gone through, with no other block than loops around it.
#[derive(Drop)]
struct OpenLoop {
    line: u32,
    /// The place of its line.
    place: usize,
    /// What is held where its breaks so far join.
    left: Held,
}

/// Where the filling of a thread has come to: a place, what is held there, and which loops are open. No other block is.
#[derive(Drop)]
struct Front {
    place: usize,
    held: Held,
    open: Vec<OpenLoop>,
}

/// Whether a thread is gone through further.
#[derive(Clone, Copy)]
enum Goes {
    On,
    /// It is filled, or a line stays refused.
    Done,
    /// Only the thread as a whole can be walked over.
    Whole,
}

/// The items that the loops of a model are filled with. Copies have the loops of the first.
pub fn fills_of(alloc: Global, program: &Program, lines: &Lines<'_>) -> Result<Fills, AllocError> {
    let mut fills = Fills::new(alloc);
    for part in program.threads() {
        if !part.is_further() {
            fill_part(alloc, &*program, &*lines, &*part, &mut fills)?;
        }
    }
    Ok(fills)
}

/// Fills the loops of a thread of a model.
fn fill_part<'a>(
    alloc: Global,
    program: &'a Program,
    lines: &'a Lines<'a>,
    part: &'a Thread,
    fills: &mut Fills,
) -> Result<(), AllocError> {
    let source = Source {
        alloc,
        program,
        lines,
        part,
    };
    fill_thread(source, fills)
}

/// Fills the loops of a thread. What a loop keeps has to be held where it begins and where it ends: no more is asked of
/// one that no other block is around. So only what is between such loops is walked over.
fn fill_thread(source: Source<'_>, fills: &mut Fills) -> Result<(), AllocError> {
    let mut front = Front {
        place: 0,
        held: Held {
            zero: Some(row_of(source.alloc, source.program, &source.part.items)?),
            other: None,
        },
        open: Vec::new(source.alloc),
    };
    let steps = source.most_changes()?.saturating_mul(4097);
    for _ in 0..steps {
        match step(source, fills, &mut front)? {
            Goes::On => {}
            Goes::Done => return Ok(()),
            Goes::Whole => return fill_whole(source, fills),
        }
    }
    Ok(())
}

/// Fills the loops of a thread by walks over all of it.
fn fill_whole(source: Source<'_>, fills: &mut Fills) -> Result<(), AllocError> {
    let stretch = Stretch::whole(source)?;
    for _ in 0..source.most_changes()? {
        let Walked::GoneBack(_) = walked(source, fills, &stretch)? else {
            return Ok(());
        };
    }
    Ok(())
}

/// Walks over a stretch until no items of its loops change. A loop whose line gets too long stays as it is.
fn walked(source: Source<'_>, fills: &mut Fills, stretch: &Stretch) -> Result<Walked, AllocError> {
    let mut changed: Option<u32> = None;
    for _ in 0..source.most_changes()? {
        changed = match (read_and_walked(source, fills, stretch)?, changed) {
            (Walked::Filled(line), _) => Some(line),
            (Walked::Unread, Some(line)) => {
                fills.leave(line);
                None
            }
            (walked, _) => return Ok(walked),
        };
    }
    Ok(Walked::Refused)
}

/// Reads a stretch and walks over it.
fn read_and_walked(
    source: Source<'_>,
    fills: &mut Fills,
    stretch: &Stretch,
) -> Result<Walked, AllocError> {
    let Some(program) = stretch.read(source, fills)? else {
        return Ok(Walked::Unread);
    };
    if program.threads().is_empty() {
        return Ok(Walked::Unread);
    }
    let trial = Trial {
        source,
        program: &program,
        shift: stretch.shift(source),
        begin: stretch.begin,
        end: stretch.end,
        blocks: stretch.blocks(),
    };
    walk(trial, fills)
}

/// Goes over a loop's line or its end, or over a stretch.
fn step(source: Source<'_>, fills: &mut Fills, front: &mut Front) -> Result<Goes, AllocError> {
    let Some(line) = source.part.lines.get(front.place) else {
        return Ok(Goes::Done);
    };
    match line.stmt {
        Stmt::Loop(list) => enter(source, fills, front, *line, list),
        Stmt::EndLoop(_, _) => leave(source, fills, front),
        _ => pass(source, fills, front),
    }
}

/// Goes into a loop, with what it keeps. One that nothing reaches is passed over.
fn enter(
    source: Source<'_>,
    fills: &mut Fills,
    front: &mut Front,
    line: Line,
    list: usize,
) -> Result<Goes, AllocError> {
    if !front.held.is_reached() {
        front.place = after_block(source.part, front.place);
        return Ok(Goes::On);
    }
    let fill = match fills.on(line.number) {
        None => Some(first_fill(source, front, line, list)?),
        Some(old) => lesser_fill(source, old, &front.held, false)?,
    };
    if let Some(fill) = fill {
        put_if_room(source, fills, fill)?;
    }
    match fills.on(line.number) {
        Some(fill) if front.has(fill.kept()) => front.begin(source, fill, front.place),
        _ => Ok(Goes::Done),
    }
}

/// The place after the block that begins at this one.
fn after_block(part: &Thread, place: usize) -> usize {
    let end = part.ends.get(place).copied();
    end.unwrap_or(place).saturating_add(1)
}

/// A loop that wasn't met before is filled with what is there.
fn first_fill(
    source: Source<'_>,
    front: &Front,
    line: Line,
    list: usize,
) -> Result<Fill, AllocError> {
    let (alloc, program) = (source.alloc, source.program);
    let own = match source.part.lists.get(list) {
        Some(items) => Kept::of(alloc, program, items)?,
        None => Kept::most(alloc, program)?,
    };
    let mut kept = Kept::most(alloc, program)?;
    kept.lessen_to(&front.held, names_flag(source, line.number));
    let end = end_of(source.part, front.place).unwrap_or(line.number);
    let (own, items) = (
        spelt(source, line.number, own)?,
        spelt(source, line.number, kept)?,
    );
    Ok(Fill::first(line.number, end, own, items))
}

/// A loop with no more than is held, if that is less than it keeps and its items may become less.
fn lesser_fill(
    source: Source<'_>,
    old: &Fill,
    held: &Held,
    is_end: bool,
) -> Result<Option<Fill>, AllocError> {
    let Listed { zero, other, .. } = old.kept();
    if old.progress != Progress::Open || held.covers(zero, other) {
        return Ok(None);
    }
    let mut kept = Kept::rows(source.alloc, zero, other)?;
    kept.lessen_to(held, names_flag(source, old.line));
    let items = spelt(source, old.line, kept)?;
    Ok(Some(old.lesser(items, is_end)?))
}

/// Whether the line with this number names the flag.
fn names_flag(source: Source<'_>, number: u32) -> bool {
    has_when(source.lines.line(number))
}

/// What the loop of the line with this number keeps, and that as the line has it.
fn spelt(source: Source<'_>, number: u32, kept: Kept) -> Result<Listed, AllocError> {
    let flag = if names_flag(source, number) {
        source.flag()
    } else {
        None
    };
    let mut text = Vec::new(source.alloc);
    kept.put(&mut text, source.program, flag, false)?;
    Ok(Listed {
        zero: kept.zero,
        other: kept.other,
        text,
    })
}

/// Puts the items of a loop in the place of those that it had. If its line gets too long, it stays as it is.
fn put_if_room(source: Source<'_>, fills: &mut Fills, fill: Fill) -> Result<(), AllocError> {
    let line = fill.line;
    let has_room = source.has_room(&fill)?;
    fills.put(fill)?;
    if !has_room {
        fills.leave(line);
    }
    Ok(())
}

/// Goes to what is after a loop, or to its top again, with what is held at its end.
fn leave(source: Source<'_>, fills: &mut Fills, front: &mut Front) -> Result<Goes, AllocError> {
    let Some(open) = front.open.pop() else {
        return Ok(Goes::Done);
    };
    let Some(fill) = fills.on(open.line) else {
        return Ok(Goes::Done);
    };
    if front.has(fill.kept()) {
        front.held = open.left;
        front.place = front.place.saturating_add(1);
        return Ok(Goes::On);
    }
    let Some(lesser) = lesser_fill(source, fill, &front.held, true)? else {
        return Ok(Goes::Done);
    };
    let goes = front.begin(source, &lesser, open.place)?;
    fills.put(lesser)?;
    Ok(goes)
}

/// Goes over a stretch. What nothing reaches is passed over.
fn pass(source: Source<'_>, fills: &mut Fills, front: &mut Front) -> Result<Goes, AllocError> {
    let end = stretch_end(source.part, front.place);
    if !front.held.is_reached() {
        front.place = end;
        return Ok(Goes::On);
    }
    let Some(stretch) = Stretch::between(source, front.place, end, &front.held)? else {
        return Ok(Goes::Whole);
    };
    match walked(source, fills, &stretch)? {
        Walked::Ended { held, left } => {
            front.place = end;
            front.held = held;
            front.join(left);
            Ok(Goes::On)
        }
        Walked::GoneBack(line) => front.go_back(source, fills, line),
        Walked::Unread => Ok(Goes::Whole),
        Walked::Filled(_) | Walked::Refused => Ok(Goes::Done),
    }
}

impl Front {
    /// Whether all of this is held.
    fn has(&self, kept: &Listed) -> bool {
        self.held.covers(&kept.zero, &kept.other)
    }

    /// Is at the top of a loop.
    fn begin(&mut self, source: Source<'_>, fill: &Fill, place: usize) -> Result<Goes, AllocError> {
        let Listed { zero, other, .. } = fill.kept();
        self.held = Held {
            zero: Some(zero.clone()?),
            other: match source.flag() {
                Some(_) => Some(other.clone()?),
                None => None,
            },
        };
        self.place = place.saturating_add(1);
        self.open.push(OpenLoop {
            line: fill.line,
            place,
            left: Held::nowhere(),
        })?;
        Ok(Goes::On)
    }

    /// Is at the top of the loop on this line, if it is gone through.
    fn go_back(
        &mut self,
        source: Source<'_>,
        fills: &Fills,
        line: u32,
    ) -> Result<Goes, AllocError> {
        let Some(depth) = self.open.iter().position(|open| open.line == line) else {
            return Ok(Goes::On);
        };
        let place = self.open[depth].place;
        self.open.truncate(depth);
        match fills.on(line) {
            Some(fill) => self.begin(source, fill, place),
            None => Ok(Goes::Done),
        }
    }

    /// Breaks of the innermost loop join those before.
    fn join(&mut self, left: Held) {
        if let Some(open) = self.open.last_mut() {
            open.left.join(left);
        }
    }
}
