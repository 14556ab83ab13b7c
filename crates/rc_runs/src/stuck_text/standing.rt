//! Where a thread of a world is that can't go on.

use crate::stuck_text::moving::{moved, mover};
use rc_lang::lines::{Line, Op, Stmt, Test};
use rc_lang::program::{Items, Thread};
use rc_world::controls::Next;
use rc_world::event::Item;
use rc_world::world::World;
use std::alloc::{AllocError, Global};

/// How many steps are made to see where a thread goes round. The first half of them lead there.
const MOST_STEPS: u32 = 2_000;

/// Where a thread goes round, or waits for a lock.
#[derive(Clone, Copy)]
pub struct Standing {
    pub thread: u32,
    /// The place of the line that says what it waits for.
    pub place: usize,
    pub line: Line,
    /// Who has the lock for which it waits, if it waits for one.
    pub holder: Option<u32>,
}

/// Where each thread is that hasn't ended.
pub fn standings(alloc: Global, world: &World<'_>) -> Result<Vec<Standing>, AllocError> {
    let mut found = Vec::new(alloc);
    for thread in 0..world.program().threads().len() as u32 {
        if let Some(standing) = standing_of(alloc, world, thread)? {
            found.push(standing)?;
        }
    }
    Ok(found)
}

/// Where a thread is, if it hasn't ended: steps of it are made, and of who has the lock for which it waits.
fn standing_of(
    alloc: Global,
    world: &World<'_>,
    thread: u32,
) -> Result<Option<Standing>, AllocError> {
    if let Next::Ended = world.next(thread) {
        return Ok(None);
    }
    let mut later = world.copy(alloc)?;
    let mut place = None;
    for number in 0..MOST_STEPS {
        let first = mover(&later, thread);
        if first == thread && number >= MOST_STEPS / 2 {
            place = weightier(&later, thread, place);
        }
        let item = Item::Thread {
            thread: first,
            take: None,
        };
        let Some(_) = moved(&mut later, &item)? else {
            break;
        };
    }
    Ok(told(&later, thread, place))
}

/// Where a thread is that passed this place last of all that decide, or none.
fn told(later: &World<'_>, thread: u32, passed: Option<usize>) -> Option<Standing> {
    let at = later.place(thread)?;
    let holder = match (passed, later.next(thread)) {
        (None, Next::TakenLock(wanted)) => later.holders().taken_by(wanted),
        _ => None,
    };
    let place = passed.unwrap_or(at);
    let line = later.program().line_at(thread as usize, place)?;
    Some(Standing {
        thread,
        place,
        line,
        holder,
    })
}

/// Of the place at which a thread is and another the one that says more of what it waits for.
fn weightier(world: &World<'_>, thread: u32, known: Option<usize>) -> Option<usize> {
    let Some(place) = world.place(thread) else {
        return known;
    };
    let Some(other) = known else {
        return Some(place);
    };
    let here = weight_at(world, thread, place);
    let there = weight_at(world, thread, other);
    if here > there || (here == there && place < other) {
        return Some(place);
    }
    known
}

/// How much the line at a place says of what its thread waits for.
fn weight_at(world: &World<'_>, thread: u32, place: usize) -> u32 {
    let Some(line) = world.program().line_at(thread as usize, place) else {
        return 0;
    };
    match line.stmt {
        Stmt::Peek(_) | Stmt::If(Test::Take(_, _)) => 4,
        Stmt::Do(Op::Submit(_) | Op::SubmitAndWait(_, _)) => 3,
        Stmt::If(Test::ReadyZero | Test::SpaceAtLeast(_)) => 3,
        Stmt::EndLoop(_, _) => 1,
        _ => 0,
    }
}

impl Standing {
    /// What its thread holds at the top of the innermost loop around it, if there is one.
    pub fn kept<'t>(&self, thread: &'t Thread) -> Option<&'t Items> {
        let mut kept = None;
        for (place, line) in thread.lines.iter().enumerate() {
            if place > self.place {
                break;
            }
            if let Stmt::Loop(list) = line.stmt
                && thread.ends.get(place).copied().unwrap_or(0) >= self.place
            {
                kept = Some(list);
            }
        }
        thread.lists.get(kept?)
    }

    /// The number of the line of the loop at whose end its thread is.
    pub fn top(&self, thread: &Thread) -> u32 {
        match self.line.stmt {
            Stmt::EndLoop(top, _) => match thread.lines.get(top) {
                Some(line) => line.number,
                None => self.line.number,
            },
            _ => self.line.number,
        }
    }
}
