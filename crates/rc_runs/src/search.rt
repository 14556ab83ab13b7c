//! A run into a fault is looked for.

ghost use Rattle.std.specs.Prelude.{IfOk};
ghost use Rattle.rc_runs.specs.Finds.{IsSearch};
ghost use Rattle.rc_runs.specs.Harms.{IsHarmIfAny};

use crate::harm::{Harm, harm_of};
use crate::numbers::compared_numbers;
use crate::random::Random;
use crate::shorten::{Goal, shorten};
use crate::walk::Walker;
use rc_lang::program::{Program, Thread};
use rc_world::fault::{Fault, Party};
use std::alloc::{AllocError, Global};

/// What a search through a program found.
#[derive(Drop)]
pub struct Search {
    /// How many walks were made. The last of them came to the fault, if one did.
    pub walks: u32,
    /// The run that was found.
    pub harm: Option<Harm>,
}

/// The number of the line that was refused, and of the thread in which it is.
#[derive(Clone, Copy)]
struct Refused {
    line: u32,
    thread: Option<u32>,
}

/// Looks for a run into a fault by so many walks at most. For the first fifth of them the fault has to be of the thread of
/// the line that was refused, and after them it may be any.
pub fn search_for(
    alloc: Global,
    program: &Program,
    line: u32,
    seed: u32,
    walks: u32,
) -> Result<Search, AllocError>
    ensures { IfOk result (IsSearch program.now walks) }
{
    let random = Random::new(seed, compared_numbers(alloc, program)?);
    let mut walker = Walker::new(alloc, program, random)?;
    let refused = Refused {
        line,
        thread: thread_of_line(program, line),
    };
    let mut made = 0;
    for number in 0..walks {
        made = number + 1;
        let of_any = number >= walks / 5;
        let harm = walk_into(alloc, program, &mut walker, number, refused, of_any)?;
        if let Some(harm) = harm {
            return Ok(Search {
                walks: made,
                harm: Some(harm),
            });
        }
    }
    Ok(Search {
        walks: made,
        harm: None,
    })
}

/// Makes the walk with this number, from 0. Where it comes to a fault of this thread, or to any, the run into it is
/// answered, made shorter.
fn walk_into(
    alloc: Global,
    program: &Program,
    walker: &mut Walker<'_>,
    number: u32,
    refused: Refused,
    of_any: bool,
) -> Result<Option<Harm>, AllocError>
    ensures { IfOk result (IsHarmIfAny program.now) }
{
    let Some(fault) = walker.walk(number)? else {
        return Ok(None);
    };
    if !(of_any || is_of(refused.thread, fault)) {
        return Ok(None);
    }
    let shorter = shorten(alloc, program, Goal::Fault(fault), &walker.items)?;
    harm_of(alloc, program, refused.line, &shorter)
}

/// Whether a fault is of this thread, or of the kernel.
fn is_of(refused: Option<u32>, fault: Fault) -> bool {
    match fault.party {
        Party::At { thread, .. } => refused == Some(thread),
        Party::InKernel => true,
    }
}

/// The number of the thread in which a line is, its header among them.
fn thread_of_line(program: &Program, number: u32) -> Option<u32> {
    for (place, thread) in program.threads().iter().enumerate() {
        if has_line(thread, number) {
            return Some(place as u32);
        }
    }
    None
}

/// Whether a line is in a thread, its header among them.
fn has_line(thread: &Thread, number: u32) -> bool {
    thread.line == number || thread.lines.iter().any(|line| line.number == number)
}
