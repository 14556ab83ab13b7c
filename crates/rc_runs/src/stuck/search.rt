//! A run into a stuck world is looked for.

ghost use Rattle.std.specs.Prelude.{IfOk};
ghost use Rattle.rc_runs.specs.StuckRuns.{IsStuckRunIfAny, IsStuckSearch};

use crate::numbers::compared_numbers;
use crate::random::Random;
use crate::shorten::{Goal, shorten};
use crate::stuck::probe::seems_stuck;
use crate::stuck::run::stuck_run_of;
use crate::stuck::{MOST_WORLDS, StuckRun, StuckSearch, is_stuck_within};
use crate::walk::Walker;
use rc_lang::program::Program;
use rc_world::event::Item;
use std::alloc::{AllocError, Global};

/// How many worlds are reached at most for each shorter run, if so few are reached from the world that was found.
const SMALL_WORLDS: usize = 100;

/// How often a world that seems stuck may turn out not to be found stuck, before none is asked any more.
const MOST_MISSES: u32 = 64;

/// How many worlds are reached then at least, where there are so many.
const FEW_WORLDS: usize = 100;

/// Looks for a run into a stuck world by so many walks at most.
pub fn search_for_stuck(
    alloc: Global,
    program: &Program,
    seed: u32,
    walks: u32,
) -> Result<StuckSearch, AllocError>
    ensures { IfOk result (IsStuckSearch program.now walks) }
{
    let random = Random::new(seed, compared_numbers(alloc, program)?);
    let mut walker = Walker::new(alloc, program, random)?;
    let mut made = 0;
    let mut misses = 0;
    for number in 0..walks {
        made = number + 1;
        let run = walk_into(alloc, program, &mut walker, number, &mut misses)?;
        if let Some(run) = run {
            return Ok(StuckSearch {
                walks: made,
                run: Some(run),
            });
        }
    }
    Ok(StuckSearch {
        walks: made,
        run: None,
    })
}

/// Makes the walk with this number, from 0. Where it comes to a stuck world, the run into it is answered, made shorter.
fn walk_into(
    alloc: Global,
    program: &Program,
    walker: &mut Walker<'_>,
    number: u32,
    misses: &mut u32,
) -> Result<Option<StuckRun>, AllocError>
    ensures { IfOk result (IsStuckRunIfAny program.now) }
{
    if !comes_to_stuck(alloc, walker, number, misses)? {
        return Ok(None);
    }
    let shorter = shorter_run(alloc, program, walker)?;
    let run = stuck_run_of(alloc, program, &shorter)?;
    if run.is_some() {
        return Ok(run);
    }
    stuck_run_of(alloc, program, &walker.items)
}

/// The items of a walk into a stuck world, made shorter.
fn shorter_run(
    alloc: Global,
    program: &Program,
    walker: &Walker<'_>,
) -> Result<Vec<Item>, AllocError> {
    let is_small = is_stuck_within(alloc, &walker.world, SMALL_WORLDS)?;
    let most = if is_small { SMALL_WORLDS } else { 0 };
    shorten(alloc, program, Goal::Stuck(most), &walker.items)
}

/// Makes the walk with this number, and answers whether it comes to a stuck world. In every other walk no submit of nothing
/// fails, so that it stays in a stuck world.
fn comes_to_stuck(
    alloc: Global,
    walker: &mut Walker<'_>,
    number: u32,
    misses: &mut u32,
) -> Result<bool, AllocError> {
    walker.may_fail = number % 2 == 0;
    if walker.walk(number)?.is_some() || *misses >= MOST_MISSES {
        return Ok(false);
    }
    if !seems_stuck(alloc, &walker.world)? {
        return Ok(false);
    }
    if is_stuck_within(alloc, &walker.world, most_worlds(*misses))? {
        return Ok(true);
    }
    *misses += 1;
    Ok(false)
}

/// How many worlds are reached after so many misses: half as many after each.
fn most_worlds(misses: u32) -> usize {
    (MOST_WORLDS >> misses.min(20)).max(FEW_WORLDS)
}
