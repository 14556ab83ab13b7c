//! Runs that hang: a run after which nothing goes on any more is looked for in a program, accepted or refused.

ghost use Rattle.std.specs.Prelude.{◌≡◌, IfOk, false, true};
ghost use Rattle.rc_read.specs.Answer.{answer_of};
ghost use Rattle.rc_runs.specs.Stuck.{IsStuck};
ghost use Rattle.rc_runs.specs.StuckRuns.{IsStuckFound, IsStuckSearched};
ghost use Rattle.rc_world.specs.Trace.{all_ended};

use self::closing::{goes_on, is_closed};
pub use self::probe::seems_stuck;
use self::search::search_for_stuck;
use rc_lang::program::Program;
use rc_read::{ReadFault, read_program};
use rc_report::check_engine::verdict_on;
use rc_report::verdict::Verdict;
use rc_world::event::Item;
use rc_world::world::World;
use std::alloc::{AllocError, Global};

mod closing;
mod kept;
mod probe;
mod quiet;
mod run;
mod same;
mod search;

/// How many worlds are reached at most from one that is asked for.
const MOST_WORLDS: usize = 20_000;

/// The verdict on a model, and what was found in its program. None: it is no program.
#[derive(Drop)]
pub struct StuckFound {
    pub verdict: Verdict,
    pub searched: Option<StuckSearched>,
}

/// A program, and what a search through it found.
#[derive(Drop)]
pub struct StuckSearched {
    pub program: Program,
    pub search: StuckSearch,
}

/// What a search for a stuck world found.
#[derive(Drop)]
pub struct StuckSearch {
    /// How many walks were made. The last of them came to the stuck world, if one did.
    pub walks: u32,
    /// The run that was found.
    pub run: Option<StuckRun>,
}

/// A run into a stuck world.
#[derive(Drop)]
pub struct StuckRun {
    /// Its items: each makes one event.
    pub items: Vec<Item>,
    /// The moves that spell them, as text; of no items an empty one.
    pub moves: String,
    /// Its trace, as text.
    pub trace: String,
}

/// Checks a model. In its program, accepted or refused, a run into a stuck world is looked for, by at most so many random
/// walks with the choices of this seed.
pub fn find_stuck(
    alloc: Global,
    bytes: &[u8],
    seed: u32,
    walks: u32,
) -> Result<StuckFound, AllocError>
    ensures { IfOk result (IsStuckFound (answer_of bytes.now) walks) }
{
    let verdict = verdict_on(alloc, bytes)?;
    let searched = search_model(alloc, bytes, seed, walks)?;
    Ok(StuckFound { verdict, searched })
}

/// Reads a model, and looks for a run into a stuck world where it is a program.
fn search_model(
    alloc: Global,
    bytes: &[u8],
    seed: u32,
    walks: u32,
) -> Result<Option<StuckSearched>, AllocError>
    ensures { IfOk result (IsStuckSearched (answer_of bytes.now) walks) }
{
    match read_program(alloc, bytes) {
        Ok(program) => {
            let search = search_for_stuck(alloc, &program, seed, walks)?;
            Ok(Some(StuckSearched { program, search }))
        }
        Err(ReadFault::Text { .. }) => Ok(None),
        Err(_) => Err(AllocError),
    }
}

/// Whether a world is stuck: nothing goes on from it any more. It is said only where it was found out: the worlds that are
/// reached by steps that move nothing are few enough, none of them has a fault or a step that moves something, and none of
/// these steps stores or fills.
pub fn is_stuck(alloc: Global, world: &World<'_>) -> Result<bool, AllocError>
    ensures { IfOk result (λ yes. yes ≡ true → IsStuck world.now) }
{
    is_stuck_within(alloc, world, MOST_WORLDS)
}

/// The same, where only so many worlds are reached at most.
pub fn is_stuck_within(alloc: Global, world: &World<'_>, most: usize) -> Result<bool, AllocError>
    ensures { IfOk result (λ yes. yes ≡ true → IsStuck world.now) }
{
    if have_all_ended(world) {
        return Ok(false);
    }
    is_closed(alloc, world, most)
}

/// Whether every thread has ended.
fn have_all_ended(world: &World<'_>) -> bool
    ensures { result ≡ false → all_ended world.now ≡ false }
{
    let count = world.program().threads().len();
    for thread in 0..count as u32 {
        if goes_on(world, thread) {
            return false;
        }
    }
    true
}
