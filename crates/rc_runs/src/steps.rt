//! A model, and the steps of its program.

ghost use Rattle.std.specs.Prelude.{IfOk};
ghost use Rattle.rc_read.specs.Answer.{answer_of};
ghost use Rattle.rc_runs.specs.Moved.{ReadsMoved};
ghost use Rattle.rc_runs.specs.Scripts.{ReadsItems, ReadsScript};
ghost use Rattle.rc_world.specs.Schedule.{items_of};

use crate::moves::{Move, read_moves};
use crate::spelling::spell;
use rc_read::{ReadFault, read_program};
use rc_report::script::Script;
use rc_report::step_engine::{NoSteps, Steps, read_steps};
use rc_world::schedule::ScheduleFault;
use std::alloc::{AllocError, Global};

/// A program and the items of its schedule; where moves spell it the moves, and how many items each of them spells.
#[derive(Drop)]
pub struct Moved {
    pub steps: Steps,
    pub moves: Vec<Move>,
    pub counts: Vec<u64>,
}

/// Reads a program and its steps.
pub fn read_script(
    alloc: Global,
    text: &[u8],
    script: &Script<'_>,
) -> Result<Result<Moved, NoSteps>, AllocError>
    ensures { IfOk result (ReadsScript (answer_of text.now) script.now) }
{
    match script {
        Script::Schedule(schedule) => read_items(alloc, text, schedule),
        Script::Moves(moves) => read_moved(alloc, text, moves),
    }
}

/// Reads a program and its schedule.
fn read_items(
    alloc: Global,
    text: &[u8],
    schedule: &str,
) -> Result<Result<Moved, NoSteps>, AllocError>
    ensures { IfOk result (ReadsItems (λ program. items_of program schedule.now) (answer_of text.now)) }
{
    let read = read_steps(alloc, text, schedule)?;
    match read {
        Ok(steps) => Ok(Ok(Moved {
            steps,
            moves: Vec::new(alloc),
            counts: Vec::new(alloc),
        })),
        Err(unread) => Ok(Err(unread)),
    }
}

/// Reads a program and its moves.
pub fn read_moved(
    alloc: Global,
    text: &[u8],
    moves: &[u8],
) -> Result<Result<Moved, NoSteps>, AllocError>
    ensures { IfOk result (ReadsMoved (answer_of text.now) moves.now) }
{
    let program = match read_program(alloc, text) {
        Ok(program) => program,
        Err(ReadFault::Text { line, cause }) => return Ok(Err(NoSteps::Text { line, cause })),
        Err(ReadFault::OutOfMemory) => return Err(AllocError),
    };
    let moves = match read_moves(alloc, &program, moves) {
        Ok(moves) => moves,
        Err(ScheduleFault::Unreadable(piece)) => return Ok(Err(NoSteps::Schedule(piece))),
        Err(ScheduleFault::OutOfMemory) => return Err(AllocError),
    };
    let spelled = spell(alloc, &program, &moves)?;
    Ok(Ok(Moved {
        steps: Steps {
            program,
            items: spelled.items,
        },
        moves,
        counts: spelled.counts,
    }))
}
