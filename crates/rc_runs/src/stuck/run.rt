//! A run into a stuck world, as it is shown.

ghost use Rattle.std.specs.Prelude.{IfOk, option_map};
ghost use Rattle.rc_runs.specs.StuckRuns.{IsStuckRunIfAny, IsStuckTrace};

use crate::harm::spelled_items;
use crate::moves_text::put_moves;
use crate::stuck::{StuckRun, is_stuck};
use rc_lang::program::Program;
use rc_report::stepping::write_run;
use rc_report::streams::WriteSink;
use rc_report::trace::End;
use rc_world::event::Item;
use rc_world::world::World;
use std::alloc::{AllocError, Global};

/// Shows a run that was found. Its moves are written, read again and stepped; none if that run doesn't end in a world that
/// is found to be stuck.
pub fn stuck_run_of(
    alloc: Global,
    program: &Program,
    found: &[Item],
) -> Result<Option<StuckRun>, AllocError>
    ensures { IfOk result (IsStuckRunIfAny program.now) }
{
    let mut moves = Vec::new(alloc);
    put_moves(&mut moves, program, found)?;
    let Some(items) = spelled_items(alloc, program, &moves)? else {
        return Ok(None);
    };
    let Some(trace) = stuck_trace(alloc, program, &items)? else {
        return Ok(None);
    };
    let (Ok(moves), Ok(trace)) = (String::from_utf8(moves), String::from_utf8(trace)) else {
        return Ok(None);
    };
    Ok(Some(StuckRun {
        items,
        moves,
        trace,
    }))
}

/// The trace of the run that these items name, where it ends in a stuck world.
fn stuck_trace(
    alloc: Global,
    program: &Program,
    items: &[Item],
) -> Result<Option<Vec<u8>>, AllocError>
    ensures { IfOk result (IsStuckTrace program.now items.now) }
{
    let mut world = World::start(alloc, program)?;
    let mut sink = WriteSink::new(Vec::new(alloc));
    let Ok(end) = write_run(&mut world, items, &mut sink) else {
        return Err(AllocError);
    };
    if matches!(end, End::Stopped) && is_stuck(alloc, &world)? {
        Ok(Some(sink.writer))
    } else {
        Ok(None)
    }
}
