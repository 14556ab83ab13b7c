//! A run into a fault, as it is shown.

ghost use Rattle.std.specs.Prelude.{IfOk};
ghost use Rattle.rc_runs.specs.Harms.{IsHarmful, IsHarmIfAny, IsSpelledBy};

use crate::moves::{has_stop, read_moves};
use crate::moves_text::put_moves;
use crate::spelling::spell;
use crate::step::make;
use rc_lang::program::Program;
use rc_report::stepping::write_run;
use rc_report::streams::WriteSink;
use rc_report::trace::End;
use rc_world::event::Item;
use rc_world::fault::Fault;
use rc_world::schedule::ScheduleFault;
use rc_world::world::World;
use std::alloc::{AllocError, Global};

/// A run into a fault.
#[derive(Drop)]
pub struct Harm {
    /// Its items.
    pub items: Vec<Item>,
    /// The moves that spell them, as text; of no items an empty one.
    pub moves: String,
    /// Its trace, as text.
    pub trace: String,
    /// The fault at which it ends.
    pub fault: Fault,
    /// Whether a thread comes to the line that was refused, if one can stand there.
    pub is_reached: bool,
}

/// The trace of a run, as text, and the fault at which it ends.
#[derive(Drop)]
struct Harmful {
    trace: Vec<u8>,
    fault: Fault,
}

/// Shows a run that was found in a program whose verdict refuses this line. Its moves are written, read again and stepped;
/// none if that run doesn't end at a fault.
pub fn harm_of(
    alloc: Global,
    program: &Program,
    line: u32,
    found: &[Item],
) -> Result<Option<Harm>, AllocError>
    ensures { IfOk result (IsHarmIfAny program.now) }
{
    let mut moves = Vec::new(alloc);
    put_moves(&mut moves, program, found)?;
    let Some(items) = spelled_items(alloc, program, &moves)? else {
        return Ok(None);
    };
    let Some(Harmful { trace, fault }) = harmful_run(alloc, program, &items)? else {
        return Ok(None);
    };
    let (Ok(moves), Ok(trace)) = (String::from_utf8(moves), String::from_utf8(trace)) else {
        return Ok(None);
    };
    Ok(Some(Harm {
        is_reached: !can_stand(program, line) || reaches(alloc, program, &items, line)?,
        items,
        moves,
        trace,
        fault,
    }))
}

/// The items of the schedule that moves spell, where they can be read.
pub fn spelled_items(
    alloc: Global,
    program: &Program,
    moves: &[u8],
) -> Result<Option<Vec<Item>>, AllocError>
    ensures { IfOk result (IsSpelledBy program.now moves.now) }
{
    match read_moves(alloc, program, moves) {
        Ok(moves) => {
            let spelled = spell(alloc, program, &moves)?;
            Ok(Some(spelled.items))
        }
        Err(ScheduleFault::Unreadable(_)) => Ok(None),
        Err(ScheduleFault::OutOfMemory) => Err(AllocError),
    }
}

/// The trace of the run that these items name and its fault, where it ends at one.
fn harmful_run(
    alloc: Global,
    program: &Program,
    items: &[Item],
) -> Result<Option<Harmful>, AllocError>
    ensures { IfOk result (IsHarmful program.now items.now) }
{
    let mut world = World::start(alloc, program)?;
    let mut sink = WriteSink::new(Vec::new(alloc));
    let Ok(end) = write_run(&mut world, items, &mut sink) else {
        return Err(AllocError);
    };
    match end {
        End::Fault(fault) => Ok(Some(Harmful {
            trace: sink.writer,
            fault,
        })),
        _ => Ok(None),
    }
}

/// Whether a thread can stand at the line with this number.
fn can_stand(program: &Program, number: u32) -> bool {
    for thread in program.threads() {
        if has_stop(&thread.lines, number) {
            return true;
        }
    }
    false
}

/// Whether a thread comes to the line with this number in the run that these items name.
fn reaches(
    alloc: Global,
    program: &Program,
    items: &[Item],
    number: u32,
) -> Result<bool, AllocError> {
    let mut world = World::start(alloc, program)?;
    for (place, item) in items.iter().enumerate() {
        if is_at(&world, number) {
            return Ok(true);
        }
        make(&mut world, item)?;
    }
    Ok(is_at(&world, number))
}

/// Whether a thread has the line with this number next.
fn is_at(world: &World<'_>, number: u32) -> bool {
    for thread in 0..world.program().threads().len() as u32 {
        if matches!(world.line(thread), Some(line) if line.number == number) {
            return true;
        }
    }
    false
}
