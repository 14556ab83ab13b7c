//! The picture of a run.

ghost use Rattle.std.specs.Prelude.{◌≡◌, ◌+◌, ◌<◌, ◌≤◌, ◌^◌, IfOk};
ghost use Rattle.rc_report.specs.Engine.{end_of};
ghost use Rattle.rc_world.specs.Machine.{start_world};
ghost use Rattle.rc_world.specs.Trace.{trace_of};

use crate::file::put_file;
use crate::picture::picture_of;
use rc_lang::program::Program;
use rc_read::source::Lines;
use rc_report::stepping::write_run;
use rc_report::streams::WriteSink;
use rc_report::trace::End;
use rc_story::frames::{Frame, line_of, moment_of};
use rc_story::run::Run;
use rc_story::story::story_of;
use rc_world::event::Item;
use rc_world::fault::Fault;
use rc_world::world::{Stop, World};
use std::alloc::{AllocError, Global};

/// A run as it was stepped: its events, its trace as text, and the fault in which it ends.
#[derive(Drop)]
struct Stepped {
    frames: Vec<Frame>,
    trace: Vec<u8>,
    fault: Option<Fault>,
}

/// Adds the picture of the run that these items name from the start world on, as SVG, from the event with this number
/// on, from 1. The text is that of the world's program. The world is then that in which the run ends. Answers how its
/// trace ends, and an error only where memory ran out.
pub fn put_picture(
    drawn: &mut Vec<u8>,
    alloc: Global,
    text: &[u8],
    items: &[Item],
    from: u64,
    world: &mut World<'_>,
) -> Result<End, AllocError>
    requires { world.old ≡ start_world world.old.program }
    ensures { let run = trace_of world.old.program items.now in
        IfOk result (λ end. end ≡ end_of run.ending) }
{
    let mut sink = WriteSink::new(Vec::new(alloc));
    let Ok(end) = write_run(world, items, &mut sink) else {
        return Err(AllocError);
    };
    let stepped = Stepped {
        frames: frames_of(alloc, world.program(), items)?,
        trace: sink.writer,
        fault: match end {
            End::Fault(fault) => Some(fault),
            _ => None,
        },
    };
    put_stepped(drawn, alloc, text, world, &stepped, from)?;
    Ok(end)
}

/// Adds the picture of a run that ends in this world.
fn put_stepped<'s, 'a>(
    drawn: &mut Vec<u8>,
    alloc: Global,
    text: &'a [u8],
    world: &'s World<'a>,
    stepped: &'s Stepped,
    from: u64,
) -> Result<(), AllocError> {
    let lines = Lines::of(alloc, text)?;
    let frames = &stepped.frames;
    let cut = from.saturating_sub(1).min(frames.len() as u64);
    let run = Run::of(&lines, world, frames, stepped.fault, cut);
    let picture = picture_of(alloc, story_of(alloc, run)?)?;
    let trace = stepped.trace.strip_suffix(b"\n").unwrap_or(&stepped.trace);
    put_file(drawn, alloc, &picture, trace)
}

/// The events of the run that these items name from the start world on.
fn frames_of(alloc: Global, program: &Program, items: &[Item]) -> Result<Vec<Frame>, AllocError> {
    let mut world = World::start(alloc, program)?;
    let mut frames = Vec::new(alloc);
    for (place, item) in items.iter().enumerate() {
        match frame_by(&mut world, item)? {
            Some(frame) => frames.push(frame)?,
            None => return Ok(frames),
        }
    }
    Ok(frames)
}

/// Makes the step that an item names, where the world has no fault and the item is enabled.
fn frame_by(world: &mut World<'_>, item: &Item) -> Result<Option<Frame>, AllocError>
    requires { world.old.made + 1 < 2 ^ 64 }
    ensures { world.new.made ≤ world.old.made + 1 }
{
    if !world.enabled(item) {
        return Ok(None);
    }
    let line = line_of(world, item);
    match world.apply(item) {
        Ok(event) => {
            let after = moment_of(world);
            Ok(Some(Frame { event, line, after }))
        }
        Err(Stop::Fault(_)) => Ok(None),
        Err(Stop::OutOfMemory) => Err(AllocError),
    }
}
