//! The engine that steps a program, and shows its run.

ghost use Rattle.std.specs.Prelude.{◌≡◌, false, IfOk, option_copied as named};
ghost use Rattle.rc_read.specs.declared.fault.ReadFault.TheVariants.{Text};
ghost use Rattle.rc_report.specs.declared.step_engine.StepEnd.TheVariants.{Unreadable};
ghost use Rattle.rc_report.specs.declared.verdict.Verdict.TheVariants.{Unreadable as NoModel};
ghost use Rattle.rc_report.specs.Engine.{end_of};
ghost use Rattle.rc_report.specs.Files.{printed};
ghost use Rattle.rc_report.specs.Steps.{end_of_unread, traced as trace_of_steps};
ghost use Rattle.rc_report.specs.Streams.{CanWrite, WritesOrGrows};
ghost use Rattle.rc_runs.specs.Scripts.{not_read_text};
ghost use Rattle.rc_runs.specs.Stepping.{AnswersScript, AnswersTrace, IsDrawn, IsTraced, OfShown};
ghost use Rattle.rc_world.specs.Machine.{start_world};

use crate::notes::{put_of_steps, put_of_unread};
use crate::state::state_text;
use crate::steps::{Moved, read_script};
use rc_picture::drawing::put_picture;
use rc_read::{ReadCause, ReadFault};
use rc_report::engine_fault::EngineFault;
use rc_report::script::{Show, Stepping};
use rc_report::step_engine::{NoSteps, StepEnd, Steps, write_unread};
use rc_report::stepping::write_run;
use rc_report::streams::Sink;
use rc_report::trace::End;
use rc_report::verdict::{Verdict, print_verdict};
use rc_report::writing::write_piece;
use rc_world::world::World;
use std::alloc::{AllocError, Global};

/// Steps the program of a model through a schedule, or through the one that moves spell. Its run is shown: its trace,
/// the world in which it ends after it, or its picture. Why an item isn't enabled is added to the notes, whether one
/// that can't be read is a move, and which moves ended at their most steps. An unreadable model or script is answered
/// with one line of its own, which has the name of the model's file if there is one.
///
/// Answers `Write` where a write failed, and `OutOfMemory` where memory ran out: then a beginning of the answer is
/// written. Nothing is tried again (`write(2)`).
pub fn step<W: Sink>(
    alloc: Global,
    file: Option<&str>,
    text: &[u8],
    stepping: &Stepping<'_>,
    notes: &mut Vec<u8>,
    writer: &mut W,
) -> Result<StepEnd, EngineFault>
    requires { CanWrite (W.state writer.old) }
    ensures { OfShown stepping.now.show
        (λ traced. AnswersScript (named file.entry) traced text.now stepping.now.script W.state writer.old writer.new result) }
{
    let read = read_script(alloc, text, &stepping.script)?;
    match read {
        Ok(moved) => show_run(alloc, text, &moved, stepping.show, notes, writer),
        Err(unread) => {
            put_of_unread(notes, &stepping.script, unread)?;
            write_not_read(alloc, file, unread, writer)
        }
    }
}

// Writes the line that says what can't be read.
fn write_not_read<W: Sink>(
    alloc: Global,
    file: Option<&str>,
    unread: NoSteps,
    writer: &mut W,
) -> Result<StepEnd, EngineFault>
    requires { CanWrite (W.state writer.old) }
    ensures text { WritesOrGrows W.state writer.old writer.new (not_read_text (named file.entry) unread) result }
    ensures end { IfOk result (λ end. end ≡ end_of_unread unread) }
{
    match unread {
        NoSteps::Text { line, cause } => write_no_model(alloc, file, line, cause, writer),
        NoSteps::Schedule(_) => write_unread(writer, unread),
    }
}

// Writes the verdict on a model that can't be read.
fn write_no_model<W: Sink>(
    alloc: Global,
    file: Option<&str>,
    line: u32,
    cause: ReadCause,
    writer: &mut W,
) -> Result<StepEnd, EngineFault>
    requires { CanWrite (W.state writer.old) }
    ensures text { WritesOrGrows W.state writer.old writer.new (printed (named file.entry) false (NoModel line cause)) result }
    ensures end { IfOk result (λ end. end ≡ Unreadable (Text line cause)) }
{
    let mut text = Vec::new(alloc);
    print_verdict(
        &mut text,
        alloc,
        file,
        false,
        &Verdict::Unreadable { line, cause },
    )?;
    write_piece(writer, &text)?;
    Ok(StepEnd::Unreadable(ReadFault::Text { line, cause }))
}

// Shows the run of these steps, and notes what can't be made.
fn show_run<W: Sink>(
    alloc: Global,
    text: &[u8],
    moved: &Moved,
    show: Show,
    notes: &mut Vec<u8>,
    writer: &mut W,
) -> Result<StepEnd, EngineFault>
    requires { CanWrite (W.state writer.old) }
    ensures { let run = trace_of_steps moved.now.steps in
        OfShown show (λ traced. AnswersTrace traced moved.now.steps.program run W.state writer.old writer.new result) }
{
    let mut world = World::start(alloc, &moved.steps.program)?;
    let end = show_steps(alloc, text, &moved.steps, show, &mut world, writer)?;
    put_of_steps(notes, &world, moved, end)?;
    Ok(StepEnd::Trace(end))
}

// Shows the run of these steps from the start world on. The world is then that in which it ends.
fn show_steps<W: Sink>(
    alloc: Global,
    text: &[u8],
    steps: &Steps,
    show: Show,
    world: &mut World<'_>,
    writer: &mut W,
) -> Result<End, EngineFault>
    requires room { CanWrite (W.state writer.old) }
    requires start { world.old ≡ start_world steps.now.program }
    ensures text { let run = trace_of_steps steps.now in
        OfShown show (λ traced. WritesOrGrows W.state writer.old writer.new (traced steps.now.program run) result) }
    ensures end { let run = trace_of_steps steps.now in
        IfOk result (λ end. end ≡ end_of run.ending) }
{
    match show {
        Show::Trace => write_run(world, &steps.items, writer),
        Show::State => write_state(alloc, text, steps, world, writer),
        Show::Picture { from } => write_picture(alloc, text, steps, from, world, writer),
    }
}

// Writes the trace of the run, and after it the world in which it ends.
fn write_state<W: Sink>(
    alloc: Global,
    text: &[u8],
    steps: &Steps,
    world: &mut World<'_>,
    writer: &mut W,
) -> Result<End, EngineFault>
    requires room { CanWrite (W.state writer.old) }
    requires start { world.old ≡ start_world steps.now.program }
    ensures text { IsTraced steps.now W.state writer.old writer.new result }
    ensures end { let run = trace_of_steps steps.now in
        IfOk result (λ end. end ≡ end_of run.ending) }
{
    let end = write_run(world, &steps.items, writer)?;
    let shown = state_text(alloc, text, world)?;
    write_piece(writer, &shown)?;
    Ok(end)
}

// Writes the picture of the run.
fn write_picture<W: Sink>(
    alloc: Global,
    text: &[u8],
    steps: &Steps,
    from: u64,
    world: &mut World<'_>,
    writer: &mut W,
) -> Result<End, EngineFault>
    requires room { CanWrite (W.state writer.old) }
    requires start { world.old ≡ start_world steps.now.program }
    ensures text { IsDrawn W.state writer.old writer.new result }
    ensures end { let run = trace_of_steps steps.now in
        IfOk result (λ end. end ≡ end_of run.ending) }
{
    let mut picture = Vec::new(alloc);
    let end = put_picture(&mut picture, alloc, text, &steps.items, from, world)?;
    write_piece(writer, &picture)?;
    Ok(end)
}
