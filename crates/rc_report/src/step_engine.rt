//! A program is stepped through a schedule, and its trace is written.

ghost use Rattle.std.specs.Prelude.{◌≡◌, IfOk};
ghost use Rattle.rc_read.specs.Answer.{answer_of};
ghost use Rattle.rc_report.specs.Engine.{AnswersSteps, StepsAs, end_of, stepped_text};
ghost use Rattle.rc_report.specs.Steps.{ReadsSteps, end_of_unread, steps_text, traced, unread_text};
ghost use Rattle.rc_report.specs.Streams.{CanRead, CanWrite, CountsReads, Writes, WritesOrGrows};

use crate::engine_fault::EngineFault;
use crate::reading::read_text;
use crate::stepping::write_run;
use crate::streams::{Sink, Source};
use crate::trace::End;
use crate::verdict::{Verdict, verdict_text};
use crate::writing::write_pieces;
use itoa::Buffer;
use rc_lang::program::Program;
use rc_read::{ReadCause, ReadFault, read_program};
use rc_world::event::Item;
use rc_world::schedule::{ScheduleFault, read_schedule};
use rc_world::world::World;
use std::alloc::{AllocError, Global};

/// What a stepped program was answered with.
#[derive(Clone, Copy)]
pub enum StepEnd {
    /// The model can't be read, and its verdict was written.
    Unreadable(ReadFault),
    /// The item of the schedule with this number, from 1, can't be read.
    Schedule(u64),
    /// The trace was written.
    Trace(End),
}

/// A program, and the items of its schedule.
#[derive(Drop)]
pub struct Steps {
    pub program: Program,
    pub items: Vec<Item>,
}

/// Why a model and a schedule name no steps.
#[derive(Clone, Copy)]
pub enum NoSteps {
    /// The line of the model that can't be read, from 1, and why.
    Text { line: u32, cause: ReadCause },
    /// The item of the schedule with this number, from 1, can't be read.
    Schedule(u64),
}

/// Reads a model and steps its program through a schedule. The trace is written: a line for each event, and one that
/// says how it ended. An unreadable model or schedule is answered with one line of its own.
///
/// Answers `Read` where a read failed or 2,097,152 reads met no end of input, and then nothing is written; `Write` where
/// a write failed, and `OutOfMemory` where a growth was refused: then a beginning of the answer is written. Nothing is
/// tried again (`read(2)`, `write(2)`).
pub fn step_engine<R: Source, W: Sink>(
    alloc: Global,
    reader: &mut R,
    schedule: &str,
    writer: &mut W,
) -> Result<StepEnd, EngineFault>
    requires reads { CanRead 2097152 (R.state reader.old) }
    requires writes { CanWrite (W.state writer.old) }
    ensures answer { StepsAs (R.state reader.old) schedule.now
        W.state writer.old writer.new result }
    ensures reads { CountsReads (R.state reader.old) (R.state reader.new) result }
{
    let text = read_text(alloc, reader)?;
    step_bytes(alloc, text, schedule, writer)
}

/// Reads a program and its schedule.
pub fn read_steps(
    alloc: Global,
    text: &[u8],
    schedule: &str,
) -> Result<Result<Steps, NoSteps>, AllocError>
    ensures { IfOk result (ReadsSteps (answer_of text.now) schedule.now) }
{
    let program = match read_program(alloc, text) {
        Ok(program) => program,
        Err(ReadFault::Text { line, cause }) => return Ok(Err(NoSteps::Text { line, cause })),
        Err(ReadFault::OutOfMemory) => return Err(AllocError),
    };
    match read_schedule(alloc, &program, schedule) {
        Ok(items) => Ok(Ok(Steps { program, items })),
        Err(ScheduleFault::Unreadable(item)) => Ok(Err(NoSteps::Schedule(item))),
        Err(ScheduleFault::OutOfMemory) => Err(AllocError),
    }
}

/// Writes the line that says what can't be read, and answers that this was written.
pub fn write_unread<W: Sink>(writer: &mut W, unread: NoSteps) -> Result<StepEnd, EngineFault>
    requires { CanWrite (W.state writer.old) }
    ensures text { Writes W.state writer.old writer.new (unread_text unread) result }
    ensures end { IfOk result (λ end. end ≡ end_of_unread unread) }
{
    let mut buffer = Buffer::new();
    match unread {
        NoSteps::Text { line, cause } => {
            let verdict = Verdict::Unreadable { line, cause };
            verdict_text(&verdict, writer)?;
            Ok(StepEnd::Unreadable(ReadFault::Text { line, cause }))
        }
        NoSteps::Schedule(item) => {
            let number = buffer.format(item).as_bytes();
            write_pieces(writer, &[b"schedule item ", number, b" unreadable\n"])?;
            Ok(StepEnd::Schedule(item))
        }
    }
}

/// Steps the program of a model through a schedule. The memory of the model is given back before a world takes some.
pub fn step_bytes<W: Sink>(
    alloc: Global,
    text: Vec<u8>,
    schedule: &str,
    writer: &mut W,
) -> Result<StepEnd, EngineFault>
    requires { CanWrite (W.state writer.old) }
    ensures { AnswersSteps stepped_text text.items schedule.now
        W.state writer.old writer.new result }
{
    let read = read_steps(alloc, &text, schedule)?;
    drop(text);
    match read {
        Ok(steps) => {
            let end = write_trace(alloc, &steps, writer)?;
            Ok(StepEnd::Trace(end))
        }
        Err(unread) => write_unread(writer, unread),
    }
}

/// Writes the trace of the run that the items name.
fn write_trace<W: Sink>(alloc: Global, steps: &Steps, writer: &mut W) -> Result<End, EngineFault>
    requires { CanWrite (W.state writer.old) }
    ensures text { WritesOrGrows W.state writer.old writer.new (steps_text steps.now) result }
    ensures end { IfOk result (λ end. end ≡ end_of (traced steps.now).ending) }
{
    let mut world = World::start(alloc, &steps.program)?;
    write_run(&mut world, &steps.items, writer)
}
