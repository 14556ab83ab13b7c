//! A world is stepped through the items of a schedule, and what happened is written.

ghost use Rattle.std.specs.Prelude.{◌≡◌, ◌+◌, ◌<◌, ◌≤◌, ◌^◌, length, IfOk};
ghost use Rattle.rc_world.specs.Faults.{fault_of};
ghost use Rattle.rc_world.specs.Trace.{all_ended, last_ending, trace_from};
ghost use Rattle.rc_report.specs.Engine.{end_of};
ghost use Rattle.rc_report.specs.Made.{MakesItem, lines_from, refused_ending, text_from};
ghost use Rattle.rc_report.specs.Streams.{CanWrite, WritesOrGrows};

use crate::engine_fault::EngineFault;
use crate::printed::write_event_line;
use crate::streams::Sink;
use crate::trace::{End, write_end};
use rc_world::controls::Next;
use rc_world::event::{Event, Item};
use rc_world::world::{Stop, World};
use std::alloc::AllocError;

/// What an item of a schedule makes of a world.
#[derive(Clone, Copy)]
enum Made {
    /// This event.
    Event(Event),
    /// No event: the trace ends so.
    Last(End),
}

/// Writes the trace of the run that these items name from this world on, in which no request was made: a line for each
/// event, and one that says how it ended. The world is then that in which the trace ends.
pub fn write_run<W: Sink>(
    world: &mut World<'_>,
    items: &[Item],
    writer: &mut W,
) -> Result<End, EngineFault>
    requires room { CanWrite (W.state writer.old) }
    requires start { world.old.made ≡ 0 }
    ensures text { WritesOrGrows W.state writer.old writer.new
        (text_from world.old items.now) result }
    ensures end { IfOk result (λ end. end ≡ end_of (trace_from world.old 1 items.now).ending) }
    ensures world { IfOk result (λ _. world.new ≡ (trace_from world.old 1 items.now).world) }
{
    let (count, end) = write_events(world, items, writer)?;
    write_end(writer, world.program(), count, end)?;
    Ok(end)
}

/// Writes the events of the run that these items name from this world on. Answers how many they are, and how the
/// trace ends.
fn write_events<W: Sink>(
    world: &mut World<'_>,
    items: &[Item],
    writer: &mut W,
) -> Result<(u64, End), EngineFault>
    requires room { CanWrite (W.state writer.old) }
    requires start { world.old.made ≡ 0 }
    ensures text { WritesOrGrows W.state writer.old writer.new
        (lines_from world.old items.now) result }
    ensures count { IfOk result (λ r. r.0 ≡ length (trace_from world.old 1 items.now).events) }
    ensures end { IfOk result (λ r. r.1 ≡ end_of (trace_from world.old 1 items.now).ending) }
    ensures world { IfOk result (λ _. world.new ≡ (trace_from world.old 1 items.now).world) }
    ensures program { world.new.program ≡ world.old.program }
{
    let mut count = 0;
    for (index, item) in items.iter().enumerate() {
        match make_item(world, item, index as u64 + 1)? {
            Made::Event(event) => {
                count += 1;
                write_event_line(writer, world.program(), count, event)?;
            }
            Made::Last(end) => return Ok((count, end)),
        }
    }
    Ok((count, last_end(world)))
}

/// Makes the step that an item names, or answers how the trace ends: with the world's fault, else where the item, with
/// this number, isn't enabled.
fn make_item(world: &mut World<'_>, item: &Item, number: u64) -> Result<Made, AllocError>
    requires { world.old.made + 1 < 2 ^ 64 }
    ensures made { IfOk result (MakesItem world.old item.now number world.new) }
    ensures grows { world.new.made ≤ world.old.made + 1 }
    ensures program { world.new.program ≡ world.old.program }
{
    if !world.enabled(item) {
        return Ok(Made::Last(refused_end(world, number)));
    }
    match world.apply(item) {
        Ok(event) => Ok(Made::Event(event)),
        Err(Stop::Fault(fault)) => Ok(Made::Last(End::Fault(fault))),
        Err(Stop::OutOfMemory) => Err(AllocError),
    }
}

/// How a trace ends in a world where the item with this number isn't enabled.
fn refused_end(world: &World<'_>, number: u64) -> End
    ensures { result ≡ end_of (refused_ending number (fault_of world.now)) }
{
    match world.fault() {
        Some(fault) => End::Fault(fault),
        None => End::NotEnabled(number),
    }
}

/// How a trace ends in a world where no item is left.
fn last_end(world: &World<'_>) -> End
    ensures { result ≡ end_of (last_ending world.now (fault_of world.now)) }
{
    match world.fault() {
        Some(fault) => End::Fault(fault),
        None => {
            if has_ended(world) {
                End::Ended
            } else {
                End::Stopped
            }
        }
    }
}

/// Whether every thread has ended.
fn has_ended(world: &World<'_>) -> bool
    ensures { result ≡ all_ended world.now }
{
    let count = world.program().threads().len();
    for thread in 0..count as u32 {
        match world.next(thread) {
            Next::Ended => {}
            Next::Ready(_) => return false,
            Next::TakenLock(_) => return false,
        }
    }
    true
}
