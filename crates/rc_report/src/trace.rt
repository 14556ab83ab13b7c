//! Traces as text.

ghost use Rattle.std.specs.Prelude.{◌≡◌, codes, decimal};
ghost use Rattle.rc_world.specs.FaultNames.{name_of_fault, number_of_fault};
ghost use Rattle.rc_report.specs.Pieces.{line_text};
ghost use Rattle.rc_report.specs.Printed.{end_line, event_lines, named_line, party_line, place_line};
ghost use Rattle.rc_report.specs.Streams.{CanWrite, Writes};
ghost use Rattle.rc_text.specs.Text.{Puts};
ghost use Rattle.rc_report.specs.Traces.{end_text, trace_text};

use crate::engine_fault::EngineFault;
use crate::printed::{Line, short_line, thread_name, write_event_line};
use crate::streams::Sink;
use crate::writing::write_pieces;
use itoa::Buffer;
use rc_lang::program::Program;
use rc_text::text::put_pieces;
use rc_world::event::Event;
use rc_world::fault::{Fault, FaultKind, Party};
use std::alloc::AllocError;

/// How a trace ended.
#[derive(Clone, Copy)]
pub enum End {
    /// A world with this fault was met.
    Fault(Fault),
    /// The item with this number, from 1, wasn't enabled.
    NotEnabled(u64),
    /// No item was left, and every thread had ended.
    Ended,
    /// No item was left, and a thread had something left.
    Stopped,
    /// Threads that ran had made as many events as they were allowed.
    Limit,
    /// Memory ran out while threads ran.
    Memory,
}

/// Writes a trace: a line for each event, numbered from 1, and a line that says how it ended. It takes no memory, and
/// answers `Write` where a write failed: then a beginning of the trace is written. A thread that isn't the program's has no
/// name.
pub fn trace_text<W: Sink>(
    program: &Program,
    events: &[Event],
    end: End,
    writer: &mut W,
) -> Result<(), EngineFault>
    requires { CanWrite (W.state writer.old) }
    ensures { Writes W.state writer.old writer.new (trace_text program.now events.now end) result }
{
    write_events(writer, program, events)?;
    write_end(writer, program, events.len() as u64, end)
}

/// Writes the lines of events, numbered from 1.
fn write_events<W: Sink>(
    writer: &mut W,
    program: &Program,
    events: &[Event],
) -> Result<(), EngineFault>
    requires { CanWrite (W.state writer.old) }
    ensures { Writes W.state writer.old writer.new (event_lines program.now 1 events.now) result }
{
    for (index, event) in events.iter().enumerate() {
        write_event_line(writer, program, index as u64 + 1, *event)?;
    }
    Ok(())
}

/// Writes how a trace of so many events ended.
pub(crate) fn write_end<W: Sink>(
    writer: &mut W,
    program: &Program,
    count: u64,
    end: End,
) -> Result<(), EngineFault>
    requires { CanWrite (W.state writer.old) }
    ensures { Writes W.state writer.old writer.new (end_text program.now count end) result }
{
    let (mut first, mut second) = (Buffer::new(), Buffer::new());
    let line = last_line(program, count, end, &mut first, &mut second);
    write_pieces(writer, &line.pieces)
}

/// Adds how a trace of so many events ended.
pub(crate) fn put_end(
    text: &mut Vec<u8>,
    program: &Program,
    count: u64,
    end: End,
) -> Result<(), AllocError>
    ensures { Puts text.old text.new (end_text program.now count end) result }
{
    let (mut first, mut second) = (Buffer::new(), Buffer::new());
    let line = last_line(program, count, end, &mut first, &mut second);
    put_pieces(text, &line.pieces)
}

/// The line that says how a trace of so many events ended.
fn last_line<'a>(
    program: &'a Program,
    count: u64,
    end: End,
    first: &'a mut Buffer,
    second: &'a mut Buffer,
) -> Line<'a>
    ensures { line_text result ≡ end_text program.now count end }
{
    match end {
        End::Fault(fault) => {
            fault_line(program, name_of(fault.kind), fault.party, first, second)
        }
        End::NotEnabled(item) => {
            short_line(
                b"item ",
                first.format(item).as_bytes(),
                b" not enabled\n",
                b"",
                b"",
            )
        }
        End::Ended => counted_line(b"ended", count, first),
        End::Stopped => counted_line(b"stopped", count, first),
        End::Limit => counted_line(b"limit", count, first),
        End::Memory => counted_line(b"out of memory", count, first),
    }
}

/// The end line of a trace without a fault, with the number of its events.
fn counted_line<'a>(word: &'a [u8], count: u64, buffer: &'a mut Buffer) -> Line<'a>
    ensures { line_text result ≡ end_line word.now count }
{
    let count = buffer.format(count).as_bytes();
    short_line(word, b" after ", count, b" events\n", b"")
}

/// The number and the name of a fault, as they are printed.
#[derive(Clone, Copy)]
pub struct Named {
    pub number: u8,
    pub name: &'static str,
}

fn name_of(kind: FaultKind) -> Named
    ensures number { result.number ≡ number_of_fault kind }
    ensures name { result.name.now ≡ name_of_fault kind }
{
    Named {
        number: kind.number(),
        name: kind.name(),
    }
}

/// The end line of a trace that met a fault.
fn fault_line<'a>(
    program: &'a Program,
    named: Named,
    party: Party,
    first: &'a mut Buffer,
    second: &'a mut Buffer,
) -> Line<'a>
    ensures { line_text result ≡ named_line (decimal named.number) named.name.now (party_line program.now party) }
{
    match party {
        Party::At { thread, line } => {
            let name = thread_name(program, thread);
            thread_fault(named.number, named.name, name, line, first, second)
        }
        Party::InKernel => kernel_fault(named.number, named.name, first),
    }
}

/// The line of a fault in the kernel.
fn kernel_fault<'a>(number: u8, name: &'a str, buffer: &'a mut Buffer) -> Line<'a>
    ensures { line_text result ≡ named_line (decimal number) name.now (codes "kernel\n") }
{
    let number = buffer.format(number).as_bytes();
    short_line(b"fault F", number, b" ", name.as_bytes(), b" kernel\n")
}

/// The line of a fault at a line of a thread.
fn thread_fault<'a>(
    number: u8,
    name: &'a str,
    thread: &'a [u8],
    line: u32,
    first: &'a mut Buffer,
    second: &'a mut Buffer,
) -> Line<'a>
    ensures { line_text result ≡ named_line (decimal number) name.now (place_line thread.now (decimal line)) }
{
    placed_line(first.format(number), name, thread, second.format(line))
}

/// The same by its parts.
fn placed_line<'a>(number: &'a str, name: &'a str, thread: &'a [u8], line: &'a str) -> Line<'a>
    ensures { line_text result ≡ named_line number.now name.now (place_line thread.now line.now) }
{
    Line {
        pieces: [
            b"fault F",
            number.as_bytes(),
            b" ",
            name.as_bytes(),
            b" ",
            thread,
            b" line ",
            line.as_bytes(),
            b"\n",
        ],
    }
}
