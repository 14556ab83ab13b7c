//! What is printed of logs, as text and as JSON.

ghost use Rattle.std.specs.Prelude.{false};
ghost use Rattle.rc_command.specs.declared.departures.ending.Ending.TheVariants.{Full};
ghost use Rattle.rc_command.specs.Endings.{after_name, ending_printed, ending_text, stuck_after_name};
ghost use Rattle.rc_command.specs.Unmade.{unmade_line, unmade_printed};
ghost use Rattle.rc_text.specs.Text.{Puts};

use crate::departures::ending::Ending;
use crate::departures::object::{put_ending_object, put_unmade_object};
use crate::departures::unmade::word_of;
use itoa::Buffer;
use rc_lang::lines::Line;
use rc_report::shown::put_shown;
use rc_runs::stuck_text::waits::{Wait, put_waits};
use rc_text::text::{put_counted, put_pieces};
use std::alloc::{AllocError, Global};

/// Adds how a log ends, as JSON or as text, with a line feed. The log's name is as it is shown.
pub fn put_ending(
    text: &mut Vec<u8>,
    alloc: Global,
    log: &str,
    ending: &Ending,
    json: bool,
) -> Result<(), AllocError>
    ensures { Puts text.old text.new (ending_printed json log.now ending.now) result }
{
    if json {
        put_ending_object(text, alloc, log, ending)
    } else {
        put_ending_text(text, log, ending)
    }
}

/// Adds how a log ends, as text.
pub fn put_ending_text(text: &mut Vec<u8>, log: &str, ending: &Ending) -> Result<(), AllocError>
    ensures { Puts text.old text.new (ending_text log.now ending.now) result }
{
    put_shown(text, log)?;
    put_after_name(text, ending)
}

/// Adds how a log ends, after its name.
fn put_after_name(text: &mut Vec<u8>, ending: &Ending) -> Result<(), AllocError>
    ensures { Puts text.old text.new (after_name ending.now) result }
{
    let mut line = Buffer::new();
    match ending {
        Ending::Followed { calls } => put_counted(text, b": followed ", *calls, b" calls\n"),
        Ending::Stuck { calls, waits } => put_stuck(text, *calls, waits),
        Ending::Full { calls } => put_full(text, *calls),
        Ending::Departs {
            number,
            place,
            says,
            why,
        } => {
            let number = line.format(*number).as_bytes();
            put_pieces(
                text,
                &[b":", number, b": ", place, b": ", says, b"; ", why, b"\n"],
            )
        }
        Ending::Unreadable { number, why } => {
            let number = line.format(*number).as_bytes();
            put_pieces(
                text,
                &[b": log line ", number, b" unreadable: ", why, b"\n"],
            )
        }
        Ending::TooMany { number } => {
            put_counted(text, b": too many candidates at log line ", *number, b"\n")
        }
    }
}

/// Adds that a log is followed and stuck there.
fn put_stuck(text: &mut Vec<u8>, calls: u64, waits: &[Wait]) -> Result<(), AllocError>
    ensures { Puts text.old text.new (stuck_after_name calls waits.now) result }
{
    put_counted(text, b": followed ", calls, b" calls; stuck there:\n")?;
    put_waits(text, b"  ", waits)
}

/// Adds that a log is followed and was full then.
fn put_full(text: &mut Vec<u8>, calls: u64) -> Result<(), AllocError>
    ensures { Puts text.old text.new (after_name (Full calls)) result }
{
    let after = b" calls, then the log was full\n";
    put_counted(text, b": followed ", calls, after)
}

/// Adds these calls of a program, which no log makes, in the order of the model: a line for each, or one JSON object.
pub fn put_unmade(
    text: &mut Vec<u8>,
    alloc: Global,
    unmade: &[Line],
    json: bool,
) -> Result<(), AllocError>
    ensures { Puts text.old text.new (unmade_printed json unmade.now) result }
{
    if json {
        put_unmade_object(text, alloc, unmade)
    } else {
        put_unmade_lines(text, unmade)
    }
}

/// Adds a line for each of these calls.
fn put_unmade_lines(text: &mut Vec<u8>, unmade: &[Line]) -> Result<(), AllocError>
    ensures { Puts text.old text.new (unmade_printed false unmade.now) result }
{
    for line in unmade {
        put_unmade_line(text, *line)?;
    }
    Ok(())
}

fn put_unmade_line(text: &mut Vec<u8>, line: Line) -> Result<(), AllocError>
    ensures { Puts text.old text.new (unmade_line line) result }
{
    let mut number = Buffer::new();
    let number = number.format(line.number).as_bytes();
    let word = word_of(line.stmt).as_bytes();
    put_pieces(text, &[b"never: line ", number, b", ", word, b"\n"])
}
