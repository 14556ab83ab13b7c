//! What is told of a draft and its logs, as text.

ghost use Rattle.std.specs.Prelude.{◌≡◌, ◌≤◌, length};
ghost use Rattle.rc_command.specs.Drafting as spec;
ghost use Rattle.rc_command.specs.Drafting.{accepted_line, end_lines, ended_line, note_lines, outcome_line, outcome_of, statuses};
ghost use Rattle.rc_command.specs.declared.departures.ending.Ending.TheVariants.{Departs};
ghost use Rattle.rc_text.specs.Text.{Puts};

use crate::departures::ending::Ending;
use crate::departures::printed::put_ending_text;
use crate::drafting::outcome::{LogEnd, Outcome};
use itoa::Buffer;
use rc_console::files::put_line;
use rc_report::shown::put_shown;
use rc_report::status::GOOD_STATUS;
use rc_text::text::put_pieces;
use std::alloc::AllocError;

/// Adds the notes, a line each.
pub fn put_notes(told: &mut Vec<u8>, notes: &[Vec<u8>]) -> Result<(), AllocError>
    ensures { Puts told.old told.new (note_lines notes.now) result }
{
    for note in notes {
        put_pieces(told, &[note, b"\n"])?;
    }
    Ok(())
}

/// Adds that a draft is accepted, and how many of its logs are followed.
pub fn put_accepted(told: &mut Vec<u8>, ends: &[LogEnd<'_, '_>]) -> Result<(), AllocError>
    ensures { Puts told.old told.new (accepted_line ends.now) result }
{
    let (mut first, mut second) = (Buffer::new(), Buffer::new());
    let followed = first.format(followed(ends)).as_bytes();
    let all = second.format(ends.len()).as_bytes();
    put_pieces(
        told,
        &[b"accepted; ", followed, b" of ", all, b" logs followed\n"],
    )
}

/// How many of these logs are followed.
fn followed(ends: &[LogEnd<'_, '_>]) -> usize
    ensures value { result ≡ spec.followed ends.now }
    ensures bound { result ≤ length ends.now }
{
    let mut count = 0usize;
    for end in ends {
        if end.outcome().is_followed() {
            count += 1;
        }
    }
    count
}

/// The greatest status of these logs.
pub fn status_of(ends: &[LogEnd<'_, '_>]) -> u8
    ensures value { result ≡ statuses ends.now }
    ensures bound { result ≤ 3 }
{
    let mut status = GOOD_STATUS;
    for end in ends {
        status = status.max(end.outcome().status());
    }
    status
}

/// Adds how each log ends that wasn't read or followed.
pub fn put_ends(told: &mut Vec<u8>, ends: &[LogEnd<'_, '_>]) -> Result<(), AllocError>
    ensures { Puts told.old told.new (end_lines ends.now) result }
{
    for end in ends {
        put_outcome(told, end.log.name, end.outcome())?;
    }
    Ok(())
}

/// Adds how a log ends, unless it was read or followed.
fn put_outcome(told: &mut Vec<u8>, name: &str, outcome: &Outcome) -> Result<(), AllocError>
    ensures { Puts told.old told.new (outcome_line name.now outcome.now) result }
{
    match outcome {
        Outcome::Read => Ok(()),
        Outcome::Ended(ending) => put_ended(told, name, ending),
        Outcome::Unread(why) => put_line(told, name, why.as_str()),
    }
}

/// Adds how a log ended, unless it was followed.
fn put_ended(told: &mut Vec<u8>, name: &str, ending: &Ending) -> Result<(), AllocError>
    ensures { Puts told.old told.new (ended_line name.now ending.now) result }
{
    match ending {
        Ending::Followed { .. } | Ending::Stuck { .. } => Ok(()),
        Ending::Departs {
            number,
            place,
            says,
            why,
        } => {
            let mut line = Buffer::new();
            let number = line.format(*number).as_bytes();
            put_shown(told, name)?;
            put_pieces(
                told,
                &[
                    b":",
                    number,
                    b" departs: ",
                    place,
                    b": ",
                    says,
                    b"; ",
                    why,
                    b"\n",
                ],
            )
        }
        ending => put_ending_text(told, name, ending),
    }
}
