//! A log, followed from its first line to its last.

ghost use Rattle.std.specs.Prelude.{ℕ, ◌≡◌, List, Option, None, IfErr, IfOk};
ghost use Rattle.rc_follow.specs.Follower.{Follower as SpecFollower};
ghost use Rattle.rc_log.specs.Waiting.{left};
ghost use Rattle.rc_command.specs.Logs.{Ends, FollowsLine, Headed, IsDeclared, IsOther, IsRoomy, KeepsReached, Reaches, Ringed, Stops, Under};

use crate::departures::ending::Ending;
use crate::departures::stuck::ending_there;
use crate::departures::why::{put_says, put_why};
use itoa::Buffer;
use rc_follow::follower::{Answer, Follower};
use rc_follow::places::{Departure, why_departs};
use rc_lang::program::Program;
use rc_log::call::{Said, Why};
use rc_log::declared::{lack_of, read_declared};
use rc_log::head::{is_head, read_ring};
use rc_log::line::read_line;
use rc_log::reader::{LogFault, LogReader, Next};
use rc_log::words::word_at;
use rc_report::source::Lines;
use rc_text::text::put_pieces;
use std::alloc::{AllocError, Global};
use std::io::Read;

/// Follows a log, held to the program of a model with these lines, and notes which of its calls the log made. Answers
/// `Failed` where a read failed, and then nothing is noted; `OutOfMemory` where a growth was refused; and no other `Err`.
#[tactic(auto, using(crate::proofs::Under::keeps_as))]
pub fn follow_log<'a, R: Read + Drop>(
    alloc: Global,
    lines: &Lines<'_>,
    follower: &mut Follower<'a>,
    reader: R,
) -> Result<Ending, LogFault>
    ensures program { follower.new.program ≡ follower.old.program }
    ensures ends { IfOk result (Ends follower.old.program (R.remaining reader)) }
    ensures reached { IfOk result (Reaches follower.old (R.remaining reader) follower.new) }
    ensures unread { IfErr result (KeepsReached follower.old follower.new) }
{
    let mut log = LogReader::new(alloc, reader)?;
    let ending = follow_lines(alloc, lines, follower, &mut log)?;
    let ending = ending_there(alloc, follower, ending, log.is_done())?;
    follower.end();
    Ok(ending)
}

/// Follows a log up to its end, or to the line at which it ends otherwise.
#[tactic(auto, using(crate::proofs::Under::begun, crate::proofs::Under::stops_at_once, crate::proofs::Under::under_stop, crate::proofs::Under::keeps_next, crate::proofs::Under::keeps_still, crate::proofs::Under::keeps_memory))]
fn follow_lines<'a, R: Read>(
    alloc: Global,
    lines: &Lines<'_>,
    follower: &mut Follower<'a>,
    log: &mut LogReader<R>,
) -> Result<Ending, LogFault>
    ensures program { follower.new.program ≡ follower.old.program }
    ensures unread { IfErr result (KeepsReached follower.old follower.new) }
    ensures stops { IfOk result (Stops follower.old (left R.remaining log.old) follower.new) }
{
    follower.begin(alloc)?;
    if let Some(ending) = read_heads(alloc, follower.program(), log)? {
        return Ok(ending);
    }
    for number in 3..u64::MAX {
        if let Some(ending) = follow_next(alloc, lines, follower, log, number)? {
            return Ok(ending);
        }
    }
    Ok(Ending::TooMany { number: u64::MAX })
}

/// Reads the next line, which has this number, and holds it to the program. Answers how the log ends here if it does.
#[tactic(auto, using(crate::proofs::Under::under_line, crate::proofs::Under::under_end, crate::proofs::Under::under_full, crate::proofs::Under::under_stop, crate::proofs::Under::keeps_still, crate::proofs::Under::keeps_memory))]
fn follow_next<'a, R: Read>(
    alloc: Global,
    lines: &Lines<'_>,
    follower: &mut Follower<'a>,
    log: &mut LogReader<R>,
    number: u64,
) -> Result<Option<Ending>, LogFault>
    ensures program { follower.new.program ≡ follower.old.program }
    ensures unread { IfErr result (KeepsReached follower.old follower.new) }
    ensures under { (old : SpecFollower) → (bytes : Option (List ℕ)) → Under old bytes (left R.remaining log.old) follower.old None → IfOk result (Under old bytes (left R.remaining log.new) follower.new) }
{
    match log.next_line() {
        Ok(Next::Line) => Ok(follow_line(alloc, lines, follower, number, log.line())?),
        Ok(Next::End) => Ok(Some(Ending::Followed {
            calls: follower.calls(),
        })),
        Ok(Next::Full) => Ok(Some(Ending::Full {
            calls: follower.calls(),
        })),
        Err(fault) => Ok(Some(too_long(alloc, number, fault)?)),
    }
}

/// A line that is too long; another fault stays one.
fn too_long(alloc: Global, number: u64, fault: LogFault) -> Result<Ending, LogFault>
    ensures { IfOk result IsOther }
{
    match fault {
        LogFault::TooLong => Ok(unreadable(alloc, number, Why::TooLong)?),
        fault => Err(fault),
    }
}

/// Reads the first two lines, and answers how the log ends there if it does.
#[tactic(auto, using(crate::proofs::Under::head_then))]
fn read_heads<R: Read>(
    alloc: Global,
    program: &Program,
    log: &mut LogReader<R>,
) -> Result<Option<Ending>, LogFault>
    ensures { IfOk result (Headed program.now (left R.remaining log.old) (left R.remaining log.new)) }
{
    match log.next_line() {
        Ok(Next::Line) => {
            if !is_head(log.line()) {
                return Ok(Some(unreadable(alloc, 1, Why::NoHead)?));
            }
            read_rings(alloc, program, log)
        }
        Ok(_) => Ok(Some(unreadable(alloc, 1, Why::NoHead)?)),
        Err(fault) => Ok(Some(too_long(alloc, 1, fault)?)),
    }
}

/// Reads the second line, which says how many entries the rings have, and answers how the log ends there if it does.
#[tactic(auto, using(crate::proofs::Under::ring_then))]
fn read_rings<R: Read>(
    alloc: Global,
    program: &Program,
    log: &mut LogReader<R>,
) -> Result<Option<Ending>, LogFault>
    ensures { IfOk result (Ringed program.now (left R.remaining log.old) (left R.remaining log.new)) }
{
    match log.next_line() {
        Ok(Next::Line) => Ok(without_room(alloc, program, log.line())?),
        Ok(_) => Ok(Some(unreadable(alloc, 2, Why::NoRing)?)),
        Err(fault) => Ok(Some(too_long(alloc, 2, fault)?)),
    }
}

/// The line isn't one of rings that have room for the program; nothing where it is.
fn without_room(alloc: Global, program: &Program, line: &[u8]) -> Result<Option<Ending>, AllocError>
    ensures { IfOk result (IsRoomy program.now line.now) }
{
    let Some((entries, completions)) = read_ring(line) else {
        return Ok(Some(unreadable(alloc, 2, Why::NoRing)?));
    };
    if program.entries() <= entries && program.completion_entries() <= completions {
        return Ok(None);
    }
    Ok(Some(too_small(alloc, program, entries, completions)?))
}

/// The rings have fewer entries than those of the program.
fn too_small(
    alloc: Global,
    program: &Program,
    entries: u32,
    completions: u32,
) -> Result<Ending, AllocError>
    ensures { IfOk result IsOther }
{
    let (mut first, mut second) = (Buffer::new(), Buffer::new());
    let (mut third, mut fourth) = (Buffer::new(), Buffer::new());
    let mut why = Vec::new(alloc);
    put_pieces(
        &mut why,
        &[
            b"the ring has ",
            first.format(entries).as_bytes(),
            b" and ",
            second.format(completions).as_bytes(),
            b" entries, the model ",
            third.format(program.entries()).as_bytes(),
            b" and ",
            fourth.format(program.completion_entries()).as_bytes(),
        ],
    )?;
    Ok(Ending::Unreadable { number: 2, why })
}

/// A line that can't be read.
fn unreadable(alloc: Global, number: u64, why: Why) -> Result<Ending, AllocError>
    ensures { IfOk result IsOther }
{
    Ok(Ending::Unreadable {
        number,
        why: why.words().as_bytes().to_vec(alloc)?,
    })
}

/// Holds one line to the program, and answers how the log ends there if it does.
#[tactic(auto, using(crate::proofs::Under::line_followed, crate::proofs::Under::line_stops, crate::proofs::Under::line_declares))]
fn follow_line<'a>(
    alloc: Global,
    lines: &Lines<'_>,
    follower: &mut Follower<'a>,
    number: u64,
    line: &[u8],
) -> Result<Option<Ending>, AllocError>
    ensures program { follower.new.program ≡ follower.old.program }
    ensures follows { IfOk result (FollowsLine follower.old line.now follower.new) }
{
    let said = match read_line(follower.program(), line) {
        Ok(said) => said,
        Err(Why::NoCall) => {
            return Ok(read_declaration(alloc, lines, follower.program(), number, line)?);
        }
        Err(why) => return Ok(Some(wrong_line(alloc, number, line, why)?)),
    };
    let answer = follower.follow(alloc, said)?;
    if answer.is_followed() {
        return Ok(None);
    }
    Ok(Some(stopped(alloc, lines, follower, number, line, said, answer)?))
}

/// Holds a line that is no call to the program, whose parts it may declare, and answers how the log ends there if it does.
fn read_declaration(
    alloc: Global,
    lines: &Lines<'_>,
    program: &Program,
    number: u64,
    line: &[u8],
) -> Result<Option<Ending>, AllocError>
    ensures { IfOk result (IsDeclared program.now line.now) }
{
    let declared = match read_declared(line) {
        Ok(declared) => declared,
        Err(why) => return Ok(Some(wrong_line(alloc, number, line, why)?)),
    };
    match lack_of(program, declared) {
        Some(lack) => {
            let departure = Departure::Lacks(lack);
            Ok(Some(departs(alloc, lines, number, line, &departure)?))
        }
        None => Ok(None),
    }
}

/// How a log ends at a line that isn't followed.
fn stopped<'a>(
    alloc: Global,
    lines: &Lines<'_>,
    follower: &Follower<'a>,
    number: u64,
    line: &[u8],
    said: Said,
    answer: Answer,
) -> Result<Ending, AllocError>
    ensures { IfOk result IsOther }
{
    match answer {
        Answer::Taken(holder) => taken(alloc, follower.program(), number, line, holder),
        Answer::NotHeld => {
            let mut why = Vec::new(alloc);
            put_pieces(
                &mut why,
                &[word_at(line, 0), b" unlocks a mutex it doesn't hold"],
            )?;
            Ok(Ending::Unreadable { number, why })
        }
        Answer::TooMany => Ok(Ending::TooMany { number }),
        _ => departed(alloc, lines, follower, number, line, said),
    }
}

/// A line that can't be read; where its words after the call are wrong, with the call.
fn wrong_line(alloc: Global, number: u64, line: &[u8], why: Why) -> Result<Ending, AllocError>
    ensures { IfOk result IsOther }
{
    let mut words = why.words().as_bytes().to_vec(alloc)?;
    if let Why::WrongWords = why {
        put_pieces(&mut words, &[b" ", word_at(line, 2)])?;
    }
    Ok(Ending::Unreadable { number, why: words })
}

/// A line that locks a mutex that this thread holds.
fn taken(
    alloc: Global,
    program: &Program,
    number: u64,
    line: &[u8],
    holder: u32,
) -> Result<Ending, AllocError>
    ensures { IfOk result IsOther }
{
    let mut why = Vec::new(alloc);
    let name: &[u8] = match program.threads().get(holder as usize) {
        Some(thread) => &thread.name,
        None => b"another thread",
    };
    put_pieces(
        &mut why,
        &[word_at(line, 0), b" locks a mutex that ", name, b" holds"],
    )?;
    Ok(Ending::Unreadable { number, why })
}

/// A line that departs.
fn departed<'a>(
    alloc: Global,
    lines: &Lines<'_>,
    follower: &Follower<'a>,
    number: u64,
    line: &[u8],
    said: Said,
) -> Result<Ending, AllocError>
    ensures { IfOk result IsOther }
{
    let departure = why_departs(alloc, follower, said)?;
    match departure {
        Departure::TooMany => Ok(Ending::TooMany { number }),
        departure => departs(alloc, lines, number, line, &departure),
    }
}

/// A line that departs, and why.
fn departs(
    alloc: Global,
    lines: &Lines<'_>,
    number: u64,
    line: &[u8],
    departure: &Departure,
) -> Result<Ending, AllocError>
    ensures { IfOk result IsOther }
{
    let mut says = Vec::new(alloc);
    put_says(&mut says, line, departure)?;
    let mut why = Vec::new(alloc);
    put_why(&mut why, alloc, lines, line, departure)?;
    Ok(Ending::Departs {
        number,
        place: word_at(line, 1).to_vec(alloc)?,
        says,
        why,
    })
}
