//! Logs that were recorded, held to the draft.

ghost use Rattle.std.specs.Prelude.{◌≡◌, All, IfOk};
ghost use Rattle.rc_command.specs.Drafting.{AreEnds, AreUntried, IsTried, IsUntried, MoreEnds, held_or, recorded_names};
ghost use Rattle.rc_command.specs.declared.drafting.outcome.RecordedLog.{RecordedLog as SpecLog};

use crate::departures::following::follow_log;
use crate::departures::logs::Logs;
use crate::drafting::outcome::{LogEnd, Outcome, RecordedLog};
use rc_console::files::{Unread, words_of};
use rc_follow::follower::Follower;
use rc_lang::program::Program;
use rc_log::reader::LogFault;
use rc_report::source::Lines;
use std::alloc::{AllocError, Global};

/// How logs end that aren't held to a draft.
pub fn untried<'a, 'b>(
    alloc: Global,
    logs: &'a [RecordedLog<'b>],
) -> Result<Vec<LogEnd<'a, 'b>>, AllocError>
    ensures { IfOk result (λ ends. AreUntried logs.now ends.items) }
{
    let mut ends = Vec::new(alloc);
    for log in logs {
        ends.push(LogEnd { log, held: None })?;
    }
    Ok(ends)
}

/// Opens each log anew that was read, holds it to the program of this text, and answers how all logs end.
pub fn tried<'a, 'b, T: Logs>(
    texts: &T,
    alloc: Global,
    program: &Program,
    text: &[u8],
    logs: &'a [RecordedLog<'b>],
) -> Result<Vec<LogEnd<'a, 'b>>, AllocError>
    requires { All (λ (log : SpecLog). IsUntried log.outcome) logs.now }
    ensures { IfOk result (λ ends. AreEnds (IsTried (T.opens texts.now) program.now) (recorded_names logs.now) ends.items) }
{
    let lines = Lines::of(alloc, text)?;
    let mut follower = Follower::start(alloc, program)?;
    try_each(texts, alloc, &lines, &mut follower, logs)
}

/// Holds each log that was read to the program, and answers how all end.
fn try_each<'a, 'b, T: Logs>(
    texts: &T,
    alloc: Global,
    lines: &Lines<'_>,
    follower: &mut Follower<'_>,
    logs: &'a [RecordedLog<'b>],
) -> Result<Vec<LogEnd<'a, 'b>>, AllocError>
    requires { All (λ (log : SpecLog). IsUntried log.outcome) logs.now }
    ensures { IfOk result (λ ends. AreEnds (IsTried (T.opens texts.now) follower.old.program) (recorded_names logs.now) ends.items) }
{
    let mut ends = Vec::new(alloc);
    for log in logs {
        push_end(&mut ends, texts, alloc, lines, follower, log)?;
    }
    Ok(ends)
}

/// Holds a log to the program if it was read, and adds how it ends.
fn push_end<'a, 'b, T: Logs>(
    ends: &mut Vec<LogEnd<'a, 'b>>,
    texts: &T,
    alloc: Global,
    lines: &Lines<'_>,
    follower: &mut Follower<'_>,
    log: &'a RecordedLog<'b>,
) -> Result<(), AllocError>
    requires { IsUntried log.now.outcome }
    ensures program { follower.new.program ≡ follower.old.program }
    ensures ends { IfOk result (λ _. MoreEnds (IsTried (T.opens texts.now) follower.old.program) log.now.name.now ends.old.items ends.new.items) }
{
    let held = try_one(texts, alloc, lines, follower, log)?;
    ends.push(LogEnd { log, held })?;
    Ok(())
}

/// Holds a log to the program if it was read, and answers how it ends then.
fn try_one<T: Logs>(
    texts: &T,
    alloc: Global,
    lines: &Lines<'_>,
    follower: &mut Follower<'_>,
    log: &RecordedLog<'_>,
) -> Result<Option<Outcome>, AllocError>
    requires { IsUntried log.now.outcome }
    ensures program { follower.new.program ≡ follower.old.program }
    ensures held { IfOk result (λ held. IsTried (T.opens texts.now) follower.old.program log.now.name.now (held_or held log.now.outcome)) }
{
    if !log.outcome.is_read() {
        return Ok(None);
    }
    Ok(Some(held_to(texts, alloc, lines, follower, log.name)?))
}

/// Opens a log anew, holds it to the program, and answers how it ends.
fn held_to<T: Logs>(
    texts: &T,
    alloc: Global,
    lines: &Lines<'_>,
    follower: &mut Follower<'_>,
    name: &str,
) -> Result<Outcome, AllocError>
    ensures program { follower.new.program ≡ follower.old.program }
    ensures held { IfOk result (IsTried (T.opens texts.now) follower.old.program name.now) }
{
    let log = match texts.open(name) {
        Ok(log) => log,
        Err(unread) => return Ok(Outcome::Unread(words_of(alloc, &unread)?)),
    };
    match follow_log(alloc, lines, follower, log) {
        Ok(ending) => Ok(Outcome::Ended(ending)),
        Err(LogFault::Failed(error)) => {
            Ok(Outcome::Unread(words_of(alloc, &Unread::Failed(error))?))
        }
        Err(_) => Err(AllocError),
    }
}
