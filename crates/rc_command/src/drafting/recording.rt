//! Logs are recorded, one after another.

ghost use Rattle.std.specs.Prelude.{◌≡◌, All, IfOk, false};
ghost use Rattle.rc_command.specs.Drafting.{AreRecorded, IsUntried, MoreRecorded, is_read, texts_of};
ghost use Rattle.rc_command.specs.declared.drafting.outcome.RecordedLog.{RecordedLog as SpecLog};

use crate::departures::ending::Ending;
use crate::departures::logs::Logs;
use crate::drafting::again::{Lost, loss_at};
use crate::drafting::outcome::{Outcome, RecordedLog};
use rc_console::files::{Unread, words_of};
use rc_log::reader::LogFault;
use rc_replay::recording::{Recorded, Recorder, record_log};
use std::alloc::{AllocError, Global};

/// Records each log but for those that are lost, and answers how that ended. After one that can't be read the others are
/// still recorded.
pub fn record_logs<'a, T: Logs>(
    texts: &T,
    alloc: Global,
    recorder: &mut Recorder,
    names: &[&'a str],
    lost: &[Lost],
) -> Result<Vec<RecordedLog<'a>>, AllocError>
    ensures { IfOk result (λ logs. AreRecorded (texts_of names.now) logs.items) }
{
    let mut logs = Vec::new(alloc);
    for name in names {
        push_recorded(&mut logs, texts, alloc, recorder, name, lost)?;
    }
    Ok(logs)
}

/// Records a log, and adds how that ended.
fn push_recorded<'a, T: Logs>(
    logs: &mut Vec<RecordedLog<'a>>,
    texts: &T,
    alloc: Global,
    recorder: &mut Recorder,
    name: &'a str,
    lost: &[Lost],
) -> Result<(), AllocError>
    ensures { IfOk result (λ _. MoreRecorded name.now logs.old.items logs.new.items) }
{
    let outcome = match loss_at(lost, logs.len()) {
        Some(why) => lost_outcome(alloc, why)?,
        None => record_one(texts, alloc, recorder, name)?,
    };
    logs.push(RecordedLog { name, outcome })?;
    Ok(())
}

/// A log that was recorded, and can't be read again.
fn lost_outcome(alloc: Global, why: &str) -> Result<Outcome, AllocError>
    ensures { IfOk result IsUntried }
{
    Ok(Outcome::Unread(String::from_str(alloc, why)?))
}

/// Records a log, and answers how that ended.
fn record_one<T: Logs>(
    texts: &T,
    alloc: Global,
    recorder: &mut Recorder,
    name: &str,
) -> Result<Outcome, AllocError>
    ensures { IfOk result IsUntried }
{
    let log = match texts.open(name) {
        Ok(log) => log,
        Err(unread) => return Ok(Outcome::Unread(words_of(alloc, &unread)?)),
    };
    match record_log(alloc, recorder, log) {
        Ok(recorded) => Ok(outcome_of(recorded)),
        Err(LogFault::Failed(error)) => {
            Ok(Outcome::Unread(words_of(alloc, &Unread::Failed(error))?))
        }
        Err(_) => Err(AllocError),
    }
}

/// How the recording of a log ended. A full one was read.
fn outcome_of(recorded: Recorded) -> Outcome
    ensures { IsUntried result }
{
    match recorded {
        Recorded::Read | Recorded::Full => Outcome::Read,
        Recorded::Unreadable { number, why } => Outcome::Ended(Ending::Unreadable { number, why }),
    }
}

/// Whether one of these logs was read.
pub fn is_any_read(logs: &[RecordedLog<'_>]) -> bool
    ensures { result ≡ false → All (λ (log : SpecLog). is_read log.outcome ≡ false) logs.now }
{
    for log in logs {
        if log.outcome.is_read() {
            return true;
        }
    }
    false
}
