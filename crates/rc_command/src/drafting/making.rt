//! A model is drafted from what was recorded.

ghost use Rattle.std.specs.Prelude.{IfOk};
ghost use Rattle.rc_command.specs.Drafting.{AreRecorded, texts_of};

use crate::departures::logs::Logs;
use crate::drafting::again::{Lost, ReadLogs, loss_words, place_of, read_names};
use crate::drafting::outcome::RecordedLog;
use crate::drafting::recording::record_logs;
use rc_console::command::Drafting;
use rc_draft::draft::{Drafted, draft};
use rc_replay::again::{Loss, ReplayFault};
use rc_replay::recording::Recorder;
use rc_replay::replay::{Replay, replay_logs};
use rc_rewrite::keeps::kept_text;
use std::alloc::{AllocError, Global};
use std::mem::swap;

/// Records the logs, and drafts from them. Those that can't be read again are left out.
pub fn recorded_and_made<'a, T: Logs>(
    texts: &T,
    alloc: Global,
    asked: &Drafting<'a>,
) -> Result<(Vec<RecordedLog<'a>>, Drafted), AllocError>
    ensures { IfOk result (λ made. AreRecorded (texts_of asked.now.logs.items) made.0.items) }
{
    let mut lost = Vec::new(alloc);
    for _ in 0..asked.logs.len() {
        let (logs, made) = record_and_make(texts, alloc, asked, &mut lost)?;
        if let Some(drafted) = made {
            return Ok((logs, drafted));
        }
    }
    let mut recorder = Recorder::new(alloc)?;
    let logs = record_logs(texts, alloc, &mut recorder, &asked.logs, &lost)?;
    Ok((logs, nothing(alloc)))
}

/// Records the logs but for those that are lost, and drafts from them unless one more is lost.
fn record_and_make<'a, T: Logs>(
    texts: &T,
    alloc: Global,
    asked: &Drafting<'a>,
    lost: &mut Vec<Lost>,
) -> Result<(Vec<RecordedLog<'a>>, Option<Drafted>), AllocError>
    ensures { IfOk result (λ made. AreRecorded (texts_of asked.now.logs.items) made.0.items) }
{
    let mut recorder = Box::new(alloc, Recorder::new(alloc)?)?;
    let logs = record_logs(texts, alloc, &mut recorder, &asked.logs, lost)?;
    let made = made_from(texts, alloc, asked, recorder, &logs);
    let made = made_or_lost(alloc, made, &logs, lost)?;
    Ok((logs, made))
}

/// What is drafted from these logs, or none where one is lost.
fn made_or_lost(
    alloc: Global,
    made: Result<Drafted, ReplayFault>,
    logs: &[RecordedLog<'_>],
    lost: &mut Vec<Lost>,
) -> Result<Option<Drafted>, AllocError> {
    match made {
        Ok(drafted) => Ok(Some(drafted)),
        Err(ReplayFault::Lost { number, loss }) => {
            lose(alloc, logs, lost, number, loss)?;
            Ok(None)
        }
        Err(ReplayFault::OutOfMemory) => Err(AllocError),
    }
}

/// The log that was recorded with this number is lost.
fn lose(
    alloc: Global,
    logs: &[RecordedLog<'_>],
    lost: &mut Vec<Lost>,
    number: u32,
    loss: Loss,
) -> Result<(), AllocError> {
    let why = loss_words(alloc, loss)?;
    let place = place_of(logs, number);
    lost.push(Lost { place, why })?;
    Ok(())
}

/// The draft of no logs.
fn nothing(alloc: Global) -> Drafted {
    Drafted {
        text: Vec::new(alloc),
        notes: Vec::new(alloc),
    }
}

/// What is drafted from these logs.
fn made_from<T: Logs>(
    texts: &T,
    alloc: Global,
    asked: &Drafting<'_>,
    recorder: Box<Recorder>,
    logs: &[RecordedLog<'_>],
) -> Result<Drafted, ReplayFault> {
    let names = read_names(alloc, logs)?;
    let again = ReadLogs {
        texts,
        names: &names,
    };
    made_of(alloc, asked, recorder, &again)
}

/// What is drafted from the logs that were recorded. Of none it is nothing.
fn made_of<T: Logs>(
    alloc: Global,
    asked: &Drafting<'_>,
    recorder: Box<Recorder>,
    again: &ReadLogs<'_, '_, T>,
) -> Result<Drafted, ReplayFault> {
    if again.names.is_empty() {
        return Ok(nothing(alloc));
    }
    let mut replay = boxed_replay(alloc, recorder, again)?;
    drafted_of(alloc, asked, &mut replay, again)
}

/// The logs that were recorded, replayed.
fn boxed_replay<T: Logs>(
    alloc: Global,
    recorder: Box<Recorder>,
    again: &ReadLogs<'_, '_, T>,
) -> Result<Box<Replay>, ReplayFault> {
    let replay = replay_logs(alloc, Box::into_inner(recorder), again)?;
    Ok(boxed(alloc, replay)?)
}

/// The same in a box.
fn boxed(alloc: Global, replay: Replay) -> Result<Box<Replay>, AllocError> {
    Ok(Box::new(alloc, replay)?)
}

/// The draft from replayed logs, with what each loop keeps filled in; or only what doesn't fit the ownership in them.
fn drafted_of<T: Logs>(
    alloc: Global,
    asked: &Drafting<'_>,
    replay: &mut Replay,
    again: &ReadLogs<'_, '_, T>,
) -> Result<Drafted, ReplayFault> {
    let replayed = &mut replay.replayed;
    if asked.notes {
        return Ok(notes_of(alloc, &mut replayed.notes));
    }
    let drafted = draft(alloc, replayed, &mut replay.again, again, asked.loops)?;
    Ok(filled(alloc, drafted)?)
}

/// What doesn't fit the ownership in the logs.
fn notes_of(alloc: Global, noted: &mut Vec<Vec<u8>>) -> Drafted {
    let mut notes = Vec::new(alloc);
    swap(&mut notes, noted);
    Drafted {
        text: Vec::new(alloc),
        notes,
    }
}

/// The draft with what each loop keeps filled in. A text that can't be read stays as it is.
fn filled(alloc: Global, drafted: Drafted) -> Result<Drafted, AllocError> {
    let Drafted { text, notes } = drafted;
    match kept_text(alloc, &text)? {
        Ok(kept) => Ok(Drafted { text: kept, notes }),
        Err(_) => Ok(Drafted { text, notes }),
    }
}
