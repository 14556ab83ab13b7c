//! Models that are drafted from logs, checked, and followed.

ghost use Rattle.std.specs.Prelude.{◌≡◌, ◌≤◌, All, IfOk, List};
ghost use Rattle.rc_command.specs.Drafting.{AreRecorded, AreUntried, IsRefusedSaid, IsUntried, SaysDraft, SaysOfText, SaysTried, notes_said, recorded_names, texts_of};
ghost use Rattle.rc_command.specs.Following.{AnswersWhole, HasSaid};
ghost use Rattle.rc_command.specs.declared.drafting.outcome.LogEnd.{LogEnd as SpecEnd};
ghost use Rattle.rc_command.specs.declared.drafting.outcome.RecordedLog.{RecordedLog as SpecLog};
ghost use Rattle.rc_report.specs.Streams.{CanWrite};

use crate::departures::answer::Answer;
use crate::departures::logs::Logs;
use crate::departures::telling::tell_answer;
use crate::drafting::making::recorded_and_made;
use crate::drafting::outcome::RecordedLog;
use crate::drafting::recording::is_any_read;
use crate::drafting::telling::{
    accepted_text, draft_object, notes_object, notes_text, refused_text,
};
use crate::drafting::trying::{tried, untried};
use rc_console::command::Drafting;
use rc_console::fault::CommandFault;
use rc_draft::draft::Drafted;
use rc_lang::program::Program;
use rc_report::check_engine::judged;
use rc_report::streams::Sink;
use rc_report::verdict::Verdict;
use std::alloc::{AllocError, Global};

/// Drafts a model from logs and writes it, checks that text, follows the logs over it, and reports what comes out. Answers
/// the greatest status of the verdict and the logs.
pub fn draft_logs<T: Logs, S: Sink, E: Sink>(
    texts: &T,
    alloc: Global,
    asked: &Drafting<'_>,
    sink: &mut S,
    errors: &mut E,
) -> Result<u8, CommandFault>
    requires writes { CanWrite (S.state sink.old) }
    requires told { (E.state errors.old).failures ≤ 1 }
    ensures answer { AnswersWhole (SaysDraft (T.opens texts.now) asked.now) S.state sink.old sink.new E.state errors.old errors.new result }
    ensures status { IfOk result (λ status. status ≤ 3) }
    ensures failures { IfOk result (λ _. (S.state sink.new).failures ≡ (S.state sink.old).failures) }
{
    let answer = answer_to(texts, alloc, asked)?;
    tell_answer(&answer, sink, errors)
}

/// The answer to these logs.
fn answer_to<T: Logs>(texts: &T, alloc: Global, asked: &Drafting<'_>) -> Result<Answer, AllocError>
    ensures { IfOk result (HasSaid (SaysDraft (T.opens texts.now) asked.now)) }
{
    let (logs, drafted) = recorded_and_made(texts, alloc, asked)?;
    answer_recorded(texts, alloc, asked, &logs, &drafted)
}

/// The answer to logs whose recording ended so, with what is drafted from them.
fn answer_recorded<T: Logs>(
    texts: &T,
    alloc: Global,
    asked: &Drafting<'_>,
    logs: &[RecordedLog<'_>],
    drafted: &Drafted,
) -> Result<Answer, AllocError>
    requires { AreRecorded (texts_of asked.now.logs.items) logs.now }
    ensures { IfOk result (HasSaid (SaysDraft (T.opens texts.now) asked.now)) }
{
    if !is_any_read(logs) {
        return notes_answer(alloc, logs, &[], asked.json);
    }
    if asked.notes {
        return notes_answer(alloc, logs, &drafted.notes, asked.json);
    }
    draft_answer(texts, alloc, logs, drafted, asked.json)
}

/// The answer with the notes alone.
fn notes_answer(
    alloc: Global,
    logs: &[RecordedLog<'_>],
    notes: &[Vec<u8>],
    json: bool,
) -> Result<Answer, AllocError>
    ensures { IfOk result (HasSaid (λ said. (ends : List SpecEnd) × AreUntried logs.now ends × (said ≡ notes_said json notes.now ends))) }
{
    let ends = untried(alloc, logs)?;
    if json {
        return notes_object(alloc, notes, &ends);
    }
    notes_text(alloc, notes, &ends)
}

/// The answer with a draft.
fn draft_answer<T: Logs>(
    texts: &T,
    alloc: Global,
    logs: &[RecordedLog<'_>],
    drafted: &Drafted,
    json: bool,
) -> Result<Answer, AllocError>
    requires { All (λ (log : SpecLog). IsUntried log.outcome) logs.now }
    ensures { IfOk result (HasSaid (SaysOfText (T.opens texts.now) json (recorded_names logs.now) drafted.now.text.items drafted.now.notes.items)) }
{
    match judged(alloc, &drafted.text)? {
        Ok(admitted) => accepted(texts, alloc, admitted.program(), logs, drafted, json),
        Err(verdict) => refused(alloc, verdict, logs, drafted, json),
    }
}

/// The answer with a draft that is accepted as this program.
fn accepted<T: Logs>(
    texts: &T,
    alloc: Global,
    program: &Program,
    logs: &[RecordedLog<'_>],
    drafted: &Drafted,
    json: bool,
) -> Result<Answer, AllocError>
    requires { All (λ (log : SpecLog). IsUntried log.outcome) logs.now }
    ensures { IfOk result (HasSaid (SaysTried (T.opens texts.now) json program.now (recorded_names logs.now) drafted.now.text.items drafted.now.notes.items)) }
{
    let ends = tried(texts, alloc, program, &drafted.text, logs)?;
    if json {
        return draft_object(alloc, Verdict::Accepted, drafted, &ends);
    }
    accepted_text(alloc, drafted, &ends)
}

/// The answer with a draft that isn't accepted.
fn refused(
    alloc: Global,
    verdict: Verdict,
    logs: &[RecordedLog<'_>],
    drafted: &Drafted,
    json: bool,
) -> Result<Answer, AllocError>
    ensures { IfOk result (HasSaid (λ said. (ends : List SpecEnd) × AreUntried logs.now ends × IsRefusedSaid json drafted.now.text.items drafted.now.notes.items verdict ends said)) }
{
    let ends = untried(alloc, logs)?;
    if json {
        return draft_object(alloc, verdict, drafted, &ends);
    }
    refused_text(alloc, verdict, drafted, &ends)
}
