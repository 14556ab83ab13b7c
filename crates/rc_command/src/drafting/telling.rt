//! Answers with a draft or its notes, made in memory.

ghost use Rattle.std.specs.Prelude.{◌≡◌, ◌≤◌, IfOk, false, true};
ghost use Rattle.rc_command.specs.Drafting as spec;
ghost use Rattle.rc_command.specs.Drafting.{IsRefusedSaid, accepted_line, notes_said, object_said, text_said};
ghost use Rattle.rc_command.specs.Following.{HasSaid};
ghost use Rattle.rc_report.specs.declared.verdict.Verdict.TheVariants.{Accepted};

use crate::departures::answer::Answer;
use crate::drafting::object::{put_draft_object, put_notes_object};
use crate::drafting::outcome::LogEnd;
use crate::drafting::printed::{put_accepted, put_ends, put_notes, status_of};
use rc_console::command::Form;
use rc_draft::draft::Drafted;
use rc_explain::engine::put_explained;
use rc_report::status::{FAULT_STATUS, GOOD_STATUS};
use rc_report::verdict::Verdict;
use rc_text::text::put_piece;
use std::alloc::{AllocError, Global};

/// The answer with notes alone, as JSON.
pub fn notes_object(
    alloc: Global,
    notes: &[Vec<u8>],
    ends: &[LogEnd<'_, '_>],
) -> Result<Answer, AllocError>
    ensures { IfOk result (HasSaid (λ said. said ≡ notes_said true notes.now ends.now)) }
{
    let mut answer = Answer::new(alloc);
    put_notes_object(&mut answer.written, alloc, notes, ends)?;
    answer.status = status_of_notes(notes).max(status_of(ends));
    Ok(answer)
}

/// The answer with notes alone, a line each.
pub fn notes_text(
    alloc: Global,
    notes: &[Vec<u8>],
    ends: &[LogEnd<'_, '_>],
) -> Result<Answer, AllocError>
    ensures { IfOk result (HasSaid (λ said. said ≡ notes_said false notes.now ends.now)) }
{
    let mut answer = Answer::new(alloc);
    put_notes(&mut answer.written, notes)?;
    put_ends(&mut answer.reported, ends)?;
    answer.status = status_of_notes(notes).max(status_of(ends));
    Ok(answer)
}

/// The status of these notes: 1 if there is one.
fn status_of_notes(notes: &[Vec<u8>]) -> u8
    ensures value { result ≡ spec.status_of_notes notes.now }
    ensures bound { result ≤ 3 }
{
    match notes {
        [] => GOOD_STATUS,
        _ => FAULT_STATUS,
    }
}

/// The answer with a draft, as JSON.
pub fn draft_object(
    alloc: Global,
    verdict: Verdict,
    drafted: &Drafted,
    ends: &[LogEnd<'_, '_>],
) -> Result<Answer, AllocError>
    ensures { IfOk result (HasSaid (λ said. said ≡ object_said drafted.now.text.items drafted.now.notes.items verdict ends.now)) }
{
    let mut answer = Answer::new(alloc);
    put_draft_object(&mut answer.written, alloc, drafted, &verdict, ends)?;
    answer.status = verdict.status().max(status_of(ends));
    Ok(answer)
}

/// The answer with a draft that is accepted, whose logs ended so.
pub fn accepted_text(
    alloc: Global,
    drafted: &Drafted,
    ends: &[LogEnd<'_, '_>],
) -> Result<Answer, AllocError>
    ensures { IfOk result (HasSaid (λ said. said ≡ text_said drafted.now.text.items drafted.now.notes.items Accepted (accepted_line ends.now) ends.now)) }
{
    let mut answer = Answer::new(alloc);
    put_piece(&mut answer.written, &drafted.text)?;
    put_notes(&mut answer.reported, &drafted.notes)?;
    put_accepted(&mut answer.reported, ends)?;
    put_ends(&mut answer.reported, ends)?;
    answer.status = status_of(ends);
    Ok(answer)
}

/// The answer with a draft that isn't accepted, with what explains the verdict.
pub fn refused_text(
    alloc: Global,
    verdict: Verdict,
    drafted: &Drafted,
    ends: &[LogEnd<'_, '_>],
) -> Result<Answer, AllocError>
    ensures { IfOk result (HasSaid (IsRefusedSaid false drafted.now.text.items drafted.now.notes.items verdict ends.now)) }
{
    let mut answer = Answer::new(alloc);
    put_piece(&mut answer.written, &drafted.text)?;
    put_notes(&mut answer.reported, &drafted.notes)?;
    put_explained(
        &mut answer.reported,
        alloc,
        None,
        &drafted.text,
        Form::Words,
    )?;
    put_ends(&mut answer.reported, ends)?;
    answer.status = verdict.status().max(status_of(ends));
    Ok(answer)
}
