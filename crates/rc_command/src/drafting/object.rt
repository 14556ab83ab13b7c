//! What is printed of a draft and its logs, as one JSON object.

ghost use Rattle.std.specs.Prelude.{◌≡◌, ◌++◌, ◌∷◌, [], None, Some, IfOk, map};
ghost use Rattle.serde_json.specs.View.{view};
ghost use Rattle.rc_report.specs.Verdicts.{finding, finding_object, finding_of};
ghost use Rattle.rc_command.specs.Drafting as spec;
ghost use Rattle.rc_command.specs.Drafting.{end_object, note_string, object_line};
ghost use Rattle.rc_text.specs.Text.{Puts};

use crate::departures::object::{object_of, put_object};
use crate::drafting::outcome::{LogEnd, Outcome};
use rc_draft::draft::Drafted;
use rc_report::verdict::{Finding, Verdict};
use serde_json::{Value, json};
use std::alloc::{AllocError, Global};

/// Adds a draft with its notes, the verdict on it, and how each log ends.
pub fn put_draft_object(
    text: &mut Vec<u8>,
    alloc: Global,
    drafted: &Drafted,
    verdict: &Verdict,
    ends: &[LogEnd<'_, '_>],
) -> Result<(), AllocError>
    ensures { Puts text.old text.new (object_line (spec.draft_object drafted.now.text.items drafted.now.notes.items verdict.now ends.now)) result }
{
    let object = draft_object(alloc, drafted, verdict, ends)?;
    put_object(text, alloc, &object)
}

/// Adds notes, and how each log ends.
pub fn put_notes_object(
    text: &mut Vec<u8>,
    alloc: Global,
    notes: &[Vec<u8>],
    ends: &[LogEnd<'_, '_>],
) -> Result<(), AllocError>
    ensures { Puts text.old text.new (object_line (spec.notes_object notes.now ends.now)) result }
{
    let object = notes_object(alloc, notes, ends)?;
    put_object(text, alloc, &object)
}

fn draft_object(
    alloc: Global,
    drafted: &Drafted,
    verdict: &Verdict,
    ends: &[LogEnd<'_, '_>],
) -> Result<Value, AllocError>
    ensures { IfOk result (λ v. view v ≡ spec.draft_object drafted.now.text.items drafted.now.notes.items verdict.now ends.now) }
{
    let logs = end_objects(alloc, ends)?;
    let notes = note_strings(alloc, &drafted.notes)?;
    let text = String::from_utf8_lossy(alloc, &drafted.text)?;
    let verdict = verdict_object(alloc, verdict)?;
    json!(in alloc; {"logs": logs, "notes": notes, "text": text, "verdict": verdict})
}

fn notes_object(
    alloc: Global,
    notes: &[Vec<u8>],
    ends: &[LogEnd<'_, '_>],
) -> Result<Value, AllocError>
    ensures { IfOk result (λ v. view v ≡ spec.notes_object notes.now ends.now) }
{
    let logs = end_objects(alloc, ends)?;
    let notes = note_strings(alloc, notes)?;
    json!(in alloc; {"logs": logs, "notes": notes})
}

fn verdict_object(alloc: Global, verdict: &Verdict) -> Result<Value, AllocError>
    ensures { IfOk result (λ v. view v ≡ finding_object None (finding verdict.now)) }
{
    match verdict.finding() {
        None => json!(in alloc; {"verdict": "accepted"}),
        Some(finding) => finding_value(alloc, finding),
    }
}

fn finding_value(alloc: Global, finding: Finding) -> Result<Value, AllocError>
    ensures { IfOk result (λ v. view v ≡ finding_object None (Some (finding_of finding))) }
{
    let Finding {
        word,
        line,
        number,
        name,
        ..
    } = finding;
    json!(in alloc; {"cause": name, "code": number, "line": line, "verdict": word})
}

fn end_objects(alloc: Global, ends: &[LogEnd<'_, '_>]) -> Result<Value, AllocError>
    ensures { IfOk result (λ v. view v ≡ spec.end_objects ends.now) }
{
    let mut objects = Vec::new(alloc);
    for end in ends {
        push_end(&mut objects, alloc, end)?;
    }
    Ok(Value::Array(objects))
}

fn push_end(objects: &mut Vec<Value>, alloc: Global, end: &LogEnd<'_, '_>) -> Result<(), AllocError>
    ensures { IfOk result (λ _. map view objects.new.items ≡ map view objects.old.items ++ end_object end.now ∷ []) }
{
    let object = outcome_object(alloc, end.log.name, end.outcome())?;
    objects.push(object)?;
    Ok(())
}

fn outcome_object(alloc: Global, log: &str, outcome: &Outcome) -> Result<Value, AllocError>
    ensures { IfOk result (λ v. view v ≡ spec.outcome_object log.now outcome.now) }
{
    match outcome {
        Outcome::Read => json!(in alloc; {"answer": "read", "log": log}),
        Outcome::Ended(ending) => object_of(alloc, log, ending),
        Outcome::Unread(why) => {
            json!(in alloc; {"answer": "unread", "log": log, "why": why.as_str()})
        }
    }
}

fn note_strings(alloc: Global, notes: &[Vec<u8>]) -> Result<Value, AllocError>
    ensures { IfOk result (λ v. view v ≡ spec.note_strings notes.now) }
{
    let mut strings = Vec::new(alloc);
    for note in notes {
        push_note(&mut strings, alloc, note)?;
    }
    Ok(Value::Array(strings))
}

fn push_note(strings: &mut Vec<Value>, alloc: Global, note: &Vec<u8>) -> Result<(), AllocError>
    ensures { IfOk result (λ _. map view strings.new.items ≡ map view strings.old.items ++ note_string note.now ∷ []) }
{
    let text = String::from_utf8_lossy(alloc, note)?;
    strings.push(Value::from(text))?;
    Ok(())
}
