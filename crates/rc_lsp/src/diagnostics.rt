//! Diagnostics as JSON.

ghost use Rattle.std.specs.Prelude.{◌≡◌, ◌∷◌, IfOk};
ghost use Rattle.serde_json.specs.View.{items_view, view};
ghost use Rattle.rc_read.specs.Answer.{answer_of};
ghost use Rattle.rc_report.specs.Checks.{IsVerdict};
ghost use Rattle.rc_report.specs.Verdicts.{finding, finding_of};
ghost use Rattle.rc_lsp.specs.Published.{AreHints, BeginsAt, IsError, IsHint, Tells};

use rc_explain::diagnosis::{Diagnosis, Words, diagnose};
use rc_explain::notes::Note;
use rc_explain::span::Span;
use rc_report::verdict::{Finding, Verdict};
use serde_json::{Value, json};
use std::alloc::{AllocError, Global};

/// Where what is published can be read about: the document by its URI, and the folder with the documents of Ringcheck by
/// its own, if it is known.
#[derive(Clone, Copy)]
pub struct Place<'a> {
    pub uri: &'a str,
    pub docs: Option<&'a str>,
}

/// A verdict, and the diagnostics that report it.
#[derive(Drop)]
pub struct Judged {
    pub verdict: Verdict,
    pub diagnostics: Vec<Value>,
}

/// Judges a model.
pub fn judge(alloc: Global, place: Place<'_>, text: &[u8]) -> Result<Judged, AllocError>
    ensures verdict { IfOk result (λ judged. IsVerdict (answer_of text.now) judged.verdict) }
    ensures reported { IfOk result (λ judged. Tells (finding judged.verdict) (items_view judged.diagnostics.items)) }
{
    let diagnosis = diagnose(alloc, text)?;
    let verdict = diagnosis.verdict;
    let diagnostics = diagnostics_of(alloc, place, diagnosis)?;
    Ok(Judged {
        verdict,
        diagnostics,
    })
}

/// The diagnostics of a model: the error of its verdict first, if there is one, and then the notes as hints.
fn diagnostics_of(
    alloc: Global,
    place: Place<'_>,
    diagnosis: Diagnosis,
) -> Result<Vec<Value>, AllocError>
    ensures { IfOk result (λ list. Tells (finding diagnosis.verdict) (items_view list.items)) }
{
    let Diagnosis {
        verdict,
        words,
        notes,
    } = diagnosis;
    let hints = hints_of(alloc, notes)?;
    match verdict.finding() {
        Some(finding) => {
            let error = error_of(alloc, place, &finding, &words)?;
            with_first(error, hints)
        }
        None => Ok(hints),
    }
}

/// Hints after an error.
fn with_first(error: Value, mut hints: Vec<Value>) -> Result<Vec<Value>, AllocError>
    ensures { IfOk result (λ list. list.items ≡ error ∷ hints.items) }
{
    hints.insert(0, error)?;
    Ok(hints)
}

/// The error of a finding, at the words of its line.
fn error_of(
    alloc: Global,
    place: Place<'_>,
    finding: &Finding,
    words: &Option<Words>,
) -> Result<Value, AllocError>
    ensures { IfOk result (λ v. IsError (finding_of finding.now) (view v)) }
{
    let line = finding.line.saturating_sub(1);
    let code = format!(in alloc; "{}{}", finding.letter, finding.number)?;
    let range = range_of(alloc, line, line, span_of(words))?;
    let link = link_of(alloc, place, finding)?;
    let message = message_of(alloc, finding, words)?;
    let related = related_of(alloc, place, words)?;
    match link {
        Some(link) => {
            json!(in alloc; {"code": code, "codeDescription": {"href": link}, "message": message, "range": range, "relatedInformation": related, "severity": 1, "source": "ringcheck"})
        }
        None => {
            json!(in alloc; {"code": code, "message": message, "range": range, "relatedInformation": related, "severity": 1, "source": "ringcheck"})
        }
    }
}

/// Where in its line an error is; at its beginning where nothing is known of it.
fn span_of(words: &Option<Words>) -> Span {
    match words {
        Some(words) => words.span,
        None => Span { from: 0, to: 0 },
    }
}

/// A range, from a character of a line up to one of another, from 0.
fn range_of(alloc: Global, first: u32, last: u32, span: Span) -> Result<Value, AllocError>
    ensures { IfOk result (λ v. BeginsAt first (view v)) }
{
    json!(in alloc; {"end": {"character": span.to, "line": last}, "start": {"character": span.from, "line": first}})
}

/// Where more is said of a cause, as `docs/causes.md#v8-noshare`.
fn link_of(
    alloc: Global,
    place: Place<'_>,
    finding: &Finding,
) -> Result<Option<String>, AllocError> {
    let Some(docs) = place.docs else {
        return Ok(None);
    };
    let (letter, number, name) = (finding.letter, finding.number, finding.name);
    let mut link = String::from_str(alloc, docs)?;
    link.push_str("/causes.md#")?;
    push_lower(&mut link, letter)?;
    write!(link, "{number}-")?;
    push_lower(&mut link, name)?;
    Ok(Some(link))
}

/// Adds a name in small letters.
fn push_lower(text: &mut String, name: &str) -> Result<(), AllocError> {
    for c in name.chars() {
        text.push(c.to_ascii_lowercase())?;
    }
    Ok(())
}

/// What is said of a finding: the name of its cause, and what explains it.
fn message_of(
    alloc: Global,
    finding: &Finding,
    words: &Option<Words>,
) -> Result<String, AllocError> {
    match words {
        Some(words) => String::from_utf8_lossy(alloc, &words.text),
        None => String::from_str(alloc, finding.name),
    }
}

/// The last line before which the missing part was held, as related information; an empty list if there is none.
fn related_of(alloc: Global, place: Place<'_>, words: &Option<Words>) -> Result<Value, AllocError> {
    let Some(
        Words {
            held: Some(held),
            ..
        },
    ) = words
    else {
        return json!(in alloc; []);
    };
    let line = held.saturating_sub(1);
    let range = range_of(alloc, line, line, Span { from: 0, to: 0 })?;
    json!(in alloc; [{"location": {"range": range, "uri": place.uri}, "message": "last held before this line"}])
}

/// The hints of notes.
fn hints_of(alloc: Global, notes: Vec<Note>) -> Result<Vec<Value>, AllocError>
    ensures { IfOk result (λ list. AreHints (items_view list.items)) }
{
    let mut hints = Vec::with_capacity(alloc, notes.len())?;
    for note in notes {
        hints.push(hint_of(alloc, note)?)?;
    }
    Ok(hints)
}

/// The hint of a note. Lines that nothing reaches are tagged as unnecessary.
fn hint_of(alloc: Global, note: Note) -> Result<Value, AllocError>
    ensures { IfOk result (λ v. IsHint (view v)) }
{
    let whole = Span { from: 0, to: 0 };
    let range = range_of(alloc, note.first.saturating_sub(1), note.last, whole)?;
    let is_unreached = note.is_unreached;
    let message = sentence_of(alloc, note.text);
    if is_unreached {
        return json!(in alloc; {"message": message, "range": range, "severity": 4, "source": "ringcheck", "tags": [1]});
    }
    json!(in alloc; {"message": message, "range": range, "severity": 4, "source": "ringcheck"})
}

/// The sentence of a note. It has ASCII alone, as the words of each model that can be read.
fn sentence_of(alloc: Global, text: Vec<u8>) -> String {
    match String::from_utf8(text) {
        Ok(sentence) => sentence,
        Err(_) => String::new(alloc),
    }
}
