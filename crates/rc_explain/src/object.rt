//! A verdict and what explains it, as JSON.

ghost use Rattle.std.specs.Prelude.{◌≡◌, IfOk, OnOk, option_copied as named, string_bytes};
ghost use Rattle.serde_json.specs.Data.{string};
ghost use Rattle.serde_json.specs.View.{view};
ghost use Rattle.rc_explain.specs.Explains.{IsObjectOf, TellsLine, TellsVerdict};
ghost use Rattle.rc_explain.specs.Members.{IsNamed, IsPut, whole};
ghost use Rattle.rc_report.specs.declared.verdict.Verdict.TheVariants.{Accepted, Refused, Unreadable};

use crate::explanation::{Explanation, Reason};
use crate::listing::{Entry, entries_of};
use rc_read::ReadCause;
use rc_report::verdict::{Refusal, Verdict};
use rc_rules::side::Side;
use rc_rules::state::State;
use rc_sentences::state_text::put_state;
use rc_sentences::walked::Walked;
use serde_json::{Map, Value, json};
use std::alloc::{AllocError, Global};

type Members = Map<String, Value>;

/// An explanation, and the name of the file if it is of a file: one object without spaces, its keys in order.
pub fn object_text(
    alloc: Global,
    file: Option<&str>,
    explanation: &Explanation<'_>,
) -> Result<String, AllocError>
    ensures { IfOk result (λ json.
        IsObjectOf (named file.entry) explanation.now.verdict (string_bytes json)) }
{
    let mut members = members_of(alloc, explanation, explanation.verdict)?;
    put_file(alloc, &mut members, file)?;
    let object = Value::Object(members).to_string(alloc)?;
    Ok(object)
}

/// Adds the name of a file, if there is one.
fn put_file(alloc: Global, members: &mut Members, file: Option<&str>) -> Result<(), AllocError>
    ensures { OnOk result (IsNamed (named file.entry) members.old members.new) }
{
    match file {
        Some(name) => put_text(alloc, members, "file", name),
        None => Ok(()),
    }
}

/// The members of an explanation of this verdict.
fn members_of(
    alloc: Global,
    explanation: &Explanation<'_>,
    verdict: Verdict,
) -> Result<Members, AllocError>
    ensures { IfOk result (λ members. TellsVerdict verdict (whole members)) }
{
    match verdict {
        Verdict::Accepted => accepted_members(alloc, explanation),
        Verdict::Refused(refusal) => refused_members(alloc, explanation, refusal),
        Verdict::Unreadable { line, cause } => unreadable_members(alloc, explanation, line, cause),
    }
}

/// Adds a member, or gives it this value.
fn put(alloc: Global, members: &mut Members, key: &str, value: Value) -> Result<(), AllocError>
    ensures put { OnOk result (IsPut key.now (view value) members.old members.new) }
{
    let name = String::from_str(alloc, key)?;
    drop(members.insert(name, value)?);
    Ok(())
}

/// Adds a member that is a string.
fn put_text(alloc: Global, members: &mut Members, key: &str, text: &str) -> Result<(), AllocError>
    ensures put { OnOk result (IsPut key.now (string text.now) members.old members.new) }
{
    let text = String::from_str(alloc, text)?;
    put(alloc, members, key, Value::from(text))?;
    Ok(())
}

/// Adds what the line of a verdict says: its word, and the line that isn't good with its cause.
fn put_line(
    alloc: Global,
    members: &mut Members,
    word: &str,
    name: &str,
    code: u32,
    line: u32,
) -> Result<(), AllocError>
    ensures { OnOk result (TellsLine word.now name.now code line (whole members.new)) }
{
    put_text(alloc, members, "cause", name)?;
    put(alloc, members, "code", Value::from(code))?;
    put(alloc, members, "line", Value::from(line))?;
    put_text(alloc, members, "verdict", word)?;
    Ok(())
}

/// What is said of an accepted program.
fn accepted_members(alloc: Global, explanation: &Explanation<'_>) -> Result<Members, AllocError>
    ensures { IfOk result (λ members. TellsVerdict Accepted (whole members)) }
{
    let notes = notes_of(alloc, explanation)?;
    let threads = threads_of(alloc, explanation)?;
    let mut members = Map::new(alloc);
    put(alloc, &mut members, "notes", Value::Array(notes))?;
    put(alloc, &mut members, "threads", Value::Array(threads))?;
    put_text(alloc, &mut members, "verdict", "accepted")?;
    Ok(members)
}

/// What is said of a refused line.
fn refused_members(
    alloc: Global,
    explanation: &Explanation<'_>,
    refusal: Refusal,
) -> Result<Members, AllocError>
    ensures { IfOk result (λ members. TellsVerdict (Refused refusal) (whole members)) }
{
    let Refusal { line, cause } = refusal;
    let mut members = Map::new(alloc);
    put_reason(alloc, &mut members, explanation, "asks")?;
    let notes = notes_of(alloc, explanation)?;
    put(alloc, &mut members, "notes", Value::Array(notes))?;
    let threads = threads_of(alloc, explanation)?;
    put(alloc, &mut members, "threads", Value::Array(threads))?;
    put_line(
        alloc,
        &mut members,
        "refused",
        cause.name(),
        cause.number(),
        line,
    )?;
    Ok(members)
}

/// What is said of a line that can't be read.
fn unreadable_members(
    alloc: Global,
    explanation: &Explanation<'_>,
    line: u32,
    cause: ReadCause,
) -> Result<Members, AllocError>
    ensures { IfOk result (λ members. TellsVerdict (Unreadable line cause) (whole members)) }
{
    let mut members = Map::new(alloc);
    put_reason(alloc, &mut members, explanation, "hint")?;
    put_line(
        alloc,
        &mut members,
        "unreadable",
        cause.name(),
        u32::from(cause.number()),
        line,
    )?;
    Ok(members)
}

/// Adds the letter and the number of a cause, and why a line isn't good: what is wrong has this key.
fn put_reason(
    alloc: Global,
    members: &mut Members,
    explanation: &Explanation<'_>,
    fault: &str,
) -> Result<(), AllocError> {
    if let Some(finding) = explanation.verdict.finding() {
        let id = format!(in alloc; "{}{}", finding.letter, finding.number)?;
        put(alloc, members, "id", Value::String(id))?;
    }
    match &explanation.reason {
        Some(reason) => put_sentences(alloc, members, reason, fault),
        None => Ok(()),
    }
}

/// Adds what is wrong with a line, why it is a mistake, what to write, and where it is.
fn put_sentences(
    alloc: Global,
    members: &mut Members,
    reason: &Reason<'_>,
    fault: &str,
) -> Result<(), AllocError> {
    let sentences = &reason.sentences;
    put_bytes(alloc, members, fault, &sentences.fault)?;
    if let Some(lost) = &sentences.lost {
        put_bytes(alloc, members, "lost", lost)?;
    }
    if let Some(name) = reason.thread {
        put_bytes(alloc, members, "thread", name)?;
    }
    put_bytes(alloc, members, "fix", &sentences.fix)?;
    put_text(alloc, members, "why", sentences.why)
}

/// Adds a member that is a string. Its bytes are ASCII, as all words of the notation.
fn put_bytes(
    alloc: Global,
    members: &mut Members,
    key: &str,
    bytes: &[u8],
) -> Result<(), AllocError> {
    let text = string_of(alloc, bytes)?;
    put(alloc, members, key, Value::String(text))
}

/// Bytes as a string: they are ASCII.
fn string_of(alloc: Global, bytes: &[u8]) -> Result<String, AllocError> {
    let mut text = String::new(alloc);
    for byte in bytes {
        text.push(char::from(*byte))?;
    }
    Ok(text)
}

/// The notes on a program.
fn notes_of(alloc: Global, explanation: &Explanation<'_>) -> Result<Vec<Value>, AllocError> {
    let mut notes = Vec::new(alloc);
    for note in &explanation.notes {
        let text = string_of(alloc, &note.text)?;
        notes.push(Value::String(text))?;
    }
    Ok(notes)
}

/// The listed threads: of an accepted program all, of a refused one that of the refused line.
fn threads_of(alloc: Global, explanation: &Explanation<'_>) -> Result<Vec<Value>, AllocError> {
    let mut threads = Vec::new(alloc);
    for walked in &explanation.accepted {
        push_thread(alloc, &mut threads, walked)?;
    }
    if let Some(walked) = &explanation.refused {
        push_thread(alloc, &mut threads, walked)?;
    }
    Ok(threads)
}

/// Adds a thread: its lines that something reaches, and its name.
fn push_thread(
    alloc: Global,
    threads: &mut Vec<Value>,
    walked: &Walked<'_>,
) -> Result<(), AllocError> {
    let mut lines = Vec::new(alloc);
    for entry in entries_of(alloc, walked)? {
        if let Entry::Reached(number, state) = entry {
            push_line(alloc, &mut lines, number, state)?;
        }
    }
    let name = string_of(alloc, walked.thread.declared_name())?;
    let thread = json!(in alloc; {"lines": lines, "name": name})?;
    Ok(threads.push(thread)?)
}

/// Adds a line on each side that something reaches.
fn push_line(
    alloc: Global,
    lines: &mut Vec<Value>,
    number: u32,
    state: &State<'_>,
) -> Result<(), AllocError> {
    let (zero, other) = match state.flag() {
        Some(_) => (Some("0"), Some("not 0")),
        None => (None, None),
    };
    push_side(alloc, lines, number, state.on(true), zero)?;
    push_side(alloc, lines, number, state.on(false), other)
}

/// Adds a line on a side that something reaches; which one, in a thread with a flag.
fn push_side(
    alloc: Global,
    lines: &mut Vec<Value>,
    number: u32,
    side: &Side<'_>,
    flag: Option<&str>,
) -> Result<(), AllocError> {
    if !side.is_live() {
        return Ok(());
    }
    let mut text = Vec::new(alloc);
    put_state(&mut text, side.view().program, side)?;
    let before = string_of(alloc, &text)?;
    let line = match flag {
        Some(flag) => json!(in alloc; {"before": before, "flag": flag, "line": number})?,
        None => json!(in alloc; {"before": before, "line": number})?,
    };
    Ok(lines.push(line)?)
}
