//! What was found of a model, in words, as JSON and as a picture.

ghost use Rattle.std.specs.Prelude.{◌≡◌, IfOk, None, Some, option_copied as named};
ghost use Rattle.serde_json.specs.View.{view};
ghost use Rattle.rc_report.specs.Verdicts.{finding, finding_of};
ghost use Rattle.rc_runs.specs.Finds.{found_by, found_json, found_object, found_text, heading, members_of, moves_line, run_by, run_data, run_of, search_text};
ghost use Rattle.rc_text.specs.Text.{Puts};

use crate::find::{Found, Searched};
use crate::harm::Harm;
use crate::search::Search;
use rc_picture::drawing::put_picture;
use rc_report::shown::put_shown;
use rc_report::verdict::{Finding, Verdict, print_verdict};
use rc_text::text::{put_counted, put_piece};
use rc_world::world::World;
use serde_json::{Value, json};
use std::alloc::{AllocError, Global};

/// A run as the values of an object.
#[derive(Drop)]
pub(crate) struct RunValues {
    pub(crate) moves: Value,
    pub(crate) trace: Value,
    pub(crate) walk: Value,
}

/// Adds what was found, in words: the verdict, with the file's name if there is one, and for a refused model the run's moves
/// and trace, or a line that says that no run was found.
pub fn put_found(
    text: &mut Vec<u8>,
    alloc: Global,
    file: Option<&str>,
    found: &Found,
) -> Result<(), AllocError>
    ensures { Puts text.old text.new (found_text (named file.entry) found.now) result }
{
    print_verdict(text, alloc, file, false, &found.verdict)?;
    match &found.searched {
        Some(searched) => put_search(text, &searched.search),
        None => Ok(()),
    }
}

/// Adds what a search found.
fn put_search(text: &mut Vec<u8>, search: &Search) -> Result<(), AllocError>
    ensures { Puts text.old text.new (search_text search.now) result }
{
    match &search.harm {
        Some(harm) => {
            put_heading(text, search.walks, harm)?;
            put_piece(text, harm.trace.as_bytes())
        }
        None => put_counted(
            text,
            b"no fault in ",
            u64::from(search.walks),
            b" walks: the model may lack detail, or try more `--walks`\n",
        ),
    }
}

/// Adds how a run was found by so many walks, and whether it leaves the refused line out.
fn put_heading(text: &mut Vec<u8>, walks: u32, harm: &Harm) -> Result<(), AllocError>
    ensures { Puts text.old text.new (heading walks harm.now) result }
{
    put_moves(text, walks, harm)?;
    if harm.is_reached {
        return Ok(());
    }
    put_piece(text, b"the refused line wasn't reached; another fault:\n")
}

/// Adds the number of the walk, and the moves. A run without steps has none.
fn put_moves(text: &mut Vec<u8>, walks: u32, harm: &Harm) -> Result<(), AllocError>
    ensures { Puts text.old text.new (moves_line walks harm.now) result }
{
    let walks = u64::from(walks);
    if harm.moves.is_empty() {
        return put_counted(text, b"found by walk ", walks, b", before the first step\n");
    }
    put_counted(text, b"found by walk ", walks, b": --moves ")?;
    put_piece(text, harm.moves.as_bytes())?;
    put_piece(text, b"\n")
}

/// Adds what was found as a JSON object, without spaces, its keys in order, and with a line feed. If the model is that of a
/// file it has the file's name. What isn't shown as it is is as `\u` and four hex digits.
pub fn put_found_json(
    text: &mut Vec<u8>,
    alloc: Global,
    file: Option<&str>,
    found: &Found,
) -> Result<(), AllocError>
    ensures { Puts text.old text.new (found_json (named file.entry) found.now) result }
{
    let object = object_of(alloc, file, found)?.to_string(alloc)?;
    put_shown(text, object.as_str())?;
    put_piece(text, b"\n")
}

/// What was found as a JSON object.
pub fn object_of(alloc: Global, file: Option<&str>, found: &Found) -> Result<Value, AllocError>
    ensures { IfOk result (λ v. view v ≡ found_object (named file.entry) found.now) }
{
    let run = run_values(&found.searched)?;
    found_object_of(alloc, file, &found.verdict, run)
}

/// The object of a verdict with the values of a run.
pub(crate) fn found_object_of(
    alloc: Global,
    file: Option<&str>,
    verdict: &Verdict,
    run: RunValues,
) -> Result<Value, AllocError>
    ensures { let values = members_of run.moves run.trace run.walk in
        IfOk result (λ v. view v ≡ found_by (named file.entry) values (finding verdict.now)) }
{
    match verdict.finding() {
        Some(finding) => finding_object(alloc, file, &finding, run),
        None => accepted_object(alloc, file, run),
    }
}

/// The object of a model that isn't accepted.
fn finding_object(
    alloc: Global,
    file: Option<&str>,
    finding: &Finding,
    run: RunValues,
) -> Result<Value, AllocError>
    ensures { let values = members_of run.moves run.trace run.walk in
        IfOk result (λ v. view v ≡ found_by (named file.entry) values (Some (finding_of finding.now))) }
{
    let RunValues { moves, trace, walk } = run;
    let (name, code, line) = (finding.name, finding.number, finding.line);
    let word = finding.word;
    match file {
        Some(file) => {
            json!(in alloc; {"cause": name, "code": code, "file": file, "line": line, "moves": moves, "trace": trace, "verdict": word, "walk": walk})
        }
        None => {
            json!(in alloc; {"cause": name, "code": code, "line": line, "moves": moves, "trace": trace, "verdict": word, "walk": walk})
        }
    }
}

/// The object of an accepted model.
fn accepted_object(alloc: Global, file: Option<&str>, run: RunValues) -> Result<Value, AllocError>
    ensures { let values = members_of run.moves run.trace run.walk in
        IfOk result (λ v. view v ≡ found_by (named file.entry) values None) }
{
    let RunValues { moves, trace, walk } = run;
    match file {
        Some(file) => {
            json!(in alloc; {"file": file, "moves": moves, "trace": trace, "verdict": "accepted", "walk": walk})
        }
        None => {
            json!(in alloc; {"moves": moves, "trace": trace, "verdict": "accepted", "walk": walk})
        }
    }
}

/// The JSON values of the run that was found; null if none was found.
fn run_values(searched: &Option<Searched>) -> Result<RunValues, AllocError>
    ensures { IfOk result (λ r. members_of r.moves r.trace r.walk ≡ run_data (run_of searched.now)) }
{
    match searched {
        Some(searched) => search_values(&searched.search),
        None => Ok(RunValues {
            moves: Value::Null,
            trace: Value::Null,
            walk: Value::Null,
        }),
    }
}

/// The same of a search.
fn search_values(search: &Search) -> Result<RunValues, AllocError>
    ensures { IfOk result (λ r. members_of r.moves r.trace r.walk ≡ run_data (run_by search.now.walks search.now.harm)) }
{
    match &search.harm {
        Some(harm) => Ok(RunValues {
            moves: Value::String(harm.moves.clone()?),
            trace: Value::String(harm.trace.clone()?),
            walk: Value::from(search.walks),
        }),
        None => Ok(RunValues {
            moves: Value::Null,
            trace: Value::Null,
            walk: Value::Null,
        }),
    }
}

/// Adds the picture of the run that was found to the answer, and how it was found to the notes. If none was found, the
/// answer is the one in words.
pub fn put_found_picture(
    answer: &mut Vec<u8>,
    notes: &mut Vec<u8>,
    alloc: Global,
    file: Option<&str>,
    bytes: &[u8],
    found: &Found,
) -> Result<(), AllocError> {
    let Some(Searched { program, search }) = &found.searched else {
        return put_found(answer, alloc, file, found);
    };
    let Some(harm) = &search.harm else {
        return put_found(answer, alloc, file, found);
    };
    put_heading(notes, search.walks, harm)?;
    let mut world = World::start(alloc, program)?;
    put_picture(answer, alloc, bytes, &harm.items, 1, &mut world)?;
    Ok(())
}
