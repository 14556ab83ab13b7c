//! What a search for a run into a stuck world found, in words, as JSON and as a picture.

ghost use Rattle.std.specs.Prelude.{◌≡◌, IfOk, None, option_copied as named};
ghost use Rattle.serde_json.specs.View.{view};
ghost use Rattle.rc_runs.specs.Finds.{members_of};
ghost use Rattle.rc_runs.specs.FindsStuck as spec;
ghost use Rattle.rc_runs.specs.FindsStuck.{IsStuckJson, IsStuckText, stuck_data, stuck_heading, stuck_json, stuck_object, stuck_run_of, stuck_run_text, stuck_text};
ghost use Rattle.rc_text.specs.Text.{Puts, PutsSome};

use crate::found::{RunValues, found_object_of};
use crate::stuck::{StuckFound, StuckRun, StuckSearched};
use crate::stuck_text::had::Had;
use crate::stuck_text::moving::moved;
use crate::stuck_text::object::{threads_value, with_members};
use crate::stuck_text::waits::{Wait, put_waits, waits_of};
use rc_lang::program::Program;
use rc_picture::drawing::put_picture;
use rc_report::shown::put_shown;
use rc_report::verdict::print_verdict;
use rc_text::text::{put_counted, put_number, put_piece, put_pieces};
use rc_world::world::World;
use serde_json::Value;
use std::alloc::{AllocError, Global};

pub mod had;
mod lacking;
mod moving;
pub mod object;
pub mod rerun;
mod standing;
pub mod waits;

/// Adds what was found, in words: the verdict, with the file's name if there is one, and the run's moves and trace and
/// what each thread waits for, or a line that says that no run was found.
pub fn put_stuck_found(
    text: &mut Vec<u8>,
    alloc: Global,
    file: Option<&str>,
    found: &StuckFound,
) -> Result<(), AllocError>
    ensures { PutsSome (IsStuckText (named file.entry) found.now) text.old text.new result }
{
    let waits = found_waits(alloc, found)?;
    put_with_waits(text, alloc, file, found, &waits)
}

/// The same with these waits.
fn put_with_waits(
    text: &mut Vec<u8>,
    alloc: Global,
    file: Option<&str>,
    found: &StuckFound,
    waits: &[Wait],
) -> Result<(), AllocError>
    ensures { Puts text.old text.new (stuck_text (named file.entry) found.now waits.now) result }
{
    print_verdict(text, alloc, file, false, &found.verdict)?;
    match &found.searched {
        Some(searched) => put_searched(text, searched, waits),
        None => Ok(()),
    }
}

/// Adds what a search found.
fn put_searched(
    text: &mut Vec<u8>,
    searched: &StuckSearched,
    waits: &[Wait],
) -> Result<(), AllocError>
    ensures { Puts text.old text.new (spec.searched_text searched.now waits.now) result }
{
    let walks = searched.search.walks;
    match &searched.search.run {
        Some(run) => put_run(text, walks, run, waits),
        None => put_counted(text, b"not stuck in ", u64::from(walks), b" walks\n"),
    }
}

/// Adds a run that was found by so many walks.
fn put_run(text: &mut Vec<u8>, walks: u32, run: &StuckRun, waits: &[Wait]) -> Result<(), AllocError>
    ensures { Puts text.old text.new (stuck_run_text walks run.now waits.now) result }
{
    put_heading(text, walks, run)?;
    put_piece(text, run.trace.as_bytes())?;
    put_waits(text, b"", waits)
}

/// Adds how a run was found by so many walks. A run without steps has no moves.
fn put_heading(text: &mut Vec<u8>, walks: u32, run: &StuckRun) -> Result<(), AllocError>
    ensures { Puts text.old text.new (stuck_heading walks run.now) result }
{
    let (walks, events) = (u64::from(walks), run.items.len() as u64);
    if run.moves.is_empty() {
        return put_counted(text, b"stuck by walk ", walks, b", before the first step\n");
    }
    put_counted(text, b"stuck by walk ", walks, b" after ")?;
    put_number(text, events)?;
    put_pieces(text, &[b" events: --moves ", run.moves.as_bytes(), b"\n"])
}

/// What each thread waits for at the end of the run that was found, if one was.
fn found_waits(alloc: Global, found: &StuckFound) -> Result<Vec<Wait>, AllocError> {
    let Some(StuckSearched { program, search }) = &found.searched else {
        return Ok(Vec::new(alloc));
    };
    match &search.run {
        Some(run) => run_waits(alloc, program, run),
        None => Ok(Vec::new(alloc)),
    }
}

/// What each thread waits for at the end of a run.
fn run_waits(alloc: Global, program: &Program, run: &StuckRun) -> Result<Vec<Wait>, AllocError> {
    let had = Had::of_run(alloc, program, &run.items)?;
    let mut world = World::start(alloc, program)?;
    for item in &run.items {
        moved(&mut world, item)?;
    }
    waits_of(alloc, &world, &had)
}

/// Adds what was found as a JSON object, without spaces, its keys in order, and with a line feed. If the model is that of a
/// file it has the file's name. What isn't shown as it is is as `\u` and four hex digits.
pub fn put_stuck_json(
    text: &mut Vec<u8>,
    alloc: Global,
    file: Option<&str>,
    found: &StuckFound,
) -> Result<(), AllocError>
    ensures { PutsSome (IsStuckJson (named file.entry) found.now) text.old text.new result }
{
    let waits = found_waits(alloc, found)?;
    put_json_with(text, alloc, file, found, &waits)
}

/// The same with these waits.
fn put_json_with(
    text: &mut Vec<u8>,
    alloc: Global,
    file: Option<&str>,
    found: &StuckFound,
    waits: &[Wait],
) -> Result<(), AllocError>
    ensures { Puts text.old text.new (stuck_json (named file.entry) found.now waits.now) result }
{
    let object = object_with(alloc, file, found, waits)?.to_string(alloc)?;
    put_shown(text, object.as_str())?;
    put_piece(text, b"\n")
}

/// What was found as a JSON object.
pub fn stuck_object_of(
    alloc: Global,
    file: Option<&str>,
    found: &StuckFound,
) -> Result<Value, AllocError> {
    let waits = found_waits(alloc, found)?;
    object_with(alloc, file, found, &waits)
}

/// The same with these waits.
fn object_with(
    alloc: Global,
    file: Option<&str>,
    found: &StuckFound,
    waits: &[Wait],
) -> Result<Value, AllocError>
    ensures { IfOk result (λ v. view v ≡ stuck_object (named file.entry) found.now waits.now) }
{
    let run = run_values(found)?;
    let object = found_object_of(alloc, file, &found.verdict, run)?;
    let threads = threads_value(alloc, waits)?;
    with_members(alloc, object, has_run(found), threads)
}

/// Whether a run was found.
pub fn has_run(found: &StuckFound) -> bool
    ensures { result ≡ spec.has_run found.now }
{
    match &found.searched {
        Some(searched) => searched.search.run.is_some(),
        None => false,
    }
}

/// The JSON values of the run that was found; null if none was found.
fn run_values(found: &StuckFound) -> Result<RunValues, AllocError>
    ensures { IfOk result (λ r. members_of r.moves r.trace r.walk ≡ stuck_data (stuck_run_of found.now)) }
{
    match &found.searched {
        Some(searched) => searched_values(searched),
        None => Ok(no_values()),
    }
}

/// The same of a search.
fn searched_values(searched: &StuckSearched) -> Result<RunValues, AllocError>
    ensures { IfOk result (λ r. members_of r.moves r.trace r.walk ≡ stuck_data (spec.run_by searched.now)) }
{
    match &searched.search.run {
        Some(run) => Ok(RunValues {
            moves: Value::String(run.moves.clone()?),
            trace: Value::String(run.trace.clone()?),
            walk: Value::from(searched.search.walks),
        }),
        None => Ok(no_values()),
    }
}

/// The values where no run was found.
fn no_values() -> RunValues
    ensures { members_of result.moves result.trace result.walk ≡ stuck_data None }
{
    RunValues {
        moves: Value::Null,
        trace: Value::Null,
        walk: Value::Null,
    }
}

/// Adds the picture of the run that was found to the answer, and how it was found and what each thread waits for to the
/// notes. If none was found, the answer is the one in words.
pub fn put_stuck_picture(
    answer: &mut Vec<u8>,
    notes: &mut Vec<u8>,
    alloc: Global,
    file: Option<&str>,
    bytes: &[u8],
    found: &StuckFound,
) -> Result<(), AllocError> {
    let Some(StuckSearched { program, search }) = &found.searched else {
        return put_stuck_found(answer, alloc, file, found);
    };
    let Some(run) = &search.run else {
        return put_stuck_found(answer, alloc, file, found);
    };
    put_heading(notes, search.walks, run)?;
    let waits = run_waits(alloc, program, run)?;
    put_waits(notes, b"", &waits)?;
    let mut world = World::start(alloc, program)?;
    put_picture(answer, alloc, bytes, &run.items, 1, &mut world)?;
    Ok(())
}
