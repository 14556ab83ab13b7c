//! What each command does with a text.

ghost use Rattle.std.specs.Prelude.{◌≡◌, ◌≤◌, IfOk, None, false, option_copied as named};
ghost use Rattle.rc_command.specs.Answers.{Finds, FindsStuck, IsShownAs, IsStuckShownAs, Says, SaysSearch, SaysSteps, may_report, status_of_stuck};
ghost use Rattle.rc_explain.specs.Explains.{Explains};
ghost use Rattle.rc_console.specs.Answers.{Does, SaysVerdict};
ghost use Rattle.rc_report.specs.Checks.{TellsVerdict};
ghost use Rattle.rc_report.specs.Streams.{CanWrite};

use crate::emitting::emit_text;
use crate::formatting::format_text;
use crate::keeping::keep_text;
use crate::running::{Host, run_text};
use rc_console::command::{Command, Form, FoundAs, Searching};
use rc_console::fault::CommandFault;
use rc_console::output::write_answer;
use rc_explain::engine::put_explained;
use rc_report::check_engine::put_checked;
use rc_report::script::Stepping;
use rc_report::status::{DEVICE_STATUS, FAULT_STATUS, GOOD_STATUS};
use rc_report::streams::Sink;
use rc_runs::find::{Found, find};
use rc_runs::found::{put_found, put_found_json, put_found_picture};
use rc_runs::stepping::step;
use rc_runs::stuck::{StuckFound, find_stuck};
use rc_runs::stuck_text::{has_run, put_stuck_found, put_stuck_json, put_stuck_picture};
use std::alloc::{AllocError, Global};
use std::sync::Wait;
use std::thread::Threads;

/// Does what is asked with a text, which may be that of a file. What is to be reported besides the answer is added to the
/// notes.
pub fn performed<R: Threads + Wait + Sync, S: Sink>(
    host: &Host<'_, R>,
    command: &Command<'_>,
    file: Option<&str>,
    text: &[u8],
    sink: &mut S,
    notes: &mut Vec<u8>,
) -> Result<u8, CommandFault>
    requires { CanWrite (S.state sink.old) }
    ensures answer { Does (Says (named file.entry) command.now text.now) S.state sink.old sink.new result }
    ensures notes { may_report command.now ≡ false → notes.new.items ≡ notes.old.items }
{
    let alloc = host.alloc;
    match command {
        Command::Check { json } => checked(alloc, text, *json, sink),
        Command::Explain { form } => explained(alloc, text, *form, sink),
        Command::Keeps => keep_text(alloc, file, text, sink),
        Command::Step(stepping) => stepped(alloc, file, text, stepping, sink, notes),
        Command::Find(asked) => searched(alloc, file, text, *asked, sink, notes),
        Command::Run {
            seed,
            limit,
            summary,
        } => run_text(host, file, text, *seed, *limit, *summary, sink),
        Command::Emit => emit_text(alloc, file, text, sink),
        Command::Follow(_) | Command::Draft(_) | Command::Serve => {
            write_answer(sink, b"", DEVICE_STATUS)
        }
        Command::Format => format_text(alloc, text, sink),
        Command::Show(shown) => write_answer(sink, shown.as_bytes(), GOOD_STATUS),
    }
}

/// Checks a text.
fn checked<S: Sink>(
    alloc: Global,
    text: &[u8],
    json: bool,
    sink: &mut S,
) -> Result<u8, CommandFault>
    requires { CanWrite (S.state sink.old) }
    ensures { Does (SaysVerdict (TellsVerdict None text.now json)) S.state sink.old sink.new result }
{
    let mut answer = Vec::new(alloc);
    let verdict = put_checked(&mut answer, alloc, None, text, json)?;
    write_answer(sink, &answer, verdict.status())
}

/// Checks a text, and explains the verdict.
fn explained<S: Sink>(
    alloc: Global,
    text: &[u8],
    form: Form,
    sink: &mut S,
) -> Result<u8, CommandFault>
    requires { CanWrite (S.state sink.old) }
    ensures { Does (SaysVerdict (Explains text.now None form)) S.state sink.old sink.new result }
{
    let mut answer = Vec::new(alloc);
    let verdict = put_explained(&mut answer, alloc, None, text, form)?;
    write_answer(sink, &answer, verdict.status())
}

/// Steps the program of a text, and shows its run.
fn stepped<S: Sink>(
    alloc: Global,
    file: Option<&str>,
    text: &[u8],
    stepping: &Stepping<'_>,
    sink: &mut S,
    notes: &mut Vec<u8>,
) -> Result<u8, CommandFault>
    requires { CanWrite (S.state sink.old) }
    ensures { Does (SaysSteps (named file.entry) text.now stepping.now) S.state sink.old sink.new result }
{
    let end = step(alloc, file, text, stepping, notes, sink)?;
    Ok(end.status())
}

/// Checks a text, and looks for a run of it: of a refused one into a fault, or of any into a stuck world.
fn searched<S: Sink>(
    alloc: Global,
    file: Option<&str>,
    text: &[u8],
    asked: Searching,
    sink: &mut S,
    notes: &mut Vec<u8>,
) -> Result<u8, CommandFault>
    requires { CanWrite (S.state sink.old) }
    ensures { Does (SaysSearch (named file.entry) text.now asked) S.state sink.old sink.new result }
{
    if asked.stuck {
        stuck_in(alloc, file, text, asked, sink, notes)
    } else {
        found_in(alloc, file, text, asked, sink, notes)
    }
}

/// Checks a text, and looks for a run of a refused one into a fault.
fn found_in<S: Sink>(
    alloc: Global,
    file: Option<&str>,
    text: &[u8],
    asked: Searching,
    sink: &mut S,
    notes: &mut Vec<u8>,
) -> Result<u8, CommandFault>
    requires { CanWrite (S.state sink.old) }
    ensures { Does (SaysVerdict (Finds (named file.entry) text.now asked)) S.state sink.old sink.new result }
{
    let found = find(alloc, text, asked.seed, asked.walks)?;
    let answer = shown_as(alloc, file, text, &found, asked.form, notes)?;
    write_answer(sink, &answer, found.verdict.status())
}

/// What was found of a text in this form.
fn shown_as(
    alloc: Global,
    file: Option<&str>,
    text: &[u8],
    found: &Found,
    form: FoundAs,
    notes: &mut Vec<u8>,
) -> Result<Vec<u8>, AllocError>
    ensures { IfOk result (λ answer. IsShownAs (named file.entry) form found.now answer.items) }
{
    let mut answer = Vec::new(alloc);
    match form {
        FoundAs::Words => put_found(&mut answer, alloc, file, found)?,
        FoundAs::Json => put_found_json(&mut answer, alloc, file, found)?,
        FoundAs::Picture => put_found_picture(&mut answer, notes, alloc, file, text, found)?,
    }
    Ok(answer)
}

/// Checks a text, and looks for a run of it into a stuck world.
fn stuck_in<S: Sink>(
    alloc: Global,
    file: Option<&str>,
    text: &[u8],
    asked: Searching,
    sink: &mut S,
    notes: &mut Vec<u8>,
) -> Result<u8, CommandFault>
    requires { CanWrite (S.state sink.old) }
    ensures { Does (FindsStuck (named file.entry) text.now asked) S.state sink.old sink.new result }
{
    let found = find_stuck(alloc, text, asked.seed, asked.walks)?;
    let answer = stuck_as(alloc, file, text, &found, asked.form, notes)?;
    write_answer(sink, &answer, stuck_status(&found))
}

/// The status of what was found: 1 where a run was, else that of the verdict.
fn stuck_status(found: &StuckFound) -> u8
    ensures status { result ≡ status_of_stuck found.now }
    ensures bound { result ≤ 3 }
{
    if has_run(found) {
        return FAULT_STATUS;
    }
    found.verdict.status()
}

/// What was found of a text in this form.
fn stuck_as(
    alloc: Global,
    file: Option<&str>,
    text: &[u8],
    found: &StuckFound,
    form: FoundAs,
    notes: &mut Vec<u8>,
) -> Result<Vec<u8>, AllocError>
    ensures { IfOk result (λ answer. IsStuckShownAs (named file.entry) form found.now answer.items) }
{
    let mut answer = Vec::new(alloc);
    match form {
        FoundAs::Words => put_stuck_found(&mut answer, alloc, file, found)?,
        FoundAs::Json => put_stuck_json(&mut answer, alloc, file, found)?,
        FoundAs::Picture => put_stuck_picture(&mut answer, notes, alloc, file, text, found)?,
    }
    Ok(answer)
}
