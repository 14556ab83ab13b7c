//! Files are checked, one after another.

ghost use Rattle.std.specs.Prelude.{◌≡◌, ◌≤◌, IfOk};
ghost use Rattle.rc_command.specs.Checking as spec;
ghost use Rattle.rc_command.specs.Checking.{ChecksFile, TellsFile};
ghost use Rattle.rc_console.specs.Files.{AnswersAs, SaysAll};
ghost use Rattle.rc_report.specs.Streams.{CanWrite};
ghost use Rattle.rc_report.specs.Text.{PutsAnswer};

use rc_console::command::{Command, Form};
use rc_console::fault::CommandFault;
use rc_console::files::{MEMORY, Texts, tell_file, tell_unread};
use rc_console::inputs::Extent;
use rc_console::output::write_answer;
use rc_explain::engine::put_explained;
use rc_report::check_engine::put_checked;
use rc_report::streams::Sink;
use rc_report::verdict::Verdict;
use std::alloc::{AllocError, Global};

/// How the verdict on each file is told.
#[derive(Clone, Copy)]
pub enum Telling {
    /// Alone, as JSON or as text.
    Alone { json: bool },
    /// With what explains it, in this form.
    Explained { form: Form },
}

/// How the verdicts on files are told, if the command checks them.
pub fn telling_of(command: &Command<'_>) -> Option<Telling>
    ensures { result ≡ spec.telling_of command.now }
{
    match command {
        Command::Check { json } => Some(Telling::Alone { json: *json }),
        Command::Explain { form } => Some(Telling::Explained { form: *form }),
        _ => None,
    }
}

/// Checks files one after another, and answers the greatest status. A file that can't be read, or for which memory ran
/// out, is told on a line of `errors`, and those after it are still checked.
pub fn check_files<T: Texts, S: Sink, E: Sink>(
    alloc: Global,
    texts: &T,
    files: &[&str],
    telling: Telling,
    sink: &mut S,
    errors: &mut E,
) -> Result<u8, CommandFault>
    requires writes { CanWrite (S.state sink.old) }
    requires told { (E.state errors.old).failures ≤ 1 }
    ensures answer { AnswersAs (SaysAll (λ name. ChecksFile (T.gives texts.now) telling name.now) files.now) S.state sink.old sink.new E.state errors.old errors.new result }
    ensures bound { IfOk result (λ status. status ≤ 3) }
{
    let mut status = 0u8;
    for name in files {
        status = status.max(check_file(alloc, texts, name, telling, sink, errors)?);
    }
    Ok(status)
}

/// Checks a file.
fn check_file<T: Texts, S: Sink, E: Sink>(
    alloc: Global,
    texts: &T,
    name: &str,
    telling: Telling,
    sink: &mut S,
    errors: &mut E,
) -> Result<u8, CommandFault>
    requires writes { CanWrite (S.state sink.old) }
    requires told { (E.state errors.old).failures ≤ 1 }
    ensures answer { AnswersAs (ChecksFile (T.gives texts.now) telling name.now) S.state sink.old sink.new E.state errors.old errors.new result }
    ensures bound { IfOk result (λ status. status ≤ 3) }
{
    let text = match texts.read(alloc, name, Extent::Enough) {
        Ok(text) => text,
        Err(unread) => return Ok(tell_unread(alloc, name, &unread, errors)),
    };
    let mut answer = Vec::new(alloc);
    match put_file(&mut answer, alloc, name, &text, telling) {
        Ok(verdict) => write_answer(sink, &answer, verdict.status()),
        Err(AllocError) => Ok(tell_file(alloc, name, MEMORY, errors)),
    }
}

/// Adds the verdict on the text of a file, alone or with what explains it.
fn put_file(
    answer: &mut Vec<u8>,
    alloc: Global,
    name: &str,
    text: &[u8],
    telling: Telling,
) -> Result<Verdict, AllocError>
    ensures { PutsAnswer (TellsFile name.now telling text.now) answer.old answer.new result }
{
    match telling {
        Telling::Alone { json } => put_checked(answer, alloc, Some(name), text, json),
        Telling::Explained { form } => put_explained(answer, alloc, Some(name), text, form),
    }
}
