//! Models that are answered: of the input, or of files.

ghost use Rattle.std.specs.Prelude.{◌≡◌, ◌≤◌, IfOk, [], false};
ghost use Rattle.rc_command.specs.Answers.{AsksFile, DoesWith, ReadsAsAsked, WithNotes, may_report};
ghost use Rattle.rc_command.specs.Commands.{Finishes, Leaves, SaysFiles, SaysFirst, SaysInput};
ghost use Rattle.rc_console.specs.Files.{AnswersAs};
ghost use Rattle.rc_console.specs.Outputs.{written_by};
ghost use Rattle.rc_report.specs.Buffers.{kept_back};
ghost use Rattle.rc_report.specs.Streams.{CanRead, CanWrite};

use crate::checking::{check_files, telling_of};
use crate::performing::performed;
use crate::running::Host;
use rc_console::command::Command;
use rc_console::fault::CommandFault;
use rc_console::files::{Texts, tell_unread};
use rc_console::inputs::read_input;
use rc_console::output::{tell_notes, write_answer, written_out};
use rc_report::buffered::Buffered;
use rc_report::status::GOOD_STATUS;
use rc_report::streams::{ReadSource, Sink, Source, WriteSink};
use std::io::{Read, Write};
use std::sync::Wait;
use std::thread::Threads;

/// Does what is asked with the text of a reader, and sees that the answer is written out.
pub fn from_input<R: Threads + Wait + Sync, I: Read + Drop, O: Write + Drop, E: Sink>(
    host: &Host<'_, R>,
    command: &Command<'_>,
    reader: I,
    sink: &mut Buffered<WriteSink<O>>,
    errors: &mut E,
) -> Result<u8, CommandFault>
    requires empty { kept_back sink.old ≡ [] }
    requires writes { sink.old.sink.failures ≡ 0 }
    requires told { (E.state errors.old).failures ≡ 0 }
    ensures answer { Leaves (SaysInput (I.remaining reader) command.now) (written_by O.contents) sink.old sink.new (E.state errors.old) (E.state errors.new) result }
    ensures bound { IfOk result (λ status. status ≤ 3) }
{
    let mut notes = Vec::new(host.alloc);
    let mut source = ReadSource::new(reader);
    let status = on_input(host, command, &mut source, sink, &mut notes)?;
    finished(status, sink, &notes, errors)
}

/// Does what is asked with the texts of files, and sees that the answer is written out.
pub fn from_files<R: Threads + Wait + Sync, T: Texts, O: Write + Drop, E: Sink>(
    host: &Host<'_, R>,
    texts: &T,
    command: &Command<'_>,
    files: &[&str],
    sink: &mut Buffered<WriteSink<O>>,
    errors: &mut E,
) -> Result<u8, CommandFault>
    requires empty { kept_back sink.old ≡ [] }
    requires writes { sink.old.sink.failures ≡ 0 }
    requires told { (E.state errors.old).failures ≡ 0 }
    ensures answer { Leaves (SaysFiles (T.gives texts.now) command.now files.now) (written_by O.contents) sink.old sink.new (E.state errors.old) (E.state errors.new) result }
    ensures bound { IfOk result (λ status. status ≤ 3) }
{
    let mut notes = Vec::new(host.alloc);
    let status = on_files(host, texts, command, files, sink, &mut notes, errors)?;
    finished(status, sink, &notes, errors)
}

/// Sees that an answer is written out, and reports the notes after it.
pub fn finished<O: Write + Drop, E: Sink>(
    status: u8,
    sink: &mut Buffered<WriteSink<O>>,
    notes: &[u8],
    errors: &mut E,
) -> Result<u8, CommandFault>
    requires writes { sink.old.sink.failures ≡ 0 }
    requires told { (E.state errors.old).failures ≤ 1 }
    ensures { Finishes O.contents status notes.now sink.old sink.new (E.state errors.old) (E.state errors.new) result }
{
    let status = written_out(status, sink)?;
    tell_notes(notes, errors);
    Ok(status)
}

/// Does what is asked with the text of a source. Help and the version are shown without reading.
fn on_input<R: Threads + Wait + Sync, I: Source, S: Sink>(
    host: &Host<'_, R>,
    command: &Command<'_>,
    source: &mut I,
    sink: &mut S,
    notes: &mut Vec<u8>,
) -> Result<u8, CommandFault>
    requires reads { CanRead 2097152 (I.state source.old) }
    requires writes { CanWrite (S.state sink.old) }
    ensures answer { DoesWith (I.state source.old) command.now S.state sink.old sink.new result }
    ensures bound { IfOk result (λ status. status ≤ 3) }
    ensures reads { ReadsAsAsked command.now (I.state source.old) (I.state source.new) result }
    ensures notes { may_report command.now ≡ false → notes.new.items ≡ notes.old.items }
{
    if let Command::Show(text) = command {
        return write_answer(sink, text.as_bytes(), GOOD_STATUS);
    }
    let text = read_input(host.alloc, source, command.extent())?;
    performed(host, command, None, &text, sink, notes)
}

/// Does what is asked with the texts of files: `check` takes several, the others one.
fn on_files<R: Threads + Wait + Sync, T: Texts, S: Sink, E: Sink>(
    host: &Host<'_, R>,
    texts: &T,
    command: &Command<'_>,
    files: &[&str],
    sink: &mut S,
    notes: &mut Vec<u8>,
    errors: &mut E,
) -> Result<u8, CommandFault>
    requires none { notes.old.items ≡ [] }
    requires writes { CanWrite (S.state sink.old) }
    requires told { (E.state errors.old).failures ≤ 1 }
    ensures answer { AnswersAs (WithNotes notes.new.items (SaysFiles (T.gives texts.now) command.now files.now)) S.state sink.old sink.new E.state errors.old errors.new result }
    ensures bound { IfOk result (λ status. status ≤ 3) }
{
    match telling_of(command) {
        Some(telling) => check_files(host.alloc, texts, files, telling, sink, errors),
        None => on_first(host, texts, command, files, sink, notes, errors),
    }
}

/// Does what is asked with the text of the first file.
fn on_first<R: Threads + Wait + Sync, T: Texts, S: Sink, E: Sink>(
    host: &Host<'_, R>,
    texts: &T,
    command: &Command<'_>,
    files: &[&str],
    sink: &mut S,
    notes: &mut Vec<u8>,
    errors: &mut E,
) -> Result<u8, CommandFault>
    requires none { notes.old.items ≡ [] }
    requires writes { CanWrite (S.state sink.old) }
    requires told { (E.state errors.old).failures ≤ 1 }
    ensures answer { AnswersAs (WithNotes notes.new.items (SaysFirst (T.gives texts.now) command.now files.now)) S.state sink.old sink.new E.state errors.old errors.new result }
    ensures bound { IfOk result (λ status. status ≤ 3) }
{
    match files.first() {
        Some(name) => on_file(host, texts, command, name, sink, notes, errors),
        None => Ok(GOOD_STATUS),
    }
}

/// Does what is asked with the text of a file. One that can't be read is told on a line of `errors`.
fn on_file<R: Threads + Wait + Sync, T: Texts, S: Sink, E: Sink>(
    host: &Host<'_, R>,
    texts: &T,
    command: &Command<'_>,
    name: &str,
    sink: &mut S,
    notes: &mut Vec<u8>,
    errors: &mut E,
) -> Result<u8, CommandFault>
    requires none { notes.old.items ≡ [] }
    requires writes { CanWrite (S.state sink.old) }
    requires told { (E.state errors.old).failures ≤ 1 }
    ensures answer { AnswersAs (WithNotes notes.new.items (AsksFile (T.gives texts.now) command.now name.now)) S.state sink.old sink.new E.state errors.old errors.new result }
    ensures bound { IfOk result (λ status. status ≤ 3) }
{
    match texts.read(host.alloc, name, command.extent()) {
        Ok(text) => performed(host, command, Some(name), &text, sink, notes),
        Err(unread) => Ok(tell_unread(host.alloc, name, &unread, errors)),
    }
}
