//! The whole program, over any reader and writers.

ghost use Rattle.std.specs.Prelude.{◌≡◌, ◌≤◌, IfOk, IsErr, []};
ghost use Rattle.rc_command.specs.Commands.{Answers, Ends, Leaves, LeavesOr, Runs, SaysCommand, SaysModels, SaysMoved, SaysWithModel, SaysWords, Serves};
ghost use Rattle.rc_command.specs.Drafting.{SaysDraft};
ghost use Rattle.rc_command.specs.Following.{SaysAsked};
ghost use Rattle.rc_console.specs.Outputs.{put_out, written_by};
ghost use Rattle.rc_console.specs.Words.{is_server, with_moves};
ghost use Rattle.rc_report.specs.Buffers.{kept_back};

use crate::departures::answers::follow_logs;
use crate::departures::logs::Logs;
use crate::drafting::answers::draft_logs;
use crate::models::{finished, from_files, from_input};
use crate::running::Host;
use rc_console::command::{Asked, Command, Drafting, Following, with_moves};
use rc_console::fault::CommandFault;
use rc_console::files::{NoTexts, Texts, tell_unread};
use rc_console::inputs::Extent;
use rc_console::output::Output;
use rc_console::reasons::tell;
use rc_console::words::WordsFault;
use rc_lsp::serving::serve_editor;
use rc_report::buffered::Buffered;
use rc_report::status::DEVICE_STATUS;
use rc_report::streams::{Sink, WriteSink};
use std::alloc::Global;
use std::io::{Read, Write};
use std::sync::Wait;
use std::thread::Threads;

/// Standard output, buffered. It notes whether its reader has closed it.
pub type Written<O> = Buffered<WriteSink<Output<O>>>;

/// Does what the words ask for, and answers the exit status. Answers go to the output. Wrong words, files that can't be read,
/// out of memory and devices that failed are reported on one line of `errors` each; an output that its reader has closed
/// isn't. Nothing is tried again (`read(2)`, `write(2)`).
pub fn command_over<
    'a,
    R: Threads + Wait + Sync,
    T: Texts + Logs,
    I: Read + Drop,
    O: Write + Drop,
    E: Sink,
>(
    host: &Host<'_, R>,
    texts: &T,
    asked: Result<Asked<'a>, WordsFault>,
    reader: I,
    output: &mut Written<O>,
    errors: &mut E,
) -> u8
    requires empty { kept_back output.old ≡ [] }
    requires writes { output.old.sink.failures ≡ 0 }
    requires told { (E.state errors.old).failures ≡ 0 }
    ensures answer { Runs (Answers (T.gives texts.now) (T.opens texts.now) (I.remaining reader) asked.entry (put_out O.contents) output.old output.new (E.state errors.old)) output.new.sink.writer.is_closed (E.state errors.new) result }
    ensures bound { result ≤ 3 }
{
    let answer = answer_words(host, texts, asked, reader, output, errors);
    ended(host.alloc, answer, output.sink.writer.is_closed, errors)
}

/// The same where no file can be opened.
pub fn command<'a, R: Threads + Wait + Sync, I: Read + Drop, O: Write + Drop, E: Sink>(
    host: &Host<'_, R>,
    asked: Result<Asked<'a>, WordsFault>,
    reader: I,
    output: &mut Written<O>,
    errors: &mut E,
) -> u8
    requires empty { kept_back output.old ≡ [] }
    requires writes { output.old.sink.failures ≡ 0 }
    requires told { (E.state errors.old).failures ≡ 0 }
    ensures answer { Runs (Answers (λ name given. IsErr given) (λ name given. IsErr given) (I.remaining reader) asked.entry (put_out O.contents) output.old output.new (E.state errors.old)) output.new.sink.writer.is_closed (E.state errors.new) result }
    ensures bound { result ≤ 3 }
{
    command_over(host, &NoTexts, asked, reader, output, errors)
}

/// Turns an answer into the exit status. An error is written to `errors` as one line, but not if the reader has closed
/// the output.
fn ended<E: Sink>(
    alloc: Global,
    answer: Result<u8, CommandFault>,
    is_closed: bool,
    errors: &mut E,
) -> u8
    requires { (E.state errors.old).failures ≤ 1 }
    ensures answer { Ends is_closed answer (E.state errors.old) (E.state errors.new) result }
    ensures bound { IfOk answer (λ status. status ≤ 3) → result ≤ 3 }
{
    match answer {
        Ok(status) => status,
        Err(fault) => {
            if fault.is_hung_up(is_closed) {
                return DEVICE_STATUS;
            }
            tell(alloc, &fault, errors)
        }
    }
}

/// Does what the words ask, if they are right.
fn answer_words<
    'a,
    R: Threads + Wait + Sync,
    T: Texts + Logs,
    I: Read + Drop,
    O: Write + Drop,
    E: Sink,
>(
    host: &Host<'_, R>,
    texts: &T,
    asked: Result<Asked<'a>, WordsFault>,
    reader: I,
    sink: &mut Buffered<WriteSink<O>>,
    errors: &mut E,
) -> Result<u8, CommandFault>
    requires empty { kept_back sink.old ≡ [] }
    requires writes { sink.old.sink.failures ≡ 0 }
    requires told { (E.state errors.old).failures ≡ 0 }
    ensures answer { Answers (T.gives texts.now) (T.opens texts.now) (I.remaining reader) asked.entry (written_by O.contents) sink.old sink.new (E.state errors.old) (E.state errors.new) result }
    ensures bound { IfOk result (λ status. status ≤ 3) }
{
    match asked {
        Ok(asked) => answered(host, texts, asked, reader, sink, errors),
        Err(fault) => Err(CommandFault::Words(fault)),
    }
}

/// Does what is asked, and sees that the answer is written out.
fn answered<
    'a,
    R: Threads + Wait + Sync,
    T: Texts + Logs,
    I: Read + Drop,
    O: Write + Drop,
    E: Sink,
>(
    host: &Host<'_, R>,
    texts: &T,
    asked: Asked<'a>,
    reader: I,
    sink: &mut Buffered<WriteSink<O>>,
    errors: &mut E,
) -> Result<u8, CommandFault>
    requires empty { kept_back sink.old ≡ [] }
    requires writes { sink.old.sink.failures ≡ 0 }
    requires told { (E.state errors.old).failures ≡ 0 }
    ensures answer { LeavesOr (is_server asked.entry.command) (Serves (E.state errors.new) result) (Leaves (SaysWords (T.gives texts.now) (T.opens texts.now) (I.remaining reader) asked.entry) (written_by O.contents) sink.old sink.new (E.state errors.old) (E.state errors.new) result) }
    ensures bound { IfOk result (λ status. status ≤ 3) }
{
    if asked.command.is_server() {
        return served(host.alloc, reader, sink, errors);
    }
    match asked.moves {
        Some(name) => moved(host, texts, asked, name, reader, sink, errors),
        None => written(
            host,
            texts,
            &asked.command,
            &asked.files,
            reader,
            sink,
            errors,
        ),
    }
}

/// Answers the messages of an editor.
fn served<I: Read + Drop, O: Write + Drop, E: Sink>(
    alloc: Global,
    reader: I,
    sink: &mut Buffered<WriteSink<O>>,
    errors: &mut E,
) -> Result<u8, CommandFault>
    requires writes { sink.old.sink.failures ≡ 0 }
    requires told { (E.state errors.old).failures ≡ 0 }
    ensures answer { Serves (E.state errors.new) result }
    ensures bound { IfOk result (λ status. status ≤ 3) }
{
    match serve_editor(alloc, reader, &mut sink.sink, errors) {
        Ok(status) => Ok(status),
        Err(fault) => Err(CommandFault::Engine(fault)),
    }
}

/// Does what is asked with moves that are in a file.
fn moved<'a, R: Threads + Wait + Sync, T: Texts + Logs, I: Read + Drop, O: Write + Drop, E: Sink>(
    host: &Host<'_, R>,
    texts: &T,
    asked: Asked<'a>,
    name: &str,
    reader: I,
    sink: &mut Buffered<WriteSink<O>>,
    errors: &mut E,
) -> Result<u8, CommandFault>
    requires empty { kept_back sink.old ≡ [] }
    requires writes { sink.old.sink.failures ≡ 0 }
    requires told { (E.state errors.old).failures ≡ 0 }
    ensures answer { Leaves (SaysMoved (T.gives texts.now) (λ moves. SaysCommand (T.gives texts.now) (T.opens texts.now) (I.remaining reader) (with_moves asked.entry.command moves) asked.entry.files.items) name.now) (written_by O.contents) sink.old sink.new (E.state errors.old) (E.state errors.new) result }
    ensures bound { IfOk result (λ status. status ≤ 3) }
{
    let Asked { command, files, .. } = asked;
    match texts.read(host.alloc, name, Extent::Whole) {
        Ok(moves) => {
            let command = with_moves(command, moves);
            written(host, texts, &command, &files, reader, sink, errors)
        }
        Err(unread) => Ok(tell_unread(host.alloc, name, &unread, errors)),
    }
}

/// Does what is asked with logs alone, or with a model.
fn written<R: Threads + Wait + Sync, T: Texts + Logs, I: Read + Drop, O: Write + Drop, E: Sink>(
    host: &Host<'_, R>,
    texts: &T,
    command: &Command<'_>,
    files: &[&str],
    reader: I,
    sink: &mut Buffered<WriteSink<O>>,
    errors: &mut E,
) -> Result<u8, CommandFault>
    requires empty { kept_back sink.old ≡ [] }
    requires writes { sink.old.sink.failures ≡ 0 }
    requires told { (E.state errors.old).failures ≡ 0 }
    ensures answer { Leaves (SaysCommand (T.gives texts.now) (T.opens texts.now) (I.remaining reader) command.now files.now) (written_by O.contents) sink.old sink.new (E.state errors.old) (E.state errors.new) result }
    ensures bound { IfOk result (λ status. status ≤ 3) }
{
    match command.drafting() {
        Some(asked) => drafted(host.alloc, texts, asked, sink, errors),
        None => with_model(host, texts, command, files, reader, sink, errors),
    }
}

/// Does what is asked with logs, with the text of the reader, or with those of files.
fn with_model<R: Threads + Wait + Sync, T: Texts + Logs, I: Read + Drop, O: Write + Drop, E: Sink>(
    host: &Host<'_, R>,
    texts: &T,
    command: &Command<'_>,
    files: &[&str],
    reader: I,
    sink: &mut Buffered<WriteSink<O>>,
    errors: &mut E,
) -> Result<u8, CommandFault>
    requires empty { kept_back sink.old ≡ [] }
    requires writes { sink.old.sink.failures ≡ 0 }
    requires told { (E.state errors.old).failures ≡ 0 }
    ensures answer { Leaves (SaysWithModel (T.gives texts.now) (T.opens texts.now) (I.remaining reader) command.now files.now) (written_by O.contents) sink.old sink.new (E.state errors.old) (E.state errors.new) result }
    ensures bound { IfOk result (λ status. status ≤ 3) }
{
    match command.following() {
        Some(asked) => followed(host.alloc, texts, asked, reader, sink, errors),
        None => on_models(host, texts, command, files, reader, sink, errors),
    }
}

/// Does what is asked with the text of the reader, or with those of files.
fn on_models<R: Threads + Wait + Sync, T: Texts, I: Read + Drop, O: Write + Drop, E: Sink>(
    host: &Host<'_, R>,
    texts: &T,
    command: &Command<'_>,
    files: &[&str],
    reader: I,
    sink: &mut Buffered<WriteSink<O>>,
    errors: &mut E,
) -> Result<u8, CommandFault>
    requires empty { kept_back sink.old ≡ [] }
    requires writes { sink.old.sink.failures ≡ 0 }
    requires told { (E.state errors.old).failures ≡ 0 }
    ensures answer { Leaves (SaysModels (T.gives texts.now) (I.remaining reader) command.now files.now) (written_by O.contents) sink.old sink.new (E.state errors.old) (E.state errors.new) result }
    ensures bound { IfOk result (λ status. status ≤ 3) }
{
    if files.is_empty() {
        return from_input(host, command, reader, sink, errors);
    }
    from_files(host, texts, command, files, sink, errors)
}

/// Follows logs, and sees that the answer is written out.
fn followed<T: Texts + Logs, I: Read + Drop, O: Write + Drop, E: Sink>(
    alloc: Global,
    texts: &T,
    asked: &Following<'_>,
    reader: I,
    sink: &mut Buffered<WriteSink<O>>,
    errors: &mut E,
) -> Result<u8, CommandFault>
    requires empty { kept_back sink.old ≡ [] }
    requires writes { sink.old.sink.failures ≡ 0 }
    requires told { (E.state errors.old).failures ≡ 0 }
    ensures answer { Leaves (SaysAsked (T.gives texts.now) (T.opens texts.now) asked.now (I.remaining reader)) (written_by O.contents) sink.old sink.new (E.state errors.old) (E.state errors.new) result }
    ensures bound { IfOk result (λ status. status ≤ 3) }
{
    let status = follow_logs(texts, alloc, reader, asked, sink, errors)?;
    finished(status, sink, b"", errors)
}

/// Drafts a model from logs, and sees that the answer is written out.
fn drafted<T: Texts + Logs, O: Write + Drop, E: Sink>(
    alloc: Global,
    texts: &T,
    asked: &Drafting<'_>,
    sink: &mut Buffered<WriteSink<O>>,
    errors: &mut E,
) -> Result<u8, CommandFault>
    requires empty { kept_back sink.old ≡ [] }
    requires writes { sink.old.sink.failures ≡ 0 }
    requires told { (E.state errors.old).failures ≡ 0 }
    ensures answer { Leaves (SaysDraft (T.opens texts.now) asked.now) (written_by O.contents) sink.old sink.new (E.state errors.old) (E.state errors.new) result }
    ensures bound { IfOk result (λ status. status ≤ 3) }
{
    let status = draft_logs(texts, alloc, asked, sink, errors)?;
    finished(status, sink, &[], errors)
}
