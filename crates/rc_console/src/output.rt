//! Standard output.

ghost use Rattle.std.specs.Prelude.{◌≡◌, ◌+◌, ◌<◌, ◌≤◌, ◌^◌, false, IfErr, IfOk};
ghost use Rattle.rc_console.specs.declared.fault.CommandFault.TheVariants.{Engine};
ghost use Rattle.rc_console.specs.Answers.{Does};
ghost use Rattle.rc_console.specs.Files.{IsTold};
ghost use Rattle.rc_console.specs.Outputs.{IsWrittenOut};
ghost use Rattle.rc_report.specs.declared.engine_fault.EngineFault.TheVariants.{Write as FailedWrite};
ghost use Rattle.rc_report.specs.Streams.{CanWrite};

use crate::fault::CommandFault;
use rc_report::buffered::Buffered;
use rc_report::engine_fault::EngineFault;
use rc_report::streams::{DeviceFailed, Sink, WriteSink};
use rc_report::writing::write_piece;
use std::io::{self, ErrorKind, Write};

/// A writer that notes whether nobody reads what it writes any more, as after `head` has ended (`pipe(7)`).
#[derive(Drop)]
pub struct Output<W> {
    /// What is written to.
    pub writer: W,
    /// Whether the last write that failed did so because the reader has closed its end (`EPIPE`).
    pub is_closed: bool,
}

impl<W> Output<W> {
    /// A writer to which nothing has been written yet.
    pub fn new(writer: W) -> Output<W>
        ensures { result ≡ record { writer = writer; is_closed = false } }
    {
        Output {
            writer,
            is_closed: false,
        }
    }
}

impl<W: Write> Write for Output<W> {
    ghost contents = { λ output. W.contents output.writer };

    fn write(&mut self, piece: &[u8]) -> io::Result<usize> {
        match self.writer.write(piece) {
            Ok(count) => Ok(count),
            Err(error) => {
                self.is_closed = error.kind() == ErrorKind::BrokenPipe;
                Err(error)
            }
        }
    }

    fn flush(&mut self) -> io::Result<()> {
        match self.writer.flush() {
            Ok(()) => Ok(()),
            Err(error) => {
                self.is_closed = error.kind() == ErrorKind::BrokenPipe;
                Err(error)
            }
        }
    }
}

/// Writes the text of an answer, and answers its status.
pub fn write_answer<S: Sink>(sink: &mut S, answer: &[u8], status: u8) -> Result<u8, CommandFault>
    requires { CanWrite (S.state sink.old) }
    ensures { Does (λ s text. (s ≡ status) × (text ≡ answer.now)) S.state sink.old sink.new result }
{
    write_piece(sink, answer)?;
    Ok(status)
}

/// Answers this status where the whole answer is written out.
pub fn written_out<O: Write + Drop>(
    status: u8,
    sink: &mut Buffered<WriteSink<O>>,
) -> Result<u8, CommandFault>
    requires { sink.old.sink.failures + 1 < 2 ^ 64 }
    ensures status { IfOk result (λ s. (s ≡ status) × IsWrittenOut O.contents sink.old sink.new) }
    ensures fault { IfErr result (λ e. (e ≡ Engine FailedWrite) × (sink.new.sink.failures ≡ sink.old.sink.failures + 1)) }
{
    match sink.finish() {
        Ok(()) => Ok(status),
        Err(DeviceFailed) => Err(CommandFault::Engine(EngineFault::Write)),
    }
}

/// Reports what is to be said besides the answer. After a write to `errors` that failed nothing more is reported.
pub fn tell_notes<E: Sink>(notes: &[u8], errors: &mut E)
    ensures { (E.state errors.old).failures ≤ 1 → IsTold (E.state errors.old) (E.state errors.new) notes.now }
{
    if errors.failures() == 0 {
        let _ = write_piece(errors, notes);
    }
}
