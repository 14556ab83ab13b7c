//! A model is checked, and its verdict is written.

ghost use Rattle.std.specs.Prelude.{◌≡◌, IfOk, None, option_copied as named};
ghost use Rattle.rc_read.specs.Answer.{answer_of};
ghost use Rattle.rc_report.specs.Checks.{ChecksAs, GivesVerdict, IsVerdict, TellsVerdict};
ghost use Rattle.rc_report.specs.Judged as spec;
ghost use Rattle.rc_report.specs.Streams.{Answers, CanRead, CanWrite, CountsReads};
ghost use Rattle.rc_text.specs.Text.{PutsAnswer};

use crate::engine_fault::EngineFault;
use crate::reading::read_model;
use crate::streams::{Sink, Source};
use crate::verdict::{Verdict, print_verdict};
use crate::writing::write_piece;
use rc_admit::admitted::{Admitted, Judged, judge};
use std::alloc::{AllocError, Global};

/// Reads a model, and writes the verdict on it, as JSON or as text.
///
/// Answers `Read` where a read failed or 2,097,152 reads met no end of input, and then nothing is written; `Write` where
/// a write failed: then a beginning of the verdict is written; and `OutOfMemory` where a growth was refused. Nothing is
/// tried again (`read(2)`, `write(2)`).
pub fn check_engine<R: Source, W: Sink>(
    alloc: Global,
    reader: &mut R,
    json: bool,
    writer: &mut W,
) -> Result<Verdict, EngineFault>
    requires reads { CanRead 2097152 (R.state reader.old) }
    requires writes { CanWrite (W.state writer.old) }
    ensures answer { ChecksAs (R.state reader.old) json W.state writer.old writer.new result }
    ensures reads { CountsReads (R.state reader.old) (R.state reader.new) result }
{
    let text = read_model(alloc, reader)?;
    check_bytes(alloc, &text, json, writer)
}

/// Writes the verdict on a model. Answers `Write` where a write failed: then a beginning of the verdict is written; and
/// `OutOfMemory` where a growth was refused: then nothing is.
fn check_bytes<W: Sink>(
    alloc: Global,
    text: &[u8],
    json: bool,
    writer: &mut W,
) -> Result<Verdict, EngineFault>
    requires { CanWrite (W.state writer.old) }
    ensures { Answers (TellsVerdict None text.now json) W.state writer.old writer.new result }
{
    let mut answer = Vec::new(alloc);
    let verdict = put_checked(&mut answer, alloc, None, text, json)?;
    write_piece(writer, &answer)?;
    Ok(verdict)
}

/// Adds the verdict on a model, as JSON or as text, with the name of its file or without.
pub fn put_checked(
    answer: &mut Vec<u8>,
    alloc: Global,
    file: Option<&str>,
    text: &[u8],
    json: bool,
) -> Result<Verdict, AllocError>
    ensures { PutsAnswer (TellsVerdict (named file.entry) text.now json) answer.old answer.new result }
{
    let verdict = verdict_on(alloc, text)?;
    print_verdict(answer, alloc, file, json, &verdict)?;
    Ok(verdict)
}

/// The verdict on a model.
pub fn verdict_on(alloc: Global, text: &[u8]) -> Result<Verdict, AllocError>
    ensures { IfOk result (IsVerdict (answer_of text.now)) }
{
    let judged = judge(alloc, text)?;
    Ok(verdict_of(&judged))
}

/// The program of a model, where it is admitted, or the verdict that says why it isn't.
pub fn judged(alloc: Global, text: &[u8]) -> Result<Result<Admitted, Verdict>, AllocError>
    ensures { IfOk result (GivesVerdict (answer_of text.now)) }
{
    match judge(alloc, text)? {
        Judged::Admitted(admitted) => Ok(Ok(admitted)),
        judged => Ok(Err(verdict_of(&judged))),
    }
}

/// The verdict on a model that was judged.
pub fn verdict_of(judged: &Judged) -> Verdict
    ensures value { result ≡ spec.verdict_of judged.now }
    ensures verdict { spec.IsVerdictOn judged.now result }
{
    match judged {
        Judged::Admitted(_) => Verdict::Accepted,
        Judged::Refused(_, refusal) => Verdict::Refused(*refusal),
        Judged::Unread { line, cause, .. } => Verdict::Unreadable {
            line: *line,
            cause: *cause,
        },
    }
}
