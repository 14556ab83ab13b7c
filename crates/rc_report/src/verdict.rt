//! Verdicts on programs, as text and as JSON.

ghost use Rattle.std.specs.Prelude.{◌≡◌, IfOk, None, OnOk, Some, option_copied as named, option_map, true};
ghost use Rattle.serde_json.specs.Data.{string};
ghost use Rattle.serde_json.specs.View.{members_view, view};
ghost use Rattle.rc_report.specs.Members.{IsPut, with_finding};
ghost use Rattle.rc_report.specs.Streams.{CanWrite, Writes, WritesOrGrows};
ghost use Rattle.rc_report.specs.Pieces.{line_text};
ghost use Rattle.rc_text.specs.Text.{Puts};
ghost use Rattle.rc_report.specs.Verdicts.{cause_line, cause_text, finding, finding_line, finding_object, finding_of, finding_text, verdict_json, verdict_text};
ghost use Rattle.rc_report.specs.Files.{file_text, object_line, printed};

use crate::engine_fault::EngineFault;
use crate::printed::{Line, short_line};
use crate::shown::put_shown;
use crate::streams::Sink;
use crate::writing::{write_piece, write_pieces};
use itoa::Buffer;
use rc_read::ReadCause;
use rc_text::text::{put_counted, put_piece, put_pieces};
pub use rc_verify::refusal::Refusal;
use serde_json::{Map, Value};
use std::alloc::{AllocError, Global};

/// What is said of a model.
#[derive(Clone, Copy)]
pub enum Verdict {
    /// The program keeps the rules.
    Accepted,
    /// The program has a line that doesn't.
    Refused(Refusal),
    /// The model is no program: the first line that can't be read, from 1, and why.
    Unreadable { line: u32, cause: ReadCause },
}

/// What a verdict says of a line: `refused` or `unreadable`, and why: the letter of the cause's kind, its number and its
/// name.
#[derive(Clone, Copy)]
pub struct Finding {
    pub word: &'static str,
    pub line: u32,
    pub letter: &'static str,
    pub number: u32,
    pub name: &'static str,
}

impl Verdict {
    /// What the verdict says of a line; nothing where it is `Accepted`.
    pub fn finding(&self) -> Option<Finding>
        ensures { option_map finding_of result ≡ finding self.now }
    {
        match *self {
            Verdict::Accepted => None,
            Verdict::Refused(Refusal { line, cause }) => Some(Finding {
                word: "refused",
                line,
                letter: "V",
                number: cause.number(),
                name: cause.name(),
            }),
            Verdict::Unreadable { line, cause } => Some(Finding {
                word: "unreadable",
                line,
                letter: "P",
                number: cause.number() as u32,
                name: cause.name(),
            }),
        }
    }
}

/// Writes a verdict as text: `accepted`, `refused line L Vn NAME` or `unreadable line L Pn NAME`, with a line feed. It
/// takes no memory, and answers `Write` where a write failed: then a beginning of the text is written.
pub fn verdict_text<W: Sink>(verdict: &Verdict, writer: &mut W) -> Result<(), EngineFault>
    requires { CanWrite (W.state writer.old) }
    ensures { Writes W.state writer.old writer.new (verdict_text verdict.now) result }
{
    let (mut first, mut second) = (Buffer::new(), Buffer::new());
    let line = verdict_line(*verdict, &mut first, &mut second);
    write_pieces(writer, &line.pieces)
}

/// A verdict as a line.
pub(crate) fn verdict_line<'a>(
    verdict: Verdict,
    first: &'a mut Buffer,
    second: &'a mut Buffer,
) -> Line<'a>
    ensures { line_text result ≡ verdict_text verdict }
{
    match verdict.finding() {
        None => short_line(b"accepted\n", b"", b"", b"", b""),
        Some(finding) => finding_line(finding, first, second),
    }
}

/// What a verdict says of a line, as a line.
fn finding_line<'a>(finding: Finding, first: &'a mut Buffer, second: &'a mut Buffer) -> Line<'a>
    ensures { line_text result ≡ finding_text (Some (finding_of finding)) }
{
    told_line(
        finding.word,
        first.format(finding.line),
        finding.letter,
        second.format(finding.number),
        finding.name,
    )
}

/// The same by its parts.
fn told_line<'a>(
    word: &'a str,
    line: &'a str,
    letter: &'a str,
    number: &'a str,
    name: &'a str,
) -> Line<'a>
    ensures { line_text result ≡ finding_line word.now line.now (cause_line letter.now number.now name.now) }
{
    Line {
        pieces: [
            word.as_bytes(),
            b" line ",
            line.as_bytes(),
            b" ",
            letter.as_bytes(),
            number.as_bytes(),
            b" ",
            name.as_bytes(),
            b"\n",
        ],
    }
}

/// Adds why a line isn't good, to the end of the line.
pub fn put_cause(text: &mut Vec<u8>, finding: &Finding) -> Result<(), AllocError>
    ensures { Puts text.old text.new (cause_text (finding_of finding.now)) result }
{
    put_counted(
        text,
        finding.letter.as_bytes(),
        u64::from(finding.number),
        b" ",
    )?;
    put_pieces(text, &[finding.name.as_bytes(), b"\n"])
}

/// Writes a verdict as JSON: one object without spaces, its keys in order, and a line feed. Answers `Write` where a write
/// failed, and `OutOfMemory` where a growth was refused: then a beginning of the text is written.
pub fn verdict_json<W: Sink>(
    alloc: Global,
    verdict: &Verdict,
    writer: &mut W,
) -> Result<(), EngineFault>
    requires { CanWrite (W.state writer.old) }
    ensures { WritesOrGrows W.state writer.old writer.new (verdict_json verdict.now) result }
{
    let mut text = Vec::new(alloc);
    print_verdict(&mut text, alloc, None, true, verdict)?;
    write_piece(writer, &text)
}

/// Adds a verdict as it is printed: as JSON or as text, with the name of a file or without, and a line feed.
///
/// Text is `accepted`, `refused line L Vn NAME` or `unreadable line L Pn NAME`; of a file, as compilers print it, `FILE:
/// accepted`, `FILE:L: refused Vn NAME` or `FILE:L: unreadable Pn NAME`, with the file's name as it is shown. JSON is one
/// object without spaces, its keys in order. Of a file, what isn't shown as it is is as `\u` and four hex digits, so the
/// file's name is the one that is decoded.
pub fn print_verdict(
    text: &mut Vec<u8>,
    alloc: Global,
    file: Option<&str>,
    json: bool,
    verdict: &Verdict,
) -> Result<(), AllocError>
    ensures { Puts text.old text.new (printed (named file.entry) json verdict.now) result }
{
    if json {
        return put_object(text, alloc, file, verdict);
    }
    match file {
        Some(name) => put_with_file(text, name, verdict),
        None => put_alone(text, verdict),
    }
}

/// Adds a verdict as text, as [`verdict_text`] writes it.
fn put_alone(text: &mut Vec<u8>, verdict: &Verdict) -> Result<(), AllocError>
    ensures { Puts text.old text.new (verdict_text verdict.now) result }
{
    let (mut first, mut second) = (Buffer::new(), Buffer::new());
    let line = verdict_line(*verdict, &mut first, &mut second);
    put_pieces(text, &line.pieces)
}

/// Adds the verdict on the model of a file as text.
fn put_with_file(text: &mut Vec<u8>, file: &str, verdict: &Verdict) -> Result<(), AllocError>
    ensures { Puts text.old text.new (file_text file.now verdict.now) result }
{
    put_shown(text, file)?;
    let Some(finding) = verdict.finding() else {
        return put_piece(text, b": accepted\n");
    };
    put_counted(text, b":", u64::from(finding.line), b": ")?;
    put_pieces(text, &[finding.word.as_bytes(), b" "])?;
    put_cause(text, &finding)
}

/// Adds a verdict as JSON.
fn put_object(
    text: &mut Vec<u8>,
    alloc: Global,
    file: Option<&str>,
    verdict: &Verdict,
) -> Result<(), AllocError>
    ensures { Puts text.old text.new (printed (named file.entry) true verdict.now) result }
{
    let object = object_of(alloc, file, verdict)?.to_string(alloc)?;
    put_object_line(text, file, object.as_str())
}

/// Adds the text of an object and a line feed; of a file as it is shown.
fn put_object_line(text: &mut Vec<u8>, file: Option<&str>, object: &str) -> Result<(), AllocError>
    ensures { Puts text.old text.new (object_line (named file.entry) object.now) result }
{
    if file.is_none() {
        return put_pieces(text, &[object.as_bytes(), b"\n"]);
    }
    put_shown(text, object)?;
    put_piece(text, b"\n")
}

/// A verdict as a JSON object, with the name of a file or without.
fn object_of(alloc: Global, file: Option<&str>, verdict: &Verdict) -> Result<Value, AllocError>
    ensures { IfOk result (λ v. view v ≡ finding_object (named file.entry) (finding verdict.now)) }
{
    let mut members = Map::new(alloc);
    if let Some(name) = file {
        put_text(alloc, &mut members, "file", name)?;
    }
    put_finding(alloc, &mut members, verdict)?;
    Ok(Value::Object(members))
}

/// Adds what a verdict says.
fn put_finding(
    alloc: Global,
    members: &mut Map<String, Value>,
    verdict: &Verdict,
) -> Result<(), AllocError>
    ensures { OnOk result (members_view members.new.entries ≡ with_finding (finding verdict.now) (members_view members.old.entries)) }
{
    let Some(finding) = verdict.finding() else {
        return put_text(alloc, members, "verdict", "accepted");
    };
    put_text(alloc, members, "cause", finding.name)?;
    put(alloc, members, "code", Value::from(finding.number))?;
    put(alloc, members, "line", Value::from(finding.line))?;
    put_text(alloc, members, "verdict", finding.word)
}

/// Adds a member that is a string.
fn put_text(
    alloc: Global,
    members: &mut Map<String, Value>,
    key: &str,
    text: &str,
) -> Result<(), AllocError>
    ensures { OnOk result (IsPut key.now (string text.now) members.old members.new) }
{
    let text = String::from_str(alloc, text)?;
    put(alloc, members, key, Value::from(text))
}

/// Adds a member.
fn put(
    alloc: Global,
    members: &mut Map<String, Value>,
    key: &str,
    value: Value,
) -> Result<(), AllocError>
    ensures { OnOk result (IsPut key.now (view value) members.old members.new) }
{
    let name = String::from_str(alloc, key)?;
    drop(members.insert(name, value)?);
    Ok(())
}
