//! Texts that are in files, and what is told of files that can't be read.

ghost use Rattle.std.specs.Prelude.{◌≡◌, ◌≤◌, ◌++◌, ℕ, IfOk, IfSome, IsErr, List, Result};
ghost use Rattle.rc_console.specs.declared.files.Unread.{Unread};
ghost use Rattle.rc_console.specs.Files.{IsTold, bytes_of, line_told};
ghost use Rattle.rc_console.specs.Inputs.{GivesNeeded, Suffices};
ghost use Rattle.rc_report.specs.Streams.{CanWrite, Writes};
ghost use Rattle.rc_text.specs.Text.{Puts};

use crate::inputs::{Extent, read_needed};
use rc_report::engine_fault::EngineFault;
use rc_report::shown::{put_shown, write_shown};
use rc_report::status::DEVICE_STATUS;
use rc_report::streams::{ReadSource, Sink};
use rc_report::writing::{write_piece, write_pieces};
use rc_text::text::{put_piece, put_pieces};
use std::alloc::{AllocError, Global};
use std::fs;
use std::io::{self, Read};
use std::rt::Files;
use thiserror::Error;

/// Why a file gives no text.
#[derive(Debug, Drop, Error)]
pub enum Unread {
    /// It can't be opened, or a read of it failed.
    #[error("{0}")]
    Failed(io::Error),
    /// 2,097,152 reads met no end of it.
    #[error("the input has no end")]
    NoEnd,
    /// Its name has bytes that aren't text, so it can't be opened.
    #[error("the name isn't UTF-8 text")]
    NoText,
    /// A growth was refused (code 20).
    #[error("out of memory (20)")]
    OutOfMemory,
}

/// What reads the files that are named.
pub trait Texts {
    // What reading the file of a name may give: its bytes, or why it gives none.
    ghost gives: { Self → List ℕ → Result (List ℕ) Unread → Type 0 };

    /// The bytes of the file of this name, up to its end, as many as are needed. Nothing is tried again (`open(2)`,
    /// `read(2)`).
    fn read(&self, alloc: Global, name: &str, extent: Extent) -> Result<Vec<u8>, Unread>
        ensures { GivesNeeded (gives self.now name.now) extent (bytes_of result) };
}

/// The files of the system. A name with NUL stands for one that isn't text.
#[derive(Clone, Copy)]
pub struct SystemTexts<'a, R> {
    pub files: &'a R,
}

impl<'a, R: Files> SystemTexts<'a, R> {
    /// Opens the file of this name (`open(2)`).
    pub fn opened(&self, name: &str) -> Result<R::File, Unread> {
        if name.contains('\0') {
            return Err(Unread::NoText);
        }
        match fs::open(self.files, name) {
            Ok(file) => Ok(file),
            Err(error) => Err(Unread::Failed(error)),
        }
    }
}

impl<'a, R: Files> Texts for SystemTexts<'a, R> {
    ghost gives = { λ texts name given. Unit {0} };

    fn read(&self, alloc: Global, name: &str, extent: Extent) -> Result<Vec<u8>, Unread> {
        read_opened(alloc, self.opened(name)?, extent)
    }
}

/// No files.
#[derive(Clone, Copy)]
pub struct NoTexts;

impl Texts for NoTexts {
    ghost gives = { λ texts name given. IsErr given };

    fn read(&self, _alloc: Global, _name: &str, _extent: Extent) -> Result<Vec<u8>, Unread> {
        Err(Unread::Failed(io::Error::from(io::ErrorKind::NotFound)))
    }
}

/// A reader that keeps why a read failed.
#[derive(Drop)]
struct Kept<R> {
    reader: R,
    failure: Option<io::Error>,
}

impl<R> Kept<R> {
    ghost use Rattle.std.specs.Prelude.{None};

    /// A reader from which nothing has been read yet.
    fn new(reader: R) -> Kept<R>
        ensures { result ≡ record { reader = reader; failure = None } }
    {
        Kept {
            reader,
            failure: None,
        }
    }
}

impl<R: Read> Read for Kept<R> {
    ghost remaining = { λ kept. R.remaining kept.reader };

    fn read(&mut self, buffer: &mut [u8]) -> io::Result<usize> {
        match self.reader.read(buffer) {
            Ok(count) => Ok(count),
            Err(error) => {
                self.failure = Some(error);
                Err(error)
            }
        }
    }
}

/// The bytes of an opened file, up to its end, as many as are needed.
pub fn read_opened<R: Read + Drop>(
    alloc: Global,
    reader: R,
    extent: Extent,
) -> Result<Vec<u8>, Unread>
    ensures { IfOk result (λ text. IfSome (R.remaining reader) (Suffices extent text.items)) }
{
    let mut source = ReadSource::new(Kept::new(reader));
    match read_needed(alloc, &mut source, extent) {
        Ok(text) => Ok(text),
        Err(fault) => Err(unread_by(fault, source.reader.failure)),
    }
}

/// Why a file wasn't read, by the error of the read that failed, if one did.
fn unread_by(fault: EngineFault, failure: Option<io::Error>) -> Unread {
    match (fault, failure) {
        (EngineFault::OutOfMemory, _) => Unread::OutOfMemory,
        (_, Some(error)) => Unread::Failed(error),
        (_, None) => Unread::NoEnd,
    }
}

/// What is told where memory ran out.
pub const MEMORY: &str = "out of memory (20)";

/// Tells on one line why a file can't be read, and answers the exit status then, which is 3.
pub fn tell_unread<E: Sink>(alloc: Global, name: &str, unread: &Unread, errors: &mut E) -> u8
    requires { (E.state errors.old).failures ≤ 1 }
    ensures status { result ≡ 3 }
    ensures told { (why : List ℕ) × IsTold (E.state errors.old) (E.state errors.new) (line_told name.now why) }
{
    match words_of(alloc, unread) {
        Ok(why) => tell_file(alloc, name, why.as_str(), errors),
        Err(AllocError) => tell_file(alloc, name, MEMORY, errors),
    }
}

/// Adds the line that says why a file can't be read.
pub fn put_unread(
    told: &mut Vec<u8>,
    alloc: Global,
    name: &str,
    unread: &Unread,
) -> Result<(), AllocError>
    ensures { IfOk result (λ _. (why : List ℕ) × (told.new.items ≡ told.old.items ++ line_told name.now why)) }
{
    let why = words_of(alloc, unread)?;
    put_line(told, name, why.as_str())
}

/// Why a file can't be read, in the words of the system and without its number of the error.
pub fn words_of(alloc: Global, unread: &Unread) -> Result<String, AllocError> {
    let told = format!(in alloc; "{unread}")?;
    without_number(alloc, told.as_str())
}

/// What the system says of an error, without its number.
fn without_number(alloc: Global, told: &str) -> Result<String, AllocError> {
    match told.split_once(" (os error ") {
        Some((words, _)) => String::from_str(alloc, words),
        None => String::from_str(alloc, told),
    }
}

/// Tells on one line why a file has no answer, and answers the exit status then, which is 3. After a write to `errors`
/// that failed nothing more is told.
pub fn tell_file<E: Sink>(alloc: Global, name: &str, why: &str, errors: &mut E) -> u8
    requires { (E.state errors.old).failures ≤ 1 }
    ensures status { result ≡ 3 }
    ensures told { IsTold (E.state errors.old) (E.state errors.new) (line_told name.now why.now) }
{
    if errors.failures() == 0 {
        let _ = write_at_once(alloc, name, why, errors);
    }
    DEVICE_STATUS
}

/// Writes the line that says why a file has no answer: in one piece where there is memory for it.
fn write_at_once<E: Sink>(
    alloc: Global,
    name: &str,
    why: &str,
    errors: &mut E,
) -> Result<(), EngineFault>
    requires { CanWrite (E.state errors.old) }
    ensures { Writes E.state errors.old errors.new (line_told name.now why.now) result }
{
    let mut line = Vec::new(alloc);
    match put_line(&mut line, name, why) {
        Ok(()) => write_piece(errors, &line),
        Err(AllocError) => write_line(name, why, errors),
    }
}

/// Adds the line that says why a file has no answer.
pub fn put_line(line: &mut Vec<u8>, name: &str, why: &str) -> Result<(), AllocError>
    ensures { Puts line.old line.new (line_told name.now why.now) result }
{
    put_piece(line, b"ringcheck: ")?;
    put_shown(line, name)?;
    put_pieces(line, &[b": ", why.as_bytes(), b"\n"])
}

/// Writes the line that says why a file has no answer. It takes no memory.
fn write_line<E: Sink>(name: &str, why: &str, errors: &mut E) -> Result<(), EngineFault>
    requires { CanWrite (E.state errors.old) }
    ensures { Writes E.state errors.old errors.new (line_told name.now why.now) result }
{
    write_piece(errors, b"ringcheck: ")?;
    write_shown(name, errors)?;
    write_pieces(errors, &[b": ", why.as_bytes(), b"\n"])
}
