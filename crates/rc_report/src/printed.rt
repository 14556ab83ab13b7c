//! The printed forms of events and faults.

ghost use Rattle.std.specs.Prelude.{◌≡◌, [], ◌∷◌};
ghost use Rattle.std.specs.List.{flat_map};
ghost use Rattle.rc_report.specs.Pieces.{line_text, words_text};
ghost use Rattle.rc_report.specs.Printed.{action_text, completion_text, event_line, joined, thread_line};
ghost use Rattle.rc_report.specs.Streams.{CanWrite, Writes};
ghost use Rattle.rc_text.specs.Names.{side_text};

use crate::engine_fault::EngineFault;
use crate::streams::Sink;
use crate::writing::{write_piece, write_pieces};
use itoa::Buffer;
use rc_lang::lines::Locks;
use rc_lang::program::Program;
pub use rc_text::names::{buffer_name, pool_name, side_of, thread_name};
use rc_world::event::{Action, Completion, Event};

/// A line in pieces, one after another.
#[derive(Drop)]
pub struct Line<'a> {
    pub pieces: [&'a [u8]; 9],
}

/// A line of five pieces at most: the others are empty.
pub fn short_line<'a>(
    first: &'a [u8],
    second: &'a [u8],
    third: &'a [u8],
    fourth: &'a [u8],
    fifth: &'a [u8],
) -> Line<'a>
    ensures { line_text result ≡ joined (first.now ∷ second.now ∷ third.now ∷ fourth.now ∷ fifth.now ∷ []) }
{
    Line {
        pieces: [first, second, third, fourth, fifth, b"", b"", b"", b""],
    }
}

/// The words of a step: a word, with its blanks, and the values after it.
pub struct Words<'a> {
    pub word: &'a [u8],
    pub first: &'a [u8],
    pub between: &'a [u8],
    pub second: &'a [u8],
}

/// A word with one value, or with none.
fn valued<'a>(word: &'a [u8], value: &'a str) -> Words<'a>
    ensures { words_text result ≡ joined (word.now ∷ value.now ∷ []) }
{
    Words {
        word,
        first: value.as_bytes(),
        between: b"",
        second: b"",
    }
}

/// A word with the values of a completion.
fn completed<'a>(
    word: &'a [u8],
    completion: Completion,
    first: &'a mut Buffer,
    second: &'a mut Buffer,
) -> Words<'a>
    ensures { words_text result ≡ joined (word.now ∷ completion_text completion ∷ []) }
{
    Words {
        word,
        first: first.format(completion.user_data).as_bytes(),
        between: b" ",
        second: second.format(completion.res).as_bytes(),
    }
}

/// A word with the side of some locks.
fn sided<'a>(word: &'a [u8], locks: Locks) -> Words<'a>
    ensures { words_text result ≡ joined (word.now ∷ side_text locks ∷ []) }
{
    let side: &'a str = side_of(locks);
    valued(word, side)
}

/// The words of a step, after a blank.
fn words_of<'a>(action: Action, first: &'a mut Buffer, second: &'a mut Buffer) -> Words<'a>
    ensures { words_text result ≡ action_text action }
{
    match action {
        Action::VariableSet(value) => valued(b" set ", first.format(value)),
        Action::Loaded(byte) => valued(b" load ", first.format(byte)),
        Action::Stored(byte) => valued(b" store ", first.format(byte)),
        Action::Filled(byte) => valued(b" fill ", first.format(byte)),
        Action::Printed(value) => valued(b" print ", first.format(value)),
        Action::Locked(locks) => sided(b" lock", locks),
        Action::Released(locks) => sided(b" release", locks),
        Action::EntryOpened => valued(b" get_sqe", ""),
        Action::ReadPrepared => valued(b" prep_read", ""),
        Action::WritePrepared => valued(b" prep_write", ""),
        Action::FsyncPrepared => valued(b" prep_fsync", ""),
        Action::NopPrepared => valued(b" prep_nop", ""),
        Action::OtherPrepared => valued(b" prep_other", ""),
        Action::DataSet(data) => valued(b" set_data64 ", first.format(data)),
        Action::Submitted(answer) => valued(b" submit ", first.format(answer)),
        Action::Peeked(completion) => completed(b" peek_cqe ", completion, first, second),
        Action::PeekedNone => valued(b" peek_cqe none", ""),
        Action::DataGot(data) => valued(b" cqe_get_data64 ", first.format(data)),
        Action::Reaped(data) => valued(b" cqe_seen ", first.format(data)),
        Action::ItemsPut => valued(b" put", ""),
        Action::Branched(true) => valued(b" if yes", ""),
        Action::Branched(false) => valued(b" if no", ""),
        Action::Looped => valued(b" loop", ""),
        Action::LoopLeft => valued(b" break", ""),
    }
}

/// Writes an event as a line, with its number.
pub fn write_event_line<W: Sink>(
    writer: &mut W,
    program: &Program,
    number: u64,
    event: Event,
) -> Result<(), EngineFault>
    requires { CanWrite (W.state writer.old) }
    ensures { Writes W.state writer.old writer.new (event_line program.now number event) result }
{
    let (mut digits, mut at) = (Buffer::new(), Buffer::new());
    let (mut first, mut second) = (Buffer::new(), Buffer::new());
    let number = digits.format(number).as_bytes();
    match event {
        Event::ByThread {
            thread,
            line,
            action,
        } => {
            let name = thread_name(program, thread);
            let line = at.format(line).as_bytes();
            let words = words_of(action, &mut first, &mut second);
            write_thread_line(writer, number, name, line, words)
        }
        Event::ByKernel(completion) => {
            let user_data = first.format(completion.user_data).as_bytes();
            let res = second.format(completion.res).as_bytes();
            write_pieces(writer, &[number, b" kernel ", user_data, b" ", res, b"\n"])
        }
    }
}

/// Writes the line of a thread's event. Each piece is a call of its own, so that those that never change are stored
/// where they are written.
fn write_thread_line<W: Sink>(
    writer: &mut W,
    number: &[u8],
    name: &[u8],
    line: &[u8],
    words: Words<'_>,
) -> Result<(), EngineFault>
    requires { CanWrite (W.state writer.old) }
    ensures { Writes W.state writer.old writer.new (thread_line number.now name.now line.now (words_text words.entry)) result }
{
    let Words {
        word,
        first,
        between,
        second,
    } = words;
    write_piece(writer, number)?;
    write_piece(writer, b" ")?;
    write_piece(writer, name)?;
    write_piece(writer, b" ")?;
    write_piece(writer, line)?;
    write_pieces(writer, &[word, first, between, second])?;
    write_piece(writer, b"\n")
}
