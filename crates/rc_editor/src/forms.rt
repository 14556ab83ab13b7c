//! The forms of the notation, as words.

ghost use Rattle.std.specs.Prelude.{◌≡◌, length};
ghost use Rattle.rc_editor.specs.Forms.{numbers_in};
ghost use Rattle.rc_read.specs.Table as table;

use crate::words::put_spaced;
use rc_read::fixed::text_of;
use rc_read::table::{Part, Row, parts_of};
use rc_report::text::put_piece;
use std::alloc::{AllocError, Global};

/// What stands for the numbers of a form, as in docs/notation.md.
fn numbers_of(row: Row) -> &'static [&'static str]
    ensures { length result.now ≡ numbers_in (table.parts_of row) }
{
    match row {
        Row::Ring => &["N"],
        Row::RingCq => &["N", "M"],
        Row::RingLeft => &["N", "Q"],
        Row::RingCqLeft => &["N", "M", "Q"],
        Row::File => &["LEN"],
        Row::Buffer => &["BYTES", "SHARES"],
        Row::TokenWrite => &["K"],
        Row::Load | Row::Store => &["i"],
        Row::PrepRead => &["LEN", "OFF"],
        Row::PrepWrite => &["LEN", "OFF", "K"],
        Row::PrepFsync => &["FLAGS"],
        Row::SubmitAndWait | Row::IfSpace => &["m"],
        _ => &[],
    }
}

/// What stands for a number of a form, by its place among the form's numbers.
fn number_word(row: Row, place: usize) -> &'static [u8] {
    match numbers_of(row).get(place) {
        Some(word) => word.as_bytes(),
        None => b"",
    }
}

/// What stands for a part that is no number, as in docs/notation.md; a fixed word stands for itself.
fn part_word(part: Part) -> &'static [u8] {
    match part {
        Part::Fixed(word) => text_of(word),
        Part::Variable | Part::Flag => b"x",
        Part::Operand => b"A",
        Part::Comparison => b"OP",
        Part::Signed => b"n",
        Part::Number(_) => b"",
        Part::File | Part::NewFile => b"F",
        Part::Buffer => b"B",
        Part::Pool => b"P",
        Part::Token | Part::NewToken => b"U",
        Part::NewBuffer | Part::NewPool | Part::NewThread => b"NAME",
        Part::NewThreads => b"NAME[N]",
        Part::Copies => b"N",
        Part::Items => b"ITEMS",
        Part::Kinds => b"KIND or KIND ..",
        Part::KindWord => b"KIND",
        Part::ReadBuffer => b"B",
        Part::WriteShares => b"K",
        Part::HeldShares => b"k",
        Part::HeldToken => b"U",
        Part::Credits => b"m",
        Part::Queued => b"k",
    }
}

/// Adds a form, with a blank between two words.
pub fn put_form(text: &mut Vec<u8>, row: Row) -> Result<(), AllocError> {
    let mut numbers: usize = 0;
    for (place, part) in parts_of(row).iter().enumerate() {
        let is_number = matches!(part, Part::Number(_));
        let word = if is_number {
            number_word(row, numbers)
        } else {
            part_word(*part)
        };
        put_spaced(text, place == 0, word)?;
        numbers = numbers.saturating_add(usize::from(is_number));
    }
    Ok(())
}

/// The fixed words with which a form begins, and a blank where more of it is to come.
pub fn beginning_of(alloc: Global, row: Row) -> Result<Vec<u8>, AllocError> {
    let mut text = Vec::new(alloc);
    for part in parts_of(row) {
        let Part::Fixed(word) = *part else {
            put_piece(&mut text, b" ")?;
            return Ok(text);
        };
        let is_first = text.is_empty();
        put_spaced(&mut text, is_first, text_of(word))?;
    }
    Ok(text)
}

/// What a line of a form does, and the page of the manual that says more of it.
pub fn meaning_of(row: Row) -> &'static str {
    match row {
        Row::Version | Row::SecondVersion | Row::ThirdVersion => "the version of the notation",
        Row::FourthVersion | Row::FifthVersion => "the version of the notation",
        Row::Ring | Row::RingCq | Row::RingLeft | Row::RingCqLeft => {
            "the entries of the rings, and how many may stay queued where the lock is released: io_uring_setup(2)"
        }
        Row::File => "a file that requests may name, and its length in bytes",
        Row::Buffer => { "a buffer, and its shares: one share allows to read it, all to write it" }
        Row::TokenRead => "the user data of a read, which owns all shares of B in flight",
        Row::TokenWrite => "the user data of a write, which owns K shares of B in flight",
        Row::TokenFsync => "the user data of an fsync",
        Row::TokenNop => "the user data of a nop",
        Row::TokenOther => {
            "the user data of another request without a buffer, as a poll or a timeout"
        }
        Row::TokenKinds => {
            "the user data of a request of one of up to four kinds, as of a read and then a write"
        }
        Row::Pool => "a table that threads put items into and take them from",
        Row::PoolStock => {
            "a table that threads put items into and take them from, and what is in it at the start"
        }
        Row::UnnamedStock => "what is at the start in the pool without a name",
        Row::Thread => "a thread, and what it holds at its start",
        Row::Threads => "N threads that run the same lines, and what each holds at its start",
        Row::Set => "sets a variable",
        Row::Add => "the sum, 64 bits, wrapping",
        Row::Subtract => "the difference, 64 bits, wrapping",
        Row::Load => "the byte at place i of a buffer",
        Row::Store => "writes the low eight bits of x at place i",
        Row::Fill => "writes the low eight bits of x at every place",
        Row::Print => "shows a variable in the trace",
        row => meaning_in_thread(row),
    }
}

/// The same of the other statements of a thread.
fn meaning_in_thread(row: Row) -> &'static str {
    match row {
        Row::Lock => "takes both locks at once, and releases them at the closing brace",
        Row::LockSq =>
            "takes the lock of the submission side, and releases it at the closing brace",
        Row::LockCq =>
            "takes the lock of the completion side, and releases it at the closing brace",
        Row::GetSqe => "opens the next submission entry: io_uring_get_sqe(3)",
        Row::PrepRead => {
            "makes the open entry a read of LEN bytes at OFF: io_uring_prep_read(3)"
        }
        Row::PrepWrite => {
            "makes the open entry a write of LEN bytes at OFF, which takes K shares: io_uring_prep_write(3)"
        }
        Row::PrepFsync => {
            "makes the open entry an fsync, with 1 of the data alone: io_uring_prep_fsync(3)"
        }
        Row::PrepNop => "makes the open entry a nop: io_uring_prep_nop(3)",
        Row::PrepOther => {
            "makes the open entry another request without a buffer, as io_uring_prep_timeout(3)"
        }
        Row::SetData64 => {
            "gives the open entry its user data and queues it: io_uring_sqe_set_data64(3)"
        }
        Row::Submit => {
            "hands queued entries to the kernel; x is how many, or a negative errno: io_uring_submit(3)"
        }
        Row::SubmitAndWait => {
            "the same as a submit, and waits for m completions: io_uring_submit_and_wait(3)"
        }
        row => meaning_in_lock(row),
    }
}

/// The same of those that come after a submit, and of blocks.
fn meaning_in_lock(row: Row) -> &'static str {
    match row {
        Row::CqeGetData64 => {
            "reaps the peeked completion's request before cqe_seen: io_uring_cqe_get_data64(3)"
        }
        Row::CqeSeen => "takes the peeked completion away: io_uring_cqe_seen(3)",
        Row::Peek => {
            "looks at the oldest completion; x is its result, or -11 if there is none: io_uring_peek_cqe(3)"
        }
        Row::Case => "the arm for this user data",
        Row::Other => "the arm for any other user data",
        Row::Nothing => "the arm for no completion",
        Row::If => "compares a variable with a number",
        Row::IfReady => "whether no entry is queued or open: io_uring_sq_ready(3)",
        Row::IfSpace => "whether so many entries are free: io_uring_sq_space_left(3)",
        Row::IfAny => "a free choice: either branch may be taken",
        Row::Put | Row::PutNamed => "gives the items to the pool",
        Row::IfTake | Row::IfTakeNamed => {
            "whether the pool has all of the items; if so, the thread gets them in the first branch"
        }
        Row::Else => "ends the first branch of an if and begins its second",
        Row::Loop => "repeats; the items are what the thread holds each time at the top",
        Row::LoopWhen => {
            "repeats; the items are what the thread holds at the top, those after when besides wherever x isn't 0"
        }
        Row::Break => "leaves the innermost loop, and releases the locks that were taken in it",
        _ => "ends the innermost block",
    }
}
