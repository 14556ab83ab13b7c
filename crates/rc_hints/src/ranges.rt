//! Numbers in their places: what they are there, and their ranges.

use crate::hint::Hint;
use crate::places::{Place, column_at};
use crate::wording::put_word;
use rc_lang::numbers::{is_number, number_of, signed_number_of};
use rc_read::parts::Parts;
use rc_read::spots::begins_number;
use rc_read::table::{Part, Range};
use rc_read::words::{is, is_name};
use rc_text::text::{put_counted, put_number, put_piece, put_pieces};
use std::alloc::AllocError;

/// What the places so far say of the next: the entries of the submission ring, and the shares of the buffer before.
#[derive(Clone, Copy)]
struct Seen {
    rounded: u32,
    shares: u32,
}

/// The number of entries that a ring has for which this number is asked.
fn rounded_up(n: u64) -> u32 {
    for power in &[1, 2, 4, 8, 16, 32, 64, 128, 256, 512, 1024] {
        if n <= u64::from(*power) {
            return *power;
        }
    }
    2048
}

fn shares_of(parts: &Parts, name: &[u8]) -> u32 {
    for buffer in &parts.buffers {
        if is(&buffer.name, name) {
            return buffer.shares;
        }
    }
    16
}

fn seen_after(parts: &Parts, seen: Seen, place: Place) -> Seen {
    match place.part {
        Part::Number(Range::Size) => match number_of(1, 1024, place.word) {
            None => seen,
            Some(n) => Seen {
                rounded: rounded_up(n),
                ..seen
            },
        },
        Part::Buffer => Seen {
            shares: shares_of(parts, place.word),
            ..seen
        },
        _ => seen,
    }
}

/// The least and the greatest number of a range.
fn ends_of(parts: &Parts, seen: Seen, range: Range) -> (u64, u64) {
    match range {
        Range::Within(low, high) => (u64::from(low), u64::from(high)),
        Range::Size => (1, 1024),
        Range::CompletionSize => ((u64::from(seen.rounded) / 2).saturating_add(1), 2048),
        Range::Rounded => (0, u64::from(seen.rounded)),
        Range::Entries => (0, u64::from(parts.head.entries)),
        Range::Shares => (1, u64::from(seen.shares)),
    }
}

/// The range of a place for a number without a sign.
fn range_of(parts: &Parts, seen: Seen, part: Part) -> Option<(u64, u64)> {
    match part {
        Part::Number(range) => Some(ends_of(parts, seen, range)),
        Part::File | Part::NewFile => Some((0, 1023)),
        Part::Token | Part::NewToken | Part::HeldToken => Some((0, u64::MAX)),
        Part::HeldShares => Some((1, 16)),
        Part::Copies => Some((1, 64)),
        Part::WriteShares => Some((1, u64::from(seen.shares))),
        Part::Credits => Some((0, 2048)),
        Part::Queued => Some((0, u64::from(parts.head.entries))),
        _ => None,
    }
}

/// What a number is in a place of this range.
fn thing_in(range: Range) -> &'static [u8] {
    match range {
        Range::Size | Range::CompletionSize | Range::Rounded => b"a number of entries",
        Range::Entries => b"a number of entries",
        Range::Shares | Range::Within(1, 16) => b"a number of shares",
        Range::Within(0, 4095) => b"a place in the buffer",
        Range::Within(0, 4096) => b"a length",
        Range::Within(0, 1048576) => b"an offset",
        Range::Within(1, 4096) | Range::Within(0, 65536) => b"a number of bytes",
        Range::Within(0, 2048) => b"a number of completions",
        Range::Within(0, 1) => b"a flag",
        _ => b"a number",
    }
}

/// What a number in a place is.
pub fn thing_of(part: Part) -> &'static [u8] {
    match part {
        Part::Number(range) => thing_in(range),
        Part::File | Part::NewFile => b"a file's number",
        Part::Token | Part::NewToken | Part::HeldToken => b"user data",
        Part::HeldShares | Part::WriteShares => b"a number of shares",
        Part::Credits => b"a number of credits",
        Part::Copies => b"a number of copies",
        Part::Queued => b"a number of entries",
        _ => b"a number",
    }
}

/// Whether the place is a signed number's and the word isn't a signed number.
fn lacks_sign(place: Place) -> bool {
    let is_signed = match place.part {
        Part::Signed => true,
        Part::Operand => begins_number(place.word),
        _ => false,
    };
    is_signed && signed_number_of(i64::MIN, i64::MAX, place.word).is_none()
}

fn put_range(
    hint: &mut Hint,
    line: &[u8],
    place: Place,
    low: u64,
    high: u64,
) -> Result<(), AllocError> {
    let (what, is): (&[u8], &[u8]) = if is_number(place.word) {
        (b" is out of the range of ", b", ")
    } else {
        (b" is no number; ", b" is ")
    };
    hint.column = Some(column_at(line, place));
    let text = &mut hint.words;
    put_word(text, place.word)?;
    put_pieces(text, &[what, thing_of(place.part), is])?;
    put_counted(text, b"", low, b" to ")?;
    put_number(text, high)
}

/// Adds that a word is no signed number. A variable isn't one either: tests compare with numbers.
fn put_unsigned(hint: &mut Hint, line: &[u8], place: Place) -> Result<(), AllocError> {
    hint.column = Some(column_at(line, place));
    let text = &mut hint.words;
    put_word(text, place.word)?;
    if is_name(place.word) {
        return put_piece(
            text,
            b" is a variable, and a test compares with a number: test a difference, as 'd = x - y' and 'if d == 0 {'",
        );
    }
    put_piece(
        text,
        b" is no number from -9223372036854775808 to 9223372036854775807",
    )
}

/// Adds the hint for a word that is no number or is out of its range.
pub fn put_bad_number(
    hint: &mut Hint,
    parts: &Parts,
    line: &[u8],
    places: &[Place],
) -> Result<(), AllocError> {
    let mut seen = Seen {
        rounded: 1,
        shares: 16,
    };
    for place in places {
        if let Some((low, high)) = range_of(parts, seen, place.part) {
            if number_of(low, high, place.word).is_none() {
                return put_range(hint, line, *place, low, high);
            }
        }
        if lacks_sign(*place) {
            return put_unsigned(hint, line, *place);
        }
        seen = seen_after(parts, seen, *place);
    }
    Ok(())
}
