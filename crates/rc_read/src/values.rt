//! What the words of a line say in their places.

ghost use Rattle.std.specs.Prelude.{◌≡◌, ◌≤◌, option_map};
ghost use Rattle.rc_lang.specs.Numbers.{number_of as number_in};
ghost use Rattle.rc_read.specs.Values as spec;
ghost use Rattle.rc_read.specs.View.{view_sheet};

use crate::parts::Parts;
use crate::table::Range;
use crate::words::is;
use rc_lang::lines::{Comparison, Operand};
use rc_lang::numbers::{is_number, number_of, signed_number_of};
use rc_lang::program::TokenKind;

/// An item of a list: shares of a buffer, a token, credits or queued entries; and `when`, which is between two
/// lists with a variable.
#[derive(Clone, Copy)]
pub enum Item {
    Shares(usize, u32),
    Token(u64),
    Credits(u32),
    Queued(u32),
    When(usize),
}

/// What a word says in its place.
#[derive(Clone, Copy)]
pub enum Value {
    Nothing,
    Small(u32),
    UserData(u64),
    /// A variable's, a buffer's or a pool's number.
    Named(usize),
    Operand(Operand),
    Compares(Comparison),
    Item(Item),
    /// A kind that a token may be of.
    Kind(TokenKind),
}

/// What the places so far say of the next: the entries of the submission ring that the line asks for, and the buffer
/// that it named last, with its shares if it is declared.
#[derive(Clone, Copy)]
pub struct Seen {
    pub rounded: u32,
    pub buffer: usize,
    pub shares: Option<u32>,
}

pub fn small_number_of(low: u32, high: u32, word: &[u8]) -> Option<u32>
    ensures { result ≡ number_in low high word.now }
{
    Some(number_of(u64::from(low), u64::from(high), word)? as u32)
}

// The first of these numbers that isn't below n, and 2048 where all are.
fn first_from(n: u32, powers: &[u32]) -> u32
    ensures { result ≡ spec.first_from n powers.now }
{
    for power in powers {
        if n <= *power {
            return *power;
        }
    }
    2048
}

/// The number of entries that a ring has for which this number is asked (`io_uring_setup(2)`).
pub fn rounded_up(n: u32) -> u32
    ensures value { result ≡ spec.rounded_up n }
    ensures within { result ≤ 2048 }
{
    first_from(n, &[1, 2, 4, 8, 16, 32, 64, 128, 256, 512, 1024])
}

// A completion ring's size, where it has at least these entries.
fn with_room(entries: u32, size: Option<u32>) -> Option<u32>
    ensures { result ≡ spec.with_room entries size }
{
    let n = size?;
    (entries <= rounded_up(n)).then_some(n)
}

fn any_share(word: &[u8]) -> Option<u32>
    ensures { result ≡ spec.any_share word.now }
{
    (is_number(word) && !is(word, b"0")).then_some(1)
}

fn share_number(shares: Option<u32>, word: &[u8]) -> Option<u32>
    ensures { result ≡ spec.share_number shares word.now }
{
    match shares {
        None => any_share(word),
        Some(shares) => small_number_of(1, shares, word),
    }
}

pub fn number_at(parts: &Parts, seen: Seen, range: Range, word: &[u8]) -> Option<u32>
    ensures { result ≡ spec.number_at (view_sheet parts.now) seen range word.now }
{
    match range {
        Range::Within(low, high) => small_number_of(low, high, word),
        Range::Size => small_number_of(1, 1024, word),
        Range::CompletionSize => with_room(seen.rounded, small_number_of(1, 2048, word)),
        Range::Rounded => small_number_of(0, seen.rounded, word),
        Range::Entries => small_number_of(0, parts.head.entries, word),
        Range::Shares => share_number(seen.shares, word),
    }
}

fn signed_of(word: &[u8]) -> Option<i64>
    ensures { result ≡ spec.signed_of word.now }
{
    signed_number_of(i64::MIN, i64::MAX, word)
}

/// The user data that a word spells.
pub fn user_data_of(word: &[u8]) -> Option<u64>
    ensures { result ≡ spec.user_data_of word.now }
{
    number_of(0, u64::MAX, word)
}

/// The file number that a word spells, 0 to 1023.
pub fn file_number_of(word: &[u8]) -> Option<u32>
    ensures { result ≡ spec.file_number_of word.now }
{
    small_number_of(0, 1023, word)
}

pub fn small_value(n: Option<u32>) -> Option<Value>
    ensures { result ≡ spec.small_value n }
{
    Some(Value::Small(n?))
}

pub fn signed_value(word: &[u8]) -> Option<Value>
    ensures { result ≡ spec.signed_value word.now }
{
    Some(Value::Operand(Operand::Number(signed_of(word)?)))
}

pub fn comparison_value(comparison: Option<Comparison>) -> Value
    ensures { result ≡ spec.comparison_value comparison }
{
    match comparison {
        None => Value::Nothing,
        Some(comparison) => Value::Compares(comparison),
    }
}

/// A write of the buffer before.
pub fn write_value(seen: Seen, word: &[u8]) -> Option<Value>
    ensures { result ≡ spec.write_value seen (spec.share_number seen.shares word.now) }
{
    let count = share_number(seen.shares, word)?;
    Some(Value::Kind(TokenKind::Write(seen.buffer, count)))
}

pub fn user_data_value(user_data: Option<u64>) -> Option<Value>
    ensures { result ≡ option_map (λ u. Value.UserData u) user_data }
{
    Some(Value::UserData(user_data?))
}

pub fn held_shares(buffer: usize, word: &[u8]) -> Option<Value>
    ensures { result ≡ spec.item_value (Item.Shares buffer) (number_in 1 16 word.now) }
{
    let count = small_number_of(1, 16, word)?;
    Some(Value::Item(Item::Shares(buffer, count)))
}

pub fn held_token(user_data: Option<u64>) -> Option<Value>
    ensures { result ≡ spec.item_value Item.Token user_data }
{
    Some(Value::Item(Item::Token(user_data?)))
}

pub fn held_credits(word: &[u8]) -> Option<Value>
    ensures { result ≡ spec.item_value Item.Credits (number_in 0 2048 word.now) }
{
    let count = small_number_of(0, 2048, word)?;
    Some(Value::Item(Item::Credits(count)))
}

pub fn held_queued(entries: u32, word: &[u8]) -> Option<Value>
    ensures { result ≡ spec.item_value Item.Queued (number_in 0 entries word.now) }
{
    let count = small_number_of(0, entries, word)?;
    Some(Value::Item(Item::Queued(count)))
}

// Before the first place.
pub fn start() -> Seen
    ensures { result ≡ spec.start }
{
    Seen {
        rounded: 1,
        buffer: 0,
        shares: None,
    }
}

pub fn sized(seen: Seen, size: Option<u32>) -> Seen
    ensures { result ≡ spec.sized seen size }
{
    match size {
        None => seen,
        Some(n) => Seen {
            rounded: rounded_up(n),
            ..seen
        },
    }
}
