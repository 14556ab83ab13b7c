//! What is noted of the places of a line, one after another.

ghost use Rattle.std.specs.Prelude.{◌≡◌, ◌++◌, ◌∷◌, [], IfOk, OnOk};
ghost use Rattle.rc_lang.specs.Numbers.{number_of as number_in_range};
ghost use Rattle.rc_read.specs.Judging.{AddsNames, IsSeen, IsValue, IsWrong};
ghost use Rattle.rc_read.specs.Sentences as sentences;
ghost use Rattle.rc_read.specs.Sheets.{buffer_number, number_in, shares_in};
ghost use Rattle.rc_read.specs.Steps.{AddsName, PutsItems, PutsNames, PutsValues, TellsLack, TellsWrong};
ghost use Rattle.rc_read.specs.Texts.{view_spots};
ghost use Rattle.rc_read.specs.Values as spec;
ghost use Rattle.rc_read.specs.View.{view_sheet};

use crate::kinds::kind_alone;
use crate::names::{add_name, find_buffer, find_pool, has_buffer, has_file, has_thread, has_token};
use crate::parts::Parts;
use crate::spots::{Spot, begins_number, comparison_of};
use crate::table::{Part, Range};
use crate::values::{
    Item, Seen, Value, comparison_value, file_number_of, held_credits, held_queued, held_shares,
    held_token, number_at, signed_value, sized, small_number_of, small_value, start, user_data_of,
    user_data_value, write_value,
};
use crate::words::is;
use rc_lang::lines::Operand;
use rc_lang::program::TokenKind;
use std::alloc::{AllocError, Global};

fn lacks_file(parts: &Parts, number: Option<u32>) -> bool
    ensures { result ≡ sentences.lacks_file (view_sheet parts.now) number }
{
    match number {
        None => false,
        Some(n) => !has_file(&parts.files, n),
    }
}

fn lacks_token(parts: &Parts, user_data: Option<u64>) -> bool
    ensures { result ≡ sentences.lacks_token (view_sheet parts.now) user_data }
{
    match user_data {
        None => false,
        Some(u) => !has_token(&parts.tokens, u),
    }
}

fn repeats_file(parts: &Parts, number: Option<u32>) -> bool
    ensures { result ≡ sentences.repeats_file (view_sheet parts.now) number }
{
    match number {
        None => false,
        Some(n) => has_file(&parts.files, n),
    }
}

fn repeats_token(parts: &Parts, user_data: Option<u64>) -> bool
    ensures { result ≡ sentences.repeats_token (view_sheet parts.now) user_data }
{
    match user_data {
        None => false,
        Some(u) => has_token(&parts.tokens, u),
    }
}

/// What is wrong with names in the places of a line: one that isn't declared, one that is declared a second time, and
/// one declaration too many.
#[derive(Clone, Copy)]
pub struct Wrong {
    pub unknown: bool,
    pub double: bool,
    pub full: bool,
}

// What is noted of the places so far: what they say of the next, and what is wrong with their names.
#[derive(Clone, Copy)]
pub struct Noted {
    seen: Seen,
    wrong: Wrong,
}

impl Noted {
    ghost use Rattle.std.specs.Prelude.{◌≡◌, false};
    ghost use Rattle.rc_read.specs.Judging.{with_repeat, with_unknown};
    ghost use Rattle.rc_read.specs.Values.{start};

    // Before the first place.
    fn new() -> Noted
        ensures seen { result.seen ≡ start }
        ensures wrong { result.wrong ≡ record { unknown = false; double = false; full = false } }
    {
        Noted {
            seen: start(),
            wrong: Wrong {
                unknown: false,
                double: false,
                full: false,
            },
        }
    }

    // Notes whether a name isn't declared.
    fn lack(&mut self, unknown: bool)
        ensures seen { self.new.seen ≡ self.old.seen }
        ensures wrong { self.new.wrong ≡ with_unknown self.old.wrong unknown }
    {
        self.wrong.unknown = unknown | self.wrong.unknown;
    }

    // Notes whether a name is declared a second time, and whether it is one too many.
    fn repeat(&mut self, double: bool, full: bool)
        ensures seen { self.new.seen ≡ self.old.seen }
        ensures wrong { self.new.wrong ≡ with_repeat self.old.wrong double full }
    {
        self.wrong.double = double | self.wrong.double;
        self.wrong.full = full | self.wrong.full;
    }
}

// The number of a buffer, and its shares if it is declared. Notes whether it isn't.
fn known_buffer(parts: &Parts, noted: &mut Noted, word: &[u8]) -> (usize, Option<u32>)
    ensures number { result.0 ≡ buffer_number (view_sheet parts.now).buffers word.now }
    ensures shares { result.1 ≡ shares_in (view_sheet parts.now).buffers word.now }
    ensures seen { noted.new.seen ≡ noted.old.seen }
    ensures wrong { IsWrong (view_sheet parts.now) Part.Buffer word.now noted.old noted.new }
{
    let (buffer, shares) = find_buffer(&parts.buffers, word);
    noted.lack(shares.is_none());
    (buffer, shares)
}

fn look_at_buffer(parts: &Parts, noted: &mut Noted, word: &[u8]) -> Option<Value>
    ensures value { IsValue (view_sheet parts.now) Part.Buffer word.now noted.old result }
    ensures seen { IsSeen (view_sheet parts.now) Part.Buffer word.now noted.old noted.new }
    ensures wrong { IsWrong (view_sheet parts.now) Part.Buffer word.now noted.old noted.new }
{
    let (buffer, shares) = known_buffer(parts, noted, word);
    noted.seen.buffer = buffer;
    noted.seen.shares = shares;
    Some(Value::Named(buffer))
}

fn look_at_read_buffer(parts: &Parts, noted: &mut Noted, word: &[u8]) -> Option<Value>
    ensures value { IsValue (view_sheet parts.now) Part.ReadBuffer word.now noted.old result }
    ensures seen { noted.new.seen ≡ noted.old.seen }
    ensures wrong { IsWrong (view_sheet parts.now) Part.ReadBuffer word.now noted.old noted.new }
{
    let (buffer, _) = known_buffer(parts, noted, word);
    Some(Value::Kind(TokenKind::Read(buffer)))
}

fn look_at_pool(parts: &Parts, noted: &mut Noted, word: &[u8]) -> Option<Value>
    ensures value { IsValue (view_sheet parts.now) Part.Pool word.now noted.old result }
    ensures seen { noted.new.seen ≡ noted.old.seen }
    ensures wrong { IsWrong (view_sheet parts.now) Part.Pool word.now noted.old noted.new }
{
    let (pool, declared) = find_pool(&parts.pools, word);
    noted.lack(!declared);
    Some(Value::Named(pool))
}

// The user data of a token.
fn look_at_token(parts: &Parts, noted: &mut Noted, word: &[u8]) -> Option<u64>
    ensures value { result ≡ spec.user_data_of word.now }
    ensures seen { noted.new.seen ≡ noted.old.seen }
    ensures wrong { IsWrong (view_sheet parts.now) Part.Token word.now noted.old noted.new }
{
    let user_data = user_data_of(word);
    noted.lack(lacks_token(parts, user_data));
    user_data
}

fn look_at_file(parts: &Parts, noted: &mut Noted, word: &[u8]) -> Option<Value>
    ensures value { IsValue (view_sheet parts.now) Part.File word.now noted.old result }
    ensures seen { noted.new.seen ≡ noted.old.seen }
    ensures wrong { IsWrong (view_sheet parts.now) Part.File word.now noted.old noted.new }
{
    let number = file_number_of(word);
    noted.lack(lacks_file(parts, number));
    small_value(number)
}

fn look_at_size(noted: &mut Noted, word: &[u8]) -> Option<Value>
    ensures value { result ≡ spec.small_value (number_in_range 1 1024 word.now) }
    ensures seen { noted.new.seen ≡ spec.sized noted.old.seen (number_in_range 1 1024 word.now) }
    ensures wrong { noted.new.wrong ≡ noted.old.wrong }
{
    let size = small_number_of(1, 1024, word);
    noted.seen = sized(noted.seen, size);
    small_value(size)
}

fn look_at_new_file(parts: &Parts, noted: &mut Noted, word: &[u8]) -> Option<Value>
    ensures value { IsValue (view_sheet parts.now) Part.NewFile word.now noted.old result }
    ensures seen { noted.new.seen ≡ noted.old.seen }
    ensures wrong { IsWrong (view_sheet parts.now) Part.NewFile word.now noted.old noted.new }
{
    let number = file_number_of(word);
    noted.repeat(repeats_file(parts, number), parts.files.len() >= 16);
    small_value(number)
}

fn look_at_new_buffer(parts: &Parts, noted: &mut Noted, word: &[u8]) -> Option<Value>
    ensures value { IsValue (view_sheet parts.now) Part.NewBuffer word.now noted.old result }
    ensures seen { noted.new.seen ≡ noted.old.seen }
    ensures wrong { IsWrong (view_sheet parts.now) Part.NewBuffer word.now noted.old noted.new }
{
    noted.repeat(has_buffer(&parts.buffers, word), parts.buffers.len() >= 64);
    Some(Value::Nothing)
}

fn look_at_new_token(parts: &Parts, noted: &mut Noted, word: &[u8]) -> Option<Value>
    ensures value { IsValue (view_sheet parts.now) Part.NewToken word.now noted.old result }
    ensures seen { noted.new.seen ≡ noted.old.seen }
    ensures wrong { IsWrong (view_sheet parts.now) Part.NewToken word.now noted.old noted.new }
{
    let user_data = user_data_of(word);
    noted.repeat(repeats_token(parts, user_data), parts.tokens.len() >= 256);
    user_data_value(user_data)
}

fn look_at_new_pool(parts: &Parts, noted: &mut Noted, word: &[u8]) -> Option<Value>
    ensures value { IsValue (view_sheet parts.now) Part.NewPool word.now noted.old result }
    ensures seen { noted.new.seen ≡ noted.old.seen }
    ensures wrong { IsWrong (view_sheet parts.now) Part.NewPool word.now noted.old noted.new }
{
    noted.repeat(find_pool(&parts.pools, word).1, parts.pools.len() >= 16);
    Some(Value::Nothing)
}

// How many threads there may be in this version, all copies counted.
fn most_threads(version: u32) -> usize
    ensures { result ≡ sentences.most_threads version }
{
    if version >= 5 { 64 } else { 16 }
}

fn look_at_new_thread(parts: &Parts, noted: &mut Noted, word: &[u8]) -> Option<Value>
    ensures value { IsValue (view_sheet parts.now) Part.NewThread word.now noted.old result }
    ensures seen { noted.new.seen ≡ noted.old.seen }
    ensures wrong { IsWrong (view_sheet parts.now) Part.NewThread word.now noted.old noted.new }
{
    let double = has_thread(&parts.threads, word) || is(&parts.draft.name, word);
    let full = parts.threads.len() >= most_threads(parts.head.version);
    noted.repeat(double, full);
    Some(Value::Nothing)
}

fn look_at_copies(parts: &Parts, noted: &mut Noted, word: &[u8]) -> Option<Value>
    ensures value { IsValue (view_sheet parts.now) Part.Copies word.now noted.old result }
    ensures seen { noted.new.seen ≡ noted.old.seen }
    ensures wrong { IsWrong (view_sheet parts.now) Part.Copies word.now noted.old noted.new }
{
    let copies = small_number_of(1, 64, word);
    let full = parts.threads.len() + copies.unwrap_or(0) as usize > 64;
    noted.repeat(false, full);
    small_value(copies)
}

// The number of a variable, which is added where it is new.
fn variable_of(alloc: Global, parts: &mut Parts, word: &[u8]) -> Result<usize, AllocError>
    ensures number { IfOk result (λ n. n ≡ number_in (view_sheet parts.old).draft.names word.now) }
    ensures sheet { AddsName result parts.old Part.Variable word.now parts.new }
{
    Ok(add_name(alloc, &mut parts.draft.names, word)?)
}

// What an operand is. A variable is added where it is new.
fn operand_of(alloc: Global, parts: &mut Parts, word: &[u8]) -> Result<Option<Value>, AllocError>
    ensures value { IfOk result (λ o. o ≡ spec.operand_of (view_sheet parts.old) word.now) }
    ensures sheet { AddsName result parts.old Part.Operand word.now parts.new }
{
    if begins_number(word) {
        return Ok(signed_value(word));
    }
    let variable = variable_of(alloc, parts, word)?;
    Ok(Some(Value::Operand(Operand::Variable(variable))))
}

// What the word of a place says. What it says of the places after it, and what is wrong with its name, is noted, and a
// variable is added where it is new.
fn look_at(
    alloc: Global,
    parts: &mut Parts,
    noted: &mut Noted,
    part: Part,
    word: &[u8],
) -> Result<Option<Value>, AllocError>
    ensures value { IfOk result (IsValue (view_sheet parts.old) part word.now noted.old) }
    ensures seen { OnOk result (IsSeen (view_sheet parts.old) part word.now noted.old noted.new) }
    ensures wrong { OnOk result (IsWrong (view_sheet parts.old) part word.now noted.old noted.new) }
    ensures sheet { AddsName result parts.old part word.now parts.new }
{
    Ok(match part {
        Part::Fixed(_) | Part::Items | Part::Kinds | Part::NewThreads => Some(Value::Nothing),
        Part::Variable => Some(Value::Named(variable_of(alloc, parts, word)?)),
        Part::Operand => operand_of(alloc, parts, word)?,
        Part::Comparison => Some(comparison_value(comparison_of(word))),
        Part::Signed => signed_value(word),
        Part::Number(Range::Size) => look_at_size(noted, word),
        Part::Number(range) => small_value(number_at(parts, noted.seen, range, word)),
        Part::Buffer => look_at_buffer(parts, noted, word),
        Part::Pool => look_at_pool(parts, noted, word),
        Part::Token => user_data_value(look_at_token(parts, noted, word)),
        Part::File => look_at_file(parts, noted, word),
        Part::NewFile => look_at_new_file(parts, noted, word),
        Part::NewBuffer => look_at_new_buffer(parts, noted, word),
        Part::NewToken => look_at_new_token(parts, noted, word),
        Part::NewPool => look_at_new_pool(parts, noted, word),
        Part::NewThread => look_at_new_thread(parts, noted, word),
        Part::Copies => look_at_copies(parts, noted, word),
        Part::Flag => {
            let variable = variable_of(alloc, parts, word)?;
            Some(Value::Item(Item::When(variable)))
        }
        Part::HeldShares => held_shares(noted.seen.buffer, word),
        Part::HeldToken => held_token(look_at_token(parts, noted, word)),
        Part::Credits => held_credits(word),
        Part::Queued => held_queued(parts.head.entries, word),
        Part::KindWord => Some(kind_alone(word)),
        Part::ReadBuffer => look_at_read_buffer(parts, noted, word),
        Part::WriteShares => write_value(noted.seen, word),
    })
}

// Adds the item that a value is, if it is one.
fn push_if_item(items: &mut Vec<Item>, value: Value) -> Result<(), AllocError>
    ensures { OnOk result (items.new.items ≡ items.old.items ++ spec.items_in (value ∷ [])) }
{
    match value {
        Value::Item(item) => Ok(items.push(item)?),
        _ => Ok(()),
    }
}

/// Puts what the places of a line say there, and the items among it, and adds the line's variables, unless a word in a
/// number's place is no number or is out of its range. The answer is what is wrong with their names.
pub fn put_values(
    alloc: Global,
    values: &mut Vec<Value>,
    items: &mut Vec<Item>,
    parts: &mut Parts,
    spots: &[Spot],
) -> Result<Option<Wrong>, AllocError>
    ensures lacks { TellsLack result (view_sheet parts.old) (view_spots spots.now) }
    ensures names { OnOk result (AddsNames (view_sheet parts.old) (view_sheet parts.new)) }
    ensures sheet { PutsNames result parts.old spots.now parts.new }
    ensures values { PutsValues result parts.old spots.now values.new }
    ensures items { PutsItems result parts.old spots.now items.new }
    ensures wrong { TellsWrong result (view_sheet parts.old) (view_spots spots.now) }
{
    let mut noted = Noted::new();
    values.clear();
    items.clear();
    for spot in spots {
        let says = look_at(alloc, parts, &mut noted, spot.part, spot.word)?;
        let Some(value) = says else {
            return Ok(None);
        };
        values.push(value)?;
        push_if_item(items, value)?;
    }
    Ok(Some(noted.wrong))
}
