//! Which form a line has, and the places of its words.

ghost use Rattle.std.specs.Prelude.{◌≡◌, ◌≤◌, ◌∷◌, [], length, true, IfOk, IfSome};
ghost use Rattle.rc_read.specs.Quick as quick;
ghost use Rattle.rc_read.specs.Spots as spec;
ghost use Rattle.rc_read.specs.Table.{parts_of as spec_parts_of, rows as all_rows};
ghost use Rattle.rc_read.specs.Texts.{Adds, AddsIfSo, AddsSome, HasSpots, HasSpotsOfRow, texts_of, view_spots};

use crate::brackets::{in_brackets, names_copies};
use crate::fixed::text_of;
use crate::kinds::{count_or, is_kind_word, part_after};
use crate::reserved::is_reserved_by;
use crate::table::{Part, Row, assignments, parts_of, rows_of, version_of};
use crate::words::{is, is_name};
use rc_lang::lines::Comparison;
use rc_lang::names::cut_at_bracket;
use std::alloc::AllocError;

/// A word in its place, with the part that is there.
#[derive(Clone, Copy)]
pub struct Spot<'a> {
    pub part: Part,
    pub word: &'a [u8],
}

/// The comparison that a word is.
pub fn comparison_of(word: &[u8]) -> Option<Comparison>
    ensures { result ≡ spec.comparison_of word.now }
{
    if is(word, b"==") {
        Some(Comparison::Equal)
    } else if is(word, b"!=") {
        Some(Comparison::NotEqual)
    } else if is(word, b"<") {
        Some(Comparison::Less)
    } else if is(word, b"<=") {
        Some(Comparison::AtMost)
    } else if is(word, b">") {
        Some(Comparison::Greater)
    } else if is(word, b">=") {
        Some(Comparison::AtLeast)
    } else {
        None
    }
}

/// Whether a word stands for a number in an operand's place.
pub fn begins_number(word: &[u8]) -> bool
    ensures { result ≡ spec.begins_number word.now }
{
    match word {
        [] => false,
        [first, ..] => first.is_ascii_digit() || *first == b'-',
    }
}

/// Whether a word is in the place of a part: a name in one for a name, any word in one for a number.
#[inline(always)]
pub fn fits(part: Part, word: &[u8]) -> bool
    ensures { result ≡ spec.fits part word.now }
{
    match part {
        Part::Fixed(fixed) => is(word, text_of(fixed)),
        Part::Variable | Part::Flag => is_name(word),
        Part::Buffer | Part::ReadBuffer | Part::Pool => is_name(word),
        Part::NewBuffer | Part::NewPool | Part::NewThread => is_name(word),
        Part::NewThreads => names_copies(word),
        Part::Operand => begins_number(word) || is_name(word),
        Part::Comparison => comparison_of(word).is_some(),
        Part::KindWord => is_kind_word(word),
        Part::Signed | Part::Number(_) | Part::File | Part::Token => true,
        Part::NewFile | Part::NewToken => true,
        Part::Items | Part::HeldShares | Part::HeldToken | Part::Credits | Part::Queued => true,
        Part::Kinds | Part::WriteShares | Part::Copies => true,
    }
}

// Whether a list of words is in a part, and not one word.
fn is_list(part: Part) -> bool
    ensures { result ≡ spec.is_list part }
{
    match part {
        Part::Items | Part::Kinds => true,
        _ => false,
    }
}

fn is_fixed(part: Part) -> bool
    ensures { result ≡ spec.is_fixed part }
{
    match part {
        Part::Fixed(_) => true,
        _ => false,
    }
}

fn colon_in(word: &[u8]) -> Option<usize>
    ensures { result ≡ spec.colon_in word.now }
{
    word.iter().position(|b| *b == b':')
}

// Adds the places of an item that is cut at a colon, if its name is one.
fn push_named<'a>(
    spots: &mut Vec<Spot<'a>>,
    name: &'a [u8],
    number: &'a [u8],
) -> Result<bool, AllocError>
    ensures is { IfOk result (λ b. b ≡ spec.is_item_name name.now) }
    ensures spots { AddsIfSo result spots.old spots.new (spec.item_spots name.now number.now) }
{
    if is(name, b"t") {
        spots.push(Spot {
            part: Part::HeldToken,
            word: number,
        })?;
    } else if is(name, b"c") {
        spots.push(Spot {
            part: Part::Credits,
            word: number,
        })?;
    } else if is(name, b"q") {
        spots.push(Spot {
            part: Part::Queued,
            word: number,
        })?;
    } else if is_name(name) {
        spots.push(Spot {
            part: Part::Buffer,
            word: name,
        })?;
        spots.push(Spot {
            part: Part::HeldShares,
            word: number,
        })?;
    } else {
        return Ok(false);
    }
    Ok(true)
}

// Adds the places of a word, if it is an item.
fn push_item<'a>(spots: &mut Vec<Spot<'a>>, word: &'a [u8]) -> Result<bool, AllocError>
    ensures is { IfOk result (λ b. b ≡ spec.is_item word.now) }
    ensures spots { AddsIfSo result spots.old spots.new (spec.spots_of_item word.now) }
{
    match colon_in(word) {
        None => Ok(false),
        Some(i) => push_named(spots, &word[..i], &word[i + 1..]),
    }
}

// Adds the places of the items in front. The answer is how many words they are.
fn push_items<'a>(spots: &mut Vec<Spot<'a>>, words: &[&'a [u8]]) -> Result<usize, AllocError>
    ensures value { IfOk result (λ n. n ≡ quick.items_in_front (texts_of words.now)) }
    ensures within { IfOk result (λ n. n ≤ length words.now) }
    ensures spots { Adds result spots.old spots.new (spec.spots_of_items (texts_of words.now)) }
{
    for (i, word) in words.iter().enumerate() {
        if !push_item(spots, word)? {
            return Ok(i);
        }
    }
    Ok(words.len())
}

// Adds the places of a word that declares threads with one name.
fn push_threads<'a>(spots: &mut Vec<Spot<'a>>, word: &'a [u8]) -> Result<(), AllocError>
    ensures { Adds result spots.old spots.new (spec.spots_of_word Part.NewThreads word.now) }
{
    spots.push(Spot {
        part: Part::NewThread,
        word: cut_at_bracket(word).0,
    })?;
    spots.push(Spot {
        part: Part::Copies,
        word: in_brackets(word),
    })?;
    Ok(())
}

// Adds the places of a word that is in a part. A fixed word has none.
fn push_word<'a>(spots: &mut Vec<Spot<'a>>, part: Part, word: &'a [u8]) -> Result<(), AllocError>
    ensures { Adds result spots.old spots.new (spec.spot_of_part part (word.now ∷ [])) }
{
    match part {
        Part::Fixed(_) => Ok(()),
        Part::NewThreads => push_threads(spots, word),
        part => {
            spots.push(Spot { part, word })?;
            Ok(())
        }
    }
}

// Adds the places of kinds, where all words are theirs. The answer is how many words they are.
fn push_kinds<'a>(
    spots: &mut Vec<Spot<'a>>,
    words: &[&'a [u8]],
) -> Result<Option<usize>, AllocError>
    ensures value { IfOk result (λ o. o ≡ quick.taken_list Part.Kinds (texts_of words.now)) }
    ensures within { IfOk result (λ o. IfSome o (λ n. n ≤ length words.now)) }
    ensures spots { AddsSome result spots.old spots.new (spec.spots_of_list Part.Kinds (texts_of words.now)) }
{
    let mut part = Part::KindWord;
    for word in words {
        if !fits(part, word) {
            return Ok(None);
        }
        push_word(spots, part, word)?;
        part = part_after(part, word);
    }
    let are_kinds = is_fixed(part) && count_or(words) <= 3;
    Ok(are_kinds.then_some(words.len()))
}

// Adds the places of a list, where it is there. The answer is how many words it is.
fn push_list<'a>(
    spots: &mut Vec<Spot<'a>>,
    part: Part,
    words: &[&'a [u8]],
) -> Result<Option<usize>, AllocError>
    ensures value { IfOk result (λ o. o ≡ quick.taken_list part (texts_of words.now)) }
    ensures within { IfOk result (λ o. IfSome o (λ n. n ≤ length words.now)) }
    ensures spots { AddsSome result spots.old spots.new (spec.spots_of_list part (texts_of words.now)) }
{
    match part {
        Part::Kinds => push_kinds(spots, words),
        _ => Ok(Some(push_items(spots, words)?)),
    }
}

// Adds the places of the words that a part takes, where they are there. The answer is how many words they are.
fn push_part<'a>(
    spots: &mut Vec<Spot<'a>>,
    part: Part,
    words: &[&'a [u8]],
) -> Result<Option<usize>, AllocError>
    ensures value { IfOk result (λ o. o ≡ quick.taken_by part (texts_of words.now)) }
    ensures within { IfOk result (λ o. IfSome o (λ n. n ≤ length words.now)) }
    ensures spots { AddsSome result spots.old spots.new (spec.spots_at part (texts_of words.now)) }
{
    if is_list(part) {
        return push_list(spots, part, words);
    }
    match words {
        [] => Ok(None),
        [word, ..] => {
            if !fits(part, word) {
                return Ok(None);
            }
            push_word(spots, part, word)?;
            Ok(Some(1))
        }
    }
}

// Puts the places of a line with these words there, from the left, where the words are those of the parts.
fn put_places<'a>(
    spots: &mut Vec<Spot<'a>>,
    parts: &[Part],
    words: &[&'a [u8]],
) -> Result<bool, AllocError>
    ensures matches { IfOk result (λ b. b ≡ spec.matches parts.now (texts_of words.now)) }
    ensures spots { IfOk result (λ b. b ≡ true → HasSpots spots.new parts.now words.now) }
{
    spots.clear();
    let mut at = 0;
    for part in parts {
        let taken = push_part(spots, *part, &words[at..])?;
        let Some(count) = taken else {
            return Ok(false);
        };
        at += count;
    }
    Ok(at == words.len())
}

/// Whether a name is in a place.
pub fn has_name(part: Part) -> bool
    ensures { result ≡ spec.has_name part }
{
    match part {
        Part::Variable | Part::Operand | Part::Flag => true,
        Part::Buffer | Part::Pool => true,
        Part::NewBuffer | Part::NewPool | Part::NewThread | Part::ReadBuffer => true,
        _ => false,
    }
}

// Whether a word that this version reserves is in the place of a name.
fn any_reserved(version: u32, spots: &[Spot]) -> bool
    ensures { result ≡ spec.any_reserved version (view_spots spots.now) }
{
    for spot in spots {
        if has_name(spot.part) && is_reserved_by(version, spot.word) {
            return true;
        }
    }
    false
}

// Whether a model of this version has such a form, with these places.
fn is_form(version: u32, row: Row, spots: &[Spot]) -> bool
    ensures { result ≡ spec.is_form version row (view_spots spots.now) }
{
    version_of(row) <= version && !any_reserved(version, spots)
}

// Whether a list of words is in a form.
fn has_list(row: Row) -> bool
    ensures { result ≡ quick.has_list (spec_parts_of row) }
{
    match row {
        Row::TokenKinds | Row::Thread | Row::Put | Row::IfTake | Row::Loop | Row::LoopWhen => true,
        Row::PutNamed | Row::IfTakeNamed | Row::Threads => true,
        Row::PoolStock | Row::UnnamedStock => true,
        _ => false,
    }
}

// Puts the places of a line with these words there, where it has this form.
fn put_form<'a>(spots: &mut Vec<Spot<'a>>, row: Row, words: &[&'a [u8]]) -> Result<bool, AllocError>
    ensures matches { IfOk result (λ b. b ≡ spec.matches (spec_parts_of row) (texts_of words.now)) }
    ensures spots { IfOk result (λ b. b ≡ true → HasSpots spots.new (spec_parts_of row) words.now) }
{
    let parts = parts_of(row);
    // Each part takes one word, but for lists.
    if parts.len() != words.len() && !has_list(row) {
        return Ok(false);
    }
    put_places(spots, parts, words)
}

// The first of these rows whose parts the words are. Their places are put there.
fn first_row<'a>(
    spots: &mut Vec<Spot<'a>>,
    rows: &[Row],
    words: &[&'a [u8]],
) -> Result<Option<Row>, AllocError>
    ensures row { IfOk result (λ o. o ≡ spec.first_row rows.now (texts_of words.now)) }
    ensures spots { HasSpotsOfRow result spots.new words.now }
{
    for row in rows {
        if put_form(spots, *row, words)? {
            return Ok(Some(*row));
        }
    }
    Ok(None)
}

// The byte with which the first word begins.
fn first_byte(words: &[&[u8]]) -> u8
    ensures { result ≡ quick.first_byte (texts_of words.now) }
{
    match words {
        [] => 0,
        [word, ..] => match word {
            [] => 0,
            [b, ..] => *b,
        },
    }
}

// The first row whose parts the words are. Their places are put there. Most lines begin with a fixed word.
fn find_row<'a>(spots: &mut Vec<Spot<'a>>, words: &[&'a [u8]]) -> Result<Option<Row>, AllocError>
    ensures row { IfOk result (λ o. o ≡ spec.first_row all_rows (texts_of words.now)) }
    ensures spots { HasSpotsOfRow result spots.new words.now }
{
    if let Some(row) = first_row(spots, rows_of(first_byte(words)), words)? {
        return Ok(Some(row));
    }
    Ok(first_row(spots, assignments(), words)?)
}

/// The form of a line with these words in a model of this version, whose places are put there.
#[inline(always)]
pub fn put_spots<'a>(
    version: u32,
    spots: &mut Vec<Spot<'a>>,
    words: &[&'a [u8]],
) -> Result<Option<Row>, AllocError>
    ensures row { IfOk result (λ o. o ≡ spec.row_of version (texts_of words.now)) }
    ensures spots { HasSpotsOfRow result spots.new words.now }
{
    let Some(row) = find_row(spots, words)? else {
        return Ok(None);
    };
    if is_form(version, row, spots) {
        Ok(Some(row))
    } else {
        Ok(None)
    }
}
