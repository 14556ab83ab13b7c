//! The fault sentences about a line, and what becomes of the parts at it.

ghost use Rattle.std.specs.Prelude.{◌≡◌};
ghost use Rattle.rc_read.specs.Judging.{AddsNames, Finds, JudgesLine, OnCause, later_sentences};
ghost use Rattle.rc_read.specs.Sentences as spec;
ghost use Rattle.rc_read.specs.Spots.{spots_of};
ghost use Rattle.rc_read.specs.Steps.{JudgesAny, JudgesForm};
ghost use Rattle.rc_read.specs.Stream.{Judges};
ghost use Rattle.rc_read.specs.Table.{parts_of};
ghost use Rattle.rc_read.specs.Texts.{texts_of, view_spots};
ghost use Rattle.rc_read.specs.Values.{flag_in as flag_in_list};
ghost use Rattle.rc_read.specs.View.{view_sheet};

use crate::blocks::{bad_brace, bad_case, bad_nesting, is_too_deep, is_too_long, may_stand};
use crate::fault::{ReadCause, ReadFault};
use crate::kinds::names_kind_twice;
use crate::lists::{any_named_twice, flag_in};
use crate::names::has_unnamed;
use crate::noted::{Wrong, put_values};
use crate::parts::{Parts, Region};
use crate::says::{Says, says_of};
use crate::spots::{Spot, put_spots};
use crate::table::{Row, Stand, stand_of};
use crate::values::{Item, Value};
use crate::words::{begins_strange, is, put_words};
use std::alloc::{AllocError, Global};

/// What is in the places of a line.
#[derive(Drop)]
pub struct Found<'a> {
    spots: Vec<Spot<'a>>,
    values: Vec<Value>,
    items: Vec<Item>,
}

/// Memory that each line of a piece uses again.
#[derive(Drop)]
pub struct Scratch<'a> {
    words: Vec<&'a [u8]>,
    found: Found<'a>,
}

impl<'a> Scratch<'a> {
    /// No line's.
    pub fn new(alloc: Global) -> Scratch<'a> {
        Scratch {
            words: Vec::new(alloc),
            found: Found {
                spots: Vec::new(alloc),
                values: Vec::new(alloc),
                items: Vec::new(alloc),
            },
        }
    }
}

fn is_version(row: Option<Row>) -> bool
    ensures { result ≡ spec.is_version row }
{
    match row {
        None => false,
        Some(row) => match stand_of(row) {
            Stand::First => true,
            _ => false,
        },
    }
}

fn first_of<'a>(words: &[&'a [u8]]) -> &'a [u8]
    ensures { result.now ≡ spec.first_of (texts_of words.now) }
{
    match words {
        [] => &[],
        [word, ..] => word,
    }
}

fn bad_head(region: Region, row: Option<Row>, words: &[&[u8]]) -> bool
    ensures { result ≡ spec.bad_head region row (texts_of words.now) }
{
    match region {
        Region::Start => !is_version(row),
        Region::Second => !is(first_of(words), b"ring"),
        Region::Declarations | Region::InThread | Region::Between => false,
    }
}

// Whether after `when` is another variable than the thread's flag, if it has one.
fn other_flag(flag: Option<usize>, items: &[Item]) -> bool
    ensures { result ≡ spec.other_flag flag (flag_in_list items.now) }
{
    match flag {
        None => false,
        Some(x) => match flag_in(items) {
            None => false,
            Some(y) => x != y,
        },
    }
}

// Whether a line says a second time what there is once: a kind of a token, and what the pool without a name has.
fn repeats(parts: &Parts, says: Says) -> bool
    ensures { result ≡ spec.repeats (view_sheet parts.now) says }
{
    match says {
        Says::Token(token) => names_kind_twice(token),
        Says::UnnamedStock => has_unnamed(&parts.stock),
        _ => false,
    }
}

// The cause of the first sentence from the fifth on that is true of a line, where the parts have its variables.
fn later_cause(
    parts: &Parts,
    line: &[u8],
    wrong: Wrong,
    items: &[Item],
    says: Says,
) -> Option<ReadCause>
    ensures { Finds result (later_sentences (view_sheet parts.now) line.now wrong items.now says) }
{
    if wrong.unknown {
        Some(ReadCause::UnknownName)
    } else if wrong.double || any_named_twice(items) || repeats(parts, says) {
        Some(ReadCause::DoubleName)
    } else if bad_brace(parts, says) {
        Some(ReadCause::Braces)
    } else if is_too_long(parts, line)
        || is_too_deep(parts, says)
        || wrong.full
        || parts.draft.names.len() > 64
    {
        Some(ReadCause::TooLarge)
    } else if bad_nesting(&parts.draft, items, says) {
        Some(ReadCause::BadNesting)
    } else if bad_case(&parts.draft, says) {
        Some(ReadCause::BadCase)
    } else if other_flag(parts.draft.flag, items) {
        Some(ReadCause::OtherFlag)
    } else {
        None
    }
}

// The cause of a line of this form with these places, or the line is added.
fn judge_row(
    alloc: Global,
    parts: &mut Parts,
    found: &mut Found,
    line: &[u8],
    words: &[&[u8]],
    row: Row,
) -> Result<Option<ReadCause>, AllocError>
    requires { view_spots found.old.spots.items ≡ spots_of (parts_of row) (texts_of words.now) }
    ensures judges { JudgesForm parts.old line.now words.now row parts.new result }
    ensures names { OnCause result (AddsNames (view_sheet parts.old) (view_sheet parts.new)) }
{
    let (values, items) = (&mut found.values, &mut found.items);
    let put = put_values(alloc, values, items, parts, &found.spots)?;
    let Some(wrong) = put else {
        return Ok(Some(ReadCause::BadNumber));
    };
    let says = says_of(row, &found.values);
    if let Some(cause) = later_cause(parts, line, wrong, &found.items, says) {
        return Ok(Some(cause));
    }
    parts.add(alloc, words, &found.items, &says)?;
    Ok(None)
}

// The cause of a line with these words, or the line is added.
fn judge_words<'a>(
    alloc: Global,
    parts: &mut Parts,
    found: &mut Found<'a>,
    line: &[u8],
    words: &[&'a [u8]],
) -> Result<Option<ReadCause>, AllocError>
    ensures judges { JudgesAny parts.old line.now words.now parts.new result }
    ensures names { OnCause result (AddsNames (view_sheet parts.old) (view_sheet parts.new)) }
{
    if words.is_empty() {
        if is_too_long(parts, line) {
            return Ok(Some(ReadCause::TooLarge));
        }
        parts.count_line();
        return Ok(None);
    }
    let row = put_spots(parts.head.version, &mut found.spots, words)?;
    if bad_head(parts.region, row, words) {
        return Ok(Some(ReadCause::BadHead));
    }
    let Some(row) = row else {
        return Ok(Some(ReadCause::BadLine));
    };
    if !may_stand(stand_of(row), parts.region) {
        return Ok(Some(ReadCause::BadLine));
    }
    judge_row(alloc, parts, found, line, words, row)
}

// The cause of a line, or the line is added.
fn line_cause<'a>(
    alloc: Global,
    parts: &mut Parts,
    scratch: &mut Scratch<'a>,
    line: &'a [u8],
) -> Result<Option<ReadCause>, AllocError>
    ensures judges { JudgesLine (view_sheet parts.old) line.now (view_sheet parts.new) result }
    ensures names { OnCause result (AddsNames (view_sheet parts.old) (view_sheet parts.new)) }
{
    if begins_strange(line) {
        return Ok(Some(ReadCause::NotAscii));
    }
    put_words(&mut scratch.words, line)?;
    judge_words(alloc, parts, &mut scratch.found, line, &scratch.words)
}

/// Judges a line, and adds it where no sentence is true of it.
pub fn judge<'a>(
    alloc: Global,
    parts: &mut Parts,
    scratch: &mut Scratch<'a>,
    line: &'a [u8],
) -> Result<(), ReadFault>
    ensures { Judges (view_sheet parts.old) line.now (view_sheet parts.new) result }
{
    let number = parts.count + 1;
    let names = parts.draft.names.len();
    let Some(cause) = line_cause(alloc, parts, scratch, line)? else {
        return Ok(());
    };
    parts.draft.names.truncate(names);
    Err(ReadFault::Text {
        line: number,
        cause,
    })
}
