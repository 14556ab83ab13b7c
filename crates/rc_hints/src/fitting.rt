//! How far the words of a line fit a form.

use crate::lines::{between, from, place_of};
use rc_lang::names::cut_at_bracket;
use rc_read::kinds::part_after;
use rc_read::parts::Region;
use rc_read::reserved::is_reserved_by;
use rc_read::spots::{fits, has_name};
use rc_read::table::{Part, Row, Stand, assignments, parts_of, rows_of, stand_of, version_of};
use rc_read::words::{is, is_name, is_spelt};
use std::alloc::{AllocError, Global};

/// How many kinds a token has at most.
const MOST_KINDS: usize = 4;

/// Whether a form may be in this part of a model of this version.
pub fn may_be(version: u32, region: Region, row: Row) -> bool {
    let stand = stand_of(row);
    version_of(row) <= version
        && match region {
            Region::Start => matches!(stand, Stand::First),
            Region::Second => matches!(stand, Stand::Second),
            Region::Declarations => matches!(stand, Stand::Declaration | Stand::Header),
            Region::InThread => matches!(stand, Stand::Inside | Stand::Brace),
            Region::Between => matches!(stand, Stand::Header),
        }
}

fn push_forms(
    forms: &mut Vec<Row>,
    version: u32,
    region: Region,
    rows: &[Row],
) -> Result<(), AllocError> {
    for row in rows {
        if may_be(version, region, *row) {
            forms.push(*row)?;
        }
    }
    Ok(())
}

/// The forms that may be in this part of a model of this version: those that begin with a variable are the last.
pub fn forms_of(alloc: Global, version: u32, region: Region) -> Result<Vec<Row>, AllocError> {
    let mut forms = Vec::new(alloc);
    for first in b'a'..=b'}' {
        push_forms(&mut forms, version, region, rows_of(first))?;
    }
    push_forms(&mut forms, version, region, assignments())?;
    Ok(forms)
}

/// Whether a word would be a name, if it weren't reserved in this version.
pub fn is_reserved(version: u32, word: &[u8]) -> bool {
    is_spelt(word) && (is_reserved_by(version, word) || !is_name(word))
}

/// The name in a word that is in the place of a part, if it has one.
fn name_in(part: Part, word: &[u8]) -> Option<&[u8]> {
    match part {
        Part::NewThreads => Some(cut_at_bracket(word).0),
        part => has_name(part).then_some(word),
    }
}

/// Whether a word is in the place of a part in this version.
fn is_in(version: u32, part: Part, word: &[u8]) -> bool {
    let reserved = name_in(part, word).is_some_and(|name| is_reserved_by(version, name));
    fits(part, word) && !reserved
}

/// Whether a word is an item in this version.
pub fn is_item(version: u32, word: &[u8]) -> bool {
    match place_of(word, b':') {
        None => false,
        Some(i) => {
            let name = between(word, 0, i);
            let is_name = is_name(name) && !is_reserved_by(version, name);
            is(name, b"t") || is(name, b"c") || is(name, b"q") || is_name
        }
    }
}

/// How many items of this version are in front.
pub fn items_in_front(version: u32, words: &[&[u8]]) -> usize {
    let first = words.iter().position(|word| !is_item(version, word));
    first.unwrap_or(words.len())
}

/// The part after so many kinds of a token, after a part of the last of them: the line ends after the fourth.
fn part_after_kinds(count: usize, part: Part) -> Option<Part> {
    match part {
        Part::Fixed(_) if count >= MOST_KINDS => None,
        part => Some(part),
    }
}

/// How many words of kinds of this version are in front, and which part could be after them. After a whole kind the line
/// may end, too.
pub fn kinds_in_front(version: u32, words: &[&[u8]]) -> (usize, Option<Part>) {
    let mut part = Part::KindWord;
    let mut kinds: usize = 0;
    for (at, word) in words.iter().enumerate() {
        let Some(next) = part_after_kinds(kinds, part) else {
            return (at, None);
        };
        if !is_in(version, next, word) {
            return (at, Some(next));
        }
        kinds = kinds.saturating_add(usize::from(matches!(next, Part::KindWord)));
        part = part_after(next, word);
    }
    (words.len(), part_after_kinds(kinds, part))
}

/// How many words fit a form, from the left, which part could be after them, and whether items could.
#[derive(Clone, Copy)]
pub struct Reach {
    pub words: usize,
    pub next: Option<Part>,
    pub items: bool,
}

/// How far the words fit a form.
pub fn reach_of(version: u32, row: Row, words: &[&[u8]]) -> Reach {
    let mut at: usize = 0;
    let mut items = false;
    for part in parts_of(row) {
        if let Part::Items = *part {
            at = at.saturating_add(items_in_front(version, from(words, at)));
            items = true;
            continue;
        }
        if let Part::Kinds = *part {
            let (count, next) = kinds_in_front(version, from(words, at));
            return Reach {
                words: at.saturating_add(count),
                next,
                items,
            };
        }
        match from(words, at) {
            [word, ..] if is_in(version, *part, word) => {}
            _ => {
                return Reach {
                    words: at,
                    next: Some(*part),
                    items,
                };
            }
        }
        at = at.saturating_add(1);
        items = false;
    }
    Reach {
        words: at,
        next: None,
        items,
    }
}

/// How many words the longest fitting form fits.
pub fn longest(version: u32, forms: &[Row], words: &[&[u8]]) -> usize {
    let mut most = 0;
    for row in forms {
        most = most.max(reach_of(version, *row, words).words);
    }
    most
}
