//! Changes with which a line can be read.

use super::{Faulty, before};
use crate::actions::Action;
use crate::known::{put_arms, put_ends};
use crate::marks::{Mark, fit_of};
use crate::names::declaration_of;
use crate::place::{Edit, Range};
use crate::words::{Word, begins_with};
use rc_hints::fitting::forms_of;
use rc_hints::near::{Nearest, nearer, none_near};
use rc_read::ReadCause;
use rc_read::fixed::text_of;
use rc_read::parts::Parts;
use rc_read::table::{Part, parts_of, version_of};
use rc_read::words::is;
use rc_report::text::{put_number, put_pieces};
use std::alloc::AllocError;

/// Adds the changes with which a line can be read, by why it can't, and what is above it.
pub fn push(
    actions: &mut Vec<Action>,
    faulty: &Faulty,
    cause: ReadCause,
    above: &Parts,
) -> Result<(), AllocError> {
    match cause {
        ReadCause::BadHead => push_head(actions, faulty),
        ReadCause::BadLine => {
            push_version(actions, faulty, above)?;
            push_word(actions, faulty, above)
        }
        ReadCause::UnknownName => push_names(actions, faulty),
        ReadCause::Braces => push_ends(actions, faulty, above),
        ReadCause::BadCase => push_arms(actions, faulty, above),
        ReadCause::OtherFlag => push_flag(actions, faulty, above),
        _ => Ok(()),
    }
}

/// Offers another word in the place of one.
fn push_other(
    actions: &mut Vec<Action>,
    faulty: &Faulty,
    line: usize,
    word: &Word,
    other: &[u8],
) -> Result<(), AllocError> {
    let mut title = Vec::new(faulty.alloc);
    put_pieces(&mut title, &[b"Write `", other, b"`"])?;
    let edit = Edit {
        range: faulty.page.range(line, word),
        text: Vec::from_slice(faulty.alloc, other)?,
    };
    let _ = faulty.offer_one(actions, &title, edit)?;
    Ok(())
}

/// Offers the first line of a head.
fn push_head(actions: &mut Vec<Action>, faulty: &Faulty) -> Result<(), AllocError> {
    let edit = faulty.above(faulty.line, &[b"ringcheck 4"])?;
    let _ = faulty.offer_one(actions, b"Begin the model with `ringcheck 4`", edit)?;
    Ok(())
}

/// Offers the version of the notation that the form of the line needs.
fn push_version(
    actions: &mut Vec<Action>,
    faulty: &Faulty,
    above: &Parts,
) -> Result<(), AllocError> {
    match (needed_version(faulty, above)?, head_of(faulty)) {
        (Some(version), Some(line)) => push_number(actions, faulty, line, version),
        _ => Ok(()),
    }
}

/// The version that the form of the line needs, if the one above is too old for it.
fn needed_version(faulty: &Faulty, above: &Parts) -> Result<Option<u32>, AllocError> {
    let words = faulty.words(faulty.line)?;
    let Some(fit) = fit_of(faulty.alloc, 5, above.region, &words)? else {
        return Ok(None);
    };
    let needed = version_of(fit.row);
    if fit.words < words.count() || needed <= above.head.version {
        return Ok(None);
    }
    Ok(Some(needed))
}

/// The line above that says the version.
fn head_of(faulty: &Faulty) -> Option<usize> {
    (0..faulty.line).find(|line| begins_with(faulty.page.line(*line), b"ringcheck"))
}

/// Offers a number in the place of the second word of a line.
fn push_number(
    actions: &mut Vec<Action>,
    faulty: &Faulty,
    line: usize,
    number: u32,
) -> Result<(), AllocError> {
    let words = faulty.words(line)?;
    let mut other = Vec::new(faulty.alloc);
    put_number(&mut other, u64::from(number))?;
    push_other(actions, faulty, line, &words.word(1), &other)
}

/// Offers the word that begins a form and is spelt nearest to the first of the line.
fn push_word(actions: &mut Vec<Action>, faulty: &Faulty, above: &Parts) -> Result<(), AllocError> {
    let words = faulty.words(faulty.line)?;
    let mut nearest = none_near();
    for row in &forms_of(faulty.alloc, above.head.version, above.region)? {
        if let [Part::Fixed(first), ..] = parts_of(*row) {
            nearest = nearer(faulty.alloc, words.text(0), nearest, text_of(*first))?;
        }
    }
    push_nearest(actions, faulty, &words.word(0), nearest)
}

/// Offers a word that is spelt nearly as one of the line.
fn push_nearest(
    actions: &mut Vec<Action>,
    faulty: &Faulty,
    word: &Word,
    nearest: Nearest,
) -> Result<(), AllocError> {
    if nearest.distance == 0 || nearest.distance > 2 {
        return Ok(());
    }
    push_other(actions, faulty, faulty.line, word, nearest.word)
}

/// Offers declared names for those that aren't declared.
fn push_names(actions: &mut Vec<Action>, faulty: &Faulty) -> Result<(), AllocError> {
    for mark in &faulty.page.marks {
        if mark.line == faulty.line && declaration_of(&faulty.page, mark).is_none() {
            push_declared(actions, faulty, mark)?;
        }
    }
    Ok(())
}

/// Offers the declared name that is spelt nearest.
fn push_declared(
    actions: &mut Vec<Action>,
    faulty: &Faulty,
    name: &Mark,
) -> Result<(), AllocError> {
    let mut nearest = none_near();
    for mark in &faulty.page.marks {
        if mark.kind == name.kind && mark.declares && mark.line < faulty.line {
            nearest = nearer(faulty.alloc, name.name.text, nearest, mark.name.text)?;
        }
    }
    push_nearest(actions, faulty, &name.name, nearest)
}

/// Offers ends for the blocks that are open at the model's end, or to leave out an end that is one too many.
fn push_ends(actions: &mut Vec<Action>, faulty: &Faulty, above: &Parts) -> Result<(), AllocError> {
    let edit = ends_after(faulty, above)?;
    let _ = faulty.offer_one(actions, b"End the open blocks", edit)?;
    let _ = faulty.offer_one(actions, b"Remove this line", without_line(faulty))?;
    Ok(())
}

/// Ends for the open blocks, after the line at fault.
fn ends_after(faulty: &Faulty, above: &Parts) -> Result<Edit, AllocError> {
    let line = faulty.page.line(faulty.line);
    let range = faulty.page.range_from(faulty.line, line.len(), line.len());
    let mut text = Vec::new(faulty.alloc);
    text.push(b'\n')?;
    put_ends(&mut text, above)?;
    text.truncate(text.len().saturating_sub(1));
    Ok(Edit { range, text })
}

/// Nothing in the place of the line at fault.
fn without_line(faulty: &Faulty) -> Edit {
    let range = Range {
        start: before(faulty.line).start,
        end: before(faulty.line.saturating_add(1)).start,
    };
    let text = Vec::new(faulty.alloc);
    Edit { range, text }
}

/// Offers the arms that a peek lacks.
fn push_arms(actions: &mut Vec<Action>, faulty: &Faulty, above: &Parts) -> Result<(), AllocError> {
    let mut indent = Vec::from_slice(faulty.alloc, faulty.indent(faulty.line)?)?;
    if !indent.is_empty() {
        indent.extend_from_slice(b"    ")?;
    }
    let mut text = Vec::new(faulty.alloc);
    put_arms(&mut text, above, &indent)?;
    let edit = Edit {
        range: before(faulty.line),
        text,
    };
    let _ = faulty.offer_one(actions, b"Add the arms that are missing", edit)?;
    Ok(())
}

/// Offers the thread's flag for another variable after `when`.
fn push_flag(actions: &mut Vec<Action>, faulty: &Faulty, above: &Parts) -> Result<(), AllocError> {
    let words = faulty.words(faulty.line)?;
    let name = above
        .draft
        .flag
        .and_then(|flag| above.draft.names.get_index(flag));
    let when = words.texts.iter().position(|word| is(word, b"when"));
    match (name, when) {
        (Some(name), Some(place)) => {
            let word = words.word(place.saturating_add(1));
            push_other(actions, faulty, faulty.line, &word, name)
        }
        _ => Ok(()),
    }
}
