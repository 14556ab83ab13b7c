//! The names of a line.

use crate::words::{Word, Words};
use rc_hints::fitting::{forms_of, items_in_front, reach_of};
use rc_lang::names::cut_at_bracket;
use rc_read::kinds::part_after;
use rc_read::parts::Region;
use rc_read::spots::put_spots;
use rc_read::table::{Part, Row, parts_of};
use rc_read::words::is;
use std::alloc::{AllocError, Global};

/// What a name is the name of. Files and tokens are named by numbers.
#[derive(Clone, Copy, PartialEq, Eq)]
pub enum Kind {
    File,
    Buffer,
    Token,
    Pool,
    Thread,
    Variable,
}

/// A name in a model.
#[derive(Clone, Copy)]
pub struct Mark<'a> {
    pub kind: Kind,
    /// The line of the thread to which a variable belongs, from 0; 0 for all else.
    pub scope: usize,
    /// The line, from 0.
    pub line: usize,
    pub name: Word<'a>,
    /// The whole word that has the name: an item, or the name itself.
    pub around: Word<'a>,
    pub declares: bool,
    /// Whether the line gives a variable a value, or declares what it names.
    pub writes: bool,
}

impl Mark<'_> {
    /// Whether two marks name one thing.
    pub fn is_same(&self, other: &Mark) -> bool {
        self.kind == other.kind && self.scope == other.scope && is(self.name.text, other.name.text)
    }
}

/// The form of a line, and how many of its words fit it.
#[derive(Clone, Copy)]
pub struct Fit {
    pub row: Row,
    pub words: usize,
}

/// The form of a line with these words, or else the one that the most of them fit, from the left.
pub fn fit_of(
    alloc: Global,
    version: u32,
    region: Region,
    words: &Words,
) -> Result<Option<Fit>, AllocError> {
    let mut spots = Vec::new(alloc);
    if let Some(row) = put_spots(version, &mut spots, &words.texts)? {
        return Ok(Some(Fit {
            row,
            words: words.count(),
        }));
    }
    let mut best = None;
    let mut most = 0;
    for row in &forms_of(alloc, version, region)? {
        let reach = reach_of(version, *row, &words.texts).words;
        if reach > most {
            most = reach;
            best = Some(Fit {
                row: *row,
                words: reach,
            });
        }
    }
    Ok(best)
}

/// Where a line is: its number, from 0, and the line of its thread.
#[derive(Clone, Copy)]
pub struct LineAt {
    pub line: usize,
    pub scope: usize,
    pub version: u32,
}

/// What a part of a form names, and whether the line declares it.
fn kind_of(part: Part) -> Option<(Kind, bool)> {
    match part {
        Part::Variable | Part::Flag | Part::Operand => Some((Kind::Variable, false)),
        Part::File => Some((Kind::File, false)),
        Part::Buffer | Part::ReadBuffer => Some((Kind::Buffer, false)),
        Part::Token => Some((Kind::Token, false)),
        Part::Pool => Some((Kind::Pool, false)),
        Part::NewFile => Some((Kind::File, true)),
        Part::NewBuffer => Some((Kind::Buffer, true)),
        Part::NewToken => Some((Kind::Token, true)),
        Part::NewPool => Some((Kind::Pool, true)),
        Part::NewThread | Part::NewThreads => Some((Kind::Thread, true)),
        _ => None,
    }
}

/// Whether a line of a form gives its first variable a value.
fn gives(row: Row) -> bool {
    matches!(
        row,
        Row::Set
            | Row::Add
            | Row::Subtract
            | Row::Load
            | Row::Submit
            | Row::SubmitAndWait
            | Row::Peek
    )
}

/// Whether a word is a number's in an operand's place.
fn is_number(word: &[u8]) -> bool {
    match word {
        [first, ..] => first.is_ascii_digit() || *first == b'-',
        [] => true,
    }
}

/// The name in a word: what is before its bracket, if it has one.
fn name_in<'a>(word: Word<'a>) -> Word<'a> {
    Word {
        text: cut_at_bracket(word.text).0,
        start: word.start,
    }
}

/// Adds the name that is in the place of a part.
fn push_part<'a>(
    marks: &mut Vec<Mark<'a>>,
    here: LineAt,
    part: Part,
    word: Word<'a>,
    gives: bool,
) -> Result<(), AllocError> {
    let Some((kind, declares)) = kind_of(part) else {
        return Ok(());
    };
    if matches!(part, Part::Operand) && is_number(word.text) {
        return Ok(());
    }
    let is_variable = kind == Kind::Variable;
    marks.push(Mark {
        kind,
        scope: if is_variable { here.scope } else { 0 },
        line: here.line,
        name: name_in(word),
        around: word,
        declares,
        writes: declares || is_variable && gives,
    })?;
    Ok(())
}

/// Cuts an item at its colon.
fn cut_item<'a>(word: Word<'a>) -> Option<(Word<'a>, Word<'a>)> {
    let colon = word.text.iter().position(|b| *b == b':')?;
    let (name, number) = cut_around(word.text, colon);
    let start = word.start.saturating_add(colon).saturating_add(1);
    Some((
        Word {
            text: name,
            start: word.start,
        },
        Word {
            text: number,
            start,
        },
    ))
}

/// The bytes before a place, and those after it.
fn cut_around(bytes: &[u8], place: usize) -> (&[u8], &[u8]) {
    if place < bytes.len() {
        (&bytes[..place], &bytes[place + 1..])
    } else {
        (bytes, &[])
    }
}

/// Adds the name in an item: of a buffer, or of a token.
fn push_item<'a>(
    marks: &mut Vec<Mark<'a>>,
    here: LineAt,
    word: Word<'a>,
) -> Result<(), AllocError> {
    let Some((name, number)) = cut_item(word) else {
        return Ok(());
    };
    if is(name.text, b"c") || is(name.text, b"q") {
        return Ok(());
    }
    let is_token = is(name.text, b"t");
    marks.push(Mark {
        kind: if is_token { Kind::Token } else { Kind::Buffer },
        scope: 0,
        line: here.line,
        name: if is_token { number } else { name },
        around: word,
        declares: false,
        writes: false,
    })?;
    Ok(())
}

/// Adds the names of a line that fits a form.
pub fn push_marks<'a>(
    marks: &mut Vec<Mark<'a>>,
    here: LineAt,
    words: &Words<'a>,
    fit: Fit,
) -> Result<(), AllocError> {
    let mut at: usize = 0;
    let mut gives = gives(fit.row);
    for part in parts_of(fit.row) {
        if at >= fit.words {
            return Ok(());
        }
        if let Part::Kinds = *part {
            return push_kinds(marks, here, words, at, fit.words);
        }
        at = push_at(marks, here, words, *part, at, gives)?;
        gives = gives && !matches!(part, Part::Variable);
    }
    Ok(())
}

/// Adds the names of buffers in kinds of a token, which are the words from one to another.
fn push_kinds<'a>(
    marks: &mut Vec<Mark<'a>>,
    here: LineAt,
    words: &Words<'a>,
    first: usize,
    end: usize,
) -> Result<(), AllocError> {
    let mut part = Part::KindWord;
    for at in first..end {
        let word = words.word(at);
        push_part(marks, here, part, word, false)?;
        part = part_after(part, word.text);
    }
    Ok(())
}

/// Adds the names that are in the place of a part, from this word on. Answers the word after them.
fn push_at<'a>(
    marks: &mut Vec<Mark<'a>>,
    here: LineAt,
    words: &Words<'a>,
    part: Part,
    at: usize,
    gives: bool,
) -> Result<usize, AllocError> {
    if !matches!(part, Part::Items) {
        push_part(marks, here, part, words.word(at), gives)?;
        return Ok(at.saturating_add(1));
    }
    let end = at.saturating_add(items_in_front(here.version, words.from(at)));
    for place in at..end {
        push_item(marks, here, words.word(place))?;
    }
    Ok(end)
}
