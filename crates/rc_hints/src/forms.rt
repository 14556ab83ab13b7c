//! What could be in a line whose words are no form.

use crate::fitting::{forms_of, is_reserved, longest, may_be, reach_of};
use crate::hint::Hint;
use crate::lines::{column_of, place_of, word_at};
use crate::near::{Nearest, nearer, none_near};
use crate::ranges::thing_of;
use crate::slips::put_slip;
use crate::wording::{put_framed, put_word};
use rc_read::fixed::{Word, text_of};
use rc_read::kinds::count_or;
use rc_read::parts::Parts;
use rc_read::spots::{fits, has_name, put_spots};
use rc_read::table::{Part, Row, Stand, parts_of, rows_of, stand_of, version_of};
use rc_read::words::is;
use rc_text::text::{put_counted, put_number, put_piece};
use std::alloc::{AllocError, Global};

/// What could be at a word: a fixed word, or what these words say.
#[derive(Clone, Copy)]
struct Choice {
    text: &'static [u8],
    is_fixed: bool,
}

fn named(text: &'static [u8]) -> Choice {
    Choice {
        text,
        is_fixed: false,
    }
}

fn choice_of(next: Option<Part>) -> Choice {
    let Some(part) = next else {
        return named(b"the end of the line");
    };
    match part {
        Part::Fixed(word) => Choice {
            text: text_of(word),
            is_fixed: true,
        },
        Part::Variable | Part::Flag => named(b"a variable"),
        Part::Buffer | Part::NewBuffer | Part::NewThread => named(b"a name"),
        Part::ReadBuffer => named(b"a name"),
        Part::NewThreads => named(b"a name and '[N]'"),
        Part::Pool | Part::NewPool => named(b"a name"),
        Part::Operand => named(b"a variable or a number"),
        Part::Comparison => named(b"a comparison"),
        Part::Items => named(b"items"),
        _ => named(thing_of(part)),
    }
}

/// What could be at a word, each once, and whether a name could.
#[derive(Drop)]
struct Choices {
    list: Vec<Choice>,
    named: bool,
}

impl Choices {
    /// Adds what could be in the place of a part, or that the line could end.
    fn add_next(&mut self, next: Option<Part>) -> Result<(), AllocError> {
        match next {
            Some(Part::KindWord) => self.add_kinds(),
            next => self.add(choice_of(next)),
        }
    }

    /// Adds the words with which kinds of a token begin.
    fn add_kinds(&mut self) -> Result<(), AllocError> {
        for word in &[Word::Read, Word::Write, Word::Fsync, Word::Nop, Word::Other] {
            self.add(choice_of(Some(Part::Fixed(*word))))?;
        }
        Ok(())
    }

    /// Adds a choice that isn't there yet.
    fn add(&mut self, choice: Choice) -> Result<(), AllocError> {
        if !self.list.iter().any(|other| is(other.text, choice.text)) {
            self.list.push(choice)?;
        }
        Ok(())
    }
}

/// What could be after so many words, by the forms that fit them.
fn choices_at(
    alloc: Global,
    version: u32,
    forms: &[Row],
    words: &[&[u8]],
    most: usize,
) -> Result<Choices, AllocError> {
    let mut choices = Choices {
        list: Vec::new(alloc),
        named: false,
    };
    for row in forms {
        let reach = reach_of(version, *row, words);
        if reach.words == most {
            choices.add_next(reach.next)?;
            choices.named |= reach.next.is_some_and(has_name);
            if reach.items {
                choices.add(named(b"items"))?;
            }
        }
    }
    Ok(choices)
}

fn put_choices(text: &mut Vec<u8>, choices: &[Choice]) -> Result<(), AllocError> {
    for (i, choice) in choices.iter().enumerate() {
        if i > 0 {
            put_piece(text, b" or ")?;
        }
        if choice.is_fixed {
            put_word(text, choice.text)?;
        } else {
            put_piece(text, choice.text)?;
        }
    }
    Ok(())
}

/// The fixed word with which a form begins.
fn first_of(row: Row) -> &'static [u8] {
    match parts_of(row) {
        [Part::Fixed(word), ..] => text_of(*word),
        _ => &[],
    }
}

/// The first word of a form that is spelt nearest.
fn near_first(alloc: Global, forms: &[Row], word: &[u8]) -> Result<Nearest<'static>, AllocError> {
    let mut nearest = none_near();
    for row in forms {
        nearest = nearer(alloc, word, nearest, first_of(*row))?;
    }
    Ok(nearest)
}

/// What the spelling of a word shows.
fn put_spelling(text: &mut Vec<u8>, version: u32, word: &[u8]) -> Result<(), AllocError> {
    let brace = place_of(word, b'{').is_some() || place_of(word, b'}').is_some();
    if brace && word.len() > 1 {
        put_piece(text, b"; '{' and '}' are words of their own")?;
    }
    if word.iter().any(|b| b.is_ascii_uppercase()) {
        put_piece(text, b"; words have lower case letters")?;
    }
    if is_reserved(version, word) {
        put_framed(text, b"; '", word, b"' is a reserved word")?;
    }
    Ok(())
}

fn put_first(
    hint: &mut Hint,
    version: u32,
    line: &[u8],
    word: &[u8],
    nearest: Nearest,
) -> Result<(), AllocError> {
    hint.column = Some(column_of(line, 0));
    let text = &mut hint.words;
    put_framed(text, b"no statement begins with '", word, b"' here")?;
    if nearest.distance < 3 {
        put_framed(text, b"; the nearest word is '", nearest.word, b"'")?;
    }
    put_spelling(text, version, word)
}

/// A form that a later version has.
fn put_version(
    hint: &mut Hint,
    version: u32,
    line: &[u8],
    word: &[u8],
    row: Row,
) -> Result<(), AllocError> {
    hint.column = Some(column_of(line, 0));
    let text = &mut hint.words;
    put_framed(text, b"this form of '", word, b"' needs version ")?;
    let needed = u64::from(version_of(row));
    put_counted(text, b"", needed, b"; the head says version ")?;
    put_number(text, u64::from(version))
}

/// Where a form is that may not be here.
fn put_stand(hint: &mut Hint, line: &[u8], word: &[u8], stand: Stand) -> Result<(), AllocError> {
    let place: &'static [u8] = match stand {
        Stand::First | Stand::Second => b"' may only be in the head, once",
        Stand::Declaration => b"' may only be above the threads",
        Stand::Header => b"' begins a thread, and may not be in another",
        Stand::Inside => b"' may only be in a thread",
        Stand::Brace => b"' closes a block, and may only be in a thread",
    };
    hint.column = Some(column_of(line, 0));
    put_framed(&mut hint.words, b"'", word, place)
}

/// The form that begins with a fixed word, wherever in a model it may be.
fn begun(word: &[u8]) -> Option<Row> {
    let [first, ..] = word else {
        return None;
    };
    let mut rows = rows_of(*first).iter();
    rows.find(|row| is(word, first_of(**row))).copied()
}

fn put_longest(
    alloc: Global,
    hint: &mut Hint,
    version: u32,
    forms: &[Row],
    line: &[u8],
    words: &[&[u8]],
    most: usize,
) -> Result<(), AllocError> {
    let choices = choices_at(alloc, version, forms, words, most)?;
    hint.column = Some(column_of(line, most));
    let text = &mut hint.words;
    let before = word_at(words, most.saturating_sub(1));
    put_piece(text, b"expected ")?;
    put_choices(text, &choices.list)?;
    let word = word_at(words, most);
    if most < words.len() {
        put_framed(text, b", found '", word, b"'")?;
    } else {
        put_piece(text, b", found the end of the line")?;
    }
    put_framed(text, b" after '", before, b"'")?;
    if is(word, b"or") && count_or(words) > 3 {
        put_piece(text, b"; a token has at most four kinds")?;
    }
    if choices.named || !is_reserved(version, word) {
        put_spelling(text, version, word)?;
    }
    Ok(())
}

/// What a whole form says that may not be here, or not yet: one of this version, or else of the last.
fn refused_form(alloc: Global, version: u32, words: &[&[u8]]) -> Result<Option<Row>, AllocError> {
    let mut spots = Vec::new(alloc);
    if let Some(row) = put_spots(version, &mut spots, words)? {
        return Ok(Some(row));
    }
    put_spots(5, &mut spots, words)
}

/// The version that a line needs whose words are no form that may be there, where a later one has it.
pub fn needed_version(
    alloc: Global,
    parts: &Parts,
    words: &[&[u8]],
) -> Result<Option<u32>, AllocError> {
    let version = parts.head.version;
    let row = match refused_form(alloc, version, words)? {
        Some(row) => Some(row),
        None => begun_alone(alloc, parts, words)?,
    };
    match row {
        Some(row) if version_of(row) > version => Ok(Some(version_of(row))),
        _ => Ok(None),
    }
}

/// The form that the first word of a line begins, where none of its version does, and that may be here in a later one.
fn begun_alone(alloc: Global, parts: &Parts, words: &[&[u8]]) -> Result<Option<Row>, AllocError> {
    let version = parts.head.version;
    let forms = forms_of(alloc, version, parts.region)?;
    if longest(version, &forms, words) > 0 {
        return Ok(None);
    }
    match begun(word_at(words, 0)) {
        Some(row) if may_be(version_of(row), parts.region, row) => Ok(Some(row)),
        _ => Ok(None),
    }
}

/// Why a form that a word begins may not be here: it is of a later version, or it is elsewhere.
fn put_begun(
    hint: &mut Hint,
    parts: &Parts,
    line: &[u8],
    word: &[u8],
    row: Row,
) -> Result<(), AllocError> {
    if may_be(version_of(row), parts.region, row) {
        return put_version(hint, parts.head.version, line, word, row);
    }
    put_stand(hint, line, word, stand_of(row))
}

/// Adds the hint for a line whose words are no form that may be there.
pub fn put_form(
    alloc: Global,
    hint: &mut Hint,
    parts: &Parts,
    line: &[u8],
    words: &[&[u8]],
) -> Result<(), AllocError> {
    let version = parts.head.version;
    let first = word_at(words, 0);
    if let Some(row) = refused_form(alloc, version, words)? {
        if version_of(row) > version {
            return put_version(hint, version, line, first, row);
        }
        if !may_be(version, parts.region, row) {
            return put_stand(hint, line, first, stand_of(row));
        }
    }
    if put_slip(hint, parts, line, words)? {
        return Ok(());
    }
    let forms = forms_of(alloc, version, parts.region)?;
    let most = longest(version, &forms, words);
    if most == 0 {
        if let Some(row) = begun(first) {
            return put_begun(hint, parts, line, first, row);
        }
    }
    let nearest = near_first(alloc, &forms, first)?;
    let is_near = nearest.distance > 0 && nearest.distance < 3;
    if most == 0 || (most == 1 && is_near && fits(Part::Variable, first)) {
        return put_first(hint, version, line, first, nearest);
    }
    put_longest(alloc, hint, version, &forms, line, words, most)
}
