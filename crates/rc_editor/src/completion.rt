//! What could be written at a place.

use crate::forms::{beginning_of, meaning_of, put_form};
use crate::marks::{Kind, LineAt, Mark};
use crate::names::byte_of;
use crate::page::{Above, Page};
use crate::place::{Position, Range, after, up_to};
use crate::words::{Words, put_spaced};
use rc_hints::fitting::{forms_of, reach_of};
use rc_read::fixed::text_of;
use rc_read::table::{Part, Row};
use rc_read::words::{is, is_blank};
use rc_report::text::put_pieces;
use std::alloc::{AllocError, Global};

/// What a choice is.
#[derive(Clone, Copy)]
pub enum CompletionKind {
    /// A form, or a word of one.
    Form,
    /// Something that is declared.
    Name,
}

impl CompletionKind {
    /// The number of the kind under which editors show it (`CompletionItemKind` of the protocol).
    pub fn number(self) -> u32 {
        match self {
            CompletionKind::Form => 14,
            CompletionKind::Name => 6,
        }
    }
}

/// What could be written: how it is shown, what is put in the place of the range, and what more is said of it.
#[derive(Drop)]
pub struct Completion {
    pub label: Vec<u8>,
    pub insert: Vec<u8>,
    pub detail: Vec<u8>,
    pub kind: CompletionKind,
    pub range: Range,
}

/// The choices at a place: the model, where it is, what is above its line, and the range that a choice takes.
#[derive(Drop)]
struct Choices<'a> {
    alloc: Global,
    page: &'a Page<'a>,
    here: LineAt,
    range: Range,
    list: Vec<Completion>,
}

/// What could be written at a place, after the words before it: the forms that may be on the line, or the words, names and
/// items with which those that fit go on. The word that the place is in or after is replaced. A comment has nothing.
pub fn completions(
    alloc: Global,
    text: &[u8],
    at: Position,
) -> Result<Vec<Completion>, AllocError> {
    let page = Page::of(alloc, text)?;
    completions_on(alloc, &page, at)
}

/// The same, of a model that was looked at line by line.
fn completions_on(alloc: Global, page: &Page, at: Position) -> Result<Vec<Completion>, AllocError> {
    let (line, byte) = byte_of(page, at);
    let front = up_to(page.line(line), byte);
    let mut list = Vec::new(alloc);
    if front.contains(&b'#') {
        return Ok(list);
    }
    let start = start_of(front);
    let before = Words::of(alloc, up_to(front, start))?;
    let above = page.above(line);
    let mut choices = Choices {
        alloc,
        page,
        here: LineAt {
            line,
            scope: above.scope,
            version: above.version,
        },
        range: page.range_from(line, start, byte),
        list,
    };
    choices.push_all(above, &before)?;
    list = choices.list;
    Ok(list)
}

/// The byte at which the word begins that ends at the end of the bytes; their end, if none does.
fn start_of(front: &[u8]) -> usize {
    let mut start = 0;
    for (place, b) in front.iter().enumerate() {
        if is_blank(*b) {
            start = place + 1;
        }
    }
    start
}

/// Whether a form may be in a block of a form.
fn may_be_in(row: Row, block: Option<Row>) -> bool {
    let is_arm = matches!(row, Row::Case | Row::Other | Row::Nothing);
    let in_peek = matches!(block, Some(Row::Peek));
    match row {
        Row::Close => true,
        Row::Else => matches!(
            block,
            Some(
                Row::If | Row::IfReady | Row::IfSpace | Row::IfTake | Row::IfTakeNamed | Row::IfAny
            )
        ),
        _ => is_arm == in_peek,
    }
}

impl Choices<'_> {
    /// Adds what could be after these words of a line.
    fn push_all(&mut self, above: Above, before: &Words) -> Result<(), AllocError> {
        let alloc = self.alloc;
        let block = self.row_of(above.block);
        for row in &forms_of(alloc, above.version, above.region)? {
            if !may_be_in(*row, block) {
                continue;
            }
            let reach = reach_of(above.version, *row, &before.texts);
            if reach.words == before.count() {
                self.push_next(*row, reach.words, reach.next, reach.items)?;
            }
        }
        Ok(())
    }

    /// The form of a block.
    fn row_of(&self, block: Option<usize>) -> Option<Row> {
        self.page.block_at(block)?.row
    }

    /// Adds what a form goes on with after so many words.
    fn push_next(
        &mut self,
        row: Row,
        words: usize,
        next: Option<Part>,
        items: bool,
    ) -> Result<(), AllocError> {
        if items || matches!(next, Some(Part::Items)) {
            self.push_items()?;
        }
        let Some(part) = next else {
            return Ok(());
        };
        match part {
            Part::Fixed(_) if words == 0 => self.push_row(row),
            Part::Fixed(word) => self.push(text_of(word), b"", CompletionKind::Form),
            Part::Variable | Part::Flag | Part::Operand => self.push_names(Kind::Variable),
            Part::File => self.push_names(Kind::File),
            Part::Buffer | Part::ReadBuffer => self.push_names(Kind::Buffer),
            Part::KindWord => self.push_kinds(),
            Part::Token => self.push_names(Kind::Token),
            Part::Pool => self.push_names(Kind::Pool),
            Part::Comparison => self.push_comparisons(),
            _ => Ok(()),
        }
    }

    /// Adds a choice, unless it is there.
    fn push(&mut self, word: &[u8], detail: &[u8], kind: CompletionKind) -> Result<(), AllocError> {
        if self.has(word) {
            return Ok(());
        }
        let label = Vec::from_slice(self.alloc, word)?;
        let insert = Vec::from_slice(self.alloc, word)?;
        self.push_choice(label, insert, detail, kind)
    }

    /// Whether a choice is there.
    fn has(&self, word: &[u8]) -> bool {
        for other in &self.list {
            if is(&other.label, word) {
                return true;
            }
        }
        false
    }

    /// Adds a choice that isn't there.
    fn push_choice(
        &mut self,
        label: Vec<u8>,
        insert: Vec<u8>,
        detail: &[u8],
        kind: CompletionKind,
    ) -> Result<(), AllocError> {
        let detail = Vec::from_slice(self.alloc, detail)?;
        self.list.push(Completion {
            label,
            insert,
            detail,
            kind,
            range: self.range,
        })?;
        Ok(())
    }

    /// Adds a form. It inserts the fixed words that the form begins with.
    fn push_row(&mut self, row: Row) -> Result<(), AllocError> {
        let alloc = self.alloc;
        let mut label = Vec::new(alloc);
        put_form(&mut label, row)?;
        let insert = beginning_of(alloc, row)?;
        self.push_choice(
            label,
            insert,
            meaning_of(row).as_bytes(),
            CompletionKind::Form,
        )
    }

    /// Adds the words with which kinds of a token begin.
    fn push_kinds(&mut self) -> Result<(), AllocError> {
        let words: [&[u8]; 5] = [b"read", b"write", b"fsync", b"nop", b"other"];
        for word in &words {
            self.push(word, b"", CompletionKind::Form)?;
        }
        Ok(())
    }

    /// Adds the comparisons.
    fn push_comparisons(&mut self) -> Result<(), AllocError> {
        let words: [&[u8]; 6] = [b"==", b"!=", b"<", b"<=", b">", b">="];
        for word in &words {
            self.push(word, b"", CompletionKind::Form)?;
        }
        Ok(())
    }

    /// Whether a name could be on the line: something that is declared, or a variable of the thread.
    fn is_known(&self, mark: &Mark) -> bool {
        if mark.kind == Kind::Variable {
            return mark.scope == self.here.scope && mark.line != self.here.line;
        }
        mark.declares && mark.line < self.here.line
    }

    /// The names of a kind that could be on the line, each with the rest of the line that declares it.
    fn names(&self, kind: Kind) -> Result<Vec<(Vec<u8>, Vec<u8>)>, AllocError> {
        let alloc = self.alloc;
        let mut names = Vec::new(alloc);
        for mark in &self.page.marks {
            if mark.kind == kind && self.is_known(mark) {
                names.push(self.name_of(mark)?)?;
            }
        }
        Ok(names)
    }

    /// A name, with the rest of the line if that declares it.
    fn name_of(&self, mark: &Mark) -> Result<(Vec<u8>, Vec<u8>), AllocError> {
        let name = Vec::from_slice(self.alloc, mark.name.text)?;
        let mut detail = Vec::new(self.alloc);
        if mark.declares {
            let words = Words::of(self.alloc, self.page.line(mark.line))?;
            put_rest(&mut detail, &words)?;
        }
        Ok((name, detail))
    }

    /// Adds the names of a kind that could be on the line.
    fn push_names(&mut self, kind: Kind) -> Result<(), AllocError> {
        for (name, detail) in &self.names(kind)? {
            self.push(name, detail, CompletionKind::Name)?;
        }
        Ok(())
    }

    /// Adds the items: all shares of each buffer, each token, and a credit.
    fn push_items(&mut self) -> Result<(), AllocError> {
        for (name, detail) in &self.names(Kind::Buffer)? {
            self.push_item(&[name, b":", after(detail, start_of(detail))], detail)?;
        }
        for (name, detail) in &self.names(Kind::Token)? {
            self.push_item(&[b"t:", name], detail)?;
        }
        self.push(b"c:1", b"a credit", CompletionKind::Form)
    }

    /// Adds an item that these pieces make.
    fn push_item(&mut self, pieces: &[&[u8]], detail: &[u8]) -> Result<(), AllocError> {
        let mut item = Vec::new(self.alloc);
        put_pieces(&mut item, pieces)?;
        self.push(&item, detail, CompletionKind::Name)
    }
}

/// Adds the words of a line from the third on.
fn put_rest(text: &mut Vec<u8>, words: &Words) -> Result<(), AllocError> {
    for place in 2..words.count() {
        put_spaced(text, place == 2, words.text(place))?;
    }
    Ok(())
}
