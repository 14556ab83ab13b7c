//! The parts of a model, as a tree.

use crate::marks::{Kind, Mark};
use crate::names::words_range;
use crate::page::{Block, Page};
use crate::place::{Range, position_at};
use crate::words::{Words, put_spaced};
use rc_read::table::Row;
use rc_read::words::is;
use std::alloc::{AllocError, Global};

/// What a part of a model is.
#[derive(Clone, Copy)]
pub enum SymbolKind {
    File,
    Buffer,
    Token,
    Pool,
    Thread,
    Loop,
    Lock,
    Peek,
}

impl SymbolKind {
    /// The number of the kind under which editors show it (`SymbolKind` of the protocol).
    pub fn number(self) -> u32 {
        match self {
            SymbolKind::File => 1,
            SymbolKind::Buffer => 18,
            SymbolKind::Token => 14,
            SymbolKind::Pool => 20,
            SymbolKind::Thread => 12,
            SymbolKind::Loop => 25,
            SymbolKind::Lock => 3,
            SymbolKind::Peek => 24,
        }
    }
}

/// A part of a model: its name, what else its line says, all of it, and its line's words. Parts are in the order of
/// their lines, those that are in another after it and one deeper.
#[derive(Drop)]
pub struct Symbol {
    pub name: Vec<u8>,
    pub detail: Vec<u8>,
    pub kind: SymbolKind,
    pub range: Range,
    pub name_range: Range,
    pub depth: u32,
}

/// The files, buffers, tokens, pools and threads of a model, and the loops, locks and peeks in its threads.
pub fn symbols(alloc: Global, text: &[u8]) -> Result<Vec<Symbol>, AllocError> {
    let page = Page::of(alloc, text)?;
    let mut symbols = Vec::new(alloc);
    for mark in &page.marks {
        if let Some(kind) = kind_of(mark) {
            push_line(alloc, &mut symbols, &page, mark.line, kind)?;
        }
    }
    push_blocks(alloc, &mut symbols, &page)?;
    Ok(symbols)
}

/// What a name is that is declared above the threads.
fn kind_of(mark: &Mark) -> Option<SymbolKind> {
    if !mark.declares {
        return None;
    }
    match mark.kind {
        Kind::File => Some(SymbolKind::File),
        Kind::Buffer => Some(SymbolKind::Buffer),
        Kind::Token => Some(SymbolKind::Token),
        Kind::Pool => Some(SymbolKind::Pool),
        Kind::Thread | Kind::Variable => None,
    }
}

/// What a block is, if it is shown, and how many words are its name.
fn shown(block: &Block) -> Option<(SymbolKind, usize)> {
    match block.row? {
        Row::Thread | Row::Threads => Some((SymbolKind::Thread, 2)),
        Row::Loop | Row::LoopWhen => Some((SymbolKind::Loop, 1)),
        Row::Lock | Row::LockSq | Row::LockCq => Some((SymbolKind::Lock, 2)),
        Row::Peek => Some((SymbolKind::Peek, 2)),
        _ => None,
    }
}

/// Adds a line that declares something.
fn push_line(
    alloc: Global,
    symbols: &mut Vec<Symbol>,
    page: &Page,
    line: usize,
    kind: SymbolKind,
) -> Result<(), AllocError> {
    let words = Words::of(alloc, page.line(line))?;
    let range = words_range(alloc, page, line)?;
    symbols.push(Symbol {
        name: words_text(alloc, &words, 0, 2)?,
        detail: words_text(alloc, &words, 2, words.count())?,
        kind,
        range,
        name_range: range,
        depth: 0,
    })?;
    Ok(())
}

/// The words from one place to another, with a blank between two, and without a brace.
fn words_text(
    alloc: Global,
    words: &Words,
    first: usize,
    end: usize,
) -> Result<Vec<u8>, AllocError> {
    let mut text = Vec::new(alloc);
    for place in first..end.min(words.count()) {
        let word = words.text(place);
        if !is(word, b"{") {
            let is_first = text.is_empty();
            put_spaced(&mut text, is_first, word)?;
        }
    }
    Ok(text)
}

/// Adds the blocks that are shown.
fn push_blocks(alloc: Global, symbols: &mut Vec<Symbol>, page: &Page) -> Result<(), AllocError> {
    for block in &page.blocks {
        if let Some((kind, count)) = shown(block) {
            push_block(alloc, symbols, page, block, kind, count)?;
        }
    }
    Ok(())
}

/// In how many blocks that are shown a block is.
fn depth_of(page: &Page, block: &Block) -> u32 {
    let mut depth: u32 = 0;
    let mut outer = block.outer;
    for _ in 0..page.blocks.len() {
        let Some(around) = page.block_at(outer) else {
            return depth;
        };
        if shown(around).is_some() {
            depth = depth.saturating_add(1);
        }
        outer = around.outer;
    }
    depth
}

/// Adds a block.
fn push_block(
    alloc: Global,
    symbols: &mut Vec<Symbol>,
    page: &Page,
    block: &Block,
    kind: SymbolKind,
    count: usize,
) -> Result<(), AllocError> {
    let words = Words::of(alloc, page.line(block.line))?;
    let name_range = words_range(alloc, page, block.line)?;
    let end = match block.close {
        Some((line, brace)) => position_at(page.line(line), line, brace.end()),
        None => name_range.end,
    };
    symbols.push(Symbol {
        name: words_text(alloc, &words, 0, count)?,
        detail: words_text(alloc, &words, count, words.count())?,
        kind,
        range: Range {
            start: name_range.start,
            end,
        },
        name_range,
        depth: depth_of(page, block),
    })?;
    Ok(())
}
