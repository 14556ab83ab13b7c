//! The outline of a model.

use crate::asks::Document;
use crate::places::{range_value, text_value};
use crate::replies::Refusal;
use rc_editor::symbols::{Symbol, symbols};
use serde_json::{Value, json};
use std::alloc::{AllocError, Global};

/// A symbol as JSON, and how many blocks it is in.
#[derive(Drop)]
struct Entry {
    depth: u32,
    value: Value,
}

/// `textDocument/documentSymbol`: each symbol with those that are in it.
pub fn outline_value(alloc: Global, document: Document<'_>) -> Result<Value, Refusal> {
    let mut entries = Vec::new(alloc);
    let list = symbols(alloc, document.text)?;
    for symbol in list.iter().rev() {
        push_entry(alloc, &mut entries, symbol)?;
    }
    Ok(Value::Array(taken_below(alloc, &mut entries, 0)?))
}

/// Adds a symbol with those after it that are in it, which it takes away.
fn push_entry(alloc: Global, entries: &mut Vec<Entry>, symbol: &Symbol) -> Result<(), AllocError> {
    let depth = symbol.depth;
    let children = taken_below(alloc, entries, depth.saturating_add(1))?;
    let value = symbol_value(alloc, symbol, children)?;
    entries.push(Entry { depth, value })?;
    Ok(())
}

/// Takes the last entries away that are at least so deep, the last one first.
fn taken_below(
    alloc: Global,
    entries: &mut Vec<Entry>,
    depth: u32,
) -> Result<Vec<Value>, AllocError> {
    let mut taken = Vec::new(alloc);
    while ends_below(entries, depth) {
        match entries.pop() {
            Some(entry) => taken.push(entry.value)?,
            None => break,
        }
    }
    Ok(taken)
}

/// Whether the last entry is at least so deep.
fn ends_below(entries: &[Entry], depth: u32) -> bool {
    match entries.last() {
        Some(entry) => entry.depth >= depth,
        None => false,
    }
}

/// A symbol with those that are in it, as JSON.
fn symbol_value(alloc: Global, symbol: &Symbol, children: Vec<Value>) -> Result<Value, AllocError> {
    let name = text_value(alloc, &symbol.name)?;
    let detail = text_value(alloc, &symbol.detail)?;
    let range = range_value(alloc, symbol.range)?;
    let name_range = range_value(alloc, symbol.name_range)?;
    let kind = symbol.kind.number();
    json!(in alloc; {"children": children, "detail": detail, "kind": kind, "name": name, "range": range, "selectionRange": name_range})
}
