//! Requests about a place of a model, and about all of it.

use crate::fields::field;
use crate::places::{
    edits_value, location_value, position_field, push_made, range_value, text_value,
};
use crate::replies::Refusal;
use rc_editor::folding::{Fold, folding};
use rc_editor::format;
use rc_editor::hover::{Hover, hover_at};
use rc_editor::names::{Highlight, definition, highlights, references};
use rc_editor::place::Range;
use serde_json::{Value, json};
use std::alloc::{AllocError, Global};

/// A document: its URI and its text.
#[derive(Clone, Copy)]
pub struct Document<'a> {
    pub uri: &'a str,
    pub text: &'a [u8],
}

/// `textDocument/hover`
pub fn hover_value(
    alloc: Global,
    document: Document<'_>,
    params: &Value,
) -> Result<Value, Refusal> {
    match hover_at(alloc, document.text, position_field(params)?)? {
        Some(hover) => Ok(shown_value(alloc, &hover)?),
        None => Ok(Value::Null),
    }
}

/// What is shown, as JSON.
fn shown_value(alloc: Global, hover: &Hover) -> Result<Value, AllocError> {
    let range = range_value(alloc, hover.range)?;
    let text = text_value(alloc, &hover.text)?;
    json!(in alloc; {"contents": {"kind": "plaintext", "value": text}, "range": range})
}

/// `textDocument/definition`
pub fn definition_value(
    alloc: Global,
    document: Document<'_>,
    params: &Value,
) -> Result<Value, Refusal> {
    match definition(alloc, document.text, position_field(params)?)? {
        Some(range) => Ok(location_value(alloc, document.uri, range)?),
        None => Ok(Value::Null),
    }
}

/// `textDocument/references`
pub fn references_value(
    alloc: Global,
    document: Document<'_>,
    params: &Value,
) -> Result<Value, Refusal> {
    let at = position_field(params)?;
    let context = field(params, "context")?;
    let with_declaration = context
        .get("includeDeclaration")
        .and_then(Value::as_bool)
        .unwrap_or(true);
    let ranges = references(alloc, document.text, at, with_declaration)?;
    Ok(locations_value(alloc, document.uri, &ranges)?)
}

/// Ranges of a document as JSON.
fn locations_value(alloc: Global, uri: &str, ranges: &[Range]) -> Result<Value, AllocError> {
    let mut list = Vec::new(alloc);
    for range in ranges {
        push_made(&mut list, location_value(alloc, uri, *range))?;
    }
    Ok(Value::Array(list))
}

/// `textDocument/documentHighlight`
pub fn highlights_value(
    alloc: Global,
    document: Document<'_>,
    params: &Value,
) -> Result<Value, Refusal> {
    let found = highlights(alloc, document.text, position_field(params)?)?;
    let mut list = Vec::new(alloc);
    for highlight in &found {
        push_made(&mut list, highlight_value(alloc, highlight))?;
    }
    Ok(Value::Array(list))
}

/// A highlight as JSON: 3 is a write, 2 a read.
fn highlight_value(alloc: Global, highlight: &Highlight) -> Result<Value, AllocError> {
    let kind: u32 = if highlight.writes { 3 } else { 2 };
    let range = range_value(alloc, highlight.range)?;
    json!(in alloc; {"kind": kind, "range": range})
}

/// `textDocument/foldingRange`
pub fn folding_value(alloc: Global, document: Document<'_>) -> Result<Value, Refusal> {
    let mut list = Vec::new(alloc);
    for fold in &folding(alloc, document.text)? {
        push_made(&mut list, fold_value(alloc, fold))?;
    }
    Ok(Value::Array(list))
}

/// A fold as JSON.
fn fold_value(alloc: Global, fold: &Fold) -> Result<Value, AllocError> {
    let kind = if fold.is_comment { "comment" } else { "region" };
    json!(in alloc; {"endLine": fold.last, "kind": kind, "startLine": fold.first})
}

/// `textDocument/formatting`
pub fn formatting_value(alloc: Global, document: Document<'_>) -> Result<Value, Refusal> {
    let edits = format::edits(alloc, document.text)?;
    Ok(edits_value(alloc, &edits)?)
}
