//! Places of models as JSON.

use crate::fields::field;
use crate::replies::Fault;
use rc_editor::place::{Edit, Position, Range};
use serde_json::{Value, json};
use std::alloc::{AllocError, Global};

/// A field that has to be a number of a line or of a character.
fn number_field(value: &Value, key: &str) -> Result<u32, Fault> {
    let number = value
        .get(key)
        .and_then(Value::as_u64)
        .ok_or(Fault::InvalidParams)?;
    u32::try_from(number).map_err(|_| Fault::InvalidParams)
}

/// A place.
fn position_of(value: &Value) -> Result<Position, Fault> {
    Ok(Position {
        line: number_field(value, "line")?,
        character: number_field(value, "character")?,
    })
}

/// The place that parameters name.
pub fn position_field(params: &Value) -> Result<Position, Fault> {
    position_of(field(params, "position")?)
}

/// The range that parameters name.
pub fn range_field(params: &Value) -> Result<Range, Fault> {
    let range = field(params, "range")?;
    Ok(Range {
        start: position_of(field(range, "start")?)?,
        end: position_of(field(range, "end")?)?,
    })
}

/// A place as JSON.
fn position_value(alloc: Global, at: Position) -> Result<Value, AllocError> {
    json!(in alloc; {"character": at.character, "line": at.line})
}

/// A range as JSON.
pub fn range_value(alloc: Global, range: Range) -> Result<Value, AllocError> {
    let start = position_value(alloc, range.start)?;
    let end = position_value(alloc, range.end)?;
    json!(in alloc; {"end": end, "start": start})
}

/// A range of a document as JSON.
pub fn location_value(alloc: Global, uri: &str, range: Range) -> Result<Value, AllocError> {
    let range = range_value(alloc, range)?;
    json!(in alloc; {"range": range, "uri": uri})
}

/// Bytes as a JSON string. What isn't UTF-8 is shown by U+FFFD.
pub fn text_value(alloc: Global, bytes: &[u8]) -> Result<Value, AllocError> {
    Ok(Value::String(String::from_utf8_lossy(alloc, bytes)?))
}

/// Adds a value, if it could be made.
pub fn push_made(list: &mut Vec<Value>, made: Result<Value, AllocError>) -> Result<(), AllocError> {
    list.push(made?)?;
    Ok(())
}

/// Edits as JSON.
pub fn edits_value(alloc: Global, edits: &[Edit]) -> Result<Value, AllocError> {
    let mut list = Vec::new(alloc);
    for edit in edits {
        push_made(&mut list, edit_value(alloc, edit.range, &edit.text))?;
    }
    Ok(Value::Array(list))
}

/// An edit as JSON.
pub fn edit_value(alloc: Global, range: Range, text: &[u8]) -> Result<Value, AllocError> {
    let range = range_value(alloc, range)?;
    let text = text_value(alloc, text)?;
    json!(in alloc; {"newText": text, "range": range})
}

/// Edits of a document as JSON.
pub fn changes_value(alloc: Global, uri: &str, edits: &[Edit]) -> Result<Value, AllocError> {
    let edits = edits_value(alloc, edits)?;
    json!(in alloc; {"changes": {(uri): edits}})
}
