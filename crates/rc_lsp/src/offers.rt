//! Requests for changes that a model may have.

use crate::asks::Document;
use crate::fields::{field, text_field};
use crate::places::{
    changes_value, edit_value, position_field, push_made, range_field, range_value, text_value,
};
use crate::replies::{Fault, Refusal};
use rc_editor::actions::{Action, actions};
use rc_editor::completion::{Completion, completions};
use rc_editor::rename::{Renamed, renamable, rename};
use serde_json::{Value, json};
use std::alloc::{AllocError, Global};

/// The kind of an action with which a line isn't at fault any more, and that of the others.
const QUICK_FIX: &str = "quickfix";

const REWRITE: &str = "refactor.rewrite";

/// `textDocument/completion`
pub fn completions_value(
    alloc: Global,
    document: Document<'_>,
    params: &Value,
) -> Result<Value, Refusal> {
    let mut list = Vec::new(alloc);
    for offer in &completions(alloc, document.text, position_field(params)?)? {
        push_made(&mut list, completion_value(alloc, offer))?;
    }
    Ok(Value::Array(list))
}

/// A completion as JSON.
fn completion_value(alloc: Global, offer: &Completion) -> Result<Value, AllocError> {
    let edit = edit_value(alloc, offer.range, &offer.insert)?;
    let label = text_value(alloc, &offer.label)?;
    let detail = text_value(alloc, &offer.detail)?;
    let kind = offer.kind.number();
    json!(in alloc; {"detail": detail, "kind": kind, "label": label, "textEdit": edit})
}

/// `textDocument/prepareRename`
pub fn renamable_value(
    alloc: Global,
    document: Document<'_>,
    params: &Value,
) -> Result<Value, Refusal> {
    match renamable(alloc, document.text, position_field(params)?)? {
        Some(range) => Ok(range_value(alloc, range)?),
        None => Ok(Value::Null),
    }
}

/// `textDocument/rename`
pub fn renamed_value(
    alloc: Global,
    document: Document<'_>,
    params: &Value,
) -> Result<Value, Refusal> {
    let at = position_field(params)?;
    let name = text_field(params, "newName")?;
    match rename(alloc, document.text, at, name.as_bytes())? {
        Renamed::Edits(edits) => Ok(changes_value(alloc, document.uri, &edits)?),
        Renamed::Refused(why) => Err(Refusal::Fault(Fault::Failed(why))),
    }
}

/// `textDocument/codeAction`
pub fn actions_value(
    alloc: Global,
    document: Document<'_>,
    params: &Value,
) -> Result<Value, Refusal> {
    let range = range_field(params)?;
    let only = field(params, "context")?.get("only");
    let mut list = Vec::new(alloc);
    for action in &actions(alloc, document.text, range)? {
        let kind = if action.is_fix { QUICK_FIX } else { REWRITE };
        if is_wanted(only, kind) {
            push_made(&mut list, action_value(alloc, document.uri, action, kind))?;
        }
    }
    Ok(Value::Array(list))
}

/// Whether an action of a kind is wanted: where kinds are asked for, it is one of them or below one.
fn is_wanted(only: Option<&Value>, kind: &str) -> bool {
    let Some(Value::Array(kinds)) = only else {
        return true;
    };
    for wanted in kinds {
        if let Value::String(wanted) = wanted
            && kind.starts_with(wanted.as_str())
        {
            return true;
        }
    }
    false
}

/// An action as JSON.
fn action_value(
    alloc: Global,
    uri: &str,
    action: &Action,
    kind: &str,
) -> Result<Value, AllocError> {
    let edit = changes_value(alloc, uri, &action.edits)?;
    let title = text_value(alloc, &action.title)?;
    json!(in alloc; {"edit": edit, "kind": kind, "title": title})
}
