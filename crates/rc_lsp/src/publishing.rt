//! The message that publishes the verdict on a model.

ghost use Rattle.std.specs.Prelude.{IfOk};
ghost use Rattle.serde_json.specs.View.{items_view, view};
ghost use Rattle.rc_report.specs.Text.{PutsAnswer, PutsSome};
ghost use Rattle.rc_lsp.specs.Published.{IsTakenBack, Names, Published, Publishes};

use crate::diagnostics::{Place, judge};
use crate::frames::put_message;
use rc_report::verdict::Verdict;
use serde_json::{Value, json};
use std::alloc::{AllocError, Global};

/// Adds the message that publishes the verdict on a model, and answers the verdict.
pub fn publish(
    out: &mut Vec<u8>,
    alloc: Global,
    place: Place<'_>,
    text: &[u8],
) -> Result<Verdict, AllocError>
    ensures { PutsAnswer (Published place.entry.uri.now text.now) out.old out.new result }
{
    let judged = judge(alloc, place, text)?;
    let message = message_of(alloc, place.uri, judged.diagnostics)?;
    put_message(out, alloc, &message)?;
    Ok(judged.verdict)
}

/// Adds the message that takes back what was published of a document.
pub fn clear(out: &mut Vec<u8>, alloc: Global, uri: &str) -> Result<(), AllocError>
    ensures { PutsSome (IsTakenBack uri.now) out.old out.new result }
{
    let message = message_of(alloc, uri, Vec::new(alloc))?;
    put_message(out, alloc, &message)
}

/// The message with these diagnostics of a document.
fn message_of(alloc: Global, uri: &str, diagnostics: Vec<Value>) -> Result<Value, AllocError>
    ensures { IfOk result (λ v. Publishes uri.now (items_view diagnostics.items) (view v)) }
{
    let params = params_of(alloc, uri, diagnostics)?;
    json!(in alloc; {"jsonrpc": "2.0", "method": "textDocument/publishDiagnostics", "params": params})
}

/// What it says.
fn params_of(alloc: Global, uri: &str, diagnostics: Vec<Value>) -> Result<Value, AllocError>
    ensures { IfOk result (λ v. Names uri.now (items_view diagnostics.items) (view v)) }
{
    json!(in alloc; {"diagnostics": diagnostics, "uri": uri})
}
