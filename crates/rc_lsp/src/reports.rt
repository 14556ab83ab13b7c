//! What an editor reports of its documents.

ghost use Rattle.std.specs.Prelude.{◌≡◌, option_map};
ghost use Rattle.serde_json.specs.View.{view};
ghost use Rattle.rc_lsp.specs.Reports as reports;

use crate::fields::string_in;
use serde_json::Value;

/// What an editor reports of a document.
#[derive(Clone, Copy)]
pub enum Report<'a> {
    /// It is open, with this text.
    Opened { uri: &'a str, text: &'a str },
    /// This is its text now.
    Edited { uri: &'a str, text: &'a str },
    Saved { uri: &'a str },
    Closed { uri: &'a str },
}

/// What a notification reports, if it has all parts that its method needs.
pub fn report_of<'a>(method: &str, params: &'a Value) -> Option<Report<'a>>
    ensures { option_map reports.change result ≡ reports.reported method.now (view params.now) }
{
    let uri = of_document(params, "uri")?;
    match method {
        "textDocument/didOpen" => {
            let text = of_document(params, "text")?;
            Some(Report::Opened { uri, text })
        }
        "textDocument/didChange" => {
            let text = last_text(params)?;
            Some(Report::Edited { uri, text })
        }
        "textDocument/didSave" => Some(Report::Saved { uri }),
        "textDocument/didClose" => Some(Report::Closed { uri }),
        _ => None,
    }
}

/// What parameters say of a document.
fn of_document<'a>(params: &'a Value, key: &str) -> Option<&'a str>
    ensures { option_map (λ text. text.now) result ≡ reports.of_document key.now (view params.now) }
{
    string_in(params.get("textDocument")?, key)
}

/// The text after the last of the changes. Changes of parts aren't offered.
fn last_text(params: &Value) -> Option<&str>
    ensures { option_map (λ text. text.now) result ≡ reports.last_text (view params.now) }
{
    let last = last_change(params)?;
    if last.get("range").is_some() {
        return None;
    }
    string_in(last, "text")
}

/// The last of the changes.
fn last_change(params: &Value) -> Option<&Value>
    ensures { option_map (λ last. view last.now) result ≡ reports.last_change (view params.now) }
{
    params.get("contentChanges")?.as_array()?.last()
}
