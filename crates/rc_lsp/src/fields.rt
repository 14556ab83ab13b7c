//! Fields of parameters.

ghost use Rattle.std.specs.Prelude.{◌≡◌, option_map};
ghost use Rattle.serde_json.specs.View.{view};
ghost use Rattle.rc_lsp.specs.Messages as messages;

use crate::replies::Fault;
use serde_json::Value;

/// The string at a key.
pub fn string_in<'a>(value: &'a Value, key: &str) -> Option<&'a str>
    ensures { option_map (λ text. text.now) result ≡ messages.string_in key.now (view value.now) }
{
    value.get(key).and_then(Value::as_str)
}

/// A field that has to be there.
pub fn field<'a>(value: &'a Value, key: &str) -> Result<&'a Value, Fault> {
    value.get(key).ok_or(Fault::InvalidParams)
}

/// A field that has to be a string.
pub fn text_field<'a>(value: &'a Value, key: &str) -> Result<&'a str, Fault> {
    string_in(value, key).ok_or(Fault::InvalidParams)
}

/// The URI of the document that parameters name.
pub fn uri_field(params: &Value) -> Result<&str, Fault> {
    text_field(field(params, "textDocument")?, "uri")
}
