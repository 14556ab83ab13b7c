//! What kind of message a body is (JSON-RPC 2.0).

ghost use Rattle.std.specs.Prelude.{◌≡◌, option_and_then, option_map};
ghost use Rattle.serde_json.specs.View.{view};
ghost use Rattle.rc_lsp.specs.Messages.{notification, notification_of};

use crate::fields::string_in;
use crate::replies::Fault;
use serde_json::Value;

/// A message.
#[derive(Clone, Copy)]
pub enum Message<'a> {
    /// One that asks for an answer under this id.
    Request {
        id: &'a Value,
        method: &'a str,
        params: &'a Value,
    },
    /// One that asks for none.
    Notification {
        method: &'a str,
        params: &'a Value,
    },
    /// An answer. This server asks nothing.
    Response,
    /// None of these: the id that it has, if it has a good one, and what is wrong.
    Other {
        id: Option<&'a Value>,
        fault: Fault,
    },
}

/// What a body is as a message, by its value, if it has one.
pub fn message_of(value: &Option<Value>) -> Message<'_>
    ensures { notification result ≡ option_and_then notification_of (option_map view value.now) }
{
    match value {
        Some(value) => message_in(value),
        None => Message::Other {
            id: None,
            fault: Fault::NoJson,
        },
    }
}

/// What a value is as a message. Where it has no `params` they are the whole value, which has none of the fields that are
/// looked for there.
fn message_in(value: &Value) -> Message<'_>
    ensures { notification result ≡ notification_of (view value.now) }
{
    let id = value.get("id");
    let params = value.get("params").unwrap_or(value);
    match (string_in(value, "method"), id) {
        (Some(method), None) => Message::Notification { method, params },
        (Some(method), Some(id)) if is_id(id) => Message::Request { id, method, params },
        (None, Some(_)) if is_response(value) => Message::Response,
        _ => Message::Other {
            id: good_id(id),
            fault: Fault::InvalidRequest,
        },
    }
}

/// Whether a value without the name of a method is an answer.
fn is_response(value: &Value) -> bool {
    value.get("method").is_none() && (value.get("result").is_some() || value.get("error").is_some())
}

/// An id, if it is a good one.
fn good_id(id: Option<&Value>) -> Option<&Value> {
    match id {
        Some(id) if is_id(id) => Some(id),
        _ => None,
    }
}

/// Whether a value may be an id: a whole number, or a string.
fn is_id(value: &Value) -> bool {
    value.is_i64() || value.is_u64() || value.is_string()
}
