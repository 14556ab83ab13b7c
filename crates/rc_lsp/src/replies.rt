//! Answers and notifications, as messages in frames.

ghost use Rattle.std.specs.Prelude.{IfOk};
ghost use Rattle.serde_json.specs.View.{view};
ghost use Rattle.rc_lsp.specs.Reactions.{HasId, IsAnswer, IsShown, Shows};
ghost use Rattle.rc_report.specs.Text.{PutsSome};

use crate::frames::put_message;
use serde_json::{Value, json};
use std::alloc::{AllocError, AllocFailed, Global};

/// Why a request has no result, by the codes of JSON-RPC and of the protocol.
#[derive(Clone, Copy)]
pub enum Fault {
    /// The body is no JSON.
    NoJson,
    /// It is no request, or none at this time.
    InvalidRequest,
    /// Nobody knows the method.
    UnknownMethod,
    /// A parameter is missing, or has another type.
    InvalidParams,
    /// It came before `initialize`.
    NotInitialized,
    /// It can't be done; why.
    Failed(&'static str),
}

impl Fault {
    fn code(self) -> i32 {
        match self {
            Fault::NoJson => -32700,
            Fault::InvalidRequest => -32600,
            Fault::UnknownMethod => -32601,
            Fault::InvalidParams => -32602,
            Fault::NotInitialized => -32002,
            Fault::Failed(_) => -32803,
        }
    }

    fn text(self) -> &'static str {
        match self {
            Fault::NoJson => "the body is no JSON",
            Fault::InvalidRequest => "no request, or none at this time",
            Fault::UnknownMethod => "unknown method",
            Fault::InvalidParams => "a parameter is missing or wrong, or the document isn't open",
            Fault::NotInitialized => "not initialized",
            Fault::Failed(why) => why,
        }
    }
}

/// Why a request has no result, or no answer.
#[derive(Clone, Copy)]
pub enum Refusal {
    Fault(Fault),
    OutOfMemory,
}

impl From<AllocError> for Refusal {
    fn from(_error: AllocError) -> Refusal {
        Refusal::OutOfMemory
    }
}

impl<T: Drop> From<AllocFailed<T>> for Refusal {
    fn from(_error: AllocFailed<T>) -> Refusal {
        Refusal::OutOfMemory
    }
}

impl From<Fault> for Refusal {
    fn from(fault: Fault) -> Refusal {
        Refusal::Fault(fault)
    }
}

/// Adds the answer to a request.
pub fn put_answer(
    out: &mut Vec<u8>,
    alloc: Global,
    id: &Value,
    answer: Result<Value, Refusal>,
) -> Result<(), AllocError>
    ensures { PutsSome IsAnswer out.old out.new result }
{
    match answer {
        Ok(result) => put_result(out, alloc, id, result),
        Err(Refusal::Fault(fault)) => put_fault(out, alloc, id, fault),
        Err(Refusal::OutOfMemory) => Err(AllocError),
    }
}

/// Adds the result of a request.
fn put_result(out: &mut Vec<u8>, alloc: Global, id: &Value, value: Value) -> Result<(), AllocError>
    ensures { PutsSome IsAnswer out.old out.new result }
{
    let message = result_message(alloc, id, value)?;
    put_message(out, alloc, &message)
}

/// Adds that a request has no result.
pub fn put_fault(
    out: &mut Vec<u8>,
    alloc: Global,
    id: &Value,
    fault: Fault,
) -> Result<(), AllocError>
    ensures { PutsSome IsAnswer out.old out.new result }
{
    let (code, text) = (fault.code(), fault.text());
    let error = json!(in alloc; {"code": code, "message": text})?;
    let message = error_message(alloc, id, error)?;
    put_message(out, alloc, &message)
}

/// Adds a message that the editor shows to its user, as an error.
pub fn put_shown(out: &mut Vec<u8>, alloc: Global, text: &str) -> Result<(), AllocError>
    ensures { PutsSome IsShown out.old out.new result }
{
    let params = json!(in alloc; {"message": text, "type": 1})?;
    let message = shown_message(alloc, params)?;
    put_message(out, alloc, &message)
}

/// The message with a result.
fn result_message(alloc: Global, id: &Value, value: Value) -> Result<Value, AllocError>
    ensures { IfOk result (λ v. HasId (view v)) }
{
    json!(in alloc; {"id": id, "jsonrpc": "2.0", "result": value})
}

/// The message with an error.
fn error_message(alloc: Global, id: &Value, error: Value) -> Result<Value, AllocError>
    ensures { IfOk result (λ v. HasId (view v)) }
{
    json!(in alloc; {"error": error, "id": id, "jsonrpc": "2.0"})
}

/// The message that is shown.
fn shown_message(alloc: Global, params: Value) -> Result<Value, AllocError>
    ensures { IfOk result (λ v. Shows (view v)) }
{
    json!(in alloc; {"jsonrpc": "2.0", "method": "window/showMessage", "params": params})
}
