//! Frames: how messages follow each other on a stream.

ghost use Rattle.serde_json.specs.View.{view};
ghost use Rattle.rc_lsp.specs.Frames.{Carries, frame};
ghost use Rattle.rc_report.specs.Text.{Puts, PutsSome};

use rc_report::text::{put_counted, put_piece};
use serde_json::Value;
use std::alloc::{AllocError, Global};

/// Adds a message, as JSON in a frame.
pub fn put_message(out: &mut Vec<u8>, alloc: Global, message: &Value) -> Result<(), AllocError>
    ensures { PutsSome (Carries (view message.now)) out.old out.new result }
{
    let body = message.to_string(alloc)?;
    put_frame(out, body.as_bytes())
}

/// Adds a body in a frame: a head, which says how many bytes it has, and the body.
fn put_frame(out: &mut Vec<u8>, body: &[u8]) -> Result<(), AllocError>
    ensures { Puts out.old out.new (frame body.now) result }
{
    put_counted(out, b"Content-Length: ", body.len() as u64, b"\r\n\r\n")?;
    put_piece(out, body)
}
