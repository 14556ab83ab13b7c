//! What a body says.

ghost use Rattle.std.specs.Prelude.{IfOk, option_map};
ghost use Rattle.serde_json.specs.View.{view};
ghost use Rattle.rc_lsp.specs.Bodies.{IsRead, Says};

use crate::escapes::repaired;
use serde_json::Value;
use std::alloc::{AllocError, Global};

/// The value of a body. U+FFFD stands for each half of a surrogate pair that is alone, as `\ud800`, since editors have such
/// texts and JSON has none.
pub fn value_of(alloc: Global, body: &[u8]) -> Result<Option<Value>, AllocError>
    ensures { IfOk result (λ value. Says body.now (option_map view value)) }
{
    match read(alloc, body)? {
        Some(value) => Ok(Some(value)),
        None => read(alloc, &repaired(alloc, body)?),
    }
}

/// The value of a JSON text.
fn read(alloc: Global, bytes: &[u8]) -> Result<Option<Value>, AllocError>
    ensures { IfOk result (λ value. IsRead bytes.now (option_map view value)) }
{
    match Value::from_slice(alloc, bytes) {
        Ok(value) => Ok(Some(value)),
        Err(error) => {
            if error.is_memory() {
                Err(AllocError)
            } else {
                Ok(None)
            }
        }
    }
}
