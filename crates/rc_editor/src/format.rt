//! The layout of a model, as edits.

use crate::place::{Edit, edits_to};
use rc_rewrite::format::format;
use std::alloc::{AllocError, Global};

/// The lines that the layout changes.
pub fn edits(alloc: Global, text: &[u8]) -> Result<Vec<Edit>, AllocError> {
    let laid = format(alloc, text)?;
    edits_to(alloc, text, &laid)
}
