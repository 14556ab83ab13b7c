//! Programs for tests.

pub use crate::programs::{HANDOFF, SHARE};
use rc_admit::admitted::{Admitted, admit};
use std::alloc::Global;
use std::sync::Arc;
use std::test::*;

/// The program of a model that the rules accept.
pub fn admitted(alloc: Global, text: &str) -> Result<Arc<Admitted, Global>, Fail> {
    let admitted = admit(alloc, text.as_bytes()).ok().ok_or("admitted")?;
    Ok(Arc::new(alloc, admitted)?)
}
