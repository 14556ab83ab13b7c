//! What is written: verdicts, and traces of programs that are stepped.
//!
//! An engine reads a model from a [`Source`](streams::Source) and writes its answer to a [`Sink`](streams::Sink). It
//! answers `Read` and `Write` only where that device failed, `Read` also where 2,097,152 reads met no end of the input.
#![tactic(auto)]

pub mod buffered;
pub mod check_engine;
mod coverage;
pub mod engine_fault;
pub mod printed;
pub mod reading;
pub mod script;
pub mod shown;
pub mod status;
pub mod step_engine;
pub mod stepping;
pub mod streams;
pub mod summary;
pub mod trace;
pub mod verdict;
pub mod writing;

pub use rc_read::source;
pub use rc_text::{names, text};
