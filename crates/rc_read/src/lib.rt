//! Reads the notation of programs: bytes, in any pieces, to a `Program` or to the first line that can't be read.
#![tactic(auto)]

mod add;
mod blocks;
mod brackets;
mod copies;
mod draft;
mod fault;
pub mod fixed;
mod judge;
pub mod kinds;
pub mod laws;
mod lists;
mod names;
mod noted;
mod order;
pub mod parts;
mod reader;
pub mod reserved;
mod says;
pub mod source;
pub mod spots;
pub mod table;
mod values;
pub mod words;

pub use fault::{ReadCause, ReadFault};
pub use reader::{Reader, read_parts, read_program};
