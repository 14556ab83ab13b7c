//! What could be where a line can't be read, in words.
//!
//! No contract says how a hint is worded: each function is safe, and the records of the examples have the words. So this
//! crate has no edits that must fail.
#![tactic(auto)]

mod doubles;
pub mod fitting;
mod forms;
pub mod hint;
mod lines;
mod locks;
mod names;
pub mod near;
mod others;
mod places;
mod ranges;
mod slips;
mod wording;
