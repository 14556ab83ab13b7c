//! What is said of causes and of refused lines: why, what the line asks for, how that was lost, and what to write.
//!
//! No contract says how that is worded: each function is safe, a cause has its number, and the records of the examples
//! have the words. So this crate has no edits that must fail.
#![tactic(auto)]

mod asks;
pub mod causes;
mod fixes;
pub mod line_at;
mod lost;
pub mod notes;
mod parts;
mod puts;
pub mod sentences;
pub mod state_text;
pub mod walked;
