//! Programs of liburing calls, as the other crates see them.
//!
//! A thread is a flat list of lines. A block is opened and closed by lines of its own, and a closing line names the
//! place of the line that it belongs to, so that a place is at once a program counter, the index of a label and an
//! index into what was read.
#![tactic(auto)]

pub mod lines;
pub mod look_up;
pub mod names;
pub mod numbers;
pub mod program;
pub mod request;
pub mod rows;
pub mod view;
