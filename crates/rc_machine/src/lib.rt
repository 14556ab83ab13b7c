//! What each thread was seen to do, as a machine whose states say what is held.
//!
//! No contract says what a machine has: each function is safe, and ends. What is drafted of it is checked.
#![tactic(auto)]

mod carry;
mod close;
mod exchange;
mod finish;
mod graph;
pub mod groups;
mod holdings;
mod key;
mod like;
mod lists;
pub mod machine;
mod merge;
mod onward;
mod quotient;
mod swaps;
mod touched;
mod trace;
mod waiting;
