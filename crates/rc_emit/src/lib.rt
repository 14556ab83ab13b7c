//! Accepted programs as C: a complete program over liburing that does on a real io_uring what the model says.
//!
//! No contract says what the C is: each function is safe, and the records of the examples have it. So this crate has no
//! edits that must fail.
#![tactic(auto)]

mod blocks;
mod complete;
mod declared;
mod fixed;
mod lines;
mod locks;
mod operations;
mod place;
mod pool;
mod terms;
mod threads;
mod variables;

pub use complete::c_text;
