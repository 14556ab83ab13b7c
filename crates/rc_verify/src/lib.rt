//! The verifier: one walk over a program's text.
//!
//! It answers Ok exactly where the lines of pools and every header meet their premises and every thread has a labelling
//! that is good at every line; else the least line up to which there is none, and the least premise there that no
//! labelling meets.
#![tactic(auto)]

mod arms;
mod branches;
mod headers;
pub mod held;
pub mod labels;
pub mod laws;
mod loops;
pub mod refusal;
mod stack;
pub mod verify;
mod walk;
