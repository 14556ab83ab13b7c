//! Accepted programs, and that they are safe.
#![tactic(auto)]

pub mod admitted;
pub mod fault;
pub mod laws;
