//! What appends to bytes in memory: pieces, numbers, and the names of a program's parts.
#![tactic(auto)]

pub mod names;
pub mod text;
