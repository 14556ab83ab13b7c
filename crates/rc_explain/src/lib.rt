//! A verdict and what explains it, as one value: drawn as words, as JSON, and as what an editor shows.
//!
//! The verdict is promised, in each of these forms. The words are proved safe only; the records of the examples have them.
#![tactic(auto)]

pub mod diagnosis;
pub mod engine;
mod explanation;
mod listing;
pub mod notes;
mod object;
mod printed;
pub mod span;
