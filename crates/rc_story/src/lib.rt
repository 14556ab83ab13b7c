//! What a picture is drawn of, as data: the events of a run, its rows and their words, its requests, what is in the pools,
//! what is at fault, and the sentence that says why.
#![tactic(auto)]

pub mod courses;
pub mod fault;
pub mod frames;
pub mod pen;
pub mod rows;
pub mod run;
pub mod sentence;
pub mod stocks;
pub mod story;
pub mod stretches;
mod why;
