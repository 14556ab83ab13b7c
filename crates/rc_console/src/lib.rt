//! The words of the command line and what they ask for; what a command reads and writes besides its answer's text: files,
//! standard output, and why there is no answer.
#![tactic(auto)]

pub mod command;
pub mod fault;
pub mod files;
mod given;
pub mod inputs;
mod options;
pub mod output;
pub mod reasons;
mod usage;
pub mod words;
