//! The commands of `ringcheck`: what each command answers, over any reader, writers and files.
#![tactic(auto)]

pub mod checking;
pub mod command;
pub mod departures;
pub mod drafting;
pub mod emitting;
mod formatting;
pub mod keeping;
mod models;
mod performing;
pub mod running;

pub use rc_console::{fault, files, output, reasons, words};

/// What the program reads and writes by.
pub mod streams {
    pub use rc_report::buffered::Buffered;
    pub use rc_report::streams::{Sink, WriteSink};
}
