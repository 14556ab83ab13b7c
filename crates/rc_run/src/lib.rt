//! Runs admitted programs: a run under way, over rings of real entry bytes, and the threads that make its events.
#![tactic(auto)]

pub mod gate;
pub mod job;
pub mod live;
mod locked;
mod machine;
pub mod report;
mod request_ring;
pub mod runner;
mod scheduler;
