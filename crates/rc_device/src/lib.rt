//! What the modelled kernel answers requests from: files in memory, and choosers of what happens next.
#![tactic(auto)]

pub mod chooser;
pub mod device;
pub mod disk;
mod file;
pub mod laws;
