//! `draft`: models from logs of C programs.

pub mod again;
pub mod answers;
pub mod making;
pub mod object;
pub mod outcome;
pub mod printed;
pub mod recording;
pub mod telling;
pub mod trying;
