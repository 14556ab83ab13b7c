//! Logs that are read again after they were recorded.

use std::alloc::AllocError;
use std::io::{self, Read};

/// What opens recorded logs again.
pub trait Logs {
    /// A log that is open.
    type Log: Read + Drop;

    /// Opens the log that was recorded with this number, from 0.
    fn open(&self, number: u32) -> Result<Self::Log, Loss>;
}

/// Why a log can't be read again.
#[derive(Drop)]
pub enum Loss {
    /// It can't be opened, or a read of it failed.
    Failed(io::Error),
    /// It isn't what was recorded.
    Changed,
    /// A growth was refused (code 20).
    OutOfMemory,
}

/// Why logs aren't replayed.
#[derive(Drop)]
pub enum ReplayFault {
    /// The log of this number can't be read again; why.
    Lost { number: u32, loss: Loss },
    /// A growth was refused (code 20).
    OutOfMemory,
}

impl From<AllocError> for ReplayFault {
    fn from(_error: AllocError) -> ReplayFault {
        ReplayFault::OutOfMemory
    }
}

/// The fault where the log of this number can't be read again.
pub fn fault_of(number: u32, loss: Loss) -> ReplayFault {
    match loss {
        Loss::OutOfMemory => ReplayFault::OutOfMemory,
        loss => ReplayFault::Lost { number, loss },
    }
}
