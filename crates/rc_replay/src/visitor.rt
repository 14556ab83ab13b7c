//! What is told of the events of a replay, one after another.

use std::alloc::AllocError;

/// What is told of the events of a replay.
pub trait Visitor {
    /// A thread does the event of this number next.
    fn visit(&mut self, thread: u32, event: u32) -> Result<(), AllocError>;

    /// The log ends.
    fn end_log(&mut self);
}

/// Nobody is told.
#[derive(Drop)]
pub struct Nobody;

impl Visitor for Nobody {
    fn visit(&mut self, _thread: u32, _event: u32) -> Result<(), AllocError> {
        Ok(())
    }

    fn end_log(&mut self) {}
}
