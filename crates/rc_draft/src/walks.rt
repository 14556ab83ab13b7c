//! The threads whose code is one loop, while their events are read.

use crate::source::Source;
use crate::stretches::Stretches;
use rc_replay::visitor::Visitor;
use std::alloc::{AllocError, Global};

/// A thread, and how far its events are read.
#[derive(Drop)]
pub struct Walk<'a> {
    pub source: Source<'a>,
    pub stretches: Stretches,
    // The step behind which the next event of the log comes, if there was one before.
    at: Option<u32>,
}

/// The threads whose code is one loop, each at its place among all.
#[derive(Drop)]
pub struct Walks<'a> {
    walks: Vec<Option<Walk<'a>>>,
    /// Whether there is one.
    pub is_any: bool,
}

impl<'a> Walks<'a> {
    /// No threads.
    pub fn new(alloc: Global) -> Walks<'a> {
        Walks {
            walks: Vec::new(alloc),
            is_any: false,
        }
    }

    /// The next thread is none of these.
    pub fn pass(&mut self) -> Result<(), AllocError> {
        self.walks.push(None).map_err(AllocError::from)
    }

    /// The next thread is one of these.
    pub fn add(&mut self, source: Source<'a>) -> Result<(), AllocError> {
        self.is_any = true;
        let walk = Walk {
            source,
            stretches: Stretches::new(source)?,
            at: None,
        };
        self.walks.push(Some(walk)).map_err(AllocError::from)
    }

    /// A thread that is one of these, which isn't any more.
    pub fn take(&mut self, thread: usize) -> Option<Walk<'a>> {
        self.walks.get_mut(thread)?.take()
    }
}

impl Walk<'_> {
    fn visit(&mut self, event: u32) -> Result<(), AllocError> {
        let at = self.at.unwrap_or(0);
        self.at = Some(self.stretches.add_known(self.source, at, event)?);
        Ok(())
    }

    fn end_log(&mut self) {
        if let Some(at) = self.at.take() {
            self.stretches.steps.end(at);
        }
    }
}

impl Visitor for Walks<'_> {
    fn visit(&mut self, thread: u32, event: u32) -> Result<(), AllocError> {
        match self.walks.get_mut(thread as usize) {
            Some(Some(walk)) => walk.visit(event),
            _ => Ok(()),
        }
    }

    fn end_log(&mut self) {
        for walk in self.walks.iter_mut() {
            if let Some(walk) = walk {
                walk.end_log();
            }
        }
    }
}
