//! Notes: lines of text, each once.

use indexmap::IndexSet;
use std::alloc::{AllocError, Global};

/// Lines of text, each once.
#[derive(Drop)]
pub struct Notes {
    lines: IndexSet<Vec<u8>>,
}

impl Notes {
    /// No lines.
    pub fn new(alloc: Global) -> Notes {
        Notes {
            lines: IndexSet::new(alloc),
        }
    }

    /// Adds a line where it is new.
    pub fn add(&mut self, line: Vec<u8>) -> Result<(), AllocError> {
        self.lines.insert(line)?;
        Ok(())
    }

    /// Adds the lines of others that are new.
    pub fn add_all(&mut self, alloc: Global, others: &Notes) -> Result<(), AllocError> {
        for line in others.lines.iter() {
            self.lines.insert(Vec::from_slice(alloc, line)?)?;
        }
        Ok(())
    }

    /// The lines in order.
    pub fn sorted(&self, alloc: Global) -> Result<Vec<Vec<u8>>, AllocError> {
        let mut sorted = Vec::new(alloc);
        for line in self.lines.iter() {
            sorted.push(Vec::from_slice(alloc, line)?)?;
        }
        sorted.sort()?;
        Ok(sorted)
    }
}
