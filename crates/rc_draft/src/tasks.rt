//! What is to be written next: a list of tasks, that makes recursion unneeded.

use crate::piece::{Piece, Test};
use std::alloc::{AllocError, Global};

/// Something to be written.
#[derive(Clone, Copy)]
pub enum Task {
    /// A piece.
    Put(Piece),
    /// What a thread does from a node on, up to the stops of a scope.
    Node { node: u32, scope: u32 },
    /// The same, of a node whose loop is begun.
    Body { node: u32, scope: u32 },
    /// Where a node goes on to after a completion of a class, by the class's place.
    Class { node: u32, class: u32, scope: u32 },
    /// The end of a loop, and what comes after it.
    EndLoop(u32),
}

/// Tasks in order, which end with the ends of some blocks.
#[derive(Drop)]
pub struct Tasks {
    pub list: Vec<Task>,
    ends: u32,
}

impl Tasks {
    /// None.
    pub fn new(alloc: Global) -> Tasks {
        Tasks {
            list: Vec::new(alloc),
            ends: 0,
        }
    }

    /// Adds a task.
    pub fn add(&mut self, task: Task) -> Result<(), AllocError> {
        self.list.push(task).map_err(AllocError::from)
    }

    /// Adds a piece.
    pub fn put(&mut self, piece: Piece) -> Result<(), AllocError> {
        self.add(Task::Put(piece))
    }

    /// Adds what a thread does from a node on.
    pub fn node(&mut self, node: u32, scope: u32) -> Result<(), AllocError> {
        self.add(Task::Node { node, scope })
    }

    /// Adds a task under a test. What is added next stands in the other branch, up to the end.
    pub fn put_if(&mut self, piece: Piece, task: Task) -> Result<(), AllocError> {
        self.put(piece)?;
        self.add(task)?;
        self.put(Piece::middle())?;
        self.ends = self.ends.saturating_add(1);
        Ok(())
    }

    /// The same without a comment.
    pub fn put_test(&mut self, test: Test, task: Task) -> Result<(), AllocError> {
        self.put_if(Piece::test(test), task)
    }

    /// Ends the blocks.
    pub fn end(&mut self) -> Result<(), AllocError> {
        for _ in 0..self.ends {
            self.list
                .push(Task::Put(Piece::close()))
                .map_err(AllocError::from)?;
        }
        self.ends = 0;
        Ok(())
    }
}
