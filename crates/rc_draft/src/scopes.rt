//! Where the code that is written next ends.

use crate::marks::Marks;
use std::alloc::{AllocError, Global};

/// What is written where a node is reached at which the code ends.
#[derive(Clone, Copy)]
pub enum Ending {
    /// Nothing: what comes next is the node.
    Falls,
    /// The loop of this number is left.
    Leaves(u32),
}

/// A node at which the code ends.
#[derive(Clone, Copy)]
pub struct Stop {
    pub node: u32,
    pub ending: Ending,
}

/// The nodes at which the code ends.
#[derive(Drop)]
pub struct Scope {
    pub list: Vec<Stop>,
    /// All of them.
    pub stops: Marks,
    /// Those where nothing is written.
    pub falls: Marks,
    /// Whether the code stands in an arm of a peek.
    pub is_in_arm: bool,
}

impl Scope {
    /// A scope without stops, in a graph of so many nodes.
    pub fn new(alloc: Global, len: usize) -> Result<Scope, AllocError> {
        Ok(Scope {
            list: Vec::new(alloc),
            stops: Marks::new(alloc, len)?,
            falls: Marks::new(alloc, len)?,
            is_in_arm: false,
        })
    }

    /// Adds a stop, unless there is one at its node.
    pub fn add(&mut self, node: u32, ending: Ending) -> Result<(), AllocError> {
        if !self.stops.add(node) {
            return Ok(());
        }
        if matches!(ending, Ending::Falls) {
            let _ = self.falls.add(node);
        }
        self.list
            .push(Stop { node, ending })
            .map_err(AllocError::from)
    }

    /// How the code ends at a node, if it does.
    pub fn ending(&self, node: u32) -> Option<Ending> {
        for stop in &self.list {
            if stop.node == node {
                return Some(stop.ending);
            }
        }
        None
    }

    /// The same.
    pub fn copied(&self) -> Result<Scope, AllocError> {
        Ok(Scope {
            list: self.list.clone()?,
            stops: self.stops.copied()?,
            falls: self.falls.copied()?,
            is_in_arm: self.is_in_arm,
        })
    }

    /// The same, and it falls to this node too.
    pub fn falling_to(&self, node: u32) -> Result<Scope, AllocError> {
        let mut scope = self.copied()?;
        scope.add(node, Ending::Falls)?;
        Ok(scope)
    }

    /// What ends the code in a loop that is written here: all stops leave it, and it falls to this node.
    pub fn in_loop(
        &self,
        alloc: Global,
        len: usize,
        falls_to: Option<u32>,
        number: u32,
    ) -> Result<Scope, AllocError> {
        let mut scope = Scope::new(alloc, len)?;
        if let Some(node) = falls_to {
            scope.add(node, Ending::Falls)?;
        }
        for stop in &self.list {
            scope.add(stop.node, Ending::Leaves(number))?;
        }
        Ok(scope)
    }
}
