//! The nodes of a machine, and how they lead on.

use crate::marks::{Marks, number_of};
use rc_machine::machine::{Node, What};
use std::alloc::{AllocError, Global};

/// The nodes of a machine. One more than they are is the end of the thread: an end leads there, and so does a node at
/// which a log ended and that no log went on from.
#[derive(Drop)]
pub struct Graph<'a> {
    nodes: &'a [Node],
    next: Vec<Vec<u32>>,
    before: Vec<Vec<u32>>,
}

impl<'a> Graph<'a> {
    /// The graph of these nodes.
    pub fn of(alloc: Global, nodes: &'a [Node]) -> Result<Graph<'a>, AllocError> {
        let next = all_next(alloc, nodes)?;
        let before = all_before(alloc, &next)?;
        Ok(Graph {
            nodes,
            next,
            before,
        })
    }

    /// How many nodes there are, with the end.
    pub fn len(&self) -> usize {
        self.next.len()
    }

    /// The end of the thread.
    pub fn end(&self) -> u32 {
        number_of(self.nodes.len())
    }

    /// A node, unless it is the end.
    pub fn node(&self, node: u32) -> Option<&'a Node> {
        self.nodes.get(node as usize)
    }

    /// Where a node leads.
    pub fn next(&self, node: u32) -> &[u32] {
        match self.next.get(node as usize) {
            Some(next) => next,
            None => &[],
        }
    }

    /// Which nodes lead to a node.
    pub fn before(&self, node: u32) -> &[u32] {
        match self.before.get(node as usize) {
            Some(before) => before,
            None => &[],
        }
    }

    /// Whether the thread unlocks on its way from a node to the next one.
    pub fn is_unlocked(&self, from: u32, to: u32) -> bool {
        let Some(node) = self.node(from) else {
            return false;
        };
        for way in &node.ways {
            if way.to == to {
                return way.is_unlocked;
            }
        }
        false
    }

    /// How often the thread was seen to go from a node to the next one.
    pub fn count(&self, from: u32, to: u32) -> u32 {
        let Some(node) = self.node(from) else {
            return 0;
        };
        for way in &node.ways {
            if way.to == to {
                return way.count;
            }
        }
        0
    }

    /// Whether it takes and waits from a node on.
    pub fn is_wait(&self, node: u32) -> bool {
        match self.node(node) {
            Some(node) => matches!(node.what, What::After { is_wait: true, .. }),
            None => false,
        }
    }

    /// Whether a node takes from a pool.
    pub fn is_take(&self, node: u32) -> bool {
        match self.node(node) {
            Some(node) => matches!(node.what, What::Take { .. }),
            None => false,
        }
    }
}

/// Adds a number that a list doesn't have.
pub fn add_new(numbers: &mut Vec<u32>, number: u32) -> Result<(), AllocError> {
    if !numbers.contains(&number) {
        numbers.push(number)?;
    }
    Ok(())
}

// Where each node leads, and the end, which leads nowhere.
fn all_next(alloc: Global, nodes: &[Node]) -> Result<Vec<Vec<u32>>, AllocError> {
    let end = number_of(nodes.len());
    let mut all = Vec::new(alloc);
    for node in nodes {
        let next = next_of(alloc, nodes, node, end)?;
        all.push(next).map_err(AllocError::from)?;
    }
    all.push(Vec::new(alloc))?;
    Ok(all)
}

fn next_of(alloc: Global, nodes: &[Node], node: &Node, end: u32) -> Result<Vec<u32>, AllocError> {
    let mut next = Vec::new(alloc);
    for way in &node.ways {
        add_new(&mut next, past_end(nodes, way.to, end))?;
    }
    for arm in &node.arms {
        add_new(&mut next, arm.to)?;
    }
    if next.is_empty() || matches!(node.what, What::End) {
        next.clear();
        next.push(end)?;
    }
    Ok(next)
}

// A node, or the end of the thread, where nothing is done from this node on.
fn past_end(nodes: &[Node], number: u32, end: u32) -> u32 {
    match nodes.get(number as usize) {
        Some(node) if is_end(node) => end,
        _ => number,
    }
}

fn is_end(node: &Node) -> bool {
    match node.what {
        What::End => true,
        What::After { .. } => node.ways.is_empty(),
        _ => false,
    }
}

// Which nodes lead to each node.
fn all_before(alloc: Global, all: &[Vec<u32>]) -> Result<Vec<Vec<u32>>, AllocError> {
    let mut before = Vec::new(alloc);
    for _ in all {
        before.push(Vec::new(alloc))?;
    }
    for (node, next) in all.iter().enumerate() {
        add_before(&mut before, next, number_of(node))?;
    }
    Ok(before)
}

fn add_before(before: &mut [Vec<u32>], next: &[u32], node: u32) -> Result<(), AllocError> {
    for to in next {
        if let Some(before) = before.get_mut(*to as usize) {
            before.push(node)?;
        }
    }
    Ok(())
}
