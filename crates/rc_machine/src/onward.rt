//! To which nodes the nodes of a graph go on.

use crate::graph::{Graph, targets_of};
use crate::lists::classes_of;
use std::alloc::{AllocError, Global};

/// To which nodes each node goes on, and behind a completion by class.
#[derive(Drop)]
pub struct Onward {
    targets: Vec<Vec<u32>>,
    classes: Vec<Vec<(u32, u32)>>,
}

/// To which nodes each node goes on.
pub fn onward_of(alloc: Global, graph: &Graph) -> Result<Onward, AllocError> {
    let mut classes = classes_of(alloc, graph)?;
    for list in classes.iter_mut() {
        list.sort_unstable();
    }
    Ok(Onward {
        targets: targets_of(alloc, graph)?,
        classes,
    })
}

impl Onward {
    /// To which nodes a node goes on.
    pub fn targets(&self, node: u32) -> &[u32] {
        match self.targets.get(node as usize) {
            Some(targets) => targets,
            None => &[],
        }
    }

    /// The classes of a node, and to which nodes each goes on, if they don't all go on alike.
    pub fn parted(&self, alloc: Global, node: u32) -> Result<&[(u32, u32)], AllocError> {
        let Some(rows) = self.classes.get(node as usize) else {
            return Ok(&[]);
        };
        Ok(if are_parted(alloc, rows)? { rows } else { &[] })
    }
}

/// Whether not all of these classes go on to all of these nodes.
fn are_parted(alloc: Global, rows: &[(u32, u32)]) -> Result<bool, AllocError> {
    let mut classes = Vec::new(alloc);
    let mut targets = Vec::new(alloc);
    for (class, to) in rows {
        classes.push(*class)?;
        targets.push(*to)?;
    }
    classes.sort_unstable();
    classes.dedup();
    targets.sort_unstable();
    targets.dedup();
    Ok(rows.len() != classes.len().saturating_mul(targets.len()))
}
