//! Nodes from which a thread only takes or waits.

use crate::graph::Graph;
use crate::holdings::number;
use crate::onward::{Onward, onward_of};
use crate::quotient::{Name, own_names, rename};
use std::alloc::{AllocError, Global};

/// How often labels are lessened, at most.
const MOST_ROUNDS: usize = 64;

/// Takes nodes from which the thread only takes or waits for the least one of those with common targets, and which nodes
/// are taken for others so.
pub fn wait_names(alloc: Global, graph: &Graph) -> Result<(Vec<Name>, Vec<u32>), AllocError> {
    let onward = onward_of(alloc, graph)?;
    let trying = trying_nodes(alloc, graph, &onward)?;
    let labels = labels_of(alloc, graph, &onward, &trying)?;
    let wide = wide_labels(alloc, &onward, &trying, &labels)?;
    let mut names = own_names(alloc, graph)?;
    for node in &trying {
        let label = label_of(&labels, *node);
        if is_in(&wide, label) {
            rename(&mut names, *node, Name::of(label));
        }
    }
    Ok((names, wide))
}

/// From these nodes the thread only takes and waits.
pub fn mark_waits(graph: &mut Graph, nodes: &[u32]) -> Result<(), AllocError> {
    for node in nodes {
        mark_wait(graph, *node)?;
    }
    Ok(())
}

/// From this node the thread only takes and waits.
fn mark_wait(graph: &mut Graph, node: u32) -> Result<(), AllocError> {
    graph.waits.insert(node)?;
    graph.link(node, node, false)
}

/// The nodes from which the thread only takes or waits, whatever the class of a completion before.
fn trying_nodes(alloc: Global, graph: &Graph, onward: &Onward) -> Result<Vec<u32>, AllocError> {
    let mut trying = Vec::new(alloc);
    for node in 0..number(graph.len()) {
        let only_tries = graph.is_after(node) && are_tried(graph, onward.targets(node));
        if only_tries && onward.parted(alloc, node)?.is_empty() {
            trying.push(node)?;
        }
    }
    Ok(trying)
}

/// Whether there are such nodes, and they only take or wait.
fn are_tried(graph: &Graph, nodes: &[u32]) -> bool {
    for node in nodes {
        if !graph.tries(*node) {
            return false;
        }
    }
    !nodes.is_empty()
}

/// The least node with which each node is joined by common targets.
fn labels_of(
    alloc: Global,
    graph: &Graph,
    onward: &Onward,
    trying: &[u32],
) -> Result<Vec<u32>, AllocError> {
    let mut labels = Vec::new(alloc);
    for node in 0..number(graph.len()) {
        labels.push(node)?;
    }
    for _ in 0..MOST_ROUNDS {
        let least = least_of(alloc, graph, onward, trying, &labels)?;
        if !lessen(onward, trying, &least, &mut labels) {
            break;
        }
    }
    Ok(labels)
}

/// The label of a node.
fn label_of(labels: &[u32], node: u32) -> u32 {
    labels.get(node as usize).copied().unwrap_or(node)
}

/// Of each node the least label of those that lead to it.
fn least_of(
    alloc: Global,
    graph: &Graph,
    onward: &Onward,
    trying: &[u32],
    labels: &[u32],
) -> Result<Vec<u32>, AllocError> {
    let mut least: Vec<u32> = Vec::new(alloc);
    least.resize(graph.len(), u32::MAX)?;
    for node in trying {
        lessen_all(&mut least, onward.targets(*node), label_of(labels, *node));
    }
    Ok(least)
}

/// Lessens the numbers of these nodes to a label.
fn lessen_all(least: &mut [u32], nodes: &[u32], label: u32) {
    for node in nodes {
        if let Some(number) = least.get_mut(*node as usize) {
            *number = label.min(*number);
        }
    }
}

/// Lessens labels to those of nodes with common targets. Answers whether any got less.
fn lessen(onward: &Onward, trying: &[u32], least: &[u32], labels: &mut [u32]) -> bool {
    let mut has_changed = false;
    for node in trying {
        let label = least_among(onward.targets(*node), least);
        if label < label_of(labels, *node) {
            lessen_all(labels, &[*node], label);
            has_changed = true;
        }
    }
    has_changed
}

/// The least number of these nodes.
fn least_among(nodes: &[u32], least: &[u32]) -> u32 {
    let mut label = u32::MAX;
    for node in nodes {
        label = label.min(label_of(least, *node));
    }
    label
}

/// The labels of nodes that together have two targets or more, in order.
fn wide_labels(
    alloc: Global,
    onward: &Onward,
    trying: &[u32],
    labels: &[u32],
) -> Result<Vec<u32>, AllocError> {
    let mut rows = Vec::new(alloc);
    for node in trying {
        add_rows(&mut rows, label_of(labels, *node), onward.targets(*node))?;
    }
    rows.sort_unstable();
    rows.dedup();
    let mut wide = Vec::new(alloc);
    for (one, other) in rows.iter().zip(rows.iter().skip(1)) {
        if one.0 == other.0 {
            wide.push(one.0)?;
        }
    }
    wide.dedup();
    Ok(wide)
}

/// Adds a row for each of these nodes.
fn add_rows(rows: &mut Vec<(u32, u32)>, label: u32, nodes: &[u32]) -> Result<(), AllocError> {
    for node in nodes {
        rows.push((label, *node))?;
    }
    Ok(())
}

/// Whether a number is among others that are in order.
fn is_in(numbers: &[u32], number: u32) -> bool {
    numbers.binary_search(&number).is_ok()
}
