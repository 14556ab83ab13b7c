//! Nodes that are taken for one: those that go on alike, and those with one way on.

use crate::graph::{Graph, targets_of};
use crate::holdings::number;
use crate::key::{Deed, Key, Spot};
use crate::onward::{Onward, onward_of};
use crate::quotient::{Name, name_of, own_names, rename, rename_all};
use crate::waiting::{mark_waits, wait_names};
use indexmap::IndexMap;
use rc_replay::replayed::{Kind, Replayed};
use std::alloc::{AllocError, Global};

/// How often nodes are merged, at most.
const MOST_ROUNDS: usize = 64;

/// Merges the nodes of a graph, and names the starts anew.
pub fn merge(
    alloc: Global,
    graph: &mut Graph,
    replayed: &Replayed,
    starts: &mut [u32],
) -> Result<(), AllocError> {
    merge_waits(alloc, graph, starts)?;
    merge_alike(alloc, graph, replayed, starts)?;
    pass_single(alloc, graph, starts)
}

/// Takes nodes for others.
fn apply(
    alloc: Global,
    graph: &mut Graph,
    names: &[Name],
    starts: &mut [u32],
) -> Result<(), AllocError> {
    rename_starts(starts, names);
    rename_all(alloc, graph, names)
}

/// Names the starts anew.
fn rename_starts(starts: &mut [u32], names: &[Name]) {
    for start in starts.iter_mut() {
        *start = name_of(names, *start).to;
    }
}

/// Nodes with the same holding from which the thread only takes or waits become one.
fn merge_waits(alloc: Global, graph: &mut Graph, starts: &mut [u32]) -> Result<(), AllocError> {
    let (names, wide) = wait_names(alloc, graph)?;
    apply(alloc, graph, &names, starts)?;
    mark_waits(graph, &wide)
}

/// Nodes with the same holding that go on alike become one.
fn merge_alike(
    alloc: Global,
    graph: &mut Graph,
    replayed: &Replayed,
    starts: &mut [u32],
) -> Result<(), AllocError> {
    for _ in 0..MOST_ROUNDS {
        if !merge_once(alloc, graph, replayed, starts)? {
            break;
        }
    }
    Ok(())
}

/// Merges nodes that go on alike now. Answers whether there are any.
fn merge_once(
    alloc: Global,
    graph: &mut Graph,
    replayed: &Replayed,
    starts: &mut [u32],
) -> Result<bool, AllocError> {
    let names = alike_names(alloc, graph, replayed)?;
    let is_some = are_some_renamed(&names);
    if is_some {
        apply(alloc, graph, &names, starts)?;
    }
    Ok(is_some)
}

/// Whether a node is taken for another.
fn are_some_renamed(names: &[Name]) -> bool {
    for (node, name) in (0u32..).zip(names.iter()) {
        if name.to != node {
            return true;
        }
    }
    false
}

/// Takes each node for the first one that goes on alike.
fn alike_names(alloc: Global, graph: &Graph, replayed: &Replayed) -> Result<Vec<Name>, AllocError> {
    let onward = onward_of(alloc, graph)?;
    let mut names = own_names(alloc, graph)?;
    let mut first: IndexMap<Vec<u32>, u32> = IndexMap::new(alloc);
    for node in 0..number(graph.len()) {
        if let Some(look) = look_of(alloc, graph, replayed, &onward, node)? {
            let other = first_with(&mut first, look, node)?;
            rename(&mut names, node, Name::of(other));
        }
    }
    Ok(names)
}

/// The first node that looks so.
fn first_with(
    first: &mut IndexMap<Vec<u32>, u32>,
    look: Vec<u32>,
    node: u32,
) -> Result<u32, AllocError> {
    if let Some(other) = first.get(&look) {
        return Ok(*other);
    }
    first.insert(look, node)?;
    Ok(node)
}

/// What nodes that go on alike have in common; none of a node that may not be merged.
fn look_of(
    alloc: Global,
    graph: &Graph,
    replayed: &Replayed,
    onward: &Onward,
    node: u32,
) -> Result<Option<Vec<u32>>, AllocError> {
    let targets = onward.targets(node);
    if targets.is_empty() || !graph.is_after(node) || graph.waits.contains(&node) {
        return Ok(None);
    }
    let mut look = Vec::new(alloc);
    let Some(key) = graph.key(node) else {
        return Ok(None);
    };
    look.push(key.held)?;
    look.extend_from_slice(targets)?;
    let parted = onward.parted(alloc, node)?;
    if !parted.is_empty() {
        add_parted(&mut look, replayed, key, parted)?;
    }
    Ok(Some(look))
}

/// Adds how classes go on, and what tells a full completion.
fn add_parted(
    look: &mut Vec<u32>,
    replayed: &Replayed,
    key: Key,
    parted: &[(u32, u32)],
) -> Result<(), AllocError> {
    look.extend_from_slice(&[u32::MAX, len_of(replayed, key)])?;
    for (class, to) in parted {
        look.extend_from_slice(&[*class, *to])?;
    }
    Ok(())
}

/// How many bytes the completion before a node moves in full.
fn len_of(replayed: &Replayed, key: Key) -> u32 {
    let Spot::After {
        deed: Deed::Reaped(token),
        ..
    } = key.spot
    else {
        return 0;
    };
    match replayed.tokens.get(token as usize) {
        Some(token) if matches!(token.kind, Kind::Read | Kind::Write) => token.len,
        _ => 0,
    }
}

/// A node with one way on is passed over.
fn pass_single(alloc: Global, graph: &mut Graph, starts: &mut [u32]) -> Result<(), AllocError> {
    let names = single_names(alloc, graph)?;
    apply(alloc, graph, &names, starts)
}

/// Takes each node with one way on for the one where it leads.
fn single_names(alloc: Global, graph: &Graph) -> Result<Vec<Name>, AllocError> {
    let targets = targets_of(alloc, graph)?;
    let mut names = own_names(alloc, graph)?;
    for (node, targets) in (0u32..).zip(targets.iter()) {
        if let Some(name) = single_name(graph, targets, node) {
            rename(&mut names, node, name);
        }
    }
    Ok(names)
}

/// The only node to which a node goes on, in its place.
fn single_name(graph: &Graph, targets: &[u32], node: u32) -> Option<Name> {
    if !graph.is_after(node) || graph.waits.contains(&node) {
        return None;
    }
    let [to] = targets else {
        return None;
    };
    if *to == node {
        return None;
    }
    Some(Name {
        to: *to,
        is_unlocked: graph.is_unlocked(node, *to),
        is_passed: true,
    })
}
