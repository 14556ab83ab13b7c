//! A graph with some of its nodes taken for others.

use crate::graph::{Arms, Graph, Led, Passed, Ways, add_way};
use crate::holdings::number;
use indexmap::{IndexMap, IndexSet};
use std::alloc::{AllocError, Global};

/// What a node is taken for.
#[derive(Clone, Copy)]
pub struct Name {
    /// The node in its place.
    pub to: u32,
    /// Whether the thread unlocks on the way to that one.
    pub is_unlocked: bool,
    /// Whether it is passed over: its own ways are left away, as they lead to the node in its place.
    pub is_passed: bool,
}

impl Name {
    /// Another node, which is merged with the first one.
    pub fn of(to: u32) -> Name {
        Name {
            to,
            is_unlocked: false,
            is_passed: false,
        }
    }
}

/// What each node is taken for: itself.
pub fn own_names(alloc: Global, graph: &Graph) -> Result<Vec<Name>, AllocError> {
    let mut names = Vec::new(alloc);
    for node in 0..graph.len() {
        names.push(Name::of(number(node)))?;
    }
    Ok(names)
}

/// What a node is taken for.
pub fn name_of(names: &[Name], node: u32) -> Name {
    match names.get(node as usize) {
        Some(name) => *name,
        None => Name::of(node),
    }
}

/// Takes a node for another.
pub fn rename(names: &mut [Name], node: u32, name: Name) {
    if let Some(place) = names.get_mut(node as usize) {
        *place = name;
    }
}

/// The node whose ways those of this one become, if any.
fn source_of(names: &[Name], node: u32) -> Option<u32> {
    let name = name_of(names, node);
    if name.is_passed { None } else { Some(name.to) }
}

/// Takes nodes of a graph for others. Their numbers stay.
pub fn rename_all(alloc: Global, graph: &mut Graph, names: &[Name]) -> Result<(), AllocError> {
    graph.ways = renamed_ways(alloc, graph, names)?;
    graph.arms = renamed_arms(alloc, graph, names)?;
    graph.classes = renamed_classes(alloc, graph, names)?;
    graph.places = renamed_places(alloc, graph, names)?;
    Ok(())
}

/// The ways between the nodes in the places of others.
fn renamed_ways(alloc: Global, graph: &Graph, names: &[Name]) -> Result<Ways, AllocError> {
    let mut ways = IndexMap::new(alloc);
    for ((from, to), passed) in graph.ways.iter() {
        if let Some(from) = source_of(names, *from) {
            let name = name_of(names, *to);
            let passed = Passed {
                is_unlocked: passed.is_unlocked || name.is_unlocked,
                count: passed.count,
            };
            add_way(&mut ways, (from, name.to), passed)?;
        }
    }
    Ok(ways)
}

/// The arms, which lead to the nodes in the places of others.
fn renamed_arms(alloc: Global, graph: &Graph, names: &[Name]) -> Result<Arms, AllocError> {
    let mut arms = IndexMap::new(alloc);
    for ((node, label), led) in graph.arms.iter() {
        let to = name_of(names, led.to).to;
        arms.insert((*node, *label), Led { to, ..*led })?;
    }
    Ok(arms)
}

/// How the classes of completions go on, between the nodes in the places of others.
fn renamed_classes(
    alloc: Global,
    graph: &Graph,
    names: &[Name],
) -> Result<IndexSet<(u32, u32, u32)>, AllocError> {
    let mut classes = IndexSet::new(alloc);
    for (node, class, to) in graph.classes.iter() {
        if let Some(node) = source_of(names, *node) {
            classes.insert((node, *class, name_of(names, *to).to))?;
        }
    }
    Ok(classes)
}

/// The places of the nodes in the places of others.
fn renamed_places(
    alloc: Global,
    graph: &Graph,
    names: &[Name],
) -> Result<IndexSet<(u32, u32)>, AllocError> {
    let mut places = IndexSet::new(alloc);
    for (node, place) in graph.places.iter() {
        places.insert((name_of(names, *node).to, *place))?;
    }
    Ok(places)
}
