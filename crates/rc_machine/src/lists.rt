//! What is known of a graph, by its nodes.

use crate::graph::{Graph, Led, add_to, empty_lists, targets_of};
use crate::key::Spot;
use std::alloc::{AllocError, Global};

/// How many nodes there are on the way from a completion to the next wait, at most.
const MOST_STEPS: usize = 16;

/// Ways, arms, classes and places by their nodes.
#[derive(Drop)]
pub struct Lists {
    targets: Vec<Vec<u32>>,
    arms: Vec<Vec<(u32, Led)>>,
    classes: Vec<Vec<(u32, u32)>>,
    places: Vec<Vec<u32>>,
}

impl Lists {
    /// The lists of a graph.
    pub fn of(alloc: Global, graph: &Graph) -> Result<Lists, AllocError> {
        Ok(Lists {
            targets: targets_of(alloc, graph)?,
            arms: arms_of(alloc, graph)?,
            classes: classes_of(alloc, graph)?,
            places: places_of(alloc, graph)?,
        })
    }

    /// The nodes to which a node leads.
    pub fn targets(&self, node: u32) -> &[u32] {
        match self.targets.get(node as usize) {
            Some(targets) => targets,
            None => &[],
        }
    }

    /// The arms of a node.
    pub fn arms(&self, node: u32) -> &[(u32, Led)] {
        match self.arms.get(node as usize) {
            Some(arms) => arms,
            None => &[],
        }
    }

    /// The classes behind a completion, and to which nodes they went on.
    pub fn classes(&self, node: u32) -> &[(u32, u32)] {
        match self.classes.get(node as usize) {
            Some(classes) => classes,
            None => &[],
        }
    }

    /// The places of a node.
    pub fn places(&self, node: u32) -> &[u32] {
        match self.places.get(node as usize) {
            Some(places) => places,
            None => &[],
        }
    }

    /// The nodes from one on up to the next wait at this place in C, if nothing is chosen between them.
    pub fn stretch(
        &self,
        alloc: Global,
        graph: &Graph,
        place: u32,
        first: u32,
    ) -> Result<Option<Vec<u32>>, AllocError> {
        let mut nodes = Vec::new(alloc);
        let mut node = first;
        for _ in 0..MOST_STEPS {
            nodes.push(node)?;
            if wait_at(graph, node) == Some(place) {
                return Ok(Some(nodes));
            }
            match self.targets(node) {
                [next] if !graph.tries(node) => node = *next,
                _ => return Ok(None),
            }
        }
        Ok(None)
    }
}

/// The place in C where a node waits.
pub fn wait_at(graph: &Graph, node: u32) -> Option<u32> {
    match graph.key(node)?.spot {
        Spot::Wait { place } => Some(place),
        _ => None,
    }
}

/// The arms of each node.
fn arms_of(alloc: Global, graph: &Graph) -> Result<Vec<Vec<(u32, Led)>>, AllocError> {
    let mut arms = empty_lists(alloc, graph.len())?;
    for ((node, label), led) in graph.arms.iter() {
        add_to(&mut arms, *node, (*label, *led))?;
    }
    Ok(arms)
}

/// The classes behind each node that is behind a completion.
pub fn classes_of(alloc: Global, graph: &Graph) -> Result<Vec<Vec<(u32, u32)>>, AllocError> {
    let mut classes = empty_lists(alloc, graph.len())?;
    for (node, class, to) in graph.classes.iter() {
        add_to(&mut classes, *node, (*class, *to))?;
    }
    Ok(classes)
}

/// The places of each node.
fn places_of(alloc: Global, graph: &Graph) -> Result<Vec<Vec<u32>>, AllocError> {
    let mut places = empty_lists(alloc, graph.len())?;
    for (node, place) in graph.places.iter() {
        add_to(&mut places, *node, *place)?;
    }
    Ok(places)
}
