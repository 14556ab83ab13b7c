//! What was seen with one of two like things is done with the other too.

use crate::exchange::Exchange;
use crate::graph::{Graph, Led, targets_of};
use crate::holdings::Tables;
use rc_replay::replayed::Replayed;
use std::alloc::{AllocError, Global};

/// How many nodes there may be before no more are made.
pub const MOST_NODES: usize = 4000;

/// How many parts and ways are exchanged, at most.
const MOST_ROWS: usize = 4_000_000;

/// What is exchanged where.
#[derive(Drop)]
struct Closing<'a> {
    replayed: &'a Replayed,
    starts: &'a [u32],
    /// Of each node whether it comes once, before the loops: it stays as it is.
    fixed: &'a [bool],
    /// How many parts and ways were exchanged.
    rows: usize,
}

impl Closing<'_> {
    /// Adds how many parts and ways of a graph are exchanged.
    fn add_rows(&mut self, tables: &Tables, graph: &Graph) {
        self.rows = self.rows.saturating_add(graph.ways.len());
        for key in graph.keys.iter() {
            self.rows = self.rows.saturating_add(tables.parts(key.held).len());
        }
    }
}

/// Exchanges like things, each pair of them.
pub fn close(
    tables: &mut Tables,
    graph: &mut Graph,
    replayed: &Replayed,
    like: &[Vec<u32>],
    starts: &[u32],
) -> Result<(), AllocError> {
    let fixed = fixed_of(tables.alloc, graph, starts)?;
    let mut closing = Closing {
        replayed,
        starts,
        fixed: &fixed,
        rows: 0,
    };
    for things in like {
        close_all(tables, graph, &mut closing, things)?;
    }
    Ok(())
}

/// Exchanges all of these things.
fn close_all(
    tables: &mut Tables,
    graph: &mut Graph,
    closing: &mut Closing<'_>,
    things: &[u32],
) -> Result<(), AllocError> {
    for (place, one) in things.iter().enumerate() {
        let others = things.get(place..).unwrap_or(&[]);
        close_with(tables, graph, closing, *one, others)?;
    }
    Ok(())
}

/// Exchanges a thing with each of these.
fn close_with(
    tables: &mut Tables,
    graph: &mut Graph,
    closing: &mut Closing<'_>,
    one: u32,
    others: &[u32],
) -> Result<(), AllocError> {
    for other in others {
        if *other != one && graph.len() <= MOST_NODES && closing.rows <= MOST_ROWS {
            close_pair(tables, graph, closing, one, *other)?;
        }
    }
    Ok(())
}

/// Exchanges two things, if the threads begin with neither or both.
fn close_pair(
    tables: &mut Tables,
    graph: &mut Graph,
    closing: &mut Closing<'_>,
    one: u32,
    other: u32,
) -> Result<(), AllocError> {
    let exchange = Exchange::new(tables.alloc, closing.replayed, one, other)?;
    closing.add_rows(tables, graph);
    if !keeps_starts(tables, graph, &exchange, closing.starts)? {
        return Ok(());
    }
    let images = images_of(tables, graph, &exchange)?;
    let image = Image {
        exchange: &exchange,
        images: &images,
        fixed: closing.fixed,
    };
    image.ways(graph)?;
    image.arms(graph)?;
    image.classes(graph)?;
    image.places(graph)
}

/// Whether the threads begin with neither of the things, or both.
fn keeps_starts(
    tables: &mut Tables,
    graph: &Graph,
    exchange: &Exchange,
    starts: &[u32],
) -> Result<bool, AllocError> {
    for start in starts {
        if let Some(key) = graph.key(*start) {
            if exchange.holding(tables, key.held)? != key.held {
                return Ok(false);
            }
        }
    }
    Ok(true)
}

/// The node that each node is exchanged for.
fn images_of(
    tables: &mut Tables,
    graph: &mut Graph,
    exchange: &Exchange,
) -> Result<Vec<u32>, AllocError> {
    let mut images = Vec::new(tables.alloc);
    for node in 0..graph.len() {
        let image = match graph.keys.get_index(node).copied() {
            Some(key) => graph.node(exchange.key(tables, key)?)?,
            None => 0,
        };
        images.push(image)?;
    }
    Ok(images)
}

/// An exchange, and the nodes that it makes of others.
#[derive(Clone, Copy)]
struct Image<'a> {
    exchange: &'a Exchange,
    images: &'a [u32],
    fixed: &'a [bool],
}

impl Image<'_> {
    /// The node that a node is exchanged for, if how it goes on is exchanged.
    fn free(self, node: u32) -> Option<u32> {
        match self.fixed.get(node as usize) {
            Some(true) => None,
            _ => self.images.get(node as usize).copied(),
        }
    }

    /// The node that a node is exchanged for.
    fn of(self, node: u32) -> u32 {
        self.images.get(node as usize).copied().unwrap_or(node)
    }

    /// Adds the ways of exchanged nodes.
    fn ways(self, graph: &mut Graph) -> Result<(), AllocError> {
        for row in 0..graph.ways.len() {
            if let Some(((from, to), passed)) = graph.ways.get_index(row) {
                let (from, to, is_unlocked) = (*from, *to, passed.is_unlocked);
                if let Some(from) = self.free(from) {
                    graph.link(from, self.of(to), is_unlocked)?;
                }
            }
        }
        Ok(())
    }

    /// Adds the arms of exchanged nodes.
    fn arms(self, graph: &mut Graph) -> Result<(), AllocError> {
        for row in 0..graph.arms.len() {
            if let Some(((node, label), led)) = graph.arms.get_index(row) {
                let (node, label, led) = (*node, *label, *led);
                self.arm(graph, node, label, led)?;
            }
        }
        Ok(())
    }

    /// Adds an arm of an exchanged node.
    fn arm(self, graph: &mut Graph, node: u32, label: u32, led: Led) -> Result<(), AllocError> {
        let (Some(key), Some(image)) = (graph.key(node), self.free(node)) else {
            return Ok(());
        };
        let led = Led {
            to: self.of(led.to),
            ..led
        };
        graph.lead(image, self.exchange.label(key, label), led)
    }

    /// Adds how the classes of completions go on behind exchanged nodes.
    fn classes(self, graph: &mut Graph) -> Result<(), AllocError> {
        for row in 0..graph.classes.len() {
            if let Some((node, class, to)) = graph.classes.get_index(row).copied() {
                if let Some(node) = self.free(node) {
                    graph.go_on(node, class, self.of(to))?;
                }
            }
        }
        Ok(())
    }

    /// Adds the places of exchanged nodes.
    fn places(self, graph: &mut Graph) -> Result<(), AllocError> {
        for row in 0..graph.places.len() {
            if let Some((node, place)) = graph.places.get_index(row).copied() {
                if let Some(node) = self.free(node) {
                    graph.stand(node, place)?;
                }
            }
        }
        Ok(())
    }
}

/// Of each node whether it comes once, before the loops: only one way leads to it and at most one from it.
fn fixed_of(alloc: Global, graph: &Graph, starts: &[u32]) -> Result<Vec<bool>, AllocError> {
    let targets = targets_of(alloc, graph)?;
    let sources = sources_of(alloc, graph)?;
    let mut fixed = Vec::new(alloc);
    fixed.resize(graph.len(), false)?;
    for start in starts {
        fix_from(&mut fixed, &targets, &sources, *start);
    }
    Ok(fixed)
}

/// How many nodes lead to each node.
fn sources_of(alloc: Global, graph: &Graph) -> Result<Vec<u32>, AllocError> {
    let mut sources: Vec<u32> = Vec::new(alloc);
    sources.resize(graph.len(), 0)?;
    for ((_, to), _) in graph.ways.iter() {
        if let Some(count) = sources.get_mut(*to as usize) {
            *count = count.saturating_add(1);
        }
    }
    Ok(sources)
}

/// Marks a start, and the nodes behind it up to where ways join or part.
fn fix_from(fixed: &mut [bool], targets: &[Vec<u32>], sources: &[u32], start: u32) {
    let mut node = start;
    for _ in 0..targets.len() {
        if let Some(flag) = fixed.get_mut(node as usize) {
            *flag = true;
        }
        let Some(next) = only_target(targets, node) else {
            return;
        };
        if sources.get(next as usize).copied() != Some(1) || has_choice(targets, next) {
            return;
        }
        node = next;
    }
}

/// The only node to which a node leads.
fn only_target(targets: &[Vec<u32>], node: u32) -> Option<u32> {
    match targets.get(node as usize)?.as_slice() {
        [only] => Some(*only),
        _ => None,
    }
}

/// Whether a node leads to more than one.
fn has_choice(targets: &[Vec<u32>], node: u32) -> bool {
    match targets.get(node as usize) {
        Some(targets) => targets.len() > 1,
        None => false,
    }
}
