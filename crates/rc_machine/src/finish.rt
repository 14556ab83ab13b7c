//! The machine that a graph is: its nodes that are reached from a start, numbered anew.

use crate::graph::{Graph, Led, targets_of};
use crate::holdings::{Tables, number};
use crate::key::{Deed, Spot};
use crate::machine::{Arm, Machine, Node, Way, What};
use std::alloc::{AllocError, Global};

/// The nodes that are reached, in order, and the place of each node among them.
#[derive(Drop)]
struct Order {
    nodes: Vec<u32>,
    places: Vec<Option<u32>>,
}

impl Order {
    /// The place of a node.
    fn place(&self, node: u32) -> Option<u32> {
        self.places.get(node as usize).copied().flatten()
    }

    /// Adds a node at the end, if it isn't there.
    fn reach(&mut self, node: u32) -> Result<(), AllocError> {
        let place = number(self.nodes.len());
        if let Some(old) = self.places.get_mut(node as usize) {
            if old.is_none() {
                *old = Some(place);
                self.nodes.push(node)?;
            }
        }
        Ok(())
    }
}

/// The machine of a graph, whose starts get the numbers that they have in it.
pub fn finish(tables: &Tables, graph: &Graph, starts: &mut [u32]) -> Result<Machine, AllocError> {
    let order = order_of(tables.alloc, graph, starts)?;
    for start in starts.iter_mut() {
        *start = order.place(*start).unwrap_or(0);
    }
    let mut nodes = empty_nodes(tables, graph, &order)?;
    fill_nodes(tables.alloc, &mut nodes, graph, &order)?;
    Ok(Machine { nodes })
}

/// The nodes, with no ways on yet.
fn empty_nodes(tables: &Tables, graph: &Graph, order: &Order) -> Result<Vec<Node>, AllocError> {
    let mut nodes = Vec::new(tables.alloc);
    for node in &order.nodes {
        add_empty(tables, graph, *node, &mut nodes)?;
    }
    Ok(nodes)
}

/// Adds a node with no ways on yet.
fn add_empty(
    tables: &Tables,
    graph: &Graph,
    node: u32,
    nodes: &mut Vec<Node>,
) -> Result<(), AllocError> {
    if let Some(key) = graph.key(node) {
        let what = what_of(tables, key.spot, graph.waits.contains(&node))?;
        nodes.push(empty_node(tables.alloc, what, key.held))?;
    }
    Ok(())
}

/// Gives the nodes what is known of them.
fn fill_nodes(
    alloc: Global,
    nodes: &mut Vec<Node>,
    graph: &Graph,
    order: &Order,
) -> Result<(), AllocError> {
    add_ways(alloc, nodes, graph, order)?;
    add_arms(alloc, nodes, graph, order)?;
    add_classes(alloc, nodes, graph, order)?;
    add_places(alloc, nodes, graph, order)
}

/// The nodes that are reached, the nearest to the starts first.
fn order_of(alloc: Global, graph: &Graph, starts: &[u32]) -> Result<Order, AllocError> {
    let targets = targets_of(alloc, graph)?;
    let mut order = Order {
        nodes: Vec::new(alloc),
        places: Vec::new(alloc),
    };
    order.places.resize(graph.len(), None)?;
    reach_all(&mut order, starts)?;
    for place in 0..graph.len() {
        let Some(node) = order.nodes.get(place).copied() else {
            break;
        };
        if let Some(targets) = targets.get(node as usize) {
            reach_all(&mut order, targets)?;
        }
    }
    Ok(order)
}

/// Adds these nodes at the end.
fn reach_all(order: &mut Order, nodes: &[u32]) -> Result<(), AllocError> {
    for node in nodes {
        order.reach(*node)?;
    }
    Ok(())
}

/// A node with no ways on yet.
fn empty_node(alloc: Global, what: What, held: u32) -> Node {
    Node {
        what,
        held,
        ways: Vec::new(alloc),
        arms: Vec::new(alloc),
        by_class: [
            Vec::new(alloc),
            Vec::new(alloc),
            Vec::new(alloc),
            Vec::new(alloc),
        ],
        places: Vec::new(alloc),
    }
}

/// What a thread does at a node.
fn what_of(tables: &Tables, spot: Spot, is_wait: bool) -> Result<What, AllocError> {
    Ok(match spot {
        Spot::After { deed, .. } => What::After {
            reaped: if is_wait { None } else { reaped_in(deed) },
            is_wait,
        },
        Spot::Wait { .. } => What::Wait,
        Spot::Take { pool, .. } => What::Take { pool },
        Spot::Send { list, submit } => What::Send {
            requests: Vec::from_slice(tables.alloc, tables.requests(list))?,
            submit,
        },
        Spot::Submit { submit, .. } => What::Submit(submit),
        Spot::Put { pool, thing, .. } => What::Put { pool, thing },
        Spot::Fill { buffer, .. } => What::Fill(buffer),
        Spot::Load { buffer, .. } => What::Load(buffer),
        Spot::Seen { token, .. } => What::Seen(token),
        Spot::End => What::End,
    })
}

/// The token of a request that was reaped.
fn reaped_in(deed: Deed) -> Option<u32> {
    match deed {
        Deed::Reaped(token) => Some(token),
        _ => None,
    }
}

/// Adds the ways. What only merged waits lead to is tried again by them, and not by itself.
fn add_ways(
    alloc: Global,
    nodes: &mut Vec<Node>,
    graph: &Graph,
    order: &Order,
) -> Result<(), AllocError> {
    let again = again_of(alloc, graph, order)?;
    let mut rows = Vec::new(alloc);
    for ((from, to), passed) in graph.ways.iter() {
        let is_kept = from != to || again.get(*from as usize).copied() != Some(false);
        if let (true, Some(from), Some(to)) = (is_kept, order.place(*from), order.place(*to)) {
            rows.push((from, to, passed.is_unlocked, passed.count))?;
        }
    }
    rows.sort_unstable();
    for (from, to, is_unlocked, count) in rows {
        let way = Way {
            to,
            is_unlocked,
            count,
        };
        add_way(nodes, from, way)?;
    }
    Ok(())
}

/// Of each node whether it is tried again by itself: something else than a merged wait leads to it.
fn again_of(alloc: Global, graph: &Graph, order: &Order) -> Result<Vec<bool>, AllocError> {
    let mut again: Vec<bool> = Vec::new(alloc);
    again.resize(graph.len(), false)?;
    for ((from, to), _) in graph.ways.iter() {
        if order.place(*from).is_some() && graph.waits.contains(from) == (from == to) {
            if let Some(flag) = again.get_mut(*to as usize) {
                *flag = true;
            }
        }
    }
    Ok(again)
}

/// Adds a way.
fn add_way(nodes: &mut Vec<Node>, node: u32, way: Way) -> Result<(), AllocError> {
    if let Some(node) = nodes.get_mut(node as usize) {
        node.ways.push(way)?;
    }
    Ok(())
}

/// Adds the arms.
fn add_arms(
    alloc: Global,
    nodes: &mut Vec<Node>,
    graph: &Graph,
    order: &Order,
) -> Result<(), AllocError> {
    let mut rows = Vec::new(alloc);
    for (node, label) in graph.arms.keys() {
        rows.push((*node, *label))?;
    }
    rows.sort_unstable();
    for (node, label) in rows {
        if let (Some(place), Some(led)) = (order.place(node), graph.arms.get(&(node, label))) {
            add_arm(nodes, order, place, label, *led)?;
        }
    }
    Ok(())
}

/// Adds an arm.
fn add_arm(
    nodes: &mut Vec<Node>,
    order: &Order,
    node: u32,
    label: u32,
    led: Led,
) -> Result<(), AllocError> {
    let (seen, is_early) = (led.seen, led.is_early);
    let Some(to) = order.place(led.to) else {
        return Ok(());
    };
    if let Some(node) = nodes.get_mut(node as usize) {
        node.arms.push(Arm {
            label,
            to,
            seen,
            is_early,
        })?;
    }
    Ok(())
}

/// Adds to which nodes the classes of completions went on.
fn add_classes(
    alloc: Global,
    nodes: &mut Vec<Node>,
    graph: &Graph,
    order: &Order,
) -> Result<(), AllocError> {
    let mut rows = Vec::new(alloc);
    for (node, class, to) in graph.classes.iter() {
        let places = (order.place(*node), order.place(*to));
        if let (false, (Some(node), Some(to))) = (graph.waits.contains(node), places) {
            rows.push((node, *class, to))?;
        }
    }
    rows.sort_unstable();
    for (node, class, to) in rows {
        add_class(nodes, node, class, to)?;
    }
    Ok(())
}

/// Adds a node to which a class went on.
fn add_class(nodes: &mut Vec<Node>, node: u32, class: u32, to: u32) -> Result<(), AllocError> {
    let Some(node) = nodes.get_mut(node as usize) else {
        return Ok(());
    };
    if let Some(list) = node.by_class.get_mut(class as usize) {
        list.push(to)?;
    }
    Ok(())
}

/// Adds the places in C.
fn add_places(
    alloc: Global,
    nodes: &mut Vec<Node>,
    graph: &Graph,
    order: &Order,
) -> Result<(), AllocError> {
    let mut rows = Vec::new(alloc);
    for (node, place) in graph.places.iter() {
        if let Some(node) = order.place(*node) {
            rows.push((node, *place))?;
        }
    }
    rows.sort_unstable();
    for (node, place) in rows {
        add_place(nodes, node, place)?;
    }
    Ok(())
}

/// Adds a place in C.
fn add_place(nodes: &mut Vec<Node>, node: u32, place: u32) -> Result<(), AllocError> {
    if let Some(node) = nodes.get_mut(node as usize) {
        node.places.push(place)?;
    }
    Ok(())
}
