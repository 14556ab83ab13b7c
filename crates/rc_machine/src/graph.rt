//! The states of a group of threads while its machine is made: tables by the numbers of nodes.

use crate::holdings::number;
use crate::key::{Key, Spot};
use indexmap::{IndexMap, IndexSet};
use std::alloc::{AllocError, Global};

/// What was seen of a way.
#[derive(Clone, Copy)]
pub struct Passed {
    pub is_unlocked: bool,
    pub count: u32,
}

/// Where an arm leads, and which classes of completions it was seen with.
#[derive(Clone, Copy)]
pub struct Led {
    pub to: u32,
    pub seen: [bool; 4],
    /// The completion is only looked at, and taken away later.
    pub is_early: bool,
}

/// Ways, from a node to a node.
pub type Ways = IndexMap<(u32, u32), Passed>;

/// Arms, by a node and a label.
pub type Arms = IndexMap<(u32, u32), Led>;

/// Nodes by their keys, and what is known of them.
#[derive(Drop)]
pub struct Graph {
    pub keys: IndexSet<Key>,
    /// Nodes from which the thread only takes and waits.
    pub waits: IndexSet<u32>,
    pub ways: Ways,
    pub arms: Arms,
    /// A node behind a completion, the place of a class, and a node to which it went on.
    pub classes: IndexSet<(u32, u32, u32)>,
    /// A node, and a place in C.
    pub places: IndexSet<(u32, u32)>,
}

impl Graph {
    /// No nodes.
    pub fn new(alloc: Global) -> Graph {
        Graph {
            keys: IndexSet::new(alloc),
            waits: IndexSet::new(alloc),
            ways: IndexMap::new(alloc),
            arms: IndexMap::new(alloc),
            classes: IndexSet::new(alloc),
            places: IndexSet::new(alloc),
        }
    }

    /// How many nodes there are.
    pub fn len(&self) -> usize {
        self.keys.len()
    }

    /// The node with a key.
    pub fn node(&mut self, key: Key) -> Result<u32, AllocError> {
        Ok(number(self.keys.insert_full(key)?.0))
    }

    /// The key of a node.
    pub fn key(&self, node: u32) -> Option<Key> {
        self.keys.get_index(node as usize).copied()
    }

    /// Whether a node has done something, and chooses how it goes on.
    pub fn is_after(&self, node: u32) -> bool {
        matches!(
            self.key(node),
            Some(Key {
                spot: Spot::After { .. },
                ..
            })
        )
    }

    /// Whether a node takes or waits.
    pub fn tries(&self, node: u32) -> bool {
        match self.key(node) {
            Some(key) => matches!(key.spot, Spot::Wait { .. } | Spot::Take { .. }),
            None => false,
        }
    }

    /// Whether the thread unlocks on a way.
    pub fn is_unlocked(&self, from: u32, to: u32) -> bool {
        match self.ways.get(&(from, to)) {
            Some(passed) => passed.is_unlocked,
            None => false,
        }
    }

    /// A way, seen so often.
    pub fn pass(&mut self, from: u32, to: u32, passed: Passed) -> Result<(), AllocError> {
        add_way(&mut self.ways, (from, to), passed)
    }

    /// A way that wasn't seen itself.
    pub fn link(&mut self, from: u32, to: u32, is_unlocked: bool) -> Result<(), AllocError> {
        self.pass(
            from,
            to,
            Passed {
                is_unlocked,
                count: 0,
            },
        )
    }

    /// An arm. One that is there leads where it led.
    pub fn lead(&mut self, node: u32, label: u32, led: Led) -> Result<(), AllocError> {
        let new = match self.arms.get(&(node, label)) {
            Some(old) => Led {
                seen: either(old.seen, led.seen),
                ..*old
            },
            None => led,
        };
        self.arms.insert((node, label), new)?;
        Ok(())
    }

    /// A node to which a class of completions went on.
    pub fn go_on(&mut self, node: u32, class: u32, to: u32) -> Result<(), AllocError> {
        self.classes.insert((node, class, to))?;
        Ok(())
    }

    /// A place of a node.
    pub fn stand(&mut self, node: u32, place: u32) -> Result<(), AllocError> {
        self.places.insert((node, place))?;
        Ok(())
    }
}

/// Adds what was seen of a way.
pub fn add_way(ways: &mut Ways, ends: (u32, u32), passed: Passed) -> Result<(), AllocError> {
    let new = match ways.get(&ends) {
        Some(old) => Passed {
            is_unlocked: old.is_unlocked || passed.is_unlocked,
            count: old.count.saturating_add(passed.count),
        },
        None => passed,
    };
    ways.insert(ends, new)?;
    Ok(())
}

/// What is in one of them or the other.
fn either(one: [bool; 4], other: [bool; 4]) -> [bool; 4] {
    [
        one[0] || other[0],
        one[1] || other[1],
        one[2] || other[2],
        one[3] || other[3],
    ]
}

/// The flags of one class.
pub fn seen_with(class: Option<u32>) -> [bool; 4] {
    [
        class == Some(0),
        class == Some(1),
        class == Some(2),
        class == Some(3),
    ]
}

/// To which nodes each node leads, in order.
pub fn targets_of(alloc: Global, graph: &Graph) -> Result<Vec<Vec<u32>>, AllocError> {
    let mut rows = Vec::new(alloc);
    for ((from, to), _) in graph.ways.iter() {
        rows.push((*from, *to))?;
    }
    by_node(alloc, graph.len(), rows)
}

/// The second numbers of pairs by the first ones, in order.
pub fn by_node(
    alloc: Global,
    len: usize,
    mut rows: Vec<(u32, u32)>,
) -> Result<Vec<Vec<u32>>, AllocError> {
    rows.sort_unstable();
    let mut lists = empty_lists(alloc, len)?;
    for (node, value) in rows {
        add_to(&mut lists, node, value)?;
    }
    Ok(lists)
}

/// So many empty lists.
pub fn empty_lists<T: Drop>(alloc: Global, len: usize) -> Result<Vec<Vec<T>>, AllocError> {
    let mut lists = Vec::new(alloc);
    for _ in 0..len {
        lists.push(Vec::new(alloc))?;
    }
    Ok(lists)
}

/// Adds to the list of a node.
pub fn add_to<T: Drop>(lists: &mut Vec<Vec<T>>, node: u32, value: T) -> Result<(), AllocError> {
    if let Some(list) = lists.get_mut(node as usize) {
        list.push(value)?;
    }
    Ok(())
}
