//! Two completions that came in a row could have come the other way round.

use crate::close::MOST_NODES;
use crate::graph::{Graph, Led, seen_with};
use crate::holdings::Tables;
use crate::key::{Deed, Key, Spot};
use crate::lists::{Lists, wait_at};
use std::alloc::AllocError;

/// How many pairs of completions are looked at, at most.
const MOST_PAIRS: usize = 200_000;

/// How many requests may be out where more than completions in a row are swapped.
const MOST_OUT: usize = 4;

/// How often completions are swapped, at most.
const MOST_ROUNDS: usize = 4;

/// A completion that is taken at a node.
#[derive(Clone, Copy)]
pub struct Reaped {
    /// Where in C the thread waits for it.
    pub place: u32,
    pub node: u32,
    pub token: u32,
    /// The node behind it.
    pub after: u32,
    /// The place of its class.
    pub class: u32,
}

/// Two completions in a row, and the node to which the thread went on.
#[derive(Clone, Copy)]
struct Pair {
    first: Reaped,
    second: Reaped,
    end: u32,
}

/// Swaps completions that came in a row, where few requests are out until there is nothing more to swap.
pub fn swap(tables: &mut Tables, graph: &mut Graph) -> Result<(), AllocError> {
    for round in 0..MOST_ROUNDS {
        let old = graph.ways.len();
        swap_round(tables, graph, round == 0)?;
        if graph.ways.len() == old {
            break;
        }
    }
    Ok(())
}

/// Swaps completions that are in a row now.
fn swap_round(tables: &mut Tables, graph: &mut Graph, is_first: bool) -> Result<(), AllocError> {
    let lists = Lists::of(tables.alloc, graph)?;
    swap_all(tables, graph, &lists, is_first)
}

/// Swaps each completion with those behind it, in a first round also where many requests are out.
fn swap_all(
    tables: &mut Tables,
    graph: &mut Graph,
    lists: &Lists,
    is_first: bool,
) -> Result<(), AllocError> {
    let mut pairs: usize = 0;
    for row in 0..graph.arms.len() {
        if let Some(reaped) = reaped_in(graph, row) {
            let is_small = pairs <= MOST_PAIRS && graph.len() <= MOST_NODES;
            if is_small && may_swap(tables, graph, reaped.node, is_first) {
                swap_behind(tables, graph, lists, reaped, &mut pairs)?;
            }
        }
    }
    Ok(())
}

/// The completion of an arm, in a row of the table of arms. One that is only looked at there is none.
pub fn reaped_in(graph: &Graph, row: usize) -> Option<Reaped> {
    let ((node, token), led) = graph.arms.get_index(row)?;
    let place = wait_at(graph, *node)?;
    if led.is_early {
        return None;
    }
    Some(Reaped {
        place,
        node: *node,
        token: *token,
        after: led.to,
        class: 0,
    })
}

/// Whether few requests are out where the thread waits, or it is a first round.
fn may_swap(tables: &Tables, graph: &Graph, node: u32, is_first: bool) -> bool {
    match graph.key(node) {
        Some(key) => is_first || tables.count_out(key.held) <= MOST_OUT,
        None => false,
    }
}

/// Swaps a completion with those behind it.
fn swap_behind(
    tables: &mut Tables,
    graph: &mut Graph,
    lists: &Lists,
    reaped: Reaped,
    pairs: &mut usize,
) -> Result<(), AllocError> {
    for (class, next) in lists.classes(reaped.after) {
        if wait_at(graph, *next) == Some(reaped.place) {
            let class = *class;
            *pairs = pairs.saturating_add(lists.arms(*next).len());
            swap_arms(tables, graph, lists, Reaped { class, ..reaped }, *next)?;
        }
    }
    Ok(())
}

/// Swaps a completion with each that came at the next wait.
fn swap_arms(
    tables: &mut Tables,
    graph: &mut Graph,
    lists: &Lists,
    first: Reaped,
    next: u32,
) -> Result<(), AllocError> {
    let Some(key) = graph.key(first.node) else {
        return Ok(());
    };
    for (token, led) in lists.arms(next) {
        if tables.is_out(key.held, *token) {
            let second = Reaped {
                node: next,
                token: *token,
                after: led.to,
                ..first
            };
            swap_classes(tables, graph, lists, first, second)?;
        }
    }
    Ok(())
}

/// Swaps two completions for each way in which the thread went on.
fn swap_classes(
    tables: &mut Tables,
    graph: &mut Graph,
    lists: &Lists,
    first: Reaped,
    second: Reaped,
) -> Result<(), AllocError> {
    for (class, end) in lists.classes(second.after) {
        let pair = Pair {
            first,
            second: Reaped {
                class: *class,
                ..second
            },
            end: *end,
        };
        if goes_on(tables, graph, lists, pair)? {
            swap_pair(tables, graph, lists, pair)?;
        }
    }
    Ok(())
}

/// Whether the thread went on because both completions had come, as far as can be told: both moved all, or it didn't go
/// back to wait at the same place by one way alone.
fn goes_on(tables: &Tables, graph: &Graph, lists: &Lists, pair: Pair) -> Result<bool, AllocError> {
    if pair.first.class == 0 && pair.second.class == 0 {
        return Ok(true);
    }
    let stretch = lists.stretch(tables.alloc, graph, pair.first.place, pair.end)?;
    Ok(stretch.is_none())
}

/// Swaps two completions.
fn swap_pair(
    tables: &mut Tables,
    graph: &mut Graph,
    lists: &Lists,
    pair: Pair,
) -> Result<(), AllocError> {
    let (Some(key), Some(between), Some(end)) = (
        graph.key(pair.first.node),
        graph.key(pair.second.node),
        graph.key(pair.second.after),
    ) else {
        return Ok(());
    };
    let changes = tables.changes(between.held, end.held)?;
    match tables.changed(key.held, &changes)? {
        Some(held) => add_swapped(graph, lists, pair, held, end.held),
        None => Ok(()),
    }
}

/// Adds two completions the other way round. The thread holds the first amount between them, and the second one behind
/// them.
fn add_swapped(
    graph: &mut Graph,
    lists: &Lists,
    pair: Pair,
    between: u32,
    end: u32,
) -> Result<(), AllocError> {
    let place = pair.first.place;
    let wait = graph.node(Key {
        held: between,
        spot: Spot::Wait { place },
    })?;
    let first = Reaped {
        node: pair.first.node,
        after: graph.node(key_behind(between, pair.second.token, place))?,
        ..pair.second
    };
    let second = Reaped {
        node: wait,
        after: graph.node(key_behind(end, pair.first.token, place))?,
        ..pair.first
    };
    let unlocked = graph.is_unlocked(pair.first.after, pair.second.node);
    add_reaped(graph, first, wait, unlocked)?;
    let unlocked = graph.is_unlocked(pair.second.after, pair.end);
    add_reaped(graph, second, pair.end, unlocked)?;
    stand_alike(graph, lists, pair.second.node, wait)
}

/// The key of a node behind a completion.
pub fn key_behind(held: u32, token: u32, place: u32) -> Key {
    Key {
        held,
        spot: Spot::After {
            deed: Deed::Reaped(token),
            place,
        },
    }
}

/// Adds a completion, and how the thread goes on behind it.
fn add_reaped(
    graph: &mut Graph,
    reaped: Reaped,
    to: u32,
    is_unlocked: bool,
) -> Result<(), AllocError> {
    let led = Led {
        to: reaped.after,
        seen: seen_with(Some(reaped.class)),
        is_early: false,
    };
    graph.lead(reaped.node, reaped.token, led)?;
    graph.link(reaped.node, reaped.after, false)?;
    graph.link(reaped.node, reaped.node, false)?;
    graph.link(reaped.after, to, is_unlocked)?;
    graph.go_on(reaped.after, reaped.class, to)
}

/// Gives a node the places of another.
pub fn stand_alike(graph: &mut Graph, lists: &Lists, old: u32, new: u32) -> Result<(), AllocError> {
    for place in lists.places(old) {
        graph.stand(new, *place)?;
    }
    Ok(())
}
