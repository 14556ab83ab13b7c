//! How a thread goes on from a node that leads to several.

use crate::chains::put_chain;
use crate::graph::add_new;
use crate::joins::join;
use crate::piece::{Head, Line, Piece};
use crate::source::Plan;
use crate::tasks::{Task, Tasks};
use crate::turns::add_loop;
use crate::work::Work;
use rc_machine::machine::What;
use std::alloc::AllocError;

/// Adds how a thread goes on from a node.
pub fn put_next(plan: Plan<'_>, work: &mut Work, node: u32, scope: u32) -> Result<(), AllocError> {
    put_ways(plan, work, plan.graph.next(node), scope)
}

/// Adds that a thread goes on to one of these nodes.
pub fn put_ways(
    plan: Plan<'_>,
    work: &mut Work,
    nodes: &[u32],
    scope: u32,
) -> Result<(), AllocError> {
    if let [node] = nodes {
        return work.plan(&[Task::Node { node: *node, scope }]);
    }
    let order = order_of(plan, work, nodes, scope)?;
    match order.as_slice() {
        [node] if !plan.graph.is_take(*node) => work.plan(&[Task::Node { node: *node, scope }]),
        order if is_all_retried(plan, order) => put_tries(plan, work, order, scope),
        order => put_choice(plan, work, order, scope),
    }
}

// The nodes in the order in which they are tried: takes, what is done, waits, the end. Where the code falls to a node
// from which the thread only takes and waits, that isn't a choice.
fn order_of(
    plan: Plan<'_>,
    work: &Work,
    nodes: &[u32],
    scope: u32,
) -> Result<Vec<u32>, AllocError> {
    let mut order = Vec::new(plan.source.alloc);
    let has_tries = has_tries(plan, nodes);
    for rank in 0..4 {
        add_ranked(plan, &mut order, nodes, rank)?;
    }
    if has_tries {
        let mut kept = Vec::new(plan.source.alloc);
        add_kept(plan, work, &mut kept, &order, scope)?;
        return Ok(kept);
    }
    Ok(order)
}

fn add_ranked(
    plan: Plan<'_>,
    order: &mut Vec<u32>,
    nodes: &[u32],
    rank: u32,
) -> Result<(), AllocError> {
    for node in nodes {
        if rank_of(plan, *node) == rank {
            order.push(*node)?;
        }
    }
    Ok(())
}

// Adds those that are a choice where others are takes or waits.
fn add_kept(
    plan: Plan<'_>,
    work: &Work,
    kept: &mut Vec<u32>,
    nodes: &[u32],
    scope: u32,
) -> Result<(), AllocError> {
    for node in nodes {
        if !plan.graph.is_wait(*node) || !is_fall(work, *node, scope) {
            kept.push(*node)?;
        }
    }
    Ok(())
}

fn is_fall(work: &Work, node: u32, scope: u32) -> bool {
    match work.scopes.get(scope as usize) {
        Some(scope) => scope.falls.has(node),
        None => false,
    }
}

/// Whether the code ends at a node.
pub fn is_stop(work: &Work, node: u32, scope: u32) -> bool {
    match work.scopes.get(scope as usize) {
        Some(scope) => scope.stops.has(node),
        None => false,
    }
}

fn has_tries(plan: Plan<'_>, nodes: &[u32]) -> bool {
    for node in nodes {
        let rank = rank_of(plan, *node);
        if rank == 0 || rank == 2 {
            return true;
        }
    }
    false
}

fn rank_of(plan: Plan<'_>, node: u32) -> u32 {
    match plan.node(node) {
        Some(node) => match node.what {
            What::Take { .. } => 0,
            What::Wait => 2,
            _ => 1,
        },
        None => 3,
    }
}

// Whether all of them take, and try again.
fn is_all_retried(plan: Plan<'_>, nodes: &[u32]) -> bool {
    for node in nodes {
        if !plan.graph.is_take(*node) || !plan.graph.next(*node).contains(node) {
            return false;
        }
    }
    nodes.len() > 1
}

// Where the nodes lead, with each thing that they may take.
fn targets(plan: Plan<'_>, nodes: &[u32]) -> Result<Vec<u32>, AllocError> {
    let mut targets = Vec::new(plan.source.alloc);
    for node in nodes {
        add_targets(plan, &mut targets, *node)?;
    }
    Ok(targets)
}

fn add_targets(plan: Plan<'_>, targets: &mut Vec<u32>, number: u32) -> Result<(), AllocError> {
    match plan.node(number) {
        Some(node) if plan.graph.is_take(number) => {
            for arm in &node.arms {
                add_new(targets, arm.to)?;
            }
            Ok(())
        }
        _ => add_new(targets, number),
    }
}

// Where the ways from some nodes join, if that is no stop.
fn join_of(
    plan: Plan<'_>,
    work: &Work,
    targets: &[u32],
    scope: u32,
) -> Result<Option<u32>, AllocError> {
    let Some(around) = work.scopes.get(scope as usize) else {
        return Ok(None);
    };
    match join(plan.source.alloc, plan.graph, targets, around)? {
        Some(node) if !around.stops.has(node) => Ok(Some(node)),
        _ => Ok(None),
    }
}

// A scope that falls to a node too, if there is one.
fn falling(work: &mut Work, scope: u32, join: Option<u32>) -> Result<u32, AllocError> {
    let Some(node) = join else {
        return Ok(scope);
    };
    let Some(around) = work.scopes.get(scope as usize) else {
        return Ok(scope);
    };
    let inner = around.falling_to(node)?;
    work.add_scope(inner)
}

/// Adds a choice of these nodes, and what comes after it. A take of them is tried once.
pub fn put_choice(
    plan: Plan<'_>,
    work: &mut Work,
    nodes: &[u32],
    scope: u32,
) -> Result<(), AllocError> {
    let targets = targets(plan, nodes)?;
    let join = if targets.len() > 1 && !is_last_tried(plan, nodes) {
        join_of(plan, work, &targets, scope)?
    } else {
        None
    };
    let inner = falling(work, scope, join)?;
    let mut tasks = Tasks::new(plan.source.alloc);
    put_chain(plan, work, &mut tasks, nodes, inner)?;
    tasks.end()?;
    if let Some(node) = join {
        tasks.node(node, scope)?;
    }
    work.plan(&tasks.list)
}

// Whether the last of the nodes takes or waits: where nothing comes, the code falls through.
fn is_last_tried(plan: Plan<'_>, nodes: &[u32]) -> bool {
    match nodes.last() {
        Some(node) => matches!(rank_of(plan, *node), 0 | 2),
        None => false,
    }
}

// Adds a loop that tries some takes until one gets something.
fn put_tries(plan: Plan<'_>, work: &mut Work, nodes: &[u32], scope: u32) -> Result<(), AllocError> {
    let targets = targets(plan, nodes)?;
    let join = join_of(plan, work, &targets, scope)?;
    let inner = add_loop(plan, work, None, join, scope)?;
    let number = crate::marks::number_of(work.body.turns.len()).saturating_sub(1);
    let mut tasks = Tasks::new(plan.source.alloc);
    tasks.put(Piece::line(Line::Begin(number)))?;
    tasks.put(Piece::open(Head::Loop))?;
    put_chain(plan, work, &mut tasks, nodes, inner)?;
    tasks.end()?;
    tasks.add(Task::EndLoop(number))?;
    work.plan(&tasks.list)
}
