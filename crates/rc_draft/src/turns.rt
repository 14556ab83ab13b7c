//! Loops.

use crate::component::component;
pub use crate::exits::end_loop;
use crate::graph::add_new;
use crate::joins::join;
use crate::piece::{Head, Line, Piece};
use crate::scopes::Ending;
use crate::source::Plan;
use crate::tasks::Task;
use crate::work::{Turn, Work};
use std::alloc::AllocError;

/// Adds a loop that begins at a node.
pub fn put_loop(plan: Plan<'_>, work: &mut Work, node: u32, scope: u32) -> Result<(), AllocError> {
    let exit = main_exit(plan, work, node, scope)?;
    begin_loop(
        plan,
        work,
        Some(node),
        exit,
        scope,
        Task::Body { node, scope },
    )
}

/// Adds a loop that falls to a node, and is left for another; in it is this task, in the loop's scope.
pub fn begin_loop(
    plan: Plan<'_>,
    work: &mut Work,
    node: Option<u32>,
    exit: Option<u32>,
    scope: u32,
    task: Task,
) -> Result<(), AllocError> {
    let inner = add_loop(plan, work, node, exit, scope)?;
    let number = crate::marks::number_of(work.body.turns.len()).saturating_sub(1);
    work.plan(&[
        Task::Put(Piece::line(Line::Begin(number))),
        Task::Put(Piece::open(Head::Loop)),
        in_scope(task, inner),
        Task::EndLoop(number),
    ])
}

// A task in another scope.
fn in_scope(task: Task, scope: u32) -> Task {
    match task {
        Task::Node { node, .. } => Task::Node { node, scope },
        Task::Body { node, .. } => Task::Body { node, scope },
        other => other,
    }
}

/// Adds a loop and its scope, whose number is the answer. Its tasks aren't planned.
pub fn add_loop(
    plan: Plan<'_>,
    work: &mut Work,
    node: Option<u32>,
    exit: Option<u32>,
    scope: u32,
) -> Result<u32, AllocError> {
    let alloc = plan.source.alloc;
    let turn = Turn::new(alloc, scope, exit)?;
    let number = work.add_turn(turn)?;
    let Some(around) = work.scopes.get(scope as usize) else {
        return Ok(scope);
    };
    let mut inner = around.in_loop(alloc, plan.graph.len(), node, number)?;
    if let Some(exit) = exit {
        inner.add(exit, Ending::Leaves(number))?;
    }
    work.add_scope(inner)
}

/// Adds that a loop is left for a node.
pub fn leave(work: &mut Work, number: u32, node: u32) -> Result<(), AllocError> {
    let Some(turn) = work.body.turns.get_mut(number as usize) else {
        return Ok(());
    };
    let exit = turn.exit(node)?;
    work.body.line(Line::Leave(number, exit))
}

// For which node the loop is left as a rule: what else it is left for leads there, or it is the one that is taken the
// most.
fn main_exit(
    plan: Plan<'_>,
    work: &Work,
    node: u32,
    scope: u32,
) -> Result<Option<u32>, AllocError> {
    let alloc = plan.source.alloc;
    let Some(around) = work.scopes.get(scope as usize) else {
        return Ok(None);
    };
    let nodes = component(alloc, plan.graph, node, &around.stops)?;
    let exits = exits_of(plan, &nodes)?;
    match exits.as_slice() {
        [] => return Ok(None),
        [only] => return Ok(Some(*only)),
        _ => {}
    }
    if let Some(node) = join(alloc, plan.graph, &exits, around)? {
        return Ok(Some(node));
    }
    Ok(most_taken(plan, &nodes, &exits))
}

// The nodes to which a loop's nodes lead, without its own.
fn exits_of(plan: Plan<'_>, nodes: &[u32]) -> Result<Vec<u32>, AllocError> {
    let mut exits = Vec::new(plan.source.alloc);
    for node in nodes {
        add_exits(&mut exits, nodes, plan.graph.next(*node))?;
    }
    Ok(exits)
}

fn add_exits(exits: &mut Vec<u32>, nodes: &[u32], next: &[u32]) -> Result<(), AllocError> {
    for node in next {
        if !nodes.contains(node) {
            add_new(exits, *node)?;
        }
    }
    Ok(())
}

// The exit that was taken the most. The end counts only where there is no other.
fn most_taken(plan: Plan<'_>, nodes: &[u32], exits: &[u32]) -> Option<u32> {
    let mut most: Option<(u32, u32)> = None;
    for exit in exits {
        let taken = taken(plan, nodes, *exit);
        let is_more = match most {
            Some((least, _)) => taken > least,
            None => true,
        };
        if is_more && *exit != plan.graph.end() {
            most = Some((taken, *exit));
        }
    }
    match most {
        Some((_, exit)) => Some(exit),
        None => exits.first().copied(),
    }
}

// How often an exit was taken.
fn taken(plan: Plan<'_>, nodes: &[u32], exit: u32) -> u32 {
    let mut taken = 0u32;
    for node in nodes {
        taken = taken.saturating_add(plan.graph.count(*node, exit));
    }
    taken
}
