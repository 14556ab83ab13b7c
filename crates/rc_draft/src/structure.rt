//! The code of a thread, written from its machine.

use crate::acts::put_act;
use crate::arms::put_wait;
use crate::choices::{put_choice, put_next};
use crate::component::is_looped;
use crate::graph::Graph;
use crate::marks::Marks;
use crate::piece::{Head, Piece};
use crate::results::{put_class, put_results};
use crate::scopes::{Ending, Scope};
use crate::source::{Plan, Source};
use crate::tasks::Task;
use crate::turns::{end_loop, leave, put_loop};
use crate::work::{Body, Work};
use rc_machine::machine::{Node, What};
use std::alloc::AllocError;

/// How many tasks are done for a thread at most.
const MOST: u32 = 4000;

/// How many nodes a machine has at most from which code is written.
const MOST_NODES: usize = 600;

/// How many pieces code has at most while it is written. Some go as blocks end.
const MOST_PIECES: usize = 2000;

/// The code of a thread that begins at a node of a machine, or none where that is too long.
pub fn structured(
    source: Source<'_>,
    nodes: &[Node],
    start: u32,
) -> Result<Option<Body>, AllocError> {
    if nodes.len() > MOST_NODES {
        return Ok(None);
    }
    let graph = Graph::of(source.alloc, nodes)?;
    let mut scope = Scope::new(source.alloc, graph.len())?;
    scope.add(graph.end(), Ending::Falls)?;
    let mut work = Work::new(source.alloc, scope)?;
    let plan = Plan {
        source,
        graph: &graph,
    };
    begin(plan, &mut work, start)?;
    let is_done = work_off(plan, &mut work)?;
    Ok(if is_done { Some(work.body) } else { None })
}

// Plans the code of a thread, in the locks that it never releases: what it does before its first loop and needs none is
// before them.
fn begin(plan: Plan<'_>, work: &mut Work, start: u32) -> Result<(), AllocError> {
    let Some(locks) = plan.source.guards.around() else {
        return work.plan(&[Task::Node {
            node: start,
            scope: 0,
        }]);
    };
    let node = put_unlocked(plan, work, start)?;
    work.plan(&[
        Task::Put(Piece::open(Head::Lock(locks))),
        Task::Node { node, scope: 0 },
        Task::Put(Piece::close()),
    ])
}

// Adds what a thread does before its first loop and without a lock. The node that comes then.
fn put_unlocked(plan: Plan<'_>, work: &mut Work, start: u32) -> Result<u32, AllocError> {
    let none = Marks::new(plan.source.alloc, plan.graph.len())?;
    let mut number = start;
    for _turn in 0..plan.graph.len() {
        let (Some(node), [next]) = (plan.node(number), plan.graph.next(number)) else {
            break;
        };
        if !is_lock_free(node) || is_looped(plan.source.alloc, plan.graph, number, &none)? {
            break;
        }
        put_act(plan, &mut work.body, number, node, false)?;
        number = *next;
    }
    Ok(number)
}

fn is_lock_free(node: &Node) -> bool {
    matches!(
        node.what,
        What::After { .. } | What::Put { .. } | What::Fill(_) | What::Load(_)
    )
}

// Does the tasks. Whether all are done.
fn work_off(plan: Plan<'_>, work: &mut Work) -> Result<bool, AllocError> {
    for _turn in 0..MOST {
        let Some(task) = work.tasks.pop() else {
            return Ok(!work.is_given_up);
        };
        if work.is_given_up || work.body.code.pieces.len() > MOST_PIECES {
            break;
        }
        put_task(plan, work, task)?;
    }
    Ok(false)
}

fn put_task(plan: Plan<'_>, work: &mut Work, task: Task) -> Result<(), AllocError> {
    match task {
        Task::Put(piece) => work.body.add(piece),
        Task::Node { node, scope } => put_node(plan, work, node, scope),
        Task::Body { node, scope } => put_body(plan, work, node, scope),
        Task::Class { node, class, scope } => put_class(plan, work, node, class, scope),
        Task::EndLoop(number) => end_loop(plan, work, number),
    }
}

// What a thread does from a node on.
fn put_node(plan: Plan<'_>, work: &mut Work, node: u32, scope: u32) -> Result<(), AllocError> {
    let Some(around) = work.scopes.get(scope as usize) else {
        return Ok(());
    };
    match around.ending(node) {
        Some(Ending::Falls) => Ok(()),
        Some(Ending::Leaves(number)) => leave(work, number, node),
        None if is_looped(plan.source.alloc, plan.graph, node, &around.stops)? => {
            put_loop(plan, work, node, scope)
        }
        None => put_body(plan, work, node, scope),
    }
}

// The same, where its loop is begun.
fn put_body(plan: Plan<'_>, work: &mut Work, number: u32, scope: u32) -> Result<(), AllocError> {
    let Some(node) = plan.node(number) else {
        return Ok(());
    };
    match node.what {
        What::Wait => put_wait(plan, work, number, scope),
        What::Take { .. } => put_choice(plan, work, &[number], scope),
        What::After { .. } => put_results(plan, work, number, scope),
        _ => {
            let is_in_arm = work.is_in_arm(scope);
            put_act(plan, &mut work.body, number, node, is_in_arm)?;
            put_next(plan, work, number, scope)
        }
    }
}
