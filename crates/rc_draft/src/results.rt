//! What a thread does after a completion, by its result.

use crate::choices::put_ways;
use crate::joins::join;
use crate::piece::{Compared, Piece, Relation, Test};
use crate::source::Plan;
use crate::tasks::{Task, Tasks};
use crate::work::Work;
use rc_machine::machine::{Node, What};
use rc_replay::replayed::{Kind, Token};
use std::alloc::AllocError;

/// How many bytes a request of a model moves at most.
pub const MOST_BYTES: u32 = 4096;

/// Adds how a thread goes on, with tests of the result where that says it.
pub fn put_results(
    plan: Plan<'_>,
    work: &mut Work,
    number: u32,
    scope: u32,
) -> Result<(), AllocError> {
    let next = plan.graph.next(number);
    let Some(node) = plan.node(number) else {
        return Ok(());
    };
    let steps = steps_of(plan, node)?;
    let (
        What::After {
            reaped: Some(token),
            ..
        },
        true,
    ) = (&node.what, steps.len() > 1)
    else {
        return put_ways(plan, work, next, scope);
    };
    let Some(token) = plan.source.token(*token) else {
        return put_ways(plan, work, next, scope);
    };
    put_tests(plan, work, number, *token, &steps, scope)
}

// The classes, from the largest results to the smallest, at which the thread goes on in another way than at the next
// larger one that was seen: each by the smallest class that goes on like it.
fn steps_of(plan: Plan<'_>, node: &Node) -> Result<Vec<u32>, AllocError> {
    let mut steps: Vec<u32> = Vec::new(plan.source.alloc);
    for class in 0..4 {
        let nodes = class_nodes(node, class);
        let is_like = match steps.last() {
            Some(last) => class_nodes(node, *last) == nodes,
            None => false,
        };
        if is_like {
            let _ = steps.pop();
        }
        if !nodes.is_empty() {
            steps.push(class)?;
        }
    }
    Ok(steps)
}

fn class_nodes(node: &Node, class: u32) -> &[u32] {
    match node.by_class.get(class as usize) {
        Some(nodes) => nodes,
        None => &[],
    }
}

fn put_tests(
    plan: Plan<'_>,
    work: &mut Work,
    node: u32,
    token: Token,
    steps: &[u32],
    scope: u32,
) -> Result<(), AllocError> {
    let next = plan.graph.next(node);
    let Some(around) = work.scopes.get(scope as usize) else {
        return Ok(());
    };
    let join = join(plan.source.alloc, plan.graph, next, around)?;
    let mut inner = scope;
    if let Some(node) = join {
        let falling = around.falling_to(node)?;
        inner = work.add_scope(falling)?;
    }
    let mut tasks = Tasks::new(plan.source.alloc);
    add_tests(&mut tasks, node, token, steps, inner)?;
    tasks.end()?;
    if let Some(node) = join {
        tasks.node(node, scope)?;
    }
    work.plan(&tasks.list)
}

fn add_tests(
    tasks: &mut Tasks,
    node: u32,
    token: Token,
    steps: &[u32],
    scope: u32,
) -> Result<(), AllocError> {
    for (place, class) in steps.iter().enumerate() {
        let task = Task::Class {
            node,
            class: *class,
            scope,
        };
        if place.saturating_add(1) == steps.len() {
            tasks.add(task)?;
        } else {
            tasks.put_if(Piece::test(test_of(token, *class)), task)?;
        }
    }
    Ok(())
}

/// Asks whether a result is of a class, or larger.
pub fn test_of(token: Token, class: u32) -> Test {
    let (relation, number) = match class {
        0 => full(token),
        1 => (Relation::Greater, 0),
        _ => (Relation::AtLeast, 0),
    };
    Test::Compare(Compared::Result, relation, number)
}

fn full(token: Token) -> (Relation, u32) {
    match token.kind {
        Kind::Other => (Relation::AtLeast, 0),
        Kind::Read | Kind::Write => (Relation::Equal, most_len(token)),
        Kind::Fsync { .. } | Kind::Nop => (Relation::Equal, 0),
    }
}

/// How many bytes a full request of a token moves in a model: as many for each of its requests.
pub fn most_len(token: Token) -> u32 {
    let mut most = token.len;
    for other in token.others {
        if let Some(request) = other {
            most = most.max(request.len);
        }
    }
    most.min(MOST_BYTES)
}

/// Adds how a thread goes on after a completion of a class.
pub fn put_class(
    plan: Plan<'_>,
    work: &mut Work,
    number: u32,
    class: u32,
    scope: u32,
) -> Result<(), AllocError> {
    let Some(node) = plan.node(number) else {
        return Ok(());
    };
    put_ways(plan, work, class_nodes(node, class), scope)
}
