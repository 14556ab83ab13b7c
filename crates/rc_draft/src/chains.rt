//! A choice as a chain of tests.

use crate::choices::is_stop;
use crate::items::above;
use crate::piece::{Comment, Head, Piece, Pool, Test};
use crate::source::Plan;
use crate::tasks::{Task, Tasks};
use crate::work::Work;
use rc_machine::machine::{Node, What};
use std::alloc::AllocError;

/// Adds one test after another. A take that is the only node, or no stop, asks for each thing that it may take. Any
/// other node is taken freely, but the last.
pub fn put_chain(
    plan: Plan<'_>,
    work: &mut Work,
    tasks: &mut Tasks,
    nodes: &[u32],
    scope: u32,
) -> Result<(), AllocError> {
    for (place, node) in nodes.iter().enumerate() {
        let is_last = place.saturating_add(1) == nodes.len();
        let is_stopped = is_stop(work, *node, scope) && nodes.len() > 1;
        match plan.node(*node) {
            Some(what) if plan.graph.is_take(*node) && !is_stopped => {
                put_takes(plan, work, tasks, *node, what, scope)?
            }
            _ if is_last => tasks.node(*node, scope)?,
            _ => tasks.put_test(Test::Any, Task::Node { node: *node, scope })?,
        }
    }
    Ok(())
}

// Adds a test for each thing that may be taken.
fn put_takes(
    plan: Plan<'_>,
    work: &mut Work,
    tasks: &mut Tasks,
    number: u32,
    node: &Node,
    scope: u32,
) -> Result<(), AllocError> {
    let What::Take { pool } = node.what else {
        return Ok(());
    };
    let before = plan.items(number)?;
    let comment = work.body.comment(&node.places)?;
    for arm in &node.arms {
        let after = plan.items(arm.to)?;
        let items = above(plan.source.alloc, &after, &before)?;
        let list = work.body.lists.add(items)?;
        let piece = taken(pool, list, comment);
        let task = Task::Node {
            node: arm.to,
            scope,
        };
        tasks.put_if(piece, task)?;
    }
    Ok(())
}

fn taken(pool: u32, list: u32, comment: Comment) -> Piece {
    Piece::open(Head::If(Test::Take(Pool::Log(pool), list))).with(comment)
}
