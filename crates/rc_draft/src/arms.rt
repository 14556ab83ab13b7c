//! Peeks, and what is done in their arms.

use crate::component::{is_looped, reached};
use crate::graph::add_new;
use crate::joins::join;
use crate::piece::{Comment, Head, Line, Piece, Pool, Test};
use crate::scopes::Scope;
use crate::source::Plan;
use crate::tasks::{Task, Tasks};
use crate::turns::begin_loop;
use crate::work::Work;
use rc_machine::machine::{Arm, Node, What};
use rc_replay::replayed::Kind;
use std::alloc::AllocError;

/// What an arm does with its completion.
#[derive(Clone, Copy)]
enum Manner {
    /// All that is done up to the stops of a scope.
    Here(u32),
    /// It leaves the loop around the peek.
    Breaks,
    /// What came is put into the thread's own pool, and dealt with after the peek.
    Aside,
}

/// Adds a peek, and what is done with the completions.
pub fn put_wait(
    plan: Plan<'_>,
    work: &mut Work,
    number: u32,
    scope: u32,
) -> Result<(), AllocError> {
    let Some(node) = plan.node(number) else {
        return Ok(());
    };
    let Some(around) = work.scopes.get(scope as usize) else {
        return Ok(());
    };
    if is_fitting(plan, number, node, around)? {
        let mut inner = around.copied()?;
        inner.is_in_arm = true;
        let inner = work.add_scope(inner)?;
        let mut tasks = Tasks::new(plan.source.alloc);
        put_peek(plan, work, &mut tasks, node, Manner::Here(inner))?;
        return work.plan(&tasks.list);
    }
    let is_retried = plan.graph.next(number).contains(&number);
    if is_retried && put_waiting(plan, work, number, node, scope)? {
        return Ok(());
    }
    if has_early(node) {
        work.is_given_up = true;
        return Ok(());
    }
    match node.arms.as_slice() {
        [arm] if is_retried => put_awaited(plan, work, node, *arm, scope),
        _ => put_aside(plan, work, node, scope),
    }
}

// Whether what comes is used before it is seen: it has to be seen in its arm.
fn has_early(node: &Node) -> bool {
    for arm in &node.arms {
        if arm.is_early {
            return true;
        }
    }
    false
}

// Where the arms lead.
fn afters(plan: Plan<'_>, node: &Node) -> Result<Vec<u32>, AllocError> {
    let mut afters = Vec::new(plan.source.alloc);
    for arm in &node.arms {
        add_new(&mut afters, arm.to)?;
    }
    Ok(afters)
}

// Whether each arm can do all that comes up to the stops of a scope.
fn is_fitting(plan: Plan<'_>, number: u32, node: &Node, scope: &Scope) -> Result<bool, AllocError> {
    for arm in &node.arms {
        if !is_arm_fitting(plan, number, *arm, scope)? {
            return Ok(false);
        }
    }
    Ok(true)
}

fn is_arm_fitting(
    plan: Plan<'_>,
    number: u32,
    arm: Arm,
    scope: &Scope,
) -> Result<bool, AllocError> {
    let is_kept = plan.source.guards.is_peek_kept();
    if !is_kept && !scope.stops.has(arm.to) && plan.graph.is_unlocked(number, arm.to) {
        return Ok(false);
    }
    let seen = reached(plan.source.alloc, plan.graph, &[arm.to], &scope.stops)?;
    for node in 0..plan.graph.end() {
        let is_inside = seen.has(node) && !scope.stops.has(node);
        if is_inside && !is_node_fitting(plan, node, scope)? {
            return Ok(false);
        }
    }
    Ok(true)
}

// Whether a node may stand in an arm.
fn is_node_fitting(plan: Plan<'_>, number: u32, scope: &Scope) -> Result<bool, AllocError> {
    let Some(node) = plan.node(number) else {
        return Ok(true);
    };
    let is_plain = match node.what {
        What::Wait => false,
        What::Send { submit, .. } => plan.source.is_sent_in_arm(submit),
        What::Submit(submit) => plan.source.is_sent_in_arm(submit),
        _ => true,
    };
    let is_left = !plan.source.guards.is_peek_kept() && is_unlocked_inside(plan, number, scope);
    if !is_plain || is_left {
        return Ok(false);
    }
    Ok(!is_looped(plan.source.alloc, plan.graph, number, &scope.stops)?)
}

// Whether the thread unlocks on its way from a node to another inside.
fn is_unlocked_inside(plan: Plan<'_>, number: u32, scope: &Scope) -> bool {
    for to in plan.graph.next(number) {
        if !scope.stops.has(*to) && plan.graph.is_unlocked(number, *to) {
            return true;
        }
    }
    false
}

// Adds a peek, with an arm for each token.
fn put_peek(
    plan: Plan<'_>,
    work: &mut Work,
    tasks: &mut Tasks,
    node: &Node,
    manner: Manner,
) -> Result<(), AllocError> {
    let locks = plan.source.guards.of_peek();
    let comment = work.body.comment(&node.places)?;
    if let Some(locks) = locks {
        tasks.put(Piece::open(Head::Lock(locks)))?;
    }
    tasks.put(Piece::open(Head::Peek).with(comment))?;
    for arm in &node.arms {
        put_arm(plan, work, tasks, *arm, comment, manner)?;
    }
    for head in [Head::Other, Head::Nothing] {
        tasks.put(Piece::open(head))?;
        tasks.put(Piece::close())?;
    }
    tasks.put(Piece::close())?;
    if locks.is_some() {
        tasks.put(Piece::close())?;
    }
    Ok(())
}

fn put_arm(
    plan: Plan<'_>,
    work: &mut Work,
    tasks: &mut Tasks,
    arm: Arm,
    comment: Comment,
    manner: Manner,
) -> Result<(), AllocError> {
    let is_twice = match plan.source.token(arm.label) {
        Some(token) => token.is_peeked_twice,
        None => false,
    };
    tasks.put(Piece::open(Head::Case(arm.label)).with(unseen(plan, arm)))?;
    if is_twice {
        tasks.put(Piece::test(Test::Any))?;
    }
    let line = if arm.is_early { Line::Got } else { Line::Seen };
    tasks.put(Piece::line(line).with(comment))?;
    put_manner(plan, work, tasks, arm, manner)?;
    if is_twice {
        tasks.put(Piece::close())?;
    }
    tasks.put(Piece::close())
}

fn put_manner(
    plan: Plan<'_>,
    work: &mut Work,
    tasks: &mut Tasks,
    arm: Arm,
    manner: Manner,
) -> Result<(), AllocError> {
    match manner {
        Manner::Here(scope) => tasks.node(arm.to, scope),
        Manner::Breaks => tasks.put(Piece::line(Line::Break)),
        Manner::Aside => {
            let items = plan.source.request_items(arm.label)?;
            let list = work.body.own_list(items)?;
            tasks.put(Piece::line(Line::Put(Pool::Own, list)))
        }
    }
}

// What no log shows of a completion.
fn unseen(plan: Plan<'_>, arm: Arm) -> Comment {
    let [full, short, zero, negative] = arm.seen;
    let is_moving = match plan.source.token(arm.label) {
        Some(token) => matches!(token.kind, Kind::Read | Kind::Write),
        None => false,
    };
    let less = is_moving && !short && !zero;
    if (full || short || zero || negative) && (less || !negative) {
        Comment::Unseen {
            errno: !negative,
            less,
        }
    } else {
        Comment::Nothing
    }
}

// Adds a loop that waits for the only completion that may come, and what comes after it.
fn put_awaited(
    plan: Plan<'_>,
    work: &mut Work,
    node: &Node,
    arm: Arm,
    scope: u32,
) -> Result<(), AllocError> {
    let mut tasks = Tasks::new(plan.source.alloc);
    tasks.put(Piece::open(Head::Loop))?;
    put_peek(plan, work, &mut tasks, node, Manner::Breaks)?;
    tasks.put(Piece::close())?;
    tasks.node(arm.to, scope)?;
    work.plan(&tasks.list)
}

// Adds a loop around the peek that ends where its arms join, and what comes from there on, if the arms can do all up to
// there. Whether they can.
fn put_waiting(
    plan: Plan<'_>,
    work: &mut Work,
    number: u32,
    node: &Node,
    scope: u32,
) -> Result<bool, AllocError> {
    let Some(around) = work.scopes.get(scope as usize) else {
        return Ok(false);
    };
    let afters = afters(plan, node)?;
    let to = match join(plan.source.alloc, plan.graph, &afters, around)? {
        Some(to) if !around.stops.has(to) => to,
        _ => return Ok(false),
    };
    let inner = around.falling_to(to)?;
    if !is_fitting(plan, number, node, &inner)? {
        return Ok(false);
    }
    let task = Task::Body {
        node: number,
        scope,
    };
    begin_loop(plan, work, Some(number), Some(to), scope, task)?;
    Ok(true)
}

// Adds a peek whose completions are put aside, and what is done with each.
fn put_aside(plan: Plan<'_>, work: &mut Work, node: &Node, scope: u32) -> Result<(), AllocError> {
    let mut tasks = Tasks::new(plan.source.alloc);
    put_peek(plan, work, &mut tasks, node, Manner::Aside)?;
    for arm in &node.arms {
        let items = plan.source.request_items(arm.label)?;
        let list = work.body.own_list(items)?;
        let task = Task::Node {
            node: arm.to,
            scope,
        };
        tasks.put_test(Test::Take(Pool::Own, list), task)?;
    }
    tasks.end()?;
    work.plan(&tasks.list)
}
