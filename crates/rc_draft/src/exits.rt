//! What comes after a loop that is left in several ways.

use crate::items::{above, both};
use crate::marks::number_of;
use crate::piece::{Compared, Head, Line, Piece, Pool, Relation, Test};
use crate::source::Plan;
use crate::tasks::{Task, Tasks};
use crate::work::{Body, Turn, Work};
use rc_replay::replayed::Held;
use std::alloc::{AllocError, Global};

/// Adds the end of a loop, and what comes after it. What is held at all exits stays held; what else is held at one is
/// put into the thread's own pool there, and taken after the loop, which says for which exit the loop was left. Where
/// that doesn't say it, a variable does.
pub fn end_loop(plan: Plan<'_>, work: &mut Work, number: u32) -> Result<(), AllocError> {
    work.body.close()?;
    let Some(turn) = work.body.turns.get(number as usize) else {
        return Ok(());
    };
    let scope = turn.scope;
    let exits = turn.exits.clone()?;
    let puts = puts_of(plan, &mut work.body, &exits)?;
    let variable = variable_of(&mut work.body, &puts);
    let mut tasks = Tasks::new(plan.source.alloc);
    let turn = Turn {
        scope,
        exits,
        puts,
        variable,
    };
    put_exits(&mut tasks, &work.body, &turn)?;
    work.plan(&tasks.list)?;
    if let Some(place) = work.body.turns.get_mut(number as usize) {
        *place = turn;
    }
    Ok(())
}

// What is put at each exit.
fn puts_of(plan: Plan<'_>, body: &mut Body, exits: &[u32]) -> Result<Vec<u32>, AllocError> {
    let common = common_of(plan, exits)?;
    let mut puts = Vec::new(plan.source.alloc);
    for exit in exits {
        let list = put_of(plan, body, *exit, &common)?;
        puts.push(list)?;
    }
    Ok(puts)
}

fn put_of(plan: Plan<'_>, body: &mut Body, exit: u32, common: &[Held]) -> Result<u32, AllocError> {
    let items = plan.items(exit)?;
    let more = above(plan.source.alloc, &items, common)?;
    body.own_list(more)
}

// What is held at all exits, but for the end of the thread, where nothing need be.
fn common_of(plan: Plan<'_>, exits: &[u32]) -> Result<Vec<Held>, AllocError> {
    let mut common: Option<Vec<Held>> = None;
    for exit in exits {
        if *exit != plan.graph.end() {
            common = Some(less(plan, common, *exit)?);
        }
    }
    Ok(match common {
        Some(common) => common,
        None => Vec::new(plan.source.alloc),
    })
}

fn less(plan: Plan<'_>, common: Option<Vec<Held>>, exit: u32) -> Result<Vec<Held>, AllocError> {
    let items = plan.items(exit)?;
    match common {
        Some(common) => both(plan.source.alloc, &common, &items),
        None => Ok(items),
    }
}

// A new variable, where the same is put at two exits.
fn variable_of(body: &mut Body, puts: &[u32]) -> Option<u32> {
    for (place, list) in puts.iter().enumerate() {
        if is_later(puts, place, *list) {
            body.variables = body.variables.saturating_add(1);
            return Some(body.variables);
        }
    }
    None
}

// Whether a list comes again after a place.
fn is_later(puts: &[u32], place: usize, list: u32) -> bool {
    for (other, put) in puts.iter().enumerate() {
        if other > place && *put == list {
            return true;
        }
    }
    false
}

// Adds the ways on from the exits: those at which the most is put come first.
fn put_exits(tasks: &mut Tasks, body: &Body, turn: &Turn) -> Result<(), AllocError> {
    let order = order_of(*tasks.list.allocator(), body, &turn.puts)?;
    let Some((last, first)) = order.split_last() else {
        return Ok(());
    };
    for list in first {
        put_taken(tasks, turn, *list)?;
    }
    if !body.list(*last).is_empty() {
        put_awaited(tasks, *last)?;
    }
    put_same(tasks, turn, *last)?;
    for _ in first {
        tasks.put(Piece::close())?;
    }
    Ok(())
}

// Adds the ways on from the exits at which a list is put, under a test whether it was.
fn put_taken(tasks: &mut Tasks, turn: &Turn, list: u32) -> Result<(), AllocError> {
    tasks.put(Piece::test(Test::Take(Pool::Own, list)))?;
    put_same(tasks, turn, list)?;
    tasks.put(Piece::middle())
}

// Adds a loop that takes a list, which was put at all exits that are left.
fn put_awaited(tasks: &mut Tasks, list: u32) -> Result<(), AllocError> {
    tasks.put(Piece::open(Head::Loop))?;
    tasks.put(Piece::test(Test::Take(Pool::Own, list)))?;
    tasks.put(Piece::line(Line::Break))?;
    tasks.put(Piece::close())?;
    tasks.put(Piece::close())
}

// Adds the ways on from the exits at which a list is put: the variable says which it is, and the first is the rest.
fn put_same(tasks: &mut Tasks, turn: &Turn, list: u32) -> Result<(), AllocError> {
    let mut same = Tasks::new(*tasks.list.allocator());
    let mut rest: Option<u32> = None;
    for (place, put) in turn.puts.iter().enumerate() {
        if *put == list {
            add_way(&mut same, turn, rest, number_of(place))?;
            rest = Some(rest.unwrap_or(number_of(place)));
        }
    }
    let first = rest.and_then(|place| turn.exits.get(place as usize).copied());
    if let Some(node) = first {
        same.node(node, turn.scope)?;
    }
    same.end()?;
    for task in &same.list {
        tasks.add(*task)?;
    }
    Ok(())
}

// Adds the way on from an exit, unless it is the first of its list.
fn add_way(
    tasks: &mut Tasks,
    turn: &Turn,
    first: Option<u32>,
    exit: u32,
) -> Result<(), AllocError> {
    let (Some(_), Some(variable)) = (first, turn.variable) else {
        return Ok(());
    };
    let Some(node) = turn.exits.get(exit as usize).copied() else {
        return Ok(());
    };
    let test = Test::Compare(Compared::Exit(variable), Relation::Equal, exit);
    let scope = turn.scope;
    tasks.put_test(test, Task::Node { node, scope })
}

// The lists that are put, each once, those with the most parts first.
fn order_of(alloc: Global, body: &Body, puts: &[u32]) -> Result<Vec<u32>, AllocError> {
    let mut order: Vec<u32> = Vec::new(alloc);
    for list in puts {
        if !order.contains(list) {
            let size = size_of(body.list(*list));
            let place = place_of(body, &order, size).min(order.len());
            order.insert(place, *list)?;
        }
    }
    Ok(order)
}

// How many lists have at least as many parts.
fn place_of(body: &Body, order: &[u32], size: u32) -> usize {
    let mut place = 0usize;
    for list in order {
        if size_of(body.list(*list)) >= size {
            place = place.saturating_add(1);
        }
    }
    place
}

fn size_of(items: &[Held]) -> u32 {
    let mut size = 0u32;
    for held in items {
        size = size.saturating_add(held.count);
    }
    size
}
