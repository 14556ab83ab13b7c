//! What a thread does with a completion while another request is out, it does too when that one has come, and the other
//! way round.

use crate::close::MOST_NODES;
use crate::graph::{Graph, Led, seen_with};
use crate::holdings::{Change, Tables};
use crate::key::{Key, Spot};
use crate::lists::Lists;
use crate::swaps::{Reaped, key_behind, reaped_in, stand_alike};
use rc_replay::replayed::{Part, Replayed};
use std::alloc::{AllocError, Global};

/// How many completions are carried, at most.
const MOST_DEALT: usize = 1000;

/// How often completions are carried, at most.
const MOST_ROUNDS: usize = 4;

/// A completion, and the nodes behind it up to the next wait at the same place in C.
#[derive(Drop)]
struct Dealt {
    reaped: Reaped,
    stretch: Vec<u32>,
}

impl Dealt {
    /// The wait to which it leads.
    fn end(&self) -> u32 {
        self.stretch.last().copied().unwrap_or(self.reaped.node)
    }
}

/// What is known of the logs and of the graph.
#[derive(Clone, Copy)]
struct Ground<'a> {
    replayed: &'a Replayed,
    lists: &'a Lists,
    dealt: &'a [Dealt],
}

/// Carries completions to other waits, until there is nothing more to carry.
pub fn carry(
    tables: &mut Tables,
    graph: &mut Graph,
    replayed: &Replayed,
) -> Result<(), AllocError> {
    for _ in 0..MOST_ROUNDS {
        let old = graph.ways.len();
        carry_round(tables, graph, replayed)?;
        if graph.ways.len() == old {
            break;
        }
    }
    Ok(())
}

/// Carries completions that are there now.
fn carry_round(
    tables: &mut Tables,
    graph: &mut Graph,
    replayed: &Replayed,
) -> Result<(), AllocError> {
    let lists = Lists::of(tables.alloc, graph)?;
    let dealt = dealt_in(tables.alloc, graph, &lists)?;
    let ground = Ground {
        replayed,
        lists: &lists,
        dealt: &dealt,
    };
    carry_all(tables, graph, ground)
}

/// The completions behind which the thread goes back to wait at the same place.
fn dealt_in(alloc: Global, graph: &Graph, lists: &Lists) -> Result<Vec<Dealt>, AllocError> {
    let mut dealt = Vec::new(alloc);
    for row in 0..graph.arms.len() {
        if let Some(reaped) = reaped_in(graph, row) {
            add_dealt(alloc, graph, lists, &mut dealt, reaped)?;
        }
    }
    Ok(dealt)
}

/// Adds a completion, for each class.
fn add_dealt(
    alloc: Global,
    graph: &Graph,
    lists: &Lists,
    dealt: &mut Vec<Dealt>,
    reaped: Reaped,
) -> Result<(), AllocError> {
    for (class, first) in lists.classes(reaped.after) {
        let class = *class;
        if let Some(stretch) = lists.stretch(alloc, graph, reaped.place, *first)? {
            let reaped = Reaped { class, ..reaped };
            dealt.push(Dealt { reaped, stretch })?;
        }
    }
    Ok(())
}

/// Carries each completion over each other one that leads to its wait, or from it.
fn carry_all(tables: &mut Tables, graph: &mut Graph, ground: Ground<'_>) -> Result<(), AllocError> {
    if ground.dealt.len() > MOST_DEALT {
        return Ok(());
    }
    for over in ground.dealt {
        carry_over(tables, graph, ground, over)?;
    }
    Ok(())
}

/// Carries each completion over one other.
fn carry_over(
    tables: &mut Tables,
    graph: &mut Graph,
    ground: Ground<'_>,
    over: &Dealt,
) -> Result<(), AllocError> {
    for one in ground.dealt {
        if let (Some(node), true) = (across(one, over), graph.len() <= MOST_NODES) {
            carry_to(tables, graph, ground, one, node)?;
        }
    }
    Ok(())
}

/// The wait to which a completion is carried over another.
fn across(one: &Dealt, over: &Dealt) -> Option<u32> {
    if over.reaped.node == over.end() || over.reaped.token == one.reaped.token {
        None
    } else if over.end() == one.reaped.node {
        Some(over.reaped.node)
    } else if over.reaped.node == one.reaped.node {
        Some(over.end())
    } else {
        None
    }
}

/// Carries a completion to another wait, if its request is out there too, it wasn't seen there with this class, and what
/// follows it leads to a wait that is there.
fn carry_to(
    tables: &mut Tables,
    graph: &mut Graph,
    ground: Ground<'_>,
    one: &Dealt,
    node: u32,
) -> Result<(), AllocError> {
    let (Some(from), Some(to)) = (graph.key(one.reaped.node), graph.key(node)) else {
        return Ok(());
    };
    if !tables.is_out(to.held, one.reaped.token) || is_seen(ground.lists, node, one.reaped) {
        return Ok(());
    }
    let changes = tables.changes(from.held, to.held)?;
    let Some(keys) = changed_keys(tables, graph, ground.replayed, &changes, one)? else {
        return Ok(());
    };
    match keys.last() {
        Some(end) if graph.keys.contains(end) => {
            add_carried(graph, ground.lists, one, node, &keys)
        }
        _ => Ok(()),
    }
}

/// Whether a completion was seen at another wait with its class.
fn is_seen(lists: &Lists, node: u32, reaped: Reaped) -> bool {
    for (token, led) in lists.arms(node) {
        if *token == reaped.token && is_among(led.seen, reaped.class) {
            return true;
        }
    }
    false
}

/// Whether a class is among those seen.
fn is_among(seen: [bool; 4], class: u32) -> bool {
    seen.get(class as usize).copied().unwrap_or(false)
}

/// The keys of the nodes that follow a completion, with these changes in what is held; none where one of them needs what
/// isn't there.
fn changed_keys(
    tables: &mut Tables,
    graph: &Graph,
    replayed: &Replayed,
    changes: &[Change],
    one: &Dealt,
) -> Result<Option<Vec<Key>>, AllocError> {
    let mut keys = Vec::new(tables.alloc);
    if !add_changed(
        tables,
        graph,
        replayed,
        changes,
        one.reaped.after,
        &mut keys,
    )? {
        return Ok(None);
    }
    for node in &one.stretch {
        if !add_changed(tables, graph, replayed, changes, *node, &mut keys)? {
            return Ok(None);
        }
    }
    Ok(Some(keys))
}

/// Adds the key of a node with these changes in what is held. Answers false where the node needs what isn't there.
fn add_changed(
    tables: &mut Tables,
    graph: &Graph,
    replayed: &Replayed,
    changes: &[Change],
    node: u32,
    keys: &mut Vec<Key>,
) -> Result<bool, AllocError> {
    let Some(key) = graph.key(node) else {
        return Ok(false);
    };
    let Some(held) = tables.changed(key.held, changes)? else {
        return Ok(false);
    };
    keys.push(Key {
        held,
        spot: key.spot,
    })?;
    Ok(match key.spot {
        Spot::Fill { buffer, .. } => !lessens(changes, Part::Buffer(buffer)),
        Spot::Load { buffer, .. } => tables.has(held, Part::Buffer(buffer)),
        Spot::Put { thing, .. } => !changes_thing(replayed, changes, thing),
        _ => true,
    })
}

/// Whether there is less of a part.
fn lessens(changes: &[Change], part: Part) -> bool {
    for change in changes {
        if change.part == part && change.by < 0 {
            return true;
        }
    }
    false
}

/// Whether there is more or less of a part of a thing.
fn changes_thing(replayed: &Replayed, changes: &[Change], thing: u32) -> bool {
    for change in changes {
        if thing_of(replayed, change.part) == Some(thing) {
            return true;
        }
    }
    false
}

/// The thing to which a part belongs.
fn thing_of(replayed: &Replayed, part: Part) -> Option<u32> {
    match part {
        Part::Buffer(buffer) => Some(replayed.buffers.get(buffer as usize)?.thing),
        Part::Token(token) | Part::Out(token) | Part::Got(token) => Some(
            replayed.tokens.get(token as usize)?.thing,
        ),
    }
}

/// Adds a completion at another wait, and the nodes that follow it, which have these keys.
fn add_carried(
    graph: &mut Graph,
    lists: &Lists,
    one: &Dealt,
    node: u32,
    keys: &[Key],
) -> Result<(), AllocError> {
    let Some((first, others)) = keys.split_first() else {
        return Ok(());
    };
    let after = graph.node(key_behind(first.held, one.reaped.token, one.reaped.place))?;
    let led = Led {
        to: after,
        seen: seen_with(Some(one.reaped.class)),
        is_early: false,
    };
    graph.lead(node, one.reaped.token, led)?;
    graph.link(node, after, false)?;
    if let Some(next) = others.first() {
        let next = graph.node(*next)?;
        graph.go_on(after, one.reaped.class, next)?;
    }
    let mut last = (one.reaped.after, after);
    for (old, key) in one.stretch.iter().zip(others.iter()) {
        let new = graph.node(*key)?;
        add_step(graph, lists, last, (*old, new))?;
        last = (*old, new);
    }
    Ok(())
}

/// Adds a way between nodes in the place of two others.
fn add_step(
    graph: &mut Graph,
    lists: &Lists,
    from: (u32, u32),
    to: (u32, u32),
) -> Result<(), AllocError> {
    let is_unlocked = graph.is_unlocked(from.0, to.0);
    graph.link(from.1, to.1, is_unlocked)?;
    stand_alike(graph, lists, to.0, to.1)
}
