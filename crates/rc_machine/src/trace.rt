//! What a thread was seen to do, as nodes and ways.

use crate::graph::{Graph, Led, Passed, seen_with};
use crate::holdings::Tables;
use crate::key::{class_of, key_after, key_before, label_of};
use rc_replay::replayed::{Act, Event, Replayed};
use rc_replay::windows::{Stage, Window, Windows};
use std::alloc::AllocError;

/// Adds the windows of a thread, which begins at this node.
pub fn add_windows(
    tables: &mut Tables,
    graph: &mut Graph,
    replayed: &Replayed,
    start: u32,
    windows: &Windows,
) -> Result<(), AllocError> {
    for (window, count) in windows.iter() {
        add_window(tables, graph, replayed, start, *window, *count)?;
    }
    Ok(())
}

/// Adds a window that was seen so often.
fn add_window(
    tables: &mut Tables,
    graph: &mut Graph,
    replayed: &Replayed,
    start: u32,
    window: Window,
    count: u32,
) -> Result<(), AllocError> {
    let Some(event) = event_of(replayed, window.later) else {
        return Ok(());
    };
    let key = key_before(tables, event, window.later.step)?;
    let node = graph.node(key)?;
    let passed = Passed {
        is_unlocked: event.is_unlocked,
        count,
    };
    let before = node_behind(tables, graph, replayed, start, window.earlier)?;
    graph.pass(before, node, passed)?;
    note_class(graph, replayed, window.earlier, before, node)?;
    add_onward(tables, graph, event, window.later.step, (node, count))?;
    add_places(graph, event, node)
}

/// An event of a window.
fn event_of(replayed: &Replayed, stage: Stage) -> Option<&Event> {
    replayed.events.get(stage.event as usize)
}

/// The node behind an event, or where the thread begins.
fn node_behind(
    tables: &Tables,
    graph: &mut Graph,
    replayed: &Replayed,
    start: u32,
    earlier: Option<Stage>,
) -> Result<u32, AllocError> {
    let Some(stage) = earlier else {
        return Ok(start);
    };
    match event_of(replayed, stage) {
        Some(event) => graph.node(key_after(tables, event, stage.step)),
        None => Ok(start),
    }
}

/// Notes to which node the class of a completion went on.
fn note_class(
    graph: &mut Graph,
    replayed: &Replayed,
    earlier: Option<Stage>,
    before: u32,
    node: u32,
) -> Result<(), AllocError> {
    let Some(stage) = earlier else {
        return Ok(());
    };
    let Some(event) = event_of(replayed, stage) else {
        return Ok(());
    };
    match class_of(event) {
        Some(class) => graph.go_on(before, class, node),
        None => Ok(()),
    }
}

/// Adds how an event goes on.
fn add_onward(
    tables: &Tables,
    graph: &mut Graph,
    event: &Event,
    step: u32,
    (node, count): (u32, u32),
) -> Result<(), AllocError> {
    if let Act::End = event.act {
        return Ok(());
    }
    let after = graph.node(key_after(tables, event, step))?;
    let passed = Passed {
        is_unlocked: false,
        count,
    };
    graph.pass(node, after, passed)?;
    let Some(label) = label_of(event) else {
        return Ok(());
    };
    let led = Led {
        to: after,
        seen: seen_with(class_of(event)),
        is_early: matches!(event.act, Act::Reap { is_early: true, .. }),
    };
    graph.lead(node, label, led)?;
    graph.link(node, node, false)
}

/// Adds the places of an event, but for those of its requests.
fn add_places(graph: &mut Graph, event: &Event, node: u32) -> Result<(), AllocError> {
    if !matches!(event.act, Act::Send { .. }) {
        graph.stand(node, event.place)?;
    }
    for place in &event.places {
        graph.stand(node, *place)?;
    }
    Ok(())
}
