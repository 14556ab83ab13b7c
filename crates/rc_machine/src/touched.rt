//! Which things each thread touches.

use indexmap::IndexSet;
use rc_replay::replayed::{Act, Event, Replayed};
use rc_replay::windows::Windows;
use std::alloc::{AllocError, Global};

/// The things that each thread sends, fills, loads, puts or takes.
pub fn touched_of(alloc: Global, replayed: &Replayed) -> Result<Vec<IndexSet<u32>>, AllocError> {
    let mut touched = Vec::new(alloc);
    for windows in &replayed.windows {
        touched.push(touched_in(alloc, replayed, windows)?)?;
    }
    Ok(touched)
}

/// The things that one thread touches.
fn touched_in(
    alloc: Global,
    replayed: &Replayed,
    windows: &Windows,
) -> Result<IndexSet<u32>, AllocError> {
    let mut things = IndexSet::new(alloc);
    for window in windows.keys() {
        if let Some(event) = replayed.events.get(window.later.event as usize) {
            touch(replayed, event, &mut things)?;
        }
    }
    Ok(things)
}

/// Adds the things that an event touches.
fn touch(replayed: &Replayed, event: &Event, things: &mut IndexSet<u32>) -> Result<(), AllocError> {
    if let Act::Send { requests, .. } = &event.act {
        for request in requests {
            if let Some(token) = replayed.tokens.get(request.token as usize) {
                things.insert(token.thing)?;
            }
        }
    }
    if let Some(thing) = thing_of(replayed, event) {
        things.insert(thing)?;
    }
    Ok(())
}

/// The one thing that an event touches.
fn thing_of(replayed: &Replayed, event: &Event) -> Option<u32> {
    match event.act {
        Act::Put { thing, .. } | Act::Take { thing, .. } => thing,
        Act::Fill(buffer) | Act::Load(buffer) => {
            Some(replayed.buffers.get(buffer as usize)?.thing)
        }
        _ => None,
    }
}
