//! A run that is made again by its events.

use crate::stuck::is_stuck;
use crate::stuck_text::had::Had;
use crate::stuck_text::moving::advanced;
use crate::stuck_text::waits::{Wait, waits_of};
use rc_lang::lines::{Stmt, Test};
use rc_lang::program::Program;
use rc_world::event::{Action, Event, Item};
use rc_world::world::World;
use std::alloc::{AllocError, Global};

/// What each thread waits for after these events of a run from the start world on, if the world is stuck there. Nothing is
/// said where they can't be made again, as where what was read from a file decides an `if`.
pub fn waits_after(
    alloc: Global,
    program: &Program,
    events: &[Event],
) -> Result<Option<Vec<Wait>>, AllocError> {
    let mut world = World::start(alloc, program)?;
    let mut items = Vec::new(alloc);
    for event in events {
        if !is_again(&mut world, &mut items, *event)? {
            return Ok(None);
        }
    }
    if !is_stuck(alloc, &world)? {
        return Ok(None);
    }
    let had = Had::of_run(alloc, program, &items)?;
    Ok(Some(waits_of(alloc, &world, &had)?))
}

/// Makes the step of an event again, and adds its item. Whether its event is the same.
fn is_again(
    world: &mut World<'_>,
    items: &mut Vec<Item>,
    event: Event,
) -> Result<bool, AllocError> {
    let item = item_of(world, event);
    let made = advanced(world, &item)?;
    items.push(item)?;
    Ok(made == Some(event))
}

/// The item that names the step of an event.
fn item_of(world: &World<'_>, event: Event) -> Item {
    match event {
        Event::ByThread { thread, action, .. } => Item::Thread {
            thread,
            take: take_of(world, thread, action),
        },
        Event::ByKernel(completion) => Item::Kernel {
            user_data: completion.user_data,
            res: completion.res,
            fill: 0,
        },
    }
}

/// The answer of a step that is a submit or an `if any`.
fn take_of(world: &World<'_>, thread: u32, action: Action) -> Option<i32> {
    match action {
        Action::Submitted(taken) => Some(taken),
        Action::Branched(yes) => match world.line(thread)?.stmt {
            Stmt::If(Test::Any) => Some(i32::from(yes)),
            _ => None,
        },
        _ => None,
    }
}
