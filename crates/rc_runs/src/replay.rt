//! A run is made again with other items.

use crate::step::{Step, make};
use rc_lang::program::Program;
use rc_lang::request::Request;
use rc_world::event::Item;
use rc_world::world::World;
use rc_world::world::requests::largest;
use std::alloc::{AllocError, Global};

/// How many bytes a request moves at most.
const MOST_MOVED: u32 = 4096;

/// A step that was made: its item, and the number of the line at which the thread stood; 0 where it was the kernel's.
#[derive(Clone, Copy)]
pub struct Made {
    pub item: Item,
    pub line: u32,
}

/// Makes the steps of these items from the start world on until a fault is met, and answers the world that they lead to.
/// Those that aren't enabled are left out, and the item at the place `plain` has its plain form; `made` are the steps that
/// were made.
pub fn replay<'a>(
    alloc: Global,
    program: &'a Program,
    items: &[Item],
    plain: Option<usize>,
    made: &mut Vec<Made>,
) -> Result<World<'a>, AllocError> {
    let mut world = World::start(alloc, program)?;
    made.clear();
    for (place, item) in items.iter().enumerate() {
        let item = if plain == Some(place) {
            plain_form(&world, *item)
        } else {
            *item
        };
        let line = line_of(&world, item);
        match make(&mut world, &item)? {
            Step::Made => made.push(Made { item, line })?,
            Step::NotEnabled => {}
            Step::Fault(_) => return Ok(world),
        }
    }
    Ok(world)
}

/// The number of the line at which the thread of an item stands; 0 where it is the kernel's.
fn line_of(world: &World<'_>, item: Item) -> u32 {
    match item {
        Item::Thread { thread, .. } => match world.line(thread) {
            Some(line) => line.number,
            None => 0,
        },
        Item::Kernel { .. } => 0,
    }
}

/// An item with nothing odd: a submit that takes all that is queued, an `if any` that says yes, and a completion of all
/// bytes.
fn plain_form(world: &World<'_>, item: Item) -> Item {
    match item {
        Item::Thread { thread, .. } => Item::Thread { thread, take: None },
        Item::Kernel { user_data, .. } => Item::Kernel {
            user_data,
            res: whole_result(world, user_data),
            fill: 0,
        },
    }
}

/// The result of the pending request with this user data where all its bytes are moved.
fn whole_result(world: &World<'_>, user_data: u64) -> i32 {
    match request_of(world, user_data) {
        Some(request) => largest(request).min(MOST_MOVED) as i32,
        None => 0,
    }
}

/// The first pending request with this user data.
fn request_of(world: &World<'_>, user_data: u64) -> Option<Request> {
    world.pending(world.pending_place(user_data)?)
}
