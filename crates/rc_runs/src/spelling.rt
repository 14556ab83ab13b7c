//! The schedule that moves spell.

ghost use Rattle.std.specs.Prelude.{◌≡◌, ◌+◌, ◌<◌, ◌≤◌, ◌++◌, length, sum, take, IfNone, IfOk, IfSome};
ghost use Rattle.rc_runs.specs.Repeats as repeats;
ghost use Rattle.rc_runs.specs.Repeats.{where_made};
ghost use Rattle.rc_runs.specs.Spelling as spec;
ghost use Rattle.rc_runs.specs.Spelling.{IsSpelled, after_move, items_in};
ghost use Rattle.rc_runs.specs.Spelling.{items_of_move, steps_until, world_after};

use crate::moves::Move;
use crate::step::make;
use rc_lang::program::Program;
use rc_world::event::Item;
use rc_world::world::World;
use std::alloc::{AllocError, Global};

/// The schedule that moves spell, and how many of its items each of them spells.
#[derive(Drop)]
pub struct Spelled {
    pub items: Vec<Item>,
    pub counts: Vec<u64>,
}

/// Where the steps of a thread end: at the line with this number.
#[derive(Clone, Copy)]
struct Goal {
    thread: u32,
    line: u32,
}

/// The schedule that moves spell in a program. They are made from its start world on, each in the world to which those
/// before it lead. A step that can't be made, since the world has a fault or the item isn't enabled, is the last item.
pub fn spell(alloc: Global, program: &Program, moves: &[Move]) -> Result<Spelled, AllocError>
    ensures { IfOk result (IsSpelled program.now moves.now) }
{
    let mut world = World::start(alloc, program)?;
    let mut items = Vec::new(alloc);
    let mut counts = Vec::new(alloc);
    let mut goes_on = true;
    for named in moves {
        let before = items.len();
        goes_on = spell_next(&mut world, &mut items, goes_on, *named)?;
        counts.push((items.len() - before) as u64)?;
    }
    Ok(Spelled { items, counts })
}

/// The place of the move that spelled the item at this place, where moves spelled so many items each; none where they
/// spelled no more items than that.
pub fn move_of_item(counts: &[u64], item: u64) -> Option<usize>
    ensures found { IfSome result
        (λ k. (sum (take k counts.now) ≤ item) × (item < sum (take (k + 1) counts.now))) }
    ensures none { IfNone result (sum counts.now ≤ item) }
{
    let mut before = 0;
    for (place, count) in counts.iter().enumerate() {
        if item - before < *count {
            return Some(place);
        }
        before += *count;
    }
    None
}

// Adds the items of a move, where the steps before it could be made. Answers whether its own can be made too.
fn spell_next(
    world: &mut World<'_>,
    items: &mut Vec<Item>,
    goes_on: bool,
    named: Move,
) -> Result<bool, AllocError>
    requires { world.old.made ≤ length items.old.items }
    ensures items { let begun = where_made goes_on world.old in
        IfOk result (λ _. items.new.items ≡ items.old.items ++ items_in begun named) }
    ensures world { let begun = where_made goes_on world.old in
        IfOk result (λ made. after_move begun named ≡ where_made made world.new) }
    ensures made { IfOk result (λ _. world.new.made ≤ length items.new.items) }
{
    if goes_on {
        spell_move(world, items, named)
    } else {
        Ok(false)
    }
}

// Adds the items of a move, and makes their steps. Answers whether each could be made.
fn spell_move(world: &mut World<'_>, items: &mut Vec<Item>, named: Move) -> Result<bool, AllocError>
    requires { world.old.made ≤ length items.old.items }
    ensures items { let spelled = items_of_move world.old named in
        IfOk result (λ _. items.new.items ≡ items.old.items ++ spelled) }
    ensures world { let spelled = items_of_move world.old named in
        IfOk result (λ made. world_after world.old spelled ≡ where_made made world.new) }
    ensures made { IfOk result (λ _. world.new.made ≤ length items.new.items) }
{
    match named {
        Move::One(item) => repeat(world, items, item, 1, None),
        Move::Steps { thread, count } => repeat(world, items, step_of(thread), count, None),
        Move::Until { thread, line } => {
            let goal = Goal { thread, line };
            repeat(world, items, step_of(thread), 65_536, Some(goal))
        }
    }
}

// Adds an item again and again, at most so many times, until the world is at the goal, and makes its steps. Answers
// whether each could be made.
fn repeat(
    world: &mut World<'_>,
    items: &mut Vec<Item>,
    item: Item,
    most: u32,
    goal: Option<Goal>,
) -> Result<bool, AllocError>
    requires { world.old.made ≤ length items.old.items }
    ensures items { let spelled = steps_until (repeats.is_there goal) item most world.old in
        IfOk result (λ _. items.new.items ≡ items.old.items ++ spelled) }
    ensures world { let spelled = steps_until (repeats.is_there goal) item most world.old in
        IfOk result (λ made. world_after world.old spelled ≡ where_made made world.new) }
    ensures made { IfOk result (λ _. world.new.made ≤ length items.new.items) }
{
    let mut left = most;
    while left > 0 {
        if is_there(world, goal) {
            return Ok(true);
        }
        items.push(item)?;
        if !make(world, &item)?.is_made() {
            return Ok(false);
        }
        left -= 1;
    }
    Ok(true)
}

// Whether the world is at the goal, if there is one.
fn is_there(world: &World<'_>, goal: Option<Goal>) -> bool
    ensures { result ≡ repeats.is_there goal world.now }
{
    match goal {
        Some(goal) => match world.line(goal.thread) {
            Some(line) => line.number == goal.line,
            None => false,
        },
        None => false,
    }
}

fn step_of(thread: u32) -> Item
    ensures { result ≡ spec.step_of thread }
{
    Item::Thread { thread, take: None }
}
