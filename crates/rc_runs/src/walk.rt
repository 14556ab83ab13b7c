//! Random walks through the worlds of a program.

ghost use Rattle.std.specs.Prelude.{◌≤◌};

use crate::random::Random;
use crate::step::{Step, make};
use rc_lang::lines::{Line, Op, Stmt, Test};
use rc_lang::program::Program;
use rc_world::event::Item;
use rc_world::fault::Fault;
use rc_world::world::World;
use rc_world::world::weak::Lists;
use std::alloc::{AllocError, Global};

/// How many steps a walk makes at most.
const MOST_STEPS: u32 = 400;

/// How many walks are made from the start world on before walks share beginnings.
const WHOLE_WALKS: u32 = 1_000;

/// Of so many walks one is then made from the start world on, and the others go on from one of its worlds.
const BRANCHES: u32 = 20;

/// How many steps those others make of their own at most.
const BRANCH_STEPS: u32 = 20;

/// The thread that moved last, and how many more steps it makes.
#[derive(Clone, Copy)]
struct Turn {
    thread: u32,
    stay: u32,
}

/// Makes random walks through the worlds of a program, one after another.
#[derive(Drop)]
pub struct Walker<'a> {
    alloc: Global,
    program: &'a Program,
    random: Random,
    /// Whether a submit of nothing may fail.
    pub may_fail: bool,
    /// The world in which the walk is.
    pub world: World<'a>,
    turn: Turn,
    /// The items whose steps it made.
    pub items: Vec<Item>,
    /// A world of a walk from which others go on, how it was moved last there, and how many items lead to it.
    kept: World<'a>,
    kept_turn: Turn,
    kept_items: usize,
    lists: Lists,
}

impl<'a> Walker<'a> {
    /// Walks through the worlds of this program.
    pub fn new(
        alloc: Global,
        program: &'a Program,
        random: Random,
    ) -> Result<Walker<'a>, AllocError> {
        let turn = Turn { thread: 0, stay: 0 };
        Ok(Walker {
            alloc,
            program,
            random,
            may_fail: true,
            world: World::start(alloc, program)?,
            turn,
            items: Vec::new(alloc),
            kept: World::start(alloc, program)?,
            kept_turn: turn,
            kept_items: 0,
            lists: Lists::new(alloc),
        })
    }

    /// Makes the walk with this number, from 0, until a fault is met or nothing is enabled, and answers the fault. Most
    /// walks share their beginning with one that was made before.
    pub fn walk(&mut self, number: u32) -> Result<Option<Fault>, AllocError> {
        if number < WHOLE_WALKS {
            self.start()?;
            self.go_on(MOST_STEPS)
        } else if number % BRANCHES == 0 {
            self.walk_and_keep()
        } else {
            self.branch()
        }
    }

    /// Begins a walk in the start world.
    fn start(&mut self) -> Result<(), AllocError> {
        self.world = World::start(self.alloc, self.program)?;
        self.turn = Turn { thread: 0, stay: 0 };
        self.items.clear();
        Ok(())
    }

    /// Makes a walk from the start world on, and keeps one of its worlds.
    fn walk_and_keep(&mut self) -> Result<Option<Fault>, AllocError> {
        let most = MOST_STEPS - BRANCH_STEPS;
        let first = self.random.place(most as usize) as u32;
        self.start()?;
        if let Some(fault) = self.go_on(first)? {
            return Ok(Some(fault));
        }
        self.kept
            .copy_from(self.alloc, &mut self.lists, &self.world)?;
        self.kept_turn = self.turn;
        self.kept_items = self.items.len();
        self.go_on(MOST_STEPS - first)
    }

    /// Goes on from the world that was kept.
    fn branch(&mut self) -> Result<Option<Fault>, AllocError> {
        self.world
            .copy_from(self.alloc, &mut self.lists, &self.kept)?;
        self.turn = self.kept_turn;
        self.items.truncate(self.kept_items);
        self.go_on(BRANCH_STEPS)
    }

    /// Makes so many steps, until a fault is met or nothing is enabled, and answers the fault.
    fn go_on(&mut self, steps: u32) -> Result<Option<Fault>, AllocError> {
        if self.world.made() > u64::from(u32::MAX) {
            return Ok(None);
        }
        for index in 0..steps {
            let random = &mut self.random;
            let Some(item) = next_item(&self.world, random, &mut self.turn, self.may_fail) else {
                break;
            };
            match make(&mut self.world, &item)? {
                Step::Made => self.items.push(item)?,
                Step::NotEnabled => {}
                Step::Fault(fault) => return Ok(Some(fault)),
            }
        }
        Ok(self.world.fault())
    }
}

/// The next item of a walk: of the kernel, of the thread that moved last, or of another. None: nothing is enabled.
fn next_item(
    world: &World<'_>,
    random: &mut Random,
    turn: &mut Turn,
    may_fail: bool,
) -> Option<Item> {
    if world.pending_len() > 0 && random.is_for_kernel() {
        return completion(world, random);
    }
    match next_line(world, random, turn) {
        Some(line) => Some(Item::Thread {
            thread: turn.thread,
            take: answer(world, random, line, may_fail),
        }),
        None => completion(world, random),
    }
}

/// The line of the thread that moves next, if one can.
fn next_line<'w>(world: &'w World<'_>, random: &mut Random, turn: &mut Turn) -> Option<&'w Line> {
    if turn.stay > 0
        && let Some(line) = ready_line(world, turn.thread)
    {
        turn.stay -= 1;
        return Some(line);
    }
    let count = world.program().threads().len();
    if count == 0 {
        return None;
    }
    let first = random.place(count);
    for place in first..first + count {
        let thread = (place % count) as u32;
        if let Some(line) = ready_line(world, thread) {
            let stay = random.stay();
            *turn = Turn { thread, stay };
            return Some(line);
        }
    }
    None
}

/// The line that a thread has next, unless it waits for a lock. It isn't copied, since most callers look at its kind alone.
fn ready_line<'w>(world: &'w World<'_>, thread: u32) -> Option<&'w Line> {
    let part = world.program().threads().get(thread as usize)?;
    let line = part.lines.get(world.place(thread)?)?;
    match line.stmt {
        Stmt::Lock(wanted) if !world.holders().are_free(wanted) => None,
        _ => Some(line),
    }
}

/// What the statement of a thread is answered, where it is a submit that doesn't take all, or an `if any` that says no.
fn answer(world: &World<'_>, random: &mut Random, line: &Line, may_fail: bool) -> Option<i32> {
    let queued = world.queued().len();
    match line.stmt {
        Stmt::Do(Op::Submit(_) | Op::SubmitAndWait(_, _)) if may_fail || queued > 0 => {
            random.take(queued)
        }
        Stmt::If(Test::Any) => (random.place(2) == 0).then_some(0),
        _ => None,
    }
}

/// The completion of a pending request, if there is one.
fn completion(world: &World<'_>, random: &mut Random) -> Option<Item> {
    let count = world.pending_len();
    if count == 0 {
        return None;
    }
    let request = world.pending(random.place(count))?;
    Some(Item::Kernel {
        user_data: request.user_data,
        res: random.result(request),
        fill: 0,
    })
}
