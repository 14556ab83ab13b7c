//! A run into a fault or into a stuck world is made shorter.

use crate::replay::{Made, replay};
use crate::stuck::{is_stuck_within, seems_stuck};
use rc_lang::program::Program;
use rc_world::event::Item;
use rc_world::fault::Fault;
use rc_world::world::World;
use std::alloc::{AllocError, Global};
use std::mem::swap;

/// How often each way to shorten a run is tried again at most.
const MOST_TURNS: u32 = 8;

/// What a run that is made shorter still comes to.
#[derive(Clone, Copy)]
pub enum Goal {
    /// This fault.
    Fault(Fault),
    /// A world that is found to be stuck where so many worlds are reached; of 0, one that seems stuck.
    Stuck(usize),
}

impl Goal {
    /// Whether a run that ends in this world comes to it.
    fn is_met(self, alloc: Global, world: &World<'_>) -> Result<bool, AllocError> {
        match self {
            Goal::Fault(fault) => Ok(world.fault() == Some(fault)),
            Goal::Stuck(most) => {
                Ok(
                    seems_stuck(alloc, world)?
                        && (most == 0 || is_stuck_within(alloc, world, most)?),
                )
            }
        }
    }
}

/// A run, while it is made shorter.
#[derive(Drop)]
struct Shortening<'a> {
    alloc: Global,
    program: &'a Program,
    goal: Goal,
    // The shortest run so far.
    run: Vec<Made>,
    // The items that are tried, and the run that they make.
    tried: Vec<Item>,
    made: Vec<Made>,
}

/// Items whose run comes to the same goal, in fewer steps where that was found.
pub fn shorten(
    alloc: Global,
    program: &Program,
    goal: Goal,
    items: &[Item],
) -> Result<Vec<Item>, AllocError> {
    let mut run = Vec::new(alloc);
    replay(alloc, program, items, None, &mut run)?;
    let mut shortening = Shortening {
        alloc,
        program,
        goal,
        run,
        tried: Vec::new(alloc),
        made: Vec::new(alloc),
    };
    shortening.cut()?;
    shortening.make_plain()?;
    shortening.draw_together()?;
    shortening.try_run()?;
    Ok(shortening.tried)
}

impl<'a> Shortening<'a> {
    /// Takes out chunks, and steps of single threads, until nothing more can go.
    fn cut(&mut self) -> Result<(), AllocError> {
        for _turn in 0..MOST_TURNS {
            let before = self.run.len();
            self.cut_chunks()?;
            self.cut_threads()?;
            if self.run.len() == before {
                break;
            }
        }
        Ok(())
    }

    /// Takes out chunks, from halves to single steps, the last first.
    fn cut_chunks(&mut self) -> Result<(), AllocError> {
        let all = self.run.len();
        for halvings in 1..usize::BITS {
            let size = all >> halvings;
            if size == 0 {
                break;
            }
            for chunk in (0..all.div_ceil(size)).rev() {
                let start = chunk.saturating_mul(size);
                self.leave_out(start, start.saturating_add(size), None)?;
            }
        }
        Ok(())
    }

    /// Takes out steps of one thread, the last first: all from a place on, or a round of a loop.
    fn cut_threads(&mut self) -> Result<(), AllocError> {
        for start in (0..self.run.len()).rev() {
            if let Some(made) = self.run.get(start).copied() {
                let thread = thread_of(made.item);
                self.leave_out(start, usize::MAX, thread)?;
                let end = self.end_of_round(start, made);
                self.leave_out(start, end, thread)?;
            }
        }
        Ok(())
    }

    /// The next place at which the thread of this step stands at the same line again. If it never does, the start, which
    /// is the place of this step.
    fn end_of_round(&self, start: usize, first: Made) -> usize {
        let thread = thread_of(first.item);
        for (place, later) in self.run.iter().enumerate() {
            if place > start && later.line == first.line && thread_of(later.item) == thread {
                return place;
            }
        }
        start
    }

    /// Tries the run without the steps from one place to the one before another; without those of one thread alone, where
    /// it is given.
    fn leave_out(
        &mut self,
        start: usize,
        end: usize,
        thread: Option<u32>,
    ) -> Result<(), AllocError> {
        self.tried.clear();
        for (place, made) in self.run.iter().enumerate() {
            let is_within = start <= place && place < end;
            let is_meant = thread.is_none() || thread_of(made.item) == thread;
            if !(is_within && is_meant) {
                self.tried.push(made.item)?;
            }
        }
        if self.tried.len() < self.run.len() {
            self.keep(None)?;
        }
        Ok(())
    }

    /// Tries items in their plain form.
    fn make_plain(&mut self) -> Result<(), AllocError> {
        for place in 0..self.run.len() {
            self.try_run()?;
            self.keep(Some(place))?;
        }
        Ok(())
    }

    /// Draws steps of one thread together.
    fn draw_together(&mut self) -> Result<(), AllocError> {
        for place in 0..self.run.len() {
            if let Some(later) = self.next_step(place) {
                self.draw(place, later)?;
            }
        }
        Ok(())
    }

    /// The place of the next step of the thread that moves at this place, where it isn't the next place.
    fn next_step(&self, place: usize) -> Option<usize> {
        let thread = thread_of(self.run.get(place)?.item)?;
        for (later, made) in self.run.iter().enumerate() {
            if later > place && thread_of(made.item) == Some(thread) {
                return (later - place > 1).then_some(later);
            }
        }
        None
    }

    /// Tries the run with a later item right after a place.
    fn draw(&mut self, place: usize, later: usize) -> Result<(), AllocError> {
        self.tried.clear();
        for index in 0..self.run.len() {
            if let Some(made) = self.run.get(drawn_from(index, place, later)) {
                self.tried.push(made.item)?;
            }
        }
        self.keep(None)
    }

    /// Makes the items of the run those that are tried.
    fn try_run(&mut self) -> Result<(), AllocError> {
        self.tried.clear();
        for made in &self.run {
            self.tried.push(made.item)?;
        }
        Ok(())
    }

    /// Keeps the run of what is tried, if it comes to the goal and isn't longer.
    fn keep(&mut self, plain: Option<usize>) -> Result<(), AllocError> {
        let world = replay(self.alloc, self.program, &self.tried, plain, &mut self.made)?;
        if self.made.len() <= self.run.len() && self.goal.is_met(self.alloc, &world)? {
            swap(&mut self.run, &mut self.made);
        }
        Ok(())
    }
}

/// Where the item comes from that is at this place once a later one is drawn right after a place.
fn drawn_from(index: usize, place: usize, later: usize) -> usize {
    if index <= place || later < index {
        index
    } else if index - place == 1 {
        later
    } else {
        index - 1
    }
}

/// The thread whose step an item names; none where it is the kernel's.
fn thread_of(item: Item) -> Option<u32> {
    match item {
        Item::Thread { thread, .. } => Some(thread),
        Item::Kernel { .. } => None,
    }
}
