//! The candidates of a search.

ghost use Rattle.std.specs.Prelude.{◌≡◌, IfOk, IfSome, false, slice_index_or};
ghost use Rattle.rc_follow.specs.Ways as ways;
ghost use Rattle.rc_world.specs.Machine as machine;
ghost use Rattle.rc_world.specs.WeakRuns.{IsWeakStep};

use crate::step::{step, stray};
use rc_lang::lines::Line;
use rc_lang::program::Program;
use rc_world::event::{Event, Item};
use rc_world::world::World;
use rc_world::world::weak::Lists;
use std::alloc::{AllocError, Global};
use std::marker::Model;
use std::rc::Rc;

/// A world of a search, and the lines of the text whose calls the log made on the way to it. The world is on the heap, so
/// that a search moves it cheaply.
#[derive(Drop)]
pub struct Node<'a> {
    world: Box<World<'a>>,
    // Of each number of a line whether its call was made. Those of numbers behind the last weren't. Copies share it until
    // one of them makes another call.
    made: Rc<Vec<bool>>,
}

impl<'a> Model for Node<'a> {
    ghost use Rattle.rc_follow.specs.Ways as ways;

    ghost Value = { ways.Way };

    ghost view = { λ n. record { world = n.world.value; made = n.made.value.items } };
}

impl<'a> Node<'a> {
    /// The world in which a program starts.
    pub fn start(alloc: Global, program: &'a Program) -> Result<Node<'a>, AllocError>
        ensures { IfOk result (λ n. n ≡ ways.start_way program.now) }
    {
        let world = World::start(alloc, program)?;
        Ok(Node {
            world: Box::new(alloc, world)?,
            made: Rc::new(alloc, Vec::new(alloc))?,
        })
    }

    /// The same again.
    pub fn copy(&self, alloc: Global) -> Result<Node<'a>, AllocError>
        ensures { IfOk result (λ n. n ≡ self.now) }
    {
        let world = self.world.copy(alloc)?;
        Ok(Node {
            world: Box::new(alloc, world)?,
            made: self.made.clone()?,
        })
    }

    /// Becomes the same as another, in the memory that it and the lists have.
    pub fn copy_from(
        &mut self,
        alloc: Global,
        lists: &mut Lists,
        other: &Node<'a>,
    ) -> Result<(), AllocError>
        ensures { IfOk result (λ _. self.new ≡ other.now) }
    {
        self.made = other.made.clone()?;
        self.world.copy_from(alloc, lists, &other.world)
    }

    /// The world.
    pub fn world(&self) -> &World<'a>
        ensures { result.now ≡ self.now.world }
    {
        &self.world
    }

    /// Of each number of a line of the text whether its call was made. Those of numbers behind the last weren't.
    pub fn made(&self) -> &[bool]
        ensures { result.now ≡ self.now.made }
    {
        self.made.as_ref().as_slice()
    }

    /// Whether the call of the line of this number was made.
    fn has_made(&self, number: usize) -> bool
        ensures { result ≡ slice_index_or self.now.made number false }
    {
        self.made().get(number).copied().unwrap_or(false)
    }

    /// Whether the calls of all lines were made that the other has made.
    pub fn has_made_all(&self, other: &Node<'_>) -> bool {
        Rc::ptr_eq(&self.made, &other.made) || are_all_in(other.made(), self.made())
    }

    /// Notes that the call of this line of the text was made.
    #[tactic(auto, using(crate::proofs::Made::noted_again))]
    pub fn note(&mut self, line: Option<Line>) -> Result<(), AllocError>
        ensures { IfOk result (λ _. self.new ≡ record self.old { made = ways.made_by line self.old.made }) }
    {
        let Some(line) = line else {
            return Ok(());
        };
        if self.has_made(line.number as usize) {
            return Ok(());
        }
        self.note_new(line.number)
    }

    /// Notes that the call of the line of this number was made, which wasn't before.
    fn note_new(&mut self, number: u32) -> Result<(), AllocError>
        ensures { IfOk result (λ _. self.new ≡ record self.old { made = ways.with_made number self.old.made }) }
    {
        let number = number as usize;
        let alloc = *self.made.as_ref().allocator();
        let mut made = Vec::from_slice(alloc, self.made())?;
        if made.len() <= number {
            made.resize(number + 1, false)?;
        }
        made[number] = true;
        self.made = Rc::new(alloc, made)?;
        Ok(())
    }

    /// Makes the step that an item names, where it is enabled and does no harm itself, and answers its event. Otherwise
    /// the world stays.
    pub fn step(&mut self, item: &Item) -> Result<Option<Event>, AllocError>
        ensures step { IfOk result (λ event. IfSome event (λ e. IsWeakStep self.old.world e self.new.world)) }
        ensures made { self.new.made ≡ self.old.made }
    {
        step(&mut self.world, item)
    }

    /// Makes a step of a thread that the machine may not have: an `if take` goes to its second branch, or a load gives
    /// this byte. Where it has none the world stays.
    pub fn stray(&mut self, thread: u32, byte: u8) -> Option<Event>
        ensures step { IfSome result (λ e. IsWeakStep self.old.world e self.new.world) }
        ensures made { self.new.made ≡ self.old.made }
    {
        stray(&mut self.world, thread, byte)
    }
}

/// Whether the calls of all of these lines are among the others. The last line of each was made.
fn are_all_in(one: &[bool], other: &[bool]) -> bool {
    if one.len() > other.len() {
        return false;
    }
    for number in 0..one.len() {
        if one[number] && !other[number] {
            return false;
        }
    }
    true
}
