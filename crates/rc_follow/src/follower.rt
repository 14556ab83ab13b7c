//! A log, followed line by line.

ghost use Rattle.std.specs.Prelude.{◌≡◌, [], Some, List, IfOk, IfSome, false, length, option_map, replicate, slice_get, slice_index_or};
ghost use Rattle.rc_log.specs.declared.call.Said.{Said as SpecSaid};
ghost use Rattle.rc_follow.specs.Answers.{Answers, FollowsMore, is_followed};
ghost use Rattle.rc_follow.specs.Follower as spec;
ghost use Rattle.rc_follow.specs.Follower.{Follows, with_ways};
ghost use Rattle.rc_follow.specs.Searches.{Finds};

use crate::hidden::Ground;
use crate::kept::Found;
use crate::loops::Loops;
use crate::node::Node;
use crate::noted::Noted;
use crate::reach::{AT_ANY_PLACE, Calls, Reach};
use crate::reads::Reads;
use crate::rights::Rights;
use crate::room::Room;
use crate::search::{search, stay};
use rc_lang::program::Program;
use rc_log::call::{Call, Said};
use rc_world::world::World;
use std::alloc::{AllocError, Global};
use std::marker::Model;
use std::mem::swap;

/// One more than the lines that a text has at most.
const NUMBERS: usize = 4097;

/// What a line is to the lines before it.
#[derive(Clone, Copy)]
pub enum Answer {
    /// A run of the program makes them and it.
    Followed,
    /// No run that makes them was found that makes it.
    Departs,
    /// There are more candidate worlds than are looked at.
    TooMany,
    /// It locks a mutex that this thread has.
    Taken(u32),
    /// It unlocks a mutex that its thread hasn't.
    NotHeld,
}

impl Answer {
    /// Whether a run of the program makes the lines and it.
    pub fn is_followed(self) -> bool
        ensures { result ≡ is_followed self }
    {
        match self {
            Answer::Followed => true,
            Answer::Departs => false,
            Answer::TooMany => false,
            Answer::Taken(_) => false,
            Answer::NotHeld => false,
        }
    }
}

/// A log that is followed so far: what its lines say beside the world, and the candidate worlds. A run that makes the
/// lines leads to each candidate.
#[derive(Drop)]
pub struct Follower<'a> {
    noted: Noted,
    worlds: Vec<Node<'a>>,
    reads: Reads,
    reach: Reach,
    loops: Loops,
    rights: Rights<'a>,
    // Of each number of a line of the text whether its call was made by a log before, or by this one once it has ended.
    reached: Vec<bool>,
    // How many lines of the log were steps.
    calls: u64,
    // What a line's search found, and its room. They are kept for their memory alone.
    found: Found<'a>,
    room: Room<'a>,
}

impl<'a> Model for Follower<'a> {
    ghost use Rattle.rc_follow.specs.Follower as spec;

    ghost Value = { spec.Follower };

    ghost view = { λ f. record { program = f.rights; noted = f.noted; ways = f.worlds.items; reached = f.reached.items } };
}

impl<'a> Follower<'a> {
    /// Before the first line.
    pub fn start(alloc: Global, program: &'a Program) -> Result<Follower<'a>, AllocError>
        ensures program { IfOk result (λ f. f.program ≡ program.now) }
        ensures reached { IfOk result (λ f. f.reached ≡ replicate 4097 false) }
        ensures follows { IfOk result (Follows []) }
    {
        let mut worlds = Vec::new(alloc);
        worlds.push(Node::start(alloc, program)?)?;
        Ok(Follower {
            noted: Noted::start(alloc, program)?,
            worlds,
            reads: Reads::new(alloc, program)?,
            reach: Reach::new(alloc, program)?,
            loops: Loops::new(alloc, program)?,
            rights: Rights::new(alloc, program),
            reached: vec![in alloc; false; NUMBERS]?,
            calls: 0,
            found: Found::new(alloc),
            room: Room::new(alloc),
        })
    }

    /// Before the first line of another log. What was reached stays.
    pub fn begin(&mut self, alloc: Global) -> Result<(), AllocError>
        ensures program { self.new.program ≡ self.old.program }
        ensures reached { self.new.reached ≡ self.old.reached }
        ensures follows { IfOk result (λ _. Follows [] self.new) }
    {
        let program = self.rights.program();
        let start = Node::start(alloc, program)?;
        self.noted = Noted::start(alloc, program)?;
        self.worlds.clear();
        self.worlds.push(start)?;
        self.room.forget_all();
        self.calls = 0;
        Ok(())
    }

    /// How many lines were steps of the program: calls, but for those that only ask.
    pub fn calls(&self) -> u64 {
        self.calls
    }

    /// The log has ended, or departs at its next line: the calls that were made on the ways that are left are reached.
    pub fn end(&mut self)
        ensures { self.new ≡ with_ways self.old }
    {
        let end = self.reached.len();
        reach(&mut self.reached, &self.worlds, end);
    }

    /// Whether the call of the line of this number was made by a log that has ended.
    pub fn is_reached(&self, number: u32) -> bool
        ensures { result ≡ slice_index_or self.now.reached number false }
    {
        self.reached.get(number as usize).copied().unwrap_or(false)
    }

    /// How many requests submits took whose completions aren't taken away, on the first way that is left.
    pub fn requests_out(&self) -> usize {
        match self.worlds.first() {
            Some(node) => {
                let world = node.world();
                world
                    .pending_len()
                    .saturating_add(world.completions().len())
            }
            None => 0,
        }
    }

    /// How many candidate worlds there are.
    pub fn candidates(&self) -> usize
        ensures { result ≡ length self.now.ways }
    {
        self.worlds.len()
    }

    /// The candidate world at this place.
    pub fn candidate(&self, place: usize) -> Option<&World<'a>>
        ensures { option_map (λ w. w.now) result ≡ option_map (λ w. w.world) (slice_get self.now.ways place) }
    {
        let node = self.worlds.get(place)?;
        Some(node.world())
    }

    /// The program.
    pub fn program(&self) -> &'a Program
        ensures { result.now ≡ self.now.program }
    {
        self.rights.program()
    }

    // What the log says beside the worlds, for a line of this thread, where all hidden steps are sought.
    pub(crate) fn ground(&self, alloc: Global, thread: u32, call: Call) -> Ground<'_, 'a> {
        Ground {
            alloc,
            begun: &self.worlds,
            noted: &self.noted,
            reads: &self.reads,
            reach: &self.reach,
            loops: &self.loops,
            thread,
            call,
            sought: AT_ANY_PLACE,
        }
    }

    /// Holds one more line to the program.
    #[tactic(auto, using(crate::proofs::Followed::follows_more))]
    pub fn follow(&mut self, alloc: Global, said: Said) -> Result<Answer, AllocError>
        ensures program { self.new.program ≡ self.old.program }
        ensures answers { IfOk result (Answers self.old said self.new) }
        ensures follows { (lines : List SpecSaid) → Follows lines self.old → IfOk result (FollowsMore lines said self.new) }
    {
        let Some(thread) = said.thread else {
            let stranger = self.follow_stranger(alloc, said)?;
            return Ok(stranger);
        };
        if let Some(misuse) = self.misuse(thread, said.call) {
            return Ok(misuse);
        }
        let answer = self.follow_line(alloc, thread, said.call)?;
        Ok(answer)
    }

    // Holds a line of a thread to the program that hasn't it: it may end the ring.
    #[tactic(auto, using(crate::proofs::Followed::by_anybody))]
    fn follow_stranger(&mut self, alloc: Global, said: Said) -> Result<Answer, AllocError>
        ensures program { self.new.program ≡ self.old.program }
        ensures answers { IfOk result (Answers self.old said self.new) }
    {
        match said.call {
            Call::Exit(count) => {
                let answer = self.follow_line(alloc, 0, Call::Exit(count))?;
                Ok(answer)
            }
            _ => Ok(Answer::Departs),
        }
    }

    // A mutex that somebody has is locked, or one that the thread hasn't is unlocked.
    fn misuse(&self, thread: u32, call: Call) -> Option<Answer>
        ensures { IfSome result (λ a. (said : SpecSaid) → Answers self.now said self.now a) }
    {
        match call {
            Call::Lock(wanted) => {
                let holder = self.noted.mutexes().taken_by(wanted)?;
                Some(Answer::Taken(holder))
            }
            Call::Unlock(released) if !self.noted.has_mutexes(thread, released) => {
                Some(Answer::NotHeld)
            }
            _ => None,
        }
    }

    // Holds one more line of the thread to the program, which misuses no mutex.
    fn follow_line(&mut self, alloc: Global, thread: u32, call: Call) -> Result<Answer, AllocError>
        ensures program { self.new.program ≡ self.old.program }
        ensures answers { IfOk result (Answers self.old (record { thread = Some thread; call = call }) self.new) }
    {
        let ground = Ground {
            alloc,
            begun: &self.worlds,
            noted: &self.noted,
            reads: &self.reads,
            reach: &self.reach,
            loops: &self.loops,
            thread,
            call,
            sought: Calls::of(call),
        };
        if stay(ground, &mut self.rights)? {
            self.noted.note(self.rights.program(), thread, call);
            return Ok(Answer::Followed);
        }
        if let Call::Exit(_) = call {
            return Ok(Answer::Departs);
        }
        if !search(ground, &mut self.rights, &mut self.found, &mut self.room)? {
            return Ok(Answer::TooMany);
        }
        if self.found.worlds.is_empty() {
            return Ok(Answer::Departs);
        }
        self.calls = self.calls.saturating_add(u64::from(self.found.is_step));
        self.noted.note(self.rights.program(), thread, call);
        swap(&mut self.worlds, &mut self.found.worlds);
        Ok(Answer::Followed)
    }
}

// What was made on the ways is reached, as far as the numbers of its lines are below this one.
fn reach(reached: &mut Vec<bool>, ways: &[Node<'_>], end: usize)
    ensures { reached.new.items ≡ spec.reached_below end reached.old.items ways.now }
{
    for number in 0..end {
        if is_made(ways, number)
            && let Some(is) = reached.get_mut(number)
        {
            *is = true;
        }
    }
}

// Whether the call of the line of this number was made on one of the ways.
fn is_made(ways: &[Node<'_>], number: usize) -> bool
    ensures { result ≡ spec.is_made ways.now number }
{
    for way in ways {
        if way.made().get(number).copied().unwrap_or(false) {
            return true;
        }
    }
    false
}
