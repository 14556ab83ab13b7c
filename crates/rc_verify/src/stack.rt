//! Stacks of states, each kept until its block ends.

ghost use Rattle.std.specs.Prelude.{◌≡◌, ◌<◌, ◌∷◌, ◌++◌, [], length, Some, IsSome};
ghost use Rattle.rc_rules.specs.States.{label_of};
ghost use Rattle.rc_verify.specs.Branches.{KeepsOther};
ghost use Rattle.rc_verify.specs.Stack as spec;
ghost use Rattle.rc_verify.specs.Loops.{FitsWith, HoldsDead, KeepsDead, KeepsMeet};

use crate::branches::take_branch;
use arrayvec::ArrayVec;
use rc_lang::lines::Test;
use rc_rules::state::State;
use std::marker::Model;
use std::mem;

/// A state for each open branch, or for each open loop, the innermost on top: at most 31 blocks are open. States are
/// large, so the room of one that was popped is written again.
#[derive(Drop)]
pub struct StateStack<'a> {
    rooms: ArrayVec<Option<State<'a>>, 31>,
    // How many of the rooms are in use.
    count: usize,
}

impl<'a> Model for StateStack<'a> {
    ghost use Rattle.std.specs.Prelude.{List, Option, length, take, ◌≤◌};
    ghost use Rattle.rc_rules.specs.States.{State};

    ghost Value = { List (Option State) };

    ghost view = { λ k. take k.count k.rooms.items };

    ghost invariant = { λ k. k.count ≤ length k.rooms.items };
}

// The state is in the room from now on.
fn write<'a>(room: &mut Option<State<'a>>, state: &State<'a>)
    ensures { room.new ≡ Some state.now }
{
    match room {
        Some(kept) => kept.copy_from(state),
        None => *room = Some(state.again()),
    }
}

// A state that nothing reaches is in the room from now on, of the same program and thread as this one.
fn write_dead<'a>(room: &mut Option<State<'a>>, state: &State<'a>)
    ensures { HoldsDead state.now room.new }
{
    match room {
        Some(kept) => kept.die_as(state),
        None => *room = Some(State::dead(state.view(), state.flag())),
    }
}

impl<'a> StateStack<'a> {
    /// An empty stack.
    pub fn new() -> StateStack<'a>
        ensures { result ≡ [] }
    {
        StateStack {
            rooms: ArrayVec::new(),
            count: 0,
        }
    }

    /// Empties the stack.
    pub fn clear(&mut self)
        ensures { self.new ≡ [] }
    {
        self.count = 0;
    }

    /// Pushes the state.
    pub fn push(&mut self, state: &State<'a>)
        requires { length self.old < 31 }
        ensures { self.new ≡ self.old ++ Some state.now ∷ [] }
    {
        if self.count < self.rooms.len() {
            write(&mut self.rooms.as_mut_slice()[self.count], state);
        } else {
            self.rooms.push(Some(state.again()));
        }
        self.count += 1;
    }

    /// Pushes a state that nothing reaches, of the same program and thread as this one.
    pub fn push_dead(&mut self, state: &State<'a>)
        requires { length self.old < 31 }
        ensures { KeepsDead state.now self.old self.new }
    {
        if self.count < self.rooms.len() {
            write_dead(&mut self.rooms.as_mut_slice()[self.count], state);
        } else {
            let dead = State::dead(state.view(), state.flag());
            self.rooms.push(Some(dead));
        }
        self.count += 1;
    }

    /// Pushes what goes from this state to the second branch of a test, or past an if without one.
    pub fn push_skipped(&mut self, state: &State<'a>, test: Test)
        requires { length self.old < 31 }
        ensures { KeepsOther test state.now self.old self.new }
    {
        self.push(state);
        if let Some(kept) = &mut self.rooms.as_mut_slice()[self.count - 1] {
            take_branch(kept, test, false);
        }
    }

    /// The state on top. There is one.
    pub fn top(&self) -> &State<'a>
        requires { IsSome (spec.last_of self.now) }
        ensures { spec.last_of self.now ≡ Some result.now }
    {
        match &self.rooms.as_slice()[self.count - 1] {
            Some(state) => state,
            None => unreachable!(),
        }
    }

    /// Puts the state in the place of the one on top, which it becomes. There is one.
    pub fn swap_top(&mut self, state: &mut State<'a>)
        requires { IsSome (spec.last_of self.old) }
        ensures state { spec.last_of self.old ≡ Some state.new }
        ensures kept { self.new ≡ spec.rest_of self.old ++ Some state.old ∷ [] }
    {
        match &mut self.rooms.as_mut_slice()[self.count - 1] {
            Some(kept) => mem::swap(state, kept),
            None => unreachable!(),
        }
    }

    /// The state on top becomes the one where it and this end join. The slot is at the same stage in both.
    pub fn join_top(&mut self, end: &State<'a>)
        requires kept { IsSome (spec.last_of self.old) }
        requires fits { spec.OnLast self.old (λ s. FitsWith s end.now) }
        ensures { spec.OnLast self.old (λ s. KeepsMeet s (label_of end.now) self.old self.new) }
    {
        match &mut self.rooms.as_mut_slice()[self.count - 1] {
            Some(exits) => {
                let _ = exits.meet(end);
            }
            None => unreachable!(),
        }
    }

    /// Drops the state on top.
    pub fn pop(&mut self)
        ensures { self.new ≡ spec.rest_of self.old }
    {
        self.count = self.count.saturating_sub(1);
    }
}
