//! What weak runs need of the controls: the same again, and stray steps.

ghost use Rattle.std.specs.Prelude.{ℕ, ◌≡◌, true, Some, is_some, IfOk, IsSome};
ghost use Rattle.rc_lang.specs.Program.{Program as SpecProgram};
ghost use Rattle.rc_world.specs.Changes.{Moves, StandsAt, standing_at};
ghost use Rattle.rc_world.specs.Controls as spec;
ghost use Rattle.rc_world.specs.Stray.{controls_stray, strays};

use super::{Answer, Controls};
use crate::event::{Action, Event};
use rc_lang::lines::{Op, Stmt, Test};
use rc_lang::program::Program;
use std::alloc::AllocError;

impl Controls {
    /// Becomes the same as other controls.
    pub(crate) fn copy_from(&mut self, other: &Controls) -> Result<(), AllocError>
        ensures { IfOk result (λ _. self.new ≡ other.now) }
    {
        self.threads.clear();
        self.threads.extend_from_slice(&other.threads)?;
        self.pools.copy_from(&other.pools)?;
        self.holders = other.holders;
        self.look = other.look;
        Ok(())
    }

    /// Whether the thread has a stray step.
    pub(crate) fn strays(&self, program: &Program, thread: u32) -> bool
        ensures { result ≡ is_some (controls_stray program.now self.now thread 0) }
    {
        match self.line(program, thread) {
            Some(line) => may_stray(line.stmt),
            None => false,
        }
    }

    /// Makes the stray step of the thread. A load gives this byte.
    pub(crate) fn stray(&mut self, program: &Program, thread: u32, byte: u8) -> Event
        requires { is_some (controls_stray program.now self.old thread 0) ≡ true }
        ensures { controls_stray program.now self.old thread byte ≡ Some (result, self.new) }
    {
        let Some(place) = self.place(thread) else {
            unreachable!()
        };
        let Some(line) = self.line(program, thread) else {
            unreachable!()
        };
        let action = self.go_astray(program, thread, place, line.stmt, byte);
        Event::ByThread {
            thread,
            line: line.number,
            action,
        }
    }

    // The stray step of a thread that is at this statement.
    fn go_astray(
        &mut self,
        program: &Program,
        thread: u32,
        place: usize,
        stmt: Stmt,
        byte: u8,
    ) -> Action
        requires here { StandsAt program.now self.old thread place stmt }
        requires step { IsSome (strays program.now self.old thread (standing_at self.old thread) byte stmt) }
        ensures { Moves program.now thread self.old (λ c t. strays program.now c thread t byte stmt)
            result self.new }
    {
        match stmt {
            Stmt::If(Test::Take(_, _)) => self.branch(program, thread, place, false),
            Stmt::Do(Op::Load(x, _, _)) => self.load(program, thread, place, x, Answer::Byte(byte)),
            _ => unreachable!(),
        }
    }
}

// Whether a thread at this statement has a stray step.
fn may_stray(stmt: Stmt) -> bool
    ensures { (program : SpecProgram) (c : spec.Controls) (i byte : ℕ) (t : spec.Standing) →
        result ≡ is_some (strays program c i t byte stmt) }
{
    match stmt {
        Stmt::If(Test::Take(_, _)) => true,
        Stmt::Do(Op::Load(_, _, _)) => true,
        _ => false,
    }
}
