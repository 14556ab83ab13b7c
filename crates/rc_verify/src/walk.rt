//! The walk over the lines of a thread.

ghost use Rattle.std.specs.Prelude.{◌≡◌, ◌<◌, length, OnErr, Some};
ghost use Rattle.rc_lang.specs.Parts.{view_thread};
ghost use Rattle.rc_lang.specs.Program as programs;
ghost use Rattle.rc_lang.specs.Kept.{IsProgram};
ghost use Rattle.rc_lang.specs.Views.{view_of};
ghost use Rattle.rc_verify.specs.Answer.{OnThread};
ghost use Rattle.rc_verify.specs.Walk as spec;

use crate::arms::{
    Peek, arms_of, close_peek, end_arms, enter_case, enter_none, enter_other, open_peek,
};
use crate::branches::{begin_else, end_if, enter_if};
use crate::loops::{close_loop, leave_loop, open_loop};
use crate::stack::StateStack;
use rc_lang::lines::Stmt;
use rc_lang::program::{Program, Thread};
use rc_rules::cause::Cause;
use rc_rules::state::{State, transfer};

/// What is known at the place of a thread that a walk has come to, and what it needs for the lines that close a block.
#[derive(Drop)]
pub struct Walk<'a> {
    pub state: State<'a>,
    /// At most one peek is open.
    peek: Peek<'a>,
    /// Where the test of each open if may fail, or after its else the end of its first branch.
    branches: StateStack<'a>,
    /// What is known where the breaks so far of each open loop join.
    loops: StateStack<'a>,
}

impl<'a> Walk<'a> {
    /// Is before the first line of a thread. A walk is large, so all threads are walked over with one.
    #[inline(always)]
    pub fn new(program: &'a Program, thread: u32) -> Walk<'a>
        requires made { IsProgram program.now }
        requires there { thread < length program.now.threads }
        ensures { OnThread program.now thread (λ t. spec.Reaches (view_of program.now thread) t 0 result) }
    {
        Walk {
            state: State::first(program, thread),
            peek: Peek::none(program.view(thread as usize)),
            branches: StateStack::new(),
            loops: StateStack::new(),
        }
    }

    /// Is before the first line of a thread, whatever was walked over before.
    pub fn begin(&mut self, program: &'a Program, thread: u32)
        requires made { IsProgram program.now }
        requires there { thread < length program.now.threads }
        ensures { OnThread program.now thread (λ t. spec.Reaches (view_of program.now thread) t 0 self.new) }
    {
        self.state = State::first(program, thread);
        self.branches.clear();
        self.peek.close();
        self.loops.clear();
    }
}

/// Goes over the statement at a place: the least premise that fails, if one does.
pub fn pass<'a>(walk: &mut Walk<'a>, thread: &Thread, place: usize, stmt: Stmt) -> Result<(), Cause>
    requires here { programs.stmt_at thread.now.lines.items place ≡ Some stmt }
    requires reaches { spec.IsBefore (view_thread thread.now) place walk.old }
    ensures passes { spec.Passes (view_thread thread.now) place walk.old walk.new result }
    ensures stays { OnErr result (walk.new.state ≡ walk.old.state) }
{
    match stmt {
        Stmt::Do(_) => transfer(&mut walk.state, &stmt),
        Stmt::Put(pool, k) => walk.state.put(pool, &thread.lists[k]),
        Stmt::Lock(takes) => walk.state.enter_lock(takes),
        Stmt::EndLock(_, releases) => walk.state.release(releases),
        Stmt::If(test) => enter_if(&mut walk.state, &mut walk.branches, test, &thread.lists),
        Stmt::Else(_) => {
            begin_else(&mut walk.state, &mut walk.branches);
            Ok(())
        }
        Stmt::EndIf(_) => end_if(&mut walk.state, &mut walk.branches),
        Stmt::Peek(variable) => open_peek(&mut walk.state, &mut walk.peek, variable),
        Stmt::Case(_, user_data) => enter_case(&mut walk.state, arms_of(&walk.peek), user_data),
        Stmt::Other(_) => enter_other(&mut walk.state, arms_of(&walk.peek)),
        Stmt::Nothing(_) => enter_none(&mut walk.state, arms_of(&walk.peek)),
        Stmt::EndArm(_) => end_arms(&mut walk.state, &mut walk.peek),
        Stmt::EndPeek(_) => close_peek(&mut walk.state, &mut walk.peek),
        Stmt::Loop(k) => open_loop(&mut walk.state, &mut walk.loops, &thread.lists[k]),
        Stmt::EndLoop(_, k) => close_loop(&mut walk.state, &mut walk.loops, &thread.lists[k]),
        Stmt::Break(_, releases, _) => leave_loop(&mut walk.state, &mut walk.loops, releases),
    }
}
