//! Where each thread is, its variables, who holds the locks, what was done with the front completion, and the pools.

ghost use Rattle.std.specs.Prelude.{◌≡◌, ◌<◌, ◌≤◌, ◌&&◌, is_none, length, map, option_map, pos, replicate, slice_get, IfOk, IsSome, IsOkAnd};
ghost use Rattle.rc_lang.specs.Kept.{IsProgram};
ghost use Rattle.rc_world.specs.Changes.{Acts, StandsAt, act_at, standing_at};
ghost use Rattle.rc_world.specs.Parts.{at_first_line};
ghost use Rattle.rc_world.specs.Controls as spec;
ghost use Rattle.rc_world.specs.Readers as readers;

use self::places::{is_holder, ready_or_taken};
use crate::event::{Action, Completion, Event};
use rc_lang::lines::{Line, Locks, Stmt};
use rc_lang::program::{Program, Thread};
use rc_split::pools::Pools;
use std::alloc::{AllocError, Global};
use std::marker::Model;

mod calls;
mod places;
mod steps;
mod weak;

/// Where a thread is.
#[derive(Clone, Copy)]
struct Control {
    // The place of its next line.
    place: usize,
    // Its variables.
    variables: [i64; 64],
}

/// What a thread has next.
#[derive(Clone, Copy)]
pub enum Next {
    /// A statement, or a mark that is an event.
    Ready(Line),
    /// A lock that takes these, where somebody holds one of them.
    TakenLock(Locks),
    /// Nothing: the thread has ended, or there is no such thread.
    Ended,
}

/// What the world answers to a statement.
#[derive(Clone, Copy)]
pub enum Answer {
    /// Nothing; to a peek, that there is no completion.
    Plain,
    /// The answer of a submit; how many entries are queued (`io_uring_sq_ready(3)`) or free
    /// (`io_uring_sq_space_left(3)`), to the ifs that ask for it; and to an `if any` 1 for its first branch, 0 for its
    /// second.
    Number(i32),
    /// The byte that is loaded.
    Byte(u8),
    /// The front completion, to a peek, to `cqe_get_data64` or to `cqe_seen`.
    Front(Completion),
}

/// What was done with the front completion.
#[derive(Clone, Copy)]
pub enum Look {
    /// Nothing.
    Unseen,
    /// It was peeked.
    Peeked,
    /// It was peeked, and its user data was got: its request is reaped.
    Got,
}

/// Which thread holds each of the two locks.
#[derive(Clone, Copy)]
pub struct Holders {
    /// The lock of the submission side.
    pub sq: Option<u32>,
    /// That of the completion side.
    pub cq: Option<u32>,
}

impl Holders {
    /// Whether nobody holds a lock that is wanted.
    pub fn are_free(self, wanted: Locks) -> bool
        ensures { result ≡ spec.are_free wanted self }
    {
        is_free(wanted.sq, self.sq) && is_free(wanted.cq, self.cq)
    }

    /// Who holds a lock that is wanted, that of the submission side first.
    pub fn taken_by(self, wanted: Locks) -> Option<u32>
        ensures value { result ≡ readers.taken_by wanted self }
        ensures free { spec.are_free wanted self ≡ is_none result }
    {
        match if_wanted(wanted.sq, self.sq) {
            Some(holder) => Some(holder),
            None => if_wanted(wanted.cq, self.cq),
        }
    }

    // Where these locks have another holder, or none.
    fn held_by(self, holder: Option<u32>, locks: Locks) -> Holders
        ensures { result ≡ spec.held_by holder locks self }
    {
        Holders {
            sq: if locks.sq { holder } else { self.sq },
            cq: if locks.cq { holder } else { self.cq },
        }
    }
}

/// Where each thread of a program is, who holds the locks, what was done with the front completion, and the pools.
#[derive(Drop)]
pub struct Controls {
    threads: Vec<Control>,
    holders: Holders,
    look: Look,
    pools: Pools,
}

impl Model for Controls {
    ghost use Rattle.std.specs.Prelude.{◌≤◌, length, map};
    ghost use Rattle.rc_world.specs.Controls as spec;

    ghost Value = { spec.Controls };

    ghost use Rattle.rc_world.specs.Parts.{view_control};

    ghost view = { λ c. record {
      threads = map view_control c.threads.items;
      holders = c.holders;
      look = c.look;
      pools = c.pools;
    } };

    ghost invariant = { λ c. length c.threads.items ≤ 64 };
}

impl Controls {
    ghost use Rattle.rc_world.specs.Items.{next_of};
    ghost use Rattle.rc_world.specs.Faults.{is_holder};
    ghost use Rattle.rc_world.specs.Readers.{variable_in};

    /// Every thread at its first line, its variables 0; the locks are free, nothing is peeked, and the pools have
    /// what their lines say.
    pub fn start(alloc: Global, program: &Program) -> Result<Controls, AllocError>
        ensures start { IfOk result (λ c. c ≡ spec.start_controls program.now) }
        ensures made { IsProgram program.now }
    {
        Ok(Controls {
            threads: first_places(alloc, program.threads())?,
            holders: Holders { sq: None, cq: None },
            look: Look::Unseen,
            pools: Pools::start(alloc, program)?,
        })
    }

    /// What the thread with this number has next. It is a part of its callers, most of which look at its kind alone, so
    /// that the line isn't copied for them.
    #[inline(always)]
    pub fn next(&self, program: &Program, thread: u32) -> Next
        ensures { result ≡ next_of program.now self.now thread }
    {
        match self.line(program, thread) {
            Some(line) => ready_or_taken(self.holders, line),
            None => Next::Ended,
        }
    }

    /// The step of the thread, where the world answers this; it takes no memory.
    pub fn advance(
        &mut self,
        program: &Program,
        thread: u32,
        answer: Answer,
    ) -> Result<Event, AllocError>
        requires { IsSome (spec.controls_step program.now self.old thread answer) }
        ensures { IsOkAnd result
            (λ e. spec.controls_step program.now self.old thread answer ≡ Some (e, self.new)) }
    {
        Ok(self.step(program, thread, answer))
    }

    /// What was done with the front completion.
    pub fn look(&self) -> Look
        ensures { result ≡ self.now.look }
    {
        self.look
    }

    /// What is in the pools.
    pub fn pools(&self) -> &Pools
        ensures { result.now ≡ self.now.pools }
    {
        &self.pools
    }

    /// Which thread holds each of the two locks.
    pub fn holders(&self) -> Holders
        ensures { result ≡ self.now.holders }
    {
        self.holders
    }

    /// Whether the thread holds the lock of the submission side.
    pub(crate) fn has_sq(&self, thread: u32) -> bool
        ensures { result ≡ is_holder self.now.holders.sq thread }
    {
        is_holder(self.holders.sq, thread)
    }

    /// Whether the thread holds the lock of the completion side.
    pub(crate) fn has_cq(&self, thread: u32) -> bool
        ensures { result ≡ is_holder self.now.holders.cq thread }
    {
        is_holder(self.holders.cq, thread)
    }

    /// How many threads there are, at most 64.
    pub(crate) fn count(&self) -> u32
        ensures count { result ≡ length self.now.threads }
        ensures few { result ≤ 64 }
    {
        self.threads.len() as u32
    }

    /// The line that the thread has next, read at its variables.
    pub(crate) fn line(&self, program: &Program, thread: u32) -> Option<Line>
        ensures value { result ≡ spec.next_line program.now self.now thread }
        ensures made { IsProgram program.now }
    {
        let _made = program.entries();
        let control = self.threads.get(thread as usize)?;
        program.read_line_at(thread as usize, &control.variables, control.place)
    }

    /// What a store or a fill of a variable writes: the low eight bits of its value.
    pub fn byte(&self, thread: u32, x: usize) -> u8
        requires exists { thread < length self.now.threads }
        requires within { x < 64 }
        ensures { result ≡ spec.low_byte (spec.variable (standing_at self.now thread) x) }
    {
        (self.variable(thread, x).cast_unsigned() % 256) as u8
    }

    // The value of a variable.
    fn variable(&self, thread: u32, x: usize) -> i64
        requires exists { thread < length self.now.threads }
        requires within { x < 64 }
        ensures { result ≡ spec.variable (standing_at self.now thread) x }
    {
        self.threads[thread as usize].variables[x]
    }

    /// The value of a variable, and 0 where there is no such thread or variable.
    pub(crate) fn value(&self, thread: u32, x: usize) -> i64
        ensures { result ≡ variable_in (slice_get self.now.threads thread) x }
    {
        match self.threads.get(thread as usize) {
            Some(control) => control.variables.get(x).copied().unwrap_or(0),
            None => 0,
        }
    }

    // The place of the thread's next line.
    pub(crate) fn place(&self, thread: u32) -> Option<usize>
        ensures { result ≡ option_map (λ t. t.place) (slice_get self.now.threads thread) }
    {
        let control = self.threads.get(thread as usize)?;
        Some(control.place)
    }

    // The step of a thread that is at this statement.
    fn act(
        &mut self,
        program: &Program,
        thread: u32,
        place: usize,
        stmt: Stmt,
        answer: Answer,
    ) -> Action
        requires here { StandsAt program.now self.old thread place stmt }
        requires step { IsSome (act_at program.now thread self.old stmt answer) }
        ensures { Acts program.now thread self.old stmt answer result self.new }
    {
        match stmt {
            Stmt::Do(op) => self.call(program, thread, place, op, answer),
            Stmt::Put(pool, k) => self.put(program, thread, place, pool, k, answer),
            Stmt::Lock(wanted) => self.lock(program, thread, place, wanted, answer),
            Stmt::EndLock(_, released) => self.release(program, thread, place, released, answer),
            Stmt::If(test) => {
                let holds = self.decide(program, thread, test, answer);
                self.branch(program, thread, place, holds)
            }
            Stmt::Peek(x) => self.peek(program, thread, place, x, answer),
            Stmt::Loop(_) => self.pass(program, thread, place, Action::Looped),
            Stmt::EndLoop(top, _) => {
                self.go(program, thread, top + 1);
                Action::Looped
            }
            Stmt::Break(top, releases, leaves) => self.leave(
                program, thread, top, releases, leaves,
            ),
            Stmt::Else(_) | Stmt::EndIf(_) | Stmt::Case(_, _) | Stmt::Other(_) => unreachable!(),
            Stmt::Nothing(_) | Stmt::EndArm(_) | Stmt::EndPeek(_) => unreachable!(),
        }
    }
}

// Whether nobody holds a lock, if it is wanted.
fn is_free(wanted: bool, holder: Option<u32>) -> bool
    ensures { result ≡ spec.is_free wanted holder }
{
    if !wanted {
        return true;
    }
    match holder {
        None => true,
        Some(_) => false,
    }
}

// Who holds a lock, if it is wanted.
fn if_wanted(wanted: bool, holder: Option<u32>) -> Option<u32>
    ensures { result ≡ readers.if_wanted wanted holder }
{
    if wanted { holder } else { None }
}

// As many threads that begin as these.
fn first_places(alloc: Global, threads: &[Thread]) -> Result<Vec<Control>, AllocError>
    ensures { IfOk result (λ v. v.items ≡ replicate (length threads.now) at_first_line) }
{
    let begun = Control {
        place: 0,
        variables: [0; 64],
    };
    Ok(vec![in alloc; begun; threads.len()]?)
}
