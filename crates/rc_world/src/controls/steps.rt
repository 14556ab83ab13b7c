//! What the steps of threads do to their controls.

ghost use Rattle.std.specs.Prelude.{◌≡◌, ◌<◌, ◌≤◌, length, Some, IsSome};
ghost use Rattle.rc_lang.specs.declared.lines.Op.TheVariants.{Set, Submit};
ghost use Rattle.rc_lang.specs.declared.lines.Stmt.TheVariants.{Break, Do, If, Lock, Peek, Put};
ghost use Rattle.rc_lang.specs.Parts.{view_items};
ghost use Rattle.rc_lang.specs.Program.{end_at, lists_of};
ghost use Rattle.rc_split.specs.Pools.{includes, pool_of};
ghost use Rattle.rc_world.specs.declared.controls.Answer.TheVariants.{Plain};
ghost use Rattle.rc_world.specs.Changes.{Acts, Decides, Moves, StandsAt, TestIsSmall, act_at, after_take, if_rule, gone_to, standing_at, with_pools, with_variable};
ghost use Rattle.rc_world.specs.Controls.{controls_step, goes_on, list_at, loads, releases};

use super::places::{arm_for, none_arm, number_of_event, rest};
use super::{Answer, Controls, Look};
use crate::event::{Action, Event};
use rc_lang::lines::{Locks, Test};
use rc_lang::program::{Items, Program};

/// The value of a variable after a peek without a completion: `-EAGAIN` (`io_uring_peek_cqe(3)`).
const NO_COMPLETION: i64 = -11;

impl Controls {
    /// What `advance` does.
    pub(crate) fn step(&mut self, program: &Program, thread: u32, answer: Answer) -> Event
        requires { IsSome (controls_step program.now self.old thread answer) }
        ensures { controls_step program.now self.old thread answer ≡ Some (result, self.new) }
    {
        let Some(place) = self.place(thread) else {
            unreachable!()
        };
        let Some(line) = self.line(program, thread) else {
            unreachable!()
        };
        let action = self.act(program, thread, place, line.stmt, answer);
        Event::ByThread {
            thread,
            line: number_of_event(program, thread, line),
            action,
        }
    }

    // The thread goes on after its line with this value of a variable.
    pub(super) fn assign(
        &mut self,
        program: &Program,
        thread: u32,
        place: usize,
        x: usize,
        value: i64,
    ) -> Action
        requires exists { thread < length self.old.threads }
        requires here { (standing_at self.old thread).place ≡ place }
        requires within { place ≤ 4096 }
        requires variable { x < 64 }
        ensures { Acts program.now thread self.old (Do (Set x value)) Plain result self.new }
    {
        self.set(thread, x, value);
        self.pass(program, thread, place, Action::VariableSet(value))
    }

    // The step of a load.
    pub(super) fn load(
        &mut self,
        program: &Program,
        thread: u32,
        place: usize,
        x: usize,
        answer: Answer,
    ) -> Action
        requires exists { thread < length self.old.threads }
        requires here { (standing_at self.old thread).place ≡ place }
        requires within { place ≤ 4096 }
        requires variable { x < 64 }
        requires step { IsSome (loads self.old (standing_at self.old thread) x answer) }
        ensures { Moves program.now thread self.old (λ c t. loads c t x answer) result self.new }
    {
        let Answer::Byte(byte) = answer else {
            unreachable!()
        };
        self.set(thread, x, i64::from(byte));
        self.pass(program, thread, place, Action::Loaded(byte))
    }

    // The step of a submit.
    pub(super) fn submit(
        &mut self,
        program: &Program,
        thread: u32,
        place: usize,
        x: usize,
        answer: Answer,
    ) -> Action
        requires exists { thread < length self.old.threads }
        requires here { (standing_at self.old thread).place ≡ place }
        requires within { place ≤ 4096 }
        requires variable { x < 64 }
        requires step { IsSome (act_at program.now thread self.old (Do (Submit x)) answer) }
        ensures { Acts program.now thread self.old (Do (Submit x)) answer result self.new }
    {
        let Answer::Number(taken) = answer else {
            unreachable!()
        };
        self.set(thread, x, i64::from(taken));
        self.pass(program, thread, place, Action::Submitted(taken))
    }

    // The step of a lock, whose locks nobody holds.
    pub(super) fn lock(
        &mut self,
        program: &Program,
        thread: u32,
        place: usize,
        wanted: Locks,
        answer: Answer,
    ) -> Action
        requires here { StandsAt program.now self.old thread place (Lock wanted) }
        requires step { IsSome (act_at program.now thread self.old (Lock wanted) answer) }
        ensures { Acts program.now thread self.old (Lock wanted) answer result self.new }
    {
        self.holders = self.holders.held_by(Some(thread), wanted);
        self.pass(program, thread, place, Action::Locked(wanted))
    }

    // The step of the closing brace of a lock.
    pub(super) fn release(
        &mut self,
        program: &Program,
        thread: u32,
        place: usize,
        released: Locks,
        answer: Answer,
    ) -> Action
        requires exists { thread < length self.old.threads }
        requires here { (standing_at self.old thread).place ≡ place }
        requires within { place ≤ 4096 }
        requires step { IsSome (releases self.old (standing_at self.old thread) released answer) }
        ensures { Moves program.now thread self.old (λ c t. releases c t released answer) result
            self.new }
    {
        self.holders = self.holders.held_by(None, released);
        self.pass(program, thread, place, Action::Released(released))
    }

    // The items of the thread's list with this number, read at its variables: each of its names stands for itself.
    fn list<'p>(&self, program: &'p Program, thread: u32, k: usize) -> &'p Items
        requires { k < length (lists_of program.now thread) }
        ensures { view_items result.now ≡ list_at program.now thread (standing_at self.now thread)
            k }
    {
        &program.lists_of(thread as usize)[k]
    }

    // The step of a put.
    pub(super) fn put(
        &mut self,
        program: &Program,
        thread: u32,
        place: usize,
        pool: Option<usize>,
        k: usize,
        answer: Answer,
    ) -> Action
        requires here { StandsAt program.now self.old thread place (Put pool k) }
        requires step { IsSome (act_at program.now thread self.old (Put pool k) answer) }
        ensures { Acts program.now thread self.old (Put pool k) answer result self.new }
    {
        let items = self.list(program, thread, k);
        self.pools.put(pool, program, items);
        self.pass(program, thread, place, Action::ItemsPut)
    }

    // Takes the items out of a pool, if it has all of them; whether it had.
    pub(super) fn take(
        &mut self,
        program: &Program,
        thread: u32,
        pool: Option<usize>,
        k: usize,
    ) -> bool
        requires { k < length (lists_of program.now thread) }
        ensures holds { result ≡ includes program.now (pool_of self.old.pools pool)
            (list_at program.now thread (standing_at self.old thread) k) }
        ensures pools { self.new ≡ after_take program.now thread pool k self.old result }
    {
        let items = self.list(program, thread, k);
        let holds = self.pools.includes(pool, program, items);
        if holds {
            self.pools.take(pool, program, items);
        }
        holds
    }

    // What an if decides. An `if take` that holds takes its items out of the pool that it names.
    pub(super) fn decide(
        &mut self,
        program: &Program,
        thread: u32,
        test: Test,
        answer: Answer,
    ) -> bool
        requires exists { thread < length self.old.threads }
        requires within { TestIsSmall program.now thread test }
        requires step { IsSome (act_at program.now thread self.old (If test) answer) }
        ensures pools { self.new ≡ with_pools self.old self.new.pools }
        ensures step { Decides program.now thread self.old test answer result self.new }
    {
        match test {
            Test::Compare(x, comparison, n) => comparison.compares(self.variable(thread, x), n),
            Test::ReadyZero => match answer {
                Answer::Number(used) => used == 0,
                _ => unreachable!(),
            },
            Test::SpaceAtLeast(wanted) => match answer {
                Answer::Number(free) => i64::from(wanted) <= i64::from(free),
                _ => unreachable!(),
            },
            Test::Take(pool, k) => self.take(program, thread, pool, k),
            Test::Any => match answer {
                Answer::Number(chosen) => chosen == 1,
                _ => unreachable!(),
            },
        }
    }

    // The step of an if that is decided.
    pub(super) fn branch(
        &mut self,
        program: &Program,
        thread: u32,
        place: usize,
        holds: bool,
    ) -> Action
        requires exists { thread < length self.old.threads }
        requires here { (standing_at self.old thread).place ≡ place }
        requires within { place ≤ 4096 }
        requires end { end_at program.now thread place ≤ 4096 }
        ensures { Moves program.now thread self.old (if_rule program.now thread holds) result
            self.new }
    {
        let last = if holds {
            place
        } else {
            program.end_at(thread as usize, place)
        };
        self.go(program, thread, last + 1);
        Action::Branched(holds)
    }

    // The step of a peek: to the arm for the front's user data, or to that for no completion.
    pub(super) fn peek(
        &mut self,
        program: &Program,
        thread: u32,
        place: usize,
        x: usize,
        answer: Answer,
    ) -> Action
        requires here { StandsAt program.now self.old thread place (Peek x) }
        requires step { IsSome (act_at program.now thread self.old (Peek x) answer) }
        ensures { Acts program.now thread self.old (Peek x) answer result self.new }
    {
        match answer {
            Answer::Plain => {
                let arm = none_arm(program, thread, place);
                self.set(thread, x, NO_COMPLETION);
                self.go(program, thread, arm + 1);
                Action::PeekedNone
            }
            Answer::Number(_) => unreachable!(),
            Answer::Byte(_) => unreachable!(),
            Answer::Front(completion) => {
                let arm = arm_for(program, thread, place, completion.user_data);
                self.set(thread, x, i64::from(completion.res));
                self.look = Look::Peeked;
                self.go(program, thread, arm + 1);
                Action::Peeked(completion)
            }
        }
    }

    // The step of a break out of the loop at this place.
    pub(super) fn leave(
        &mut self,
        program: &Program,
        thread: u32,
        top: usize,
        releases: Locks,
        leaves: bool,
    ) -> Action
        requires exists { thread < length self.old.threads }
        requires end { end_at program.now thread top ≤ 4096 }
        ensures { Acts program.now thread self.old (Break top releases leaves) Plain result
            self.new }
    {
        self.holders = self.holders.held_by(None, releases);
        if leaves {
            self.look = Look::Unseen;
        }
        let end = program.end_at(thread as usize, top);
        self.go(program, thread, end + 1);
        Action::LoopLeft
    }

    // The thread goes to the next line.
    pub(super) fn pass(
        &mut self,
        program: &Program,
        thread: u32,
        place: usize,
        action: Action,
    ) -> Action
        requires exists { thread < length self.old.threads }
        requires here { (standing_at self.old thread).place ≡ place }
        requires within { place ≤ 4096 }
        ensures { Moves program.now thread self.old (λ c t. Some (goes_on c t action)) result
            self.new }
    {
        self.go(program, thread, place + 1);
        action
    }

    // A variable gets another value.
    pub(super) fn set(&mut self, thread: u32, x: usize, value: i64)
        requires exists { thread < length self.old.threads }
        requires variable { x < 64 }
        ensures { self.new ≡ with_variable self.old thread x value }
    {
        self.threads[thread as usize].variables[x] = value;
    }

    // The thread goes to this place, or to where that leads.
    pub(super) fn go(&mut self, program: &Program, thread: u32, start: usize)
        requires exists { thread < length self.old.threads }
        ensures { self.new ≡ gone_to program.now self.old thread start }
    {
        let (place, ends_arm) = rest(program, thread, start);
        self.threads[thread as usize].place = place;
        if ends_arm {
            self.look = Look::Unseen;
        }
    }
}
