//! What holds at a point of a thread, and the rules that change it.

ghost use Rattle.std.specs.Prelude.{◌≡◌, ◌<◌, ◌∷◌, [], Bool, true, IsOkAnd, IfOk, Some, map, slice_get, length};
ghost use Rattle.rc_lang.specs.Parts.{view_items};
ghost use Rattle.rc_lang.specs.Program as programs;
ghost use Rattle.rc_lang.specs.Kept.{IsItems};
ghost use Rattle.rc_lang.specs.Resolved.{DeclaresToken};
ghost use Rattle.rc_lang.specs.Views.{seen, view_of};
ghost use Rattle.rc_lang.specs.declared.lines.Op.{Op};
ghost use Rattle.rc_lang.specs.declared.lines.Stmt.TheVariants as stmts;
ghost use Rattle.rc_lang.specs.declared.lines.Test.TheVariants as tests;
ghost use Rattle.rc_rules.specs.Labels.{Dead};
ghost use Rattle.rc_rules.specs.OneRule as one;
ghost use Rattle.rc_rules.specs.Premises.{Tests};
ghost use Rattle.rc_rules.specs.Rules as rules;
ghost use Rattle.rc_rules.specs.Sides as sides;
ghost use Rattle.rc_rules.specs.States as spec;
ghost use Rattle.rc_rules.specs.declared.flag.Write.TheVariants as writes;
ghost use Rattle.rc_rules.specs.declared.mode.Peeked.TheVariants as peeks;

use crate::cause::Cause;
use crate::flag::{Write, is_zero, side_goes, write_of};
use crate::mode::Mode;
use crate::premises::lesser;
use crate::rule::Rule;
use crate::side::Side;
use crate::{blocks, ops};
use rc_lang::lines::{Comparison, Locks, Op, Stmt, Test};
use rc_lang::program::{Items, Program};
use rc_lang::view::View;
use std::alloc::{AllocError, Global};
use std::marker::Model;

/// What a thread holds at a point, which locks it has, and by those how many entries are queued at most, how far the
/// open slot is and what is peeked: while its flag is 0, and while it isn't. Or a side is dead: nothing reaches the
/// point with such a flag. Without a flag the second side is dead.
#[derive(Drop)]
pub struct State<'a> {
    flag: Option<usize>,
    zero: Side<'a>,
    other: Side<'a>,
}

impl<'a> Model for State<'a> {
    ghost use Rattle.rc_rules.specs.States as spec;

    ghost Value = { spec.State };

    ghost view = { λ s. record { flag = s.flag; zero = s.zero; other = s.other } };

    ghost invariant = { λ s. spec.IsState (record { flag = s.flag; zero = s.zero; other = s.other }) };
}

/// Goes over a statement without a block, which is no `break`. No count is above 2^19.
pub fn transfer(state: &mut State, stmt: &Stmt) -> Result<(), Cause>
    requires small { spec.OnBoth spec.IsSmall state.old }
    requires plain { (op : Op) × (stmt.now ≡ stmts.Do op) }
    ensures { (op : Op) → stmt.now ≡ stmts.Do op → spec.Does state.old state.new result op }
{
    let Stmt::Do(op) = stmt else {
        return Ok(());
    };
    state.follow_op(op)?;
    state.turn(write_of(state.flag, *op));
    Ok(())
}

/// The items of a thread's header.
fn header(program: &Program, thread: u32) -> &Items
    requires { thread < length program.now.threads }
    ensures items { (t : programs.Thread) → slice_get program.now.threads thread ≡ Some t → view_items result.now ≡ t.items }
    ensures made { IsItems (view_of program.now thread) (view_items result.now) }
{
    &program.threads()[thread as usize].items
}

impl<'a> State<'a> {
    /// The state of a thread's header: its items, without a lock. This takes no memory and always answers Ok.
    pub fn start(_alloc: Global, program: &'a Program, thread: u32) -> Result<State<'a>, AllocError>
        requires { thread < length program.now.threads }
        ensures { IsOkAnd result (λ s. spec.IsStart program.now thread s) }
    {
        Ok(State::first(program, thread))
    }

    /// The state of a thread's header, as [`start`](State::start) makes it.
    pub fn first(program: &'a Program, thread: u32) -> State<'a>
        requires { thread < length program.now.threads }
        ensures { spec.IsStart program.now thread result }
    {
        let view = program.view(thread as usize);
        State {
            flag: program.threads()[thread as usize].flag(),
            zero: Side::first(view, header(program, thread)),
            other: Side::dead(view),
        }
    }

    /// The same state again. This takes no memory and always answers Ok.
    pub fn copy(&self, _alloc: Global) -> Result<State<'a>, AllocError>
        ensures { IsOkAnd result (λ s. s ≡ self.now) }
    {
        Ok(self.again())
    }

    /// The same state again, as [`copy`](State::copy) makes it.
    pub fn again(&self) -> State<'a>
        ensures { result ≡ self.now }
    {
        State {
            flag: self.flag,
            zero: self.zero.again(),
            other: self.other.again(),
        }
    }

    /// Becomes the same state as another, with no copy between. Where a side is dead its rows aren't copied.
    pub fn copy_from(&mut self, other: &State<'a>)
        ensures { self.new ≡ other.now }
    {
        self.flag = other.flag;
        self.zero.copy_from(&other.zero);
        self.other.copy_from(&other.other);
    }

    /// A state of the view, and of a thread with this flag, that nothing reaches.
    pub fn dead(view: View<'a>, flag: Option<usize>) -> State<'a>
        ensures dead { spec.OnBoth (λ s. s ≡ Dead) result }
        ensures of { spec.program_of result ≡ seen view.entry }
        ensures flag { result.flag ≡ flag }
    {
        State {
            flag,
            zero: Side::dead(view),
            other: Side::dead(view),
        }
    }

    /// The state is dead from now on, as after the end of an arm.
    pub fn die(&mut self)
        ensures dead { spec.OnBoth (λ s. s ≡ Dead) self.new }
        ensures of { spec.IsOfSame self.new self.old }
    {
        self.zero.die();
        self.other.die();
    }

    /// Becomes a state of the same program and thread as another, that nothing reaches.
    pub fn die_as(&mut self, other: &State<'a>)
        ensures dead { spec.OnBoth (λ s. s ≡ Dead) self.new }
        ensures of { spec.IsOfSame self.new other.now }
    {
        self.flag = other.flag;
        self.zero.die_in(other.view());
        self.other.die_in(other.view());
    }

    /// The program, as the state's thread names its parts.
    pub fn view(&self) -> View<'a>
        ensures { seen result ≡ spec.program_of self.now }
    {
        self.zero.view()
    }

    /// The flag of the state's thread.
    pub fn flag(&self) -> Option<usize>
        ensures { result ≡ self.now.flag }
    {
        self.flag
    }

    /// Whether something reaches the state.
    fn is_live(&self) -> bool
        ensures { result ≡ spec.is_reached self.now }
    {
        self.zero.is_live() || self.other.is_live()
    }

    /// What is known of the ring on a side that something reaches. On both it is known alike which locks are held, at
    /// which stage the slot is, and whether the front completion is got.
    fn mode(&self) -> Option<Mode>
        ensures value { result ≡ spec.mode_of self.now }
        ensures alike { spec.IsState self.now }
    {
        match self.zero.mode() {
            Some(mode) => Some(mode),
            None => self.other.mode(),
        }
    }

    /// Whether both sides meet what a line needs.
    fn checked(&self, lists: &[Items], stmt: Stmt) -> Result<(), Cause>
        ensures { Tests result (spec.asked_of self.now (map view_items lists.now) stmt) }
    {
        lesser(
            self.zero.checked(lists, true, stmt),
            self.other.checked(lists, false, stmt),
        )
    }

    /// Goes over a line on each side by itself.
    fn follow(&mut self, rule: Rule) -> Result<(), Cause>
        requires { spec.OnBoth (one.MayFollow (spec.program_of self.old) rule) self.old }
        ensures { one.StateGoes rule.entry self.old self.new result }
    {
        if !self.other.is_live() {
            return self.zero.follow(rule);
        }
        if !self.zero.is_live() {
            return self.other.follow(rule);
        }
        self.follow_both(rule)
    }

    /// Goes over a statement on each side by itself. One that only computes asks for nothing and leaves what is held.
    fn follow_op(&mut self, op: &Op) -> Result<(), Cause>
        requires { spec.OnBoth spec.IsSmall self.old }
        ensures { spec.GoesOver self.old self.new result [] (stmts.Do op.now) (spec.done self.old op.now) }
    {
        if ops::only_computes(op) {
            return Ok(());
        }
        self.follow(Rule::Do(*op))
    }

    /// A rule tests and changes at once, so each side is changed on a copy until both sides meet their premises.
    #[inline(never)]
    fn follow_both(&mut self, rule: Rule) -> Result<(), Cause>
        requires { spec.OnBoth (one.MayFollow (spec.program_of self.old) rule) self.old }
        ensures { one.StateGoes rule.entry self.old self.new result }
    {
        let mut zero = self.zero.again();
        let mut other = self.other.again();
        let on_zero = zero.follow(rule);
        let on_other = other.follow(rule);
        lesser(on_zero, on_other)?;
        self.zero = zero;
        self.other = other;
        Ok(())
    }

    /// What holds after a write to the flag, or to another variable.
    fn turn(&mut self, write: Write)
        ensures { spec.TurnsBy self.old self.new write }
    {
        match write {
            Write::Untouched => {}
            Write::Number(n) => {
                self.zero.meet(&self.other);
                if is_zero(n) {
                    self.other.die();
                } else {
                    self.other.copy_from(&self.zero);
                    self.zero.die();
                }
            }
            Write::Anything => {
                self.zero.meet(&self.other);
                self.other.copy_from(&self.zero);
            }
        }
    }

    /// Whatever is written to the flag: each side is what is known of both. So it is after a `peek_cqe` into the flag,
    /// before its arms.
    pub fn flag_lost(&mut self)
        ensures { spec.TurnsBy self.old self.new writes.Anything }
    {
        self.turn(Write::Anything);
    }

    /// A branch of a test of the flag: the first, where the test holds, or the other.
    pub fn flag_test(&mut self, op: Comparison, n: i64, first: bool)
        ensures { spec.KeepsWhere self.old self.new (λ z. sides.side_goes op n z first) }
    {
        if !side_goes(op, n, true, first) {
            self.zero.die();
        }
        if !side_goes(op, n, false, first) {
            self.other.die();
        }
    }

    /// `lock {`, `lock sq {` or `lock cq {`: these locks are held. As many entries may be queued as may be left, and
    /// nothing is peeked. The state is dead, or has none of them.
    pub fn enter_lock(&mut self, takes: Locks) -> Result<(), Cause>
        requires { spec.OnBoth (spec.AreFree takes) self.old }
        ensures { spec.EntersLock self.old self.new result takes }
    {
        self.follow(Rule::Lock(takes))
    }

    /// The closing brace of a lock, which releases these. The state is dead, or has them.
    pub fn release(&mut self, releases: Locks) -> Result<(), Cause>
        requires { spec.OnBoth (spec.AreHeld releases) self.old }
        ensures { spec.GoesOver self.old self.new result [] (stmts.EndLock 0 releases) (rules.released releases) }
    {
        self.follow(Rule::Release(releases))
    }

    /// Whether the arms of a peek may be entered here.
    pub fn may_peek(&self) -> Result<(), Cause>
        ensures { Tests result (spec.asked_alike self.now [] (stmts.Peek 0)) }
    {
        self.checked(&[], Stmt::Peek(0))
    }

    /// `case U {`, on the state before the arms; whether the arm can be reached. Where the token is held it can't: no
    /// request under it is in flight. The token is declared.
    pub fn arm_case(&mut self, user_data: u64) -> Result<bool, Cause>
        requires { DeclaresToken (spec.program_of self.old) user_data }
        ensures gives { spec.Gives self.old self.new result (spec.asked_alike self.old [] (stmts.Peek 0)) (λ z. rules.case_at user_data (spec.label_of self.old z) ∷ []) }
        ensures live { IfOk result (λ live. live ≡ spec.is_reached self.new) }
    {
        self.follow(Rule::Case(user_data))?;
        Ok(self.is_live())
    }

    /// `other {`, on the state before the arms.
    pub fn arm_other(&mut self) -> Result<(), Cause>
        ensures { spec.GoesOver self.old self.new result [] (stmts.Peek 0) (rules.peek_at peeks.SeesOther) }
    {
        self.follow(Rule::Other)
    }

    /// Whether an arm may end here.
    pub fn may_end_arm(&self) -> Result<(), Cause>
        ensures { Tests result (spec.asked_alike self.now [] (stmts.EndArm 0)) }
    {
        self.checked(&[], Stmt::EndArm(0))
    }

    /// After an arm nothing is peeked.
    pub fn forget_peeked(&mut self)
        ensures { spec.BecomesEach self.old self.new (rules.peek_at peeks.Unseen) }
    {
        self.zero.forget_peeked();
        self.other.forget_peeked();
    }

    /// `none {`, on the state before the arms, and what is known after an arm: nothing is peeked.
    pub fn arm_none(&mut self) -> Result<(), Cause>
        ensures { spec.GoesOver self.old self.new result [] (stmts.Peek 0) (rules.peek_at peeks.Unseen) }
    {
        self.follow(Rule::Nothing)
    }

    /// The first branch of `if sq_ready == 0`.
    pub fn ready_zero(&mut self) -> Result<(), Cause>
        ensures { spec.GoesInto self.old self.new result [] tests.ReadyZero }
    {
        self.follow(Rule::If(Test::ReadyZero))
    }

    /// The first branch of `if sq_space_left >= n`; n is at most the entries.
    pub fn space_at_least(&mut self, n: u32) -> Result<(), Cause>
        ensures { spec.GoesInto self.old self.new result [] (tests.SpaceAtLeast n) }
    {
        self.follow(Rule::If(Test::SpaceAtLeast(n)))
    }

    /// Whether all sides of both states that something reaches can join. Those of one state can.
    fn may_meet(&self, other: &State) -> Result<(), Cause>
        ensures { Tests result (rules.joins_both (λ z. spec.label_of self.now z ∷ spec.label_of other.now z ∷ [])) }
    {
        match (self.mode(), other.mode()) {
            (Some(mine), Some(theirs)) => blocks::may_join(mine, theirs),
            _ => Ok(()),
        }
    }

    /// The state where this one and another join, both of one program and one thread: side by side, where the slots of
    /// all sides that something reaches are at one stage, and the front completion is got on all of them or on none. All
    /// of those have the same locks.
    pub fn meet(&mut self, other: &State<'a>) -> Result<(), Cause>
        requires of { spec.IsOfSame other.now self.old }
        requires alike { (y z : Bool) → spec.AgreeOnLocks (spec.label_of self.old y) (spec.label_of other.now z) }
        ensures { spec.Gives self.old self.new result (rules.joins_both (λ z. spec.label_of self.old z ∷ spec.label_of other.now z ∷ [])) (λ z. spec.label_of self.old z ∷ spec.label_of other.now z ∷ []) }
    {
        self.may_meet(other)?;
        self.zero.meet(&other.zero);
        self.other.meet(&other.other);
        Ok(())
    }
}

mod loops;
mod pool;
mod sides;
