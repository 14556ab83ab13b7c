//! The arms of the peek that is open.

ghost use Rattle.std.specs.Prelude.{◌≡◌, ◌∷◌, [], Bool, true, false, IsSome, IfSome, None, OnErr, OnOk, Some};
ghost use Rattle.rc_lang.specs.Resolved.{DeclaresToken};
ghost use Rattle.rc_rules.specs.Rules as rules;
ghost use Rattle.rc_rules.specs.Sides as sides;
ghost use Rattle.rc_rules.specs.States as states;
ghost use Rattle.rc_rules.specs.declared.flag.Write.TheVariants as writes;
ghost use Rattle.rc_rules.specs.declared.mode.Peeked.TheVariants as peeks;
ghost use Rattle.rc_verify.specs.Arms as spec;
ghost use Rattle.rc_verify.specs.declared.arms.Arms as parts;

use rc_lang::view::View;
use rc_rules::cause::Cause;
use rc_rules::state::State;
use std::marker::Model;

/// What is known of the peek that is open: the state before its arms, and where their ends join.
#[derive(Drop)]
pub struct Arms<'a> {
    pub before: State<'a>,
    /// What is known where the ends so far join, as long as they agree.
    pub ends: State<'a>,
    /// Whether the ends so far have the slot at one stage, and what is peeked got alike.
    pub agree: bool,
}

/// The peek that is open, if one is. Arms are large, so their room stays where none is.
#[derive(Drop)]
pub struct Peek<'a> {
    arms: Arms<'a>,
    is_open: bool,
}

impl<'a> Model for Peek<'a> {
    ghost use Rattle.std.specs.Prelude.{Option, Some, None, cond};
    ghost use Rattle.rc_verify.specs.declared.arms.Arms.{Arms};

    ghost Value = { Option Arms };

    ghost view = { λ p. cond p.is_open (Some p.arms) None };
}

impl<'a> Peek<'a> {
    /// None is open.
    pub fn none(view: View<'a>) -> Peek<'a>
        ensures { result ≡ None }
    {
        Peek {
            arms: Arms {
                before: State::dead(view, None),
                ends: State::dead(view, None),
                agree: true,
            },
            is_open: false,
        }
    }

    /// None is open any more.
    pub fn close(&mut self)
        ensures { self.new ≡ None }
    {
        self.is_open = false;
    }
}

/// `peek_cqe x {`, which asks for the lock of the completion side, and then writes the variable: what was known of a flag
/// is lost.
pub fn open_peek<'a>(
    state: &mut State<'a>,
    peek: &mut Peek<'a>,
    variable: usize,
) -> Result<(), Cause>
    ensures opens { spec.OpensPeek variable state.old state.new peek.new result }
    ensures stays { OnErr result (state.new ≡ state.old) }
{
    state.may_peek()?;
    let arms = &mut peek.arms;
    arms.ends.die_as(state);
    peek_into(state, variable);
    arms.before.copy_from(state);
    arms.agree = true;
    peek.is_open = true;
    Ok(())
}

/// What holds after a peek into the variable, before its arms.
fn peek_into(state: &mut State, variable: usize)
    ensures { spec.PeeksInto variable state.old state.new }
{
    if state.flag() == Some(variable) {
        state.flag_lost();
    }
}

/// The arms of the peek that is open. There is one.
pub fn arms_of<'a, 'b>(peek: &'b Peek<'a>) -> &'b Arms<'a>
    requires { IsSome peek.now }
    ensures { peek.now ≡ Some result.now }
{
    &peek.arms
}

/// `case U {`. The token is declared.
pub fn enter_case<'a>(state: &mut State<'a>, arms: &Arms<'a>, user_data: u64) -> Result<(), Cause>
    requires { DeclaresToken (states.program_of arms.now.before) user_data }
    ensures { spec.EntersArm arms.now (rules.case_at user_data) state.new result }
{
    state.copy_from(&arms.before);
    state.arm_case(user_data)?;
    Ok(())
}

/// `other {`.
pub fn enter_other<'a>(state: &mut State<'a>, arms: &Arms<'a>) -> Result<(), Cause>
    ensures { spec.EntersArm arms.now (rules.peek_at peeks.SeesOther) state.new result }
{
    state.copy_from(&arms.before);
    state.arm_other()
}

/// `none {`.
pub fn enter_none<'a>(state: &mut State<'a>, arms: &Arms<'a>) -> Result<(), Cause>
    ensures { spec.EntersArm arms.now (rules.peek_at peeks.Unseen) state.new result }
{
    state.copy_from(&arms.before);
    state.arm_none()
}

/// An arm's end joins the ends before it, as long as they agree.
fn join_end<'a>(arms: &mut Arms<'a>, end: &State<'a>)
    requires of { states.IsOfSame end.now arms.old.ends }
    requires alike { spec.MayEnd arms.old (states.label_of end.now) }
    ensures before { arms.new.before ≡ arms.old.before }
    ensures of { states.IsOfSame arms.new.ends arms.old.ends }
    ensures joins { spec.JoinsEnd arms.old arms.new (states.label_of end.now) }
{
    if arms.agree {
        arms.agree = arms.ends.meet(end).is_ok();
    }
}

/// The closing brace of an arm: nothing comes from above after it.
fn end_arm<'a>(state: &mut State<'a>, arms: &mut Arms<'a>) -> Result<(), Cause>
    requires of { states.IsOfSame state.old arms.old.ends }
    requires alike { spec.MayEnd arms.old (spec.arm_end state.old) }
    ensures gives { spec.LeavesArm state.old state.new result }
    ensures ends { OnOk result (spec.EndsArm arms.old arms.new state.old) }
{
    state.may_end_arm()?;
    state.forget_peeked();
    join_end(arms, state);
    state.die();
    Ok(())
}

/// The closing brace of an arm, of the peek that is open. There is one.
pub fn end_arms<'a>(state: &mut State<'a>, peek: &mut Peek<'a>) -> Result<(), Cause>
    requires kept { IsSome peek.old }
    requires of { IfSome peek.old (λ a. states.IsOfSame state.old a.ends) }
    requires alike { IfSome peek.old (λ a. spec.MayEnd a (spec.arm_end state.old)) }
    ensures gives { spec.LeavesArm state.old state.new result }
    ensures ends { OnOk result ((a : parts.Arms) → peek.old ≡ Some a → spec.EndsArmIn a peek.new state.old) }
{
    end_arm(state, &mut peek.arms)
}

/// The closing brace of a peek. There is one open.
pub fn close_peek<'a>(state: &mut State<'a>, peek: &mut Peek<'a>) -> Result<(), Cause>
    requires { IsSome peek.old }
    ensures closes { IfSome peek.old (λ a. spec.ClosesPeek a state.new result) }
    ensures none { peek.new ≡ None }
    ensures stays { OnErr result (state.new ≡ state.old) }
{
    peek.is_open = false;
    if !peek.arms.agree {
        return Err(Cause::JoinMismatch);
    }
    state.copy_from(&peek.arms.ends);
    Ok(())
}
