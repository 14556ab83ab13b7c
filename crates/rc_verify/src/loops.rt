//! Loops and their breaks.

ghost use Rattle.std.specs.Prelude.{◌≡◌, ◌<◌, length, IsSome, OnErr, OnOk};
ghost use Rattle.rc_lang.specs.Parts.{view_items};
ghost use Rattle.rc_lang.specs.Kept.{IsList};
ghost use Rattle.rc_rules.specs.States as states;
ghost use Rattle.rc_verify.specs.Stack.{OnLast, last_of};
ghost use Rattle.rc_verify.specs.Loops as spec;
ghost use Rattle.rc_verify.specs.Loops.{Closes};

use crate::stack::StateStack;
use rc_lang::lines::Locks;
use rc_lang::program::Items;
use rc_rules::cause::Cause;
use rc_rules::state::State;

/// `loop keeps ITEMS {`. At most 30 loops are open.
pub fn open_loop<'a>(
    state: &mut State<'a>,
    loops: &mut StateStack<'a>,
    items: &Items,
) -> Result<(), Cause>
    requires few { length loops.old < 31 }
    requires list { IsList (states.program_of state.old) (view_items items.now) }
    ensures gives { spec.OpensLoop (view_items items.now) state.old state.new result }
    ensures kept { OnOk result (spec.KeepsDead state.old loops.old loops.new) }
{
    state.enter_loop(items)?;
    loops.push_dead(state);
    Ok(())
}

/// The closing brace of a loop: what goes on after it comes from its breaks.
pub fn close_loop<'a>(
    state: &mut State<'a>,
    loops: &mut StateStack<'a>,
    items: &Items,
) -> Result<(), Cause>
    requires { IsSome (last_of loops.old) }
    ensures closes { Closes (view_items items.now) state.old loops.old loops.new state.new result }
    ensures stays { OnErr result (state.new ≡ state.old) }
{
    state.loop_end(items)?;
    state.copy_from(loops.top());
    loops.pop();
    Ok(())
}

/// `break`, which releases these locks. Nothing comes from above after it.
pub fn leave_loop<'a>(
    state: &mut State<'a>,
    loops: &mut StateStack<'a>,
    releases: Locks,
) -> Result<(), Cause>
    requires kept { IsSome (last_of loops.old) }
    requires fits { OnLast loops.old (λ s. spec.MayBreak s state.old releases) }
    ensures gives { spec.LeavesLoop releases state.old state.new result }
    ensures kept { OnOk result (spec.JoinsLoop releases state.old loops.old loops.new) }
{
    state.may_break(releases)?;
    state.carry_out(releases);
    loops.join_top(state);
    state.die();
    Ok(())
}
