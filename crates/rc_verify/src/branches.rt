//! The branches of ifs.

ghost use Rattle.std.specs.Prelude.{◌≡◌, ◌<◌, ◌∷◌, ◌++◌, [], length, map, IsSome, Some, OnOk};
ghost use Rattle.rc_lang.specs.Parts.{view_items};
ghost use Rattle.rc_rules.specs.States as states;
ghost use Rattle.rc_rules.specs.States.{label_of};
ghost use Rattle.rc_verify.specs.Arms.{AreAlike, GivesMeet};
ghost use Rattle.rc_verify.specs.Branches.{EntersIf, KeepsOther, MayTest, TakesBranch};
ghost use Rattle.rc_verify.specs.Stack.{OnLast, last_of, rest_of};

use crate::stack::StateStack;
use rc_lang::lines::Test;
use rc_lang::program::Items;
use rc_rules::cause::Cause;
use rc_rules::state::State;

/// What goes to a branch of a test, as far as the test is of the thread's flag: to the first, where the test holds, or
/// to the other.
pub fn take_branch(state: &mut State, test: Test, first: bool)
    ensures { TakesBranch test first state.old state.new }
{
    if let Test::Compare(variable, comparison, n) = test {
        if state.flag() == Some(variable) {
            state.flag_test(comparison, n, first);
        }
    }
}

/// What goes to the first branch of a test, in a thread with these lists of items. No count is above 2^19.
fn test_state(state: &mut State, test: Test, lists: &[Items]) -> Result<(), Cause>
    requires test { MayTest (states.program_of state.old) (map view_items lists.now) test }
    requires small { states.OnBoth states.IsSmall state.old }
    ensures { EntersIf (map view_items lists.now) test state.old state.new result }
{
    match test {
        Test::Compare(_, _, _) => {
            take_branch(state, test, true);
            Ok(())
        }
        Test::Any => Ok(()),
        Test::ReadyZero => state.ready_zero(),
        Test::SpaceAtLeast(n) => state.space_at_least(n),
        Test::Take(pool, k) => state.take(pool, &lists[k]),
    }
}

/// `if .. {`, in a thread with these lists of items. At most 30 branches are open, and no
/// count is above 2^19.
pub fn enter_if<'a>(
    state: &mut State<'a>,
    branches: &mut StateStack<'a>,
    test: Test,
    lists: &[Items],
) -> Result<(), Cause>
    requires few { length branches.old < 31 }
    requires test { MayTest (states.program_of state.old) (map view_items lists.now) test }
    requires small { states.OnBoth states.IsSmall state.old }
    ensures gives { EntersIf (map view_items lists.now) test state.old state.new result }
    ensures kept { OnOk result (KeepsOther test state.old branches.old branches.new) }
{
    branches.push_skipped(state, test);
    test_state(state, test, lists)
}

/// `} else {`: where the test may fail goes on, and the end of the first branch is kept.
pub fn begin_else<'a>(state: &mut State<'a>, branches: &mut StateStack<'a>)
    requires { IsSome (last_of branches.old) }
    ensures state { last_of branches.old ≡ Some state.new }
    ensures kept { branches.new ≡ rest_of branches.old ++ Some state.old ∷ [] }
{
    branches.swap_top(state);
}

/// The closing brace of an if.
pub fn end_if<'a>(state: &mut State<'a>, branches: &mut StateStack<'a>) -> Result<(), Cause>
    requires kept { IsSome (last_of branches.old) }
    requires of { OnLast branches.old (λ s. states.IsOfSame s state.old) }
    requires alike { OnLast branches.old (λ s. AreAlike state.old (label_of s)) }
    ensures gives { OnLast branches.old (λ s. GivesMeet state.old state.new (label_of s) result) }
    ensures rest { branches.new ≡ rest_of branches.old }
{
    let answer = state.meet(branches.top());
    branches.pop();
    answer
}
