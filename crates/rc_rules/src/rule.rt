//! The rule of one line, on what is held on one side of a state and what is known of the ring there.

ghost use Rattle.std.specs.Prelude.{◌≡◌, map};
ghost use Rattle.rc_lang.specs.Parts.{view_items};
ghost use Rattle.rc_rules.specs.Labels.{Live};
ghost use Rattle.rc_rules.specs.OneRule as rules;
ghost use Rattle.rc_rules.specs.Premises.{Meets};
ghost use Rattle.rc_rules.specs.Rules.{case_at};
ghost use Rattle.rc_rules.specs.States as states;
ghost use Rattle.rc_split.specs.Holdings.{bag};

use crate::blocks::{behind_test, freed, in_arm, locked};
use crate::cause::Cause;
use crate::mode::{Mode, Peeked};
use crate::needs::checked;
use crate::{ops, pool};
use rc_lang::lines::{Locks, Op, Stmt, Test};
use rc_lang::program::Items;
use rc_split::holding::Holding;
use rc_split::part::Part;
use std::slice;

/// What a line is, as far as it is one rule for each side.
#[derive(Clone, Copy)]
pub enum Rule<'a> {
    /// A statement without a block.
    Do(Op),
    /// `put ITEMS` or `put NAME ITEMS`: the number of the pool with the name, and the items.
    Put(Option<usize>, &'a Items),
    /// `lock {`, `lock sq {` or `lock cq {`: the locks that it takes.
    Lock(Locks),
    /// The closing brace of a lock, which releases these.
    Release(Locks),
    /// The first branch of a test of a variable or of the rings.
    If(Test),
    /// The first branch of `if take ITEMS` or `if take NAME ITEMS`, as of a put.
    Take(Option<usize>, &'a Items),
    /// `case U {`.
    Case(u64),
    /// `other {`.
    Other,
    /// `none {`, and what is known after an arm.
    Nothing,
}

/// The line, where a list of items has the number 0. An arm asks what its peek does.
fn line_of(rule: Rule) -> Stmt
    ensures { result ≡ rules.line_of rule.entry }
{
    match rule {
        Rule::Do(op) => Stmt::Do(op),
        Rule::Put(pool, _) => Stmt::Put(pool, 0),
        Rule::Lock(takes) => Stmt::Lock(takes),
        Rule::Release(releases) => Stmt::EndLock(0, releases),
        Rule::If(test) => Stmt::If(test),
        Rule::Take(pool, _) => Stmt::If(Test::Take(pool, 0)),
        _ => Stmt::Peek(0),
    }
}

/// The lists of items that the line's needs name.
fn lists_of<'a>(rule: Rule<'a>) -> &'a [Items]
    ensures { map view_items result.now ≡ rules.lists_of rule.entry }
{
    match rule {
        Rule::Put(_, items) => slice::from_ref(items),
        _ => &[],
    }
}

/// What is known after the line, or None where nothing comes there. None of their needs depends on the side.
pub fn follow(holding: &mut Holding, mode: Mode, rule: Rule) -> Result<Option<Mode>, Cause>
    requires may { rules.MayFollow holding.old.program rule (Live (bag holding.old) mode) }
    requires free { states.IsFreeIn holding.old.program (bag holding.old) mode }
    ensures { rules.FollowsBy holding.old holding.new result rule.entry mode }
{
    checked(holding, lists_of(rule), true, mode, line_of(rule))?;
    Ok(after(holding, mode, rule))
}

/// What is known after a line whose premises hold.
fn after(holding: &mut Holding, mode: Mode, rule: Rule) -> Option<Mode>
    requires met { Meets (rules.rule_premises holding.old.program rule (bag holding.old) mode) }
    requires may { rules.MayFollow holding.old.program rule (Live (bag holding.old) mode) }
    requires free { states.IsFreeIn holding.old.program (bag holding.old) mode }
    ensures { rules.LeavesBy holding.old holding.new result rule.entry mode }
{
    match rule {
        Rule::Do(op) => Some(ops::after(holding, mode, &op)),
        Rule::Put(_, items) => {
            holding.lose(items);
            Some(mode)
        }
        Rule::Lock(takes) => Some(locked(holding.view(), takes, mode)),
        Rule::Release(releases) => Some(freed(releases, mode)),
        Rule::If(test) => Some(behind_test(holding.view(), test, mode)),
        Rule::Take(_, items) => pool::take(holding, mode, items),
        Rule::Case(user_data) => in_case(holding, mode, user_data),
        Rule::Other => Some(in_arm(Peeked::SeesOther, mode)),
        Rule::Nothing => Some(in_arm(Peeked::Unseen, mode)),
    }
}

/// Where the token is held the arm can't be reached: no request under it is in flight.
fn in_case(holding: &Holding, mode: Mode, user_data: u64) -> Option<Mode>
    ensures { states.Leaves holding.now holding.now result (case_at user_data (Live (bag holding.now) mode)) }
{
    if holding.holds(Part::Token(user_data)) {
        return None;
    }
    Some(in_arm(Peeked::Sees(user_data), mode))
}
