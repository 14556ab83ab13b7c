//! The rules of loops and their breaks, on each side of a state.

ghost use Rattle.std.specs.Prelude.{◌≡◌, ◌∷◌, [], false, Some};
ghost use Rattle.rc_lang.specs.Parts.{view_items};
ghost use Rattle.rc_lang.specs.declared.lines.Stmt.TheVariants as stmts;
ghost use Rattle.rc_lang.specs.Kept.{IsList};
ghost use Rattle.rc_rules.specs.Premises.{Tests};
ghost use Rattle.rc_rules.specs.Rules as rules;
ghost use Rattle.rc_rules.specs.Sides as sides;
ghost use Rattle.rc_rules.specs.States as spec;

use super::State;
use crate::cause::Cause;
use crate::mode::Mode;
use rc_lang::lines::{Locks, Stmt};
use rc_lang::program::Items;
use std::slice;

impl<'a> State<'a> {
    /// `loop keeps ITEMS {`: after it exactly the items are held, on each side what they say of it. A loop is turned
    /// back to with any flag, so where there is one both sides are there. The items are those of a loop of the thread.
    pub fn enter_loop(&mut self, items: &Items) -> Result<(), Cause>
        requires { IsList (spec.program_of self.old) (view_items items.now) }
        ensures { spec.EntersLoop self.old self.new result (view_items items.now) }
    {
        self.checked(slice::from_ref(items), Stmt::Loop(0))?;
        if let Some(mode) = self.mode() {
            self.enter(items, mode);
        }
        Ok(())
    }

    /// What holds at the top of a loop that a state with this known of the ring enters.
    fn enter(&mut self, items: &Items, mode: Mode)
        requires made { IsList (spec.program_of self.old) (view_items items.now) }
        requires mode { spec.mode_of self.old ≡ Some mode }
        ensures { spec.Becomes self.old self.new (spec.tops self.old (view_items items.now)) }
    {
        match self.flag {
            None => {
                self.zero.keep(items, true);
                self.other.keep(items, false);
            }
            Some(_) => {
                self.zero.enter(items, true, mode);
                self.other.enter(items, false, mode);
            }
        }
    }

    /// The closing brace of a loop. Nothing goes on after it from here, so the state is dead.
    pub fn loop_end(&mut self, items: &Items) -> Result<(), Cause>
        ensures { spec.Gives self.old self.new result (rules.asked (spec.program_of self.old) (view_items items.now ∷ []) (spec.label_of self.old) (stmts.EndLoop 0 0)) (λ z. []) }
    {
        self.checked(slice::from_ref(items), Stmt::EndLoop(0, 0))?;
        self.die();
        Ok(())
    }

    /// Whether a `break` may be here, which releases these locks.
    pub fn may_break(&self, releases: Locks) -> Result<(), Cause>
        ensures { Tests result (spec.asked_alike self.now [] (stmts.Break 0 releases false)) }
    {
        self.checked(&[], Stmt::Break(0, releases, false))
    }

    /// What a `break` that releases these locks takes to the end of its loop: there nothing is peeked.
    pub fn carry_out(&mut self, releases: Locks)
        ensures { spec.BecomesEach self.old self.new (rules.broken releases) }
    {
        self.zero.carry_out(releases);
        self.other.carry_out(releases);
    }

    /// `break`, which releases these locks. The state is dead after it. What goes to the loop's end is made of the
    /// state before.
    pub fn break_out(&mut self, releases: Locks) -> Result<(), Cause>
        ensures { spec.Ends self.old self.new result [] (stmts.Break 0 releases false) }
    {
        self.may_break(releases)?;
        self.die();
        Ok(())
    }
}
