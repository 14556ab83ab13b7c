//! The rules of pools, on each side of a state.

ghost use Rattle.std.specs.Prelude.{◌∷◌, []};
ghost use Rattle.rc_lang.specs.Parts.{view_items};
ghost use Rattle.rc_lang.specs.declared.lines.Stmt.TheVariants as stmts;
ghost use Rattle.rc_lang.specs.declared.lines.Test.TheVariants as tests;
ghost use Rattle.rc_lang.specs.Kept.{IsItems};
ghost use Rattle.rc_rules.specs.Rules as rules;
ghost use Rattle.rc_rules.specs.States as spec;

use super::State;
use crate::cause::Cause;
use crate::rule::Rule;
use rc_lang::program::Items;

impl<'a> State<'a> {
    /// `put ITEMS`, or with the number of a named pool `put NAME ITEMS`: the items are held, and then they aren't any
    /// more.
    pub fn put(&mut self, pool: Option<usize>, items: &Items) -> Result<(), Cause>
        ensures { spec.Puts self.old self.new result pool (view_items items.now) }
    {
        self.follow(Rule::Put(pool, items))
    }

    /// The first branch of `if take ITEMS`, or with the number of a named pool of `if take NAME ITEMS`: the items are
    /// held besides. A side that would then hold more than there is, or the token that the peeked request owns, is dead
    /// there. They are items of the program, and no count is above 2^19.
    pub fn take(&mut self, pool: Option<usize>, items: &Items) -> Result<(), Cause>
        requires made { IsItems (spec.program_of self.old) (view_items items.now) }
        requires small { spec.OnBoth spec.IsSmall self.old }
        ensures { spec.GoesInto self.old self.new result (view_items items.now ∷ []) (tests.Take pool 0) }
    {
        self.follow(Rule::Take(pool, items))
    }
}
