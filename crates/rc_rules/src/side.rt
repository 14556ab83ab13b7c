//! One side of a state: what holds while the thread's flag is 0, or while it isn't.

ghost use Rattle.std.specs.Prelude.{◌≡◌, ◌↔◌, ◌∷◌, [], map, nat_le, IsTrue, None, true};
ghost use Rattle.rc_lang.specs.Parts.{view_items};
ghost use Rattle.rc_lang.specs.Kept.{IsItems, IsList};
ghost use Rattle.rc_lang.specs.Views.{seen};
ghost use Rattle.rc_rules.specs.Labels.{Live, IsSame, IsStrongest};
ghost use Rattle.rc_rules.specs.OneRule as one;
ghost use Rattle.rc_rules.specs.Premises.{Tests};
ghost use Rattle.rc_rules.specs.Readers.{has_part};
ghost use Rattle.rc_rules.specs.Rules as rules;
ghost use Rattle.rc_rules.specs.States as spec;
ghost use Rattle.rc_rules.specs.declared.mode.Peeked.TheVariants as peeks;
ghost use Rattle.rc_split.specs.Bags.{Credit, ShareOf, TokenOf, bag_on, bag_of};

use crate::blocks::{self, freed, in_arm};
use crate::cause::Cause;
use crate::mode::{Mode, Peeked, unlocked};
use crate::needs::{Asks, checked, credits_out, is_met};
use crate::rule::{Rule, follow};
use rc_lang::lines::{Locks, Stmt};
use rc_lang::program::Items;
use rc_lang::view::View;
use rc_split::holding::Holding;
use rc_split::part::Part;
use std::marker::Model;

/// What a thread holds, which locks it has, and by those how many entries are queued at most, how far the open slot is
/// and what is peeked. Or the side is dead: nothing reaches it. What a dead side's rows say means nothing.
#[derive(Drop)]
pub struct Side<'a> {
    holding: Holding<'a>,
    mode: Option<Mode>,
}

impl<'a> Model for Side<'a> {
    ghost use Rattle.rc_rules.specs.States as spec;

    ghost Value = { spec.Side };

    ghost view = { λ s. spec.side_of s.holding s.mode };

    ghost invariant = { λ s. spec.IsFree s.holding.program (spec.side_label (spec.side_of s.holding s.mode)) };
}

impl<'a> Side<'a> {
    /// Nothing reaches the side.
    pub fn dead(view: View<'a>) -> Side<'a>
        ensures { result ≡ record { program = seen view.entry; live = None } }
    {
        Side {
            holding: Holding::nothing(view),
            mode: None,
        }
    }

    /// A thread begins with these items, without a lock.
    pub fn first(view: View<'a>, items: &Items) -> Side<'a>
        requires { IsItems (seen view) (view_items items.now) }
        ensures label { IsSame (spec.side_label result) (Live (bag_of (view_items items.now)) rules.unlocked) }
        ensures of { result.program ≡ seen view.entry }
    {
        let mut holding = Holding::nothing(view);
        holding.hold(items);
        Side {
            holding,
            mode: Some(unlocked()),
        }
    }

    /// The same side again.
    pub fn again(&self) -> Side<'a>
        ensures { result ≡ self.now }
    {
        if self.mode.is_none() {
            return Side::dead(self.holding.view());
        }
        Side {
            holding: self.holding.again(),
            mode: self.mode,
        }
    }

    /// Becomes the same as another side. The rows of a dead one aren't copied.
    pub fn copy_from(&mut self, other: &Side<'a>)
        ensures { self.new ≡ other.now }
    {
        match other.mode {
            Some(_) => self.holding.copy_from(&other.holding),
            None => self.holding.belong_to(other.holding.view()),
        }
        self.mode = other.mode;
    }

    /// Nothing reaches the side from now on.
    pub fn die(&mut self)
        ensures { self.new ≡ record { program = self.old.program; live = None } }
    {
        self.mode = None;
    }

    /// Becomes a side of this view that nothing reaches.
    pub fn die_in(&mut self, view: View<'a>)
        ensures { self.new ≡ record { program = seen view.entry; live = None } }
    {
        self.holding.belong_to(view);
        self.mode = None;
    }

    /// The program, as the side's thread names its parts.
    pub fn view(&self) -> View<'a>
        ensures { seen result ≡ self.now.program }
    {
        self.holding.view()
    }

    /// Whether something reaches the side.
    pub fn is_live(&self) -> bool
        ensures { result ≡ spec.is_live (spec.side_label self.now) }
    {
        self.mode.is_some()
    }

    /// What is known of the ring, unless nothing reaches the side.
    pub fn mode(&self) -> Option<Mode>
        ensures { result ≡ spec.mode_in self.now.live }
    {
        self.mode
    }

    /// How many shares of a buffer are held: none where nothing reaches the side.
    pub fn shares(&self, buffer: usize) -> u32
        ensures { result ≡ spec.held_at (spec.side_label self.now) (ShareOf buffer) }
    {
        match self.mode {
            Some(_) => self.holding.shares(buffer),
            None => 0,
        }
    }

    /// How many credits are held: none where nothing reaches the side.
    pub fn credits(&self) -> u32
        ensures { result ≡ spec.held_at (spec.side_label self.now) Credit }
    {
        match self.mode {
            Some(_) => self.holding.credits(),
            None => 0,
        }
    }

    /// How many of the view's tokens aren't held: none where nothing reaches the side.
    pub fn lacking(&self) -> u32
        ensures { result ≡ spec.lacked_at self.now.program (spec.side_label self.now) }
    {
        match self.mode {
            Some(_) => self.holding.lacking(),
            None => 0,
        }
    }

    /// How many of the credits that the program's threads begin with aren't held: none where nothing reaches the side.
    pub fn credits_out(&self) -> u32
        ensures { result ≡ spec.credits_out_at self.now.program (spec.side_label self.now) }
    {
        match self.mode {
            Some(_) => credits_out(&self.holding),
            None => 0,
        }
    }

    /// Whether a token is held. Where nothing reaches the side it isn't.
    pub fn has_token(&self, user_data: u64) -> bool
        ensures { result ≡ nat_le 1 (spec.held_at (spec.side_label self.now) (TokenOf user_data)) }
    {
        match self.mode {
            Some(_) => self.holding.holds(Part::Token(user_data)),
            None => false,
        }
    }

    /// Whether the part is held. Where nothing reaches the side it isn't.
    pub fn holds(&self, part: Part) -> bool
        ensures { result ≡ has_part (spec.side_label self.now) part }
    {
        match self.mode {
            Some(_) => self.holding.holds(part),
            None => false,
        }
    }

    /// Whether a need of a line is met on this side, the zero one or the other, in a thread with these lists of items.
    /// Where nothing reaches the side each is.
    pub fn is_met(&self, lists: &[Items], zero: bool, asks: Asks) -> bool
        ensures { IsTrue result ↔ spec.MeetsNeed self.now (map view_items lists.now) zero asks }
    {
        match self.mode {
            Some(mode) => is_met(&self.holding, lists, zero, mode, asks),
            None => true,
        }
    }

    /// Goes over a line. A dead side meets every premise and stays dead.
    pub fn follow(&mut self, rule: Rule) -> Result<(), Cause>
        requires { one.MayFollow self.old.program rule (spec.side_label self.old) }
        ensures { one.SideGoes self.old.program rule.entry self.old self.new result }
    {
        let Some(mode) = self.mode else {
            return Ok(());
        };
        self.mode = follow(&mut self.holding, mode, rule)?;
        Ok(())
    }

    /// Whether this side, the zero one or the other, meets what a line needs. Where nothing reaches the side it does.
    pub fn checked(&self, lists: &[Items], zero: bool, stmt: Stmt) -> Result<(), Cause>
        ensures { Tests result (spec.asked_on self.now (map view_items lists.now) zero stmt) }
    {
        let Some(mode) = self.mode else {
            return Ok(());
        };
        checked(&self.holding, lists, zero, mode, stmt)
    }

    /// What the front completion is isn't known any more.
    pub fn forget_peeked(&mut self)
        ensures label { IsSame (spec.side_label self.new) (rules.peek_at peeks.Unseen (spec.side_label self.old)) }
        ensures of { self.new.program ≡ self.old.program }
    {
        if let Some(mode) = self.mode {
            self.mode = Some(in_arm(Peeked::Unseen, mode));
        }
    }

    /// What a break that releases these locks takes to the end of its loop.
    pub fn carry_out(&mut self, releases: Locks)
        ensures label { IsSame (spec.side_label self.new) (rules.broken releases (spec.side_label self.old)) }
        ensures of { self.new.program ≡ self.old.program }
    {
        if let Some(mode) = self.mode {
            self.mode = Some(freed(releases, in_arm(Peeked::Unseen, mode)));
        }
    }

    /// What holds on this side at the top of a loop that is entered with this known of the ring.
    pub fn enter(&mut self, items: &Items, zero: bool, mode: Mode)
        requires { IsList self.old.program (view_items items.now) }
        ensures label { IsSame (spec.side_label self.new) (Live (bag_on zero (view_items items.now)) (rules.top_mode self.old.program (view_items items.now) mode)) }
        ensures of { self.new.program ≡ self.old.program }
    {
        self.mode = Some(blocks::top_mode(self.holding.view(), items, mode));
        self.holding.hold_on(items, zero);
    }

    /// What holds on this side at the top of a loop that it enters, where something reaches it.
    pub fn keep(&mut self, items: &Items, zero: bool)
        requires { IsList self.old.program (view_items items.now) }
        ensures label { IsSame (spec.side_label self.new) (rules.top self.old.program (view_items items.now) zero (spec.side_label self.old)) }
        ensures of { self.new.program ≡ self.old.program }
    {
        if let Some(mode) = self.mode {
            self.enter(items, zero, mode);
        }
    }

    /// What holds where this side and another join, both of one view. Unless one is dead, both have the same locks,
    /// their slots are at one stage, and the front completion is got on both or on neither.
    pub fn meet(&mut self, other: &Side<'a>)
        requires of { other.now.program ≡ self.old.program }
        requires lock { spec.AgreeOnLocks (spec.side_label self.old) (spec.side_label other.now) }
        requires slot { rules.agree (spec.side_label self.old) (spec.side_label other.now) ≡ true }
        ensures strongest { IsStrongest (spec.side_label self.new) (spec.side_label self.old ∷ spec.side_label other.now ∷ []) }
        ensures of { self.new.program ≡ self.old.program }
    {
        let Some(theirs) = other.mode else {
            return;
        };
        let Some(mine) = self.mode else {
            self.copy_from(other);
            return;
        };
        self.mode = Some(blocks::both(mine, theirs));
        self.holding.meet(&other.holding);
    }
}
