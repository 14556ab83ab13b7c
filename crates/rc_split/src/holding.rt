//! Holdings as rows.

ghost use Rattle.std.specs.Prelude.{◌≡◌, ◌^◌, ◌<◌, ℕ, IsOkAnd, IsTrue, ◌↔◌, true, ◌≤◌, All, nat_eq};
ghost use Rattle.rc_lang.specs.Parts.{view_items};
ghost use Rattle.rc_lang.specs.Resolved.{DeclaresToken};
ghost use Rattle.rc_lang.specs.Views.{IsView, seen};
ghost use Rattle.rc_split.specs.Bags as bags;
ghost use Rattle.rc_split.specs.Bags.{bag_of, parts};
ghost use Rattle.rc_split.specs.Holdings as spec;

use crate::begun::credits_given;
use crate::part::Part;
use crate::rows;
use rc_lang::program::{Items, Share};
use rc_lang::view::View;
use std::alloc::{AllocError, Global};
use std::marker::Model;

/// How many of each part are held, apart from the view, so that one copy takes all.
#[derive(Clone, Copy, Drop)]
struct Rows {
    /// By the numbers of the buffers.
    shares: [u32; 64],
    /// Marks at the places of the tokens, as bits, so that a copy is small. Neighbours are in different words, so that
    /// one needn't wait until the other is written.
    marks: [u64; 4],
    credits: u32,
}

/// What a thread holds at some point of a program.
#[derive(Drop)]
pub struct Holding<'a> {
    view: View<'a>,
    rows: Rows,
}

impl<'a> Model for Holding<'a> {
    ghost use Rattle.rc_split.specs.Holdings as spec;

    ghost Value = { spec.Holding };

    ghost use Rattle.rc_lang.specs.Views.{seen};

    ghost view = { λ h. spec.holding_in (seen h.view) h.rows };

    ghost invariant = { λ h. spec.IsSound (spec.holding_in (seen h.view) h.rows) };
}

impl<'a> Holding<'a> {
    /// Nothing of the view's is held. This takes no memory and always answers Ok.
    pub fn empty(_alloc: Global, view: View<'a>) -> Result<Holding<'a>, AllocError>
        ensures { IsOkAnd result (λ h. spec.Holds h (seen view.entry) bags.nothing) }
    {
        Ok(Holding::nothing(view))
    }

    /// Nothing of the view's is held, as [`empty`](Holding::empty) makes it.
    pub fn nothing(view: View<'a>) -> Holding<'a>
        ensures { spec.Holds result (seen view.entry) bags.nothing }
    {
        // This says that the view is one of a made program, and so how many buffers and tokens it has at most.
        let _ = view.entries();
        Holding {
            view,
            rows: Rows {
                shares: [0; 64],
                marks: [0; 4],
                credits: 0,
            },
        }
    }

    /// The same holding again. This takes no memory and always answers Ok.
    pub fn copy(&self, _alloc: Global) -> Result<Holding<'a>, AllocError>
        ensures { IsOkAnd result (λ h. h ≡ self.now) }
    {
        Ok(self.again())
    }

    /// The same holding again, as [`copy`](Holding::copy) makes it.
    pub fn again(&self) -> Holding<'a>
        ensures same { result ≡ self.now }
        ensures small { (p : bags.Part) → spec.bag self.now p < 2 ^ 20 }
    {
        Holding {
            view: self.view,
            rows: self.rows,
        }
    }

    /// Becomes the same holding as another, with no copy between.
    pub fn copy_from(&mut self, other: &Holding<'a>)
        ensures { self.new ≡ other.now }
    {
        self.view = other.view;
        self.rows = other.rows;
    }

    /// Becomes a holding of this view, with the rows that it has.
    pub fn belong_to(&mut self, view: View<'a>)
        ensures { self.new ≡ record self.old { program = seen view.entry } }
    {
        // As in `nothing`.
        let _ = view.entries();
        self.view = view;
    }

    /// The program whose parts are held, as the holder names them.
    pub fn view(&self) -> View<'a>
        ensures value { seen result ≡ self.now.program }
        ensures made { IsView self.now.program }
    {
        self.view
    }

    /// Whether the part is held: so many shares, the token, so many credits.
    pub fn holds(&self, part: Part) -> bool
        ensures { result ≡ spec.covers_part (spec.bag self.now) part }
    {
        match part {
            Part::Shares(buffer, count) => count <= self.shares(buffer),
            Part::Token(user_data) => self.holds_token(user_data),
            Part::Credits(count) => count <= self.rows.credits,
        }
    }

    /// How many shares of a buffer are held.
    pub fn shares(&self, buffer: usize) -> u32
        ensures { result ≡ spec.bag self.now (bags.ShareOf buffer) }
    {
        self.rows.shares.get(buffer).copied().unwrap_or(0)
    }

    /// How many credits are held.
    pub fn credits(&self) -> u32
        ensures { result ≡ spec.bag self.now bags.Credit }
    {
        self.rows.credits
    }

    /// How many of the view's tokens aren't held, at most 256.
    pub fn lacking(&self) -> u32
        ensures value { result ≡ bags.lacking self.now.program.tokens (spec.bag self.now) }
        ensures few { result ≤ 256 }
    {
        let tokens = self.view.tokens();
        tokens
            .iter()
            .filter(|token| self.lacks_token(token.user_data))
            .count() as u32
    }

    /// How many credits the program's pools and threads begin with, at most 165,888.
    pub fn credits_given(&self) -> u32
        ensures value { result ≡ bags.credits_given
            (bags.begun self.now.program.stock self.now.program.threads) }
        ensures few { result ≤ 165888 }
    {
        credits_given(self.view)
    }

    fn lacks_token(&self, user_data: u64) -> bool
        ensures { result ≡ nat_eq (spec.bag self.now (bags.TokenOf user_data)) 0 }
    {
        !self.holds_token(user_data)
    }

    fn holds_token(&self, user_data: u64) -> bool
        ensures { result ≡ spec.covers_part (spec.bag self.now) (Part.Token user_data) }
    {
        match self.view.token_place(user_data) {
            Some(place) => rows::is_marked(&self.rows.marks, place),
            None => false,
        }
    }

    /// Whether all of the items are held, each as often as they name it. Counts are always below 2^20.
    pub fn covers(&self, items: &Items) -> bool
        ensures answer { IsTrue result ↔ spec.Covers self.now true (view_items items.now) }
        ensures small { (p : bags.Part) → spec.bag self.now p < 2 ^ 20 }
    {
        self.covers_on(items, true)
    }

    /// Whether all that a loop's items say of a side of the flag is held: on the zero side what they name, on the other
    /// what they name besides as well. Counts are always below 2^20.
    pub fn covers_on(&self, items: &Items, zero: bool) -> bool
        ensures answer { IsTrue result ↔ spec.Covers self.now zero (view_items items.now) }
        ensures small { (p : bags.Part) → spec.bag self.now p < 2 ^ 20 }
    {
        let mut rest = self.again();
        if !rest.take_parts(&items.shares, &items.tokens, items.credits) {
            return false;
        }
        let more = &items.more;
        zero || rest.take_parts(&more.shares, &more.tokens, more.credits)
    }

    /// Takes all of these away. False: one of them isn't held.
    fn take_parts(&mut self, shares: &[Share], tokens: &[u64], credits: u32) -> bool
        ensures { spec.TakesAll self.old self.new (parts shares.now tokens.now credits) result }
    {
        if !self.take_shares(shares) {
            return false;
        }
        if !self.take_tokens(tokens) {
            return false;
        }
        self.take(Part::Credits(credits)).is_some()
    }

    fn take_shares(&mut self, shares: &[Share]) -> bool
        ensures { spec.TakesAll self.old self.new (bags.shares_alone shares.now) result }
    {
        for share in shares {
            if self.take(Part::Shares(share.buffer, share.count)).is_none() {
                return false;
            }
        }
        true
    }

    fn take_tokens(&mut self, tokens: &[u64]) -> bool
        ensures { spec.TakesAll self.old self.new (bags.tokens_alone tokens.now) result }
    {
        for user_data in tokens {
            if self.take_token(*user_data).is_none() {
                return false;
            }
        }
        true
    }

    /// Holds exactly the items from now on. They name only what the program declares, each token at most once, and no
    /// count that comes to 2^20.
    pub fn hold(&mut self, items: &Items)
        requires names { spec.AreDeclared self.old.program (view_items items.now) }
        requires once { (u : ℕ) → bags.bag_of (view_items items.now) (bags.TokenOf u) ≤ 1 }
        requires small { (p : bags.Part) → bags.bag_of (view_items items.now) p < 2 ^ 20 }
        ensures { spec.Holds self.new self.old.program (bags.bag_of (view_items items.now)) }
    {
        self.hold_on(items, true);
    }

    /// Holds exactly what a loop's items say of a side of the flag: on the zero side what they name, on the other what
    /// they name besides as well. That names only what the program declares, each token at most once over both lists,
    /// and no count that comes to 2^20.
    pub fn hold_on(&mut self, items: &Items, zero: bool)
        requires names { spec.AreDeclaredOn self.old.program zero (view_items items.now) }
        requires once { (u : ℕ) → bags.bag_on zero (view_items items.now) (bags.TokenOf u) ≤ 1 }
        requires small { (p : bags.Part) → bags.bag_on zero (view_items items.now) p < 2 ^ 20 }
        ensures { spec.Holds self.new self.old.program (bags.bag_on zero (view_items items.now)) }
    {
        self.clear();
        self.give_parts(&items.shares, &items.tokens, items.credits);
        if !zero {
            let more = &items.more;
            self.give_parts(&more.shares, &more.tokens, more.credits);
        }
    }

    /// Takes all of the items away, which are held.
    pub fn lose(&mut self, lost: &Items)
        requires { bags.IsWithin (bags.bag_of (view_items lost.now)) (spec.bag self.old) }
        ensures { spec.Loses self.old self.new (bags.bag_of (view_items lost.now)) }
    {
        self.take_parts(&lost.shares, &lost.tokens, lost.credits);
    }

    /// Adds all of the items. They name only what the program declares; with them no token is held twice, and no count
    /// comes to 2^20.
    pub fn gain(&mut self, gained: &Items)
        requires names { spec.AreDeclared self.old.program (view_items gained.now) }
        requires once { spec.HasEachOnce self.old (view_items gained.now) }
        requires small { spec.StaysSmall self.old (bags.bag_of (view_items gained.now)) }
        ensures { spec.Gains self.old self.new (bags.bag_of (view_items gained.now)) }
    {
        self.give_parts(&gained.shares, &gained.tokens, gained.credits);
    }

    fn give_parts(&mut self, shares: &[Share], tokens: &[u64], credits: u32)
        requires names { spec.AreDeclared self.old.program (parts shares.now tokens.now credits) }
        requires once { spec.HasEachOnce self.old (parts shares.now tokens.now credits) }
        requires small { spec.StaysSmall self.old (bag_of (parts shares.now tokens.now credits)) }
        ensures { spec.Gains self.old self.new (bag_of (parts shares.now tokens.now credits)) }
    {
        self.give_shares(shares);
        self.give_tokens(tokens);
        self.give(Part::Credits(credits));
    }

    /// Nothing is held from now on.
    fn clear(&mut self)
        ensures { spec.Holds self.new self.old.program bags.nothing }
    {
        self.rows.shares = [0; 64];
        self.rows.marks = [0; 4];
        self.rows.credits = 0;
    }

    fn give_shares(&mut self, shares: &[Share])
        requires names { spec.NameBuffers self.old.program shares.now }
        requires small { spec.StaysSmall self.old (bags.bag_of (bags.shares_alone shares.now)) }
        ensures { spec.Gains self.old self.new (bags.bag_of (bags.shares_alone shares.now)) }
    {
        for share in shares {
            self.give(Part::Shares(share.buffer, share.count));
        }
    }

    fn give_tokens(&mut self, tokens: &[u64])
        requires names { All (DeclaresToken self.old.program) tokens.now }
        requires once { spec.HasEachOnce self.old (bags.tokens_alone tokens.now) }
        requires small { spec.StaysSmall self.old (bags.bag_of (bags.tokens_alone tokens.now)) }
        ensures { spec.Gains self.old self.new (bags.bag_of (bags.tokens_alone tokens.now)) }
    {
        for user_data in tokens {
            self.give(Part::Token(*user_data));
        }
    }

    /// Adds the part. It names only what the program declares, a token isn't held yet, and no count comes to 2^20.
    pub fn give(&mut self, part: Part)
        requires declared { spec.IsDeclared self.old.program part }
        requires fresh { spec.IsFresh (spec.bag self.old) part }
        requires small { spec.StaysSmall self.old (spec.given_bag part) }
        ensures { spec.Gains self.old self.new (spec.given_bag part) }
    {
        match part {
            Part::Shares(buffer, count) => rows::raise(&mut self.rows.shares, buffer, count),
            Part::Token(user_data) => self.mark(user_data, true),
            Part::Credits(count) => self.rows.credits += count,
        }
    }

    /// Takes the part away. None: it isn't held, and nothing changes.
    pub fn take(&mut self, part: Part) -> Option<()>
        ensures { spec.Takes self.old self.new part result }
    {
        if !self.holds(part) {
            return None;
        }
        self.remove(part);
        Some(())
    }

    /// Takes the token away, as [`take`](Holding::take) does, and looks for its place once.
    fn take_token(&mut self, user_data: u64) -> Option<()>
        ensures { spec.Takes self.old self.new (Part.Token user_data) result }
    {
        let place = self.view.token_place(user_data)?;
        if !rows::is_marked(&self.rows.marks, place) {
            return None;
        }
        rows::mark(&mut self.rows.marks, place, false);
        Some(())
    }

    fn remove(&mut self, part: Part)
        requires { spec.covers_part (spec.bag self.old) part ≡ true }
        ensures { spec.Loses self.old self.new (spec.given_bag part) }
    {
        match part {
            Part::Shares(buffer, count) => rows::lessen(&mut self.rows.shares, buffer, count),
            Part::Token(user_data) => self.mark(user_data, false),
            Part::Credits(count) => self.rows.credits -= count,
        }
    }

    fn mark(&mut self, user_data: u64, held: bool)
        requires { spec.IsPlaced self.old.program user_data }
        ensures { spec.Marks self.old self.new user_data held }
    {
        if let Some(place) = self.view.token_place(user_data) {
            rows::mark(&mut self.rows.marks, place, held);
        }
    }

    /// Leaves the least of both, part by part. Both are of one view.
    pub fn meet(&mut self, other: &Holding)
        requires { other.now.program ≡ self.old.program }
        ensures { spec.Meets self.old self.new (spec.bag other.now) }
    {
        rows::least_counts(&mut self.rows.shares, &other.rows.shares);
        rows::least_marks(&mut self.rows.marks, &other.rows.marks);
        self.rows.credits = self.rows.credits.min(other.rows.credits);
    }
}
