//! A pool: what threads put where each of them can take it.

ghost use Rattle.std.specs.Prelude.{◌≡◌, false, nat_le, slice_index, IfOk};
ghost use Rattle.rc_lang.specs.Parts.{view_items};
ghost use Rattle.rc_split.specs.Bags.{TokenOf};
ghost use Rattle.rc_split.specs.Holdings.{CanCount};
ghost use Rattle.rc_split.specs.Pools as spec;
ghost use Rattle.rc_split.specs.Pools.{fewer_shares, more_shares};

use crate::lists::{count_at, cover_shares, cover_tokens, mark_of};
use crate::rows;
use rc_lang::program::{Items, Program, Share};
use std::alloc::{AllocError, Global};
use std::marker::Model;

/// What is in the pool: shares of buffers, tokens and credits. In a program of liburing it is a table of flags, which a
/// thread sets and tests while it holds the lock.
#[derive(Drop)]
pub struct Pool {
    /// By the numbers of the buffers.
    shares: Vec<u32>,
    /// By the places of the tokens.
    marks: Vec<bool>,
    credits: u32,
}

impl Model for Pool {
    ghost use Rattle.rc_split.specs.Pools as spec;

    ghost Value = { spec.Pool };

    ghost view = { λ p. record { shares = p.shares.items; marks = p.marks.items; credits = p.credits } };
}

impl Pool {
    /// A pool with nothing in it, which has a place for each buffer and each token of the program.
    pub fn empty(alloc: Global, program: &Program) -> Result<Pool, AllocError>
        ensures { IfOk result (λ p. p ≡ spec.empty_pool program.now) }
    {
        let shares = vec![in alloc; 0; program.buffers().len()]?;
        let marks = vec![in alloc; false; program.tokens().len()]?;
        Ok(Pool {
            shares,
            marks,
            credits: 0,
        })
    }

    /// A pool that isn't there: it has a place for nothing. This takes no memory.
    pub fn none(alloc: Global) -> Pool
        ensures { result ≡ spec.no_pool }
    {
        Pool {
            shares: Vec::new(alloc),
            marks: Vec::new(alloc),
            credits: 0,
        }
    }

    /// Becomes the same as another pool, in the memory that it has. Where memory runs out, what was in it is lost.
    pub fn copy_from(&mut self, other: &Pool) -> Result<(), AllocError>
        ensures { IfOk result (λ _. self.new ≡ other.now) }
    {
        self.shares.clear();
        self.shares.extend_from_slice(&other.shares)?;
        self.marks.clear();
        self.marks.extend_from_slice(&other.marks)?;
        self.credits = other.credits;
        Ok(())
    }

    /// How many credits are in the pool.
    pub fn credits(&self) -> u32
        ensures { result ≡ self.now.credits }
    {
        self.credits
    }

    /// How many shares of a buffer are in the pool.
    pub fn shares_of(&self, buffer: usize) -> u32
        ensures { result ≡ slice_index self.now.shares buffer }
    {
        count_at(&self.shares, buffer)
    }

    /// How many of a token of the program are in the pool: one or none.
    pub fn tokens_of(&self, program: &Program, user_data: u64) -> u32
        ensures { result ≡ spec.pooled program.now self.now (TokenOf user_data) }
    {
        mark_of(&self.marks, program, user_data)
    }

    /// Whether a token of the program is in the pool.
    pub fn has_token(&self, program: &Program, user_data: u64) -> bool
        ensures { result ≡ nat_le 1 (spec.pooled program.now self.now (TokenOf user_data)) }
    {
        1 <= self.tokens_of(program, user_data)
    }

    /// Whether the pool has as many of each part as the items name together.
    pub fn includes(&self, program: &Program, items: &Items) -> bool
        ensures { result ≡ spec.includes program.now self.now (view_items items.now) }
    {
        let shares = cover_shares(&self.shares, &items.shares);
        let tokens = cover_tokens(&self.marks, program, &items.tokens);
        shares && tokens && items.credits <= self.credits
    }

    /// Puts the items into the pool. No count that they name overflows.
    pub fn put(&mut self, program: &Program, items: &Items)
        requires { spec.CanAdd program.now self.old (view_items items.now) }
        ensures { self.new ≡ spec.with_items program.now self.old (view_items items.now) }
    {
        self.credits += items.credits;
        self.add_shares(&items.shares);
        self.mark_all(program, &items.tokens, true);
    }

    /// Takes the items out of the pool, as many of them as are there.
    pub fn take(&mut self, program: &Program, items: &Items)
        ensures { self.new ≡ spec.without_items program.now self.old (view_items items.now) }
    {
        self.lessen_shares(&items.shares);
        self.mark_all(program, &items.tokens, false);
        self.credits = self.credits.saturating_sub(items.credits);
    }

    /// Adds these shares. No count of a buffer that they name overflows.
    fn add_shares(&mut self, shares: &[Share])
        requires { CanCount self.old.shares shares.now }
        ensures { self.new ≡ record self.old { shares = more_shares self.old.shares shares.now } }
    {
        for share in shares {
            rows::heighten(&mut self.shares, share.buffer, share.count);
        }
    }

    fn lessen_shares(&mut self, shares: &[Share])
        ensures { self.new ≡ record self.old { shares = fewer_shares self.old.shares shares.now } }
    {
        for share in shares {
            rows::lower(&mut self.shares, share.buffer, share.count);
        }
    }

    fn mark_all(&mut self, program: &Program, tokens: &[u64], is: bool)
        ensures { self.new ≡ spec.with_tokens program.now is self.old tokens.now }
    {
        for token in tokens {
            self.mark(program, *token, is);
        }
    }

    /// Marks a token as there, or not.
    fn mark(&mut self, program: &Program, user_data: u64, is: bool)
        ensures { self.new ≡ spec.with_token program.now is self.old user_data }
    {
        if let Some(place) = program.token_place(user_data) {
            rows::flag(&mut self.marks, place, is);
        }
    }
}
