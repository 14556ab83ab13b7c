//! All pools of a program: the one without a name, and those with one.

ghost use Rattle.std.specs.Prelude.{◌≡◌, ◌++◌, ◌∷◌, [], ◌<◌, ◌≤◌, ◌^◌, false, length, slice_index, IfOk};
ghost use Rattle.std.specs.List.{list_all};
ghost use Rattle.rc_lang.specs.declared.program.Share as given;
ghost use Rattle.rc_lang.specs.Parts.{view_items};
ghost use Rattle.rc_split.specs.Bags.{shares_alone, tokens_alone, ShareOf, TokenOf};
ghost use Rattle.rc_split.specs.Pools as spec;

use crate::lists::{names_at_most, times};
use crate::pool::Pool;
use rc_lang::program::{Items, Program, Share};
use std::alloc::{AllocError, Global};
use std::marker::Model;

/// What is in the pools of a program. A pool is asked for by its number among those that have a name, or by none.
#[derive(Drop)]
pub struct Pools {
    unnamed: Pool,
    named: Vec<Pool>,
}

impl Model for Pools {
    ghost use Rattle.std.specs.Prelude.{◌≤◌, length};
    ghost use Rattle.rc_split.specs.Pools as spec;

    ghost Value = { spec.Pools };

    ghost view = { λ p. record { unnamed = p.unnamed; named = p.named.items } };

    ghost invariant = { λ p. length p.named.items ≤ 16 };
}

impl Pools {
    /// Empty pools: the one without a name, and those of the program with one.
    fn empty(alloc: Global, program: &Program) -> Result<Pools, AllocError>
        ensures { IfOk result (λ p. p ≡ spec.empty_pools program.now) }
    {
        let mut named = Vec::new(alloc);
        for _step in 0..program.pools().len() {
            add_empty(&mut named, program)?;
        }
        Ok(Pools {
            unnamed: Pool::empty(alloc, program)?,
            named,
        })
    }

    /// The pools at the start: each has what its line says, and nothing without one.
    pub fn start(alloc: Global, program: &Program) -> Result<Pools, AllocError>
        ensures { IfOk result (λ p. p ≡ spec.start_pools program.now) }
    {
        let mut pools = Pools::empty(alloc, program)?;
        let lines = program.stock();
        for line in lines {
            pools.add(line.pool, program, &line.items);
        }
        Ok(pools)
    }

    /// Becomes the same as other pools, in the memory that it has. Where memory runs out, what was in it is lost.
    pub fn copy_from(&mut self, other: &Pools) -> Result<(), AllocError>
        ensures { IfOk result (λ _. self.new ≡ other.now) }
    {
        self.unnamed.copy_from(&other.unnamed)?;
        copy_all(&mut self.named, &other.named)
    }

    /// The pool without a name.
    pub fn unnamed(&self) -> &Pool
        ensures { result.now ≡ self.now.unnamed }
    {
        &self.unnamed
    }

    /// The pools with a name, by their numbers.
    pub fn named(&self) -> &[Pool]
        ensures { result.now ≡ self.now.named }
    {
        &self.named
    }

    /// Whether a pool has as many of each part as the items name together. One that isn't there has nothing.
    pub fn includes(&self, name: Option<usize>, program: &Program, items: &Items) -> bool
        ensures { result ≡ spec.includes program.now (spec.pool_of self.now name)
            (view_items items.now) }
    {
        match name {
            Some(name) => match self.named.get(name) {
                Some(pool) => pool.includes(program, items),
                None => Pool::none(*self.named.allocator()).includes(program, items),
            },
            None => self.unnamed.includes(program, items),
        }
    }

    /// Whether the pools together have no room for the items: with them there would be more shares of a buffer than
    /// there are, a token twice, or more credits than the completion ring has entries.
    pub fn are_overfilled_by(&self, program: &Program, items: &Items) -> bool
        ensures { result ≡ spec.overfills program.now (spec.all_pooled program.now self.now)
            (view_items items.now) }
    {
        let shares = self.have_room_for_shares(program, &items.shares);
        let tokens = self.have_room_for_tokens(program, &items.tokens);
        let credits = self.credits() + u64::from(items.credits);
        !(shares && tokens && credits <= u64::from(program.completion_entries()))
    }

    /// Puts the items into a pool; all pools together have room for them. Into a pool that isn't there nothing is put.
    pub fn put(&mut self, name: Option<usize>, program: &Program, items: &Items)
        requires { spec.overfills program.now (spec.all_pooled program.now self.old)
            (view_items items.now) ≡ false }
        ensures { self.new ≡ spec.put_into program.now name (view_items items.now) self.old }
    {
        // Any of a program's readers says that it was made, and so how many shares and credits there are at most.
        let _ = program.entries();
        self.add(name, program, items);
    }

    /// Puts the items into a pool. No count that they name overflows.
    fn add(&mut self, name: Option<usize>, program: &Program, items: &Items)
        requires { spec.CanAdd program.now (spec.pool_of self.old name) (view_items items.now) }
        ensures { self.new ≡ spec.put_into program.now name (view_items items.now) self.old }
    {
        match name {
            Some(name) if name < self.named.len() => self.named[name].put(program, items),
            Some(_) => {}
            None => self.unnamed.put(program, items),
        }
    }

    /// Takes the items out of a pool, as many of them as are there.
    pub fn take(&mut self, name: Option<usize>, program: &Program, items: &Items)
        ensures { self.new ≡ spec.taken_from program.now name (view_items items.now) self.old }
    {
        match name {
            Some(name) if name < self.named.len() => self.named[name].take(program, items),
            Some(_) => {}
            None => self.unnamed.take(program, items),
        }
    }

    /// How many credits are in all of them.
    pub fn credits(&self) -> u64
        ensures value { result ≡ spec.in_all (λ p. p.credits) self.now }
        ensures few { result < 2 ^ 37 }
    {
        let mut sum = u64::from(self.unnamed.credits());
        for pool in &self.named {
            sum += u64::from(pool.credits());
        }
        sum
    }

    /// How many shares of a buffer are in all of them.
    fn shares_of(&self, buffer: usize) -> u64
        ensures value { result ≡ spec.in_all (λ p. slice_index p.shares buffer) self.now }
        ensures few { result < 2 ^ 37 }
    {
        let mut sum = u64::from(self.unnamed.shares_of(buffer));
        for pool in &self.named {
            sum += u64::from(pool.shares_of(buffer));
        }
        sum
    }

    /// In how many of them a token of the program is.
    fn tokens_of(&self, program: &Program, user_data: u64) -> u64
        ensures value { result ≡ spec.in_all (λ p. spec.pooled program.now p (TokenOf user_data))
            self.now }
        ensures few { result < 2 ^ 37 }
    {
        let mut sum = u64::from(self.unnamed.tokens_of(program, user_data));
        for pool in &self.named {
            sum += u64::from(pool.tokens_of(program, user_data));
        }
        sum
    }

    /// Whether with these shares there would be no more of a buffer than it has.
    fn have_room_for_shares(&self, program: &Program, shares: &[Share]) -> bool
        ensures { result ≡ list_all (λ (s : given.Share). spec.fits program.now
            (spec.all_pooled program.now self.now) (shares_alone shares.now) (ShareOf s.buffer))
            shares.now }
    {
        shares.iter().all(|share| self.has_room_for_share(program, shares, share.buffer))
    }

    fn has_room_for_share(&self, program: &Program, shares: &[Share], buffer: usize) -> bool
        ensures { result ≡ spec.fits program.now (spec.all_pooled program.now self.now)
            (shares_alone shares.now) (ShareOf buffer) }
    {
        let all = u64::from(program.shares_at(buffer));
        match all.checked_sub(self.shares_of(buffer)) {
            Some(room) => names_at_most(shares, buffer, room),
            None => false,
        }
    }

    /// Whether with these tokens none would be there twice.
    fn have_room_for_tokens(&self, program: &Program, tokens: &[u64]) -> bool
        ensures { result ≡ list_all (λ u. spec.fits program.now
            (spec.all_pooled program.now self.now) (tokens_alone tokens.now) (TokenOf u))
            tokens.now }
    {
        tokens
            .iter()
            .all(|token| self.has_room_for_token(program, tokens, *token))
    }

    fn has_room_for_token(&self, program: &Program, tokens: &[u64], user_data: u64) -> bool
        ensures { result ≡ spec.fits program.now (spec.all_pooled program.now self.now)
            (tokens_alone tokens.now) (TokenOf user_data) }
    {
        match 1_u64.checked_sub(self.tokens_of(program, user_data)) {
            Some(room) => times(tokens, user_data) as u64 <= room,
            None => false,
        }
    }
}

/// Adds an empty pool of the program.
fn add_empty(pools: &mut Vec<Pool>, program: &Program) -> Result<(), AllocError>
    ensures { IfOk result
        (λ _. pools.new.items ≡ pools.old.items ++ spec.empty_pool program.now ∷ []) }
{
    let pool = Pool::empty(*pools.allocator(), program)?;
    pools.push(pool)?;
    Ok(())
}

/// Makes pools the same as others, in the memory that they have. There are at most 16 of each.
fn copy_all(pools: &mut Vec<Pool>, others: &[Pool]) -> Result<(), AllocError>
    requires few { (length pools.old.items ≤ 16) × (length others.now ≤ 16) }
    ensures same { IfOk result (λ _. pools.new.items ≡ others.now) }
    ensures few { length pools.new.items ≤ 16 }
{
    let alloc = *pools.allocator();
    pools.resize_with(others.len(), || Pool::none(alloc))?;
    for (place, other) in others.iter().enumerate() {
        pools[place].copy_from(other)?;
    }
    Ok(())
}
