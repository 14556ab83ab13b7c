//! The lines of pools and the headers of threads: what they give together is at most what there is.

ghost use Rattle.std.specs.Prelude.{◌≡◌, ◌⊎◌, ◌+◌, ◌-◌, ◌*◌, ◌<◌, ◌≤◌, [], length, nat_le, true, OnOk, Some};
ghost use Rattle.std.specs.List.{list_all};
ghost use Rattle.rc_lang.specs.Parts.{view_items, view_thread};
ghost use Rattle.rc_lang.specs.Program.{line_end};
ghost use Rattle.rc_lang.specs.Kept.{IsItems};
ghost use Rattle.rc_rules.specs.Labellings.{given_to, given_to_pools, header_asks, may_hold, pool_asks};
ghost use Rattle.rc_rules.specs.Premises.{Tests};
ghost use Rattle.rc_rules.specs.Rules.{limit};
ghost use Rattle.rc_split.specs.Bags as bags;
ghost use Rattle.rc_split.specs.Holdings.{AreDeclared, Gains, Holds, StaysSmall, bag};
ghost use Rattle.rc_verify.specs.Headers as spec;

use rc_lang::program::{Items, Program, Share, Thread};
use rc_rules::cause::Cause;
use rc_split::holding::Holding;
use rc_split::part::Part;

/// Whether so many more for each copy are there beside those that are held.
fn fits(held: u32, copies: u32, more: u32, there: u32) -> bool
    ensures { result ≡ nat_le (held + copies * more) there }
{
    let wanted = u64::from(copies) * u64::from(more);
    let all = u64::from(held) + wanted;
    all <= u64::from(there)
}

/// Whether the shares are there for each copy beside those that are held.
fn shares_fit(program: &Program, held: &Holding, copies: u32, shares: &[Share]) -> bool
    ensures { result ≡ list_all (spec.share_fits program.now (bag held.now) copies) shares.now }
{
    shares.iter().all(|share| {
        let there = program.shares_at(share.buffer);
        fits(held.shares(share.buffer), copies, share.count, there)
    })
}

/// Whether none of the tokens is held.
fn tokens_fit(held: &Holding, tokens: &[u64]) -> bool
    ensures { result ≡ list_all (spec.token_fits (bag held.now)) tokens.now }
{
    tokens.iter().all(|token| !held.holds(Part::Token(*token)))
}

/// Whether a thread may hold tokens: one of a line with copies may not, since each copy would hold them.
fn may_hold(thread: &Thread) -> bool
    ensures { result ≡ may_hold (Some (view_thread thread.now)) }
{
    thread.copy.is_none() || thread.items.tokens.is_empty()
}

/// Judges items that are given so many times, beside what is held.
fn judge_items(
    program: &Program,
    held: &Holding,
    copies: u32,
    tokens_allowed: bool,
    items: &Items,
) -> Result<(), Cause>
    requires some { 1 ≤ copies }
    requires alone { tokens_allowed ≡ true → (copies ≡ 1) ⊎ ((view_items items.now).tokens ≡ []) }
    requires within { bags.IsWithin (bag held.now) (limit program.now) }
    requires items { IsItems program.now (view_items items.now) }
    ensures { spec.JudgesItems program.now (bag held.now) copies tokens_allowed (view_items items.now) result }
{
    if !shares_fit(program, held, copies, &items.shares) {
        return Err(Cause::OverShares);
    }
    if !tokens_allowed {
        return Err(Cause::TokenTwice);
    }
    if !tokens_fit(held, &items.tokens) {
        return Err(Cause::TokenTwice);
    }
    let entries = program.completion_entries();
    if !fits(held.credits(), copies, items.credits, entries) {
        return Err(Cause::OverCredits);
    }
    Ok(())
}

/// Adds the items of so many copies. With them no token is held twice, and no count comes to 2^20.
fn gain_copies(held: &mut Holding, copies: u32, items: &Items)
    requires names { AreDeclared held.old.program (view_items items.now) }
    requires once { spec.HoldsOnce (bags.plus (bag held.old) (spec.times copies (bags.bag_of (view_items items.now)))) }
    requires small { StaysSmall held.old (spec.times copies (bags.bag_of (view_items items.now))) }
    ensures { Gains held.old held.new (spec.times copies (bags.bag_of (view_items items.now))) }
{
    let mut left = copies;
    while left > 0 {
        held.gain(items);
        left -= 1;
    }
}

/// How many threads there are from this one to the end of its line: all of the line's, if it is the first.
fn copies_of(program: &Program, thread: u32) -> u32
    requires { thread < length program.now.threads }
    ensures value { result ≡ line_end program.now.threads thread - thread }
    ensures some { 1 ≤ result }
{
    let end = program.line_end(thread as usize) as u32;
    end - thread
}

/// Judges items that are given so many times, beside what is held, and holds them too if they are there.
fn judge_and_hold(
    program: &Program,
    held: &mut Holding,
    copies: u32,
    tokens_allowed: bool,
    items: &Items,
) -> Result<(), Cause>
    requires of { held.old.program ≡ program.now }
    requires some { 1 ≤ copies }
    requires alone { tokens_allowed ≡ true → (copies ≡ 1) ⊎ ((view_items items.now).tokens ≡ []) }
    requires within { bags.IsWithin (bag held.old) (limit program.now) }
    requires items { IsItems program.now (view_items items.now) }
    ensures judges { spec.JudgesItems program.now (bag held.old) copies tokens_allowed (view_items items.now) result }
    ensures held { OnOk result (Gains held.old held.new (spec.times copies (bags.bag_of (view_items items.now)))) }
{
    // Any of a program's readers says that it was made, and so how many shares and credits there are at most.
    let _ = program.entries();
    judge_items(program, held, copies, tokens_allowed, items)?;
    gain_copies(held, copies, items);
    Ok(())
}

/// Judges the line of a pool, where those above it were judged and what they give together is held: all of them give
/// together at most what there is, and all of it is held from now on, or this is the least premise that fails.
pub fn judge_pool(program: &Program, line: usize, held: &mut Holding) -> Result<(), Cause>
    requires there { line < length program.now.stock }
    requires within { bags.IsWithin (given_to_pools program.now line) (limit program.now) }
    requires held { Holds held.old program.now (given_to_pools program.now line) }
    ensures tests { Tests result (pool_asks program.now (line + 1)) }
    ensures held { OnOk result (Holds held.new program.now (given_to_pools program.now (line + 1))) }
{
    let items = &program.stock()[line].items;
    judge_and_hold(program, held, 1, true, items)
}

/// Judges the header of a thread, where the lines of pools and the headers above it were judged and what they give
/// together is held: with all threads up to its line, its copies among them, they give together at most what there is, and
/// all of it is held from now on; or this is the least premise that fails.
pub fn judge_header(program: &Program, thread: u32, held: &mut Holding) -> Result<(), Cause>
    requires there { thread < length program.now.threads }
    requires within { bags.IsWithin (given_to program.now thread) (limit program.now) }
    requires held { Holds held.old program.now (given_to program.now thread) }
    ensures tests { Tests result (header_asks program.now thread) }
    ensures held { OnOk result (Holds held.new program.now (given_to program.now (line_end program.now.threads thread))) }
{
    let part = &program.threads()[thread as usize];
    let copies = copies_of(program, thread);
    judge_and_hold(program, held, copies, may_hold(part), &part.items)
}
