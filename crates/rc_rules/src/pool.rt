//! The rules of pools, on a holding and what is known of the ring.

ghost use Rattle.std.specs.Prelude.{◌≡◌, ◌+◌, ◌≤◌, ◌^◌, nat_eq, nat_le};
ghost use Rattle.std.specs.List.{list_all, list_any};
ghost use Rattle.rc_lang.specs.Parts.{view_items};
ghost use Rattle.rc_lang.specs.Kept.{IsItems};
ghost use Rattle.rc_lang.specs.Views.{IsView};
ghost use Rattle.rc_rules.specs.Rules as rules;
ghost use Rattle.rc_rules.specs.States as states;
ghost use Rattle.rc_split.specs.Bags as bags;
ghost use Rattle.rc_split.specs.Holdings.{bag};

use crate::mode::{Mode, Peeked, peeked_of};
use rc_lang::program::{Items, Share};
use rc_split::holding::Holding;
use rc_split::part::Part;

/// The first branch of `if take ITEMS`: what the pool had is held. None: no pool can have it, so nothing comes there.
pub fn take(holding: &mut Holding, mode: Mode, items: &Items) -> Option<Mode>
    requires made { IsItems holding.old.program (view_items items.now) }
    requires small { (p : bags.Part) → bag holding.old p ≤ 2 ^ 19 }
    ensures { states.Leaves holding.old holding.new result (rules.take_effect holding.old.program (bag holding.old) mode (view_items items.now)) }
{
    if !can_take(holding, mode, items) {
        return None;
    }
    holding.gain(items);
    Some(mode)
}

/// Whether a pool may have the items: neither the thread nor the request that is peeked has them.
fn can_take(holding: &Holding, mode: Mode, items: &Items) -> bool
    requires { IsItems holding.now.program (view_items items.now) }
    ensures answer { result ≡ rules.can_take holding.now.program (bag holding.now) mode (view_items items.now) }
    ensures made { IsView holding.now.program }
{
    // This says that the view is one of a made program, and so how many of each part there are at most.
    let _ = holding.view();
    has_room(holding, items) && !names_peeked(&items.tokens, peeked_of(mode))
}

/// Whether with the items no more is held of each part than there is.
fn has_room(holding: &Holding, items: &Items) -> bool
    requires { IsItems holding.now.program (view_items items.now) }
    ensures { result ≡ rules.has_room holding.now.program (bag holding.now) (view_items items.now) }
{
    if !shares_fit(holding, &items.shares) {
        return false;
    }
    if !tokens_fit(holding, &items.tokens) {
        return false;
    }
    credits_fit(holding, items.credits)
}

fn shares_fit(holding: &Holding, shares: &[Share]) -> bool
    ensures { result ≡ list_all (states.share_fits holding.now) shares.now }
{
    shares.iter().all(|share| share_fits(holding, *share))
}

fn share_fits(holding: &Holding, share: Share) -> bool
    ensures { result ≡ states.share_fits holding.now share }
{
    let shares = holding.view().shares_at(share.buffer);
    if shares < share.count {
        return false;
    }
    let most = shares - share.count;
    !holding.holds(Part::Shares(share.buffer, most + 1))
}

fn tokens_fit(holding: &Holding, tokens: &[u64]) -> bool
    ensures { result ≡ list_all (states.token_fits holding.now) tokens.now }
{
    tokens.iter().all(|token| token_fits(holding, *token))
}

fn token_fits(holding: &Holding, user_data: u64) -> bool
    ensures { result ≡ states.token_fits holding.now user_data }
{
    !holding.holds(Part::Token(user_data))
}

fn credits_fit(holding: &Holding, credits: u32) -> bool
    ensures { result ≡ nat_le (bag holding.now bags.Credit + credits) holding.now.program.completion_entries }
{
    let entries = holding.view().completion_entries();
    if entries < credits {
        return false;
    }
    let most = entries - credits;
    !holding.holds(Part::Credits(most + 1))
}

fn names_peeked(tokens: &[u64], peeked: Peeked) -> bool
    ensures { result ≡ rules.names_peeked tokens.now peeked }
{
    match peeked {
        Peeked::Unseen => false,
        Peeked::Sees(user_data) => names(tokens, user_data),
        Peeked::SeesOther => false,
        Peeked::Got => false,
    }
}

fn names(tokens: &[u64], user_data: u64) -> bool
    ensures { result ≡ list_any (λ u. nat_eq u user_data) tokens.now }
{
    tokens.iter().any(|token| *token == user_data)
}
