//! What the request of a token may be, and the shares that it owns.

ghost use Rattle.std.specs.Prelude.{◌≡◌, filter_map};
ghost use Rattle.rc_lang.specs.Kinds.{kinds_in};
ghost use Rattle.rc_lang.specs.Views.{seen};
ghost use Rattle.rc_rules.specs.Kinds as spec;
ghost use Rattle.rc_rules.specs.Rules.{is_prepared_as};
ghost use Rattle.rc_split.specs.Bags.{ShareOf};

use crate::mode::{Slot, same_slot};
use rc_lang::program::{Token, TokenKind};
use rc_lang::view::View;

/// The token with this user data, if there is one.
pub fn token_of(view: View, user_data: u64) -> Option<Token>
    ensures { result ≡ spec.token_of (seen view.entry) user_data }
{
    let place = view.token_place(user_data)?;
    view.tokens().get(place).copied()
}

/// Whether the slot is prepared as one of the kinds of the token, where there is one.
pub fn is_prepared_as(token: Option<Token>, slot: Slot) -> bool
    ensures { result ≡ is_prepared_as (spec.kinds_at token) slot }
{
    match token {
        Some(token) => {
            same_slot(slot, Slot::Prepared(token.kind)) || is_one_of(slot, &token.others)
        }
        None => false,
    }
}

/// Whether the slot is prepared as one of these kinds.
fn is_one_of(slot: Slot, kinds: &[Option<TokenKind>]) -> bool
    ensures { result ≡ is_prepared_as (filter_map (λ kind. kind) kinds.now) slot }
{
    let [first, rest @ ..] = kinds else {
        return false;
    };
    match *first {
        Some(kind) => same_slot(slot, Slot::Prepared(kind)) || is_one_of(slot, rest),
        None => is_one_of(slot, rest),
    }
}

/// How many shares of the buffer a request of the token takes, whichever of its kinds it is.
pub fn shares_of(view: View, token: Token, buffer: usize) -> u32
    ensures { result ≡ spec.line_bag (seen view.entry) (kinds_in token) (ShareOf buffer) }
{
    let first = taken(view, buffer, token.kind);
    least(view, buffer, first, &token.others)
}

/// The least of so many shares of the buffer, and of those that a request of each of these kinds takes.
fn least(view: View, buffer: usize, most: u32, kinds: &[Option<TokenKind>]) -> u32
    ensures { result ≡ spec.least_of (seen view.entry) most (filter_map (λ kind. kind) kinds.now) (ShareOf buffer) }
{
    let [first, rest @ ..] = kinds else {
        return most;
    };
    match *first {
        Some(kind) => {
            let fewer = most.min(taken(view, buffer, kind));
            least(view, buffer, fewer, rest)
        }
        None => least(view, buffer, most, rest),
    }
}

/// How many shares of the buffer a request of the kind takes.
fn taken(view: View, buffer: usize, kind: TokenKind) -> u32
    ensures { result ≡ spec.kind_bag (seen view.entry) kind (ShareOf buffer) }
{
    match kind {
        TokenKind::Read(read) if read == buffer => view.shares_at(read),
        TokenKind::Write(written, count) if written == buffer => count,
        _ => 0,
    }
}
