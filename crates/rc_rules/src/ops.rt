//! The rules of statements without a block, on a holding and a mode.

ghost use Rattle.std.specs.Prelude.{◌≡◌, ◌≤◌, ◌<◌, ◌^◌, Some, true, length};
ghost use Rattle.rc_lang.specs.Kinds.{kinds_in};
ghost use Rattle.rc_lang.specs.Views.{IsView};
ghost use Rattle.rc_rules.specs.Kinds as kinds;
ghost use Rattle.rc_rules.specs.OneRule.{only_computes};
ghost use Rattle.rc_rules.specs.Rules as rules;
ghost use Rattle.rc_rules.specs.States as states;
ghost use Rattle.rc_split.specs.Bags as bags;
ghost use Rattle.rc_split.specs.Holdings.{Gains, Loses, bag};
ghost use Rattle.rc_rules.specs.declared.mode.Peeked.TheVariants as peeks;
ghost use Rattle.rc_rules.specs.declared.mode.Slot.TheVariants as slots;

use crate::kinds::{shares_of, token_of};
use crate::mode::{Mode, Peeked, Slot, Submitting, peeked_of, sq_of};
use rc_lang::lines::Op;
use rc_lang::program::{Token, TokenKind};
use rc_split::holding::Holding;
use rc_split::part::Part;

/// Whether a statement only computes: it asks for nothing, and what is held and known of the ring stays.
pub fn only_computes(op: &Op) -> bool
    ensures { result ≡ only_computes op.now }
{
    match *op {
        Op::Set(_, _) => true,
        Op::Assign(_, _) => true,
        Op::Add(_, _, _) => true,
        Op::Subtract(_, _, _) => true,
        Op::Print(_) => true,
        _ => false,
    }
}

/// What is known after a statement whose premises hold.
pub fn after(holding: &mut Holding, mode: Mode, op: &Op) -> Mode
    requires met { states.MeetsOp holding.old mode op.now }
    requires small { (p : bags.Part) → bag holding.old p ≤ 2 ^ 19 }
    requires free { states.IsFreeIn holding.old.program (bag holding.old) mode }
    ensures { states.DoesOp holding.old holding.new mode result op.now }
{
    match *op {
        Op::GetSqe => opened(holding, mode),
        Op::PrepRead(_, buffer, _, _) => prepared(holding, mode, TokenKind::Read(buffer)),
        Op::PrepWrite(_, buffer, _, _, count) => {
            prepared(holding, mode, TokenKind::Write(buffer, count))
        }
        Op::PrepFsync(_, _) => prepared(holding, mode, TokenKind::Fsync),
        Op::PrepNop => prepared(holding, mode, TokenKind::Nop),
        Op::PrepOther => prepared(holding, mode, TokenKind::Other),
        Op::SetData64(user_data) => queued(holding, mode, user_data),
        Op::CqeGetData64 => got(holding, mode),
        Op::CqeSeen => seen(holding, mode),
        _ => mode,
    }
}

/// `io_uring_get_sqe(3)`: a credit goes to the open slot, which counts as a queued entry. No more are ever queued than the
/// ring has entries.
fn opened(holding: &mut Holding, mode: Mode) -> Mode
    requires { 1 ≤ bag holding.old bags.Credit }
    ensures ring { result ≡ rules.opened holding.old.program (rules.sq_of mode) mode }
    ensures lost { Loses holding.old holding.new (bags.credits_bag 1) }
{
    let entries = holding.view().entries();
    let _ = holding.take(Part::Credits(1));
    Mode {
        sq: Some(Submitting {
            queued: sq_of(mode).queued.saturating_add(1).min(entries),
            slot: Slot::Vacant,
        }),
        ..mode
    }
}

/// With the slot at another stage.
fn with_slot(slot: Slot, mode: Mode) -> Mode
    ensures { result ≡ rules.with_slot slot (rules.sq_of mode) mode }
{
    Mode {
        sq: Some(Submitting {
            slot,
            ..sq_of(mode)
        }),
        ..mode
    }
}

/// A prep (`io_uring_prep_read(3)`): the shares that its request takes go to the open slot.
fn prepared(holding: &mut Holding, mode: Mode, kind: TokenKind) -> Mode
    requires held { bags.IsWithin (kinds.kind_bag holding.old.program kind) (bag holding.old) }
    ensures slot { result ≡ rules.with_slot (slots.Prepared kind) (rules.sq_of mode) mode }
    ensures lost { Loses holding.old holding.new (kinds.kind_bag holding.old.program kind) }
{
    match kind {
        TokenKind::Read(buffer) => {
            let shares = holding.view().shares_at(buffer);
            let _ = holding.take(Part::Shares(buffer, shares));
        }
        TokenKind::Write(buffer, count) => {
            let _ = holding.take(Part::Shares(buffer, count));
        }
        TokenKind::Fsync => {}
        TokenKind::Nop => {}
        TokenKind::Other => {}
    }
    with_slot(Slot::Prepared(kind), mode)
}

/// `io_uring_sqe_set_data64(3)`: the token goes to the request, which is queued.
fn queued(holding: &mut Holding, mode: Mode, user_data: u64) -> Mode
    requires held { 1 ≤ bag holding.old (bags.TokenOf user_data) }
    ensures slot { result ≡ rules.with_slot slots.Closed (rules.sq_of mode) mode }
    ensures lost { Loses holding.old holding.new (bags.token_bag user_data) }
{
    let _ = holding.take(Part::Token(user_data));
    with_slot(Slot::Closed, mode)
}

/// `io_uring_cqe_get_data64(3)`: the request is reaped, and what it owned comes back, as far as it is known which one it
/// was. The completion keeps its place in the ring until it is seen.
fn got(holding: &mut Holding, mode: Mode) -> Mode
    requires small { (p : bags.Part) → bag holding.old p ≤ 2 ^ 19 }
    requires free { states.IsFreeIn holding.old.program (bag holding.old) mode }
    ensures ring { result ≡ record mode { cq = Some peeks.Got } }
    ensures gained { Gains holding.old holding.new (rules.got_bag holding.old.program (rules.peeked_of mode)) }
{
    if let Peeked::Sees(user_data) = peeked_of(mode) {
        give_request(holding, user_data);
    }
    Mode {
        cq: Some(Peeked::Got),
        ..mode
    }
}

/// `io_uring_cqe_seen(3)`: the completion leaves its place in the ring, and its request is reaped, unless it was before.
fn seen(holding: &mut Holding, mode: Mode) -> Mode
    requires small { (p : bags.Part) → bag holding.old p ≤ 2 ^ 19 }
    requires free { states.IsFreeIn holding.old.program (bag holding.old) mode }
    ensures ring { result ≡ record mode { cq = Some peeks.Unseen } }
    ensures gained { Gains holding.old holding.new (rules.reaped holding.old.program (rules.peeked_of mode)) }
{
    reap(holding, peeked_of(mode));
    Mode {
        cq: Some(Peeked::Unseen),
        ..mode
    }
}

fn reap(holding: &mut Holding, peeked: Peeked)
    requires small { (p : bags.Part) → bag holding.old p ≤ 2 ^ 19 }
    requires free { states.IsFreeFor holding.old.program (bag holding.old) peeked }
    ensures { Gains holding.old holding.new (rules.reaped holding.old.program peeked) }
{
    match peeked {
        Peeked::Unseen => {}
        Peeked::Sees(user_data) => reap_request(holding, user_data),
        Peeked::SeesOther => holding.give(Part::Credits(1)),
        Peeked::Got => holding.give(Part::Credits(1)),
    }
}

fn reap_request(holding: &mut Holding, user_data: u64)
    requires small { (p : bags.Part) → bag holding.old p ≤ 2 ^ 19 }
    requires free { states.IsFreeFor holding.old.program (bag holding.old) (peeks.Sees user_data) }
    ensures { Gains holding.old holding.new (rules.reaped holding.old.program (peeks.Sees user_data)) }
{
    give_request(holding, user_data);
    holding.give(Part::Credits(1));
}

/// What a reaped request owned comes back, but for its credit: the shares that each kind of its token takes, and the
/// token.
fn give_request(holding: &mut Holding, user_data: u64)
    requires small { (p : bags.Part) → bag holding.old p ≤ 2 ^ 19 }
    requires free { states.IsFreeFor holding.old.program (bag holding.old) (peeks.Sees user_data) }
    ensures gained { Gains holding.old holding.new (rules.got_bag holding.old.program (peeks.Sees user_data)) }
    ensures made { IsView holding.old.program }
{
    give_line(holding, token_of(holding.view(), user_data));
    holding.give(Part::Token(user_data));
}

fn give_line(holding: &mut Holding, token: Option<Token>)
    requires small { (p : bags.Part) → bag holding.old p ≤ 2 ^ 19 }
    requires made { IsView holding.old.program }
    requires declared { states.IsLine holding.old.program token }
    ensures { Gains holding.old holding.new (kinds.line_bag holding.old.program (kinds.kinds_at token)) }
{
    match token {
        Some(token) => give_shares(holding, token),
        None => {}
    }
}

fn give_shares(holding: &mut Holding, token: Token)
    requires small { (p : bags.Part) → bag holding.old p ≤ 2 ^ 19 }
    requires made { IsView holding.old.program }
    requires declared { states.IsLine holding.old.program (Some token) }
    ensures { Gains holding.old holding.new (kinds.line_bag holding.old.program (kinds_in token)) }
{
    match token.kind {
        TokenKind::Read(buffer) => give_least(holding, token, buffer),
        TokenKind::Write(buffer, _) => give_least(holding, token, buffer),
        TokenKind::Fsync => {}
        TokenKind::Nop => {}
        TokenKind::Other => {}
    }
}

/// The shares of one buffer.
fn give_least(holding: &mut Holding, token: Token, buffer: usize)
    requires small { (p : bags.Part) → bag holding.old p ≤ 2 ^ 19 }
    requires declared { buffer < length holding.old.program.buffers }
    requires few { kinds.line_bag holding.old.program (kinds_in token) (bags.ShareOf buffer) ≤ 16 }
    ensures { Gains holding.old holding.new (bags.shares_bag buffer (kinds.line_bag holding.old.program (kinds_in token) (bags.ShareOf buffer))) }
{
    let count = shares_of(holding.view(), token, buffer);
    holding.give(Part::Shares(buffer, count));
}
