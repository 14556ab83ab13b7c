//! What is known of the ring in blocks, and where they join.

ghost use Rattle.std.specs.Prelude.{◌≡◌, ◌∷◌, [], option_map};
ghost use Rattle.rc_lang.specs.Parts.{view_items};
ghost use Rattle.rc_lang.specs.Views.{seen};
ghost use Rattle.rc_rules.specs.Premises.{Tests, Is};
ghost use Rattle.rc_rules.specs.Rules as rules;
ghost use Rattle.rc_rules.specs.States as states;

use crate::cause::Cause;
use crate::mode::{Mode, Peeked, Slot, Submitting, is_got, same_slot, sq_of};
use rc_lang::lines::{Locks, Test};
use rc_lang::program::Items;
use rc_lang::view::View;

/// What is known of the ring in the first branch of a test; what a take brings is told by its own rule.
pub fn behind_test(view: View, test: Test, mode: Mode) -> Mode
    ensures { result ≡ rules.test_mode (seen view.entry) test mode }
{
    match test {
        Test::ReadyZero => at_most(0, mode),
        Test::SpaceAtLeast(n) => at_most(view.entries().saturating_sub(n), mode),
        _ => mode,
    }
}

/// What is known where at most so many entries are queued.
fn at_most(most: u32, mode: Mode) -> Mode
    ensures { result ≡ rules.at_most most mode }
{
    Mode {
        sq: match mode.sq {
            Some(sq) => Some(Submitting {
                queued: sq.queued.min(most),
                ..sq
            }),
            None => None,
        },
        ..mode
    }
}

/// What is known in an arm of a peek.
pub fn in_arm(peeked: Peeked, mode: Mode) -> Mode
    ensures { result ≡ rules.with_peeked peeked mode }
{
    Mode {
        cq: seen_as(peeked, mode.cq),
        ..mode
    }
}

fn seen_as(peeked: Peeked, cq: Option<Peeked>) -> Option<Peeked>
    ensures { result ≡ option_map (λ _. peeked) cq }
{
    match cq {
        Some(_) => Some(peeked),
        None => None,
    }
}

/// What is known where some locks are taken: as many entries may be queued as may be left, and nothing is peeked.
pub fn locked(view: View, takes: Locks, mode: Mode) -> Mode
    ensures { result ≡ rules.locked (seen view.entry) takes mode }
{
    Mode {
        sq: if takes.sq {
            Some(Submitting {
                queued: view.left(),
                slot: Slot::Closed,
            })
        } else {
            mode.sq
        },
        cq: if takes.cq {
            Some(Peeked::Unseen)
        } else {
            mode.cq
        },
    }
}

/// What is known where some locks are released.
pub fn freed(releases: Locks, mode: Mode) -> Mode
    ensures { result ≡ rules.freed releases mode }
{
    Mode {
        sq: if releases.sq { None } else { mode.sq },
        cq: if releases.cq { None } else { mode.cq },
    }
}

/// How many entries may be queued at the top of a loop.
pub fn queue_on(view: View, items: &Items) -> u32
    ensures { result ≡ rules.queue_on (seen view.entry) (view_items items.now) }
{
    items.queue.unwrap_or(view.entries())
}

/// Whether no slot is open, and no more entries are queued than this.
pub fn keeps_queue(most: u32, mode: Mode) -> bool
    ensures { result ≡ rules.keeps_queue most mode }
{
    let sq = sq_of(mode);
    same_slot(sq.slot, Slot::Closed) && sq.queued <= most
}

/// What is known at the top of a loop.
pub fn top_mode(view: View, items: &Items, mode: Mode) -> Mode
    ensures { result ≡ rules.top_mode (seen view.entry) (view_items items.now) mode }
{
    Mode {
        sq: match mode.sq {
            Some(_) => Some(Submitting {
                queued: queue_on(view, items),
                slot: Slot::Closed,
            }),
            None => None,
        },
        cq: seen_as(Peeked::Unseen, mode.cq),
    }
}

/// Whether both see the same.
pub fn same_peeked(a: Peeked, b: Peeked) -> bool
    ensures { result ≡ states.same_peeked a b }
{
    a == b
}

/// Whether both can join: where both have the lock of the submission side, their slots are at one stage; and where both
/// have that of the completion side, the front completion is got in both or in neither.
pub fn may_join(a: Mode, b: Mode) -> Result<(), Cause>
    ensures { Tests result ((15, Is (rules.agree_modes a b)) ∷ []) }
{
    if !agree_sq(a.sq, b.sq) || !agree_cq(a.cq, b.cq) {
        return Err(Cause::JoinMismatch);
    }
    Ok(())
}

fn agree_sq(a: Option<Submitting>, b: Option<Submitting>) -> bool
    ensures { result ≡ rules.agree_sq a b }
{
    match (a, b) {
        (Some(a), Some(b)) => same_slot(a.slot, b.slot),
        _ => true,
    }
}

fn agree_cq(a: Option<Peeked>, b: Option<Peeked>) -> bool
    ensures { result ≡ rules.agree_cq a b }
{
    match (a, b) {
        (Some(a), Some(b)) => is_got(a) == is_got(b),
        _ => true,
    }
}

/// What is known of both.
pub fn both(a: Mode, b: Mode) -> Mode
    ensures { result ≡ states.both a b }
{
    Mode {
        sq: both_sq(a.sq, b.sq),
        cq: both_cq(a.cq, b.cq),
    }
}

fn both_sq(a: Option<Submitting>, b: Option<Submitting>) -> Option<Submitting>
    ensures { result ≡ states.of_both states.both_submitting a b }
{
    let a = a?;
    let b = b?;
    Some(Submitting {
        queued: a.queued.max(b.queued),
        slot: a.slot,
    })
}

fn both_cq(a: Option<Peeked>, b: Option<Peeked>) -> Option<Peeked>
    ensures { result ≡ states.of_both states.both_peeked a b }
{
    let a = a?;
    let b = b?;
    Some(if same_peeked(a, b) { a } else { Peeked::Unseen })
}
