//! What is known of the ring at some point of a thread.

ghost use Rattle.std.specs.Prelude.{◌≡◌};
ghost use Rattle.rc_rules.specs.Rules as spec;

use rc_lang::program::TokenKind;

/// The submission entry that `io_uring_get_sqe(3)` opened last.
#[derive(Clone, Copy, PartialEq)]
pub enum Slot {
    /// None is open.
    Closed,
    /// One is open, and no prep has filled it.
    Vacant,
    /// One is open, and a prep made it a request of this kind, which took these shares.
    Prepared(TokenKind),
}

/// The front completion, as `io_uring_peek_cqe(3)` showed it.
#[derive(Clone, Copy, PartialEq)]
pub enum Peeked {
    /// It wasn't looked at, or there was none.
    Unseen,
    /// It has this user data.
    Sees(u64),
    /// It has none of the user data that the peek names.
    SeesOther,
    /// Its request was reaped by `io_uring_cqe_get_data64(3)`, and it wasn't seen yet.
    Got,
}

/// What is known of the submission side of the ring while its lock is held.
#[derive(Clone, Copy)]
pub struct Submitting {
    /// How many entries are queued at most, the open slot among them; 0 to the entries of the submission ring.
    pub queued: u32,
    pub slot: Slot,
}

/// Which locks the thread holds, and what is known of the ring under each.
#[derive(Clone, Copy)]
pub struct Mode {
    /// The submission side, while its lock is held.
    pub sq: Option<Submitting>,
    /// The completion side, while its lock is held.
    pub cq: Option<Peeked>,
}

/// No lock is held.
pub fn unlocked() -> Mode
    ensures { result ≡ spec.unlocked }
{
    Mode { sq: None, cq: None }
}

/// What is known of the submission side. Without its lock no slot is open, and nothing is queued.
pub fn sq_of(mode: Mode) -> Submitting
    ensures { result ≡ spec.sq_of mode }
{
    mode.sq.unwrap_or(Submitting {
        queued: 0,
        slot: Slot::Closed,
    })
}

/// What is known of the front completion. Without the lock of its side it isn't peeked.
pub fn peeked_of(mode: Mode) -> Peeked
    ensures { result ≡ spec.peeked_of mode }
{
    mode.cq.unwrap_or(Peeked::Unseen)
}

/// The same stage, with the same kind of request.
pub fn same_slot(a: Slot, b: Slot) -> bool
    ensures { result ≡ spec.same_slot a b }
{
    a == b
}

pub fn has_kind(slot: Slot) -> bool
    ensures { result ≡ spec.has_kind slot }
{
    match slot {
        Slot::Prepared(_) => true,
        Slot::Closed => false,
        Slot::Vacant => false,
    }
}

pub fn is_seen(peeked: Peeked) -> bool
    ensures { result ≡ spec.is_seen peeked }
{
    match peeked {
        Peeked::Unseen => false,
        Peeked::Sees(_) => true,
        Peeked::SeesOther => true,
        Peeked::Got => true,
    }
}

/// Whether its request was reaped.
pub fn is_got(peeked: Peeked) -> bool
    ensures { result ≡ spec.is_got peeked }
{
    match peeked {
        Peeked::Got => true,
        Peeked::Unseen => false,
        Peeked::Sees(_) => false,
        Peeked::SeesOther => false,
    }
}
