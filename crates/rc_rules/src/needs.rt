//! What lines need, and whether it is there.

ghost use Rattle.std.specs.Prelude.{ℕ, ◌≡◌, ◌∷◌, ◌↔◌, [], map, IsTrue};
ghost use Rattle.rc_lang.specs.Parts.{view_items};
ghost use Rattle.rc_lang.specs.declared.lines.Stmt.TheVariants as stmts;
ghost use Rattle.rc_rules.specs.Needs as spec;
ghost use Rattle.rc_rules.specs.Needs.{listed};
ghost use Rattle.rc_rules.specs.Room as room;
ghost use Rattle.rc_rules.specs.Rules as rules;
ghost use Rattle.rc_rules.specs.Rules.{stmt_needs};
ghost use Rattle.rc_split.specs.Holdings.{bag};

use crate::blocks::{keeps_queue, queue_on};
use crate::cause::Cause;
use crate::kinds::{is_prepared_as, token_of};
use crate::mode::{Mode, Slot, has_kind, is_got, is_seen, peeked_of, same_slot, sq_of};
use rc_lang::lines::{Locks, Op, Stmt, Test};
use rc_lang::program::Items;
use rc_split::holding::Holding;
use rc_split::part::Part;

/// What a line needs: what a premise of it is about.
#[derive(Clone, Copy)]
pub enum Asks {
    /// The lock of the submission side.
    SqLock,
    /// The lock of the completion side.
    CqLock,
    /// A part of what is held.
    Part(Part),
    /// All shares of the buffer with this number.
    Whole(usize),
    /// The items that are put: the number of their list.
    Items(usize),
    /// At a loop's top or its end: that no entry is open, that no more are queued than the loop's items say, and that
    /// these are held; the number of their list.
    Loop(usize),
    /// Room for one more entry in the queue: fewer are queued than the ring has entries; or fewer tokens aren't held, from
    /// version 4 on; or fewer of the credits that threads begin with, from version 5 on.
    Room,
    /// That no entry is open.
    Closed,
    /// An open entry that no prep has filled.
    Vacant,
    /// An open entry that a prep has filled.
    Prepared,
    /// That the open entry is prepared as one of the kinds that the line of the token with this user data names.
    Line(u64),
    /// That this place is below the bytes of the buffer with this number, which comes first.
    Place(usize, u32),
    /// That this length is at most the bytes of the buffer with this number, which comes first.
    Length(usize, u32),
    /// A completion that is peeked.
    Peeked,
    /// That no more entries are queued than may be left.
    Left,
    /// That the slots of all ends that join are at one stage, and that the front completion is got at all or at none.
    Agreeing,
    /// That no completion is got and not seen.
    Seen,
}

/// A need, and the cause that is answered where it isn't met.
pub type Need = (Cause, Asks);

/// What a line needs, in the order of the numbers of the causes. Nothing comes after a None.
pub type Needs = [Option<Need>; 4];

const SQ_LOCK: Need = (Cause::Unlocked, Asks::SqLock);

const CQ_LOCK: Need = (Cause::Unlocked, Asks::CqLock);

const CLOSED: Need = (Cause::SlotOpen, Asks::Closed);

const VACANT: Need = (Cause::NoSlot, Asks::Vacant);

const PEEKED: Need = (Cause::NoEntry, Asks::Peeked);

const SEEN: Need = (Cause::NotSeen, Asks::Seen);

const LEFT: Need = (Cause::QueueLeft, Asks::Left);

fn one(a: Need) -> Needs
    ensures { listed result ≡ a ∷ [] }
{
    [Some(a), None, None, None]
}

fn two(a: Need, b: Need) -> Needs
    ensures { listed result ≡ a ∷ b ∷ [] }
{
    [Some(a), Some(b), None, None]
}

fn three(a: Need, b: Need, c: Need) -> Needs
    ensures { listed result ≡ a ∷ b ∷ c ∷ [] }
{
    [Some(a), Some(b), Some(c), None]
}

/// What a statement without a block needs.
fn op_needs(op: Op) -> Needs
    ensures { listed result ≡ rules.op_needs op }
{
    match op {
        Op::Load(_, buffer, place) => two(
            (Cause::NoShare, Asks::Part(Part::Shares(buffer, 1))),
            (Cause::OutOfBuffer, Asks::Place(buffer, place)),
        ),
        Op::Store(buffer, place, _) => two(
            (Cause::NotWhole, Asks::Whole(buffer)),
            (Cause::OutOfBuffer, Asks::Place(buffer, place)),
        ),
        Op::Fill(buffer, _) => one((Cause::NotWhole, Asks::Whole(buffer))),
        Op::GetSqe => [
            Some(SQ_LOCK),
            Some((Cause::NoCredit, Asks::Part(Part::Credits(1)))),
            Some((Cause::QueueFull, Asks::Room)),
            Some(CLOSED),
        ],
        Op::PrepRead(_, buffer, len, _) => [
            Some(SQ_LOCK),
            Some(VACANT),
            Some((Cause::NotWhole, Asks::Whole(buffer))),
            Some((Cause::OutOfBuffer, Asks::Length(buffer, len))),
        ],
        Op::PrepWrite(_, buffer, len, _, count) => [
            Some(SQ_LOCK),
            Some(VACANT),
            Some((Cause::NoShare, Asks::Part(Part::Shares(buffer, count)))),
            Some((Cause::OutOfBuffer, Asks::Length(buffer, len))),
        ],
        Op::PrepFsync(_, _) => two(SQ_LOCK, VACANT),
        Op::PrepNop => two(SQ_LOCK, VACANT),
        Op::PrepOther => two(SQ_LOCK, VACANT),
        Op::SetData64(user_data) => [
            Some(SQ_LOCK),
            Some((Cause::NoSlot, Asks::Prepared)),
            Some((Cause::WrongKind, Asks::Line(user_data))),
            Some((Cause::NoToken, Asks::Part(Part::Token(user_data)))),
        ],
        Op::Submit(_) => two(SQ_LOCK, CLOSED),
        Op::SubmitAndWait(_, _) => two(SQ_LOCK, CLOSED),
        Op::CqeGetData64 => two(CQ_LOCK, PEEKED),
        Op::CqeSeen => two(CQ_LOCK, PEEKED),
        _ => [None; 4],
    }
}

/// What is needed where a loop is left, by whether the lock of the submission side is released there.
fn leave_needs(releases: bool) -> Needs
    ensures { listed result ≡ rules.leave_needs releases }
{
    if releases {
        three(CLOSED, LEFT, SEEN)
    } else {
        two(CLOSED, SEEN)
    }
}

/// What is needed at the closing brace of a lock, by which sides' locks it releases.
fn release_needs(releases: Locks) -> Needs
    ensures { listed result ≡ rules.release_needs releases.sq releases.cq }
{
    match (releases.sq, releases.cq) {
        (true, true) => three(CLOSED, LEFT, SEEN),
        (true, false) => two(CLOSED, LEFT),
        (false, true) => one(SEEN),
        (false, false) => [None; 4],
    }
}

/// What a pool needs. Only the one without a name needs the locks.
fn pool_needs(pool: Option<usize>) -> Needs
    ensures { listed result ≡ rules.pool_needs pool }
{
    match pool {
        Some(_) => [None; 4],
        None => two(SQ_LOCK, CQ_LOCK),
    }
}

fn put_needs(pool: Option<usize>, list: usize) -> Needs
    ensures { listed result ≡ stmt_needs (stmts.Put pool list) }
{
    let held = (Cause::NotHeld, Asks::Items(list));
    match pool {
        Some(_) => one(held),
        None => three(SQ_LOCK, CQ_LOCK, held),
    }
}

fn test_needs(test: Test) -> Needs
    ensures { listed result ≡ rules.test_needs test }
{
    match test {
        Test::Compare(_, _, _) => [None; 4],
        Test::ReadyZero => one(SQ_LOCK),
        Test::SpaceAtLeast(_) => one(SQ_LOCK),
        Test::Take(pool, _) => pool_needs(pool),
        Test::Any => [None; 4],
    }
}

/// What a line needs.
pub fn needs_of(stmt: Stmt) -> Needs
    ensures { listed result ≡ stmt_needs stmt }
{
    match stmt {
        Stmt::Do(op) => op_needs(op),
        Stmt::Put(pool, k) => put_needs(pool, k),
        Stmt::EndLock(_, releases) => release_needs(releases),
        Stmt::If(test) => test_needs(test),
        Stmt::EndIf(_) => one((Cause::JoinMismatch, Asks::Agreeing)),
        Stmt::Peek(_) => two(CQ_LOCK, SEEN),
        Stmt::EndArm(_) => one(SEEN),
        Stmt::EndPeek(_) => one((Cause::JoinMismatch, Asks::Agreeing)),
        Stmt::Loop(k) => two((Cause::LoopEntry, Asks::Loop(k)), SEEN),
        Stmt::EndLoop(_, k) => two((Cause::LoopBody, Asks::Loop(k)), SEEN),
        Stmt::Break(_, releases, _) => leave_needs(releases.sq),
        _ => [None; 4],
    }
}

/// Whether a side meets what a line needs, as [`is_met`] says it: else the first cause whose need isn't met.
pub fn checked(
    holding: &Holding,
    lists: &[Items],
    zero: bool,
    mode: Mode,
    stmt: Stmt,
) -> Result<(), Cause>
    ensures { spec.Checks holding.now (map view_items lists.now) zero mode (stmt_needs stmt) result }
{
    all_met(holding, lists, zero, mode, &needs_of(stmt))
}

/// The numbers of the causes never fall, so that the first need that isn't met has the least.
fn all_met(
    holding: &Holding,
    lists: &[Items],
    zero: bool,
    mode: Mode,
    needs: &[Option<Need>],
) -> Result<(), Cause>
    requires { (v : ℕ) × spec.AreOrdered v (listed needs.now) }
    ensures { spec.Checks holding.now (map view_items lists.now) zero mode (listed needs.now) result }
{
    let [first, rest @ ..] = needs else {
        return Ok(());
    };
    let Some((cause, asks)) = *first else {
        return Ok(());
    };
    if !is_met(holding, lists, zero, mode, asks) {
        return Err(cause);
    }
    all_met(holding, lists, zero, mode, rest)
}

/// Whether a need is met, in a thread with these lists of items, on a side of the flag where so much is held and so much
/// is known of the ring.
pub fn is_met(holding: &Holding, lists: &[Items], zero: bool, mode: Mode, asks: Asks) -> bool
    ensures { IsTrue result ↔ spec.IsMetBy holding.now (map view_items lists.now) zero mode asks }
{
    let view = holding.view();
    let sq = sq_of(mode);
    match asks {
        Asks::SqLock => mode.sq.is_some(),
        Asks::CqLock => mode.cq.is_some(),
        Asks::Part(part) => holding.holds(part),
        Asks::Whole(buffer) => is_whole(holding, buffer),
        Asks::Items(list) => match lists.get(list) {
            Some(items) => holding.covers(items),
            None => true,
        },
        Asks::Loop(list) => match lists.get(list) {
            Some(items) => {
                keeps_queue(queue_on(view, items), mode) && holding.covers_on(items, zero)
            }
            None => keeps_queue(view.entries(), mode),
        },
        Asks::Room => can_queue(holding, sq.queued),
        Asks::Closed => same_slot(sq.slot, Slot::Closed),
        Asks::Vacant => same_slot(sq.slot, Slot::Vacant),
        Asks::Prepared => has_kind(sq.slot),
        Asks::Line(user_data) => is_prepared_as(token_of(view, user_data), sq.slot),
        Asks::Place(buffer, place) => place < view.bytes_at(buffer),
        Asks::Length(buffer, len) => len <= view.bytes_at(buffer),
        Asks::Peeked => is_seen(peeked_of(mode)),
        Asks::Left => sq.queued <= view.left(),
        Asks::Agreeing => true,
        Asks::Seen => !is_got(peeked_of(mode)),
    }
}

/// Whether after so many queued entries there is room for one more.
fn can_queue(holding: &Holding, queued: u32) -> bool
    ensures { result ≡ room.can_queue holding.now.program (bag holding.now) queued }
{
    queued < holding.view().entries() || few_tokens(holding) || few_credits(holding)
}

/// Whether the tokens that aren't held are fewer than the ring's entries, from version 4 on. Each queued entry owns one.
fn few_tokens(holding: &Holding) -> bool
    ensures { result ≡ room.few_tokens holding.now.program (bag holding.now) }
{
    let view = holding.view();
    view.version() >= 4 && holding.lacking() < view.entries()
}

/// Whether the credits that threads begin with and that aren't held are fewer than the ring's entries, from version 5 on.
/// Each queued entry owns one.
fn few_credits(holding: &Holding) -> bool
    ensures { result ≡ room.few_credits holding.now.program (bag holding.now) }
{
    let view = holding.view();
    view.version() >= 5 && credits_out(holding) < view.entries()
}

/// How many of the credits that threads begin with aren't held.
pub(crate) fn credits_out(holding: &Holding) -> u32
    ensures { result ≡ room.credits_out holding.now.program (bag holding.now) }
{
    holding.credits_given().saturating_sub(holding.credits())
}

/// Whether all shares of the buffer are held.
fn is_whole(holding: &Holding, buffer: usize) -> bool
    ensures { result ≡ rules.is_whole holding.now.program (bag holding.now) buffer }
{
    let shares = holding.view().shares_at(buffer);
    holding.holds(Part::Shares(buffer, shares))
}
