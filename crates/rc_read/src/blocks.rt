//! The fault sentences about a line that don't look at its places.

ghost use Rattle.std.specs.Prelude.{◌≡◌, ◌==◌};
ghost use Rattle.std.specs.List.{list_any};
ghost use Rattle.rc_lang.specs.Nesting as nesting;
ghost use Rattle.rc_read.specs.Sentences as spec;
ghost use Rattle.rc_read.specs.View.{view_arms, view_draft, view_sheet, view_way};

use crate::lists::{any_queue, parted};
use crate::parts::{Arms, Draft, Parts, Region};
use crate::says::Says;
use crate::table::Stand;
use crate::values::Item;
use rc_lang::lines::{Block, Locks};

/// The way of a break out of the open blocks: the place of the innermost loop, which locks are taken in it on the way,
/// and whether a peek is.
#[derive(Clone, Copy)]
pub struct Way {
    pub place: Option<usize>,
    pub releases: Locks,
    pub leaves: bool,
}

const NO_LOCK: Locks = Locks {
    sq: false,
    cq: false,
};

/// The innermost open block.
pub fn innermost(blocks: &[Block]) -> Option<Block>
    ensures { result ≡ nesting.innermost blocks.now }
{
    blocks.last().copied()
}

fn takes_sq(block: Block) -> bool
    ensures { result ≡ nesting.takes_sq block }
{
    match block {
        Block::InLock(_, locks) => locks.sq,
        Block::InIf(_) | Block::InElse(_) | Block::InPeek(_) => false,
        Block::InArm(_) | Block::InLoop(_, _) => false,
    }
}

fn takes_cq(block: Block) -> bool
    ensures { result ≡ nesting.takes_cq block }
{
    match block {
        Block::InLock(_, locks) => locks.cq,
        Block::InIf(_) | Block::InElse(_) | Block::InPeek(_) => false,
        Block::InArm(_) | Block::InLoop(_, _) => false,
    }
}

fn is_peek(block: Block) -> bool
    ensures { result ≡ nesting.is_peek block }
{
    match block {
        Block::InPeek(_) => true,
        Block::InLock(_, _) | Block::InIf(_) | Block::InElse(_) => false,
        Block::InArm(_) | Block::InLoop(_, _) => false,
    }
}

/// Whether a lock of the submission side is open.
pub fn in_sq(blocks: &[Block]) -> bool
    ensures { result ≡ (nesting.locks_in blocks.now).sq }
{
    blocks.iter().any(|block| takes_sq(*block))
}

/// Whether a lock of the completion side is open.
pub fn in_cq(blocks: &[Block]) -> bool
    ensures { result ≡ (nesting.locks_in blocks.now).cq }
{
    blocks.iter().any(|block| takes_cq(*block))
}

/// Whether a peek is open.
pub fn in_peek(blocks: &[Block]) -> bool
    ensures { result ≡ nesting.in_peek blocks.now }
{
    blocks.iter().any(|block| is_peek(*block))
}

// Whether such a lock breaks the order in which locks are nested, or is in a peek where it may not.
fn breaks_order(blocks: &[Block], locks: Locks) -> bool
    ensures { result ≡ nesting.breaks_order blocks.now locks }
{
    let sq = in_sq(blocks);
    (locks.sq && sq) || (locks.cq && (sq || in_cq(blocks) || in_peek(blocks)))
}

/// Whether the innermost open block is a peek.
pub fn directly_in_peek(blocks: &[Block]) -> bool
    ensures { result ≡ nesting.directly_in_peek blocks.now }
{
    match innermost(blocks) {
        Some(block) => is_peek(block),
        None => false,
    }
}

fn way_past(way: Way, block: Block) -> Way
    ensures { view_way result ≡ nesting.way_past (view_way way) block }
{
    match block {
        Block::InLock(_, locks) => Way {
            releases: way.releases.with(locks),
            ..way
        },
        Block::InPeek(_) => Way {
            leaves: true,
            ..way
        },
        Block::InLoop(place, _) => Way {
            place: Some(place),
            releases: NO_LOCK,
            leaves: false,
        },
        Block::InIf(_) | Block::InElse(_) | Block::InArm(_) => way,
    }
}

/// The way of a break out of the open blocks.
pub fn way_out(blocks: &[Block]) -> Way
    ensures { view_way result ≡ nesting.way_out blocks.now }
{
    let mut way = Way {
        place: None,
        releases: NO_LOCK,
        leaves: false,
    };
    for block in blocks {
        way = way_past(way, *block);
    }
    way
}

/// Whether a form with this are may be in this part of a model.
pub fn may_stand(stand: Stand, region: Region) -> bool
    ensures { result ≡ spec.may_stand stand region }
{
    match (stand, region) {
        (Stand::First, Region::Start) | (Stand::Second, Region::Second) => true,
        (Stand::Declaration, Region::Declarations) => true,
        (Stand::Header, Region::Declarations | Region::InThread | Region::Between) => true,
        (Stand::Inside, Region::InThread) | (Stand::Brace, _) => true,
        _ => false,
    }
}

fn is_inside(region: Region) -> bool
    ensures { result ≡ spec.is_inside region }
{
    match region {
        Region::InThread => true,
        Region::Start | Region::Second | Region::Declarations | Region::Between => false,
    }
}

fn is_first_branch(block: Option<Block>) -> bool
    ensures { result ≡ spec.is_first_branch block }
{
    match block {
        Some(Block::InIf(_)) => true,
        Some(Block::InLock(_, _) | Block::InElse(_) | Block::InPeek(_)) => false,
        Some(Block::InArm(_) | Block::InLoop(_, _)) => false,
        None => false,
    }
}

/// Whether a closing brace, an else or a thread's header is where none may.
pub fn bad_brace(parts: &Parts, says: Says) -> bool
    ensures { result ≡ spec.bad_brace (view_sheet parts.now) says }
{
    match says {
        Says::Close => !is_inside(parts.region),
        Says::Else => {
            !(is_inside(parts.region) && is_first_branch(innermost(&parts.draft.blocks)))
        }
        Says::Thread(_) => is_inside(parts.region),
        Says::Version(_) | Says::Ring(_) | Says::File(_) | Says::Buffer(_, _) => false,
        Says::Token(_) | Says::Pool | Says::PoolStock | Says::UnnamedStock => false,
        Says::Op(_) | Says::Put(_) | Says::Lock(_) => false,
        Says::If(_) | Says::Take(_) | Says::Peek(_) | Says::Case(_) | Says::Other => false,
        Says::Nothing | Says::Loop | Says::Break => false,
    }
}

/// Whether a line is one too many, or has too many bytes.
pub fn is_too_long(parts: &Parts, line: &[u8]) -> bool
    ensures { result ≡ spec.is_too_long (view_sheet parts.now) line.now }
{
    parts.count >= 4096 || line.len() > 256
}

fn opens_block(says: Says) -> bool
    ensures { result ≡ spec.opens_block says }
{
    match says {
        Says::Lock(_) | Says::If(_) | Says::Take(_) | Says::Peek(_) | Says::Loop => true,
        Says::Case(_) | Says::Other | Says::Nothing => true,
        Says::Version(_) | Says::Ring(_) | Says::File(_) | Says::Buffer(_, _) => false,
        Says::Token(_) | Says::Pool | Says::PoolStock | Says::UnnamedStock => false,
        Says::Thread(_) | Says::Op(_) | Says::Put(_) => false,
        Says::Else | Says::Break | Says::Close => false,
    }
}

/// Whether a line opens one block too many.
pub fn is_too_deep(parts: &Parts, says: Says) -> bool
    ensures { result ≡ spec.is_too_deep (view_sheet parts.now) says }
{
    opens_block(says) && parts.draft.blocks.len() >= 31
}

/// Whether a line is in a block in which it may not, or needs one that isn't open.
pub fn bad_nesting(draft: &Draft, items: &[Item], says: Says) -> bool
    ensures { result ≡ spec.bad_nesting (view_draft draft.now).blocks items.now says }
{
    let blocks = &draft.blocks;
    match says {
        Says::Lock(locks) => breaks_order(blocks, locks),
        Says::Peek(_) => in_peek(blocks),
        Says::Loop => {
            in_peek(blocks) || (any_queue(items) && (!in_sq(blocks) || any_queue(parted(items).1)))
        }
        Says::PoolStock | Says::UnnamedStock => any_queue(items),
        Says::Thread(_) | Says::Put(_) | Says::Take(_) => any_queue(items),
        Says::Break => way_out(blocks).place.is_none(),
        Says::Version(_) | Says::Ring(_) | Says::File(_) | Says::Buffer(_, _) => false,
        Says::Token(_) | Says::Pool | Says::Op(_) | Says::If(_) | Says::Else => false,
        Says::Case(_) | Says::Other | Says::Nothing | Says::Close => false,
    }
}

fn has_case(arms: &Arms, u: u64) -> bool
    ensures { result ≡ list_any (λ v. v == u) (view_arms arms.now).cases }
{
    arms.cases.iter().any(|v| *v == u)
}

/// Whether an arm isn't directly in a peek, another statement does, an arm is twice, or one is missing.
pub fn bad_case(draft: &Draft, says: Says) -> bool
    ensures { result ≡ spec.bad_case (view_draft draft.now) says }
{
    let arms = &draft.arms;
    let directly = directly_in_peek(&draft.blocks);
    match says {
        Says::Case(u) => !directly || has_case(arms, u),
        Says::Other => !directly || arms.other,
        Says::Nothing => !directly || arms.none,
        Says::Close => directly && !(arms.other && arms.none),
        Says::Op(_) | Says::Lock(_) | Says::If(_) | Says::Peek(_) => directly,
        Says::Put(_) | Says::Take(_) | Says::Loop | Says::Break => directly,
        Says::Version(_) | Says::Ring(_) | Says::File(_) | Says::Buffer(_, _) => false,
        Says::Token(_) | Says::Pool | Says::PoolStock | Says::UnnamedStock => false,
        Says::Thread(_) | Says::Else => false,
    }
}
