//! Worlds that are alike: what can come next is the same in both, but for bytes, serial numbers, what can't show any more,
//! and the order of requests that are pending.

use crate::reads::Reads;
use rc_lang::program::Program;
use rc_lang::request::Request;
use rc_split::pool::Pool;
use rc_world::controls::Look;
use rc_world::world::{Slot, World};

/// Whether two worlds of the same program are alike.
pub fn are_alike(reads: &Reads, one: &World<'_>, other: &World<'_>) -> bool {
    stand_alike(None, one, other) && hold_alike(reads, one, other)
}

/// Whether they are alike but for the place of this thread.
pub fn are_alike_beside(reads: &Reads, thread: u32, one: &World<'_>, other: &World<'_>) -> bool {
    stand_alike(Some(thread), one, other) && hold_alike(reads, one, other)
}

/// Whether all but the places of the threads is alike.
fn hold_alike(reads: &Reads, one: &World<'_>, other: &World<'_>) -> bool {
    one.holders().sq == other.holders().sq
        && one.holders().cq == other.holders().cq
        && slots_alike(one.slot(), other.slot())
        && lists_alike(one.queued(), other.queued())
        && one.completions() == other.completions()
        && looks_alike(one.look(), other.look())
        && pending_alike(one, other)
        && reads.are_same(one, other)
        && pools_alike(one, other)
}

/// Whether each thread, but for this one, is at the same place.
fn stand_alike(but: Option<u32>, one: &World<'_>, other: &World<'_>) -> bool {
    for thread in 0..one.program().threads().len() as u32 {
        if but != Some(thread) && one.place(thread) != other.place(thread) {
            return false;
        }
    }
    true
}

/// Whether the same was done with the front completion: where it is got, its request is reaped.
fn looks_alike(one: Look, other: Look) -> bool {
    matches!(
        (one, other),
        (Look::Unseen, Look::Unseen) | (Look::Peeked, Look::Peeked) | (Look::Got, Look::Got)
    )
}

fn slots_alike(one: Slot, other: Slot) -> bool {
    match (one, other) {
        (Slot::Closed, Slot::Closed) | (Slot::Vacant, Slot::Vacant) => true,
        (Slot::Prepared(one), Slot::Prepared(other)) => requests_alike(one, other),
        _ => false,
    }
}

/// The same but for the serial number, and for the file, the buffer and the place in the file, which show at no completion.
fn requests_alike(one: Request, other: Request) -> bool {
    one.kind == other.kind && one.len == other.len && one.user_data == other.user_data
}

fn lists_alike(one: &[Request], other: &[Request]) -> bool {
    if one.len() != other.len() {
        return false;
    }
    for (one, other) in one.iter().zip(other) {
        if !requests_alike(*one, *other) {
            return false;
        }
    }
    true
}

/// The same pending requests, in any order. No two of a run have the same user data.
fn pending_alike(one: &World<'_>, other: &World<'_>) -> bool {
    if one.pending_len() != other.pending_len() {
        return false;
    }
    for place in 0..one.pending_len() {
        match one.pending(place) {
            Some(request) if has_pending(other, request) => {}
            _ => return false,
        }
    }
    true
}

fn has_pending(world: &World<'_>, request: Request) -> bool {
    match pending_of(world, request.user_data) {
        Some(pending) => requests_alike(pending, request),
        None => false,
    }
}

/// The pending request with this user data.
pub fn pending_of(world: &World<'_>, user_data: u64) -> Option<Request> {
    world.pending(world.pending_place(user_data)?)
}

fn pools_alike(one: &World<'_>, other: &World<'_>) -> bool {
    let program = one.program();
    let (one, other) = (one.pools(), other.pools());
    if !pool_alike(program, one.unnamed(), other.unnamed()) {
        return false;
    }
    for (one, other) in one.named().iter().zip(other.named()) {
        if !pool_alike(program, one, other) {
            return false;
        }
    }
    true
}

fn pool_alike(program: &Program, one: &Pool, other: &Pool) -> bool {
    one.credits() == other.credits()
        && shares_alike(program, one, other)
        && tokens_alike(program, one, other)
}

fn shares_alike(program: &Program, one: &Pool, other: &Pool) -> bool {
    for buffer in 0..program.buffers().len() {
        if one.shares_of(buffer) != other.shares_of(buffer) {
            return false;
        }
    }
    true
}

fn tokens_alike(program: &Program, one: &Pool, other: &Pool) -> bool {
    for token in program.tokens() {
        let user_data = token.user_data;
        if one.has_token(program, user_data) != other.has_token(program, user_data) {
            return false;
        }
    }
    true
}
