//! Whether two worlds are the same.

ghost use Rattle.std.specs.Prelude.{◌≡◌, ℕ, slice_get, true};
ghost use Rattle.rc_runs.specs.Closing.{HasSameParts, IsLike, IsSameThread, IsSameVariable, still};

use crate::stuck::quiet::{VARIABLES, matters};
use rc_lang::request::Request;
use rc_world::controls::{Holders, Look};
use rc_world::world::{Slot, World};

/// Whether two worlds are the same but for variables on which nothing depends. Both are reached from one by steps that move,
/// store and fill nothing.
pub fn is_same(kept: &[bool], a: &World<'_>, b: &World<'_>) -> bool
    requires { still b.now ≡ still a.now }
    ensures { result ≡ true → IsLike kept.now a.now b.now }
{
    has_same_parts(a, b) && are_same_threads(kept, a, b)
}

/// Whether all is the same but for the threads, as far as such steps change it.
fn has_same_parts(a: &World<'_>, b: &World<'_>) -> bool
    ensures { result ≡ true → HasSameParts a.now b.now }
{
    if !has_same_slot(a.slot(), b.slot()) {
        return false;
    }
    if !has_same_look(a.look(), b.look()) {
        return false;
    }
    if !has_same_holders(a.holders(), b.holders()) {
        return false;
    }
    are_same_requests(a.completed(), b.completed())
}

fn has_same_slot(a: Slot, b: Slot) -> bool
    ensures { result ≡ true → a ≡ b }
{
    match (a, b) {
        (Slot::Closed, Slot::Closed) => true,
        (Slot::Vacant, Slot::Vacant) => true,
        (Slot::Prepared(a), Slot::Prepared(b)) => is_equal(a, b),
        _ => false,
    }
}

fn has_same_look(a: Look, b: Look) -> bool
    ensures { result ≡ true → a ≡ b }
{
    match (a, b) {
        (Look::Unseen, Look::Unseen) => true,
        (Look::Peeked, Look::Peeked) => true,
        (Look::Got, Look::Got) => true,
        _ => false,
    }
}

fn has_same_holders(a: Holders, b: Holders) -> bool
    ensures { result ≡ true → a ≡ b }
{
    a.sq == b.sq && a.cq == b.cq
}

fn are_same_requests(a: &[Request], b: &[Request]) -> bool
    ensures { result ≡ true → a.now ≡ b.now }
{
    if a.len() != b.len() {
        return false;
    }
    for place in 0..a.len() {
        if !is_same_request(a, b, place) {
            return false;
        }
    }
    true
}

fn is_equal(a: Request, b: Request) -> bool
    ensures { result ≡ true → a ≡ b }
{
    a == b
}

fn is_same_request(a: &[Request], b: &[Request], place: usize) -> bool
    ensures { result ≡ true → slice_get a.now place ≡ slice_get b.now place }
{
    match (a.get(place), b.get(place)) {
        (Some(a), Some(b)) => is_equal(*a, *b),
        (None, None) => true,
        _ => false,
    }
}

fn are_same_threads(kept: &[bool], a: &World<'_>, b: &World<'_>) -> bool
    ensures { result ≡ true → (i : ℕ) → IsSameThread kept.now a.now b.now i }
{
    let count = a.program().threads().len() as u32;
    for thread in 0..count {
        if !is_same_thread(kept, a, b, thread) {
            return false;
        }
    }
    a.place(count).is_none() && b.place(count).is_none()
}

fn is_same_thread(kept: &[bool], a: &World<'_>, b: &World<'_>, thread: u32) -> bool
    ensures { result ≡ true → IsSameThread kept.now a.now b.now thread }
{
    if a.place(thread) != b.place(thread) {
        return false;
    }
    for x in 0..VARIABLES {
        if !is_same_variable(kept, a, b, thread, x) {
            return false;
        }
    }
    true
}

fn is_same_variable(kept: &[bool], a: &World<'_>, b: &World<'_>, thread: u32, x: usize) -> bool
    ensures { result ≡ true → IsSameVariable kept.now a.now b.now thread x }
{
    !matters(kept, thread, x) || a.variable(thread, x) == b.variable(thread, x)
}

/// A number that is the same for worlds that are the same but for variables on which nothing depends.
pub fn sum_of(kept: &[bool], world: &World<'_>) -> u64 {
    let look = match world.look() {
        Look::Unseen => 0,
        Look::Peeked => 1,
        Look::Got => 2,
    };
    let slot = match world.slot() {
        Slot::Closed => 0,
        Slot::Vacant => 1,
        Slot::Prepared(request) => mixed(2, u64::from(request.len)),
    };
    let mut sum = mixed(look, slot);
    sum = mixed(sum, world.completed().len() as u64);
    sum = mixed(sum, number_of(world.holders().sq));
    sum = mixed(sum, number_of(world.holders().cq));
    for thread in 0..world.program().threads().len() as u32 {
        sum = with_thread(sum, kept, world, thread);
    }
    sum
}

/// A sum with where a thread is, and its variables that matter.
fn with_thread(sum: u64, kept: &[bool], world: &World<'_>, thread: u32) -> u64 {
    let mut sum = mixed(sum, world.place(thread).unwrap_or(0) as u64);
    for x in 0..VARIABLES {
        if matters(kept, thread, x) {
            sum = mixed(sum, world.variable(thread, x).cast_unsigned());
        }
    }
    sum
}

/// The number of a thread, from 1; 0 of none.
fn number_of(thread: Option<u32>) -> u64 {
    match thread {
        Some(thread) => u64::from(thread) + 1,
        None => 0,
    }
}

/// One number of two.
fn mixed(a: u64, b: u64) -> u64 {
    (a.rotate_left(23) ^ b).wrapping_mul(0x9e37_79b9_7f4a_7c15)
}
