//! Requests: what they may complete with, and where they are.

ghost use Rattle.std.specs.Prelude.{◌≡◌, ◌<◌, ◌≤◌, ◌&&◌, ◌||◌, length, nat_eq, position, IfSome};
ghost use Rattle.std.specs.Vec.{vec_capacity, vec_len};
ghost use Rattle.rc_lang.specs.Requests.{largest, may_complete};
ghost use Rattle.rc_world.specs.Machine.{is_read, without_data};

use super::Pending;
use rc_lang::request::{Kind, Request};

/// Whether a request of this kind fills a buffer.
pub fn is_read(kind: Kind) -> bool
    ensures { result ≡ is_read kind }
{
    match kind {
        Kind::Nop => false,
        Kind::Fsync => false,
        Kind::Read => true,
        Kind::Write => false,
        Kind::Other => false,
    }
}

/// The largest result of a request.
pub fn largest(request: Request) -> u32
    ensures { result ≡ largest request.len request.kind }
{
    match request.kind {
        Kind::Nop => 0,
        Kind::Fsync => 0,
        Kind::Read => request.len,
        Kind::Write => request.len,
        Kind::Other => 4096,
    }
}

/// Whether a request may complete with this result (io_uring_enter(2)).
pub fn may_complete(request: Request, res: i32) -> bool
    ensures { result ≡ may_complete request res }
{
    match u32::try_from(res) {
        Ok(count) => count <= largest(request),
        Err(_) => res >= -4095,
    }
}

// Whether an item may complete the request by this result and fill byte.
pub(super) fn kernel_may(request: Request, res: i32, fill: u8) -> bool
    ensures { result ≡ (may_complete request res && (nat_eq fill 0 || is_read request.kind)) }
{
    may_complete(request, res) && (fill == 0 || is_read(request.kind))
}

// The place of the pending request with this user data.
pub(super) fn place_of_pending(pending: &[Pending], user_data: u64) -> Option<usize>
    ensures value { result ≡ position (λ p. nat_eq p.request.user_data user_data) pending.now }
    ensures within { IfSome result (λ k. k < length pending.now) }
{
    pending
        .iter()
        .position(|pending| pending.request.user_data == user_data)
}

// The place of the first request with this user data.
fn place_of(requests: &[Request], user_data: u64) -> Option<usize>
    ensures { result ≡ position (λ r. nat_eq r.user_data user_data) requests.now }
{
    requests
        .iter()
        .position(|request| request.user_data == user_data)
}

/// Leaves the requests without the first that has this user data. The room stays.
pub fn remove_first(requests: &mut Vec<Request>, user_data: u64)
    ensures items { requests.new.items ≡ without_data user_data requests.old.items }
    ensures fewer { vec_len requests.new ≤ vec_len requests.old }
    ensures capacity { vec_capacity requests.new ≡ vec_capacity requests.old }
{
    if let Some(place) = place_of(requests, user_data) {
        requests.remove(place);
    }
}
