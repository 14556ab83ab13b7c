//! Devices: what serves the requests of a program.

use rc_lang::request::Request;

/// What serves requests.
///
/// Its relation `gives` says which results it gives to requests with which user data.
pub trait Device {
    ghost use Rattle.std.specs.Prelude.{◌≡◌, ◌≤◌, ℕ, ℤ, pos, negsuc, ◌≤ℤ◌, true, length, drop};
    ghost use Rattle.rc_lang.specs.Requests.{may_complete};

    ghost gives: { ℕ → ℤ → Type 0 };

    /// Serves a request, whose bytes are the first `len` of `bytes`, and answers its result: how many bytes it moved, what
    /// another request without a buffer gives, or a negative errno (`io_uring_enter(2)`).
    ///
    /// The `grant` asks it to move at most so many bytes or to give so much, 0 to 4096, or to fail with so much, -4095 to
    /// -1. That a device heeds it is not promised here. The bytes after the first `len` stay.
    fn serve(&mut self, request: &Request, bytes: &mut [u8], grant: i32) -> i32
        requires len { request.now.len ≤ length bytes.old }
        requires grant { (negsuc 4094 ≤ℤ grant) × (grant ≤ℤ pos 4096) }
        ensures allowed { may_complete request.now result ≡ true }
        ensures rest { drop request.now.len bytes.new ≡ drop request.now.len bytes.old }
        ensures gives { gives request.now.user_data result };
}
