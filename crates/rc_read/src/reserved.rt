//! The words that are no names.

ghost use Rattle.std.specs.Prelude.{◌≡◌, ◌∷◌, drop};
ghost use Rattle.rc_lang.specs.Names as spec;

use crate::words::is;

// Whether a word that begins with `p` is reserved.
fn is_reserved_at_p(w: &[u8]) -> bool
    requires { w.now ≡ 112 ∷ drop 1 w.now }
    ensures { result ≡ spec.is_reserved w.now }
{
    is(w, b"print")
        || is(w, b"prep_read")
        || is(w, b"prep_write")
        || is(w, b"prep_fsync")
        || is(w, b"prep_nop")
        || is(w, b"peek_cqe")
}

// Whether a word that begins with `s` is reserved.
fn is_reserved_at_s(w: &[u8]) -> bool
    requires { w.now ≡ 115 ∷ drop 1 w.now }
    ensures { result ≡ spec.is_reserved w.now }
{
    is(w, b"store")
        || is(w, b"set_data64")
        || is(w, b"submit")
        || is(w, b"submit_and_wait")
        || is(w, b"sq_ready")
        || is(w, b"sq_space_left")
}

// Whether a word that begins with this byte is reserved.
fn is_reserved_at(first: u8, w: &[u8]) -> bool
    requires { w.now ≡ first ∷ drop 1 w.now }
    ensures { result ≡ spec.is_reserved w.now }
{
    match first {
        b'b' => is(w, b"buffer") || is(w, b"break"),
        b'c' => is(w, b"c") || is(w, b"cqe_seen") || is(w, b"case"),
        b'e' => is(w, b"else"),
        b'f' => is(w, b"file") || is(w, b"fsync") || is(w, b"fill"),
        b'g' => is(w, b"get_sqe"),
        b'h' => is(w, b"holds"),
        b'i' => is(w, b"if"),
        b'k' => is(w, b"keeps") || is(w, b"kernel"),
        b'l' => is(w, b"left") || is(w, b"load") || is(w, b"lock") || is(w, b"loop"),
        b'n' => is(w, b"nop") || is(w, b"none"),
        b'o' => is(w, b"other"),
        b'p' => is_reserved_at_p(w),
        b'q' => is(w, b"q"),
        b'r' => is(w, b"ringcheck") || is(w, b"ring") || is(w, b"read"),
        b's' => is_reserved_at_s(w),
        b't' => is(w, b"token") || is(w, b"thread") || is(w, b"t"),
        b'w' => is(w, b"write"),
        _ => false,
    }
}

// Whether a word says that something is put into a pool or taken from it.
fn is_of_pool(w: &[u8]) -> bool
    ensures { result ≡ spec.is_of_pool w.now }
{
    is(w, b"put") || is(w, b"take")
}

// Whether a word is one of those that version 5 reserves besides.
fn is_of_fifth(w: &[u8]) -> bool
    ensures { result ≡ spec.is_of_fifth w.now }
{
    is(w, b"any")
        || is(w, b"by")
        || is(w, b"or")
        || is(w, b"cqe_get_data64")
        || is(w, b"prep_other")
}

/// Whether a later version of the notation reserves a word besides.
pub fn is_reserved_by(version: u32, w: &[u8]) -> bool
    ensures { result ≡ spec.is_reserved_by version w.now }
{
    (version >= 2 && is(w, b"when"))
        || (version >= 3 && is_of_pool(w))
        || (version >= 4 && is(w, b"pool"))
        || (version >= 5 && is_of_fifth(w))
}

/// Whether a word is reserved.
pub(crate) fn is_reserved(w: &[u8]) -> bool
    ensures { result ≡ spec.is_reserved w.now }
{
    match w {
        [] => false,
        [first, ..] => is_reserved_at(*first, w),
    }
}
