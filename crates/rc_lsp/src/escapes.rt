//! Escapes of a JSON string that are one half of a surrogate pair, without the other.

ghost use Rattle.std.specs.Prelude.{◌≡◌, ◌≤◌, IfOk, drop, get_or, take};
ghost use Rattle.rc_lsp.specs.Escapes as spec;

use std::alloc::{AllocError, Global};

/// The bytes, with U+FFFD in the place of each half that is alone.
pub fn repaired(alloc: Global, bytes: &[u8]) -> Result<Vec<u8>, AllocError>
    ensures { IfOk result (λ whole. whole.items ≡ spec.repaired bytes.now) }
{
    let mut whole = Vec::new(alloc);
    let mut rest = bytes;
    for turn in 0..bytes.len() {
        whole.extend_from_slice(first_piece(rest))?;
        rest = after(rest, piece_length(rest));
    }
    whole.extend_from_slice(rest)?;
    Ok(whole)
}

/// What is in the place of the bytes that belong together at the beginning.
fn first_piece(bytes: &[u8]) -> &[u8]
    ensures { result.now ≡ spec.repaired_piece bytes.now }
{
    if !begins_pair(bytes) & (begins_high(bytes) | begins_low(bytes)) {
        b"\\ufffd"
    } else {
        up_to(bytes, piece_length(bytes))
    }
}

/// How many bytes belong together at the beginning: a pair, a half, a backslash with what it escapes, or one.
fn piece_length(bytes: &[u8]) -> usize
    ensures { result ≡ spec.piece_length bytes.now }
{
    if begins_pair(bytes) {
        12
    } else if begins_high(bytes) | begins_low(bytes) {
        6
    } else if byte_at(bytes, 0) == b'\\' {
        2
    } else {
        1
    }
}

fn begins_pair(bytes: &[u8]) -> bool
    ensures { result ≡ spec.begins_pair bytes.now }
{
    begins_high(bytes) & begins_low(after(bytes, 6))
}

/// Whether bytes begin with the first half of a pair: `\ud800` to `\udbff`.
fn begins_high(bytes: &[u8]) -> bool
    ensures { result ≡ spec.begins_high bytes.now }
{
    let second = byte_at(bytes, 3);
    begins_half(
        bytes,
        is_between(b'8', b'9', second) | is_letter_between(0, 1, second),
    )
}

/// Whether they begin with the second half: `\udc00` to `\udfff`.
fn begins_low(bytes: &[u8]) -> bool
    ensures { result ≡ spec.begins_low bytes.now }
{
    begins_half(bytes, is_letter_between(2, 5, byte_at(bytes, 3)))
}

/// Whether they begin with `\u`, a d, a digit that is as it should be, and two more.
fn begins_half(bytes: &[u8], is_second: bool) -> bool
    ensures { result ≡ spec.begins_half (λ b. is_second) bytes.now }
{
    let begins = (byte_at(bytes, 0) == b'\\') & (byte_at(bytes, 1) == b'u');
    let is_first = is_letter_between(3, 3, byte_at(bytes, 2));
    begins & is_first & is_second & is_hex(byte_at(bytes, 4)) & is_hex(byte_at(bytes, 5))
}

fn is_hex(b: u8) -> bool
    ensures { result ≡ spec.is_hex b }
{
    is_between(b'0', b'9', b) | is_letter_between(0, 5, b)
}

/// Whether a byte is one of the letters from one to another, small or large.
fn is_letter_between(first: u8, last: u8, b: u8) -> bool
    requires { (first ≤ 25) × (last ≤ 25) }
    ensures { result ≡ spec.is_letter_between first last b }
{
    is_between(b'a' + first, b'a' + last, b) | is_between(b'A' + first, b'A' + last, b)
}

fn is_between(first: u8, last: u8, b: u8) -> bool
    ensures { result ≡ spec.is_between first last b }
{
    (first <= b) & (b <= last)
}

/// The byte at a place, and 0 after the last.
fn byte_at(bytes: &[u8], place: usize) -> u8
    ensures { result ≡ get_or bytes.now place 0 }
{
    if place < bytes.len() { bytes[place] } else { 0 }
}

/// The bytes up to this one, or all where there are fewer.
fn up_to(bytes: &[u8], end: usize) -> &[u8]
    ensures { result.now ≡ take end bytes.now }
{
    if end <= bytes.len() {
        &bytes[..end]
    } else {
        bytes
    }
}

/// The bytes from this one on, or none where there are fewer.
fn after(bytes: &[u8], start: usize) -> &[u8]
    ensures { result.now ≡ drop start bytes.now }
{
    if start <= bytes.len() {
        &bytes[start..]
    } else {
        &[]
    }
}
