//! Heads of frames.

ghost use Rattle.std.specs.Prelude.{◌<◌, ◌≤◌, IfSome, length};
ghost use Rattle.rc_lsp.specs.Heads.{IsWithin};

/// How many bytes a body has at most.
pub const MOST_BODY: usize = 16 * 1024 * 1024;

/// How many bytes a head has at most, with the blank line at its end.
const MOST_HEAD: usize = 4096;

/// What bytes begin with.
#[derive(Clone, Copy)]
pub enum Begin {
    /// A whole frame: where its body begins, and where it ends.
    Frame { start: usize, end: usize },
    /// A part of a frame: more bytes are needed.
    Part,
    /// No head.
    NoHead,
    /// A head of a body above 16 MiB.
    TooLarge,
}

/// What bytes begin with.
pub fn begin_of(bytes: &[u8]) -> Begin
    ensures { IsWithin bytes.now result }
{
    let seen = &bytes[..bytes.len().min(MOST_HEAD)];
    let Some(start) = body_start(seen) else {
        return if seen.len() == MOST_HEAD {
            Begin::NoHead
        } else {
            Begin::Part
        };
    };
    match length_in(&seen[..start]) {
        None => Begin::NoHead,
        Some(length) if length > MOST_BODY => Begin::TooLarge,
        Some(length) if bytes.len() - start < length => Begin::Part,
        Some(length) => Begin::Frame {
            start,
            end: start + length,
        },
    }
}

/// Where the body begins: after the first blank line.
fn body_start(bytes: &[u8]) -> Option<usize>
    ensures { IfSome result (λ start. (4 ≤ start) × (start ≤ length bytes.now)) }
{
    for at in 0..bytes.len() {
        if bytes[at..].starts_with(b"\r\n\r\n") {
            return Some(at + 4);
        }
    }
    None
}

/// The length that a head gives: each of its lines is a name, a colon and a value, and `Content-Length` is among them.
fn length_in(head: &[u8]) -> Option<usize> {
    let mut length = None;
    let mut rest = head;
    while let Some((line, after)) = cut_line(rest) {
        rest = after;
        let line = line.strip_suffix(b"\r").unwrap_or(line);
        if line.is_empty() {
            continue;
        }
        let colon = colon_in(line)?;
        if line[..colon].eq_ignore_ascii_case(b"Content-Length") {
            length = Some(number_in(&line[colon + 1..])?);
        }
    }
    length
}

/// The first line of the bytes, and what comes after its line feed.
fn cut_line(bytes: &[u8]) -> Option<(&[u8], &[u8])>
    ensures { IfSome result (λ r. length r.1.now < length bytes.now) }
{
    for at in 0..bytes.len() {
        if bytes[at] == b'\n' {
            return Some((&bytes[..at], &bytes[at + 1..]));
        }
    }
    None
}

/// Where the first colon of a line is.
fn colon_in(line: &[u8]) -> Option<usize>
    ensures { IfSome result (λ at. at < length line.now) }
{
    for at in 0..line.len() {
        if line[at] == b':' {
            return Some(at);
        }
    }
    None
}

/// The number that a value is: digits, with blanks around them.
fn number_in(value: &[u8]) -> Option<usize> {
    let digits = value.trim_ascii();
    let mut number: usize = 0;
    for b in digits {
        if !b.is_ascii_digit() {
            return None;
        }
        number = number
            .saturating_mul(10)
            .saturating_add(usize::from(*b - b'0'));
    }
    if digits.is_empty() {
        None
    } else {
        Some(number)
    }
}
