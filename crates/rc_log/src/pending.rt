//! The bytes of a log that wait between two reads.

ghost use Rattle.std.specs.Prelude.{◌≤◌, ◌≡◌, vec_len};
ghost use Rattle.rc_log.specs.Lines.{BeginsWith};

use crate::line::MOST_BYTES;
use memchr::memchr2;
use std::alloc::{AllocError, Global};

/// What bytes of a log begin with.
#[derive(Clone, Copy)]
pub enum Seen {
    /// A line of so many bytes, without its line feed.
    Line(usize),
    /// Nothing that has ended.
    More,
    /// A byte 0 after so many bytes: the log ends here, in a line or before one.
    End(usize),
    /// A line of more than 4,096 bytes.
    TooLong,
}

/// What these bytes of a log begin with.
fn look(bytes: &[u8]) -> Seen
    ensures { BeginsWith bytes.now result }
{
    let count = bytes.len().min(MOST_BYTES + 1);
    match memchr2(b'\n', 0, &bytes[..count]) {
        Some(i) if bytes[i] == 0 => Seen::End(i),
        Some(i) => Seen::Line(i),
        None if count > MOST_BYTES => Seen::TooLong,
        None => Seen::More,
    }
}

/// The bytes of a log that wait, and the line that was given last.
#[derive(Drop)]
pub struct Pending {
    bytes: Vec<u8>,
    // Where the line begins and ends, and where the bytes begin that wait.
    start: usize,
    end: usize,
    at: usize,
    ghost line: { start ≤ end },
    ghost line_within: { end ≤ vec_len bytes },
    ghost within: { at ≤ vec_len bytes },
}

impl Pending {
    ghost use Rattle.std.specs.Prelude.{◌≡◌, ◌++◌, [], OnOk};
    ghost use Rattle.rc_log.specs.Lines.{BeginsWith};
    ghost use Rattle.rc_log.specs.Waiting.{Gave, given, waiting};

    /// No bytes.
    pub fn new(alloc: Global) -> Pending
        ensures { waiting result ≡ [] }
    {
        Pending {
            bytes: Vec::new(alloc),
            start: 0,
            end: 0,
            at: 0,
        }
    }

    /// Adds bytes to those that wait. Only those are kept, and no line is given any more.
    pub fn feed(&mut self, piece: &[u8]) -> Result<(), AllocError>
        ensures { OnOk result (waiting self.new ≡ waiting self.old ++ piece.now) }
    {
        let waiting = self.bytes.split_off(self.at)?;
        self.start = 0;
        self.end = 0;
        self.at = 0;
        self.bytes = waiting;
        self.bytes.extend_from_slice(piece)
    }

    /// Looks at the bytes that wait. A line with which they begin is given, and doesn't wait any more.
    pub fn step(&mut self) -> Seen
        ensures seen { BeginsWith (waiting self.old) result }
        ensures gave { Gave self.old self.new result }
    {
        let seen = look(self.waiting());
        if let Seen::Line(len) = seen {
            self.start = self.at;
            self.end = self.at + len;
            self.at = self.end + 1;
        }
        seen
    }

    /// The bytes that wait.
    pub fn waiting(&self) -> &[u8]
        ensures { result.now ≡ waiting self.now }
    {
        &self.bytes[self.at..]
    }

    /// The line that was given last.
    pub fn line(&self) -> &[u8]
        ensures { result.now ≡ given self.now }
    {
        &self.bytes[self.start..self.end]
    }
}
