//! The first two lines of a log.

ghost use Rattle.std.specs.Prelude.{◌≡◌};
ghost use Rattle.rc_log.specs.Heads as spec;

use crate::parts::count;
use crate::words::{cut, is, two_words};

/// Whether a line is `ringcheck log 1`.
pub fn is_head(line: &[u8]) -> bool
    ensures { result ≡ spec.is_head line.now }
{
    is(line, b"ringcheck log 1")
}

/// The entries of the submission ring and of the completion ring, where a line is `ring SQ CQ`.
pub fn read_ring(line: &[u8]) -> Option<(u32, u32)>
    ensures { result ≡ spec.ring line.now }
{
    let (word, rest) = cut(line);
    if !is(word, b"ring") {
        return None;
    }
    let (entries, completion_entries) = two_words(rest)?;
    Some((count(entries)?, count(completion_entries)?))
}
