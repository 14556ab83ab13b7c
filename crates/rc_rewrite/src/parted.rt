//! A line that opens a loop, cut around its items.

ghost use Rattle.std.specs.Prelude.{◌≡◌, MatchOption, false, true};
ghost use Rattle.rc_rewrite.specs.Inside.{IsCutAt, IsParted, OpensNoLoop};
ghost use Rattle.rc_rewrite.specs.Keeps.{OpensLoop, has_byte};

use rc_read::source::first_word;
use rc_read::words::is;

/// A line that opens a loop: what is before its items, the items, and what is behind its brace.
#[derive(Clone, Copy)]
pub struct Parted<'a> {
    pub before: &'a [u8],
    pub items: &'a [u8],
    pub behind: &'a [u8],
}

/// Cuts a line that opens a loop, if it is one.
pub fn around_items(line: &[u8]) -> Option<Parted<'_>>
    ensures { MatchOption result (OpensNoLoop line.now) (IsParted line.now) }
{
    for end in 0..line.len() {
        let before = &line[..end];
        if opens_loop(before) {
            let (items, behind) = cut_at(&line[end..], b'{')?;
            return Some(Parted {
                before,
                items,
                behind,
            });
        }
    }
    None
}

/// What is before the first such byte, and what is behind it.
pub fn cut_at(bytes: &[u8], byte: u8) -> Option<(&[u8], &[u8])>
    ensures { MatchOption result (has_byte byte bytes.now ≡ false)
        (λ r. IsCutAt byte bytes.now r.0.now r.1.now) }
{
    for i in 0..bytes.len() {
        if bytes[i] == byte {
            return Some((&bytes[..i], &bytes[i + 1..]));
        }
    }
    None
}

/// Whether the words are `loop keeps`.
fn opens_loop(bytes: &[u8]) -> bool
    ensures opens { result ≡ true → OpensLoop bytes.now }
    ensures told { OpensLoop bytes.now → result ≡ true }
{
    let Some((first, after)) = first_word(bytes) else {
        return false;
    };
    let Some((second, rest)) = first_word(after) else {
        return false;
    };
    is(first, b"loop") && is(second, b"keeps") && first_word(rest).is_none()
}

/// Whether a line names a flag.
pub fn has_when(line: &[u8]) -> bool {
    let mut rest = line;
    while let Some((word, after)) = first_word(rest) {
        if is(word, b"when") {
            return true;
        }
        rest = after;
    }
    false
}
