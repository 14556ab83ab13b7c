//! Words with a number in brackets: `NAME[N]`.

ghost use Rattle.std.specs.Prelude.{◌≡◌};
ghost use Rattle.rc_read.specs.Spots as spec;

use crate::spots::begins_number;
use crate::words::{is, is_name};
use rc_lang::names::cut_at_bracket;

// What is behind the first bracket of a word, up to the next one, and what is from that one on.
fn behind_bracket(word: &[u8]) -> (&[u8], &[u8])
    ensures inside { result.0.now ≡ spec.in_brackets word.now }
    ensures closing { result.1.now ≡ spec.closing_in word.now }
{
    match cut_at_bracket(word).1 {
        [] => (&[], &[]),
        [_, behind @ ..] => cut_at_bracket(behind),
    }
}

/// What is in the brackets of a word.
pub fn in_brackets(word: &[u8]) -> &[u8]
    ensures { result.now ≡ spec.in_brackets word.now }
{
    behind_bracket(word).0
}

fn opens_bracket(rest: &[u8]) -> bool
    ensures { result ≡ spec.opens_bracket rest.now }
{
    match rest {
        [] => false,
        [first, ..] => *first == b'[',
    }
}

/// Whether a word is a name, and after it in brackets is what begins as a number does.
pub fn names_copies(word: &[u8]) -> bool
    ensures { result ≡ spec.names_copies word.now }
{
    let (name, rest) = cut_at_bracket(word);
    let (number, closing) = behind_bracket(word);
    is_name(name) && opens_bracket(rest) && begins_number(number) && is(closing, b"]")
}
