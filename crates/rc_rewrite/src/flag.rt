//! The flag that the line of a loop names.

ghost use Rattle.std.specs.Prelude.{◌≡◌, [], MatchOption, true};
ghost use Rattle.rc_rewrite.specs.Inside.{BeginsFlag};
ghost use Rattle.rc_rewrite.specs.Keeps.{flag_words, has_byte};

use rc_read::source::first_word;
use rc_read::words::is;

/// Whether two lists name the same flag, or both none.
pub fn is_same_flag(items: &[u8], list: &[u8]) -> bool
    ensures same { result ≡ true → flag_words list.now ≡ flag_words items.now }
    ensures told { flag_words list.now ≡ flag_words items.now → result ≡ true }
{
    let Some((word, items)) = flag_word(items) else {
        return flag_word(list).is_none();
    };
    let Some((other, list)) = flag_word(list) else {
        return false;
    };
    is(other, word) && is_same_flag(items, list)
}

/// The first word without a colon, and what comes after it.
fn flag_word(items: &[u8]) -> Option<(&[u8], &[u8])>
    ensures { MatchOption result (flag_words items.now ≡ [])
        (λ r. BeginsFlag items.now r.0.now r.1.now) }
{
    let mut rest = items;
    while let Some((word, after)) = first_word(rest) {
        if !has_colon(word) {
            return Some((word, after));
        }
        rest = after;
    }
    None
}

fn has_colon(word: &[u8]) -> bool
    ensures { result ≡ has_byte 58 word.now }
{
    word.iter().any(|b| *b == b':')
}
