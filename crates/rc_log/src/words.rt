//! The words of a line, as slices of it: between two is one blank.

ghost use Rattle.std.specs.Prelude.{◌≡◌, ◌∷◌, ◌≤◌, [], length, slice_index_or};
ghost use Rattle.std.specs.List.{position_or_len};
ghost use Rattle.rc_log.specs.Cuts.{Begins, text_of, texts_of, words_after};
ghost use Rattle.rc_log.specs.Said as spec;

pub use rc_read::words::is;

/// How many bytes are before the first blank.
fn letters_in_front(line: &[u8]) -> usize
    ensures value { result ≡ position_or_len spec.is_blank line.now }
    ensures within { result ≤ length line.now }
{
    for i in 0..line.len() {
        if line[i] == b' ' {
            return i;
        }
    }
    line.len()
}

/// The first word of a line, and the bytes after it.
pub fn cut(line: &[u8]) -> (&[u8], &[u8])
    ensures { spec.words_of line.now ≡ result.0.now ∷ words_after result.1.now }
{
    let end = letters_in_front(line);
    (&line[..end], &line[end..])
}

/// The next word after these bytes' first, which is the blank before it, and the bytes after it.
pub fn next_word(rest: &[u8]) -> Option<(&[u8], &[u8])>
    ensures { Begins (words_after rest.now) result }
{
    match rest {
        [] => None,
        [_, rest @ ..] => Some(cut(rest)),
    }
}

/// Whether no word is left.
pub fn is_end(rest: &[u8]) -> bool
    ensures { result ≡ spec.is_end (words_after rest.now) }
{
    next_word(rest).is_none()
}

/// The one word that is left, where it is one.
pub fn one_word(rest: &[u8]) -> Option<&[u8]>
    ensures { text_of result ≡ spec.one_of (words_after rest.now) }
{
    let (word, rest) = next_word(rest)?;
    if is_end(rest) { Some(word) } else { None }
}

/// The two words that are left, where they are two.
pub fn two_words(rest: &[u8]) -> Option<(&[u8], &[u8])>
    ensures { texts_of result ≡ spec.two_of (words_after rest.now) }
{
    let (first, rest) = next_word(rest)?;
    let second = one_word(rest)?;
    Some((first, second))
}

/// The word of a line with this number, from 0: the thread, FILE:LINE, the call and the words after it. It is empty
/// where the line has none.
pub fn word_at(line: &[u8], number: usize) -> &[u8]
    ensures { result.now ≡ slice_index_or (spec.words_of line.now) number [] }
{
    let (mut word, mut rest) = cut(line);
    for _ in 0..number {
        match next_word(rest) {
            Some((next, after)) => {
                word = next;
                rest = after;
            }
            None => return &[],
        }
    }
    word
}
