//! Words with a number in brackets, as the name of a copy.

ghost use Rattle.std.specs.Prelude.{◌≡◌, ◌≤◌, length};
ghost use Rattle.std.specs.List.{position_or_len};
ghost use Rattle.rc_lang.specs.Names.{before_bracket, from_bracket, is_bracket};

fn is_bracket(b: u8) -> bool
    ensures { result ≡ is_bracket b }
{
    b == b'[' || b == b']'
}

// Where the first bracket of a word is, or its end.
fn bracket_in(word: &[u8]) -> usize
    ensures value { result ≡ position_or_len is_bracket word.now }
    ensures within { result ≤ length word.now }
{
    for (place, b) in word.iter().enumerate() {
        if is_bracket(*b) {
            return place;
        }
    }
    word.len()
}

/// What is before the first bracket of a word, and what is from it on.
pub fn cut_at_bracket(word: &[u8]) -> (&[u8], &[u8])
    ensures before { result.0.now ≡ before_bracket word.now }
    ensures behind { result.1.now ≡ from_bracket word.now }
{
    let place = bracket_in(word);
    (&word[..place], &word[place..])
}
