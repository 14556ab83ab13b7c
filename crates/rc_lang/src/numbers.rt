//! The numbers of the notation: `0`, or digits without a leading zero.

ghost use Rattle.std.specs.Prelude.{◌≡◌, ◌^◌, ◌≤◌, ◌≤ℤ◌, IfSome, pos};
ghost use Rattle.std.specs.List.{list_all};
ghost use Rattle.rc_lang.specs.Numbers as spec;

fn all_digits(bytes: &[u8]) -> bool
    ensures { result ≡ list_all spec.is_digit bytes.now }
{
    bytes.iter().all(|b| b.is_ascii_digit())
}

/// Whether a word is a number, of any size.
pub fn is_number(word: &[u8]) -> bool
    ensures { result ≡ spec.is_number word.now }
{
    match word {
        [] => false,
        [digit] => digit.is_ascii_digit(),
        [first, ..] => *first != b'0' && all_digits(word),
    }
}

/// The number that a word spells, where it lies from `low` to `high`.
pub fn number_of(low: u64, high: u64, word: &[u8]) -> Option<u64>
    ensures value { result ≡ spec.number_of low high word.now }
    ensures within { IfSome result (λ n. (low ≤ n) × (n ≤ high)) }
{
    if !is_number(word) {
        return None;
    }
    let mut n: u64 = 0;
    for b in word {
        let digit = u64::from(*b - b'0');
        if n > (u64::MAX - digit) / 10 {
            return None;
        }
        n = 10 * n + digit;
    }
    (low <= n && n <= high).then_some(n)
}

fn positive_number_of(low: i64, high: i64, word: &[u8]) -> Option<i64>
    ensures value { result ≡ spec.in_range low high word.now (pos (spec.value_of word.now)) }
    ensures within { IfSome result (λ n. (low ≤ℤ n) × (n ≤ℤ high)) }
{
    let n = number_of(0, i64::MAX as u64, word)? as i64;
    (low <= n && n <= high).then_some(n)
}

fn minus(n: u64) -> i64
    requires { n ≤ 2 ^ 63 }
    ensures { result ≡ spec.minus n }
{
    match n {
        0 => 0,
        n => -1 - (n - 1) as i64,
    }
}

fn negative_number_of(low: i64, high: i64, word: &[u8]) -> Option<i64>
    ensures value { result ≡ spec.in_range low high word.now (spec.minus (spec.value_of word.now)) }
    ensures within { IfSome result (λ n. (low ≤ℤ n) × (n ≤ℤ high)) }
{
    let n = minus(number_of(0, 1 << 63, word)?);
    (low <= n && n <= high).then_some(n)
}

/// The signed number that a word spells, with `-` before it or not, where it lies from `low` to `high`; `-0` is 0.
pub fn signed_number_of(low: i64, high: i64, word: &[u8]) -> Option<i64>
    ensures value { result ≡ spec.signed_number_of low high word.now }
    ensures within { IfSome result (λ n. (low ≤ℤ n) × (n ≤ℤ high)) }
{
    match word {
        [b'-', digits @ ..] => negative_number_of(low, high, digits),
        _ => positive_number_of(low, high, word),
    }
}
