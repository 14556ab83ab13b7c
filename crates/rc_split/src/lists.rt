//! How much of a part lists of items name together. A list may name one buffer or token twice.

ghost use Rattle.std.specs.Prelude.{◌≡◌, nat_le, slice_index};
ghost use Rattle.std.specs.List.{list_all};
ghost use Rattle.rc_lang.specs.declared.program.Share as given;
ghost use Rattle.rc_lang.specs.Program.{token_place};
ghost use Rattle.rc_split.specs.Bags.{bag_of, shares_alone, tokens_alone, ShareOf, TokenOf};
ghost use Rattle.rc_split.specs.Pools.{mark_at};

use rc_lang::program::{Program, Share};

/// Whether the list names at most so many shares of a buffer.
pub fn names_at_most(shares: &[Share], buffer: usize, most: u64) -> bool
    ensures { result ≡ nat_le (bag_of (shares_alone shares.now) (ShareOf buffer)) most }
{
    let mut left = most;
    for share in shares {
        if share.buffer == buffer {
            match left.checked_sub(u64::from(share.count)) {
                Some(rest) => left = rest,
                None => return false,
            }
        }
    }
    true
}

/// How often the list names a token.
pub fn times(tokens: &[u64], user_data: u64) -> usize
    ensures { result ≡ bag_of (tokens_alone tokens.now) (TokenOf user_data) }
{
    tokens.iter().filter(|token| **token == user_data).count()
}

/// The count of a buffer in a row; 0 where the row ends before it.
pub fn count_at(counts: &[u32], buffer: usize) -> u32
    ensures { result ≡ slice_index counts.now buffer }
{
    counts.get(buffer).copied().unwrap_or(0)
}

/// 1 where a token of the program is marked.
pub fn mark_of(marks: &[bool], program: &Program, user_data: u64) -> u32
    ensures { result ≡ mark_at marks.now (token_place program.now.tokens user_data) }
{
    match program.token_place(user_data) {
        Some(place) => u32::from(marks.get(place).copied().unwrap_or(false)),
        None => 0,
    }
}

/// Whether the counts are at least what the list names of each buffer.
pub fn cover_shares(counts: &[u32], shares: &[Share]) -> bool
    ensures { result ≡ list_all (λ (s : given.Share). nat_le
        (bag_of (shares_alone shares.now) (ShareOf s.buffer)) (slice_index counts.now s.buffer))
        shares.now }
{
    shares.iter().all(|share| {
        let there = count_at(counts, share.buffer);
        names_at_most(shares, share.buffer, u64::from(there))
    })
}

/// Whether each token of the list is marked, and named once.
pub fn cover_tokens(marks: &[bool], program: &Program, tokens: &[u64]) -> bool
    ensures { result ≡ list_all (λ u. nat_le (bag_of (tokens_alone tokens.now) (TokenOf u))
        (mark_at marks.now (token_place program.now.tokens u))) tokens.now }
{
    tokens.iter().all(|token| times(tokens, *token) <= mark_of(marks, program, *token) as usize)
}
