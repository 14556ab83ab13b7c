//! The kinds of a token: which words they are, and which is named twice.

ghost use Rattle.std.specs.Prelude.{◌≡◌, filter_map};
ghost use Rattle.std.specs.List.{list_any};
ghost use Rattle.rc_lang.specs.Kinds as kinds;
ghost use Rattle.rc_read.specs.Sentences as sentences;
ghost use Rattle.rc_read.specs.Spots as spec;
ghost use Rattle.rc_read.specs.Texts.{texts_of};
ghost use Rattle.rc_read.specs.Values as values;

use crate::fixed::Word;
use crate::table::Part;
use crate::values::Value;
use crate::words::is;
use rc_lang::program::{Token, TokenKind};

/// Whether a kind begins with this word.
pub fn is_kind_word(word: &[u8]) -> bool
    ensures { result ≡ spec.is_kind_word word.now }
{
    is(word, b"read")
        || is(word, b"write")
        || is(word, b"fsync")
        || is(word, b"nop")
        || is(word, b"other")
}

/// In kinds, the part of the word after this one.
pub fn part_after(part: Part, word: &[u8]) -> Part
    ensures { result ≡ spec.part_after part word.now }
{
    match part {
        Part::KindWord => {
            if is(word, b"read") {
                Part::ReadBuffer
            } else if is(word, b"write") {
                Part::Buffer
            } else {
                Part::Fixed(Word::Or)
            }
        }
        Part::Buffer => Part::WriteShares,
        Part::Fixed(_) => Part::KindWord,
        _ => Part::Fixed(Word::Or),
    }
}

/// How often `or` is among these words.
pub fn count_or(words: &[&[u8]]) -> usize
    ensures { result ≡ spec.count_or (texts_of words.now) }
{
    let mut count = 0;
    for word in words {
        if is(word, b"or") {
            count += 1;
        }
    }
    count
}

/// The kind that a word is without a buffer.
pub fn kind_alone(word: &[u8]) -> Value
    ensures { result ≡ values.kind_alone word.now }
{
    if is(word, b"fsync") {
        Value::Kind(TokenKind::Fsync)
    } else if is(word, b"nop") {
        Value::Kind(TokenKind::Nop)
    } else if is(word, b"other") {
        Value::Kind(TokenKind::Other)
    } else {
        Value::Nothing
    }
}

// Whether two kinds are of one word, and of one buffer where the word has one.
fn is_one_kind(kind: TokenKind, other: TokenKind) -> bool
    ensures { result ≡ kinds.is_one_kind kind other }
{
    match (kind, other) {
        (TokenKind::Read(b), TokenKind::Read(c)) => b == c,
        (TokenKind::Write(b, _), TokenKind::Write(c, _)) => b == c,
        (TokenKind::Fsync, TokenKind::Fsync) => true,
        (TokenKind::Nop, TokenKind::Nop) => true,
        (TokenKind::Other, TokenKind::Other) => true,
        _ => false,
    }
}

// Whether such a kind is among those after `or`.
fn is_among(kind: TokenKind, others: &[Option<TokenKind>]) -> bool
    ensures { result ≡ list_any (kinds.is_one_kind kind) (filter_map (λ other. other) others.now) }
{
    for other in others {
        if let Some(other) = *other {
            if is_one_kind(kind, other) {
                return true;
            }
        }
    }
    false
}

// Whether two of those after `or` are of one kind.
fn any_kind_twice(others: &[Option<TokenKind>]) -> bool
    ensures { result ≡ sentences.any_kind_twice (filter_map (λ other. other) others.now) }
{
    for (i, other) in others.iter().enumerate() {
        if let Some(kind) = *other {
            if is_among(kind, &others[i + 1..]) {
                return true;
            }
        }
    }
    false
}

/// Whether two kinds of a token are of one word, and of one buffer where it has one.
pub fn names_kind_twice(token: Token) -> bool
    ensures { result ≡ sentences.any_kind_twice (kinds.kinds_in token) }
{
    is_among(token.kind, &token.others) || any_kind_twice(&token.others)
}
