//! Pieces of a hint.

use rc_text::text::put_piece;
use std::alloc::AllocError;

/// Adds a word, cut at 40 bytes, with `?` for what isn't printable.
pub fn put_plain(text: &mut Vec<u8>, word: &[u8]) -> Result<(), AllocError> {
    for (i, b) in word.iter().enumerate() {
        if i == 40 {
            put_piece(text, b"..")?;
        }
        if i < 40 {
            text.push(if *b < 32 || *b > 126 { b'?' } else { *b })?;
        }
    }
    Ok(())
}

/// Adds a word between two pieces, cut at 40 bytes, with `?` for what isn't printable.
pub fn put_framed(
    text: &mut Vec<u8>,
    before: &[u8],
    word: &[u8],
    after: &[u8],
) -> Result<(), AllocError> {
    put_piece(text, before)?;
    put_plain(text, word)?;
    put_piece(text, after)
}

/// Adds a word in quotes, cut at 40 bytes, with `?` for what isn't printable.
pub fn put_word(text: &mut Vec<u8>, word: &[u8]) -> Result<(), AllocError> {
    put_framed(text, b"'", word, b"'")
}
