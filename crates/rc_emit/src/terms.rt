//! Numbers and operators as C has them.

use rc_lang::lines::Comparison;
use rc_text::text::{put_number, put_piece};
use std::alloc::{AllocError, Global};

/// A number in decimal.
pub fn number(alloc: Global, number: u64) -> Result<Vec<u8>, AllocError> {
    let mut term = Vec::new(alloc);
    put_number(&mut term, number)?;
    Ok(term)
}

/// A user data.
pub fn data(alloc: Global, data: u64) -> Result<Vec<u8>, AllocError> {
    let mut term = Vec::from_slice(alloc, b"UINT64_C(")?;
    put_number(&mut term, data)?;
    put_piece(&mut term, b")")?;
    Ok(term)
}

/// A signed number of 64 bits. C has no literal for the least one, only a name.
pub fn signed(alloc: Global, number: i64) -> Result<Vec<u8>, AllocError> {
    if number == i64::MIN {
        return Vec::from_slice(alloc, b"INT64_MIN");
    }
    let mut term = Vec::new(alloc);
    if number < 0 {
        put_piece(&mut term, b"-")?;
    }
    put_piece(&mut term, b"INT64_C(")?;
    put_number(&mut term, number.unsigned_abs())?;
    put_piece(&mut term, b")")?;
    Ok(term)
}

/// The operator of a comparison.
pub fn operator(comparison: Comparison) -> &'static [u8] {
    match comparison {
        Comparison::Equal => b"==",
        Comparison::NotEqual => b"!=",
        Comparison::Less => b"<",
        Comparison::AtMost => b"<=",
        Comparison::Greater => b">",
        Comparison::AtLeast => b">=",
    }
}
