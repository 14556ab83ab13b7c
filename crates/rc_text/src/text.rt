//! Bytes that grow in memory. Each call adds to their end, and answers an error only where memory ran out.

ghost use Rattle.std.specs.Prelude.{◌++◌, decimal};
ghost use Rattle.std.specs.Fmt.{signed_decimal};
ghost use Rattle.std.specs.List.{flat_map};
ghost use Rattle.rc_text.specs.Text.{Puts};

use itoa::Buffer;
use std::alloc::AllocError;

/// Adds a piece.
pub fn put_piece(text: &mut Vec<u8>, piece: &[u8]) -> Result<(), AllocError>
    ensures { Puts text.old text.new piece.now result }
{
    text.extend_from_slice(piece)
}

/// Adds these pieces, one after another.
pub fn put_pieces(text: &mut Vec<u8>, pieces: &[&[u8]]) -> Result<(), AllocError>
    ensures { Puts text.old text.new (flat_map (λ p. p.now) pieces.now) result }
{
    for piece in pieces {
        put_piece(text, piece)?;
    }
    Ok(())
}

/// Adds a number in decimal.
pub fn put_number(text: &mut Vec<u8>, number: u64) -> Result<(), AllocError>
    ensures { Puts text.old text.new (decimal number) result }
{
    let mut buffer = Buffer::new();
    put_piece(text, buffer.format(number).as_bytes())
}

/// Adds a number that may be below 0 in decimal.
pub fn put_signed(text: &mut Vec<u8>, number: i64) -> Result<(), AllocError>
    ensures { Puts text.old text.new (signed_decimal number) result }
{
    let mut buffer = Buffer::new();
    put_piece(text, buffer.format(number).as_bytes())
}

/// Adds a number in decimal between two pieces.
pub fn put_counted(
    text: &mut Vec<u8>,
    before: &[u8],
    number: u64,
    after: &[u8],
) -> Result<(), AllocError>
    ensures { Puts text.old text.new (before.now ++ decimal number ++ after.now) result }
{
    put_piece(text, before)?;
    put_number(text, number)?;
    put_piece(text, after)
}
