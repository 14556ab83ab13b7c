//! Texts that are written in pieces.

ghost use Rattle.std.specs.Prelude.{◌+◌, ◌<◌, ◌^◌};
ghost use Rattle.std.specs.List.{flat_map};
ghost use Rattle.rc_report.specs.Streams.{CanWrite, Writes};

use crate::engine_fault::EngineFault;
use crate::streams::Sink;

/// Writes a piece, in as many writes as it takes. It is a part of its callers, so that a buffer stores a piece of known
/// length where it is written.
#[inline(always)]
pub fn write_piece<W: Sink>(writer: &mut W, piece: &[u8]) -> Result<(), EngineFault>
    requires { CanWrite (W.state writer.old) }
    ensures { Writes W.state writer.old writer.new piece.now result }
{
    let mut at = 0;
    while at < piece.len() {
        match writer.write(&piece[at..]) {
            Ok(count) => at += count,
            Err(_) => return Err(EngineFault::Write),
        }
    }
    Ok(())
}

/// Writes these pieces one after another.
#[inline(always)]
pub fn write_pieces<W: Sink>(writer: &mut W, pieces: &[&[u8]]) -> Result<(), EngineFault>
    requires { CanWrite (W.state writer.old) }
    ensures { Writes W.state writer.old writer.new (flat_map (λ p. p.now) pieces.now) result }
{
    for piece in pieces {
        write_piece(writer, piece)?;
    }
    Ok(())
}
