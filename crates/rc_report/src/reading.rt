//! The model that an engine reads.

ghost use Rattle.std.specs.Prelude.{◌≡◌, ◌≤◌, ◌<◌, ◌+◌, IfOk, false, length, max, true};
ghost use Rattle.rc_report.specs.Models.{IsFault, IsSettled, KeepsPiece, ReadsModel};
ghost use Rattle.rc_report.specs.Streams.{CanRead, CountsReads, ReadsText};

use crate::engine_fault::EngineFault;
use crate::streams::Source;
use rc_read::words::begins_strange;
use rc_read::{ReadFault, Reader};
use std::alloc::{AllocError, Global};

/// After this many reads without an end of input a source counts as one without end.
pub const MOST_READS: u32 = 2_097_152;

/// How many bytes are read at most at a time, so that a source without an end gives 1 GiB before it is given up.
const PIECE: usize = 512;

/// The bytes of a source, up to its end.
///
/// Answers `Read` where a read failed, or where 2,097,152 reads met no end of input. There are fewer than 2^64 reads
/// and failures of the source.
pub fn read_text<R: Source>(alloc: Global, reader: &mut R) -> Result<Vec<u8>, EngineFault>
    requires { CanRead 2097152 (R.state reader.old) }
    ensures text { ReadsText (R.state reader.old) (R.state reader.new) result }
    ensures counts { CountsReads (R.state reader.old) (R.state reader.new) result }
{
    let mut text = Vec::new(alloc);
    let mut buffer = [0; PIECE];
    for turn in 0..MOST_READS {
        match reader.read(&mut buffer) {
            Ok(0) => return Ok(text),
            Ok(count) => text.extend_from_slice(&buffer[..count])?,
            Err(_) => return Err(EngineFault::Read),
        }
    }
    Err(EngineFault::Read)
}

/// A model of so many bytes may have a line by which its verdict is settled: each line has at most 256 bytes, and there
/// are at most 4,096 lines.
const LONG: usize = 2_097_152;

/// How many bytes are read at most at a time of a longer model without such a line, so that 16 MiB more are kept at
/// most.
const SHORT_PIECE: usize = 8;

/// The bytes of a source, up to its end, as far as the verdict on them depends on them: of a model of more than 2 MiB
/// with a line that can't be read, what follows is read and not kept. At most 20 MiB are kept.
///
/// Answers `Read` where a read failed, or where 2,097,152 reads met no end of input.
pub fn read_model<R: Source>(alloc: Global, reader: &mut R) -> Result<Vec<u8>, EngineFault>
    requires { CanRead 2097152 (R.state reader.old) }
    ensures text { ReadsModel (R.state reader.old) (R.state reader.new) result }
    ensures counts { CountsReads (R.state reader.old) (R.state reader.new) result }
    ensures bound { IfOk result (λ text. length text.items ≤ 20971520) }
{
    let mut model = Vec::new(alloc);
    let mut buffer = [0; PIECE];
    let mut is_settled = false;
    for turn in 0..MOST_READS {
        let room = room_of(is_settled, model.len());
        let piece = &mut buffer[..room];
        match reader.read(piece) {
            Ok(0) => return Ok(model),
            Ok(count) => is_settled = keep(alloc, &mut model, &piece[..count], is_settled)?,
            Err(_) => return Err(EngineFault::Read),
        }
    }
    Err(EngineFault::Read)
}

/// How many bytes are read next at most, after a model of this length.
fn room_of(is_settled: bool, length: usize) -> usize
    ensures some { 0 < result }
    ensures most { result ≤ 512 }
    ensures few { is_settled ≡ false → length + result ≤ max 2097664 (length + 8) }
{
    if is_settled || length < LONG {
        PIECE
    } else {
        SHORT_PIECE
    }
}

/// Keeps a piece of a model, unless its verdict is settled. Answers whether it is settled now.
fn keep(
    alloc: Global,
    text: &mut Vec<u8>,
    piece: &[u8],
    is_settled: bool,
) -> Result<bool, AllocError>
    ensures { IfOk result (KeepsPiece is_settled text.old.items piece.now text.new.items) }
{
    if is_settled {
        return Ok(true);
    }
    let kept = text.len() / LONG;
    text.extend_from_slice(piece)?;
    if text.len() / LONG == kept {
        return Ok(false);
    }
    has_fault(alloc, text)
}

/// Whether a line of a model can't be read, whatever follows.
fn has_fault(alloc: Global, text: &[u8]) -> Result<bool, AllocError>
    ensures { IfOk result (λ b. b ≡ true → IsSettled text.now) }
{
    let mut reader = Reader::new(alloc);
    let fed = reader.feed(text);
    is_fault(fed, reader.pending())
}

/// Whether a line that a line feed has ended can't be read, or the pending one by its first bytes.
fn is_fault(fed: Result<(), ReadFault>, pending: &[u8]) -> Result<bool, AllocError>
    ensures { IfOk result (λ b. b ≡ true → IsFault fed pending.now) }
{
    match fed {
        Ok(()) => Ok(begins_strange(pending)),
        Err(ReadFault::Text { .. }) => Ok(true),
        Err(ReadFault::OutOfMemory) => Err(AllocError),
    }
}
