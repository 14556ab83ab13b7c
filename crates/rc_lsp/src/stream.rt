//! A server over streams.

ghost use Rattle.std.specs.Prelude.{◌≡◌, ◌≤◌, IfOk, OnOk, length};
ghost use Rattle.rc_report.specs.Buffers.{taken_by};
ghost use Rattle.rc_report.specs.Streams.{CanRead, CanWrite};

use crate::heads::{Begin, begin_of};
use crate::server::{Next, Server};
use rc_report::engine_fault::EngineFault;
use rc_report::streams::{Sink, Source, WriteSink};
use rc_report::writing::write_piece;
use std::alloc::{AllocError, Global};
use std::io::Write;

/// How many bytes are read at most at a time.
const PIECE: usize = 16384;

/// After this many reads a source counts as one without end.
const MOST_READS: u64 = 4_611_686_018_427_387_904;

/// How a server ended.
#[derive(Clone, Copy)]
pub enum Ended {
    /// By a message or by the end of the input, and whether a shutdown came before it.
    Done { is_clean: bool },
    /// The input has no head where a message should begin.
    NoHead,
    /// A message has more than 16 MiB.
    TooLarge,
    /// The input ends within a message.
    Cut,
}

/// Answers the messages of a source, each as soon as it is whole, until it ends or one ends the server.
///
/// Answers `Read` where a read failed, or where 2^62 reads met no end of input; `Write` where a write failed; and
/// `OutOfMemory` where a growth was refused. Nothing is tried again (`read(2)`, `write(2)`).
pub fn serve<I: Source, O: Write>(
    alloc: Global,
    source: &mut I,
    sink: &mut WriteSink<O>,
) -> Result<Ended, EngineFault>
    requires reads { CanRead 4611686018427387904 (I.state source.old) }
    requires writes { CanWrite (taken_by O.contents sink.old) }
{
    let mut server = Server::new(alloc);
    let mut bytes = Vec::new(alloc);
    let mut piece = [0; PIECE];
    for turn in 0..MOST_READS {
        match source.read(&mut piece) {
            Ok(0) => return Ok(end_of(&server, &bytes)),
            Ok(count) => bytes.extend_from_slice(&piece[..count])?,
            Err(_) => return Err(EngineFault::Read),
        }
        let mut out = Vec::new(alloc);
        let ended = answer_whole(alloc, &mut server, &mut bytes, &mut out)?;
        write_out(sink, &out)?;
        if let Some(ended) = ended {
            return Ok(ended);
        }
    }
    Err(EngineFault::Read)
}

/// How a server ends when its input ends, with these bytes not answered yet.
fn end_of(server: &Server, bytes: &[u8]) -> Ended {
    if bytes.is_empty() {
        let is_clean = server.is_shut_down();
        Ended::Done { is_clean }
    } else {
        Ended::Cut
    }
}

/// Writes what was answered, and has the writer hand it on.
fn write_out<O: Write>(sink: &mut WriteSink<O>, out: &[u8]) -> Result<(), EngineFault>
    requires { CanWrite (taken_by O.contents sink.old) }
    ensures { OnOk result (sink.new.failures ≡ sink.old.failures) }
{
    write_piece(sink, out)?;
    match sink.flush() {
        Ok(()) => Ok(()),
        Err(_) => Err(EngineFault::Write),
    }
}

/// Answers the whole messages at the beginning of the bytes, and takes them away; how the server ends, if it does.
fn answer_whole(
    alloc: Global,
    server: &mut Server,
    bytes: &mut Vec<u8>,
    out: &mut Vec<u8>,
) -> Result<Option<Ended>, AllocError> {
    let (left, ended) = answer_frames(alloc, server, bytes, out)?;
    drop(bytes.drain(..bytes.len() - left));
    Ok(ended)
}

/// Answers the whole messages at the beginning of the bytes: how many bytes are left then, and how the server ends, if it
/// does.
fn answer_frames(
    alloc: Global,
    server: &mut Server,
    bytes: &[u8],
    out: &mut Vec<u8>,
) -> Result<(usize, Option<Ended>), AllocError>
    ensures { IfOk result (λ r. r.0 ≤ length bytes.now) }
{
    let mut rest = bytes;
    loop {
        match begin_of(rest) {
            Begin::Frame { start, end } => {
                let next = server.answer(alloc, &rest[start..end], out)?;
                rest = &rest[end..];
                if let Next::Exit { is_clean } = next {
                    return Ok((rest.len(), Some(Ended::Done { is_clean })));
                }
            }
            Begin::Part => return Ok((rest.len(), None)),
            Begin::NoHead => return Ok((rest.len(), Some(Ended::NoHead))),
            Begin::TooLarge => return Ok((rest.len(), Some(Ended::TooLarge))),
        }
    }
}
