//! A buffer before a sink.

ghost use Rattle.std.specs.Prelude.{◌≤◌, vec_capacity, vec_len};

use crate::streams::{DeviceFailed, Sink, WriteSink};
use std::alloc::{AllocError, Global};
use std::io::Write;

/// How many bytes are kept back at most: as many as a pipe takes at once (`pipe(7)`).
const ROOM: usize = 65536;

/// A sink that keeps back what it takes until its room is used or it is written out, so that the sink under it is given
/// few pieces, and large ones. Its failures are those of the sink under it, and nothing is tried again by itself.
#[derive(Drop)]
pub struct Buffered<S> {
    /// What is written to.
    pub sink: S,
    // What was taken. The first bytes of it, so many, are written.
    bytes: Vec<u8>,
    written: usize,
    ghost within: { vec_len bytes ≤ 65536 },
    ghost has_room: { 65536 ≤ vec_capacity bytes },
    ghost cut: { written ≤ vec_len bytes },
}

impl<S: Sink> Buffered<S> {
    ghost use Rattle.std.specs.Prelude.{◌≡◌, [], IfOk, OnOk};
    ghost use Rattle.rc_report.specs.Buffers.{buffered, kept_back};
    ghost use Rattle.rc_report.specs.Streams.{CanWrite, Stays, Takes};

    /// A buffer of 65,536 bytes before this sink, with nothing kept back.
    pub fn new(alloc: Global, sink: S) -> Result<Buffered<S>, AllocError>
    where
        S: Drop,
        ensures sink { IfOk result (λ b. b.sink ≡ sink) }
        ensures empty { IfOk result (λ b. kept_back b ≡ []) }
    {
        let bytes = Vec::with_capacity(alloc, ROOM)?;
        Ok(Buffered {
            sink,
            bytes,
            written: 0,
        })
    }

    /// Writes what is kept back, in as many writes as it takes. What the sink under it didn't take stays kept back.
    pub fn write_out(&mut self) -> Result<(), DeviceFailed>
        requires { CanWrite (S.state self.old.sink) }
        ensures empty { OnOk result (kept_back self.new ≡ []) }
        ensures room { OnOk result (vec_len self.new.bytes ≡ 0) }
        ensures state { Stays (buffered S.state self.old) (buffered S.state self.new) result }
    {
        while self.written < self.bytes.len() {
            self.written += self.sink.write(&self.bytes[self.written..])?;
        }
        self.bytes.clear();
        self.written = 0;
        Ok(())
    }

    /// Writes what is kept back, and keeps back what it has room for of this piece. Not inlined, so that
    /// a small piece is kept back where it is made.
    #[inline(never)]
    fn write_over(&mut self, piece: &[u8]) -> Result<usize, DeviceFailed>
        requires { CanWrite (buffered S.state self.old) }
        ensures { Takes (buffered S.state self.old) (buffered S.state self.new) result piece.now }
    {
        self.write_out()?;
        let count = piece.len().min(ROOM);
        self.bytes.extend_from_slice(&piece[..count]).unwrap();
        Ok(count)
    }
}

impl<S: Sink> Sink for Buffered<S> {
    ghost use Rattle.rc_report.specs.Buffers.{buffered};

    ghost state = { buffered S.state };

    fn write(&mut self, piece: &[u8]) -> Result<usize, DeviceFailed> {
        if piece.len() > ROOM - self.bytes.len() {
            return self.write_over(piece);
        }
        self.bytes.extend_from_slice(piece).unwrap();
        Ok(piece.len())
    }

    fn failures(&self) -> u64 {
        self.sink.failures()
    }
}

impl<W: Write> Buffered<WriteSink<W>> {
    ghost use Rattle.std.specs.Prelude.{◌≡◌, [], OnOk};
    ghost use Rattle.rc_report.specs.Buffers.{held, kept_back, taken_by};
    ghost use Rattle.rc_report.specs.Streams.{CanWrite, Stays};

    /// Writes what is kept back, and has the writer hand on what it keeps itself.
    pub fn finish(&mut self) -> Result<(), DeviceFailed>
        requires { CanWrite (taken_by W.contents self.old.sink) }
        ensures empty { OnOk result (kept_back self.new ≡ []) }
        ensures state { Stays (held W.contents self.old) (held W.contents self.new) result }
    {
        self.write_out()?;
        self.sink.flush()
    }
}
