//! What a model is read from, and what an answer is written to.

ghost use Rattle.std.specs.Prelude.{◌≡◌, ◌≤◌};
ghost use Rattle.rc_report.specs.Streams.{CanRead, CanWrite, Given, Reads, Taken, Takes};

use std::io::{Read, Write};

/// A read or a write failed.
#[derive(Clone, Copy, PartialEq, Eq, Debug)]
pub struct DeviceFailed;

/// What a model is read from.
pub trait Source {
    // What it will give, and how its reads went.
    ghost state: { Self → Given };

    /// Reads some bytes into the front of the buffer, and answers how many: none only at the end of the input or into
    /// an empty buffer. Nothing is tried again (`read(2)`).
    fn read(&mut self, buffer: &mut [u8]) -> Result<usize, DeviceFailed>
        requires { CanRead 1 (state self.old) }
        ensures { Reads (state self.old) (state self.new) result buffer.new };

    /// How many reads there were, failed ones too.
    fn reads(&self) -> u64
        ensures { result ≡ (state self.now).reads };

    /// How many reads have failed.
    fn failures(&self) -> u64
        ensures { result ≡ (state self.now).failures };
}

/// What an answer is written to.
pub trait Sink {
    // What it holds, and how many writes to it failed.
    ghost state: { Self → Taken };

    /// Writes some bytes of the front of the piece, and answers how many: none only of an empty piece. Nothing is
    /// tried again (`write(2)`).
    fn write(&mut self, piece: &[u8]) -> Result<usize, DeviceFailed>
        requires { CanWrite (state self.old) }
        ensures { Takes (state self.old) (state self.new) result piece.now };

    /// How many writes have failed.
    fn failures(&self) -> u64
        ensures { result ≡ (state self.now).failures };
}

/// A source over any reader of the standard library. Each error counts as a failure, an interrupted call among them.
#[derive(Drop)]
pub struct ReadSource<R> {
    /// What is read.
    pub reader: R,
    /// How many reads there were, failed ones too.
    pub reads: u64,
    /// How many reads gave nothing.
    pub ends: u64,
    /// How many reads have failed.
    pub failures: u64,
    ghost ends_are_reads: { ends ≤ reads },
}

impl<R: Read> ReadSource<R> {
    /// A source of which nothing was read.
    pub fn new(reader: R) -> ReadSource<R>
        ensures reader { result.reader ≡ reader }
        ensures counts { (result.reads ≡ 0) × (result.ends ≡ 0) × (result.failures ≡ 0) }
    {
        ReadSource {
            reader,
            reads: 0,
            ends: 0,
            failures: 0,
        }
    }
}

impl<R: Read> Source for ReadSource<R> {
    ghost state = { λ s. record { remaining = R.remaining s.reader; reads = s.reads; ends = s.ends; failures = s.failures } };

    fn read(&mut self, buffer: &mut [u8]) -> Result<usize, DeviceFailed> {
        self.reads += 1;
        match self.reader.read(buffer) {
            Ok(0) => {
                self.ends += 1;
                Ok(0)
            }
            Ok(count) => Ok(count),
            Err(_) => {
                self.failures += 1;
                Err(DeviceFailed)
            }
        }
    }

    fn reads(&self) -> u64 {
        self.reads
    }

    fn failures(&self) -> u64 {
        self.failures
    }
}

/// A sink over any writer of the standard library. Each error counts as a failure, and so does a write that takes
/// nothing of a piece that isn't empty.
#[derive(Drop)]
pub struct WriteSink<W> {
    /// What is written to.
    pub writer: W,
    /// How many writes have failed.
    pub failures: u64,
}

impl<W: Write> WriteSink<W> {
    ghost use Rattle.rc_report.specs.Buffers.{taken_by};
    ghost use Rattle.rc_report.specs.Streams.{CanWrite, Stays};

    /// A sink that has met no failure.
    pub fn new(writer: W) -> WriteSink<W>
        ensures { result ≡ record { writer = writer; failures = 0 } }
    {
        WriteSink {
            writer,
            failures: 0,
        }
    }

    /// Has the writer hand on what it keeps back. Nothing is tried again.
    pub fn flush(&mut self) -> Result<(), DeviceFailed>
        requires { CanWrite (taken_by W.contents self.old) }
        ensures { Stays (taken_by W.contents self.old) (taken_by W.contents self.new) result }
    {
        match self.writer.flush() {
            Ok(()) => Ok(()),
            Err(_) => {
                self.failures += 1;
                Err(DeviceFailed)
            }
        }
    }
}

impl<W: Write> Sink for WriteSink<W> {
    ghost use Rattle.rc_report.specs.Buffers.{taken_by};

    ghost state = { taken_by W.contents };

    fn write(&mut self, piece: &[u8]) -> Result<usize, DeviceFailed> {
        match self.writer.write(piece) {
            Ok(0) => {
                if piece.is_empty() {
                    Ok(0)
                } else {
                    self.failures += 1;
                    Err(DeviceFailed)
                }
            }
            Ok(count) => Ok(count),
            Err(_) => {
                self.failures += 1;
                Err(DeviceFailed)
            }
        }
    }

    fn failures(&self) -> u64 {
        self.failures
    }
}
