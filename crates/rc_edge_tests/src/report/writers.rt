//! Writers: an interrupted write or flush is a failure, and nothing is tried again.

ghost use Rattle.std.specs.Prelude.{◌≡◌};

use rc_report::buffered::Buffered;
use rc_report::engine_fault::EngineFault;
use rc_report::streams::{DeviceFailed, Sink, WriteSink};
use rc_report::verdict::{Refusal, Verdict, verdict_text};
use rc_report::writing::write_piece;
use rc_rules::cause::Cause;
use std::alloc::Global;
use std::io::{self, ErrorKind, Write};
use std::process::Abort;

/// Keeps what is written, so many bytes at a call. One call, counted from 0 with the flushes, is interrupted.
#[derive(Drop)]
pub struct Interrupted {
    pub written: Vec<u8>,
    pub most: usize,
    pub at: usize,
    pub calls: usize,
}

impl Interrupted {
    pub fn new(alloc: Global, most: usize, at: usize) -> Interrupted {
        Interrupted {
            written: Vec::new(alloc),
            most,
            at,
            calls: 0,
        }
    }

    fn count(&mut self) -> io::Result<()> {
        let is_interrupted = self.calls == self.at;
        self.calls = self.calls.saturating_add(1);
        if is_interrupted {
            return Err(io::Error::from(ErrorKind::Interrupted));
        }
        Ok(())
    }
}

impl Write for Interrupted {
    fn write(&mut self, piece: &[u8]) -> io::Result<usize> {
        self.count()?;
        let count = piece.len().min(self.most);
        self.written.extend_from_slice(&piece[..count])?;
        Ok(count)
    }

    fn flush(&mut self) -> io::Result<()> {
        self.count()
    }
}

const TEXT: &[u8] = b"refused line 3 V18 OverCredits\n";

const REFUSED: Verdict = Verdict::Refused(Refusal {
    line: 3,
    cause: Cause::OverCredits,
});

#[test]
fn an_interrupted_write_is_a_failure(rt: HostRuntime) {
    for at in 0..TEXT.len() {
        let mut sink = WriteSink::new(Interrupted::new(rt.alloc(), 1, at));
        let written = verdict_text(&REFUSED, &mut sink);
        assert!(rt; matches!(written, Err(EngineFault::Write)));
        assert_eq!(rt; sink.failures(), 1);
        assert_eq!(rt; sink.writer.calls, at + 1);
        assert_eq!(rt; sink.writer.written.as_slice(), &TEXT[..at]);
    }
}

// A writer that takes no byte of a piece has failed too.
#[test]
fn a_writer_that_takes_nothing_has_failed(rt: HostRuntime) {
    let mut sink = WriteSink::new(Interrupted::new(rt.alloc(), 0, usize::MAX));
    let written = verdict_text(&REFUSED, &mut sink);
    assert!(rt; matches!(written, Err(EngineFault::Write)));
    assert_eq!(rt; sink.failures(), 1);
    assert_eq!(rt; sink.writer.calls, 1);
}

#[test]
fn an_interrupted_flush_is_a_failure(rt: HostRuntime) {
    for (at, failures) in [(0, 1), (1, 0)] {
        let mut sink = WriteSink::new(Interrupted::new(rt.alloc(), 1, at));
        assert_eq!(rt; sink.flush().is_err(), failures == 1);
        assert_eq!(rt; sink.failures(), failures);
        assert_eq!(rt; sink.writer.calls, 1);
    }
}

fn buffered(rt: &impl Abort, alloc: Global, at: usize) -> Buffered<WriteSink<Interrupted>>
    ensures { result.sink.failures ≡ 0 }
{
    match Buffered::new(alloc, WriteSink::new(Interrupted::new(alloc, 65536, at))) {
        Ok(sink) => sink,
        Err(_) => panic!(rt; "out of memory"),
    }
}

#[test]
fn pieces_are_written_together(rt: HostRuntime) {
    // So many pieces of 1,000 bytes, and how many calls they come to, with the flush.
    for (pieces, calls) in [(0, 1), (1, 2), (65, 2), (66, 3), (131, 4)] {
        let mut sink = buffered(&rt, rt.alloc(), usize::MAX);
        for _ in 0..pieces {
            assert_eq!(rt; sink.failures(), 0);
            assert!(rt; write_piece(&mut sink, &[7; 1000]).is_ok());
        }
        assert_eq!(rt; sink.sink.failures, 0);
        assert!(rt; sink.finish().is_ok());
        assert_eq!(rt; sink.sink.writer.calls, calls, "calls at {pieces}");
        assert_eq!(rt; sink.sink.writer.written.len(), pieces * 1000);
    }
}

#[test]
fn a_buffer_is_written_once(rt: HostRuntime) {
    for (at, written) in [(0, 0), (1, TEXT.len())] {
        let mut sink = buffered(&rt, rt.alloc(), at);
        assert!(rt; write_piece(&mut sink, TEXT).is_ok());
        assert_eq!(rt; sink.sink.failures, 0);
        assert!(rt; matches!(sink.finish(), Err(DeviceFailed)));
        assert_eq!(rt; sink.failures(), 1);
        assert_eq!(rt; sink.sink.writer.calls, at + 1);
        assert_eq!(rt; sink.sink.writer.written.len(), written);
    }
}
