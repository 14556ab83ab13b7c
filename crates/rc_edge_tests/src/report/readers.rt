//! Readers: each read counts, an interrupted one is a failure, and nothing is read after the end.

use rc_report::engine_fault::EngineFault;
use rc_report::reading::read_text;
use rc_report::streams::{ReadSource, Source};
use std::io::{self, ErrorKind, Read};

/// Gives these pieces, one at each call: bytes, the end where there are none, or that the call was interrupted. Counts
/// its calls.
#[derive(Drop)]
pub struct Scripted {
    pub pieces: &'static [Option<&'static str>],
    pub calls: usize,
}

impl Read for Scripted {
    fn read(&mut self, buffer: &mut [u8]) -> io::Result<usize> {
        let piece = self.pieces.get(self.calls).copied();
        self.calls = self.calls.saturating_add(1);
        match piece {
            Some(None) => Err(io::Error::from(ErrorKind::Interrupted)),
            Some(Some(text)) => {
                let count = text.len().min(buffer.len());
                buffer[..count].copy_from_slice(&text.as_bytes()[..count]);
                Ok(count)
            }
            None => Ok(0),
        }
    }
}

/// Pieces, the bytes that are read of them, or none where that fails, and how many calls were made.
type Reading = (&'static [Option<&'static str>], Option<&'static str>, usize);

const READINGS: [Reading; 6] = [
    (&[], Some(""), 1),
    (
        &[Some("ring"), Some("check"), Some(""), Some("more")],
        Some("ringcheck"),
        3,
    ),
    (&[Some(""), None], Some(""), 1),
    (&[None, Some("ring")], None, 1),
    (&[Some("ring"), None, Some("check")], None, 2),
    (&[Some("ring"), Some("check"), None, Some("")], None, 3),
];

#[test]
fn each_call_is_made_once(rt: HostRuntime) {
    for (pieces, wanted, calls) in READINGS {
        let mut source = ReadSource::new(Scripted { pieces, calls: 0 });
        match (read_text(rt.alloc(), &mut source), wanted) {
            (Ok(text), Some(wanted)) => assert_eq!(rt; text.as_slice(), wanted.as_bytes()),
            (Err(EngineFault::Read), None) => {}
            _ => panic!(rt; "the answer to {pieces:?}"),
        }
        assert_eq!(rt; source.reader.calls, calls, "calls at {pieces:?}");
        assert_eq!(rt; source.reads, calls as u64);
        assert_eq!(rt; source.ends, u64::from(wanted.is_some()));
        assert_eq!(rt; source.failures(), u64::from(wanted.is_none()));
    }
}

/// Gives so many bytes, one at each read, and then fails or ends.
#[derive(Drop)]
struct Slow {
    left: u32,
    fails: bool,
}

impl Read for Slow {
    fn read(&mut self, buffer: &mut [u8]) -> io::Result<usize> {
        if buffer.is_empty() {
            return Ok(0);
        }
        if self.left == 0 {
            return if self.fails {
                Err(io::Error::from(ErrorKind::ConnectionReset))
            } else {
                Ok(0)
            };
        }
        self.left -= 1;
        buffer[0] = b'#';
        Ok(1)
    }
}

/// How many bytes there are, whether a read fails after them, how many reads are made, and how many failures are
/// answered.
const ENDS: [(u32, bool, u64, u64); 8] = [
    (0, false, 1, 0),
    (1, false, 2, 0),
    (1025, false, 1026, 0),
    (2_097_151, false, 2_097_152, 0),
    (2_097_152, false, 2_097_152, 0),
    (u32::MAX, false, 2_097_152, 0),
    (0, true, 1, 1),
    (1, true, 2, 1),
];

#[test]
fn a_text_ends_within_the_limit_of_reads(rt: HostRuntime) {
    for (bytes, fails, reads, failures) in ENDS {
        let mut source = ReadSource::new(Slow { left: bytes, fails });
        match read_text(rt.alloc(), &mut source) {
            Ok(text) => assert!(rt; !fails && text.len() == bytes as usize),
            Err(fault) => {
                assert!(rt; matches!(fault, EngineFault::Read));
                assert!(rt; fails || bytes >= 2_097_152, "{bytes} bytes");
            }
        }
        assert_eq!(rt; [source.reads(), source.failures()], [reads, failures]);
    }
}
