//! A reader of the lines of a log.

ghost use Rattle.std.specs.Prelude.{◌≡◌, ◌<◌, IfOk, vec_len};
ghost use Rattle.rc_log.specs.Lines.{end_of};

use crate::pending::{Pending, Seen};
use crate::words::is;
use std::alloc::{AllocError, Global};
use std::io::{self, Read};

/// How many bytes are read at most at a time.
const PIECE: usize = 65536;

/// What comes next in a log.
#[derive(Clone, Copy)]
pub enum Next {
    /// A line.
    Line,
    /// Its end.
    End,
    /// Its end, since it was full.
    Full,
}

// The end of a log, where these bytes come after its last line.
fn end_of(rest: &[u8]) -> Next
    ensures { result ≡ end_of rest.now }
{
    if is(rest, b"full") {
        Next::Full
    } else {
        Next::End
    }
}

/// Why the next line of a log isn't given.
#[derive(Drop)]
pub enum LogFault {
    /// It has more than 4,096 bytes.
    TooLong,
    /// A read failed. Nothing is tried again (`read(2)`).
    Failed(io::Error),
    /// A growth was refused (code 20).
    OutOfMemory,
}

impl From<AllocError> for LogFault {
    ghost use Rattle.std.specs.Prelude.{◌≡◌};
    ghost use Rattle.rc_log.specs.declared.reader.LogFault.TheVariants.{OutOfMemory};

    ghost from_gives = { λ _ e. e ≡ OutOfMemory };

    fn from(_error: AllocError) -> LogFault {
        LogFault::OutOfMemory
    }
}

/// Reads a log of any length, line by line, in memory for 65,536 bytes and a line.
#[derive(Drop)]
pub struct LogReader<R> {
    reader: R,
    pending: Pending,
    piece: Vec<u8>,
    ghost room: { 0 < vec_len piece },
}

// Room for what is read at a time.
fn make_room(alloc: Global) -> Result<Vec<u8>, AllocError>
    ensures { IfOk result (λ piece. 0 < vec_len piece) }
{
    vec![in alloc; 0; PIECE]
}

impl<R: Read> LogReader<R> {
    ghost use Rattle.std.specs.Prelude.{◌≡◌, IfOk, codes};
    ghost use Rattle.std.specs.Str.{bytes_eq};
    ghost use Rattle.rc_log.specs.Lines.{Gives};
    ghost use Rattle.rc_log.specs.Waiting.{ReadsMore, given, left, waiting};

    /// A reader of the log that this reader gives.
    pub fn new(alloc: Global, reader: R) -> Result<LogReader<R>, AllocError>
    where
        R: Drop,
        ensures { IfOk result (λ r. left R.remaining r ≡ R.remaining reader) }
    {
        let piece = make_room(alloc)?;
        Ok(LogReader {
            reader,
            pending: Pending::new(alloc),
            piece,
        })
    }

    /// Reads some bytes more. Whether there were any.
    fn read_more(&mut self) -> Result<bool, LogFault>
        ensures { ReadsMore R.remaining self.old self.new result }
    {
        match self.reader.read(&mut self.piece) {
            Ok(count) => {
                self.pending.feed(&self.piece[..count])?;
                Ok(count > 0)
            }
            Err(error) => Err(LogFault::Failed(error)),
        }
    }

    /// Finds the next line of the log, or its end: it has no line more from its first byte 0 or the end of the input on,
    /// and bytes without a line feed after them are no line. They are `full` where the log was.
    pub fn next_line(&mut self) -> Result<Next, LogFault>
        ensures { Gives (left R.remaining self.old) (left R.remaining self.new) (given self.new.pending) result }
    {
        loop {
            match self.pending.step() {
                Seen::Line(_) => return Ok(Next::Line),
                Seen::End(count) => return Ok(end_of(&self.pending.waiting()[..count])),
                Seen::TooLong => return Err(LogFault::TooLong),
                Seen::More => {}
            }
            if !self.read_more()? {
                return Ok(end_of(self.pending.waiting()));
            }
        }
    }

    /// Whether the program says at the log's end that it has ended by itself. Asked once there is no line more.
    pub fn is_done(&self) -> bool
        ensures { result ≡ bytes_eq (waiting self.now.pending) (codes "done") }
    {
        is(self.pending.waiting(), b"done")
    }

    /// The line that was found last, without its line feed.
    pub fn line(&self) -> &[u8]
        ensures { result.now ≡ given self.now.pending }
    {
        self.pending.line()
    }
}
