//! Logs that are in files.

ghost use Rattle.std.specs.Prelude.{ℕ, List, Option, Result, IsErr};
ghost use Rattle.rc_console.specs.declared.files.Unread.{Unread};
ghost use Rattle.rc_command.specs.Following.{opened};

use rc_console::files::{NoTexts, SystemTexts, Unread};
use std::io::{self, Read};
use std::rt::Files;

/// What opens the logs that are named.
pub trait Logs {
    /// A log that is open.
    type Log: Read + Drop;

    // What opening the log of a name may give: its bytes, where they are known, or why it can't be opened.
    ghost opens: { Self → List ℕ → Result (Option (List ℕ)) Unread → Type 0 };

    /// Opens the log of this name (`open(2)`).
    fn open(&self, name: &str) -> Result<Self::Log, Unread>
        ensures { opens self.now name.now (opened Self.Log.remaining result) };
}

impl<'a, R: Files> Logs for SystemTexts<'a, R> {
    type Log = R::File;

    ghost opens = { λ texts name given. Unit {0} };

    fn open(&self, name: &str) -> Result<R::File, Unread> {
        self.opened(name)
    }
}

/// A log without bytes.
#[derive(Drop)]
pub struct NoLog;

impl Read for NoLog {
    ghost use Rattle.std.specs.Prelude.{Some, []};

    ghost remaining = { λ log. Some [] };

    fn read(&mut self, _buffer: &mut [u8]) -> io::Result<usize> {
        Ok(0)
    }
}

impl Logs for NoTexts {
    type Log = NoLog;

    ghost opens = { λ texts name given. IsErr given };

    fn open(&self, _name: &str) -> Result<NoLog, Unread> {
        Err(Unread::Failed(io::Error::from(io::ErrorKind::NotFound)))
    }
}
