//! Why a model can't be read.

ghost use Rattle.std.specs.Prelude.{◌≡◌, Some};
ghost use Rattle.rc_read.specs.Causes.{number_of_cause, name_of_cause, text_of_cause};

use std::alloc::{AllocError, AllocFailed};
use std::error::Error;
use std::fmt;

/// Why a line can't be read, in the order of the numbers that are printed.
#[derive(Clone, Copy, PartialEq, Eq, Debug)]
pub enum ReadCause {
    /// Among the line's first 256 bytes is one above 126, or below 32 other than tab and carriage return.
    NotAscii = 1,
    /// The model doesn't begin with `ringcheck` and a number from 1 to 5, and a line that begins with `ring`.
    BadHead,
    /// The words are no form, or one that may not be in this part of the model.
    BadLine,
    /// A word in a number's place is no number or is out of its range.
    BadNumber,
    /// A file, a buffer, a token or a pool that isn't declared above.
    UnknownName,
    /// A file, a buffer, a token, a pool or a thread declared twice, an item named twice in a list, a token in both
    /// of a line, or two kinds of a token of one word and one buffer.
    DoubleName,
    /// A closing brace without an open block, an else that closes no first branch, a thread in a thread, or a block
    /// that is open at the end of the model.
    Braces,
    /// One line, byte, open block, thread, buffer, token, file, pool or variable too many.
    TooLarge,
    /// A lock in a lock or in a peek, but for `lock sq {` where no lock of that side is open; a peek or a loop in a
    /// peek, a break outside a loop, or queued entries said outside a lock of the submission side, after `when` or in
    /// what is put or taken.
    BadNesting,
    /// An arm that isn't directly in a peek, another statement that does, an arm twice, or an arm that is
    /// missing.
    BadCase,
    /// After `when` is another variable than after the thread's first.
    OtherFlag,
}

impl ReadCause {
    /// The number that is printed, 1 to 11.
    pub fn number(self) -> u8
        ensures { result ≡ number_of_cause self }
    {
        self as u8
    }

    /// The name that is printed.
    pub fn name(self) -> &'static str
        ensures { result.now ≡ name_of_cause self }
    {
        match self {
            ReadCause::NotAscii => "NotAscii",
            ReadCause::BadHead => "BadHead",
            ReadCause::BadLine => "BadLine",
            ReadCause::BadNumber => "BadNumber",
            ReadCause::UnknownName => "UnknownName",
            ReadCause::DoubleName => "DoubleName",
            ReadCause::Braces => "Braces",
            ReadCause::TooLarge => "TooLarge",
            ReadCause::BadNesting => "BadNesting",
            ReadCause::BadCase => "BadCase",
            ReadCause::OtherFlag => "OtherFlag",
        }
    }
}

/// Writes the number and the name.
impl fmt::Display for ReadCause {
    ghost output = { λ cause. Some (text_of_cause cause) };

    fn fmt<W: fmt::Write>(&self, f: &mut fmt::Formatter<W>) -> fmt::Result {
        let number = self.number();
        let name = self.name();
        write!(f, "P{number} {name}")
    }
}

impl Error for ReadCause {}

/// Why a model isn't read.
#[derive(Clone, Copy, PartialEq, Eq, Debug, thiserror::Error)]
pub enum ReadFault {
    /// The first line that can't be read, from 1, and the least cause there.
    #[error("unreadable line {line} {cause}")]
    Text { line: u32, cause: ReadCause },
    /// A growth was refused.
    #[error("out of memory")]
    OutOfMemory,
}

impl From<AllocError> for ReadFault {
    ghost use Rattle.std.specs.Prelude.{◌≡◌};
    ghost use Rattle.rc_read.specs.declared.fault.ReadFault.TheVariants.{OutOfMemory};

    ghost from_gives = { λ _ e. e ≡ OutOfMemory };

    fn from(_e: AllocError) -> ReadFault {
        ReadFault::OutOfMemory
    }
}

impl<T: Drop> From<AllocFailed<T>> for ReadFault {
    ghost use Rattle.std.specs.Prelude.{◌≡◌};
    ghost use Rattle.rc_read.specs.declared.fault.ReadFault.TheVariants.{OutOfMemory};

    ghost from_gives = { λ _ e. e ≡ OutOfMemory };

    fn from(_e: AllocFailed<T>) -> ReadFault {
        ReadFault::OutOfMemory
    }
}
