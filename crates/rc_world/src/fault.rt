//! The faults of a world.

ghost use Rattle.std.specs.Prelude.{◌≡◌};
ghost use Rattle.rc_world.specs.FaultNames.{number_of_fault, name_of_fault};

use std::fmt::{self, Display, Formatter, Write};
use thiserror::Error;

/// What is wrong in a world, before the harmful step.
#[derive(Clone, Copy, PartialEq, Eq, Debug)]
pub enum FaultKind {
    /// F1: a store or a fill is next of a buffer that a pending request names.
    WriteOfPending,
    /// F2: a load is next of a buffer that a pending read fills.
    ReadOfFilling,
    /// F3: two pending requests name one buffer and one of them is a read.
    KernelClash,
    /// F4: two threads have the same buffer next, and one of them writes it.
    ThreadRace,
    /// F5: `get_sqe` is next and the submission ring is full.
    RingFull,
    /// F6: a request is pending and the completion ring is full.
    Overflow,
    /// F7: `set_data64` is next with user data that a request in flight has.
    AmbiguousData,
    /// F8: `cqe_seen` or `cqe_get_data64` is next, and no completion was peeked that is got or that of exactly one
    /// request.
    UnknownReap,
    /// F9: a call on the ring or on the pool without a name is next, of a thread without the lock of its side, or of
    /// both.
    NoLock,
    /// F10: a call, the end of a lock of the submission side or a break that releases it is next, which the stage of
    /// the submission entry doesn't allow.
    RawEntry,
    /// F11: a load or a store past the end of its buffer is next, or a prep of more bytes than the buffer has.
    OutOfBuffer,
    /// F12: a put is next of items that the pools have no room for, since some of them are there already.
    DoublePut,
}

impl FaultKind {
    /// All kinds, in the order of their numbers.
    pub const ALL: [FaultKind; 12] = [
        FaultKind::WriteOfPending,
        FaultKind::ReadOfFilling,
        FaultKind::KernelClash,
        FaultKind::ThreadRace,
        FaultKind::RingFull,
        FaultKind::Overflow,
        FaultKind::AmbiguousData,
        FaultKind::UnknownReap,
        FaultKind::NoLock,
        FaultKind::RawEntry,
        FaultKind::OutOfBuffer,
        FaultKind::DoublePut,
    ];

    /// The number that is printed, 1 to 12.
    pub fn number(self) -> u8
        ensures { result ≡ number_of_fault self }
    {
        match self {
            FaultKind::WriteOfPending => 1,
            FaultKind::ReadOfFilling => 2,
            FaultKind::KernelClash => 3,
            FaultKind::ThreadRace => 4,
            FaultKind::RingFull => 5,
            FaultKind::Overflow => 6,
            FaultKind::AmbiguousData => 7,
            FaultKind::UnknownReap => 8,
            FaultKind::NoLock => 9,
            FaultKind::RawEntry => 10,
            FaultKind::OutOfBuffer => 11,
            FaultKind::DoublePut => 12,
        }
    }

    /// The name that is printed.
    pub fn name(self) -> &'static str
        ensures { result.now ≡ name_of_fault self }
    {
        match self {
            FaultKind::WriteOfPending => "WriteOfPending",
            FaultKind::ReadOfFilling => "ReadOfFilling",
            FaultKind::KernelClash => "KernelClash",
            FaultKind::ThreadRace => "ThreadRace",
            FaultKind::RingFull => "RingFull",
            FaultKind::Overflow => "Overflow",
            FaultKind::AmbiguousData => "AmbiguousData",
            FaultKind::UnknownReap => "UnknownReap",
            FaultKind::NoLock => "NoLock",
            FaultKind::RawEntry => "RawEntry",
            FaultKind::OutOfBuffer => "OutOfBuffer",
            FaultKind::DoublePut => "DoublePut",
        }
    }
}

impl Display for FaultKind {
    fn fmt<W: Write>(&self, f: &mut Formatter<W>) -> fmt::Result {
        write!(f, "F{} {}", self.number(), self.name())
    }
}

/// Where a fault is.
#[derive(Clone, Copy, PartialEq, Eq, Debug, Error)]
pub enum Party {
    /// At the next line of a thread.
    #[error("thread {thread} line {line}")]
    At { thread: u32, line: u32 },
    /// In the kernel.
    #[error("kernel")]
    InKernel,
}

/// A fault of a world.
#[derive(Clone, Copy, PartialEq, Eq, Debug, Error)]
#[error("{kind} {party}")]
pub struct Fault {
    pub kind: FaultKind,
    pub party: Party,
}
