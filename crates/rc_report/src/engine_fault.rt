//! Why an engine didn't finish.

use std::alloc::{AllocError, AllocFailed};
use thiserror::Error;

/// Why an engine didn't finish.
#[derive(Clone, Copy, PartialEq, Eq, Debug, Error)]
pub enum EngineFault {
    /// The source failed, or gave no end of input in 2,097,152 reads.
    #[error("the input can't be read")]
    Read,
    /// The sink failed.
    #[error("the output can't be written")]
    Write,
    /// A growth was refused (code 20).
    #[error("out of memory (20)")]
    OutOfMemory,
}

impl From<AllocError> for EngineFault {
    ghost use Rattle.std.specs.Prelude.{◌≡◌};
    ghost use Rattle.rc_report.specs.declared.engine_fault.EngineFault.TheVariants.{OutOfMemory};

    ghost from_gives = { λ _ e. e ≡ OutOfMemory };

    fn from(_error: AllocError) -> EngineFault {
        EngineFault::OutOfMemory
    }
}

impl<T: Drop> From<AllocFailed<T>> for EngineFault {
    ghost use Rattle.std.specs.Prelude.{◌≡◌};
    ghost use Rattle.rc_report.specs.declared.engine_fault.EngineFault.TheVariants.{OutOfMemory};

    ghost from_gives = { λ _ e. e ≡ OutOfMemory };

    fn from(_error: AllocFailed<T>) -> EngineFault {
        EngineFault::OutOfMemory
    }
}
