//! Exit statuses.

ghost use Rattle.std.specs.Prelude.{◌≡◌, ◌≤◌};
ghost use Rattle.rc_report.specs.Statuses.{status_of_end, status_of_step, status_of_verdict};

use crate::step_engine::StepEnd;
use crate::trace::End;
use crate::verdict::Verdict;

/// Accepted, ended or stopped without a fault, or shown.
pub const GOOD_STATUS: u8 = 0;
/// Refused, or a fault was found.
pub const FAULT_STATUS: u8 = 1;
/// The model can't be read.
pub const UNREADABLE_STATUS: u8 = 2;
/// Wrong words, an unreadable schedule, an item that isn't enabled, memory, a limit, or a device that failed.
pub const DEVICE_STATUS: u8 = 3;

impl Verdict {
    /// The exit status of a model with this verdict: 0 to 2.
    pub fn status(&self) -> u8
        ensures status { result ≡ status_of_verdict self.now }
        ensures bound { result ≤ 3 }
    {
        match self {
            Verdict::Accepted => GOOD_STATUS,
            Verdict::Refused(_) => FAULT_STATUS,
            Verdict::Unreadable { .. } => UNREADABLE_STATUS,
        }
    }
}

impl End {
    /// The exit status of a trace that ends so: 0, 1 or 3.
    pub fn status(&self) -> u8
        ensures status { result ≡ status_of_end self.now }
        ensures bound { result ≤ 3 }
    {
        match self {
            End::Ended | End::Stopped => GOOD_STATUS,
            End::Fault(_) => FAULT_STATUS,
            End::NotEnabled(_) | End::Limit | End::Memory => DEVICE_STATUS,
        }
    }
}

impl StepEnd {
    /// The exit status of a program that was stepped to this end: 0 to 3.
    pub fn status(&self) -> u8
        ensures status { result ≡ status_of_step self.now }
        ensures bound { result ≤ 3 }
    {
        match self {
            StepEnd::Unreadable(_) => UNREADABLE_STATUS,
            StepEnd::Schedule(_) => DEVICE_STATUS,
            StepEnd::Trace(end) => end.status(),
        }
    }
}
