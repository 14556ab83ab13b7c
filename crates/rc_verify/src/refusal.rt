//! Where and why a program is refused.

use rc_rules::cause::Cause;

/// Where a program is refused, and why.
#[derive(Clone, Copy)]
pub struct Refusal {
    /// The number of the line, from 1.
    pub line: u32,
    pub cause: Cause,
}

/// Why a program isn't accepted.
#[derive(Clone, Copy)]
pub enum VerifyFault {
    /// It has a line that the rules refuse.
    Refused(Refusal),
    /// A growth was refused. As nothing grows, this isn't answered.
    OutOfMemory,
}
