//! Why a text or a program isn't admitted.

use rc_read::ReadFault;
use rc_verify::refusal::Refusal;

/// Why a text or a program isn't admitted.
#[derive(Clone, Copy)]
pub enum AdmitFault {
    /// The text is no program.
    Read(ReadFault),
    /// The program is refused.
    Refused(Refusal),
    /// A growth was refused.
    OutOfMemory,
}
