//! What a run reports.

use rc_world::event::Event;
use thiserror::Error;

/// What a run did.
#[derive(Debug, Drop)]
pub struct RunReport {
    /// Its events.
    pub history: Vec<Event>,
    /// How many events each thread of the program counted.
    pub turns: Vec<u64>,
    /// How many completions each worker of the kernel counted.
    pub posts: Vec<u64>,
}

/// Why a run didn't end. Codes 20, 30 and 31.
#[derive(Debug, Drop, Error)]
pub enum RunFault {
    /// Memory ran out, or a thread couldn't be made; the run so far.
    #[error("out of memory (20)")]
    OutOfMemory(RunReport),
    /// The limit was reached; the run so far.
    #[error("limit (30)")]
    Limit(RunReport),
    /// What ran was another program. No run answers it.
    #[error("other program (31)")]
    OtherProgram,
}
