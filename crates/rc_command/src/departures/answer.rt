//! An answer that is made in memory.

ghost use Rattle.std.specs.Prelude.{◌≤◌};

use crate::departures::ending::Ending;
use crate::departures::printed::put_ending;
use rc_console::files::{Unread, put_unread};
use rc_report::status::{DEVICE_STATUS, GOOD_STATUS};
use std::alloc::{AllocError, Global};

/// An answer: its status, what is written, and what is reported besides.
#[derive(Drop)]
pub struct Answer {
    pub status: u8,
    pub written: Vec<u8>,
    pub reported: Vec<u8>,
    ghost is_status: { status ≤ 3 },
}

impl Answer {
    ghost use Rattle.std.specs.Prelude.{◌≡◌, [], IfOk};
    ghost use Rattle.rc_command.specs.Following as spec;
    ghost use Rattle.rc_command.specs.Following.{IsReported, SaysMore, ending_said, said_both, said_of};
    ghost use Rattle.rc_console.specs.Files.{together};

    /// Nothing is said yet.
    pub fn new(alloc: Global) -> Answer
        ensures { said_of result ≡ together [] }
    {
        Answer {
            status: GOOD_STATUS,
            written: Vec::new(alloc),
            reported: Vec::new(alloc),
        }
    }

    /// Adds how a log ends.
    pub fn print(
        &mut self,
        alloc: Global,
        name: &str,
        ending: &Ending,
        json: bool,
    ) -> Result<(), AllocError>
        ensures { IfOk result (λ _. said_of self.new ≡ said_both (said_of self.old) (ending_said json name.now ending.now)) }
    {
        put_ending(&mut self.written, alloc, name, ending, json)?;
        self.status = self.status.max(ending.status());
        Ok(())
    }

    /// Adds that a log can't be read.
    pub fn report(&mut self, alloc: Global, name: &str, unread: &Unread) -> Result<(), AllocError>
        ensures { IfOk result (λ _. SaysMore (IsReported name.now) self.old self.new) }
    {
        put_unread(&mut self.reported, alloc, name, unread)?;
        self.status = DEVICE_STATUS;
        Ok(())
    }

    /// Whether the calls that no log makes come after it: where all logs are followed, and where that is asked for and how
    /// one ends is printed.
    pub fn is_listed(&self, never: bool) -> bool
        ensures { result ≡ spec.is_listed never (said_of self.now) }
    {
        self.status == GOOD_STATUS || never && !self.written.is_empty()
    }
}
