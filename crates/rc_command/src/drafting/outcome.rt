//! How a log ends from which a model is drafted.

ghost use Rattle.std.specs.Prelude.{◌≡◌, ◌≤◌, option_copied};
ghost use Rattle.rc_command.specs.Drafting as spec;

use crate::departures::ending::Ending;
use rc_report::status::{DEVICE_STATUS, GOOD_STATUS};

/// How a log ends.
#[derive(Drop)]
pub enum Outcome {
    /// It was read.
    Read,
    /// It ended so: where it can't be read further, or held to the draft.
    Ended(Ending),
    /// It can't be opened or read; why.
    Unread(String),
}

impl Outcome {
    /// The exit status of a log that ends so: 0 to 3, and 0 only where it was read or followed.
    pub fn status(&self) -> u8
        ensures status { result ≡ spec.status_of_outcome self.now }
        ensures bound { result ≤ 3 }
    {
        match self {
            Outcome::Read => GOOD_STATUS,
            Outcome::Ended(ending) => ending.status(),
            Outcome::Unread(_) => DEVICE_STATUS,
        }
    }

    /// Whether all its lines were followed.
    pub fn is_followed(&self) -> bool
        ensures { result ≡ spec.is_followed self.now }
    {
        matches!(
            self,
            Outcome::Ended(Ending::Followed { .. } | Ending::Stuck { .. })
        )
    }

    /// Whether it was read.
    pub fn is_read(&self) -> bool
        ensures { result ≡ spec.is_read self.now }
    {
        matches!(self, Outcome::Read)
    }
}

/// A log by its name, and how its recording ended.
#[derive(Drop)]
pub struct RecordedLog<'a> {
    pub name: &'a str,
    pub outcome: Outcome,
}

/// A log that was recorded, and how it ended over the draft if it was then held to it.
#[derive(Drop)]
pub struct LogEnd<'a, 'b> {
    pub log: &'a RecordedLog<'b>,
    pub held: Option<Outcome>,
}

impl<'a, 'b> LogEnd<'a, 'b> {
    ghost use Rattle.std.specs.Prelude.{◌≡◌};
    ghost use Rattle.rc_command.specs.Drafting as spec;

    /// How it ends.
    pub fn outcome(&self) -> &Outcome
        ensures { result.now ≡ spec.outcome_of self.now }
    {
        match &self.held {
            Some(outcome) => outcome,
            None => &self.log.outcome,
        }
    }
}
