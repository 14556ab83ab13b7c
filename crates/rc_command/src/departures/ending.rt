//! How a log ends, held to a program.

ghost use Rattle.std.specs.Prelude.{◌≡◌, ◌≤◌};
ghost use Rattle.rc_command.specs.Endings.{calls_followed, status_of};

use rc_report::status::{DEVICE_STATUS, FAULT_STATUS, GOOD_STATUS, UNREADABLE_STATUS};
use rc_runs::stuck_text::waits::Wait;

/// How a log ends, held to a program. The numbers of lines are from 1.
#[derive(Drop)]
pub enum Ending {
    /// A run of the program makes all its lines. So many are its calls, but for those that only ask.
    Followed {
        calls: u64,
    },
    /// A run makes all its lines, and each that was looked at ends in a stuck world. So many are its calls, and this is what
    /// the threads wait for in the first of them.
    Stuck {
        calls: u64,
        waits: Vec<Wait>,
    },
    /// A run makes all its lines, and then it was full. So many are its calls.
    Full {
        calls: u64,
    },
    /// No run that was looked at makes this line. The place in the C program that it names, what it says that its thread
    /// does, and why it departs.
    Departs {
        number: u64,
        place: Vec<u8>,
        says: Vec<u8>,
        why: Vec<u8>,
    },
    /// This line can't be read, or it locks a mutex that is held, or unlocks one that its thread doesn't hold; why.
    Unreadable {
        number: u64,
        why: Vec<u8>,
    },
    /// At this line there are more candidate worlds than are looked at.
    TooMany {
        number: u64,
    },
}

impl Ending {
    /// The exit status of a log that ends so: 0 to 3, and 0 only where it is followed.
    pub fn status(&self) -> u8
        ensures status { result ≡ status_of self.now }
        ensures bound { result ≤ 3 }
    {
        match self {
            Ending::Followed { .. } => GOOD_STATUS,
            Ending::Stuck { .. } => GOOD_STATUS,
            Ending::Full { .. } => DEVICE_STATUS,
            Ending::Departs { .. } => FAULT_STATUS,
            Ending::Unreadable { .. } => UNREADABLE_STATUS,
            Ending::TooMany { .. } => DEVICE_STATUS,
        }
    }

    /// How many calls a log has that ends so, if it is followed and wasn't full.
    pub fn followed(&self) -> Option<u64>
        ensures { result ≡ calls_followed self.now }
    {
        match self {
            Ending::Followed { calls } => Some(*calls),
            Ending::Stuck { calls, .. } => Some(*calls),
            _ => None,
        }
    }
}
