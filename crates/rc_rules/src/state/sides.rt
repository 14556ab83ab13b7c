//! The sides of a state, for who shows it.

ghost use Rattle.std.specs.Prelude.{◌≡◌};
ghost use Rattle.rc_rules.specs.Readers.{some_has};
ghost use Rattle.rc_rules.specs.States as spec;

use super::State;
use crate::side::Side;
use rc_split::part::Part;

impl<'a> State<'a> {
    /// What holds while the flag is 0, or while it isn't. Without a flag nothing reaches the second.
    pub fn on(&self, zero: bool) -> &Side<'a>
        ensures label { spec.side_label result.now ≡ spec.label_of self.now zero }
        ensures of { result.now.program ≡ spec.program_of self.now }
    {
        if zero { &self.zero } else { &self.other }
    }

    /// Whether the part is held on some side: so many shares, the token, so many credits.
    pub fn holds(&self, part: Part) -> bool
        ensures { result ≡ some_has (spec.label_of self.now) part }
    {
        self.zero.holds(part) || self.other.holds(part)
    }
}
