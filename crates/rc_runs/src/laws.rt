//! What holds of the definitions alone.

ghost use Rattle.rc_runs.specs.Laws.{ListedIsEnabled};

/// An item without an errno, and with the fill byte 0, is enabled exactly where it is one of those that are listed.
pub fn listed_is_enabled()
    ensures { ListedIsEnabled }
{}
