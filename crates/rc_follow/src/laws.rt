//! What holds of the definitions alone.

ghost use Rattle.rc_follow.specs.Laws.{FollowedIsRun};

/// The lines of a log that is followed lead to a world of a weak run of the program, and where the program is safe this
/// world has no fault.
pub fn followed_is_run()
    ensures { FollowedIsRun }
{}
