//! Whether a log that is followed ends in a stuck world.

ghost use Rattle.std.specs.Prelude.{◌≡◌, IfOk, true};
ghost use Rattle.rc_command.specs.Logs.{AreStuck, IsFollowedSaid, IsSaidOf, IsStuckAt};

use crate::departures::ending::Ending;
use rc_follow::follower::Follower;
use rc_runs::stuck::is_stuck;
use rc_runs::stuck_text::had::Had;
use rc_runs::stuck_text::waits::{Wait, waits_of};
use std::alloc::{AllocError, Global};

/// How many candidate worlds there may be for each of them to be looked at.
const MOST_CANDIDATES: usize = 16;

/// How a log ends: where it is followed and all candidate worlds are stuck, that they are. The threads of a program that is
/// done have ended, and nothing is said of them.
pub fn ending_there(
    alloc: Global,
    follower: &Follower<'_>,
    ending: Ending,
    is_done: bool,
) -> Result<Ending, AllocError>
    ensures { IfOk result (IsSaidOf follower.now ending) }
{
    match ending.followed() {
        Some(calls) if is_done => Ok(Ending::Followed { calls }),
        Some(calls) => followed(alloc, follower, calls),
        None => Ok(ending),
    }
}

/// How a log of so many calls ends that is followed.
fn followed(alloc: Global, follower: &Follower<'_>, calls: u64) -> Result<Ending, AllocError>
    ensures { IfOk result (IsFollowedSaid follower.now calls) }
{
    if !are_stuck(alloc, follower)? {
        return Ok(Ending::Followed { calls });
    }
    let waits = first_waits(alloc, follower)?;
    Ok(Ending::Stuck { calls, waits })
}

/// Whether all candidate worlds are stuck, as far as is known. Of more than a few nothing is said.
fn are_stuck(alloc: Global, follower: &Follower<'_>) -> Result<bool, AllocError>
    ensures { IfOk result (λ yes. yes ≡ true → AreStuck follower.now) }
{
    if follower.candidates() > MOST_CANDIDATES {
        return Ok(false);
    }
    for place in 0..follower.candidates() {
        if !is_stuck_at(alloc, follower, place)? {
            return Ok(false);
        }
    }
    Ok(true)
}

/// Whether the candidate world at a place is stuck, as far as is known.
fn is_stuck_at(alloc: Global, follower: &Follower<'_>, place: usize) -> Result<bool, AllocError>
    ensures { IfOk result (λ yes. yes ≡ true → IsStuckAt follower.now place) }
{
    match follower.candidate(place) {
        Some(world) => is_stuck(alloc, world),
        None => Ok(false),
    }
}

/// What the threads wait for in the first candidate world.
fn first_waits(alloc: Global, follower: &Follower<'_>) -> Result<Vec<Wait>, AllocError> {
    match follower.candidate(0) {
        Some(world) => waits_of(alloc, world, &Had::unknown(alloc)),
        None => Ok(Vec::new(alloc)),
    }
}
