//! What holds of the definitions alone.

ghost use Rattle.rc_admit.specs.Laws.{AcceptedIsSafe, AcceptedIsWeaklySafe};
ghost use Rattle.rc_admit.specs.Worlds as worlds;

/// An accepted program is safe: no world of any run of it has a fault, whatever the order in which its threads and the
/// kernel make their steps, whatever its submits are answered, whichever branch each `if any` takes and whatever its
/// reads bring.
pub fn accepted_is_safe()
    ensures { AcceptedIsSafe }
{}

/// Nor has any world of a weak run of it, in which besides an `if take` may go to its second branch although its pool
/// has all items, and a load may give any byte.
pub fn accepted_is_weakly_safe()
    ensures { AcceptedIsWeaklySafe }
{}

/// What safe means, of each world of each run of a safe program:
///
/// - no thread is about to write a buffer that a pending request names, nor to read one that a pending read fills; no
///   two pending requests and no two threads go to one buffer while one of them writes it; nothing goes past its end;
/// - no call on a side of the ring is made without its lock; each `io_uring_get_sqe(3)` finds a free entry, and what the
///   holder of the submission side does next finds the open entry at the stage that it wants; a pending request finds
///   room in the completion ring;
/// - each `io_uring_sqe_set_data64(3)` gives user data that no request in flight has, so that no two of them have the
///   same;
/// - the completions in their ring, but for a front one that is got, are those of the completed requests, in their order:
///   so it is in an accepted program, and in any program without `cqe_get_data64`. A refused one may be safe and leave
///   more there that are got;
/// - at each `io_uring_cqe_seen(3)` and `io_uring_cqe_get_data64(3)` of a front completion that isn't got, that was looked
///   at, exactly one completed request has its user data, and after that step none has; of one that is got no request is
///   reaped again;
/// - nothing is put into a pool that is in one already, and no call on the pool without a name is made without both
///   locks.
pub fn safe_worlds()
    ensures no_write_of_pending { worlds.OfSafeWorlds worlds.NoWriteOfPending }
    ensures no_read_of_filling { worlds.OfSafeWorlds worlds.NoReadOfFilling }
    ensures no_kernel_clash { worlds.OfSafeWorlds worlds.NoKernelClash }
    ensures no_thread_race { worlds.OfSafeWorlds worlds.NoThreadRace }
    ensures within_buffers { worlds.OfSafeWorlds worlds.StaysWithinBuffers }
    ensures under_lock { worlds.OfSafeWorlds worlds.CallsUnderLock }
    ensures finds_entry { worlds.OfSafeWorlds worlds.FindsEntry }
    ensures entry_suits { worlds.OfSafeWorlds worlds.EntrySuits }
    ensures has_room { worlds.OfSafeWorlds worlds.HasRoom }
    ensures data_is_fresh { worlds.OfSafeWorlds worlds.DataIsFresh }
    ensures data_is_one { worlds.OfSafeWorlds worlds.DataIsOne }
    ensures completions_agree { worlds.OfAcceptedWorlds worlds.CompletionsAgree }
    ensures agree_without_gets { worlds.OfWorldsWithoutGets worlds.CompletionsAgree }
    ensures reaps_one { worlds.OfSafeWorlds worlds.EachReapsOne }
    ensures none_twice { worlds.OfSafeWorlds worlds.NoneReapedTwice }
    ensures put_once { worlds.OfSafeWorlds worlds.NothingPutTwice }
{}
