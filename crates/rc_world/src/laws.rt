//! What holds of the machine's definitions alone.

ghost use Rattle.rc_world.specs.Laws.{EnabledItemsStep, NoDeadlock, NoHiddenHarm, TracesAreRuns};
ghost use Rattle.rc_world.specs.LeastFault.{FaultsAreLeast};

/// Harm can't hide as a missing step: in a world without a fault, of any run of a made program, each thread is at its
/// end, or somebody holds a lock that its next line wants, or it has a step, whatever number it is given; and every
/// pending request can complete with each result that it may have, a read with any bytes.
pub fn no_hidden_harm()
    ensures { NoHiddenHarm }
{}

/// Threads never wait for each other, each for a lock that another holds: in a world without a fault, of any run of a
/// made program, where a thread waits for a lock, one that holds a lock has a step.
pub fn no_deadlock()
    ensures { NoDeadlock }
{}

/// The fault of a world is the least that it has, by the kind's number and then by the thread, and a world without one
/// has none of any kind, at any thread or in the kernel.
pub fn faults_are_least()
    ensures { FaultsAreLeast }
{}

/// The events of a trace are a run from the start world, to the world where the trace ends.
pub fn traces_are_runs()
    ensures { TracesAreRuns }
{}

/// In a world without a fault, of any run of a made program, an item that is enabled names a step, so that no trace
/// ends at it.
pub fn enabled_items_step()
    ensures { EnabledItemsStep }
{}
