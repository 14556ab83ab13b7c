//! One step of a run.

ghost use Rattle.std.specs.Prelude.{◌≡◌, ◌+◌, ◌<◌, ◌≤◌, ◌^◌, IfOk};
ghost use Rattle.rc_runs.specs.Repeats.{is_made, where_made};
ghost use Rattle.rc_runs.specs.Spelling.{after_step};

use rc_world::event::Item;
use rc_world::fault::Fault;
use rc_world::world::{Stop, World};
use std::alloc::AllocError;

/// What an item makes of a world.
#[derive(Clone, Copy)]
pub enum Step {
    /// Its step was made.
    Made,
    /// It isn't enabled.
    NotEnabled,
    /// The world has this fault.
    Fault(Fault),
}

impl Step {
    /// Whether the step was made.
    pub fn is_made(self) -> bool
        ensures { result ≡ is_made self }
    {
        matches!(self, Step::Made)
    }
}

/// Makes the step that an item names, where the world has no fault and the item is enabled.
pub fn make(world: &mut World<'_>, item: &Item) -> Result<Step, AllocError>
    requires { world.old.made + 1 < 2 ^ 64 }
    ensures step { IfOk result (λ step. after_step world.old item.now ≡ where_made (is_made step) world.new) }
    ensures made { world.new.made ≤ world.old.made + 1 }
{
    if !world.enabled(item) {
        return Ok(Step::NotEnabled);
    }
    match world.apply(item) {
        Ok(_) => Ok(Step::Made),
        Err(Stop::Fault(fault)) => Ok(Step::Fault(fault)),
        Err(Stop::OutOfMemory) => Err(AllocError),
    }
}
