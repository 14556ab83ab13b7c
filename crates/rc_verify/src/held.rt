//! Where a part was last held.

ghost use Rattle.std.specs.Prelude.{◌<◌, length};
ghost use Rattle.rc_verify.specs.Held.{FindsLastHeld};

use crate::labels::Labels;
use rc_lang::program::Program;
use rc_split::part::Part;

/// The greatest place before this one at which the part is held on some side. It is asked of a line that is refused, or
/// of one before it. This takes no memory.
pub fn last_held(program: &Program, thread: u32, place: usize, part: Part) -> Option<usize>
    requires { thread < length program.now.threads }
    ensures { FindsLastHeld program.now thread place part result }
{
    let mut labels = Labels::new(program, thread);
    let mut last = None;
    for at in 0..place {
        if labels.state().holds(part) {
            last = Some(at);
        }
        match labels.next() {
            Ok(true) => {}
            Ok(false) => return last,
            Err(_) => return last,
        }
    }
    last
}
