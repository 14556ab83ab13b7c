//! Workers: threads that are the modelled kernel.

ghost use Rattle.std.specs.Prelude.{◌≡◌, ◌⊎◌, ◌≤◌, pos, negsuc, ◌≤ℤ◌, true, false, drop};
ghost use Rattle.rc_run.specs.Jobs.{allows};

use crate::job::Job;
use crate::locked::{Counted, RunConfig};
use crate::runner::shared::{Shared, draw};
use rc_device::chooser::Chooser;
use rc_device::device::Device;
use std::sync::Wait;
use std::sync::ledger::Ledger;

/// Serves jobs until the run is over. A job that is out is posted in any case.
pub fn work<D: Device, C: Chooser, L: Ledger + RunConfig, R: Wait>(
    rt: &R,
    shared: &Shared<D, C, L>,
    mut mine: Counted<L>,
) -> Counted<L> {
    for _ in rt.forever() {
        let choice = draw(rt, shared, 65536);
        let mut guard = shared.hold(rt);
        if guard.run().is_over() {
            break;
        }
        match guard.take_job(choice) {
            Some(job) => {
                drop(guard);
                let (job, res) = served(rt, shared, job);
                post(rt, shared, job, res, &mut mine);
            }
            None => {
                shared
                    .has_job
                    .wait_while(rt, guard, |scheduler| scheduler.run().is_idle());
            }
        }
    }
    shared.wake_all();
    mine
}

// Draws the grant for a request whose largest result is this: mostly that result, else a smaller one or -5 (EIO).
fn draw_grant<D: Device, C: Chooser, L: Ledger + RunConfig, R: Wait>(
    rt: &R,
    shared: &Shared<D, C, L>,
    largest: u32,
) -> i32
    requires { largest ≤ 4096 }
    ensures { (result ≡ negsuc 4) ⊎ ((pos 0 ≤ℤ result) × (result ≤ℤ pos largest)) }
{
    match draw(rt, shared, 8) {
        0 => -5,
        1 => draw(rt, shared, largest + 1) as i32,
        _ => largest as i32,
    }
}

// Has the device serve a job, with no lock of the run held. A starved job fails with -12 (ENOMEM).
fn served<D: Device, C: Chooser, L: Ledger + RunConfig, R: Wait>(
    rt: &R,
    shared: &Shared<D, C, L>,
    job: Job,
) -> (Job, i32)
    ensures allowed { allows result.0 result.1 ≡ true }
    ensures given { D.gives result.0.request.user_data result.1 ⊎ (result.1 ≡ negsuc 11) }
    ensures request { result.0.request ≡ job.request }
    ensures rest { drop job.request.len result.0.bytes ≡ drop job.request.len job.bytes }
    ensures starved { job.starved ≡ true → (result.0 ≡ job) × (result.1 ≡ negsuc 11) }
    ensures fed { job.starved ≡ false → result.0.starved ≡ false }
    ensures from_device { job.starved ≡ false → D.gives job.request.user_data result.1 }
{
    if job.starved() {
        return (job, -12);
    }
    let grant = draw_grant(rt, shared, job.largest());
    let (request, mut bytes) = job.into_parts();
    let res = shared
        .device
        .lock(rt)
        .serve(&request, bytes.as_mut_slice(), grant);
    (Job::new(request, bytes, false), res)
}

// Posts the result of a job.
fn post<D: Device, C, L: Ledger + RunConfig, R: Wait>(
    rt: &R,
    shared: &Shared<D, C, L>,
    job: Job,
    res: i32,
    mine: &mut Counted<L>,
)
    requires allowed { allows job res ≡ true }
    requires given { D.gives job.request.user_data res ⊎ (res ≡ negsuc 11) }
{
    let mut guard = shared.hold(rt);
    let (posted, next) = guard.post(job, res, mine);
    drop(guard);
    shared.wake(next, 0);
    if let Err(job) = posted {
        job.give_up();
    }
}
