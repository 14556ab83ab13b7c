//! Jobs: requests that are with a device.

ghost use Rattle.std.specs.Prelude.{◌≡◌, ◌≤◌, false, true, length};
ghost use Rattle.std.specs.Borrow.{sem};
ghost use Rattle.rc_lang.specs.declared.request.Kind.TheVariants.{Write};
ghost use Rattle.rc_lang.specs.Requests.{largest, may_complete};
ghost use Rattle.rc_run.specs.Jobs.{IsJob, allows, job_of};
ghost use Rattle.rc_run.specs.Lending.{LendsBytes};

use rc_lang::request::Request;
use rc_world::world::requests::{largest, may_complete};
use std::marker::Model;

/// A request that is with a device, and bytes for it. It has to be spent, by `Live::post` or by `give_up`.
pub struct Job {
    request: Request,
    bytes: Vec<u8>,
    starved: bool,
}

// Clauses see the request, the bytes and whether there are none for out of memory.
impl Model for Job {
    ghost use Rattle.rc_run.specs.Jobs as jobs;

    ghost Value = { jobs.Job };

    ghost use Rattle.rc_run.specs.Jobs.{IsJob, job_of};

    ghost view = { λ j. job_of j.request j.bytes.items j.starved };

    ghost invariant = { λ j. IsJob (job_of j.request j.bytes.items j.starved) };
}

impl Job {
    // A job of these parts.
    pub(crate) fn new(request: Request, bytes: Vec<u8>, starved: bool) -> Job
        requires { IsJob (job_of request bytes.items starved) }
        ensures { result ≡ job_of request bytes.items starved }
    {
        Job {
            request,
            bytes,
            starved,
        }
    }

    /// The request.
    pub fn request(&self) -> Request
        ensures value { result ≡ self.now.request }
        ensures small { result.len ≤ 4096 }
        ensures enough { self.now.starved ≡ false → result.len ≤ length self.now.bytes }
        ensures starved { self.now.starved ≡ true → result.kind ≡ Write }
    {
        self.request
    }

    /// The largest result that its request may complete with.
    pub fn largest(&self) -> u32
        ensures value { result ≡ largest self.now.request.len self.now.request.kind }
        ensures small { result ≤ 4096 }
    {
        largest(self.request)
    }

    /// Whether this may be the result: what the request may complete with (`io_uring_enter(2)`), and of a starved job
    /// a negative errno.
    pub fn allows(&self, res: i32) -> bool
        ensures { result ≡ allows self.now res }
    {
        may_complete(self.request, res) && (!self.starved || res < 0)
    }

    /// Whether memory for the bytes was refused.
    pub fn starved(&self) -> bool
        ensures { result ≡ self.now.starved }
    {
        self.starved
    }

    /// The bytes, of which a device fills those of a read and takes those of a write.
    pub fn bytes(&mut self) -> &mut [u8]
        requires { self.old.starved ≡ false }
        ensures* writes_back { sem 𝓛 (LendsBytes self.entry result) }
        ensures value { result.now ≡ self.old.bytes }
    {
        &mut self.bytes
    }

    /// Lets go of a job that came back. The request of a job that is out stays pending for good.
    pub fn give_up(self) {
        let Job {
            request: _,
            bytes: _,
            starved: _,
        } = self;
    }

    // The parts.
    pub(crate) fn into_parts(self) -> (Request, Vec<u8>)
        ensures request { result.0 ≡ self.request }
        ensures bytes { result.1.items ≡ self.bytes }
        ensures job { IsJob self }
    {
        let Job {
            request,
            bytes,
            starved: _,
        } = self;
        (request, bytes)
    }
}
