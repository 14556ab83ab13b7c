//! Jobs, and what their results do to the rings and the buffers.

ghost use Rattle.std.specs.Prelude.{◌≡◌, ◌+◌, ◌++◌, ◌<◌, ◌≤◌, IfOk, IfSome, IsSome, Some, [], unwrap_or, length, take, drop};
ghost use Rattle.std.specs.Vec.{vec_capacity, vec_len};
ghost use Rattle.rc_world.specs.Kept.{IsKept};
ghost use Rattle.rc_world.specs.Machine.{bytes_brought};
ghost use Rattle.rc_world.specs.WorldParts.{view_bytes};
ghost use Rattle.rc_run.specs.Calm.{IsCalm};
ghost use Rattle.rc_run.specs.Lives.{IsJobOf, bytes_for};
ghost use Rattle.rc_run.specs.Machine.{AtPlace, IsSized, given_to, job_step, views, world_of};

use super::{Machine, Pending};
use crate::job::Job;
use rc_lang::request::{Kind, Request};
use rc_world::event::{Completion, Event};
use std::alloc::{AllocError, Global};

impl Machine {
    /// The job of the pending request at this place. Where memory for a write's bytes is refused it is starved.
    pub fn job(&self, alloc: Global, place: usize) -> Result<Job, AllocError>
        requires place { place < length self.now.pending.items }
        requires calm { IsCalm (world_of self.now) }
        ensures { IfOk result (λ j. AtPlace self.now place (λ p. IsJobOf (world_of self.now) p j)) }
    {
        let request = self.pending[place].request;
        match self.bytes_for(alloc, place) {
            Ok(bytes) => Ok(Job::new(request, bytes, false)),
            Err(error) => match request.kind {
                Kind::Write => Ok(Job::new(request, Vec::new(alloc), true)),
                _ => Err(error),
            },
        }
    }

    // A copy of the bytes for the pending request at this place.
    fn bytes_for(&self, alloc: Global, place: usize) -> Result<Vec<u8>, AllocError>
        requires { place < length self.now.pending.items }
        ensures { IfOk result
            (λ v. AtPlace self.now place (λ p. v.items ≡ bytes_for (world_of self.now) p)) }
    {
        let pending = &self.pending[place];
        match pending.request.kind {
            Kind::Nop => Ok(Vec::new(alloc)),
            Kind::Fsync => Ok(Vec::new(alloc)),
            Kind::Other => Ok(Vec::new(alloc)),
            Kind::Read => copy_of(alloc, &pending.bytes),
            Kind::Write => match self.buffers.get(pending.request.buffer as usize) {
                Some(bytes) => copy_of(alloc, bytes),
                None => Ok(Vec::new(alloc)),
            },
        }
    }

    /// The pending request at this place completes with this result; the first bytes of a read are these.
    pub fn complete(&mut self, place: usize, res: i32, bytes: &[u8]) -> Event
        requires sized { IsSized self.old }
        requires place { place < length self.old.pending.items }
        requires step { IsSome (job_step self.old place res bytes.now) }
        requires kept { IsKept (world_of self.old) }
        requires ring { length self.old.ring.completions < self.old.ring.completion_entries }
        requires enough { AtPlace self.old place (λ p. bytes_brought p.request ≤ length bytes.now) }
        requires room { vec_len self.old.completed < vec_capacity self.old.completed }
        ensures step { job_step self.old place res bytes.now ≡ Some (result, world_of self.new) }
        ensures sized { IsSized self.new }
        ensures admitted { self.new.admitted ≡ self.old.admitted }
        ensures made { self.new.ring.made ≡ self.old.ring.made }
        ensures datasync { self.new.ring.datasync ≡ self.old.ring.datasync }
        ensures completed { vec_len self.new.completed ≡ vec_len self.old.completed + 1 }
        ensures room { vec_capacity self.new.completed ≡ vec_capacity self.old.completed }
    {
        let Pending {
            request,
            bytes: kept,
        } = self.pending.remove(place);
        give_back(&mut self.buffers, request, kept, bytes);
        let completion = Completion {
            user_data: request.user_data,
            res,
        };
        self.completed.push_reserved(request);
        self.ring.post(completion);
        Event::ByKernel(completion)
    }
}

// A copy of bytes that are there.
fn copy_of(alloc: Global, bytes: &Option<Vec<u8>>) -> Result<Vec<u8>, AllocError>
    ensures { IfOk result (λ v. v.items ≡ unwrap_or (view_bytes bytes.now) []) }
{
    match bytes {
        Some(bytes) => Vec::from_slice(alloc, bytes),
        None => Ok(Vec::new(alloc)),
    }
}

// The bytes of a read come back to their buffer, the first ones changed.
fn give_back(
    buffers: &mut Vec<Option<Vec<u8>>>,
    request: Request,
    kept: Option<Vec<u8>>,
    bytes: &[u8],
)
    requires there { IfSome kept (λ _. request.buffer < length buffers.old.items) }
    requires enough { IfSome kept (λ v. request.len ≤ length v.items) }
    requires brought { IfSome kept (λ _. request.len ≤ length bytes.now) }
    ensures { views buffers.new ≡ given_to (views buffers.old) request bytes.now (view_bytes kept) }
{
    match kept {
        Some(kept) => {
            buffers[request.buffer as usize] = Some(changed(kept, request.len, bytes));
        }
        None => {}
    }
}

// The bytes, the first `len` of them changed.
fn changed(mut stood: Vec<u8>, len: u32, bytes: &[u8]) -> Vec<u8>
    requires enough { len ≤ length stood.items }
    requires brought { len ≤ length bytes.now }
    ensures { result.items ≡ take len bytes.now ++ drop len stood.items }
{
    overwrite(&mut stood, len as usize, bytes);
    stood
}

// The first `len` bytes are changed.
fn overwrite(stood: &mut [u8], len: usize, bytes: &[u8])
    requires enough { len ≤ length stood.old }
    requires brought { len ≤ length bytes.now }
    ensures { stood.new ≡ take len bytes.now ++ drop len stood.old }
{
    stood[..len].copy_from_slice(&bytes[..len]);
}
