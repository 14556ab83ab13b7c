//! What weak runs need: worlds again, and stray steps.

ghost use Rattle.std.specs.Prelude.{◌≡◌, true, map, Some, IfOk};
ghost use Rattle.rc_world.specs.Stray.{can_stray, stray_step};
ghost use Rattle.rc_world.specs.WorldParts.{view_pending};

use super::bytes::Bytes;
use super::{Pending, World};
use crate::event::Event;
use rc_lang::request::Request;
use std::alloc::{AllocError, Global};
use std::mem::swap;

/// Lists of a world that becomes the same as another. They are kept for their memory alone.
#[derive(Drop)]
pub struct Lists {
    queued: Vec<Request>,
    pending: Vec<Pending>,
    buffers: Vec<Option<Bytes>>,
}

impl Lists {
    /// With no memory yet.
    pub fn new(alloc: Global) -> Lists {
        Lists {
            queued: Vec::new(alloc),
            pending: Vec::new(alloc),
            buffers: Vec::new(alloc),
        }
    }
}

impl<'a> World<'a> {
    /// The same world again; it fails where memory runs out.
    pub fn copy(&self, alloc: Global) -> Result<World<'a>, AllocError>
        ensures { IfOk result (λ w. w ≡ self.now) }
    {
        let mut copy = World::start(alloc, self.program)?;
        copy.copy_from(alloc, &mut Lists::new(alloc), self)?;
        Ok(copy)
    }

    /// Becomes the same as another world, in the memory that it and the lists have. Where memory runs out, it is no world
    /// of a run.
    pub fn copy_from(
        &mut self,
        alloc: Global,
        lists: &mut Lists,
        other: &World<'a>,
    ) -> Result<(), AllocError>
        ensures { IfOk result (λ _. self.new ≡ other.now) }
    {
        lists.queued.clear();
        lists.queued.extend_from_slice(&other.queued)?;
        copy_pending(alloc, &other.pending, &mut lists.pending)?;
        copy_buffers(alloc, &other.buffers, &mut lists.buffers)?;
        self.controls.copy_from(&other.controls)?;
        self.completed.clear();
        self.completed.extend_from_slice(&other.completed)?;
        self.completions.clear();
        self.completions.extend_from_slice(&other.completions)?;
        self.program = other.program;
        self.slot = other.slot;
        swap(&mut self.queued, &mut lists.queued);
        swap(&mut self.pending, &mut lists.pending);
        self.made = other.made;
        swap(&mut self.buffers, &mut lists.buffers);
        self.has_clash = other.has_clash;
        Ok(())
    }

    /// Whether the thread has a stray step: whether it is at an `if take` or at a load.
    pub fn strays(&self, thread: u32) -> bool
        ensures { result ≡ can_stray self.now thread }
    {
        self.controls.strays(self.program, thread)
    }

    /// Makes the stray step of the thread, and answers its event: an `if take` goes to its second branch although its
    /// pool may have all items, and a load gives this byte. It looks for no fault and takes no memory.
    pub fn stray(&mut self, thread: u32, byte: u8) -> Event
        requires { can_stray self.old thread ≡ true }
        ensures { stray_step self.old thread byte ≡ Some (result, self.new) }
    {
        self.controls.stray(self.program, thread, byte)
    }
}

// These become the same pending requests, with their bytes.
fn copy_pending(
    alloc: Global,
    pending: &[Pending],
    copies: &mut Vec<Pending>,
) -> Result<(), AllocError>
    ensures { IfOk result (λ _. copies.new.items ≡ pending.now) }
{
    copies.clear();
    for Pending { request, bytes } in pending {
        copies.push(Pending {
            request: *request,
            bytes: copy_bytes(alloc, bytes)?,
        })?;
    }
    Ok(())
}

// These become the same buffers.
fn copy_buffers(
    alloc: Global,
    buffers: &[Option<Bytes>],
    copies: &mut Vec<Option<Bytes>>,
) -> Result<(), AllocError>
    ensures { IfOk result (λ _. copies.new.items ≡ buffers.now) }
{
    copies.clear();
    for bytes in buffers {
        copies.push(copy_bytes(alloc, bytes)?)?;
    }
    Ok(())
}

// The same bytes again, where they are there.
fn copy_bytes(alloc: Global, bytes: &Option<Bytes>) -> Result<Option<Bytes>, AllocError>
    ensures { IfOk result (λ b. b ≡ bytes.now) }
{
    match bytes {
        Some(bytes) => Ok(Some(bytes.copy(alloc)?)),
        None => Ok(None),
    }
}
