//! What is in a world, for callers that show it. Nothing here takes memory.

ghost use Rattle.std.specs.Prelude.{◌≡◌, length, option_map, slice_get};
ghost use Rattle.rc_world.specs.Controls.{next_line};
ghost use Rattle.rc_world.specs.Items as items;
ghost use Rattle.rc_world.specs.Readers.{variable_in};

use super::requests::place_of_pending;
use super::{Slot, World};
use crate::controls::{Holders, Look};
use crate::event::Completion;
use rc_lang::lines::Line;
use rc_lang::request::Request;
use rc_split::pools::Pools;

impl<'a> World<'a> {
    /// The line that a thread has next; none where it has ended, or there is no such thread.
    pub fn line(&self, thread: u32) -> Option<Line>
        ensures { result ≡ next_line self.now.program self.now.controls thread }
    {
        self.controls.line(self.program, thread)
    }

    /// The place of the line that a thread has next, or the number of its lines where it has ended; none where there is
    /// no such thread.
    pub fn place(&self, thread: u32) -> Option<usize>
        ensures { result ≡ option_map (λ t. t.place) (slice_get self.now.controls.threads thread) }
    {
        self.controls.place(thread)
    }

    /// The value of a thread's variable; 0 where there is no such thread or variable.
    pub fn variable(&self, thread: u32, x: usize) -> i64
        ensures { result ≡ variable_in (slice_get self.now.controls.threads thread) x }
    {
        self.controls.value(thread, x)
    }

    /// Which thread holds each of the two locks.
    pub fn holders(&self) -> Holders
        ensures { result ≡ self.now.controls.holders }
    {
        self.controls.holders()
    }

    /// What was done with the front completion.
    pub fn look(&self) -> Look
        ensures { result ≡ self.now.controls.look }
    {
        self.controls.look()
    }

    /// What is in the pools.
    pub fn pools(&self) -> &Pools
        ensures { result.now ≡ self.now.controls.pools }
    {
        self.controls.pools()
    }

    /// The open submission entry.
    pub fn slot(&self) -> Slot
        ensures { result ≡ self.now.slot }
    {
        self.slot
    }

    /// The queued requests, in order.
    pub fn queued(&self) -> &[Request]
        ensures { result.now ≡ self.now.queued }
    {
        &self.queued
    }

    /// How many requests are pending.
    pub fn pending_len(&self) -> usize
        ensures { result ≡ length self.now.pending }
    {
        self.pending.len()
    }

    /// The pending request at this place.
    pub fn pending(&self, place: usize) -> Option<Request>
        ensures { result ≡ option_map (λ p. p.request) (slice_get self.now.pending place) }
    {
        let pending = self.pending.get(place)?;
        Some(pending.request)
    }

    /// The place of the first pending request with this user data, which the kernel's items of it name.
    pub fn pending_place(&self, user_data: u64) -> Option<usize>
        ensures { result ≡ items.pending_place self.now user_data }
    {
        place_of_pending(&self.pending, user_data)
    }

    /// The requests that are completed and not reaped, in the order of their completions.
    pub fn completed(&self) -> &[Request]
        ensures { result.now ≡ self.now.completed }
    {
        &self.completed
    }

    /// The completions in the ring, from the front.
    pub fn completions(&self) -> &[Completion]
        ensures { result.now ≡ self.now.completions }
    {
        &self.completions
    }
}
