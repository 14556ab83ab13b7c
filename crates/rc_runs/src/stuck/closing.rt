//! The worlds that are reached from a world by steps that move nothing.

ghost use Rattle.std.specs.Prelude.{◌≡◌, ◌<◌, IfOk, OnOk, false, length, true};
ghost use Rattle.rc_runs.specs.Closing.{AllLike, AreAlike, GoesOnly, HasWorld, IsCalm, IsGrown, IsLedAt, IsQuietAt, IsThreadLedAt, StillOnward};
ghost use Rattle.rc_world.specs.declared.event.Item.TheVariants as items;
ghost use Rattle.rc_world.specs.Items.{is_enabled, next_of};
ghost use Rattle.rc_world.specs.Trace.{has_ended};

use crate::stuck::kept::kept_variables;
use crate::stuck::quiet::{follows, is_asked, line_moves};
use crate::stuck::same::{is_same, sum_of};
use rc_world::controls::Next;
use rc_world::event::Item;
use rc_world::world::{Stop, World};
use std::alloc::{AllocError, Global};
use std::collections::BTreeMap;

/// The worlds that were reached so far, and for the sum of each its number.
#[derive(Drop)]
struct Reached<'a> {
    worlds: Vec<World<'a>>,
    numbers: BTreeMap<u64, usize>,
}

/// Whether so many worlds at most are reached from this one, and no step moves anything in them.
pub fn is_closed(alloc: Global, world: &World<'_>, most: usize) -> Result<bool, AllocError>
    ensures { IfOk result (λ yes. yes ≡ true → StillOnward world.now) }
{
    let kept = kept_variables(alloc, world.program())?;
    closes(alloc, &kept, world, most)
}

/// The same, where something depends on these variables alone.
fn closes(alloc: Global, kept: &[bool], world: &World<'_>, most: usize) -> Result<bool, AllocError>
    ensures { IfOk result (λ yes. yes ≡ true → StillOnward world.now) }
{
    let mut reached = Reached {
        worlds: Vec::new(alloc),
        numbers: BTreeMap::new(alloc),
    };
    reached.know(kept, world.copy(alloc)?)?;
    for number in 0..most {
        if number >= reached.worlds.len() {
            return Ok(true);
        }
        if !reached.close(alloc, kept, number)? {
            return Ok(false);
        }
    }
    Ok(false)
}

impl<'a> Reached<'a> {
    /// Whether no step that counts moves anything in the world with this number. The worlds after them are known then.
    fn close(&mut self, alloc: Global, kept: &[bool], number: usize) -> Result<bool, AllocError>
        requires there { number < length self.old.worlds.items }
        requires alike { AreAlike self.old.worlds.items }
        ensures grown { OnOk result (IsGrown self.old.worlds.items self.new.worlds.items) }
        ensures quiet { IfOk result (λ yes. yes ≡ true → IsQuietAt kept.now self.old.worlds.items number self.new.worlds.items) }
    {
        let world = &self.worlds[number];
        let count = world.program().threads().len() as u32;
        if !is_calm(world) || world.place(count).is_some() {
            return Ok(false);
        }
        for thread in 0..count {
            if !self.close_thread(alloc, kept, number, thread)? {
                return Ok(false);
            }
        }
        Ok(true)
    }

    /// The same for the steps of one thread.
    fn close_thread(
        &mut self,
        alloc: Global,
        kept: &[bool],
        number: usize,
        thread: u32,
    ) -> Result<bool, AllocError>
        requires there { number < length self.old.worlds.items }
        requires alike { AreAlike self.old.worlds.items }
        ensures grown { OnOk result (IsGrown self.old.worlds.items self.new.worlds.items) }
        ensures leads { IfOk result (λ yes. yes ≡ true → IsThreadLedAt kept.now self.old.worlds.items number self.new.worlds.items thread) }
    {
        if !self.follow(alloc, kept, number, thread, None)? {
            return Ok(false);
        }
        if !self.follow(alloc, kept, number, thread, Some(0))? {
            return Ok(false);
        }
        let last = self.follow(alloc, kept, number, thread, Some(1))?;
        Ok(last)
    }

    /// The same for one item.
    fn follow(
        &mut self,
        alloc: Global,
        kept: &[bool],
        number: usize,
        thread: u32,
        take: Option<i32>,
    ) -> Result<bool, AllocError>
        requires there { number < length self.old.worlds.items }
        requires alike { AreAlike self.old.worlds.items }
        ensures grown { OnOk result (IsGrown self.old.worlds.items self.new.worlds.items) }
        ensures leads { IfOk result (λ yes. yes ≡ true → IsLedAt kept.now self.old.worlds.items number self.new.worlds.items thread take) }
    {
        let world = &self.worlds[number];
        if !is_asked(world, thread, take) {
            return Ok(true);
        }
        if line_moves(world, thread) || !follows(kept, world, thread) {
            return Ok(false);
        }
        match after(alloc, world, thread, take)? {
            Some(after) => {
                self.know(kept, after)?;
                Ok(true)
            }
            None => Ok(false),
        }
    }

    /// Adds a world, unless it is there.
    fn know(&mut self, kept: &[bool], world: World<'a>) -> Result<(), AllocError>
        requires { AllLike world self.old.worlds.items }
        ensures grown { OnOk result (IsGrown self.old.worlds.items self.new.worlds.items) }
        ensures there { OnOk result (HasWorld kept.now self.new.worlds.items world.entry) }
    {
        let sum = sum_of(kept, &world);
        if self.knows(kept, sum, &world) {
            return Ok(());
        }
        self.numbers.insert(sum, self.worlds.len())?;
        self.worlds.push(world)?;
        Ok(())
    }

    /// Whether a world is there.
    fn knows(&self, kept: &[bool], sum: u64, world: &World<'_>) -> bool
        requires { AllLike world.now self.now.worlds.items }
        ensures { result ≡ true → HasWorld kept.now self.now.worlds.items world.now }
    {
        let Some(number) = self.numbers.get(&sum) else {
            return false;
        };
        match self.worlds.get(*number) {
            Some(known) => is_same(kept, world, known),
            None => false,
        }
    }
}

/// The world has no fault, and nothing is pending.
fn is_calm(world: &World<'_>) -> bool
    ensures { result ≡ true → IsCalm world.now }
{
    world.fault().is_none() && world.pending_len() == 0
}

/// The world after the step of a thread that doesn't end by it, where it can be made.
fn after<'a>(
    alloc: Global,
    world: &World<'a>,
    thread: u32,
    take: Option<i32>,
) -> Result<Option<World<'a>>, AllocError>
    requires { is_enabled world.now (items.Thread thread take) ≡ true }
    ensures { IfOk result (GoesOnly world.now thread take) }
{
    if world.made() > u64::from(u32::MAX) {
        return Ok(None);
    }
    let mut after = world.copy(alloc)?;
    match after.apply(&Item::Thread { thread, take }) {
        Ok(_) if goes_on(&after, thread) => Ok(Some(after)),
        Err(Stop::OutOfMemory) => Err(AllocError),
        _ => Ok(None),
    }
}

/// Whether a thread hasn't ended.
pub fn goes_on(world: &World<'_>, thread: u32) -> bool
    ensures { result ≡ true → has_ended (next_of world.now.program world.now.controls thread) ≡ false }
{
    !matches!(world.next(thread), Next::Ended)
}
