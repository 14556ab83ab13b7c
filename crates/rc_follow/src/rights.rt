//! What a thread may touch where it stands.

ghost use Rattle.std.specs.Prelude.{◌≡◌, All, IfOk, IfSome, slice_get, Some, true};
ghost use Rattle.rc_lang.specs.Program.{Program as SpecProgram};
ghost use Rattle.rc_follow.specs.Followed.{Asks, Noted};
ghost use Rattle.rc_follow.specs.Rights.{HasShares, flag_is_zero};
ghost use Rattle.rc_follow.specs.RightsKnown.{IsHeld, IsHeldAt};
ghost use Rattle.rc_lang.specs.Parts.{view_thread};
ghost use Rattle.rc_world.specs.Controls.{Standing};

use crate::node::Node;
use rc_lang::program::{Program, Thread};
use rc_log::call::Call;
use rc_verify::labels::Labels;
use rc_world::world::World;
use std::alloc::{AllocError, Global};
use std::marker::Model;

/// A buffer at a place of a thread, on a side of its flag.
#[derive(Clone, Copy)]
struct Spot {
    thread: u32,
    place: usize,
    zero: bool,
    buffer: usize,
}

/// How many shares of the buffer the strongest labels say there.
#[derive(Clone, Copy)]
struct Held {
    spot: Spot,
    shares: u32,
}

/// The rights of a program's threads that were asked for so far.
#[derive(Drop)]
pub struct Rights<'a> {
    program: &'a Program,
    known: Vec<Held>,
}

impl<'a> Model for Rights<'a> {
    ghost use Rattle.std.specs.Prelude.{All};
    ghost use Rattle.rc_lang.specs.Program.{Program};
    ghost use Rattle.rc_follow.specs.RightsKnown.{IsHeld};

    ghost Value = { Program };

    ghost view = { λ r. r.program.now };

    ghost invariant = { λ r. All (IsHeld r.program.now) r.known.items };
}

impl<'a> Rights<'a> {
    /// Nothing was asked for.
    pub fn new(alloc: Global, program: &'a Program) -> Rights<'a>
        ensures { result ≡ program.now }
    {
        Rights {
            program,
            known: Vec::new(alloc),
        }
    }

    /// The program.
    pub fn program(&self) -> &'a Program
        ensures { result.now ≡ self.now }
    {
        self.program
    }

    /// Whether the thread stands where it holds at least so many shares of the buffer.
    pub fn has_shares(
        &mut self,
        node: &Node<'_>,
        thread: u32,
        buffer: usize,
        count: u32,
    ) -> Result<bool, AllocError>
        ensures same { self.new ≡ self.old }
        ensures right { IfOk result (λ is. is ≡ true → HasShares self.old node.now.world thread buffer count) }
    {
        let world = node.world();
        let Some(place) = world.place(thread) else {
            return Ok(false);
        };
        let Some(part) = self.program.threads().get(thread as usize) else {
            return Ok(false);
        };
        let spot = Spot {
            thread,
            place,
            zero: is_zero(world, thread, part),
            buffer,
        };
        match self.held(spot)? {
            Some(held) => Ok(count <= held),
            None => Ok(false),
        }
    }

    // How many shares of the buffer are held there; none where no label is.
    fn held(&mut self, spot: Spot) -> Result<Option<u32>, AllocError>
        ensures same { self.new ≡ self.old }
        ensures held { IfOk result (λ held. IfSome held (IsHeldAt self.old spot)) }
    {
        if let Some(shares) = find_held(&self.known, spot) {
            return Ok(Some(shares));
        }
        let Some(shares) = shares_at(self.program, spot) else {
            return Ok(None);
        };
        know(&mut self.known, Held { spot, shares })?;
        Ok(Some(shares))
    }
}

/// Whether the thread stands where it has the right that a mark asks for.
pub fn is_right(
    rights: &mut Rights<'_>,
    node: &Node<'_>,
    thread: u32,
    call: Call,
) -> Result<bool, AllocError>
    ensures same { rights.new ≡ rights.old }
    ensures right { IfOk result (λ is. is ≡ true → (n : Noted) → Asks rights.old n node.now.world thread call) }
{
    match call {
        Call::Reads(buffer) => rights.has_shares(node, thread, buffer, 1),
        Call::Writes(buffer) => {
            let all = rights.program().shares_at(buffer);
            rights.has_shares(node, thread, buffer, all)
        }
        _ => Ok(false),
    }
}

fn know(known: &mut Vec<Held>, held: Held) -> Result<(), AllocError>
    ensures { (P : SpecProgram) → All (IsHeld P) known.old.items → IsHeld P held → All (IsHeld P) known.new.items }
{
    known.push(held)?;
    Ok(())
}

// How many shares are held there, where that is known.
fn find_held(known: &[Held], spot: Spot) -> Option<u32>
    ensures { (P : SpecProgram) → All (IsHeld P) known.now → IfSome result (IsHeldAt P spot) }
{
    for held in known {
        if held.spot.thread == spot.thread
            && held.spot.place == spot.place
            && held.spot.zero == spot.zero
            && held.spot.buffer == spot.buffer
        {
            return Some(held.shares);
        }
    }
    None
}

// Whether the thread's flag is 0, as it is where it has none.
fn is_zero(world: &World<'_>, thread: u32, part: &Thread) -> bool
    ensures { (t : Standing) → slice_get world.now.controls.threads thread ≡ Some t → result ≡ flag_is_zero (view_thread part.now).flag t.variables }
{
    match part.flag() {
        Some(flag) => world.variable(thread, flag) == 0,
        None => true,
    }
}

// The lines before the place are gone over.
fn shares_at(program: &Program, spot: Spot) -> Option<u32>
    ensures { IfSome result (IsHeldAt program.now spot) }
{
    if spot.thread as usize >= program.threads().len() {
        return None;
    }
    let mut labels = Labels::new(program, spot.thread);
    for _step in 0..spot.place {
        match labels.next() {
            Ok(true) => {}
            _ => return None,
        }
    }
    Some(labels.state().on(spot.zero).shares(spot.buffer))
}
