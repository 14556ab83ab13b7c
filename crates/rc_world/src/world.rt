//! The world of a running program.

ghost use Rattle.std.specs.Prelude.{◌≡◌, ◌+◌, ◌<◌, ◌≤◌, ◌^◌, ◌&&◌, Some, true, false, map, pos, replicate, IfOk, IsSome};
ghost use Rattle.rc_lang.specs.Requests as requests;
ghost use Rattle.rc_world.specs.Applies.{Advances, Applies};
ghost use Rattle.rc_world.specs.Controls.{is_choice};
ghost use Rattle.rc_world.specs.Faults as faults;
ghost use Rattle.rc_world.specs.Harm.{DoesNoHarm};
ghost use Rattle.rc_world.specs.Items as items;
ghost use Rattle.rc_world.specs.Items.{item_step};
ghost use Rattle.rc_world.specs.Machine as machine;
ghost use Rattle.rc_world.specs.WorldParts.{TriesEvent, view_pending};

use self::bytes::Bytes;
use self::requests::{kernel_may, place_of_pending};
use crate::controls::{Answer, Controls, Next};
use crate::event::{Completion, Event, Item};
use crate::fault::Fault;
use rc_lang::lines::{Op, Stmt, Test};
use rc_lang::program::{Buffer, Program};
use rc_lang::request::Request;
use std::alloc::{AllocError, Global};
use std::marker::Model;
use thiserror::Error;

mod bytes;
mod faults;
mod readers;
pub mod requests;
mod rings;
pub mod weak;

/// The open submission entry.
#[derive(Clone, Copy)]
pub enum Slot {
    /// No entry is open.
    Closed,
    /// `get_sqe` opened one.
    Vacant,
    /// A prep filled it: a request without serial number and user data, both 0.
    Prepared(Request),
}

/// Why an item wasn't applied.
#[derive(Clone, Copy, PartialEq, Eq, Debug, Error)]
pub enum Stop {
    /// The world has this fault.
    #[error("{0}")]
    Fault(Fault),
    /// Memory ran out.
    #[error("out of memory")]
    OutOfMemory,
}

impl From<AllocError> for Stop {
    ghost use Rattle.std.specs.Prelude.{◌≡◌};
    ghost use Rattle.rc_world.specs.declared.world.Stop.TheVariants.{OutOfMemory};

    ghost from_gives = { λ _ e. e ≡ OutOfMemory };

    fn from(_e: AllocError) -> Stop {
        Stop::OutOfMemory
    }
}

/// A pending request, and with a read the bytes of its buffer.
#[derive(Drop)]
struct Pending {
    request: Request,
    bytes: Option<Bytes>,
}

/// Everything that a running program and its ring hold (`io_uring(7)`).
#[derive(Drop)]
pub struct World<'a> {
    program: &'a Program,
    controls: Controls,
    slot: Slot,
    queued: Vec<Request>,
    pending: Vec<Pending>,
    completed: Vec<Request>,
    completions: Vec<Completion>,
    made: u64,
    // The bytes of each buffer; none while a pending read fills it.
    buffers: Vec<Option<Bytes>>,
    // Whether two pending requests name one buffer and one of them is a read.
    has_clash: bool,
}

impl<'a> Model for World<'a> {
    ghost use Rattle.std.specs.Prelude.{◌≡◌, map};
    ghost use Rattle.rc_world.specs.Machine as machine;

    ghost Value = { machine.World };

    ghost use Rattle.rc_world.specs.Faults.{clashes};
    ghost use Rattle.rc_world.specs.Kept.{IsKept};
    ghost use Rattle.rc_world.specs.WorldParts.{view_pending, view_world};

    ghost view = { view_world };

    ghost invariant = { λ w. IsKept (view_world w) × (w.has_clash ≡ clashes (map view_pending w.pending.items)) };
}

impl<'a> World<'a> {
    /// The world in which a program starts: no request is made, and every byte of the buffers is 0.
    pub fn start(alloc: Global, program: &'a Program) -> Result<World<'a>, AllocError>
        ensures { IfOk result (λ w. w ≡ machine.start_world program.now) }
    {
        Ok(World {
            program,
            controls: Controls::start(alloc, program)?,
            slot: Slot::Closed,
            queued: Vec::new(alloc),
            pending: Vec::new(alloc),
            completed: Vec::new(alloc),
            completions: Vec::new(alloc),
            made: 0,
            buffers: zeroed(alloc, program.buffers())?,
            has_clash: false,
        })
    }

    /// The program that runs.
    pub fn program(&self) -> &'a Program
        ensures { result.now ≡ self.now.program }
    {
        self.program
    }

    /// How many requests were made: the number of `set_data64` steps so far.
    pub fn made(&self) -> u64
        ensures { result ≡ self.now.made }
    {
        self.made
    }

    /// What the thread with this number has next.
    #[inline(always)]
    pub fn next(&self, thread: u32) -> Next
        ensures { result ≡ items.next_of self.now.program self.now.controls thread }
    {
        self.controls.next(self.program, thread)
    }

    /// Whether the item names a step, faults aside.
    pub fn enabled(&self, item: &Item) -> bool
        ensures { result ≡ items.is_enabled self.now item.now }
    {
        match *item {
            Item::Thread { thread, take } => self.is_ready(take, self.next(thread)),
            Item::Kernel {
                user_data,
                res,
                fill,
            } => match place_of_pending(&self.pending, user_data) {
                Some(place) => kernel_may(self.pending[place].request, res, fill),
                None => false,
            },
        }
    }

    /// Makes the step that the item names, and answers its event. In a world with a fault nothing happens; nor does it
    /// where memory runs out.
    pub fn apply(&mut self, item: &Item) -> Result<Event, Stop>
        requires enabled { items.is_enabled self.old item.now ≡ true }
        requires room { self.old.made + 1 < 2 ^ 64 }
        ensures { Applies self.old item.now self.new result }
    {
        if let Some(fault) = self.fault() {
            return Err(Stop::Fault(fault));
        }
        let event = self.make(item)?;
        Ok(event)
    }

    /// Makes the step that the item names, and answers its event. Where that step does harm itself, nothing happens and
    /// none is answered: its thread has a fault, or it is the kernel's and two pending requests clash. Faults of other
    /// threads aren't looked for. Nothing happens either where memory runs out.
    pub fn advance(&mut self, item: &Item) -> Result<Option<Event>, AllocError>
        requires enabled { items.is_enabled self.old item.now ≡ true }
        requires room { self.old.made + 1 < 2 ^ 64 }
        ensures { Advances self.old item.now self.new result }
    {
        if self.does_harm(item) {
            return Ok(None);
        }
        let event = self.make(item)?;
        Ok(Some(event))
    }

    // Makes the step that the item names, which does no harm itself, and answers its event.
    fn make(&mut self, item: &Item) -> Result<Event, AllocError>
        requires enabled { items.is_enabled self.old item.now ≡ true }
        requires room { self.old.made + 1 < 2 ^ 64 }
        requires harmless { DoesNoHarm self.old item.now }
        ensures { TriesEvent result self.old self.new (λ w. item_step w item.now) }
    {
        let _ = &self.made;
        let event = match *item {
            Item::Thread { thread, take } => self.step(thread, take)?,
            Item::Kernel {
                user_data,
                res,
                fill,
            } => self.complete(user_data, res, fill)?,
        };
        Ok(event)
    }

    // Whether a thread that has this next may go on, where this is the answer of its item.
    fn is_ready(&self, take: Option<i32>, next: Next) -> bool
        ensures { result ≡ items.is_ready self.now take next }
    {
        match next {
            Next::Ready(line) => self.takes(take, line.stmt),
            Next::TakenLock(_) => false,
            Next::Ended => false,
        }
    }

    // Whether an item may bring an answer to this statement.
    fn takes(&self, take: Option<i32>, stmt: Stmt) -> bool
        ensures { result ≡ items.takes self.now take stmt }
    {
        match take {
            None => true,
            Some(number) => is_given(stmt) && self.may_be_given(number, stmt),
        }
    }

    // Whether a statement may be given this number.
    fn may_be_given(&self, number: i32, stmt: Stmt) -> bool
        ensures { result ≡ machine.may_be_given self.now number stmt }
    {
        match stmt {
            Stmt::Do(Op::Submit(_)) => self.is_take(number),
            Stmt::Do(Op::SubmitAndWait(_, _)) => self.is_take(number),
            Stmt::If(Test::Any) => is_choice(number),
            _ => true,
        }
    }

    // Whether a submit may answer this.
    fn is_take(&self, taken: i32) -> bool
        ensures { result ≡ machine.is_take self.now taken }
    {
        match usize::try_from(taken) {
            Ok(count) => count <= self.queued.len(),
            Err(_) => taken >= -4095,
        }
    }

    // The step of a thread that is given this number.
    fn step(&mut self, thread: u32, take: Option<i32>) -> Result<Event, AllocError>
        requires step { IsSome (item_step self.old (Item.Thread thread take)) }
        requires room { self.old.made + 1 < 2 ^ 64 }
        ensures { TriesEvent result self.old self.new (λ w. item_step w (Item.Thread thread take)) }
    {
        let Some(line) = self.controls.line(self.program, thread) else {
            unreachable!()
        };
        let given = self.given(take, line.stmt);
        let answer = self.answer(given, line.stmt);
        self.rings(thread, line.stmt, given)?;
        Ok(self.controls.step(self.program, thread, answer))
    }

    // The number that a statement is given: what the item says, or what is usual.
    fn given(&self, take: Option<i32>, stmt: Stmt) -> i32
        ensures { result ≡ items.given self.now take stmt }
    {
        match take {
            Some(number) => number,
            None => self.usual(stmt),
        }
    }

    // The number that a statement is given where an item says nothing.
    fn usual(&self, stmt: Stmt) -> i32
        ensures { result ≡ items.usual self.now stmt }
    {
        match stmt {
            Stmt::If(Test::Any) => 1,
            _ => self.queued.len() as i32,
        }
    }

    /// The entries of the submission ring in use: an open entry counts (`io_uring_sq_ready(3)`).
    pub fn used_entries(&self) -> usize
        ensures value { result ≡ machine.used_entries self.now }
        ensures few { result ≤ 1024 }
        ensures room { result ≤ self.now.program.entries }
    {
        let open = match self.slot {
            Slot::Closed => 0,
            Slot::Vacant => 1,
            Slot::Prepared(_) => 1,
        };
        let entries = self.program.entries();
        prove!(entries <= 1024);
        self.queued.len() + open
    }

    // What the world answers to a statement that is given this number.
    fn answer(&self, given: i32, stmt: Stmt) -> Answer
        ensures { result ≡ machine.stmt_answer self.now given stmt }
    {
        match stmt {
            Stmt::Do(Op::Load(_, buffer, i)) => self.byte(buffer, i),
            Stmt::Do(Op::Submit(_)) => Answer::Number(given),
            Stmt::Do(Op::SubmitAndWait(_, _)) => Answer::Number(given),
            Stmt::Do(Op::CqeGetData64) => self.front(),
            Stmt::Do(Op::CqeSeen) => self.front(),
            Stmt::If(Test::ReadyZero) => Answer::Number(self.used_entries() as i32),
            Stmt::If(Test::SpaceAtLeast(_)) => self.space_left(),
            Stmt::If(Test::Any) => Answer::Number(given),
            Stmt::Peek(_) => self.front(),
            _ => Answer::Plain,
        }
    }

    // How many entries are free.
    fn space_left(&self) -> Answer
        ensures { result ≡ machine.test_answer self.now (pos 0) (Test.SpaceAtLeast 0) }
    {
        let used = self.used_entries();
        Answer::Number((self.program.entries() as usize - used) as i32)
    }

    // The byte at a place of a buffer.
    fn byte(&self, buffer: usize, i: u32) -> Answer
        ensures { result ≡ machine.byte_of i (machine.bytes_of self.now buffer) }
    {
        match self.buffers.get(buffer) {
            Some(Some(bytes)) => match bytes.get(i as usize) {
                Some(byte) => Answer::Byte(byte),
                None => Answer::Plain,
            },
            _ => Answer::Plain,
        }
    }

    // The front completion.
    fn front(&self) -> Answer
        ensures { result ≡ machine.front_of self.now.completions }
    {
        match self.completions.first() {
            Some(completion) => Answer::Front(*completion),
            None => Answer::Plain,
        }
    }
}

// Buffers whose bytes are all 0.
fn zeroed(alloc: Global, buffers: &[Buffer]) -> Result<Vec<Option<Bytes>>, AllocError>
    ensures { IfOk result (λ v. v.items ≡ map (λ b. Some (replicate b.bytes 0)) buffers.now) }
{
    let mut zeroed = Vec::new(alloc);
    for buffer in buffers {
        zeroed.push(Some(Bytes::zeroed(alloc, buffer.bytes as usize)))?;
    }
    Ok(zeroed)
}

// Whether a number says something of the step of a statement.
fn is_given(stmt: Stmt) -> bool
    ensures { result ≡ items.is_given stmt }
{
    match stmt {
        Stmt::Do(Op::Submit(_)) => true,
        Stmt::Do(Op::SubmitAndWait(_, _)) => true,
        Stmt::If(Test::Any) => true,
        _ => false,
    }
}

// Whether an `if any` may be given this number.
fn is_choice(number: i32) -> bool
    ensures { result ≡ is_choice number }
{
    number == 0 || number == 1
}
