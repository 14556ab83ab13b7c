//! Where a run is: the threads, the rings with their entry bytes, the requests in the kernel, and the buffers.

ghost use Rattle.std.specs.Prelude.{◌≡◌, ◌+◌, ◌<◌, ◌^◌, IfOk, IsSome, OnErr, OnOk, Some, map, replicate};
ghost use Rattle.std.specs.Arc.{arc_value};
ghost use Rattle.rc_lang.specs.Kept.{IsProgram};
ghost use Rattle.rc_world.specs.Items.{next_of};
ghost use Rattle.rc_world.specs.Kept.{IsKept};
ghost use Rattle.rc_world.specs.Machine as machine;
ghost use Rattle.rc_run.specs.Machine.{IsClosedAt, IsFreshAt, IsSameRest, IsSized, Stepped, control_step, datasync_by, given_by_take, next_line_of, submit_answer, views, world_of};

mod jobs;
mod rings;

use crate::request_ring::RequestRing;
use rc_admit::admitted::Admitted;
use rc_lang::lines::{Line, Op, Stmt, Test};
use rc_lang::program::{Buffer, Program};
use rc_lang::request::Request;
use rc_world::controls::{Answer, Controls, Next};
use rc_world::event::Event;
use std::alloc::{AllocError, Global};
use std::sync::Arc;

/// A request in the kernel, and with a read the bytes of its buffer.
#[derive(Drop)]
pub struct Pending {
    pub request: Request,
    pub bytes: Option<Vec<u8>>,
}

/// Where a run is.
#[derive(Drop)]
pub struct Machine {
    pub admitted: Arc<Admitted, Global>,
    pub controls: Controls,
    pub ring: RequestRing,
    pub pending: Vec<Pending>,
    pub completed: Vec<Request>,
    // The bytes of each buffer; none while a pending read fills it.
    pub buffers: Vec<Option<Vec<u8>>>,
}

impl Machine {
    /// Where each run of the program starts.
    pub fn start(alloc: Global, admitted: Arc<Admitted, Global>) -> Result<Machine, AllocError>
        ensures start { IfOk result (λ m. world_of m ≡ machine.start_world (arc_value admitted)) }
        ensures sized { IfOk result IsSized }
    {
        let program = admitted.program();
        let controls = Controls::start(alloc, program)?;
        let ring = RequestRing::new(alloc, program.entries(), program.completion_entries())?;
        let buffers = zeroed(alloc, program.buffers())?;
        Ok(Machine {
            admitted,
            controls,
            ring,
            pending: Vec::new(alloc),
            completed: Vec::new(alloc),
            buffers,
        })
    }

    /// The program that runs.
    pub fn program(&self) -> &Program
        ensures value { result.now ≡ arc_value self.now.admitted }
        ensures made { IsProgram (arc_value self.now.admitted) }
    {
        let program = self.admitted.program();
        let _made = program.entries();
        program
    }

    /// What the thread has next.
    #[inline(always)]
    pub fn next(&self, thread: u32) -> Next
        ensures { result ≡ next_of (arc_value self.now.admitted) self.now.controls thread }
    {
        self.controls.next(self.admitted.program(), thread)
    }

    /// The step of the thread, whose next line this is, that is given this.
    pub fn step(&mut self, thread: u32, line: Line, given: i32) -> Result<Event, AllocError>
        requires line { next_line_of self.old thread ≡ Some line }
        requires kept { IsKept (world_of self.old) }
        requires sized { IsSized self.old }
        requires step { IsSome (machine.thread_step (world_of self.old) thread given) }
        requires suits { IsClosedAt self.old.ring.slot line.stmt }
        requires fresh { IsFreshAt (world_of self.old) line.stmt }
        requires room { self.old.ring.made + 1 < 2 ^ 64 }
        ensures ok { IfOk result (λ e. Stepped self.old thread given e self.new) }
        ensures err { OnErr result (world_of self.new ≡ world_of self.old) }
        ensures flag_kept { OnErr result (self.new.ring.datasync ≡ self.old.ring.datasync) }
        ensures flag { OnOk result
            (self.new.ring.datasync ≡ datasync_by line.stmt self.old.ring.datasync) }
        ensures rest { IsSameRest self.old self.new }
    {
        let answer = self.answer(given, line.stmt);
        self.rings(thread, line.stmt, given)?;
        Ok(self.advance(thread, answer))
    }

    // The step of a thread in its controls.
    fn advance(&mut self, thread: u32, answer: Answer) -> Event
        requires { IsSome (control_step self.old thread answer) }
        ensures step { control_step self.old thread answer ≡ Some (result, self.new.controls) }
        ensures rest { self.new ≡ record self.old { controls = self.new.controls } }
    {
        match self
            .controls
            .advance(self.admitted.program(), thread, answer)
        {
            Ok(event) => event,
            Err(_) => unreachable!(),
        }
    }

    /// What the step of a statement is given in a turn with this take.
    pub fn given(&self, stmt: Stmt, take: i32) -> i32
        ensures { result ≡ given_by_take (world_of self.now) take stmt }
    {
        match stmt {
            Stmt::If(Test::Any) => i32::from(take != 0),
            _ => self.taken(take),
        }
    }

    // What a submit that is granted this answers.
    fn taken(&self, take: i32) -> i32
        ensures { result ≡ submit_answer (world_of self.now) take }
    {
        match u32::try_from(take) {
            Ok(count) => count.min(self.ring.queued()) as i32,
            Err(_) => take,
        }
    }

    // What the world answers to a statement that is given this.
    fn answer(&self, given: i32, stmt: Stmt) -> Answer
        requires { IsSized self.now }
        ensures { result ≡ machine.stmt_answer (world_of self.now) given stmt }
    {
        match stmt {
            Stmt::Do(Op::Load(_, buffer, i)) => self.byte(buffer, i),
            Stmt::Do(Op::Submit(_)) => Answer::Number(given),
            Stmt::Do(Op::SubmitAndWait(_, _)) => Answer::Number(given),
            Stmt::Do(Op::CqeGetData64) => self.front(),
            Stmt::Do(Op::CqeSeen) => self.front(),
            Stmt::If(test) => self.test_answer(given, test),
            Stmt::Peek(_) => self.front(),
            _ => Answer::Plain,
        }
    }

    // What the world answers to a test that is given this.
    fn test_answer(&self, given: i32, test: Test) -> Answer
        requires { IsSized self.now }
        ensures { result ≡ machine.test_answer (world_of self.now) given test }
    {
        let entries = self.program().entries();
        match test {
            Test::ReadyZero => Answer::Number(self.ring.used() as i32),
            Test::SpaceAtLeast(_) => Answer::Number((entries - self.ring.used()) as i32),
            Test::Any => Answer::Number(given),
            Test::Compare(_, _, _) | Test::Take(_, _) => Answer::Plain,
        }
    }

    // The byte at a place of a buffer.
    fn byte(&self, buffer: usize, i: u32) -> Answer
        ensures { result ≡ machine.byte_of i (machine.bytes_of (world_of self.now) buffer) }
    {
        match self.buffers.get(buffer) {
            Some(Some(bytes)) => match bytes.get(i as usize) {
                Some(byte) => Answer::Byte(*byte),
                None => Answer::Plain,
            },
            _ => Answer::Plain,
        }
    }

    // The front completion.
    fn front(&self) -> Answer
        ensures { result ≡ machine.front_of self.now.ring.completions }
    {
        match self.ring.front() {
            Some(completion) => Answer::Front(completion),
            None => Answer::Plain,
        }
    }
}

// Buffers whose bytes are all 0.
fn zeroed(alloc: Global, buffers: &[Buffer]) -> Result<Vec<Option<Vec<u8>>>, AllocError>
    ensures { IfOk result (λ v. views v ≡ map (λ b. Some (replicate b.bytes 0)) buffers.now) }
{
    let mut zeroed = Vec::new(alloc);
    for buffer in buffers {
        let bytes = vec![in alloc; 0u8; buffer.bytes as usize]?;
        zeroed.push(Some(bytes)).map_err(|_| AllocError)?;
    }
    Ok(zeroed)
}
