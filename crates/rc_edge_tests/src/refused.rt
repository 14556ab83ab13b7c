//! Growths that are refused. Each of these tests holds too where any one growth is refused: `ci/refused-growths` runs
//! it with each refused in turn.

ghost use Rattle.std.specs.Prelude.{◌<◌};

use crate::programs::{HANDOFF, SHARE};
use rc_admit::admitted::{Admitted, admit};
use rc_device::chooser::Seeded;
use rc_device::device::Device;
use rc_device::disk::Disk;
use rc_lang::program::Program;
use rc_lang::request::Request;
use rc_read::{ReadFault, Reader, read_program};
use rc_run::gate::OpenGate;
use rc_run::job::Job;
use rc_run::live::{Live, Turn};
use rc_run::report::{RunFault, RunReport};
use rc_run::runner::run;
use rc_world::event::{Completion, Event};
use std::alloc::{AllocError, Global};
use std::process::Abort;
use std::sync::atomic::{AtomicU64, Ordering};
use std::sync::{Arc, Wait};
use std::thread::Threads;

/// The result of a write whose bytes could not be copied (`ENOMEM`).
const STARVED: i32 = -12;

/// Whether memory ran out, of an answer that is no fault of the text.
fn is_refused<T>(rt: &impl Abort, answer: &Result<T, ReadFault>) -> bool {
    match answer {
        Ok(_) => false,
        Err(ReadFault::OutOfMemory) => true,
        Err(ReadFault::Text { line, .. }) => panic!(rt; "line {line} can't be read"),
    }
}

/// A program that is read in pieces of this length.
fn read_in_pieces(
    rt: &impl Abort,
    alloc: Global,
    text: &str,
    length: usize,
) -> Result<Program, ReadFault>
    requires { 0 < length }
{
    let mut reader = Reader::new(alloc);
    let mut refused = false;
    for piece in text.as_bytes().chunks(length) {
        let answer = is_refused(rt, &reader.feed(piece));
        assert!(rt; answer || !refused, "a refused growth is told again");
        refused = answer;
    }
    let program = reader.finish();
    assert!(rt;
        !refused || is_refused(rt, &program),
        "a refused growth is told at the end"
    );
    program
}

#[test]
fn a_reader_is_out_of_memory_from_then_on(rt: HostRuntime) {
    for length in [1, 7, 100, 1000] {
        match read_in_pieces(&rt, rt.alloc(), HANDOFF, length) {
            Ok(program) => assert_eq!(rt; program.threads().len(), 2),
            Err(fault) => assert!(rt; matches!(fault, ReadFault::OutOfMemory)),
        }
    }
}

#[test]
fn a_program_is_admitted_without_memory(rt: HostRuntime) {
    for text in [HANDOFF, SHARE] {
        match read_program(rt.alloc(), text.as_bytes()) {
            Ok(program) => {
                assert!(rt; Admitted::from_program(rt.alloc(), program).is_ok());
            }
            Err(fault) => assert!(rt; matches!(fault, ReadFault::OutOfMemory)),
        }
    }
}

fn live(alloc: Global, text: &str) -> Result<Live, AllocError> {
    let Ok(admitted) = admit(alloc, text.as_bytes()) else {
        return Err(AllocError);
    };
    let admitted = Arc::new(alloc, admitted).map_err(|_| AllocError)?;
    Live::start(alloc, admitted)
}

/// Makes a turn. Where a growth is refused nothing changes, and the same turn is made again.
fn turn(rt: &impl Abort, live: &mut Live, thread: u32) -> Turn {
    let before = (live.history().len(), live.queued());
    match live.turn(thread, 1) {
        Ok(turn) => turn,
        Err(_) => {
            assert_eq!(rt; (live.history().len(), live.queued()), before);
            match live.turn(thread, 1) {
                Ok(turn) => turn,
                Err(_) => panic!(rt; "one growth at most is refused"),
            }
        }
    }
}

/// Takes the job of the pending request. Where a growth is refused nothing changes, and the next call gives it.
fn job(rt: &impl Abort, live: &mut Live) -> Job {
    let before = (live.history().len(), live.free());
    let taken = match live.take_job(0) {
        Ok(taken) => taken,
        Err(_) => {
            assert_eq!(rt; (live.history().len(), live.free()), before);
            match live.take_job(0) {
                Ok(taken) => taken,
                Err(_) => panic!(rt; "one growth at most is refused"),
            }
        }
    };
    match taken {
        Some(job) => job,
        None => panic!(rt; "a request is pending"),
    }
}

/// Posts a job with the result of one that is starved, which another may have too.
fn posts(rt: &impl Abort, live: &mut Live, job: Job) {
    let starves = job.starved() == !job.allows(0);
    if !job.allows(STARVED) {
        job.give_up();
        panic!(rt; "an errno is allowed");
    }
    let posted = match live.post(job, STARVED) {
        Ok(()) => true,
        Err(job) => {
            job.give_up();
            false
        }
    };
    assert!(rt; posted && starves);
}

/// The events of a run in which thread 0 makes ten turns, a request completes, and both threads go on to their ends.
fn played(rt: &impl Abort, alloc: Global, text: &str) -> Result<Vec<Event>, AllocError> {
    let mut live = live(alloc, text)?;
    for _ in 0..10 {
        turn(rt, &mut live, 0);
    }
    let job = job(rt, &mut live);
    posts(rt, &mut live, job);
    for _ in 0..10 {
        turn(rt, &mut live, 0);
        turn(rt, &mut live, 1);
    }
    Ok(live.close())
}

#[test]
fn turns_and_jobs_come_again(rt: HostRuntime) {
    for (text, user_data, events) in [(HANDOFF, 7, 17), (SHARE, 9, 11)] {
        let completion = Completion {
            user_data,
            res: STARVED,
        };
        let first = played(&rt, rt.alloc(), text);
        let second = played(&rt, rt.alloc(), text);
        for history in [&first, &second] {
            if let Ok(history) = history {
                assert_eq!(rt; history.len(), events);
                assert!(rt; history.contains(&Event::ByKernel(completion)));
            }
        }
        if let (Ok(first), Ok(second)) = (&first, &second) {
            assert_eq!(rt; first.as_slice(), second.as_slice());
        }
    }
}

/// A disk that is granted everything, and counts what it serves.
#[derive(Drop)]
struct Counting {
    disk: Disk,
    served: Arc<AtomicU64, Global>,
}

impl Device for Counting {
    ghost use Rattle.std.specs.Prelude.{pos, negsuc, ◌≤ℤ◌};

    ghost gives = { λ _ res. (negsuc 4094 ≤ℤ res) × (res ≤ℤ pos 4096) };

    fn serve(&mut self, request: &Request, bytes: &mut [u8], _grant: i32) -> i32 {
        self.served.fetch_add(1, Ordering::SeqCst);
        self.disk.serve(request, bytes, 4096)
    }
}

fn is_served(event: &Event) -> bool {
    match event {
        Event::ByKernel(completion) => completion.res != STARVED,
        Event::ByThread { .. } => false,
    }
}

/// What happened in a run that ended, or for which memory ran out.
fn told(rt: &impl Abort, report: Result<RunReport, RunFault>) -> Vec<Event> {
    match report {
        Ok(report) => report.history,
        Err(RunFault::OutOfMemory(report)) => report.history,
        Err(fault) => panic!(rt; "{fault}"),
    }
}

fn run_posts_what_is_served(
    rt: &(impl Abort + Threads + Wait + Sync),
    alloc: Global,
    text: &str,
) -> Result<(), AllocError> {
    let Ok(admitted) = admit(alloc, text.as_bytes()) else {
        return Err(AllocError);
    };
    let disk = Disk::new(alloc, admitted.program())?;
    let counter = Arc::new(alloc, AtomicU64::new(0)).map_err(|_| AllocError)?;
    let served = Arc::try_clone(&counter)?;
    let device = Counting { disk, served };
    let admitted = Arc::new(alloc, admitted).map_err(|_| AllocError)?;
    let report = run(
        rt,
        alloc,
        admitted,
        device,
        Seeded::new(1),
        OpenGate,
        1000000,
    );
    let history = told(rt, report);
    let posted = history.iter().filter(|event| is_served(event)).count();
    assert_eq!(rt; posted as u64, counter.load(Ordering::SeqCst));
    Ok(())
}

#[test]
fn jobs_that_are_served_are_posted(rt: HostRuntime) {
    for text in [HANDOFF, SHARE] {
        let _ = run_posts_what_is_served(&rt, rt.alloc(), text);
    }
}
