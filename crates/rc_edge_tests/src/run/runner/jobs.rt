//! What a device is handed and granted, and when.

use super::{Flags, LastButOne, Late, prints};
use crate::run::examples::{HANDOFF, SHARE, admitted};
use rc_device::chooser::Chooser;
use rc_device::device::Device;
use rc_device::disk::Disk;
use rc_lang::request::{Kind, Request};
use rc_run::gate::{Gate, OpenGate};
use rc_run::report::RunFault;
use rc_run::runner::run;
use rc_world::event::{Completion, Event};
use std::alloc::Global;
use std::sync::Arc;
use std::test::*;

/// A thread writes from a buffer, then reads into another and prints the first of its bytes.
const WRITE_AND_READ: &str = "ringcheck 1
ring 2
file 3 64
buffer a 16 1
buffer b 16 1
token 7 read a
token 9 write b 1
thread t0 holds a:1 b:1 t:7 t:9 c:1 {
x = 6
store b 2 x
lock {
get_sqe
prep_write 3 b 8 40 1
set_data64 9
loop keeps a:1 t:7 q:1 {
r = submit
if sq_ready == 0 {
break
}
}
}
loop keeps a:1 t:7 {
lock {
peek_cqe r {
case 9 {
cqe_seen
break
}
other {
}
none {
}
}
}
}
lock {
get_sqe
prep_read 3 a 16 5
set_data64 7
loop keeps q:1 {
r = submit
if sq_ready == 0 {
break
}
}
}
loop keeps {
lock {
peek_cqe r {
case 7 {
cqe_seen
break
}
other {
}
none {
}
}
}
}
v = load a 0
print v
v = load a 1
print v
v = load a 2
print v
v = load a 3
print v
v = load a 4
print v
v = load a 5
print v
v = load a 6
print v
v = load a 7
print v
}
";

/// A disk that is granted all, and shows what it is handed: a read brings 65 and what it asks for, and then the third byte
/// of the write before and what that asked for.
#[derive(Drop)]
struct Recorder {
    disk: Disk,
    written: [u8; 4],
}

// A byte, and the lowest bytes of what a request asks for.
fn record(byte: u8, request: &Request) -> [u8; 4] {
    [
        byte,
        request.fd.to_le_bytes()[0],
        request.off.to_le_bytes()[0],
        request.len.to_le_bytes()[0],
    ]
}

fn show(bytes: &mut [u8], read: [u8; 4], written: [u8; 4]) {
    for (byte, shown) in bytes.iter_mut().zip(read.iter().chain(written.iter())) {
        *byte = *shown;
    }
}

impl Device for Recorder {
    ghost use Rattle.std.specs.Prelude.{⊤};

    ghost gives = { λ _ _. ⊤ };

    fn serve(&mut self, request: &Request, bytes: &mut [u8], _grant: i32) -> i32 {
        let res = self.disk.serve(request, bytes, 4096);
        let moved = &mut bytes[..request.len as usize];
        match request.kind {
            Kind::Nop => {}
            Kind::Fsync => {}
            Kind::Other => {}
            Kind::Read => show(moved, record(65, request), self.written),
            Kind::Write => {
                self.written = record(moved.get(2).copied().unwrap_or(0), request);
            }
        }
        res
    }
}

#[test]
fn a_device_is_handed_the_request_and_its_bytes(rt: HostRuntime) -> Result<(), Fail> {
    let alloc = rt.alloc();
    for (text, printed) in [
        (HANDOFF, [65].as_slice()),
        (WRITE_AND_READ, [65, 3, 5, 16, 6, 3, 40, 8].as_slice()),
    ] {
        let admitted = admitted(alloc, text)?;
        let device = Recorder {
            disk: Disk::new(alloc, admitted.program())?,
            written: [0; 4],
        };
        let report = run(&rt, alloc, admitted, device, LastButOne, OpenGate, 1000000)
            .ok()
            .ok_or("ends")?;
        assert_eq!(rt; prints(alloc, &report.history)?.as_slice(), printed);
    }
    Ok(())
}

/// A thread prints which branch of a free choice it took, and what came of a request without a buffer.
const CHOICE: &str = "ringcheck 5
ring 1 left 1
token 4 other
thread t0 holds t:4 c:1 {
lock {
get_sqe
prep_other
set_data64 4
loop keeps q:1 {
r = submit
if sq_ready == 0 {
break
}
}
}
if any {
x = 1
} else {
x = 2
}
print x
loop keeps {
lock {
peek_cqe r {
case 4 {
cqe_seen
print r
break
}
other {
}
none {
}
}
}
}
}
";

/// Picks this one of two, and the last but one of more.
#[derive(Drop)]
struct OfTwo(u32);

impl Chooser for OfTwo {
    fn pick(&mut self, n: u32) -> u32 {
        if n == 2 {
            self.0.min(1)
        } else {
            n.saturating_sub(2)
        }
    }
}

#[test]
fn a_free_choice_and_the_result_of_any_request_are_chosen(rt: HostRuntime) -> Result<(), Fail> {
    let alloc = rt.alloc();
    for (picked, printed) in [(1, [1, 4096]), (0, [2, 4096])] {
        let admitted = admitted(alloc, CHOICE)?;
        let disk = Disk::new(alloc, admitted.program())?;
        let report = run(&rt, alloc, admitted, disk, OfTwo(picked), OpenGate, 1000000)
            .ok()
            .ok_or("ends")?;
        assert_eq!(rt;
            prints(alloc, &report.history)?.as_slice(),
            printed.as_slice()
        );
    }
    Ok(())
}

fn completed(history: &[Event], user_data: u64, res: i32) -> bool {
    history.contains(&Event::ByKernel(Completion { user_data, res }))
}

/// Holds turn 7 until a device serves.
#[derive(Drop)]
struct UntilServed(Arc<Flags, Global>);

impl Gate for UntilServed {
    fn pass(&self, _thread: u32, turn: u64) {
        if turn == 7 {
            self.0.wait_for(&self.0.first);
        }
    }

    fn answered(&self, _thread: u32, turn: u64) {
        if turn == 7 {
            self.0.raise(&self.0.second);
        }
    }
}

/// A disk that is always granted 5, and serves once turn 7 is answered.
#[derive(Drop)]
struct Slow {
    disk: Disk,
    flags: Arc<Flags, Global>,
}

impl Device for Slow {
    ghost use Rattle.std.specs.Prelude.{pos, negsuc, ◌≤ℤ◌};

    ghost gives = { λ _ res. (negsuc 4094 ≤ℤ res) × (res ≤ℤ pos 4096) };

    fn serve(&mut self, request: &Request, bytes: &mut [u8], _grant: i32) -> i32 {
        self.flags.meet(&self.flags.first, &self.flags.second);
        self.disk.serve(request, bytes, 5)
    }
}

#[test]
fn run_starves_every_job(rt: HostRuntime) -> Result<(), Fail> {
    let alloc = rt.alloc();
    let flags = Arc::new(alloc, Flags::new())?;
    let admitted = admitted(alloc, SHARE)?;
    let device = Slow {
        disk: Disk::new(alloc, admitted.program())?,
        flags: Arc::try_clone(&flags)?,
    };
    let gate = UntilServed(Arc::try_clone(&flags)?);
    let report = run(&rt, alloc, admitted, device, LastButOne, gate, 1000000)
        .ok()
        .ok_or("ends")?;
    assert!(rt; flags.met());
    assert!(rt; completed(&report.history, 9, 5));
    Ok(())
}

/// A thread that submits four requests at once, with turn 15.
const FOUR: &str = "ringcheck 1
ring 4
token 1 nop
token 2 nop
token 3 nop
token 4 nop
thread t0 holds t:1 t:2 t:3 t:4 c:4 {
lock {
get_sqe
prep_nop
set_data64 1
get_sqe
prep_nop
set_data64 2
get_sqe
prep_nop
set_data64 3
get_sqe
prep_nop
set_data64 4
loop keeps q:4 {
r = submit
if sq_ready == 0 {
break
}
}
}
}
";

/// Takes four entries at once, serves the third of the free requests, and raises a flag at the second grant.
#[derive(Drop)]
struct Third {
    flags: Arc<Flags, Global>,
    grants: u32,
}

impl Chooser for Third {
    fn pick(&mut self, n: u32) -> u32 {
        match n {
            6 => 4,
            8 => {
                self.grants = self.grants.saturating_add(1);
                if self.grants == 2 {
                    self.flags.raise(&self.flags.second);
                }
                7
            }
            65536 => 2,
            _ => 0,
        }
    }
}

/// Holds turn 16 until two jobs are out.
#[derive(Drop)]
struct UntilTwo(Arc<Flags, Global>);

impl Gate for UntilTwo {
    fn pass(&self, _thread: u32, turn: u64) {
        if turn == 16 {
            self.0.wait_for(&self.0.second);
        }
    }

    fn answered(&self, _thread: u32, turn: u64) {
        if turn == 16 {
            self.0.raise(&self.0.first);
        }
    }
}

#[test]
fn jobs_that_are_out_at_the_limit_are_posted(rt: HostRuntime) -> Result<(), Fail> {
    let alloc = rt.alloc();
    let flags = Arc::new(alloc, Flags::new())?;
    let admitted = admitted(alloc, FOUR)?;
    let device = Late {
        disk: Disk::new(alloc, admitted.program())?,
        flags: Arc::try_clone(&flags)?,
    };
    let chooser = Third {
        flags: Arc::try_clone(&flags)?,
        grants: 0,
    };
    let gate = UntilTwo(Arc::try_clone(&flags)?);
    match run(&rt, alloc, admitted, device, chooser, gate, 16) {
        Err(RunFault::Limit(report)) => {
            assert!(rt; flags.met());
            assert!(rt; completed(&report.history, 3, 0) && completed(&report.history, 4, 0));
            assert_eq!(rt; report.turns.as_slice(), [16u64].as_slice());
            assert_eq!(rt; report.posts.as_slice(), [1u64, 1].as_slice());
        }
        Err(_fault) => return Err("another fault".into()),
        Ok(_report) => return Err("ends".into()),
    }
    Ok(())
}
