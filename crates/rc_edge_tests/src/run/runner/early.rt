//! Requests that are reaped before their completions are seen, and tokens of several kinds.

use super::{LastButOne, prints};
use crate::run::examples::admitted;
use rc_device::disk::Disk;
use rc_run::gate::OpenGate;
use rc_run::runner::run;
use rc_world::event::{Action, Event};
use std::alloc::{AllocError, Global};
use std::test::*;

/// A thread reads into a buffer, and writes from it under the same token before the completion of the read is seen.
const EARLY: &str = "ringcheck 5
ring 2 left 2
file 3 64
buffer a 16 1
token 1 read a or write a 1
thread t0 holds a:1 t:1 c:2 {
lock {
get_sqe
prep_read 3 a 16 0
set_data64 1
loop keeps c:1 {
r = submit
if sq_ready == 0 {
break
}
}
}
loop keeps c:1 {
lock {
peek_cqe r {
case 1 {
cqe_get_data64
print r
x = 6
store a 2 x
get_sqe
prep_write 3 a 8 40 1
set_data64 1
cqe_seen
break
}
other {
}
none {
}
}
}
}
lock {
loop keeps c:1 {
r = submit
if sq_ready == 0 {
break
}
}
}
loop keeps c:1 {
lock {
peek_cqe r {
case 1 {
cqe_get_data64
print r
cqe_seen
break
}
other {
}
none {
}
}
}
}
}
";

/// A thread makes a nop and another request without a buffer under one token, one after the other.
const EITHER: &str = "ringcheck 5
ring 1 left 1
token 4 nop or other
thread t0 holds t:4 c:1 {
lock {
get_sqe
prep_nop
set_data64 4
loop keeps {
r = submit
if sq_ready == 0 {
break
}
}
}
loop keeps {
lock {
peek_cqe r {
case 4 {
cqe_seen
print r
break
}
other {
}
none {
}
}
}
}
lock {
get_sqe
prep_other
set_data64 4
loop keeps {
r = submit
if sq_ready == 0 {
break
}
}
}
loop keeps {
lock {
peek_cqe r {
case 4 {
cqe_get_data64
cqe_seen
print r
break
}
other {
}
none {
}
}
}
}
}
";

/// A letter for each time that a request is queued, that a completion's user data is got, and that one is seen.
fn letters(alloc: Global, history: &[Event]) -> Result<Vec<u8>, AllocError> {
    let mut letters = Vec::new(alloc);
    for event in history {
        if let Event::ByThread { action, .. } = event
            && let Some(letter) = letter_of(*action)
        {
            letters.push(letter)?;
        }
    }
    Ok(letters)
}

fn letter_of(action: Action) -> Option<u8> {
    match action {
        Action::DataSet(_) => Some(b'q'),
        Action::DataGot(_) => Some(b'g'),
        Action::Reaped(_) => Some(b's'),
        _ => None,
    }
}

#[test]
fn a_request_is_made_again_before_its_completion_is_seen(rt: HostRuntime) -> Result<(), Fail> {
    let alloc = rt.alloc();
    for (text, done, printed) in [
        (EARLY, b"qgqsgs".as_slice(), [16, 8].as_slice()),
        (EITHER, b"qsqgs".as_slice(), [0, 4096].as_slice()),
    ] {
        let admitted = admitted(alloc, text)?;
        let disk = Disk::new(alloc, admitted.program())?;
        let report = run(&rt, alloc, admitted, disk, LastButOne, OpenGate, 1000000)
            .ok()
            .ok_or("ends")?;
        assert_eq!(rt; letters(alloc, &report.history)?.as_slice(), done);
        assert_eq!(rt; prints(alloc, &report.history)?.as_slice(), printed);
    }
    Ok(())
}
