//! The sentence that says why there is a fault.

use crate::courses::{Course, Stage};
use crate::fault::{Blame, call_of};
use crate::frames::is_got;
use crate::run::{BOTH, Run, Touch, Turn, Verb, touch_of};
use crate::sentence::Part::{self, Name, Number, Put, Requests, Since, There, Word};
use crate::sentence::{Naming, Sentence, Why};
use crate::stocks::Over;
use rc_lang::lines::{Op, Stmt, Test};
use rc_text::names::{buffer_name, side_of, thread_name};
use rc_world::controls::Look;
use rc_world::fault::FaultKind;
use rc_world::world::Slot;
use std::alloc::{AllocError, Global};

/// The sentence that says why there is a fault.
pub fn why_of(
    alloc: Global,
    run: &Run<'_, '_>,
    courses: &[Course],
    over: &[Over],
    blame: Blame,
) -> Result<Why, AllocError> {
    let mut sentence = Sentence::new(alloc, run.program);
    let to = &mut sentence;
    let found = found_in(alloc, courses)?;
    let completed = completed_in(alloc, run, courses)?;
    let culprit = Word(run.lane_name(run.fault_lane()));
    if let Some(fault) = run.fault {
        match fault.kind {
            FaultKind::WriteOfPending | FaultKind::ReadOfFilling => {
                say_touched(to, run, culprit, &found);
            }
            FaultKind::ThreadRace => say_race(to, run, culprit),
            FaultKind::KernelClash => say_clash(to, run, &found),
            FaultKind::RingFull => say_full(to, run, culprit, &found),
            FaultKind::Overflow => say_overflow(to, run, &found, &completed),
            FaultKind::AmbiguousData => say_ambiguous(to, culprit, &found),
            FaultKind::UnknownReap => say_unknown(to, run, culprit),
            FaultKind::NoLock => say_no_lock(to, run, culprit, blame),
            FaultKind::RawEntry => say_raw(to, run, culprit, &found),
            FaultKind::OutOfBuffer => say_out(to, run, culprit),
            FaultKind::DoublePut => say_double(to, run, culprit, over),
        }
    }
    sentence.why()
}

/// The requests at fault.
fn found_in(alloc: Global, courses: &[Course]) -> Result<Vec<Course>, AllocError> {
    let mut found = Vec::new(alloc);
    for course in courses {
        if course.is_at_fault {
            found.push(*course)?;
        }
    }
    Ok(found)
}

/// The requests whose completions are in the ring, from its front. One that is got has none.
fn completed_in(
    alloc: Global,
    run: &Run<'_, '_>,
    courses: &[Course],
) -> Result<Vec<Course>, AllocError> {
    let mut found = Vec::new(alloc);
    let first = usize::from(is_got(run.world));
    for completion in run.world.completions().get(first..).unwrap_or(&[]) {
        for course in courses {
            if course.stage == Stage::Completed && course.user_data == completion.user_data {
                found.push(*course)?;
            }
        }
    }
    Ok(found)
}

/// What is done with a buffer, and the buffer's name.
fn touch_words<'a>(run: &Run<'_, 'a>, touch: Option<Touch>) -> [Part<'a>; 2] {
    let Some(Touch { verb, buffer }) = touch else {
        return [Word(b""); 2];
    };
    let verb = match verb {
        Verb::Load => Word(b"load from"),
        Verb::Store => Word(b"store to"),
        Verb::Fill => Word(b"fill"),
    };
    [verb, Word(buffer_name(run.program, buffer))]
}

/// F1 and F2.
fn say_touched(to: &mut Sentence<'_>, run: &Run<'_, '_>, culprit: Part<'_>, found: &[Course]) {
    let [verb, buffer] = touch_words(run, run.fault_touch());
    let does = match found.first() {
        Some(course) if course.is_read() => Word(b"fills"),
        _ => Word(b"still reads"),
    };
    to.say(b"{} is about to {} {}, and ", &[culprit, verb, buffer]);
    to.say(
        b"the kernel {} it: {}.",
        &[does, Requests(found, Naming::Long)],
    );
}

/// F3: what two requests do that clash.
fn say_clash(to: &mut Sentence<'_>, run: &Run<'_, '_>, found: &[Course]) {
    let [first, second, ..] = found else {
        return;
    };
    let buffer = match first.buffer() {
        Some(buffer) => Word(buffer_name(run.program, buffer)),
        None => Word(b""),
    };
    to.say(
        b"Two pending requests name {}: {}, and {}.",
        &[
            buffer,
            Requests(&[*first], Naming::Long),
            Requests(&[*second], Naming::Long),
        ],
    );
}

/// F4.
fn say_race(to: &mut Sentence<'_>, run: &Run<'_, '_>, culprit: Part<'_>) {
    let Some(rival) = run.rival else {
        return;
    };
    let [verb, buffer] = touch_words(run, run.fault_touch());
    let [other, _] = touch_words(run, touch_of(rival.stmt));
    let rival = Word(thread_name(run.program, rival.thread));
    to.say(
        b"{} is about to {} {}, and {} is about to {} it: nothing says which comes first.",
        &[culprit, verb, buffer, rival, other],
    );
}

/// F5.
fn say_full(to: &mut Sentence<'_>, run: &Run<'_, '_>, culprit: Part<'_>, found: &[Course]) {
    let entries = Number(u64::from(run.program.entries()));
    to.say(
        b"{} is about to get_sqe, and the submission ring is full, ",
        &[culprit],
    );
    to.say(
        b"{} of {}: {}.",
        &[entries, entries, Requests(found, Naming::Entry)],
    );
}

/// F6.
fn say_overflow(to: &mut Sentence<'_>, run: &Run<'_, '_>, found: &[Course], completed: &[Course]) {
    let entries = Number(u64::from(run.program.completion_entries()));
    to.say(
        b"{}, and the completion ring is full, ",
        &[Requests(found, Naming::First)],
    );
    to.say(b"{} of {}: ", &[entries, entries]);
    match (is_got(run.world), completed.is_empty()) {
        (true, true) => to.say(b"the front one is got and not seen.", &[]),
        (true, false) => to.say(
            b"the front one is got and not seen, {}.",
            &[Requests(completed, Naming::Short)],
        ),
        (false, _) => to.say(b"{}.", &[Requests(completed, Naming::Short)]),
    }
}

/// F7.
fn say_ambiguous(to: &mut Sentence<'_>, culprit: Part<'_>, found: &[Course]) {
    if let Some(course) = found.first() {
        let data = Number(course.user_data);
        to.say(b"{} is about to queue an entry as ", &[culprit]);
        to.say(b"{}, and request {} is in flight: ", &[data, data]);
        to.say(b"{}, ", &[Name(course)]);
        to.say(b"{}.", &[Since(course)]);
    }
}

/// F8.
fn say_unknown(to: &mut Sentence<'_>, run: &Run<'_, '_>, culprit: Part<'_>) {
    let held = if run.has_sides {
        Word(b" has the lock cq,")
    } else {
        Word(b"")
    };
    let does: &[u8] = match run.culprit {
        Some(
            Turn {
                stmt: Stmt::Do(Op::CqeGetData64),
                ..
            },
        ) => b"get the user data of a completion",
        _ => b"take a completion away",
    };
    let lacks: &[u8] = match run.world.look() {
        Look::Unseen => b"has peeked at none",
        Look::Peeked | Look::Got => b"its request is reaped already",
    };
    to.say(
        b"{}{} is about to {}, and {}.",
        &[culprit, held, Word(does), Word(lacks)],
    );
}

/// F9.
fn say_no_lock(to: &mut Sentence<'_>, run: &Run<'_, '_>, culprit: Part<'_>, blame: Blame) {
    let called = match run.culprit {
        Some(
            Turn {
                stmt: Stmt::Put(_, _) | Stmt::If(Test::Take(_, _)),
                ..
            },
        ) => Word(b"pool"),
        _ => Word(b"ring"),
    };
    let lacked = Word(side_of(blame.lacked).as_bytes());
    to.say(
        b"{} is about to make a call on the {} without the lock{}: ",
        &[culprit, called, lacked],
    );
    let holders = run.world.holders();
    let (sq, cq) = (holder(run, holders.sq), holder(run, holders.cq));
    if blame.lacked == BOTH && holders.sq != holders.cq {
        to.say(b"{} has sq, and {} has cq.", &[sq, cq]);
    } else {
        let holder = if blame.lacked.sq { sq } else { cq };
        to.say(b"{} has it.", &[holder]);
    }
}

/// The name of the thread that has a lock.
fn holder<'a>(run: &Run<'_, 'a>, thread: Option<u32>) -> Part<'a> {
    match thread {
        Some(thread) => Word(thread_name(run.program, thread)),
        None => Word(b"nobody"),
    }
}

/// F10.
fn say_raw(to: &mut Sentence<'_>, run: &Run<'_, '_>, culprit: Part<'_>, found: &[Course]) {
    let Some(Turn { stmt, .. }) = run.culprit else {
        return;
    };
    let call: &[u8] = match stmt {
        Stmt::Do(op) => call_of(op),
        Stmt::EndLock(_, locks) if locks == BOTH => b"release the lock",
        Stmt::EndLock(_, _) => b"release the lock sq",
        Stmt::Break(_, locks, _) if locks == BOTH => b"break out of the lock",
        Stmt::Break(_, _, _) => b"break out of the lock sq",
        _ => b"",
    };
    to.say(b"{} is about to {}, and ", &[culprit, Word(call)]);
    match (run.world.slot(), found.first()) {
        (Slot::Vacant, Some(course)) => {
            to.say(b"the open entry is vacant: {}.", &[Since(course)]);
        }
        (Slot::Prepared(_), Some(course)) => {
            let form = b"the open entry is prepared and not queued: {}.";
            to.say(form, &[Since(course)]);
        }
        _ => to.say(b"no entry is open.", &[]),
    }
}

/// F11.
fn say_out(to: &mut Sentence<'_>, run: &Run<'_, '_>, culprit: Part<'_>) {
    let Some(Turn { stmt, .. }) = run.culprit else {
        return;
    };
    let (form, number, buffer): (&[u8], u32, usize) = match stmt {
        Stmt::Do(Op::Load(_, buffer, i)) => (
            b"load byte {} of {}, which has {} bytes, the first at 0.",
            i,
            buffer,
        ),
        Stmt::Do(Op::Store(buffer, i, _)) => (
            b"store byte {} of {}, which has {} bytes, the first at 0.",
            i,
            buffer,
        ),
        Stmt::Do(Op::PrepRead(_, buffer, len, _) | Op::PrepWrite(_, buffer, len, _, _)) => {
            (b"prepare {} bytes of {}, which has {}.", len, buffer)
        }
        _ => return,
    };
    let name = Word(buffer_name(run.program, buffer));
    let bytes = Number(u64::from(run.program.bytes_at(buffer)));
    to.say(b"{} is about to ", &[culprit]);
    to.say(form, &[Number(u64::from(number)), name, bytes]);
}

/// F12.
fn say_double(to: &mut Sentence<'_>, run: &Run<'_, '_>, culprit: Part<'_>, over: &[Over]) {
    let have = if run.program.pools().is_empty() {
        Word(b"the pool has")
    } else {
        Word(b"the pools have")
    };
    to.say(b"{} is about to put ", &[culprit]);
    to.say(b"{}, and {} {}.", &[Put(over), have, There(over)]);
}
