//! The mutexes that guard the ring.

use crate::lines::{put_closing, put_event, put_line, put_source};
use crate::place::Place;
use rc_lang::lines::{Locks, Stmt};
use rc_lang::program::{Program, Thread};
use std::alloc::AllocError;

/// Which mutexes a program has for the ring.
#[derive(Clone, Copy)]
pub enum Guards {
    /// One for all calls.
    Ring,
    /// One for each side, in a model that takes one without the other.
    Sides,
}

impl Guards {
    /// Those of a program.
    pub fn of(program: &Program) -> Guards {
        if program.threads().iter().any(|thread| takes_a_side(thread)) {
            Guards::Sides
        } else {
            Guards::Ring
        }
    }
}

/// Whether a thread takes the lock of one side without the other.
fn takes_a_side(thread: &Thread) -> bool {
    thread.lines.iter().any(
        |line| matches!(line.stmt, Stmt::Lock(takes) if !(takes.sq && takes.cq)),
    )
}

/// The name of a lock after `lock` and `release` in a trace.
fn name(locks: Locks) -> &'static [u8] {
    match (locks.sq, locks.cq) {
        (true, false) => b" sq\"",
        (false, true) => b" cq\"",
        _ => b"\"",
    }
}

/// Adds a call of a mutex.
pub fn put_mutex(
    text: &mut Vec<u8>,
    place: Place<'_>,
    call: &[u8],
    mutex: &[u8],
) -> Result<(), AllocError> {
    let number = place.decimal(u64::from(place.number))?;
    put_line(
        text,
        place,
        &[
            b"MUST(",
            &number,
            b", pthread_mutex_",
            call,
            b"(&",
            mutex,
            b"));",
        ],
    )
}

/// Adds a call of a mutex, or nothing.
fn put_mutex_if(
    text: &mut Vec<u8>,
    place: Place<'_>,
    is_wanted: bool,
    call: &[u8],
    mutex: &[u8],
) -> Result<(), AllocError> {
    if is_wanted {
        put_mutex(text, place, call, mutex)
    } else {
        Ok(())
    }
}

/// Adds that mutexes are locked, that of the completion side first: so no two threads wait for each other.
fn put_locked(text: &mut Vec<u8>, place: Place<'_>, takes: Locks) -> Result<(), AllocError> {
    match place.guards {
        Guards::Ring => put_mutex(text, place, b"lock", b"ring_lock"),
        Guards::Sides => {
            put_mutex_if(text, place, takes.cq, b"lock", b"cq_lock")?;
            put_mutex_if(text, place, takes.sq, b"lock", b"sq_lock")
        }
    }
}

/// Adds that locks are taken. Who has the completion side sees what completed.
pub fn put_lock(text: &mut Vec<u8>, place: Place<'_>, takes: Locks) -> Result<(), AllocError> {
    put_source(text, place)?;
    put_locked(text, place, takes)?;
    put_event(text, place, &[b"lock", name(takes)])?;
    put_seen_if(text, place, takes.cq)?;
    put_line(text, place, &[b"{"])
}

fn put_seen_if(text: &mut Vec<u8>, place: Place<'_>, is_seen: bool) -> Result<(), AllocError> {
    if is_seen {
        put_line(text, place, &[b"SEE_COMPLETIONS();"])
    } else {
        Ok(())
    }
}

/// Adds that completions are seen after a submit. Where the completion side has a mutex of its own, the thread may not
/// have it.
pub fn put_seen_after_submit(text: &mut Vec<u8>, place: Place<'_>) -> Result<(), AllocError> {
    put_seen_if(text, place, matches!(place.guards, Guards::Ring))
}

/// Adds that locks are released, if any.
pub fn put_unlock(text: &mut Vec<u8>, place: Place<'_>, releases: Locks) -> Result<(), AllocError> {
    match place.guards {
        Guards::Ring => {
            let is_held = releases.sq || releases.cq;
            put_mutex_if(text, place, is_held, b"unlock", b"ring_lock")
        }
        Guards::Sides => {
            put_mutex_if(text, place, releases.sq, b"unlock", b"sq_lock")?;
            put_mutex_if(text, place, releases.cq, b"unlock", b"cq_lock")
        }
    }
}

/// Adds the end of a lock.
pub fn put_end_lock(
    text: &mut Vec<u8>,
    place: Place<'_>,
    releases: Locks,
) -> Result<(), AllocError> {
    put_closing(text, place)?;
    put_event(text, place, &[b"release", name(releases)])?;
    put_unlock(text, place, releases)
}
