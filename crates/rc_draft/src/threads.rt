//! The code of each thread.

use crate::guards::Guards;
use crate::loop_form::looped;
use crate::marks::number_of;
use crate::names::own_name;
use crate::source::Source;
use crate::structure::structured;
use crate::walks::{Walk, Walks};
use crate::work::Body;
use rc_machine::groups::machines;
use rc_machine::machine::Machines;
use rc_replay::replayed::{Holding, Replayed, Thread};
use rc_text::text::put_pieces;
use std::alloc::{AllocError, Global};

/// How many pieces the code of a thread has at most that isn't one loop.
const MOST_PIECES: usize = 200;

/// The code of a thread, and what goes around it.
#[derive(Drop)]
pub struct Drawn {
    pub body: Body,
    /// How many credits it has besides those of its tokens.
    pub spare: u32,
    /// Whether entries may stay queued where it releases the lock.
    pub has_left: bool,
    /// Whether all that it does is one loop, as its orders are too many.
    pub is_looped: bool,
}

/// What is drafted: the logs, and whether all threads get the loop form.
#[derive(Clone, Copy)]
pub struct Given<'a> {
    pub alloc: Global,
    pub replayed: &'a Replayed,
    pub is_looped: bool,
}

/// The code of the threads whose code isn't one loop: written from machines that tell apart which requests are out, and
/// where that is too long from machines that don't.
pub fn bodies_of(given: Given<'_>) -> Result<Vec<Option<Body>>, AllocError> {
    let mut bodies = no_bodies(given)?;
    if !given.is_looped {
        write_bodies(given, &mut bodies, true)?;
        write_bodies(given, &mut bodies, false)?;
    }
    Ok(bodies)
}

/// The threads that have no code yet: theirs is one loop.
pub fn walks_of<'a>(given: Given<'a>, bodies: &[Option<Body>]) -> Result<Walks<'a>, AllocError> {
    let mut walks = Walks::new(given.alloc);
    for (number, thread) in given.replayed.threads.iter().enumerate() {
        match bodies.get(number) {
            Some(None) => walks.add(loop_source(given, thread))?,
            _ => walks.pass()?,
        }
    }
    Ok(walks)
}

/// The code of all threads.
pub fn drawn_threads(
    given: Given<'_>,
    bodies: Vec<Option<Body>>,
    mut walks: Walks<'_>,
) -> Result<Vec<Drawn>, AllocError> {
    let mut drawn = Vec::new(given.alloc);
    for (number, body) in bodies.into_iter().enumerate() {
        let one = drawn_thread(given, number_of(number), body, walks.take(number))?;
        drawn.push(one).map_err(AllocError::from)?;
    }
    Ok(drawn)
}

fn no_bodies(given: Given<'_>) -> Result<Vec<Option<Body>>, AllocError> {
    let mut bodies = Vec::new(given.alloc);
    for _ in &given.replayed.threads {
        bodies.push(None).map_err(AllocError::from)?;
    }
    Ok(bodies)
}

// Writes the code of the threads that have none yet.
fn write_bodies(
    given: Given<'_>,
    bodies: &mut Vec<Option<Body>>,
    has_outs: bool,
) -> Result<(), AllocError> {
    if !has_none(bodies) {
        return Ok(());
    }
    let machines = machines(given.alloc, given.replayed, has_outs)?;
    for (number, body) in bodies.iter_mut().enumerate() {
        if body.is_none() {
            *body = written(given, &machines, number)?;
        }
    }
    Ok(())
}

fn has_none(bodies: &[Option<Body>]) -> bool {
    for body in bodies {
        if body.is_none() {
            return true;
        }
    }
    false
}

// The code that is written from the machine of a thread, unless it is too long.
fn written(
    given: Given<'_>,
    machines: &Machines,
    number: usize,
) -> Result<Option<Body>, AllocError> {
    let (Some(entry), Some(thread)) = (
        machines.threads.get(number),
        given.replayed.threads.get(number),
    ) else {
        return Ok(None);
    };
    let Some(machine) = machines.machines.get(entry.machine as usize) else {
        return Ok(None);
    };
    let source = source_of(given, &machines.holdings, thread);
    Ok(match structured(source, &machine.nodes, entry.start)? {
        Some(body) if body.code.pieces.len() <= MOST_PIECES => Some(body),
        _ => None,
    })
}

fn drawn_thread(
    given: Given<'_>,
    number: u32,
    body: Option<Body>,
    walk: Option<Walk<'_>>,
) -> Result<Drawn, AllocError> {
    match body {
        Some(body) => Ok(Drawn {
            body,
            spare: spare(given.replayed, number),
            has_left: given.replayed.left > 0,
            is_looped: false,
        }),
        None => drawn_loop(given, number, walk),
    }
}

// A thread whose code is one loop.
fn drawn_loop(given: Given<'_>, number: u32, walk: Option<Walk<'_>>) -> Result<Drawn, AllocError> {
    let mut has_left = given.replayed.left > 0;
    let mut body = Body::new(given.alloc);
    if let Some(walk) = walk {
        let Walk {
            source,
            stretches,
            ..
        } = walk;
        has_left = source.has_left;
        body = looped(source, stretches, start_of(given.replayed, number))?;
    }
    Ok(Drawn {
        body,
        spare: spare(given.replayed, number),
        has_left,
        is_looped: !given.is_looped,
    })
}

// The holding with which a thread begins.
fn start_of(replayed: &Replayed, thread: u32) -> u32 {
    match replayed.threads.get(thread as usize) {
        Some(thread) => thread.start,
        None => 0,
    }
}

// What the loop of a thread is drafted from. Where it never releases the lock, entries may stay queued.
fn loop_source<'a>(given: Given<'a>, thread: &Thread) -> Source<'a> {
    let mut source = source_of(given, &given.replayed.holdings, thread);
    source.has_left = source.has_left || source.guards.kept.sq;
    source.is_tight = source.has_left && is_tight(given.replayed);
    source
}

fn source_of<'a>(given: Given<'a>, holdings: &'a [Holding], thread: &Thread) -> Source<'a> {
    let has_left = given.replayed.left > 0;
    Source {
        alloc: given.alloc,
        replayed: given.replayed,
        holdings,
        guards: Guards::of(thread.keeps, given.replayed.has_sides, thread.has_reaps),
        has_left,
        is_tight: has_left && is_tight(given.replayed),
    }
}

// Whether there are more tokens than entries.
fn is_tight(replayed: &Replayed) -> bool {
    replayed.tokens.len() > replayed.entries as usize
}

// How many credits a thread has besides those of its tokens: one, if it uses what a completion brings before it has
// seen it, as its credit comes only then.
fn spare(replayed: &Replayed, thread: u32) -> u32 {
    match replayed.threads.get(thread as usize) {
        Some(thread) if thread.has_early => 1,
        _ => 0,
    }
}

/// The names of the pools of threads, in the order of the threads.
pub fn own_names(alloc: Global, replayed: &Replayed) -> Result<Vec<Vec<u8>>, AllocError> {
    let mut names = Vec::new(alloc);
    for thread in &replayed.threads {
        let name = own_name(alloc, replayed, &thread.name, &names)?;
        names.push(name).map_err(AllocError::from)?;
    }
    Ok(names)
}

/// Notes which threads have too many orders.
pub fn note_loops(
    notes: &mut Vec<Vec<u8>>,
    replayed: &Replayed,
    drawn: &[Drawn],
) -> Result<(), AllocError> {
    for (thread, drawn) in replayed.threads.iter().zip(drawn) {
        if drawn.is_looped {
            note(
                notes,
                &[
                    &thread.name,
                    b": its orders are too many for a text: all that it does is one loop",
                ],
            )?;
        }
    }
    Ok(())
}

/// Adds a note.
pub fn note(notes: &mut Vec<Vec<u8>>, pieces: &[&[u8]]) -> Result<(), AllocError> {
    let mut line = Vec::new(*notes.allocator());
    put_pieces(&mut line, pieces)?;
    notes.push(line).map_err(AllocError::from)
}
