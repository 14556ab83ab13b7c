//! A whole program in C.

use crate::declared::{put_declared, put_open_lock};
use crate::fixed::{BEGINNING, CALLS, END, FILES_OPENED, LOG, RING_LOCK, SIDE_LOCKS, STARTED};
use crate::locks::Guards;
use crate::threads::{has_copies, put_threads};
use rc_lang::program::Program;
use rc_read::source::Lines;
use rc_text::text::{put_piece, put_pieces};
use std::alloc::{AllocError, Global};

/// A complete C program over liburing that does, statement by statement, what a program does. The source is the model
/// that the program was read from: its words are in comments.
pub fn c_text(alloc: Global, source: &[u8], program: &Program) -> Result<Vec<u8>, AllocError> {
    let mut text = Vec::new(alloc);
    let lines = Lines::of(alloc, source)?;
    put_program(&mut text, program, &lines)?;
    Ok(text)
}

/// Adds the C program of a program, with the lines of its model.
fn put_program(text: &mut Vec<u8>, program: &Program, lines: &Lines) -> Result<(), AllocError> {
    let guards = Guards::of(program);
    put_pieces(
        text,
        &[BEGINNING.as_bytes(), ring(guards), CALLS.as_bytes()],
    )?;
    put_declared(text, program)?;
    put_piece(text, LOG.as_bytes())?;
    put_threads(text, program, guards, lines)?;
    put_end(text, program, guards)
}

/// Adds the end of a program: what opens the files, the mutexes and the ring, and starts the threads.
fn put_end(text: &mut Vec<u8>, program: &Program, guards: Guards) -> Result<(), AllocError> {
    put_piece(text, FILES_OPENED.as_bytes())?;
    put_open_lock(text, program, guards)?;
    let given: &[u8] = if has_copies(program) {
        b"&numbers[at]"
    } else {
        b"NULL"
    };
    put_pieces(text, &[END.as_bytes(), given, STARTED.as_bytes()])
}

// The ring, and its mutexes.
fn ring(guards: Guards) -> &'static [u8] {
    match guards {
        Guards::Ring => RING_LOCK.as_bytes(),
        Guards::Sides => SIDE_LOCKS.as_bytes(),
    }
}
