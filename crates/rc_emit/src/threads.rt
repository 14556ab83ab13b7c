//! The functions of threads.

use crate::blocks::{depth_after, depth_of, put_stmt};
use crate::fixed::{
    COPY_BEGINNING, COPY_BODY, COPY_LOG, NUMBERS, THREAD_BEGINNING, THREAD_BODY, THREAD_END,
    THREADS,
};
use crate::lines::{put_comment, put_line};
use crate::locks::Guards;
use crate::place::Place;
use crate::variables::has_variable;
use rc_lang::program::Program;
use rc_read::source::Lines;
use rc_text::text::{put_counted, put_piece, put_pieces};
use std::alloc::AllocError;

/// Adds a line for each variable of a thread that C has, between two pieces.
fn put_variables(
    text: &mut Vec<u8>,
    place: Place<'_>,
    before: &[u8],
    after: &[u8],
) -> Result<(), AllocError> {
    for (variable, name) in place.thread.variables.iter().enumerate() {
        if has_variable(place.thread, variable) {
            put_line(text, place, &[before, b"var_", name, after])?;
        }
    }
    Ok(())
}

/// Adds the statements of a thread.
fn put_stmts(text: &mut Vec<u8>, place: Place<'_>, lines: &Lines<'_>) -> Result<(), AllocError> {
    let mut depth = place.depth;
    for (at, line) in place.thread.lines.iter().enumerate() {
        let source = lines.line(line.number);
        let here = place.moved(at, *line, source, depth_of(line.stmt, depth));
        put_stmt(text, here, line.stmt)?;
        depth = depth_after(line.stmt, depth);
    }
    Ok(())
}

/// Adds the function of a thread.
fn put_thread(text: &mut Vec<u8>, place: Place<'_>, lines: &Lines<'_>) -> Result<(), AllocError> {
    put_piece(text, b"\n")?;
    put_comment(text, place)?;
    put_declarations(text, place)?;
    put_stmts(text, place, lines)?;
    put_piece(text, THREAD_END.as_bytes())
}

/// Adds the head of a thread's function, and its variables, which may be written and never read.
fn put_declarations(text: &mut Vec<u8>, place: Place<'_>) -> Result<(), AllocError> {
    let (beginning, body) = match place.thread.copy {
        None => (THREAD_BEGINNING, THREAD_BODY),
        Some(_) => (COPY_BEGINNING, COPY_BODY),
    };
    put_pieces(text, &[b"static void *body_", place.thread.declared_name()])?;
    put_piece(text, beginning.as_bytes())?;
    put_variables(text, place, b"int64_t ", b" = 0;")?;
    put_piece(text, body.as_bytes())?;
    put_variables(text, place, b"(void)", b";")
}

/// Whether a program has copies of threads.
pub fn has_copies(program: &Program) -> bool {
    program.threads().iter().any(|thread| thread.copy.is_some())
}

/// Adds the number of each thread among the copies of its line, where some are copies.
fn put_numbers(text: &mut Vec<u8>, program: &Program) -> Result<(), AllocError> {
    if !has_copies(program) {
        return Ok(());
    }
    put_piece(text, NUMBERS.as_bytes())?;
    for thread in program.threads() {
        let copy = u64::from(thread.copy.unwrap_or(0));
        put_counted(text, b"    ", copy, b",\n")?;
    }
    put_piece(text, b"};\n")
}

/// Adds the functions of the threads, one for all copies of a line, and the list of them.
pub fn put_threads(
    text: &mut Vec<u8>,
    program: &Program,
    guards: Guards,
    lines: &Lines<'_>,
) -> Result<(), AllocError> {
    let alloc = *text.allocator();
    if has_copies(program) {
        put_piece(text, COPY_LOG.as_bytes())?;
    }
    for thread in program.threads() {
        if !thread.is_further() {
            let place = Place::new(alloc, program, guards, thread, lines.line(thread.line));
            put_thread(text, place, lines)?;
        }
    }
    put_piece(text, THREADS.as_bytes())?;
    for thread in program.threads() {
        put_pieces(text, &[b"    body_", thread.declared_name(), b",\n"])?;
    }
    put_piece(text, b"    NULL,\n};\n")?;
    put_numbers(text, program)
}
