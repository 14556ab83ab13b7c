//! What is known before the lines of a thread.

use rc_lang::lines::{Line, Stmt};
use rc_lang::program::Thread;
use rc_rules::state::State;
use rc_sentences::walked::{Walked, is_reached};
use std::alloc::{AllocError, Global};

/// A part of the listing of a thread.
#[derive(Clone, Copy)]
pub enum Entry<'a> {
    /// A line that something reaches, by its number, and what is known before it.
    Reached(u32, &'a State<'a>),
    /// Lines that nothing reaches, by the numbers of the first and the last.
    Unreached(u32, u32),
}

/// Lines that nothing reaches, one after another: the first, and the last that doesn't begin an arm.
#[derive(Clone, Copy)]
struct Run {
    first: u32,
    last: Option<u32>,
}

/// The listing of a thread.
pub fn entries_of<'a>(alloc: Global, walked: &'a Walked<'a>) -> Result<Vec<Entry<'a>>, AllocError> {
    let mut entries = Vec::new(alloc);
    let mut run = None;
    for (place, state) in walked.states.iter().enumerate() {
        if let Some(line) = walked.line(place) {
            run = push_line(&mut entries, line, state, run)?;
        }
    }
    push_run(&mut entries, run)?;
    Ok(entries)
}

/// The entries of a thread's listing for lines that nothing reaches, by whether something reaches each line.
pub fn unreached_of<'a>(
    alloc: Global,
    thread: &Thread,
    reached: &[bool],
) -> Result<Vec<Entry<'a>>, AllocError> {
    let mut entries = Vec::new(alloc);
    let mut run = None;
    for (line, is_reached) in thread.lines.iter().zip(reached) {
        if *is_reached {
            push_run(&mut entries, run)?;
            run = None;
        } else {
            run = Some(longer(run, *line));
        }
    }
    push_run(&mut entries, run)?;
    Ok(entries)
}

/// Adds a line if something reaches it, after the lines above it that nothing reaches; answers those that aren't added.
fn push_line<'a>(
    entries: &mut Vec<Entry<'a>>,
    line: Line,
    state: &'a State<'a>,
    run: Option<Run>,
) -> Result<Option<Run>, AllocError> {
    if !is_reached(state) {
        return Ok(Some(longer(run, line)));
    }
    push_run(entries, run)?;
    entries.push(Entry::Reached(line.number, state))?;
    Ok(None)
}

/// A run with one more line. The first line of an arm isn't its last: what is known in the arm comes from the peek, and
/// not from the line above.
fn longer(run: Option<Run>, line: Line) -> Run {
    let begins_arm = matches!(
        line.stmt,
        Stmt::Case(_, _) | Stmt::Other(_) | Stmt::Nothing(_)
    );
    let (first, last) = match run {
        Some(run) => (run.first, run.last),
        None => (line.number, None),
    };
    Run {
        first,
        last: if begins_arm { last } else { Some(line.number) },
    }
}

/// Adds a run, if there is one.
fn push_run(entries: &mut Vec<Entry<'_>>, run: Option<Run>) -> Result<(), AllocError> {
    let Some(
        Run {
            first,
            last: Some(last),
        },
    ) = run
    else {
        return Ok(());
    };
    Ok(entries.push(Entry::Unreached(first, last))?)
}
