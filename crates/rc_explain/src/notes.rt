//! Notes on the lines of a program.

ghost use Rattle.std.specs.Prelude.{◌<◌, ◌≤◌, IfSome, length};

use crate::listing::{Entry, unreached_of};
use rc_admit::admitted::Judged;
use rc_lang::program::Program;
use rc_sentences::line_at::line_at;
use rc_sentences::notes as sentences;
use rc_sentences::walked::reached_lines;
use std::alloc::{AllocError, Global};

/// What is noted of lines: the first and the last of them, from 1, and a sentence.
#[derive(Drop)]
pub struct Note {
    pub first: u32,
    pub last: u32,
    pub text: Vec<u8>,
    /// Whether it says that nothing reaches the lines.
    pub is_unreached: bool,
}

/// A program, and how many of its threads the rules accept, from the first on.
#[derive(Clone, Copy)]
struct Accepted<'a> {
    program: &'a Program,
    count: u32,
}

/// The notes on a model that was judged: which of its `if take` never find what they ask for, which are found already, and
/// which lines nothing reaches. Of the threads from a refused one on nothing is said of the second kind.
pub fn notes_of(
    alloc: Global,
    judged: &Judged,
    found: Vec<sentences::Note>,
) -> Result<Vec<Note>, AllocError> {
    let mut notes = Vec::with_capacity(alloc, found.len())?;
    for note in found {
        push(&mut notes, note.line, note.line, note.text, false)?;
    }
    if let Some(accepted) = accepted_of(judged) {
        push_all_unreached(alloc, &mut notes, accepted)?;
    }
    Ok(notes)
}

/// The threads that the rules accept, up to the first that they refuse.
fn accepted_of(judged: &Judged) -> Option<Accepted<'_>>
    ensures { IfSome result (λ a. a.count ≤ length a.program.now.threads) }
{
    match judged {
        Judged::Admitted(admitted) => {
            let program = admitted.program();
            Some(Accepted {
                program,
                count: program.threads().len() as u32,
            })
        }
        Judged::Refused(program, refusal) => {
            let at = line_at(program, refusal.line)?;
            Some(Accepted {
                program,
                count: at.thread,
            })
        }
        Judged::Unread { .. } => None,
    }
}

/// Adds a note.
fn push(
    notes: &mut Vec<Note>,
    first: u32,
    last: u32,
    text: Vec<u8>,
    is_unreached: bool,
) -> Result<(), AllocError> {
    Ok(notes.push(Note {
        first,
        last,
        text,
        is_unreached,
    })?)
}

/// Adds the lines of the accepted threads that nothing reaches.
fn push_all_unreached(
    alloc: Global,
    notes: &mut Vec<Note>,
    accepted: Accepted<'_>,
) -> Result<(), AllocError>
    requires { accepted.count ≤ length accepted.program.now.threads }
{
    for number in 0..accepted.count {
        if !accepted.program.threads()[number as usize].is_further() {
            push_unreached(alloc, notes, accepted.program, number)?;
        }
    }
    Ok(())
}

/// Adds the lines of a thread that nothing reaches.
fn push_unreached(
    alloc: Global,
    notes: &mut Vec<Note>,
    program: &Program,
    number: u32,
) -> Result<(), AllocError>
    requires { number < length program.now.threads }
{
    let reached = reached_lines(alloc, program, number)?;
    let thread = &program.threads()[number as usize];
    for entry in unreached_of(alloc, thread, &reached)? {
        if let Entry::Unreached(first, last) = entry {
            push_run(alloc, notes, first, last)?;
        }
    }
    Ok(())
}

/// Adds that nothing reaches these lines.
fn push_run(alloc: Global, notes: &mut Vec<Note>, first: u32, last: u32) -> Result<(), AllocError> {
    let text: &[u8] = if first == last {
        b"nothing reaches this"
    } else {
        b"nothing reaches these"
    };
    push(notes, first, last, text.to_vec(alloc)?, true)
}
