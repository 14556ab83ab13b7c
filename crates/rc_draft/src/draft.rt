//! A model, drafted.

use crate::head::{put_declared, put_head, put_thread};
use crate::limits::{note_limits, note_text};
use crate::threads::{Drawn, Given, bodies_of, drawn_threads, note_loops, own_names, walks_of};
use crate::walks::Walks;
use crate::work::Body;
use rc_replay::again::{Logs, ReplayFault};
use rc_replay::replay::Again;
use rc_replay::replayed::Replayed;
use std::alloc::{AllocError, Global};

/// A draft.
#[derive(Drop)]
pub struct Drafted {
    /// A model whose loops keep nothing yet.
    pub text: Vec<u8>,
    /// What the replay noted, and then where the text lacks something. A line each, without its line feed.
    pub notes: Vec<Vec<u8>>,
}

/// Drafts a model. Each thread gets the loop form where that is wanted, or where its orders are too many. For such
/// threads the logs are replayed once more.
pub fn draft<L: Logs>(
    alloc: Global,
    replayed: &Replayed,
    again: &mut Again,
    logs: &L,
    is_looped: bool,
) -> Result<Drafted, ReplayFault> {
    let given = Given {
        alloc,
        replayed,
        is_looped,
    };
    let bodies = bodies_of(given)?;
    let mut walks = walks_of(given, &bodies)?;
    if walks.is_any {
        again.visit(alloc, logs, &mut walks)?;
    }
    Ok(of_bodies(given, bodies, walks)?)
}

// The draft, from the code of the threads that isn't one loop, and what is read of the others.
fn of_bodies(
    given: Given<'_>,
    bodies: Vec<Option<Body>>,
    walks: Walks<'_>,
) -> Result<Drafted, AllocError> {
    let (alloc, replayed) = (given.alloc, given.replayed);
    let drawn = drawn_threads(given, bodies, walks)?;
    let text = text_of(alloc, replayed, &drawn)?;
    let notes = notes_of(alloc, replayed, &drawn, &text)?;
    Ok(Drafted { text, notes })
}

fn text_of(alloc: Global, replayed: &Replayed, drawn: &[Drawn]) -> Result<Vec<u8>, AllocError> {
    let names = own_names(alloc, replayed)?;
    let mut text = Vec::new(alloc);
    put_head(&mut text, replayed, drawn)?;
    put_declared(&mut text, replayed, drawn, &names)?;
    put_threads(&mut text, replayed, drawn, &names)?;
    Ok(text)
}

fn put_threads(
    text: &mut Vec<u8>,
    replayed: &Replayed,
    drawn: &[Drawn],
    names: &[Vec<u8>],
) -> Result<(), AllocError> {
    for (number, thread) in replayed.threads.iter().enumerate() {
        if let (Some(drawn), Some(own)) = (drawn.get(number), names.get(number)) {
            put_thread(text, replayed, thread, drawn, own)?;
        }
    }
    Ok(())
}

fn notes_of(
    alloc: Global,
    replayed: &Replayed,
    drawn: &[Drawn],
    text: &[u8],
) -> Result<Vec<Vec<u8>>, AllocError> {
    let mut notes = Vec::new(alloc);
    for note in &replayed.notes {
        notes.push(note.clone()?).map_err(AllocError::from)?;
    }
    note_loops(&mut notes, replayed, drawn)?;
    note_limits(alloc, &mut notes, replayed, drawn)?;
    note_text(&mut notes, text)?;
    Ok(notes)
}
