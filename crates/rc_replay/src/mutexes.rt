//! Who holds the mutexes of a log, line by line.

use crate::steps::{Names, Says};
use rc_lang::lines::Locks;
use rc_text::text::put_pieces;
use std::alloc::{AllocError, Global};

/// The holders of the two mutexes, by their numbers.
#[derive(Clone, Copy)]
pub struct Mutexes {
    sq: Option<u32>,
    cq: Option<u32>,
}

/// Why a mutex can't be locked or unlocked.
#[derive(Clone, Copy)]
enum Misuse {
    /// This thread holds it.
    Taken(u32),
    /// The thread doesn't hold it.
    NotHeld,
}

impl Mutexes {
    /// Nobody holds any.
    pub fn new() -> Mutexes {
        Mutexes { sq: None, cq: None }
    }

    /// Who holds one of these, if anybody does.
    fn holder(self, wanted: Locks) -> Option<u32> {
        match self.sq {
            Some(holder) if wanted.sq => Some(holder),
            _ if wanted.cq => self.cq,
            _ => None,
        }
    }

    /// Whether a thread holds all of these.
    fn has_all(self, thread: u32, wanted: Locks) -> bool {
        let sq = !wanted.sq || is_holder(self.sq, thread);
        let cq = !wanted.cq || is_holder(self.cq, thread);
        sq && cq
    }

    /// These have this holder from here on, or none.
    fn give(&mut self, holder: Option<u32>, locks: Locks) {
        if locks.sq {
            self.sq = holder;
        }
        if locks.cq {
            self.cq = holder;
        }
    }

    /// A thread does what a line says, or can't.
    fn step(&mut self, thread: u32, says: Says) -> Option<Misuse> {
        match says {
            Says::Lock(locks) => {
                if let Some(holder) = self.holder(locks) {
                    return Some(Misuse::Taken(holder));
                }
                self.give(Some(thread), locks);
                None
            }
            Says::Unlock(locks) => {
                if !self.has_all(thread, locks) {
                    return Some(Misuse::NotHeld);
                }
                self.give(None, locks);
                None
            }
            _ => None,
        }
    }

    /// A thread does what a line says. Answers why it can't, in words.
    pub fn misuse(
        &mut self,
        alloc: Global,
        names: &Names,
        thread: u32,
        says: Says,
    ) -> Result<Option<Vec<u8>>, AllocError> {
        match self.step(thread, says) {
            None => Ok(None),
            Some(misuse) => Ok(Some(words_of(alloc, names, thread, misuse)?)),
        }
    }
}

fn is_holder(holder: Option<u32>, thread: u32) -> bool {
    match holder {
        Some(holder) => holder == thread,
        None => false,
    }
}

/// The name of a thread.
fn name_of(names: &Names, thread: u32) -> &[u8] {
    match names.threads.get_index(thread as usize) {
        Some(name) => name,
        None => &[],
    }
}

/// Why a mutex can't be locked or unlocked, in words.
fn words_of(
    alloc: Global,
    names: &Names,
    thread: u32,
    misuse: Misuse,
) -> Result<Vec<u8>, AllocError> {
    let mut words = Vec::new(alloc);
    let name = name_of(names, thread);
    match misuse {
        Misuse::NotHeld => put_pieces(&mut words, &[name, b" unlocks a mutex it doesn't hold"])?,
        Misuse::Taken(holder) => put_pieces(
            &mut words,
            &[
                name,
                b" locks a mutex that ",
                name_of(names, holder),
                b" holds",
            ],
        )?,
    }
    Ok(words)
}
