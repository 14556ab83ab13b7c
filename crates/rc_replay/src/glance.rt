//! A first look at a log: which requests tokens stand for, and where completions are used before they are seen.
//!
//! All names are by their numbers.

use crate::names::{at, set};
use crate::steps::{Names, Says, Step};
use indexmap::{IndexMap, IndexSet};
use std::alloc::{AllocError, Global};

/// What a first look at a log finds.
#[derive(Drop)]
pub struct Glance {
    /// Of each token and what was asked for with it: the place where it was named first.
    pub asked: IndexMap<(u32, u32), u32>,
    /// The places where a completion was seen that had been used before.
    pub early: IndexSet<u32>,
    /// Of each token: the place where it was seen last.
    pub seen: IndexMap<u32, u32>,
    /// Files that were declared.
    pub files: IndexSet<u32>,
}

/// A log at which is looked.
#[derive(Drop)]
pub struct Look {
    glance: Glance,
    eyes: Vec<Eye>,
    /// Of each token what was asked for with it last.
    latest: Vec<Option<u32>>,
}

/// What a thread is about.
#[derive(Clone, Copy)]
struct Eye {
    /// What its entry asks for.
    prepared: Option<u32>,
    /// The token of the completion that it found.
    peeked: Option<u32>,
    /// The buffer of that.
    buffer: Option<u32>,
    /// Whether it used what came with it.
    is_used: bool,
}

/// A thread before its first line.
const CLOSED: Eye = Eye {
    prepared: None,
    peeked: None,
    buffer: None,
    is_used: false,
};

/// Whether a line uses what came with a completion of this token, whose request had this buffer.
pub fn uses(says: Says, token: u32, buffer: Option<u32>) -> bool {
    match says {
        Says::Name(other) => other == token,
        Says::Reads(other) => Some(other) == buffer,
        Says::Writes(other) => Some(other) == buffer,
        Says::PutOf {
            pool: _,
            buffer: other,
        } => Some(other) == buffer,
        _ => false,
    }
}

/// Lengthens a list to so many values.
fn lengthen<T: Copy>(values: &mut Vec<T>, len: usize, value: T) -> Result<(), AllocError> {
    if values.len() < len {
        values.resize(len, value)?;
    }
    Ok(())
}

/// The buffer that a prep names.
fn buffer_of(names: &Names, asked: Option<u32>) -> Option<u32> {
    names.asked.get(asked? as usize)?.buffer
}

impl Look {
    /// Before the first line.
    pub fn new(alloc: Global) -> Look {
        Look {
            glance: Glance {
                asked: IndexMap::new(alloc),
                early: IndexSet::new(alloc),
                seen: IndexMap::new(alloc),
                files: IndexSet::new(alloc),
            },
            eyes: Vec::new(alloc),
            latest: Vec::new(alloc),
        }
    }

    /// What was found.
    pub fn into_glance(self) -> Glance {
        let Look {
            glance,
            eyes: _,
            latest: _,
        } = self;
        glance
    }

    /// Looks at a step.
    pub fn look_at(&mut self, names: &Names, step: Step) -> Result<(), AllocError> {
        lengthen(&mut self.eyes, names.threads.len(), CLOSED)?;
        lengthen(&mut self.latest, names.tokens.len(), None)?;
        let before = at(&self.eyes, step.thread, CLOSED);
        let eye = self.look(names, before, step)?;
        set(&mut self.eyes, step.thread, eye);
        Ok(())
    }

    /// Looks at a step of a thread. Answers what the thread is about then.
    fn look(&mut self, names: &Names, mut eye: Eye, step: Step) -> Result<Eye, AllocError> {
        if let Some(token) = eye.peeked {
            eye.is_used = eye.is_used || uses(step.says, token, eye.buffer);
        }
        match step.says {
            Says::Prepare(asked) => eye.prepared = Some(asked),
            Says::Name(token) => {
                if let Some(asked) = eye.prepared {
                    self.ask(token, asked, step.place)?;
                }
                eye.prepared = None;
            }
            Says::Peek { token, res: _ } => {
                eye.peeked = Some(token);
                eye.buffer = buffer_of(names, at(&self.latest, token, None));
                eye.is_used = false;
            }
            Says::Seen(token) => {
                self.see(token, step.place, eye.is_used)?;
                eye.peeked = None;
                eye.is_used = false;
            }
            Says::File(file) => {
                self.glance.files.insert(file)?;
            }
            _ => {}
        }
        Ok(eye)
    }

    /// Something is asked for with a token.
    fn ask(&mut self, token: u32, asked: u32, place: u32) -> Result<(), AllocError> {
        set(&mut self.latest, token, Some(asked));
        if !self.glance.asked.contains_key(&(token, asked)) {
            self.glance.asked.insert((token, asked), place)?;
        }
        Ok(())
    }

    /// A completion is seen, which was used before or wasn't.
    fn see(&mut self, token: u32, place: u32, is_used: bool) -> Result<(), AllocError> {
        if is_used {
            self.glance.early.insert(place)?;
        }
        self.glance.seen.insert(token, place)?;
        Ok(())
    }
}
