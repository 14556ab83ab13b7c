//! What larger events are, before it is known what they move. Those that are the same are one.

use crate::names::short;
use crate::replayed::{Class, Sent, Submit};
use indexmap::IndexSet;
use std::alloc::{AllocError, Global};

/// What a thread does.
#[derive(Drop)]
pub enum Deed {
    Send {
        requests: Vec<Sent>,
        submit: Submit,
    },
    /// Requests that are made, or entries that are submitted, where the log ends.
    Cut {
        requests: Vec<Sent>,
    },
    Submit(Submit),
    Reap {
        token: u32,
        class: Option<Class>,
        is_early: bool,
    },
    Seen {
        token: u32,
    },
    /// A mark of a pool, and the buffer that it names, if it names one.
    Put {
        pool: u32,
        buffer: Option<u32>,
    },
    Take {
        pool: u32,
        buffer: Option<u32>,
    },
    Fill(u32),
    Load(u32),
    End,
}

/// An event, but for what it moves.
#[derive(Drop)]
pub struct Shape {
    pub deed: Deed,
    pub place: u32,
    pub places: Vec<u32>,
    pub is_unlocked: bool,
}

/// All shapes, each once.
#[derive(Drop)]
pub struct Shapes {
    keys: IndexSet<Vec<u32>>,
    pub shapes: Vec<Shape>,
}

/// An optional number in a key, as two numbers.
fn spelled(number: Option<u32>) -> [u32; 2] {
    match number {
        Some(number) => [1, number],
        None => [0, 0],
    }
}

/// How entries are submitted, in a key.
fn submit_word(submit: Submit) -> [u32; 2] {
    match submit {
        Submit::None => [0, 0],
        Submit::Now => [1, 0],
        Submit::AndWait(count) => [2, count],
    }
}

/// A class in a key.
fn class_word(class: Option<Class>) -> u32 {
    match class {
        None => 0,
        Some(Class::Full) => 1,
        Some(Class::Short) => 2,
        Some(Class::Zero) => 3,
        Some(Class::Negative) => 4,
    }
}

/// Adds requests to a key.
fn put_requests(key: &mut Vec<u32>, requests: &[Sent]) -> Result<(), AllocError> {
    for sent in requests {
        key.extend_from_slice(&[
            sent.token,
            sent.request,
            sent.opened,
            sent.prepared,
            sent.named,
        ])?;
    }
    Ok(())
}

/// Adds a deed to a key.
fn put_deed(key: &mut Vec<u32>, deed: &Deed) -> Result<(), AllocError> {
    match deed {
        Deed::Send { requests, submit } => {
            let [how, count] = submit_word(*submit);
            key.extend_from_slice(&[0, how, count])?;
            put_requests(key, requests)
        }
        Deed::Cut { requests } => {
            key.extend_from_slice(&[1])?;
            put_requests(key, requests)
        }
        Deed::Submit(submit) => {
            let [how, count] = submit_word(*submit);
            key.extend_from_slice(&[2, how, count])
        }
        Deed::Reap {
            token,
            class,
            is_early,
        } => key.extend_from_slice(&[3, *token, class_word(*class), u32::from(*is_early)]),
        Deed::Seen { token } => key.extend_from_slice(&[4, *token]),
        Deed::Put { pool, buffer } => {
            let [is_named, buffer] = spelled(*buffer);
            key.extend_from_slice(&[5, *pool, is_named, buffer])
        }
        Deed::Take { pool, buffer } => {
            let [is_named, buffer] = spelled(*buffer);
            key.extend_from_slice(&[6, *pool, is_named, buffer])
        }
        Deed::Fill(buffer) => key.extend_from_slice(&[7, *buffer]),
        Deed::Load(buffer) => key.extend_from_slice(&[8, *buffer]),
        Deed::End => key.extend_from_slice(&[9]),
    }
}

/// By what shapes are the same.
fn key_of(alloc: Global, shape: &Shape) -> Result<Vec<u32>, AllocError> {
    let mut key = Vec::new(alloc);
    key.extend_from_slice(&[
        shape.place,
        u32::from(shape.is_unlocked),
        short(shape.places.len()),
    ])?;
    key.extend_from_slice(&shape.places)?;
    put_deed(&mut key, &shape.deed)?;
    Ok(key)
}

impl Shapes {
    /// No shapes.
    pub fn new(alloc: Global) -> Shapes {
        Shapes {
            keys: IndexSet::new(alloc),
            shapes: Vec::new(alloc),
        }
    }

    /// The number of a shape, which is added where it is new.
    pub fn number(&mut self, alloc: Global, shape: Shape) -> Result<u32, AllocError> {
        let key = key_of(alloc, &shape)?;
        if let Some(number) = self.keys.get_index_of(key.as_slice()) {
            return Ok(short(number));
        }
        let number = short(self.shapes.len());
        self.shapes.push(shape)?;
        self.keys.insert(key)?;
        Ok(number)
    }

    /// A shape by its number.
    pub fn at(&self, number: u32) -> Option<&Shape> {
        self.shapes.get(number as usize)
    }

    /// The requests that a shape makes.
    pub fn requests(&self, number: u32) -> &[Sent] {
        match self.at(number) {
            Some(shape) => requests_of(&shape.deed),
            None => &[],
        }
    }
}

/// The requests that a deed makes.
pub fn requests_of(deed: &Deed) -> &[Sent] {
    match deed {
        Deed::Send {
            requests,
            submit: _,
        } => requests,
        Deed::Cut { requests } => requests,
        _ => &[],
    }
}
