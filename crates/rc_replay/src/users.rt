//! Which threads send and reap tokens that nobody else does.

use crate::names::{at, set};
use crate::shapes::{Deed, requests_of};
use indexmap::IndexSet;
use std::alloc::{AllocError, Global};

/// Who does something with a token.
#[derive(Clone, Copy)]
enum Who {
    Nobody,
    One(u32),
    Several,
}

/// Who sends each token, and who sends or reaps it.
#[derive(Drop)]
pub struct Users {
    senders: Vec<Who>,
    all: Vec<Who>,
    /// Which threads send or reap which tokens.
    used: IndexSet<(u32, u32)>,
    /// Of each thread: whether it sends, and nobody else sends or reaps what it does.
    pub is_alone: Vec<bool>,
}

/// Adds a thread to those that do something with a token.
fn add_who(who: &mut [Who], token: u32, thread: u32) {
    let now = match at(who, token, Who::Nobody) {
        Who::Nobody => Who::One(thread),
        Who::One(other) if other == thread => Who::One(thread),
        _ => Who::Several,
    };
    set(who, token, now);
}

impl Users {
    /// Nobody of no threads.
    pub fn none(alloc: Global) -> Users {
        Users {
            senders: Vec::new(alloc),
            all: Vec::new(alloc),
            used: IndexSet::new(alloc),
            is_alone: Vec::new(alloc),
        }
    }

    /// Nobody: so many tokens and threads.
    pub fn new(alloc: Global, tokens: usize, threads: usize) -> Result<Users, AllocError> {
        Ok(Users {
            senders: vec![in alloc; Who::Nobody; tokens]?,
            all: vec![in alloc; Who::Nobody; tokens]?,
            used: IndexSet::new(alloc),
            is_alone: vec![in alloc; false; threads]?,
        })
    }

    /// A thread does something.
    pub fn step(&mut self, thread: u32, deed: &Deed) -> Result<(), AllocError> {
        if let Deed::Reap {
            token,
            class: _,
            is_early: _,
        } = deed
        {
            self.use_token(thread, *token)?;
        }
        for sent in requests_of(deed) {
            add_who(&mut self.senders, sent.token, thread);
            set(&mut self.is_alone, thread, true);
            self.use_token(thread, sent.token)?;
        }
        Ok(())
    }

    /// A thread sends or reaps a token.
    fn use_token(&mut self, thread: u32, token: u32) -> Result<(), AllocError> {
        add_who(&mut self.all, token, thread);
        self.used.insert((thread, token))?;
        Ok(())
    }

    /// It is known what all do: threads are found that aren't alone.
    pub fn end(&mut self) {
        for place in 0..self.used.len() {
            if let Some((thread, token)) = self.used.get_index(place).copied()
                && !self.is_of_one(token)
            {
                set(&mut self.is_alone, thread, false);
            }
        }
    }

    /// Whether one thread alone sends and reaps a token.
    pub fn is_of_one(&self, token: u32) -> bool {
        let all = at(&self.all, token, Who::Several);
        let senders = at(&self.senders, token, Who::Several);
        matches!((all, senders), (Who::One(_), Who::One(_)))
    }
}
