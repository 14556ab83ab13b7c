//! Logs that were recorded and are read again to draft a model from them.

use crate::departures::logs::Logs;
use crate::drafting::outcome::RecordedLog;
use rc_console::files::{Unread, words_of};
use rc_replay::again::{Logs as Recordings, Loss};
use std::alloc::{AllocError, Global};

/// A log that was recorded, and can't be read again: its place among those that are named, and why.
#[derive(Drop)]
pub struct Lost {
    pub place: usize,
    pub why: String,
}

/// The names of the logs that were recorded, by number.
#[derive(Drop)]
pub struct ReadLogs<'a, 'b, T> {
    pub texts: &'a T,
    pub names: &'a [&'b str],
}

impl<'a, 'b, T: Logs> Recordings for ReadLogs<'a, 'b, T> {
    type Log = T::Log;

    fn open(&self, number: u32) -> Result<T::Log, Loss> {
        let Some(name) = self.names.get(number as usize) else {
            return Err(Loss::Changed);
        };
        match self.texts.open(name) {
            Ok(log) => Ok(log),
            Err(Unread::Failed(error)) => Err(Loss::Failed(error)),
            Err(Unread::OutOfMemory) => Err(Loss::OutOfMemory),
            Err(_) => Err(Loss::Changed),
        }
    }
}

/// Why a log can't be read again, in words.
pub fn loss_words(alloc: Global, loss: Loss) -> Result<String, AllocError> {
    match loss {
        Loss::Failed(error) => words_of(alloc, &Unread::Failed(error)),
        Loss::OutOfMemory => words_of(alloc, &Unread::OutOfMemory),
        Loss::Changed => String::from_str(alloc, "it changed while it was read"),
    }
}

/// The names of the logs that were read.
pub fn read_names<'b>(alloc: Global, logs: &[RecordedLog<'b>]) -> Result<Vec<&'b str>, AllocError> {
    let mut names = Vec::new(alloc);
    for log in logs {
        if log.outcome.is_read() {
            names.push(log.name)?;
        }
    }
    Ok(names)
}

/// The place of the log that was read and recorded with this number.
pub fn place_of(logs: &[RecordedLog<'_>], number: u32) -> usize {
    let mut before = 0u32;
    for place in 0..logs.len() {
        if logs[place].outcome.is_read() {
            if before == number {
                return place;
            }
            before = before.saturating_add(1);
        }
    }
    logs.len()
}

/// Why the log at this place can't be read again, if it can't.
pub fn loss_at(lost: &[Lost], place: usize) -> Option<&str> {
    for one in lost {
        if one.place == place {
            return Some(one.why.as_str());
        }
    }
    None
}
