//! What first looks at all logs found.

use crate::glance::Glance;
use crate::names::set;
use crate::recording::Recorder;
use crate::tables::Tables;
use indexmap::IndexMap;
use std::alloc::{AllocError, Global};

/// What first looks at the logs found.
#[derive(Drop)]
pub struct Survey {
    /// Of each token and what was asked for with it: a place of its name.
    pub asked: IndexMap<(u32, u32), u32>,
    /// Of each place: whether a completion that was seen there was used before.
    pub is_early: Vec<bool>,
    /// Of each token: a place where it was seen.
    pub seen: Vec<Option<u32>>,
    /// Files that were declared.
    pub files: Vec<u32>,
}

/// What was found in the logs, in this order.
pub fn look_over(
    alloc: Global,
    recorder: &Recorder,
    order: &[u32],
    tables: &Tables,
) -> Result<Survey, AllocError> {
    let mut survey = Survey {
        asked: IndexMap::new(alloc),
        is_early: vec![in alloc; false; tables.places.names.len()]?,
        seen: vec![in alloc; None; tables.tokens.names.len()]?,
        files: Vec::new(alloc),
    };
    for number in order {
        if let Some(log) = recorder.logs.get(*number as usize) {
            survey.add(tables, &log.glance)?;
        }
    }
    survey.asked.sort_keys()?;
    Ok(survey)
}

impl Survey {
    /// Adds what was found in a log.
    fn add(&mut self, tables: &Tables, glance: &Glance) -> Result<(), AllocError> {
        for place in glance.early.iter() {
            set(&mut self.is_early, tables.places.rank(*place), true);
        }
        for (token, place) in glance.seen.iter() {
            let place = tables.places.rank(*place);
            set(&mut self.seen, tables.tokens.rank(*token), Some(place));
        }
        for file in glance.files.iter() {
            self.files.push(*file)?;
        }
        self.add_asked(tables, glance)
    }

    /// Adds what was asked for in a log.
    fn add_asked(&mut self, tables: &Tables, glance: &Glance) -> Result<(), AllocError> {
        for ((token, asked), place) in glance.asked.iter() {
            let token = tables.tokens.rank(*token);
            let place = tables.places.rank(*place);
            self.ask(token, tables.asked_rank(*asked), place)?;
        }
        Ok(())
    }

    /// Something is asked for with a token.
    fn ask(&mut self, token: u32, asked: u32, place: u32) -> Result<(), AllocError> {
        if !self.asked.contains_key(&(token, asked)) {
            self.asked.insert((token, asked), place)?;
        }
        Ok(())
    }
}

/// The buffer that a prep names.
pub fn buffer_of(tables: &Tables, asked: Option<u32>) -> Option<u32> {
    tables.asked_at(asked)?.buffer
}
