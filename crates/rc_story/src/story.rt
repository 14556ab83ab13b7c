//! What a picture is drawn of.

use crate::courses::{Course, Stage, courses_of};
use crate::fault::{Blame, blame_of};
use crate::rows::{Row, rows_of};
use crate::run::Run;
use crate::sentence::Why;
use crate::stocks::{Over, Stock, over_of, stocks_of};
use crate::stretches::{Stretch, stretches_of};
use crate::why::why_of;
use std::alloc::{AllocError, Global};

/// What a picture is drawn of.
#[derive(Drop)]
pub struct Story<'s, 'a> {
    pub run: Run<'s, 'a>,
    /// The rows, from the top.
    pub rows: Vec<Row<'a>>,
    /// The requests.
    pub courses: Vec<Course>,
    /// The items that pools have.
    pub stocks: Vec<Stock<'a>>,
    /// The items at fault.
    pub over: Vec<Over>,
    /// What is at fault beside requests and items.
    pub blame: Blame,
    /// Why there is a fault.
    pub why: Why,
    // The place of each event: 0 above the rows, else that of its row, from 1.
    places: Vec<usize>,
}

/// The story of a run, of whose events no more are left out than there are.
pub fn story_of<'s, 'a>(alloc: Global, run: Run<'s, 'a>) -> Result<Story<'s, 'a>, AllocError> {
    let stretches = stretches_of(alloc, &run)?;
    let courses = courses_of(alloc, &run)?;
    let stocks = stocks_of(alloc, &run, &stretches)?;
    let over = over_of(alloc, &run, &stocks)?;
    let blame = blame_of(&run);
    Ok(Story {
        rows: rows_of(alloc, &run, &stretches)?,
        why: why_of(alloc, &run, &courses, &over, blame)?,
        places: places_of(alloc, &run, &stretches)?,
        courses,
        stocks,
        over,
        blame,
        run,
    })
}

impl Story<'_, '_> {
    /// The place of an event: 0 above the rows, else that of its row, from 1; below all rows where there is no such event.
    pub fn place_of(&self, number: u64) -> usize {
        match self.places.get(number as usize) {
            Some(place) => *place,
            None => self.rows.len().saturating_add(1),
        }
    }

    /// The place where a request comes to a stage, and below all rows where it doesn't.
    pub fn place_at(&self, course: &Course, stage: Stage) -> usize {
        if course.has(stage) {
            self.place_of(course.event(stage))
        } else {
            self.rows.len().saturating_add(1)
        }
    }

    /// How many rows there are before those of the fault.
    pub fn told(&self) -> usize {
        let mut told: usize = 0;
        for row in &self.rows {
            if !row.stretch.is_fault() {
                told = told.saturating_add(1);
            }
        }
        told
    }

    /// The number of the group of a request: that of its buffer, or that after all buffers.
    pub fn group_of(&self, course: &Course) -> usize {
        course.buffer().unwrap_or(self.run.program.buffers().len())
    }
}

/// The place of each event.
fn places_of(
    alloc: Global,
    run: &Run<'_, '_>,
    stretches: &[Stretch],
) -> Result<Vec<usize>, AllocError> {
    let mut places = Vec::new(alloc);
    places.resize(run.cut.saturating_add(1) as usize, 0)?;
    for (index, stretch) in stretches.iter().enumerate() {
        let last = stretch.last(run.frames.len() as u64);
        places.resize(last.saturating_add(1) as usize, index + 1)?;
    }
    Ok(places)
}
