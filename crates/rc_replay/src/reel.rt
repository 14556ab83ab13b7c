//! A log whose larger events are made as it is read, a part of it at a time.

use crate::again::{Logs, ReplayFault, fault_of};
use crate::course::Course;
use crate::hands::{Hand, hands_of};
use crate::making::{Ground, Made};
use crate::names::short;
use crate::reading::{More, Reading};
use crate::recording::Recorder;
use crate::steps::Step;
use std::alloc::AllocError;
use std::io::Read;

/// What is read, and what is made of it.
#[derive(Drop)]
pub struct Store {
    pub recorder: Recorder,
    pub made: Made,
}

/// A log under way.
#[derive(Drop)]
pub struct Reel<R> {
    reading: Reading<R>,
    hands: Vec<Hand>,
    pub course: Course,
    /// Whether all its events are made.
    pub is_over: bool,
}

/// The log of this number, which is at this place in the order of all, before its first line.
pub fn opened<L: Logs>(
    ground: Ground<'_>,
    logs: &L,
    made: &Made,
    number: u32,
    place: u32,
) -> Result<Reel<L::Log>, ReplayFault> {
    let log = match logs.open(number) {
        Ok(log) => log,
        Err(loss) => return Err(fault_of(number, loss)),
    };
    let mut reading = Reading::new(ground.alloc, number, log)?;
    reading.heads()?;
    Ok(reel_of(ground, made, reading, place)?)
}

/// A log before its first line.
fn reel_of<R: Read + Drop>(
    ground: Ground<'_>,
    made: &Made,
    reading: Reading<R>,
    place: u32,
) -> Result<Reel<R>, AllocError> {
    let threads = ground.tables.threads.names.len();
    let cuts = made.cuts_of(ground.alloc, place, short(threads))?;
    Ok(Reel {
        reading,
        hands: hands_of(ground.alloc, threads)?,
        course: Course::new(ground.alloc, place, ground.tables.user_data.len(), cuts)?,
        is_over: false,
    })
}

impl<R: Read> Reel<R> {
    /// Reads on until there are enough events, or the log ends. Those that are replayed next are known then.
    pub fn fill(&mut self, ground: Ground<'_>, store: &mut Store) -> Result<(), ReplayFault> {
        for _ in 0..u64::MAX {
            if self.is_over || self.course.is_full() {
                break;
            }
            self.read_on(ground, store)?;
        }
        self.close(ground, &mut store.made)?;
        Ok(())
    }

    /// Reads a line.
    fn read_on(&mut self, ground: Ground<'_>, store: &mut Store) -> Result<(), ReplayFault> {
        match self.reading.next(ground.alloc, &mut store.recorder)? {
            More::Nothing => {}
            More::Step(step) => self.step(ground, &mut store.made, step)?,
            More::End => self.end(ground, &mut store.made)?,
        }
        Ok(())
    }

    /// A thread does what a line says.
    fn step(&mut self, ground: Ground<'_>, made: &mut Made, step: Step) -> Result<(), AllocError> {
        let step = ground.tables.step(step);
        match self.hands.get_mut(step.thread as usize) {
            Some(hand) => made.step(ground, &mut self.course, hand, step),
            None => Ok(()),
        }
    }

    /// The log ends.
    fn end(&mut self, ground: Ground<'_>, made: &mut Made) -> Result<(), AllocError> {
        self.is_over = true;
        for thread in 0..self.hands.len() {
            if let Some(hand) = self.hands.get_mut(thread) {
                made.end(ground, &mut self.course, hand, short(thread))?;
            }
        }
        Ok(())
    }

    /// Requests that a thread still makes are an event, where this is replayed next.
    fn close(&mut self, ground: Ground<'_>, made: &mut Made) -> Result<(), AllocError> {
        let end = self.course.first.saturating_add(short(self.block()));
        for thread in 0..self.hands.len() {
            if let Some(hand) = self.hands.get_mut(thread)
                && hand.is_before(end)
            {
                made.close(ground, &mut self.course, hand, short(thread))?;
            }
        }
        Ok(())
    }

    /// Forgets the events that were replayed.
    pub fn go_on(&mut self, ground: Ground<'_>) -> Result<(), AllocError> {
        let count = self.block();
        self.course.forget(ground.alloc, count)
    }
}

impl<R> Reel<R> {
    /// How many events are replayed next.
    pub fn block(&self) -> usize {
        self.course.block(self.is_over)
    }
}
