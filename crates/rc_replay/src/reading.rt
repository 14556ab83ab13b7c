//! A recorded log that is read again.

use crate::again::{Loss, ReplayFault, fault_of};
use crate::recording::Recorder;
use crate::steps::Step;
use crate::sums::{NO_SUM, summed};
use crate::told::{Told, told_by};
use rc_log::reader::{LogFault, LogReader, Next};
use std::alloc::{AllocError, Global};
use std::io::Read;

/// A recorded log that is read again.
#[derive(Drop)]
pub struct Reading<R> {
    log: LogReader<R>,
    number: u32,
    sum: u64,
}

/// What comes next in a log.
#[derive(Clone, Copy)]
pub enum More {
    /// A line that says nothing.
    Nothing,
    Step(Step),
    /// Its end.
    End,
}

/// Why a log isn't read on.
fn loss_of(fault: LogFault) -> Loss {
    match fault {
        LogFault::OutOfMemory => Loss::OutOfMemory,
        LogFault::Failed(error) => Loss::Failed(error),
        LogFault::TooLong => Loss::Changed,
    }
}

impl<R: Read> Reading<R> {
    /// Before the first line of the log of this number.
    pub fn new(alloc: Global, number: u32, reader: R) -> Result<Reading<R>, AllocError>
    where
        R: Drop,
    {
        Ok(Reading {
            log: LogReader::new(alloc, reader)?,
            number,
            sum: NO_SUM,
        })
    }

    /// Reads the two lines before those that are recorded.
    pub fn heads(&mut self) -> Result<(), ReplayFault> {
        for _ in 0..2 {
            match self.log.next_line() {
                Ok(Next::Line) => {}
                Ok(_) => return Err(fault_of(self.number, Loss::Changed)),
                Err(fault) => return Err(fault_of(self.number, loss_of(fault))),
            }
        }
        Ok(())
    }

    /// Reads the next line.
    pub fn next(&mut self, alloc: Global, recorder: &mut Recorder) -> Result<More, ReplayFault> {
        match self.log.next_line() {
            Ok(Next::Line) => self.more(alloc, recorder),
            Ok(_) => self.end(recorder),
            Err(fault) => Err(fault_of(self.number, loss_of(fault))),
        }
    }

    /// What the line says that was read.
    fn more(&mut self, alloc: Global, recorder: &mut Recorder) -> Result<More, ReplayFault> {
        let line = self.log.line();
        self.sum = summed(self.sum, line);
        match told_by(alloc, &recorder.program, &mut recorder.names, line)? {
            Told::Nothing => Ok(More::Nothing),
            Told::Step(step) => Ok(More::Step(step)),
            Told::Wrong(_) => Err(fault_of(self.number, Loss::Changed)),
        }
    }

    /// The log ends. It has to be what was recorded.
    fn end(&self, recorder: &Recorder) -> Result<More, ReplayFault> {
        match recorder.logs.get(self.number as usize) {
            Some(log) if log.sum == self.sum => Ok(More::End),
            _ => Err(fault_of(self.number, Loss::Changed)),
        }
    }
}
