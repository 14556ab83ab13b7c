//! Recording logs.

use crate::glance::Look;
use crate::mutexes::Mutexes;
use crate::steps::{Log, Names, Step};
use crate::sums::{NO_SUM, summed};
use crate::told::{Told, told_by};
use rc_lang::program::Program;
use rc_log::call::Why;
use rc_log::head::{is_head, read_ring};
use rc_log::reader::{LogFault, LogReader, Next};
use rc_log::words::word_at;
use rc_read::read_program;
use rc_text::text::put_pieces;
use std::alloc::{AllocError, Global};
use std::io::Read;

/// A model that has nothing, to which lines are held to see whether they can be read.
const NOTHING: &[u8] = b"ringcheck 5\nring 1\n";

/// Logs that were read. Their lines aren't kept.
#[derive(Drop)]
pub struct Recorder {
    pub(crate) program: Program,
    pub(crate) names: Names,
    pub(crate) logs: Vec<Log>,
}

/// How the reading of a log ended.
#[derive(Drop)]
pub enum Recorded {
    /// It was read to its end.
    Read,
    /// It was read, and it was full.
    Full,
    /// Line `number` can't be read, and why.
    Unreadable { number: u64, why: Vec<u8> },
}

impl Recorder {
    /// No logs.
    pub fn new(alloc: Global) -> Result<Recorder, AllocError> {
        Ok(Recorder {
            program: nothing(alloc)?,
            names: Names::new(alloc),
            logs: Vec::new(alloc),
        })
    }
}

/// A log under way.
#[derive(Drop)]
struct Draft {
    sum: u64,
    entries: u32,
    completions: u32,
    steps: u64,
    mutexes: Mutexes,
    look: Look,
}

/// Records a log. Answers `Failed` where a read failed, `OutOfMemory` where a growth was refused, and no other `Err`.
/// A log that isn't `Read` or `Full` leaves the recorder as it was.
pub fn record_log<R: Read + Drop>(
    alloc: Global,
    recorder: &mut Recorder,
    reader: R,
) -> Result<Recorded, LogFault> {
    let counts = recorder.names.counts();
    let mut draft = Draft {
        sum: NO_SUM,
        entries: 0,
        completions: 0,
        steps: 0,
        mutexes: Mutexes::new(),
        look: Look::new(alloc),
    };
    match record_lines(alloc, recorder, &mut draft, reader) {
        Ok(Recorded::Read) => keep(recorder, draft, Recorded::Read),
        Ok(Recorded::Full) => keep(recorder, draft, Recorded::Full),
        other => {
            recorder.names.forget(counts);
            other
        }
    }
}

/// Keeps what a log was that was read.
fn keep(recorder: &mut Recorder, draft: Draft, recorded: Recorded) -> Result<Recorded, LogFault> {
    let Draft {
        sum,
        entries,
        completions,
        steps,
        mutexes: _,
        look,
    } = draft;
    let log = Log {
        sum,
        entries,
        completions,
        steps,
        glance: look.into_glance(),
    };
    recorder.logs.push(log).map_err(AllocError::from)?;
    Ok(recorded)
}

/// Records the lines of a log.
fn record_lines<R: Read + Drop>(
    alloc: Global,
    recorder: &mut Recorder,
    draft: &mut Draft,
    reader: R,
) -> Result<Recorded, LogFault> {
    let mut log = LogReader::new(alloc, reader)?;
    if let Some(recorded) = read_heads(alloc, draft, &mut log)? {
        return Ok(recorded);
    }
    for number in 3..u64::MAX {
        if let Some(recorded) = record_next(alloc, recorder, draft, &mut log, number)? {
            return Ok(recorded);
        }
    }
    Ok(Recorded::Full)
}

/// A program that has nothing.
fn nothing(alloc: Global) -> Result<Program, AllocError> {
    match read_program(alloc, NOTHING) {
        Ok(program) => Ok(program),
        Err(_) => Err(AllocError),
    }
}

/// A line that can't be read.
fn unreadable(alloc: Global, number: u64, why: Why) -> Result<Recorded, AllocError> {
    Ok(Recorded::Unreadable {
        number,
        why: why.words().as_bytes().to_vec(alloc)?,
    })
}

/// A line that is too long; another fault stays one.
fn too_long(alloc: Global, number: u64, fault: LogFault) -> Result<Recorded, LogFault> {
    match fault {
        LogFault::TooLong => Ok(unreadable(alloc, number, Why::TooLong)?),
        fault => Err(fault),
    }
}

/// Reads the first two lines, and answers how the log ends there if it does.
fn read_heads<R: Read>(
    alloc: Global,
    draft: &mut Draft,
    log: &mut LogReader<R>,
) -> Result<Option<Recorded>, LogFault> {
    match log.next_line() {
        Ok(Next::Line) => {
            if !is_head(log.line()) {
                return Ok(Some(unreadable(alloc, 1, Why::NoHead)?));
            }
            read_rings(alloc, draft, log)
        }
        Ok(_) => Ok(Some(unreadable(alloc, 1, Why::NoHead)?)),
        Err(fault) => Ok(Some(too_long(alloc, 1, fault)?)),
    }
}

/// Reads the second line, and answers how the log ends there if it does.
fn read_rings<R: Read>(
    alloc: Global,
    draft: &mut Draft,
    log: &mut LogReader<R>,
) -> Result<Option<Recorded>, LogFault> {
    match log.next_line() {
        Ok(Next::Line) => {
            let Some((entries, completions)) = read_ring(log.line()) else {
                return Ok(Some(unreadable(alloc, 2, Why::NoRing)?));
            };
            draft.entries = entries;
            draft.completions = completions;
            Ok(None)
        }
        Ok(_) => Ok(Some(unreadable(alloc, 2, Why::NoRing)?)),
        Err(fault) => Ok(Some(too_long(alloc, 2, fault)?)),
    }
}

/// Records the next line, which has this number. Answers how the log ends here if it does.
fn record_next<R: Read>(
    alloc: Global,
    recorder: &mut Recorder,
    draft: &mut Draft,
    log: &mut LogReader<R>,
    number: u64,
) -> Result<Option<Recorded>, LogFault> {
    match log.next_line() {
        Ok(Next::Line) => Ok(record_line(alloc, recorder, draft, log.line(), number)?),
        Ok(Next::End) => Ok(Some(Recorded::Read)),
        Ok(Next::Full) => Ok(Some(Recorded::Full)),
        Err(fault) => Ok(Some(too_long(alloc, number, fault)?)),
    }
}

/// Records a line. Answers how the log ends here if it does.
fn record_line(
    alloc: Global,
    recorder: &mut Recorder,
    draft: &mut Draft,
    line: &[u8],
    number: u64,
) -> Result<Option<Recorded>, AllocError> {
    draft.sum = summed(draft.sum, line);
    match told_by(alloc, &recorder.program, &mut recorder.names, line)? {
        Told::Nothing => Ok(None),
        Told::Step(step) => record_step(alloc, &recorder.names, draft, step, number),
        Told::Wrong(why) => wrong_line(alloc, number, line, why),
    }
}

/// Looks at what a line says, unless it misuses a mutex.
fn record_step(
    alloc: Global,
    names: &Names,
    draft: &mut Draft,
    step: Step,
    number: u64,
) -> Result<Option<Recorded>, AllocError> {
    match draft.mutexes.misuse(alloc, names, step.thread, step.says)? {
        Some(why) => Ok(Some(Recorded::Unreadable { number, why })),
        None => look_at(names, draft, step),
    }
}

/// Looks at what a line says.
fn look_at(names: &Names, draft: &mut Draft, step: Step) -> Result<Option<Recorded>, AllocError> {
    draft.steps = draft.steps.saturating_add(1);
    draft.look.look_at(names, step)?;
    Ok(None)
}

/// A line that can't be read; where its words after the call are wrong, with the call.
fn wrong_line(
    alloc: Global,
    number: u64,
    line: &[u8],
    why: Why,
) -> Result<Option<Recorded>, AllocError> {
    let mut words = why.words().as_bytes().to_vec(alloc)?;
    if let Why::WrongWords = why {
        put_pieces(&mut words, &[b" ", word_at(line, 2)])?;
    }
    Ok(Some(Recorded::Unreadable { number, why: words }))
}
