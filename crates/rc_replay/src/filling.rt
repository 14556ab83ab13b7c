//! The tables of what a replay gives.

use crate::making::{Ground, Made};
use crate::names::{at, set, short};
use crate::notes::Notes;
use crate::outcome::Outcome;
use crate::recording::Recorder;
use crate::replayed::{Buffer, Thing, Thread, Token};
use crate::stage::{Learned, Stage};
use rc_text::text::{put_counted, put_number, put_piece};
use std::alloc::{AllocError, Global};

/// The buffers.
pub fn buffers_of(stage: Stage<'_>) -> Result<Vec<Buffer>, AllocError> {
    let ground = stage.ground;
    let bytes = bytes_of(ground)?;
    let mut buffers = Vec::new(ground.alloc);
    for (place, name) in ground.tables.buffers.names.iter().enumerate() {
        let number = short(place);
        buffers.push(Buffer {
            name: name.clone()?,
            bytes: at(&bytes, number, 1),
            shares: at(stage.totals, number, 1),
            thing: number,
        })?;
    }
    Ok(buffers)
}

/// Of each buffer the most bytes that a request moves.
fn bytes_of(ground: Ground<'_>) -> Result<Vec<u32>, AllocError> {
    let mut bytes = vec![in ground.alloc; 1; ground.tables.buffers.names.len()]?;
    for asked in &ground.tables.asked {
        if let Some(buffer) = asked.buffer {
            let most = at(&bytes, buffer, 1).max(asked.len);
            set(&mut bytes, buffer, most);
        }
    }
    Ok(bytes)
}

/// The threads, which begin with these holdings.
pub fn threads_of(
    stage: Stage<'_>,
    made: &Made,
    learned: &Learned,
    outcome: &mut Outcome,
) -> Result<Vec<Thread>, AllocError> {
    let shared = made.locking.shared();
    let mut threads = Vec::new(stage.ground.alloc);
    for (place, name) in stage.ground.tables.threads.names.iter().enumerate() {
        let start = match learned.starts.get(place) {
            Some(shares) => outcome.holding(stage, shares)?,
            None => 0,
        };
        let (has_reaps, has_early) = at(&outcome.reaps, short(place), (false, false));
        threads.push(Thread {
            name: name.clone()?,
            start,
            keeps: made.locking.kept_by(short(place), shared),
            has_reaps,
            has_early,
        })?;
    }
    Ok(threads)
}

/// The numbers of files, rising.
pub fn files_of(ground: Ground<'_>) -> Result<Vec<u32>, AllocError> {
    let mut all = Vec::from_slice(ground.alloc, &ground.survey.files)?;
    for asked in &ground.tables.asked {
        if let Some(file) = asked.file {
            all.push(file)?;
        }
    }
    all.sort()?;
    let mut files: Vec<u32> = Vec::new(ground.alloc);
    for file in all {
        if files.last().copied() != Some(file) {
            files.push(file)?;
        }
    }
    Ok(files)
}

/// The least rings of the logs: the entries of both, and whether all have these.
pub fn rings_of(recorder: &Recorder) -> (u32, u32, bool) {
    let Some(first) = recorder.logs.first() else {
        return (1, 1, true);
    };
    let (mut entries, mut completions) = (first.entries, first.completions);
    let mut is_same = true;
    for log in &recorder.logs {
        is_same = is_same && log.entries == first.entries && log.completions == first.completions;
        entries = log.entries.min(entries);
        completions = log.completions.min(completions);
    }
    (entries, completions, is_same)
}

/// Notes where the logs have different rings.
pub fn note_rings(alloc: Global, recorder: &Recorder, notes: &mut Notes) -> Result<(), AllocError> {
    let (entries, completions, is_same) = rings_of(recorder);
    if is_same {
        return Ok(());
    }
    let mut line = Vec::new(alloc);
    put_piece(
        &mut line,
        b"the logs have rings of different sizes, at least of ",
    )?;
    put_number(&mut line, u64::from(entries))?;
    put_counted(
        &mut line,
        b" and ",
        u64::from(completions),
        b" entries: the model has these",
    )?;
    notes.add(line)
}

/// The tokens, with whether their completions were found twice.
pub fn tokens_of(ground: Ground<'_>, made: &Made) -> Result<Vec<Token>, AllocError> {
    let mut tokens = Vec::new(ground.alloc);
    for token in 0..short(ground.tables.user_data.len()) {
        let is_twice = at(&made.is_twice, token, false);
        tokens.push(ground.parts.token(ground.tables, token, is_twice))?;
    }
    Ok(tokens)
}

/// The things once more.
pub fn things_of(ground: Ground<'_>) -> Result<Vec<Thing>, AllocError> {
    let mut things = Vec::new(ground.alloc);
    for thing in &ground.parts.things {
        things.push(Thing {
            parts: Vec::from_slice(ground.alloc, &thing.parts)?,
        })?;
    }
    Ok(things)
}

/// These names once more.
pub fn names_of(alloc: Global, names: &[Vec<u8>]) -> Result<Vec<Vec<u8>>, AllocError> {
    let mut copied = Vec::new(alloc);
    for name in names {
        copied.push(name.clone()?)?;
    }
    Ok(copied)
}
