//! Where a draft goes past the limits of the notation.

use crate::names::MOST_LETTERS;
use crate::threads::{Drawn, note};
use rc_replay::replayed::Replayed;
use rc_text::text::put_number;
use std::alloc::{AllocError, Global};

/// Notes what is past a limit.
pub fn note_limits(
    alloc: Global,
    notes: &mut Vec<Vec<u8>>,
    replayed: &Replayed,
    drawn: &[Drawn],
) -> Result<(), AllocError> {
    note_counts(alloc, notes, replayed, drawn)?;
    note_numbers(alloc, notes, replayed)?;
    for thread in &replayed.threads {
        note_thread(notes, &thread.name)?;
    }
    for buffer in &replayed.buffers {
        note_name(notes, b"buffer ", &buffer.name)?;
    }
    for pool in &replayed.pools {
        note_name(notes, b"pool ", pool)?;
    }
    Ok(())
}

// Notes of what there are too many.
fn note_counts(
    alloc: Global,
    notes: &mut Vec<Vec<u8>>,
    replayed: &Replayed,
    drawn: &[Drawn],
) -> Result<(), AllocError> {
    let pools = replayed.pools.len().saturating_add(own_pools(drawn));
    let counts: [(usize, usize, &[u8]); 5] = [
        (replayed.threads.len(), 16, b" threads"),
        (replayed.files.len(), 16, b" files"),
        (replayed.buffers.len(), 64, b" buffers"),
        (replayed.tokens.len(), 256, b" tokens"),
        (pools, 16, b" pools"),
    ];
    for (count, most, words) in counts {
        note_count(alloc, notes, count, most, words)?;
    }
    let completions = replayed.completions.min(2048) as usize;
    if replayed.tokens.len() > completions {
        note_over(
            alloc,
            notes,
            replayed.tokens.len(),
            completions,
            b" requests at a time",
        )?;
    }
    Ok(())
}

fn own_pools(drawn: &[Drawn]) -> usize {
    let mut pools = 0usize;
    for drawn in drawn {
        if drawn.body.has_own {
            pools = pools.saturating_add(1);
        }
    }
    pools
}

fn note_count(
    alloc: Global,
    notes: &mut Vec<Vec<u8>>,
    count: usize,
    most: usize,
    words: &[u8],
) -> Result<(), AllocError> {
    if count <= most {
        return Ok(());
    }
    note_over(alloc, notes, count, most, words)
}

fn note_over(
    alloc: Global,
    notes: &mut Vec<Vec<u8>>,
    count: usize,
    most: usize,
    words: &[u8],
) -> Result<(), AllocError> {
    let count = decimal(alloc, count)?;
    let most = decimal(alloc, most)?;
    note(
        notes,
        &[
            b"the logs have ",
            &count,
            words,
            b"; a model has at most ",
            &most,
        ],
    )
}

fn decimal(alloc: Global, number: usize) -> Result<Vec<u8>, AllocError> {
    let mut text = Vec::new(alloc);
    put_number(&mut text, number as u64)?;
    Ok(text)
}

// Notes of files and shares whose numbers are too large.
fn note_numbers(
    alloc: Global,
    notes: &mut Vec<Vec<u8>>,
    replayed: &Replayed,
) -> Result<(), AllocError> {
    for file in &replayed.files {
        if *file > 1023 {
            note_number(
                alloc,
                notes,
                b"file ",
                *file,
                b": the numbers of files go to 1023",
            )?;
        }
    }
    for buffer in &replayed.buffers {
        if buffer.shares > 16 {
            note(
                notes,
                &[
                    b"buffer ",
                    &buffer.name,
                    b" is shared by more than 16 at a time",
                ],
            )?;
        }
    }
    Ok(())
}

fn note_number(
    alloc: Global,
    notes: &mut Vec<Vec<u8>>,
    before: &[u8],
    number: u32,
    after: &[u8],
) -> Result<(), AllocError> {
    let number = decimal(alloc, number as usize)?;
    note(notes, &[before, &number, after])
}

// Notes a thread's name that no draft has.
fn note_thread(notes: &mut Vec<Vec<u8>>, name: &[u8]) -> Result<(), AllocError> {
    if name.contains(&b'[') {
        let why: &[u8] = b": a draft has no copies of threads; log it by RINGCHECK_THREAD";
        return note(notes, &[b"thread ", name, why]);
    }
    note_name(notes, b"thread ", name)
}

// Notes a name that no model has.
fn note_name(notes: &mut Vec<Vec<u8>>, what: &[u8], name: &[u8]) -> Result<(), AllocError> {
    if name.len() > MOST_LETTERS {
        note(notes, &[what, name, b": a name has at most 16 letters"])?;
    }
    if rc_read::reserved::is_reserved_by(5, name) {
        note(notes, &[what, name, b": this word is reserved"])?;
    }
    Ok(())
}

/// Notes where a text has too many lines or blocks, or too long a line.
pub fn note_text(notes: &mut Vec<Vec<u8>>, text: &[u8]) -> Result<(), AllocError> {
    let mut lines = 0usize;
    let mut longest = 0usize;
    let mut deepest = 0usize;
    let mut width = 0usize;
    let mut blanks = 0usize;
    for byte in text {
        if *byte == b'\n' {
            lines = lines.saturating_add(1);
            longest = longest.max(width);
            deepest = deepest.max(blanks);
            width = 0;
            blanks = 0;
        } else {
            if *byte == b' ' && blanks == width {
                blanks = blanks.saturating_add(1);
            }
            width = width.saturating_add(1);
        }
    }
    note_past(notes, lines > 4096, b"the text has more than 4096 lines")?;
    note_past(
        notes,
        longest > 256,
        b"a line of the text has more than 256 bytes",
    )?;
    note_past(
        notes,
        deepest > 128,
        b"the text has more than 32 blocks in one another",
    )
}

fn note_past(notes: &mut Vec<Vec<u8>>, is_past: bool, words: &[u8]) -> Result<(), AllocError> {
    if is_past {
        note(notes, &[words])?;
    }
    Ok(())
}
