//! Changes with which a line isn't refused.

use super::{Faulty, before};
use crate::actions::{Action, fills_of};
use crate::place::{Edit, edited, line_at, lines_of};
use rc_report::text::put_pieces;
use rc_rewrite::format::without_blanks;
use rc_rewrite::keeps::kept_text;
use rc_rules::cause::Cause;
use std::alloc::AllocError;

/// How many statements are tried that a lock could be around.
const MOST_TRIES: usize = 8;

/// Adds the changes with which a line isn't refused, by why it is.
pub fn push(actions: &mut Vec<Action>, faulty: &Faulty, cause: Cause) -> Result<(), AllocError> {
    match cause {
        Cause::Unlocked => push_locks(actions, faulty)?,
        Cause::NoSlot => push_line(actions, faulty, b"get_sqe")?,
        Cause::QueueLeft => push_submits(actions, faulty)?,
        Cause::NoCredit | Cause::NotSeen => push_line(actions, faulty, b"cqe_seen")?,
        Cause::NotWhole | Cause::NoShare | Cause::NoToken | Cause::NotHeld => {
            push_line(actions, faulty, b"cqe_seen")?;
            push_line(actions, faulty, b"cqe_get_data64")?
        }
        _ => {}
    }
    let fills = fills_of(faulty.alloc, faulty.text)?;
    let _ = faulty.offer(actions, b"Fill in the lists of the loops", fills)?;
    Ok(())
}

/// Offers a call above the line.
fn push_line(actions: &mut Vec<Action>, faulty: &Faulty, call: &[u8]) -> Result<(), AllocError> {
    let mut title = Vec::new(faulty.alloc);
    put_pieces(&mut title, &[b"Write `", call, b"` above this line"])?;
    let edit = faulty.above(faulty.line, &[call])?;
    let _ = faulty.offer_one(actions, &title, edit)?;
    Ok(())
}

/// Offers a lock around the line, and around as many statements after it as that needs.
fn push_locks(actions: &mut Vec<Action>, faulty: &Faulty) -> Result<(), AllocError> {
    let locks: [&[u8]; 3] = [b"lock {", b"lock sq {", b"lock cq {"];
    for lock in &locks {
        push_lock(actions, faulty, lock)?;
    }
    Ok(())
}

/// Offers this lock.
fn push_lock(actions: &mut Vec<Action>, faulty: &Faulty, lock: &[u8]) -> Result<(), AllocError> {
    let mut title = Vec::new(faulty.alloc);
    put_pieces(&mut title, &[b"Put it into `", lock, b"` .. `}`"])?;
    let mut line = faulty.line;
    for _ in 0..MOST_TRIES {
        let end = end_of(faulty, line);
        if offer_lock(actions, faulty, &title, lock, end)? {
            return Ok(());
        }
        line = end.saturating_add(1);
        if faulty.ends_block(line) {
            return Ok(());
        }
    }
    Ok(())
}

/// Offers this lock around the lines up to another, and says whether the model is better with it.
fn offer_lock(
    actions: &mut Vec<Action>,
    faulty: &Faulty,
    title: &[u8],
    lock: &[u8],
    end: usize,
) -> Result<bool, AllocError> {
    let edits = around(faulty, lock, end)?;
    faulty.offer(actions, title, edits)
}

/// The last line of the statement that begins on a line.
fn end_of(faulty: &Faulty, line: usize) -> usize {
    let mut end = line;
    for block in &faulty.page.blocks {
        if block.line == end {
            if let Some((close, _)) = block.close {
                end = close;
            }
        }
    }
    end
}

/// A lock around the lines from the one at fault to another, which are indented by one more step.
fn around<'s>(faulty: &'s Faulty<'_>, lock: &'s [u8], end: usize) -> Result<Vec<Edit>, AllocError> {
    let mut edits = Vec::new(faulty.alloc);
    let indent = faulty.indent(faulty.line)?;
    let behind = end.saturating_add(1);
    push_before(faulty, &mut edits, faulty.line, &[indent, lock, b"\n    "])?;
    for line in faulty.line.saturating_add(1)..behind {
        push_before(faulty, &mut edits, line, &[b"    "])?;
    }
    push_before(faulty, &mut edits, behind, &[indent, b"}\n"])?;
    Ok(edits)
}

/// Adds an edit that puts these pieces before a line.
fn push_before(
    faulty: &Faulty,
    edits: &mut Vec<Edit>,
    line: usize,
    pieces: &[&[u8]],
) -> Result<(), AllocError> {
    let mut text = Vec::new(faulty.alloc);
    put_pieces(&mut text, pieces)?;
    let range = before(line);
    edits.push(Edit { range, text })?;
    Ok(())
}

/// Offers submits until nothing is queued, above the line that releases the lock.
fn push_submits(actions: &mut Vec<Action>, faulty: &Faulty) -> Result<(), AllocError> {
    let unfilled = submits(faulty, b"loop keeps {")?;
    let mut edits = Vec::new(faulty.alloc);
    edits.push(unfilled)?;
    let text = edited(faulty.alloc, faulty.text, &edits)?;
    let Ok(kept) = kept_text(faulty.alloc, &text)? else {
        return Ok(());
    };
    let lines = lines_of(faulty.alloc, &kept)?;
    let filled = submits(faulty, without_blanks(line_at(&lines, faulty.line)))?;
    let _ = faulty.offer_one(actions, b"Submit until nothing is queued", filled)?;
    Ok(())
}

/// A loop that submits, with this line at its top.
fn submits(faulty: &Faulty, top: &[u8]) -> Result<Edit, AllocError> {
    faulty.above(
        faulty.line,
        &[
            top,
            b"    r = submit",
            b"    if sq_ready == 0 {",
            b"        break",
            b"    }",
            b"}",
        ],
    )
}
