//! Changes of a model that are offered.

use crate::fixes::push_fixes;
use crate::place::{Edit, Range, edits_to, line_at, lines_of, push_edit};
use crate::words::begins_with;
use rc_rewrite::keeps::kept_text;
use std::alloc::{AllocError, Global};

/// A change: its name, its edits, and whether it fixes a line that is refused or can't be read.
#[derive(Drop)]
pub struct Action {
    pub title: Vec<u8>,
    pub edits: Vec<Edit>,
    pub is_fix: bool,
}

/// The changes that are offered for the lines of a range: those with which a line in it isn't at fault any more, and the
/// lists of its loops as `ringcheck keeps` fills them.
pub fn actions(alloc: Global, text: &[u8], range: Range) -> Result<Vec<Action>, AllocError> {
    let mut actions = Vec::new(alloc);
    push_fixes(alloc, &mut actions, text, range)?;
    push_fills(alloc, &mut actions, text, range)?;
    Ok(actions)
}

/// The lines of loops that other items could be in.
pub fn fills_of(alloc: Global, text: &[u8]) -> Result<Vec<Edit>, AllocError> {
    match kept_text(alloc, text)? {
        Ok(kept) => edits_to(alloc, text, &kept),
        Err(_) => Ok(Vec::new(alloc)),
    }
}

/// Adds the filling of each loop in a range, and of all loops.
fn push_fills(
    alloc: Global,
    actions: &mut Vec<Action>,
    text: &[u8],
    range: Range,
) -> Result<(), AllocError> {
    let lines = lines_of(alloc, text)?;
    let first = range.start.line as usize;
    if !begins_with(line_at(&lines, first), b"loop") {
        return Ok(());
    }
    let fills = fills_of(alloc, text)?;
    for fill in &fills {
        if fill.range.start.line == range.start.line {
            push_fill(alloc, actions, fill)?;
        }
    }
    if fills.len() > 1 {
        push_action(
            alloc,
            actions,
            b"Fill in the lists of all loops",
            fills,
            false,
        )?;
    }
    Ok(())
}

/// Adds the filling of one loop.
fn push_fill(alloc: Global, actions: &mut Vec<Action>, fill: &Edit) -> Result<(), AllocError> {
    let mut edits = Vec::new(alloc);
    push_edit(alloc, &mut edits, fill.range, &fill.text)?;
    push_action(alloc, actions, b"Fill in this loop's list", edits, false)
}

/// Adds a change.
pub fn push_action(
    alloc: Global,
    actions: &mut Vec<Action>,
    title: &[u8],
    edits: Vec<Edit>,
    is_fix: bool,
) -> Result<(), AllocError> {
    actions.push(Action {
        title: Vec::from_slice(alloc, title)?,
        edits,
        is_fix,
    })?;
    Ok(())
}
