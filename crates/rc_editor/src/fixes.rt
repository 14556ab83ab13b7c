//! Changes with which a line isn't at fault any more.

mod reading;
mod ruling;

use crate::actions::{Action, push_action};
use crate::known::put_line;
use crate::page::Page;
use crate::place::{Edit, Position, Range, edited, number_of, up_to};
use crate::words::{Words, begins_with};
use rc_admit::admitted::{Judged, judge};
use std::alloc::{AllocError, Global};

/// How far a model is from being accepted: whether it can be read, whether it is accepted, and how many lines are after
/// the one at fault.
#[derive(Clone, Copy)]
struct Standing {
    is_read: bool,
    is_accepted: bool,
    rest: usize,
}

impl Standing {
    /// The standing of a model that was judged.
    fn of(judged: &Judged, text: &[u8]) -> Standing {
        match judged {
            Judged::Admitted(_) => Standing {
                is_read: true,
                is_accepted: true,
                rest: 0,
            },
            Judged::Refused(_, refusal) => Standing {
                is_read: true,
                is_accepted: false,
                rest: lines_after(text, refusal.line),
            },
            Judged::Unread { line, .. } => Standing {
                is_read: false,
                is_accepted: false,
                rest: lines_after(text, *line),
            },
        }
    }

    /// Whether a model is better than another.
    fn is_above(self, other: Standing) -> bool {
        if self.is_read != other.is_read {
            return self.is_read;
        }
        if self.is_accepted != other.is_accepted {
            return self.is_accepted;
        }
        self.rest < other.rest
    }
}

/// How many lines a model has after one, by its number, from 1.
fn lines_after(text: &[u8], line: u32) -> usize {
    let feeds = text.iter().filter(|b| **b == b'\n').count();
    feeds.saturating_sub(line as usize)
}

/// A model whose line, from 0, is at fault.
#[derive(Drop)]
struct Faulty<'a> {
    alloc: Global,
    text: &'a [u8],
    page: Page<'a>,
    line: usize,
    standing: Standing,
}

/// Adds the changes with which the line at fault isn't any more, if it is in a range.
pub fn push_fixes(
    alloc: Global,
    actions: &mut Vec<Action>,
    text: &[u8],
    range: Range,
) -> Result<(), AllocError> {
    let judged = judge(alloc, text)?;
    match line_at_fault(&judged) {
        Some(line) if range.start.line <= line && line <= range.end.line => {
            push_fixes_of(alloc, actions, text, &judged, line)
        }
        _ => Ok(()),
    }
}

/// The line at fault, from 0.
fn line_at_fault(judged: &Judged) -> Option<u32> {
    match judged {
        Judged::Admitted(_) => None,
        Judged::Refused(_, refusal) => Some(refusal.line.saturating_sub(1)),
        Judged::Unread { line, .. } => Some(line.saturating_sub(1)),
    }
}

/// Adds the changes with which this line isn't at fault any more.
fn push_fixes_of(
    alloc: Global,
    actions: &mut Vec<Action>,
    text: &[u8],
    judged: &Judged,
    line: u32,
) -> Result<(), AllocError> {
    let faulty = Faulty {
        alloc,
        text,
        page: Page::of(alloc, text)?,
        line: line as usize,
        standing: Standing::of(judged, text),
    };
    match judged {
        Judged::Unread { cause, above, .. } => reading::push(actions, &faulty, *cause, above),
        Judged::Refused(_, refusal) => ruling::push(actions, &faulty, refusal.cause),
        Judged::Admitted(_) => Ok(()),
    }
}

impl Faulty<'_> {
    /// Adds a change, if the model is better with it, and says whether it is.
    fn offer(
        &self,
        actions: &mut Vec<Action>,
        title: &[u8],
        edits: Vec<Edit>,
    ) -> Result<bool, AllocError> {
        let is_better = self.is_better_with(&edits)?;
        if is_better {
            push_action(self.alloc, actions, title, edits, true)?;
        }
        Ok(is_better)
    }

    /// Whether the model is better with these edits.
    fn is_better_with(&self, edits: &[Edit]) -> Result<bool, AllocError> {
        let text = edited(self.alloc, self.text, edits)?;
        let standing = standing_of(self.alloc, &text)?;
        Ok(standing.is_above(self.standing))
    }

    /// Adds a change of one edit, if the model is better with it.
    fn offer_one(
        &self,
        actions: &mut Vec<Action>,
        title: &[u8],
        edit: Edit,
    ) -> Result<bool, AllocError> {
        let mut edits = Vec::new(self.alloc);
        edits.push(edit)?;
        self.offer(actions, title, edits)
    }

    /// The words of a line.
    fn words(&self, line: usize) -> Result<Words<'_>, AllocError> {
        Words::of(self.alloc, self.page.line(line))
    }

    /// Whether a line ends a block.
    fn ends_block(&self, line: usize) -> bool {
        begins_with(self.page.line(line), b"}")
    }

    /// The blanks before the words of a line.
    fn indent(&self, line: usize) -> Result<&[u8], AllocError> {
        let start = self.words(line)?.word(0).start;
        Ok(up_to(self.page.line(line), start))
    }

    /// The blanks before a statement that is added above a line: before a closing brace as the line above it has them.
    fn indent_above(&self, line: usize) -> Result<&[u8], AllocError> {
        if self.ends_block(line) {
            return self.indent(line.saturating_sub(1));
        }
        self.indent(line)
    }

    /// These lines above a line, after blanks.
    fn above(&self, line: usize, texts: &[&[u8]]) -> Result<Edit, AllocError> {
        let indent = self.indent_above(line)?;
        let mut text = Vec::new(self.alloc);
        for added in texts {
            put_line(&mut text, indent, added)?;
        }
        let range = before(line);
        Ok(Edit { range, text })
    }
}

/// The standing of a model.
fn standing_of(alloc: Global, text: &[u8]) -> Result<Standing, AllocError> {
    let judged = judge(alloc, text)?;
    Ok(Standing::of(&judged, text))
}

/// The place before a line.
fn before(line: usize) -> Range {
    let at = Position {
        line: number_of(line),
        character: 0,
    };
    Range { start: at, end: at }
}
