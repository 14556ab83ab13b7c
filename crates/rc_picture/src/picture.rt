//! A picture: what is drawn, and where it is.

use crate::canvas::{plus, sum, times};
use crate::columns::{Columns, columns_of};
use crate::groups::{Groups, groups_of};
use crate::head::{Span, head_of, spans_of};
use crate::rings::{Ring, Strip, ring_of, strips_of};
use rc_story::fault::Side;
use rc_story::story::Story;
use std::alloc::{AllocError, Global};

/// What is drawn, and where, in px.
#[derive(Drop)]
pub struct Picture<'s, 'a> {
    pub story: Story<'s, 'a>,
    /// The columns before the groups.
    pub columns: Columns,
    /// The requests of each buffer, and those without one.
    pub groups: Groups,
    /// The tubes of the rings.
    sq: Ring,
    cq: Ring,
    /// The strips of the pools.
    pub strips: Vec<Strip>,
    /// The lines of the sentence.
    pub spans: Vec<Span>,
    pub width: u64,
    /// Where the head ends.
    pub head: u64,
    /// The top of the rows.
    pub top: u64,
    /// Their bottom.
    pub bottom: u64,
}

/// The picture of a story.
pub fn picture_of<'s, 'a>(
    alloc: Global,
    story: Story<'s, 'a>,
) -> Result<Picture<'s, 'a>, AllocError> {
    let program = story.run.program;
    let columns = columns_of(&story);
    let groups = groups_of(alloc, &story, columns.groups)?;
    let sq = ring_of(Side::Submission, program.entries(), plus(groups.end, 4));
    let cq = ring_of(Side::Completion, program.completion_entries(), sq.end);
    let (strips, right) = strips_of(alloc, &story, cq.end)?;
    let width = plus(right, 8).max(620);
    let spans = spans_of(alloc, &story.why.words, width)?;
    let head = head_of(&story, spans.len());
    let top = plus(head, 4);
    Ok(Picture {
        columns,
        groups,
        sq,
        cq,
        strips,
        spans,
        width,
        head,
        top,
        bottom: plus(top, times(18, story.rows.len() as u64)),
        story,
    })
}

impl Picture<'_, '_> {
    /// Both rings.
    pub fn rings(&self) -> [Ring; 2] {
        [self.sq, self.cq]
    }

    /// The top of a row.
    pub fn row_top(&self, row: usize) -> u64 {
        plus(self.top, times(18, row as u64))
    }

    /// The middle of a row.
    pub fn mid(&self, row: usize) -> u64 {
        plus(self.row_top(row), 9)
    }

    /// Where the texts of a row stand.
    pub fn base(&self, row: usize) -> u64 {
        plus(self.row_top(row), 13)
    }

    /// The height of a place: the top above the rows, the middle of its row, or the bottom below them.
    pub fn height(&self, place: usize) -> u64 {
        if place == 0 {
            self.top
        } else if place <= self.story.rows.len() {
            self.mid(place - 1)
        } else {
            self.bottom
        }
    }

    /// The middle of a lane.
    pub fn lane(&self, lane: u32) -> u64 {
        sum(&[self.columns.lanes, times(20, u64::from(lane)), 10])
    }

    /// The line of a buffer.
    pub fn buffer(&self, buffer: usize) -> u64 {
        match self.groups.all.get(buffer) {
            Some(group) => plus(group.start, 5),
            None => 5,
        }
    }
}
