//! Phases: rows one after another in which something stays the same.

use crate::picture::Picture;
use rc_story::fault::Side;
use rc_story::story::Story;
use rc_world::world::Slot;

/// What may stay the same from row to row.
#[derive(Clone, Copy)]
pub enum Gauge<'p> {
    /// Who moves.
    Mover,
    /// Who holds the lock of a side.
    Lock(Side),
    /// How many entries of the ring of a side are used.
    Ring(Side),
    /// How many there are of an item of a pool, by row.
    Levels(&'p [u64]),
}

/// What a gauge shows: a lane, and how many entries or items there are, and of the submission ring how many are open.
#[derive(Clone, Copy, PartialEq)]
pub struct Shown {
    pub lane: Option<u32>,
    pub filled: u64,
    pub opened: u64,
}

/// Rows in which a gauge shows the same: where they end, and their heights.
#[derive(Clone, Copy)]
pub struct Phase {
    pub shown: Shown,
    pub end: usize,
    pub top: u64,
    pub bottom: u64,
}

impl Shown {
    /// How many entries are used.
    pub fn used(self) -> u64 {
        self.filled.saturating_add(self.opened)
    }
}

/// What a gauge shows at a row.
pub fn shown_at(story: &Story<'_, '_>, gauge: Gauge<'_>, row: usize) -> Shown {
    let mut shown = Shown {
        lane: None,
        filled: 0,
        opened: 0,
    };
    let Some(here) = story.rows.get(row) else {
        return shown;
    };
    match gauge {
        Gauge::Mover => shown.lane = here.mover,
        Gauge::Lock(Side::Submission) => shown.lane = here.after.holders.sq,
        Gauge::Lock(Side::Completion) => shown.lane = here.after.holders.cq,
        Gauge::Ring(Side::Submission) => {
            shown.filled = here.after.queued;
            shown.opened = u64::from(!matches!(here.after.slot, Slot::Closed));
        }
        Gauge::Ring(Side::Completion) => shown.filled = here.after.completions,
        Gauge::Levels(levels) => shown.filled = levels.get(row).copied().unwrap_or(0),
    }
    shown
}

/// Whether a phase begins at a row.
pub fn begins(story: &Story<'_, '_>, gauge: Gauge<'_>, row: usize) -> bool {
    row == 0 || shown_at(story, gauge, row) != shown_at(story, gauge, row - 1)
}

/// The phase that begins at a row, if one does.
pub fn phase_at(picture: &Picture<'_, '_>, gauge: Gauge<'_>, row: usize) -> Option<Phase> {
    let story = &picture.story;
    if !begins(story, gauge, row) {
        return None;
    }
    let count = story.rows.len();
    let mut end = count;
    for later in row.saturating_add(1)..count {
        if begins(story, gauge, later) {
            end = later;
            break;
        }
    }
    Some(Phase {
        shown: shown_at(story, gauge, row),
        end,
        top: phase_top(picture, row),
        bottom: picture.height(end.saturating_add(1)),
    })
}

/// How high up a phase begins that begins at a row: at the top where it was there before.
pub fn phase_top(picture: &Picture<'_, '_>, row: usize) -> u64 {
    if row == 0 && picture.story.run.cut > 0 {
        picture.top
    } else {
        picture.mid(row)
    }
}
