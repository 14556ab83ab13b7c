//! The requests of each buffer: how many beside each other, and where.

use crate::canvas::{plus, sum, times};
use rc_story::courses::{Course, Stage};
use rc_story::pen::length_of;
use rc_story::story::Story;
use rc_text::names::buffer_name;
use std::alloc::{AllocError, Global};

/// The requests of a buffer, or those without one.
#[derive(Drop)]
pub struct Group {
    /// How many bytes its title has.
    bytes: u64,
    pub has_buffer: bool,
    /// Whether there is anything to draw: it has a request, or its buffer is touched.
    pub is_drawn: bool,
    /// Where it begins.
    pub start: u64,
    lanes: Vec<Lane>,
}

/// A lane of a group: the place where the last request in it ends, the bytes of the longest label, and the middle of its
/// bars.
#[derive(Clone, Copy)]
struct Lane {
    end: usize,
    bytes: u64,
    middle: u64,
}

/// Where a request is: its group, its lane there, and the middle of its bar.
#[derive(Clone, Copy)]
pub struct Bar {
    pub group: usize,
    lane: usize,
    pub x: u64,
}

/// All groups, and where each request is.
#[derive(Drop)]
pub struct Groups {
    pub all: Vec<Group>,
    pub bars: Vec<Bar>,
    /// Whether there are so many that labels are short.
    pub is_narrow: bool,
    /// Where the last ends.
    pub end: u64,
}

impl Group {
    /// Lays a request, which is alone in this lane, in the first lane that is free at the place where it begins. Answers
    /// which that is.
    fn lay(&mut self, lane: Lane, top: usize) -> Result<usize, AllocError> {
        let count = self.lanes.len();
        for place in 0..count {
            if let Some(there) = self.lanes.get_mut(place)
                && there.end < top
            {
                there.end = lane.end;
                there.bytes = there.bytes.max(lane.bytes);
                return Ok(place);
            }
        }
        self.lanes.push(lane)?;
        Ok(count)
    }

    /// Has it begin here, if it is drawn; a buffer has its own line before the lanes. Answers where it ends.
    fn set(&mut self, start: u64) -> u64 {
        self.start = start;
        if !self.is_drawn {
            return start;
        }
        let mut x = plus(start, if self.has_buffer { 20 } else { 8 });
        for lane in &mut self.lanes {
            lane.middle = plus(x, 7);
            x = sum(&[x, 30, times(6, lane.bytes)]);
        }
        plus(x.max(sum(&[start, times(7, self.bytes), 8])), 6)
    }
}

/// The groups from here on.
pub fn groups_of(alloc: Global, story: &Story<'_, '_>, start: u64) -> Result<Groups, AllocError> {
    let mut groups = Groups {
        all: empty_groups(alloc, story)?,
        bars: Vec::new(alloc),
        is_narrow: false,
        end: start,
    };
    let mut count: u64 = 0;
    for group in &groups.all {
        count = count.saturating_add(u64::from(group.is_drawn));
    }
    groups.is_narrow = count > 8;
    for course in &story.courses {
        groups.push_bar(story, course)?;
    }
    groups.set();
    Ok(groups)
}

/// A group for each buffer, and one for the requests without one, before they are set.
fn empty_groups(alloc: Global, story: &Story<'_, '_>) -> Result<Vec<Group>, AllocError> {
    let count = story.run.program.buffers().len();
    let mut groups = Vec::new(alloc);
    for place in 0..count.saturating_add(1) {
        groups.push(Group {
            bytes: title_of(story, place).len() as u64,
            has_buffer: place < count,
            is_drawn: is_drawn(story, place),
            start: 0,
            lanes: Vec::new(alloc),
        })?;
    }
    Ok(groups)
}

/// The name of a group's buffer.
pub fn title_of<'a>(story: &Story<'_, 'a>, group: usize) -> &'a [u8] {
    if group < story.run.program.buffers().len() {
        buffer_name(story.run.program, group)
    } else {
        b"no buffer"
    }
}

/// Whether a group is drawn: it has a request, or its buffer is touched.
fn is_drawn(story: &Story<'_, '_>, group: usize) -> bool {
    for course in &story.courses {
        if story.group_of(course) == group {
            return true;
        }
    }
    for row in &story.rows {
        if matches!(row.touch, Some(touch) if touch.buffer == group) {
            return true;
        }
    }
    false
}

impl Groups {
    /// Lays a request in a lane of its group.
    fn push_bar(&mut self, story: &Story<'_, '_>, course: &Course) -> Result<(), AllocError> {
        let cut = story.run.cut;
        let mut bytes = 0;
        if course.event(Stage::Opened) <= cut {
            bytes = length_of(&course.old_label(cut, self.is_narrow));
        }
        for stage in Stage::ALL {
            if cut < course.event(stage) {
                bytes = length_of(&course.label(stage, self.is_narrow)).max(bytes);
            }
        }
        let lane = Lane {
            end: story.place_at(course, Stage::Reaped),
            bytes,
            middle: 0,
        };
        let group = story.group_of(course);
        if let Some(there) = self.all.get_mut(group) {
            let lane = there.lay(lane, story.place_at(course, Stage::Opened))?;
            self.bars.push(Bar { group, lane, x: 0 })?;
        }
        Ok(())
    }

    /// Sets the groups one beside the other.
    fn set(&mut self) {
        for group in &mut self.all {
            self.end = group.set(self.end);
        }
        for bar in &mut self.bars {
            if let Some(group) = self.all.get(bar.group)
                && let Some(lane) = group.lanes.get(bar.lane)
            {
                bar.x = lane.middle;
            }
        }
    }
}
