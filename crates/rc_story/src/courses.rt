//! The courses of requests, from `get_sqe` to `cqe_seen`, or to `cqe_get_data64` before it.

use crate::fault::is_at_fault;
use crate::frames::Frame;
use crate::pen::NOTHING;
use crate::pen::Piece::{self, Number, Word};
use crate::run::Run;
use rc_lang::request::{Kind, Request};
use rc_world::event::{Action, Event};
use rc_world::world::Slot;
use std::alloc::{AllocError, Global};

/// A stage of a request.
#[derive(Clone, Copy, PartialEq)]
pub enum Stage {
    Opened,
    Prepared,
    Queued,
    Pending,
    Completed,
    Reaped,
}

impl Stage {
    /// All stages, in order.
    pub const ALL: [Stage; 6] = [
        Stage::Opened,
        Stage::Prepared,
        Stage::Queued,
        Stage::Pending,
        Stage::Completed,
        Stage::Reaped,
    ];

    /// The stage after a stage.
    pub fn next(self) -> Option<Stage> {
        Stage::ALL.get(self as usize + 1).copied()
    }

    /// Its name in labels and sentences.
    pub fn name(self) -> &'static [u8] {
        match self {
            Stage::Opened | Stage::Prepared => b"open",
            Stage::Queued => b"queued",
            Stage::Pending => b"pending",
            Stage::Completed => b"completed",
            Stage::Reaped => b"reaped",
        }
    }
}

/// A request.
#[derive(Clone, Copy)]
pub struct Course {
    /// The number of the event at which each of its stages begins, and 0 for those that don't.
    pub events: [u64; 6],
    /// The stage that it has reached.
    pub stage: Stage,
    /// The number of the request among all that are made, from 1.
    pub serial: u64,
    /// What was prepared, without its user data.
    pub request: Option<Request>,
    /// Its user data, once it is queued.
    pub user_data: u64,
    /// Whether it is at fault.
    pub is_at_fault: bool,
}

impl Course {
    /// The event at which a stage begins, and 0 where it doesn't.
    pub fn event(&self, stage: Stage) -> u64 {
        self.events.get(stage as usize).copied().unwrap_or(0)
    }

    /// Whether it has come to a stage.
    pub fn has(&self, stage: Stage) -> bool {
        self.event(stage) > 0
    }

    /// The event since which it has been in a stage; an entry is open since its `get_sqe`.
    pub fn since(&self, stage: Stage) -> u64 {
        match stage {
            Stage::Prepared => self.event(Stage::Opened),
            _ => self.event(stage),
        }
    }

    /// The last stage that begins at this event or before it.
    fn stage_at(&self, number: u64) -> Stage {
        let mut last = Stage::Opened;
        for stage in Stage::ALL {
            if self.has(stage) && self.event(stage) <= number {
                last = stage;
            }
        }
        last
    }

    /// The number of the buffer.
    pub fn buffer(&self) -> Option<usize> {
        let request = self.request?;
        match request.kind {
            Kind::Read | Kind::Write => Some(request.buffer as usize),
            Kind::Fsync | Kind::Nop | Kind::Other => None,
        }
    }

    /// Whether it is a read.
    pub fn is_read(&self) -> bool {
        matches!(self.request, Some(request) if request.kind == Kind::Read)
    }

    /// What it asks for.
    pub fn kind_name(&self) -> &'static [u8] {
        let Some(request) = self.request else {
            return b"";
        };
        match request.kind {
            Kind::Read => b"read",
            Kind::Write => b"write",
            Kind::Fsync => b"fsync",
            Kind::Nop => b"nop",
            Kind::Other => b"other",
        }
    }

    /// What is written beside a stage. Where there is no room, only the user data is left.
    pub fn label(&self, stage: Stage, is_narrow: bool) -> [Piece<'static>; 2] {
        let user_data = Number(self.user_data);
        match stage {
            Stage::Queued if is_narrow => [user_data, NOTHING],
            _ if is_narrow => [NOTHING; 2],
            Stage::Prepared => [Word(self.kind_name()), NOTHING],
            Stage::Queued => [user_data, Word(b" queued")],
            _ => [Word(stage.name()), NOTHING],
        }
    }

    /// The same of a request that was opened in events that are left out, up to this: the stage that it has there.
    pub fn old_label(&self, cut: u64, is_narrow: bool) -> [Piece<'static>; 5] {
        let stage = self.stage_at(cut);
        let name = Word(stage.name());
        let user_data = Number(self.user_data);
        let since = [Word(b" since "), Number(self.since(stage))];
        match stage {
            _ if is_narrow && !self.has(Stage::Queued) => [NOTHING; 5],
            _ if is_narrow => [user_data, NOTHING, NOTHING, NOTHING, NOTHING],
            Stage::Opened | Stage::Prepared => [name, since[0], since[1], NOTHING, NOTHING],
            _ => [user_data, Word(b" "), name, since[0], since[1]],
        }
    }

    /// Goes on to its next stage, if that begins at this event, which has this mark.
    fn advance(&mut self, number: u64, frame: &Frame, mark: Mark) {
        let Some(next) = self.stage.next() else {
            return;
        };
        let (marked, user_data) = mark;
        let after = frame.after;
        let is_begun = match next {
            Stage::Pending => self.serial <= after.made.saturating_sub(after.queued),
            Stage::Queued => marked == Some(next),
            _ => marked == Some(next) && user_data == self.user_data,
        };
        if !is_begun {
            return;
        }
        self.stage = next;
        if let Some(event) = self.events.get_mut(next as usize) {
            *event = number;
        }
        match (next, after.slot) {
            (Stage::Queued, _) => self.user_data = user_data,
            (Stage::Prepared, Slot::Prepared(request)) => self.request = Some(request),
            _ => {}
        }
    }
}

/// Which stage of a request an event begins, and the user data that it names, else 0.
type Mark = (Option<Stage>, u64);

/// The mark of the event at a place. A front completion that is got has no request to reap.
fn mark_at(frames: &[Frame], place: usize) -> Mark {
    let Some(frame) = frames.get(place) else {
        return (None, 0);
    };
    match mark_of(frame.event) {
        (Some(Stage::Reaped), _) if was_got(frames, place) => (None, 0),
        mark => mark,
    }
}

/// Whether the front completion was got before the event at a place.
fn was_got(frames: &[Frame], place: usize) -> bool {
    match place.checked_sub(1) {
        Some(before) => matches!(frames.get(before), Some(frame) if frame.after.is_got),
        None => false,
    }
}

/// The mark of an event, where the front completion isn't got.
fn mark_of(event: Event) -> Mark {
    let action = match event {
        Event::ByThread { action, .. } => action,
        Event::ByKernel(completion) => return (Some(Stage::Completed), completion.user_data),
    };
    match action {
        Action::EntryOpened => (Some(Stage::Opened), 0),
        Action::ReadPrepared | Action::WritePrepared => (Some(Stage::Prepared), 0),
        Action::FsyncPrepared | Action::NopPrepared => (Some(Stage::Prepared), 0),
        Action::OtherPrepared => (Some(Stage::Prepared), 0),
        Action::DataSet(user_data) => (Some(Stage::Queued), user_data),
        Action::DataGot(user_data) | Action::Reaped(user_data) => {
            (Some(Stage::Reaped), user_data)
        }
        _ => (None, 0),
    }
}

/// The requests of a run that aren't reaped in the events that are left out.
pub fn courses_of(alloc: Global, run: &Run<'_, '_>) -> Result<Vec<Course>, AllocError> {
    let courses = all_courses(alloc, run.frames)?;
    let clash = clash_of(&courses);
    let mut drawn = Vec::new(alloc);
    for course in &courses {
        if !course.has(Stage::Reaped) || run.cut < course.event(Stage::Reaped) {
            let is_at_fault = is_at_fault(run, course, clash);
            drawn.push(Course {
                is_at_fault,
                ..*course
            })?;
        }
    }
    Ok(drawn)
}

/// The requests of these events.
fn all_courses(alloc: Global, frames: &[Frame]) -> Result<Vec<Course>, AllocError> {
    let mut courses: Vec<Course> = Vec::new(alloc);
    // The place of the first request that isn't reaped, or of one before it.
    let mut first: usize = 0;
    for (place, frame) in frames.iter().enumerate() {
        let number = place as u64 + 1;
        let mark = mark_at(frames, place);
        advance_all(&mut courses, first, number, frame, mark);
        if matches!(courses.get(first), Some(course) if course.stage == Stage::Reaped) {
            first = first.saturating_add(1);
        }
        if mark.0 == Some(Stage::Opened) {
            courses.push(Course {
                events: [number, 0, 0, 0, 0, 0],
                stage: Stage::Opened,
                serial: frame.after.made.saturating_add(1),
                request: None,
                user_data: 0,
                is_at_fault: false,
            })?;
        }
    }
    Ok(courses)
}

/// Lets the requests from a place on go on by an event, which has this mark.
fn advance_all(courses: &mut Vec<Course>, from: usize, number: u64, frame: &Frame, mark: Mark) {
    for place in from..courses.len() {
        if let Some(course) = courses.get_mut(place) {
            course.advance(number, frame, mark);
        }
    }
}

/// The serial numbers of the first two requests that clash.
fn clash_of(courses: &[Course]) -> Option<(u64, u64)> {
    for (place, course) in courses.iter().enumerate() {
        if let Some(other) = clashing(course, courses.get(place + 1..)?) {
            return Some((course.serial, other.serial));
        }
    }
    None
}

/// The first of these requests that clashes with this one: both are pending and name one buffer, and one is a read.
fn clashing<'c>(course: &Course, others: &'c [Course]) -> Option<&'c Course> {
    let buffer = course.buffer()?;
    if course.stage != Stage::Pending {
        return None;
    }
    for other in others {
        let is_one = other.stage == Stage::Pending && other.buffer() == Some(buffer);
        if is_one && (course.is_read() || other.is_read()) {
            return Some(other);
        }
    }
    None
}
