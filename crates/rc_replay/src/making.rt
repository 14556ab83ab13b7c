//! Larger events of a log: requests that are made and submitted under one hold of the mutex, completions, marks.

use crate::course::Course;
use crate::deeds::{class_of, cut_shape, deed_of, is_same_touch, places_of, seen_deed, why_not};
use crate::glance::uses;
use crate::hands::{Hand, Opened, Peeked};
use crate::locking::Locking;
use crate::names::{at, set};
use crate::notes::Notes;
use crate::parts::Parts;
use crate::replayed::Submit;
use crate::shapes::{Deed, Shape, Shapes};
use crate::steps::{Says, Step};
use crate::survey::{Survey, buffer_of};
use crate::tables::Tables;
use indexmap::IndexMap;
use std::alloc::{AllocError, Global};

/// What the logs are read with.
#[derive(Clone, Copy)]
pub struct Ground<'a> {
    pub alloc: Global,
    pub tables: &'a Tables,
    pub survey: &'a Survey,
    pub parts: &'a Parts,
}

/// What is made of all logs. Making it once more changes nothing.
#[derive(Drop)]
pub struct Made {
    pub shapes: Shapes,
    pub notes: Notes,
    pub locking: Locking,
    /// Of each token: whether a completion of it was found twice before it was seen.
    pub is_twice: Vec<bool>,
    /// The most entries that an event leaves queued, but for a last one.
    pub left: u32,
    /// Of each log and thread the last event, where it leaves entries queued: the log's end cuts it off.
    cuts: IndexMap<(u32, u32), u32>,
}

impl Made {
    /// Nothing.
    pub fn new(ground: Ground<'_>) -> Result<Made, AllocError> {
        let alloc = ground.alloc;
        Ok(Made {
            shapes: Shapes::new(alloc),
            notes: Notes::new(alloc),
            locking: Locking::new(alloc, ground.tables.threads.names.len())?,
            is_twice: vec![in alloc; false; ground.tables.user_data.len()]?,
            left: 0,
            cuts: IndexMap::new(alloc),
        })
    }

    /// The events of a log that its end cuts off, by thread, as far as they are known.
    pub fn cuts_of(
        &self,
        alloc: Global,
        log: u32,
        threads: u32,
    ) -> Result<Vec<Option<u32>>, AllocError> {
        let mut cuts = Vec::new(alloc);
        for thread in 0..threads {
            cuts.push(self.cuts.get(&(log, thread)).copied())?;
        }
        Ok(cuts)
    }

    /// A thread does what a line says.
    pub fn step(
        &mut self,
        ground: Ground<'_>,
        course: &mut Course,
        hand: &mut Hand,
        step: Step,
    ) -> Result<(), AllocError> {
        self.use_early(ground, course, hand, step)?;
        match step.says {
            Says::GetSqe => {
                hand.opened = Some(Opened {
                    place: step.place,
                    prepared: None,
                });
                Ok(())
            }
            Says::Prepare(asked) => self.prepare(ground, hand, step, asked),
            Says::Name(token) => self.name(ground, course, hand, step, token),
            Says::Submit(answer) => { self.submit(ground, course, hand, step, Submit::Now, answer) }
            Says::SubmitAndWait { wanted, answer } => {
                self.submit(ground, course, hand, step, Submit::AndWait(wanted), answer)
            }
            Says::Ready => hand.add_place(step.place),
            Says::Peek { token, res } => self.peek(ground, course, hand, step, token, res),
            Says::Seen(token) => self.see(ground, course, hand, step, token),
            Says::Unlock(locks) => {
                self.locking.unlock(step.thread, locks);
                self.note_open(ground, hand, step, b" is open where the mutex is unlocked")?;
                hand.is_unlocked = true;
                self.close(ground, course, hand, step.thread)
            }
            Says::Lock(locks) => {
                self.locking.lock(step.thread, locks, hand.has_marked);
                Ok(())
            }
            _ => self.mark(ground, course, hand, step),
        }
    }

    /// A thread's mark, or what can't be in a model. Several touches in a row at one place are one.
    fn mark(
        &mut self,
        ground: Ground<'_>,
        course: &mut Course,
        hand: &mut Hand,
        step: Step,
    ) -> Result<(), AllocError> {
        let Some(deed) = deed_of(step.says) else {
            return self.note(ground, step.place, why_not(step.says));
        };
        self.close(ground, course, hand, step.thread)?;
        if self.is_again(hand, step, &deed) {
            return Ok(());
        }
        if let Deed::Put { pool: _, buffer: _ } | Deed::Take { pool: _, buffer: _ } = deed {
            hand.has_marked = true;
        }
        self.push(ground, course, hand, step, deed, None)
    }

    /// Whether the thread's last event was the same touch, and it didn't unlock a mutex since.
    fn is_again(&self, hand: &Hand, step: Step, deed: &Deed) -> bool {
        if hand.is_unlocked || hand.last.is_none() {
            return false;
        }
        match self.shapes.at(hand.shape) {
            Some(shape) => shape.place == step.place && is_same_touch(&shape.deed, deed),
            None => false,
        }
    }

    /// Notes something of a place, if there is anything.
    pub fn note(&mut self, ground: Ground<'_>, place: u32, words: &[u8]) -> Result<(), AllocError> {
        if words.is_empty() {
            return Ok(());
        }
        ground
            .tables
            .note(ground.alloc, &mut self.notes, place, &[words])
    }

    /// A thread that uses what came with the completion that it found has it from here on.
    fn use_early(
        &mut self,
        ground: Ground<'_>,
        course: &mut Course,
        hand: &mut Hand,
        step: Step,
    ) -> Result<(), AllocError> {
        let Some(peeked) = hand.peeked else {
            return Ok(());
        };
        if peeked.is_early || !uses(step.says, peeked.token, peeked.buffer) {
            return Ok(());
        }
        self.reap_early(ground, course, hand, step, peeked)
    }

    /// A thread has what came with a completion that it sees later.
    fn reap_early(
        &mut self,
        ground: Ground<'_>,
        course: &mut Course,
        hand: &mut Hand,
        step: Step,
        peeked: Peeked,
    ) -> Result<(), AllocError> {
        hand.peeked = Some(Peeked {
            is_early: true,
            ..peeked
        });
        let deed = Deed::Reap {
            token: peeked.token,
            class: Some(peeked.class),
            is_early: true,
        };
        let step = Step {
            place: peeked.place,
            ..step
        };
        self.push(ground, course, hand, step, deed, None)
    }

    /// A completion is found.
    fn peek(
        &mut self,
        ground: Ground<'_>,
        course: &mut Course,
        hand: &mut Hand,
        step: Step,
        token: u32,
        res: i32,
    ) -> Result<(), AllocError> {
        if let Some(peeked) = hand.peeked
            && peeked.token == token
        {
            set(&mut self.is_twice, token, true);
        }
        let asked = at(&course.latest, token, None);
        hand.peeked = Some(Peeked {
            token,
            buffer: buffer_of(ground.tables, asked),
            class: class_of(ground.tables, asked, res),
            place: step.place,
            is_early: false,
        });
        self.close(ground, course, hand, step.thread)
    }

    /// A completion is seen.
    fn see(
        &mut self,
        ground: Ground<'_>,
        course: &mut Course,
        hand: &mut Hand,
        step: Step,
        token: u32,
    ) -> Result<(), AllocError> {
        let mut deed = Deed::Reap {
            token,
            class: None,
            is_early: false,
        };
        let mut other = None;
        if let Some(peeked) = hand.peeked
            && peeked.token == token
        {
            if !peeked.is_early && at(&ground.survey.is_early, step.place, false) {
                self.reap_early(ground, course, hand, step, peeked)?;
            }
            deed = seen_deed(hand, peeked);
            other = Some(peeked.place);
        }
        hand.peeked = None;
        self.push(ground, course, hand, step, deed, other)
    }

    /// Adds an event at a place, and at another one if it has one.
    fn push(
        &mut self,
        ground: Ground<'_>,
        course: &mut Course,
        hand: &mut Hand,
        step: Step,
        deed: Deed,
        other: Option<u32>,
    ) -> Result<(), AllocError> {
        self.close(ground, course, hand, step.thread)?;
        let is_unlocked = self.begin_event(course, hand);
        let shape = Shape {
            places: places_of(ground.alloc, &deed, step.place, other)?,
            deed,
            place: step.place,
            is_unlocked,
        };
        hand.shape = self.shapes.number(ground.alloc, shape)?;
        course.push(step.thread, hand.shape)
    }

    /// The next event is one of this thread: the one before isn't its last. Whether it unlocked a mutex between them.
    pub fn begin_event(&mut self, course: &Course, hand: &mut Hand) -> bool {
        self.left = self.left.max(hand.stays);
        hand.next(course.next())
    }

    /// The requests that a thread made are an event.
    pub fn close(
        &mut self,
        ground: Ground<'_>,
        course: &mut Course,
        hand: &mut Hand,
        thread: u32,
    ) -> Result<(), AllocError> {
        let Some(sending) = hand.sending.take() else {
            return Ok(());
        };
        let event = sending.event;
        hand.stays = sending.stays;
        hand.shape = self.shapes.number(ground.alloc, sending.shape())?;
        let mut shape = hand.shape;
        if course.is_cut(thread, event) {
            shape = cut_shape(ground.alloc, &mut self.shapes, shape)?;
        }
        course.set_shape(event, thread, shape);
        Ok(())
    }

    /// The log ends. A thread's last event is cut off if it left entries queued: how that goes on isn't known.
    pub fn end(
        &mut self,
        ground: Ground<'_>,
        course: &mut Course,
        hand: &mut Hand,
        thread: u32,
    ) -> Result<(), AllocError> {
        self.close(ground, course, hand, thread)?;
        if let Some(last) = hand.last
            && hand.stays > 0
        {
            self.cuts.insert((course.log, thread), last)?;
        }
        Ok(())
    }
}
