//! Requests that a thread makes, and submits.

use crate::course::{Course, UNKNOWN};
use crate::hands::{Hand, Opened, Sending};
use crate::making::{Ground, Made};
use crate::names::set;
use crate::replayed::{Sent, Submit};
use crate::steps::Step;
use std::alloc::AllocError;

impl Made {
    /// Notes what happens to an open entry, if there is one.
    pub fn note_open(
        &mut self,
        ground: Ground<'_>,
        hand: &Hand,
        step: Step,
        words: &[u8],
    ) -> Result<(), AllocError> {
        let Some(opened) = hand.opened else {
            return Ok(());
        };
        let tables = ground.tables;
        tables.note(
            ground.alloc,
            &mut self.notes,
            step.place,
            &[b"the entry of ", tables.places.name(opened.place), words],
        )
    }

    /// The open entry is prepared.
    pub fn prepare(
        &mut self,
        ground: Ground<'_>,
        hand: &mut Hand,
        step: Step,
        asked: u32,
    ) -> Result<(), AllocError> {
        let Some(opened) = hand.opened else {
            return self.note(ground, step.place, b"a prep without get_sqe");
        };
        hand.opened = Some(Opened {
            prepared: Some((asked, step.place)),
            ..opened
        });
        Ok(())
    }

    /// An entry has its user data, and is queued.
    pub fn name(
        &mut self,
        ground: Ground<'_>,
        course: &mut Course,
        hand: &mut Hand,
        step: Step,
        token: u32,
    ) -> Result<(), AllocError> {
        let Some((opened, asked, prepared)) = hand.take_opened() else {
            return self.note(ground, step.place, b"set_data64 without a prep");
        };
        set(&mut course.latest, token, Some(asked));
        course.queued = course.queued.saturating_add(1);
        if !hand.is_sending() {
            self.begin(ground, course, hand, step)?;
        }
        if let Some(sending) = &mut hand.sending {
            sending.place = step.place;
            sending.stays = sending.stays.saturating_add(1);
            sending.requests.push(Sent {
                token,
                request: ground.parts.which(token, asked),
                opened,
                prepared,
                named: step.place,
            })?;
        }
        Ok(())
    }

    /// Begins an event of requests, or of a submit. Its shape is known once it is closed.
    fn begin(
        &mut self,
        ground: Ground<'_>,
        course: &mut Course,
        hand: &mut Hand,
        step: Step,
    ) -> Result<(), AllocError> {
        self.close(ground, course, hand, step.thread)?;
        let event = course.next();
        let is_unlocked = self.begin_event(course, hand);
        hand.sending = Some(Sending {
            event,
            requests: Vec::new(ground.alloc),
            submit: Submit::None,
            stays: 0,
            place: step.place,
            places: Vec::new(ground.alloc),
            is_unlocked,
        });
        course.push(step.thread, UNKNOWN)
    }

    /// Entries are submitted.
    pub fn submit(
        &mut self,
        ground: Ground<'_>,
        course: &mut Course,
        hand: &mut Hand,
        step: Step,
        submit: Submit,
        answer: i32,
    ) -> Result<(), AllocError> {
        course.queued = course.queued.saturating_sub(answer.max(0) as u32);
        self.note_open(
            ground,
            hand,
            step,
            b" is submitted before it has its user data",
        )?;
        if hand.sending.is_none() {
            self.begin(ground, course, hand, step)?;
        }
        if let Some(sending) = &mut hand.sending {
            sending.submit = submit;
            sending.stays = course.queued;
        }
        hand.add_place(step.place)
    }
}
