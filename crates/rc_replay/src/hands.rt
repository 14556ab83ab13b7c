//! What a thread of a log is about.

use crate::replayed::{Class, Sent, Submit};
use crate::shapes::{Deed, Shape};
use std::alloc::{AllocError, Global};

/// An entry that is open: where it was opened, and what it asks for and where that was said.
#[derive(Clone, Copy)]
pub struct Opened {
    pub place: u32,
    pub prepared: Option<(u32, u32)>,
}

/// A completion that was found.
#[derive(Clone, Copy)]
pub struct Peeked {
    pub token: u32,
    /// The buffer of its request.
    pub buffer: Option<u32>,
    pub class: Class,
    pub place: u32,
    /// Whether what came with it was used.
    pub is_early: bool,
}

/// Requests that are made, and submitted.
#[derive(Drop)]
pub struct Sending {
    pub event: u32,
    pub requests: Vec<Sent>,
    pub submit: Submit,
    /// How many entries are left queued.
    pub stays: u32,
    pub place: u32,
    pub places: Vec<u32>,
    pub is_unlocked: bool,
}

/// What a thread is about.
#[derive(Drop)]
pub struct Hand {
    pub opened: Option<Opened>,
    pub sending: Option<Sending>,
    pub peeked: Option<Peeked>,
    pub is_unlocked: bool,
    /// Whether it put or took something.
    pub has_marked: bool,
    /// Its last event.
    pub last: Option<u32>,
    /// The shape of that.
    pub shape: u32,
    /// How many entries that leaves queued.
    pub stays: u32,
}

/// So many threads before their first lines.
pub fn hands_of(alloc: Global, count: usize) -> Result<Vec<Hand>, AllocError> {
    let mut hands = Vec::new(alloc);
    for _ in 0..count {
        hands.push(Hand {
            opened: None,
            sending: None,
            peeked: None,
            is_unlocked: false,
            has_marked: false,
            last: None,
            shape: 0,
            stays: 0,
        })?;
    }
    Ok(hands)
}

impl Hand {
    /// Whether it has made requests that it didn't submit yet, so that more can be added.
    pub fn is_sending(&self) -> bool {
        match &self.sending {
            Some(sending) => matches!(sending.submit, Submit::None),
            None => false,
        }
    }

    /// Whether its requests are an event before this one.
    pub fn is_before(&self, event: u32) -> bool {
        match &self.sending {
            Some(sending) => sending.event < event,
            None => false,
        }
    }

    /// The next event is this one. Whether a mutex was unlocked since the last.
    pub fn next(&mut self, event: u32) -> bool {
        let is_unlocked = self.is_unlocked;
        self.is_unlocked = false;
        self.last = Some(event);
        self.stays = 0;
        is_unlocked
    }

    /// Adds a place to its requests once they are submitted.
    pub fn add_place(&mut self, place: u32) -> Result<(), AllocError> {
        let Some(sending) = &mut self.sending else {
            return Ok(());
        };
        if !matches!(sending.submit, Submit::None) && !sending.places.contains(&place) {
            sending.places.push(place)?;
            sending.places.sort()?;
        }
        Ok(())
    }

    /// The open entry is closed: where it was opened, what it asks for and where it was prepared.
    pub fn take_opened(&mut self) -> Option<(u32, u32, u32)> {
        let opened = self.opened.take()?;
        let (asked, prepared) = opened.prepared?;
        Some((opened.place, asked, prepared))
    }
}

impl Sending {
    /// The event that this is.
    pub fn shape(self) -> Shape {
        let Sending {
            event: _,
            requests,
            submit,
            stays: _,
            place,
            places,
            is_unlocked,
        } = self;
        let deed = if requests.is_empty() {
            Deed::Submit(submit)
        } else {
            Deed::Send { requests, submit }
        };
        Shape {
            deed,
            place,
            places,
            is_unlocked,
        }
    }
}
