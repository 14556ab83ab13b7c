//! Who has what along a log.

use crate::ahead::{NEVER, Touch, touched};
use crate::ledger::Ledger;
use crate::marks::Marks;
use crate::names::{at, set, short};
use crate::notes::Notes;
use crate::replayed::{Part, Sent};
use crate::shapes::{Deed, requests_of};
use crate::stage::{Learned, Moment, Moved, Scene, Stage};
use std::alloc::AllocError;

/// Who had a part last: the thread, and the event.
#[derive(Clone, Copy)]
pub struct Last {
    pub thread: u32,
    pub event: u32,
    pub place: u32,
}

/// A log under way.
#[derive(Drop)]
pub struct Play {
    pub ledger: Ledger,
    pub marks: Marks,
    /// Of each thing how often it was touched so far, in the part of the log that is looked at.
    touched: Vec<u32>,
    /// Who had each part last.
    pub last: Vec<Option<Last>>,
    /// Who sent a request of each thing last.
    senders: Vec<Option<u32>>,
    /// Of each token: which request of it is out, if one is.
    pub out: Vec<Option<u32>>,
    /// Things that nobody had at the beginning, those that are touched first last.
    pub fresh: Vec<u32>,
}

impl Play {
    /// Before the first event.
    pub fn new(stage: Stage<'_>, learned: &Learned) -> Result<Play, AllocError> {
        let alloc = stage.ground.alloc;
        let (parts, tables) = (stage.ground.parts, stage.ground.tables);
        let (threads, pools) = (tables.threads.names.len(), tables.pools.names.len());
        let mut play = Play {
            ledger: Ledger::new(alloc, threads.saturating_add(pools), stage.totals)?,
            marks: Marks::new(alloc, threads, pools)?,
            touched: vec![in alloc; 0; parts.things.len()]?,
            last: vec![in alloc; None; stage.totals.len()]?,
            senders: vec![in alloc; None; parts.things.len()]?,
            out: vec![in alloc; None; tables.user_data.len()]?,
            fresh: Vec::new(alloc),
        };
        play.begin(learned)?;
        Ok(play)
    }

    /// Each thread has what it begins with.
    fn begin(&mut self, learned: &Learned) -> Result<(), AllocError> {
        for (thread, shares) in learned.starts.iter().enumerate() {
            for share in shares {
                let _ = self.ledger.bear(share.part, share.count);
                self.ledger.give(short(thread), share.part, share.count)?;
            }
        }
        Ok(())
    }

    /// A part of the log begins that is looked at.
    pub fn look_at(&mut self, scene: Scene<'_>) -> Result<(), AllocError> {
        for touched in self.touched.iter_mut() {
            *touched = 0;
        }
        self.fresh.clear();
        self.list_fresh(scene)
    }

    /// Lists the things that nobody has, those that are touched first last.
    fn list_fresh(&mut self, scene: Scene<'_>) -> Result<(), AllocError> {
        let parts = scene.stage.ground.parts;
        let mut keys = Vec::new(scene.stage.ground.alloc);
        for thing in 0..short(parts.things.len()) {
            if self.is_fresh(scene.stage, thing) && is_wanted(scene.stage, thing) {
                let first = scene.touch(thing, 0).map(|touch| touch.event);
                keys.push((first.unwrap_or(u32::MAX), thing))?;
            }
        }
        keys.sort()?;
        keys.reverse();
        for (_, thing) in keys {
            self.fresh.push(thing)?;
        }
        Ok(())
    }

    /// Forgets things at the end of the list that somebody has.
    pub fn trim(&mut self, stage: Stage<'_>) {
        for _ in 0..self.fresh.len() {
            match self.fresh.last() {
                Some(thing) if !self.is_fresh(stage, *thing) => {
                    let _ = self.fresh.pop();
                }
                _ => return,
            }
        }
    }

    /// Whether nobody has had anything of a thing.
    pub fn is_fresh(&self, stage: Stage<'_>, thing: u32) -> bool {
        for part in stage.ground.parts.of_thing(thing) {
            let number = stage.part(*part);
            if at(&self.ledger.unborn, number, 0) < at(stage.totals, number, 0) {
                return false;
            }
        }
        true
    }

    /// The last event at which somebody had a part of the thing.
    pub fn recent(&self, stage: Stage<'_>, thing: u32) -> Option<u32> {
        let mut recent = None;
        for part in stage.ground.parts.of_thing(thing) {
            if let Some(last) = at(&self.last, stage.part(*part), None) {
                recent = Some(last.event.max(recent.unwrap_or(0)));
            }
        }
        recent
    }

    /// A thread has a part.
    fn set_last(&mut self, part: u32, moment: Moment) {
        let last = Last {
            thread: moment.thread,
            event: moment.event,
            place: moment.place,
        };
        set(&mut self.last, part, Some(last));
    }

    /// Whether a thread sent a request of a thing last.
    pub fn is_sender(&self, thing: u32, thread: u32) -> bool {
        at(&self.senders, thing, None) == Some(thread)
    }

    /// The next touch of a thing.
    pub fn next_touch(&self, scene: Scene<'_>, thing: u32) -> Option<Touch> {
        scene.touch(thing, at(&self.touched, thing, NEVER))
    }

    /// A thing is touched.
    fn touch(&mut self, thing: u32) {
        let count = at(&self.touched, thing, 0);
        set(&mut self.touched, thing, count.saturating_add(1));
    }

    /// A thread does something: what it has changes.
    pub fn apply(
        &mut self,
        stage: Stage<'_>,
        notes: &mut Notes,
        moment: Moment,
        deed: &Deed,
        moved: Option<Moved>,
    ) -> Result<(), AllocError> {
        if let Some(buffer) = touched(deed) {
            self.touch(buffer);
            self.set_last(buffer, moment);
            return Ok(());
        }
        match (deed, moved) {
            (
                Deed::Reap {
                    token,
                    class: _,
                    is_early,
                },
                _,
            ) => return self.reap(stage, moment, *token, *is_early),
            (Deed::Seen { token }, _) => {
                let got = stage.part(Part::Got(*token));
                let _ = self.ledger.take(moment.thread, got, 1)?;
            }
            (Deed::Put { pool, buffer: _ }, Some(moved)) => {
                return self.pass(stage, moment.thread, stage.owner_of(*pool), moved);
            }
            (Deed::Take { pool, buffer: _ }, Some(moved)) => {
                self.have(stage, moment, moved.thing);
                return self.pass(stage, stage.owner_of(*pool), moment.thread, moved);
            }
            _ => {}
        }
        for sent in requests_of(deed) {
            self.send(stage, notes, moment, *sent)?;
        }
        Ok(())
    }

    /// Moves a thing from one owner to another, or one share of its buffer.
    pub fn pass(
        &mut self,
        stage: Stage<'_>,
        from: u32,
        to: u32,
        moved: Moved,
    ) -> Result<(), AllocError> {
        let most = if moved.is_lent { 1 } else { u32::MAX };
        for part in stage.ground.parts.of_thing(moved.thing) {
            let is_left = moved.is_lent && !matches!(part, Part::Buffer(_));
            if !is_left && !stage.stays(moved.thing, *part) {
                self.pass_part(from, to, stage.part(*part), most)?;
            }
        }
        Ok(())
    }

    /// Moves at most so many of a part from one owner to another.
    fn pass_part(&mut self, from: u32, to: u32, part: u32, most: u32) -> Result<(), AllocError> {
        let count = self.ledger.take(from, part, most)?;
        self.ledger.give(to, part, count)
    }

    /// A thread has a thing.
    fn have(&mut self, stage: Stage<'_>, moment: Moment, thing: u32) {
        for part in stage.ground.parts.of_thing(thing) {
            self.set_last(stage.part(*part), moment);
        }
    }

    /// A request is made.
    fn send(
        &mut self,
        stage: Stage<'_>,
        notes: &mut Notes,
        moment: Moment,
        sent: Sent,
    ) -> Result<(), AllocError> {
        if at(&self.out, sent.token, None).is_some() {
            note_again(stage, notes, moment, sent.token)?;
        }
        set(&mut self.out, sent.token, Some(sent.request));
        let thing = at(&stage.ground.parts.thing_of, sent.token, NEVER);
        self.touch(thing);
        set(&mut self.senders, thing, Some(moment.thread));
        let token = stage.part(Part::Token(sent.token));
        let _ = self.ledger.take(moment.thread, token, 1)?;
        if let Some((buffer, count)) = stage.share_of(sent.token, sent.request) {
            let _ = self.ledger.take(moment.thread, buffer, count)?;
        }
        if !at(&stage.users.is_alone, moment.thread, false) {
            return Ok(());
        }
        let out = stage.part(Part::Out(sent.token));
        let has = self.ledger.count(moment.thread, out);
        self.ledger
            .give(moment.thread, out, 1_u32.saturating_sub(has))
    }

    /// A completion is taken.
    fn reap(
        &mut self,
        stage: Stage<'_>,
        moment: Moment,
        token: u32,
        is_early: bool,
    ) -> Result<(), AllocError> {
        let got = stage.part(Part::Got(token));
        self.ledger.give(moment.thread, got, u32::from(is_early))?;
        let out = stage.part(Part::Out(token));
        let _ = self.ledger.take(moment.thread, out, 1)?;
        let Some(which) = at(&self.out, token, None) else {
            return Ok(());
        };
        set(&mut self.out, token, None);
        let part = stage.part(Part::Token(token));
        self.set_last(part, moment);
        self.ledger.give(moment.thread, part, 1)?;
        if let Some((buffer, count)) = stage.share_of(token, which) {
            self.set_last(buffer, moment);
            self.ledger.give(moment.thread, buffer, count)?;
        }
        Ok(())
    }
}

/// Whether a thing has a buffer, or a token that is sent.
fn is_wanted(stage: Stage<'_>, thing: u32) -> bool {
    for part in stage.ground.parts.of_thing(thing) {
        match part {
            Part::Token(token) if !stage.ground.parts.was_sent(*token) => {}
            _ => return true,
        }
    }
    false
}

/// Notes user data that is used while a request with it is out.
fn note_again(
    stage: Stage<'_>,
    notes: &mut Notes,
    moment: Moment,
    token: u32,
) -> Result<(), AllocError> {
    let tables = stage.ground.tables;
    tables.note(
        stage.ground.alloc,
        notes,
        moment.place,
        &[
            tables.tokens.name(token),
            b" is used while a request with it is out",
        ],
    )
}
