//! What a thread needs for what it does, and from whom it gets that without a mark.

use crate::ahead::touched;
use crate::names::at;
use crate::notes::Notes;
use crate::playing::Play;
use crate::replayed::{Part, Sent};
use crate::shapes::{Deed, requests_of};
use crate::stage::{Learned, Moment, Stage};
use std::alloc::AllocError;

/// The most owners from which a thread gets a part without a mark.
const MOST_OWNERS: u32 = 1000;

impl Play {
    /// A thread needs so many of a part. What nobody had before it has from its beginning on.
    pub fn need(
        &mut self,
        stage: Stage<'_>,
        learned: &mut Learned,
        notes: &mut Notes,
        moment: Moment,
        part: u32,
        count: u32,
    ) -> Result<(), AllocError> {
        let has = self.ledger.count(moment.thread, part);
        if has >= count {
            return Ok(());
        }
        let born = self.ledger.bear(part, count - has);
        if born > 0 {
            self.ledger.give(moment.thread, part, born)?;
            learned.begin_with(moment.thread, part, born)?;
        }
        self.get(stage, notes, moment, part, count)
    }

    /// A thread gets what it lacks of a part from who has it, without a mark.
    fn get(
        &mut self,
        stage: Stage<'_>,
        notes: &mut Notes,
        moment: Moment,
        part: u32,
        count: u32,
    ) -> Result<(), AllocError> {
        for _ in 0..MOST_OWNERS {
            let has = self.ledger.count(moment.thread, part);
            if has >= count {
                return Ok(());
            }
            let Some(owner) = self.ledger.other_owner(part, moment.thread) else {
                break;
            };
            self.note_owner(stage, notes, moment, part, owner)?;
            let taken = self.ledger.take(owner, part, count - has)?;
            self.ledger.give(moment.thread, part, taken)?;
        }
        let lacks = count.saturating_sub(self.ledger.count(moment.thread, part));
        if lacks == 0 {
            return Ok(());
        }
        self.note_out(stage, notes, moment, part)?;
        self.ledger.give(moment.thread, part, lacks)
    }

    /// Notes that a thread uses what another one or a pool has.
    fn note_owner(
        &self,
        stage: Stage<'_>,
        notes: &mut Notes,
        moment: Moment,
        part: u32,
        owner: u32,
    ) -> Result<(), AllocError> {
        let tables = stage.ground.tables;
        let Some(pool) = stage.pool_of(owner) else {
            return self.note_thread(stage, notes, moment, part, owner);
        };
        tables.note(
            stage.ground.alloc,
            notes,
            moment.place,
            &[
                tables.threads.name(moment.thread),
                b" uses ",
                stage.part_name(part),
                b", which lies in pool ",
                tables.pools.name(pool),
                b": mark before where it gets it (RINGCHECK_TAKE)",
            ],
        )
    }

    /// Notes that a thread uses what another one has.
    fn note_thread(
        &self,
        stage: Stage<'_>,
        notes: &mut Notes,
        moment: Moment,
        part: u32,
        owner: u32,
    ) -> Result<(), AllocError> {
        let tables = stage.ground.tables;
        tables.note(
            stage.ground.alloc,
            notes,
            moment.place,
            &[
                tables.threads.name(moment.thread),
                b" uses ",
                stage.part_name(part),
                b", which ",
                tables.threads.name(owner),
                b" had last (",
                self.since(stage, part, owner),
                b"): mark where ",
                tables.threads.name(owner),
                b" gives it (RINGCHECK_PUT) and ",
                tables.threads.name(moment.thread),
                b" gets it (RINGCHECK_TAKE), under their mutex",
            ],
        )
    }

    /// Where a thread had a part last, in words.
    fn since<'a>(&self, stage: Stage<'a>, part: u32, thread: u32) -> &'a [u8] {
        match at(&self.last, part, None) {
            Some(last) if last.thread == thread => stage.ground.tables.places.name(last.place),
            _ => b"from its start on",
        }
    }

    /// Notes that a thread uses what a request has that is out.
    fn note_out(
        &self,
        stage: Stage<'_>,
        notes: &mut Notes,
        moment: Moment,
        part: u32,
    ) -> Result<(), AllocError> {
        let Some(token) = self.out_with(stage, part) else {
            return Ok(());
        };
        let tables = stage.ground.tables;
        tables.note(
            stage.ground.alloc,
            notes,
            moment.place,
            &[
                tables.threads.name(moment.thread),
                b" uses ",
                stage.part_name(part),
                b" while the request of ",
                tables.tokens.name(token),
                b" is out",
            ],
        )
    }

    /// The token of a request that is out and has some of a part.
    fn out_with(&self, stage: Stage<'_>, part: u32) -> Option<u32> {
        let thing = stage.thing_of(part)?;
        for member in stage.ground.parts.of_thing(thing) {
            if let Part::Token(token) = member {
                if at(&self.out, *token, None).is_some() {
                    return Some(*token);
                }
            }
        }
        None
    }

    /// A thread makes requests, or touches a buffer: it needs what is for that.
    pub fn need_all(
        &mut self,
        stage: Stage<'_>,
        learned: &mut Learned,
        notes: &mut Notes,
        moment: Moment,
        deed: &Deed,
    ) -> Result<(), AllocError> {
        if let Some(buffer) = touched(deed) {
            let count = match deed {
                Deed::Fill(_) => at(stage.totals, buffer, 0),
                _ => 1,
            };
            return self.need(stage, learned, notes, moment, buffer, count);
        }
        for sent in requests_of(deed) {
            self.need_request(stage, learned, notes, moment, *sent)?;
        }
        Ok(())
    }

    /// A thread needs what is for a request.
    fn need_request(
        &mut self,
        stage: Stage<'_>,
        learned: &mut Learned,
        notes: &mut Notes,
        moment: Moment,
        sent: Sent,
    ) -> Result<(), AllocError> {
        let token = stage.part(Part::Token(sent.token));
        self.need(stage, learned, notes, moment, token, 1)?;
        match stage.share_of(sent.token, sent.request) {
            Some((buffer, count)) => self.need(stage, learned, notes, moment, buffer, count),
            None => Ok(()),
        }
    }

    /// A thread needs all of a thing that nobody had.
    pub fn need_thing(
        &mut self,
        stage: Stage<'_>,
        learned: &mut Learned,
        notes: &mut Notes,
        moment: Moment,
        thing: u32,
    ) -> Result<(), AllocError> {
        for part in stage.ground.parts.of_thing(thing) {
            if !stage.stays(thing, *part) {
                let number = stage.part(*part);
                let total = at(stage.totals, number, 0);
                self.need(stage, learned, notes, moment, number, total)?;
            }
        }
        Ok(())
    }
}
