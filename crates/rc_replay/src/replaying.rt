//! Replaying logs: what each event moves, and what its thread has before and after it.

use crate::ahead::{look_ahead, touches_of};
use crate::choosing::{
    Choice, borrows, choose_put, choose_take, fresh_for, is_plain, later_put, lends,
};
use crate::course::{Course, Larger};
use crate::names::{at, set, short};
use crate::notes::Notes;
use crate::outcome::{Done, Origin, Outcome};
use crate::playing::Play;
use crate::shapes::Deed;
use crate::stage::{Learned, Moment, Moved, Scene, Stage, Stock};
use crate::visitor::Visitor;
use std::alloc::AllocError;

/// What is said of a take of what isn't there, before and after the pool.
const TAKES: &[u8] = b" takes from ";

const NOTHING_THERE: &[u8] = b" what isn't there: mark where it is put (RINGCHECK_PUT)";

/// What a pass over all logs gives.
#[derive(Drop)]
pub struct Pass {
    pub outcome: Outcome,
    pub notes: Notes,
    /// Whether the outcome is kept.
    pub is_kept: bool,
}

impl Pass {
    /// Before the first log.
    pub fn new(stage: Stage<'_>, is_kept: bool) -> Result<Pass, AllocError> {
        let alloc = stage.ground.alloc;
        Ok(Pass {
            outcome: Outcome::new(alloc, stage.ground.tables.threads.names.len())?,
            notes: Notes::new(alloc),
            is_kept,
        })
    }

    /// What a thread has, by its number among the holdings.
    fn holding(
        &mut self,
        stage: Stage<'_>,
        play: &mut Play,
        thread: u32,
    ) -> Result<u32, AllocError> {
        if !self.is_kept || self.outcome.is_full() {
            return Ok(0);
        }
        if let Some(number) = at(&play.ledger.numbers, thread, None) {
            return Ok(number);
        }
        let number = self.outcome.holding(stage, play.ledger.held(thread))?;
        set(&mut play.ledger.numbers, thread, Some(number));
        Ok(number)
    }

    /// A thread has done an event.
    fn add_event<V: Visitor>(
        &mut self,
        stage: Stage<'_>,
        visitor: &mut V,
        thread: u32,
        done: Done,
    ) -> Result<(), AllocError> {
        if !self.is_kept || self.outcome.is_full() {
            return Ok(());
        }
        let event = self.outcome.add(stage, thread, done)?;
        visitor.visit(thread, event)
    }

    /// Replays the next events of a log, so many.
    pub fn play<V: Visitor>(
        &mut self,
        stage: Stage<'_>,
        learned: &mut Learned,
        play: &mut Play,
        visitor: &mut V,
        course: &Course,
        count: usize,
    ) -> Result<(), AllocError> {
        let alloc = stage.ground.alloc;
        let tables = stage.ground.tables;
        let (events, first) = (course.events.as_slice(), course.first);
        let ahead = look_ahead(
            alloc,
            stage.shapes,
            events,
            first,
            tables.threads.names.len(),
            tables.pools.names.len(),
        )?;
        let touches = touches_of(alloc, stage.shapes, stage.ground.parts, events, first)?;
        let scene = Scene {
            stage,
            first,
            events,
            ahead: &ahead,
            touches: &touches,
        };
        play.look_at(scene)?;
        self.play_events(scene, learned, play, visitor, count)
    }

    /// Replays the first events of a part of a log, so many.
    fn play_events<V: Visitor>(
        &mut self,
        scene: Scene<'_>,
        learned: &mut Learned,
        play: &mut Play,
        visitor: &mut V,
        count: usize,
    ) -> Result<(), AllocError> {
        for (place, event) in scene.events.iter().take(count).enumerate() {
            let number = scene.first.saturating_add(short(place));
            let done = self.play_event(scene, learned, play, *event, number)?;
            self.add_event(scene.stage, visitor, event.thread, done)?;
        }
        Ok(())
    }

    /// Puts into pools what lies there from the beginning.
    pub fn stock<V: Visitor>(
        &mut self,
        stage: Stage<'_>,
        learned: &Learned,
        play: &mut Play,
        visitor: &mut V,
    ) -> Result<(), AllocError> {
        for (number, stock) in learned.stocks.iter().enumerate() {
            let done = self.play_stock(stage, play, *stock, short(number))?;
            self.add_event(stage, visitor, stock.thread, done)?;
        }
        Ok(())
    }

    /// Puts a thing into a pool that lies there from the beginning.
    fn play_stock(
        &mut self,
        stage: Stage<'_>,
        play: &mut Play,
        stock: Stock,
        number: u32,
    ) -> Result<Done, AllocError> {
        let before = self.holding(stage, play, stock.thread)?;
        let moved = Moved {
            thing: stock.thing,
            is_lent: false,
        };
        play.pass(stage, stock.thread, stage.owner_of(stock.pool), moved)?;
        let after = self.holding(stage, play, stock.thread)?;
        Ok(Done {
            origin: Origin::Stock(number),
            thing: Some(stock.thing),
            before,
            after,
        })
    }

    /// Replays an event.
    fn play_event(
        &mut self,
        scene: Scene<'_>,
        learned: &mut Learned,
        play: &mut Play,
        event: Larger,
        number: u32,
    ) -> Result<Done, AllocError> {
        let stage = scene.stage;
        let mut done = Done {
            origin: Origin::Shape(event.shape),
            thing: None,
            before: 0,
            after: 0,
        };
        let Some(shape) = stage.shapes.at(event.shape) else {
            return Ok(done);
        };
        let moment = Moment {
            event: number,
            thread: event.thread,
            place: shape.place,
        };
        let thing = self.before(scene, learned, play, moment, &shape.deed)?;
        done.thing = thing;
        done.before = self.holding(stage, play, event.thread)?;
        let moved = moved_by(scene, play, moment, &shape.deed, thing);
        play.apply(stage, &mut self.notes, moment, &shape.deed, moved)?;
        play.marks.pass(moment, &shape.deed);
        done.after = self.holding(stage, play, event.thread)?;
        Ok(done)
    }

    /// What a thread needs for what it does, and which thing that moves.
    fn before(
        &mut self,
        scene: Scene<'_>,
        learned: &mut Learned,
        play: &mut Play,
        moment: Moment,
        deed: &Deed,
    ) -> Result<Option<u32>, AllocError> {
        match deed {
            Deed::Put {
                pool,
                buffer: Some(buffer),
            } => {
                self.need_named(scene.stage, learned, play, moment, *buffer)?;
                learned.add_home(*pool, *buffer)?;
                Ok(Some(*buffer))
            }
            Deed::Put { pool, buffer: None } => self.put(scene, learned, play, moment, *pool),
            Deed::Take {
                pool,
                buffer: Some(buffer),
            } => self.take_named(scene.stage, learned, play, moment, *pool, *buffer),
            Deed::Take { pool, buffer: None } => self.take(scene, learned, play, moment, *pool),
            deed => {
                play.need_all(scene.stage, learned, &mut self.notes, moment, deed)?;
                Ok(None)
            }
        }
    }

    /// A thread puts a thing that it names: it needs some of it, and all where nobody had it.
    fn need_named(
        &mut self,
        stage: Stage<'_>,
        learned: &mut Learned,
        play: &mut Play,
        moment: Moment,
        buffer: u32,
    ) -> Result<(), AllocError> {
        if play.is_fresh(stage, buffer) {
            return play.need_thing(stage, learned, &mut self.notes, moment, buffer);
        }
        play.need(stage, learned, &mut self.notes, moment, buffer, 1)
    }

    /// A thread puts something. Answers what.
    fn put(
        &mut self,
        scene: Scene<'_>,
        learned: &mut Learned,
        play: &mut Play,
        moment: Moment,
        pool: u32,
    ) -> Result<Option<u32>, AllocError> {
        play.trim(scene.stage);
        let Some(choice) = choose_put(scene, play, learned, moment, pool) else {
            let words = b", and nothing is known that it has";
            self.note(scene.stage, moment, b" puts something into ", pool, words)?;
            return Ok(None);
        };
        if choice.is_fresh {
            play.need_thing(scene.stage, learned, &mut self.notes, moment, choice.thing)?;
        }
        Ok(Some(choice.thing))
    }

    /// A thread takes a thing that it names. Answers which, where it can be there.
    fn take_named(
        &mut self,
        stage: Stage<'_>,
        learned: &mut Learned,
        play: &mut Play,
        moment: Moment,
        pool: u32,
        buffer: u32,
    ) -> Result<Option<u32>, AllocError> {
        if play.ledger.count(stage.owner_of(pool), buffer) > 0 {
            learned.add_home(pool, buffer)?;
            return Ok(Some(buffer));
        }
        if play.is_fresh(stage, buffer) {
            return self.take_stock(stage, learned, play, moment, pool, buffer);
        }
        self.note(stage, moment, TAKES, pool, NOTHING_THERE)?;
        play.need(stage, learned, &mut self.notes, moment, buffer, 1)?;
        Ok(None)
    }

    /// A thread takes what nobody had: it was in the pool from the beginning.
    fn take_stock(
        &mut self,
        stage: Stage<'_>,
        learned: &mut Learned,
        play: &mut Play,
        moment: Moment,
        pool: u32,
        thing: u32,
    ) -> Result<Option<u32>, AllocError> {
        play.need_thing(stage, learned, &mut self.notes, moment, thing)?;
        learned.add_home(pool, thing)?;
        learned.stocks.push(Stock {
            thread: moment.thread,
            pool,
            thing,
            place: moment.place,
        })?;
        Ok(Some(thing))
    }

    /// A thread takes something. Answers what.
    fn take(
        &mut self,
        scene: Scene<'_>,
        learned: &mut Learned,
        play: &mut Play,
        moment: Moment,
        pool: u32,
    ) -> Result<Option<u32>, AllocError> {
        let Some(choice) = choose_take(scene, play, learned, moment, pool) else {
            play.trim(scene.stage);
            if let Some(thing) = fresh_for(scene, play, moment) {
                return self.take_stock(scene.stage, learned, play, moment, pool, thing);
            }
            self.note(scene.stage, moment, TAKES, pool, NOTHING_THERE)?;
            return Ok(None);
        };
        learn(scene, learned, play, moment, pool, choice)?;
        Ok(Some(choice.thing))
    }

    /// Notes what is odd about a mark of a thread.
    fn note(
        &mut self,
        stage: Stage<'_>,
        moment: Moment,
        does: &[u8],
        pool: u32,
        words: &[u8],
    ) -> Result<(), AllocError> {
        let tables = stage.ground.tables;
        tables.note(
            stage.ground.alloc,
            &mut self.notes,
            moment.place,
            &[
                tables.threads.name(moment.thread),
                does,
                tables.pools.name(pool),
                words,
            ],
        )
    }
}

/// How much of a thing a mark moves.
fn moved_by(
    scene: Scene<'_>,
    play: &Play,
    moment: Moment,
    deed: &Deed,
    thing: Option<u32>,
) -> Option<Moved> {
    let thing = thing?;
    let is_lent = match deed {
        Deed::Put { pool: _, buffer: _ } => lends(scene, play, moment, thing),
        _ => borrows(scene, play, moment, thing),
    };
    Some(Moved { thing, is_lent })
}

/// A take tells where things go, where the thread touches what it takes before it takes anything else.
fn learn(
    scene: Scene<'_>,
    learned: &mut Learned,
    play: &Play,
    moment: Moment,
    pool: u32,
    choice: Choice,
) -> Result<(), AllocError> {
    if learned.is_used || !is_plain(scene, play, moment, choice.thing) {
        return Ok(());
    }
    learned.add_home(pool, choice.thing)?;
    match later_put(scene, scene.ahead(moment.event)) {
        Some(put) => learned.add_home(put, choice.thing),
        None => Ok(()),
    }
}
