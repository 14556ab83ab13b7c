//! Passes over all logs: each reads them again.

use crate::again::{Logs, ReplayFault};
use crate::making::{Ground, Made};
use crate::names::short;
use crate::playing::Play;
use crate::reel::{Reel, Store, opened};
use crate::replaying::Pass;
use crate::shapes::Shapes;
use crate::shares::Writes;
use crate::stage::{Learned, Stage};
use crate::users::Users;
use crate::visitor::{Nobody, Visitor};
use std::alloc::{AllocError, Global};
use std::io::Read;

/// The most passes that replay logs.
const MOST_PASSES: u32 = 4;

/// What all logs are replayed with, but for the shapes of events.
#[derive(Clone, Copy)]
pub struct Base<'a> {
    pub ground: Ground<'a>,
    /// The numbers of the logs, in order.
    pub order: &'a [u32],
    pub totals: &'a [u32],
    pub users: &'a Users,
}

impl<'a> Base<'a> {
    /// The same with the shapes of events.
    pub fn stage(self, shapes: &'a Shapes) -> Stage<'a> {
        Stage {
            ground: self.ground,
            shapes,
            totals: self.totals,
            users: self.users,
        }
    }
}

/// What is counted of the events of all logs, before they are replayed.
#[derive(Drop)]
pub struct Counted {
    pub writes: Writes,
    pub users: Users,
}

/// Makes the events of all logs, and counts what comes of them.
pub fn count_all<L: Logs>(
    ground: Ground<'_>,
    logs: &L,
    order: &[u32],
    store: &mut Store,
) -> Result<Counted, ReplayFault> {
    let alloc = ground.alloc;
    let threads = ground.tables.threads.names.len();
    let mut counted = Counted {
        writes: Writes::new(alloc, ground.tables.buffers.names.len())?,
        users: Users::new(alloc, ground.tables.user_data.len(), threads)?,
    };
    for (place, number) in order.iter().enumerate() {
        let reel = opened(ground, logs, &store.made, *number, short(place))?;
        counted.count_log(ground, store, reel)?;
    }
    counted.users.end();
    Ok(counted)
}

impl Counted {
    /// Counts what comes of the events of a log.
    fn count_log<R: Read + Drop>(
        &mut self,
        ground: Ground<'_>,
        store: &mut Store,
        mut reel: Reel<R>,
    ) -> Result<(), ReplayFault> {
        self.begin_log(ground)?;
        for _ in 0..u64::MAX {
            reel.fill(ground, store)?;
            self.count(ground, &store.made, &reel)?;
            if reel.is_over {
                break;
            }
            reel.go_on(ground)?;
        }
        Ok(())
    }

    /// A log begins.
    fn begin_log(&mut self, ground: Ground<'_>) -> Result<(), AllocError> {
        self.writes.begin_log(
            ground.alloc,
            ground.tables.buffers.names.len(),
            ground.tables.user_data.len(),
            ground.tables.threads.names.len(),
        )
    }

    /// Counts what comes of the next events of a log.
    fn count<R>(
        &mut self,
        ground: Ground<'_>,
        made: &Made,
        reel: &Reel<R>,
    ) -> Result<(), AllocError> {
        for event in reel.course.events.iter().take(reel.block()) {
            if let Some(shape) = made.shapes.at(event.shape) {
                self.writes.step(ground.parts, event.thread, &shape.deed)?;
                self.users.step(event.thread, &shape.deed)?;
            }
        }
        Ok(())
    }
}

/// What was learned before the last pass over the logs and in it, and what it gives.
#[derive(Drop)]
pub struct Last {
    pub before: Learned,
    pub learned: Learned,
    pub pass: Pass,
}

impl Last {
    /// Replays all logs once more.
    fn go_on<L: Logs>(
        &mut self,
        base: Base<'_>,
        logs: &L,
        store: &mut Store,
    ) -> Result<(), ReplayFault> {
        self.before = self.learned.copied(base.ground.alloc)?;
        self.pass = pass_over(base, logs, store, &mut self.learned, &mut Nobody)?;
        Ok(())
    }

    /// Whether nothing is learned any more.
    fn is_done(&self) -> bool {
        self.pass.is_kept && !self.learned.is_grown
    }
}

/// Replays all logs until nothing is learned any more.
pub fn replay_all<L: Logs>(
    base: Base<'_>,
    logs: &L,
    store: &mut Store,
) -> Result<Last, ReplayFault> {
    let mut last = first(base, &store.made.shapes)?;
    for _ in 0..MOST_PASSES {
        last.go_on(base, logs, store)?;
        if last.is_done() {
            break;
        }
        last.learned.is_used = true;
    }
    Ok(last)
}

/// Before the first pass.
fn first(base: Base<'_>, shapes: &Shapes) -> Result<Last, AllocError> {
    let alloc = base.ground.alloc;
    Ok(Last {
        before: Learned::none(alloc),
        learned: Learned::new(alloc, base.ground.tables.threads.names.len())?,
        pass: Pass::new(base.stage(shapes), false)?,
    })
}

/// Replays all logs once.
pub fn pass_over<L: Logs, V: Visitor>(
    base: Base<'_>,
    logs: &L,
    store: &mut Store,
    learned: &mut Learned,
    visitor: &mut V,
) -> Result<Pass, ReplayFault> {
    let mut pass = Pass::new(base.stage(&store.made.shapes), learned.is_used)?;
    learned.is_grown = false;
    for (place, number) in base.order.iter().enumerate() {
        let reel = opened(base.ground, logs, &store.made, *number, short(place))?;
        pass.play_log(base, store, learned, visitor, reel)?;
    }
    pass.note_full(base.ground.alloc)?;
    Ok(pass)
}

impl Pass {
    /// Replays a log.
    fn play_log<R: Read + Drop, V: Visitor>(
        &mut self,
        base: Base<'_>,
        store: &mut Store,
        learned: &mut Learned,
        visitor: &mut V,
        mut reel: Reel<R>,
    ) -> Result<(), ReplayFault> {
        let mut play = self.begin_log(base.stage(&store.made.shapes), learned, visitor)?;
        for _ in 0..u64::MAX {
            reel.fill(base.ground, store)?;
            let stage = base.stage(&store.made.shapes);
            let count = reel.block();
            self.play(stage, learned, &mut play, visitor, &reel.course, count)?;
            if reel.is_over {
                break;
            }
            reel.go_on(base.ground)?;
        }
        visitor.end_log();
        Ok(())
    }

    /// A log begins.
    fn begin_log<V: Visitor>(
        &mut self,
        stage: Stage<'_>,
        learned: &Learned,
        visitor: &mut V,
    ) -> Result<Play, AllocError> {
        let mut play = Play::new(stage, learned)?;
        self.outcome.tracks.begin();
        self.stock(stage, learned, &mut play, visitor)?;
        Ok(play)
    }

    /// Notes that the logs were replayed in part, if they were.
    fn note_full(&mut self, alloc: Global) -> Result<(), AllocError> {
        if !self.outcome.is_full() {
            return Ok(());
        }
        self.notes.add(
            b"threads hold too many things at a time: the logs are replayed in part".to_vec(alloc)?,
        )
    }
}
