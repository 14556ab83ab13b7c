//! Replaying the recorded logs.

use crate::again::{Logs, ReplayFault};
use crate::filling::{
    buffers_of, files_of, names_of, note_rings, rings_of, things_of, threads_of, tokens_of,
};
use crate::making::{Ground, Made};
use crate::names::short;
use crate::notes::Notes;
use crate::parts::{Parts, parts_of};
use crate::passes::{Base, Counted, Last, count_all, pass_over, replay_all};
use crate::recording::Recorder;
use crate::reel::Store;
use crate::replayed::Replayed;
use crate::replaying::Pass;
use crate::stage::{Learned, Stage};
use crate::survey::{Survey, look_over};
use crate::tables::{Tables, log_order, tables_of};
use crate::users::Users;
use crate::visitor::Visitor;
use std::alloc::{AllocError, Global};
use std::mem::swap;

/// Logs that were replayed.
#[derive(Drop)]
pub struct Replay {
    pub replayed: Replayed,
    pub again: Again,
}

/// What logs are replayed with.
#[derive(Drop)]
pub struct Again {
    store: Store,
    known: Known,
    counts: Counts,
    /// What was learned of the logs before the last pass over them.
    learned: Learned,
}

/// What is known of the logs once they are recorded.
#[derive(Drop)]
struct Known {
    order: Vec<u32>,
    tables: Tables,
    survey: Survey,
    parts: Parts,
    /// What is noted of them so far.
    notes: Notes,
}

/// What was counted in the logs.
#[derive(Drop)]
struct Counts {
    totals: Vec<u32>,
    users: Users,
}

impl Known {
    /// What the logs are read with.
    fn ground(&self, alloc: Global) -> Ground<'_> {
        Ground {
            alloc,
            tables: &self.tables,
            survey: &self.survey,
            parts: &self.parts,
        }
    }

    /// What the logs are replayed with.
    fn base<'a>(&'a self, alloc: Global, counts: &'a Counts) -> Base<'a> {
        Base {
            ground: self.ground(alloc),
            order: &self.order,
            totals: &counts.totals,
            users: &counts.users,
        }
    }
}

/// Replays the recorded logs, which are read again.
pub fn replay_logs<L: Logs>(
    alloc: Global,
    recorder: Recorder,
    logs: &L,
) -> Result<Replay, ReplayFault> {
    let mut again = again_of(alloc, recorder)?;
    let replayed = again.replay(alloc, logs)?;
    Ok(Replay { replayed, again })
}

/// What the recorded logs are replayed with.
fn again_of(alloc: Global, recorder: Recorder) -> Result<Again, AllocError> {
    let (known, made) = known_and_made(alloc, &recorder)?;
    Ok(Again {
        store: Store { recorder, made },
        known,
        counts: Counts {
            totals: Vec::new(alloc),
            users: Users::none(alloc),
        },
        learned: Learned::none(alloc),
    })
}

/// What is known of the logs that were recorded, and that nothing is made of them yet.
fn known_and_made(alloc: Global, recorder: &Recorder) -> Result<(Known, Made), AllocError> {
    let known = known_of(alloc, recorder)?;
    let made = Made::new(known.ground(alloc))?;
    Ok((known, made))
}

/// What is known of the logs that were recorded.
fn known_of(alloc: Global, recorder: &Recorder) -> Result<Known, AllocError> {
    let order = log_order(alloc, recorder)?;
    let tables = tables_of(alloc, recorder)?;
    let survey = look_over(alloc, recorder, &order, &tables)?;
    let (parts, notes) = parts_and_notes(alloc, recorder, &tables, &survey)?;
    Ok(Known {
        order,
        tables,
        survey,
        parts,
        notes,
    })
}

/// The parts of the models of the logs that were recorded, and what is noted of them.
fn parts_and_notes(
    alloc: Global,
    recorder: &Recorder,
    tables: &Tables,
    survey: &Survey,
) -> Result<(Parts, Notes), AllocError> {
    let mut notes = Notes::new(alloc);
    note_rings(alloc, recorder, &mut notes)?;
    let parts = parts_of(alloc, tables, survey, &mut notes)?;
    Ok((parts, notes))
}

/// How many there are of each part, as counted in the logs: the shares of each buffer, one of each of so many tokens, and no
/// requests or completions.
fn counts_of(counted: Counted, tokens: usize) -> Result<Counts, AllocError> {
    let Counted { writes, users } = counted;
    let mut totals = writes.into_shares();
    for _ in 0..tokens {
        totals.push(1)?;
    }
    for _ in 0..tokens.saturating_mul(2) {
        totals.push(0)?;
    }
    Ok(Counts { totals, users })
}

/// What is replayed before it is known.
fn nothing_replayed(alloc: Global, recorder: &Recorder) -> Replayed {
    let (entries, completions, _) = rings_of(recorder);
    Replayed {
        logs: short(recorder.logs.len()),
        entries,
        completions,
        files: Vec::new(alloc),
        buffers: Vec::new(alloc),
        tokens: Vec::new(alloc),
        things: Vec::new(alloc),
        pools: Vec::new(alloc),
        threads: Vec::new(alloc),
        places: Vec::new(alloc),
        holdings: Vec::new(alloc),
        events: Vec::new(alloc),
        windows: Vec::new(alloc),
        has_sides: false,
        left: 0,
        is_tight: recorder.names.tokens.len() >= entries as usize,
        notes: Vec::new(alloc),
    }
}

/// What the replay gives of threads and their events.
fn fill_outcome(
    stage: Stage<'_>,
    made: &Made,
    last: &mut Last,
    replayed: &mut Replayed,
) -> Result<(), AllocError> {
    let outcome = &mut last.pass.outcome;
    replayed.threads = threads_of(stage, made, &last.learned, outcome)?;
    replayed.events = outcome.events(stage, &last.learned.stocks)?;
    swap(&mut replayed.holdings, &mut outcome.holdings);
    swap(&mut replayed.windows, &mut outcome.tracks.windows);
    Ok(())
}

/// What the logs give of parts and names.
fn fill_tables(stage: Stage<'_>, made: &Made, replayed: &mut Replayed) -> Result<(), AllocError> {
    let ground = stage.ground;
    replayed.has_sides = made.locking.has_sides;
    replayed.left = made.left;
    replayed.files = files_of(ground)?;
    replayed.buffers = buffers_of(stage)?;
    replayed.tokens = tokens_of(ground, made)?;
    replayed.things = things_of(ground)?;
    replayed.pools = names_of(ground.alloc, &ground.tables.pools.names)?;
    replayed.places = names_of(ground.alloc, &ground.tables.places.names)?;
    Ok(())
}

impl Again {
    /// Replays the logs.
    fn replay<L: Logs>(&mut self, alloc: Global, logs: &L) -> Result<Replayed, ReplayFault> {
        self.count(alloc, logs)?;
        let base = self.known.base(alloc, &self.counts);
        let mut last = replay_all(base, logs, &mut self.store)?;
        swap(&mut self.learned, &mut last.before);
        Ok(self.replayed(alloc, &mut last)?)
    }

    /// Makes the events of the logs, and counts what comes of them.
    fn count<L: Logs>(&mut self, alloc: Global, logs: &L) -> Result<(), ReplayFault> {
        let known = &self.known;
        let counted = count_all(known.ground(alloc), logs, &known.order, &mut self.store)?;
        self.counts = counts_of(counted, known.tables.user_data.len())?;
        Ok(())
    }

    /// What came of the last pass over the logs.
    fn replayed(&mut self, alloc: Global, last: &mut Last) -> Result<Replayed, AllocError> {
        let mut replayed = nothing_replayed(alloc, &self.store.recorder);
        replayed.notes = self.notes(alloc, &last.pass)?;
        let stage = self.stage(alloc);
        fill_tables(stage, &self.store.made, &mut replayed)?;
        fill_outcome(stage, &self.store.made, last, &mut replayed)?;
        Ok(replayed)
    }

    /// What the logs were replayed with.
    fn stage(&self, alloc: Global) -> Stage<'_> {
        self.known
            .base(alloc, &self.counts)
            .stage(&self.store.made.shapes)
    }

    /// What was noted of the logs, in order.
    fn notes(&mut self, alloc: Global, pass: &Pass) -> Result<Vec<Vec<u8>>, AllocError> {
        let notes = &mut self.known.notes;
        notes.add_all(alloc, &self.store.made.notes)?;
        notes.add_all(alloc, &pass.notes)?;
        notes.sorted(alloc)
    }

    /// Replays the logs once more, and tells a visitor of each event.
    pub fn visit<L: Logs, V: Visitor>(
        &mut self,
        alloc: Global,
        logs: &L,
        visitor: &mut V,
    ) -> Result<(), ReplayFault> {
        let mut learned = self.learned.copied(alloc)?;
        let base = self.known.base(alloc, &self.counts);
        let _ = pass_over(base, logs, &mut self.store, &mut learned, visitor)?;
        Ok(())
    }
}
