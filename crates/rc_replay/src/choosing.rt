//! Which thing a mark of a pool moves, where it doesn't say.

use crate::ahead::{Ahead, NEVER, Touch};
use crate::playing::Play;
use crate::shapes::Deed;
use crate::stage::{Learned, Moment, Scene, Stage};

/// The most things that are looked at.
const MOST_THINGS: usize = 512;

/// How well a thing fits a mark: the least fits best.
type Fit = ((bool, bool, bool, bool), (bool, u32, u32));

/// A thing, how well it fits, and whether nobody has had it.
#[derive(Clone, Copy)]
pub struct Choice {
    fit: Fit,
    pub thing: u32,
    pub is_fresh: bool,
}

/// What is the same for all things that a put may move.
#[derive(Clone, Copy)]
struct Row {
    ahead: Ahead,
    /// Whether the thread's put before or after is into the same pool, and nobody takes from it in between.
    is_row: bool,
    pool: u32,
}

/// The better of two choices, of equal ones the first.
fn better(best: Option<Choice>, choice: Choice) -> Option<Choice> {
    match best {
        Some(best) if best.fit <= choice.fit => Some(best),
        _ => Some(choice),
    }
}

/// Whether a thread touches a thing next, before it takes anything.
fn touches_next(touch: Option<Touch>, thread: u32, take: u32) -> bool {
    match touch {
        Some(touch) => touch.thread == thread && touch.event <= take,
        None => false,
    }
}

/// The event of a touch, or never.
fn event_of(touch: Option<Touch>) -> u32 {
    match touch {
        Some(touch) => touch.event,
        None => NEVER,
    }
}

/// The pool of an event that is a put.
pub fn put_pool(scene: Scene<'_>, event: u32) -> Option<u32> {
    let larger = scene.event(event)?;
    match scene.stage.shapes.at(larger.shape)?.deed {
        Deed::Put { pool, buffer: _ } => Some(pool),
        _ => None,
    }
}

/// What is the same for all things that a put may move.
fn row_of(scene: Scene<'_>, play: &Play, moment: Moment, pool: u32) -> Row {
    let ahead = scene.ahead(moment.event);
    let is_next = put_pool(scene, ahead.next) == Some(pool) && ahead.pool_take >= ahead.next;
    Row {
        ahead,
        is_row: is_next || play.marks.is_row(moment.thread, pool),
        pool,
    }
}

/// The thing that a put moves.
pub fn choose_put(
    scene: Scene<'_>,
    play: &Play,
    learned: &Learned,
    moment: Moment,
    pool: u32,
) -> Option<Choice> {
    let row = row_of(scene, play, moment, pool);
    let mut best = None;
    for share in play.ledger.held(moment.thread).iter().take(MOST_THINGS) {
        if let Some(thing) = scene.stage.thing_of(share.part) {
            best = better(
                best,
                put_choice(scene, play, learned, moment, row, thing, false),
            );
        }
    }
    for thing in play.fresh.iter().rev().take(MOST_THINGS) {
        if play.is_fresh(scene.stage, *thing) {
            best = better(
                best,
                put_choice(scene, play, learned, moment, row, *thing, true),
            );
        }
    }
    best
}

/// How well a thing fits a put.
fn put_choice(
    scene: Scene<'_>,
    play: &Play,
    learned: &Learned,
    moment: Moment,
    row: Row,
    thing: u32,
    is_fresh: bool,
) -> Choice {
    let touch = play.next_touch(scene, thing);
    let is_needed = touches_next(touch, moment.thread, row.ahead.take)
        && !lends(scene, play, moment, thing);
    let is_first = play.recent(scene.stage, thing).is_none()
        && row.ahead.pool_take >= row.ahead.same_put;
    let is_free = row.is_row && !is_needed || is_first;
    let first = (
        is_needed && !is_free,
        learned.is_used && !learned.is_home(row.pool, thing),
        scene.stage.is_bare(thing),
        is_fresh && !is_free,
    );
    let second = if is_free {
        (false, 0, 0)
    } else {
        second_fit(scene.stage, play, moment, thing, touch)
    };
    Choice {
        fit: (first, second),
        thing,
        is_fresh,
    }
}

/// How well a thing fits a put by who touches it next and had it last.
fn second_fit(
    stage: Stage<'_>,
    play: &Play,
    moment: Moment,
    thing: u32,
    touch: Option<Touch>,
) -> (bool, u32, u32) {
    let is_own = match touch {
        Some(touch) => touch.thread == moment.thread,
        None => true,
    };
    let recent = match play.recent(stage, thing) {
        Some(event) => NEVER - event,
        None => NEVER,
    };
    (is_own, event_of(touch), recent)
}

/// The thing that a take moves.
pub fn choose_take(
    scene: Scene<'_>,
    play: &Play,
    learned: &Learned,
    moment: Moment,
    pool: u32,
) -> Option<Choice> {
    let ahead = scene.ahead(moment.event);
    let put = later_put(scene, ahead);
    let mut best = None;
    let owner = scene.stage.owner_of(pool);
    for share in play.ledger.held(owner).iter().take(MOST_THINGS) {
        if let Some(thing) = scene.stage.thing_of(share.part) {
            best = better(
                best,
                take_choice(scene, play, learned, moment, ahead, put, thing),
            );
        }
    }
    best
}

/// Whether a thread that puts a thing puts one share of it, since it touches it next before it takes anything.
pub fn lends(scene: Scene<'_>, play: &Play, moment: Moment, thing: u32) -> bool {
    if !scene.stage.is_shared(thing) || play.ledger.count(moment.thread, thing) < 2 {
        return false;
    }
    match play.next_touch(scene, thing) {
        Some(touch) => {
            touch.thread == moment.thread
                && touch.event <= scene.ahead(moment.event).take
                && !scene.needs_all(touch.event, thing)
        }
        None => false,
    }
}

/// Whether a thread that takes a thing takes one share of it: it needs one next, and another takes from the pool before
/// the thread puts anything.
pub fn borrows(scene: Scene<'_>, play: &Play, moment: Moment, thing: u32) -> bool {
    let ahead = scene.ahead(moment.event);
    if !scene.stage.is_shared(thing) || ahead.pool_take >= ahead.put {
        return false;
    }
    match play.next_touch(scene, thing) {
        Some(touch) => !scene.needs_all(touch.event, thing),
        None => false,
    }
}

/// The pool into which the thread puts next, before it takes anything.
pub fn later_put(scene: Scene<'_>, ahead: Ahead) -> Option<u32> {
    if ahead.put < ahead.take {
        put_pool(scene, ahead.put)
    } else {
        None
    }
}

/// How well a thing fits a take.
fn take_choice(
    scene: Scene<'_>,
    play: &Play,
    learned: &Learned,
    moment: Moment,
    ahead: Ahead,
    put: Option<u32>,
    thing: u32,
) -> Choice {
    let touch = play.next_touch(scene, thing);
    let is_own = match touch {
        Some(touch) => touch.thread == moment.thread,
        None => false,
    };
    let is_stray = match put {
        Some(put) => learned.is_used && !learned.is_home(put, thing),
        None => false,
    };
    let first = (
        !(is_own && event_of(touch) < ahead.take),
        is_stray,
        !play.is_sender(thing, moment.thread),
        !is_own,
    );
    Choice {
        fit: (first, (false, NEVER - event_of(touch), 0)),
        thing,
        is_fresh: false,
    }
}

/// Whether a thread touches a thing after an event, before it takes anything.
pub fn is_plain(scene: Scene<'_>, play: &Play, moment: Moment, thing: u32) -> bool {
    let take = scene.ahead(moment.event).take;
    match play.next_touch(scene, thing) {
        Some(touch) => touch.thread == moment.thread && touch.event < take,
        None => false,
    }
}

/// The thing that nobody had which a thread touches next, before it takes anything.
pub fn fresh_for(scene: Scene<'_>, play: &Play, moment: Moment) -> Option<u32> {
    for thing in play.fresh.iter().rev().take(MOST_THINGS) {
        if play.is_fresh(scene.stage, *thing) && is_plain(scene, play, moment, *thing) {
            return Some(*thing);
        }
    }
    None
}
