//! Why a line of a log departs, and the places of the text where its thread can be.

use crate::follower::Follower;
use crate::hidden::{Ground, Way, go, may_take, push_hidden, way_on};
use crate::node::Node;
use crate::reach::Calls;
use crate::room::{Room, is_there};
use crate::visible::moves_named;
use rc_lang::lines::{Locks, Op, Stmt, Test};
use rc_log::call::{Call, Lack, Said};
use rc_world::event::Completion;
use rc_world::world::World;
use std::alloc::{AllocError, Global};

/// How many worlds are looked at, at most.
const MOST_WORLDS: usize = 1024;

/// How many plain steps are made at once.
const MOST_PLAIN: u32 = 64;

/// Why a line departs.
#[derive(Drop)]
pub enum Departure {
    /// The text has no thread with its name.
    NoThread,
    /// No line of a program makes the call.
    Lacks(Lack),
    /// It asks what only the holder of the submission mutex may ask.
    NoSqLock,
    /// The same of the completion mutex.
    NoCqLock,
    /// The text has so many entries in use, and the line says another number.
    Used(usize),
    /// So many requests of the text are out, and the line says another number.
    Out(usize),
    /// The thread can be at these places, and at none of them it makes the call.
    Elsewhere(Places),
    /// There are more worlds to look at than are looked at.
    TooMany,
}

/// Places where a thread can be.
#[derive(Drop)]
pub struct Places {
    /// The lines, each once: first those that are the call but for what it would have needed, then locks after which it
    /// can come, then others; of each kind the one to which the thread has gone furthest.
    pub lines: Vec<Place>,
    /// Whether it can have ended.
    pub ends: bool,
}

/// A line of the text that a thread can have next.
#[derive(Clone, Copy)]
pub struct Place {
    /// Its number in the text, from 1.
    pub number: u32,
    /// What the call would have needed there.
    pub need: Need,
    // How near it is to the call.
    kind: Kind,
    // To how many worlds hidden steps have led before.
    steps: usize,
}

/// How near a place is to the line's call.
#[derive(Clone, Copy)]
enum Kind {
    /// It is such a call.
    Call,
    /// It is a lock after which the call can come.
    Lock,
    /// Another call.
    Other,
}

/// What a call would have needed at a place.
#[derive(Clone, Copy)]
pub enum Need {
    /// It isn't the place's call.
    OtherCall,
    /// An answer that fits so many queued entries.
    Queued(usize),
    /// This completion, which is next.
    Found(Completion),
    /// The completion with this user data, which is next.
    Front(u64),
    /// A request with the user data, and none is out.
    NotOut,
    /// A result that the request with the user data can have.
    OtherResult,
    /// Items that aren't all in the pool.
    NotThere,
}

/// Why a line departs, once the follower has said that it does.
pub fn why_departs(
    alloc: Global,
    follower: &Follower<'_>,
    said: Said,
) -> Result<Departure, AllocError> {
    if let Call::Exit(_) = said.call {
        return Ok(Departure::Out(follower.requests_out()));
    }
    let Some(thread) = said.thread else {
        return Ok(Departure::NoThread);
    };
    let ground = follower.ground(alloc, thread, said.call);
    match said.call {
        Call::Foreign(lack) => Ok(Departure::Lacks(lack)),
        Call::PeekNone => Ok(Departure::NoCqLock),
        Call::SqSpaceLeft => Ok(Departure::NoSqLock),
        Call::SqReady(_) if !has_sq(ground) => Ok(Departure::NoSqLock),
        Call::SqReady(_) => Ok(Departure::Used(used_entries(ground))),
        Call::Submit(0) if !has_sq(ground) && is_idle(ground) => Ok(Departure::NoSqLock),
        _ => elsewhere(ground),
    }
}

/// How many entries are used in the first world before the line.
fn used_entries(ground: Ground<'_, '_>) -> usize {
    match ground.begun.first() {
        Some(node) => node.world().used_entries(),
        None => 0,
    }
}

/// Whether nothing is queued in the first world before the line.
fn is_idle(ground: Ground<'_, '_>) -> bool {
    match ground.begun.first() {
        Some(node) => node.world().queued().is_empty(),
        None => false,
    }
}

/// Whether the line's thread has the submission mutex.
fn has_sq(ground: Ground<'_, '_>) -> bool {
    let sq = Locks {
        sq: true,
        cq: false,
    };
    ground.noted.has_mutexes(ground.thread, sq)
}

/// The places of the thread in the worlds before the line, and in those to which its hidden steps lead.
fn elsewhere(ground: Ground<'_, '_>) -> Result<Departure, AllocError> {
    let mut places = Places {
        lines: Vec::new(ground.alloc),
        ends: false,
    };
    let mut found = Vec::new(ground.alloc);
    for node in ground.begun {
        let fresh = look_from(ground, node, 0, &mut places)?;
        take_in(ground, fresh, &mut found)?;
    }
    for at in 0..MOST_WORLDS {
        if found.len() > MOST_WORLDS || ground.begun.len() > MOST_WORLDS - found.len() {
            return Ok(Departure::TooMany);
        }
        let Some(node) = found.get(at) else {
            return Ok(Departure::Elsewhere(places));
        };
        let fresh = look_from(ground, node, at + 1, &mut places)?;
        take_in(ground, fresh, &mut found)?;
    }
    Ok(Departure::TooMany)
}

/// Notes the place where the thread is in a world, which is the one after so many, and answers the worlds to which a
/// hidden step leads from it.
fn look_from<'a>(
    ground: Ground<'_, '_>,
    node: &Node<'a>,
    steps: usize,
    places: &mut Places,
) -> Result<Vec<Node<'a>>, AllocError> {
    look(ground, node.world(), steps, places)?;
    hidden(ground, node)
}

/// The worlds to which a hidden step of the thread leads, or such a step and plain ones after it.
fn hidden<'a>(ground: Ground<'_, '_>, node: &Node<'a>) -> Result<Vec<Node<'a>>, AllocError> {
    let mut room = Room::new(ground.alloc);
    let mut fresh = Vec::new(ground.alloc);
    let again = node.copy(ground.alloc)?;
    let way = way_on(ground, again.world());
    push_hidden(ground, again, way, &mut room, &mut fresh)?;
    if is_far(ground.call) {
        for node in &mut fresh {
            make_plain(ground, node)?;
        }
    }
    Ok(fresh)
}

/// Whether plain steps are made at once, since no place between them matters.
fn is_far(call: Call) -> bool {
    !matches!(call, Call::Reads(_) | Call::Writes(_) | Call::Unlock(_))
}

/// Makes plain steps of the thread as long as it has one next.
fn make_plain(ground: Ground<'_, '_>, node: &mut Node<'_>) -> Result<(), AllocError> {
    for _step in 0..MOST_PLAIN {
        match way_on(ground, node.world()) {
            Way::On(step) if is_next_plain(ground, node) => {
                go(ground, node, step)?;
            }
            _ => return Ok(()),
        }
    }
    Ok(())
}

/// Whether the thread's next statement is plain.
fn is_next_plain(ground: Ground<'_, '_>, node: &Node<'_>) -> bool {
    match node.world().line(ground.thread) {
        Some(line) => is_plain(line.stmt),
        None => false,
    }
}

/// Whether the statement's only step is hidden, wherever it is made.
fn is_plain(stmt: Stmt) -> bool {
    match stmt {
        Stmt::Do(
            Op::Set(_, _)
            | Op::Assign(_, _)
            | Op::Add(_, _, _)
            | Op::Subtract(_, _, _)
            | Op::Store(_, _, _)
            | Op::Fill(_, _)
            | Op::Print(_)
            | Op::CqeGetData64,
        ) => true,
        Stmt::If(Test::Compare(_, _, _) | Test::ReadyZero | Test::SpaceAtLeast(_)) => true,
        Stmt::Loop(_) | Stmt::EndLock(_, _) | Stmt::Break(_, _, _) => true,
        _ => false,
    }
}

/// Moves worlds over to those found, but for those that are like one found or like one that the search began from.
fn take_in<'a>(
    ground: Ground<'_, '_>,
    fresh: Vec<Node<'a>>,
    found: &mut Vec<Node<'a>>,
) -> Result<(), AllocError> {
    for node in fresh {
        if !is_there(ground.reads, &node, ground.begun) && !is_there(ground.reads, &node, found) {
            found.push(node)?;
        }
    }
    Ok(())
}

/// Notes the place where the thread is in a world.
fn look(
    ground: Ground<'_, '_>,
    world: &World<'_>,
    steps: usize,
    places: &mut Places,
) -> Result<(), AllocError> {
    match world.line(ground.thread) {
        None => {
            places.ends = true;
            Ok(())
        }
        Some(line) if is_place(ground, line.stmt) => {
            let place = Place {
                number: line.number,
                need: needed(ground, world, line.stmt),
                kind: kind_of(ground, world, line.stmt),
                steps,
            };
            add(place, &mut places.lines)
        }
        Some(_) => Ok(()),
    }
}

/// Whether this next line is named as the thread's place: a call, a lock that it can't take, and a put or a take of a
/// named pool where the log's line is one too.
fn is_place(ground: Ground<'_, '_>, stmt: Stmt) -> bool {
    match stmt {
        Stmt::Do(
            Op::GetSqe
            | Op::PrepRead(_, _, _, _)
            | Op::PrepWrite(_, _, _, _, _)
            | Op::PrepFsync(_, _)
            | Op::PrepNop
            | Op::PrepOther
            | Op::SetData64(_)
            | Op::Submit(_)
            | Op::SubmitAndWait(_, _)
            | Op::CqeSeen,
        ) => true,
        Stmt::Peek(_) => true,
        Stmt::Lock(wanted) => !may_take(ground, wanted),
        Stmt::Put(Some(_), _) | Stmt::If(Test::Take(Some(_), _)) => {
            matches!(ground.call, Call::Put(_) | Call::Take(_))
        }
        _ => false,
    }
}

/// How near this next line is to the line's call.
fn kind_of(ground: Ground<'_, '_>, world: &World<'_>, stmt: Stmt) -> Kind {
    match (world.place(ground.thread), stmt) {
        (Some(place), Stmt::Lock(_))
            if ground
                .reach
                .leads_on(ground.thread, place, Calls::of(ground.call)) => Kind::Lock,
        (_, Stmt::Lock(_)) => Kind::Other,
        _ if Calls::at(stmt).is_same(Calls::of(ground.call)) => Kind::Call,
        _ => Kind::Other,
    }
}

/// Adds a place in its order, if it isn't there.
fn add(place: Place, lines: &mut Vec<Place>) -> Result<(), AllocError> {
    for there in lines.iter() {
        if there.number == place.number {
            return Ok(());
        }
    }
    let after = lines
        .iter()
        .position(|there| is_before(place, *there))
        .unwrap_or(lines.len());
    lines.insert(after, place)?;
    Ok(())
}

/// Whether a place is named before another.
fn is_before(place: Place, other: Place) -> bool {
    match (place.kind, other.kind) {
        (Kind::Call, Kind::Lock | Kind::Other) | (Kind::Lock, Kind::Other) => true,
        (Kind::Other, Kind::Call | Kind::Lock) | (Kind::Lock, Kind::Call) => false,
        _ => place.steps > other.steps,
    }
}

/// What the line's call would have needed at this statement.
fn needed(ground: Ground<'_, '_>, world: &World<'_>, stmt: Stmt) -> Need {
    match (ground.call, stmt) {
        (Call::Submit(_), Stmt::Do(Op::Submit(_) | Op::SubmitAndWait(_, _))) => {
            Need::Queued(world.queued().len())
        }
        (Call::Peek { user_data, .. }, Stmt::Peek(_)) => need_of_peek(world, user_data),
        (Call::CqeSeen(_), Stmt::Do(Op::CqeSeen)) => match world.completions().first() {
            Some(front) => Need::Front(front.user_data),
            None => Need::OtherCall,
        },
        (Call::Take(mark), Stmt::If(Test::Take(Some(of), _)))
            if mark.pool == of && moves_named(world.program(), ground.thread, ground.call, stmt) =>
            Need::NotThere,
        _ => Need::OtherCall,
    }
}

fn need_of_peek(world: &World<'_>, user_data: u64) -> Need {
    match world.completions().first() {
        Some(front) => Need::Found(*front),
        None if world.pending_place(user_data).is_none() => Need::NotOut,
        None => Need::OtherResult,
    }
}
