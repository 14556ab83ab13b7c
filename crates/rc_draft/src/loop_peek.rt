//! The peek of a thread whose code is one loop.

use crate::loop_form::Task;
use crate::marks::number_of;
use crate::piece::{Comment, Head, Line, Piece, Test};
use crate::results::test_of;
use crate::source::Source;
use crate::steps::{Doing, Steps, add_places};
use crate::work::Body;
use rc_replay::replayed::{Kind, Token};
use std::alloc::{AllocError, Global};

/// Plans a peek with an arm for each token that the thread was seen to reap.
pub fn put_peek(
    source: Source<'_>,
    body: &mut Body,
    next: &mut Vec<Task>,
    steps: &Steps,
) -> Result<(), AllocError> {
    if !has_reaps(steps) {
        return Ok(());
    }
    let locks = source.guards.of_peek();
    if let Some(locks) = locks {
        put_open(next, Head::If(Test::Any))?;
        put_open(next, Head::Lock(locks))?;
    }
    put_open(next, Head::Peek)?;
    for token in 0..number_of(source.replayed.tokens.len()) {
        put_arm(source, body, next, steps, token)?;
    }
    for head in [Head::Other, Head::Nothing] {
        put_open(next, head)?;
        put_ends(next, 1)?;
    }
    put_ends(next, if locks.is_some() { 3 } else { 1 })
}

fn put_open(next: &mut Vec<Task>, head: Head) -> Result<(), AllocError> {
    next.push(Task::Put(Piece::open(head)))
        .map_err(AllocError::from)
}

fn put_ends(next: &mut Vec<Task>, count: u32) -> Result<(), AllocError> {
    for _ in 0..count {
        next.push(Task::Put(Piece::close()))
            .map_err(AllocError::from)?;
    }
    Ok(())
}

fn has_reaps(steps: &Steps) -> bool {
    for at in steps.next(0) {
        if let Some(step) = steps.get(*at) {
            if matches!(step.doing, Doing::Reap(_, _, _)) {
                return true;
            }
        }
    }
    false
}

// Plans the arm of a token, if it was reaped.
fn put_arm(
    source: Source<'_>,
    body: &mut Body,
    next: &mut Vec<Task>,
    steps: &Steps,
    number: u32,
) -> Result<(), AllocError> {
    let early = reaps_of(source.alloc, steps, number, true)?;
    let late = reaps_of(source.alloc, steps, number, false)?;
    let (Some(token), false) = (source.token(number), early.is_empty() && late.is_empty()) else {
        return Ok(());
    };
    let comment = unseen(steps, *token, &early, &late);
    next.push(Task::Put(Piece::open(Head::Case(number)).with(comment)))
        .map_err(AllocError::from)?;
    if token.is_peeked_twice {
        put_open(next, Head::If(Test::Any))?;
    }
    put_manners(body, next, steps, *token, (&early, &late))?;
    put_ends(next, if token.is_peeked_twice { 2 } else { 1 })
}

// Plans what is done with a completion: it is used before it is seen, or seen at once.
fn put_manners(
    body: &mut Body,
    next: &mut Vec<Task>,
    steps: &Steps,
    token: Token,
    reaps: (&[u32], &[u32]),
) -> Result<(), AllocError> {
    let (early, late) = reaps;
    let has_both = !early.is_empty() && !late.is_empty();
    if has_both {
        put_open(next, Head::If(Test::Any))?;
    }
    put_classes(body, next, steps, token, (early, Line::Got))?;
    if has_both {
        next.push(Task::Put(Piece::middle()))
            .map_err(AllocError::from)?;
    }
    put_classes(body, next, steps, token, (late, Line::Seen))?;
    put_ends(next, if has_both { 1 } else { 0 })
}

// Plans what is done by the class of a completion, which is looked at by a line.
fn put_classes(
    body: &mut Body,
    next: &mut Vec<Task>,
    steps: &Steps,
    token: Token,
    reaps: (&[u32], Line),
) -> Result<(), AllocError> {
    let (reaps, line) = reaps;
    let Some((last, first)) = reaps.split_last() else {
        return Ok(());
    };
    let places = places_of(body, steps, reaps)?;
    let comment = body.comment(&places)?;
    next.push(Task::Put(Piece::line(line).with(comment)))
        .map_err(AllocError::from)?;
    for at in first {
        let test = Piece::test(test_of(token, class_of(steps, *at)));
        next.extend_from_slice(&[
            Task::Put(test),
            Task::After(*at),
            Task::Put(Piece::middle()),
        ])?;
    }
    next.push(Task::After(*last)).map_err(AllocError::from)?;
    put_ends(next, number_of(first.len()))
}

// The lines of C of some steps.
fn places_of(body: &Body, steps: &Steps, reaps: &[u32]) -> Result<Vec<u32>, AllocError> {
    let mut places = Vec::new(*body.comments.allocator());
    for at in reaps {
        if let Some(step) = steps.get(*at) {
            add_places(&mut places, &step.places)?;
        }
    }
    Ok(places)
}

// The steps that reap a token, by class.
fn reaps_of(
    alloc: Global,
    steps: &Steps,
    token: u32,
    is_early: bool,
) -> Result<Vec<u32>, AllocError> {
    let mut reaps = Vec::new(alloc);
    for class in 0..4 {
        for at in steps.next(0) {
            if is_reap(steps, *at, Doing::Reap(token, class, is_early)) {
                reaps.push(*at)?;
            }
        }
    }
    Ok(reaps)
}

fn is_reap(steps: &Steps, at: u32, doing: Doing) -> bool {
    match steps.get(at) {
        Some(step) => step.doing == doing,
        None => false,
    }
}

// The place of the class that a step reaps.
fn class_of(steps: &Steps, at: u32) -> u32 {
    match steps.get(at) {
        Some(step) => match step.doing {
            Doing::Reap(_, class, _) => class,
            _ => 0,
        },
        None => 0,
    }
}

// What no log shows of the completions of a token.
fn unseen(steps: &Steps, token: Token, early: &[u32], late: &[u32]) -> Comment {
    let is_moving = matches!(token.kind, Kind::Read | Kind::Write);
    let has_less = has_class(steps, early, 1) || has_class(steps, late, 1);
    let has_none = has_class(steps, early, 2) || has_class(steps, late, 2);
    let has_errno = has_class(steps, early, 3) || has_class(steps, late, 3);
    Comment::Unseen {
        errno: !has_errno,
        less: is_moving && !has_less && !has_none,
    }
}

fn has_class(steps: &Steps, reaps: &[u32], class: u32) -> bool {
    for at in reaps {
        if class_of(steps, *at) == class {
            return true;
        }
    }
    false
}
