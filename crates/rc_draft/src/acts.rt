//! What a thread does: requests, submits, marks, and what it puts into pools.

use crate::items::above;
use crate::piece::{Comment, Head, Line, Piece, Pool, Test};
use crate::source::{Plan, Source};
use crate::work::Body;
use rc_lang::lines::Locks;
use rc_machine::machine::{Node, What};
use rc_replay::replayed::{Sent, Submit};
use std::alloc::AllocError;

/// Adds what a thread does at a node.
pub fn put_act(
    plan: Plan<'_>,
    body: &mut Body,
    number: u32,
    node: &Node,
    is_in_arm: bool,
) -> Result<(), AllocError> {
    let comment = body.comment(&node.places)?;
    let locks = plan.source.send_locks(is_in_arm);
    match &node.what {
        What::Send { requests, submit } => {
            put_send(plan.source, body, requests, (*submit, comment), locks)
        }
        What::Submit(submit) => put_submit(plan.source, body, (*submit, comment), locks),
        What::Put { pool, .. } => put_put(plan, body, number, *pool, comment),
        What::Fill(buffer) => body.add(Piece::line(Line::Fill(*buffer)).with(comment)),
        What::Load(buffer) => body.add(Piece::line(Line::Load(*buffer)).with(comment)),
        What::Seen(_) => body.add(Piece::line(Line::Seen).with(comment)),
        What::After { .. } | What::Wait | What::Take { .. } | What::End => Ok(()),
    }
}

// Adds that what is held no more after a node goes into a pool.
fn put_put(
    plan: Plan<'_>,
    body: &mut Body,
    number: u32,
    pool: u32,
    comment: Comment,
) -> Result<(), AllocError> {
    let before = plan.items(number)?;
    let after = match plan.graph.next(number).first() {
        Some(next) => plan.items(*next)?,
        None => return Ok(()),
    };
    let items = above(plan.source.alloc, &before, &after)?;
    let list = body.lists.add(items)?;
    body.add(Piece::line(Line::Put(Pool::Log(pool), list)).with(comment))
}

/// Adds requests, and their submit. Where the ring may lack room for them, they are tried until it has it.
pub fn put_send(
    source: Source<'_>,
    body: &mut Body,
    requests: &[Sent],
    submit: (Submit, Comment),
    locks: Option<Locks>,
) -> Result<(), AllocError> {
    if !source.is_tight {
        body.open_lock(locks)?;
        put_requests(body, requests)?;
        put_submits(source, body, submit)?;
        return body.close_lock(locks);
    }
    body.open(Head::Loop)?;
    body.open_lock(locks)?;
    let count = crate::marks::number_of(requests.len());
    body.open(Head::If(Test::SpaceAtLeast(count)))?;
    put_requests(body, requests)?;
    put_submits(source, body, submit)?;
    body.line(Line::Break)?;
    body.close()?;
    body.line(Line::Submit)?;
    body.close_lock(locks)?;
    body.close()
}

/// Adds requests.
pub fn put_requests(body: &mut Body, requests: &[Sent]) -> Result<(), AllocError> {
    for sent in requests {
        put_request(body, *sent)?;
    }
    Ok(())
}

fn put_request(body: &mut Body, sent: Sent) -> Result<(), AllocError> {
    body.add(Piece::line(Line::GetSqe).with(Comment::Place(sent.opened)))?;
    body.add(Piece::line(Line::Prep(sent.token, sent.request)).with(Comment::Place(
        sent.prepared,
    )))?;
    body.add(Piece::line(Line::Data(sent.token)).with(Comment::Place(sent.named)))
}

/// Adds a submit in its lock.
pub fn put_submit(
    source: Source<'_>,
    body: &mut Body,
    submit: (Submit, Comment),
    locks: Option<Locks>,
) -> Result<(), AllocError> {
    body.open_lock(locks)?;
    put_submits(source, body, submit)?;
    body.close_lock(locks)
}

// Adds a submit, until nothing is queued where nothing may stay.
fn put_submits(
    source: Source<'_>,
    body: &mut Body,
    submit: (Submit, Comment),
) -> Result<(), AllocError> {
    let (submit, comment) = submit;
    let line = match submit {
        Submit::None => return Ok(()),
        Submit::Now => Line::Submit,
        Submit::AndWait(count) => Line::SubmitAndWait(count),
    };
    let piece = Piece::line(line).with(comment);
    if source.has_left {
        return body.add(piece);
    }
    body.open(Head::Loop)?;
    body.add(piece)?;
    body.open(Head::If(Test::ReadyZero))?;
    body.line(Line::Break)?;
    body.close()?;
    body.close()
}
