//! A thread whose orders are too many for its code: all that it has lies in a pool of its own, and each thing that it
//! was seen to do with it is one try of a loop.

use crate::acts::{put_send, put_submit};
use crate::loop_peek::put_peek;
use crate::piece::{Comment, Head, Line, Piece, Pool, Test};
use crate::source::Source;
use crate::steps::{Doing, Step, Steps};
use crate::stretches::Stretches;
use crate::work::Body;
use std::alloc::AllocError;

/// How many things are written at most.
const MOST: u32 = 20_000;

/// Something to be written.
#[derive(Clone, Copy)]
pub enum Task {
    /// A piece.
    Put(Piece),
    /// What is done at a step, and all that comes after it.
    Step(u32),
    /// What comes after a step.
    After(u32),
}

/// The code of such a thread, which begins with a holding.
pub fn looped(source: Source<'_>, stretches: Stretches, start: u32) -> Result<Body, AllocError> {
    let Stretches { steps, lists, .. } = stretches;
    let mut body = Body::new(source.alloc);
    body.lists = lists;
    if steps.next(0).is_empty() {
        return Ok(body);
    }
    put_start(source, &mut body, start)?;
    let locks = source.guards.around();
    body.open_lock(locks)?;
    body.open(Head::Loop)?;
    let mut tasks = Vec::new(source.alloc);
    put_tries(source, &mut body, &mut tasks, &steps)?;
    work_off(source, &mut body, &steps, &mut tasks)?;
    body.close()?;
    body.close_lock(locks)?;
    Ok(body)
}

// Puts what the thread begins with into its pool, each thing by itself.
fn put_start(source: Source<'_>, body: &mut Body, start: u32) -> Result<(), AllocError> {
    let items = source.items(start)?;
    for thing in 0..crate::marks::number_of(source.replayed.things.len()) {
        let some = source.some_of(&items, thing)?;
        if !some.is_empty() {
            let list = body.own_list(some)?;
            body.line(Line::Put(Pool::Own, list))?;
        }
    }
    Ok(())
}

// Does the tasks.
fn work_off(
    source: Source<'_>,
    body: &mut Body,
    steps: &Steps,
    tasks: &mut Vec<Task>,
) -> Result<(), AllocError> {
    for _turn in 0..MOST {
        let Some(task) = tasks.pop() else {
            break;
        };
        put_task(source, body, steps, tasks, task)?;
    }
    Ok(())
}

fn put_task(
    source: Source<'_>,
    body: &mut Body,
    steps: &Steps,
    tasks: &mut Vec<Task>,
    task: Task,
) -> Result<(), AllocError> {
    match task {
        Task::Put(piece) => body.add(piece),
        Task::Step(at) => match steps.get(at) {
            Some(step) => put_step(source, body, tasks, step, at),
            None => Ok(()),
        },
        Task::After(at) => match steps.get(at) {
            Some(step) => put_after(body, tasks, step),
            None => Ok(()),
        },
    }
}

// Has these tasks done next, in order.
fn plan(tasks: &mut Vec<Task>, next: &[Task]) -> Result<(), AllocError> {
    for task in next.iter().rev() {
        tasks.push(*task).map_err(AllocError::from)?;
    }
    Ok(())
}

// Adds what is done at a step, and plans what comes after it.
fn put_step(
    source: Source<'_>,
    body: &mut Body,
    tasks: &mut Vec<Task>,
    step: &Step,
    at: u32,
) -> Result<(), AllocError> {
    let comment = body.comment(&step.places)?;
    if let Some(test) = test_before(body, step.doing) {
        return plan(
            tasks,
            &[
                Task::Put(Piece::test(test).with(comment)),
                Task::After(at),
                Task::Put(Piece::close()),
            ],
        );
    }
    put_act(source, body, step, comment)?;
    plan(tasks, &[Task::After(at)])
}

// What is asked before a step, if something is.
fn test_before(body: &mut Body, doing: Doing) -> Option<Test> {
    match doing {
        Doing::Own(list) => {
            body.has_own = true;
            Some(Test::Take(Pool::Own, list))
        }
        Doing::Take(pool, list) => Some(Test::Take(Pool::Log(pool), list)),
        _ => None,
    }
}

fn put_act(
    source: Source<'_>,
    body: &mut Body,
    step: &Step,
    comment: Comment,
) -> Result<(), AllocError> {
    let locks = source.send_locks(step.standing.is_in_arm);
    let line = match step.doing {
        Doing::Send(submit) => {
            return put_send(source, body, &step.requests, (submit, comment), locks);
        }
        Doing::Submit(submit) => return put_submit(source, body, (submit, comment), locks),
        Doing::Fill(buffer) => Line::Fill(buffer),
        Doing::Load(buffer) => Line::Load(buffer),
        Doing::Put(pool, list) => Line::Put(Pool::Log(pool), list),
        Doing::Seen => Line::Seen,
        Doing::End => Line::Break,
        Doing::Root | Doing::Own(_) | Doing::Take(_, _) | Doing::Reap(_, _, _) => return Ok(()),
    };
    body.add(Piece::line(line).with(comment))
}

// Plans what comes after a step: one of the next ones, or the end of the stretch.
fn put_after(body: &mut Body, tasks: &mut Vec<Task>, step: &Step) -> Result<(), AllocError> {
    let mut next = Vec::new(*tasks.allocator());
    let is_end = step.is_end || step.next.is_empty();
    let mut ends = 0usize;
    for (place, at) in step.next.iter().enumerate() {
        let is_last = place.saturating_add(1) == step.next.len() && !is_end;
        if !is_last {
            ends = ends.saturating_add(1);
        }
        put_choice(&mut next, *at, is_last)?;
    }
    if is_end {
        put_rest(body, &mut next, step)?;
    }
    for _ in 0..ends {
        next.push(Task::Put(Piece::close()))
            .map_err(AllocError::from)?;
    }
    plan(tasks, &next)
}

// Plans a step: a free choice, unless it is the last.
fn put_choice(next: &mut Vec<Task>, at: u32, is_last: bool) -> Result<(), AllocError> {
    if is_last {
        return next.push(Task::Step(at)).map_err(AllocError::from);
    }
    next.extend_from_slice(&[
        Task::Put(Piece::test(Test::Any)),
        Task::Step(at),
        Task::Put(Piece::middle()),
    ])
}

// Plans the end of a stretch: what is in hand goes into the thread's pool, and a completion is seen.
fn put_rest(body: &mut Body, next: &mut Vec<Task>, step: &Step) -> Result<(), AllocError> {
    if !body.list(step.standing.hand).is_empty() {
        body.has_own = true;
        let line = Line::Put(Pool::Own, step.standing.hand);
        next.push(Task::Put(Piece::line(line)))
            .map_err(AllocError::from)?;
    }
    if step.standing.is_early {
        next.push(Task::Put(Piece::line(Line::Seen)))
            .map_err(AllocError::from)?;
    }
    Ok(())
}

// Plans all tries: what begins with what the thread has or takes, submits, a peek, the end.
fn put_tries(
    source: Source<'_>,
    body: &mut Body,
    tasks: &mut Vec<Task>,
    steps: &Steps,
) -> Result<(), AllocError> {
    let mut next = Vec::new(source.alloc);
    for at in steps.next(0) {
        if let Some(step) = steps.get(*at) {
            put_try(&mut next, step.doing, *at)?;
        }
    }
    put_peek(source, body, &mut next, steps)?;
    for at in steps.next(0) {
        if let Some(step) = steps.get(*at) {
            put_free(&mut next, matches!(step.doing, Doing::End), *at)?;
        }
    }
    plan(tasks, &next)
}

fn put_try(next: &mut Vec<Task>, doing: Doing, at: u32) -> Result<(), AllocError> {
    match doing {
        Doing::Reap(_, _, _) | Doing::End | Doing::Root => Ok(()),
        Doing::Submit(_) => put_free(next, true, at),
        _ => next.push(Task::Step(at)).map_err(AllocError::from),
    }
}

// Plans a step that may be left out, if it is to be.
fn put_free(next: &mut Vec<Task>, is: bool, at: u32) -> Result<(), AllocError> {
    if !is {
        return Ok(());
    }
    next.extend_from_slice(&[
        Task::Put(Piece::test(Test::Any)),
        Task::Step(at),
        Task::Put(Piece::close()),
    ])
}
