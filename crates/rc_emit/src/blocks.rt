//! Blocks of statements.

use crate::lines::{put_closing, put_comment, put_event, put_indentation, put_line, put_source};
use crate::locks::{put_end_lock, put_lock, put_unlock};
use crate::operations::put_op;
use crate::place::Place;
use crate::pool::{put_pool_unlock, put_put, put_take};
use crate::terms::operator;
use rc_lang::lines::{Comparison, Locks, Stmt, Test};
use rc_text::text::{put_piece, put_pieces};
use std::alloc::AllocError;

/// How many blocks of C are open after a line, of so many before it.
pub fn depth_after(stmt: Stmt, depth: usize) -> usize {
    match stmt {
        Stmt::Lock(_)
        | Stmt::If(_)
        | Stmt::Case(_, _)
        | Stmt::Other(_)
        | Stmt::Nothing(_)
        | Stmt::Loop(_) => depth.saturating_add(1),
        Stmt::EndLock(_, _) | Stmt::EndIf(_) | Stmt::EndArm(_) | Stmt::EndLoop(_, _) => {
            depth.saturating_sub(1)
        }
        _ => depth,
    }
}

/// How many blocks of C are open around a line itself, of so many before it.
pub fn depth_of(stmt: Stmt, depth: usize) -> usize {
    match stmt {
        Stmt::EndLock(_, _) | Stmt::Else(_) | Stmt::EndIf(_) => depth.saturating_sub(1),
        Stmt::EndArm(_) | Stmt::EndLoop(_, _) => depth.saturating_sub(1),
        _ => depth,
    }
}

/// Adds a statement.
pub fn put_stmt(text: &mut Vec<u8>, place: Place<'_>, stmt: Stmt) -> Result<(), AllocError> {
    match stmt {
        Stmt::Do(op) => put_op(text, place, op),
        Stmt::Put(pool, list) => put_put(text, place, pool, list),
        Stmt::Lock(takes) => put_lock(text, place, takes),
        Stmt::EndLock(_, releases) => put_end_lock(text, place, releases),
        Stmt::If(test) => put_if(text, place, test),
        Stmt::Else(_) => put_else(text, place),
        Stmt::EndIf(_) | Stmt::EndArm(_) | Stmt::EndLoop(_, _) => put_closing(text, place),
        Stmt::Peek(x) => put_peek(text, place, x),
        Stmt::Case(peek, data) => put_case(text, place, peek, data),
        Stmt::Other(peek) => put_other(text, place, peek),
        Stmt::Nothing(peek) => put_nothing(text, place, peek),
        Stmt::EndPeek(_) => put_source(text, place),
        Stmt::Loop(_) => put_loop(text, place),
        Stmt::Break(_, releases, _) => put_break(text, place, releases),
    }
}

/// Adds what an if asks.
fn put_test(text: &mut Vec<u8>, place: Place<'_>, test: Test) -> Result<(), AllocError> {
    match test {
        Test::Compare(x, comparison, number) => put_comparison(text, place, x, comparison, number),
        Test::ReadyZero => put_line(text, place, &[b"yes = io_uring_sq_ready(&ring) == 0;"]),
        Test::SpaceAtLeast(count) => put_space(text, place, count),
        Test::Take(pool, list) => put_take(text, place, pool, list),
        Test::Any => put_line(text, place, &[b"yes = ringcheck_any() != 0;"]),
    }
}

fn put_comparison(
    text: &mut Vec<u8>,
    place: Place<'_>,
    x: usize,
    comparison: Comparison,
    number: i64,
) -> Result<(), AllocError> {
    let x = place.variable(x)?;
    let number = place.signed(number)?;
    put_line(
        text,
        place,
        &[
            b"yes = ",
            &x,
            b" ",
            operator(comparison),
            b" ",
            &number,
            b";",
        ],
    )
}

// As a comparison of unsigned numbers a compiler may find it to be always true.
fn put_space(text: &mut Vec<u8>, place: Place<'_>, count: u32) -> Result<(), AllocError> {
    let count = place.decimal(u64::from(count))?;
    put_line(
        text,
        place,
        &[b"answer = (int)io_uring_sq_space_left(&ring);"],
    )?;
    put_line(text, place, &[b"yes = answer >= ", &count, b";"])
}

/// Adds the beginning of an if.
fn put_if(text: &mut Vec<u8>, place: Place<'_>, test: Test) -> Result<(), AllocError> {
    put_source(text, place)?;
    put_test(text, place, test)?;
    put_event(text, place, &[b"if %s\", yes ? \"yes\" : \"no\""])?;
    put_after_test(text, place, test)?;
    put_line(text, place, &[b"if (yes) {"])
}

/// Adds that the mutex of a pool that was asked is released.
fn put_after_test(text: &mut Vec<u8>, place: Place<'_>, test: Test) -> Result<(), AllocError> {
    match test {
        Test::Take(pool, _) => put_pool_unlock(text, place, pool),
        Test::Compare(_, _, _) | Test::ReadyZero | Test::SpaceAtLeast(_) | Test::Any => Ok(()),
    }
}

/// Adds the beginning of a second branch.
fn put_else(text: &mut Vec<u8>, place: Place<'_>) -> Result<(), AllocError> {
    put_indentation(text, place.depth)?;
    put_piece(text, b"} else { ")?;
    put_comment(text, place)
}

/// Adds a peek before its arms: its answer, and what is logged of it.
fn put_peek(text: &mut Vec<u8>, place: Place<'_>, x: usize) -> Result<(), AllocError> {
    let x = place.variable(x)?;
    put_source(text, place)?;
    put_line(text, place, &[b"answer = io_uring_peek_cqe(&ring, &cqe);"])?;
    put_found(text, place, &x)?;
    put_none_found(text, place, &x)?;
    put_failed_peek(text, place)
}

/// Adds what a peek does that finds a completion.
fn put_found(text: &mut Vec<u8>, place: Place<'_>, x: &[u8]) -> Result<(), AllocError> {
    let deeper = place.deeper();
    put_line(text, place, &[b"if (answer == 0) {"])?;
    put_line(text, deeper, &[x, b" = cqe->res;"])?;
    put_line(text, deeper, &[b"SEE_COMPLETIONS();"])?;
    put_event(
        text,
        deeper,
        &[
            b"peek_cqe %\" PRIu64 \" %\" PRId64, (uint64_t)cqe->user_data, ",
            x,
        ],
    )
}

/// Adds what a peek does that finds none.
fn put_none_found(text: &mut Vec<u8>, place: Place<'_>, x: &[u8]) -> Result<(), AllocError> {
    let deeper = place.deeper();
    put_line(text, place, &[b"} else if (answer == -EAGAIN) {"])?;
    put_line(text, deeper, &[b"cqe = NULL;"])?;
    put_line(text, deeper, &[x, b" = -EAGAIN;"])?;
    put_event(text, deeper, &[b"peek_cqe none\""])?;
    put_line(text, deeper, &[b"SEE_COMPLETIONS();"])
}

/// Adds that the program stops where a peek answers anything else.
fn put_failed_peek(text: &mut Vec<u8>, place: Place<'_>) -> Result<(), AllocError> {
    let number = place.decimal(u64::from(place.number))?;
    put_line(text, place, &[b"} else {"])?;
    put_line(
        text,
        place.deeper(),
        &[b"stop(", &number, b", \"io_uring_peek_cqe\", answer);"],
    )?;
    put_line(text, place, &[b"}"])
}

/// How an arm's test begins: the first arm of a peek has no arm before it.
fn test_beginning(place: Place<'_>, peek: usize) -> &'static [u8] {
    if place.at <= peek.saturating_add(1) {
        b"if ("
    } else {
        b"else if ("
    }
}

/// Adds the beginning of the arm of a user data.
fn put_case(
    text: &mut Vec<u8>,
    place: Place<'_>,
    peek: usize,
    data: u64,
) -> Result<(), AllocError> {
    let beginning = test_beginning(place, peek);
    let data = place.data(data)?;
    put_source(text, place)?;
    put_line(
        text,
        place,
        &[
            beginning,
            b"cqe != NULL && cqe->user_data == ",
            &data,
            b") {",
        ],
    )
}

/// Adds the tests that no later arm of the peek is that of the completion.
fn put_later_cases(text: &mut Vec<u8>, place: Place<'_>, peek: usize) -> Result<(), AllocError> {
    for line in place.lines_from_here() {
        if let Stmt::Case(of, data) = line.stmt {
            if of == peek {
                let data = place.data(data)?;
                put_pieces(text, &[b" && cqe->user_data != ", &data])?;
            }
        }
    }
    Ok(())
}

/// Adds the beginning of the arm of any other user data. Those of the arms before it were tested there.
fn put_other(text: &mut Vec<u8>, place: Place<'_>, peek: usize) -> Result<(), AllocError> {
    put_source(text, place)?;
    put_indentation(text, place.depth)?;
    put_pieces(text, &[test_beginning(place, peek), b"cqe != NULL"])?;
    put_later_cases(text, place, peek)?;
    put_piece(text, b") {\n")
}

/// Adds the beginning of the arm of no completion.
fn put_nothing(text: &mut Vec<u8>, place: Place<'_>, peek: usize) -> Result<(), AllocError> {
    put_source(text, place)?;
    put_line(
        text,
        place,
        &[test_beginning(place, peek), b"cqe == NULL) {"],
    )
}

/// Adds the beginning of a loop.
fn put_loop(text: &mut Vec<u8>, place: Place<'_>) -> Result<(), AllocError> {
    put_source(text, place)?;
    put_line(text, place, &[b"for (;;) {"])?;
    put_event(text, place.deeper(), &[b"loop\""])
}

/// Adds a break. The blocks that it leaves are none from which C would break.
fn put_break(text: &mut Vec<u8>, place: Place<'_>, releases: Locks) -> Result<(), AllocError> {
    put_source(text, place)?;
    put_event(text, place, &[b"break\""])?;
    put_unlock(text, place, releases)?;
    put_line(text, place, &[b"break;"])
}
