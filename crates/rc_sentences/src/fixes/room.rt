//! Tests of how much room is left in the submission ring.

use super::lock_above;
use crate::walked::Refused;
use rc_lang::lines::{Locks, Op, Stmt, Test};
use rc_lang::program::Program;
use rc_text::text::{put_counted, put_number, put_piece, put_pieces};
use std::alloc::AllocError;

/// Where the bound on the queue comes from that is known at a `get_sqe`: a place, and how many calls of `get_sqe` there
/// are from there on, this one among them, and the first of them.
#[derive(Clone, Copy)]
struct Bound {
    place: usize,
    calls: u32,
    first: usize,
}

/// The bound that is known at a refused `get_sqe`, unless a loop in the lock says it.
fn bound_at(refused: Refused) -> Option<Bound> {
    let lock = lock_above(refused);
    let mut bound = Some(Bound {
        place: lock,
        calls: 1,
        first: refused.place,
    });
    for place in lock..refused.place {
        let inside = refused.place < refused.program().end_at(refused.walked.number, place);
        bound = match refused.stmt(place) {
            Stmt::Loop(_) => None,
            Stmt::If(Test::SpaceAtLeast(_)) if inside => Some(Bound {
                place,
                calls: 1,
                first: refused.place,
            }),
            Stmt::Do(Op::GetSqe) => bound.map(|bound| Bound {
                calls: bound.calls.saturating_add(1),
                first: bound.first.min(place),
                ..bound
            }),
            _ => bound,
        };
    }
    bound
}

/// Whether the queue is found empty below a line, in the same lock.
fn is_emptied(refused: Refused) -> bool {
    let mut place = refused.place;
    for _ in 0..4096 {
        place = place.saturating_add(1);
        match refused.stmt(place) {
            Stmt::If(Test::ReadyZero) => return true,
            Stmt::Lock(_) | Stmt::EndLock(_, _) => return false,
            _ => {}
        }
    }
    false
}

/// For how much room to ask before so many calls of `get_sqe`: where the queue isn't emptied below, so much that no more
/// than may be left are queued then.
fn asked(refused: Refused, calls: u32) -> u32 {
    let entries = refused.program().entries();
    let all = calls.saturating_add(entries.saturating_sub(refused.program().left()));
    if all > entries || is_emptied(refused) {
        calls
    } else {
        all
    }
}

/// Adds what makes it certain at a refused `get_sqe` that there is room: from version 4 on a ring with an entry for each
/// token, where it has fewer; and a test.
pub fn put_space(text: &mut Vec<u8>, refused: Refused) -> Result<(), AllocError> {
    let program = refused.program();
    let is_small = program.version() >= 4 && program.tokens().len() > program.entries() as usize;
    if is_small {
        put_ring(text, program)?;
    }
    let Some(bound) = bound_at(refused) else {
        return put_other(text, is_small);
    };
    let is_tested = matches!(refused.stmt(bound.place), Stmt::If(_));
    if bound.calls > program.entries() || !is_tested && program.left() == 0 {
        return put_other(text, is_small);
    }
    put_piece(text, if is_small { b" Or " } else { b"" })?;
    if is_tested {
        return put_wider(text, refused, bound, is_small);
    }
    put_piece(text, if is_small { b"write " } else { b"Write " })?;
    put_new_test(text, refused, bound)
}

/// How many entries the ring is to have, so that there is one for each token: a power of two.
fn wide_enough(program: &Program) -> u32 {
    let tokens = program.tokens().len();
    let mut entries = program.entries();
    for _ in 0..10 {
        if (entries as usize) < tokens {
            entries = entries.saturating_mul(2);
        }
    }
    entries
}

/// Adds with which line the ring has an entry for each token. Where all may stay queued, all may then, too.
fn put_ring(text: &mut Vec<u8>, program: &Program) -> Result<(), AllocError> {
    let entries = program.entries();
    let wide = wide_enough(program);
    put_piece(text, b"Let the ring have an entry for each token, by ")?;
    put_counted(text, b"`ring ", u64::from(wide), b"")?;
    let completions = program.completion_entries();
    if completions != entries.saturating_mul(2) {
        put_counted(text, b" cq ", u64::from(completions.max(wide)), b"")?;
    }
    match program.left() {
        0 => {}
        left => {
            let left = if left == entries { wide } else { left };
            put_counted(text, b" left ", u64::from(left), b"")?;
        }
    }
    put_piece(
        text,
        b"`: then a thread with the request's token needs no test.",
    )
}

/// Adds what else makes it certain, after how many entries the ring should have.
fn put_other(text: &mut Vec<u8>, is_small: bool) -> Result<(), AllocError> {
    if is_small {
        return put_piece(
            text,
            b" Or submit until `sq_ready == 0` first, or put the call inside `if sq_space_left >= 1 {`.",
        );
    }
    Ok(())
}

/// Adds for how much room the test is to ask that is around the call.
fn put_wider(
    text: &mut Vec<u8>,
    refused: Refused,
    bound: Bound,
    is_small: bool,
) -> Result<(), AllocError> {
    put_piece(text, if is_small { b"let" } else { b"Let" })?;
    put_counted(
        text,
        b" line ",
        u64::from(refused.number(bound.place)),
        b" be ",
    )?;
    put_test(text, asked(refused, bound.calls))?;
    put_counted(
        text,
        b", since ",
        u64::from(bound.calls),
        b" entries are opened after it.",
    )
}

/// Adds the test that is to be around the call, and where. From version 4 on it has an else.
fn put_new_test(text: &mut Vec<u8>, refused: Refused, bound: Bound) -> Result<(), AllocError> {
    put_test(text, asked(refused, bound.calls))?;
    put_counted(
        text,
        b" above line ",
        u64::from(refused.number(bound.first)),
        b"",
    )?;
    if refused.program().version() < 4 {
        put_piece(text, b", and `}` after the request")?;
    } else {
        put_piece(
            text,
            b", and after the request `} else {`, what becomes of its items then, and `}`",
        )?;
    }
    put_counted(
        text,
        b", since up to ",
        u64::from(refused.program().left()),
        b" may be queued where the ",
    )?;
    put_pieces(
        text,
        &[
            lock_of_queue(refused.stmt(bound.place)),
            b" is taken (left).",
        ],
    )
}

/// The lock that a line takes under which it is known how many entries are queued: that of both sides, or of one.
fn lock_of_queue(stmt: Stmt) -> &'static [u8] {
    match stmt {
        Stmt::Lock(Locks { cq: false, .. }) => b"lock sq",
        _ => b"lock",
    }
}

fn put_test(text: &mut Vec<u8>, room: u32) -> Result<(), AllocError> {
    put_piece(text, b"`if sq_space_left >= ")?;
    put_number(text, u64::from(room))?;
    put_piece(text, b" {`")
}
