//! Which lock is to be taken for a refused call, in a program with a lock for each side.

use crate::walked::Refused;
use rc_lang::lines::{Op, Stmt, Test};
use rc_text::text::{put_counted, put_piece, put_pieces};
use std::alloc::AllocError;

/// The places at which the locks were taken that are held at a refused line.
#[derive(Clone, Copy)]
struct Held {
    sq: Option<usize>,
    cq: Option<usize>,
}

/// The locks that are held at a refused line.
fn held_at(refused: Refused) -> Held {
    let mut held = Held { sq: None, cq: None };
    for place in 0..refused.place {
        held = match refused.stmt(place) {
            Stmt::Lock(locks) => Held {
                sq: if locks.sq { Some(place) } else { held.sq },
                cq: if locks.cq { Some(place) } else { held.cq },
            },
            Stmt::EndLock(_, locks) => Held {
                sq: if locks.sq { None } else { held.sq },
                cq: if locks.cq { None } else { held.cq },
            },
            _ => held,
        };
    }
    held
}

/// Adds which lock is to be taken for a line that lacks one. Before version 4 there is one for both sides.
pub fn put_lock(text: &mut Vec<u8>, refused: Refused) -> Result<(), AllocError> {
    if refused.program().version() < 4 {
        return Ok(());
    }
    let held = held_at(refused);
    match refused.stmt(refused.place) {
        Stmt::Put(None, _) => put_named(text, refused, held, b"put"),
        Stmt::If(Test::Take(None, _)) => put_named(text, refused, held, b"if take"),
        Stmt::Peek(_) => put_reaping(text, refused, held),
        Stmt::Do(Op::CqeGetData64 | Op::CqeSeen) => put_reaping(text, refused, held),
        _ => put_submitting(text, refused, held),
    }
}

/// Adds that a call is to be put into the lock of its side, or into that of both.
fn put_either(text: &mut Vec<u8>, lock: &[u8]) -> Result<(), AllocError> {
    put_pieces(text, &[b"Put the call into `", lock, b"` .. `}` "])?;
    put_piece(
        text,
        b"or `lock {` .. `}`, together with the calls that rely on what it answered.",
    )
}

/// Adds where the lock is to be taken for a call of the submission side.
fn put_submitting(text: &mut Vec<u8>, refused: Refused, held: Held) -> Result<(), AllocError> {
    let Some(lock) = held.cq else {
        return put_either(text, b"lock sq {");
    };
    put_piece(
        text,
        b"Put the call into `lock sq {` .. `}`, together with the calls that rely on what it answered: ",
    )?;
    put_counted(
        text,
        b"that may be in the `lock cq {` of line ",
        u64::from(refused.number(lock)),
        b", and in an arm.",
    )
}

/// Adds where the lock is to be taken for a call of the completion side.
fn put_reaping(text: &mut Vec<u8>, refused: Refused, held: Held) -> Result<(), AllocError> {
    let Some(lock) = held.sq else {
        return put_either(text, b"lock cq {");
    };
    put_counted(
        text,
        b"Close the `lock sq {` of line ",
        u64::from(refused.number(lock)),
        b" first, and then reap under `lock cq {`, which can't be inside it.",
    )
}

/// Adds that the pool of a line is to be named, or what gives it both sides.
fn put_named(
    text: &mut Vec<u8>,
    refused: Refused,
    held: Held,
    word: &[u8],
) -> Result<(), AllocError> {
    put_pieces(
        text,
        &[
            b"Name a pool, by `pool NAME` above the threads and `",
            word,
            b" NAME` here, since that needs no lock; or ",
        ],
    )?;
    match (held.sq, held.cq) {
        (Some(lock), _) => put_counted(
            text,
            b"let line ",
            u64::from(refused.number(lock)),
            b" be `lock {`.",
        ),
        (_, Some(_)) => put_piece(
            text,
            b"put this line into `lock sq {` .. `}`: the thread has cq.",
        ),
        _ => put_piece(text, b"put this line into `lock {` .. `}`."),
    }
}
