//! What to write for a refused line, where its program shows that.

mod flags;
mod headers;
mod locks;
mod loops;
mod pools;
mod room;

use crate::asks::Missing;
use crate::lost::request_of;
use crate::lost::ways::{Loss, Point};
use crate::parts::put_part;
use crate::state_text::put_kinds;
use crate::walked::Refused;
use rc_lang::lines::{Locks, Op, Stmt};
use rc_lang::program::Token;
use rc_rules::cause::Cause;
use rc_rules::kinds::{shares_of, token_of};
use rc_split::part::Part;
use rc_text::text::{put_counted, put_piece};
use std::alloc::AllocError;

/// What to write for a refused line, in a sentence or two, where it misses a part that was lost so; nothing where the
/// program shows no more than the cause does.
pub fn put_fix(
    fix: &mut Vec<u8>,
    refused: Refused,
    cause: Cause,
    lost: Option<(Missing, Loss)>,
) -> Result<(), AllocError> {
    match (cause, lost) {
        (Cause::Unlocked, _) => locks::put_lock(fix, refused),
        (Cause::QueueLeft, _) => loops::put_queue(fix, refused),
        (Cause::QueueFull, _) => room::put_space(fix, refused),
        (Cause::NoEntry, _) => put_for_entry(fix, refused),
        (_, Some((missing, loss))) => put_for_loss(fix, refused, cause, missing, loss),
        _ => Ok(()),
    }
}

/// Adds where a line that gets the user data of a completion is to be.
fn put_for_entry(fix: &mut Vec<u8>, refused: Refused) -> Result<(), AllocError> {
    match refused.stmt(refused.place) {
        Stmt::Do(Op::CqeGetData64) => put_piece(
            fix,
            b"Put `cqe_get_data64` into the arm that saw the completion, above its `cqe_seen`.",
        ),
        _ => Ok(()),
    }
}

/// The place at which the submission side is taken that is held at a refused line.
fn lock_above(refused: Refused) -> usize {
    let mut lock = 0;
    for place in 0..refused.place {
        if let Stmt::Lock(Locks { sq: true, .. }) = refused.stmt(place) {
            lock = place;
        }
    }
    lock
}

/// Whether a line that misses a part is one that uses it, and no list of what is kept.
fn uses(cause: Cause) -> bool {
    matches!(
        cause,
        Cause::NoCredit | Cause::NotWhole | Cause::NoShare | Cause::NoToken
    )
}

/// Adds how a line is fixed that misses a part which was lost so.
fn put_for_loss(
    text: &mut Vec<u8>,
    refused: Refused,
    cause: Cause,
    missing: Missing,
    loss: Loss,
) -> Result<(), AllocError> {
    match loss {
        Loss::Peeked(part) => put_back(text, refused, part, get_or_see(refused, part)),
        Loss::Got(part) => put_back(text, refused, part, SEE),
        Loss::At(point, _) => put_for_line(text, refused, cause, missing.part, point),
        Loss::Ends(lacking, _, holding) if uses(cause) => {
            if flags::put_when(text, refused, holding)? {
                return Ok(());
            }
            put_moved(text, refused, missing.part, lacking.place)
        }
        Loss::Ends(lacking, _, _) if matches!(cause, Cause::NotHeld) => {
            pools::put_in_branch(text, refused, missing.part, lacking.place)
        }
        Loss::Never if uses(cause) && !missing.on_other => put_never(text, refused, missing.part),
        _ => Ok(()),
    }
}

// What to write where a part comes back with the peeked completion.
const SEE: &[u8] = b"Write `cqe_seen` above this line, since it gives ";

/// The same, of a part that the request has: from version 5 on also what only gets it gives that back.
fn get_or_see(refused: Refused, part: Part) -> &'static [u8] {
    match part {
        Part::Credits(_) => SEE,
        _ if refused.program().version() < 5 => SEE,
        _ => b"Write `cqe_get_data64` above this line, or `cqe_seen`, since each gives ",
    }
}

/// Adds what gives a part back.
fn put_back(
    text: &mut Vec<u8>,
    refused: Refused,
    part: Part,
    advice: &[u8],
) -> Result<(), AllocError> {
    put_piece(text, advice)?;
    put_part(text, refused.program(), part)?;
    put_piece(text, b" back.")
}

/// Adds how a line is fixed that misses a part which the line at a place gave away.
fn put_for_line(
    text: &mut Vec<u8>,
    refused: Refused,
    cause: Cause,
    part: Part,
    point: Point,
) -> Result<(), AllocError> {
    let place = point.place;
    match refused.stmt(place) {
        Stmt::Loop(list) => loops::put_kept(text, refused, point, list, part),
        Stmt::Put(Some(pool), list) if uses(cause) => {
            pools::put_above(text, refused, part, pool, list, place)
        }
        Stmt::Put(None, _) if uses(cause) => put_taken(text, refused, part, place),
        Stmt::Put(_, list) if matches!(cause, Cause::NotHeld) => {
            pools::put_twice(text, refused, part, list, place)
        }
        Stmt::Do(_) if uses(cause) => put_reaped(text, refused, cause, part, point),
        _ => Ok(()),
    }
}

/// Adds where a part is to come from that isn't held on any way to a line.
fn put_never(text: &mut Vec<u8>, refused: Refused, part: Part) -> Result<(), AllocError> {
    if !matches!(part, Part::Credits(_)) && pools::put_found(text, refused, part)? {
        return Ok(());
    }
    if !matches!(part, Part::Credits(_)) && pools::put_begun(text, refused, part)? {
        return Ok(());
    }
    headers::put_move(text, refused, part)
}

/// Adds that a part is to be taken which is put into the pool without a name at a place.
fn put_taken(
    text: &mut Vec<u8>,
    refused: Refused,
    part: Part,
    place: usize,
) -> Result<(), AllocError> {
    if let Some(take) = pools::take_below(*text.allocator(), refused, part, place)? {
        return pools::put_into_branch(text, refused, part, take);
    }
    put_piece(text, b"Take it first, by `if take ")?;
    put_part(text, refused.program(), part)?;
    put_counted(
        text,
        b" {`, or move this line above line ",
        u64::from(refused.number(place)),
        b".",
    )
}

/// Adds that a line is to be moved to an end that has a part, since the one at a place doesn't.
fn put_moved(
    text: &mut Vec<u8>,
    refused: Refused,
    part: Part,
    place: usize,
) -> Result<(), AllocError> {
    if let Stmt::Break(_, _, _) = refused.stmt(place) {
        put_counted(
            text,
            b"Leave the loop at line ",
            u64::from(refused.number(place)),
            b"",
        )?;
        put_piece(text, b" only with ")?;
        put_part(text, refused.program(), part)?;
        return put_piece(text, b", or reap the request after the loop, too.");
    }
    put_piece(text, b"Move this line to where ")?;
    put_part(text, refused.program(), part)?;
    put_piece(
        text,
        b" is held, or wait in a loop that only that way leaves.",
    )
}

/// Adds which request is to be reaped, where it was given a part at a place, and with which number the flag says that.
fn put_reaped(
    text: &mut Vec<u8>,
    refused: Refused,
    cause: Cause,
    part: Part,
    point: Point,
) -> Result<(), AllocError> {
    let Some(user_data) = request_of(refused, point.place) else {
        return Ok(());
    };
    if let Some(token) = lessening(refused, user_data, point.place) {
        return put_apart(text, refused, token);
    }
    put_counted(text, b"Reap request ", user_data, b" first, since ")?;
    match cause {
        Cause::NoCredit => put_piece(
            text,
            b"its `cqe_seen` gives the credit back, or hold more credits",
        )?,
        _ => {
            put_piece(text, b"`cqe_seen` in its own `case` gives ")?;
            put_part(text, refused.program(), part)?;
            put_piece(text, b" back")?;
        }
    }
    if !point.zero {
        flags::put_zero(text, refused, point.place)?;
    }
    put_piece(text, b".")
}

/// The token of a request with which less comes back than the prep at a place took, since another kind of the token owns
/// less.
fn lessening(refused: Refused, user_data: u64, place: usize) -> Option<Token> {
    let view = refused.view();
    let (buffer, taken) = match refused.stmt(place) {
        Stmt::Do(Op::PrepRead(_, buffer, _, _)) => (buffer, view.shares_at(buffer)),
        Stmt::Do(Op::PrepWrite(_, buffer, _, _, count)) => (buffer, count),
        _ => return None,
    };
    let token = token_of(view, user_data)?;
    (shares_of(view, token, buffer) < taken).then_some(token)
}

/// Adds that each kind of a token is to have a token of its own.
fn put_apart(text: &mut Vec<u8>, refused: Refused, token: Token) -> Result<(), AllocError> {
    put_counted(
        text,
        b"Declare a token for each kind of token ",
        token.user_data,
        b", ",
    )?;
    put_kinds(text, refused.program(), token)?;
    put_piece(
        text,
        b": as it is, only the least that one of them owns comes back with its request.",
    )
}
