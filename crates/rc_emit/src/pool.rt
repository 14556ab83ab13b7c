//! The pools: plain counters. The ring's locks guard those of the pool without a name. A pool with a name has a mutex of
//! its own, which is held for one step.

use crate::lines::{put_event, put_indentation, put_line, put_source};
use crate::locks::put_mutex;
use crate::place::Place;
use rc_lang::program::Items;
use rc_text::text::{put_piece, put_pieces};
use std::alloc::AllocError;

/// Adds that the items of a list, so many of each, are put into a pool or leave it. The pool's counters have this before
/// their names.
fn put_moved(
    text: &mut Vec<u8>,
    place: Place<'_>,
    pool: &[u8],
    items: &Items,
    operator: &[u8],
) -> Result<(), AllocError> {
    for share in &items.shares {
        let buffer = place.buffer(share.buffer)?;
        let count = place.decimal(u64::from(share.count))?;
        put_line(text, place, &[pool, &buffer, operator, &count, b";"])?;
    }
    for token in &items.tokens {
        let token = place.decimal(*token)?;
        put_line(text, place, &[pool, b"token_", &token, operator, b"1;"])?;
    }
    if items.credits > 0 {
        let count = place.decimal(u64::from(items.credits))?;
        put_line(text, place, &[pool, b"credits", operator, &count, b";"])?;
    }
    Ok(())
}

/// Adds a call of the mutex of a pool with a name.
fn put_pool_call(
    text: &mut Vec<u8>,
    place: Place<'_>,
    call: &[u8],
    pool: Option<usize>,
) -> Result<(), AllocError> {
    let Some(pool) = pool else {
        return Ok(());
    };
    let mut mutex = place.table(pool)?;
    put_pieces(&mut mutex, &[b".lock"])?;
    put_mutex(text, place, call, &mutex)
}

/// Adds that the mutex of a pool with a name is released.
pub fn put_pool_unlock(
    text: &mut Vec<u8>,
    place: Place<'_>,
    pool: Option<usize>,
) -> Result<(), AllocError> {
    put_pool_call(text, place, b"unlock", pool)
}

/// Adds that items are put into a pool.
pub fn put_put(
    text: &mut Vec<u8>,
    place: Place<'_>,
    pool: Option<usize>,
    list: usize,
) -> Result<(), AllocError> {
    let counters = place.pool(pool)?;
    put_source(text, place)?;
    put_pool_call(text, place, b"lock", pool)?;
    if let Some(items) = place.thread.lists.get(list) {
        put_moved(text, place, &counters, items, b" += ")?;
    }
    put_event(text, place, &[b"put\""])?;
    put_pool_unlock(text, place, pool)
}

/// Adds the tests that a pool has the items of a list.
fn put_has(
    text: &mut Vec<u8>,
    place: Place<'_>,
    pool: &[u8],
    items: &Items,
) -> Result<(), AllocError> {
    for share in &items.shares {
        let buffer = place.buffer(share.buffer)?;
        let count = place.decimal(u64::from(share.count))?;
        put_pieces(text, &[b" && ", pool, &buffer, b" >= ", &count])?;
    }
    for token in &items.tokens {
        let token = place.decimal(*token)?;
        put_pieces(text, &[b" && ", pool, b"token_", &token, b" >= 1"])?;
    }
    if items.credits > 0 {
        let count = place.decimal(u64::from(items.credits))?;
        put_pieces(text, &[b" && ", pool, b"credits >= ", &count])?;
    }
    Ok(())
}

/// Adds that items leave a pool where it has them. The mutex of one with a name is still held after it.
pub fn put_take(
    text: &mut Vec<u8>,
    place: Place<'_>,
    pool: Option<usize>,
    list: usize,
) -> Result<(), AllocError> {
    let counters = place.pool(pool)?;
    put_pool_call(text, place, b"lock", pool)?;
    match place.thread.lists.get(list) {
        Some(items) => put_taken(text, place, &counters, items),
        None => put_line(text, place, &[b"yes = true;"]),
    }
}

/// Adds that the items of a list leave a pool where it has them.
fn put_taken(
    text: &mut Vec<u8>,
    place: Place<'_>,
    pool: &[u8],
    items: &Items,
) -> Result<(), AllocError> {
    put_has_line(text, place, pool, items)?;
    put_line(text, place, &[b"if (yes) {"])?;
    put_moved(text, place.deeper(), pool, items, b" -= ")?;
    put_line(text, place, &[b"}"])
}

/// Adds the line that asks whether a pool has the items of a list.
fn put_has_line(
    text: &mut Vec<u8>,
    place: Place<'_>,
    pool: &[u8],
    items: &Items,
) -> Result<(), AllocError> {
    put_indentation(text, place.depth)?;
    put_piece(text, b"yes = true")?;
    put_has(text, place, pool, items)?;
    put_piece(text, b";\n")
}
