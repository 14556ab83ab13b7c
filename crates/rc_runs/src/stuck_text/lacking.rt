//! Where an item is for which a pool is asked, in words.

use crate::stuck_text::had::{Got, Had, buffer_of};
use crate::stuck_text::standing::Standing;
use rc_lang::program::{Items, Program};
use rc_lang::request::Request;
use rc_split::pool::Pool;
use rc_text::names::{buffer_name, pool_name, thread_name};
use rc_text::text::{put_counted, put_piece, put_pieces};
use rc_world::world::World;
use std::alloc::AllocError;

/// An item that a pool lacks.
#[derive(Clone, Copy)]
enum Lack {
    /// Shares of the buffer with this number.
    Shares(usize),
    /// The token with this user data.
    Token(u64),
    /// Credits.
    Credits,
}

/// Where an item is.
#[derive(Clone, Copy)]
enum Holder {
    /// In the pool with this number; none: the one without a name.
    Pool(Option<usize>),
    /// In an entry that is queued.
    Queued,
    /// In a completion that nobody takes away.
    Completed,
    /// With a thread.
    Thread(u32),
    /// Nowhere.
    Nobody,
}

/// Adds where the first of these items is that a pool lacks.
pub fn put_lacking(
    text: &mut Vec<u8>,
    world: &World<'_>,
    had: &Had,
    all: &[Standing],
    pool: Option<usize>,
    items: &Items,
) -> Result<(), AllocError> {
    let program = world.program();
    let Some(lack) = lack_of(world, pool, items) else {
        return Ok(());
    };
    put_piece(text, b"; ")?;
    match holder_of(world, all, pool, lack) {
        Holder::Pool(Some(other)) => {
            put_pieces(text, &[b"pool ", pool_name(program, other), b" has "])?;
            put_lack(text, program, lack)
        }
        Holder::Pool(None) => put_had_by(text, program, b"the pool without a name", lack),
        Holder::Queued => put_had_by(text, program, b"a queued entry", lack),
        Holder::Completed => put_had_by(text, program, b"a completion", lack),
        Holder::Thread(thread) => put_had_by(text, program, thread_name(program, thread), lack),
        Holder::Nobody => put_lost(text, program, had, lack),
    }
}

/// Adds who has an item.
fn put_had_by(
    text: &mut Vec<u8>,
    program: &Program,
    who: &[u8],
    lack: Lack,
) -> Result<(), AllocError> {
    put_pieces(text, &[who, b" has "])?;
    put_lack(text, program, lack)
}

/// Adds that nothing has an item, and which thread had it last.
fn put_lost(
    text: &mut Vec<u8>,
    program: &Program,
    had: &Had,
    lack: Lack,
) -> Result<(), AllocError> {
    put_had_by(text, program, b"nothing", lack)?;
    put_piece(text, b" any more")?;
    match last_of(program, had, lack) {
        Some(got) => {
            let name = thread_name(program, got.thread);
            put_pieces(text, &[b" (", name, b" had it last, line "])?;
            put_counted(text, b"", u64::from(got.line), b")")
        }
        None => Ok(()),
    }
}

/// Adds an item.
fn put_lack(text: &mut Vec<u8>, program: &Program, lack: Lack) -> Result<(), AllocError> {
    match lack {
        Lack::Shares(buffer) => put_piece(text, buffer_name(program, buffer)),
        Lack::Token(user_data) => put_counted(text, b"t:", user_data, b""),
        Lack::Credits => put_piece(text, b"c"),
    }
}

/// Which thread had an item last.
fn last_of(program: &Program, had: &Had, lack: Lack) -> Option<Got> {
    match lack {
        Lack::Shares(buffer) => had.of_buffer(buffer),
        Lack::Token(user_data) => had.of_token(program, user_data),
        Lack::Credits => had.of_credits(),
    }
}

/// The first of these items that a pool lacks.
fn lack_of(world: &World<'_>, pool: Option<usize>, items: &Items) -> Option<Lack> {
    let pool = pool_of(world, pool)?;
    for share in &items.shares {
        if pool.shares_of(share.buffer) < share.count {
            return Some(Lack::Shares(share.buffer));
        }
    }
    for token in &items.tokens {
        if !pool.has_token(world.program(), *token) {
            return Some(Lack::Token(*token));
        }
    }
    (pool.credits() < items.credits).then_some(Lack::Credits)
}

/// A pool of a world.
fn pool_of<'w>(world: &'w World<'_>, pool: Option<usize>) -> Option<&'w Pool> {
    match pool {
        Some(number) => world.pools().named().get(number),
        None => Some(world.pools().unnamed()),
    }
}

/// Where an item is that this pool lacks.
fn holder_of(world: &World<'_>, all: &[Standing], asked: Option<usize>, lack: Lack) -> Holder {
    if let Some(other) = pool_with(world, asked, lack) {
        return other;
    }
    if is_in(world.queued(), lack) {
        return Holder::Queued;
    }
    if is_in(world.completed(), lack) {
        return Holder::Completed;
    }
    for standing in all {
        if let Some(thread) = world.program().threads().get(standing.thread as usize)
            && let Some(kept) = standing.kept(thread)
            && has(kept, lack)
        {
            return Holder::Thread(standing.thread);
        }
    }
    Holder::Nobody
}

/// Another pool that has some of an item.
fn pool_with(world: &World<'_>, asked: Option<usize>, lack: Lack) -> Option<Holder> {
    let program = world.program();
    for (number, pool) in world.pools().named().iter().enumerate() {
        if asked != Some(number) && is_some_in(program, pool, lack) {
            return Some(Holder::Pool(Some(number)));
        }
    }
    let is_there = asked.is_some() && is_some_in(program, world.pools().unnamed(), lack);
    is_there.then_some(Holder::Pool(None))
}

/// Whether a pool has some of an item.
fn is_some_in(program: &Program, pool: &Pool, lack: Lack) -> bool {
    match lack {
        Lack::Shares(buffer) => pool.shares_of(buffer) > 0,
        Lack::Token(user_data) => pool.has_token(program, user_data),
        Lack::Credits => pool.credits() > 0,
    }
}

/// Whether one of these requests has an item.
fn is_in(requests: &[Request], lack: Lack) -> bool {
    for request in requests {
        let has = match lack {
            Lack::Shares(buffer) => buffer_of(*request) == Some(buffer),
            Lack::Token(user_data) => request.user_data == user_data,
            Lack::Credits => true,
        };
        if has {
            return true;
        }
    }
    false
}

/// Whether these items have some of an item.
fn has(items: &Items, lack: Lack) -> bool {
    match lack {
        Lack::Shares(buffer) => {
            for share in &items.shares {
                if share.buffer == buffer {
                    return true;
                }
            }
            false
        }
        Lack::Token(user_data) => items.tokens.contains(&user_data),
        Lack::Credits => items.credits > 0,
    }
}
