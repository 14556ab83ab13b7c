//! What is in the pools.

use rc_lang::program::Program;
use rc_split::pool::Pool;
use rc_text::names::{buffer_name, pool_name};
use rc_text::text::{put_counted, put_piece, put_pieces};
use rc_world::world::World;
use std::alloc::AllocError;

/// Adds what is in each pool of a world: in the one without a name, and in each that has one.
pub fn put_pools(text: &mut Vec<u8>, world: &World<'_>) -> Result<(), AllocError> {
    let program = world.program();
    put_pool(text, &[b"pool:"], program, world.pools().unnamed())?;
    for (number, pool) in world.pools().named().iter().enumerate() {
        let heading = [b"pool ", pool_name(program, number), b":"];
        put_pool(text, &heading, program, pool)?;
    }
    Ok(())
}

/// Adds what is in a pool, to the end of its line.
fn put_pool(
    text: &mut Vec<u8>,
    heading: &[&[u8]],
    program: &Program,
    pool: &Pool,
) -> Result<(), AllocError> {
    put_pieces(text, heading)?;
    put_shares(text, program, pool)?;
    put_tokens(text, program, pool)?;
    put_share(text, b"c", pool.credits())?;
    put_piece(text, b"\n")
}

fn put_shares(text: &mut Vec<u8>, program: &Program, pool: &Pool) -> Result<(), AllocError> {
    for buffer in 0..program.buffers().len() {
        put_share(text, buffer_name(program, buffer), pool.shares_of(buffer))?;
    }
    Ok(())
}

/// Adds how many shares of a name there are, where there is any.
fn put_share(text: &mut Vec<u8>, name: &[u8], count: u32) -> Result<(), AllocError> {
    if count == 0 {
        return Ok(());
    }
    put_pieces(text, &[b" ", name])?;
    put_counted(text, b":", u64::from(count), b"")
}

/// Adds each token that is in the pool.
fn put_tokens(text: &mut Vec<u8>, program: &Program, pool: &Pool) -> Result<(), AllocError> {
    for token in program.tokens() {
        if pool.has_token(program, token.user_data) {
            put_counted(text, b" t:", token.user_data, b"")?;
        }
    }
    Ok(())
}
