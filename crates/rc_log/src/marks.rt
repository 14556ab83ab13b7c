//! Mutexes and marks, by the words after their first.

ghost use Rattle.std.specs.Prelude.{◌≡◌};
ghost use Rattle.rc_log.specs.Cuts.{words_after};
ghost use Rattle.rc_log.specs.Said as spec;

use crate::call::{Call, Lack, PoolMark};
use crate::parts::{buffer_of, pool_of};
use crate::words::{is, is_end, next_word, one_word};
use rc_lang::lines::Locks;
use rc_lang::program::Program;

fn side(word: &[u8]) -> Option<Locks>
    ensures { result ≡ spec.side word.now }
{
    if is(word, b"sq") {
        Some(Locks {
            sq: true,
            cq: false,
        })
    } else if is(word, b"cq") {
        Some(Locks {
            sq: false,
            cq: true,
        })
    } else {
        None
    }
}

// Both sides, `sq` or `cq`.
fn sides(rest: &[u8]) -> Option<Locks>
    ensures { result ≡ spec.sides (words_after rest.now) }
{
    match next_word(rest) {
        None => Some(Locks { sq: true, cq: true }),
        Some((word, rest)) if is_end(rest) => side(word),
        Some(_) => None,
    }
}

/// `lock`, `lock sq` and `lock cq`.
pub fn lock(rest: &[u8]) -> Option<Call>
    ensures { result ≡ spec.of_sides Call.Lock (words_after rest.now) }
{
    Some(Call::Lock(sides(rest)?))
}

/// `unlock`, `unlock sq` and `unlock cq`.
pub fn unlock(rest: &[u8]) -> Option<Call>
    ensures { result ≡ spec.of_sides Call.Unlock (words_after rest.now) }
{
    Some(Call::Unlock(sides(rest)?))
}

/// `reads BUFFER`.
pub fn reads(program: &Program, rest: &[u8]) -> Option<Call>
    ensures { result ≡ spec.of_buffer Call.Reads program.now (words_after rest.now) }
{
    match buffer_of(program, one_word(rest)?)? {
        Ok(buffer) => Some(Call::Reads(buffer)),
        Err(lack) => Some(Call::Foreign(lack)),
    }
}

/// `writes BUFFER`.
pub fn writes(program: &Program, rest: &[u8]) -> Option<Call>
    ensures { result ≡ spec.of_buffer Call.Writes program.now (words_after rest.now) }
{
    match buffer_of(program, one_word(rest)?)? {
        Ok(buffer) => Some(Call::Writes(buffer)),
        Err(lack) => Some(Call::Foreign(lack)),
    }
}

fn unnamed(pool: Result<usize, Lack>) -> Result<PoolMark, Lack>
    ensures { result ≡ spec.unnamed pool }
{
    Ok(PoolMark {
        pool: pool?,
        buffer: None,
    })
}

fn named(pool: Result<usize, Lack>, buffer: Result<usize, Lack>) -> Result<PoolMark, Lack>
    ensures { result ≡ spec.named pool buffer }
{
    Ok(PoolMark {
        pool: pool?,
        buffer: Some(buffer?),
    })
}

/// `POOL` and `POOL BUFFER`.
fn pool_mark(program: &Program, rest: &[u8]) -> Option<Result<PoolMark, Lack>>
    ensures { result ≡ spec.pool_mark program.now (words_after rest.now) }
{
    let (pool, rest) = next_word(rest)?;
    let pool = pool_of(program, pool)?;
    if is_end(rest) {
        return Some(unnamed(pool));
    }
    let buffer = buffer_of(program, one_word(rest)?)?;
    Some(named(pool, buffer))
}

/// `put POOL` and `put POOL BUFFER`.
pub fn put(program: &Program, rest: &[u8]) -> Option<Call>
    ensures { result ≡ spec.of_pool Call.Put program.now (words_after rest.now) }
{
    match pool_mark(program, rest)? {
        Ok(mark) => Some(Call::Put(mark)),
        Err(lack) => Some(Call::Foreign(lack)),
    }
}

/// `take POOL` and `take POOL BUFFER`.
pub fn take(program: &Program, rest: &[u8]) -> Option<Call>
    ensures { result ≡ spec.of_pool Call.Take program.now (words_after rest.now) }
{
    match pool_mark(program, rest)? {
        Ok(mark) => Some(Call::Take(mark)),
        Err(lack) => Some(Call::Foreign(lack)),
    }
}
