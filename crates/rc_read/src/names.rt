//! Names, and what is declared.

ghost use Rattle.std.specs.Prelude.{◌≡◌, map, IfOk, OnOk};
ghost use Rattle.std.specs.Str.{bytes_eq};
ghost use Rattle.rc_lang.specs.Parts.{view_buffer, view_names, view_stock, view_thread};
ghost use Rattle.rc_read.specs.Sheets as spec;

use crate::words::is;
use indexmap::IndexSet;
use rc_lang::program::{Buffer, File, Stock, Thread, Token};
use std::alloc::{AllocError, Global};

// Whether a word is this name. The names of a model often differ in their last byte alone, so that is compared first.
fn is_name(name: &[u8], word: &[u8]) -> bool
    ensures { result ≡ bytes_eq name.now word.now }
{
    if let (Some(a), Some(b)) = (name.last(), word.last()) {
        if a != b {
            return false;
        }
    }
    is(name, word)
}

/// The number of a buffer, which where it isn't declared is that of the next, and its shares if it is declared.
pub fn find_buffer(buffers: &[Buffer], word: &[u8]) -> (usize, Option<u32>)
    ensures number { result.0 ≡ spec.buffer_number (map view_buffer buffers.now) word.now }
    ensures shares { result.1 ≡ spec.shares_in (map view_buffer buffers.now) word.now }
{
    for (i, buffer) in buffers.iter().enumerate() {
        if is_name(&buffer.name, word) {
            return (i, Some(buffer.shares));
        }
    }
    (buffers.len(), None)
}

/// Whether a buffer is declared.
pub fn has_buffer(buffers: &[Buffer], word: &[u8]) -> bool
    ensures { result ≡ spec.is_among (spec.buffer_names (map view_buffer buffers.now)) word.now }
{
    find_buffer(buffers, word).1.is_some()
}

/// The number of a pool, which where it isn't declared is that of the next, and whether it is declared.
pub fn find_pool(pools: &[Vec<u8>], word: &[u8]) -> (usize, bool)
    ensures number { result.0 ≡ spec.number_in (view_names pools.now) word.now }
    ensures declared { result.1 ≡ spec.is_among (view_names pools.now) word.now }
{
    for (i, pool) in pools.iter().enumerate() {
        if is(pool, word) {
            return (i, true);
        }
    }
    (pools.len(), false)
}

/// Whether a complete thread has this name, or is a copy of a line with this name.
pub fn has_thread(threads: &[Thread], word: &[u8]) -> bool
    ensures { result ≡ spec.is_among (spec.thread_names (map view_thread threads.now)) word.now }
{
    for thread in threads {
        if is(thread.declared_name(), word) {
            return true;
        }
    }
    false
}

/// Whether a line says what the pool without a name has at the start.
pub fn has_unnamed(stock: &[Stock]) -> bool
    ensures { result ≡ spec.has_unnamed (map view_stock stock.now) }
{
    for line in stock {
        if line.pool.is_none() {
            return true;
        }
    }
    false
}

/// Whether a file is declared.
pub fn has_file(files: &[File], number: u32) -> bool
    ensures { result ≡ spec.has_file files.now number }
{
    files.iter().any(|file| file.number == number)
}

/// Whether a token is declared.
pub fn has_token(tokens: &[Token], user_data: u64) -> bool
    ensures { result ≡ spec.has_token tokens.now user_data }
{
    // Mostly the tokens are numbered one after another.
    let guess = match tokens.first() {
        Some(first) => user_data.wrapping_sub(first.user_data) as usize,
        None => 0,
    };
    if guess < tokens.len() && tokens[guess].user_data == user_data {
        return true;
    }
    tokens.iter().any(|token| token.user_data == user_data)
}

/// The number of a name, which is added where it is new.
pub fn add_name(
    alloc: Global,
    names: &mut IndexSet<Vec<u8>>,
    word: &[u8],
) -> Result<usize, AllocError>
    ensures number { IfOk result (λ n. n ≡ spec.number_in (view_names names.old.keys) word.now) }
    ensures names { OnOk result
        (view_names names.new.keys ≡ spec.with_name (view_names names.old.keys) word.now) }
{
    if let Some(number) = names.get_index_of(word) {
        return Ok(number);
    }
    let (number, _) = names.insert_full(Vec::from_slice(alloc, word)?)?;
    Ok(number)
}
