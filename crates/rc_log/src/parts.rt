//! What a word says: a name, a place, a number, and what the program has of it.

ghost use Rattle.std.specs.Prelude.{◌≡◌, ◌==◌, ◌<◌, length, position, IfSome};
ghost use Rattle.std.specs.List.{list_any};
ghost use Rattle.std.specs.Str.{bytes_eq};
ghost use Rattle.rc_lang.specs.Names as names;
ghost use Rattle.rc_log.specs.Said as spec;

use crate::call::Lack;
use crate::words::is;
use rc_lang::names::cut_at_bracket;
use rc_lang::numbers::{number_of, signed_number_of};
use rc_lang::program::{Buffer, File, Program, Thread};

fn is_name_byte(b: u8) -> bool
    ensures { result ≡ names.is_name_byte b }
{
    b.is_ascii_lowercase() || b.is_ascii_digit() || b == b'_'
}

fn all_name_bytes(bytes: &[u8]) -> bool
    ensures { result ≡ names.all_name_bytes bytes.now }
{
    bytes.iter().all(|b| is_name_byte(*b))
}

/// Whether a word is a name: a small letter, and then at most 22 small letters, digits and `_`.
pub fn is_name(word: &[u8]) -> bool
    ensures { result ≡ spec.is_name word.now }
{
    match word {
        [] => false,
        [first, rest @ ..] => {
            first.is_ascii_lowercase() && all_name_bytes(rest) && rest.len() < 23
        }
    }
}

fn is_printed(b: u8) -> bool
    ensures { result ≡ spec.is_printed b }
{
    b.is_ascii_graphic()
}

// Whether these bytes go on as FILE:LINE does after its first byte.
fn goes_on(bytes: &[u8]) -> bool
    ensures { result ≡ spec.goes_on bytes.now }
{
    for i in 0..bytes.len() {
        if bytes[i] == b':' && count(&bytes[i + 1..]).is_some() {
            return true;
        }
        if !is_printed(bytes[i]) {
            return false;
        }
    }
    false
}

/// Whether a word is FILE:LINE: bytes that are printed, a colon, and a number below 2^32.
pub fn is_place(word: &[u8]) -> bool
    ensures { result ≡ spec.is_place word.now }
{
    match word {
        [] => false,
        [first, rest @ ..] => is_printed(*first) && goes_on(rest),
    }
}

/// A number below 2^32.
pub fn count(word: &[u8]) -> Option<u32>
    ensures { result ≡ spec.count word.now }
{
    Some(number_of(0, u64::from(u32::MAX), word)? as u32)
}

/// A number below 2^64.
pub fn long(word: &[u8]) -> Option<u64>
    ensures { result ≡ spec.long word.now }
{
    number_of(0, u64::MAX, word)
}

/// A call's answer, or a completion's result: from -2^31 to 2^31 - 1.
pub fn answer(word: &[u8]) -> Option<i32>
    ensures { result ≡ spec.answer word.now }
{
    Some(signed_number_of(i64::from(i32::MIN), i64::from(i32::MAX), word)? as i32)
}

// Whether there is nothing, or a copy's number in brackets.
fn is_copy(rest: &[u8]) -> bool
    ensures { result ≡ spec.is_copy rest.now }
{
    match rest {
        [] => true,
        [first, behind @ ..] => {
            let (number, closing) = cut_at_bracket(behind);
            *first == b'[' && count(number).is_some() && is(closing, b"]")
        }
    }
}

/// Whether a word names a thread: a name, and behind it in brackets a copy's number or nothing.
pub fn is_thread(word: &[u8]) -> bool
    ensures { result ≡ spec.is_thread word.now }
{
    let (name, rest) = cut_at_bracket(word);
    is_name(name) && is_copy(rest)
}

fn place_of_thread(threads: &[Thread], name: &[u8]) -> Option<usize>
    ensures value { result ≡ position (λ t. bytes_eq t.name.items name.now) threads.now }
    ensures within { IfSome result (λ i. i < length threads.now) }
{
    threads
        .iter()
        .position(|thread| thread.name.as_slice() == name)
}

/// The place of the thread with this name, if the program has one.
pub fn thread_named(program: &Program, name: &[u8]) -> Option<u32>
    ensures value { result ≡ spec.thread_named program.now name.now }
    ensures within { IfSome result (λ i. i < length program.now.threads) }
{
    let place = place_of_thread(program.threads(), name)?;
    Some(place as u32)
}

fn place_of_buffer(buffers: &[Buffer], name: &[u8]) -> Option<usize>
    ensures { result ≡ position (λ b. bytes_eq b.name.items name.now) buffers.now }
{
    buffers
        .iter()
        .position(|buffer| buffer.name.as_slice() == name)
}

/// The place of the buffer with this name, if the program has one.
pub fn buffer_named(program: &Program, name: &[u8]) -> Option<usize>
    ensures { result ≡ spec.buffer_named program.now name.now }
{
    place_of_buffer(program.buffers(), name)
}

fn named_buffer(program: &Program, word: &[u8]) -> Option<Result<usize, Lack>>
    ensures { result ≡ spec.named_buffer program.now word.now }
{
    if is_name(word) {
        Some(buffer_named(program, word).ok_or(Lack::NoBuffer))
    } else {
        None
    }
}

/// The place of the buffer that a word names, or why there is none; nothing where it is no name.
pub fn buffer_of(program: &Program, word: &[u8]) -> Option<Result<usize, Lack>>
    ensures { result ≡ spec.buffer_of program.now word.now }
{
    if is(word, b"?") {
        Some(Err(Lack::UnsaidBuffer))
    } else if is(word, b"!") {
        Some(Err(Lack::PastBuffer))
    } else {
        named_buffer(program, word)
    }
}

fn place_of_pool(pools: &[Vec<u8>], name: &[u8]) -> Option<usize>
    ensures { result ≡ position (λ n. bytes_eq n.items name.now) pools.now }
{
    pools.iter().position(|pool| pool.as_slice() == name)
}

/// The place of the pool that a word names, or why there is none; nothing where it is no name.
pub fn pool_of(program: &Program, word: &[u8]) -> Option<Result<usize, Lack>>
    ensures { result ≡ spec.pool_of program.now word.now }
{
    if is_name(word) {
        Some(place_of_pool(program.pools(), word).ok_or(Lack::NoPool))
    } else {
        None
    }
}

/// Whether one of the files has this number.
pub fn has_file(files: &[File], number: u32) -> bool
    ensures { result ≡ list_any (λ f. f.number == number) files.now }
{
    files.iter().any(|file| file.number == number)
}

fn declared(program: &Program, number: u32) -> Result<u32, Lack>
    ensures { result ≡ spec.declared program.now number }
{
    if has_file(program.files(), number) {
        Ok(number)
    } else {
        Err(Lack::NoFile)
    }
}

/// The number of the file that a word names, or why there is none; nothing where it is no file's number.
pub fn file_of(program: &Program, word: &[u8]) -> Option<Result<u32, Lack>>
    ensures { result ≡ spec.file_of program.now word.now }
{
    if is(word, b"-1") {
        return Some(Err(Lack::UnsaidFile));
    }
    let number = number_of(0, i32::MAX as u64, word)? as u32;
    Some(declared(program, number))
}
