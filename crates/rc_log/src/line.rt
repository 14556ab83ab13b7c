//! What a line of a log says.

ghost use Rattle.std.specs.Prelude.{◌≡◌, ◌<◌, length, IfOk, IfSome};
ghost use Rattle.rc_log.specs.Cuts.{words_after};
ghost use Rattle.rc_log.specs.Said as spec;

use crate::arguments::{
    alone, cqe_seen, exit, get_sqe, of_byte, peek_cqe, prep_fsync, prep_other, prep_read,
    prep_write, set_data64, sq_ready, sq_space_left, submit, submit_and_wait,
};
use crate::call::{Call, Lack, Said, Why};
use crate::marks::{lock, put, reads, take, unlock, writes};
use crate::parts::{is_place, is_thread, thread_named};
use crate::words::{cut, is, next_word};
use rc_lang::program::Program;

/// The most bytes of a line, without its line feed.
pub const MOST_BYTES: usize = 4096;

// The calls that make an entry.
fn entry_call(program: &Program, call: &[u8], rest: &[u8]) -> Option<Option<Call>>
    ensures { result ≡ spec.entry_call program.now call.now (words_after rest.now) }
{
    if is(call, b"get_sqe") {
        Some(get_sqe(rest))
    } else if is(call, b"prep_read") {
        Some(prep_read(program, rest))
    } else if is(call, b"prep_write") {
        Some(prep_write(program, rest))
    } else if is(call, b"prep_fsync") {
        Some(prep_fsync(program, rest))
    } else if is(call, b"prep_nop") {
        Some(alone(Call::PrepNop, rest))
    } else if is(call, b"prep_other") {
        Some(prep_other(program, rest))
    } else if is(call, b"flags") {
        Some(of_byte(Call::Foreign(Lack::NoFlags), rest))
    } else if is(call, b"set_data64") {
        Some(set_data64(rest))
    } else {
        None
    }
}

// The calls on the rings.
fn ring_call(call: &[u8], rest: &[u8]) -> Option<Option<Call>>
    ensures { result ≡ spec.ring_call call.now (words_after rest.now) }
{
    if is(call, b"submit") {
        Some(submit(rest))
    } else if is(call, b"submit_and_wait") {
        Some(submit_and_wait(rest))
    } else if is(call, b"peek_cqe") {
        Some(peek_cqe(rest))
    } else if is(call, b"cqe_seen") {
        Some(cqe_seen(rest))
    } else if is(call, b"sq_ready") {
        Some(sq_ready(rest))
    } else if is(call, b"sq_space_left") {
        Some(sq_space_left(rest))
    } else if is(call, b"exit") {
        Some(exit(rest))
    } else {
        None
    }
}

// The mutexes and the marks.
fn mark(program: &Program, call: &[u8], rest: &[u8]) -> Option<Option<Call>>
    ensures { result ≡ spec.mark program.now call.now (words_after rest.now) }
{
    if is(call, b"lock") {
        Some(lock(rest))
    } else if is(call, b"unlock") {
        Some(unlock(rest))
    } else if is(call, b"reads") {
        Some(reads(program, rest))
    } else if is(call, b"writes") {
        Some(writes(program, rest))
    } else if is(call, b"put") {
        Some(put(program, rest))
    } else if is(call, b"take") {
        Some(take(program, rest))
    } else if is(call, b"ends") {
        Some(alone(Call::Ends, rest))
    } else {
        None
    }
}

// What a word and those after it say: nothing where the word is no call's, and no call where those after it aren't its.
fn call_of(program: &Program, call: &[u8], rest: &[u8]) -> Option<Option<Call>>
    ensures { result ≡ spec.call_of program.now call.now (words_after rest.now) }
{
    if let Some(said) = entry_call(program, call, rest) {
        return Some(said);
    }
    if let Some(said) = ring_call(call, rest) {
        return Some(said);
    }
    mark(program, call, rest)
}

/// What a line of a log says, which is given without its line feed.
pub fn read_line(program: &Program, line: &[u8]) -> Result<Said, Why>
    ensures value { result ≡ spec.said program.now line.now }
    ensures within { IfOk result (λ s. IfSome s.thread (λ i. i < length program.now.threads)) }
{
    if line.len() > MOST_BYTES {
        return Err(Why::TooLong);
    }
    let (thread, rest) = cut(line);
    let (place, rest) = next_word(rest).ok_or(Why::NoPlace)?;
    let (call, rest) = next_word(rest).ok_or(Why::NoPlace)?;
    if !is_thread(thread) || !is_place(place) {
        return Err(Why::NoPlace);
    }
    let call = call_of(program, call, rest).ok_or(Why::NoCall)?;
    Ok(Said {
        thread: thread_named(program, thread),
        call: call.ok_or(Why::WrongWords)?,
    })
}
