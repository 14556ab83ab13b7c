//! Schedules: which steps are made, in order, as text.

ghost use Rattle.std.specs.Prelude.{◌≡◌, ◌==◌, ◌<◌, length, position, IfSome, option_map};
ghost use Rattle.std.specs.Str.{bytes_eq};
ghost use Rattle.rc_lang.specs.Numbers.{number_of};
ghost use Rattle.rc_world.specs.Schedule.{ReadsSchedule};
ghost use Rattle.rc_world.specs.Schedule as spec;

use crate::event::Item;
use rc_lang::numbers::{number_of, signed_number_of};
use rc_lang::program::{Program, Thread};
use std::alloc::{AllocError, AllocFailed, Global};
use thiserror::Error;

/// Why a schedule can't be read.
#[derive(Clone, Copy, PartialEq, Eq, Debug, Error)]
pub enum ScheduleFault {
    /// The first item of no form, of an unknown thread or with a number out of its range; its number, from 1.
    #[error("schedule item {0} unreadable")]
    Unreadable(u64),
    /// Memory ran out.
    #[error("out of memory")]
    OutOfMemory,
}

impl From<AllocError> for ScheduleFault {
    ghost use Rattle.std.specs.Prelude.{◌≡◌};
    ghost use Rattle.rc_world.specs.declared.schedule.ScheduleFault.TheVariants.{OutOfMemory};

    ghost from_gives = { λ _ e. e ≡ OutOfMemory };

    fn from(_e: AllocError) -> ScheduleFault {
        ScheduleFault::OutOfMemory
    }
}

impl<T: Drop> From<AllocFailed<T>> for ScheduleFault {
    ghost use Rattle.std.specs.Prelude.{◌≡◌};
    ghost use Rattle.rc_world.specs.declared.schedule.ScheduleFault.TheVariants.{OutOfMemory};

    ghost from_gives = { λ _ e. e ≡ OutOfMemory };

    fn from(_e: AllocFailed<T>) -> ScheduleFault {
        ScheduleFault::OutOfMemory
    }
}

fn place_of(c: u8, bytes: &[u8]) -> Option<usize>
    ensures value { result ≡ position (λ b. b == c) bytes.now }
    ensures within { IfSome result (λ place. place < length bytes.now) }
{
    bytes.iter().position(|b| *b == c)
}

/// What is before the first byte `c`, and what is after it, where there is one.
pub fn halves(c: u8, bytes: &[u8]) -> Option<(&[u8], &[u8])>
    ensures { option_map (λ x. (x.0.now, x.1.now)) result ≡ spec.halves c bytes.now }
{
    let place = place_of(c, bytes)?;
    Some((&bytes[..place], &bytes[place + 1..]))
}

fn place_of_name(threads: &[Thread], name: &[u8]) -> Option<usize>
    ensures value { result ≡ position (λ t. bytes_eq t.name.items name.now) threads.now }
    ensures within { IfSome result (λ place. place < length threads.now) }
{
    threads
        .iter()
        .position(|thread| thread.name.as_slice() == name)
}

/// The number of the thread with this name.
pub fn thread_named(program: &Program, name: &[u8]) -> Option<u32>
    ensures { result ≡ spec.thread_named program.now name.now }
{
    let place = place_of_name(program.threads(), name)?;
    Some(place as u32)
}

fn result_of(word: &[u8]) -> Option<i32>
    ensures { result ≡ spec.result_of word.now }
{
    Some(signed_number_of(-4095, 4096, word)? as i32)
}

fn fill_of(word: &[u8]) -> Option<u8>
    ensures { result ≡ number_of 0 255 word.now }
{
    Some(number_of(0, 255, word)? as u8)
}

// `NAME` or `NAME=R`.
fn thread_item(program: &Program, piece: &[u8]) -> Option<Item>
    ensures { result ≡ spec.item_of_thread program.now piece.now }
{
    match halves(b'=', piece) {
        None => Some(Item::Thread {
            thread: thread_named(program, piece)?,
            take: None,
        }),
        Some((name, answer)) => {
            let take = result_of(answer)?;
            Some(Item::Thread {
                thread: thread_named(program, name)?,
                take: Some(take),
            })
        }
    }
}

// `U=R` or `U=R:H`.
fn kernel_item(words: &[u8]) -> Option<Item>
    ensures { result ≡ spec.item_of_kernel words.now }
{
    let (user_data, rest) = halves(b'=', words)?;
    let (res, fill) = halves(b':', rest).unwrap_or((rest, b"0"));
    Some(Item::Kernel {
        user_data: number_of(0, u64::MAX, user_data)?,
        res: result_of(res)?,
        fill: fill_of(fill)?,
    })
}

/// The item that a piece of a schedule names, if it names one.
pub fn item_of(program: &Program, piece: &[u8]) -> Option<Item>
    ensures { result ≡ spec.item_of program.now piece.now }
{
    match piece {
        [] => None,
        [b'k', b':', words @ ..] => kernel_item(words),
        _ => thread_item(program, piece),
    }
}

/// The items of a schedule: `NAME`, `NAME=R`, `k:U=R` or `k:U=R:H`, with commas between them and no spaces. `NAME` is
/// a thread's, R is -4095 to 4096, U any number below 2^64, H 0 to 255, and 0 where it is left away. The empty text has
/// no items.
pub fn read_schedule(
    alloc: Global,
    program: &Program,
    schedule: &str,
) -> Result<Vec<Item>, ScheduleFault>
    ensures { ReadsSchedule program.now schedule.now result }
{
    let mut items = Vec::new(alloc);
    if schedule.is_empty() {
        return Ok(items);
    }
    for piece in schedule.as_bytes().split(|b| *b == b',') {
        match item_of(program, piece) {
            Some(item) => items.push(item)?,
            None => return Err(ScheduleFault::Unreadable(items.len() as u64 + 1)),
        }
    }
    Ok(items)
}
