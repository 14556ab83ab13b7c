//! Lines that say what a program has: its buffers, its user data and its files.

ghost use Rattle.std.specs.Prelude.{◌≡◌};
ghost use Rattle.rc_log.specs.Cuts.{words_after};
ghost use Rattle.rc_log.specs.Things as spec;

use crate::call::{Lack, Why};
use crate::line::MOST_BYTES;
use crate::parts::{buffer_named, has_file, is_name, is_place, long};
use crate::words::{cut, is, next_word, one_word, two_words};
use rc_lang::numbers::number_of;
use rc_lang::program::Program;

/// What a line declares.
#[derive(Clone, Copy)]
pub enum Declared<'a> {
    /// `buffer NAME SIZE`: so many bytes play the buffer of this name.
    Buffer { name: &'a [u8], bytes: u64 },
    /// `token TOKEN`: user data.
    Token(u64),
    /// `file FILE`: a file, by its number.
    File(u32),
}

fn buffer(rest: &[u8]) -> Option<Declared<'_>>
    ensures { spec.thing_in result ≡ spec.buffer_in (words_after rest.now) }
{
    let (name, bytes) = two_words(rest)?;
    if !is_name(name) {
        return None;
    }
    let bytes = long(bytes)?;
    Some(Declared::Buffer { name, bytes })
}

fn token(rest: &[u8]) -> Option<Declared<'_>>
    ensures { spec.thing_in result ≡ spec.token_in (words_after rest.now) }
{
    Some(Declared::Token(long(one_word(rest)?)?))
}

fn file(rest: &[u8]) -> Option<Declared<'_>>
    ensures { spec.thing_in result ≡ spec.file_in (words_after rest.now) }
{
    let number = number_of(0, i32::MAX as u64, one_word(rest)?)?;
    Some(Declared::File(number as u32))
}

// What a word and those after it declare: nothing where the word declares none, and no thing where those after it aren't
// its.
fn things_of<'a>(word: &[u8], rest: &'a [u8]) -> Option<Option<Declared<'a>>>
    ensures { spec.things_in result ≡ spec.declares word.now (words_after rest.now) }
{
    if is(word, b"buffer") {
        Some(buffer(rest))
    } else if is(word, b"token") {
        Some(token(rest))
    } else if is(word, b"file") {
        Some(file(rest))
    } else {
        None
    }
}

/// What a line declares, which is given without its line feed. A line that is a call says `NoCall` here, and one that
/// declares says so where calls are read.
pub fn read_declared(line: &[u8]) -> Result<Declared<'_>, Why>
    ensures { spec.thing_or result ≡ spec.declared line.now }
{
    if line.len() > MOST_BYTES {
        return Err(Why::TooLong);
    }
    let (thread, rest) = cut(line);
    let (place, rest) = next_word(rest).ok_or(Why::NoPlace)?;
    let (word, rest) = next_word(rest).ok_or(Why::NoPlace)?;
    if !is_name(thread) || !is_place(place) {
        return Err(Why::NoPlace);
    }
    match things_of(word, rest) {
        Some(Some(declared)) => Ok(declared),
        Some(None) => Err(Why::WrongWords),
        None => Err(Why::NoCall),
    }
}

/// Why the program hasn't what is declared; nothing where it has it.
pub fn lack_of(program: &Program, declared: Declared<'_>) -> Option<Lack>
    ensures { result ≡ spec.lack_of program.now (spec.thing declared.entry) }
{
    match declared {
        Declared::Buffer { name, bytes } => lack_of_buffer(program, name, bytes),
        Declared::Token(user_data) => match program.token_place(user_data) {
            Some(_) => None,
            None => Some(Lack::NoToken),
        },
        Declared::File(number) => lack_of_file(program, number),
    }
}

fn lack_of_file(program: &Program, number: u32) -> Option<Lack>
    ensures { result ≡ spec.lack_of_file program.now number }
{
    if has_file(program.files(), number) {
        None
    } else {
        Some(Lack::NoFile)
    }
}

fn lack_of_buffer(program: &Program, name: &[u8], bytes: u64) -> Option<Lack>
    ensures { result ≡ spec.lack_of_buffer program.now name.now bytes }
{
    let Some(place) = buffer_named(program, name) else {
        return Some(Lack::NoBuffer);
    };
    let most = program.bytes_at(place);
    if bytes < u64::from(most) {
        Some(Lack::SmallBuffer(most))
    } else {
        None
    }
}
