//! The words that the system gives.

use rc_report::shown::hex_digit;
use std::alloc::{AllocError, Global};
use std::env::{Env, FillError};

/// How many bytes an argument has room for at first.
const SHORT_WORD: usize = 256;

/// The words of the command line, without the program's name. A byte that isn't UTF-8 text is in a word as NUL, which
/// no argument has, and two hex digits: so no file has such a name, and it is shown as `\xff`.
pub fn given_words(rt: &(impl Env + AllocGlobal)) -> Result<Vec<String>, AllocError> {
    let alloc = rt.alloc();
    let mut words = Vec::new(alloc);
    for index in 1..usize::MAX {
        let Some(bytes) = given_bytes(rt, alloc, index)? else {
            break;
        };
        words.push(text_of(alloc, &bytes)?)?;
    }
    Ok(words)
}

/// The bytes of an argument, if there is one with this number.
fn given_bytes(rt: &impl Env, alloc: Global, index: usize) -> Result<Option<Vec<u8>>, AllocError> {
    let mut room = SHORT_WORD;
    for _ in 0..usize::BITS {
        let mut bytes = vec![in alloc; 0u8; room]?;
        match rt.arg(index, bytes.as_mut_slice()) {
            Ok(count) => {
                bytes.truncate(count);
                return Ok(Some(bytes));
            }
            Err(FillError::NotPresent) => return Ok(None),
            Err(FillError::TooLong) => room = room.saturating_mul(2),
        }
    }
    Err(AllocError)
}

/// A text of these bytes, with those that aren't UTF-8 as NUL and two hex digits.
fn text_of(alloc: Global, bytes: &[u8]) -> Result<String, AllocError> {
    let mut text = String::new(alloc);
    for chunk in bytes.utf8_chunks() {
        text.push_str(chunk.valid())?;
        push_bytes(&mut text, chunk.invalid())?;
    }
    Ok(text)
}

/// Adds NUL and two hex digits for each of these bytes.
fn push_bytes(text: &mut String, bytes: &[u8]) -> Result<(), AllocError> {
    for byte in bytes {
        push_byte(text, *byte)?;
    }
    Ok(())
}

/// Adds NUL and two hex digits for a byte.
fn push_byte(text: &mut String, byte: u8) -> Result<(), AllocError> {
    text.push('\0')?;
    text.push(hex_digit(u32::from(byte) / 16) as char)?;
    text.push(hex_digit(u32::from(byte) % 16) as char)
}
