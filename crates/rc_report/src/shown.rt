//! Text as it is shown: nothing in it moves the cursor, ends a line or turns the direction of text.

ghost use Rattle.std.specs.Prelude.{◌≡◌, ◌+◌, ◌<◌, ◌^◌};
ghost use Rattle.std.specs.Char.{digit_char};
ghost use Rattle.rc_report.specs.Shown.{is_from, is_hidden, shown, shown_char};
ghost use Rattle.rc_report.specs.Streams.{CanWrite, Writes};
ghost use Rattle.rc_text.specs.Text.{Puts};

use crate::engine_fault::EngineFault;
use crate::streams::Sink;
use crate::writing::write_piece;
use rc_text::text::put_piece;
use std::alloc::AllocError;

/// Adds a text as it is shown: a control character, and a mark that turns the direction of text, as `\u` and four hex
/// digits. NUL, which is before the hex digits of a byte that isn't text, is `\x`.
pub fn put_shown(text: &mut Vec<u8>, name: &str) -> Result<(), AllocError>
    ensures { Puts text.old text.new (shown name.now) result }
{
    let mut buffer = [0; 6];
    for character in name.chars() {
        put_piece(text, shown_char(character, &mut buffer))?;
    }
    Ok(())
}

/// Writes a text as it is shown, as `put_shown` does. It takes no memory, and answers `Write` where a write failed: then a
/// beginning of the text is written.
pub fn write_shown<W: Sink>(text: &str, writer: &mut W) -> Result<(), EngineFault>
    requires { CanWrite (W.state writer.old) }
    ensures { Writes W.state writer.old writer.new (shown text.now) result }
{
    let mut buffer = [0; 6];
    for character in text.chars() {
        write_piece(writer, shown_char(character, &mut buffer))?;
    }
    Ok(())
}

/// A character as it is shown. What the buffer had is lost.
fn shown_char(character: char, buffer: &mut [u8; 6]) -> &[u8]
    ensures { result.now ≡ shown_char character }
{
    let code = character as u32;
    if !is_hidden(code) {
        return character.encode_utf8(buffer).as_bytes();
    }
    if code == 0 {
        return b"\\x";
    }
    *buffer = [
        b'\\',
        b'u',
        hex_digit(code / 0x1000 % 16),
        hex_digit(code / 0x100 % 16),
        hex_digit(code / 0x10 % 16),
        hex_digit(code / 0x1 % 16),
    ];
    buffer
}

/// Whether a character isn't shown as it is.
pub fn is_hidden(code: u32) -> bool
    ensures { result ≡ is_hidden code }
{
    code < 0x20
        || is_from(0x7f, 0xa0, code)
        || code == 0x61c
        || is_from(0x200e, 0x2010, code)
        || is_from(0x202a, 0x202f, code)
        || is_from(0x2066, 0x206a, code)
}

/// Whether a character is one from the first to the one before the last.
fn is_from(first: u32, last: u32, code: u32) -> bool
    ensures { result ≡ is_from first last code }
{
    first <= code && code < last
}

/// A hex digit.
pub fn hex_digit(digit: u32) -> u8
    requires { digit < 16 }
    ensures { result ≡ digit_char digit }
{
    if digit < 10 {
        b'0' + digit as u8
    } else {
        b'a' + (digit as u8 - 10)
    }
}
