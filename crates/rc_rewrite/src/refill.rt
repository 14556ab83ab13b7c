//! A model whose loops have other items.

ghost use Rattle.std.specs.Prelude.{◌≡◌, IfOk, true};
ghost use Rattle.rc_rewrite.specs.Keeps as spec;
ghost use Rattle.rc_text.specs.Text.{PutsSome};

use crate::fill::{Fill, Fills};
use crate::flag::is_same_flag;
use crate::parted::{around_items, cut_at};
use rc_text::text::{put_piece, put_pieces};
use std::alloc::{AllocError, Global};

/// The source with these items of its loops. The rest of each line stays, byte for byte.
pub fn refilled(alloc: Global, source: &[u8], fills: &Fills) -> Result<Vec<u8>, AllocError>
    ensures { IfOk result (λ text. spec.IsRefilled source.now text.items) }
{
    let mut text = Vec::new(alloc);
    let mut rest = source;
    let mut number: u32 = 1;
    while let Some((line, after)) = cut_at(rest, b'\n') {
        put_line(&mut text, line, fills.on(number))?;
        put_piece(&mut text, b"\n")?;
        rest = after;
        number = number.wrapping_add(1);
    }
    put_line(&mut text, rest, fills.on(number))?;
    Ok(text)
}

/// Adds a line, with other items if it is filled with some.
pub fn put_line(text: &mut Vec<u8>, line: &[u8], fill: Option<&Fill>) -> Result<(), AllocError>
    ensures { PutsSome (spec.IsLineRefilled line.now) text.old text.new result }
{
    match fill {
        Some(fill) if fill.is_change() => put_filled(text, line, &fill.items.text),
        _ => put_piece(text, line),
    }
}

/// Adds a line that opens a loop with other items, and another line as it is.
fn put_filled(text: &mut Vec<u8>, line: &[u8], items: &[u8]) -> Result<(), AllocError>
    ensures { PutsSome (spec.IsLineRefilled line.now) text.old text.new result }
{
    match around_items(line) {
        Some(parts) if can_replace(parts.items, items) => {
            put_pieces(text, &[parts.before, items, b"{", parts.behind])
        }
        _ => put_piece(text, line),
    }
}

/// Whether these can be in the place of a line's items.
fn can_replace(items: &[u8], list: &[u8]) -> bool
    ensures { result ≡ true → spec.CanReplace items.now list.now }
{
    are_items(list) && is_same_flag(items, list)
}

/// Whether items can have these bytes.
fn are_items(bytes: &[u8]) -> bool
    ensures { result ≡ spec.are_items bytes.now }
{
    bytes.iter().all(|b| is_item_byte(*b))
}

/// Whether items can have this byte.
fn is_item_byte(b: u8) -> bool
    ensures { result ≡ spec.is_item_byte b }
{
    b.is_ascii_lowercase() || b.is_ascii_digit() || b == b'_' || b == b':' || b == b' '
}
