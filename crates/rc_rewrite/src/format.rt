//! The layout of a model: four blanks for each open block, and none at the ends of lines.

ghost use Rattle.std.specs.Prelude.{◌≡◌, ◌≤◌, IfOk, drop, length, take, true};
ghost use Rattle.rc_read.specs.Words as words;
ghost use Rattle.rc_rewrite.specs.LaidOut.{IsAround, IsIndented, IsLaidOut, IsLineLaidOut, are_blanks};
ghost use Rattle.rc_text.specs.Text.{PutsSome};

use crate::parted::cut_at;
use rc_read::source::first_word;
use rc_read::words::is;
use rc_text::text::put_piece;
use std::alloc::{AllocError, Global};

/// How many bytes a line may have.
const LINE_BYTES: usize = 256;

/// How many blanks a block is indented by.
const STEP: usize = 4;

/// How many blocks may be open: no line is indented by more.
const MOST_DEEP: usize = 32;

/// The model, laid out: each line is indented by four blanks for each block that is open there, as far as its 256 bytes
/// allow, and has no blanks at its end. Nothing else changes. What is laid out stays as it is.
pub fn format(alloc: Global, text: &[u8]) -> Result<Vec<u8>, AllocError>
    ensures { IfOk result (λ laid. IsLaidOut text.now laid.items) }
{
    let mut laid = Vec::new(alloc);
    let mut rest = text;
    let mut depth = 0;
    while let Some((line, behind)) = cut_at(rest, b'\n') {
        depth = put_line(&mut laid, line, depth)?;
        put_piece(&mut laid, b"\n")?;
        rest = behind;
    }
    put_line(&mut laid, rest, depth)?;
    Ok(laid)
}

/// Adds a line, laid out, where so many blocks are open above it. Answers how many are open below it.
fn put_line(text: &mut Vec<u8>, line: &[u8], depth: usize) -> Result<usize, AllocError>
    ensures { PutsSome (IsLineLaidOut line.now) text.old text.new result }
{
    let inner = without_blanks(line);
    let (closes, opens) = braces_of(inner);
    let outer = depth.saturating_sub(usize::from(closes));
    put_indented(text, inner, indent_of(outer, inner))?;
    Ok(outer.saturating_add(usize::from(opens)))
}

/// Whether a line closes a block with its first word, and opens one with its last. As many bytes are looked at as a
/// line may have.
fn braces_of(inner: &[u8]) -> (bool, bool) {
    let mut rest = &inner[..inner.len().min(LINE_BYTES)];
    let (mut closes, mut opens, mut is_first) = (false, false, true);
    while let Some((word, after)) = first_word(rest) {
        closes = closes || is_first && is(word, b"}");
        opens = is(word, b"{");
        is_first = false;
        rest = after;
    }
    (closes, opens)
}
/// How many blanks are before a line where so many blocks are open: none where nothing is on it.
fn indent_of(depth: usize, inner: &[u8]) -> usize {
    if inner.is_empty() {
        return 0;
    }
    let room = LINE_BYTES.saturating_sub(inner.len());
    depth.min(MOST_DEEP).saturating_mul(STEP).min(room)
}

/// Adds so many blanks and then these bytes.
fn put_indented(text: &mut Vec<u8>, inner: &[u8], indent: usize) -> Result<(), AllocError>
    ensures { PutsSome (IsIndented inner.now) text.old text.new result }
{
    for _ in 0..indent {
        text.push(b' ')?;
    }
    put_piece(text, inner)?;
    Ok(())
}

/// The bytes without the blanks at both ends.
#[tactic(auto, using(crate::proofs::LaidOut::between))]
pub fn without_blanks(bytes: &[u8]) -> &[u8]
    ensures { IsAround bytes.now result.now }
{
    let start = blanks_in_front(bytes);
    let rest = &bytes[start..];
    let end = end_of(rest);
    &rest[..end]
}

/// How many blanks the bytes begin with.
fn blanks_in_front(bytes: &[u8]) -> usize
    ensures within { result ≤ length bytes.now }
    ensures blank { are_blanks (take result bytes.now) ≡ true }
{
    for count in 0..bytes.len() {
        if !is_blank(bytes[count]) {
            return count;
        }
    }
    bytes.len()
}

/// Where the bytes end without the blanks after them.
#[tactic(auto, using(crate::proofs::LaidOut::blanks_back))]
fn end_of(bytes: &[u8]) -> usize
    ensures within { result ≤ length bytes.now }
    ensures blank { are_blanks (drop result bytes.now) ≡ true }
{
    let mut end = bytes.len();
    while end > 0 {
        if !is_blank(bytes[end - 1]) {
            return end;
        }
        end -= 1;
    }
    end
}

fn is_blank(b: u8) -> bool
    ensures { result ≡ words.is_blank b }
{
    b == b'\t' || b == b'\r' || b == b' '
}
