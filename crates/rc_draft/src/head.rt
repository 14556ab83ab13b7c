//! The head of a model, its declarations, and its threads.

use crate::items::items_of;
use crate::lines::{Written, put_code, put_items};
use crate::results::MOST_BYTES;
use crate::source::first_request;
use crate::threads::Drawn;
use rc_replay::replayed::{Buffer, Kind, Replayed, Request, Thread, Token};
use rc_text::text::{put_counted, put_number, put_piece, put_pieces};
use std::alloc::AllocError;

/// How many entries a model's rings have at most.
const MOST_ENTRIES: u32 = 1024;

const MOST_COMPLETIONS: u32 = 2048;

/// How many bytes each file has.
const FILE_BYTES: &[u8] = b" 65536\n";

/// Adds the head.
pub fn put_head(
    text: &mut Vec<u8>,
    replayed: &Replayed,
    drawn: &[Drawn],
) -> Result<(), AllocError> {
    put_piece(text, b"ringcheck 5\n")?;
    let logs: &[u8] = if replayed.logs == 1 {
        b" log. Comments name lines of C.\n"
    } else {
        b" logs. Comments name lines of C.\n"
    };
    put_counted(text, b"# Drafted from ", u64::from(replayed.logs), logs)?;
    put_ring(text, replayed, drawn)
}

// Adds the sizes of the rings.
fn put_ring(text: &mut Vec<u8>, replayed: &Replayed, drawn: &[Drawn]) -> Result<(), AllocError> {
    let entries = replayed.entries.min(MOST_ENTRIES).max(1);
    let completions = replayed.completions.min(MOST_COMPLETIONS).max(entries);
    put_counted(text, b"ring ", u64::from(entries), b"")?;
    if completions != entries.saturating_mul(2) {
        put_counted(text, b" cq ", u64::from(completions), b"")?;
    }
    if has_left(drawn) {
        put_counted(text, b" left ", u64::from(entries), b"")?;
    }
    put_piece(text, b"\n")
}

fn has_left(drawn: &[Drawn]) -> bool {
    for drawn in drawn {
        if drawn.has_left {
            return true;
        }
    }
    false
}

/// Adds the declarations.
pub fn put_declared(
    text: &mut Vec<u8>,
    replayed: &Replayed,
    drawn: &[Drawn],
    names: &[Vec<u8>],
) -> Result<(), AllocError> {
    put_files(text, replayed)?;
    put_pools(text, replayed, drawn, names)?;
    for buffer in &replayed.buffers {
        put_buffer(text, buffer)?;
    }
    for token in &replayed.tokens {
        put_token(text, replayed, *token)?;
    }
    Ok(())
}

fn put_files(text: &mut Vec<u8>, replayed: &Replayed) -> Result<(), AllocError> {
    if has_unnamed(replayed) && !replayed.files.contains(&0) {
        put_pieces(text, &[b"file 0", FILE_BYTES])?;
    }
    for file in &replayed.files {
        put_counted(text, b"file ", u64::from(*file), FILE_BYTES)?;
    }
    Ok(())
}

// Whether a request needs a file that nobody named.
fn has_unnamed(replayed: &Replayed) -> bool {
    for token in &replayed.tokens {
        if token.file.is_none() && !matches!(token.kind, Kind::Nop | Kind::Other) {
            return true;
        }
    }
    false
}

fn put_pools(
    text: &mut Vec<u8>,
    replayed: &Replayed,
    drawn: &[Drawn],
    names: &[Vec<u8>],
) -> Result<(), AllocError> {
    for pool in &replayed.pools {
        put_pieces(text, &[b"pool ", pool, b"\n"])?;
    }
    for (number, thread) in replayed.threads.iter().enumerate() {
        if let (Some(drawn), Some(name)) = (drawn.get(number), names.get(number)) {
            put_own_pool(text, drawn, name, &thread.name)?;
        }
    }
    Ok(())
}

fn put_own_pool(
    text: &mut Vec<u8>,
    drawn: &Drawn,
    name: &[u8],
    thread: &[u8],
) -> Result<(), AllocError> {
    if !drawn.body.has_own {
        return Ok(());
    }
    let pieces: &[&[u8]] = &[
        b"pool ",
        name,
        b"  # of ",
        thread,
        b" alone: what it has over the end of a block\n",
    ];
    put_pieces(text, pieces)
}

fn put_buffer(text: &mut Vec<u8>, buffer: &Buffer) -> Result<(), AllocError> {
    put_pieces(text, &[b"buffer ", &buffer.name, b" "])?;
    put_number(text, u64::from(buffer.bytes.min(MOST_BYTES).max(1)))?;
    put_counted(text, b" ", u64::from(buffer.shares), b"\n")
}

// Adds a token, with the kinds of its requests, each once.
fn put_token(text: &mut Vec<u8>, replayed: &Replayed, token: Token) -> Result<(), AllocError> {
    put_counted(text, b"token ", token.user_data, b" ")?;
    let begin = text.len();
    put_kind(text, replayed, first_request(token))?;
    for other in token.others {
        if let Some(request) = other {
            put_other(text, replayed, begin, request)?;
        }
    }
    put_piece(text, b"\n")
}

// Adds the kind of a request, unless it stands there already, from a place on.
fn put_other(
    text: &mut Vec<u8>,
    replayed: &Replayed,
    begin: usize,
    request: Request,
) -> Result<(), AllocError> {
    let mut kind = Vec::new(*text.allocator());
    put_kind(&mut kind, replayed, request)?;
    if has_kind(text, begin, &kind) {
        return Ok(());
    }
    put_pieces(text, &[b" or ", &kind])
}

// Whether a text has these bytes at some place from this one on.
fn has_kind(text: &[u8], begin: usize, kind: &[u8]) -> bool {
    for at in begin..text.len() {
        let to = at.saturating_add(kind.len());
        if to <= text.len() && &text[at..to] == kind {
            return true;
        }
    }
    false
}

fn put_kind(text: &mut Vec<u8>, replayed: &Replayed, request: Request) -> Result<(), AllocError> {
    let buffer = match request.buffer {
        Some(buffer) => replayed.buffers.get(buffer as usize),
        None => None,
    };
    match (request.kind, buffer) {
        (Kind::Read, Some(buffer)) => put_pieces(text, &[b"read ", &buffer.name]),
        (Kind::Write, Some(buffer)) => put_pieces(text, &[b"write ", &buffer.name, b" 1"]),
        (Kind::Fsync { .. }, _) => put_piece(text, b"fsync"),
        (Kind::Nop, _) => put_piece(text, b"nop"),
        _ => put_piece(text, b"other"),
    }
}

/// Adds a thread.
pub fn put_thread(
    text: &mut Vec<u8>,
    replayed: &Replayed,
    thread: &Thread,
    drawn: &Drawn,
    own: &[u8],
) -> Result<(), AllocError> {
    let written = Written {
        replayed,
        body: &drawn.body,
        own,
    };
    put_pieces(text, &[b"\nthread ", &thread.name, b" holds"])?;
    if let Some(holding) = replayed.holdings.get(thread.start as usize) {
        let items = items_of(*text.allocator(), holding)?;
        put_items(text, written, &items, drawn.spare)?;
    }
    put_piece(text, b" {\n")?;
    put_code(text, written)?;
    put_piece(text, b"}\n")
}
