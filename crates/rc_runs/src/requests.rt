//! The open entry, the requests that are queued and pending, and the completions.

use rc_lang::program::Program;
use rc_lang::request::{Kind, Request};
use rc_text::names::buffer_name;
use rc_text::text::{put_counted, put_piece, put_pieces, put_signed};
use rc_world::controls::Look;
use rc_world::event::Completion;
use rc_world::world::{Slot, World};
use std::alloc::AllocError;

/// Adds the open entry.
pub fn put_slot(text: &mut Vec<u8>, program: &Program, slot: Slot) -> Result<(), AllocError> {
    match slot {
        Slot::Closed => put_piece(text, b"entry: none\n"),
        Slot::Vacant => put_piece(text, b"entry: vacant\n"),
        Slot::Prepared(request) => {
            put_piece(text, b"entry: prepared ")?;
            put_kind(text, program, request)
        }
    }
}

/// Adds the requests that are queued and pending, and the completions.
pub fn put_requests(text: &mut Vec<u8>, world: &World<'_>) -> Result<(), AllocError> {
    for request in world.queued() {
        put_request(text, b"queued: ", world.program(), *request)?;
    }
    for place in 0..world.pending_len() {
        if let Some(request) = world.pending(place) {
            put_request(text, b"pending: ", world.program(), request)?;
        }
    }
    for (place, completion) in world.completions().iter().enumerate() {
        put_completion(text, word_at(world, place), *completion)?;
    }
    Ok(())
}

/// The word for the completion at a place of the ring. Once the front one is got, its request is reaped.
fn word_at(world: &World<'_>, place: usize) -> &'static [u8] {
    match (place, world.look()) {
        (0, Look::Got) => b"got: ",
        _ => b"completed: ",
    }
}

/// Adds a request, after the word for where it is.
fn put_request(
    text: &mut Vec<u8>,
    word: &[u8],
    program: &Program,
    request: Request,
) -> Result<(), AllocError> {
    put_counted(text, word, request.user_data, b" ")?;
    put_kind(text, program, request)
}

/// Adds what a request asks for, with its buffer and its length where it has them, to the end of its line.
fn put_kind(text: &mut Vec<u8>, program: &Program, request: Request) -> Result<(), AllocError> {
    match request.kind {
        Kind::Nop => put_piece(text, b"nop\n"),
        Kind::Other => put_piece(text, b"other\n"),
        Kind::Fsync => put_piece(text, b"fsync\n"),
        Kind::Read => put_moved(text, b"read ", program, request),
        Kind::Write => put_moved(text, b"write ", program, request),
    }
}

/// Adds the word for a kind of request that moves bytes, its buffer and its length.
fn put_moved(
    text: &mut Vec<u8>,
    word: &[u8],
    program: &Program,
    request: Request,
) -> Result<(), AllocError> {
    put_pieces(text, &[word, buffer_name(program, request.buffer as usize)])?;
    put_counted(text, b" ", u64::from(request.len), b"\n")
}

/// Adds a completion, after its word.
fn put_completion(
    text: &mut Vec<u8>,
    word: &[u8],
    completion: Completion,
) -> Result<(), AllocError> {
    put_counted(text, word, completion.user_data, b" ")?;
    put_signed(text, i64::from(completion.res))?;
    put_piece(text, b"\n")
}
