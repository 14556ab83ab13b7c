//! Items, written as moves.

use crate::moves::Move;
use crate::notes::put_move;
use rc_lang::program::Program;
use rc_text::text::put_piece;
use rc_world::event::Item;
use std::alloc::AllocError;

/// Adds items as moves, with commas between them: plain steps of one thread that follow on one another as `NAME*N`, and
/// each other item as a schedule has it.
pub fn put_moves(text: &mut Vec<u8>, program: &Program, items: &[Item]) -> Result<(), AllocError> {
    let mut comma = &b""[..];
    for run in items.chunk_by(|item, next| is_plain_step(*item) && item == next) {
        if let Some(named) = move_of(run) {
            put_piece(text, comma)?;
            put_move(text, program, named)?;
            comma = b",";
        }
    }
    Ok(())
}

/// Whether an item is the step of a thread that isn't answered by it.
fn is_plain_step(item: Item) -> bool {
    match item {
        Item::Thread { take: None, .. } => true,
        Item::Thread { take: Some(_), .. } => false,
        Item::Kernel { .. } => false,
    }
}

/// The move for an item that is there once, or for plain steps of one thread.
fn move_of(run: &[Item]) -> Option<Move> {
    match run {
        [] => None,
        [Item::Thread { thread, .. }, _, ..] => Some(Move::Steps {
            thread: *thread,
            count: u32::try_from(run.len()).ok()?,
        }),
        [item, ..] => Some(Move::One(*item)),
    }
}
