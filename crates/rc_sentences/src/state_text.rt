//! What is known on a side of a line, in words.

use rc_lang::lines::Locks;
use rc_lang::program::{Buffer, Program, Token, TokenKind};
use rc_rules::mode::{Mode, Peeked, Slot, Submitting, peeked_of};
use rc_rules::side::Side;
use rc_text::names::{buffer_name, side_of};
use rc_text::text::{put_counted, put_number, put_piece, put_pieces};
use std::alloc::AllocError;

/// Adds a part and how many of it are held, if any.
fn put_item(text: &mut Vec<u8>, name: &[u8], count: u32) -> Result<(), AllocError> {
    if count == 0 {
        return Ok(());
    }
    put_pieces(text, &[b" ", name, b":"])?;
    put_number(text, u64::from(count))
}

/// Adds the shares that are held.
fn put_shares(text: &mut Vec<u8>, side: &Side, buffers: &[Buffer]) -> Result<(), AllocError> {
    for (number, buffer) in buffers.iter().enumerate() {
        put_item(text, &buffer.name, side.shares(number))?;
    }
    Ok(())
}

/// Adds a token, if it is held.
fn put_token(text: &mut Vec<u8>, side: &Side, token: Token) -> Result<(), AllocError> {
    if !side.has_token(token.user_data) {
        return Ok(());
    }
    put_counted(text, b" t:", token.user_data, b"")
}

/// Adds the tokens that are held.
fn put_tokens(text: &mut Vec<u8>, side: &Side, tokens: &[Token]) -> Result<(), AllocError> {
    for token in tokens {
        put_token(text, side, *token)?;
    }
    Ok(())
}

/// Adds what is held, in the order of the declarations.
fn put_items(text: &mut Vec<u8>, program: &Program, side: &Side) -> Result<(), AllocError> {
    put_shares(text, side, program.buffers())?;
    put_tokens(text, side, program.tokens())?;
    put_item(text, b"c", side.credits())
}

/// Adds that something is held, and what, or that nothing is.
fn put_held(text: &mut Vec<u8>, program: &Program, side: &Side) -> Result<(), AllocError> {
    put_piece(text, b"holds")?;
    let start = text.as_slice().len();
    put_items(text, program, side)?;
    if start < text.as_slice().len() {
        return Ok(());
    }
    put_piece(text, b" nothing")
}

/// Adds a write of so many shares of a buffer.
fn put_write(
    text: &mut Vec<u8>,
    program: &Program,
    buffer: usize,
    count: u32,
) -> Result<(), AllocError> {
    put_pieces(text, &[b"write ", buffer_name(program, buffer), b" "])?;
    put_number(text, u64::from(count))
}

/// Adds a request, by its kind.
pub fn put_kind(text: &mut Vec<u8>, program: &Program, kind: TokenKind) -> Result<(), AllocError> {
    match kind {
        TokenKind::Read(buffer) => put_pieces(text, &[b"read ", buffer_name(program, buffer)]),
        TokenKind::Write(buffer, count) => put_write(text, program, buffer, count),
        TokenKind::Fsync => put_piece(text, b"fsync"),
        TokenKind::Nop => put_piece(text, b"nop"),
        TokenKind::Other => put_piece(text, b"other"),
    }
}

/// Adds what the line of a token says that its request may be, with `or` between two kinds.
pub fn put_kinds(text: &mut Vec<u8>, program: &Program, token: Token) -> Result<(), AllocError> {
    put_kind(text, program, token.kind)?;
    for other in &token.others {
        put_other(text, program, *other)?;
    }
    Ok(())
}

/// Adds a kind after `or`, if there is one.
fn put_other(
    text: &mut Vec<u8>,
    program: &Program,
    kind: Option<TokenKind>,
) -> Result<(), AllocError> {
    let Some(kind) = kind else {
        return Ok(());
    };
    put_piece(text, b" or ")?;
    put_kind(text, program, kind)
}

/// Adds that an entry is prepared with a request of this kind.
fn put_prepared(text: &mut Vec<u8>, program: &Program, kind: TokenKind) -> Result<(), AllocError> {
    put_piece(text, b", entry prepared ")?;
    put_kind(text, program, kind)
}

/// Adds how far the entry is that is open, if one is.
fn put_slot(text: &mut Vec<u8>, program: &Program, slot: Slot) -> Result<(), AllocError> {
    match slot {
        Slot::Closed => Ok(()),
        Slot::Vacant => put_piece(text, b", entry vacant"),
        Slot::Prepared(kind) => put_prepared(text, program, kind),
    }
}

/// Adds what is known of the front completion, if anything is.
fn put_peeked(text: &mut Vec<u8>, peeked: Peeked) -> Result<(), AllocError> {
    match peeked {
        Peeked::Unseen => Ok(()),
        Peeked::Sees(user_data) => put_counted(text, b", peeked ", user_data, b""),
        Peeked::SeesOther => put_piece(text, b", peeked other"),
        Peeked::Got => put_piece(text, b", got"),
    }
}

/// Adds what is known of the submission side.
fn put_submitting(text: &mut Vec<u8>, program: &Program, sq: Submitting) -> Result<(), AllocError> {
    put_counted(text, b", q:", u64::from(sq.queued), b"")?;
    put_slot(text, program, sq.slot)
}

/// Adds what is known of the submission side, while its lock is held.
fn put_sq(text: &mut Vec<u8>, program: &Program, sq: Option<Submitting>) -> Result<(), AllocError> {
    match sq {
        Some(sq) => put_submitting(text, program, sq),
        None => Ok(()),
    }
}

/// Adds which locks are held.
fn put_locks(text: &mut Vec<u8>, mode: Mode) -> Result<(), AllocError> {
    let locks = Locks {
        sq: mode.sq.is_some(),
        cq: mode.cq.is_some(),
    };
    if locks.sq || locks.cq {
        put_pieces(text, &[b"; locked", side_of(locks).as_bytes()])
    } else {
        put_piece(text, b"; unlocked")
    }
}

/// Adds what is known of the ring.
fn put_mode(text: &mut Vec<u8>, program: &Program, mode: Mode) -> Result<(), AllocError> {
    put_locks(text, mode)?;
    put_sq(text, program, mode.sq)?;
    put_peeked(text, peeked_of(mode))
}

/// Adds what is known on a side, and nothing where nothing reaches it.
pub fn put_state(text: &mut Vec<u8>, program: &Program, side: &Side) -> Result<(), AllocError> {
    let Some(mode) = side.mode() else {
        return Ok(());
    };
    put_held(text, program, side)?;
    put_mode(text, program, mode)
}
