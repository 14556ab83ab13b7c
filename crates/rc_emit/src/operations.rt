//! Statements without a block.

use crate::lines::{put_event, put_indentation, put_line, put_source};
use crate::locks::put_seen_after_submit;
use crate::place::Place;
use crate::variables::is_variable;
use rc_lang::lines::{Op, Operand};
use rc_lang::program::Program;
use rc_text::text::put_pieces;
use std::alloc::AllocError;

/// Adds a statement without a block.
pub fn put_op(text: &mut Vec<u8>, place: Place<'_>, op: Op) -> Result<(), AllocError> {
    put_source(text, place)?;
    match op {
        Op::Set(x, number) => put_set(text, place, x, Operand::Number(number)),
        Op::Assign(x, y) => put_set(text, place, x, Operand::Variable(y)),
        Op::Add(x, a, b) => put_sum(text, place, x, b" = SUM(", a, b),
        Op::Subtract(x, a, b) => put_sum(text, place, x, b" = DIFFERENCE(", a, b),
        Op::Load(x, buffer, index) => put_load(text, place, x, buffer, index),
        Op::Store(buffer, index, x) => put_store(text, place, buffer, index, x),
        Op::Fill(buffer, x) => put_fill(text, place, buffer, x),
        Op::Print(x) => put_print(text, place, x),
        Op::GetSqe => put_get_sqe(text, place),
        Op::PrepRead(file, buffer, len, off) => {
            put_transfer(text, place, b"prep_read", file, buffer, len, off)
        }
        Op::PrepWrite(file, buffer, len, off, _) => {
            put_transfer(text, place, b"prep_write", file, buffer, len, off)
        }
        Op::PrepFsync(file, data_alone) => put_prep_fsync(text, place, file, data_alone),
        Op::PrepNop => put_prep_nop(text, place),
        Op::PrepOther => put_prep_other(text, place),
        Op::SetData64(data) => put_set_data(text, place, data),
        Op::Submit(x) => put_submit(text, place, x),
        Op::SubmitAndWait(x, count) => put_submit_and_wait(text, place, x, count),
        Op::CqeGetData64 => put_cqe_get_data(text, place),
        Op::CqeSeen => put_cqe_seen(text, place),
    }
}

/// Adds the event of a variable that was set.
fn put_set_event(text: &mut Vec<u8>, place: Place<'_>, x: &[u8]) -> Result<(), AllocError> {
    put_event(text, place, &[b"set %\" PRId64, ", x])
}

/// The cast in `x = x`, since clang warns of a plain one.
fn cast_of(x: usize, value: Operand) -> &'static [u8] {
    if is_variable(value, x) {
        b"(int64_t)"
    } else {
        b""
    }
}

/// Adds that a variable becomes what another is, or a number.
fn put_set(
    text: &mut Vec<u8>,
    place: Place<'_>,
    x: usize,
    value: Operand,
) -> Result<(), AllocError> {
    let cast = cast_of(x, value);
    let x = place.variable(x)?;
    let value = place.operand(value)?;
    put_line(text, place, &[&x, b" = ", cast, &value, b";"])?;
    put_set_event(text, place, &x)
}

/// Adds that a variable becomes a sum or a difference.
fn put_sum(
    text: &mut Vec<u8>,
    place: Place<'_>,
    x: usize,
    call: &[u8],
    a: Operand,
    b: Operand,
) -> Result<(), AllocError> {
    let x = place.variable(x)?;
    let a = place.operand(a)?;
    let b = place.operand(b)?;
    put_line(text, place, &[&x, call, &a, b", ", &b, b");"])?;
    put_set_event(text, place, &x)
}

/// Adds that a variable becomes a byte of a buffer.
fn put_load(
    text: &mut Vec<u8>,
    place: Place<'_>,
    x: usize,
    buffer: usize,
    index: u32,
) -> Result<(), AllocError> {
    let x = place.variable(x)?;
    let byte = place.byte(buffer, index)?;
    put_line(text, place, &[&x, b" = ", &byte, b";"])?;
    put_event(text, place, &[b"load %\" PRId64, ", &x])
}

/// Adds that a byte of a buffer becomes the low eight bits of a variable.
fn put_store(
    text: &mut Vec<u8>,
    place: Place<'_>,
    buffer: usize,
    index: u32,
    x: usize,
) -> Result<(), AllocError> {
    let byte = place.byte(buffer, index)?;
    let x = place.variable(x)?;
    put_line(text, place, &[&byte, b" = (unsigned char)", &x, b";"])?;
    put_event(text, place, &[b"store %d\", ", &byte])
}

/// Adds that each byte of a buffer becomes the low eight bits of a variable.
fn put_fill(
    text: &mut Vec<u8>,
    place: Place<'_>,
    buffer: usize,
    x: usize,
) -> Result<(), AllocError> {
    let name = place.buffer(buffer)?;
    let x = place.variable(x)?;
    put_indentation(text, place.depth)?;
    put_pieces(text, &[b"memset(", &name, b", (unsigned char)", &x])?;
    put_pieces(text, &[b", sizeof ", &name, b");\n"])?;
    put_event(text, place, &[b"fill %d\", ", &name, b"[0]"])
}

/// Adds that a variable is printed.
fn put_print(text: &mut Vec<u8>, place: Place<'_>, x: usize) -> Result<(), AllocError> {
    let x = place.variable(x)?;
    put_line(text, place, &[b"printf(\"%\" PRId64 \"\\n\", ", &x, b");"])?;
    put_event(text, place, &[b"print %\" PRId64, ", &x])
}

/// Adds that the next entry is opened. One is free in a program that is accepted.
fn put_get_sqe(text: &mut Vec<u8>, place: Place<'_>) -> Result<(), AllocError> {
    let number = place.decimal(u64::from(place.number))?;
    put_line(text, place, &[b"sqe = io_uring_get_sqe(&ring);"])?;
    put_line(text, place, &[b"if (sqe == NULL)"])?;
    put_line(
        text,
        place,
        &[b"    stop(", &number, b", \"io_uring_get_sqe\", 0);"],
    )?;
    put_event(text, place, &[b"get_sqe\""])
}

/// Adds that the open entry becomes a read or a write.
fn put_transfer(
    text: &mut Vec<u8>,
    place: Place<'_>,
    call: &[u8],
    file: u32,
    buffer: usize,
    len: u32,
    off: u32,
) -> Result<(), AllocError> {
    let file = place.decimal(u64::from(file))?;
    let buffer = place.buffer(buffer)?;
    let len = place.decimal(u64::from(len))?;
    let off = place.decimal(u64::from(off))?;
    put_indentation(text, place.depth)?;
    put_pieces(text, &[b"io_uring_", call, b"(sqe, file_", &file])?;
    put_pieces(text, &[b", ", &buffer, b", ", &len, b", ", &off, b");\n"])?;
    put_event(text, place, &[call, b"\""])
}

/// The flags of an fsync.
fn fsync_flags(data_alone: bool) -> &'static [u8] {
    if data_alone {
        b"IORING_FSYNC_DATASYNC"
    } else {
        b"0"
    }
}

/// Adds that the open entry becomes an fsync.
fn put_prep_fsync(
    text: &mut Vec<u8>,
    place: Place<'_>,
    file: u32,
    data_alone: bool,
) -> Result<(), AllocError> {
    let file = place.decimal(u64::from(file))?;
    let flags = fsync_flags(data_alone);
    put_line(
        text,
        place,
        &[
            b"io_uring_prep_fsync(sqe, file_",
            &file,
            b", ",
            flags,
            b");",
        ],
    )?;
    put_event(text, place, &[b"prep_fsync\""])
}

/// Adds that the open entry becomes a nop.
fn put_prep_nop(text: &mut Vec<u8>, place: Place<'_>) -> Result<(), AllocError> {
    put_line(text, place, &[b"io_uring_prep_nop(sqe);"])?;
    put_event(text, place, &[b"prep_nop\""])
}

/// Adds that the open entry becomes a nop, in place of the request that is to be written there.
fn put_prep_other(text: &mut Vec<u8>, place: Place<'_>) -> Result<(), AllocError> {
    put_line(
        text,
        place,
        &[b"/* Write the request here, as io_uring_prep_timeout or io_uring_prep_accept. */"],
    )?;
    put_line(text, place, &[b"io_uring_prep_nop(sqe);"])?;
    put_event(text, place, &[b"prep_other\""])
}

/// Adds that the open entry gets its user data.
fn put_set_data(text: &mut Vec<u8>, place: Place<'_>, data: u64) -> Result<(), AllocError> {
    let term = place.data(data)?;
    let digits = place.decimal(data)?;
    put_line(
        text,
        place,
        &[b"io_uring_sqe_set_data64(sqe, ", &term, b");"],
    )?;
    put_noted(text, place, data)?;
    put_event(text, place, &[b"set_data64 ", &digits, b"\""])
}

/// Adds that what the request is gets noted for the log, where its user data doesn't say that.
fn put_noted(text: &mut Vec<u8>, place: Place<'_>, data: u64) -> Result<(), AllocError> {
    if has_kinds(place.program, data) {
        put_line(text, place, &[b"NOTE_REQUEST(sqe);"])
    } else {
        Ok(())
    }
}

/// Whether the token with this user data has several kinds.
fn has_kinds(program: &Program, data: u64) -> bool {
    for token in program.tokens() {
        if token.user_data == data {
            return token.others[0].is_some();
        }
    }
    false
}

/// Adds a submit.
fn put_submit(text: &mut Vec<u8>, place: Place<'_>, x: usize) -> Result<(), AllocError> {
    let x = place.variable(x)?;
    put_line(text, place, &[&x, b" = io_uring_submit(&ring);"])?;
    put_submitted(text, place, &x)
}

/// Adds a submit that waits for so many completions.
fn put_submit_and_wait(
    text: &mut Vec<u8>,
    place: Place<'_>,
    x: usize,
    count: u32,
) -> Result<(), AllocError> {
    let x = place.variable(x)?;
    let count = place.decimal(u64::from(count))?;
    put_line(
        text,
        place,
        &[&x, b" = io_uring_submit_and_wait(&ring, ", &count, b");"],
    )?;
    put_submitted(text, place, &x)
}

/// Adds the event of a submit, after which completions may be there.
fn put_submitted(text: &mut Vec<u8>, place: Place<'_>, x: &[u8]) -> Result<(), AllocError> {
    put_event(text, place, &[b"submit %\" PRId64, ", x])?;
    put_seen_after_submit(text, place)
}

/// Adds that the user data of the peeked completion is got.
fn put_cqe_get_data(text: &mut Vec<u8>, place: Place<'_>) -> Result<(), AllocError> {
    put_event(
        text,
        place,
        &[b"cqe_get_data64 %\" PRIu64, (uint64_t)cqe->user_data"],
    )?;
    put_line(text, place, &[b"io_uring_cqe_get_data64(cqe);"])
}

/// Adds that the peeked completion is taken away.
fn put_cqe_seen(text: &mut Vec<u8>, place: Place<'_>) -> Result<(), AllocError> {
    put_event(
        text,
        place,
        &[b"cqe_seen %\" PRIu64, (uint64_t)cqe->user_data"],
    )?;
    put_line(text, place, &[b"io_uring_cqe_seen(&ring, cqe);"])
}
