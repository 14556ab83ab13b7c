//! The code of a thread as text.

use crate::comments::put_comment;
use crate::items::tokens;
use crate::piece::{Comment, Compared, Head, Line, Piece, Pool, Shape, Test};
use crate::results::most_len;
use crate::source::request_of;
use crate::work::{Body, Turn};
use rc_replay::replayed::{Buffer, Held, Kind, Part, Replayed, Request, Token};
use rc_text::names::side_of;
use rc_text::text::{put_counted, put_number, put_piece, put_pieces};
use std::alloc::AllocError;

/// How many bytes of items a line has at most.
const MOST_ITEMS: usize = 160;

/// The code of a thread, and what its pieces name.
#[derive(Clone, Copy)]
pub struct Written<'a> {
    pub replayed: &'a Replayed,
    pub body: &'a Body,
    /// The name of the pool that the thread has to itself.
    pub own: &'a [u8],
}

/// Adds the code of a thread.
pub fn put_code(text: &mut Vec<u8>, written: Written<'_>) -> Result<(), AllocError> {
    let mut depth = 1usize;
    for piece in &written.body.code.pieces {
        let around = match piece.shape {
            Shape::Close | Shape::Else => depth.saturating_sub(1),
            _ => depth,
        };
        put_shape(text, written, *piece, around)?;
        depth = match piece.shape {
            Shape::Close => around,
            Shape::Open(_) | Shape::Else => around.saturating_add(1),
            Shape::Line(_) => depth,
        };
    }
    Ok(())
}

fn put_shape(
    text: &mut Vec<u8>,
    written: Written<'_>,
    piece: Piece,
    depth: usize,
) -> Result<(), AllocError> {
    match piece.shape {
        Shape::Close => put_words(text, depth, &[b"}\n"]),
        Shape::Else => put_words(text, depth, &[b"} else {\n"]),
        Shape::Open(head) => {
            let begin = text.len();
            put_words(text, depth, &[])?;
            put_head(text, written, head)?;
            put_piece(text, b" {")?;
            put_rest(text, written, begin, piece.comment)
        }
        Shape::Line(Line::Begin(turn)) => put_begin(text, written, turn, depth),
        Shape::Line(Line::Leave(turn, exit)) => put_leave(text, written, turn, exit, depth),
        Shape::Line(Line::Put(pool, list)) => put_put(text, written, (pool, list), piece, depth),
        Shape::Line(line) => {
            let begin = text.len();
            put_words(text, depth, &[])?;
            put_line(text, written, line)?;
            put_rest(text, written, begin, piece.comment)
        }
    }
}

/// Adds the blanks before a line of so many blocks, and words.
pub fn put_words(text: &mut Vec<u8>, depth: usize, words: &[&[u8]]) -> Result<(), AllocError> {
    for _ in 0..depth {
        put_piece(text, b"    ")?;
    }
    put_pieces(text, words)
}

// Adds the comment of a line, and its end.
fn put_rest(
    text: &mut Vec<u8>,
    written: Written<'_>,
    begin: usize,
    comment: Comment,
) -> Result<(), AllocError> {
    let places = written.replayed.places.as_slice();
    put_comment(text, begin, places, &written.body.comments, comment)?;
    put_piece(text, b"\n")
}

// Adds what opens a block.
fn put_head(text: &mut Vec<u8>, written: Written<'_>, head: Head) -> Result<(), AllocError> {
    match head {
        Head::Lock(locks) => put_pieces(text, &[b"lock", side_of(locks).as_bytes()]),
        Head::Loop => put_piece(text, b"loop keeps"),
        Head::Peek => put_piece(text, b"peek_cqe r"),
        Head::Case(token) => {
            put_piece(text, b"case ")?;
            put_user_data(text, written, token)
        }
        Head::Other => put_piece(text, b"other"),
        Head::Nothing => put_piece(text, b"none"),
        Head::If(test) => put_test(text, written, test),
    }
}

fn put_test(text: &mut Vec<u8>, written: Written<'_>, test: Test) -> Result<(), AllocError> {
    match test {
        Test::Any => put_piece(text, b"if any"),
        Test::ReadyZero => put_piece(text, b"if sq_ready == 0"),
        Test::SpaceAtLeast(count) => {
            put_piece(text, b"if sq_space_left >= ")?;
            put_number(text, u64::from(count))
        }
        Test::Take(pool, list) => {
            put_pieces(text, &[b"if take ", pool_name(written, pool)])?;
            put_items(text, written, written.body.list(list), 0)
        }
        Test::Compare(compared, relation, number) => {
            put_piece(text, b"if ")?;
            put_compared(text, compared)?;
            put_piece(text, relation.words())?;
            put_number(text, u64::from(number))
        }
    }
}

fn put_compared(text: &mut Vec<u8>, compared: Compared) -> Result<(), AllocError> {
    match compared {
        Compared::Result => put_piece(text, b"r"),
        Compared::Exit(variable) => put_exit(text, variable),
    }
}

// Adds the variable that says how a loop was left.
fn put_exit(text: &mut Vec<u8>, variable: u32) -> Result<(), AllocError> {
    put_piece(text, b"exit")?;
    put_number(text, u64::from(variable))
}

/// The name of a pool.
fn pool_name<'a>(written: Written<'a>, pool: Pool) -> &'a [u8] {
    match pool {
        Pool::Own => written.own,
        Pool::Log(pool) => match written.replayed.pools.get(pool as usize) {
            Some(name) => name,
            None => &[],
        },
    }
}

fn put_user_data(text: &mut Vec<u8>, written: Written<'_>, token: u32) -> Result<(), AllocError> {
    let data = match written.replayed.tokens.get(token as usize) {
        Some(token) => token.user_data,
        None => 0,
    };
    put_number(text, data)
}

fn buffer_name<'a>(written: Written<'a>, buffer: u32) -> &'a [u8] {
    match written.replayed.buffers.get(buffer as usize) {
        Some(buffer) => &buffer.name,
        None => &[],
    }
}

/// Adds items, each after a blank, with a credit for each token and so many more.
pub fn put_items(
    text: &mut Vec<u8>,
    written: Written<'_>,
    items: &[Held],
    more: u32,
) -> Result<(), AllocError> {
    for held in items {
        put_item(text, written, *held)?;
    }
    let credits = tokens(items).saturating_add(more);
    if credits > 0 {
        put_counted(text, b" c:", u64::from(credits), b"")?;
    }
    Ok(())
}

fn put_item(text: &mut Vec<u8>, written: Written<'_>, held: Held) -> Result<(), AllocError> {
    match held.part {
        Part::Buffer(buffer) => {
            put_pieces(text, &[b" ", buffer_name(written, buffer), b":"])?;
            put_number(text, u64::from(held.count))
        }
        Part::Token(token) => {
            put_piece(text, b" t:")?;
            put_user_data(text, written, token)
        }
        _ => Ok(()),
    }
}

// Adds a statement of one line.
fn put_line(text: &mut Vec<u8>, written: Written<'_>, line: Line) -> Result<(), AllocError> {
    match line {
        Line::GetSqe => put_piece(text, b"get_sqe"),
        Line::Prep(token, request) => match written.replayed.tokens.get(token as usize) {
            Some(token) => put_prep(text, written, *token, request_of(*token, request)),
            None => Ok(()),
        },
        Line::Data(token) => {
            put_piece(text, b"set_data64 ")?;
            put_user_data(text, written, token)
        }
        Line::Submit => put_piece(text, b"s = submit"),
        Line::SubmitAndWait(count) => {
            put_piece(text, b"s = submit_and_wait ")?;
            put_number(text, u64::from(count.min(2048)))
        }
        Line::Fill(buffer) => put_pieces(text, &[b"fill ", buffer_name(written, buffer), b" x"]),
        Line::Load(buffer) => {
            put_pieces(text, &[b"v = load ", buffer_name(written, buffer), b" 0"])
        }
        Line::Got => put_piece(text, b"cqe_get_data64"),
        Line::Seen => put_piece(text, b"cqe_seen"),
        Line::Break => put_piece(text, b"break"),
        Line::Put(_, _) | Line::Begin(_) | Line::Leave(_, _) => Ok(()),
    }
}

// Adds the prep of a request of a token.
fn put_prep(
    text: &mut Vec<u8>,
    written: Written<'_>,
    token: Token,
    request: Request,
) -> Result<(), AllocError> {
    let file = u64::from(request.file.unwrap_or(0));
    let len = u64::from(most_len(token));
    let buffer = request
        .buffer
        .and_then(|at| written.replayed.buffers.get(at as usize));
    match (request.kind, buffer) {
        (Kind::Read, Some(buffer)) => {
            put_moving(text, b"prep_read ", file, buffer, len)?;
            put_piece(text, b" 0")
        }
        (Kind::Write, Some(buffer)) => {
            put_moving(text, b"prep_write ", file, buffer, len)?;
            put_piece(text, b" 0 1")
        }
        (Kind::Fsync { is_datasync }, _) => {
            put_piece(text, b"prep_fsync ")?;
            put_number(text, file)?;
            put_piece(text, if is_datasync { b" 1" } else { b" 0" })
        }
        (Kind::Nop, _) => put_piece(text, b"prep_nop"),
        _ => put_piece(text, b"prep_other"),
    }
}

// Adds the words of a read or a write up to its length, which is at most the buffer's.
fn put_moving(
    text: &mut Vec<u8>,
    word: &[u8],
    file: u64,
    buffer: &Buffer,
    len: u64,
) -> Result<(), AllocError> {
    put_piece(text, word)?;
    put_number(text, file)?;
    put_pieces(text, &[b" ", &buffer.name, b" "])?;
    put_number(text, len.min(u64::from(buffer.bytes)))
}

// Adds that nothing says yet how a loop is left.
fn put_begin(
    text: &mut Vec<u8>,
    written: Written<'_>,
    turn: u32,
    depth: usize,
) -> Result<(), AllocError> {
    match written.body.turns.get(turn as usize) {
        Some(
            Turn {
                variable: Some(variable),
                ..
            },
        ) => put_set(text, *variable, 0, depth),
        _ => Ok(()),
    }
}

fn put_set(text: &mut Vec<u8>, variable: u32, exit: u32, depth: usize) -> Result<(), AllocError> {
    put_words(text, depth, &[])?;
    put_exit(text, variable)?;
    put_piece(text, b" = ")?;
    put_number(text, u64::from(exit))?;
    put_piece(text, b"\n")
}

// Adds that a loop is left: what is put for that, and what says for which exit it is.
fn put_leave(
    text: &mut Vec<u8>,
    written: Written<'_>,
    turn: u32,
    exit: u32,
    depth: usize,
) -> Result<(), AllocError> {
    if let Some(turn) = written.body.turns.get(turn as usize) {
        if let Some(list) = turn.puts.get(exit as usize) {
            put_all(text, written, Pool::Own, written.body.list(*list), depth)?;
        }
        put_number_of_exit(text, turn, exit, depth)?;
    }
    put_words(text, depth, &[b"break\n"])
}

fn put_number_of_exit(
    text: &mut Vec<u8>,
    turn: &Turn,
    exit: u32,
    depth: usize,
) -> Result<(), AllocError> {
    match turn.variable {
        Some(variable) if exit > 0 => put_set(text, variable, exit, depth),
        _ => Ok(()),
    }
}

// Adds that items are put, with the comment of the piece.
fn put_put(
    text: &mut Vec<u8>,
    written: Written<'_>,
    put: (Pool, u32),
    piece: Piece,
    depth: usize,
) -> Result<(), AllocError> {
    let (pool, list) = put;
    let begin = text.len();
    put_all(text, written, pool, written.body.list(list), depth)?;
    if text.len() > begin {
        let _ = text.pop();
        put_rest(text, written, begin, piece.comment)?;
    }
    Ok(())
}

// Adds lines that put items, none too long.
fn put_all(
    text: &mut Vec<u8>,
    written: Written<'_>,
    pool: Pool,
    items: &[Held],
    depth: usize,
) -> Result<(), AllocError> {
    let alloc = *text.allocator();
    let mut some: Vec<Held> = Vec::new(alloc);
    let mut width = 0usize;
    for held in items {
        some.push(*held).map_err(AllocError::from)?;
        width = width.saturating_add(item_width(written, *held));
        if width > MOST_ITEMS {
            put_some(text, written, pool, &some, depth)?;
            some.clear();
            width = 0;
        }
    }
    put_some(text, written, pool, &some, depth)
}

fn put_some(
    text: &mut Vec<u8>,
    written: Written<'_>,
    pool: Pool,
    items: &[Held],
    depth: usize,
) -> Result<(), AllocError> {
    if items.is_empty() {
        return Ok(());
    }
    put_words(text, depth, &[b"put ", pool_name(written, pool)])?;
    put_items(text, written, items, 0)?;
    put_piece(text, b"\n")
}

// How many bytes an item has at most.
fn item_width(written: Written<'_>, held: Held) -> usize {
    match held.part {
        Part::Buffer(buffer) => buffer_name(written, buffer).len().saturating_add(4),
        Part::Token(_) => 23,
        _ => 0,
    }
}
