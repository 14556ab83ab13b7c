//! What is known before a line.

ghost use Rattle.std.specs.Prelude.{◌<◌, IfSome, length};

use rc_lang::lines::Block;
use rc_lang::program::{Program, Thread};
use rc_read::parts::{Parts, Region, Unread};
use rc_read::{ReadFault, read_parts, read_program};
use rc_report::text::{put_counted, put_piece, put_pieces};
use rc_rules::side::Side;
use rc_rules::state::State;
use rc_sentences::state_text::put_state;
use rc_verify::labels::Labels;
use std::alloc::{AllocError, Global};

/// The lines of a model above one, by its number from 1. At the model's end that is all of it.
fn lines_above(text: &[u8], number: u32) -> &[u8] {
    let mut count: u32 = 1;
    for place in 0..text.len() {
        if count == number {
            return &text[..place];
        }
        if text[place] == b'\n' {
            count = count.saturating_add(1);
        }
    }
    text
}

/// Adds a line after these blanks.
pub fn put_line(text: &mut Vec<u8>, indent: &[u8], line: &[u8]) -> Result<(), AllocError> {
    put_pieces(text, &[indent, line, b"\n"])
}

/// Adds the arms that the open peek lacks, after these blanks.
pub fn put_arms(text: &mut Vec<u8>, above: &Parts, indent: &[u8]) -> Result<(), AllocError> {
    if !above.draft.arms.other {
        put_pieces(text, &[indent, b"other {\n", indent, b"}\n"])?;
    }
    if !above.draft.arms.none {
        put_pieces(text, &[indent, b"none {\n", indent, b"}\n"])?;
    }
    Ok(())
}

/// Adds lines that end the blocks that are open.
pub fn put_ends(text: &mut Vec<u8>, above: &Parts) -> Result<(), AllocError> {
    for block in above.draft.blocks.iter().rev() {
        put_end(text, above, *block)?;
    }
    if let Region::InThread = above.region {
        put_line(text, b"", b"}")?;
    }
    Ok(())
}

/// Adds lines that end a block.
fn put_end(text: &mut Vec<u8>, above: &Parts, block: Block) -> Result<(), AllocError> {
    if let Block::InPeek(_) = block {
        put_arms(text, above, b"")?;
    }
    put_line(text, b"", b"}")
}

/// The program of the lines that can be read of a model, with ends for the blocks that are open after them.
fn read_above(alloc: Global, text: &[u8], unread: &Unread) -> Result<Option<Program>, AllocError> {
    let ReadFault::Text { line, .. } = unread.fault else {
        return Err(AllocError);
    };
    let is_end = line <= unread.parts.count;
    let front = if is_end {
        text
    } else {
        lines_above(text, line)
    };
    let mut whole = Vec::from_slice(alloc, front)?;
    if is_end {
        put_piece(&mut whole, b"\n")?;
    }
    put_ends(&mut whole, &unread.parts)?;
    Ok(read_program(alloc, &whole).ok())
}

/// The program of a model, or of what can be read of it.
pub fn program_of(alloc: Global, text: &[u8]) -> Result<Option<Program>, AllocError> {
    match read_parts(alloc, text) {
        Ok(program) => Ok(Some(program)),
        Err(unread) => read_above(alloc, text, &unread),
    }
}

/// The thread whose header is on a line with this number, from 1.
fn thread_on(program: &Program, number: u32) -> Option<u32>
    ensures { IfSome result (λ thread. thread < length program.now.threads) }
{
    let threads = program.threads();
    for thread in 0..threads.len() as u32 {
        if threads[thread as usize].line == number {
            return Some(thread);
        }
    }
    None
}

/// Adds what is known before a line of a thread, by the numbers of both lines, from 1: on each side of the flag that
/// something reaches. Nothing is added where the thread can't be read.
pub fn put_known(
    text: &mut Vec<u8>,
    program: &Program,
    header: u32,
    number: u32,
) -> Result<(), AllocError> {
    match thread_on(program, header) {
        Some(thread) => put_before(text, program, thread, number),
        None => Ok(()),
    }
}

/// Adds what is known before a line of a thread. Not inlined: its labels need room on the stack.
#[inline(never)]
fn put_before(
    text: &mut Vec<u8>,
    program: &Program,
    thread: u32,
    number: u32,
) -> Result<(), AllocError>
    requires { thread < length program.now.threads }
{
    let mut labels = Labels::new(program, thread);
    match refused_before(&mut labels, number) {
        Some(line) => {
            let after = b" is refused, so nothing is known here";
            put_counted(text, b"\nline ", u64::from(line), after)
        }
        None => put_sides(text, program, labels.thread(), labels.state()),
    }
}

/// Goes on to the line with this number, and answers the number of the line above it that is refused, if one is.
fn refused_before(labels: &mut Labels<'_>, number: u32) -> Option<u32> {
    let part = labels.thread();
    for line in &part.lines {
        if line.number >= number {
            return None;
        }
        if labels.next().is_err() {
            return Some(line.number);
        }
    }
    None
}

/// Adds what is known on each side of the flag.
fn put_sides(
    text: &mut Vec<u8>,
    program: &Program,
    part: &Thread,
    state: &State<'_>,
) -> Result<(), AllocError> {
    let (zero, other) = (state.on(true), state.on(false));
    if !zero.is_live() && !other.is_live() {
        return put_piece(text, b"\nnothing reaches this line");
    }
    put_side(text, program, part, zero, b", flag 0")?;
    put_side(text, program, part, other, b", flag not 0")
}

/// Adds what is known on a side, if something reaches it.
fn put_side(
    text: &mut Vec<u8>,
    program: &Program,
    part: &Thread,
    side: &Side,
    flag: &[u8],
) -> Result<(), AllocError> {
    if !side.is_live() {
        return Ok(());
    }
    let flag: &[u8] = if part.flag().is_some() { flag } else { b"" };
    put_pieces(text, &[b"\nbefore this line", flag, b": "])?;
    put_state(text, program, side)
}
