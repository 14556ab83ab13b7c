//! Hints for the other faults: strange bytes, heads, blocks, limits and nesting.

use crate::hint::Hint;
use crate::lines::word_at;
use crate::locks::put_inner;
use crate::wording::put_framed;
use rc_lang::lines::Block;
use rc_read::parts::{Parts, Region};
use rc_read::words::is;
use rc_text::text::{put_counted, put_number, put_piece, put_pieces};
use std::alloc::AllocError;

fn is_strange(b: u8) -> bool {
    b > 126 || (b < 32 && b != b'\t' && b != b'\r')
}

/// Adds the hint for a byte that isn't ASCII.
pub fn put_strange(hint: &mut Hint, line: &[u8]) -> Result<(), AllocError> {
    for i in 0..line.len() {
        if is_strange(line[i]) {
            hint.column = Some(i + 1);
            let byte = u64::from(line[i]);
            return put_counted(
                &mut hint.words,
                b"byte ",
                byte,
                b"; a model has only tabs and the bytes 32 to 126",
            );
        }
    }
    Ok(())
}

/// Adds the hint for a model that doesn't begin with a head. Only the end of a model has no word.
pub fn put_head(text: &mut Vec<u8>, parts: &Parts, words: &[&[u8]]) -> Result<(), AllocError> {
    match parts.region {
        Region::Start if words.is_empty() => put_piece(
            text,
            b"no line has a word: begin the model with 'ringcheck 1', and then 'ring 8'",
        ),
        _ if words.is_empty() => put_piece(
            text,
            b"only one line has words: the second begins with 'ring', as 'ring 8'",
        ),
        Region::Start => put_piece(
            text,
            b"the first line with words is 'ringcheck 1', 'ringcheck 2', 'ringcheck 3', 'ringcheck 4' or 'ringcheck 5'",
        ),
        _ => put_piece(
            text,
            b"the second line with words begins with 'ring', as 'ring 8'",
        ),
    }
}

fn place_of_block(block: Block) -> usize {
    match block {
        Block::InLock(place, _) | Block::InIf(place) | Block::InElse(place) => place,
        Block::InPeek(place) | Block::InArm(place) | Block::InLoop(place, _) => place,
    }
}

fn kind_of(block: Block) -> &'static [u8] {
    match block {
        Block::InLock(_, _) => b"lock",
        Block::InIf(_) => b"'if'",
        Block::InElse(_) => b"'else'",
        Block::InPeek(_) => b"peek",
        Block::InArm(_) => b"arm of the peek",
        Block::InLoop(_, _) => b"loop",
    }
}

/// Adds that a block is open.
fn put_block(text: &mut Vec<u8>, parts: &Parts, block: Block) -> Result<(), AllocError> {
    put_pieces(text, &[b"the ", kind_of(block)])?;
    match parts.draft.lines.get(place_of_block(block)) {
        Some(line) => put_counted(text, b" of line ", u64::from(line.number), b" is open"),
        None => put_piece(text, b" is open"),
    }
}

/// Adds which block is open, innermost.
fn put_open(text: &mut Vec<u8>, parts: &Parts) -> Result<(), AllocError> {
    if let [.., block] = parts.draft.blocks.as_slice() {
        return put_block(text, parts, *block);
    }
    put_framed(text, b"thread '", &parts.draft.name, b"' of line ")?;
    put_counted(text, b"", u64::from(parts.draft.line), b" is open")
}

/// Which blocks keep a line out.
#[derive(Clone, Copy)]
enum Keeps {
    /// A peek and an arm do.
    Peeks,
    /// These and a lock do.
    PeeksAndLocks,
}

/// Whether a block keeps a line out.
fn keeps_out(keeps: Keeps, block: Block) -> bool {
    match (keeps, block) {
        (_, Block::InPeek(_) | Block::InArm(_)) => true,
        (Keeps::PeeksAndLocks, Block::InLock(_, _)) => true,
        _ => false,
    }
}

/// Adds which block is open that keeps a line out, the innermost of those; else the innermost of all.
fn put_outer(text: &mut Vec<u8>, parts: &Parts, keeps: Keeps) -> Result<(), AllocError> {
    let blocks = parts.draft.blocks.iter();
    match blocks.rev().find(|block| keeps_out(keeps, **block)) {
        Some(block) => put_block(text, parts, *block),
        None => put_open(text, parts),
    }
}

/// Adds the hint for a brace that closes nothing, or a block that is open.
pub fn put_braces(
    text: &mut Vec<u8>,
    parts: &Parts,
    words: &[&[u8]],
    at_end: bool,
) -> Result<(), AllocError> {
    if at_end {
        put_piece(text, b"the end of the model: ")?;
        return put_open(text, parts);
    }
    match parts.region {
        Region::InThread => {
            let what: &[u8] = if is(word_at(words, 1), b"else") {
                b"' 'else' ends no first branch: "
            } else {
                b"' may not be here: "
            };
            put_framed(text, b"'", word_at(words, 0), what)?;
            put_open(text, parts)
        }
        _ => put_piece(text, b"'}' closes nothing: no thread is open"),
    }
}

fn put_of(text: &mut Vec<u8>, count: usize, most: u64, what: &[u8]) -> Result<(), AllocError> {
    put_counted(text, b"there are ", count as u64, b" ")?;
    put_pieces(text, &[what, b" above; at most "])?;
    put_number(text, most)
}

/// Adds how many threads are above, and how many there may be: from version 5 on copies count.
fn put_threads(text: &mut Vec<u8>, parts: &Parts) -> Result<(), AllocError> {
    let count = parts.threads.len();
    if parts.head.version < 5 {
        return put_of(text, count, 16, b"threads");
    }
    put_of(text, count, 64, b"threads")?;
    put_piece(text, b", with all copies")
}

/// Whether a line opens a block.
fn opens(words: &[&[u8]]) -> bool {
    match words {
        [.., last] => is(last, b"{"),
        [] => false,
    }
}

/// Adds the hint for what is too many.
pub fn put_too_large(
    text: &mut Vec<u8>,
    parts: &Parts,
    line: &[u8],
    words: &[&[u8]],
) -> Result<(), AllocError> {
    let first = word_at(words, 0);
    if line.len() > 256 {
        let count = line.len() as u64;
        put_counted(text, b"the line has ", count, b" bytes; at most 256")
    } else if parts.count >= 4096 {
        put_piece(text, b"a model has at most 4096 lines")
    } else if is(first, b"file") {
        put_of(text, parts.files.len(), 16, b"files")
    } else if is(first, b"buffer") {
        put_of(text, parts.buffers.len(), 64, b"buffers")
    } else if is(first, b"pool") && matches!(parts.region, Region::Declarations) {
        put_of(text, parts.pools.len(), 16, b"pools")
    } else if is(first, b"token") {
        put_of(text, parts.tokens.len(), 256, b"tokens")
    } else if is(first, b"thread") {
        put_threads(text, parts)
    } else if parts.draft.blocks.len() >= 31 && opens(words) {
        put_piece(
            text,
            b"32 blocks are open above, the thread among them; at most 32",
        )
    } else {
        put_of(
            text,
            parts.draft.names.len(),
            64,
            b"variables of the thread",
        )
    }
}

/// Whether a model has a lock for each side of the ring.
pub fn has_two_locks(parts: &Parts) -> bool {
    parts.head.version >= 4
}

/// The lock under which it is known how many entries are queued.
fn lock_of_queue(parts: &Parts) -> &'static [u8] {
    if has_two_locks(parts) {
        b"'lock {' or 'lock sq {'"
    } else {
        b"a lock"
    }
}

/// Adds that a word may not be in the innermost block that keeps it out.
fn put_kept_out(
    text: &mut Vec<u8>,
    parts: &Parts,
    word: &[u8],
    keeps: Keeps,
) -> Result<(), AllocError> {
    put_framed(text, b"'", word, b"' may not be here: ")?;
    put_outer(text, parts, keeps)
}

/// Adds that the items of a loop, or the loop itself, may not be in the open block.
fn put_loop(text: &mut Vec<u8>, parts: &Parts, word: &[u8]) -> Result<(), AllocError> {
    put_framed(
        text,
        b"'",
        word,
        b"': a loop may not be in a peek, and 'q:' may only be in ",
    )?;
    put_pieces(text, &[lock_of_queue(parts), b", before 'when'; "])?;
    put_outer(text, parts, Keeps::Peeks)
}

/// Adds the hint for a block or a word that may not be in the open one.
pub fn put_nesting(text: &mut Vec<u8>, parts: &Parts, words: &[&[u8]]) -> Result<(), AllocError> {
    let first = word_at(words, 0);
    if is(first, b"break") {
        return put_piece(text, b"'break' may only be in a loop, and no loop is open");
    }
    if has_two_locks(parts) && is(first, b"lock") && put_inner(text, parts, words)? {
        return Ok(());
    }
    if is(first, b"put") || is(first, b"if") || is(first, b"pool") {
        put_framed(text, b"'", first, b"': 'q:' may not be there")
    } else if is(first, b"thread") {
        put_framed(text, b"'", first, b"': 'q:' may only be in ")?;
        put_piece(text, lock_of_queue(parts))
    } else if is(first, b"lock") {
        put_kept_out(text, parts, first, Keeps::PeeksAndLocks)
    } else if is(first, b"peek_cqe") {
        put_kept_out(text, parts, first, Keeps::Peeks)
    } else {
        put_loop(text, parts, first)
    }
}

/// Adds the hint for an arm.
pub fn put_case(text: &mut Vec<u8>, parts: &Parts, words: &[&[u8]]) -> Result<(), AllocError> {
    let first = word_at(words, 0);
    let arms = &parts.draft.arms;
    let in_peek = match parts.draft.blocks.as_slice() {
        [.., Block::InPeek(_)] => true,
        _ => false,
    };
    if !in_peek {
        put_framed(
            text,
            b"'",
            first,
            b"' is an arm, which may only be directly in a peek: ",
        )?;
        return put_open(text, parts);
    }
    let what: &[u8] = if is(first, b"}") && arms.other {
        b"' closes the peek without its arm 'none'"
    } else if is(first, b"}") {
        b"' closes the peek without its arm 'other'"
    } else if is(first, b"case") || is(first, b"other") || is(first, b"none") {
        b"' is an arm that the peek has already"
    } else {
        b"' is no arm: only 'case', 'other' and 'none' may be directly in a peek"
    };
    put_framed(text, b"'", first, what)
}

/// Adds the hint for another flag than the thread's first.
pub fn put_flag(text: &mut Vec<u8>, parts: &Parts) -> Result<(), AllocError> {
    put_piece(text, b"a thread has one flag")?;
    if let Some(number) = parts.draft.flag {
        if let Some(name) = parts.draft.names.get_index(number) {
            put_framed(text, b"; this one's is '", name, b"'")?;
        }
    }
    Ok(())
}
