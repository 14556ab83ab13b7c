//! What a program declares.

use crate::fixed::{LOCK_OPENED, MUTEX_OPENED};
use crate::locks::Guards;
use crate::terms::{data, number};
use rc_lang::lines::{Stmt, Test};
use rc_lang::program::{Items, Program, Thread, Token, TokenKind};
use rc_text::names::buffer_name;
use rc_text::text::{put_counted, put_piece, put_pieces};
use std::alloc::AllocError;

// The calls that open the mutexes of both sides.
const SIDES_OPENED: &[u8] = b"    open_mutex(&cq_lock);\n    open_mutex(&sq_lock);\n";

const FILES: &str = "
/* The files, and what is made where the command line names none. */
";

const NAMED_FILES: &str = "\
static const struct named_file {
    int *opened;
    int number;
    long length;
} files[] = {
";

const BUFFERS: &str = "
/* The buffers, each from the beginning of a page on. */
";

const POOL: &str = "
/* What is in the pool: shares of buffers, tokens, credits. */
";

const TABLES: &str = "
/* A pool with a name: the mutex that guards it, and what is in it. */
struct table {
    pthread_mutex_t lock;
";

const ANY: &str = "
/* Write it: whether an `if any` takes its first branch. Several threads may call it, and with mutexes held. */
extern int ringcheck_any(void);
";

const FILLINGS: &str = "
#ifdef RINGCHECK_LOG
/* The buffers that reads fill, by their user data, and whether the last request with it was such a read. */
static struct filling {
    uint64_t data;
    const unsigned char *bytes;
    bool is_read;
} fillings[] = {
";

/// Adds what a program declares.
pub fn put_declared(text: &mut Vec<u8>, program: &Program) -> Result<(), AllocError> {
    put_sizes(text, program)?;
    put_files(text, program)?;
    put_buffers(text, program)?;
    put_pools(text, program)?;
    put_any(text, program)?;
    put_fillings(text, program)
}

/// Adds the sizes of the rings.
fn put_sizes(text: &mut Vec<u8>, program: &Program) -> Result<(), AllocError> {
    let alloc = *text.allocator();
    let entries = number(alloc, u64::from(program.entries()))?;
    let completions = number(alloc, u64::from(program.completion_entries()))?;
    put_piece(text, b"\n/* How many entries the rings have. */\n")?;
    put_pieces(text, &[b"enum { ENTRIES = ", &entries])?;
    put_pieces(text, &[b", COMPLETION_ENTRIES = ", &completions, b" };\n"])
}

/// Adds the files, and the list of them.
fn put_files(text: &mut Vec<u8>, program: &Program) -> Result<(), AllocError> {
    let alloc = *text.allocator();
    put_piece(text, FILES.as_bytes())?;
    for file in program.files() {
        let name = number(alloc, u64::from(file.number))?;
        put_pieces(text, &[b"static int file_", &name, b";\n"])?;
    }
    put_piece(text, NAMED_FILES.as_bytes())?;
    for file in program.files() {
        let name = number(alloc, u64::from(file.number))?;
        let len = number(alloc, u64::from(file.len))?;
        put_pieces(
            text,
            &[b"    {&file_", &name, b", ", &name, b", ", &len, b"},\n"],
        )?;
    }
    put_piece(text, b"    {NULL, 0, 0},\n};\n")
}

/// Adds the buffers.
fn put_buffers(text: &mut Vec<u8>, program: &Program) -> Result<(), AllocError> {
    let alloc = *text.allocator();
    put_piece(text, BUFFERS.as_bytes())?;
    for buffer in program.buffers() {
        let bytes = number(alloc, u64::from(buffer.bytes))?;
        put_pieces(
            text,
            &[b"_Alignas(4096) unsigned char buffer_", &buffer.name],
        )?;
        put_pieces(text, &[b"[", &bytes, b"];\n"])?;
    }
    Ok(())
}

/// Adds the pools.
fn put_pools(text: &mut Vec<u8>, program: &Program) -> Result<(), AllocError> {
    put_pool(text, program)?;
    put_tables(text, program)
}

/// Adds the counters of the pool without a name, in a program that may have one.
fn put_pool(text: &mut Vec<u8>, program: &Program) -> Result<(), AllocError> {
    if program.version() < 3 {
        return Ok(());
    }
    put_piece(text, POOL.as_bytes())?;
    put_counters(text, program, b"unsigned pool_", stock_of(program, None))
}

/// What a pool has at the start, if a line says that.
fn stock_of(program: &Program, pool: Option<usize>) -> Option<&Items> {
    for stock in program.stock() {
        if stock.pool == pool {
            return Some(&stock.items);
        }
    }
    None
}

/// How many shares of a buffer these items name.
fn shares_in(items: &Items, buffer: usize) -> u32 {
    for share in &items.shares {
        if share.buffer == buffer {
            return share.count;
        }
    }
    0
}

/// Adds a counter for each part, with this before its name, that begins with as many as these items name.
fn put_counters(
    text: &mut Vec<u8>,
    program: &Program,
    before: &[u8],
    stock: Option<&Items>,
) -> Result<(), AllocError> {
    let alloc = *text.allocator();
    for (place, buffer) in program.buffers().iter().enumerate() {
        put_pieces(text, &[before, b"buffer_", &buffer.name])?;
        put_beginning(text, stock.map_or(0, |items| shares_in(items, place)))?;
    }
    for token in program.tokens() {
        let name = number(alloc, token.user_data)?;
        put_pieces(text, &[before, b"token_", &name])?;
        let is_there = stock.is_some_and(|items| items.tokens.contains(&token.user_data));
        put_beginning(text, u32::from(is_there))?;
    }
    put_pieces(text, &[before, b"credits"])?;
    put_beginning(text, stock.map_or(0, |items| items.credits))
}

/// Adds the number that a counter begins with, unless that is 0, and ends its line.
fn put_beginning(text: &mut Vec<u8>, count: u32) -> Result<(), AllocError> {
    if count > 0 {
        put_counted(text, b" = ", u64::from(count), b"")?;
    }
    put_piece(text, b";\n")
}

/// Adds the pools with a name.
fn put_tables(text: &mut Vec<u8>, program: &Program) -> Result<(), AllocError> {
    if program.pools().is_empty() {
        return Ok(());
    }
    put_piece(text, TABLES.as_bytes())?;
    put_counters(text, program, b"    unsigned ", None)?;
    put_piece(text, b"};\n")?;
    for (pool, name) in program.pools().iter().enumerate() {
        put_pieces(text, &[b"static struct table table_", name])?;
        if let Some(items) = stock_of(program, Some(pool)) {
            put_stock(text, program, items)?;
        }
        put_piece(text, b";\n")?;
    }
    Ok(())
}

/// Adds what a table begins with. Each other counter of it begins with 0.
fn put_stock(text: &mut Vec<u8>, program: &Program, items: &Items) -> Result<(), AllocError> {
    let alloc = *text.allocator();
    put_piece(text, b" = {\n")?;
    for share in &items.shares {
        let name = buffer_name(program, share.buffer);
        put_pieces(text, &[b"    .buffer_", name])?;
        put_counted(text, b" = ", u64::from(share.count), b",\n")?;
    }
    for token in &items.tokens {
        let token = number(alloc, *token)?;
        put_pieces(text, &[b"    .token_", &token, b" = 1,\n"])?;
    }
    put_counted(text, b"    .credits = ", u64::from(items.credits), b",\n}")
}

/// Adds the name of each pool that has one, between two pieces.
fn put_each_table(
    text: &mut Vec<u8>,
    program: &Program,
    before: &[u8],
    after: &[u8],
) -> Result<(), AllocError> {
    for name in program.pools() {
        put_pieces(text, &[before, b"table_", name, after])?;
    }
    Ok(())
}

/// Adds what opens the mutexes, once the files are open.
pub fn put_open_lock(
    text: &mut Vec<u8>,
    program: &Program,
    guards: Guards,
) -> Result<(), AllocError> {
    match guards {
        Guards::Ring if program.pools().is_empty() => put_piece(text, LOCK_OPENED.as_bytes()),
        Guards::Ring => put_open_mutexes(text, program, b"    open_mutex(&ring_lock);\n"),
        Guards::Sides => put_open_mutexes(text, program, SIDES_OPENED),
    }
}

/// Adds what opens the mutexes of the ring, by these calls, and those of the pools.
fn put_open_mutexes(text: &mut Vec<u8>, program: &Program, ring: &[u8]) -> Result<(), AllocError> {
    put_pieces(text, &[MUTEX_OPENED.as_bytes(), ring])?;
    put_each_table(text, program, b"    open_mutex(&", b".lock);\n")?;
    put_piece(text, b"}\n\n")
}

/// Adds the function that answers for `if any`, in a program that has one.
fn put_any(text: &mut Vec<u8>, program: &Program) -> Result<(), AllocError> {
    for thread in program.threads() {
        if has_any(thread) {
            return put_piece(text, ANY.as_bytes());
        }
    }
    Ok(())
}

fn has_any(thread: &Thread) -> bool {
    for line in &thread.lines {
        if let Stmt::If(Test::Any) = line.stmt {
            return true;
        }
    }
    false
}

/// Adds which buffer the read of a token fills, for what is logged.
fn put_fillings(text: &mut Vec<u8>, program: &Program) -> Result<(), AllocError> {
    put_piece(text, FILLINGS.as_bytes())?;
    for token in program.tokens() {
        put_filling(text, program, token.user_data, Some(token.kind))?;
        put_other_fillings(text, program, *token)?;
    }
    put_piece(text, b"    {0, NULL, false},\n};\n")
}

/// Adds the same of the other kinds of a token.
fn put_other_fillings(
    text: &mut Vec<u8>,
    program: &Program,
    token: Token,
) -> Result<(), AllocError> {
    for kind in &token.others {
        put_filling(text, program, token.user_data, *kind)?;
    }
    Ok(())
}

/// Adds the buffer that a request fills, if it is a read.
fn put_filling(
    text: &mut Vec<u8>,
    program: &Program,
    user_data: u64,
    kind: Option<TokenKind>,
) -> Result<(), AllocError> {
    let Some(TokenKind::Read(buffer)) = kind else {
        return Ok(());
    };
    let user_data = data(*text.allocator(), user_data)?;
    let buffer = buffer_name(program, buffer);
    put_pieces(
        text,
        &[b"    {", &user_data, b", buffer_", buffer, b", true},\n"],
    )
}
