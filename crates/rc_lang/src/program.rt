//! Programs and their parts.

ghost use Rattle.std.specs.Prelude.{◌≡◌, ◌<◌, ◌≤◌, length, map};
ghost use Rattle.rc_lang.specs.Parts.{view_thread};
ghost use Rattle.rc_lang.specs.Program.{further_copies, line_end};

use crate::lines::Line;
use crate::names::cut_at_bracket;
use crate::rows::Rows;
use std::marker::Model;

/// The head of a program: the version of the notation, and the numbers of entries of its rings, powers of two
/// (`io_uring_setup(2)`).
#[derive(Clone, Copy)]
pub struct Head {
    /// The version of the notation, 1 to 5. From version 2 on a thread may have a flag, from version 3 on there is a
    /// pool, and from version 4 on there are pools with names, and each of the two locks may be taken alone.
    pub version: u32,
    /// Entries of the submission ring, 1 to 1024.
    pub entries: u32,
    /// Entries of the completion ring, from those of the submission ring to 2048.
    pub completion_entries: u32,
    /// How many entries may be left queued where the lock of the submission side is released, 0 to those of the
    /// submission ring.
    pub left: u32,
}

/// A file that requests may name.
#[derive(Clone, Copy)]
pub struct File {
    /// Its file number, 0 to 1023.
    pub number: u32,
    /// How many bytes it has at the start, 0 to 65536.
    pub len: u32,
}

/// A buffer.
#[derive(Drop)]
pub struct Buffer {
    /// Its name, in ASCII.
    pub name: Vec<u8>,
    /// How many bytes it has, 1 to 4096.
    pub bytes: u32,
    /// Into how many shares it is split, 1 to 16. All of them together allow to write it, each of them to read it.
    pub shares: u32,
}

/// What a token's request is, and what it owns while it is in flight.
#[derive(Clone, Copy, PartialEq)]
pub enum TokenKind {
    /// A read into the buffer with this number; all of its shares.
    Read(usize),
    /// A write of the buffer with this number; that many of its shares, from 1.
    Write(usize, u32),
    /// An fsync.
    Fsync,
    /// A nop.
    Nop,
    /// Any other request without a buffer.
    Other,
}

/// A token: the user data of a request, and the kinds that the request can have: `kind`, the first on its line, and
/// `others`, those after `or`. No two of them have both the same word and the same buffer.
#[derive(Clone, Copy)]
pub struct Token {
    pub user_data: u64,
    pub kind: TokenKind,
    pub others: [Option<TokenKind>; 3],
}

/// What a program declares before its threads.
#[derive(Drop)]
pub struct Declarations {
    /// At most 16, each number once.
    pub files: Vec<File>,
    /// At most 64, each name once.
    pub buffers: Vec<Buffer>,
    /// At most 256, each user data once.
    pub tokens: Vec<Token>,
    /// The names of pools, in ASCII: at most 16, each once. A pool's number is its place here.
    pub pools: Vec<Vec<u8>>,
    /// What pools have at the start, in the order of their lines, each pool at most once. One that isn't here has
    /// nothing.
    pub stock: Vec<Stock>,
}

/// What a line says that a pool has at the start.
#[derive(Drop)]
pub struct Stock {
    /// The number of the pool; none: the one without a name.
    pub pool: Option<usize>,
    /// The number of the line, from 1.
    pub line: u32,
    /// What it has, as what is put into a pool.
    pub items: Items,
}

/// Shares of one buffer.
#[derive(Clone, Copy)]
pub struct Share {
    /// The number of the buffer.
    pub buffer: usize,
    /// How many shares, 1 to 16.
    pub count: u32,
}

/// What a loop says after `when` that is held besides while the thread's flag isn't 0.
#[derive(Drop)]
pub struct More {
    /// Shares of buffers, each buffer once.
    pub shares: Vec<Share>,
    /// The user data of tokens, each once, and none that is held without the flag.
    pub tokens: Vec<u64>,
    /// How many completions it may still cause besides, 0 to 2048.
    pub credits: u32,
}

/// What a thread holds, as it begins or at the top of a loop.
#[derive(Drop)]
pub struct Items {
    /// Shares of buffers, each buffer once.
    pub shares: Vec<Share>,
    /// The user data of tokens, each once.
    pub tokens: Vec<u64>,
    /// How many completions it may still cause, 0 to 2048.
    pub credits: u32,
    /// How many entries may be queued at most, 0 to those of the submission ring; said of loops in a lock of the
    /// submission side alone.
    pub queue: Option<u32>,
    /// What is held besides while the flag isn't 0; said of loops in a thread with a flag alone.
    pub more: More,
}

/// A thread. A line may declare several, its copies, which differ in their names and numbers alone.
#[derive(Drop)]
pub struct Thread {
    /// Its name, in ASCII: `w`, or with its copy's number `w[1]`.
    pub name: Vec<u8>,
    /// Its number among the copies of its line, from 0; none where the line declares one thread, without a number.
    pub copy: Option<u32>,
    /// The number of its header's line, from 1.
    pub line: u32,
    /// What it holds as it begins.
    pub items: Items,
    /// Its lists of items, in the order of its lines: what it holds at the tops of its loops, and what it puts into
    /// pools and takes from them.
    pub lists: Vec<Items>,
    /// Its lines, without the header and its closing brace.
    pub lines: Vec<Line>,
    /// For the place of an if that of its else or its closing brace, for the place of an else, a peek and a loop that
    /// of its closing brace. What is at the other places says nothing.
    pub ends: Vec<usize>,
    /// The names of its variables, at most 64, in the order of their first uses. A variable's number is its place here.
    pub variables: Vec<Vec<u8>>,
    /// The variable that its loops name after `when`, in a program of version 2 or later.
    pub flag: Option<usize>,
    /// What the names in its lines stand for.
    pub rows: Rows,
}

/// How many further copies these threads begin with.
fn further_copies(threads: &[Thread]) -> usize
    ensures value { result ≡ further_copies (map view_thread threads.now) }
    ensures within { result ≤ length threads.now }
{
    for (count, thread) in threads.iter().enumerate() {
        if !thread.is_further() {
            return count;
        }
    }
    threads.len()
}

/// The number of the first of these threads behind those of one's line.
fn line_end(threads: &[Thread], thread: usize) -> usize
    requires { thread < length threads.now }
    ensures value { result ≡ line_end (map view_thread threads.now) thread }
    ensures within { result ≤ length threads.now }
{
    thread + 1 + further_copies(&threads[thread + 1..])
}

impl Thread {
    ghost use Rattle.std.specs.Prelude.{◌≡◌};
    ghost use Rattle.rc_lang.specs.Names.{before_bracket};
    ghost use Rattle.rc_lang.specs.Parts.{view_thread};
    ghost use Rattle.rc_lang.specs.Program.{is_further};

    /// Its name as its line declares it, without a copy's number.
    pub fn declared_name(&self) -> &[u8]
        ensures { result.now ≡ before_bracket (view_thread self.now).name }
    {
        cut_at_bracket(&self.name).0
    }

    /// Whether it is a copy, and not the first of its line.
    pub fn is_further(&self) -> bool
        ensures { result ≡ is_further (view_thread self.now).copy }
    {
        match self.copy {
            Some(copy) => copy > 0,
            None => false,
        }
    }

    /// The number of its flag: the variable that its loops name after `when`. None: they name none, and what is held
    /// depends on no variable.
    pub fn flag(&self) -> Option<usize>
        ensures { result ≡ (view_thread self.now).flag }
    {
        self.flag
    }
}

/// A program, whose limits, nesting and names were tested as it was made.
#[derive(Drop)]
pub struct Program {
    head: Head,
    declarations: Declarations,
    threads: Vec<Thread>,
}

impl Model for Program {
    ghost use Rattle.rc_lang.specs.Program as spec;

    ghost Value = { spec.Program };

    ghost use Rattle.rc_lang.specs.Parts.{view_program};
    ghost use Rattle.rc_lang.specs.Kept.{IsProgram};

    ghost view = { λ p. view_program p.head p.declarations p.threads.items };

    ghost invariant = { λ p. IsProgram (view_program p.head p.declarations p.threads.items) };
}

impl Program {
    ghost use Rattle.std.specs.Prelude.{◌≡◌, ◌<◌, ◌≤◌, length, map};
    ghost use Rattle.rc_lang.specs.Kept.{IsProgram};
    ghost use Rattle.rc_lang.specs.Parts.{view_buffer, view_names, view_program, view_stock, view_thread};
    ghost use Rattle.rc_lang.specs.Program.{line_end};

    /// A program of these parts, which keep the limits, the nesting and the resolved names of programs.
    pub fn new(head: Head, declarations: Declarations, threads: Vec<Thread>) -> Program
        requires { IsProgram (view_program head declarations threads.items) }
        ensures { result ≡ view_program head declarations threads.items }
    {
        Program {
            head,
            declarations,
            threads,
        }
    }

    /// The version of the notation: 1 to 5.
    pub fn version(&self) -> u32
        ensures value { result ≡ self.now.version }
        ensures made { IsProgram self.now }
    {
        self.head.version
    }

    /// The entries of the submission ring: a power of two, 1 to 1024.
    pub fn entries(&self) -> u32
        ensures value { result ≡ self.now.entries }
        ensures made { IsProgram self.now }
    {
        self.head.entries
    }

    /// The entries of the completion ring: a power of two, from the submission ring's to 2048.
    pub fn completion_entries(&self) -> u32
        ensures value { result ≡ self.now.completion_entries }
        ensures made { IsProgram self.now }
    {
        self.head.completion_entries
    }

    /// How many entries may be left queued where the lock of the submission side is released: 0 to the entries of the
    /// submission ring.
    pub fn left(&self) -> u32
        ensures value { result ≡ self.now.left }
        ensures made { IsProgram self.now }
    {
        self.head.left
    }

    /// The declared files, in the order of their lines.
    pub fn files(&self) -> &[File]
        ensures value { result.now ≡ self.now.files }
        ensures made { IsProgram self.now }
    {
        &self.declarations.files
    }

    /// The declared buffers, in the order of their lines. A buffer's number is its place here.
    pub fn buffers(&self) -> &[Buffer]
        ensures value { map view_buffer result.now ≡ self.now.buffers }
        ensures made { IsProgram self.now }
    {
        &self.declarations.buffers
    }

    /// The declared tokens, in the order of their lines.
    pub fn tokens(&self) -> &[Token]
        ensures value { result.now ≡ self.now.tokens }
        ensures made { IsProgram self.now }
    {
        &self.declarations.tokens
    }

    /// The names of the declared pools, in the order of their lines. A pool's number is its place here.
    pub fn pools(&self) -> &[Vec<u8>]
        ensures value { view_names result.now ≡ self.now.pools }
        ensures made { IsProgram self.now }
    {
        &self.declarations.pools
    }

    /// What pools have at the start, in the order of their lines, which are before those of the threads.
    pub fn stock(&self) -> &[Stock]
        ensures value { map view_stock result.now ≡ self.now.stock }
        ensures made { IsProgram self.now }
    {
        &self.declarations.stock
    }

    /// The threads, in the order of their lines.
    pub fn threads(&self) -> &[Thread]
        ensures value { map view_thread result.now ≡ self.now.threads }
        ensures made { IsProgram self.now }
    {
        &self.threads
    }

    /// The number of the first thread behind those of this one's line: the next one's, but for its further copies.
    pub fn line_end(&self, thread: usize) -> usize
        requires { thread < length self.now.threads }
        ensures value { result ≡ line_end self.now.threads thread }
        ensures within { result ≤ length self.now.threads }
        ensures made { IsProgram self.now }
    {
        line_end(self.threads(), thread)
    }
}
