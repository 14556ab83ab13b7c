//! The lines of logs, as they are kept: names are by their numbers, in the order in which they came first.

use crate::glance::Glance;
use crate::replayed::Kind;
use indexmap::{IndexMap, IndexSet};
use rc_lang::lines::Locks;
use std::alloc::Global;

/// What a line says. Lines that found nothing, or only asked, are left out.
#[derive(Clone, Copy)]
pub enum Says {
    /// `get_sqe 1`.
    GetSqe,
    /// `get_sqe 0`.
    NoEntry,
    /// A prep, by the number of its words.
    Prepare(u32),
    /// `flags N`.
    Flags,
    /// `set_data64 TOKEN`.
    Name(u32),
    /// `submit ANSWER`.
    Submit(i32),
    /// `submit_and_wait WANTED ANSWER`.
    SubmitAndWait { wanted: u32, answer: i32 },
    /// `sq_ready N`.
    Ready,
    /// `peek_cqe TOKEN RES`.
    Peek { token: u32, res: i32 },
    /// `cqe_seen TOKEN`.
    Seen(u32),
    Lock(Locks),
    Unlock(Locks),
    /// `reads BUFFER`.
    Reads(u32),
    /// `writes BUFFER`.
    Writes(u32),
    /// A mark of a buffer that nobody named.
    Unnamed,
    /// `put POOL`.
    Put(u32),
    /// `put POOL BUFFER`.
    PutOf { pool: u32, buffer: u32 },
    /// `take POOL`.
    Take(u32),
    /// `take POOL BUFFER`.
    TakeOf { pool: u32, buffer: u32 },
    Ends,
    /// `buffer NAME SIZE`.
    Buffer(u32),
    /// `token TOKEN`.
    Token(u32),
    /// `file FILE`.
    File(u32),
}

/// A line of a log.
#[derive(Clone, Copy)]
pub struct Step {
    pub thread: u32,
    pub place: u32,
    pub says: Says,
}

/// What a prep asks for.
#[derive(Clone, Copy)]
pub struct Asked {
    pub kind: Kind,
    /// None where there is none, or nobody said which.
    pub file: Option<u32>,
    pub buffer: Option<u32>,
    pub len: u32,
    /// Whether it names a file or a buffer that nobody said.
    pub is_unsaid: bool,
}

/// A log that was recorded. Its lines aren't kept.
#[derive(Drop)]
pub struct Log {
    /// A sum of its bytes, by which logs are in an order, and which tells whether one has changed.
    pub sum: u64,
    pub entries: u32,
    pub completions: u32,
    /// How many lines it has that say something.
    pub steps: u64,
    pub glance: Glance,
}

/// What the lines of logs name.
#[derive(Drop)]
pub struct Names {
    pub threads: IndexSet<Vec<u8>>,
    /// Each FILE:LINE.
    pub places: IndexSet<Vec<u8>>,
    pub buffers: IndexSet<Vec<u8>>,
    pub pools: IndexSet<Vec<u8>>,
    pub tokens: IndexSet<u64>,
    /// The words of each prep, but for its offset.
    pub preps: IndexSet<Vec<u8>>,
    /// What each prep asks for.
    pub asked: Vec<Asked>,
    /// Lines, by their sums.
    pub lines: IndexMap<u64, Kept>,
}

/// A line, and what it says, if that is kept.
#[derive(Drop)]
pub struct Kept {
    pub line: Vec<u8>,
    pub step: Option<Step>,
}

/// How many there are of each.
#[derive(Clone, Copy)]
pub struct Counts {
    threads: usize,
    places: usize,
    buffers: usize,
    pools: usize,
    tokens: usize,
    preps: usize,
    lines: usize,
}

impl Names {
    /// No names.
    pub fn new(alloc: Global) -> Names {
        Names {
            threads: IndexSet::new(alloc),
            places: IndexSet::new(alloc),
            buffers: IndexSet::new(alloc),
            pools: IndexSet::new(alloc),
            tokens: IndexSet::new(alloc),
            preps: IndexSet::new(alloc),
            asked: Vec::new(alloc),
            lines: IndexMap::new(alloc),
        }
    }

    /// How many names there are.
    pub fn counts(&self) -> Counts {
        Counts {
            threads: self.threads.len(),
            places: self.places.len(),
            buffers: self.buffers.len(),
            pools: self.pools.len(),
            tokens: self.tokens.len(),
            preps: self.preps.len(),
            lines: self.lines.len(),
        }
    }

    /// Forgets the names that came after so many.
    pub fn forget(&mut self, counts: Counts) {
        self.threads.truncate(counts.threads);
        self.places.truncate(counts.places);
        self.buffers.truncate(counts.buffers);
        self.pools.truncate(counts.pools);
        self.tokens.truncate(counts.tokens);
        self.preps.truncate(counts.preps);
        self.asked.truncate(counts.preps);
        self.lines.truncate(counts.lines);
    }
}
