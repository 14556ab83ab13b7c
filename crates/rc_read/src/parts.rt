//! What was read so far.

ghost use Rattle.std.specs.Prelude.{◌≤◌};

use crate::fault::ReadFault;
use indexmap::IndexSet;
use rc_lang::lines::{Block, Line};
use rc_lang::program::{Buffer, File, Head, Items, More, Stock, Thread, Token};
use std::alloc::Global;

/// The part of a model in which a line is.
#[derive(Clone, Copy)]
pub enum Region {
    /// Above the first head line.
    Start,
    /// Between the head lines.
    Second,
    /// After the head, above the threads.
    Declarations,
    /// In a thread.
    InThread,
    /// After a thread, in none.
    Between,
}

/// The arms that the open peek has so far.
#[derive(Drop)]
pub struct Arms {
    pub cases: Vec<u64>,
    pub other: bool,
    pub none: bool,
}

/// The open thread.
#[derive(Drop)]
pub struct Draft {
    pub name: Vec<u8>,
    /// How many copies its header declares, where it says so.
    pub copies: Option<u32>,
    pub line: u32,
    pub items: Items,
    pub lists: Vec<Items>,
    pub names: IndexSet<Vec<u8>>,
    pub blocks: Vec<Block>,
    pub lines: Vec<Line>,
    pub ends: Vec<usize>,
    pub arms: Arms,
    /// The variable of its first `when`.
    pub flag: Option<usize>,
}

/// What was read so far.
#[derive(Drop)]
pub struct Parts {
    pub count: u32,
    pub region: Region,
    pub head: Head,
    pub files: Vec<File>,
    pub buffers: Vec<Buffer>,
    pub tokens: Vec<Token>,
    pub pools: Vec<Vec<u8>>,
    pub stock: Vec<Stock>,
    pub threads: Vec<Thread>,
    pub draft: Draft,
    ghost few_lines: { count ≤ 4096 },
}

/// Why a model can't be read, and what was read above the line in question; at the model's end all lines were.
#[derive(Drop)]
pub struct Unread {
    pub fault: ReadFault,
    pub parts: Parts,
}

impl Arms {
    ghost use Rattle.std.specs.Prelude.{◌≡◌};
    ghost use Rattle.rc_read.specs.Sheets.{no_arms};
    ghost use Rattle.rc_read.specs.View.{view_arms};

    /// No arms.
    pub fn new(alloc: Global) -> Arms
        ensures { view_arms result ≡ no_arms }
    {
        Arms {
            cases: Vec::new(alloc),
            other: false,
            none: false,
        }
    }
}

impl Draft {
    ghost use Rattle.std.specs.Prelude.{◌≡◌};
    ghost use Rattle.rc_read.specs.Sheets.{no_draft};
    ghost use Rattle.rc_read.specs.View.{view_draft};

    /// No thread.
    pub fn new(alloc: Global) -> Draft
        ensures { view_draft result ≡ no_draft }
    {
        Draft {
            name: Vec::new(alloc),
            copies: None,
            line: 0,
            items: Items {
                shares: Vec::new(alloc),
                tokens: Vec::new(alloc),
                credits: 0,
                queue: None,
                more: More {
                    shares: Vec::new(alloc),
                    tokens: Vec::new(alloc),
                    credits: 0,
                },
            },
            lists: Vec::new(alloc),
            names: IndexSet::new(alloc),
            blocks: Vec::new(alloc),
            lines: Vec::new(alloc),
            ends: Vec::new(alloc),
            arms: Arms::new(alloc),
            flag: None,
        }
    }
}

impl Parts {
    ghost use Rattle.std.specs.Prelude.{◌≡◌};
    ghost use Rattle.rc_read.specs.Sheets.{empty};
    ghost use Rattle.rc_read.specs.View.{view_sheet};

    /// What was read of no model.
    pub fn new(alloc: Global) -> Parts
        ensures { view_sheet result ≡ empty }
    {
        Parts {
            count: 0,
            region: Region::Start,
            head: Head {
                version: 1,
                entries: 1,
                completion_entries: 2,
                left: 0,
            },
            files: Vec::new(alloc),
            buffers: Vec::new(alloc),
            tokens: Vec::new(alloc),
            pools: Vec::new(alloc),
            stock: Vec::new(alloc),
            threads: Vec::new(alloc),
            draft: Draft::new(alloc),
        }
    }
}
