//! What a replay of logs gives: threads, the events of each, and what was held before and after each event.
//!
//! All tables are in an order that doesn't depend on the order in which the logs are named.

use crate::windows::Windows;
use rc_lang::lines::Locks;

/// What a thread holds, or has to itself.
#[derive(Clone, Copy, PartialEq, Eq, Hash)]
pub enum Part {
    /// Shares of a buffer, by its place.
    Buffer(u32),
    /// A token, by its place.
    Token(u32),
    /// Nothing that is held: a request of this token is out, which this thread alone sends and reaps.
    Out(u32),
    /// Nothing that is held: an early completion of this token isn't seen yet.
    Got(u32),
}

/// A part, and how many of it.
#[derive(Clone, Copy, PartialEq, Eq, Hash)]
pub struct Held {
    pub part: Part,
    /// At least 1.
    pub count: u32,
}

/// What a thread holds: buffers, tokens, then requests that are out and completions that aren't seen, each by number.
#[derive(Drop)]
pub struct Holding {
    pub parts: Vec<Held>,
}

/// What a request asks for.
#[derive(Clone, Copy)]
pub enum Kind {
    Read,
    Write,
    Fsync { is_datasync: bool },
    Nop,
    Other,
}

/// A buffer.
#[derive(Drop)]
pub struct Buffer {
    pub name: Vec<u8>,
    /// The most bytes that a request moves of it, and at least 1.
    pub bytes: u32,
    /// The most requests and loads that have a share of it at a time.
    pub shares: u32,
    /// The thing that it belongs to.
    pub thing: u32,
}

/// A request that a token stands for.
#[derive(Clone, Copy)]
pub struct Request {
    pub kind: Kind,
    /// The buffer that it names, by its place.
    pub buffer: Option<u32>,
    /// The number of the file that it names.
    pub file: Option<u32>,
    /// The most bytes that it moves.
    pub len: u32,
}

/// A token, which is user data. The first of its requests, of those that differ by more than their length, is in its own
/// fields, and up to three more are `others`.
#[derive(Clone, Copy)]
pub struct Token {
    pub user_data: u64,
    pub kind: Kind,
    /// The buffer that its first request names, by its place.
    pub buffer: Option<u32>,
    /// The number of the file that this one names.
    pub file: Option<u32>,
    /// The most bytes that this one moves.
    pub len: u32,
    /// The other requests that it stands for at other times.
    pub others: [Option<Request>; 3],
    /// The thing that it belongs to.
    pub thing: u32,
    /// Whether a completion of it was found twice before it was seen.
    pub is_peeked_twice: bool,
}

/// What moves together: a buffer with the tokens that name it, or a token alone.
#[derive(Drop)]
pub struct Thing {
    pub parts: Vec<Part>,
}

/// A thread.
#[derive(Drop)]
pub struct Thread {
    pub name: Vec<u8>,
    /// The holding that it begins with.
    pub start: u32,
    /// Mutexes that it locks first and never unlocks, and that nobody else locks.
    pub keeps: Option<Locks>,
    /// Whether it takes completions away.
    pub has_reaps: bool,
    /// Whether it uses what came with one before it sees it.
    pub has_early: bool,
}

/// A request that is made, and the places of its `get_sqe`, its prep and its `set_data64`.
#[derive(Clone, Copy, PartialEq, Eq, Hash)]
pub struct Sent {
    pub token: u32,
    /// Which of the token's requests it is: 0 the first, 1 to 3 the others.
    pub request: u32,
    pub opened: u32,
    pub prepared: u32,
    pub named: u32,
}

/// How entries are submitted.
#[derive(Clone, Copy, PartialEq, Eq, Hash)]
pub enum Submit {
    /// They aren't.
    None,
    /// By `submit`.
    Now,
    /// By `submit_and_wait` for so many completions.
    AndWait(u32),
}

/// How a request ended.
#[derive(Clone, Copy)]
pub enum Class {
    /// It moved all bytes, or it did what it had to.
    Full,
    /// It moved some of them.
    Short,
    /// It moved none.
    Zero,
    /// By an error.
    Negative,
}

/// What a thread does.
#[derive(Drop)]
pub enum Act {
    /// It makes requests, and submits them.
    Send {
        requests: Vec<Sent>,
        submit: Submit,
    },
    /// It submits what was left.
    Submit(Submit),
    /// It takes a completion away. One that is early is only looked at here, since what came with it is used before it
    /// is seen: its `Seen` follows.
    Reap {
        token: u32,
        class: Option<Class>,
        is_early: bool,
    },
    /// It takes away a completion whose early `Reap` came before. Nothing moves.
    Seen {
        token: u32,
    },
    /// It puts a thing into a pool; none where it isn't known which.
    Put {
        pool: u32,
        thing: Option<u32>,
    },
    /// It takes a thing from a pool; none where it isn't known which.
    Take {
        pool: u32,
        thing: Option<u32>,
    },
    /// It writes a buffer.
    Fill(u32),
    /// It reads a buffer.
    Load(u32),
    /// It ends.
    End,
    /// It makes requests or submits, and the log ends there: it doesn't say how that goes on.
    Cut,
}

/// An event of a thread. Events that are the same are one.
#[derive(Drop)]
pub struct Event {
    pub act: Act,
    /// What the thread holds before it.
    pub before: u32,
    /// What the thread holds after it.
    pub after: u32,
    /// Whether the thread unlocked a mutex since its last event.
    pub is_unlocked: bool,
    /// The place in C that it is known by.
    pub place: u32,
    /// All places that it has, but for those of its requests.
    pub places: Vec<u32>,
}

/// What the replay of logs gives. Parts are named by their places in these tables.
#[derive(Drop)]
pub struct Replayed {
    /// How many logs there are.
    pub logs: u32,
    /// The least entries of a submission ring.
    pub entries: u32,
    /// The least entries of a completion ring.
    pub completions: u32,
    /// The numbers of files, rising.
    pub files: Vec<u32>,
    /// By name.
    pub buffers: Vec<Buffer>,
    /// By user data.
    pub tokens: Vec<Token>,
    pub things: Vec<Thing>,
    /// By name.
    pub pools: Vec<Vec<u8>>,
    /// By name.
    pub threads: Vec<Thread>,
    /// Each FILE:LINE, by file and then number.
    pub places: Vec<Vec<u8>>,
    pub holdings: Vec<Holding>,
    pub events: Vec<Event>,
    /// Of each thread: which events follow each other.
    pub windows: Vec<Windows>,
    /// Whether the two sides of the ring have mutexes of their own.
    pub has_sides: bool,
    /// The most entries that stay queued where the mutex is unlocked.
    pub left: u32,
    /// Whether there are as many tokens as entries, or more.
    pub is_tight: bool,
    /// A line each, without its line feed, in order.
    pub notes: Vec<Vec<u8>>,
}
