//! The machine of a thread: what it does, what it holds, and how it goes on.

use rc_replay::replayed::{Holding, Sent, Submit};

/// What a thread does at a node.
#[derive(Drop)]
pub enum What {
    /// It has done something, and chooses how it goes on.
    After {
        /// The token of the request that it reaped just now.
        reaped: Option<u32>,
        /// From here it only takes and waits, in any order.
        is_wait: bool,
    },
    /// It reaps a completion: an arm for each token.
    Wait,
    /// It takes from a pool: an arm for each thing.
    Take {
        pool: u32,
    },
    Send {
        requests: Vec<Sent>,
        submit: Submit,
    },
    Submit(Submit),
    Put {
        pool: u32,
        thing: u32,
    },
    Fill(u32),
    Load(u32),
    /// It takes away a completion that it reaped early, of this token.
    Seen(u32),
    End,
}

/// A way on from a node.
#[derive(Clone, Copy)]
pub struct Way {
    /// The node where it leads.
    pub to: u32,
    /// The thread unlocks on it.
    pub is_unlocked: bool,
    /// How many times it was seen: 0 if a like way was.
    pub count: u32,
}

/// What a wait or a take may get.
#[derive(Clone, Copy)]
pub struct Arm {
    /// The token of a wait, the thing of a take.
    pub label: u32,
    /// The node where it leads.
    pub to: u32,
    /// Which classes of completions were seen, in their order.
    pub seen: [bool; 4],
    /// The completion is only looked at here, and taken away by a `Seen` that follows.
    pub is_early: bool,
}

/// A state of a thread. What it does there, and what it holds.
#[derive(Drop)]
pub struct Node {
    pub what: What,
    /// What is held before it; nothing at an `End`.
    pub held: u32,
    /// Sorted by where they lead. A wait or a take has a way to itself, as it may get nothing and try again, but where only
    /// nodes that take and wait lead to it: those have a way to themselves.
    pub ways: Vec<Way>,
    /// Sorted by label.
    pub arms: Vec<Arm>,
    /// Behind a completion: where each class went on to, sorted. Else empty.
    pub by_class: [Vec<u32>; 4],
    /// The lines of C, sorted.
    pub places: Vec<u32>,
}

/// The machine of the threads of a group. Nodes that nothing reaches from a start are left away.
#[derive(Drop)]
pub struct Machine {
    pub nodes: Vec<Node>,
}

/// Where a thread begins.
#[derive(Clone, Copy)]
pub struct Entry {
    pub machine: u32,
    /// A node of that machine.
    pub start: u32,
}

/// The machines of all threads.
#[derive(Drop)]
pub struct Machines {
    /// Those that were replayed, and then those that are held in exchanged states only.
    pub holdings: Vec<Holding>,
    pub machines: Vec<Machine>,
    /// One for each thread.
    pub threads: Vec<Entry>,
}
