//! Which threads share a machine, and the machines of all.

use crate::carry::carry;
use crate::close::close;
use crate::finish::finish;
use crate::graph::Graph;
use crate::holdings::{Tables, number};
use crate::key::key_of_start;
use crate::like::like_things;
use crate::machine::{Entry, Machine, Machines};
use crate::merge::merge;
use crate::swaps::swap;
use crate::touched::touched_of;
use crate::trace::add_windows;
use indexmap::IndexSet;
use rc_replay::replayed::Replayed;
use std::alloc::{AllocError, Global};

/// Threads whose names differ in a number, with common things.
#[derive(Drop)]
struct Group {
    threads: Vec<u32>,
}

/// What is known of all threads.
#[derive(Clone, Copy)]
struct Ground<'a> {
    replayed: &'a Replayed,
    like: &'a [Vec<u32>],
}

/// The machines of the threads that were replayed. Without outs, states aren't told apart by which requests are out.
pub fn machines(
    alloc: Global,
    replayed: &Replayed,
    has_outs: bool,
) -> Result<Machines, AllocError> {
    let like = like_things(alloc, replayed)?;
    let groups = groups_of(alloc, replayed)?;
    let ground = Ground {
        replayed,
        like: &like,
    };
    machines_of(alloc, ground, &groups, has_outs)
}

/// The machines of these groups.
fn machines_of(
    alloc: Global,
    ground: Ground<'_>,
    groups: &[Group],
    has_outs: bool,
) -> Result<Machines, AllocError> {
    let mut tables = Tables::new(alloc, &ground.replayed.holdings, has_outs)?;
    let mut made = Machines {
        holdings: Vec::new(alloc),
        machines: Vec::new(alloc),
        threads: entries(alloc, ground.replayed.threads.len())?,
    };
    for group in groups {
        add_machine(&mut tables, ground, group, &mut made)?;
    }
    made.holdings = tables.into_holdings()?;
    Ok(made)
}

/// So many entries, which are written later.
fn entries(alloc: Global, len: usize) -> Result<Vec<Entry>, AllocError> {
    let mut entries = Vec::new(alloc);
    let entry = Entry {
        machine: 0,
        start: 0,
    };
    entries.resize(len, entry)?;
    Ok(entries)
}

/// Adds the machine of a group.
fn add_machine(
    tables: &mut Tables,
    ground: Ground<'_>,
    group: &Group,
    made: &mut Machines,
) -> Result<(), AllocError> {
    let mut starts = Vec::new(tables.alloc);
    let machine = machine_of(tables, ground, group, &mut starts)?;
    let number = number(made.machines.len());
    made.machines.push(machine)?;
    for (thread, start) in group.threads.iter().zip(starts.iter()) {
        enter(&mut made.threads, *thread, number, *start);
    }
    Ok(())
}

/// The machine of a group, and where its threads start.
fn machine_of(
    tables: &mut Tables,
    ground: Ground<'_>,
    group: &Group,
    starts: &mut Vec<u32>,
) -> Result<Machine, AllocError> {
    let mut graph = Graph::new(tables.alloc);
    fill(tables, ground, group, &mut graph, starts)?;
    finish(tables, &graph, starts)
}

/// Fills the graph of a group.
fn fill(
    tables: &mut Tables,
    ground: Ground<'_>,
    group: &Group,
    graph: &mut Graph,
    starts: &mut Vec<u32>,
) -> Result<(), AllocError> {
    for thread in &group.threads {
        add_thread(tables, ground, graph, *thread, starts)?;
    }
    swap(tables, graph)?;
    carry(tables, graph, ground.replayed)?;
    close(tables, graph, ground.replayed, ground.like, starts)?;
    merge(tables.alloc, graph, ground.replayed, starts)
}

/// Adds what a thread was seen to do, and where it starts.
fn add_thread(
    tables: &mut Tables,
    ground: Ground<'_>,
    graph: &mut Graph,
    thread: u32,
    starts: &mut Vec<u32>,
) -> Result<(), AllocError> {
    let held = match ground.replayed.threads.get(thread as usize) {
        Some(thread) => thread.start,
        None => 0,
    };
    let start = graph.node(key_of_start(tables, held))?;
    starts.push(start)?;
    match ground.replayed.windows.get(thread as usize) {
        Some(windows) => add_windows(tables, graph, ground.replayed, start, windows),
        None => Ok(()),
    }
}

/// Writes down where a thread begins.
fn enter(threads: &mut [Entry], thread: u32, machine: u32, start: u32) {
    if let Some(entry) = threads.get_mut(thread as usize) {
        *entry = Entry { machine, start };
    }
}

/// Which threads share a machine.
fn groups_of(alloc: Global, replayed: &Replayed) -> Result<Vec<Group>, AllocError> {
    let touched = touched_of(alloc, replayed)?;
    let mut groups = Vec::new(alloc);
    for thread in 0..number(replayed.threads.len()) {
        add_to_group(alloc, replayed, &touched, &mut groups, thread)?;
    }
    Ok(groups)
}

/// Adds a thread to the first group that it fits in, or else to a new one.
fn add_to_group(
    alloc: Global,
    replayed: &Replayed,
    touched: &[IndexSet<u32>],
    groups: &mut Vec<Group>,
    thread: u32,
) -> Result<(), AllocError> {
    for group in groups.iter_mut() {
        if fits(replayed, touched, group, thread) {
            group.threads.push(thread)?;
            return Ok(());
        }
    }
    let mut threads = Vec::new(alloc);
    threads.push(thread)?;
    groups.push(Group { threads })?;
    Ok(())
}

/// Whether a thread's name differs from that of a group's first one in a number only, and most of the things are common
/// that they touch.
fn fits(replayed: &Replayed, touched: &[IndexSet<u32>], group: &Group, thread: u32) -> bool {
    let Some(first) = group.threads.first().copied() else {
        return false;
    };
    let (Some(one), Some(other)) = (touched.get(first as usize), touched.get(thread as usize))
    else {
        return false;
    };
    stem_of(replayed, first) == stem_of(replayed, thread) && are_mostly_common(one, other)
}

/// Whether at least half of the things of two threads are common.
fn are_mostly_common(one: &IndexSet<u32>, other: &IndexSet<u32>) -> bool {
    let mut common: usize = 0;
    for thing in one.iter() {
        if other.contains(thing) {
            common = common.saturating_add(1);
        }
    }
    let all = one.len().saturating_add(other.len()).saturating_sub(common);
    common.saturating_mul(2) >= all
}

/// The name of a thread without the number at its end.
fn stem_of(replayed: &Replayed, thread: u32) -> &[u8] {
    let Some(thread) = replayed.threads.get(thread as usize) else {
        return &[];
    };
    let mut len: usize = 0;
    for (place, byte) in thread.name.iter().enumerate() {
        if !byte.is_ascii_digit() {
            len = place.saturating_add(1);
        }
    }
    thread.name.get(..len).unwrap_or(&[])
}
