//! What comes into the pools of a program: what they have at the start, and what its lines put there.

use crate::parts::shares_of;
use rc_lang::lines::Stmt;
use rc_lang::program::{Items, Program, Thread};
use rc_split::part::Part;
use std::alloc::{AllocError, Global};

/// How many of each part come into each pool at most, at the start and by the lines of a program: a row for the pool without
/// a name, and one for each with a name.
#[derive(Drop)]
pub struct Puts<'a> {
    pub program: &'a Program,
    counts: Vec<u32>,
}

/// How many parts a program declares, and the credits.
fn width_of(program: &Program) -> usize {
    let parts = program
        .buffers()
        .len()
        .saturating_add(program.tokens().len());
    parts.saturating_add(1)
}

impl<'a> Puts<'a> {
    /// What comes into the pools of a program.
    pub fn of(alloc: Global, program: &'a Program) -> Result<Puts<'a>, AllocError> {
        let rows = program.pools().len().saturating_add(1);
        let counts = vec![in alloc; 0; rows.saturating_mul(width_of(program))]?;
        let mut puts = Puts { program, counts };
        for stock in program.stock() {
            puts.add_items(stock.pool, &stock.items, 1);
        }
        for thread in program.threads() {
            puts.add_thread(thread);
        }
        Ok(puts)
    }

    /// How many of a part come into a pool at most.
    pub fn count(&self, pool: Option<usize>, part: Part) -> u32 {
        self.counts
            .get(self.place(pool, part))
            .copied()
            .unwrap_or(0)
    }

    /// Whether a pool with a name gets so much of a part.
    pub fn has(&self, pool: usize, part: Part) -> bool {
        self.count(Some(pool), part) >= count_of(part)
    }

    /// Where the count of a part in a pool is.
    fn place(&self, pool: Option<usize>, part: Part) -> usize {
        let row = match pool {
            Some(pool) => pool.saturating_add(1),
            None => 0,
        };
        let buffers = self.program.buffers().len();
        let column = match part {
            Part::Shares(buffer, _) => buffer,
            Part::Token(user_data) => {
                let token = self.program.token_place(user_data).unwrap_or(0);
                buffers.saturating_add(token)
            }
            Part::Credits(_) => width_of(self.program).saturating_sub(1),
        };
        row.saturating_mul(width_of(self.program))
            .saturating_add(column)
    }

    /// Adds what the lines of a thread put. A line in a loop may put as many as one likes.
    fn add_thread(&mut self, thread: &Thread) {
        let mut loops: u32 = 0;
        for line in &thread.lines {
            match line.stmt {
                Stmt::Loop(_) => loops = loops.saturating_add(1),
                Stmt::EndLoop(_, _) => loops = loops.saturating_sub(1),
                Stmt::Put(pool, list) => {
                    if let Some(items) = thread.lists.get(list) {
                        self.add_items(pool, items, if loops > 0 { u32::MAX } else { 1 });
                    }
                }
                _ => {}
            }
        }
    }

    /// Adds items that are put into a pool so often.
    fn add_items(&mut self, pool: Option<usize>, items: &Items, often: u32) {
        for share in &items.shares {
            self.add(pool, Part::Shares(share.buffer, share.count), often);
        }
        for token in &items.tokens {
            self.add(pool, Part::Token(*token), often);
        }
        self.add(pool, Part::Credits(items.credits), often);
    }

    /// Adds a part that is put into a pool so often.
    fn add(&mut self, pool: Option<usize>, part: Part, often: u32) {
        let place = self.place(pool, part);
        if place < self.counts.len() {
            let more = count_of(part).saturating_mul(often);
            self.counts[place] = self.counts[place].saturating_add(more);
        }
    }
}

/// How many of a part there are in it.
pub fn count_of(part: Part) -> u32 {
    match part {
        Part::Shares(_, count) | Part::Credits(count) => count,
        Part::Token(_) => 1,
    }
}

/// How many of a part a pool has at the start.
pub fn begun_in(program: &Program, pool: Option<usize>, part: Part) -> u32 {
    for stock in program.stock() {
        if stock.pool == pool {
            return count_in(&stock.items, part);
        }
    }
    0
}

/// How many of a part items have.
pub fn count_in(items: &Items, part: Part) -> u32 {
    match part {
        Part::Shares(buffer, _) => shares_of(&items.shares, buffer),
        Part::Token(user_data) => u32::from(items.tokens.contains(&user_data)),
        Part::Credits(_) => items.credits,
    }
}

/// So many of the same.
pub fn with_count(part: Part, count: u32) -> Part {
    match part {
        Part::Shares(buffer, _) => Part::Shares(buffer, count),
        Part::Token(user_data) => Part::Token(user_data),
        Part::Credits(_) => Part::Credits(count),
    }
}

/// Whether a list of a thread has so much of a part.
pub fn has(thread: &Thread, list: usize, part: Part) -> bool {
    match thread.lists.get(list) {
        Some(items) => count_in(items, part) >= count_of(part),
        None => false,
    }
}

/// The first line of the program that puts so much of a part into a pool with a name: the number of its thread, and that of
/// its list.
pub fn first_put(program: &Program, part: Part, pool: usize) -> Option<(usize, usize)> {
    for (number, thread) in program.threads().iter().enumerate() {
        for line in &thread.lines {
            match line.stmt {
                Stmt::Put(into, list) if into == Some(pool) && has(thread, list, part) => {
                    return Some((number, list));
                }
                _ => {}
            }
        }
    }
    None
}
