//! What is in each pool after a row: what it has at the start, with what was put there less what was taken.

use crate::fault::put_at_fault;
use crate::frames::Frame;
use crate::pen::NOTHING;
use crate::pen::Piece::{self, Number, Word};
use crate::run::Run;
use crate::stretches::Stretch;
use rc_lang::lines::{Stmt, Test};
use rc_lang::program::{Items, Program};
use rc_text::names::{buffer_name, pool_name};
use rc_world::event::{Action, Event};
use std::alloc::{AllocError, Global};

/// What a pool can hold.
#[derive(Clone, Copy, PartialEq)]
pub enum PoolItem {
    /// The shares of a buffer.
    Shares(usize),
    /// The token with this user data.
    Token(u64),
    /// The credits.
    Credits,
}

impl PoolItem {
    pub fn name<'a>(self, program: &'a Program) -> [Piece<'a>; 2] {
        match self {
            PoolItem::Shares(buffer) => [Word(buffer_name(program, buffer)), NOTHING],
            PoolItem::Token(user_data) => [Word(b"t:"), Number(user_data)],
            PoolItem::Credits => [Word(b"c"), NOTHING],
        }
    }

    /// How many there may be in all pools together.
    fn bound(self, program: &Program) -> u64 {
        match self {
            PoolItem::Shares(buffer) => u64::from(program.shares_at(buffer)),
            PoolItem::Token(_) => 1,
            PoolItem::Credits => u64::from(program.completion_entries()),
        }
    }

    /// How many are among these.
    fn count_in(self, items: &Items) -> u64 {
        match self {
            PoolItem::Shares(buffer) => {
                for share in &items.shares {
                    if share.buffer == buffer {
                        return u64::from(share.count);
                    }
                }
                0
            }
            PoolItem::Token(user_data) => u64::from(items.tokens.contains(&user_data)),
            PoolItem::Credits => u64::from(items.credits),
        }
    }
}

/// What pools can hold: the shares of each buffer and the tokens in the text's order, then the credits.
fn pool_items(alloc: Global, program: &Program) -> Result<Vec<PoolItem>, AllocError> {
    let mut items = Vec::new(alloc);
    for buffer in 0..program.buffers().len() {
        items.push(PoolItem::Shares(buffer))?;
    }
    for token in program.tokens() {
        items.push(PoolItem::Token(token.user_data))?;
    }
    items.push(PoolItem::Credits)?;
    Ok(items)
}

/// An item in one pool.
#[derive(Drop)]
pub struct Stock<'a> {
    /// The number of the declared pool, none for the pool without a name.
    pub pool: Option<usize>,
    /// What stands over the pool: its name.
    pub title: &'a [u8],
    pub item: PoolItem,
    pub name: [Piece<'a>; 2],
    /// How many there are after each row.
    pub levels: Vec<u64>,
}

impl Stock<'_> {
    /// How many there are after the last row.
    fn last(&self) -> u64 {
        self.levels.last().copied().unwrap_or(0)
    }

    /// Whether it is at fault, where these are: that of the pools that have some, and of all where none has.
    pub fn is_at_fault(&self, over: &[Over]) -> bool {
        for one in over {
            if one.item == self.item {
                return self.last() > 0 || one.there == 0;
            }
        }
        false
    }
}

/// The items that each pool holds at the start or after a row, in the order of the text.
pub fn stocks_of<'a>(
    alloc: Global,
    run: &Run<'_, 'a>,
    stretches: &[Stretch],
) -> Result<Vec<Stock<'a>>, AllocError> {
    let items = pool_items(alloc, run.program)?;
    let mut stocks = Vec::new(alloc);
    for place in 0..run.program.pools().len() + 1 {
        for item in &items {
            push_stock(
                &mut stocks,
                alloc,
                run,
                stretches,
                place.checked_sub(1),
                *item,
            )?;
        }
    }
    Ok(stocks)
}

/// How many of an item a pool has at the start.
fn level_at_start(program: &Program, pool: Option<usize>, item: PoolItem) -> u64 {
    for stock in program.stock() {
        if stock.pool == pool {
            return item.count_in(&stock.items);
        }
    }
    0
}

/// Adds an item of a pool, if the pool has some of it at the start or after some row.
fn push_stock<'a>(
    stocks: &mut Vec<Stock<'a>>,
    alloc: Global,
    run: &Run<'_, 'a>,
    stretches: &[Stretch],
    pool: Option<usize>,
    item: PoolItem,
) -> Result<(), AllocError> {
    let mut levels = Vec::new(alloc);
    let start = level_at_start(run.program, pool, item);
    let (mut from, mut level, mut most) = (0, start, start);
    for stretch in stretches {
        let last = stretch.last(run.frames.len() as u64) as usize;
        for frame in run.frames.get(from..last).unwrap_or(&[]) {
            level = level_after(run.program, frame, level, pool, item);
        }
        levels.push(level)?;
        most = level.max(most);
        from = last;
    }
    if most == 0 {
        return Ok(());
    }
    let title = match pool {
        Some(pool) => pool_name(run.program, pool),
        None => b"pool",
    };
    stocks.push(Stock {
        pool,
        title,
        item,
        name: item.name(run.program),
        levels,
    })?;
    Ok(())
}

/// The items of a list of a thread.
pub fn items_of(program: &Program, thread: u32, list: usize) -> Option<&Items> {
    program.lists_of(thread as usize).get(list)
}

/// How many of an item a pool has after an event, before which there were so many.
fn level_after(
    program: &Program,
    frame: &Frame,
    level: u64,
    pool: Option<usize>,
    item: PoolItem,
) -> u64 {
    let (Event::ByThread { thread, action, .. }, Some(line)) = (frame.event, frame.line) else {
        return level;
    };
    let (at, list, is_put) = match (line.stmt, action) {
        (Stmt::Put(at, list), _) => (at, list, true),
        (Stmt::If(Test::Take(at, list)), Action::Branched(true)) => (at, list, false),
        _ => return level,
    };
    match items_of(program, thread, list) {
        Some(items) if at == pool && is_put => level.saturating_add(item.count_in(items)),
        Some(items) if at == pool => level.saturating_sub(item.count_in(items)),
        _ => level,
    }
}

/// An item for which the pools have no room: how many are put, how many are there already, and how many there may be.
#[derive(Clone, Copy)]
pub struct Over {
    pub item: PoolItem,
    pub put: u64,
    pub there: u64,
    pub bound: u64,
}

/// The items at fault, in the text's order.
pub fn over_of(
    alloc: Global,
    run: &Run<'_, '_>,
    stocks: &[Stock<'_>],
) -> Result<Vec<Over>, AllocError> {
    let mut over = Vec::new(alloc);
    let Some(puts) = put_at_fault(run) else {
        return Ok(over);
    };
    let items = pool_items(alloc, run.program)?;
    for item in &items {
        let (put, bound) = (item.count_in(puts), item.bound(run.program));
        let there = in_all(stocks, *item);
        if 0 < put && bound < put.saturating_add(there) {
            over.push(Over {
                item: *item,
                put,
                there,
                bound,
            })?;
        }
    }
    Ok(over)
}

/// How many of an item all pools have after the last row.
fn in_all(stocks: &[Stock<'_>], item: PoolItem) -> u64 {
    let mut count: u64 = 0;
    for stock in stocks {
        if stock.item == item {
            count = count.saturating_add(stock.last());
        }
    }
    count
}
