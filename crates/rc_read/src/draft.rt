//! What a line adds to the open thread.

ghost use Rattle.std.specs.Prelude.{◌≡◌, ◌++◌, ◌∷◌, [], map, slice_set, OnOk, IfOk};
ghost use Rattle.rc_lang.specs.Nesting as nesting;
ghost use Rattle.rc_lang.specs.Parts.{view_items, view_thread};
ghost use Rattle.rc_read.specs.Adds as spec;
ghost use Rattle.rc_read.specs.Steps.{AddsList};
ghost use Rattle.rc_read.specs.View.{view_arms, view_draft, view_lists};

use crate::blocks::{innermost, way_out};
use crate::lists::{flag_in, parted};
use crate::parts::{Arms, Draft};
use crate::says::Says;
use crate::values::Item;
use indexmap::IndexSet;
use rc_lang::lines::{Block, Line, Locks, Stmt, Test};
use rc_lang::program::{Items, More, Share, Thread};
use rc_lang::rows::Rows;
use std::alloc::{AllocError, Global};

// What a list of items holds, and nothing besides.
pub fn held(alloc: Global, items: &[Item]) -> Result<Items, AllocError>
    ensures { IfOk result (λ i. view_items i ≡ spec.held items.now []) }
{
    let mut shares = Vec::new(alloc);
    let mut tokens = Vec::with_capacity(alloc, items.len())?;
    let mut credits = None;
    let mut queue = None;
    for item in items {
        match *item {
            Item::Shares(buffer, count) => shares.push(Share { buffer, count })?,
            Item::Token(user_data) => tokens.push(user_data)?,
            Item::Credits(count) => credits = credits.or(Some(count)),
            Item::Queued(count) => queue = queue.or(Some(count)),
            Item::When(_) => {}
        }
    }
    let more = More {
        shares: Vec::new(alloc),
        tokens: Vec::new(alloc),
        credits: 0,
    };
    Ok(Items {
        shares,
        tokens,
        credits: credits.unwrap_or(0),
        queue,
        more,
    })
}

// What the items of a loop hold: those before `when`, and besides those after it.
fn held_in_loop(alloc: Global, items: &[Item]) -> Result<Items, AllocError>
    ensures { IfOk result (λ i. view_items i ≡ spec.held_in_loop items.now) }
{
    let (before, behind) = parted(items);
    let first = held(alloc, before)?;
    let besides = held(alloc, behind)?;
    Ok(Items {
        more: More {
            shares: besides.shares,
            tokens: besides.tokens,
            credits: besides.credits,
        },
        ..first
    })
}

// Opens or closes the block of a line at this place.
fn put_block(blocks: &mut Vec<Block>, place: usize, stmt: Stmt) -> Result<(), AllocError>
    ensures { OnOk result (blocks.new.items ≡ nesting.blocks_behind blocks.old.items place stmt) }
{
    match stmt {
        Stmt::Do(_) | Stmt::Put(_, _) | Stmt::Break(_, _, _) => Ok(()),
        Stmt::Lock(locks) => Ok(blocks.push(Block::InLock(place, locks))?),
        Stmt::If(_) => Ok(blocks.push(Block::InIf(place))?),
        Stmt::Else(_) => {
            let _ = blocks.pop();
            Ok(blocks.push(Block::InElse(place))?)
        }
        Stmt::Peek(_) => Ok(blocks.push(Block::InPeek(place))?),
        Stmt::Case(peek, _) | Stmt::Other(peek) | Stmt::Nothing(peek) => {
            Ok(blocks.push(Block::InArm(peek))?)
        }
        Stmt::Loop(number) => Ok(blocks.push(Block::InLoop(place, number))?),
        Stmt::EndLock(_, _) | Stmt::EndIf(_) | Stmt::EndArm(_) => {
            let _ = blocks.pop();
            Ok(())
        }
        Stmt::EndPeek(_) | Stmt::EndLoop(_, _) => {
            let _ = blocks.pop();
            Ok(())
        }
    }
}

// The place of the line that a line closes, where a jump starts from there.
fn closed_by(stmt: Stmt) -> Option<usize>
    ensures { result ≡ spec.closed_by stmt }
{
    match stmt {
        Stmt::Else(place) | Stmt::EndIf(place) => Some(place),
        Stmt::EndPeek(place) | Stmt::EndLoop(place, _) => Some(place),
        Stmt::Do(_) | Stmt::Put(_, _) | Stmt::Lock(_) | Stmt::EndLock(_, _) | Stmt::If(_) => None,
        Stmt::Peek(_) | Stmt::Case(_, _) | Stmt::Other(_) | Stmt::Nothing(_) => None,
        Stmt::EndArm(_) | Stmt::Loop(_) | Stmt::Break(_, _, _) => None,
    }
}

// Marks the line at this place as the end of an earlier one.
fn mark_end(ends: &mut Vec<usize>, place: usize, start: usize)
    ensures { ends.new.items ≡ slice_set ends.old.items start place }
{
    if start < ends.len() {
        ends[start] = place;
    }
}

// Adds a line at this place to the table of ends.
fn put_end(ends: &mut Vec<usize>, place: usize, stmt: Stmt) -> Result<(), AllocError>
    ensures { OnOk result (ends.new.items ≡ spec.ends_behind ends.old.items place stmt) }
{
    ends.push(0)?;
    if let Some(start) = closed_by(stmt) {
        mark_end(ends, place, start);
    }
    Ok(())
}

// Adds the items of a loop.
fn push_items(alloc: Global, lists: &mut Vec<Items>, items: &[Item]) -> Result<(), AllocError>
    ensures { AddsList result lists.old lists.new (spec.held_in_loop items.now) }
{
    lists.push(held_in_loop(alloc, items)?)?;
    Ok(())
}

// Adds the items of a put or a take.
fn push_pool(alloc: Global, lists: &mut Vec<Items>, items: &[Item]) -> Result<(), AllocError>
    ensures { AddsList result lists.old lists.new (spec.held items.now []) }
{
    lists.push(held(alloc, items)?)?;
    Ok(())
}

// Keeps the items of a loop, a put or a take.
fn put_list(
    alloc: Global,
    lists: &mut Vec<Items>,
    items: &[Item],
    stmt: Stmt,
) -> Result<(), AllocError>
    ensures { OnOk result
        (view_lists lists.new ≡ spec.lists_behind (view_lists lists.old) items.now stmt) }
{
    match stmt {
        Stmt::Loop(_) => push_items(alloc, lists, items),
        Stmt::Put(_, _) | Stmt::If(Test::Take(_, _)) => push_pool(alloc, lists, items),
        Stmt::If(Test::Compare(_, _, _) | Test::ReadyZero) => Ok(()),
        Stmt::If(Test::SpaceAtLeast(_) | Test::Any) => Ok(()),
        Stmt::Do(_) | Stmt::Lock(_) | Stmt::EndLock(_, _) => Ok(()),
        Stmt::Else(_) | Stmt::EndIf(_) | Stmt::Peek(_) | Stmt::Case(_, _) => Ok(()),
        Stmt::Other(_) | Stmt::Nothing(_) | Stmt::EndArm(_) | Stmt::EndPeek(_) => Ok(()),
        Stmt::EndLoop(_, _) | Stmt::Break(_, _, _) => Ok(()),
    }
}

// The flag of a thread, after a line with these items.
fn flag_behind(flag: Option<usize>, items: &[Item], stmt: Stmt) -> Option<usize>
    ensures { result ≡ spec.flag_behind flag items.now stmt }
{
    match stmt {
        Stmt::Loop(_) => flag.or(flag_in(items)),
        Stmt::Do(_) | Stmt::Put(_, _) | Stmt::Lock(_) | Stmt::EndLock(_, _) | Stmt::If(_) => flag,
        Stmt::Else(_) | Stmt::EndIf(_) | Stmt::Peek(_) | Stmt::Case(_, _) => flag,
        Stmt::Other(_) | Stmt::Nothing(_) | Stmt::EndArm(_) | Stmt::EndPeek(_) => flag,
        Stmt::EndLoop(_, _) | Stmt::Break(_, _, _) => flag,
    }
}

impl Arms {
    // Keeps the arm that begins with a line; a peek begins without arms.
    fn put(&mut self, stmt: Stmt) -> Result<(), AllocError>
        ensures { OnOk result (view_arms self.new ≡ spec.arms_behind (view_arms self.old) stmt) }
    {
        match stmt {
            Stmt::Peek(_) => {
                self.cases.clear();
                self.other = false;
                self.none = false;
                Ok(())
            }
            Stmt::Case(_, user_data) => Ok(self.cases.push(user_data)?),
            Stmt::Other(_) => {
                self.other = true;
                Ok(())
            }
            Stmt::Nothing(_) => {
                self.none = true;
                Ok(())
            }
            Stmt::Do(_) | Stmt::Put(_, _) | Stmt::Lock(_) | Stmt::EndLock(_, _) => Ok(()),
            Stmt::If(_) => Ok(()),
            Stmt::Else(_) | Stmt::EndIf(_) | Stmt::EndArm(_) | Stmt::EndPeek(_) => Ok(()),
            Stmt::Loop(_) | Stmt::EndLoop(_, _) | Stmt::Break(_, _, _) => Ok(()),
        }
    }
}

// The place that a block belongs to.
fn block_place(block: Option<Block>) -> usize
    ensures { result ≡ spec.block_place block }
{
    match block {
        Some(Block::InLock(place, _) | Block::InIf(place) | Block::InElse(place)) => place,
        Some(Block::InPeek(place) | Block::InArm(place)) => place,
        Some(Block::InLoop(place, _)) => place,
        None => 0,
    }
}

// The closing brace of a block.
fn closing(block: Block) -> Stmt
    ensures { result ≡ spec.closing block }
{
    match block {
        Block::InLock(place, locks) => Stmt::EndLock(place, locks),
        Block::InIf(place) | Block::InElse(place) => Stmt::EndIf(place),
        Block::InPeek(place) => Stmt::EndPeek(place),
        Block::InArm(place) => Stmt::EndArm(place),
        Block::InLoop(place, number) => Stmt::EndLoop(place, number),
    }
}

fn closing_of(block: Option<Block>) -> Stmt
    ensures { result ≡ spec.closing_of block }
{
    match block {
        Some(block) => closing(block),
        None => Stmt::Lock(Locks { sq: true, cq: true }),
    }
}

// A break out of the innermost of these blocks' loops.
fn break_out(blocks: &[Block]) -> Stmt
    ensures { result ≡ spec.break_out blocks.now }
{
    let way = way_out(blocks);
    Stmt::Break(way.place.unwrap_or(0), way.releases, way.leaves)
}

// The names in their order. Room is made for all at once, so that a refused growth is answered and not tried again with
// less.
fn listed(alloc: Global, names: IndexSet<Vec<u8>>) -> Result<Vec<Vec<u8>>, AllocError>
    ensures { IfOk result (λ list. list.items ≡ names.keys) }
{
    let mut list = Vec::with_capacity(alloc, names.len())?;
    list.extend(names)?;
    Ok(list)
}

impl Draft {
    // The statement of a line of the thread.
    pub fn stmt_in(&self, says: Says) -> Stmt
        ensures { result ≡ spec.stmt_in (view_draft self.now) says }
    {
        let block = innermost(&self.blocks);
        match says {
            Says::Op(op) => Stmt::Do(op),
            Says::Put(pool) => Stmt::Put(pool, self.lists.len()),
            Says::Lock(locks) => Stmt::Lock(locks),
            Says::If(test) => Stmt::If(test),
            Says::Take(pool) => Stmt::If(Test::Take(pool, self.lists.len())),
            Says::Else => Stmt::Else(block_place(block)),
            Says::Peek(variable) => Stmt::Peek(variable),
            Says::Case(user_data) => Stmt::Case(block_place(block), user_data),
            Says::Other => Stmt::Other(block_place(block)),
            Says::Nothing => Stmt::Nothing(block_place(block)),
            Says::Loop => Stmt::Loop(self.lists.len()),
            Says::Break => break_out(&self.blocks),
            Says::Version(_) | Says::Ring(_) | Says::File(_) => closing_of(block),
            Says::Buffer(_, _) | Says::Token(_) | Says::Thread(_) => closing_of(block),
            Says::Pool | Says::PoolStock | Says::UnnamedStock => closing_of(block),
            Says::Close => closing_of(block),
        }
    }

    // Adds a line with this number.
    pub fn put(
        &mut self,
        alloc: Global,
        number: u32,
        items: &[Item],
        stmt: Stmt,
    ) -> Result<(), AllocError>
        ensures { OnOk result
            (view_draft self.new ≡ spec.with_stmt (view_draft self.old) number items.now stmt) }
    {
        let place = self.lines.len();
        self.flag = flag_behind(self.flag, items, stmt);
        put_list(alloc, &mut self.lists, items, stmt)?;
        put_block(&mut self.blocks, place, stmt)?;
        put_end(&mut self.ends, place, stmt)?;
        self.arms.put(stmt)?;
        self.lines.push(Line { number, stmt })?;
        Ok(())
    }

    // The thread that is complete. Each name in its lines stands for itself.
    pub fn into_thread(self, alloc: Global) -> Result<Thread, AllocError>
        ensures { IfOk result (λ t. view_thread t ≡ spec.whole_thread (view_draft self)) }
    {
        let variables = listed(alloc, self.names)?;
        Ok(Thread {
            name: self.name,
            copy: None,
            line: self.line,
            items: self.items,
            lists: self.lists,
            lines: self.lines,
            ends: self.ends,
            variables,
            flag: self.flag,
            rows: Rows {
                buffers: Vec::new(alloc),
                tokens: Vec::new(alloc),
                members: Vec::new(alloc),
            },
        })
    }
}
