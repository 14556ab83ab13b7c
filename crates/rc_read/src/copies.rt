//! The threads of a line: one, or copies with their numbers.

ghost use Rattle.std.specs.Prelude.{◌≡◌, ◌++◌, Some, IfOk, OnOk, map};
ghost use Rattle.rc_lang.specs.Names.{numbered};
ghost use Rattle.rc_lang.specs.Parts.{view_items, view_more, view_names, view_rows, view_thread};
ghost use Rattle.rc_read.specs.Adds as spec;
ghost use Rattle.rc_read.specs.View.{view_lists};

use rc_lang::program::{Items, More, Thread};
use rc_lang::rows::Rows;
use rc_text::text::put_counted;
use std::alloc::{AllocError, Global};

// A thread's name with a copy's number.
fn numbered(alloc: Global, name: &[u8], copy: u32) -> Result<Vec<u8>, AllocError>
    ensures { IfOk result (λ n. n.items ≡ numbered name.now (Some copy)) }
{
    let mut text = Vec::from_slice(alloc, name)?;
    put_counted(&mut text, b"[", u64::from(copy), b"]")?;
    Ok(text)
}

// The same again.
fn more_again(alloc: Global, more: &More) -> Result<More, AllocError>
    ensures { IfOk result (λ m. view_more m ≡ view_more more.now) }
{
    Ok(More {
        shares: Vec::from_slice(alloc, &more.shares)?,
        tokens: Vec::from_slice(alloc, &more.tokens)?,
        credits: more.credits,
    })
}

// The same again.
fn items_again(alloc: Global, items: &Items) -> Result<Items, AllocError>
    ensures { IfOk result (λ i. view_items i ≡ view_items items.now) }
{
    Ok(Items {
        shares: Vec::from_slice(alloc, &items.shares)?,
        tokens: Vec::from_slice(alloc, &items.tokens)?,
        credits: items.credits,
        queue: items.queue,
        more: more_again(alloc, &items.more)?,
    })
}

// The same again.
fn lists_again(alloc: Global, lists: &[Items]) -> Result<Vec<Items>, AllocError>
    ensures { IfOk result (λ l. view_lists l ≡ map view_items lists.now) }
{
    let mut again = Vec::with_capacity(alloc, lists.len())?;
    for items in lists {
        again.push(items_again(alloc, items)?)?;
    }
    Ok(again)
}

// The same again.
fn names_again(alloc: Global, names: &[Vec<u8>]) -> Result<Vec<Vec<u8>>, AllocError>
    ensures { IfOk result (λ n. view_names n.items ≡ view_names names.now) }
{
    let mut again = Vec::with_capacity(alloc, names.len())?;
    for name in names {
        again.push(Vec::from_slice(alloc, name)?)?;
    }
    Ok(again)
}

// The same again.
fn rows_again(alloc: Global, rows: &Rows) -> Result<Rows, AllocError>
    ensures { IfOk result (λ r. view_rows r ≡ view_rows rows.now) }
{
    Ok(Rows {
        buffers: Vec::from_slice(alloc, &rows.buffers)?,
        tokens: Vec::from_slice(alloc, &rows.tokens)?,
        members: Vec::from_slice(alloc, &rows.members)?,
    })
}

// The copy of a thread with this number.
fn copy_of(alloc: Global, thread: &Thread, copy: u32) -> Result<Thread, AllocError>
    ensures { IfOk result (λ t. view_thread t ≡ spec.copy_of (view_thread thread.now) copy) }
{
    Ok(Thread {
        name: numbered(alloc, &thread.name, copy)?,
        copy: Some(copy),
        line: thread.line,
        items: items_again(alloc, &thread.items)?,
        lists: lists_again(alloc, &thread.lists)?,
        lines: Vec::from_slice(alloc, &thread.lines)?,
        ends: Vec::from_slice(alloc, &thread.ends)?,
        variables: names_again(alloc, &thread.variables)?,
        flag: thread.flag,
        rows: rows_again(alloc, &thread.rows)?,
    })
}

// Adds so many copies of a thread, in the order of their numbers.
fn push_copies(
    alloc: Global,
    threads: &mut Vec<Thread>,
    thread: &Thread,
    copies: u32,
) -> Result<(), AllocError>
    ensures { OnOk result (map view_thread threads.new.items
        ≡ map view_thread threads.old.items ++ spec.copies_of (view_thread thread.now) copies) }
{
    for copy in 0..copies {
        threads.push(copy_of(alloc, thread, copy)?)?;
    }
    Ok(())
}

/// Adds the threads of a line: this one, or so many copies of it.
pub fn push_threads(
    alloc: Global,
    threads: &mut Vec<Thread>,
    thread: Thread,
    copies: Option<u32>,
) -> Result<(), AllocError>
    ensures { OnOk result (map view_thread threads.new.items
        ≡ map view_thread threads.old.items ++ spec.threads_of (view_thread thread) copies) }
{
    match copies {
        None => Ok(threads.push(thread)?),
        Some(copies) => push_copies(alloc, threads, &thread, copies),
    }
}
