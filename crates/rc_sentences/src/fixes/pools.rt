//! Pools that have what a refused line misses.

use crate::parts::{Counted, put_part, put_parts, said};
use crate::puts::{Puts, begun_in, count_in, count_of, first_put, has, with_count};
use crate::walked::Refused;
use rc_lang::lines::{Op, Stmt, Test};
use rc_lang::program::Program;
use rc_split::part::Part;
use rc_text::names::pool_name;
use rc_text::text::{put_counted, put_piece, put_pieces};
use std::alloc::{AllocError, Global};

/// Whether a line needs the parts that it asks for only to use a buffer, and gives them to no request.
fn only_uses(stmt: Stmt) -> bool {
    match stmt {
        Stmt::Do(Op::Load(_, _, _) | Op::Store(_, _, _) | Op::Fill(_, _)) => true,
        _ => false,
    }
}

/// Adds that a refused line is to be put into the first branch of what is named next: the line, or all of its request.
fn put_into(text: &mut Vec<u8>, refused: Refused) -> Result<(), AllocError> {
    let what: &[u8] = if only_uses(refused.stmt(refused.place)) {
        b"Put this line"
    } else {
        b"Put the request, from `get_sqe` to `set_data64`,"
    };
    put_pieces(text, &[what, b" into the first branch of "])
}

/// Adds the line that takes from a pool what a thread, by its number, puts there by the items of a list.
fn put_take(
    text: &mut Vec<u8>,
    refused: Refused,
    pool: usize,
    thread: usize,
    list: usize,
) -> Result<(), AllocError> {
    put_pieces(text, &[b"`if take ", pool_name(refused.program(), pool)])?;
    let items = said(refused.program(), thread, list, true);
    put_parts(text, refused.program(), Counted::Said(items))?;
    put_piece(text, b" {`")
}

/// Adds from where a line is to have a part which the line at a place put into a pool by these items: from the pool, by
/// the `if take` around it or by one that is below; and if it only uses the part from above the line.
pub fn put_above(
    text: &mut Vec<u8>,
    refused: Refused,
    part: Part,
    pool: usize,
    list: usize,
    place: usize,
) -> Result<(), AllocError> {
    match take_around(refused, part, pool) {
        Some(around) if around > place => {
            return put_other_pool(text, refused, around, part, pool);
        }
        _ => {}
    }
    if let Some(take) = take_below(*text.allocator(), refused, part, place)? {
        return put_into_branch(text, refused, part, take);
    }
    let (thread, number) = (refused.walked.number, u64::from(refused.number(place)));
    if only_uses(refused.stmt(refused.place)) && !begins_loop(refused, place) {
        put_counted(text, b"Move this line above line ", number, b", or take ")?;
        put_piece(text, b"the items first, by ")?;
        put_take(text, refused, pool, thread, list)?;
        return put_piece(text, b".");
    }
    put_into(text, refused)?;
    put_take(text, refused, pool, thread, list)?;
    put_counted(text, b", since line ", number, b" puts that into the pool.")
}

/// Whether a loop begins below a place that a refused line is in.
fn begins_loop(refused: Refused, place: usize) -> bool {
    for start in place..refused.place {
        if matches!(refused.stmt(start), Stmt::Loop(_)) && is_around(refused, start) {
            return true;
        }
    }
    false
}

/// Whether a refused line is in the block that the line at a place begins.
fn is_around(refused: Refused, place: usize) -> bool {
    place < refused.place && refused.place < refused.program().end_at(refused.walked.number, place)
}

/// The place of the `if take` in whose first branch a refused line is, innermost, if it takes something else than a part,
/// and from another pool with a name than this one.
fn take_around(refused: Refused, part: Part, pool: usize) -> Option<usize> {
    let mut found = None;
    for place in 0..refused.place {
        match refused.stmt(place) {
            Stmt::If(Test::Take(from, _)) if is_around(refused, place) => {
                found = Some((place, from))
            }
            _ => {}
        }
    }
    match found {
        Some((place, Some(from))) if from != pool && !takes(refused, place, part) => Some(place),
        _ => None,
    }
}

/// The place of the first line below one that takes so much of a part from a pool which gets it, where a refused line isn't
/// in its first branch.
pub fn take_below(
    alloc: Global,
    refused: Refused,
    part: Part,
    place: usize,
) -> Result<Option<usize>, AllocError> {
    let puts = Puts::of(alloc, refused.program())?;
    for take in place..refused.walked.thread.lines.len() {
        let is_found = match refused.stmt(take) {
            Stmt::If(Test::Take(from, _)) => puts.count(from, part) >= count_of(part),
            _ => false,
        };
        if is_found && takes(refused, take, part) && !is_around(refused, take) {
            return Ok(Some(take));
        }
    }
    Ok(None)
}

/// Adds that a line belongs into the first branch of the one at a place, which takes a part.
pub fn put_into_branch(
    text: &mut Vec<u8>,
    refused: Refused,
    part: Part,
    take: usize,
) -> Result<(), AllocError> {
    put_into(text, refused)?;
    let number = u64::from(refused.number(take));
    put_counted(text, b"line ", number, b", which takes ")?;
    put_part(text, refused.program(), part)?;
    put_piece(text, b".")
}

/// Adds that the `if take` at a place takes from another pool than the one which gets a part, and what to take from that.
fn put_other_pool(
    text: &mut Vec<u8>,
    refused: Refused,
    place: usize,
    part: Part,
    pool: usize,
) -> Result<(), AllocError> {
    let number = u64::from(refused.number(place));
    put_counted(text, b"Line ", number, b" takes from ")?;
    if let Stmt::If(Test::Take(Some(other), _)) = refused.stmt(place) {
        put_piece(text, pool_name(refused.program(), other))?;
    }
    put_piece(text, b", and ")?;
    put_part(text, refused.program(), part)?;
    let name = pool_name(refused.program(), pool);
    put_pieces(text, &[b" is put into ", name, b": let it be "])?;
    match first_put(refused.program(), part, pool) {
        Some((thread, list)) => put_take(text, refused, pool, thread, list)?,
        None => put_pieces(text, &[b"`if take ", name, b" ..`"])?,
    }
    put_piece(text, b".")
}

/// Adds that a part is to be taken from the pool without a name, where it begins with so much of it, and says whether it
/// does.
pub fn put_begun(text: &mut Vec<u8>, refused: Refused, part: Part) -> Result<bool, AllocError> {
    if begun_in(refused.program(), None, part) < count_of(part) {
        return Ok(false);
    }
    put_into(text, refused)?;
    put_piece(text, b"`if take ")?;
    put_part(text, refused.program(), part)?;
    put_piece(text, b" {`.")?;
    Ok(true)
}

/// How many of a part a list of the thread has.
fn count_at(refused: Refused, list: usize, part: Part) -> u32 {
    match refused.walked.thread.lists.get(list) {
        Some(items) => count_in(items, part),
        None => 0,
    }
}

/// Adds that a part is put twice: at a place, by these items, and at the refused line.
pub fn put_twice(
    text: &mut Vec<u8>,
    refused: Refused,
    part: Part,
    list: usize,
    place: usize,
) -> Result<(), AllocError> {
    let count = count_at(refused, list, part);
    put_counted(text, b"Line ", u64::from(refused.number(place)), b" puts ")?;
    put_part(text, refused.program(), with_count(part, count))?;
    put_piece(text, b" already: remove that from one of the two.")
}

/// The place of the `if take` whose test fails where an end comes from that is at a place, if it is one.
fn take_of(refused: Refused, end: usize) -> Option<usize> {
    match refused.stmt(end) {
        Stmt::If(Test::Take(_, _)) => Some(end),
        Stmt::EndIf(opening) => match refused.stmt(opening) {
            Stmt::Else(test) => Some(test),
            _ => None,
        },
        _ => None,
    }
}

/// Whether the line at a place takes some of a part from a pool.
fn takes(refused: Refused, place: usize, part: Part) -> bool {
    match refused.stmt(place) {
        Stmt::If(Test::Take(_, list)) => has(refused.walked.thread, list, part),
        _ => false,
    }
}

/// Adds that a refused `put` belongs into the branch of the line which took a part, where the end at a place is that of its
/// failing.
pub fn put_in_branch(
    text: &mut Vec<u8>,
    refused: Refused,
    part: Part,
    end: usize,
) -> Result<(), AllocError> {
    let Some(place) = take_of(refused, end) else {
        return Ok(());
    };
    if !takes(refused, place, part) {
        return Ok(());
    }
    let number = u64::from(refused.number(place));
    put_piece(text, b"Move this line into the first branch of line ")?;
    put_counted(text, b"", number, b", since ")?;
    put_part(text, refused.program(), part)?;
    put_piece(text, b" isn't held where the test fails.")
}

/// The pools with a name that get so much of a part.
fn pools_with(alloc: Global, program: &Program, part: Part) -> Result<Vec<usize>, AllocError> {
    let puts = Puts::of(alloc, program)?;
    let mut pools = Vec::new(alloc);
    for pool in 0..program.pools().len() {
        if puts.has(pool, part) {
            pools.push(pool)?;
        }
    }
    Ok(pools)
}

/// Adds the names of pools.
fn put_names(text: &mut Vec<u8>, program: &Program, pools: &[usize]) -> Result<(), AllocError> {
    let mut between: &[u8] = b" ";
    for pool in pools {
        put_pieces(text, &[between, pool_name(program, *pool)])?;
        between = b", ";
    }
    Ok(())
}

/// Adds from which pools a part is to be taken that a thread never holds, and says whether one gets it.
pub fn put_found(text: &mut Vec<u8>, refused: Refused, part: Part) -> Result<bool, AllocError> {
    let program = refused.program();
    match pools_with(*text.allocator(), program, part)?.as_slice() {
        [] => return Ok(false),
        [pool] => put_from(text, refused, part, *pool)?,
        pools => {
            put_into(text, refused)?;
            put_piece(text, b"`if take NAME ")?;
            put_part(text, program, part)?;
            put_piece(text, b" {`: the pools that get it are")?;
            put_names(text, program, pools)?;
            put_piece(text, b".")?;
        }
    }
    Ok(true)
}

/// Adds that a part is to be taken from the one pool that gets it.
fn put_from(
    text: &mut Vec<u8>,
    refused: Refused,
    part: Part,
    pool: usize,
) -> Result<(), AllocError> {
    if let Some(around) = take_around(refused, part, pool) {
        return put_other_pool(text, refused, around, part, pool);
    }
    put_into(text, refused)?;
    let name = pool_name(refused.program(), pool);
    put_pieces(text, &[b"`if take ", name, b" "])?;
    put_part(text, refused.program(), part)?;
    put_piece(text, b" {`.")
}
