//! The steps and questions that a line of a log is.

ghost use Rattle.std.specs.Prelude.{◌≡◌, IfOk, nat_eq, true};
ghost use Rattle.std.specs.List.{list_any};
ghost use Rattle.rc_lang.specs.Program.{Program as SpecProgram, items_at, lists_of};
ghost use Rattle.rc_follow.specs.Followed as spec;
ghost use Rattle.rc_follow.specs.Follower.{IsHiddenStep};
ghost use Rattle.rc_follow.specs.Ways.{Makes};

use crate::alike::pending_of;
use crate::hidden::{Ground, has_items, hide, line_of};
use crate::node::Node;
use crate::noted::Noted;
use rc_lang::lines::{Line, Locks, Op, Stmt, Test};
use rc_lang::program::{Program, Share};
use rc_log::call::Call;
use rc_world::event::Item;
use rc_world::world::World;
use rc_world::world::requests::largest;
use std::alloc::AllocError;

const SQ: Locks = Locks {
    sq: true,
    cq: false,
};

const CQ: Locks = Locks {
    sq: false,
    cq: true,
};

/// Whether the line asks something that changes nothing in the world, and the answer is so. Marks of buffers are
/// asked elsewhere.
pub fn asks(noted: &Noted, node: &Node<'_>, thread: u32, call: Call) -> bool
    ensures { result ≡ true → (P : SpecProgram) → spec.Asks P noted.now node.now.world thread call }
{
    let world = node.world();
    match call {
        Call::PeekNone => noted.has_mutexes(thread, CQ),
        Call::SqReady(count) => {
            noted.has_mutexes(thread, SQ) && world.used_entries() == count as usize
        }
        Call::SqSpaceLeft => noted.has_mutexes(thread, SQ),
        Call::Exit(count) => has_out(world, count as usize),
        Call::Submit(taken) => {
            noted.has_mutexes(thread, SQ) && taken == 0 && world.queued().is_empty()
        }
        Call::Lock(wanted) => noted.mutexes().are_free(wanted),
        Call::Unlock(released) => {
            noted.has_mutexes(thread, released) && holds_none(node, thread, released)
        }
        Call::Ends => world.line(thread).is_none(),
        _ => false,
    }
}

/// Whether so many requests are out: submits took them, and their completions aren't taken away.
fn has_out(world: &World<'_>, count: usize) -> bool
    ensures { result ≡ true → spec.requests_out world.now ≡ count }
{
    match count.checked_sub(world.pending_len()) {
        Some(rest) => rest == world.completions().len(),
        None => false,
    }
}

/// Whether the thread has none of these locks of the text.
pub fn holds_none(node: &Node<'_>, thread: u32, released: Locks) -> bool
    ensures { result ≡ spec.holds_none node.now.world thread released }
{
    let holders = node.world().holders();
    let has_sq = released.sq && holders.sq == Some(thread);
    let has_cq = released.cq && holders.cq == Some(thread);
    !has_sq && !has_cq
}

/// Whether the thread's next statement may be the call.
pub fn may_be_next(ground: Ground<'_, '_>, world: &World<'_>) -> bool {
    match line_of(world, ground.thread) {
        Some(line) => {
            may_be(ground.call, line.stmt)
                && moves_named(world.program(), ground.thread, ground.call, line.stmt)
                && has_what_it_needs(ground, world, line.stmt)
        }
        None => false,
    }
}

/// Whether a take finds its items, and a peek the completion of the call, or the request that can complete.
fn has_what_it_needs(ground: Ground<'_, '_>, world: &World<'_>, stmt: Stmt) -> bool {
    match (ground.call, stmt) {
        (Call::Take(_), Stmt::If(Test::Take(pool, list))) => has_items(ground, world, pool, list),
        (Call::Peek { user_data, .. }, Stmt::Peek(_)) => match world.completions().first() {
            Some(front) => front.user_data == user_data,
            None => world.pending_place(user_data).is_some(),
        },
        _ => true,
    }
}

/// Makes a step of the thread, and answers whether it was made and is the call. Then its line is noted.
pub fn make(ground: Ground<'_, '_>, node: &mut Node<'_>) -> Result<bool, AllocError>
    ensures { IfOk result (λ is. is ≡ true → (P : SpecProgram) → Makes P ground.entry.noted.now node.old ground.entry.thread ground.entry.call node.new) }
{
    let line = node.world().line(ground.thread);
    if calls(ground, node)? {
        node.note(line)?;
        Ok(true)
    } else {
        Ok(false)
    }
}

/// Makes a step of the thread, and answers whether it was made and is the call.
fn calls(ground: Ground<'_, '_>, node: &mut Node<'_>) -> Result<bool, AllocError>
    ensures calls { IfOk result (λ is. is ≡ true → spec.Calls ground.entry.noted.now node.old.world ground.entry.thread ground.entry.call node.new.world) }
    ensures made { node.new.made ≡ node.old.made }
{
    let item = Item::Thread {
        thread: ground.thread,
        take: take_of(ground.call),
    };
    let line = node.world().line(ground.thread);
    let wanted = ground.noted.wanted(node.world(), ground.call);
    let is_right = names_right(node.world().program(), ground.thread, ground.call, line);
    match node.step(&item)? {
        Some(event) if is_right => Ok(
            ground
                .noted
                .fits(wanted, ground.thread, ground.call, line, event),
        ),
        _ => Ok(false),
    }
}

/// Whether the thread's line moves the buffer that a mark of a pool names, if it names one.
fn names_right(program: &Program, thread: u32, call: Call, line: Option<Line>) -> bool
    ensures { result ≡ spec.names_right program.now thread call line }
{
    match line {
        Some(line) => moves_named(program, thread, call, line.stmt),
        None => true,
    }
}

/// Whether the buffer that a mark of a pool names is among what this statement of the thread puts or takes.
pub fn moves_named(program: &Program, thread: u32, call: Call, stmt: Stmt) -> bool
    ensures { result ≡ spec.moves_named program.now thread call stmt }
{
    match (call, stmt) {
        (Call::Put(mark), Stmt::Put(_, list)) => has_named(program, thread, list, mark.buffer),
        (Call::Take(mark), Stmt::If(Test::Take(_, list))) => {
            has_named(program, thread, list, mark.buffer)
        }
        _ => true,
    }
}

/// Whether a share of the named buffer is among the thread's items of this number.
fn has_named(program: &Program, thread: u32, list: usize, buffer: Option<usize>) -> bool
    ensures { result ≡ spec.has_named buffer (items_at (lists_of program.now thread) list) }
{
    let Some(buffer) = buffer else {
        return true;
    };
    match program.lists_of(thread as usize).get(list) {
        Some(items) => has_share(&items.shares, buffer),
        None => false,
    }
}

fn has_share(shares: &[Share], buffer: usize) -> bool
    ensures { result ≡ list_any (λ s. nat_eq s.buffer buffer) shares.now }
{
    for share in shares {
        if share.buffer == buffer {
            return true;
        }
    }
    false
}

/// How many entries a submit takes, where the call is one.
fn take_of(call: Call) -> Option<i32> {
    match call {
        Call::Submit(taken) => Some(taken),
        _ => None,
    }
}

/// Whether the statement may be the call.
fn may_be(call: Call, stmt: Stmt) -> bool {
    match (call, stmt) {
        (Call::GetSqe, Stmt::Do(Op::GetSqe)) => true,
        (Call::PrepRead { file, buffer, .. }, Stmt::Do(Op::PrepRead(of, into, _, _))) => {
            file == of && buffer == into
        }
        (Call::PrepWrite { file, buffer, .. }, Stmt::Do(Op::PrepWrite(of, from, _, _, _))) => {
            file == of && buffer == from
        }
        (Call::PrepFsync { .. }, Stmt::Do(Op::PrepFsync(_, _))) => true,
        (Call::PrepNop, Stmt::Do(Op::PrepNop)) => true,
        (Call::PrepOther, Stmt::Do(Op::PrepOther)) => true,
        (Call::SetData64(given), Stmt::Do(Op::SetData64(user_data))) => given == user_data,
        (Call::Submit(_), Stmt::Do(Op::Submit(_) | Op::SubmitAndWait(_, _))) => true,
        (Call::Peek { .. }, Stmt::Peek(_)) => true,
        (Call::CqeSeen(_), Stmt::Do(Op::CqeSeen)) => true,
        (Call::Put(mark), Stmt::Put(Some(into), _)) => mark.pool == into,
        (Call::Take(mark), Stmt::If(Test::Take(Some(from), _))) => mark.pool == from,
        _ => false,
    }
}

/// Completes the request with this user data with the result that C's stands for, and answers whether it could.
pub fn complete(
    ground: Ground<'_, '_>,
    node: &mut Node<'_>,
    user_data: u64,
    res: i32,
) -> Result<bool, AllocError>
    ensures { IfOk result (λ is. is ≡ true → IsHiddenStep ground.entry.noted.now node.old node.new) }
{
    match scaled_res(ground, node.world(), user_data, res) {
        Some(res) => {
            let fill = 0;
            hide(
                ground,
                node,
                &Item::Kernel {
                    user_data,
                    res,
                    fill,
                },
            )
        }
        None => Ok(false),
    }
}

/// The result that C's stands for, of the pending request with this user data.
fn scaled_res(ground: Ground<'_, '_>, world: &World<'_>, user_data: u64, res: i32) -> Option<i32> {
    let request = pending_of(world, user_data)?;
    let scaled = ground
        .noted
        .scaled(world.program(), user_data, largest(request), res);
    i32::try_from(scaled).ok()
}
