//! The hidden steps of a thread.

ghost use Rattle.std.specs.Prelude.{◌≡◌, IfOk, true};
ghost use Rattle.rc_follow.specs.Followed.{is_empty};
ghost use Rattle.rc_follow.specs.Follower.{Adds, IsHiddenStep};
ghost use Rattle.rc_follow.specs.Ways.{Leads};

use crate::loops::Loops;
use crate::node::Node;
use crate::noted::Noted;
use crate::reach::{Calls, Reach};
use crate::reads::Reads;
use crate::room::Room;
use rc_lang::lines::{Line, Locks, Op, Stmt, Test};
use rc_log::call::Call;
use rc_world::event::Item;
use rc_world::world::World;
use std::alloc::{AllocError, Global};

/// What a search is for: the worlds before the line, what the log says beside them, and the line's thread and call.
#[derive(Clone, Copy)]
pub struct Ground<'g, 'a> {
    pub alloc: Global,
    /// The worlds that it begins from.
    pub begun: &'g Vec<Node<'a>>,
    pub noted: &'g Noted,
    pub reads: &'g Reads,
    pub reach: &'g Reach,
    pub loops: &'g Loops,
    pub thread: u32,
    pub call: Call,
    /// What hidden steps are to lead to.
    pub sought: Calls,
}

/// A step of a thread.
#[derive(Clone, Copy)]
pub enum Step {
    /// The machine's step. At an `if any` it takes the first branch.
    Own,
    /// The machine's step at an `if any`, where it takes the second branch.
    Past,
    /// One that the machine may not have: an `if take` goes to its second branch, or a load gives this byte.
    Stray(u8),
}

/// How a thread goes on by a hidden step.
#[derive(Clone, Copy)]
pub enum Way {
    /// It doesn't, or not to what is sought.
    None,
    /// By this step alone.
    On(Step),
    /// By its only step, which leads back into the loop at this place.
    Back(usize),
    /// By its step into the first branch of an if, or by this step to the second.
    Both(Step),
    /// By a load into this variable, which is tried with several bytes.
    Load(usize),
}

/// How the line's thread goes on by a hidden step to what is sought.
pub fn way_on(ground: Ground<'_, '_>, world: &World<'_>) -> Way {
    let Some(place) = world.place(ground.thread) else {
        return Way::None;
    };
    if !ground.reach.leads_on(ground.thread, place, ground.sought) {
        return Way::None;
    }
    match line_of(world, ground.thread) {
        Some(line) => way_at(ground, world, place, line.stmt),
        None => Way::None,
    }
}

/// The line that a thread has next. It isn't copied, since most callers look at its kind alone.
pub fn line_of<'w>(world: &'w World<'_>, thread: u32) -> Option<&'w Line> {
    let part = world.program().threads().get(thread as usize)?;
    part.lines.get(world.place(thread)?)
}

/// How the thread goes on at this statement.
fn way_at(ground: Ground<'_, '_>, world: &World<'_>, place: usize, stmt: Stmt) -> Way {
    match stmt {
        Stmt::EndLoop(top, _) => Way::Back(top),
        Stmt::Do(Op::Load(variable, _, _)) => match ground.bytes_for(variable) {
            [byte] => Way::On(Step::Stray(*byte)),
            _ => Way::Load(variable),
        },
        Stmt::If(Test::Take(pool, list)) => {
            let reach = ground.reach;
            let takes = reach.leads_into(ground.thread, place, ground.sought)
                && has_items(ground, world, pool, list);
            let passes = reach.leads_past(ground.thread, place, ground.sought);
            way_at_branch(takes, passes, Step::Stray(0))
        }
        Stmt::If(Test::Any) => {
            let reach = ground.reach;
            let enters = reach.leads_into(ground.thread, place, ground.sought);
            let passes = reach.leads_past(ground.thread, place, ground.sought);
            way_at_branch(enters, passes, Step::Past)
        }
        stmt if may_hide(ground, world, stmt) => Way::On(Step::Own),
        _ => Way::None,
    }
}

/// How it goes on at an if, where it may go into the first branch, or by this step to the second.
fn way_at_branch(enters: bool, passes: bool, past: Step) -> Way {
    match (enters, passes) {
        (true, true) => Way::Both(past),
        (true, false) => Way::On(Step::Own),
        (false, true) => Way::On(past),
        (false, false) => Way::None,
    }
}

impl<'g, 'a> Ground<'g, 'a> {
    // The bytes that a load of the line's thread is tried with.
    fn bytes_for(self, variable: usize) -> &'g [u8] {
        self.reads.bytes_for(self.thread, variable)
    }
}

/// Whether a take would find its items.
pub fn has_items(
    ground: Ground<'_, '_>,
    world: &World<'_>,
    pool: Option<usize>,
    list: usize,
) -> bool {
    let program = world.program();
    match program.lists_of(ground.thread as usize).get(list) {
        Some(items) => world.pools().includes(pool, program, items),
        None => false,
    }
}

/// Whether the statement's step may be hidden.
fn may_hide(ground: Ground<'_, '_>, world: &World<'_>, stmt: Stmt) -> bool {
    match stmt {
        Stmt::Do(
            Op::GetSqe
            | Op::PrepRead(_, _, _, _)
            | Op::PrepWrite(_, _, _, _, _)
            | Op::PrepFsync(_, _)
            | Op::PrepNop
            | Op::PrepOther
            | Op::SetData64(_)
            | Op::CqeSeen,
        ) => false,
        Stmt::Do(Op::Submit(_) | Op::SubmitAndWait(_, _)) => world.queued().is_empty(),
        Stmt::Peek(_) => world.completions().is_empty(),
        Stmt::Lock(wanted) => may_take(ground, wanted) && world.holders().are_free(wanted),
        _ => true,
    }
}

/// Whether the line's thread may take these locks. Before a first mutex is locked, a mark of a pool may be in a lock.
pub fn may_take(ground: Ground<'_, '_>, wanted: Locks) -> bool {
    let is_mark = matches!(ground.call, Call::Put(_) | Call::Take(_));
    ground.noted.has_mutexes(ground.thread, wanted) || ground.noted.is_alone() && is_mark
}

/// Makes the thread's step, and answers whether it was made and is hidden.
pub fn go(ground: Ground<'_, '_>, node: &mut Node<'_>, step: Step) -> Result<bool, AllocError>
    ensures { IfOk result (λ is. is ≡ true → IsHiddenStep ground.entry.noted.now node.old node.new) }
{
    match step {
        Step::Own => {
            let thread = ground.thread;
            hide(ground, node, &Item::Thread { thread, take: None })
        }
        Step::Past => {
            let (thread, take) = (ground.thread, Some(0));
            hide(ground, node, &Item::Thread { thread, take })
        }
        Step::Stray(byte) => Ok(hide_stray(ground, node, byte)),
    }
}

/// Makes the step that an item names, and answers whether it was made and is hidden.
pub fn hide(ground: Ground<'_, '_>, node: &mut Node<'_>, item: &Item) -> Result<bool, AllocError>
    ensures { IfOk result (λ is. is ≡ true → IsHiddenStep ground.entry.noted.now node.old node.new) }
{
    let is_idle = has_nothing_queued(node);
    match node.step(item)? {
        Some(event) => Ok(ground.noted.is_hidden(is_idle, event)),
        None => Ok(false),
    }
}

/// Makes a step of the thread that the machine may not have, and answers whether it was made and is hidden.
fn hide_stray(ground: Ground<'_, '_>, node: &mut Node<'_>, byte: u8) -> bool
    ensures { result ≡ true → IsHiddenStep ground.entry.noted.now node.old node.new }
{
    let is_idle = has_nothing_queued(node);
    match node.stray(ground.thread, byte) {
        Some(event) => ground.noted.is_hidden(is_idle, event),
        None => false,
    }
}

/// Whether nothing is queued.
fn has_nothing_queued(node: &Node<'_>) -> bool
    ensures { result ≡ is_empty node.now.world.queued }
{
    node.world().queued().is_empty()
}

/// Goes on from a world by each hidden step of the thread, where this is its way, and adds the worlds after them.
pub fn push_hidden<'a>(
    ground: Ground<'_, '_>,
    node: Node<'a>,
    way: Way,
    room: &mut Room<'a>,
    fresh: &mut Vec<Node<'a>>,
) -> Result<(), AllocError>
    ensures { IfOk result (λ _. Adds (Leads ground.entry.noted.now node.entry) fresh.old.items fresh.new.items) }
{
    match way {
        Way::None => room.give(node)?,
        Way::On(step) => push_gone(ground, node, step, room, fresh)?,
        Way::Back(_) => push_gone(ground, node, Step::Own, room, fresh)?,
        Way::Both(past) => {
            let again = room.copy(ground.alloc, &node)?;
            push_gone(ground, again, Step::Own, room, fresh)?;
            push_gone(ground, node, past, room, fresh)?;
        }
        Way::Load(variable) => {
            push_loads(ground, &node, variable, room, fresh)?;
            room.give(node)?;
        }
    }
    Ok(())
}

/// Adds a world, once its thread has made the step, if that is hidden.
fn push_gone<'a>(
    ground: Ground<'_, '_>,
    mut node: Node<'a>,
    step: Step,
    room: &mut Room<'a>,
    fresh: &mut Vec<Node<'a>>,
) -> Result<(), AllocError>
    ensures { IfOk result (λ _. Adds (Leads ground.entry.noted.now node.entry) fresh.old.items fresh.new.items) }
{
    if go(ground, &mut node, step)? {
        fresh.push(node)?;
    } else {
        room.give(node)?;
    }
    Ok(())
}

/// Adds a world for each byte that a load is tried with.
fn push_loads<'a>(
    ground: Ground<'_, '_>,
    node: &Node<'a>,
    variable: usize,
    room: &mut Room<'a>,
    fresh: &mut Vec<Node<'a>>,
) -> Result<(), AllocError>
    ensures { IfOk result (λ _. Adds (Leads ground.entry.noted.now node.now) fresh.old.items fresh.new.items) }
{
    for byte in ground.bytes_for(variable) {
        let again = room.copy(ground.alloc, node)?;
        push_gone(ground, again, Step::Stray(*byte), room, fresh)?;
    }
    Ok(())
}
