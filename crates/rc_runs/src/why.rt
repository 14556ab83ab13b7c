//! Why an item isn't enabled.

ghost use Rattle.std.specs.Prelude.{◌≡◌, Option, ℤ};
ghost use Rattle.rc_runs.specs.Reasons.{IsReason, IsReasonAt, taken_of};
ghost use Rattle.rc_world.specs.declared.controls.Next.TheVariants.{TakenLock};
ghost use Rattle.rc_world.specs.declared.event.Item.TheVariants as items;
ghost use Rattle.rc_world.specs.Faults.{is_holder};
ghost use Rattle.rc_world.specs.Items.{next_of};

use rc_lang::lines::{Line, Locks, Op, Stmt, Test};
use rc_world::controls::{Holders, Next};
use rc_world::event::Item;
use rc_world::world::World;
use rc_world::world::requests::{is_read, largest, may_complete};

/// Why an item isn't enabled in a world.
#[derive(Clone, Copy)]
pub enum Reason {
    /// The thread with this number has these of the locks that the item's thread takes next.
    LockTaken { holder: u32, taken: Locks },
    /// The thread with this number has ended, or the program has no such thread.
    Ended(u32),
    /// The item has an answer, and the next line of its thread, with this number, is neither a submit nor an `if any`.
    NoSubmit(u32),
    /// The answer is neither 0 nor 1, and the next line of the thread, with this number, is an `if any`.
    NoChoice(u32),
    /// The submit can't take so many: so many entries are queued.
    TooMany(u64),
    /// No submit and no request answers this number, below -4095 (`io_uring_submit(3)`, `io_uring_enter(2)`).
    NoErrno(i32),
    /// No pending request has this user data.
    NotPending(u64),
    /// The request with this user data can't move so many bytes: it moves at most these.
    TooManyBytes { user_data: u64, most: u32 },
    /// The item has a fill byte, and the request with this user data is no read.
    NoRead(u64),
}

/// Why an item isn't enabled in a world, faults aside; none where it is enabled.
pub fn reason_of(world: &World<'_>, item: &Item) -> Option<Reason>
    ensures { IsReason world.now item.now result }
{
    match *item {
        Item::Thread { thread, take } => thread_reason(world, thread, take),
        Item::Kernel {
            user_data,
            res,
            fill,
        } => kernel_reason(world, user_data, res, fill),
    }
}

fn thread_reason(world: &World<'_>, thread: u32, take: Option<i32>) -> Option<Reason>
    ensures { IsReason world.now (items.Thread thread take) result }
{
    match world.next(thread) {
        Next::Ready(line) => take_reason(world, line, take?),
        Next::TakenLock(wanted) => lock_reason(world, thread, wanted),
        Next::Ended => Some(Reason::Ended(thread)),
    }
}

// Why a thread that waits for these locks can't go on.
fn lock_reason(world: &World<'_>, thread: u32, wanted: Locks) -> Option<Reason>
    requires { next_of world.now.program world.now.controls thread ≡ TakenLock wanted }
    ensures { (take : Option ℤ) → IsReason world.now (items.Thread thread take) result }
{
    let holders = world.holders();
    let holder = holders.taken_by(wanted)?;
    let taken = taken_of(holders, wanted, holder);
    Some(Reason::LockTaken { holder, taken })
}

// Which of the wanted locks a thread has.
fn taken_of(holders: Holders, wanted: Locks, thread: u32) -> Locks
    ensures { result ≡ taken_of wanted holders thread }
{
    Locks {
        sq: wanted.sq && is_holder(holders.sq, thread),
        cq: wanted.cq && is_holder(holders.cq, thread),
    }
}

// Whether the thread is the holder of a lock.
fn is_holder(holder: Option<u32>, thread: u32) -> bool
    ensures { result ≡ is_holder holder thread }
{
    match holder {
        Some(holder) => holder == thread,
        None => false,
    }
}

// Why a thread that has this line next can't go on with this answer.
fn take_reason(world: &World<'_>, line: Line, taken: i32) -> Option<Reason>
    ensures { IsReasonAt world.now line taken result }
{
    let queued = world.queued().len();
    match line.stmt {
        Stmt::Do(Op::Submit(_) | Op::SubmitAndWait(_, _)) => match usize::try_from(taken) {
            Ok(count) => (count > queued).then_some(Reason::TooMany(queued as u64)),
            Err(_) => (taken < -4095).then_some(Reason::NoErrno(taken)),
        },
        Stmt::If(Test::Any) => match taken {
            0 | 1 => None,
            _ => Some(Reason::NoChoice(line.number)),
        },
        _ => Some(Reason::NoSubmit(line.number)),
    }
}

fn kernel_reason(world: &World<'_>, user_data: u64, res: i32, fill: u8) -> Option<Reason>
    ensures { IsReason world.now (items.Kernel user_data res fill) result }
{
    let Some(place) = world.pending_place(user_data) else {
        return Some(Reason::NotPending(user_data));
    };
    let Some(request) = world.pending(place) else {
        return Some(Reason::NotPending(user_data));
    };
    if res < -4095 {
        return Some(Reason::NoErrno(res));
    }
    if !may_complete(request, res) {
        return Some(Reason::TooManyBytes {
            user_data,
            most: largest(request),
        });
    }
    (fill != 0 && !is_read(request.kind)).then_some(Reason::NoRead(user_data))
}
