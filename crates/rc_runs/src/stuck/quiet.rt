//! Which steps of threads move something, and which can be compared.

ghost use Rattle.std.specs.Prelude.{◌≡◌, ◌&&◌, false, slice_index_or};
ghost use Rattle.rc_lang.specs.Program.{items_at, lists_of};
ghost use Rattle.rc_lang.specs.declared.lines.Stmt.TheVariants as stmts;
ghost use Rattle.rc_lang.specs.Kept.{IsProgram};
ghost use Rattle.rc_runs.specs.Stuck as spec;
ghost use Rattle.rc_runs.specs.Closing as closing;
ghost use Rattle.rc_split.specs.Pools.{includes, pool_of};
ghost use Rattle.rc_world.specs.declared.event.Item.TheVariants as items;
ghost use Rattle.rc_world.specs.Controls.{next_line};

use rc_lang::lines::{Op, Operand, Stmt, Test};
use rc_world::event::Item;
use rc_world::world::World;

/// How many variables a thread has at most.
pub const VARIABLES: usize = 64;

/// Whether the step that a thread has next may move something, its ending aside.
pub fn line_moves(world: &World<'_>, thread: u32) -> bool
    ensures { result ≡ false → spec.line_moves world.now thread (next_line world.now.program world.now.controls thread) ≡ false }
{
    match world.line(thread) {
        Some(line) => stmt_moves(world, thread, line.stmt),
        None => false,
    }
}

fn stmt_moves(world: &World<'_>, thread: u32, stmt: Stmt) -> bool
    ensures { result ≡ false → spec.stmt_moves world.now thread stmt ≡ false }
{
    match stmt {
        Stmt::Do(op) => op_moves(world, op),
        Stmt::Put(_, _) => true,
        Stmt::If(test) => test_moves(world, thread, test),
        _ => false,
    }
}

fn test_moves(world: &World<'_>, thread: u32, test: Test) -> bool
    ensures { result ≡ false → spec.stmt_moves world.now thread (stmts.If test) ≡ false }
{
    match test {
        Test::Take(pool, k) => may_take(world, thread, pool, k),
        _ => false,
    }
}

fn op_moves(world: &World<'_>, op: Op) -> bool
    ensures { result ≡ spec.op_moves world.now op }
{
    match op {
        Op::Submit(_) | Op::SubmitAndWait(_, _) => !world.queued().is_empty(),
        Op::SetData64(_) | Op::CqeSeen => true,
        _ => false,
    }
}

/// Whether a pool may have the items with this number among the thread's lists.
fn may_take(world: &World<'_>, thread: u32, pool: Option<usize>, k: usize) -> bool
    ensures value { result ≡ false → includes world.now.program (pool_of world.now.controls.pools pool) (items_at (lists_of world.now.program thread) k) ≡ false }
    ensures made { IsProgram world.now.program }
{
    let program = world.program();
    match program.lists_of(thread as usize).get(k) {
        Some(items) => world.pools().includes(pool, program, items),
        None => true,
    }
}

/// Whether the statement that a thread has next stores and fills nothing, compares only variables that matter, and computes
/// those that matter only from such.
pub fn follows(kept: &[bool], world: &World<'_>, thread: u32) -> bool
    ensures { result ≡ closing.line_follows kept.now thread (next_line world.now.program world.now.controls thread) }
{
    match world.line(thread) {
        Some(line) => stmt_follows(kept, thread, line.stmt),
        None => true,
    }
}

fn stmt_follows(kept: &[bool], thread: u32, stmt: Stmt) -> bool
    ensures { result ≡ closing.stmt_follows kept.now thread stmt }
{
    match stmt {
        Stmt::Do(op) => op_follows(kept, thread, op),
        Stmt::If(test) => test_follows(kept, thread, test),
        _ => true,
    }
}

fn test_follows(kept: &[bool], thread: u32, test: Test) -> bool
    ensures { result ≡ closing.test_follows kept.now thread test }
{
    match test {
        Test::Compare(x, _, _) => matters(kept, thread, x),
        _ => true,
    }
}

fn op_follows(kept: &[bool], thread: u32, op: Op) -> bool
    ensures { result ≡ closing.op_follows kept.now thread op }
{
    match op {
        Op::Assign(x, y) => !matters(kept, thread, x) || matters(kept, thread, y),
        Op::Add(x, y, z) => !matters(kept, thread, x) || both_matter(kept, thread, y, z),
        Op::Subtract(x, y, z) => !matters(kept, thread, x) || both_matter(kept, thread, y, z),
        Op::Store(_, _, _) => false,
        Op::Fill(_, _) => false,
        _ => true,
    }
}

fn both_matter(kept: &[bool], thread: u32, y: Operand, z: Operand) -> bool
    ensures { result ≡ (closing.operand_matters kept.now thread y && closing.operand_matters kept.now thread z) }
{
    operand_matters(kept, thread, y) && operand_matters(kept, thread, z)
}

fn operand_matters(kept: &[bool], thread: u32, operand: Operand) -> bool
    ensures { result ≡ closing.operand_matters kept.now thread operand }
{
    match operand {
        Operand::Variable(x) => matters(kept, thread, x),
        Operand::Number(_) => true,
    }
}

/// Whether something depends on a variable of a thread.
pub fn matters(kept: &[bool], thread: u32, x: usize) -> bool
    ensures { result ≡ closing.matters kept.now thread x }
{
    x < VARIABLES && is_kept(kept, thread as usize * VARIABLES + x)
}

fn is_kept(kept: &[bool], place: usize) -> bool
    ensures { result ≡ slice_index_or kept.now place false }
{
    match kept.get(place) {
        Some(kept) => *kept,
        None => false,
    }
}

/// Whether an item of a thread counts and is enabled.
pub fn is_asked(world: &World<'_>, thread: u32, take: Option<i32>) -> bool
    ensures { result ≡ closing.is_asked world.now (items.Thread thread take) }
{
    counts(world, thread, take) && world.enabled(&Item::Thread { thread, take })
}

/// Whether an item of a thread counts: it says nothing, or how an `if any` goes.
fn counts(world: &World<'_>, thread: u32, take: Option<i32>) -> bool
    ensures { result ≡ spec.counts world.now (items.Thread thread take) }
{
    match take {
        None => true,
        Some(_) => is_at_any(world, thread),
    }
}

/// Whether a thread has an `if any` next.
pub fn is_at_any(world: &World<'_>, thread: u32) -> bool
    ensures { result ≡ spec.is_any_at (next_line world.now.program world.now.controls thread) }
{
    match world.line(thread) {
        Some(line) => is_any(line.stmt),
        None => false,
    }
}

fn is_any(stmt: Stmt) -> bool
    ensures { result ≡ spec.is_any stmt }
{
    matches!(stmt, Stmt::If(Test::Any))
}
