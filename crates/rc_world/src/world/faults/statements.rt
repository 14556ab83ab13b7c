//! What a statement does with a buffer, and what it asks of the locks and of the open entry.

ghost use Rattle.std.specs.Prelude.{◌≡◌, ◌&&◌, option_map};
ghost use Rattle.rc_world.specs.Faults as spec;
ghost use Rattle.rc_world.specs.Faults.{conflicts};
ghost use Rattle.rc_world.specs.WorldParts.{view_access};

use crate::world::Slot;
use rc_lang::lines::{Op, Stmt, Test};
use rc_lang::program::Program;

/// What a statement does with a buffer.
#[derive(Clone, Copy)]
pub(crate) struct Access {
    pub(super) buffer: usize,
    pub(super) writes: bool,
}

// What a statement does with a buffer, if it touches one.
pub(super) fn access_of(stmt: Stmt) -> Option<Access>
    ensures { option_map view_access result ≡ spec.access_of stmt }
{
    match stmt {
        Stmt::Do(Op::Load(_, buffer, _)) => Some(Access {
            buffer,
            writes: false,
        }),
        Stmt::Do(Op::Store(buffer, _, _)) => Some(Access {
            buffer,
            writes: true,
        }),
        Stmt::Do(Op::Fill(buffer, _)) => Some(Access {
            buffer,
            writes: true,
        }),
        _ => None,
    }
}

pub(super) fn conflicts(access: Option<Access>, other: Option<Access>) -> bool
    ensures { result ≡ conflicts (option_map view_access access) (option_map view_access other) }
{
    match (access, other) {
        (Some(access), Some(other)) => {
            access.buffer == other.buffer && (access.writes || other.writes)
        }
        _ => false,
    }
}

fn is_closed(slot: Slot) -> bool
    ensures { result ≡ spec.is_closed slot }
{
    match slot {
        Slot::Closed => true,
        Slot::Vacant => false,
        Slot::Prepared(_) => false,
    }
}

fn is_vacant(slot: Slot) -> bool
    ensures { result ≡ spec.is_vacant slot }
{
    match slot {
        Slot::Closed => false,
        Slot::Vacant => true,
        Slot::Prepared(_) => false,
    }
}

pub(super) fn is_prepared(slot: Slot) -> bool
    ensures { result ≡ spec.is_prepared slot }
{
    match slot {
        Slot::Closed => false,
        Slot::Vacant => false,
        Slot::Prepared(_) => true,
    }
}

// Whether a statement is a call of the submission side.
pub(super) fn is_sq_call(stmt: Stmt) -> bool
    ensures { result ≡ spec.is_sq_call stmt }
{
    match stmt {
        Stmt::Do(op) => is_sq_op(op),
        Stmt::Put(pool, _) => pool.is_none(),
        Stmt::If(test) => is_sq_test(test),
        _ => false,
    }
}

// Whether a statement is a call of the completion side.
pub(super) fn is_cq_call(stmt: Stmt) -> bool
    ensures { result ≡ spec.is_cq_call stmt }
{
    match stmt {
        Stmt::Do(Op::CqeGetData64) => true,
        Stmt::Do(Op::CqeSeen) => true,
        Stmt::Put(pool, _) => pool.is_none(),
        Stmt::If(Test::Take(pool, _)) => pool.is_none(),
        Stmt::Peek(_) => true,
        _ => false,
    }
}

fn is_sq_op(op: Op) -> bool
    ensures { result ≡ spec.is_sq_op op }
{
    match op {
        Op::Set(_, _) => false,
        Op::Assign(_, _) => false,
        Op::Add(_, _, _) => false,
        Op::Subtract(_, _, _) => false,
        Op::Load(_, _, _) => false,
        Op::Store(_, _, _) => false,
        Op::Fill(_, _) => false,
        Op::Print(_) => false,
        Op::CqeGetData64 => false,
        Op::CqeSeen => false,
        _ => true,
    }
}

fn is_sq_test(test: Test) -> bool
    ensures { result ≡ spec.is_sq_test test }
{
    match test {
        Test::Compare(_, _, _) => false,
        Test::ReadyZero => true,
        Test::SpaceAtLeast(_) => true,
        Test::Take(pool, _) => pool.is_none(),
        Test::Any => false,
    }
}

// Whether a statement wants the open entry in another stage.
pub(super) fn is_raw_at(slot: Slot, stmt: Stmt) -> bool
    ensures { result ≡ spec.is_raw_at slot stmt }
{
    match stmt {
        Stmt::Do(op) => op_is_raw(slot, op),
        Stmt::EndLock(_, released) => released.sq && !is_closed(slot),
        Stmt::Break(_, releases, _) => releases.sq && !is_closed(slot),
        _ => false,
    }
}

fn op_is_raw(slot: Slot, op: Op) -> bool
    ensures { result ≡ spec.op_is_raw slot op }
{
    match op {
        Op::GetSqe => !is_closed(slot),
        Op::PrepRead(_, _, _, _) => !is_vacant(slot),
        Op::PrepWrite(_, _, _, _, _) => !is_vacant(slot),
        Op::PrepFsync(_, _) => !is_vacant(slot),
        Op::PrepNop => !is_vacant(slot),
        Op::PrepOther => !is_vacant(slot),
        Op::SetData64(_) => !is_prepared(slot),
        Op::Submit(_) => !is_closed(slot),
        Op::SubmitAndWait(_, _) => !is_closed(slot),
        _ => false,
    }
}

// Whether a statement reaches past the end of its buffer.
pub(super) fn is_out_at(program: &Program, stmt: Stmt) -> bool
    ensures { result ≡ spec.is_out_at program.now stmt }
{
    match stmt {
        Stmt::Do(op) => op_is_out(program, op),
        _ => false,
    }
}

fn op_is_out(program: &Program, op: Op) -> bool
    ensures { result ≡ spec.op_is_out program.now op }
{
    match op {
        Op::Load(_, buffer, i) => program.bytes_at(buffer) <= i,
        Op::Store(buffer, i, _) => program.bytes_at(buffer) <= i,
        Op::PrepRead(_, buffer, len, _) => !(len <= program.bytes_at(buffer)),
        Op::PrepWrite(_, buffer, len, _, _) => !(len <= program.bytes_at(buffer)),
        _ => false,
    }
}
