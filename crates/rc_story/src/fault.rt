//! What is at fault.

use crate::courses::{Course, Stage};
use crate::frames::START;
use crate::run::{BOTH, Run, Turn};
use crate::stocks::items_of;
use rc_lang::lines::{Locks, Op, Stmt, Test};
use rc_lang::program::Items;
use rc_world::controls::Holders;
use rc_world::fault::FaultKind;
use rc_world::world::Slot;

/// A side of the ring.
#[derive(Clone, Copy, PartialEq)]
pub enum Side {
    Submission,
    Completion,
}

/// What is at fault beside rows, requests and items.
#[derive(Clone, Copy)]
pub struct Blame {
    /// The side whose ring is.
    pub ring: Option<Side>,
    /// The locks that the thread at fault lacks. In a text without sides both are one.
    pub lacked: Locks,
    /// The threads that have them: who has both is named once, as that of the submission side.
    pub holders: Holders,
}

/// Whether a request is at fault, where those with these serial numbers clash.
pub fn is_at_fault(run: &Run<'_, '_>, course: &Course, clash: Option<(u64, u64)>) -> bool {
    let Some(fault) = run.fault else {
        return false;
    };
    let touched = run.fault_touch();
    let is_touched = matches!(touched, Some(touch) if course.buffer() == Some(touch.buffer));
    let is_pending = course.stage == Stage::Pending;
    match (fault.kind, clash) {
        _ if course.has(Stage::Reaped) => false,
        (FaultKind::WriteOfPending, _) => is_pending && is_touched,
        (FaultKind::ReadOfFilling, _) => is_pending && is_touched && course.is_read(),
        (FaultKind::KernelClash, Some((a, b))) => course.serial == a || course.serial == b,
        (FaultKind::RingFull, _) => !course.has(Stage::Pending),
        (FaultKind::Overflow, _) => is_pending,
        (FaultKind::AmbiguousData, _) => course.has(Stage::Queued) && names_data(run, course),
        (FaultKind::RawEntry, _) => !course.has(Stage::Queued),
        _ => false,
    }
}

/// Whether the line at fault gives an entry the user data of a request.
fn names_data(run: &Run<'_, '_>, course: &Course) -> bool {
    match run.culprit {
        Some(
            Turn {
                stmt: Stmt::Do(Op::SetData64(data)),
                ..
            },
        ) => data == course.user_data,
        _ => false,
    }
}

/// What is at fault beside rows, requests and items.
pub fn blame_of(run: &Run<'_, '_>) -> Blame {
    let mut blame = Blame {
        ring: None,
        lacked: lacked_at_fault(run),
        holders: START.holders,
    };
    let Some(fault) = run.fault else {
        return blame;
    };
    match (fault.kind, run.world.slot()) {
        (FaultKind::RingFull, _) | (FaultKind::RawEntry, Slot::Closed) => {
            blame.ring = Some(Side::Submission);
        }
        (FaultKind::Overflow | FaultKind::UnknownReap, _) => blame.ring = Some(Side::Completion),
        (FaultKind::NoLock, _) => blame.holders = holders_of(blame.lacked, run.world.holders()),
        _ => {}
    }
    blame
}

/// Who has these locks; who has both once.
fn holders_of(locks: Locks, holders: Holders) -> Holders {
    let is_once = locks.sq && holders.sq == holders.cq;
    Holders {
        sq: if locks.sq { holders.sq } else { None },
        cq: if locks.cq && !is_once {
            holders.cq
        } else {
            None
        },
    }
}

/// The locks that the thread at fault lacks.
fn lacked_at_fault(run: &Run<'_, '_>) -> Locks {
    let (Some(Turn { thread, stmt, .. }), true) = (run.culprit, run.has_sides) else {
        return BOTH;
    };
    let asked = locks_for(stmt);
    let holders = run.world.holders();
    Locks {
        sq: asked.sq && holders.sq != Some(thread),
        cq: asked.cq && holders.cq != Some(thread),
    }
}

/// The locks that a statement needs.
fn locks_for(stmt: Stmt) -> Locks {
    let (sq, cq) = match stmt {
        Stmt::Put(None, _) | Stmt::If(Test::Take(None, _)) => (true, true),
        Stmt::Peek(_) | Stmt::Do(Op::CqeGetData64 | Op::CqeSeen) => (false, true),
        Stmt::If(Test::ReadyZero | Test::SpaceAtLeast(_)) => (true, false),
        Stmt::Do(op) => (!call_of(op).is_empty(), false),
        _ => (false, false),
    };
    Locks { sq, cq }
}

/// The name of a call of the submission side; nothing of another statement.
pub fn call_of(op: Op) -> &'static [u8] {
    match op {
        Op::GetSqe => b"get_sqe",
        Op::PrepRead(_, _, _, _) => b"prep_read",
        Op::PrepWrite(_, _, _, _, _) => b"prep_write",
        Op::PrepFsync(_, _) => b"prep_fsync",
        Op::PrepNop => b"prep_nop",
        Op::PrepOther => b"prep_other",
        Op::SetData64(_) => b"set_data64",
        Op::Submit(_) => b"submit",
        Op::SubmitAndWait(_, _) => b"submit_and_wait",
        _ => b"",
    }
}

/// The items that the thread at fault is about to put.
pub fn put_at_fault<'a>(run: &Run<'_, 'a>) -> Option<&'a Items> {
    let culprit = run.culprit?;
    match (run.fault?.kind, culprit.stmt) {
        (FaultKind::DoublePut, Stmt::Put(_, list)) => items_of(run.program, culprit.thread, list),
        _ => None,
    }
}
