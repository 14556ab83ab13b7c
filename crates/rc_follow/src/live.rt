//! Which variables of a thread can still show, as its lines say.

use crate::reach::after_end;
use rc_lang::lines::{Op, Operand, Stmt, Test};
use rc_lang::program::Thread;
use std::alloc::{AllocError, Global};

/// How many variables a thread has at most.
pub const VARIABLES: usize = 64;

/// Sets of variables, a bit for each.
type Set = u64;

const NONE: Set = 0;

const ALL: Set = u64::MAX;

/// Of each place of a thread, and of its end, the variables that can still show there: those on which an if depends that
/// may come before they are written again, and the flag. The places are gone over from the last to the first, until no
/// round finds more.
pub fn live_variables(alloc: Global, thread: &Thread) -> Result<Vec<Set>, AllocError> {
    let flag = match thread.flag() {
        Some(flag) => bit(flag),
        None => NONE,
    };
    let mut live = vec![in alloc; flag; thread.lines.len().saturating_add(1)]?;
    for _round in 0..thread.lines.len().saturating_mul(VARIABLES) {
        let mut is_same = true;
        for (place, line) in thread.lines.iter().enumerate().rev() {
            let after = live_after(thread, &live, place, line.stmt);
            let before = live_before(line.stmt, after) | flag;
            if let Some(known) = live.get_mut(place) {
                is_same &= *known == before;
                *known = before;
            }
        }
        if is_same {
            return Ok(live);
        }
    }
    Ok(live)
}

/// Whether a set has a variable.
pub fn has(set: Set, variable: usize) -> bool {
    set & bit(variable) != NONE
}

/// Those that can show at a place.
pub fn live_at(live: &[Set], place: Option<usize>) -> Set {
    match place {
        Some(place) => live.get(place).copied().unwrap_or(ALL),
        None => ALL,
    }
}

fn bit(variable: usize) -> Set {
    match u32::try_from(variable) {
        Ok(variable) => 1u64.checked_shl(variable).unwrap_or(NONE),
        Err(_) => NONE,
    }
}

/// Those that can show at the places to which a statement at this place leads.
fn live_after(thread: &Thread, live: &[Set], place: usize, stmt: Stmt) -> Set {
    let next = live_at(live, Some(place.saturating_add(1)));
    match stmt {
        Stmt::If(_) => next | live_at(live, after_end(thread, place)),
        Stmt::Else(_) => live_at(live, after_end(thread, place)),
        Stmt::Peek(_) => live_in_arms(thread, live, place),
        Stmt::EndArm(peek) => live_at(live, after_end(thread, peek)),
        Stmt::EndLoop(top, _) => live_at(live, Some(top)),
        Stmt::Break(top, _, _) => live_at(live, after_end(thread, top)),
        _ => next,
    }
}

/// Those that can show at an arm of the peek at this place.
fn live_in_arms(thread: &Thread, live: &[Set], peek: usize) -> Set {
    let mut set = NONE;
    for place in peek..after_end(thread, peek).unwrap_or(peek) {
        match thread.lines.get(place) {
            Some(line) if is_arm(line.stmt, peek) => set |= live_at(live, Some(place)),
            _ => {}
        }
    }
    set
}

fn is_arm(stmt: Stmt, peek: usize) -> bool {
    match stmt {
        Stmt::Case(of, _) | Stmt::Other(of) | Stmt::Nothing(of) => of == peek,
        _ => false,
    }
}

/// Those that can show before a statement, where these can after it.
fn live_before(stmt: Stmt, after: Set) -> Set {
    match stmt {
        Stmt::If(Test::Compare(variable, _, _)) => after | bit(variable),
        Stmt::Peek(variable) => without(after, variable),
        Stmt::Do(Op::Assign(variable, source)) => {
            made_of(
                after,
                variable,
                Operand::Variable(source),
                Operand::Number(0),
            )
        }
        Stmt::Do(Op::Add(variable, one, other) | Op::Subtract(variable, one, other)) => {
            made_of(after, variable, one, other)
        }
        Stmt::Do(
            Op::Set(variable, _)
            | Op::Load(variable, _, _)
            | Op::Submit(variable)
            | Op::SubmitAndWait(variable, _),
        ) => without(after, variable),
        _ => after,
    }
}

/// The same where the statement makes a variable of these.
fn made_of(after: Set, variable: usize, one: Operand, other: Operand) -> Set {
    if has(after, variable) {
        without(after, variable) | bits_of(one) | bits_of(other)
    } else {
        after
    }
}

fn bits_of(operand: Operand) -> Set {
    match operand {
        Operand::Variable(variable) => bit(variable),
        Operand::Number(_) => NONE,
    }
}

fn without(set: Set, variable: usize) -> Set {
    set & !bit(variable)
}
