//! Which calls a thread can come to by hidden steps, as far as its lines say so.

use rc_lang::lines::{Op, Stmt, Test};
use rc_lang::program::{Program, Thread};
use rc_log::call::Call;
use std::alloc::{AllocError, Global};

/// A set of calls: a bit for each kind, and for puts and takes one for each of the at most 16 pools with a name.
#[derive(Clone, Copy)]
pub struct Calls {
    bits: u64,
}

// What can come at any place: a mark of a buffer.
const ANYWHERE: u64 = 1;

const GET_SQE: u64 = 1 << 1;

const PREP_READ: u64 = 1 << 2;

const PREP_WRITE: u64 = 1 << 3;

const PREP_FSYNC: u64 = 1 << 4;

const PREP_NOP: u64 = 1 << 5;

const SET_DATA64: u64 = 1 << 6;

const SUBMIT: u64 = 1 << 7;

const PEEK: u64 = 1 << 8;

const CQE_SEEN: u64 = 1 << 9;
// A hidden step that lets go of a lock.
const RELEASE: u64 = 1 << 10;

const END: u64 = 1 << 11;

const PREP_OTHER: u64 = 1 << 12;

const FIRST_PUT: u64 = 1 << 16;

const FIRST_TAKE: u64 = 1 << 32;

/// What can come at any place.
pub const AT_ANY_PLACE: Calls = Calls { bits: ANYWHERE };

const NONE: Calls = Calls { bits: 0 };

impl Calls {
    /// The call of a line of a log.
    pub fn of(call: Call) -> Calls {
        let bits = match call {
            Call::GetSqe => GET_SQE,
            Call::PrepRead { .. } => PREP_READ,
            Call::PrepWrite { .. } => PREP_WRITE,
            Call::PrepFsync { .. } => PREP_FSYNC,
            Call::PrepNop => PREP_NOP,
            Call::PrepOther => PREP_OTHER,
            Call::SetData64(_) => SET_DATA64,
            Call::Submit(_) => SUBMIT,
            Call::Peek { .. } => PEEK,
            Call::CqeSeen(_) => CQE_SEEN,
            Call::Unlock(_) => RELEASE,
            Call::Put(mark) => of_pool(FIRST_PUT, mark.pool),
            Call::Take(mark) => of_pool(FIRST_TAKE, mark.pool),
            Call::Ends => END,
            _ => ANYWHERE,
        };
        Calls { bits }
    }

    /// The calls that a statement can be.
    pub fn at(stmt: Stmt) -> Calls {
        let bits = match stmt {
            Stmt::Do(Op::GetSqe) => GET_SQE,
            Stmt::Do(Op::PrepRead(_, _, _, _)) => PREP_READ,
            Stmt::Do(Op::PrepWrite(_, _, _, _, _)) => PREP_WRITE,
            Stmt::Do(Op::PrepFsync(_, _)) => PREP_FSYNC,
            Stmt::Do(Op::PrepNop) => PREP_NOP,
            Stmt::Do(Op::PrepOther) => PREP_OTHER,
            Stmt::Do(Op::SetData64(_)) => SET_DATA64,
            Stmt::Do(Op::Submit(_) | Op::SubmitAndWait(_, _)) => SUBMIT,
            Stmt::Do(Op::CqeSeen) => CQE_SEEN,
            Stmt::Peek(_) => PEEK,
            Stmt::Put(Some(pool), _) => of_pool(FIRST_PUT, pool),
            Stmt::If(Test::Take(Some(pool), _)) => of_pool(FIRST_TAKE, pool),
            _ => ANYWHERE,
        };
        Calls { bits }
    }

    /// What a hidden step of the statement is itself.
    fn by(stmt: Stmt) -> Calls {
        let bits = match stmt {
            Stmt::EndLock(_, _) | Stmt::Break(_, _, _) => RELEASE,
            _ => ANYWHERE,
        };
        Calls { bits }
    }

    /// Whether these are the same calls.
    pub fn is_same(self, others: Calls) -> bool {
        self.bits == others.bits
    }

    fn with(self, others: Calls) -> Calls {
        Calls {
            bits: self.bits | others.bits,
        }
    }

    fn has_one_of(self, others: Calls) -> bool {
        self.bits & others.bits != 0
    }
}

/// The bit of a pool, after that of the first.
fn of_pool(first: u64, pool: usize) -> u64 {
    match u32::try_from(pool) {
        Ok(pool) if pool < 16 => first.checked_shl(pool).unwrap_or(ANYWHERE),
        _ => ANYWHERE,
    }
}

/// The calls that can come after a hidden step from a place: by the way that a statement goes first, and by the second
/// branch of an if.
#[derive(Clone, Copy)]
struct Ahead {
    first: Calls,
    second: Calls,
}

/// The calls that can come after the hidden steps of each thread, for each of its places.
#[derive(Drop)]
pub struct Reach {
    threads: Vec<Vec<Ahead>>,
}

impl Reach {
    /// Finds them for the threads of a program.
    pub fn new(alloc: Global, program: &Program) -> Result<Reach, AllocError> {
        let mut threads = Vec::new(alloc);
        for thread in program.threads() {
            threads.push(all_ahead(alloc, thread)?)?;
        }
        Ok(Reach { threads })
    }

    /// Whether one of these calls can come after a hidden step of the thread from this place.
    pub fn leads_on(&self, thread: u32, place: usize, calls: Calls) -> bool {
        match self.ahead(thread, place) {
            Some(ahead) => ahead.first.with(ahead.second).has_one_of(calls),
            None => false,
        }
    }

    /// Whether one can come after the first branch of the if at this place.
    pub fn leads_into(&self, thread: u32, place: usize, calls: Calls) -> bool {
        match self.ahead(thread, place) {
            Some(ahead) => ahead.first.has_one_of(calls),
            None => false,
        }
    }

    /// Whether one can come after its second branch.
    pub fn leads_past(&self, thread: u32, place: usize, calls: Calls) -> bool {
        match self.ahead(thread, place) {
            Some(ahead) => ahead.second.has_one_of(calls),
            None => false,
        }
    }

    fn ahead(&self, thread: u32, place: usize) -> Option<Ahead> {
        self.threads.get(thread as usize)?.get(place).copied()
    }
}

/// Each round goes over the places from the last to the first, until none finds more.
fn all_ahead(alloc: Global, thread: &Thread) -> Result<Vec<Ahead>, AllocError> {
    let nothing = Ahead {
        first: NONE,
        second: NONE,
    };
    let mut all = vec![in alloc; nothing; thread.lines.len()]?;
    for _round in 0..thread.lines.len() {
        let mut is_same = true;
        for (place, line) in thread.lines.iter().enumerate().rev() {
            let ahead = ahead_at(thread, &all, place, line.stmt);
            if let Some(known) = all.get_mut(place) {
                is_same &= known.first.bits == ahead.first.bits;
                is_same &= known.second.bits == ahead.second.bits;
                *known = ahead;
            }
        }
        if is_same {
            return Ok(all);
        }
    }
    Ok(all)
}

fn ahead_at(thread: &Thread, all: &[Ahead], place: usize, stmt: Stmt) -> Ahead {
    let (first, second) = places_after(thread, place, stmt);
    Ahead {
        first: calls_from(thread, all, first).with(Calls::by(stmt)),
        second: calls_from(thread, all, second),
    }
}

/// The calls that can come at a place, or after hidden steps from there; none where there is no place.
fn calls_from(thread: &Thread, all: &[Ahead], place: Option<usize>) -> Calls {
    let Some(place) = place else {
        return NONE;
    };
    match (thread.lines.get(place), all.get(place)) {
        (Some(line), Some(ahead)) => Calls::at(line.stmt)
            .with(ahead.first)
            .with(ahead.second)
            .with(AT_ANY_PLACE),
        _ => Calls { bits: END }.with(AT_ANY_PLACE),
    }
}

/// The places to which a hidden step from this place leads, the second of them that of an if.
fn places_after(thread: &Thread, place: usize, stmt: Stmt) -> (Option<usize>, Option<usize>) {
    let next = Some(place.saturating_add(1));
    match stmt {
        Stmt::Do(
            Op::GetSqe
            | Op::PrepRead(_, _, _, _)
            | Op::PrepWrite(_, _, _, _, _)
            | Op::PrepFsync(_, _)
            | Op::PrepNop
            | Op::PrepOther
            | Op::SetData64(_)
            | Op::CqeSeen,
        ) => (None, None),
        Stmt::If(_) => (next, after_end(thread, place)),
        Stmt::Else(_) => (after_end(thread, place), None),
        Stmt::Peek(_) => (in_none_arm(thread, place), None),
        Stmt::EndArm(peek) => (after_end(thread, peek), None),
        Stmt::EndLoop(top, _) => (Some(top), None),
        Stmt::Break(top, _, _) => (after_end(thread, top), None),
        _ => (next, None),
    }
}

/// The place after the end of the block at this place.
pub fn after_end(thread: &Thread, place: usize) -> Option<usize> {
    Some(thread.ends.get(place)?.saturating_add(1))
}

/// The first place of the peek's arm for no completion.
fn in_none_arm(thread: &Thread, peek: usize) -> Option<usize> {
    for (place, line) in thread.lines.iter().enumerate() {
        if is_none_arm(line.stmt, peek) {
            return Some(place.saturating_add(1));
        }
    }
    Some(peek.saturating_add(1))
}

fn is_none_arm(stmt: Stmt, peek: usize) -> bool {
    match stmt {
        Stmt::Nothing(of) => of == peek,
        _ => false,
    }
}
