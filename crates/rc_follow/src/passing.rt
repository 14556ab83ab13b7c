//! Steps that a thread can make at any time. They change its place, what it puts into pools, a variable for which no if
//! asks, and the locks where a break lets go of them: worlds with other locks aren't alike.

use crate::reach::after_end;
use crate::reads::Reads;
use rc_lang::lines::{Op, Stmt, Test};
use rc_lang::program::{Items, Thread};

/// Where a thread is, and its last put, as long as it hasn't taken it back: the pool, and the number of the items among
/// the thread's lists.
#[derive(Clone, Copy)]
pub struct At {
    pub place: usize,
    put: Option<(Option<usize>, usize)>,
}

impl At {
    /// A place from which it sets out.
    pub fn place(place: usize) -> At {
        At { place, put: None }
    }

    fn go(self, place: usize) -> At {
        At {
            place,
            put: self.put,
        }
    }
}

/// The thread whose steps these are: its lines and lists, and what its ifs depend on.
#[derive(Clone, Copy)]
pub struct Pass<'p> {
    pub part: &'p Thread,
    pub lists: &'p [Items],
    pub reads: &'p Reads,
    pub thread: u32,
}

impl<'p> Pass<'p> {
    /// Where the thread is after its next step, if it can make that at any time. It takes no lock, and no if depends on
    /// what it loads. It takes what it has put just before; other takes pass, and so does an `if any`.
    pub fn after(self, at: At) -> Option<At> {
        let next = at.place.saturating_add(1);
        match self.part.lines.get(at.place)?.stmt {
            Stmt::If(Test::Take(pool, list)) if self.has_put(at, pool, list) => {
                Some(At::place(next))
            }
            Stmt::If(Test::Take(_, _) | Test::Any) | Stmt::Else(_) => {
                Some(at.go(after_end(self.part, at.place)?))
            }
            Stmt::Loop(_) | Stmt::EndIf(_) => Some(at.go(next)),
            Stmt::EndLoop(top, _) => Some(at.go(top.saturating_add(1))),
            Stmt::Break(top, _, _) => Some(at.go(after_end(self.part, top)?)),
            Stmt::Put(pool, list) => Some(At {
                place: next,
                put: Some((pool, list)),
            }),
            Stmt::Do(Op::Load(variable, _, _)) if !self.is_asked(variable) => Some(at.go(next)),
            _ => None,
        }
    }

    /// Whether the thread has put these items into the pool.
    fn has_put(self, at: At, pool: Option<usize>, list: usize) -> bool {
        match at.put {
            Some((into, put)) => into == pool && self.are_same(put, list),
            None => false,
        }
    }

    /// Whether two of the thread's lists have the same items.
    fn are_same(self, one: usize, other: usize) -> bool {
        match (self.lists.get(one), self.lists.get(other)) {
            (Some(one), Some(other)) => {
                one.credits == other.credits
                    && one.tokens.as_slice() == other.tokens.as_slice()
                    && have_same_shares(one, other)
            }
            _ => false,
        }
    }

    /// Whether an if depends on the variable: then a load is tried with several bytes.
    fn is_asked(self, variable: usize) -> bool {
        self.reads.bytes_for(self.thread, variable).len() != 1
    }
}

fn have_same_shares(one: &Items, other: &Items) -> bool {
    if one.shares.len() != other.shares.len() {
        return false;
    }
    for (one, other) in one.shares.iter().zip(&other.shares) {
        if one.buffer != other.buffer || one.count != other.count {
            return false;
        }
    }
    true
}
