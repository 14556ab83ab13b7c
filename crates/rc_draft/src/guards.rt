//! Which locks a thread takes.

use rc_lang::lines::Locks;

const NONE: Locks = Locks {
    sq: false,
    cq: false,
};

/// The locks that a thread has all the time, and whether the sides of the ring have their own.
#[derive(Clone, Copy)]
pub struct Guards {
    pub kept: Locks,
    pub has_sides: bool,
}

impl Guards {
    /// The guards of a thread that keeps these locks. In the lock of the submission side no other one may be taken.
    pub fn of(keeps: Option<Locks>, has_sides: bool, is_reaper: bool) -> Guards {
        let kept = match keeps {
            Some(locks) if locks.cq || !is_reaper => locks,
            _ => NONE,
        };
        Guards { kept, has_sides }
    }

    /// The locks around the whole thread.
    pub fn around(self) -> Option<Locks> {
        if self.kept.sq || self.kept.cq {
            Some(self.kept)
        } else {
            None
        }
    }

    /// The locks that a send takes.
    pub fn of_send(self) -> Option<Locks> {
        if self.kept.sq {
            None
        } else {
            Some(Locks {
                sq: true,
                cq: !self.has_sides,
            })
        }
    }

    /// The locks that a peek takes.
    pub fn of_peek(self) -> Option<Locks> {
        if self.kept.cq {
            None
        } else {
            Some(Locks {
                sq: !self.has_sides,
                cq: true,
            })
        }
    }

    /// The locks that a send takes in an arm of a peek: where the sides have none of their own, the peek has it.
    pub fn of_send_in_arm(self) -> Option<Locks> {
        if self.has_sides { self.of_send() } else { None }
    }

    /// Whether the lock of a peek is never released.
    pub fn is_peek_kept(self) -> bool {
        self.kept.cq
    }
}
