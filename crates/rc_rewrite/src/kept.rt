//! What a loop keeps.

use crate::held::Held;
use crate::row::{above, added, declared, lessen, listed, put_row, row_of};
use rc_lang::program::{Items, Program};
use rc_rules::mode::{Submitting, sq_of, unlocked};
use rc_rules::side::Side;
use rc_rules::state::State;
use rc_text::text::{put_counted, put_piece, put_pieces};
use std::alloc::{AllocError, Global};

/// What a loop keeps at its top: while the flag is 0, while it isn't, and how many entries may be queued in a lock.
#[derive(Drop)]
pub struct Kept {
    pub zero: Vec<u32>,
    pub other: Vec<u32>,
    queued: u32,
}

impl Kept {
    /// As much as the program declares.
    pub fn most(alloc: Global, program: &Program) -> Result<Kept, AllocError> {
        Ok(Kept {
            zero: declared(alloc, program)?,
            other: declared(alloc, program)?,
            queued: 0,
        })
    }

    /// What a list says.
    pub fn of(alloc: Global, program: &Program, items: &Items) -> Result<Kept, AllocError> {
        let more = &items.more;
        let zero = row_of(alloc, program, items)?;
        let besides = listed(alloc, program, &more.shares, &more.tokens, more.credits)?;
        let other = added(alloc, &zero, &besides)?;
        Ok(Kept {
            zero,
            other,
            queued: items.queue.unwrap_or(program.entries()),
        })
    }

    /// So much.
    pub fn rows(alloc: Global, zero: &[u32], other: &[u32]) -> Result<Kept, AllocError> {
        Ok(Kept {
            zero: Vec::from_slice(alloc, zero)?,
            other: Vec::from_slice(alloc, other)?,
            queued: 0,
        })
    }

    /// Keeps no more than a state has where it comes to the loop's top. Without `when` both sides keep the same.
    pub fn lessen(&mut self, alloc: Global, state: &State, when: bool) -> Result<(), AllocError> {
        let (zero, other) = (state.on(true), state.on(false));
        self.queued = self.queued.max(sq_on(zero).queued).max(sq_on(other).queued);
        self.lessen_to(&Held::of(alloc, state)?, when);
        Ok(())
    }

    /// Keeps no more than is held.
    pub fn lessen_to(&mut self, held: &Held, when: bool) {
        if let Some(row) = &held.zero {
            lessen(&mut self.zero, row);
        }
        if let Some(row) = &held.other {
            lessen(&mut self.other, row);
        }
        lessen(&mut self.zero, &self.other);
        if !when {
            lessen(&mut self.other, &self.zero);
        }
    }

    /// Adds the items as a loop's line has them, with a blank before each and one behind them: in a lock with the bound
    /// of the queue, and with what is kept besides under a flag, if the line names one.
    pub fn put(
        &self,
        text: &mut Vec<u8>,
        program: &Program,
        flag: Option<&[u8]>,
        locked: bool,
    ) -> Result<(), AllocError> {
        put_row(text, program, &self.zero)?;
        if locked {
            put_counted(text, b" q:", u64::from(self.queued), b"")?;
        }
        if let Some(name) = flag {
            put_pieces(text, &[b" when ", name])?;
            let alloc = *text.allocator();
            put_row(text, program, &above(alloc, &self.other, &self.zero)?)?;
        }
        put_piece(text, b" ")
    }
}

/// What is known of the submission side of the ring.
pub fn sq_on(side: &Side) -> Submitting {
    sq_of(side.mode().unwrap_or(unlocked()))
}
