//! Where a statement of a thread is.

use crate::locks::Guards;
use crate::terms::{data, number, signed};
use rc_lang::lines::{Line, Operand};
use rc_lang::program::{Program, Thread};
use rc_text::names::buffer_name;
use rc_text::text::{put_number, put_piece};
use std::alloc::{AllocError, Global};

/// Where a statement is in the model, and how deep its C is.
#[derive(Clone, Copy)]
pub struct Place<'a> {
    pub alloc: Global,
    pub program: &'a Program,
    /// The mutexes of the ring.
    pub guards: Guards,
    pub thread: &'a Thread,
    /// Its line's place among those of its thread.
    pub at: usize,
    /// The number of its line.
    pub number: u32,
    /// Its line of the model.
    pub source: &'a [u8],
    /// How many blocks of C are open around it.
    pub depth: usize,
}

impl<'a> Place<'a> {
    /// The header of a thread, which is this line of the model.
    pub fn new(
        alloc: Global,
        program: &'a Program,
        guards: Guards,
        thread: &'a Thread,
        source: &'a [u8],
    ) -> Place<'a> {
        Place {
            alloc,
            program,
            guards,
            thread,
            at: 0,
            number: thread.line,
            source,
            depth: 1,
        }
    }

    /// The same thread at another of its lines, which is this line of the model.
    pub fn moved(self, at: usize, line: Line, source: &'a [u8], depth: usize) -> Place<'a> {
        Place {
            at,
            number: line.number,
            source,
            depth,
            ..self
        }
    }

    /// The same place one block of C deeper.
    pub fn deeper(self) -> Place<'a> {
        Place {
            depth: self.depth.saturating_add(1),
            ..self
        }
    }

    /// The lines of the thread from this one on.
    pub fn lines_from_here(self) -> &'a [Line] {
        match self.thread.lines.get(self.at..) {
            Some(lines) => lines,
            None => &[],
        }
    }

    /// A buffer, as C has it.
    pub fn buffer(self, buffer: usize) -> Result<Vec<u8>, AllocError> {
        let mut term = Vec::from_slice(self.alloc, b"buffer_")?;
        put_piece(&mut term, buffer_name(self.program, buffer))?;
        Ok(term)
    }

    /// What C has before the name of a pool's counter.
    pub fn pool(self, pool: Option<usize>) -> Result<Vec<u8>, AllocError> {
        match pool {
            None => Vec::from_slice(self.alloc, b"pool_"),
            Some(pool) => {
                let mut term = self.table(pool)?;
                put_piece(&mut term, b".")?;
                Ok(term)
            }
        }
    }

    /// A pool with a name, as C has it.
    pub fn table(self, pool: usize) -> Result<Vec<u8>, AllocError> {
        let mut term = Vec::from_slice(self.alloc, b"table_")?;
        if let Some(name) = self.program.pools().get(pool) {
            put_piece(&mut term, name)?;
        }
        Ok(term)
    }

    /// A byte of a buffer, as C has it.
    pub fn byte(self, buffer: usize, index: u32) -> Result<Vec<u8>, AllocError> {
        let mut term = self.buffer(buffer)?;
        put_piece(&mut term, b"[")?;
        put_number(&mut term, u64::from(index))?;
        put_piece(&mut term, b"]")?;
        Ok(term)
    }

    /// A variable of the thread, as C has it.
    pub fn variable(self, variable: usize) -> Result<Vec<u8>, AllocError> {
        let mut term = Vec::from_slice(self.alloc, b"var_")?;
        if let Some(name) = self.thread.variables.get(variable) {
            put_piece(&mut term, name)?;
        }
        Ok(term)
    }

    /// A variable or a number, as C has it.
    pub fn operand(self, operand: Operand) -> Result<Vec<u8>, AllocError> {
        match operand {
            Operand::Variable(variable) => self.variable(variable),
            Operand::Number(number) => self.signed(number),
        }
    }

    /// A signed number, as C has it.
    pub fn signed(self, value: i64) -> Result<Vec<u8>, AllocError> {
        signed(self.alloc, value)
    }

    /// A user data, as C has it.
    pub fn data(self, value: u64) -> Result<Vec<u8>, AllocError> {
        data(self.alloc, value)
    }

    /// A number in decimal.
    pub fn decimal(self, value: u64) -> Result<Vec<u8>, AllocError> {
        number(self.alloc, value)
    }
}
