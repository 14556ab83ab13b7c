//! What the ifs of each thread depend on.

use crate::live::{VARIABLES, has, live_at, live_variables};
use rc_lang::lines::{Op, Operand, Stmt, Test};
use rc_lang::program::{Program, Thread};
use rc_world::world::World;
use std::alloc::{AllocError, Global};

/// The variables that a thread's ifs depend on, directly or through others, the bytes that a load of one is tried with,
/// and which variables can still show at each place.
#[derive(Drop)]
struct Depends {
    variables: Vec<usize>,
    bytes: Vec<u8>,
    live: Vec<u64>,
}

/// What the ifs of each thread depend on. What they don't depend on changes no run.
#[derive(Drop)]
pub struct Reads {
    threads: Vec<Depends>,
}

/// The byte that a load of another variable gives.
const ANY_BYTE: &[u8] = &[0];

impl Reads {
    /// Finds what the ifs of each thread of the program depend on.
    pub fn new(alloc: Global, program: &Program) -> Result<Reads, AllocError> {
        let mut threads = Vec::new(alloc);
        for thread in program.threads() {
            threads.push(depends_of(alloc, thread)?)?;
        }
        Ok(Reads { threads })
    }

    /// The bytes that a load into a variable is tried with.
    pub fn bytes_for(&self, thread: u32, variable: usize) -> &[u8] {
        match self.threads.get(thread as usize) {
            Some(depends) if depends.variables.contains(&variable) => &depends.bytes,
            _ => ANY_BYTE,
        }
    }

    /// Whether each variable on which an if of its thread depends has the same value in both worlds, if it can still show
    /// in one of them.
    pub fn are_same(&self, one: &World<'_>, other: &World<'_>) -> bool {
        for (thread, depends) in self.threads.iter().enumerate() {
            if !is_same(thread, depends, one, other) {
                return false;
            }
        }
        true
    }
}

/// The same for one thread.
fn is_same(thread: usize, depends: &Depends, one: &World<'_>, other: &World<'_>) -> bool {
    let Ok(thread) = u32::try_from(thread) else {
        return true;
    };
    let live = live_at(&depends.live, one.place(thread))
        | live_at(&depends.live, other.place(thread));
    for variable in &depends.variables {
        if has(live, *variable)
            && one.variable(thread, *variable) != other.variable(thread, *variable)
        {
            return false;
        }
    }
    true
}

fn is_in(variables: &[bool; 64], variable: usize) -> bool {
    variables.get(variable).copied().unwrap_or(false)
}

fn depends_of(alloc: Global, thread: &Thread) -> Result<Depends, AllocError> {
    let bytes = tried_bytes(alloc, thread)?;
    let marked = marked_variables(thread);
    let mut variables = Vec::new(alloc);
    for variable in 0..VARIABLES {
        if is_in(&marked, variable) {
            variables.push(variable)?;
        }
    }
    Ok(Depends {
        variables,
        bytes,
        live: live_variables(alloc, thread)?,
    })
}

/// Of each variable whether an if depends on it.
fn marked_variables(thread: &Thread) -> [bool; 64] {
    let mut variables = [false; 64];
    if let Some(flag) = thread.flag() {
        mark(&mut variables, flag);
    }
    for line in &thread.lines {
        if let Stmt::If(Test::Compare(variable, _, _)) = line.stmt {
            mark(&mut variables, variable);
        }
    }
    // Each round reaches one variable more, or no round does.
    for _round in 0..VARIABLES {
        for line in &thread.lines {
            mark_sources(&mut variables, line.stmt);
        }
    }
    variables
}

fn mark(variables: &mut [bool; 64], variable: usize) {
    if let Some(is) = variables.get_mut(variable) {
        *is = true;
    }
}

/// Where a marked variable is made of others, these are marked too.
fn mark_sources(variables: &mut [bool; 64], stmt: Stmt) {
    match stmt {
        Stmt::Do(Op::Assign(variable, source)) if is_in(variables, variable) => {
            mark(variables, source);
        }
        Stmt::Do(Op::Add(variable, one, other) | Op::Subtract(variable, one, other))
            if is_in(variables, variable) => {
            mark_operand(variables, one);
            mark_operand(variables, other);
        }
        _ => {}
    }
}

fn mark_operand(variables: &mut [bool; 64], operand: Operand) {
    if let Operand::Variable(variable) = operand {
        mark(variables, variable);
    }
}

/// The number of each comparison, the two beside it, 0 and 255, as far as they are bytes: no other byte is compared
/// otherwise.
fn tried_bytes(alloc: Global, thread: &Thread) -> Result<Vec<u8>, AllocError> {
    let mut is_tried = [false; 256];
    is_tried[0] = true;
    is_tried[255] = true;
    for line in &thread.lines {
        if let Stmt::If(Test::Compare(_, _, number)) = line.stmt {
            for near in [number.saturating_sub(1), number, number.saturating_add(1)] {
                mark_byte(&mut is_tried, near);
            }
        }
    }
    let mut bytes = Vec::new(alloc);
    for byte in 0..=255u8 {
        if is_tried[byte as usize] {
            bytes.push(byte)?;
        }
    }
    Ok(bytes)
}

fn mark_byte(is_tried: &mut [bool; 256], number: i64) {
    if let Ok(byte) = u8::try_from(number) {
        is_tried[byte as usize] = true;
    }
}
