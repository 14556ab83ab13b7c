//! Which variables C has.

use rc_lang::lines::{Op, Operand, Stmt, Test};
use rc_lang::program::Thread;

/// Whether C has a variable of the thread. It doesn't have one that only the loops name, as their flag.
pub fn has_variable(thread: &Thread, variable: usize) -> bool {
    thread
        .lines
        .iter()
        .any(|line| is_in_stmt(line.stmt, variable))
}

fn is_in_stmt(stmt: Stmt, variable: usize) -> bool {
    match stmt {
        Stmt::Do(op) => is_in_op(op, variable),
        Stmt::If(Test::Compare(x, _, _)) | Stmt::Peek(x) => x == variable,
        _ => false,
    }
}

fn is_in_op(op: Op, variable: usize) -> bool {
    match op {
        Op::Set(x, _) | Op::Load(x, _, _) | Op::Submit(x) | Op::SubmitAndWait(x, _) => {
            x == variable
        }
        Op::Assign(x, y) => x == variable || y == variable,
        Op::Add(x, a, b) | Op::Subtract(x, a, b) => {
            x == variable || is_variable(a, variable) || is_variable(b, variable)
        }
        Op::Store(_, _, x) | Op::Fill(_, x) | Op::Print(x) => x == variable,
        _ => false,
    }
}

/// Whether an operand is this variable.
pub fn is_variable(operand: Operand, variable: usize) -> bool {
    match operand {
        Operand::Variable(x) => x == variable,
        Operand::Number(_) => false,
    }
}
