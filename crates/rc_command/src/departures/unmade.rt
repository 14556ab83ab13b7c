//! The calls of a model that no log makes.

ghost use Rattle.std.specs.Prelude.{◌≡◌, ◌++◌, map, IfOk};
ghost use Rattle.std.specs.List.{flat_map};
ghost use Rattle.rc_lang.specs.Parts.{view_thread};
ghost use Rattle.rc_command.specs.Unmade as spec;
ghost use Rattle.rc_command.specs.Unmade.{call_word, unmade, unmade_in};

use rc_follow::follower::Follower;
use rc_lang::lines::{Line, Op, Stmt};
use rc_lang::program::{Program, Thread};
use std::alloc::{AllocError, Global};

/// The lines of a program with calls that no log made on a way that was left where it ended, in the order of the model.
pub fn unmade_calls(
    alloc: Global,
    program: &Program,
    follower: &Follower<'_>,
) -> Result<Vec<Line>, AllocError>
    ensures { IfOk result (λ lines. lines.items ≡ unmade program.now follower.now.reached) }
{
    let mut lines = Vec::new(alloc);
    push_threads(&mut lines, program.threads(), follower)?;
    Ok(lines)
}

/// Adds the lines of threads with calls that no log made.
fn push_threads(
    unmade: &mut Vec<Line>,
    threads: &[Thread],
    follower: &Follower<'_>,
) -> Result<(), AllocError>
    ensures { IfOk result (λ _. unmade.new.items ≡ unmade.old.items ++ flat_map (spec.unmade_of follower.now.reached) (map view_thread threads.now)) }
{
    for thread in threads {
        push_thread(unmade, thread, follower)?;
    }
    Ok(())
}

/// Adds the lines of a thread with calls that no log made; those of copies once.
fn push_thread(
    unmade: &mut Vec<Line>,
    thread: &Thread,
    follower: &Follower<'_>,
) -> Result<(), AllocError>
    ensures { IfOk result (λ _. unmade.new.items ≡ unmade.old.items ++ spec.unmade_of follower.now.reached (view_thread thread.now)) }
{
    if thread.is_further() {
        return Ok(());
    }
    push_unmade(unmade, &thread.lines, follower)
}

/// Adds the lines with calls that no log made.
fn push_unmade(
    unmade: &mut Vec<Line>,
    lines: &[Line],
    follower: &Follower<'_>,
) -> Result<(), AllocError>
    ensures { IfOk result (λ _. unmade.new.items ≡ unmade.old.items ++ unmade_in follower.now.reached lines.now) }
{
    for line in lines {
        if is_unmade(*line, follower) {
            unmade.push(*line)?;
        }
    }
    Ok(())
}

/// Whether the line has a call that no log made.
fn is_unmade(line: Line, follower: &Follower<'_>) -> bool
    ensures { result ≡ spec.is_unmade follower.now.reached line }
{
    !word_of(line.stmt).is_empty() && !follower.is_reached(line.number)
}

/// The name of the ring call that a statement makes, as `get_sqe`; empty for other statements.
pub fn word_of(stmt: Stmt) -> &'static str
    ensures { result.now ≡ call_word stmt }
{
    match stmt {
        Stmt::Do(op) => word_of_op(op),
        Stmt::Peek(_) => "peek_cqe",
        _ => "",
    }
}

fn word_of_op(op: Op) -> &'static str
    ensures { result.now ≡ spec.word_of_op op }
{
    match op {
        Op::GetSqe => "get_sqe",
        Op::PrepRead(_, _, _, _) => "prep_read",
        Op::PrepWrite(_, _, _, _, _) => "prep_write",
        Op::PrepFsync(_, _) => "prep_fsync",
        Op::PrepNop => "prep_nop",
        Op::PrepOther => "prep_other",
        Op::SetData64(_) => "set_data64",
        Op::Submit(_) => "submit",
        Op::SubmitAndWait(_, _) => "submit_and_wait",
        Op::CqeSeen => "cqe_seen",
        _ => "",
    }
}
