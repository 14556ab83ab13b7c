//! Moves as text.

ghost use Rattle.std.specs.Prelude.{◌≡◌};
ghost use Rattle.rc_lang.specs.Program.{lines_of};
ghost use Rattle.rc_runs.specs.Moves as spec;
ghost use Rattle.rc_runs.specs.Moves.{ReadsMore, ReadsMoves};

use rc_lang::lines::{Line, Stmt};
use rc_lang::numbers::number_of;
use rc_lang::program::Program;
use rc_world::event::Item;
use rc_world::schedule::{ScheduleFault, halves, item_of, thread_named};
use std::alloc::Global;

/// What a piece of moves names.
#[derive(Clone, Copy)]
pub enum Move {
    /// An item of a schedule.
    One(Item),
    /// So many steps of a thread, 1 to 65,536. A submit among them takes all that is queued.
    Steps { thread: u32, count: u32 },
    /// The steps of a thread until its next line has this number, at most 65,536; none where it has that number.
    Until { thread: u32, line: u32 },
}

/// Moves: pieces with commas, blanks (space, tab, carriage return) and line feeds between them. From `#`
/// on a line is a comment. A piece is an item of a schedule, `NAME*N` or `NAME@L`: NAME is a thread's, N is 1 to
/// 65,536, and L the number of a line of the thread at which it can stand, so none that goes with the step before it.
pub fn read_moves(
    alloc: Global,
    program: &Program,
    moves: &[u8],
) -> Result<Vec<Move>, ScheduleFault>
    ensures { ReadsMoves program.now moves.now result }
{
    let mut read = Vec::new(alloc);
    for line in moves.split(|b| *b == b'\n') {
        read_line(program, line, &mut read)?;
    }
    Ok(read)
}

// Adds the moves of a line.
fn read_line(program: &Program, line: &[u8], read: &mut Vec<Move>) -> Result<(), ScheduleFault>
    ensures { let pieces = spec.pieces_of_line line.now in
        ReadsMore program.now pieces read.old.items read.new.items result }
{
    for piece in uncommented(line).split(|b| is_separator(*b)) {
        if piece.is_empty() {
            continue;
        }
        match move_of(program, piece) {
            Some(named) => read.push(named)?,
            None => return Err(ScheduleFault::Unreadable(read.len() as u64 + 1)),
        }
    }
    Ok(())
}

/// A line without its comment.
pub fn uncommented(line: &[u8]) -> &[u8]
    ensures { result.now ≡ spec.uncommented line.now }
{
    match halves(b'#', line) {
        Some((words, _)) => words,
        None => line,
    }
}

/// Whether this stands between pieces.
pub fn is_separator(b: u8) -> bool
    ensures { result ≡ spec.is_separator b }
{
    b == b',' || b == b' ' || b == b'\t' || b == b'\r'
}

// The move that a piece names, if it names one.
fn move_of(program: &Program, piece: &[u8]) -> Option<Move>
    ensures { result ≡ spec.move_of program.now piece.now }
{
    if let Some((name, count)) = halves(b'*', piece) {
        return steps_of(program, name, count);
    }
    match halves(b'@', piece) {
        Some((name, line)) => until_of(program, name, line),
        None => Some(Move::One(item_of(program, piece)?)),
    }
}

// `NAME*N`.
fn steps_of(program: &Program, name: &[u8], count: &[u8]) -> Option<Move>
    ensures { result ≡ spec.steps_of program.now name.now count.now }
{
    let thread = thread_named(program, name)?;
    let count = number_of(1, 65_536, count)? as u32;
    Some(Move::Steps { thread, count })
}

// `NAME@L`.
fn until_of(program: &Program, name: &[u8], line: &[u8]) -> Option<Move>
    ensures { result ≡ spec.until_of program.now name.now line.now }
{
    let thread = thread_named(program, name)?;
    let line = number_of(1, u64::from(u32::MAX), line)? as u32;
    can_stand(program, thread, line).then_some(Move::Until { thread, line })
}

// Whether a line of the thread has this number, and the thread can stand there.
fn can_stand(program: &Program, thread: u32, number: u32) -> bool
    ensures { result ≡ spec.has_stop (lines_of program.now thread) number }
{
    match program.threads().get(thread as usize) {
        Some(thread) => has_stop(&thread.lines, number),
        None => false,
    }
}

/// Whether one of these lines has this number, and a thread can stand there.
pub fn has_stop(lines: &[Line], number: u32) -> bool
    ensures { result ≡ spec.has_stop lines.now number }
{
    lines
        .iter()
        .any(|line| line.number == number && is_event(line.stmt))
}

// Whether a thread can stand at a line with this statement.
fn is_event(stmt: Stmt) -> bool
    ensures { result ≡ spec.is_event stmt }
{
    match stmt {
        Stmt::Else(_) | Stmt::EndIf(_) | Stmt::Case(_, _) | Stmt::Other(_) => false,
        Stmt::Nothing(_) | Stmt::EndArm(_) | Stmt::EndPeek(_) => false,
        _ => true,
    }
}
