//! Where a line of a model is in its program.

ghost use Rattle.std.specs.Prelude.{◌<◌, IfSome, length};

use rc_lang::program::{Program, Thread};

/// Where a line is: in the thread with this number, at a place, or as its header.
#[derive(Clone, Copy)]
pub struct LineAt {
    pub thread: u32,
    pub place: Option<usize>,
}

/// A line that says what somebody begins with: that of a pool, by its place among such lines, or the header of a thread, by
/// its number.
#[derive(Clone, Copy)]
pub enum Begins {
    Pool(usize),
    Thread(u32),
}

/// The place of the line with this number among those that say what pools have at the start, if it is one.
pub fn stock_at(program: &Program, number: u32) -> Option<usize> {
    program
        .stock()
        .iter()
        .position(|stock| stock.line == number)
}

/// Where the line with this number is in a thread: at a place (Some), as the header (None), or not in it.
fn place_in(thread: &Thread, number: u32) -> Option<Option<usize>> {
    if thread.line == number {
        return Some(None);
    }
    for (place, line) in thread.lines.iter().enumerate() {
        if line.number == number {
            return Some(Some(place));
        }
    }
    None
}

/// Where the line with this number is in the program, if it is a thread's.
pub fn line_at(program: &Program, number: u32) -> Option<LineAt>
    ensures { IfSome result (λ at. at.thread < length program.now.threads) }
{
    let threads = program.threads();
    for thread in 0..threads.len() as u32 {
        if let Some(place) = place_in(&threads[thread as usize], number) {
            return Some(LineAt { thread, place });
        }
    }
    None
}
