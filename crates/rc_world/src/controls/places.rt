//! What a thread has next at a place, whether it holds a lock, to which arm of a peek it goes, and where it comes to rest.

ghost use Rattle.std.specs.Prelude.{◌≡◌, ◌<◌, ◌≤◌, length, IfSome};
ghost use Rattle.rc_lang.specs.Program.{end_at, lines_of};
ghost use Rattle.rc_lang.specs.Kept.{IsProgram};
ghost use Rattle.rc_world.specs.Changes.{hop_at};
ghost use Rattle.rc_world.specs.Controls as spec;
ghost use Rattle.rc_world.specs.Faults.{is_holder};
ghost use Rattle.rc_world.specs.Items.{ready_or_taken};

use super::{Holders, Next};
use rc_lang::lines::{Line, Stmt};
use rc_lang::program::Program;

// What a thread has next that is at this line.
#[inline(always)]
pub(super) fn ready_or_taken(holders: Holders, line: Line) -> Next
    ensures { result ≡ ready_or_taken holders line line.stmt }
{
    match line.stmt {
        Stmt::Lock(wanted) => {
            if holders.are_free(wanted) {
                Next::Ready(line)
            } else {
                Next::TakenLock(wanted)
            }
        }
        Stmt::Do(_) | Stmt::Put(_, _) | Stmt::EndLock(_, _) | Stmt::If(_) => Next::Ready(line),
        Stmt::Peek(_) | Stmt::Loop(_) | Stmt::EndLoop(_, _) | Stmt::Break(_, _, _) => {
            Next::Ready(line)
        }
        Stmt::Else(_) | Stmt::EndIf(_) | Stmt::Case(_, _) | Stmt::Other(_) => Next::Ended,
        Stmt::Nothing(_) | Stmt::EndArm(_) | Stmt::EndPeek(_) => Next::Ended,
    }
}

// Whether the thread is the holder of a lock.
pub(super) fn is_holder(holder: Option<u32>, thread: u32) -> bool
    ensures { result ≡ is_holder holder thread }
{
    match holder {
        Some(holder) => holder == thread,
        None => false,
    }
}

// The number of the line of an event: at a return to the top of a loop it is the loop's.
pub(super) fn number_of_event(program: &Program, thread: u32, line: Line) -> u32
    ensures { result ≡ spec.number_of_event program.now thread line line.stmt }
{
    match line.stmt {
        Stmt::EndLoop(top, _) => match program.line_at(thread as usize, top) {
            Some(line) => line.number,
            None => 0,
        },
        _ => line.number,
    }
}

// The lines between the peek at this place and its closing brace, from the peek's own on.
fn arms_of(program: &Program, thread: u32, peek: usize) -> &[Line]
    requires start { peek ≤ end_at program.now thread peek }
    requires end { end_at program.now thread peek ≤ length (lines_of program.now thread) }
    ensures { result.now ≡ spec.arms_of program.now thread peek }
{
    let end = program.end_at(thread as usize, peek);
    let lines = lines(program, thread);
    &lines[peek..end]
}

// The lines of a thread.
fn lines(program: &Program, thread: u32) -> &[Line]
    ensures { result.now ≡ lines_of program.now thread }
{
    match program.threads().get(thread as usize) {
        Some(thread) => &thread.lines,
        None => &[],
    }
}

// The place of the peek's arm for this user data, else of that for any other.
pub(super) fn arm_for(program: &Program, thread: u32, peek: usize, user_data: u64) -> usize
    requires start { peek ≤ end_at program.now thread peek }
    requires end { end_at program.now thread peek ≤ length (lines_of program.now thread) }
    requires within { peek ≤ 4096 }
    ensures value { result ≡ spec.arm_for program.now thread peek user_data }
    ensures below { result ≤ end_at program.now thread peek }
{
    let arms = arms_of(program, thread, peek);
    let arm = match case_place(arms, peek, user_data) {
        Some(place) => place,
        None => other_place(arms, peek).unwrap_or(0),
    };
    peek + arm
}

// The place of the peek's arm for no completion.
pub(super) fn none_arm(program: &Program, thread: u32, peek: usize) -> usize
    requires start { peek ≤ end_at program.now thread peek }
    requires end { end_at program.now thread peek ≤ length (lines_of program.now thread) }
    requires within { peek ≤ 4096 }
    ensures value { result ≡ spec.none_arm program.now thread peek }
    ensures below { result ≤ end_at program.now thread peek }
{
    let arms = arms_of(program, thread, peek);
    peek + none_place(arms, peek).unwrap_or(0)
}

fn case_place(arms: &[Line], peek: usize, user_data: u64) -> Option<usize>
    ensures value { result ≡ spec.first_place (spec.is_case peek user_data) arms.now }
    ensures within { IfSome result (λ k. k < length arms.now) }
{
    arms.iter()
        .position(|line| is_case(line.stmt, peek, user_data))
}

fn other_place(arms: &[Line], peek: usize) -> Option<usize>
    ensures value { result ≡ spec.first_place (spec.is_other peek) arms.now }
    ensures within { IfSome result (λ k. k < length arms.now) }
{
    arms.iter().position(|line| is_other(line.stmt, peek))
}

fn none_place(arms: &[Line], peek: usize) -> Option<usize>
    ensures value { result ≡ spec.first_place (spec.is_none_arm peek) arms.now }
    ensures within { IfSome result (λ k. k < length arms.now) }
{
    arms.iter().position(|line| is_none_arm(line.stmt, peek))
}

fn is_case(stmt: Stmt, peek: usize, user_data: u64) -> bool
    ensures { result ≡ spec.is_case peek user_data stmt }
{
    match stmt {
        Stmt::Case(place, data) => place == peek && data == user_data,
        _ => false,
    }
}

fn is_other(stmt: Stmt, peek: usize) -> bool
    ensures { result ≡ spec.is_other peek stmt }
{
    match stmt {
        Stmt::Other(place) => place == peek,
        _ => false,
    }
}

fn is_none_arm(stmt: Stmt, peek: usize) -> bool
    ensures { result ≡ spec.is_none_arm peek stmt }
{
    match stmt {
        Stmt::Nothing(place) => place == peek,
        _ => false,
    }
}

// The place where a thread comes to rest that goes to this one, over lines that are no events, and whether an arm ends
// on the way.
pub(super) fn rest(program: &Program, thread: u32, start: usize) -> (usize, bool)
    ensures place { result.0 ≡ spec.rest_at program.now thread start }
    ensures arm { result.1 ≡ spec.passes_arm program.now thread start }
{
    let mut place = start;
    let mut ends_arm = false;
    while let Some((next, ends)) = hop(program, thread, place) {
        place = next;
        ends_arm |= ends;
    }
    (place, ends_arm)
}

// The place to which the line at this place leads, if it is no event, and whether it ends an arm.
fn hop(program: &Program, thread: u32, place: usize) -> Option<(usize, bool)>
    ensures value { result ≡ hop_at program.now thread place }
    ensures made { IsProgram program.now }
{
    match program.line_at(thread as usize, place)?.stmt {
        Stmt::Else(_) => Some((program.end_at(thread as usize, place) + 1, false)),
        Stmt::EndIf(_) => Some((place + 1, false)),
        Stmt::EndArm(peek) => Some((program.end_at(thread as usize, peek) + 1, true)),
        _ => None,
    }
}
