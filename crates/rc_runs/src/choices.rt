//! What may be done next, as it is listed for a schedule.

ghost use Rattle.std.specs.Prelude.{◌≡◌, ◌++◌, IfOk, length};
ghost use Rattle.rc_runs.specs.Choices as spec;
ghost use Rattle.rc_runs.specs.Choices.{choices_below, choices_in};
ghost use Rattle.rc_runs.specs.Laws.{AreEnabled};

use rc_lang::lines::{Op, Stmt, Test};
use rc_lang::program::Program;
use rc_text::names::thread_name;
use rc_text::text::{put_counted, put_number, put_piece, put_pieces};
use rc_world::controls::Next;
use rc_world::world::World;
use rc_world::world::requests::largest;
use std::alloc::{AllocError, Global};

/// What may be chosen next in a world.
#[derive(Clone, Copy)]
pub enum Choice {
    /// A step of the thread with this number.
    Step(u32),
    /// A submit of a thread, which takes up to so many entries, or an `if any`: 0 is no, 1 is yes.
    Take { thread: u32, most: u64 },
    /// The completion of the request with this user data by a result up to a number.
    Complete { user_data: u64, most: u32 },
}

/// What is enabled in a world, faults aside: the choice of each thread that has a step, and then that of each pending
/// request, of several with one user data that of the first.
pub fn choices_of(alloc: Global, world: &World<'_>) -> Result<Vec<Choice>, AllocError>
    ensures choices { IfOk result (λ listed. listed.items ≡ choices_in world.now) }
    ensures enabled { IfOk result (λ listed. AreEnabled world.now listed.items) }
{
    let mut listed = Vec::new(alloc);
    push_of_threads(&mut listed, world)?;
    push_of_requests(&mut listed, world)?;
    Ok(listed)
}

fn push_of_threads(listed: &mut Vec<Choice>, world: &World<'_>) -> Result<(), AllocError>
    ensures { let more = choices_below (length world.now.program.threads) (spec.thread_choice world.now) in
        IfOk result (λ _. listed.new.items ≡ listed.old.items ++ more) }
{
    let count = world.program().threads().len();
    for thread in 0..count as u32 {
        if let Some(choice) = thread_choice(world, thread) {
            listed.push(choice)?;
        }
    }
    Ok(())
}

fn push_of_requests(listed: &mut Vec<Choice>, world: &World<'_>) -> Result<(), AllocError>
    ensures { let more = choices_below (length world.now.pending) (spec.pending_choice world.now) in
        IfOk result (λ _. listed.new.items ≡ listed.old.items ++ more) }
{
    for place in 0..world.pending_len() {
        if let Some(choice) = pending_choice(world, place) {
            listed.push(choice)?;
        }
    }
    Ok(())
}

/// The choice of a thread that has a step.
fn thread_choice(world: &World<'_>, thread: u32) -> Option<Choice>
    ensures { result ≡ spec.thread_choice world.now thread }
{
    let Next::Ready(line) = world.next(thread) else {
        return None;
    };
    match line.stmt {
        Stmt::Do(Op::Submit(_) | Op::SubmitAndWait(_, _)) => Some(Choice::Take {
            thread,
            most: world.queued().len() as u64,
        }),
        Stmt::If(Test::Any) => Some(Choice::Take { thread, most: 1 }),
        _ => Some(Choice::Step(thread)),
    }
}

/// The choice of the pending request at this place, unless one before it has its user data.
fn pending_choice(world: &World<'_>, place: usize) -> Option<Choice>
    ensures { result ≡ spec.pending_choice world.now place }
{
    let request = world.pending(place)?;
    if world.pending_place(request.user_data) != Some(place) {
        return None;
    }
    Some(Choice::Complete {
        user_data: request.user_data,
        most: largest(request),
    })
}

/// Adds choices as a line, each as an item of a schedule with the answers that it may have.
pub fn put_choices(
    text: &mut Vec<u8>,
    program: &Program,
    listed: &[Choice],
) -> Result<(), AllocError> {
    put_piece(text, b"enabled:")?;
    for choice in listed {
        put_choice(text, program, *choice)?;
    }
    put_piece(text, b"\n")
}

fn put_choice(text: &mut Vec<u8>, program: &Program, choice: Choice) -> Result<(), AllocError> {
    match choice {
        Choice::Step(thread) => put_pieces(text, &[b" ", thread_name(program, thread)]),
        Choice::Take { thread, most } => {
            put_pieces(text, &[b" ", thread_name(program, thread), b"=0.."])?;
            put_number(text, most)
        }
        Choice::Complete { user_data, most } => {
            put_counted(text, b" k:", user_data, b"=0..")?;
            put_number(text, u64::from(most))
        }
    }
}
