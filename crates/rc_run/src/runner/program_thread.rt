//! Threads that run the program: each makes the events of one of its threads.

ghost use Rattle.std.specs.Prelude.{◌≡◌, ◌⊎◌, ◌≤◌, pos, negsuc, ◌≤ℤ◌};

use crate::gate::Gate;
use crate::live::{Live, Turn};
use crate::locked::{Counted, LockedRun, RunConfig};
use crate::runner::shared::{Shared, draw};
use crate::scheduler::State;
use rc_device::chooser::Chooser;
use rc_device::device::Device;
use rc_lang::lines::{Stmt, Test};
use rc_world::controls::Next;
use rc_world::event::{Action, Event};
use std::sync::Wait;
use std::sync::ledger::Ledger;
use std::thread;

// After how many events a thread lets the others run, if it holds no lock of the program; after twice as many it does
// so in any case.
const SLICE: u32 = 128;

/// Runs a thread of the program to its end, or until the run is to stop.
pub fn run_thread<D: Device, C: Chooser, G: Gate, L: Ledger + RunConfig, R: Wait>(
    rt: &R,
    shared: &Shared<D, C, L>,
    gate: &G,
    thread: u32,
    mut mine: Counted<L>,
) -> Counted<L> {
    let mut slice = TimeSlice::new();
    for _ in rt.forever() {
        let number = mine.events.saturating_add(1);
        gate.pass(thread, number);
        let (turn, pause) = take_turn(rt, shared, thread, &mut mine, &mut slice);
        match turn {
            None | Some(Turn::Ended) => break,
            Some(Turn::Waits) => {}
            Some(Turn::Done(_)) => gate.answered(thread, number),
        }
        match pause {
            Pause::None => {}
            Pause::Yield => thread::yield_now(),
            Pause::Wait => wait(rt, shared, thread as usize),
        }
    }
    shared.wake_all();
    mine
}

// What a thread does before its next turn.
#[derive(Clone, Copy)]
enum Pause {
    None,
    // It yields the processor to the workers: no other thread of the program could go on.
    Yield,
    // It waits until it runs again.
    Wait,
}

impl Pause {
    // That of a thread that is itself the next to run. If no request is pending, the workers have nothing to do, and to
    // yield would only let other programs of the machine run, for a whole time slice of theirs.
    fn of_next(live: &Live) -> Pause {
        if live.pending() == 0 {
            Pause::None
        } else {
            Pause::Yield
        }
    }
}

// Waits until the thread runs again, or the run is to stop.
fn wait<D: Device, C, L: Ledger + RunConfig, R: Wait>(
    rt: &R,
    shared: &Shared<D, C, L>,
    thread: usize,
) {
    let Some(runs_again) = shared.runs_again.get(thread) else {
        return;
    };
    let guard = shared.hold(rt);
    runs_again.wait_while(rt, guard, |scheduler| scheduler.waits(thread));
}

// What a turn is to take: at a free choice 1 for the first branch or 0 for the second, else what a submit takes of so many
// queued entries.
fn draw_take<D: Device, C: Chooser, L: Ledger + RunConfig, R: Wait>(
    rt: &R,
    shared: &Shared<D, C, L>,
    step: Step,
    queued: u32,
) -> i32
    requires { queued ≤ 1024 }
    ensures { negsuc 4094 ≤ℤ result }
{
    match step {
        Step::Choose => draw(rt, shared, 2) as i32,
        _ => draw_submit(rt, shared, queued),
    }
}

// What a submit is to take, of so many queued entries: at most all, or -11 (EAGAIN).
fn draw_submit<D: Device, C: Chooser, L: Ledger + RunConfig, R: Wait>(
    rt: &R,
    shared: &Shared<D, C, L>,
    queued: u32,
) -> i32
    requires { queued ≤ 1024 }
    ensures { (result ≡ negsuc 10) ⊎ ((pos 0 ≤ℤ result) × (result ≤ℤ pos queued)) }
{
    let take = draw(rt, shared, queued + 2);
    if take <= queued { take as i32 } else { -11 }
}

// Makes a turn of a thread, and wakes those that go on after it. None if the run is to stop.
fn take_turn<D: Device, C: Chooser, L: Ledger + RunConfig, R: Wait>(
    rt: &R,
    shared: &Shared<D, C, L>,
    thread: u32,
    mine: &mut Counted<L>,
    slice: &mut TimeSlice,
) -> (Option<Turn>, Pause) {
    let mut guard = shared.hold(rt);
    let queued = guard.run().live().queued();
    let step = Step::of(guard.run().live().next(thread));
    let take = draw_take(rt, shared, step, queued);
    let (made, mut next) = guard.turn(thread, take, mine);
    let Some(turn) = made else {
        return (None, Pause::None);
    };
    let mut workers = workers_after(guard.run(), turn);
    let mut pause = Pause::None;
    if let Some(state) = slice.after(turn, step, queued > 0, guard.run().live()) {
        next = next.or(guard.suspend(thread as usize, state));
        pause = Pause::Wait;
        if next == Some(thread as usize) {
            next = None;
            pause = Pause::of_next(guard.run().live());
        } else if next.is_none() {
            workers = guard.run().live().free();
        }
    }
    drop(guard);
    shared.wake(next, workers);
    (made, pause)
}

// How many workers a turn wakes: as many as there are jobs, if its thread may wait for them.
fn workers_after<D: Device, L: Ledger + RunConfig>(run: &LockedRun<D, L>, turn: Turn) -> usize {
    let Turn::Done(Event::ByThread { thread, action, .. }) = turn else {
        return 0;
    };
    let may_wait = match action {
        Action::Released(_) | Action::LoopLeft => !run.live().holds_lock(thread),
        Action::Submitted(taken) => taken > 0,
        Action::PeekedNone => true,
        _ => false,
    };
    if may_wait { run.workers() } else { 0 }
}

// What a thread is about to do, as far as its event doesn't say.
#[derive(Clone, Copy)]
enum Step {
    // It asks a pool for items.
    Take,
    // It takes either branch of a free choice.
    Choose,
    // It returns to the top of a loop.
    Return,
    Other,
}

impl Step {
    fn of(next: Next) -> Step {
        match next {
            Next::Ready(line) => match line.stmt {
                Stmt::If(Test::Take(_, _)) => Step::Take,
                Stmt::If(Test::Any) => Step::Choose,
                Stmt::EndLoop(_, _) => Step::Return,
                _ => Step::Other,
            },
            Next::TakenLock(_) | Next::Ended => Step::Other,
        }
    }
}

// The time slice of a thread.
#[derive(Drop)]
struct TimeSlice {
    round: Round,
    // How many events are left of it.
    left: u32,
}

impl TimeSlice {
    fn new() -> TimeSlice {
        TimeSlice {
            round: Round {
                in_lock: None,
                in_loop: Looks::NoneYet,
            },
            left: 2 * SLICE,
        }
    }

    // The state of a thread after a turn, if it doesn't run on: ready if it is at a taken lock or its slice is over,
    // waiting if a round is over in which it moved nothing.
    fn after(&mut self, turn: Turn, step: Step, is_queued: bool, live: &Live) -> Option<State> {
        let (thread, action) = match turn {
            Turn::Waits => return self.end(State::Ready),
            Turn::Done(Event::ByThread { thread, action, .. }) => (thread, action),
            Turn::Done(Event::ByKernel(_)) | Turn::Ended => return None,
        };
        let is_free = !live.holds_lock(thread);
        self.left = self.left.saturating_sub(1);
        self.round.note(action, step, is_queued);
        if self.round.ends_idle(action, step, is_free) {
            return self.end(State::Waiting(live.history().len()));
        }
        if self.left == 0 || (self.left <= SLICE && is_free) {
            return self.end(State::Ready);
        }
        None
    }

    fn end(&mut self, state: State) -> Option<State> {
        self.left = 2 * SLICE;
        Some(state)
    }
}

// What came of a thread's looks for completions and for items in pools.
#[derive(Clone, Copy)]
enum Looks {
    NoneYet,
    InVain,
    // It moved something, by a look or otherwise.
    Moved,
}

// What a thread does while it holds locks, and between two returns to the top of a loop.
#[derive(Drop)]
struct Round {
    // Whether it has moved something since it took a lock, if it holds one.
    in_lock: Option<bool>,
    in_loop: Looks,
}

impl Round {
    // Notes an event.
    fn note(&mut self, action: Action, step: Step, is_queued: bool) {
        if moves(action, step, is_queued) {
            self.in_loop = Looks::Moved;
            if self.in_lock.is_some() {
                self.in_lock = Some(true);
            }
        } else if matches!(action, Action::Locked(_)) && self.in_lock.is_none() {
            self.in_lock = Some(false);
        } else if is_vain(action, step) && matches!(self.in_loop, Looks::NoneYet) {
            self.in_loop = Looks::InVain;
        }
    }

    // Whether a round ends by an event, in which the thread moved nothing: it releases the last lock that it holds, or
    // returns to the top of a loop in which it looked in vain.
    fn ends_idle(&mut self, action: Action, step: Step, is_free: bool) -> bool {
        match action {
            Action::Released(_) | Action::LoopLeft if is_free => self.ends_lock(),
            Action::Looped if matches!(step, Step::Return) => self.ends_loop(),
            _ => false,
        }
    }

    fn ends_lock(&mut self) -> bool {
        let is_idle = matches!(self.in_lock, Some(false));
        self.in_lock = None;
        if is_idle {
            self.in_loop = Looks::NoneYet;
        }
        is_idle
    }

    fn ends_loop(&mut self) -> bool {
        let is_idle = matches!(self.in_loop, Looks::InVain);
        self.in_loop = Looks::NoneYet;
        is_idle
    }
}

// Whether an event is a look that finds nothing. A free choice isn't: nothing that a thread could wait for changes what
// comes of the next one.
fn is_vain(action: Action, step: Step) -> bool {
    match action {
        Action::PeekedNone => true,
        Action::Branched(yes) => !yes && matches!(step, Step::Take),
        _ => false,
    }
}

// Whether an event moves something: an entry is queued or the next submit may take it, requests become pending, one is
// reaped or its completion is taken away, or items go into a pool or come from it.
fn moves(action: Action, step: Step, is_queued: bool) -> bool {
    match action {
        Action::DataSet(_) | Action::DataGot(_) | Action::Reaped(_) | Action::ItemsPut => true,
        Action::Submitted(taken) => taken > 0 || is_queued,
        Action::Branched(yes) => yes && matches!(step, Step::Take),
        _ => false,
    }
}
