//! Gates: what sees the turns of threads.

/// What each thread calls before a turn and after it. It may hold a thread back.
///
/// Turns are counted from 1 for each thread. One that waits for a lock of the program keeps its number, and isn't
/// answered. No lock is held meanwhile.
pub trait Gate {
    /// Called before a turn of a thread.
    fn pass(&self, thread: u32, turn: u64);

    /// Called after a turn of a thread that made an event.
    fn answered(&self, thread: u32, turn: u64);
}

/// A gate that holds nobody back.
#[derive(Clone, Copy)]
pub struct OpenGate;

impl Gate for OpenGate {
    fn pass(&self, _thread: u32, _turn: u64) {}

    fn answered(&self, _thread: u32, _turn: u64) {}
}
