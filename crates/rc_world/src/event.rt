//! What happens in a world, and what a schedule names.

use rc_lang::lines::Locks;

/// A completion queue entry (`io_uring_enter(2)`).
#[derive(Clone, Copy, PartialEq, Eq, Debug)]
pub struct Completion {
    /// The user data of its request.
    pub user_data: u64,
    /// The result: a count, or a negative errno.
    pub res: i32,
}

/// What a step of a thread did, with the values of its trace line.
#[derive(Clone, Copy, PartialEq, Eq, Debug)]
pub enum Action {
    /// A variable was assigned this.
    VariableSet(i64),
    /// This byte of a buffer was loaded into a variable.
    Loaded(u8),
    /// This byte was stored in a buffer.
    Stored(u8),
    /// A buffer was filled with this byte.
    Filled(u8),
    /// A variable with this value was printed.
    Printed(i64),
    /// These locks were taken.
    Locked(Locks),
    /// These locks were released.
    Released(Locks),
    /// A submission entry was opened.
    EntryOpened,
    /// The open entry was made a read.
    ReadPrepared,
    /// The open entry was made a write.
    WritePrepared,
    /// The open entry was made an fsync.
    FsyncPrepared,
    /// The open entry was made a nop.
    NopPrepared,
    /// The open entry was made another request without a buffer.
    OtherPrepared,
    /// The open entry got this user data and was queued.
    DataSet(u64),
    /// A submit answered this: how many were taken, or a negative errno.
    Submitted(i32),
    /// A peek saw this completion.
    Peeked(Completion),
    /// A peek saw no completion.
    PeekedNone,
    /// The user data of the front completion was got, and this was it.
    DataGot(u64),
    /// The completion of this user data was taken away.
    Reaped(u64),
    /// An if was decided, by yes or no.
    Branched(bool),
    /// A loop was entered, or went back to its top.
    Looped,
    /// A break left a loop.
    LoopLeft,
    /// Items were put into a pool.
    ItemsPut,
}

/// One event of a run.
#[derive(Clone, Copy, PartialEq, Eq, Debug)]
pub enum Event {
    /// A step of a thread, with the number of its line; at a return to the top of a loop that of the loop.
    ByThread {
        thread: u32,
        line: u32,
        action: Action,
    },
    /// A completion by the kernel.
    ByKernel(Completion),
}

/// One item of a schedule.
#[derive(Clone, Copy, PartialEq, Eq, Debug)]
pub enum Item {
    /// A step of a thread; at a submit its answer, or all that is queued; at an `if any` 1 for its first branch, 0 for
    /// its second, or the first.
    Thread { thread: u32, take: Option<i32> },
    /// The pending request with this user data completes; the first `res` bytes of a read become `fill`.
    Kernel { user_data: u64, res: i32, fill: u8 },
}
