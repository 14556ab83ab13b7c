//! What a line of a log says, and why one can't be read.

ghost use Rattle.std.specs.Prelude.{◌≡◌};
ghost use Rattle.rc_log.specs.Said.{words_of_why};

use rc_lang::lines::Locks;

/// Why no line of a program makes a call, or why a program hasn't what a log declares.
#[derive(Clone, Copy)]
pub enum Lack {
    /// `get_sqe 0`: no entry was free.
    NoEntry,
    /// `prep_other OPCODE`: a request of another kind, for which the program has no token.
    NoSuchRequest,
    /// `flags N`: flags of an entry.
    NoFlags,
    /// FLAGS of an fsync other than 0 and 1.
    FsyncFlags,
    /// FILE is -1: nobody said which file it is.
    UnsaidFile,
    /// The program has no file with this number.
    NoFile,
    /// BUFFER is `?`: nobody said which buffer it is.
    UnsaidBuffer,
    /// BUFFER is `!`: the bytes go past the end of the buffer.
    PastBuffer,
    /// The program has no buffer with this name.
    NoBuffer,
    /// The program has no pool with this name.
    NoPool,
    /// The program has no token with this user data.
    NoToken,
    /// The program's buffer has so many bytes, which are more.
    SmallBuffer(u32),
}

/// What a mark of a pool says.
#[derive(Clone, Copy)]
pub struct PoolMark {
    /// The pool's place among the declared ones.
    pub pool: usize,
    /// The buffer that it names, if it names one.
    pub buffer: Option<usize>,
}

/// A call or a mark of a log, in the terms of a program: buffers and pools are by their places among the declared
/// ones, files by the numbers that they are declared with.
#[derive(Clone, Copy)]
pub enum Call {
    /// `get_sqe 1`: an entry was opened (`io_uring_get_sqe(3)`).
    GetSqe,
    /// `prep_read FILE BUFFER LEN OFF`: the entry is a read of LEN bytes (`io_uring_prep_read(3)`).
    PrepRead { file: u32, buffer: usize, len: u64 },
    /// `prep_write FILE BUFFER LEN OFF`: a write of LEN bytes (`io_uring_prep_write(3)`).
    PrepWrite { file: u32, buffer: usize, len: u64 },
    /// `prep_fsync FILE FLAGS`: an fsync, of the data alone where FLAGS is 1 (`io_uring_prep_fsync(3)`).
    PrepFsync { file: u32, datasync: bool },
    /// `prep_nop`: a nop (`io_uring_prep_nop(3)`).
    PrepNop,
    /// `prep_other OPCODE`: a request of another kind, as a poll, a timeout or a cancel.
    PrepOther,
    /// `set_data64 TOKEN`: the entry has its user data (`io_uring_sqe_set_data64(3)`).
    SetData64(u64),
    /// `submit ANSWER` and `submit_and_wait WANTED ANSWER`: how many entries were taken, or minus an error's number
    /// (`io_uring_submit(3)`, `io_uring_submit_and_wait(3)`).
    Submit(i32),
    /// `peek_cqe TOKEN RES`: a completion was found (`io_uring_peek_cqe(3)`).
    Peek { user_data: u64, res: i32 },
    /// `peek_cqe none`: no completion was found.
    PeekNone,
    /// `cqe_seen TOKEN`: the completion was taken away (`io_uring_cqe_seen(3)`).
    CqeSeen(u64),
    /// `sq_ready N`: so many entries are used (`io_uring_sq_ready(3)`).
    SqReady(u32),
    /// `sq_space_left N`: how many entries are free, which isn't kept (`io_uring_sq_space_left(3)`).
    SqSpaceLeft,
    /// `exit N`: the ring is gone, and so many requests are out (`io_uring_queue_exit(3)`).
    Exit(u32),
    /// `lock`, `lock sq` or `lock cq`: the mutexes of these sides were locked.
    Lock(Locks),
    /// `unlock`, `unlock sq` or `unlock cq`: they are unlocked next.
    Unlock(Locks),
    /// `reads BUFFER`: the program reads it here.
    Reads(usize),
    /// `writes BUFFER`: the program changes it here.
    Writes(usize),
    /// `put POOL` and `put POOL BUFFER`: items go to the pool.
    Put(PoolMark),
    /// `take POOL` and `take POOL BUFFER`: items were taken from the pool.
    Take(PoolMark),
    /// `ends`: the thread makes no more calls.
    Ends,
    /// A call that no line of the program makes, and why.
    Foreign(Lack),
}

/// A line of a log: the thread's place in the program, none where it has none of this name, and what it calls.
#[derive(Clone, Copy)]
pub struct Said {
    pub thread: Option<u32>,
    pub call: Call,
}

/// Why a line of a log can't be read, in the order in which it is asked.
#[derive(Clone, Copy)]
pub enum Why {
    /// It has more than 4,096 bytes.
    TooLong,
    /// The first line isn't `ringcheck log 1`.
    NoHead,
    /// The second line isn't `ring SQ CQ`.
    NoRing,
    /// It doesn't begin with a thread's name and FILE:LINE, each before a blank.
    NoPlace,
    /// The third word is no call's.
    NoCall,
    /// The words after it aren't those of the call.
    WrongWords,
}

impl Why {
    /// The words for it. `WrongWords` goes on with the word of the call.
    pub fn words(self) -> &'static str
        ensures { result.now ≡ words_of_why self }
    {
        match self {
            Why::TooLong => "longer than 4096 bytes",
            Why::NoHead => "no ringcheck log 1",
            Why::NoRing => "no ring SQ CQ",
            Why::NoPlace => "no thread and place",
            Why::NoCall => "no such call",
            Why::WrongWords => "wrong words after",
        }
    }
}
