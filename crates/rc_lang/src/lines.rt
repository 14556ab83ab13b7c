//! The lines of a thread.

ghost use Rattle.std.specs.Prelude.{◌≡◌};
ghost use Rattle.rc_lang.specs.Comparisons as spec;
ghost use Rattle.rc_lang.specs.Locks as locks;

/// An operand of a sum: a variable's number, or a number.
#[derive(Clone, Copy)]
pub enum Operand {
    Variable(usize),
    Number(i64),
}

/// A comparison of a variable with a number.
#[derive(Clone, Copy)]
pub enum Comparison {
    Equal,
    NotEqual,
    Less,
    AtMost,
    Greater,
    AtLeast,
}

impl Comparison {
    /// Whether the first number compares so with the second.
    pub fn compares(self, a: i64, b: i64) -> bool
        ensures { result ≡ spec.compares self a b }
    {
        match self {
            Comparison::Equal => a == b,
            Comparison::NotEqual => a != b,
            Comparison::Less => a < b,
            Comparison::AtMost => a <= b,
            Comparison::Greater => a > b,
            Comparison::AtLeast => a >= b,
        }
    }
}

/// Some of the program's two locks: of the submission side and of the completion side.
#[derive(Clone, Copy, PartialEq, Eq, Debug)]
pub struct Locks {
    pub sq: bool,
    pub cq: bool,
}

impl Locks {
    /// These locks and those.
    pub fn with(self, others: Locks) -> Locks
        ensures { result ≡ locks.with_locks self others }
    {
        Locks {
            sq: self.sq || others.sq,
            cq: self.cq || others.cq,
        }
    }
}

/// A statement without a block. Variables and buffers are by their numbers, files by the numbers that they are
/// declared with.
#[derive(Clone, Copy)]
pub enum Op {
    /// `x = n`.
    Set(usize, i64),
    /// `x = y`.
    Assign(usize, usize),
    /// `x = A + B`, wrapping.
    Add(usize, Operand, Operand),
    /// `x = A - B`, wrapping.
    Subtract(usize, Operand, Operand),
    /// `x = load B i`: the byte at a place of a buffer, 0 to 4095.
    Load(usize, usize, u32),
    /// `store B i x`: writes the low eight bits of a variable at a place of a buffer, 0 to 4095.
    Store(usize, u32, usize),
    /// `fill B x`: writes the low eight bits of a variable at every place of a buffer.
    Fill(usize, usize),
    /// `print x`.
    Print(usize),
    /// `get_sqe`: opens the next free submission entry (`io_uring_get_sqe(3)`).
    GetSqe,
    /// `prep_read F B LEN OFF`: makes the open entry a read of LEN bytes, 0 to 4096, of a file from OFF on, 0 to
    /// 1048576, into a buffer (`io_uring_prep_read(3)`).
    PrepRead(u32, usize, u32, u32),
    /// `prep_write F B LEN OFF K`: the same of a write, which takes K shares of the buffer (`io_uring_prep_write(3)`).
    PrepWrite(u32, usize, u32, u32, u32),
    /// `prep_fsync F FLAGS`: makes the open entry an fsync; whether of the data alone (`io_uring_prep_fsync(3)`).
    PrepFsync(u32, bool),
    /// `prep_nop`: makes the open entry a nop (`io_uring_prep_nop(3)`).
    PrepNop,
    /// `prep_other`: makes the open entry a request without a buffer that isn't a nop, as a poll, a timeout, a cancel, an
    /// accept or an openat.
    PrepOther,
    /// `set_data64 U`: gives the open entry its user data and queues it (`io_uring_sqe_set_data64(3)`).
    SetData64(u64),
    /// `x = submit`: hands queued entries to the kernel (`io_uring_submit(3)`).
    Submit(usize),
    /// `x = submit_and_wait n`: the same, and waits for n completions, 0 to 2048 (`io_uring_submit_and_wait(3)`).
    SubmitAndWait(usize, u32),
    /// `cqe_get_data64`: gets the user data of the front completion, whose request is reaped with that
    /// (`io_uring_cqe_get_data64(3)`). The entry stays until it is seen.
    CqeGetData64,
    /// `cqe_seen`: takes the front completion away (`io_uring_cqe_seen(3)`).
    CqeSeen,
}

/// What an if asks.
#[derive(Clone, Copy)]
pub enum Test {
    /// `if x OP n`.
    Compare(usize, Comparison, i64),
    /// `if sq_ready == 0`: whether no entry is queued or open (`io_uring_sq_ready(3)`).
    ReadyZero,
    /// `if sq_space_left >= n`: whether at least n entries, 0 to the ring's, are free (`io_uring_sq_space_left(3)`).
    SpaceAtLeast(u32),
    /// `if take ITEMS` or `if take NAME ITEMS`: whether the pool has at least the items, which then leave it. The
    /// number of the declared pool, none for the pool without a name; and that of the items among the thread's lists.
    Take(Option<usize>, usize),
    /// `if any`: the model doesn't say which branch is taken.
    Any,
}

/// What is on a line. The blocks of a program are lines of their own, and a closing line names the place of the
/// line that it belongs to.
#[derive(Clone, Copy)]
pub enum Stmt {
    /// A statement without a block.
    Do(Op),
    /// `put ITEMS` or `put NAME ITEMS`: the items go to the pool. The number of the declared pool, none for the pool
    /// without a name; and that of the items among the thread's lists.
    Put(Option<usize>, usize),
    /// `lock {`, `lock sq {` or `lock cq {`: takes both locks or one.
    Lock(Locks),
    /// The closing brace of the lock at this place, where the locks that its line took are released.
    EndLock(usize, Locks),
    /// `if .. {`.
    If(Test),
    /// `} else {`, of the if at this place.
    Else(usize),
    /// The closing brace of the if at this place, or of the else at this place where it has one.
    EndIf(usize),
    /// `peek_cqe x {`: looks at the front completion (`io_uring_peek_cqe(3)`); the variable's number.
    Peek(usize),
    /// `case U {`: the arm for this user data, of the peek at this place.
    Case(usize, u64),
    /// `other {`: the arm for any other user data, of the peek at this place.
    Other(usize),
    /// `none {`: the arm for no completion, of the peek at this place.
    Nothing(usize),
    /// The closing brace of an arm of the peek at this place.
    EndArm(usize),
    /// The closing brace of the peek at this place.
    EndPeek(usize),
    /// `loop keeps ITEMS {`: the number of its items among the thread's lists.
    Loop(usize),
    /// The closing brace of the loop at this place, and the number of its items among the thread's lists.
    EndLoop(usize, usize),
    /// `break` out of the loop at this place; the locks that it releases, and whether it leaves an arm of a peek.
    Break(usize, Locks, bool),
}

/// A line of a thread.
#[derive(Clone, Copy)]
pub struct Line {
    /// Its number in the model, from 1.
    pub number: u32,
    /// What is there.
    pub stmt: Stmt,
}

/// A block of a thread that is open at some place.
#[derive(Clone, Copy)]
pub enum Block {
    /// The lock that is opened at this place, and which locks its line takes.
    InLock(usize, Locks),
    /// The first branch of the if at this place.
    InIf(usize),
    /// The second branch of an if, which the else at this place begins.
    InElse(usize),
    /// The peek that is opened at this place.
    InPeek(usize),
    /// An arm of the peek at this place.
    InArm(usize),
    /// The loop at this place, and the number of its items.
    InLoop(usize, usize),
}
