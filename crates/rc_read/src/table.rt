//! The table of the notation's forms.

ghost use Rattle.std.specs.Prelude.{◌≡◌};
ghost use Rattle.rc_read.specs.Table as spec;

use crate::fixed::Word;
pub use crate::order::{assignments, rows_of, stand_of, version_of};

/// The range of a number.
#[derive(Clone, Copy)]
pub enum Range {
    /// From the first number to the second.
    Within(u32, u32),
    /// A submission ring's size, which is rounded up to its entries.
    Size,
    /// A completion ring's size, whose entries are at least those of the submission ring before.
    CompletionSize,
    /// To the entries of the submission ring of the size before.
    Rounded,
    /// To the ring's entries.
    Entries,
    /// From 1 to the shares of the buffer before.
    Shares,
}

/// A part of a form.
#[derive(Clone, Copy)]
pub enum Part {
    /// A word that is as it is.
    Fixed(Word),
    Variable,
    /// A variable or a signed number.
    Operand,
    Comparison,
    Signed,
    Number(Range),
    /// A file, a buffer, a token or a pool that is declared above.
    File,
    Buffer,
    Token,
    Pool,
    /// A file, a buffer, a token, a pool or a thread that the line declares.
    NewFile,
    NewBuffer,
    NewToken,
    NewPool,
    NewThread,
    /// Threads that the line declares under one name: `NAME[N]`.
    NewThreads,
    /// In it: how many threads.
    Copies,
    /// Any number of items.
    Items,
    /// The variable after `when`.
    Flag,
    /// In an item: the shares of the buffer before, a token that is declared above, credits and queued entries.
    HeldShares,
    HeldToken,
    Credits,
    Queued,
    /// One to four kinds of requests, with `or` between two.
    Kinds,
    /// In kinds: the first word of one, the buffer of a read that is declared above, and how many shares of the buffer
    /// before a write owns.
    KindWord,
    ReadBuffer,
    WriteShares,
}

/// A form of lines.
#[derive(Clone, Copy)]
pub enum Row {
    Version,
    SecondVersion,
    ThirdVersion,
    FourthVersion,
    FifthVersion,
    Ring,
    RingCq,
    RingLeft,
    RingCqLeft,
    File,
    Buffer,
    TokenRead,
    TokenWrite,
    TokenFsync,
    TokenNop,
    TokenOther,
    TokenKinds,
    Pool,
    PoolStock,
    UnnamedStock,
    Thread,
    Threads,
    Set,
    Add,
    Subtract,
    Load,
    Store,
    Fill,
    Print,
    Put,
    PutNamed,
    Lock,
    LockSq,
    LockCq,
    GetSqe,
    PrepRead,
    PrepWrite,
    PrepFsync,
    PrepNop,
    PrepOther,
    SetData64,
    Submit,
    SubmitAndWait,
    CqeGetData64,
    CqeSeen,
    Peek,
    Case,
    Other,
    Nothing,
    If,
    IfReady,
    IfSpace,
    IfTake,
    IfTakeNamed,
    IfAny,
    Else,
    Loop,
    LoopWhen,
    Break,
    Close,
}

/// Where in a model a form may be.
#[derive(Clone, Copy)]
pub enum Stand {
    /// As the first line.
    First,
    /// As the second line.
    Second,
    /// After the head, above the threads.
    Declaration,
    /// After the head, in no thread.
    Header,
    /// In a thread.
    Inside,
    /// Wherever a block may be open.
    Brace,
}

const POOL: Part = Part::Fixed(Word::Pool);

const HOLDS: Part = Part::Fixed(Word::Holds);

/// The parts of a form, from the left.
pub fn parts_of(row: Row) -> &'static [Part]
    ensures { result.now ≡ spec.parts_of row }
{
    match row {
        Row::Version => &[Part::Fixed(Word::Ringcheck), Part::Fixed(Word::One)],
        Row::SecondVersion => &[Part::Fixed(Word::Ringcheck), Part::Fixed(Word::Two)],
        Row::ThirdVersion => &[Part::Fixed(Word::Ringcheck), Part::Fixed(Word::Three)],
        Row::FourthVersion => &[Part::Fixed(Word::Ringcheck), Part::Fixed(Word::Four)],
        Row::FifthVersion => &[Part::Fixed(Word::Ringcheck), Part::Fixed(Word::Five)],
        Row::Ring => &[Part::Fixed(Word::Ring), Part::Number(Range::Size)],
        Row::RingCq => &[
            Part::Fixed(Word::Ring),
            Part::Number(Range::Size),
            Part::Fixed(Word::Cq),
            Part::Number(Range::CompletionSize),
        ],
        Row::RingLeft => &[
            Part::Fixed(Word::Ring),
            Part::Number(Range::Size),
            Part::Fixed(Word::Left),
            Part::Number(Range::Rounded),
        ],
        Row::RingCqLeft => &[
            Part::Fixed(Word::Ring),
            Part::Number(Range::Size),
            Part::Fixed(Word::Cq),
            Part::Number(Range::CompletionSize),
            Part::Fixed(Word::Left),
            Part::Number(Range::Rounded),
        ],
        Row::File => &[
            Part::Fixed(Word::File),
            Part::NewFile,
            Part::Number(Range::Within(0, 65536)),
        ],
        Row::Buffer => &[
            Part::Fixed(Word::Buffer),
            Part::NewBuffer,
            Part::Number(Range::Within(1, 4096)),
            Part::Number(Range::Within(1, 16)),
        ],
        Row::TokenRead => &[
            Part::Fixed(Word::Token),
            Part::NewToken,
            Part::Fixed(Word::Read),
            Part::Buffer,
        ],
        Row::TokenWrite => &[
            Part::Fixed(Word::Token),
            Part::NewToken,
            Part::Fixed(Word::Write),
            Part::Buffer,
            Part::Number(Range::Shares),
        ],
        Row::TokenFsync => &[
            Part::Fixed(Word::Token),
            Part::NewToken,
            Part::Fixed(Word::Fsync),
        ],
        Row::TokenNop => &[
            Part::Fixed(Word::Token),
            Part::NewToken,
            Part::Fixed(Word::Nop),
        ],
        Row::TokenOther => &[
            Part::Fixed(Word::Token),
            Part::NewToken,
            Part::Fixed(Word::Other),
        ],
        Row::TokenKinds => &[Part::Fixed(Word::Token), Part::NewToken, Part::Kinds],
        Row::Pool => &[POOL, Part::NewPool],
        Row::PoolStock => &[POOL, Part::NewPool, HOLDS, Part::Items],
        Row::UnnamedStock => &[POOL, HOLDS, Part::Items],
        Row::Thread => &[
            Part::Fixed(Word::Thread),
            Part::NewThread,
            Part::Fixed(Word::Holds),
            Part::Items,
            Part::Fixed(Word::Open),
        ],
        Row::Threads => &[
            Part::Fixed(Word::Thread),
            Part::NewThreads,
            Part::Fixed(Word::Holds),
            Part::Items,
            Part::Fixed(Word::Open),
        ],
        Row::Set => &[Part::Variable, Part::Fixed(Word::Is), Part::Operand],
        Row::Add => &[
            Part::Variable,
            Part::Fixed(Word::Is),
            Part::Operand,
            Part::Fixed(Word::Plus),
            Part::Operand,
        ],
        Row::Subtract => &[
            Part::Variable,
            Part::Fixed(Word::Is),
            Part::Operand,
            Part::Fixed(Word::Minus),
            Part::Operand,
        ],
        Row::Load => &[
            Part::Variable,
            Part::Fixed(Word::Is),
            Part::Fixed(Word::Load),
            Part::Buffer,
            Part::Number(Range::Within(0, 4095)),
        ],
        Row::Store => &[
            Part::Fixed(Word::Store),
            Part::Buffer,
            Part::Number(Range::Within(0, 4095)),
            Part::Variable,
        ],
        Row::Fill => &[Part::Fixed(Word::Fill), Part::Buffer, Part::Variable],
        Row::Print => &[Part::Fixed(Word::Print), Part::Variable],
        Row::Put => &[Part::Fixed(Word::Put), Part::Items],
        Row::PutNamed => &[Part::Fixed(Word::Put), Part::Pool, Part::Items],
        Row::Lock => &[Part::Fixed(Word::Lock), Part::Fixed(Word::Open)],
        Row::LockSq => &[
            Part::Fixed(Word::Lock),
            Part::Fixed(Word::Sq),
            Part::Fixed(Word::Open),
        ],
        Row::LockCq => &[
            Part::Fixed(Word::Lock),
            Part::Fixed(Word::Cq),
            Part::Fixed(Word::Open),
        ],
        Row::GetSqe => &[Part::Fixed(Word::GetSqe)],
        Row::PrepRead => &[
            Part::Fixed(Word::PrepRead),
            Part::File,
            Part::Buffer,
            Part::Number(Range::Within(0, 4096)),
            Part::Number(Range::Within(0, 1048576)),
        ],
        Row::PrepWrite => &[
            Part::Fixed(Word::PrepWrite),
            Part::File,
            Part::Buffer,
            Part::Number(Range::Within(0, 4096)),
            Part::Number(Range::Within(0, 1048576)),
            Part::Number(Range::Shares),
        ],
        Row::PrepFsync => &[
            Part::Fixed(Word::PrepFsync),
            Part::File,
            Part::Number(Range::Within(0, 1)),
        ],
        Row::PrepNop => &[Part::Fixed(Word::PrepNop)],
        Row::PrepOther => &[Part::Fixed(Word::PrepOther)],
        Row::SetData64 => &[Part::Fixed(Word::SetData64), Part::Token],
        Row::Submit => &[
            Part::Variable,
            Part::Fixed(Word::Is),
            Part::Fixed(Word::Submit),
        ],
        Row::SubmitAndWait => &[
            Part::Variable,
            Part::Fixed(Word::Is),
            Part::Fixed(Word::SubmitAndWait),
            Part::Number(Range::Within(0, 2048)),
        ],
        Row::CqeGetData64 => &[Part::Fixed(Word::CqeGetData64)],
        Row::CqeSeen => &[Part::Fixed(Word::CqeSeen)],
        Row::Peek => &[
            Part::Fixed(Word::PeekCqe),
            Part::Variable,
            Part::Fixed(Word::Open),
        ],
        Row::Case => &[
            Part::Fixed(Word::Case),
            Part::Token,
            Part::Fixed(Word::Open),
        ],
        Row::Other => &[Part::Fixed(Word::Other), Part::Fixed(Word::Open)],
        Row::Nothing => &[Part::Fixed(Word::Nothing), Part::Fixed(Word::Open)],
        Row::If => &[
            Part::Fixed(Word::If),
            Part::Variable,
            Part::Comparison,
            Part::Signed,
            Part::Fixed(Word::Open),
        ],
        Row::IfReady => &[
            Part::Fixed(Word::If),
            Part::Fixed(Word::SqReady),
            Part::Fixed(Word::Equal),
            Part::Fixed(Word::Zero),
            Part::Fixed(Word::Open),
        ],
        Row::IfSpace => &[
            Part::Fixed(Word::If),
            Part::Fixed(Word::SqSpaceLeft),
            Part::Fixed(Word::AtLeast),
            Part::Number(Range::Entries),
            Part::Fixed(Word::Open),
        ],
        Row::IfTake => &[
            Part::Fixed(Word::If),
            Part::Fixed(Word::Take),
            Part::Items,
            Part::Fixed(Word::Open),
        ],
        Row::IfTakeNamed => &[
            Part::Fixed(Word::If),
            Part::Fixed(Word::Take),
            Part::Pool,
            Part::Items,
            Part::Fixed(Word::Open),
        ],
        Row::IfAny => &[
            Part::Fixed(Word::If),
            Part::Fixed(Word::Any),
            Part::Fixed(Word::Open),
        ],
        Row::Else => &[
            Part::Fixed(Word::Close),
            Part::Fixed(Word::Else),
            Part::Fixed(Word::Open),
        ],
        Row::Loop => &[
            Part::Fixed(Word::Loop),
            Part::Fixed(Word::Keeps),
            Part::Items,
            Part::Fixed(Word::Open),
        ],
        Row::LoopWhen => &[
            Part::Fixed(Word::Loop),
            Part::Fixed(Word::Keeps),
            Part::Items,
            Part::Fixed(Word::When),
            Part::Flag,
            Part::Items,
            Part::Fixed(Word::Open),
        ],
        Row::Break => &[Part::Fixed(Word::Break)],
        Row::Close => &[Part::Fixed(Word::Close)],
    }
}
