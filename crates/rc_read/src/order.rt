//! Where in a model a form may be, which version has it, and the order in which forms are tried.

ghost use Rattle.std.specs.Prelude.{◌≡◌};
ghost use Rattle.rc_read.specs.Quick.{beginning};
ghost use Rattle.rc_read.specs.Table as spec;

use crate::table::{Row, Stand};

/// Where a form may be.
pub fn stand_of(row: Row) -> Stand
    ensures { result ≡ spec.stand_of row }
{
    match row {
        Row::Version | Row::SecondVersion | Row::ThirdVersion => Stand::First,
        Row::FourthVersion | Row::FifthVersion => Stand::First,
        Row::Ring | Row::RingCq | Row::RingLeft | Row::RingCqLeft => Stand::Second,
        Row::File
        | Row::Buffer
        | Row::TokenRead
        | Row::TokenWrite
        | Row::TokenFsync
        | Row::TokenNop
        | Row::TokenOther
        | Row::TokenKinds
        | Row::Pool
        | Row::PoolStock
        | Row::UnnamedStock => Stand::Declaration,
        Row::Thread | Row::Threads => Stand::Header,
        Row::Else | Row::Close => Stand::Brace,
        Row::Set | Row::Add | Row::Subtract | Row::Load | Row::Store | Row::Fill => Stand::Inside,
        Row::Print | Row::Lock | Row::GetSqe | Row::PrepRead | Row::PrepWrite => Stand::Inside,
        Row::PrepFsync | Row::PrepNop | Row::SetData64 | Row::Submit => Stand::Inside,
        Row::SubmitAndWait
        | Row::CqeGetData64
        | Row::CqeSeen
        | Row::Peek
        | Row::Case
        | Row::Other => Stand::Inside,
        Row::Nothing | Row::If | Row::IfReady | Row::IfSpace | Row::IfTake => Stand::Inside,
        Row::Put | Row::Loop | Row::LoopWhen | Row::Break | Row::PutNamed => Stand::Inside,
        Row::LockSq | Row::LockCq | Row::IfTakeNamed | Row::PrepOther | Row::IfAny => Stand::Inside,
    }
}

/// The version of the notation from which on a form is in models.
pub fn version_of(row: Row) -> u32
    ensures { result ≡ spec.version_of row }
{
    match row {
        Row::LoopWhen => 2,
        Row::Put | Row::IfTake => 3,
        Row::Pool | Row::PutNamed | Row::LockSq | Row::LockCq | Row::IfTakeNamed => 4,
        Row::TokenOther | Row::TokenKinds | Row::PrepOther | Row::CqeGetData64 | Row::IfAny => 5,
        Row::Threads | Row::PoolStock | Row::UnnamedStock => 5,
        _ => 1,
    }
}

/// The forms whose first word is fixed and begins with this byte, in the order in which they are tried.
pub fn rows_of(first: u8) -> &'static [Row]
    ensures { result.now ≡ beginning first spec.fixed_rows }
{
    match first {
        b'}' => &[Row::Close, Row::Else],
        b'b' => &[Row::Break, Row::Buffer],
        b'g' => &[Row::GetSqe],
        b'c' => &[Row::CqeSeen, Row::Case, Row::CqeGetData64],
        b'p' => &[
            Row::PrepNop,
            Row::PrepOther,
            Row::Peek,
            Row::Print,
            Row::PrepRead,
            Row::PrepWrite,
            Row::PrepFsync,
            Row::Put,
            Row::PutNamed,
            Row::Pool,
            Row::PoolStock,
            Row::UnnamedStock,
        ],
        b'l' => &[
            Row::Lock,
            Row::Loop,
            Row::LoopWhen,
            Row::LockSq,
            Row::LockCq,
        ],
        b'o' => &[Row::Other],
        b'n' => &[Row::Nothing],
        b's' => &[Row::SetData64, Row::Store],
        b'f' => &[Row::Fill, Row::File],
        b'i' => &[
            Row::IfReady,
            Row::If,
            Row::IfSpace,
            Row::IfTake,
            Row::IfTakeNamed,
            Row::IfAny,
        ],
        b't' => &[
            Row::Thread,
            Row::Threads,
            Row::TokenRead,
            Row::TokenWrite,
            Row::TokenFsync,
            Row::TokenNop,
            Row::TokenOther,
            Row::TokenKinds,
        ],
        b'r' => &[
            Row::Ring,
            Row::RingCq,
            Row::RingLeft,
            Row::RingCqLeft,
            Row::Version,
            Row::SecondVersion,
            Row::ThirdVersion,
            Row::FourthVersion,
            Row::FifthVersion,
        ],
        _ => &[],
    }
}

/// The forms that begin with a variable, in the order in which they are tried.
pub fn assignments() -> &'static [Row]
    ensures { result.now ≡ spec.assignments }
{
    &[
        Row::Submit,
        Row::Set,
        Row::Add,
        Row::Subtract,
        Row::Load,
        Row::SubmitAndWait,
    ]
}
