//! A thread's flag, and what lines say of it.

ghost use Rattle.std.specs.Prelude.{◌≡◌, pos};
ghost use Rattle.std.specs.Ordering.{int_eq};
ghost use Rattle.rc_rules.specs.Sides as spec;

use rc_lang::lines::{Comparison, Op};

/// What a line writes to the flag.
#[derive(Clone, Copy)]
pub enum Write {
    /// Nothing.
    Untouched,
    /// This number.
    Number(i64),
    /// Any number.
    Anything,
}

fn write_to(flag: Option<usize>, variable: usize, write: Write) -> Write
    ensures { result ≡ spec.write_to flag variable write }
{
    match flag {
        Some(flag) => {
            if flag == variable {
                write
            } else {
                Write::Untouched
            }
        }
        None => Write::Untouched,
    }
}

/// What the statement writes to the flag.
pub fn write_of(flag: Option<usize>, op: Op) -> Write
    ensures { result ≡ spec.write_of flag op }
{
    match op {
        Op::Set(x, n) => write_to(flag, x, Write::Number(n)),
        Op::Assign(x, _) => write_to(flag, x, Write::Anything),
        Op::Add(x, _, _) => write_to(flag, x, Write::Anything),
        Op::Subtract(x, _, _) => write_to(flag, x, Write::Anything),
        Op::Load(x, _, _) => write_to(flag, x, Write::Anything),
        Op::Submit(x) => write_to(flag, x, Write::Anything),
        Op::SubmitAndWait(x, _) => write_to(flag, x, Write::Anything),
        Op::Store(_, _, _) => Write::Untouched,
        Op::Fill(_, _) => Write::Untouched,
        Op::Print(_) => Write::Untouched,
        Op::GetSqe => Write::Untouched,
        Op::PrepRead(_, _, _, _) => Write::Untouched,
        Op::PrepWrite(_, _, _, _, _) => Write::Untouched,
        Op::PrepFsync(_, _) => Write::Untouched,
        Op::PrepNop => Write::Untouched,
        Op::PrepOther => Write::Untouched,
        Op::SetData64(_) => Write::Untouched,
        Op::CqeGetData64 => Write::Untouched,
        Op::CqeSeen => Write::Untouched,
    }
}

pub fn is_zero(n: i64) -> bool
    ensures { result ≡ int_eq n (pos 0) }
{
    n == 0
}

fn is_exact(comparison: Comparison, n: i64) -> bool
    ensures { result ≡ spec.is_exact comparison n }
{
    match comparison {
        Comparison::Equal => is_zero(n),
        Comparison::NotEqual => is_zero(n),
        Comparison::Less => false,
        Comparison::AtMost => false,
        Comparison::Greater => false,
        Comparison::AtLeast => false,
    }
}

/// Whether a thread on a side of the flag may go to the branch of a test of it that holds, or to the one that doesn't.
pub fn side_goes(comparison: Comparison, n: i64, zero: bool, holds: bool) -> bool
    ensures { result ≡ spec.side_goes comparison n zero holds }
{
    let with_zero = comparison.compares(0, n) == holds;
    if zero {
        with_zero
    } else {
        !(is_exact(comparison, n) && with_zero)
    }
}
