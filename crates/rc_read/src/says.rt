//! What a line says.

ghost use Rattle.std.specs.Prelude.{◌≡◌, slice_get};
ghost use Rattle.rc_read.specs.Says as spec;
ghost use Rattle.rc_read.specs.Values.{kinds_named};

use crate::table::Row;
use crate::values::{Value, rounded_up};
use rc_lang::lines::{Comparison, Locks, Op, Operand, Test};
use rc_lang::program::{File, Token, TokenKind};

/// The numbers of entries of the rings, and how many entries may be left queued where the lock of the submission side
/// is released.
#[derive(Clone, Copy)]
pub struct Rings {
    pub entries: u32,
    pub completion_entries: u32,
    pub left: u32,
}

/// What a line says, but for its items and the name that it declares.
#[derive(Clone, Copy)]
pub enum Says {
    Version(u32),
    Ring(Rings),
    File(File),
    /// A buffer's bytes and shares.
    Buffer(u32, u32),
    Token(Token),
    Pool,
    /// A pool with what it has at the start, and what the one without a name has.
    PoolStock,
    UnnamedStock,
    /// How many copies of the thread there are, where the line says so.
    Thread(Option<u32>),
    Op(Op),
    /// The number of the declared pool, none for the pool without a name.
    Put(Option<usize>),
    Lock(Locks),
    If(Test),
    /// The number of the declared pool, none for the pool without a name.
    Take(Option<usize>),
    Else,
    Peek(usize),
    Case(u64),
    Other,
    Nothing,
    Loop,
    Break,
    Close,
}

fn small(values: &[Value], i: usize) -> u32
    ensures { result ≡ spec.small values.now i }
{
    match values.get(i) {
        Some(Value::Small(n)) => *n,
        _ => 0,
    }
}

fn user_data(values: &[Value], i: usize) -> u64
    ensures { result ≡ spec.user_data values.now i }
{
    match values.get(i) {
        Some(Value::UserData(u)) => *u,
        _ => 0,
    }
}

fn named(values: &[Value], i: usize) -> usize
    ensures { result ≡ spec.named values.now i }
{
    match values.get(i) {
        Some(Value::Named(n)) => *n,
        _ => 0,
    }
}

fn operand(values: &[Value], i: usize) -> Operand
    ensures { result ≡ spec.operand values.now i }
{
    match values.get(i) {
        Some(Value::Operand(operand)) => *operand,
        _ => Operand::Number(0),
    }
}

fn signed(values: &[Value], i: usize) -> i64
    ensures { result ≡ spec.signed values.now i }
{
    match values.get(i) {
        Some(Value::Operand(Operand::Number(n))) => *n,
        _ => 0,
    }
}

fn comparison(values: &[Value], i: usize) -> Comparison
    ensures { result ≡ spec.comparison values.now i }
{
    match values.get(i) {
        Some(Value::Compares(comparison)) => *comparison,
        _ => Comparison::Equal,
    }
}

// Rings without a size of its own for the completion ring, which then has twice the entries (`io_uring_setup(2)`).
fn with_rings(size: u32, left: u32) -> Says
    ensures { result ≡ spec.with_rings size left }
{
    let entries = rounded_up(size);
    Says::Ring(Rings {
        entries,
        completion_entries: 2 * entries,
        left,
    })
}

fn with_both(size: u32, completion_size: u32, left: u32) -> Says
    ensures { result ≡ spec.with_both size completion_size left }
{
    Says::Ring(Rings {
        entries: rounded_up(size),
        completion_entries: rounded_up(completion_size),
        left,
    })
}

// `x = A`, by what A is.
fn sets(variable: usize, to: Operand) -> Says
    ensures { result ≡ spec.sets variable to }
{
    match to {
        Operand::Variable(from) => Says::Op(Op::Assign(variable, from)),
        Operand::Number(n) => Says::Op(Op::Set(variable, n)),
    }
}

// A lock of the submission side or of the completion side, or of both.
fn locks(sq: bool, cq: bool) -> Says
    ensures { result ≡ Says.Lock (record { sq = sq; cq = cq }) }
{
    Says::Lock(Locks { sq, cq })
}

// A token of one kind.
fn of_one(user_data: u64, kind: TokenKind) -> Says
    ensures { result ≡ spec.of_one user_data kind }
{
    Says::Token(Token {
        user_data,
        kind,
        others: [None, None, None],
    })
}

// The kind with this number, from 0, that a line names.
fn kind_at(values: &[Value], number: usize) -> Option<TokenKind>
    ensures { result ≡ slice_get (kinds_named values.now) number }
{
    let mut left = number;
    for value in values {
        if let Value::Kind(kind) = *value {
            if left == 0 {
                return Some(kind);
            }
            left -= 1;
        }
    }
    None
}

// A token of the kinds that a line names, up to four.
fn of_kinds(user_data: u64, v: &[Value]) -> Says
    ensures { result ≡ spec.of_kinds user_data (kinds_named v.now) }
{
    Says::Token(Token {
        user_data,
        kind: kind_at(v, 0).unwrap_or(TokenKind::Nop),
        others: [kind_at(v, 1), kind_at(v, 2), kind_at(v, 3)],
    })
}

/// What a line of this form says, given what its places say.
pub fn says_of(row: Row, v: &[Value]) -> Says
    ensures { result ≡ spec.says_of row v.now }
{
    match row {
        Row::Version => Says::Version(1),
        Row::SecondVersion => Says::Version(2),
        Row::ThirdVersion => Says::Version(3),
        Row::FourthVersion => Says::Version(4),
        Row::FifthVersion => Says::Version(5),
        Row::Ring => with_rings(small(v, 0), 0),
        Row::RingCq => with_both(small(v, 0), small(v, 1), 0),
        Row::RingLeft => with_rings(small(v, 0), small(v, 1)),
        Row::RingCqLeft => with_both(small(v, 0), small(v, 1), small(v, 2)),
        Row::File => Says::File(File {
            number: small(v, 0),
            len: small(v, 1),
        }),
        Row::Buffer => Says::Buffer(small(v, 1), small(v, 2)),
        Row::TokenRead => of_one(user_data(v, 0), TokenKind::Read(named(v, 1))),
        Row::TokenWrite => of_one(user_data(v, 0), TokenKind::Write(named(v, 1), small(v, 2))),
        Row::TokenFsync => of_one(user_data(v, 0), TokenKind::Fsync),
        Row::TokenNop => of_one(user_data(v, 0), TokenKind::Nop),
        Row::TokenOther => of_one(user_data(v, 0), TokenKind::Other),
        Row::TokenKinds => of_kinds(user_data(v, 0), v),
        Row::Pool => Says::Pool,
        Row::PoolStock => Says::PoolStock,
        Row::UnnamedStock => Says::UnnamedStock,
        Row::Thread => Says::Thread(None),
        Row::Threads => Says::Thread(Some(small(v, 1))),
        Row::Set => sets(named(v, 0), operand(v, 1)),
        Row::Add => Says::Op(Op::Add(named(v, 0), operand(v, 1), operand(v, 2))),
        Row::Subtract => Says::Op(Op::Subtract(named(v, 0), operand(v, 1), operand(v, 2))),
        Row::Load => Says::Op(Op::Load(named(v, 0), named(v, 1), small(v, 2))),
        Row::Store => Says::Op(Op::Store(named(v, 0), small(v, 1), named(v, 2))),
        Row::Fill => Says::Op(Op::Fill(named(v, 0), named(v, 1))),
        Row::Print => Says::Op(Op::Print(named(v, 0))),
        Row::Put => Says::Put(None),
        Row::PutNamed => Says::Put(Some(named(v, 0))),
        Row::Lock => locks(true, true),
        Row::LockSq => locks(true, false),
        Row::LockCq => locks(false, true),
        Row::GetSqe => Says::Op(Op::GetSqe),
        Row::PrepRead => Says::Op(Op::PrepRead(small(v, 0), named(v, 1), small(v, 2), small(v, 3))),
        Row::PrepWrite => Says::Op(Op::PrepWrite(
            small(v, 0),
            named(v, 1),
            small(v, 2),
            small(v, 3),
            small(v, 4),
        )),
        Row::PrepFsync => Says::Op(Op::PrepFsync(small(v, 0), small(v, 1) == 1)),
        Row::PrepNop => Says::Op(Op::PrepNop),
        Row::PrepOther => Says::Op(Op::PrepOther),
        Row::SetData64 => Says::Op(Op::SetData64(user_data(v, 0))),
        Row::Submit => Says::Op(Op::Submit(named(v, 0))),
        Row::SubmitAndWait => Says::Op(Op::SubmitAndWait(named(v, 0), small(v, 1))),
        Row::CqeGetData64 => Says::Op(Op::CqeGetData64),
        Row::CqeSeen => Says::Op(Op::CqeSeen),
        Row::Peek => Says::Peek(named(v, 0)),
        Row::Case => Says::Case(user_data(v, 0)),
        Row::Other => Says::Other,
        Row::Nothing => Says::Nothing,
        Row::If => Says::If(Test::Compare(named(v, 0), comparison(v, 1), signed(v, 2))),
        Row::IfReady => Says::If(Test::ReadyZero),
        Row::IfSpace => Says::If(Test::SpaceAtLeast(small(v, 0))),
        Row::IfTake => Says::Take(None),
        Row::IfTakeNamed => Says::Take(Some(named(v, 0))),
        Row::IfAny => Says::If(Test::Any),
        Row::Else => Says::Else,
        Row::Loop | Row::LoopWhen => Says::Loop,
        Row::Break => Says::Break,
        Row::Close => Says::Close,
    }
}
