//! What the names in a thread's lines stand for.

ghost use Rattle.std.specs.Prelude.{◌≡◌, slice_get};
ghost use Rattle.rc_lang.specs.Parts.{view_rows};
ghost use Rattle.rc_lang.specs.Program.{token_place};
ghost use Rattle.rc_lang.specs.Rows as spec;

use crate::lines::{Line, Op, Stmt};
use crate::program::{Program, Token};

/// What a row of a thread's table stands for: of buffers their numbers, of tokens their places.
#[derive(Clone, Copy)]
pub enum Named {
    /// This one.
    One(usize),
    /// The member of a family that a variable says: the first member, how many there are, and the variable's number.
    Member {
        first: usize,
        count: usize,
        variable: usize,
    },
}

impl Named {
    // What this stands for. A value that is no member's number stands for the first member.
    fn number(self, variables: &[i64]) -> usize
        requires { spec.IsSmall self }
        ensures { result ≡ spec.number_at variables.now self }
    {
        match self {
            Named::One(number) => number,
            Named::Member {
                first,
                count,
                variable,
            } => first + index_in(count, value_of(variables, variable)),
        }
    }
}

/// What the names in a thread's lines stand for. A name without a row stands for itself.
#[derive(Drop)]
pub struct Rows {
    /// By the numbers by which its lines name buffers.
    pub buffers: Vec<Named>,
    /// Tokens as its lines name them: by user data, with kinds that name rows of buffers.
    pub tokens: Vec<Token>,
    /// What each of these tokens stands for.
    pub members: Vec<Named>,
}

impl Rows {
    /// The buffer that a number in the thread's lines stands for.
    pub fn buffer(&self, variables: &[i64], buffer: usize) -> usize
        requires { spec.AreSmall (view_rows self.now) }
        ensures { result ≡ spec.read_buffer (view_rows self.now) variables.now buffer }
    {
        row_at(&self.buffers, buffer).number(variables)
    }

    /// The user data that a user data in the thread's lines stands for.
    pub fn token(&self, program: &Program, variables: &[i64], user_data: u64) -> u64
        requires { spec.AreSmall (view_rows self.now) }
        ensures { result ≡ spec.read_token program.now (view_rows self.now) variables.now
            user_data }
    {
        match row_of(&self.tokens, user_data) {
            Some(row) => data_at(program, row_at(&self.members, row).number(variables)),
            None => user_data,
        }
    }

    /// A line with what its names stand for.
    pub fn read_line(&self, program: &Program, variables: &[i64], line: Line) -> Line
        requires { spec.AreSmall (view_rows self.now) }
        ensures { result ≡ spec.read_line program.now (view_rows self.now) variables.now line }
    {
        if self.is_empty() {
            return line;
        }
        match line.stmt {
            Stmt::Do(op) => Line {
                number: line.number,
                stmt: Stmt::Do(self.read_op(program, variables, op)),
            },
            _ => line,
        }
    }

    // Whether no name has a row.
    fn is_empty(&self) -> bool
        ensures { result ≡ spec.has_no_rows (view_rows self.now) }
    {
        self.buffers.len() == 0 && self.tokens.len() == 0
    }

    // A statement with what its names stand for.
    fn read_op(&self, program: &Program, variables: &[i64], op: Op) -> Op
        requires { spec.AreSmall (view_rows self.now) }
        ensures { result ≡ spec.read_op program.now (view_rows self.now) variables.now op }
    {
        match op {
            Op::Load(x, buffer, place) => Op::Load(x, self.buffer(variables, buffer), place),
            Op::Store(buffer, place, x) => Op::Store(self.buffer(variables, buffer), place, x),
            Op::Fill(buffer, x) => Op::Fill(self.buffer(variables, buffer), x),
            Op::PrepRead(file, buffer, len, off) => {
                Op::PrepRead(file, self.buffer(variables, buffer), len, off)
            }
            Op::PrepWrite(file, buffer, len, off, shares) => {
                Op::PrepWrite(file, self.buffer(variables, buffer), len, off, shares)
            }
            Op::SetData64(user_data) => { Op::SetData64(self.token(program, variables, user_data)) }
            _ => op,
        }
    }
}

// The row of a name.
fn row_at(rows: &[Named], name: usize) -> Named
    ensures { result ≡ spec.row_at rows.now name }
{
    rows.get(name).copied().unwrap_or(Named::One(name))
}

// The place of the token with this user data among these.
fn row_of(tokens: &[Token], user_data: u64) -> Option<usize>
    ensures { result ≡ token_place tokens.now user_data }
{
    tokens.iter().position(|token| token.user_data == user_data)
}

// The user data of the token at a place.
fn data_at(program: &Program, place: usize) -> u64
    ensures { result ≡ spec.data_in (slice_get program.now.tokens place) }
{
    match program.tokens().get(place) {
        Some(token) => token.user_data,
        None => 0,
    }
}

// The value of a variable.
fn value_of(variables: &[i64], variable: usize) -> i64
    ensures { result ≡ spec.value_of variables.now variable }
{
    variables.get(variable).copied().unwrap_or(0)
}

// The value, where it is one of so many numbers from 0 on, and else 0.
fn index_in(count: usize, value: i64) -> usize
    ensures { result ≡ spec.index_in count value }
{
    match usize::try_from(value) {
        Ok(index) if index < count => index,
        _ => 0,
    }
}
