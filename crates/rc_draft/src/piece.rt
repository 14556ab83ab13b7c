//! Pieces of a thread's code.

use rc_lang::lines::Locks;

/// A pool of the logs, by its number, or that which the thread has to itself.
#[derive(Clone, Copy, PartialEq)]
pub enum Pool {
    Log(u32),
    Own,
}

/// A number of a variable that is compared.
#[derive(Clone, Copy, PartialEq)]
pub enum Compared {
    /// The result of a completion.
    Result,
    /// How a loop was left.
    Exit(u32),
}

/// How it is compared.
#[derive(Clone, Copy, PartialEq)]
pub enum Relation {
    Equal,
    NotEqual,
    Less,
    AtLeast,
    Greater,
    AtMost,
}

/// What an `if` asks.
#[derive(Clone, Copy, PartialEq)]
pub enum Test {
    Any,
    /// A pool, and the number of a list of items.
    Take(Pool, u32),
    Compare(Compared, Relation, u32),
    ReadyZero,
    SpaceAtLeast(u32),
}

/// What opens a block.
#[derive(Clone, Copy, PartialEq)]
pub enum Head {
    Lock(Locks),
    Loop,
    Peek,
    Case(u32),
    Other,
    Nothing,
    If(Test),
}

/// A statement. Tokens and buffers are named by their places.
#[derive(Clone, Copy, PartialEq)]
pub enum Line {
    GetSqe,
    /// A token, and which of its requests.
    Prep(u32, u32),
    Data(u32),
    Submit,
    SubmitAndWait(u32),
    Fill(u32),
    Load(u32),
    /// What came with a completion is used before it is seen.
    Got,
    Seen,
    /// A pool, and the number of a list of items.
    Put(Pool, u32),
    Break,
    /// Before a loop: nothing says yet how it is left.
    Begin(u32),
    /// Leaves a loop for one of its exits.
    Leave(u32, u32),
}

/// A line of the text, or a few.
#[derive(Clone, Copy, PartialEq)]
pub enum Shape {
    Line(Line),
    Open(Head),
    Else,
    Close,
}

/// What a comment says.
#[derive(Clone, Copy)]
pub enum Comment {
    Nothing,
    /// The lines of C, by the number of a list.
    Places(u32),
    /// The line of C, by its place.
    Place(u32),
    /// What no log shows of a completion.
    Unseen { errno: bool, less: bool },
}

/// A piece, with its comment.
#[derive(Clone, Copy)]
pub struct Piece {
    pub shape: Shape,
    pub comment: Comment,
}

impl Piece {
    /// A statement without a comment.
    pub fn line(line: Line) -> Piece {
        Piece {
            shape: Shape::Line(line),
            comment: Comment::Nothing,
        }
    }

    /// The beginning of a block without a comment.
    pub fn open(head: Head) -> Piece {
        Piece {
            shape: Shape::Open(head),
            comment: Comment::Nothing,
        }
    }

    /// The beginning of an `if` without a comment.
    pub fn test(test: Test) -> Piece {
        Piece::open(Head::If(test))
    }

    /// Between both branches of an `if`.
    pub fn middle() -> Piece {
        Piece {
            shape: Shape::Else,
            comment: Comment::Nothing,
        }
    }

    /// The end of a block.
    pub fn close() -> Piece {
        Piece {
            shape: Shape::Close,
            comment: Comment::Nothing,
        }
    }

    /// The same with a comment.
    pub fn with(self, comment: Comment) -> Piece {
        Piece {
            shape: self.shape,
            comment,
        }
    }

    /// Whether nothing after it in its block is reached.
    pub fn is_break(self) -> bool {
        matches!(
            self.shape,
            Shape::Line(Line::Break) | Shape::Line(Line::Leave(_, _))
        )
    }

    /// The same `if` the other way round, where there is one.
    pub fn turned(self) -> Option<Piece> {
        let Shape::Open(Head::If(test)) = self.shape else {
            return None;
        };
        match test {
            Test::Any => Some(self),
            Test::Compare(compared, relation, number) => {
                let test = Test::Compare(compared, relation.turned(), number);
                Some(Piece::test(test).with(self.comment))
            }
            _ => None,
        }
    }
}

impl Relation {
    // What holds where this doesn't.
    fn turned(self) -> Relation {
        match self {
            Relation::Equal => Relation::NotEqual,
            Relation::NotEqual => Relation::Equal,
            Relation::Less => Relation::AtLeast,
            Relation::AtLeast => Relation::Less,
            Relation::Greater => Relation::AtMost,
            Relation::AtMost => Relation::Greater,
        }
    }

    /// How it is written.
    pub fn words(self) -> &'static [u8] {
        match self {
            Relation::Equal => b" == ",
            Relation::NotEqual => b" != ",
            Relation::Less => b" < ",
            Relation::AtLeast => b" >= ",
            Relation::Greater => b" > ",
            Relation::AtMost => b" <= ",
        }
    }
}
