//! The code of a thread while it is written.

use crate::code::Code;
use crate::items::Lists;
use crate::marks::number_of;
use crate::piece::{Comment, Head, Line, Piece};
use crate::scopes::Scope;
use crate::tasks::Task;
use rc_lang::lines::Locks;
use rc_replay::replayed::Held;
use std::alloc::{AllocError, Global};

/// The code of a thread, and what its pieces name.
#[derive(Drop)]
pub struct Body {
    pub code: Code,
    pub lists: Lists,
    /// Lists of places of C.
    pub comments: Vec<Vec<u32>>,
    pub turns: Vec<Turn>,
    /// How many variables say how a loop was left.
    pub variables: u32,
    /// Whether some items are put into the pool that the thread has to itself.
    pub has_own: bool,
}

/// A loop, and how it is left.
#[derive(Drop)]
pub struct Turn {
    /// The scope around it.
    pub scope: u32,
    /// The nodes for which it is left.
    pub exits: Vec<u32>,
    /// What is put for each, by the number of its list.
    pub puts: Vec<u32>,
    /// The variable that says which it is.
    pub variable: Option<u32>,
}

/// What is to be written, and what was.
#[derive(Drop)]
pub struct Work {
    pub body: Body,
    pub scopes: Vec<Scope>,
    pub tasks: Vec<Task>,
    /// Whether there is something that can't be written.
    pub is_given_up: bool,
}

impl Body {
    /// Nothing.
    pub fn new(alloc: Global) -> Body {
        Body {
            code: Code::new(alloc),
            lists: Lists {
                lists: Vec::new(alloc),
            },
            comments: Vec::new(alloc),
            turns: Vec::new(alloc),
            variables: 0,
            has_own: false,
        }
    }

    /// Adds a piece.
    pub fn add(&mut self, piece: Piece) -> Result<(), AllocError> {
        self.code.add(piece)
    }

    /// Adds a statement without a comment.
    pub fn line(&mut self, line: Line) -> Result<(), AllocError> {
        self.code.add(Piece::line(line))
    }

    /// Adds the beginning of a block without a comment.
    pub fn open(&mut self, head: Head) -> Result<(), AllocError> {
        self.code.add(Piece::open(head))
    }

    /// Adds the end of a block.
    pub fn close(&mut self) -> Result<(), AllocError> {
        self.code.add(Piece::close())
    }

    /// Adds the beginning of a lock, if there is to be one.
    pub fn open_lock(&mut self, locks: Option<Locks>) -> Result<(), AllocError> {
        match locks {
            Some(locks) => self.open(Head::Lock(locks)),
            None => Ok(()),
        }
    }

    /// Adds its end.
    pub fn close_lock(&mut self, locks: Option<Locks>) -> Result<(), AllocError> {
        match locks {
            Some(_) => self.close(),
            None => Ok(()),
        }
    }

    /// A comment of these places.
    pub fn comment(&mut self, places: &[u32]) -> Result<Comment, AllocError> {
        let alloc = *self.comments.allocator();
        let number = number_of(self.comments.len());
        let mut places = places.to_vec(alloc)?;
        places.sort_unstable();
        self.comments.push(places).map_err(AllocError::from)?;
        Ok(Comment::Places(number))
    }

    /// The number of a list of items that the thread's own pool gets.
    pub fn own_list(&mut self, items: Vec<Held>) -> Result<u32, AllocError> {
        if !items.is_empty() {
            self.has_own = true;
        }
        self.lists.add(items)
    }

    /// The items of a list.
    pub fn list(&self, number: u32) -> &[Held] {
        self.lists.get(number)
    }
}

impl Turn {
    /// A loop in a scope, whose first exit is this node.
    pub fn new(alloc: Global, scope: u32, exit: Option<u32>) -> Result<Turn, AllocError> {
        let mut exits = Vec::new(alloc);
        if let Some(exit) = exit {
            exits.push(exit)?;
        }
        Ok(Turn {
            scope,
            exits,
            puts: Vec::new(alloc),
            variable: None,
        })
    }

    /// The number of an exit.
    pub fn exit(&mut self, node: u32) -> Result<u32, AllocError> {
        for (place, exit) in self.exits.iter().enumerate() {
            if *exit == node {
                return Ok(number_of(place));
            }
        }
        let number = number_of(self.exits.len());
        self.exits.push(node)?;
        Ok(number)
    }
}

impl Work {
    /// Nothing was written, and nothing is to be. The scope has the number 0.
    pub fn new(alloc: Global, scope: Scope) -> Result<Work, AllocError> {
        let mut scopes = Vec::new(alloc);
        scopes.push(scope).map_err(AllocError::from)?;
        Ok(Work {
            body: Body::new(alloc),
            scopes,
            tasks: Vec::new(alloc),
            is_given_up: false,
        })
    }

    /// Has these tasks done next, in order.
    pub fn plan(&mut self, tasks: &[Task]) -> Result<(), AllocError> {
        for task in tasks.iter().rev() {
            self.tasks.push(*task).map_err(AllocError::from)?;
        }
        Ok(())
    }

    /// Whether the code of a scope stands in an arm of a peek.
    pub fn is_in_arm(&self, scope: u32) -> bool {
        match self.scopes.get(scope as usize) {
            Some(scope) => scope.is_in_arm,
            None => false,
        }
    }

    /// The number of a scope.
    pub fn add_scope(&mut self, scope: Scope) -> Result<u32, AllocError> {
        let number = number_of(self.scopes.len());
        self.scopes.push(scope).map_err(AllocError::from)?;
        Ok(number)
    }

    /// The number of a loop.
    pub fn add_turn(&mut self, turn: Turn) -> Result<u32, AllocError> {
        let number = number_of(self.body.turns.len());
        self.body.turns.push(turn).map_err(AllocError::from)?;
        Ok(number)
    }
}
