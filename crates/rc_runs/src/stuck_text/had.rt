//! Which thread got each item last.

use crate::stuck_text::moving::moved;
use rc_lang::lines::{Stmt, Test};
use rc_lang::program::{Items, Program};
use rc_lang::request::{Kind, Request};
use rc_world::event::{Action, Event, Item};
use rc_world::world::World;
use std::alloc::{AllocError, Global};

/// A thread that got something, and the number of the line that gave it.
#[derive(Clone, Copy)]
pub struct Got {
    pub thread: u32,
    pub line: u32,
}

/// What a step may give its thread.
#[derive(Clone, Copy)]
enum Gain {
    /// These items of its lists, if the pool has them.
    Asked(usize),
    /// What the front completion's request owned, if it has a buffer that one.
    Reaped(Option<usize>),
    Nothing,
}

/// Who got the shares of each buffer, each token and a credit last.
#[derive(Drop)]
pub struct Had {
    buffers: Vec<Option<Got>>,
    tokens: Vec<Option<Got>>,
    credits: Option<Got>,
}

impl Had {
    /// Nothing is known of who got what.
    pub fn unknown(alloc: Global) -> Had {
        Had {
            buffers: Vec::new(alloc),
            tokens: Vec::new(alloc),
            credits: None,
        }
    }

    /// Who got each item last in the run that these items name.
    pub fn of_run(alloc: Global, program: &Program, items: &[Item]) -> Result<Had, AllocError> {
        let mut had = Had::at_start(alloc, program)?;
        let mut world = World::start(alloc, program)?;
        for item in items {
            let gain = gain_of(&world, *item);
            match moved(&mut world, item)? {
                Some(event) => had.note(program, event, gain),
                None => return Ok(had),
            }
        }
        Ok(had)
    }

    /// Who has each item at the start.
    fn at_start(alloc: Global, program: &Program) -> Result<Had, AllocError> {
        let mut had = Had {
            buffers: vec![in alloc; None; program.buffers().len()]?,
            tokens: vec![in alloc; None; program.tokens().len()]?,
            credits: None,
        };
        for (place, thread) in program.threads().iter().enumerate() {
            let got = Got {
                thread: place as u32,
                line: thread.line,
            };
            had.note_items(program, &thread.items, got);
        }
        Ok(had)
    }

    /// Who got shares of a buffer last.
    pub fn of_buffer(&self, buffer: usize) -> Option<Got> {
        self.buffers.get(buffer).copied().unwrap_or(None)
    }

    /// Who got a token last.
    pub fn of_token(&self, program: &Program, user_data: u64) -> Option<Got> {
        let place = program.token_place(user_data)?;
        self.tokens.get(place).copied().unwrap_or(None)
    }

    /// Who got a credit last.
    pub fn of_credits(&self) -> Option<Got> {
        self.credits
    }

    /// Notes what a step gave its thread.
    fn note(&mut self, program: &Program, event: Event, gain: Gain) {
        let Event::ByThread {
            thread,
            line,
            action,
        } = event
        else {
            return;
        };
        let got = Got { thread, line };
        match (action, gain) {
            (Action::Reaped(user_data), Gain::Reaped(buffer)) => {
                self.note_reaped(program, user_data, buffer, got);
            }
            (Action::DataGot(user_data), Gain::Reaped(buffer)) => {
                self.note_reaped(program, user_data, buffer, got);
            }
            (Action::Branched(yes), Gain::Asked(list)) => {
                if yes {
                    self.note_list(program, list, got);
                }
            }
            _ => {}
        }
    }

    /// Notes that a thread got what a request owned.
    fn note_reaped(&mut self, program: &Program, user_data: u64, buffer: Option<usize>, got: Got) {
        self.note_token(program, user_data, got);
        self.note_buffer(buffer, got);
        self.credits = Some(got);
    }

    /// Notes that a thread got the items of one of its lists.
    fn note_list(&mut self, program: &Program, list: usize, got: Got) {
        if let Some(thread) = program.threads().get(got.thread as usize)
            && let Some(items) = thread.lists.get(list)
        {
            self.note_items(program, items, got);
        }
    }

    /// Notes that a thread got these items.
    fn note_items(&mut self, program: &Program, items: &Items, got: Got) {
        for share in &items.shares {
            self.note_buffer(Some(share.buffer), got);
        }
        for token in &items.tokens {
            self.note_token(program, *token, got);
        }
        if items.credits > 0 {
            self.credits = Some(got);
        }
    }

    fn note_buffer(&mut self, buffer: Option<usize>, got: Got) {
        if let Some(buffer) = buffer
            && let Some(last) = self.buffers.get_mut(buffer)
        {
            *last = Some(got);
        }
    }

    fn note_token(&mut self, program: &Program, user_data: u64, got: Got) {
        if let Some(place) = program.token_place(user_data)
            && let Some(last) = self.tokens.get_mut(place)
        {
            *last = Some(got);
        }
    }
}

/// What the step that an item names may give its thread.
fn gain_of(world: &World<'_>, item: Item) -> Gain {
    let Item::Thread { thread, .. } = item else {
        return Gain::Nothing;
    };
    match world.line(thread) {
        Some(line) => match line.stmt {
            Stmt::If(Test::Take(_, list)) => Gain::Asked(list),
            Stmt::Do(_) => Gain::Reaped(front_buffer(world)),
            _ => Gain::Nothing,
        },
        None => Gain::Nothing,
    }
}

/// The buffer of the front completion's request, if it has one.
fn front_buffer(world: &World<'_>) -> Option<usize> {
    buffer_of(*world.completed().first()?)
}

/// The buffer of a request, if it has one.
pub fn buffer_of(request: Request) -> Option<usize> {
    match request.kind {
        Kind::Read | Kind::Write => Some(request.buffer as usize),
        _ => None,
    }
}
