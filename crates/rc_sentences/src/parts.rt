//! Lists of parts, as in the notation.

use rc_lang::program::{Items, Program, Share};
use rc_rules::side::Side;
use rc_split::part::Part;
use rc_text::names::{buffer_name, pool_name};
use rc_text::text::{put_number, put_piece, put_pieces};
use std::alloc::AllocError;

/// What a list of items says is held on a side of the flag; nothing where there is no such list.
#[derive(Clone, Copy)]
pub struct Claim<'a> {
    items: Option<&'a Items>,
    zero: bool,
}

/// How many of each part: what items say, or what of that isn't held on a side.
#[derive(Clone, Copy)]
pub enum Counted<'a> {
    Said(Claim<'a>),
    Missing(Claim<'a>, &'a Side<'a>),
}

/// What a list of items of a thread says is held on a side of the flag.
pub fn said(program: &Program, thread: usize, list: usize, zero: bool) -> Claim<'_> {
    Claim {
        items: program.lists_of(thread).get(list),
        zero,
    }
}

/// Adds a pool, by its name if it has one.
pub fn put_pool(
    text: &mut Vec<u8>,
    program: &Program,
    pool: Option<usize>,
) -> Result<(), AllocError> {
    match pool {
        Some(pool) => put_pieces(text, &[b"pool ", pool_name(program, pool)]),
        None => put_piece(text, b"the pool"),
    }
}

/// How many shares of a buffer these are.
pub fn shares_of(shares: &[Share], buffer: usize) -> u32 {
    let mut count: u32 = 0;
    for share in shares {
        if share.buffer == buffer {
            count = count.saturating_add(share.count);
        }
    }
    count
}

impl Claim<'_> {
    fn shares(self, buffer: usize) -> u32 {
        let Some(items) = self.items else {
            return 0;
        };
        let count = shares_of(&items.shares, buffer);
        if self.zero {
            return count;
        }
        count.saturating_add(shares_of(&items.more.shares, buffer))
    }

    fn has_token(self, user_data: u64) -> bool {
        let Some(items) = self.items else {
            return false;
        };
        items.tokens.contains(&user_data) || !self.zero && items.more.tokens.contains(&user_data)
    }

    fn credits(self) -> u32 {
        let Some(items) = self.items else {
            return 0;
        };
        if self.zero {
            return items.credits;
        }
        items.credits.saturating_add(items.more.credits)
    }
}

impl Counted<'_> {
    fn shares(self, buffer: usize) -> u32 {
        match self {
            Counted::Said(said) => said.shares(buffer),
            Counted::Missing(said, side) => {
                said.shares(buffer).saturating_sub(side.shares(buffer))
            }
        }
    }

    fn has_token(self, user_data: u64) -> bool {
        match self {
            Counted::Said(said) => said.has_token(user_data),
            Counted::Missing(said, side) => said.has_token(user_data) && !side.has_token(user_data),
        }
    }

    fn credits(self) -> u32 {
        match self {
            Counted::Said(said) => said.credits(),
            Counted::Missing(said, side) => said.credits().saturating_sub(side.credits()),
        }
    }

    fn share(self, program: &Program) -> Option<usize> {
        for buffer in 0..program.buffers().len() {
            if self.shares(buffer) > 0 {
                return Some(buffer);
            }
        }
        None
    }

    fn token(self, program: &Program) -> Option<u64> {
        for token in program.tokens() {
            if self.has_token(token.user_data) {
                return Some(token.user_data);
            }
        }
        None
    }
}

/// The first part of what items say that isn't held on a side, with as many as they say.
pub fn first_missing(program: &Program, said: Claim, side: &Side) -> Option<Part> {
    let missing = Counted::Missing(said, side);
    if let Some(buffer) = missing.share(program) {
        return Some(Part::Shares(buffer, said.shares(buffer)));
    }
    if let Some(user_data) = missing.token(program) {
        return Some(Part::Token(user_data));
    }
    if missing.credits() > 0 {
        return Some(Part::Credits(said.credits()));
    }
    None
}

/// Adds a part as in the notation.
pub fn put_part(text: &mut Vec<u8>, program: &Program, part: Part) -> Result<(), AllocError> {
    match part {
        Part::Shares(buffer, count) => {
            put_pieces(text, &[buffer_name(program, buffer), b":"])?;
            put_number(text, u64::from(count))
        }
        Part::Token(user_data) => {
            put_piece(text, b"t:")?;
            put_number(text, user_data)
        }
        Part::Credits(count) => {
            put_piece(text, b"c:")?;
            put_number(text, u64::from(count))
        }
    }
}

/// Adds the parts, each after a blank: shares and tokens in the order of their declarations, and credits.
pub fn put_parts(
    text: &mut Vec<u8>,
    program: &Program,
    counted: Counted,
) -> Result<(), AllocError> {
    for buffer in 0..program.buffers().len() {
        let count = counted.shares(buffer);
        if count > 0 {
            put_piece(text, b" ")?;
            put_part(text, program, Part::Shares(buffer, count))?;
        }
    }
    for token in program.tokens() {
        if counted.has_token(token.user_data) {
            put_piece(text, b" ")?;
            put_part(text, program, Part::Token(token.user_data))?;
        }
    }
    let count = counted.credits();
    if count > 0 {
        put_piece(text, b" ")?;
        put_part(text, program, Part::Credits(count))?;
    }
    Ok(())
}
