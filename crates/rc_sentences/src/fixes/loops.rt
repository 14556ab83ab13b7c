//! The lines of loops, with what they should keep.

use super::lock_above;
use crate::lost::ways::Point;
use crate::parts::{put_part, shares_of};
use crate::walked::Refused;
use rc_lang::lines::{Op, Stmt};
use rc_lang::program::Items;
use rc_split::part::Part;
use rc_text::text::{put_counted, put_number, put_piece, put_pieces};
use std::alloc::AllocError;

/// The items of a loop as they should be: with this part too, always or while the flag isn't 0, and with this bound.
#[derive(Clone, Copy)]
pub struct Kept<'a> {
    pub items: &'a Items,
    pub part: Option<Part>,
    pub flagged: bool,
    pub queue: Option<u32>,
}

impl Kept<'_> {
    /// How many shares of a buffer are kept: always, or more while the flag isn't 0.
    fn shares(self, buffer: usize, more: bool) -> u32 {
        let always = shares_of(&self.items.shares, buffer);
        let both = always.saturating_add(shares_of(&self.items.more.shares, buffer));
        let (always, both) = match self.part {
            Some(Part::Shares(number, count)) if number == buffer && self.flagged => {
                (always, both.max(count))
            }
            Some(Part::Shares(number, count)) if number == buffer => {
                (always.max(count), both.max(count))
            }
            _ => (always, both),
        };
        if more {
            both.saturating_sub(always)
        } else {
            always
        }
    }

    /// How many credits are kept: always, or more while the flag isn't 0.
    fn credits(self, more: bool) -> u32 {
        let always = self.items.credits;
        let both = always.saturating_add(self.items.more.credits);
        let (always, both) = match self.part {
            Some(Part::Credits(count)) if self.flagged => (always, both.max(count)),
            Some(Part::Credits(count)) => (always.max(count), both.max(count)),
            _ => (always, both),
        };
        if more {
            both.saturating_sub(always)
        } else {
            always
        }
    }

    /// Whether a token is kept: always, or only while the flag isn't 0.
    fn has_token(self, user_data: u64, more: bool) -> bool {
        let added = match self.part {
            Some(Part::Token(token)) => token == user_data,
            _ => false,
        };
        let always = self.items.tokens.contains(&user_data) || added && !self.flagged;
        if more {
            !always && (added || self.items.more.tokens.contains(&user_data))
        } else {
            always
        }
    }
}

/// Adds what is kept, always or more while the flag isn't 0.
fn put_list(
    text: &mut Vec<u8>,
    refused: Refused,
    kept: Kept,
    more: bool,
) -> Result<(), AllocError> {
    for buffer in 0..refused.program().buffers().len() {
        let count = kept.shares(buffer, more);
        if count > 0 {
            put_piece(text, b" ")?;
            put_part(text, refused.program(), Part::Shares(buffer, count))?;
        }
    }
    for token in refused.program().tokens() {
        if kept.has_token(token.user_data, more) {
            put_counted(text, b" t:", token.user_data, b"")?;
        }
    }
    match kept.credits(more) {
        0 => Ok(()),
        count => put_counted(text, b" c:", u64::from(count), b""),
    }
}

/// Adds the line of a loop that keeps so much, with a flag of this name.
pub fn put_line(
    text: &mut Vec<u8>,
    refused: Refused,
    kept: Kept,
    flag: Option<&[u8]>,
) -> Result<(), AllocError> {
    put_piece(text, b"`loop keeps")?;
    put_list(text, refused, kept, false)?;
    if let Some(count) = kept.queue {
        put_piece(text, b" q:")?;
        put_number(text, u64::from(count))?;
    }
    if let Some(name) = flag {
        put_pieces(text, &[b" when ", name])?;
        put_list(text, refused, kept, true)?;
    }
    put_piece(text, b" {`")
}

/// The name of the flag that a loop with these items names, where it names one.
pub fn flag_of<'a>(refused: Refused<'a>, kept: Kept) -> Option<&'a [u8]> {
    let thread = refused.walked.thread;
    let more = &kept.items.more;
    let has_more = !more.shares.is_empty() || !more.tokens.is_empty() || more.credits > 0;
    if !has_more && !kept.flagged {
        return None;
    }
    let name = thread.variables.get(thread.flag()?)?;
    Some(name)
}

/// Adds the line of the loop at a place with a part that it doesn't keep on a side of the flag.
pub fn put_kept(
    text: &mut Vec<u8>,
    refused: Refused,
    point: Point,
    list: usize,
    part: Part,
) -> Result<(), AllocError> {
    let Some(items) = refused.walked.thread.lists.get(list) else {
        return Ok(());
    };
    let kept = Kept {
        items,
        part: Some(part),
        flagged: !point.zero,
        queue: items.queue,
    };
    let number = u64::from(refused.number(point.place));
    put_counted(text, b"Keep it in the loop of line ", number, b": ")?;
    put_line(text, refused, kept, flag_of(refused, kept))?;
    put_piece(text, b".")
}

/// The first loop between two places that lets more be queued than may be left, with the number of its list.
fn wide_loop(refused: Refused, first: usize) -> Option<(usize, usize)> {
    let mut found = None;
    for place in first..refused.place {
        match refused.stmt(place) {
            Stmt::Do(Op::GetSqe) => return None,
            Stmt::Loop(list) if found.is_none() => {
                let items = refused.walked.thread.lists.get(list)?;
                let queue = items.queue.unwrap_or(refused.program().entries());
                if queue > refused.program().left() {
                    found = Some((place, list));
                }
            }
            _ => {}
        }
    }
    found
}

/// Adds the line of a loop which lets more be queued than may be left, in a lock in which nothing is queued.
pub fn put_queue(text: &mut Vec<u8>, refused: Refused) -> Result<(), AllocError> {
    let Some((place, list)) = wide_loop(refused, lock_above(refused)) else {
        return Ok(());
    };
    let Some(items) = refused.walked.thread.lists.get(list) else {
        return Ok(());
    };
    let kept = Kept {
        items,
        part: None,
        flagged: false,
        queue: Some(refused.program().left()),
    };
    put_counted(
        text,
        b"Nothing is queued in this lock: let line ",
        u64::from(refused.number(place)),
        b" be ",
    )?;
    put_line(text, refused, kept, flag_of(refused, kept))?;
    put_piece(text, b".")
}
