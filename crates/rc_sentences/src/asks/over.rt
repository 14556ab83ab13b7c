//! What the lines of pools and headers ask for together.

use crate::parts::{put_pool, shares_of};
use rc_lang::program::{Items, Program, Stock, Thread};
use rc_text::names::buffer_name;
use rc_text::text::{put_counted, put_number, put_piece, put_pieces};
use std::alloc::AllocError;

/// The lines up to a refused one: the last of them is that of a pool, or of a thread with all its copies.
#[derive(Clone, Copy)]
pub struct Lines<'a> {
    program: &'a Program,
    stock: &'a [Stock],
    threads: &'a [Thread],
}

impl<'a> Lines<'a> {
    /// The lines up to that of a thread.
    pub fn up_to_thread(program: &'a Program, thread: u32) -> Lines<'a> {
        let threads = program.threads();
        let end = if (thread as usize) < threads.len() {
            program.line_end(thread as usize)
        } else {
            threads.len()
        };
        Lines {
            program,
            stock: program.stock(),
            threads: threads.get(..end).unwrap_or(threads),
        }
    }

    /// The lines up to this one of a pool.
    pub fn up_to_stock(program: &'a Program, line: usize) -> Lines<'a> {
        let stock = program.stock();
        Lines {
            program,
            stock: stock.get(..=line).unwrap_or(stock),
            threads: &[],
        }
    }

    /// The same without the last.
    fn before_last(self) -> Lines<'a> {
        match (self.threads, self.stock) {
            ([threads @ .., _], _) => Lines { threads, ..self },
            ([], [stock @ .., _]) => Lines { stock, ..self },
            ([], []) => self,
        }
    }

    /// What the last gives.
    fn last_items(self) -> Option<&'a Items> {
        match (self.threads, self.stock) {
            ([.., thread], _) => Some(&thread.items),
            ([], [.., stock]) => Some(&stock.items),
            ([], []) => None,
        }
    }

    /// How many shares of a buffer they give.
    fn shares(self, buffer: usize) -> u32 {
        let mut count: u32 = 0;
        for stock in self.stock {
            count = count.saturating_add(shares_of(&stock.items.shares, buffer));
        }
        for thread in self.threads {
            count = count.saturating_add(shares_of(&thread.items.shares, buffer));
        }
        count
    }

    fn credits(self) -> u32 {
        let mut count: u32 = 0;
        for stock in self.stock {
            count = count.saturating_add(stock.items.credits);
        }
        for thread in self.threads {
            count = count.saturating_add(thread.items.credits);
        }
        count
    }

    /// Whose lines they are.
    fn owners(self) -> &'static [u8] {
        match (self.stock, self.threads) {
            ([], _) => b"the threads so far hold ",
            (_, []) => b"the pools so far hold ",
            _ => b"the pools and the threads so far hold ",
        }
    }
}

/// Adds which buffer the lines give too many shares of.
pub fn put_shares(text: &mut Vec<u8>, lines: Lines) -> Result<(), AllocError> {
    for buffer in 0..lines.program.buffers().len() {
        let held = lines.shares(buffer);
        let shares = lines.program.shares_at(buffer);
        if held > shares {
            let there: &[u8] = if shares == 1 {
                b"; there is "
            } else {
                b"; there are "
            };
            let name = buffer_name(lines.program, buffer);
            put_counted(text, lines.owners(), u64::from(held), b"")?;
            put_pieces(text, &[b" shares of ", name, there])?;
            return put_number(text, u64::from(shares));
        }
    }
    Ok(())
}

/// Adds whose line gives a token, and says whether one does.
fn put_holder(text: &mut Vec<u8>, lines: Lines, token: u64) -> Result<bool, AllocError> {
    for stock in lines.stock {
        if stock.items.tokens.contains(&token) {
            put_counted(text, b"t:", token, b" is held by ")?;
            put_pool(text, lines.program, stock.pool)?;
            put_counted(text, b", line ", u64::from(stock.line), b", too")?;
            return Ok(true);
        }
    }
    for thread in lines.threads {
        if thread.items.tokens.contains(&token) {
            put_counted(text, b"t:", token, b" is held by thread ")?;
            put_piece(text, thread.declared_name())?;
            put_counted(text, b", line ", u64::from(thread.line), b", too")?;
            return Ok(true);
        }
    }
    Ok(false)
}

/// Adds which token of the last line one above it gives, too, or that each copy would hold it.
pub fn put_token(text: &mut Vec<u8>, lines: Lines) -> Result<(), AllocError> {
    if let [.., last] = lines.threads {
        if let (Some(_), [token, ..]) = (last.copy, last.items.tokens.as_slice()) {
            put_counted(text, b"t:", *token, b" would be held by each copy of ")?;
            return put_piece(text, last.declared_name());
        }
    }
    let Some(items) = lines.last_items() else {
        return Ok(());
    };
    for token in &items.tokens {
        if put_holder(text, lines.before_last(), *token)? {
            return Ok(());
        }
    }
    Ok(())
}

/// Adds how many credits the lines give, and how many there are.
pub fn put_credits(text: &mut Vec<u8>, lines: Lines) -> Result<(), AllocError> {
    let held = lines.credits();
    let entries = lines.program.completion_entries();
    let number: &[u8] = if entries == 1 { b" entry" } else { b" entries" };
    put_counted(text, lines.owners(), u64::from(held), b" credits; ")?;
    put_counted(
        text,
        b"the completion ring has ",
        u64::from(entries),
        number,
    )
}
