//! Lines that bring a thread to where so much is held.

use crate::held::Held;
use crate::row::{above, covers, larger, put_row};
use crate::source::Source;
use rc_read::source::first_word;
use rc_text::text::{put_piece, put_pieces};
use std::alloc::AllocError;

/// How many bytes a list of items has at most, so that its line isn't too long.
const MOST: usize = 190;

/// The lines above a stretch and below it. In a loop: so the breaks of the stretch have one, and what holds after it is
/// what holds where they join. At the stretch's end is one more loop: what comes to that is what the stretch ends with,
/// and nothing goes on after it.
#[derive(Drop)]
pub struct Around {
    pub above: Vec<u8>,
    /// How many lines are above it.
    pub lines: usize,
    pub below: Vec<u8>,
    /// How many blocks are open at its end, besides the one more loop.
    pub blocks: usize,
}

/// Lines by which a thread of the source comes to where this is held, if a model can say so: there a pool is needed where
/// the items are too many for a line, and where those without the flag aren't among those with it.
pub fn lines_around(source: Source<'_>, held: &Held) -> Result<Option<Around>, AllocError> {
    let alloc = source.alloc;
    let mut lines = Around {
        above: Vec::new(alloc),
        lines: 0,
        below: Vec::new(alloc),
        blocks: 0,
    };
    let all = all_of(source, held)?;
    let mut items = Vec::new(alloc);
    put_row(&mut items, source.program, &all)?;
    if items.len() <= MOST && is_grown(held) {
        lines.put_kept(source, held, &items)?;
    } else if let Some(pool) = source.program.pools().first() {
        lines.put_taken(source, pool, &items)?;
        lines.put_given(source, held, pool, &all)?;
    } else {
        return Ok(None);
    }
    lines.put_flag(source, held)?;
    put_piece(&mut lines.below, b"loop keeps {\n}\n")?;
    for _block in 0..lines.blocks {
        put_piece(&mut lines.below, b"}\n")?;
    }
    put_piece(&mut lines.below, b"}\n")?;
    Ok(Some(lines))
}

/// All that is held with the flag or without it.
fn all_of(source: Source<'_>, held: &Held) -> Result<Vec<u32>, AllocError> {
    let mut all = vec![in source.alloc; 0; source.width()]?;
    add(&mut all, &held.zero);
    add(&mut all, &held.other);
    Ok(all)
}

fn add(all: &mut Vec<u32>, row: &Option<Vec<u32>>) {
    if let Some(row) = row {
        larger(all, row);
    }
}

/// Whether what is held without the flag is among what is held with it.
fn is_grown(held: &Held) -> bool {
    match (&held.zero, &held.other) {
        (Some(zero), Some(other)) => covers(other, zero),
        _ => true,
    }
}

impl Around {
    /// Adds a line above.
    fn put(&mut self, pieces: &[&[u8]]) -> Result<(), AllocError> {
        put_pieces(&mut self.above, pieces)?;
        self.lines = self.lines.saturating_add(1);
        put_piece(&mut self.above, b"\n")
    }

    /// Adds the header and a loop that keeps these items. What is held besides with the flag is named in it.
    fn put_kept(
        &mut self,
        source: Source<'_>,
        held: &Held,
        items: &[u8],
    ) -> Result<(), AllocError> {
        self.put(&[b"thread ", &source.part.name, b" holds", items, b" {"])?;
        self.blocks = 1;
        let Some(flag) = source.flag() else {
            return self.put(&[b"loop keeps", items, b" {"]);
        };
        let (Some(zero), Some(other)) = (&held.zero, &held.other) else {
            return self.put(&[b"loop keeps", items, b" when ", flag, b" {"]);
        };
        let (mut kept, mut more) = (Vec::new(source.alloc), Vec::new(source.alloc));
        put_row(&mut kept, source.program, zero)?;
        put_row(
            &mut more,
            source.program,
            &above(source.alloc, other, zero)?,
        )?;
        self.put(&[b"loop keeps", &kept, b" when ", flag, &more, b" {"])
    }

    /// Adds the header, a loop that keeps nothing, and lines that take these items from a pool.
    fn put_taken(
        &mut self,
        source: Source<'_>,
        pool: &[u8],
        items: &[u8],
    ) -> Result<(), AllocError> {
        self.put(&[b"thread ", &source.part.name, b" holds {"])?;
        match source.flag() {
            Some(flag) => self.put(&[b"loop keeps when ", flag, b" {"])?,
            None => self.put(&[b"loop keeps {"])?,
        }
        let before = self.lines;
        self.put_items(b"if take ", pool, items, b" {")?;
        self.blocks = self.lines.saturating_sub(before).saturating_add(1);
        Ok(())
    }

    /// Adds lines that put into a pool what isn't held with the flag, and what isn't held without it.
    fn put_given(
        &mut self,
        source: Source<'_>,
        held: &Held,
        pool: &[u8],
        all: &[u32],
    ) -> Result<(), AllocError> {
        let (Some(flag), Some(zero), Some(other)) = (source.flag(), &held.zero, &held.other) else {
            return Ok(());
        };
        self.put(&[b"if ", flag, b" == 0 {"])?;
        self.put_rest(source, pool, all, zero)?;
        self.put(&[b"} else {"])?;
        self.put_rest(source, pool, all, other)?;
        self.put(&[b"}"])
    }

    /// Adds lines that put into a pool what a row has above another.
    fn put_rest(
        &mut self,
        source: Source<'_>,
        pool: &[u8],
        all: &[u32],
        kept: &[u32],
    ) -> Result<(), AllocError> {
        let mut items = Vec::new(source.alloc);
        put_row(&mut items, source.program, &above(source.alloc, all, kept)?)?;
        self.put_items(b"put ", pool, &items, b"")
    }

    /// Adds a line that gives the flag its number, where there is only one.
    fn put_flag(&mut self, source: Source<'_>, held: &Held) -> Result<(), AllocError> {
        let Some(flag) = source.flag() else {
            return Ok(());
        };
        match (&held.zero, &held.other) {
            (Some(_), None) => self.put(&[flag, b" = 0"]),
            (None, Some(_)) => self.put(&[flag, b" = 1"]),
            _ => Ok(()),
        }
    }

    /// Adds lines that each have some of these items, after the word and the name of a pool.
    fn put_items(
        &mut self,
        word: &[u8],
        pool: &[u8],
        items: &[u8],
        after: &[u8],
    ) -> Result<(), AllocError> {
        let mut some = Vec::new(*self.above.allocator());
        let mut rest = items;
        while let Some((item, more)) = first_word(rest) {
            if some.len() >= MOST {
                self.put_some(word, pool, &some, after)?;
                some.clear();
            }
            put_pieces(&mut some, &[b" ", item])?;
            rest = more;
        }
        self.put_some(word, pool, &some, after)
    }

    /// Adds a line that has these items, if there are any.
    fn put_some(
        &mut self,
        word: &[u8],
        pool: &[u8],
        items: &[u8],
        after: &[u8],
    ) -> Result<(), AllocError> {
        if items.is_empty() {
            return Ok(());
        }
        self.put(&[word, pool, items, after])
    }
}
