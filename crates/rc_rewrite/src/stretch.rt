//! A stretch of a thread, as a model of its own.

use crate::around::{Around, lines_around};
use crate::fill::Fills;
use crate::held::Held;
use crate::refill::put_line;
use crate::source::Source;
use rc_lang::lines::Stmt;
use rc_lang::program::{Program, Thread};
use rc_read::{ReadFault, read_program};
use rc_text::text::put_piece;
use std::alloc::AllocError;

/// As many lines as a stretch has at least, where no block is open after fewer.
const LEAST: usize = 32;

/// Lines of a thread and what is around them, so that with the declarations they are a model: the whole thread, or some
/// lines between its loops. Before and after those, no lock, if or peek is open.
#[derive(Drop)]
pub struct Stretch {
    around: Around,
    /// The numbers of its first line and of its last.
    first: u32,
    last: u32,
    /// The places, in its own model, of its first line and of what is after its lines.
    pub begin: usize,
    pub end: usize,
}

impl Stretch {
    /// The whole thread.
    pub fn whole(source: Source<'_>) -> Result<Stretch, AllocError> {
        let part = source.part;
        Ok(Stretch {
            around: Around {
                above: Vec::new(source.alloc),
                lines: 0,
                below: b"}\n".to_vec(source.alloc)?,
                blocks: 0,
            },
            first: part.line,
            last: match part.lines.last() {
                Some(line) => line.number,
                None => part.line,
            },
            begin: 0,
            end: part.lines.len(),
        })
    }

    /// The lines from one place up to another, before which this is held, if a model can say so.
    pub fn between(
        source: Source<'_>,
        from: usize,
        to: usize,
        held: &Held,
    ) -> Result<Option<Stretch>, AllocError> {
        let part = source.part;
        let Some(around) = lines_around(source, held)? else {
            return Ok(None);
        };
        let begin = around.lines.saturating_sub(1);
        Ok(Some(Stretch {
            around,
            first: number_at(part, from),
            last: number_at(part, to.saturating_sub(1)),
            begin,
            end: to.saturating_sub(from).saturating_add(begin),
        }))
    }

    /// How many blocks are open at its end.
    pub fn blocks(&self) -> usize {
        self.around.blocks
    }

    /// What is added to the number of a line of the stretch's own model for that of the source.
    pub fn shift(&self, source: Source<'_>) -> u32 {
        let above = u32::try_from(self.around.lines).unwrap_or(0);
        self.first
            .wrapping_sub(source.first_header().wrapping_add(above))
    }

    /// The program of the stretch, with these items of its loops, if it can be read: its lines may be too long.
    pub fn read(&self, source: Source<'_>, fills: &Fills) -> Result<Option<Program>, AllocError> {
        let mut text = Vec::new(source.alloc);
        put_lines(&mut text, source, fills, 1, source.first_header())?;
        put_piece(&mut text, &self.around.above)?;
        put_lines(
            &mut text,
            source,
            fills,
            self.first,
            self.last.saturating_add(1),
        )?;
        put_piece(&mut text, &self.around.below)?;
        match read_program(source.alloc, &text) {
            Ok(program) => Ok(Some(program)),
            Err(ReadFault::Text { .. }) => Ok(None),
            Err(ReadFault::OutOfMemory) => Err(AllocError),
        }
    }
}

/// Adds the lines of the source from one up to another, with these items of their loops.
fn put_lines(
    text: &mut Vec<u8>,
    source: Source<'_>,
    fills: &Fills,
    from: u32,
    to: u32,
) -> Result<(), AllocError> {
    for number in from..to {
        put_filled_line(text, source, fills, number)?;
    }
    Ok(())
}

fn put_filled_line(
    text: &mut Vec<u8>,
    source: Source<'_>,
    fills: &Fills,
    number: u32,
) -> Result<(), AllocError> {
    put_line(text, source.lines.line(number), fills.on(number))?;
    put_piece(text, b"\n")
}

/// The number of the line at a place of a thread.
fn number_at(part: &Thread, place: usize) -> u32 {
    match part.lines.get(place) {
        Some(line) => line.number,
        None => part.line,
    }
}

/// The place where the stretch from this one ends: where no block is open that is opened on the way, before a loop or
/// the end of one, or after some lines.
pub fn stretch_end(part: &Thread, from: usize) -> usize {
    let mut depth: usize = 0;
    for place in from..part.lines.len() {
        let stmt = part.lines[place].stmt;
        if depth == 0 && (is_loop(stmt) || place.saturating_sub(from) >= LEAST) {
            return place;
        }
        depth = depth_after(depth, stmt);
    }
    part.lines.len()
}

/// Whether a loop begins or ends with a statement.
fn is_loop(stmt: Stmt) -> bool {
    match stmt {
        Stmt::Loop(_) | Stmt::EndLoop(_, _) => true,
        _ => false,
    }
}

/// How many blocks are open after a statement.
fn depth_after(depth: usize, stmt: Stmt) -> usize {
    match stmt {
        Stmt::Lock(_)
        | Stmt::If(_)
        | Stmt::Peek(_)
        | Stmt::Case(_, _)
        | Stmt::Other(_)
        | Stmt::Nothing(_)
        | Stmt::Loop(_) => depth.saturating_add(1),
        Stmt::EndLock(_, _)
        | Stmt::EndIf(_)
        | Stmt::EndArm(_)
        | Stmt::EndPeek(_)
        | Stmt::EndLoop(_, _) => depth.saturating_sub(1),
        Stmt::Do(_) | Stmt::Put(_, _) | Stmt::Else(_) | Stmt::Break(_, _, _) => depth,
    }
}
