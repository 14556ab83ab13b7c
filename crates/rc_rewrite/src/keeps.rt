//! A model is written with what each loop keeps filled in.

ghost use Rattle.std.specs.Prelude.{◌≡◌, IfOk, IfSome, Ok};
ghost use Rattle.rc_read.specs.Answer.{answer_of};
ghost use Rattle.rc_rewrite.specs.Keeps.{CanBeRead, GivesKept, IsKept};

use crate::fill::Fills;
use crate::filling::fills_of;
use crate::refill::refilled;
use rc_lang::program::Program;
use rc_read::source::Lines;
use rc_read::{ReadCause, ReadFault, read_program};
use std::alloc::{AllocError, Global};

/// The first line of a model that can't be read, from 1, and why.
#[derive(Clone, Copy)]
pub struct UnreadLine {
    pub line: u32,
    pub cause: ReadCause,
}

/// The model with what each loop keeps filled in: each loop gets what is held where it is
/// entered, less what isn't held where it ends, unless a line in it needs that. What is written is no verdict. A loop
/// stays as it is if an entry is open at its top or its end, since no items help then; if nothing reaches it; and below
/// a line of its thread that stays refused. Of a model that can't be read the first such line is answered.
pub fn kept_text(alloc: Global, source: &[u8]) -> Result<Result<Vec<u8>, UnreadLine>, AllocError>
    ensures { IfOk result (GivesKept source.now) }
{
    match read_program(alloc, source) {
        Ok(program) => {
            let text = filled(alloc, source, &program)?;
            Ok(Ok(text))
        }
        Err(ReadFault::Text { line, cause }) => Ok(Err(UnreadLine { line, cause })),
        Err(ReadFault::OutOfMemory) => Err(AllocError),
    }
}

/// The source, which is read as this program, with its loops filled.
fn filled(alloc: Global, source: &[u8], program: &Program) -> Result<Vec<u8>, AllocError>
    requires { answer_of source.now ≡ Ok program.now }
    ensures { IfOk result (λ text. IsKept source.now text.items) }
{
    let lines = Lines::of(alloc, source)?;
    let fills = fills_of(alloc, program, &lines)?;
    match read_filled(alloc, source, &fills)? {
        Some(text) => Ok(text),
        None => unchanged(alloc, source),
    }
}

/// The source as it is.
fn unchanged(alloc: Global, source: &[u8]) -> Result<Vec<u8>, AllocError>
    requires { CanBeRead source.now }
    ensures { IfOk result (λ text. IsKept source.now text.items) }
{
    let text = Vec::from_slice(alloc, source)?;
    Ok(text)
}

/// The source with these items of its loops, if it can be read. With a line that is too long it can't.
fn read_filled(alloc: Global, source: &[u8], fills: &Fills) -> Result<Option<Vec<u8>>, AllocError>
    requires { CanBeRead source.now }
    ensures { IfOk result (λ text. IfSome text (λ t. IsKept source.now t.items)) }
{
    let text = refilled(alloc, source, fills)?;
    match read_program(alloc, &text) {
        Ok(_) => Ok(Some(text)),
        Err(ReadFault::Text { .. }) => Ok(None),
        Err(ReadFault::OutOfMemory) => Err(AllocError),
    }
}
