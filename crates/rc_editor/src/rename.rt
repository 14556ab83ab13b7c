//! Other names for buffers, pools, variables and threads.

ghost use Rattle.std.specs.Prelude.{IfOk};
ghost use Rattle.rc_editor.specs.Renames.{GivesNames};

use crate::marks::{Kind, Mark};
use crate::names::mark_at;
use crate::page::Page;
use crate::place::{Edit, Position, Range, edited, push_edit};
use rc_read::read_program;
use rc_read::reserved::is_reserved_by;
use rc_read::words::{is, is_name, is_spelt};
use std::alloc::{AllocError, Global};

/// How a model gets another name, or why it doesn't.
#[derive(Drop)]
pub enum Renamed {
    Edits(Vec<Edit>),
    Refused(&'static str),
}

/// The name at a place, if it is one that can be another.
fn name_at<'a>(page: &Page<'a>, at: Position) -> Option<Mark<'a>> {
    let mark = mark_at(page, at)?;
    match mark.kind {
        Kind::Buffer | Kind::Pool | Kind::Thread | Kind::Variable => Some(mark),
        Kind::File | Kind::Token => None,
    }
}

/// The word at a place, if it is a name that can be another.
pub fn renamable(alloc: Global, text: &[u8], at: Position) -> Result<Option<Range>, AllocError> {
    let page = Page::of(alloc, text)?;
    match name_at(&page, at) {
        Some(mark) => Ok(Some(page.range(mark.line, &mark.name))),
        None => Ok(None),
    }
}

/// Gives what is named at a place this name.
pub fn rename(alloc: Global, text: &[u8], at: Position, name: &[u8]) -> Result<Renamed, AllocError>
    ensures { IfOk result (GivesNames name.now) }
{
    if !is_name(name) {
        return Ok(Renamed::Refused(why_no_name(name)));
    }
    let page = Page::of(alloc, text)?;
    if is_reserved_by(page.version(), name) {
        return Ok(Renamed::Refused(why_no_name(name)));
    }
    let Some(mark) = name_at(&page, at) else {
        return Ok(Renamed::Refused("no buffer, pool, variable or thread is named here"));
    };
    if is_taken(&page, &mark, name) {
        return Ok(Renamed::Refused("there is one of that name already"));
    }
    let edits = edits_for(alloc, &page, &mark, name)?;
    if becomes_unreadable(alloc, text, &edits)? {
        return Ok(Renamed::Refused("a line would have more than 256 bytes"));
    }
    Ok(Renamed::Edits(edits))
}

/// Why a word is no name.
fn why_no_name(word: &[u8]) -> &'static str {
    if is_spelt(word) {
        return "that word is reserved";
    }
    "that is no name: a small letter, and then at most 15 small letters, digits and _"
}

/// Whether something else of the kind has a name.
fn is_taken(page: &Page, mark: &Mark, name: &[u8]) -> bool {
    if is(mark.name.text, name) {
        return false;
    }
    for other in &page.marks {
        if other.kind == mark.kind && other.scope == mark.scope && is(other.name.text, name) {
            return true;
        }
    }
    false
}

/// The edits that give a name to all that names the same as a mark.
fn edits_for(
    alloc: Global,
    page: &Page,
    mark: &Mark,
    name: &[u8],
) -> Result<Vec<Edit>, AllocError> {
    let mut edits = Vec::new(alloc);
    for other in &page.marks {
        if other.is_same(mark) {
            push_edit(alloc, &mut edits, page.range(other.line, &other.name), name)?;
        }
    }
    Ok(edits)
}

/// Whether a model can be read before the edits and can't after them.
fn becomes_unreadable(alloc: Global, text: &[u8], edits: &[Edit]) -> Result<bool, AllocError> {
    if read_program(alloc, text).is_err() {
        return Ok(false);
    }
    let renamed = edited(alloc, text, edits)?;
    Ok(read_program(alloc, &renamed).is_err())
}
