//! Commands.

use crate::documents::Documents;
use crate::fields::{field, text_field};
use crate::replies::{Fault, Refusal};
use rc_runs::find::{Found, find};
use rc_runs::found::{object_of, put_found_picture};
use rc_runs::stuck::{StuckFound, find_stuck};
use rc_runs::stuck_text::{has_run as is_found, put_stuck_picture, stuck_object_of};
use serde_json::Value;
use std::alloc::{AllocError, Global};

/// The command that finds a run of a refused model into a fault.
const FIND: &str = "ringcheck.find";

/// The command that finds a run of any model into a stuck world.
const FIND_STUCK: &str = "ringcheck.findStuck";

/// The seed of the random choices, and how many walks are made at most.
const SEED: u32 = 1;

const WALKS: u32 = 2_000;

/// `workspace/executeCommand`: `ringcheck.find` with the URI of a document answers what `find --walks 2000 --json` prints of
/// its text, and as `picture` what `find --svg` prints, or null where no run was found. `ringcheck.findStuck` does the same
/// with `--stuck`. Nothing else is answered meanwhile.
pub fn executed(alloc: Global, documents: &Documents, params: &Value) -> Result<Value, Refusal> {
    let text = text_of(documents, params)?;
    match text_field(params, "command")? {
        FIND => Ok(fault_of(alloc, text)?),
        FIND_STUCK => Ok(stuck_of(alloc, text)?),
        _ => Err(Refusal::Fault(Fault::InvalidParams)),
    }
}

/// The text of the document that a command names.
fn text_of<'d>(documents: &'d Documents, params: &Value) -> Result<&'d [u8], Refusal> {
    let Some(Value::String(uri)) = field(params, "arguments")?.get(0usize) else {
        return Err(Refusal::Fault(Fault::InvalidParams));
    };
    match documents.text(uri.as_str()) {
        Some(text) => Ok(text),
        None => Err(Refusal::Fault(Fault::InvalidParams)),
    }
}

/// A run of a refused model into a fault, with its picture.
fn fault_of(alloc: Global, text: &[u8]) -> Result<Value, AllocError> {
    let found = find(alloc, text, SEED, WALKS)?;
    let picture = picture_of(alloc, text, &found)?;
    with_picture(alloc, object_of(alloc, None, &found)?, picture)
}

/// A run of a model into a stuck world, with its picture.
fn stuck_of(alloc: Global, text: &[u8]) -> Result<Value, AllocError> {
    let found = find_stuck(alloc, text, SEED, WALKS)?;
    let picture = stuck_picture(alloc, text, &found)?;
    with_picture(alloc, stuck_object_of(alloc, None, &found)?, picture)
}

/// An object with a picture as one more member.
fn with_picture(alloc: Global, object: Value, picture: Value) -> Result<Value, AllocError> {
    let mut object = object;
    if let Value::Object(members) = &mut object {
        members.insert(String::from_str(alloc, "picture")?, picture)?;
    }
    Ok(object)
}

/// The picture of the run that was found, if one was.
fn picture_of(alloc: Global, text: &[u8], found: &Found) -> Result<Value, AllocError> {
    if !has_run(found) {
        return Ok(Value::Null);
    }
    let (mut picture, mut notes) = (Vec::new(alloc), Vec::new(alloc));
    put_found_picture(&mut picture, &mut notes, alloc, None, text, found)?;
    Ok(Value::String(String::from_utf8_lossy(alloc, &picture)?))
}

/// Whether a run was found.
fn has_run(found: &Found) -> bool {
    match &found.searched {
        Some(searched) => searched.search.harm.is_some(),
        None => false,
    }
}

/// The picture of the run into a stuck world, if one was found.
fn stuck_picture(alloc: Global, text: &[u8], found: &StuckFound) -> Result<Value, AllocError> {
    if !is_found(found) {
        return Ok(Value::Null);
    }
    let (mut picture, mut notes) = (Vec::new(alloc), Vec::new(alloc));
    put_stuck_picture(&mut picture, &mut notes, alloc, None, text, found)?;
    Ok(Value::String(String::from_utf8_lossy(alloc, &picture)?))
}
