//! What is printed of logs, as JSON objects: without spaces, the keys in order, each with a line feed.

ghost use Rattle.std.specs.Prelude.{◌≡◌, ◌++◌, ◌∷◌, [], codes, false, map, true, IfOk};
ghost use Rattle.serde_json.specs.Data.{array};
ghost use Rattle.serde_json.specs.View.{items_of, view};
ghost use Rattle.serde_json.specs.Written.{compact_text, has_float};
ghost use Rattle.rc_command.specs.declared.departures.ending.Ending.TheVariants.{Full};
ghost use Rattle.rc_command.specs.Endings.{ending_json, ending_object, stuck_object as spec_stuck_object};
ghost use Rattle.rc_command.specs.Unmade as spec;
ghost use Rattle.rc_command.specs.Unmade.{call_object, unmade_printed};
ghost use Rattle.rc_report.specs.Shown.{shown};
ghost use Rattle.rc_text.specs.Text.{Puts};

use crate::departures::ending::Ending;
use crate::departures::unmade::word_of;
use rc_lang::lines::Line;
use rc_report::shown::put_shown;
use rc_runs::stuck_text::object::threads_value;
use rc_runs::stuck_text::waits::Wait;
use rc_text::text::put_piece;
use serde_json::{Value, json};
use std::alloc::{AllocError, Global};

/// Adds how a log ends.
pub fn put_ending_object(
    text: &mut Vec<u8>,
    alloc: Global,
    log: &str,
    ending: &Ending,
) -> Result<(), AllocError>
    ensures { Puts text.old text.new (ending_json log.now ending.now) result }
{
    let object = object_of(alloc, log, ending)?;
    put_object(text, alloc, &object)
}

/// Adds these calls of a program, which no log makes.
pub fn put_unmade_object(
    text: &mut Vec<u8>,
    alloc: Global,
    unmade: &[Line],
) -> Result<(), AllocError>
    ensures { Puts text.old text.new (unmade_printed true unmade.now) result }
{
    let object = unmade_object(alloc, unmade)?;
    put_object(text, alloc, &object)
}

fn unmade_object(alloc: Global, unmade: &[Line]) -> Result<Value, AllocError>
    ensures { IfOk result (λ v. view v ≡ spec.unmade_object unmade.now) }
{
    let calls = calls_of(alloc, unmade)?;
    json!(in alloc; {"never": calls})
}

fn calls_of(alloc: Global, unmade: &[Line]) -> Result<Value, AllocError>
    ensures { IfOk result (λ v. view v ≡ array (items_of (map call_object unmade.now))) }
{
    let mut calls = Vec::new(alloc);
    for line in unmade {
        push_call(&mut calls, alloc, *line)?;
    }
    Ok(Value::Array(calls))
}

fn push_call(calls: &mut Vec<Value>, alloc: Global, line: Line) -> Result<(), AllocError>
    ensures { IfOk result (λ _. map view calls.new.items ≡ map view calls.old.items ++ call_object line ∷ []) }
{
    let call = json!(in alloc; {"call": word_of(line.stmt), "line": line.number})?;
    calls.push(call)?;
    Ok(())
}

/// Adds an object. What isn't shown as it is is as `\u` and four hex digits.
pub fn put_object(text: &mut Vec<u8>, alloc: Global, object: &Value) -> Result<(), AllocError>
    ensures { has_float (view object.now) ≡ false → Puts text.old text.new (shown (compact_text (view object.now)) ++ codes "\n") result }
{
    let object = object.to_string(alloc)?;
    put_shown(text, object.as_str())?;
    put_piece(text, b"\n")
}

/// How a log ends, as an object.
pub fn object_of(alloc: Global, log: &str, ending: &Ending) -> Result<Value, AllocError>
    ensures { IfOk result (λ v. view v ≡ ending_object log.now ending.now) }
{
    match ending {
        Ending::Followed { calls } => {
            json!(in alloc; {"answer": "followed", "calls": *calls, "log": log})
        }
        Ending::Stuck { calls, waits } => stuck_object(alloc, log, *calls, waits),
        Ending::Full { calls } => full_object(alloc, log, *calls),
        Ending::Departs {
            number,
            place,
            says,
            why,
        } => {
            let place = String::from_utf8_lossy(alloc, place)?;
            let says = String::from_utf8_lossy(alloc, says)?;
            let why = String::from_utf8_lossy(alloc, why)?;
            json!(in alloc; {"answer": "departs", "at": place, "line": *number, "log": log, "says": says, "why": why})
        }
        Ending::Unreadable { number, why } => {
            let why = String::from_utf8_lossy(alloc, why)?;
            json!(in alloc; {"answer": "unreadable", "line": *number, "log": log, "why": why})
        }
        Ending::TooMany { number } => {
            json!(in alloc; {"answer": "too many", "line": *number, "log": log})
        }
    }
}

/// A log that is followed and stuck after so many calls.
fn stuck_object(alloc: Global, log: &str, calls: u64, waits: &[Wait]) -> Result<Value, AllocError>
    ensures { IfOk result (λ v. view v ≡ spec_stuck_object log.now calls waits.now) }
{
    let threads = threads_value(alloc, waits)?;
    json!(in alloc; {"answer": "followed", "calls": calls, "log": log, "stuck": threads})
}

/// A log that was full after so many calls.
fn full_object(alloc: Global, log: &str, calls: u64) -> Result<Value, AllocError>
    ensures { IfOk result (λ v. view v ≡ ending_object log.now (Full calls)) }
{
    json!(in alloc; {"answer": "full", "calls": calls, "log": log})
}
