//! What threads wait for, as JSON.

ghost use Rattle.std.specs.Prelude.{◌≡◌, ◌++◌, ◌∷◌, [], IfOk, OnOk, map};
ghost use Rattle.serde_json.specs.View.{members_view, view};
ghost use Rattle.serde_json.specs.Data.{put};
ghost use Rattle.rc_runs.specs.Waits as spec;
ghost use Rattle.rc_runs.specs.Waits.{threads_data, wait_object};

use crate::stuck_text::waits::Wait;
use serde_json::{Map, Value, json};
use std::alloc::{AllocError, Global};

/// What threads wait for, as a JSON array.
pub fn threads_value(alloc: Global, waits: &[Wait]) -> Result<Value, AllocError>
    ensures { IfOk result (λ v. view v ≡ threads_data waits.now) }
{
    let mut threads = Vec::new(alloc);
    for wait in waits {
        push_thread(&mut threads, alloc, wait)?;
    }
    Ok(Value::Array(threads))
}

/// Adds what a thread waits for.
fn push_thread(threads: &mut Vec<Value>, alloc: Global, wait: &Wait) -> Result<(), AllocError>
    ensures { IfOk result (λ _. map view threads.new.items ≡ map view threads.old.items ++ wait_object wait.now ∷ []) }
{
    let (name, says) = (wait.name.as_str(), wait.says.as_str());
    let thread = json!(in alloc; {"name": name, "says": says})?;
    threads.push(thread)?;
    Ok(())
}

/// An object with the members that say whether a run was found, and what its threads wait for.
pub fn with_members(
    alloc: Global,
    object: Value,
    is_stuck: bool,
    threads: Value,
) -> Result<Value, AllocError>
    ensures { IfOk result (λ v. view v ≡ spec.with_members is_stuck (view threads) (view object)) }
{
    match object {
        Value::Object(members) => {
            let mut members = members;
            put_member(alloc, &mut members, "stuck", Value::Bool(is_stuck))?;
            put_member(alloc, &mut members, "threads", threads)?;
            Ok(Value::Object(members))
        }
        other => Ok(other),
    }
}

/// Adds a member.
fn put_member(
    alloc: Global,
    members: &mut Map<String, Value>,
    key: &str,
    value: Value,
) -> Result<(), AllocError>
    ensures { OnOk result (members_view members.new.entries ≡ put key.now (view value) (members_view members.old.entries)) }
{
    let name = String::from_str(alloc, key)?;
    drop(members.insert(name, value)?);
    Ok(())
}
