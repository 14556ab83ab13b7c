//! What each command's words ask for.

ghost use Rattle.std.specs.Prelude.{IfOk};
ghost use Rattle.rc_console.specs.Words.{HasRanges};

use crate::command::{Command, Drafting, Following, Form, FoundAs, Searching};
use crate::words::WordsFault;
use clap::ArgMatches;
use rc_report::script::{Script, Show, Stepping};
use std::alloc::Global;

/// The most events that threads may be allowed.
const MOST_EVENTS: u32 = 1_000_000;

/// The most walks that may be made.
const MOST_WALKS: u32 = 1_000_000;

/// The command of this name.
pub fn command_of<'a>(
    alloc: Global,
    name: &str,
    given: &ArgMatches<'a>,
) -> Result<Command<'a>, WordsFault>
    ensures { IfOk result HasRanges }
{
    match name {
        "check" => Ok(check_of(given)),
        "find" => find_of(alloc, given),
        "keeps" => Ok(Command::Keeps),
        "run" => run_of(alloc, given),
        "c" => Ok(Command::Emit),
        "draft" => draft_of(alloc, given),
        "follow" => follow_of(alloc, given),
        "fmt" => Ok(Command::Format),
        "lsp" => Ok(Command::Serve),
        _ => step_of(alloc, given),
    }
}

/// The command `follow`.
fn follow_of<'a>(alloc: Global, follow: &ArgMatches<'a>) -> Result<Command<'a>, WordsFault>
    ensures { IfOk result HasRanges }
{
    let text = match follow.get_str("text") {
        Some("-") => None,
        text => text,
    };
    let logs = follow.get_strs("log").unwrap_or(&[]).to_vec(alloc)?;
    let json = follow.get_flag("json");
    let never = follow.get_flag("never");
    Ok(Command::Follow(Following {
        json,
        never,
        text,
        logs,
    }))
}

/// The command `draft`.
fn draft_of<'a>(alloc: Global, draft: &ArgMatches<'a>) -> Result<Command<'a>, WordsFault>
    ensures { IfOk result HasRanges }
{
    let logs = draft.get_strs("log").unwrap_or(&[]).to_vec(alloc)?;
    Ok(Command::Draft(Drafting {
        json: draft.get_flag("json"),
        notes: draft.get_flag("notes"),
        loops: draft.get_flag("loops"),
        logs,
    }))
}

/// The command `check`.
fn check_of<'a>(check: &ArgMatches<'a>) -> Command<'a>
    ensures { HasRanges result }
{
    let json = check.get_flag("json");
    if !check.get_flag("explain") {
        return Command::Check { json };
    }
    let form = match (json, check.get_flag("listing")) {
        (true, _) => Form::Json,
        (false, true) => Form::Listing,
        (false, false) => Form::Words,
    };
    Command::Explain { form }
}

/// The command `step`. Moves that are in a file are read later.
fn step_of<'a>(alloc: Global, step: &ArgMatches<'a>) -> Result<Command<'a>, WordsFault>
    ensures { IfOk result HasRanges }
{
    let show = show_of(step);
    let script = match step.get_str("moves") {
        Some(moves) => Script::Moves(moves.as_bytes().to_vec(alloc)?),
        None => Script::Schedule(step.get_str("schedule").unwrap_or("")),
    };
    Ok(Command::Step(Stepping { script, show }))
}

/// What `step` shows.
fn show_of(step: &ArgMatches<'_>) -> Show {
    if step.get_flag("svg") {
        return Show::Picture {
            from: step.get_one::<u64>("from").unwrap_or(1),
        };
    }
    if step.get_flag("state") {
        Show::State
    } else {
        Show::Trace
    }
}

/// The file that has the moves of `step`, if they are in one: `--moves @FILE`.
pub fn moves_file<'a>(name: &str, given: &ArgMatches<'a>) -> Option<&'a str> {
    match name {
        "step" => given.get_str("moves")?.strip_prefix('@'),
        _ => None,
    }
}

/// The command `find`. That its numbers are there and in their ranges was seen before.
fn find_of<'a>(alloc: Global, find: &ArgMatches<'a>) -> Result<Command<'a>, WordsFault>
    ensures { IfOk result HasRanges }
{
    let seed = find.get_one::<u32>("seed").unwrap_or(0);
    let walks = find.get_one::<u32>("walks").unwrap_or(0);
    if walks < 1 || walks > MOST_WALKS {
        return Err(WordsFault::Wrong(format!(in alloc; "{walks} is no number of walks")?));
    }
    let form = match (find.get_flag("svg"), find.get_flag("json")) {
        (true, _) => FoundAs::Picture,
        (false, true) => FoundAs::Json,
        (false, false) => FoundAs::Words,
    };
    let stuck = find.get_flag("stuck");
    Ok(Command::Find(Searching {
        seed,
        walks,
        form,
        stuck,
    }))
}

/// The command `run`. That its numbers are there and in their ranges was seen before.
fn run_of<'a>(alloc: Global, run: &ArgMatches<'a>) -> Result<Command<'a>, WordsFault>
    ensures { IfOk result HasRanges }
{
    let seed = run.get_one::<u32>("seed").unwrap_or(0);
    let limit = run.get_one::<u32>("limit").unwrap_or(0);
    let summary = run.get_flag("summary");
    if limit < 1 || limit > MOST_EVENTS {
        return Err(WordsFault::Wrong(format!(in alloc; "{limit} is no limit")?));
    }
    Ok(Command::Run {
        seed,
        limit,
        summary,
    })
}
