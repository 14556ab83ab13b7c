//! What words the program takes, and its help.

use clap::{Arg, ArgAction, value_parser};
use std::alloc::{AllocError, Global};

const VERSION: &str = "0.1.0";

/// The commands, in the order in which help lists them.
const COMMANDS: [&str; 10] = [
    "check", "keeps", "step", "find", "run", "c", "draft", "follow", "fmt", "lsp",
];

/// What is shown after the help of `check`.
const CHECK_HELP: &str =
    "Exit status: 0 accepted, 1 refused, 2 unreadable, 3 no answer; of several files the greatest.

Example: ringcheck check examples/*.rc

docs/causes.md explains the codes of refused and unreadable lines (V1 to V20, P1 to P11).";

/// What is shown after the help of `draft`.
const DRAFT_HELP: &str =
    "Exit status: 0 accepted, and all logs followed; 1 refused, a log departs, or with --notes a note; 2 unreadable; 3 full,
too many candidates or no answer; the greatest.

Example: ringcheck draft run1.log run2.log > model.rc

docs/draft.md says how to read a draft, and what it is worth.";

/// What is shown after the help of `find`.
const FIND_HELP: &str =
    "Exit status: that of the verdict; with --stuck 1 where a run is found, also of an accepted model.

docs/patterns.md says what a stuck run is worth.";

/// What is shown after the help of `follow`.
const FOLLOW_HELP: &str =
    "Exit status: 0 followed, 1 departs, 2 unreadable, 3 full, too many candidates or no answer; the greatest of all logs.

Example: ringcheck follow examples/follow/wal.rc wal.log

docs/follow.md says what is logged and what the answers mean.";

/// What is shown after the help of `fmt`.
const FORMAT_HELP: &str =
    "A line that has more than 256 bytes only with its blanks is printed with at most 256, so it can be read.";

/// A flag, which may be left out.
fn described_flag<'a>(alloc: Global, name: &'a str, help: &'a str) -> Arg<'a> {
    Arg::new(alloc, name)
        .long(name)
        .action(ArgAction::SetTrue)
        .help(help)
}

/// The files of a command that takes any number of them.
fn described_files<'a>(alloc: Global) -> Arg<'a> {
    Arg::new(alloc, "file")
        .value_name("FILE")
        .num_args(0..)
        .action(ArgAction::Append)
        .help("Models to check, with one verdict a line (default, or -: standard input)")
}

/// The listing of `check --explain`.
fn described_listing<'a>(alloc: Global) -> Result<Arg<'a>, AllocError> {
    let listing = "With --explain, print also what is known before each line";
    described_flag(alloc, "listing", listing).requires_arg("explain")
}

/// The words of `check`.
fn described_check<'a>(alloc: Global) -> Result<clap::Command<'a>, AllocError> {
    let json = "Print the verdict as one JSON object";
    let explain = "Explain the verdict and suggest a fix";
    let listing = described_listing(alloc)?;
    let args = vec![in alloc;
        described_flag(alloc, "json", json),
        described_flag(alloc, "explain", explain),
        listing,
        described_files(alloc),
    ]?;
    clap::Command::new(alloc, "check")
        .about("Check models, and print the verdict on each")
        .after_help(CHECK_HELP)
        .args(args)
}

/// The file of a command that takes one.
fn described_file<'a>(alloc: Global) -> Arg<'a> {
    Arg::new(alloc, "file")
        .value_name("FILE")
        .action(ArgAction::Set)
        .help("A file with the model (default, or -: standard input)")
}

/// The words of `keeps`.
fn described_keeps<'a>(alloc: Global) -> Result<clap::Command<'a>, AllocError> {
    clap::Command::new(alloc, "keeps")
        .about("Fill in what each loop keeps")
        .arg(described_file(alloc))
}

/// The schedule of `step`.
fn described_schedule<'a>(alloc: Global) -> Arg<'a> {
    Arg::new(alloc, "schedule")
        .long("schedule")
        .value_name("ITEMS")
        .action(ArgAction::Set)
        .default_value("")
        .help("Items joined by commas: NAME, NAME=R, k:U=R or k:U=R:H")
}

/// The moves of `step`.
fn described_moves<'a>(alloc: Global) -> Result<Arg<'a>, AllocError> {
    Arg::new(alloc, "moves")
        .long("moves")
        .value_name("MOVES")
        .action(ArgAction::Set)
        .help(
            "Steps: NAME, NAME*N (N steps), NAME@L (until line L), k:U=R; or @FILE, which has them",
        )
        .conflicts_with("schedule")
}

/// The event with which the picture of `step` begins.
fn described_from<'a>(alloc: Global) -> Result<Arg<'a>, AllocError> {
    Arg::new(alloc, "from")
        .long("from")
        .value_name("N")
        .action(ArgAction::Set)
        .value_parser(value_parser!(u64).range(1..=4294967296))
        .help("First event to draw (default 1)")
        .requires_arg("svg")
}

/// The picture of `step` or of `find`, which there is not beside another form.
fn described_svg<'a>(alloc: Global, help: &'a str, other: &'a str) -> Result<Arg<'a>, AllocError> {
    described_flag(alloc, "svg", help).conflicts_with(other)
}

/// What `step` may be given.
fn described_steps<'a>(alloc: Global) -> Result<Vec<Arg<'a>>, AllocError> {
    let state = "Print the world in which the trace ends, and what may come next";
    let svg = "Print a picture of the trace in place of it, as SVG";
    let moves = described_moves(alloc)?;
    let svg = described_svg(alloc, svg, "state")?;
    let from = described_from(alloc)?;
    Ok(vec![in alloc;
        described_schedule(alloc),
        moves,
        described_flag(alloc, "state", state),
        svg,
        from,
        described_file(alloc),
    ]?)
}

/// The words of `step`.
fn described_step<'a>(alloc: Global) -> Result<clap::Command<'a>, AllocError> {
    let args = described_steps(alloc)?;
    clap::Command::new(alloc, "step")
        .about("Step a model through a schedule, and print the trace")
        .args(args)
}

/// A number that `run` asks for.
fn described_number<'a>(alloc: Global, name: &'a str) -> Arg<'a> {
    Arg::new(alloc, name)
        .long(name)
        .value_name("N")
        .required(true)
}

/// The seed of `run`.
fn described_seed<'a>(alloc: Global) -> Arg<'a> {
    described_number(alloc, "seed")
        .value_parser(value_parser!(u32))
        .help("Seed of the random choices, from 0 to 4294967295")
}

/// The limit of `run`.
fn described_limit<'a>(alloc: Global) -> Arg<'a> {
    described_number(alloc, "limit")
        .value_parser(value_parser!(u32).range(1..=1000000))
        .help("Stop after this many thread events, from 1 to 1000000")
}

/// The words of `run`.
fn described_run<'a>(alloc: Global) -> Result<clap::Command<'a>, AllocError> {
    let summary = "Print counts in place of the trace";
    let args = vec![in alloc;
        described_seed(alloc),
        described_limit(alloc),
        described_flag(alloc, "summary", summary),
        described_file(alloc),
    ]?;
    clap::Command::new(alloc, "run")
        .about("Run an accepted model on threads, and print the trace")
        .args(args)
}

/// A number that `find` may be given.
fn described_choice<'a>(alloc: Global, name: &'a str, default: &'a str) -> Arg<'a> {
    Arg::new(alloc, name)
        .long(name)
        .value_name("N")
        .default_value(default)
}

/// The seed of `find`.
fn described_first<'a>(alloc: Global) -> Arg<'a> {
    described_choice(alloc, "seed", "1")
        .value_parser(value_parser!(u32))
        .help("Seed of the random choices, from 0 to 4294967295")
}

/// The walks of `find`.
fn described_walks<'a>(alloc: Global) -> Arg<'a> {
    described_choice(alloc, "walks", "20000")
        .value_parser(value_parser!(u32).range(1..=1000000))
        .help("Most random walks to try, from 1 to 1000000")
}

/// The words of `find`.
fn described_find<'a>(alloc: Global) -> Result<clap::Command<'a>, AllocError> {
    let stuck = "Find a run, of any model, after which nothing can go on";
    let json = "Print what is found as one JSON object";
    let svg = "Print a picture of the run in place of the verdict and the trace, as SVG";
    let svg = described_svg(alloc, svg, "json")?;
    let args = vec![in alloc;
        described_flag(alloc, "stuck", stuck),
        described_first(alloc),
        described_walks(alloc),
        described_flag(alloc, "json", json),
        svg,
        described_file(alloc),
    ]?;
    clap::Command::new(alloc, "find")
        .about("Find a run of a refused model into a fault, and print its moves and its trace")
        .after_help(FIND_HELP)
        .args(args)
}

/// The words of `c`.
fn described_c<'a>(alloc: Global) -> Result<clap::Command<'a>, AllocError> {
    clap::Command::new(alloc, "c")
        .about("Print an accepted model as a C program over liburing")
        .arg(described_file(alloc))
}

/// The model of `follow`.
fn described_text<'a>(alloc: Global) -> Arg<'a> {
    Arg::new(alloc, "text")
        .value_name("FILE")
        .action(ArgAction::Set)
        .required(true)
        .help("A file with the model (-: standard input)")
}

/// The logs of `draft` or of `follow`.
fn described_logs<'a>(alloc: Global, help: &'a str) -> Arg<'a> {
    Arg::new(alloc, "log")
        .value_name("LOG")
        .num_args(1..)
        .action(ArgAction::Append)
        .required(true)
        .help(help)
}

/// The words of `draft`.
fn described_draft<'a>(alloc: Global) -> Result<clap::Command<'a>, AllocError> {
    let loops = "Draft each thread as a loop of what it was seen to do";
    let notes = "Print only what doesn't fit the ownership";
    let json = "Print one JSON object";
    let args = vec![in alloc;
        described_flag(alloc, "loops", loops),
        described_flag(alloc, "notes", notes),
        described_flag(alloc, "json", json),
        described_logs(alloc, "Logs of runs of one program"),
    ]?;
    clap::Command::new(alloc, "draft")
        .about("Draft a model from logged runs of a C program, check it and follow the logs")
        .after_help(DRAFT_HELP)
        .args(args)
}

/// The words of `follow`.
fn described_follow<'a>(alloc: Global) -> Result<clap::Command<'a>, AllocError> {
    let json = "Print one JSON object for each line";
    let never = "List the calls that no log makes, even where a log departs";
    let args = vec![in alloc;
        described_flag(alloc, "json", json),
        described_flag(alloc, "never", never),
        described_text(alloc),
        described_logs(alloc, "Logs to follow, with one answer a line"),
    ]?;
    clap::Command::new(alloc, "follow")
        .about("Check logged runs of a C program against its model")
        .after_help(FOLLOW_HELP)
        .args(args)
}

/// The words of `fmt`.
fn described_fmt<'a>(alloc: Global) -> Result<clap::Command<'a>, AllocError> {
    clap::Command::new(alloc, "fmt")
        .about("Print a model with its blocks indented")
        .after_help(FORMAT_HELP)
        .arg(described_file(alloc))
}

/// The words of `lsp`.
fn described_lsp<'a>(alloc: Global) -> clap::Command<'a> {
    clap::Command::new(alloc, "lsp").about("Run as a language server on standard input and output")
}

/// The words of the command of this name.
fn described_command<'a>(alloc: Global, name: &str) -> Result<clap::Command<'a>, AllocError> {
    match name {
        "check" => described_check(alloc),
        "keeps" => described_keeps(alloc),
        "step" => described_step(alloc),
        "find" => described_find(alloc),
        "run" => described_run(alloc),
        "c" => described_c(alloc),
        "draft" => described_draft(alloc),
        "follow" => described_follow(alloc),
        "fmt" => described_fmt(alloc),
        _ => Ok(described_lsp(alloc)),
    }
}

/// The words of the program, with those of the command of this name too.
fn with_command<'a>(
    alloc: Global,
    program: clap::Command<'a>,
    name: &str,
) -> Result<clap::Command<'a>, AllocError> {
    program.subcommand(described_command(alloc, name)?)
}

/// The words that the program takes.
pub fn described<'a>(alloc: Global) -> Result<clap::Command<'a>, AllocError> {
    let mut program = clap::Command::new(alloc, "ringcheck")
        .about("Checks threaded programs of liburing calls on one shared io_uring")
        .version(VERSION)
        .bin_name("ringcheck")?
        .no_binary_name(true)
        .subcommand_required(true);
    for name in COMMANDS {
        program = with_command(alloc, program, name)?;
    }
    Ok(program)
}
