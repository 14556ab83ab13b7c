//! What the words of the command line ask for.

ghost use Rattle.std.specs.Prelude.{◌≡◌};
ghost use Rattle.rc_console.specs.Words as spec;

use crate::inputs::Extent;
use rc_report::script::{Script, Stepping};

/// How a verdict is explained.
#[derive(Clone, Copy)]
pub enum Form {
    /// In words.
    Words,
    /// In words, and then what is known before each line.
    Listing,
    /// As a JSON object.
    Json,
}

/// How a run that is found is shown.
#[derive(Clone, Copy)]
pub enum FoundAs {
    /// In words, with its trace.
    Words,
    /// As a JSON object.
    Json,
    /// As a picture.
    Picture,
}

/// What `find` is asked for.
#[derive(Clone, Copy)]
pub struct Searching {
    /// The seed of the choices.
    pub seed: u32,
    /// How many walks are made at most, from 1.
    pub walks: u32,
    /// How the run that is found is shown.
    pub form: FoundAs,
    /// Whether a run is looked for after which nothing can go on, in place of one into a fault.
    pub stuck: bool,
}

/// What `follow` is asked for.
#[derive(Drop)]
pub struct Following<'a> {
    /// Whether its answers are JSON objects.
    pub json: bool,
    /// Whether it lists the calls that no log makes, even where one departs.
    pub never: bool,
    /// The file with the model; none: standard input.
    pub text: Option<&'a str>,
    /// The files with the logs.
    pub logs: Vec<&'a str>,
}

/// What `draft` is asked for.
#[derive(Drop)]
pub struct Drafting<'a> {
    /// Whether its answer is one JSON object.
    pub json: bool,
    /// Whether it prints the notes alone.
    pub notes: bool,
    /// Whether each thread is drafted in the loop form.
    pub loops: bool,
    /// The files with the logs.
    pub logs: Vec<&'a str>,
}

/// What the program is asked to do.
#[derive(Drop)]
pub enum Command<'a> {
    /// Check the program, with its verdict as JSON or as text.
    Check {
        json: bool,
    },
    /// Check the program, and explain the verdict in this form.
    Explain {
        form: Form,
    },
    /// Fill in what each loop keeps.
    Keeps,
    /// Step the program, and show its run.
    Step(Stepping<'a>),
    /// Look for a run of the refused program into a fault, or of any program into a stuck world.
    Find(Searching),
    /// Run the program on threads: with the choices of this seed, and at most so many events of its threads, from 1.
    /// What happened is written as a summary or as a trace.
    Run {
        seed: u32,
        limit: u32,
        summary: bool,
    },
    /// Write the program in C.
    Emit,
    /// Follow logs in the program. Its model is read apart from those of other commands.
    Follow(Following<'a>),
    /// Draft a model from logs. This reads no model.
    Draft(Drafting<'a>),
    /// Print the model with its blocks indented.
    Format,
    /// Answer the messages of an editor. This reads no model.
    Serve,
    /// Show this text: help, or the version.
    Show(String),
}

impl<'a> Command<'a> {
    ghost use Rattle.std.specs.Prelude.{option_copied};

    /// Whether it serves an editor.
    pub fn is_server(&self) -> bool
        ensures { result ≡ spec.is_server self.now }
    {
        matches!(self, Command::Serve)
    }

    /// What `follow` is asked for, if it is that.
    pub fn following(&self) -> Option<&Following<'a>>
        ensures { option_copied result ≡ spec.following self.now }
    {
        match self {
            Command::Follow(asked) => Some(asked),
            _ => None,
        }
    }

    /// What `draft` is asked for, if it is that.
    pub fn drafting(&self) -> Option<&Drafting<'a>>
        ensures { option_copied result ≡ spec.drafting self.now }
    {
        match self {
            Command::Draft(asked) => Some(asked),
            _ => None,
        }
    }

    /// How much of a model the command needs: `keeps` and `fmt` print it.
    pub fn extent(&self) -> Extent
        ensures { result ≡ spec.extent self.now }
    {
        match self {
            Command::Keeps | Command::Format => Extent::Whole,
            _ => Extent::Enough,
        }
    }
}

/// A command and the files that it reads: standard input if there are none.
#[derive(Drop)]
pub struct Asked<'a> {
    pub command: Command<'a>,
    pub files: Vec<&'a str>,
    /// The file that has the moves of `step`, if they are in one.
    pub moves: Option<&'a str>,
}

/// The command with moves that were read from a file.
pub fn with_moves(command: Command<'_>, moves: Vec<u8>) -> Command<'_>
    ensures { result ≡ spec.with_moves command.entry moves }
{
    match command {
        Command::Step(Stepping { show, .. }) => Command::Step(Stepping {
            script: Script::Moves(moves),
            show,
        }),
        other => other,
    }
}
