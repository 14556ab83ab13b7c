//! The words of the command line are read.

ghost use Rattle.std.specs.Prelude.{◌≡◌, IfOk};
ghost use Rattle.rc_console.specs.Faults.{why_of_words};
ghost use Rattle.rc_console.specs.Words.{HasRanges};

use crate::command::{Asked, Command};
use crate::files::MEMORY;
pub use crate::given::given_words;
use crate::options::{command_of, moves_file};
use crate::usage::described;
use clap::ArgMatches;
use clap::error::ErrorKind;
use rc_report::shown::put_shown;
use std::alloc::{AllocError, AllocFailed, Global};

/// Why the words are no command.
#[derive(Debug, Drop)]
pub enum WordsFault {
    /// Wrong words; what is wrong with them, in one line.
    Wrong(String),
    /// A growth was refused (code 20).
    OutOfMemory,
}

impl WordsFault {
    /// Why the words are no command, in words.
    pub fn why(&self) -> &str
        ensures { result.now ≡ why_of_words self.now }
    {
        match self {
            WordsFault::Wrong(why) => why.as_str(),
            WordsFault::OutOfMemory => MEMORY,
        }
    }
}

impl From<AllocError> for WordsFault {
    fn from(_error: AllocError) -> WordsFault {
        WordsFault::OutOfMemory
    }
}

impl<T: Drop> From<AllocFailed<T>> for WordsFault {
    fn from(_error: AllocFailed<T>) -> WordsFault {
        WordsFault::OutOfMemory
    }
}

/// Reads the words after the program's name.
pub fn read_words<'a>(alloc: Global, words: &'a [&'a str]) -> Result<Asked<'a>, WordsFault>
    ensures { IfOk result (λ asked. HasRanges asked.command) }
{
    match described(alloc)?.try_get_matches_from(words) {
        Ok(matches) => asked_of(alloc, &matches),
        Err(error) => not_taken(alloc, words, &error),
    }
}

/// What is asked by words that clap doesn't take: help or the version, if they are right.
fn not_taken<'a>(
    alloc: Global,
    words: &[&str],
    error: &clap::Error,
) -> Result<Asked<'a>, WordsFault>
    ensures { IfOk result (λ asked. HasRanges asked.command) }
{
    match error.kind() {
        ErrorKind::DisplayHelp | ErrorKind::DisplayVersion => shown_text(alloc, error),
        ErrorKind::OutOfMemory => Err(WordsFault::OutOfMemory),
        _ => Err(wrong_words(alloc, words)?),
    }
}

/// Help or the version are to be shown.
fn shown_text<'a>(alloc: Global, text: &clap::Error) -> Result<Asked<'a>, WordsFault>
    ensures { IfOk result (λ asked. HasRanges asked.command) }
{
    Ok(Asked {
        command: Command::Show(format!(in alloc; "{text}")?),
        files: Vec::new(alloc),
        moves: None,
    })
}

/// What is asked by words that were taken: there is one subcommand.
fn asked_of<'a>(alloc: Global, matches: &ArgMatches<'a>) -> Result<Asked<'a>, WordsFault>
    ensures { IfOk result (λ asked. HasRanges asked.command) }
{
    match matches.subcommand() {
        Some((name, given)) => Ok(Asked {
            files: files_of(alloc, given)?,
            command: command_of(alloc, name, given)?,
            moves: moves_file(name, given),
        }),
        None => Err(WordsFault::Wrong(String::from_str(alloc, "no command")?)),
    }
}

/// The files that are named. `-` is standard input, which is alone.
fn files_of<'a>(alloc: Global, given: &ArgMatches<'a>) -> Result<Vec<&'a str>, WordsFault> {
    let names = given.get_strs("file").unwrap_or(&[]);
    if !names.contains(&"-") {
        return Ok(names.to_vec(alloc)?);
    }
    if names.len() > 1 {
        let message = "'-' stands beside other files (see 'ringcheck --help')";
        return Err(WordsFault::Wrong(String::from_str(alloc, message)?));
    }
    Ok(Vec::new(alloc))
}

/// What is wrong with words, in one line. They are read again as they are shown, so that no control character
/// reaches a terminal.
fn wrong_words(alloc: Global, words: &[&str]) -> Result<WordsFault, AllocError> {
    let shown = escaped(alloc, words)?;
    let list = listed(alloc, &shown)?;
    match described(alloc)?.try_get_matches_from(&list) {
        Ok(_) => Ok(WordsFault::Wrong(String::from_str(alloc, "wrong words")?)),
        Err(error) => fault_of(alloc, &error),
    }
}

/// Why clap doesn't take words, in one line.
fn fault_of(alloc: Global, error: &clap::Error) -> Result<WordsFault, AllocError> {
    if let ErrorKind::OutOfMemory = error.kind() {
        return Ok(WordsFault::OutOfMemory);
    }
    let message = format!(in alloc; "{error}")?;
    Ok(WordsFault::Wrong(on_one_line(alloc, message.as_str())?))
}

/// The texts of these words.
fn listed<'a>(alloc: Global, words: &'a [String]) -> Result<Vec<&'a str>, AllocError> {
    let mut list = Vec::new(alloc);
    for word in words {
        list.push(word.as_str())?;
    }
    Ok(list)
}

/// Words as they are shown.
fn escaped(alloc: Global, words: &[&str]) -> Result<Vec<String>, AllocError> {
    let mut shown = Vec::new(alloc);
    for word in words {
        shown.push(shown_word(alloc, word)?)?;
    }
    Ok(shown)
}

/// A word as it is shown.
fn shown_word(alloc: Global, word: &str) -> Result<String, AllocError> {
    let mut text = Vec::new(alloc);
    put_shown(&mut text, word)?;
    String::from_utf8_lossy(alloc, &text)
}

/// The lines of a message up to the first blank one as one line, without the word that says that it is an error.
fn on_one_line(alloc: Global, message: &str) -> Result<String, AllocError> {
    let mut told = String::new(alloc);
    for line in message.strip_prefix("error: ").unwrap_or(message).lines() {
        if line.trim().is_empty() {
            break;
        }
        push_line(&mut told, line.trim())?;
    }
    told.push_str("(see 'ringcheck --help')")?;
    Ok(told)
}

/// Adds a line and a blank.
fn push_line(told: &mut String, line: &str) -> Result<(), AllocError> {
    told.push_str(line)?;
    told.push(' ')
}
