//! Logs of C programs, held to an accepted model.

ghost use Rattle.std.specs.Prelude.{◌≡◌, ◌≤◌, IfOk, List, option_copied as named};
ghost use Rattle.rc_command.specs.Following.{AnswersWhole, HasSaid, SaysAsked, SaysFollowed, SaysLog, SaysLogs, SaysModel, SaysMore, said_of, verdict_said, with_unmade};
ghost use Rattle.rc_console.specs.Files.{Said, together};
ghost use Rattle.rc_report.specs.Streams.{CanWrite};

use crate::departures::answer::Answer;
use crate::departures::following::follow_log;
use crate::departures::logs::Logs;
use crate::departures::printed::put_unmade;
use crate::departures::telling::tell_answer;
use crate::departures::unmade::unmade_calls;
use rc_console::command::Following;
use rc_console::fault::CommandFault;
use rc_console::files::{Texts, Unread, tell_unread};
use rc_console::inputs::{Extent, read_input};
use rc_follow::follower::Follower;
use rc_lang::program::Program;
use rc_log::reader::LogFault;
use rc_report::check_engine::judged;
use rc_report::source::Lines;
use rc_report::streams::{ReadSource, Sink};
use rc_report::verdict::{Verdict, print_verdict};
use std::alloc::{AllocError, Global};
use std::io::Read;

/// Holds logs to the program of a model, one after another, and writes how each ends. Where all are followed, or that is
/// asked for and one could be read, it writes then which calls of the model none of them makes. Answers the greatest status
/// of the logs. A model that isn't accepted is answered with its verdict. A file that can't be read is reported on a line of
/// `errors`: where it is a log, those after it are still followed.
pub fn follow_logs<T: Texts + Logs, I: Read + Drop, S: Sink, E: Sink>(
    texts: &T,
    alloc: Global,
    reader: I,
    asked: &Following<'_>,
    sink: &mut S,
    errors: &mut E,
) -> Result<u8, CommandFault>
    requires writes { CanWrite (S.state sink.old) }
    requires told { (E.state errors.old).failures ≤ 1 }
    ensures answer { AnswersWhole (SaysAsked (T.gives texts.now) (T.opens texts.now) asked.now (I.remaining reader)) S.state sink.old sink.new E.state errors.old errors.new result }
    ensures status { IfOk result (λ status. status ≤ 3) }
    ensures failures { IfOk result (λ _. (S.state sink.new).failures ≡ (S.state sink.old).failures) }
{
    match asked.text {
        Some(name) => match texts.read(alloc, name, Extent::Enough) {
            Ok(model) => follow_model(texts, alloc, &model, asked, sink, errors),
            Err(unread) => Ok(tell_unread(alloc, name, &unread, errors)),
        },
        None => {
            let model = read_input(alloc, &mut ReadSource::new(reader), Extent::Enough)?;
            follow_model(texts, alloc, &model, asked, sink, errors)
        }
    }
}

/// Holds logs to the program of this model, and writes the answer.
fn follow_model<T: Logs, S: Sink, E: Sink>(
    texts: &T,
    alloc: Global,
    model: &[u8],
    asked: &Following<'_>,
    sink: &mut S,
    errors: &mut E,
) -> Result<u8, CommandFault>
    requires writes { CanWrite (S.state sink.old) }
    requires told { (E.state errors.old).failures ≤ 1 }
    ensures answer { AnswersWhole (SaysModel (T.opens texts.now) asked.now model.now) S.state sink.old sink.new E.state errors.old errors.new result }
    ensures status { IfOk result (λ status. status ≤ 3) }
    ensures failures { IfOk result (λ _. (S.state sink.new).failures ≡ (S.state sink.old).failures) }
{
    let answer = answer_to(texts, alloc, model, asked)?;
    tell_answer(&answer, sink, errors)
}

/// The answer to a model with its logs.
fn answer_to<T: Logs>(
    texts: &T,
    alloc: Global,
    model: &[u8],
    asked: &Following<'_>,
) -> Result<Answer, AllocError>
    ensures { IfOk result (HasSaid (SaysModel (T.opens texts.now) asked.now model.now)) }
{
    match judged(alloc, model)? {
        Ok(admitted) => follow_all(texts, alloc, admitted.program(), model, asked),
        Err(verdict) => refuse(alloc, asked, &verdict),
    }
}

/// The answer to a model that isn't accepted, as that of `check`.
fn refuse(alloc: Global, asked: &Following<'_>, verdict: &Verdict) -> Result<Answer, AllocError>
    ensures { IfOk result (HasSaid (λ said. said ≡ verdict_said (named asked.now.text) asked.now.json verdict.now)) }
{
    let mut answer = Answer::new(alloc);
    print_verdict(&mut answer.written, alloc, asked.text, asked.json, verdict)?;
    answer.status = verdict.status();
    Ok(answer)
}

/// The answer to the logs of this program, which is that of the model.
fn follow_all<T: Logs>(
    texts: &T,
    alloc: Global,
    program: &Program,
    model: &[u8],
    asked: &Following<'_>,
) -> Result<Answer, AllocError>
    ensures { IfOk result (HasSaid (SaysFollowed (T.opens texts.now) asked.now program.now)) }
{
    let lines = Lines::of(alloc, model)?;
    let mut follower = Follower::start(alloc, program)?;
    let mut answer = follow_each(texts, alloc, &lines, &mut follower, asked)?;
    list_unmade(&mut answer, alloc, program, &follower, asked)?;
    Ok(answer)
}

/// Follows each log, and answers how each ends.
fn follow_each<T: Logs>(
    texts: &T,
    alloc: Global,
    lines: &Lines<'_>,
    follower: &mut Follower<'_>,
    asked: &Following<'_>,
) -> Result<Answer, AllocError>
    ensures program { follower.new.program ≡ follower.old.program }
    ensures answer { IfOk result (HasSaid (λ said. (each : List Said) × SaysLogs (λ name. SaysLog (T.opens texts.now) asked.now.json name.now) asked.now.logs.items follower.old follower.new each × (said ≡ together each))) }
{
    let mut answer = Answer::new(alloc);
    for name in &asked.logs {
        follow_one(&mut answer, texts, alloc, lines, follower, name, asked.json)?;
    }
    Ok(answer)
}

/// Follows a log, and adds how it ends. Where it can't be read that is reported.
#[tactic(auto, using(crate::proofs::Following::of_ended, crate::proofs::Following::of_failed, crate::proofs::Following::of_closed))]
fn follow_one<T: Logs>(
    answer: &mut Answer,
    texts: &T,
    alloc: Global,
    lines: &Lines<'_>,
    follower: &mut Follower<'_>,
    name: &str,
    json: bool,
) -> Result<(), AllocError>
    ensures program { follower.new.program ≡ follower.old.program }
    ensures answer { IfOk result (λ _. SaysMore (SaysLog (T.opens texts.now) json name.now follower.old follower.new) answer.old answer.new) }
{
    let log = match texts.open(name) {
        Ok(log) => log,
        Err(unread) => return answer.report(alloc, name, &unread),
    };
    match follow_log(alloc, lines, follower, log) {
        Ok(ending) => answer.print(alloc, name, &ending, json),
        Err(LogFault::Failed(error)) => answer.report(alloc, name, &Unread::Failed(error)),
        Err(_) => Err(AllocError),
    }
}

/// Adds the calls that no log makes, if they are listed.
#[tactic(auto, using(crate::proofs::Following::not_listed, crate::proofs::Following::with_listed))]
fn list_unmade(
    answer: &mut Answer,
    alloc: Global,
    program: &Program,
    follower: &Follower<'_>,
    asked: &Following<'_>,
) -> Result<(), AllocError>
    ensures { IfOk result (λ _. said_of answer.new ≡ with_unmade asked.now.never asked.now.json program.now follower.now (said_of answer.old)) }
{
    if !answer.is_listed(asked.never) {
        return Ok(());
    }
    let unmade = unmade_calls(alloc, program, follower)?;
    put_unmade(&mut answer.written, alloc, &unmade, asked.json)
}
