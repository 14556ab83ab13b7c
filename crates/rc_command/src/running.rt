//! A text is run on threads, and the trace of the run is written.

ghost use Rattle.std.specs.Prelude.{◌≡◌, IfErr, IfOk, option_copied as named};
ghost use Rattle.std.specs.Arc.{arc_value};
ghost use Rattle.rc_command.specs.Answers.{EndsRun, SaysAdmitted, SaysRun, TellsWhy};
ghost use Rattle.rc_console.specs.declared.fault.CommandFault.TheVariants.{OtherProgram};
ghost use Rattle.rc_console.specs.Answers.{Does};
ghost use Rattle.rc_report.specs.Statuses.{status_of_end};
ghost use Rattle.rc_report.specs.Streams.{CanWrite};

use rc_admit::admitted::Admitted;
use rc_console::fault::CommandFault;
use rc_console::output::write_answer;
use rc_device::chooser::Seeded;
use rc_device::disk::Disk;
use rc_lang::program::Program;
use rc_report::check_engine::judged;
use rc_report::source::Lines;
use rc_report::streams::Sink;
use rc_report::summary::put_summary;
use rc_report::trace::{End, trace_text};
use rc_report::verdict::{Verdict, print_verdict};
use rc_run::gate::OpenGate;
use rc_run::report::{RunFault, RunReport};
use rc_run::runner::run;
use rc_runs::stuck_text::rerun::waits_after;
use rc_runs::stuck_text::waits::put_waits;
use rc_text::text::put_piece;
use rc_world::event::Event;
use std::alloc::{AllocError, Global};
use std::sync::{Arc, Wait};
use std::thread::Threads;

/// What a command runs on: threads, and memory.
#[derive(Drop)]
pub struct Host<'a, R> {
    pub rt: &'a R,
    pub alloc: Global,
}

/// Runs the program of a text, over files in memory, with the choices of a seed. A text that can't be read or is refused
/// is answered with its verdict.
pub fn run_text<R: Threads + Wait + Sync, S: Sink>(
    host: &Host<'_, R>,
    file: Option<&str>,
    text: &[u8],
    seed: u32,
    limit: u32,
    summary: bool,
    sink: &mut S,
) -> Result<u8, CommandFault>
    requires { CanWrite (S.state sink.old) }
    ensures { Does (SaysAdmitted (named file.entry) text.now (λ program. SaysRun program limit summary))
        S.state sink.old sink.new result }
{
    match judged(host.alloc, text)? {
        Ok(admitted) => run_admitted(host, text, admitted, seed, limit, summary, sink),
        Err(verdict) => tell_verdict(host.alloc, file, verdict, sink),
    }
}

/// Writes a verdict, with the name of the model's file if there is one, and answers its status.
pub fn tell_verdict<S: Sink>(
    alloc: Global,
    file: Option<&str>,
    verdict: Verdict,
    sink: &mut S,
) -> Result<u8, CommandFault>
    requires { CanWrite (S.state sink.old) }
    ensures { Does (TellsWhy (named file.entry) verdict) S.state sink.old sink.new result }
{
    let mut answer = Vec::new(alloc);
    print_verdict(&mut answer, alloc, file, false, &verdict)?;
    write_answer(sink, &answer, verdict.status())
}

/// Runs the admitted program of a text, and writes the trace or the summary.
fn run_admitted<R: Threads + Wait + Sync, S: Sink>(
    host: &Host<'_, R>,
    text: &[u8],
    admitted: Admitted,
    seed: u32,
    limit: u32,
    summary: bool,
    sink: &mut S,
) -> Result<u8, CommandFault>
    requires { CanWrite (S.state sink.old) }
    ensures { Does (SaysRun admitted limit summary) S.state sink.old sink.new result }
{
    let disk = Disk::new(host.alloc, admitted.program())?;
    let admitted = Arc::new(host.alloc, admitted).map_err(|_| AllocError)?;
    let theirs = Arc::try_clone(&admitted)?;
    let (report, end) = played(host.rt, host.alloc, theirs, disk, seed, limit)?;
    if summary {
        let program = admitted.program();
        return write_summary(host.alloc, text, program, &report.history, end, sink);
    }
    trace_text(admitted.program(), &report.history, end, sink)?;
    Ok(end.status())
}

/// Writes the summary of a run that ended so, and answers its status.
fn write_summary<S: Sink>(
    alloc: Global,
    text: &[u8],
    program: &Program,
    history: &[Event],
    end: End,
    sink: &mut S,
) -> Result<u8, CommandFault>
    requires { CanWrite (S.state sink.old) }
    ensures { Does (λ status text. status ≡ status_of_end end) S.state sink.old sink.new result }
{
    let lines = Lines::of(alloc, text)?;
    let mut answer = Vec::new(alloc);
    put_summary(&mut answer, alloc, &lines, program, history, end)?;
    put_stuck(&mut answer, alloc, program, history, end)?;
    write_answer(sink, &answer, end.status())
}

/// Adds what the threads wait for, where a run came to its limit in a stuck world.
fn put_stuck(
    text: &mut Vec<u8>,
    alloc: Global,
    program: &Program,
    history: &[Event],
    end: End,
) -> Result<(), AllocError> {
    let End::Limit = end else {
        return Ok(());
    };
    match waits_after(alloc, program, history)? {
        Some(waits) => {
            put_piece(text, b"stuck there:\n")?;
            put_waits(text, b"  ", &waits)
        }
        None => Ok(()),
    }
}

/// What a run did, and how it ended.
fn played<R: Threads + Wait + Sync>(
    rt: &R,
    alloc: Global,
    admitted: Arc<Admitted, Global>,
    disk: Disk,
    seed: u32,
    limit: u32,
) -> Result<(RunReport, End), CommandFault>
    ensures end { IfOk result (λ r. EndsRun (arc_value admitted) limit r.0 r.1) }
    ensures fault { IfErr result (λ e. e ≡ OtherProgram) }
{
    let chooser = Seeded::new(u64::from(seed));
    match run(
        rt,
        alloc,
        admitted,
        disk,
        chooser,
        OpenGate,
        u64::from(limit),
    ) {
        Ok(report) => Ok((report, End::Ended)),
        Err(RunFault::Limit(report)) => Ok((report, End::Limit)),
        Err(RunFault::OutOfMemory(report)) => Ok((report, End::Memory)),
        Err(RunFault::OtherProgram) => Err(CommandFault::OtherProgram),
    }
}
