//! The verifier.

ghost use Rattle.std.specs.Prelude.{◌≡◌, ◌<◌, length, OnOk};
ghost use Rattle.rc_lang.specs.Program.{line_end};
ghost use Rattle.rc_rules.specs.Labellings.{given_to, pool_asks};
ghost use Rattle.rc_rules.specs.Premises.{Meets};
ghost use Rattle.rc_rules.specs.Rules.{limit};
ghost use Rattle.rc_split.specs.Bags.{IsWithin, nothing};
ghost use Rattle.rc_split.specs.Holdings.{Holds};
ghost use Rattle.rc_verify.specs.Answer.{ArePoolsJudged, AreThreadsJudged, IsJudged, IsProgramJudged, IsWalked, OnThread, Verifies};

use crate::headers::{judge_header, judge_pool};
use crate::labels::Labels;
use crate::refusal::{Refusal, VerifyFault};
use rc_lang::program::Program;
use rc_split::holding::Holding;
use std::alloc::Global;

/// Walks over the lines of a thread, and answers the first that the rules refuse.
fn walk_thread<'a>(
    labels: &mut Labels<'a>,
    program: &'a Program,
    thread: u32,
) -> Result<(), Refusal>
    requires there { thread < length program.now.threads }
    requires of { labels.old.program ≡ program.now }
    ensures walked { OnThread program.now thread (λ t. IsWalked program.now thread t result) }
    ensures same { labels.new.program ≡ program.now }
{
    let part = &program.threads()[thread as usize];
    labels.begin(thread);
    loop {
        match labels.next() {
            Ok(true) => {}
            Ok(false) => return Ok(()),
            Err(cause) => {
                let line = part.lines[labels.place()].number;
                return Err(Refusal { line, cause });
            }
        }
    }
}

/// Judges a thread, where the headers before it were judged and what they hold is held: its header with all copies of its
/// line, and then its lines.
fn judge_thread<'a>(
    labels: &mut Labels<'a>,
    held: &mut Holding,
    program: &'a Program,
    thread: u32,
) -> Result<(), Refusal>
    requires there { thread < length program.now.threads }
    requires of { labels.old.program ≡ program.now }
    requires within { IsWithin (given_to program.now thread) (limit program.now) }
    requires held { Holds held.old program.now (given_to program.now thread) }
    ensures judged { OnThread program.now thread (λ t. IsJudged program.now thread t result) }
    ensures same { labels.new.program ≡ program.now }
    ensures held { OnOk result (Holds held.new program.now (given_to program.now (line_end program.now.threads thread))) }
{
    if let Err(cause) = judge_header(program, thread, held) {
        let line = program.threads()[thread as usize].line;
        return Err(Refusal { line, cause });
    }
    walk_thread(labels, program, thread)
}

/// Judges the lines of pools, and holds what they give.
fn judge_pools(held: &mut Holding, program: &Program) -> Result<(), Refusal>
    requires { Holds held.old program.now nothing }
    ensures judged { ArePoolsJudged program.now result }
    ensures held { OnOk result (Holds held.new program.now (given_to program.now 0)) }
{
    let lines = program.stock();
    for line in 0..lines.len() {
        if let Err(cause) = judge_pool(program, line, held) {
            let line = lines[line].line;
            return Err(Refusal { line, cause });
        }
    }
    Ok(())
}

/// Judges the threads in turn, where the lines of pools were judged and what they give is held.
fn judge_threads(held: &mut Holding, program: &Program) -> Result<(), Refusal>
    requires pools { Meets (pool_asks program.now (length program.now.stock)) }
    requires held { Holds held.old program.now (given_to program.now 0) }
    ensures { AreThreadsJudged program.now result }
{
    let count = program.threads().len();
    if count == 0 {
        return Ok(());
    }
    let mut labels = Labels::new(program, 0);
    // A thread that passes stands for all copies of its line: no rule looks at a copy's number.
    let mut thread = 0;
    while thread < count {
        if let Err(refusal) = judge_thread(&mut labels, held, program, thread as u32) {
            return Err(refusal);
        }
        thread = program.line_end(thread);
    }
    Ok(())
}

/// Judges the lines of pools, and then the threads.
fn judge(program: &Program) -> Result<(), Refusal>
    ensures { IsProgramJudged program.now result }
{
    let mut held = Holding::nothing(program.as_declared());
    judge_pools(&mut held, program)?;
    judge_threads(&mut held, program)
}

/// Verifies a program: Ok where the lines of pools and each header meet their premises and each thread has a labelling
/// that is good at each of its lines. Else `Refused` with the first line, in the order of the text, up to which there is
/// none, and the least premise there that none meets. It takes no memory and never answers `OutOfMemory`.
pub fn verify(_alloc: Global, program: &Program) -> Result<(), VerifyFault>
    ensures { Verifies program.now result }
{
    match judge(program) {
        Ok(()) => Ok(()),
        Err(refusal) => Err(VerifyFault::Refused(refusal)),
    }
}
