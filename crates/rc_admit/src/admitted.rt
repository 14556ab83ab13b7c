//! Programs that are safe.

ghost use Rattle.std.specs.Prelude.{◌≡◌, IfOk};
ghost use Rattle.rc_world.specs.Runs.{IsSafe};
ghost use Rattle.rc_world.specs.WeakRuns.{IsWeaklySafe};
ghost use Rattle.rc_admit.specs.Answer.{Admits, AdmitsProgram};
ghost use Rattle.rc_admit.specs.Judged.{IsJudged};

use crate::fault::AdmitFault;
use rc_lang::program::Program;
use rc_read::parts::{Parts, Unread};
use rc_read::{ReadCause, ReadFault, read_parts};
use rc_verify::refusal::{Refusal, VerifyFault};
use rc_verify::verify::verify;
use std::alloc::{AllocError, Global};
use std::marker::Model;

/// A program that is safe: no world of any run of it has a fault, whatever the order in which its threads and the
/// kernel make their steps, and none of any weak run. There is no other `Admitted`.
#[derive(Drop)]
pub struct Admitted {
    program: Program,
}

// Clauses see the program.
impl Model for Admitted {
    ghost use Rattle.rc_lang.specs.Program as spec;

    ghost Value = { spec.Program };

    ghost use Rattle.rc_world.specs.WeakRuns.{IsWeaklySafe};

    ghost view = { λ a. a.program };

    ghost invariant = { λ a. IsWeaklySafe a.program };
}

impl Admitted {
    /// Admits the program, which the rules have to accept. This takes no memory: the answer is never `OutOfMemory`.
    pub fn from_program(alloc: Global, program: Program) -> Result<Admitted, AdmitFault>
        ensures { AdmitsProgram program result }
    {
        match verify(alloc, &program) {
            Ok(()) => Ok(Admitted { program }),
            Err(VerifyFault::Refused(refusal)) => Err(AdmitFault::Refused(refusal)),
            Err(VerifyFault::OutOfMemory) => Err(AdmitFault::OutOfMemory),
        }
    }

    /// The program.
    pub fn program(&self) -> &Program
        ensures value { result.now ≡ self.now }
        ensures safe { IsSafe self.now }
        ensures weakly_safe { IsWeaklySafe self.now }
    {
        &self.program
    }
}

/// What a text is: a program that is safe, one that is refused, or none.
#[derive(Drop)]
pub enum Judged {
    Admitted(Admitted),
    /// The program, and why it is refused.
    Refused(Program, Refusal),
    /// The line that can't be read, from 1, why, and what was read above it; at the text's end all lines were.
    Unread {
        line: u32,
        cause: ReadCause,
        above: Parts,
    },
}

/// Reads a text, bytes in the notation of programs, and judges the program. It is no part of its caller, as it needs room
/// for labels.
#[inline(never)]
pub fn judge(alloc: Global, text: &[u8]) -> Result<Judged, AllocError>
    ensures { IfOk result (IsJudged text.now) }
{
    let program = match read_parts(alloc, text) {
        Ok(program) => program,
        Err(
            Unread {
                fault: ReadFault::Text { line, cause },
                parts: above,
            },
        ) => return Ok(Judged::Unread { line, cause, above }),
        Err(_) => return Err(AllocError),
    };
    match verify(alloc, &program) {
        Ok(()) => Ok(Judged::Admitted(Admitted { program })),
        Err(VerifyFault::Refused(refusal)) => Ok(Judged::Refused(program, refusal)),
        Err(VerifyFault::OutOfMemory) => Err(AllocError),
    }
}

/// Admits the program of a text: bytes in the notation of programs, which the rules have to accept.
pub fn admit(alloc: Global, text: &[u8]) -> Result<Admitted, AdmitFault>
    ensures { Admits text.now result }
{
    match judge(alloc, text) {
        Ok(Judged::Admitted(admitted)) => Ok(admitted),
        Ok(Judged::Refused(_, refusal)) => Err(AdmitFault::Refused(refusal)),
        Ok(Judged::Unread { line, cause, .. }) => {
            Err(AdmitFault::Read(ReadFault::Text { line, cause }))
        }
        Err(AllocError) => Err(AdmitFault::OutOfMemory),
    }
}
