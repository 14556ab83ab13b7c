//! Models that are read, as much of them as is needed.

ghost use Rattle.std.specs.Prelude.{◌≡◌, IfErr, IfOk};
ghost use Rattle.rc_console.specs.Inputs as spec;
ghost use Rattle.rc_console.specs.Inputs.{IsOfInput, ReadsNeeded, ReadsOnce};
ghost use Rattle.rc_report.specs.declared.engine_fault.EngineFault.TheVariants.{Write};
ghost use Rattle.rc_report.specs.Streams.{CanRead, CountsReads};

use crate::fault::CommandFault;
use rc_report::engine_fault::EngineFault;
use rc_report::reading::{read_model, read_text};
use rc_report::streams::Source;
use std::alloc::Global;

/// How much of what is read is needed.
#[derive(Clone, Copy)]
pub enum Extent {
    /// All of it.
    Whole,
    /// Of a model, as much as its answer depends on.
    Enough,
}

/// The bytes of a source, up to its end, as many as are needed.
///
/// Answers `Read` where a read failed, or where 2,097,152 reads met no end of input.
pub fn read_needed<I: Source>(
    alloc: Global,
    source: &mut I,
    extent: Extent,
) -> Result<Vec<u8>, EngineFault>
    requires { CanRead 2097152 (I.state source.old) }
    ensures text { IfOk result (ReadsNeeded extent (I.state source.old) (I.state source.new)) }
    ensures fault { IfErr result (λ e. ¬ (e ≡ Write)) }
    ensures counts { CountsReads (I.state source.old) (I.state source.new) result }
{
    match extent {
        Extent::Whole => read_text(alloc, source),
        Extent::Enough => read_model(alloc, source),
    }
}

/// The same of an input, which is said to have no end where no read of it failed.
#[tactic(auto, using(crate::proofs::Needed::reads_unended, crate::proofs::Needed::reads_failed, crate::proofs::Needed::unended_is_of_input, crate::proofs::Needed::failed_is_of_input))]
pub fn read_input<I: Source>(
    alloc: Global,
    source: &mut I,
    extent: Extent,
) -> Result<Vec<u8>, CommandFault>
    requires { CanRead 2097152 (I.state source.old) }
    ensures text { IfOk result (ReadsNeeded extent (I.state source.old) (I.state source.new)) }
    ensures fault { IfErr result IsOfInput }
    ensures counts { ReadsOnce (I.state source.old) (I.state source.new) result }
{
    let failures = source.failures();
    match read_needed(alloc, source, extent) {
        Ok(text) => Ok(text),
        Err(fault) => {
            if source.failures() == failures {
                return Err(unended(fault));
            }
            Err(CommandFault::Engine(fault))
        }
    }
}

/// Why an input isn't read although none of its reads failed: it has no end, or memory ran out.
fn unended(fault: EngineFault) -> CommandFault
    ensures { result ≡ spec.unended fault }
{
    match fault {
        EngineFault::Read => CommandFault::NoEnd,
        fault => CommandFault::Engine(fault),
    }
}
