//! Why there is no answer, as it is told.

ghost use Rattle.std.specs.Prelude.{◌≡◌, ◌≤◌};
ghost use Rattle.rc_console.specs.Faults.{reason_line};
ghost use Rattle.rc_console.specs.Files.{IsTold};
ghost use Rattle.rc_report.specs.Streams.{CanWrite, Writes};
ghost use Rattle.rc_text.specs.Text.{Puts};

use crate::fault::CommandFault;
use rc_report::engine_fault::EngineFault;
use rc_report::status::DEVICE_STATUS;
use rc_report::streams::Sink;
use rc_report::writing::{write_piece, write_pieces};
use rc_text::text::put_pieces;
use std::alloc::{AllocError, Global};

/// Tells on one line of `errors` why the program has no answer, and answers its exit status then, which is 3. After a write
/// to `errors` that failed nothing more is told.
pub fn tell<E: Sink>(alloc: Global, fault: &CommandFault, errors: &mut E) -> u8
    requires { (E.state errors.old).failures ≤ 1 }
    ensures status { result ≡ 3 }
    ensures told { IsTold (E.state errors.old) (E.state errors.new) (reason_line fault.now) }
{
    if errors.failures() == 0 {
        let _ = write_reason(alloc, fault, errors);
    }
    DEVICE_STATUS
}

/// Writes the line that says why there is no answer: in one piece where there is memory for it.
fn write_reason<E: Sink>(
    alloc: Global,
    fault: &CommandFault,
    errors: &mut E,
) -> Result<(), EngineFault>
    requires { CanWrite (E.state errors.old) }
    ensures { Writes E.state errors.old errors.new (reason_line fault.now) result }
{
    let mut line = Vec::new(alloc);
    match put_reason(&mut line, fault) {
        Ok(()) => write_piece(errors, &line),
        Err(AllocError) => write_pieces(errors, &[b"ringcheck: ", fault.why().as_bytes(), b"\n"]),
    }
}

/// Adds the line that says why there is no answer.
fn put_reason(line: &mut Vec<u8>, fault: &CommandFault) -> Result<(), AllocError>
    ensures { Puts line.old line.new (reason_line fault.now) result }
{
    put_pieces(line, &[b"ringcheck: ", fault.why().as_bytes(), b"\n"])
}
