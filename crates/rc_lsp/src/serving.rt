//! An editor is answered.

ghost use Rattle.std.specs.Prelude.{◌≡◌, ◌+◌, ◌<◌, ◌≤◌, ◌^◌, IfOk};

use crate::stream::{Ended, serve};
use rc_report::engine_fault::EngineFault;
use rc_report::status::{FAULT_STATUS, GOOD_STATUS};
use rc_report::streams::{ReadSource, Sink, WriteSink};
use rc_report::writing::write_piece;
use std::alloc::Global;
use std::io::{Read, Write};

/// Answers the messages of an editor, and then the exit status: 0 where a shutdown came before the end, else 1. What ends
/// the server besides is reported on a line of `errors`.
pub fn serve_editor<I: Read + Drop, O: Write, E: Sink>(
    alloc: Global,
    reader: I,
    sink: &mut WriteSink<O>,
    errors: &mut E,
) -> Result<u8, EngineFault>
    requires writes { sink.old.failures + 1 < 2 ^ 64 }
    requires told { (E.state errors.old).failures ≡ 0 }
    ensures status { IfOk result (λ status. status ≤ 1) }
    ensures told { (E.state errors.new).failures ≤ 1 }
{
    let mut source = ReadSource::new(reader);
    let ended = serve(alloc, &mut source, sink)?;
    Ok(status_of(ended, errors))
}

/// The exit status of a server that ended so. What was wrong with its input is reported.
fn status_of<E: Sink>(ended: Ended, errors: &mut E) -> u8
    requires { (E.state errors.old).failures ≡ 0 }
    ensures status { result ≤ 1 }
    ensures told { (E.state errors.new).failures ≤ 1 }
{
    let message: &[u8] = match ended {
        Ended::Done { is_clean: true } => return GOOD_STATUS,
        Ended::Done { is_clean: false } => return FAULT_STATUS,
        Ended::NoHead => b"ringcheck: no Content-Length where a message should begin\n",
        Ended::TooLarge => b"ringcheck: a message has more than 16777216 bytes\n",
        Ended::Cut => b"ringcheck: the input ends within a message\n",
    };
    let _ = write_piece(errors, message);
    FAULT_STATUS
}
