//! A model is printed with its blocks indented.

ghost use Rattle.rc_console.specs.Answers.{Does};
ghost use Rattle.rc_command.specs.Answers.{SaysLaidOut};
ghost use Rattle.rc_report.specs.Streams.{CanWrite};

use rc_console::fault::CommandFault;
use rc_console::output::write_answer;
use rc_report::status::GOOD_STATUS;
use rc_report::streams::Sink;
use rc_rewrite::format::format;
use std::alloc::Global;

/// Writes a model with its blocks indented, also one that can't be read.
pub fn format_text<S: Sink>(alloc: Global, text: &[u8], sink: &mut S) -> Result<u8, CommandFault>
    requires { CanWrite (S.state sink.old) }
    ensures { Does (SaysLaidOut text.now) S.state sink.old sink.new result }
{
    let laid = format(alloc, text)?;
    write_answer(sink, &laid, GOOD_STATUS)
}
