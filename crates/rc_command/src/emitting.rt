//! An accepted text is written as a C program over liburing.

ghost use Rattle.std.specs.Prelude.{◌≡◌, option_copied as named};
ghost use Rattle.rc_console.specs.Answers.{Does};
ghost use Rattle.rc_command.specs.Answers.{SaysAdmitted};
ghost use Rattle.rc_report.specs.Streams.{CanWrite};

use crate::running::tell_verdict;
use rc_console::fault::CommandFault;
use rc_console::output::write_answer;
use rc_emit::c_text;
use rc_report::check_engine::judged;
use rc_report::status::GOOD_STATUS;
use rc_report::streams::Sink;
use std::alloc::Global;

/// Writes the accepted program of a text in C. A text that can't be read or is refused is answered with its verdict.
pub fn emit_text<S: Sink>(
    alloc: Global,
    file: Option<&str>,
    text: &[u8],
    sink: &mut S,
) -> Result<u8, CommandFault>
    requires { CanWrite (S.state sink.old) }
    ensures { Does (SaysAdmitted (named file.entry) text.now (λ program status text. status ≡ 0)) S.state sink.old sink.new result }
{
    match judged(alloc, text)? {
        Ok(admitted) => {
            let answer = c_text(alloc, text, admitted.program())?;
            write_answer(sink, &answer, GOOD_STATUS)
        }
        Err(verdict) => tell_verdict(alloc, file, verdict, sink),
    }
}
