//! A model is printed with the items that its loops can keep.

ghost use Rattle.std.specs.Prelude.{option_copied as named};
ghost use Rattle.rc_console.specs.Answers.{Does};
ghost use Rattle.rc_command.specs.Answers.{SaysKept};
ghost use Rattle.rc_report.specs.Streams.{CanWrite};

use crate::running::tell_verdict;
use rc_console::fault::CommandFault;
use rc_console::output::write_answer;
use rc_report::status::GOOD_STATUS;
use rc_report::streams::Sink;
use rc_report::verdict::Verdict;
use rc_rewrite::keeps::{UnreadLine, kept_text};
use std::alloc::Global;

/// Writes a model with the items of its loops as large as the loops can keep them. One that can't be read is answered
/// with its verdict.
pub fn keep_text<S: Sink>(
    alloc: Global,
    file: Option<&str>,
    text: &[u8],
    sink: &mut S,
) -> Result<u8, CommandFault>
    requires { CanWrite (S.state sink.old) }
    ensures { Does (SaysKept (named file.entry) text.now) S.state sink.old sink.new result }
{
    match kept_text(alloc, text)? {
        Ok(kept) => write_answer(sink, &kept, GOOD_STATUS),
        Err(unread) => {
            let UnreadLine { line, cause } = unread;
            tell_verdict(alloc, file, Verdict::Unreadable { line, cause }, sink)
        }
    }
}
