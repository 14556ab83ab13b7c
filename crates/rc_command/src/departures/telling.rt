//! An answer is written.

ghost use Rattle.std.specs.Prelude.{◌≡◌, ◌≤◌, IfOk};
ghost use Rattle.rc_command.specs.Following.{AnswersWhole, said_of};
ghost use Rattle.rc_report.specs.Streams.{CanWrite};

use crate::departures::answer::Answer;
use rc_console::fault::CommandFault;
use rc_console::output::tell_notes;
use rc_report::streams::Sink;
use rc_report::writing::write_piece;

/// Writes an answer, and reports what is reported after it. Answers its status.
pub fn tell_answer<S: Sink, E: Sink>(
    answer: &Answer,
    sink: &mut S,
    errors: &mut E,
) -> Result<u8, CommandFault>
    requires writes { CanWrite (S.state sink.old) }
    requires told { (E.state errors.old).failures ≤ 1 }
    ensures answer { AnswersWhole (λ said. said ≡ said_of answer.now) S.state sink.old sink.new E.state errors.old errors.new result }
    ensures status { IfOk result (λ status. status ≤ 3) }
    ensures failures { IfOk result (λ _. (S.state sink.new).failures ≡ (S.state sink.old).failures) }
{
    write_piece(sink, &answer.written)?;
    tell_notes(&answer.reported, errors);
    Ok(answer.status)
}
