//! A model is checked, and its verdict is printed with what explains it.

ghost use Rattle.std.specs.Prelude.{false, option_copied as named};
ghost use Rattle.rc_explain.specs.Explains.{BeginsWith, Explains, IsObjectText, Tells};
ghost use Rattle.rc_report.specs.Files.{printed as printed_verdict};
ghost use Rattle.rc_report.specs.Judged as spec;
ghost use Rattle.rc_report.specs.Text.{PutsAnswer, PutsSome};

use crate::explanation::{Explanation, Walks, explain};
use crate::object::object_text;
use crate::printed::printed;
use rc_admit::admitted::{Judged, judge};
use rc_console::command::Form;
use rc_report::check_engine::verdict_of;
use rc_report::shown::put_shown;
use rc_report::text::put_piece;
use rc_report::verdict::{Verdict, print_verdict};
use std::alloc::{AllocError, Global};

/// Adds the verdict on a model, with what explains it. If the model is that of a file, its name is printed,
/// too. In words the line of the verdict comes first, as it does without an explanation. Answers an error only where
/// memory ran out.
pub fn put_explained(
    text: &mut Vec<u8>,
    alloc: Global,
    file: Option<&str>,
    source: &[u8],
    form: Form,
) -> Result<Verdict, AllocError>
    ensures { PutsAnswer (Explains source.now (named file.entry) form) text.old text.new result }
{
    let judged = judge(alloc, source)?;
    put_judged(text, alloc, file, source, &judged, form)?;
    Ok(verdict_of(&judged))
}

/// Adds the verdict on a model that was judged, with what explains it.
fn put_judged(
    text: &mut Vec<u8>,
    alloc: Global,
    file: Option<&str>,
    source: &[u8],
    judged: &Judged,
    form: Form,
) -> Result<(), AllocError>
    ensures { PutsSome (Tells (named file.entry) form (spec.verdict_of judged.now))
        text.old text.new result }
{
    let walks = match form {
        Form::Words => Walks::None,
        Form::Listing | Form::Json => Walks::Accepted,
    };
    let explanation = explain(alloc, source, judged, walks)?;
    put_drawn(text, alloc, file, &explanation, form)
}

/// Adds an explanation in a form.
fn put_drawn(
    text: &mut Vec<u8>,
    alloc: Global,
    file: Option<&str>,
    explanation: &Explanation<'_>,
    form: Form,
) -> Result<(), AllocError>
    ensures { PutsSome (Tells (named file.entry) form explanation.now.verdict)
        text.old text.new result }
{
    match form {
        Form::Words => put_lines(text, alloc, file, explanation, false),
        Form::Listing => put_lines(text, alloc, file, explanation, true),
        Form::Json => put_object(text, alloc, file, explanation),
    }
}

/// Adds an explanation as JSON.
fn put_object(
    text: &mut Vec<u8>,
    alloc: Global,
    file: Option<&str>,
    explanation: &Explanation<'_>,
) -> Result<(), AllocError>
    ensures { PutsSome (IsObjectText (named file.entry) explanation.now.verdict)
        text.old text.new result }
{
    let object = object_text(alloc, file, explanation)?;
    put_shown(text, object.as_str())?;
    put_piece(text, b"\n")
}

/// Adds the line of the verdict, and what explains it; with what is known before the lines or without.
fn put_lines(
    text: &mut Vec<u8>,
    alloc: Global,
    file: Option<&str>,
    explanation: &Explanation<'_>,
    is_listed: bool,
) -> Result<(), AllocError>
    ensures { PutsSome (BeginsWith (printed_verdict (named file.entry) false explanation.now.verdict))
        text.old text.new result }
{
    print_verdict(text, alloc, file, false, &explanation.verdict)?;
    let rest = printed(alloc, explanation, is_listed)?;
    put_piece(text, &rest)
}
