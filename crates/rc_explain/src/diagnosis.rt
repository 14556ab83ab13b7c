//! What an editor shows at the lines of a model.

ghost use Rattle.std.specs.Prelude.{IfOk};
ghost use Rattle.rc_read.specs.Answer.{answer_of};
ghost use Rattle.rc_report.specs.Checks.{IsVerdict};

use crate::explanation::{Explanation, Walks, explain};
use crate::notes::{Note, notes_of};
use crate::span::Span;
use rc_admit::admitted::{Judged, judge};
use rc_report::check_engine::verdict_of;
use rc_report::text::put_pieces;
use rc_report::verdict::Verdict;
use std::alloc::{AllocError, Global};

/// The verdict on a model; what is said of the line that isn't good, if there is one; and notes.
#[derive(Drop)]
pub struct Diagnosis {
    pub verdict: Verdict,
    pub words: Option<Words>,
    pub notes: Vec<Note>,
}

/// What is said of a line that isn't good.
#[derive(Drop)]
pub struct Words {
    /// The name of the cause, and what explains it, in lines without a line feed at their end.
    pub text: Vec<u8>,
    /// Where in the line it is.
    pub span: Span,
    /// The last line above it, from 1, before which the missing part is held, if a part is missing that is held at one.
    pub held: Option<u32>,
}

/// What is said of the line that isn't good, and the notes.
type Shown = (Option<Words>, Vec<Note>);

/// Judges a model. Answers an error only where memory ran out.
pub fn diagnose(alloc: Global, text: &[u8]) -> Result<Diagnosis, AllocError>
    ensures { IfOk result (λ d. IsVerdict (answer_of text.now) d.verdict) }
{
    let judged = judge(alloc, text)?;
    let (words, notes) = shown_of(alloc, text, &judged)?;
    Ok(Diagnosis {
        verdict: verdict_of(&judged),
        words,
        notes,
    })
}

/// What is shown of a model that was judged.
fn shown_of(alloc: Global, text: &[u8], judged: &Judged) -> Result<Shown, AllocError> {
    let explanation = explain(alloc, text, judged, Walks::None)?;
    let words = words_of(alloc, &explanation)?;
    Ok((words, notes_of(alloc, judged, explanation.notes)?))
}

/// What is said of the line that isn't good.
fn words_of(alloc: Global, explanation: &Explanation<'_>) -> Result<Option<Words>, AllocError> {
    let (Some(finding), Some(reason)) = (explanation.verdict.finding(), &explanation.reason) else {
        return Ok(None);
    };
    let sentences = &reason.sentences;
    let mut text = Vec::new(alloc);
    put_pieces(&mut text, &[finding.name.as_bytes(), b": "])?;
    put_pieces(&mut text, &[&sentences.fault, b"\n"])?;
    if let Some(lost) = &sentences.lost {
        put_pieces(&mut text, &[lost, b"\n"])?;
    }
    put_pieces(&mut text, &[b"fix: ", &sentences.fix])?;
    Ok(Some(Words {
        text,
        span: reason.span,
        held: sentences.held,
    }))
}
