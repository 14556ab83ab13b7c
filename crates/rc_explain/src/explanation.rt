//! A verdict and what explains it.

ghost use Rattle.std.specs.Prelude.{◌≡◌, ◌<◌, ◌≤◌, IfOk, length};
ghost use Rattle.rc_report.specs.Judged as spec;

use crate::span::{Span, span_of_word, span_of_words};
use rc_admit::admitted::Judged;
use rc_hints::hint::{hint_on, put_printed};
use rc_lang::program::Program;
use rc_read::ReadCause;
use rc_read::parts::Parts;
use rc_report::check_engine::verdict_of;
use rc_report::source::Lines;
use rc_report::verdict::{Refusal, Verdict};
use rc_sentences::causes::advice_on_read;
use rc_sentences::line_at::{Begins, LineAt, line_at, stock_at};
use rc_sentences::notes::{Note, notes_on};
use rc_sentences::sentences::{Sentences, sentences_on_header, sentences_on_line};
use rc_sentences::walked::{Refused, Walked, walk};
use std::alloc::{AllocError, Global};

/// Which of the threads that the rules accept are walked over.
#[derive(Clone, Copy)]
pub enum Walks {
    /// None.
    None,
    /// Those of an accepted program.
    Accepted,
}

/// A verdict and what explains it. It is computed once, whatever it is drawn as.
#[derive(Drop)]
pub struct Explanation<'a> {
    pub verdict: Verdict,
    /// The lines of the model.
    pub lines: Lines<'a>,
    /// What is said of the line that isn't good, if there is one.
    pub reason: Option<Reason<'a>>,
    pub notes: Vec<Note>,
    /// The threads of an accepted program, if they were asked for.
    pub accepted: Vec<Walked<'a>>,
    /// The thread of a refused line, up to it, unless that is its header.
    pub refused: Option<Walked<'a>>,
    /// Whether there is no thread, so that nothing was checked.
    pub is_empty: bool,
}

/// Why a line isn't good, and what to write.
#[derive(Drop)]
pub struct Reason<'a> {
    pub sentences: Sentences,
    /// Where in the line it is.
    pub span: Span,
    /// The name of the thread of a refused line, unless that is the line of a pool.
    pub thread: Option<&'a [u8]>,
}

/// What is known besides the verdict.
#[derive(Drop)]
struct Known<'a> {
    reason: Option<Reason<'a>>,
    notes: Vec<Note>,
    accepted: Vec<Walked<'a>>,
    refused: Option<Walked<'a>>,
    is_empty: bool,
}

/// The verdict on a model that was judged, and what explains it.
pub fn explain<'a>(
    alloc: Global,
    source: &'a [u8],
    judged: &'a Judged,
    walks: Walks,
) -> Result<Explanation<'a>, AllocError>
    ensures { IfOk result (λ e. e.verdict ≡ spec.verdict_of judged.now) }
{
    let verdict = verdict_of(judged);
    let lines = Lines::of(alloc, source)?;
    let Known {
        reason,
        notes,
        accepted,
        refused,
        is_empty,
    } = known_of(alloc, &lines, judged, walks)?;
    Ok(Explanation {
        verdict,
        lines,
        reason,
        notes,
        accepted,
        refused,
        is_empty,
    })
}

/// What is known besides the verdict.
fn known_of<'a>(
    alloc: Global,
    lines: &Lines<'_>,
    judged: &'a Judged,
    walks: Walks,
) -> Result<Known<'a>, AllocError> {
    match judged {
        Judged::Admitted(admitted) => of_accepted(alloc, lines, admitted.program(), walks),
        Judged::Refused(program, refusal) => of_refused(alloc, lines, program, *refusal),
        Judged::Unread { line, cause, above } => of_unread(alloc, lines, *line, *cause, above),
    }
}

/// What is known of an accepted program.
fn of_accepted<'a>(
    alloc: Global,
    lines: &Lines<'_>,
    program: &'a Program,
    walks: Walks,
) -> Result<Known<'a>, AllocError> {
    let count = program.threads().len() as u32;
    let accepted = match walks {
        Walks::None => Vec::new(alloc),
        Walks::Accepted => walked_up_to(alloc, program, count)?,
    };
    Ok(Known {
        reason: None,
        notes: notes_on(alloc, lines, program)?,
        accepted,
        refused: None,
        is_empty: count == 0,
    })
}

/// The threads of a program with lower numbers than this one; of copies the first.
fn walked_up_to(alloc: Global, program: &Program, count: u32) -> Result<Vec<Walked<'_>>, AllocError>
    requires { count ≤ length program.now.threads }
{
    let mut threads = Vec::new(alloc);
    for number in 0..count {
        if !program.threads()[number as usize].is_further() {
            let walked = walk(alloc, program, number)?;
            threads.push(walked)?;
        }
    }
    Ok(threads)
}

/// What is known of a refused program.
fn of_refused<'a>(
    alloc: Global,
    lines: &Lines<'_>,
    program: &'a Program,
    refusal: Refusal,
) -> Result<Known<'a>, AllocError> {
    let mut known = Known {
        reason: None,
        notes: notes_on(alloc, lines, program)?,
        accepted: Vec::new(alloc),
        refused: None,
        is_empty: false,
    };
    if let Some(at) = line_at(program, refusal.line) {
        let sentences = sentences_at(alloc, lines, program, at, refusal, &mut known.refused)?;
        known.reason = Some(Reason {
            sentences,
            span: span_of_words(lines.line(refusal.line)),
            thread: Some(program.threads()[at.thread as usize].declared_name()),
        });
    } else if let Some(line) = stock_at(program, refusal.line) {
        let sentences = sentences_on_header(alloc, program, Begins::Pool(line), refusal.cause)?;
        known.reason = Some(Reason {
            sentences,
            span: span_of_words(lines.line(refusal.line)),
            thread: None,
        });
    }
    Ok(known)
}

/// What is said of a refused line. Its thread is walked over up to it, unless it is the header.
fn sentences_at<'a>(
    alloc: Global,
    lines: &Lines<'_>,
    program: &'a Program,
    at: LineAt,
    refusal: Refusal,
    thread: &mut Option<Walked<'a>>,
) -> Result<Sentences, AllocError>
    requires { at.thread < length program.now.threads }
{
    let Some(place) = at.place else {
        return sentences_on_header(alloc, program, Begins::Thread(at.thread), refusal.cause);
    };
    let walked = walk(alloc, program, at.thread)?;
    let refused = Refused {
        walked: &walked,
        place,
    };
    let sentences = sentences_on_line(alloc, lines, refused, refusal.cause)?;
    *thread = Some(walked);
    Ok(sentences)
}

/// What is known of a model with a line that can't be read.
fn of_unread<'a>(
    alloc: Global,
    lines: &Lines<'_>,
    number: u32,
    cause: ReadCause,
    above: &Parts,
) -> Result<Known<'a>, AllocError> {
    let line = lines.line(number);
    let hint = hint_on(alloc, line, number, cause, above)?;
    let advice = advice_on_read(cause);
    let mut fault = Vec::new(alloc);
    put_printed(&mut fault, &hint)?;
    let span = match hint.column {
        Some(column) => span_of_word(line, column),
        None => span_of_words(line),
    };
    let fix = if hint.fix.is_empty() {
        advice.fix.as_bytes().to_vec(alloc)?
    } else {
        hint.fix
    };
    let sentences = Sentences {
        fault,
        lost: None,
        held: None,
        why: advice.why,
        fix,
    };
    Ok(Known {
        reason: Some(Reason {
            sentences,
            span,
            thread: None,
        }),
        notes: Vec::new(alloc),
        accepted: Vec::new(alloc),
        refused: None,
        is_empty: false,
    })
}
