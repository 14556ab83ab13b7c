//! What is said of a refused line.

use crate::asks::{Need, header_need, is_of_both, line_need};
use crate::causes::{advice_on_rule, why_of_data, why_of_pool};
use crate::fixes::put_fix;
use crate::line_at::Begins;
use crate::lost::ways::loss_of;
use crate::lost::{last_held, put_lost};
use crate::walked::Refused;
use rc_lang::lines::{Op, Stmt};
use rc_lang::program::Program;
use rc_read::source::Lines;
use rc_rules::cause::Cause;
use rc_text::text::put_piece;
use std::alloc::{AllocError, Global};

/// What is said of a line that isn't good, each in words on one line.
#[derive(Drop)]
pub struct Sentences {
    /// What is wrong: what a refused line asks for, and what is there in its place.
    pub fault: Vec<u8>,
    /// How the part that is missing was lost, if one is.
    pub lost: Option<Vec<u8>>,
    /// The number of the last line above before which that part is held.
    pub held: Option<u32>,
    /// Why it is a mistake.
    pub why: &'static str,
    /// What to write.
    pub fix: Vec<u8>,
}

/// What is said of the line of a pool, or of a header, that is refused for the cause.
pub fn sentences_on_header(
    alloc: Global,
    program: &Program,
    begins: Begins,
    cause: Cause,
) -> Result<Sentences, AllocError> {
    let need = header_need(alloc, program, begins, cause)?;
    let mut sentences = sentences_of(alloc, need, cause);
    put_rule(&mut sentences.fix, cause)?;
    Ok(sentences)
}

/// What is said of a line that is refused for the cause.
pub fn sentences_on_line(
    alloc: Global,
    lines: &Lines,
    refused: Refused,
    cause: Cause,
) -> Result<Sentences, AllocError> {
    let need = line_need(alloc, refused, cause)?;
    let missing = need.missing;
    let mut sentences = sentences_of(alloc, need, cause);
    let mut lost = None;
    if let Some(missing) = missing {
        let loss = loss_of(refused, missing);
        let mut text = Vec::new(alloc);
        put_lost(&mut text, lines, refused, missing, loss)?;
        sentences.lost = Some(text);
        sentences.held = last_held(refused, missing.part);
        lost = Some((missing, loss));
    }
    if let Some(why) = why_of_line(refused, cause) {
        sentences.why = why;
    }
    put_fix(&mut sentences.fix, refused, cause, lost)?;
    put_rule(&mut sentences.fix, cause)?;
    Ok(sentences)
}

/// Why a line is a mistake for which the cause alone doesn't say that.
fn why_of_line(refused: Refused, cause: Cause) -> Option<&'static str> {
    let stmt = refused.stmt(refused.place);
    match (cause, stmt) {
        (Cause::Unlocked, _) => is_of_both(refused.program(), stmt).then_some(why_of_pool()),
        (Cause::NoEntry, Stmt::Do(Op::CqeGetData64)) => Some(why_of_data()),
        _ => None,
    }
}

/// What is asked for, and why it is a mistake.
fn sentences_of(alloc: Global, need: Need, cause: Cause) -> Sentences {
    Sentences {
        fault: need.asks,
        lost: None,
        held: None,
        why: advice_on_rule(cause).why,
        fix: Vec::new(alloc),
    }
}

/// Adds what to write as a rule, where the program shows no more.
fn put_rule(fix: &mut Vec<u8>, cause: Cause) -> Result<(), AllocError> {
    if fix.is_empty() {
        put_piece(fix, advice_on_rule(cause).fix.as_bytes())?;
    }
    Ok(())
}
