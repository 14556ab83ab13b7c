//! What explains a verdict, in words.

use crate::explanation::{Explanation, Reason};
use crate::listing::{Entry, entries_of};
use rc_read::source::put_line_words;
use rc_report::source::Lines;
use rc_report::verdict::Verdict;
use rc_rules::side::Side;
use rc_rules::state::State;
use rc_sentences::notes::Note;
use rc_sentences::state_text::put_state;
use rc_sentences::walked::Walked;
use rc_text::text::{put_counted, put_piece, put_pieces};
use std::alloc::{AllocError, Global};

/// What is printed after the line of a verdict: what is wrong with a line that isn't good, why, and what to write; the
/// notes; and if it is asked for what is known before each line.
pub fn printed(
    alloc: Global,
    explanation: &Explanation<'_>,
    is_listed: bool,
) -> Result<Vec<u8>, AllocError> {
    let mut text = Vec::new(alloc);
    if let Some(reason) = &explanation.reason {
        put_reason(&mut text, &explanation.verdict, reason)?;
    }
    put_notes(&mut text, &explanation.notes)?;
    if explanation.is_empty {
        put_piece(&mut text, b"no thread: nothing was checked\n")?;
    }
    if is_listed {
        put_listing(&mut text, explanation)?;
    }
    Ok(text)
}

/// Adds what is wrong with a line, how the part that is missing was lost, why it is a mistake, what to write, and where
/// more is said of it.
fn put_reason(
    text: &mut Vec<u8>,
    verdict: &Verdict,
    reason: &Reason<'_>,
) -> Result<(), AllocError> {
    let sentences = &reason.sentences;
    put_pieces(text, &[&sentences.fault, b"\n"])?;
    if let Some(lost) = &sentences.lost {
        put_pieces(text, &[lost, b"\n"])?;
    }
    let why = sentences.why.as_bytes();
    put_pieces(text, &[b"why: ", why, b"\n"])?;
    put_pieces(text, &[b"fix: ", &sentences.fix, b"\n"])?;
    match verdict.finding() {
        Some(finding) => {
            put_pieces(text, &[b"see ", finding.letter.as_bytes()])?;
            put_counted(
                text,
                b"",
                u64::from(finding.number),
                b" in docs/causes.md\n",
            )
        }
        None => Ok(()),
    }
}

/// Adds the notes on a program.
fn put_notes(text: &mut Vec<u8>, notes: &[Note]) -> Result<(), AllocError> {
    for note in notes {
        put_pieces(text, &[b"note: ", &note.text, b"\n"])?;
    }
    Ok(())
}

/// Adds what is known before the lines: of an accepted program all, of a refused one those of the thread up to the refused
/// line.
fn put_listing(text: &mut Vec<u8>, explanation: &Explanation<'_>) -> Result<(), AllocError> {
    for walked in &explanation.accepted {
        put_thread(text, &explanation.lines, walked)?;
    }
    match (&explanation.refused, &explanation.reason) {
        (Some(walked), _) => put_thread(text, &explanation.lines, walked),
        (
            None,
            Some(
                Reason {
                    thread: Some(name),
                    ..
                },
            ),
        ) => put_pieces(text, &[b"thread ", name, b": its header\n"]),
        _ => Ok(()),
    }
}

/// Adds a thread's name, and what is known before each of its lines.
fn put_thread(
    text: &mut Vec<u8>,
    lines: &Lines<'_>,
    walked: &Walked<'_>,
) -> Result<(), AllocError> {
    put_pieces(text, &[b"thread ", walked.thread.declared_name(), b"\n"])?;
    if walked.thread.lines.is_empty() {
        return put_piece(text, b"  no lines\n");
    }
    for entry in entries_of(*text.allocator(), walked)? {
        put_entry(text, lines, entry)?;
    }
    Ok(())
}

/// Adds a line, or lines that nothing reaches.
fn put_entry(text: &mut Vec<u8>, lines: &Lines<'_>, entry: Entry<'_>) -> Result<(), AllocError> {
    match entry {
        Entry::Reached(number, state) => put_reached(text, lines, number, state),
        Entry::Unreached(first, last) => put_span(text, u64::from(first), u64::from(last)),
    }
}

/// Adds that nothing reaches the lines from one to another.
fn put_span(text: &mut Vec<u8>, first: u64, last: u64) -> Result<(), AllocError> {
    if first == last {
        return put_counted(text, b"  line ", first, b": nothing reaches this\n");
    }
    put_counted(text, b"  lines ", first, b" to ")?;
    put_counted(text, b"", last, b": nothing reaches these\n")
}

/// Adds a line with what is known before it, on each side of the flag that something reaches.
fn put_reached(
    text: &mut Vec<u8>,
    lines: &Lines<'_>,
    number: u32,
    state: &State<'_>,
) -> Result<(), AllocError> {
    let (zero, other): (&[u8], &[u8]) = match state.flag() {
        Some(_) => (b", flag 0: ", b", flag not 0: "),
        None => (b": ", b": "),
    };
    put_side(text, lines, number, state.on(true), zero)?;
    put_side(text, lines, number, state.on(false), other)
}

/// Adds a line with what is known before it on a side, where something reaches it, after which side that is.
fn put_side(
    text: &mut Vec<u8>,
    lines: &Lines<'_>,
    number: u32,
    side: &Side<'_>,
    flag: &[u8],
) -> Result<(), AllocError> {
    if !side.is_live() {
        return Ok(());
    }
    put_counted(text, b"  line ", u64::from(number), b", ")?;
    put_line_words(text, lines, number)?;
    put_piece(text, flag)?;
    put_state(text, side.view().program, side)?;
    put_piece(text, b"\n")
}
