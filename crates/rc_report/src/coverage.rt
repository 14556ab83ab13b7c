//! The coverage of a run: how often each way of an `if` and of a `peek_cqe` was taken, and which lines never ran.

use rc_lang::lines::{Line, Stmt};
use rc_lang::program::Program;
use rc_read::source::{Lines, opening_words};
use rc_text::text::{put_counted, put_number, put_piece};
use rc_world::event::{Action, Event};
use std::alloc::{AllocError, Global};

/// A way out of an `if` or of a `peek_cqe`.
#[derive(Clone, Copy)]
enum Way {
    /// The test of an `if` holds.
    Yes,
    /// It doesn't.
    No,
    /// The arm of a `peek_cqe` for this user data.
    Case(u64),
    /// Its arm for any other user data.
    Other,
    /// Its arm for no completion.
    Nothing,
}

/// Lines of a thread, one after another: the numbers of the first and the last.
#[derive(Clone, Copy)]
struct Span {
    first: u32,
    last: u32,
}

/// Adds a line for each `if` and `peek_cqe`, with how often each way was taken, and one with the lines that never ran.
/// Lines that are no events of their own, as `} else {` and `case 7 {`, aren't among these.
pub(crate) fn put_coverage(
    text: &mut Vec<u8>,
    alloc: Global,
    source: &Lines<'_>,
    program: &Program,
    events: &[Event],
) -> Result<(), AllocError> {
    for thread in program.threads() {
        if !thread.is_further() {
            put_thread_ways(text, alloc, source, &thread.lines, events)?;
        }
    }
    let spans = spans_of(alloc, program, events)?;
    put_idle(text, &spans)
}

/// Adds how often each way was taken, for the lines of a thread.
fn put_thread_ways(
    text: &mut Vec<u8>,
    alloc: Global,
    source: &Lines<'_>,
    lines: &[Line],
    events: &[Event],
) -> Result<(), AllocError> {
    for (place, line) in lines.iter().enumerate() {
        put_line_ways(text, alloc, source, lines, events, place, *line)?;
    }
    Ok(())
}

/// Adds the line at a place, and how often each of its ways was taken; nothing where it has none.
fn put_line_ways(
    text: &mut Vec<u8>,
    alloc: Global,
    source: &Lines<'_>,
    lines: &[Line],
    events: &[Event],
    place: usize,
    line: Line,
) -> Result<(), AllocError> {
    let ways = ways_of(alloc, lines, place, line.stmt)?;
    if ways.is_empty() {
        return Ok(());
    }
    put_line_head(text, alloc, source, line.number)?;
    put_counts(text, events, line.number, &ways)?;
    put_piece(text, b"\n")
}

/// The ways out of the statement at a place: of an `if` two, of a `peek_cqe` its cases and its two other arms.
fn ways_of(
    alloc: Global,
    lines: &[Line],
    place: usize,
    stmt: Stmt,
) -> Result<Vec<Way>, AllocError> {
    match stmt {
        Stmt::If(_) => answers_of(alloc),
        Stmt::Peek(_) => arms_of(alloc, lines, place),
        _ => Ok(Vec::new(alloc)),
    }
}

/// The answers of a test.
fn answers_of(alloc: Global) -> Result<Vec<Way>, AllocError> {
    Vec::from_slice(alloc, &[Way::Yes, Way::No])
}

/// The arms of the peek at a place.
fn arms_of(alloc: Global, lines: &[Line], place: usize) -> Result<Vec<Way>, AllocError> {
    let mut ways = Vec::new(alloc);
    for line in lines {
        push_way(&mut ways, case_at(place, line.stmt))?;
    }
    ways.extend_from_slice(&[Way::Other, Way::Nothing])?;
    Ok(ways)
}

/// The case of the peek at a place that a line begins, if it begins one.
fn case_at(place: usize, stmt: Stmt) -> Option<Way> {
    let Stmt::Case(peek, user_data) = stmt else {
        return None;
    };
    if peek == place {
        Some(Way::Case(user_data))
    } else {
        None
    }
}

/// Adds a way, if there is one.
fn push_way(ways: &mut Vec<Way>, way: Option<Way>) -> Result<(), AllocError> {
    match way {
        Some(way) => Ok(ways.push(way)?),
        None => Ok(()),
    }
}

/// Adds the number and the words of a line that opens a block.
fn put_line_head(
    text: &mut Vec<u8>,
    alloc: Global,
    source: &Lines<'_>,
    number: u32,
) -> Result<(), AllocError> {
    let words = opening_words(alloc, source, number)?;
    put_counted(text, b"line ", u64::from(number), b", ")?;
    put_piece(text, &words)
}

/// Adds the ways of a line, and how often each was taken.
fn put_counts(
    text: &mut Vec<u8>,
    events: &[Event],
    number: u32,
    ways: &[Way],
) -> Result<(), AllocError> {
    for (index, way) in ways.iter().enumerate() {
        put_way(
            text,
            before(index),
            *way,
            times_taken(events, number, ways, *way),
        )?;
    }
    Ok(())
}

/// Adds one of the ways of a line after this, and how often it was taken.
fn put_way(text: &mut Vec<u8>, before: &[u8], way: Way, times: u64) -> Result<(), AllocError> {
    put_piece(text, before)?;
    put_way_name(text, way)?;
    put_number(text, times)
}

/// What is before an item of a list.
fn before(index: usize) -> &'static [u8] {
    if index == 0 { b": " } else { b", " }
}

/// Adds the name of a way.
fn put_way_name(text: &mut Vec<u8>, way: Way) -> Result<(), AllocError> {
    match way {
        Way::Yes => put_piece(text, b"yes "),
        Way::No => put_piece(text, b"no "),
        Way::Case(user_data) => put_counted(text, b"case ", user_data, b": "),
        Way::Other => put_piece(text, b"other "),
        Way::Nothing => put_piece(text, b"none "),
    }
}

/// How often a way out of the line with this number was taken.
fn times_taken(events: &[Event], number: u32, ways: &[Way], way: Way) -> u64 {
    let mut times: u64 = 0;
    for event in events {
        if takes(number, ways, way, *event) {
            times = times.saturating_add(1);
        }
    }
    times
}

/// Whether an event takes a way out of the line with this number.
fn takes(number: u32, ways: &[Way], way: Way, event: Event) -> bool {
    match event {
        Event::ByThread { line, action, .. } => line == number && is_taken(ways, way, action),
        Event::ByKernel(_) => false,
    }
}

/// Whether a step takes a way, which is one of these ways out of its statement.
fn is_taken(ways: &[Way], way: Way, action: Action) -> bool {
    match (way, action) {
        (Way::Yes, Action::Branched(yes)) => yes,
        (Way::No, Action::Branched(yes)) => !yes,
        (Way::Case(user_data), Action::Peeked(front)) => front.user_data == user_data,
        (Way::Other, Action::Peeked(front)) => !has_case(ways, front.user_data),
        (Way::Nothing, Action::PeekedNone) => true,
        _ => false,
    }
}

/// Whether one of the ways is the case of this user data.
fn has_case(ways: &[Way], user_data: u64) -> bool {
    for way in ways {
        if matches!(way, Way::Case(of) if *of == user_data) {
            return true;
        }
    }
    false
}

/// The lines of all threads that never ran; those of copies once.
fn spans_of(alloc: Global, program: &Program, events: &[Event]) -> Result<Vec<Span>, AllocError> {
    let mut spans = Vec::new(alloc);
    for thread in program.threads() {
        if !thread.is_further() {
            push_idle(&mut spans, &thread.lines, events)?;
        }
    }
    Ok(spans)
}

/// Adds the lines of a thread that never ran.
fn push_idle(spans: &mut Vec<Span>, lines: &[Line], events: &[Event]) -> Result<(), AllocError> {
    let mut so_far = None;
    for line in lines {
        so_far = push_ended(spans, so_far, *line, events)?;
    }
    push_finished(spans, so_far)
}

/// Adds the span so far that a line ends, if it ran; answers the span after the line.
fn push_ended(
    spans: &mut Vec<Span>,
    span: Option<Span>,
    line: Line,
    events: &[Event],
) -> Result<Option<Span>, AllocError> {
    if has_run(events, line.number) {
        push_finished(spans, span)?;
        return Ok(None);
    }
    Ok(idle_after(span, line))
}

/// The span after a line that never ran.
fn idle_after(so_far: Option<Span>, line: Line) -> Option<Span> {
    if !has_events(line.stmt) {
        return so_far;
    }
    let first = match so_far {
        Some(span) => span.first,
        None => line.number,
    };
    Some(Span {
        first,
        last: line.number,
    })
}

/// Adds a span, if there is one.
fn push_finished(spans: &mut Vec<Span>, so_far: Option<Span>) -> Result<(), AllocError> {
    match so_far {
        Some(span) => Ok(spans.push(span)?),
        None => Ok(()),
    }
}

/// Whether one of the events is at the line with this number.
fn has_run(events: &[Event], number: u32) -> bool {
    for event in events {
        if matches!(event, Event::ByThread { line, .. } if *line == number) {
            return true;
        }
    }
    false
}

/// Whether events may be at such a line.
fn has_events(stmt: Stmt) -> bool {
    match stmt {
        Stmt::Else(_) | Stmt::EndIf(_) | Stmt::EndLoop(_, _) => false,
        Stmt::Case(_, _) | Stmt::Other(_) | Stmt::Nothing(_) => false,
        Stmt::EndArm(_) | Stmt::EndPeek(_) => false,
        _ => true,
    }
}

/// Adds the line that names the lines that never ran, or that there are none.
fn put_idle(text: &mut Vec<u8>, spans: &[Span]) -> Result<(), AllocError> {
    if spans.is_empty() {
        return put_piece(text, b"lines that never ran: none\n");
    }
    put_piece(text, b"lines that never ran")?;
    put_spans(text, spans)?;
    put_piece(text, b"\n")
}

/// Adds the numbers of lines.
fn put_spans(text: &mut Vec<u8>, spans: &[Span]) -> Result<(), AllocError> {
    for (index, span) in spans.iter().enumerate() {
        put_span(text, before(index), *span)?;
    }
    Ok(())
}

/// Adds the numbers of the first line of a span and of the last, or the one number, after this.
fn put_span(text: &mut Vec<u8>, before: &[u8], span: Span) -> Result<(), AllocError> {
    put_counted(text, before, u64::from(span.first), b"")?;
    if span.first == span.last {
        return Ok(());
    }
    put_counted(text, b" to ", u64::from(span.last), b"")
}
