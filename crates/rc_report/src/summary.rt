//! Summaries of runs.

ghost use Rattle.std.specs.Prelude.{◌≤◌, length};
ghost use Rattle.rc_report.specs.Summaries.{IsSummary};
ghost use Rattle.rc_text.specs.Text.{PutsSome};

use crate::coverage::put_coverage;
use crate::trace::{End, put_end};
use indexmap::IndexMap;
use rc_lang::program::{Program, Token, TokenKind};
use rc_read::source::Lines;
use rc_text::names::thread_name;
use rc_text::text::{put_counted, put_piece, put_pieces, put_signed};
use rc_world::event::Event;
use std::alloc::{AllocError, Global};

/// How many results of a token are printed one by one.
const MOST_RESULTS: usize = 8;

/// Events of one thread, with none of another thread between.
#[derive(Clone, Copy)]
struct Stretch {
    thread: u32,
    events: u64,
}

/// Adds a summary in place of a trace: a line for each thread with how many events it made, one for each token with how
/// its requests completed (how often, the eight most common results, and how many others there are), the longest stretch
/// of one thread, a line for each `if` and `peek_cqe` with how often each way was taken, the lines that never ran, and
/// how the trace ended.
pub fn put_summary(
    text: &mut Vec<u8>,
    alloc: Global,
    source: &Lines<'_>,
    program: &Program,
    events: &[Event],
    end: End,
) -> Result<(), AllocError>
    ensures { PutsSome (IsSummary program.now events.now end) text.old text.new result }
{
    let counts = counts_of(alloc, source, program, events)?;
    put_piece(text, &counts)?;
    put_end(text, program, events.len() as u64, end)
}

/// What is counted of a run: the lines of the threads and the tokens, that of the longest stretch, and the coverage.
fn counts_of(
    alloc: Global,
    source: &Lines<'_>,
    program: &Program,
    events: &[Event],
) -> Result<Vec<u8>, AllocError> {
    let mut text = Vec::new(alloc);
    put_threads(&mut text, program, events)?;
    put_tokens(&mut text, alloc, program, events)?;
    put_stretch(&mut text, program, longest_stretch(events))?;
    put_coverage(&mut text, alloc, source, program, events)?;
    Ok(text)
}

/// Adds a line for each thread.
fn put_threads(text: &mut Vec<u8>, program: &Program, events: &[Event]) -> Result<(), AllocError> {
    let count = program.threads().len();
    for thread in 0..count as u32 {
        put_thread(text, program, events, thread)?;
    }
    Ok(())
}

/// Adds how many events a thread made.
fn put_thread(
    text: &mut Vec<u8>,
    program: &Program,
    events: &[Event],
    thread: u32,
) -> Result<(), AllocError> {
    put_pieces(text, &[b"thread ", thread_name(program, thread)])?;
    put_counted(text, b": ", events_of(events, thread), b" events\n")
}

/// How many events a thread made.
fn events_of(events: &[Event], of: u32) -> u64 {
    let mut count: u64 = 0;
    for event in events {
        if is_of(*event, of) {
            count = count.saturating_add(1);
        }
    }
    count
}

/// Whether an event is one of the thread.
fn is_of(event: Event, of: u32) -> bool {
    match event {
        Event::ByThread { thread, .. } => thread == of,
        Event::ByKernel(_) => false,
    }
}

/// Adds a line for each token.
fn put_tokens(
    text: &mut Vec<u8>,
    alloc: Global,
    program: &Program,
    events: &[Event],
) -> Result<(), AllocError> {
    for token in program.tokens() {
        put_token(text, alloc, events, *token)?;
    }
    Ok(())
}

/// Adds how the requests of a token completed: how often, the most common results, and how many others there are.
fn put_token(
    text: &mut Vec<u8>,
    alloc: Global,
    events: &[Event],
    token: Token,
) -> Result<(), AllocError> {
    let counts = tally_of(alloc, events, token.user_data)?;
    let common = most_common(alloc, &counts)?;
    put_token_head(text, token, total_of(&counts))?;
    put_common(text, &common)?;
    put_others(text, counts.len())
}

/// Adds a token's user data and kinds, and how many completions it has.
fn put_token_head(text: &mut Vec<u8>, token: Token, count: u64) -> Result<(), AllocError> {
    put_counted(text, b"request ", token.user_data, b" (")?;
    put_kinds(text, token)?;
    put_counted(text, b"): ", count, b" completions")
}

/// Adds the names of a token's kinds in the order of its line, each once.
fn put_kinds(text: &mut Vec<u8>, token: Token) -> Result<(), AllocError> {
    put_piece(text, kind_name(token.kind).as_bytes())?;
    for (place, other) in token.others.iter().enumerate() {
        match other {
            Some(kind) if !is_named(token, place, *kind) => {
                put_pieces(text, &[b" or ", kind_name(*kind).as_bytes()])?;
            }
            _ => {}
        }
    }
    Ok(())
}

/// Whether a kind has the name of the token's first, or of one before this place of those after it.
fn is_named(token: Token, place: usize, kind: TokenKind) -> bool {
    if have_one_name(token.kind, kind) {
        return true;
    }
    for before in token.others.iter().take(place) {
        if matches!(before, Some(before) if have_one_name(*before, kind)) {
            return true;
        }
    }
    false
}

fn have_one_name(one: TokenKind, other: TokenKind) -> bool {
    kind_name(one) == kind_name(other)
}

/// The name of a kind of request.
fn kind_name(kind: TokenKind) -> &'static str {
    match kind {
        TokenKind::Read(_) => "read",
        TokenKind::Write(_, _) => "write",
        TokenKind::Fsync => "fsync",
        TokenKind::Nop => "nop",
        TokenKind::Other => "other",
    }
}

/// How often each result of the completions with this user data came, in the order in which they came first.
fn tally_of(
    alloc: Global,
    events: &[Event],
    user_data: u64,
) -> Result<IndexMap<i32, u64>, AllocError> {
    let mut counts = IndexMap::new(alloc);
    for event in events {
        if let Some(res) = result_in(user_data, *event) {
            count_one(&mut counts, res)?;
        }
    }
    Ok(counts)
}

/// The result of a completion with this user data.
fn result_in(user_data: u64, event: Event) -> Option<i32> {
    let Event::ByKernel(completion) = event else {
        return None;
    };
    if completion.user_data == user_data {
        Some(completion.res)
    } else {
        None
    }
}

/// Counts one completion more with this result.
fn count_one(counts: &mut IndexMap<i32, u64>, res: i32) -> Result<(), AllocError> {
    let times = counts.get(&res).copied().unwrap_or(0);
    counts.insert(res, times.saturating_add(1))?;
    Ok(())
}

/// How many completions were counted.
fn total_of(counts: &IndexMap<i32, u64>) -> u64 {
    let mut total: u64 = 0;
    for (_, times) in counts.iter() {
        total = total.saturating_add(*times);
    }
    total
}

/// The eight results that came most often, and how often, of those that came as often the first.
fn most_common(alloc: Global, counts: &IndexMap<i32, u64>) -> Result<Vec<(i32, u64)>, AllocError> {
    let mut common = Vec::new(alloc);
    for (res, times) in counts.iter() {
        rank(&mut common, (*res, *times))?;
    }
    Ok(common)
}

/// Puts a result after those that came as often or more, and keeps eight.
fn rank(common: &mut Vec<(i32, u64)>, counted: (i32, u64)) -> Result<(), AllocError> {
    let place = place_of(common, counted.1);
    common.insert(place, counted)?;
    common.truncate(MOST_RESULTS);
    Ok(())
}

/// Where a result that came so often is among ranked ones: before the first that came less often.
fn place_of(common: &[(i32, u64)], times: u64) -> usize
    ensures { result ≤ length common.now }
{
    for (place, other) in common.iter().enumerate() {
        if other.1 < times {
            return place;
        }
    }
    common.len()
}

/// Adds these results, and how often each came.
fn put_common(text: &mut Vec<u8>, common: &[(i32, u64)]) -> Result<(), AllocError> {
    for counted in common {
        put_result(text, *counted)?;
    }
    Ok(())
}

/// Adds a result, and how often it came.
fn put_result(text: &mut Vec<u8>, counted: (i32, u64)) -> Result<(), AllocError> {
    let (res, times) = counted;
    put_counted(text, b", ", times, b" with result ")?;
    put_signed(text, i64::from(res))
}

/// Adds how many of so many results aren't printed one by one, and ends the line.
fn put_others(text: &mut Vec<u8>, results: usize) -> Result<(), AllocError> {
    if results <= MOST_RESULTS {
        return put_piece(text, b"\n");
    }
    let others = (results - MOST_RESULTS) as u64;
    put_counted(text, b", ", others, b" other results\n")
}

/// The first of the longest stretches.
fn longest_stretch(events: &[Event]) -> Stretch {
    let mut last = Stretch {
        thread: 0,
        events: 0,
    };
    let mut longest = last;
    for event in events {
        last = next_stretch(last, *event);
        if longest.events < last.events {
            longest = last;
        }
    }
    longest
}

/// The stretch with one event more of its thread, or the first of another thread. A completion leaves it as it is.
fn next_stretch(stretch: Stretch, event: Event) -> Stretch {
    let Event::ByThread { thread, .. } = event else {
        return stretch;
    };
    let before = if stretch.thread == thread {
        stretch.events
    } else {
        0
    };
    Stretch {
        thread,
        events: before.saturating_add(1),
    }
}

/// Adds the line of a stretch.
fn put_stretch(text: &mut Vec<u8>, program: &Program, stretch: Stretch) -> Result<(), AllocError> {
    if stretch.events == 0 {
        return put_piece(text, b"longest stretch: none\n");
    }
    put_counted(text, b"longest stretch: ", stretch.events, b" events of ")?;
    put_pieces(text, &[thread_name(program, stretch.thread), b"\n"])
}
