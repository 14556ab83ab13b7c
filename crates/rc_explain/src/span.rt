//! Where something is in a line, as editors count.

/// A part of a line: the characters from one up to another, from 0, in UTF-16 units.
#[derive(Clone, Copy)]
pub struct Span {
    pub from: u32,
    pub to: u32,
}

/// How many UTF-16 units these bytes have, or as many as fit.
pub fn units(bytes: &[u8]) -> u32 {
    let mut count: u32 = 0;
    for b in bytes {
        if *b < 0x80 || *b >= 0xc0 {
            count = count.saturating_add(1);
        }
        if *b >= 0xf0 {
            count = count.saturating_add(1);
        }
    }
    count
}

fn is_blank(b: u8) -> bool {
    b == b'\t' || b == b'\r' || b == b' '
}

/// A line up to its comment.
fn before_comment(line: &[u8]) -> &[u8] {
    for i in 0..line.len() {
        if line[i] == b'#' {
            return &line[..i];
        }
    }
    line
}

/// Where bytes are without the blanks before and after them: from one up to another, both 0 where all are blanks.
fn ends_of(bytes: &[u8]) -> (usize, usize) {
    let mut first = None;
    let mut end = 0;
    for (i, b) in bytes.iter().enumerate() {
        if !is_blank(*b) {
            first = first.or(Some(i));
            end = i + 1;
        }
    }
    (first.unwrap_or(0), end)
}

/// Where the words of a line are, without its comment; where it has none, the comment.
pub fn span_of_words(line: &[u8]) -> Span {
    let (start, end) = match ends_of(before_comment(line)) {
        (_, 0) => ends_of(line),
        ends => ends,
    };
    span_between(line, start, end)
}

/// Where the word is that begins at a column, from 1; at the end of the line the last word.
pub fn span_of_word(line: &[u8], column: usize) -> Span {
    let start = column.saturating_sub(1);
    let end = end_of_word(line, start);
    if start < end {
        return span_between(line, start, end);
    }
    let (first, end) = ends_of(before_comment(line));
    let mut start = first;
    for i in first..end.min(line.len()) {
        if is_blank(line[i]) {
            start = i + 1;
        }
    }
    if start < end {
        return span_between(line, start, end);
    }
    span_of_words(line)
}

/// Where the word ends that begins at a byte of a line; there where none does.
fn end_of_word(line: &[u8], start: usize) -> usize {
    for i in start..line.len() {
        if line[i] == b'#' || is_blank(line[i]) {
            return i;
        }
    }
    line.len()
}

/// The span of the bytes from one up to another.
fn span_between(line: &[u8], start: usize, end: usize) -> Span {
    Span {
        from: units(&line[..start.min(line.len())]),
        to: units(&line[..end.min(line.len())]),
    }
}
