//! The columns before the requests, from the left.

use crate::canvas::{plus, sum, times};
use rc_story::pen::length_of;
use rc_story::story::Story;

/// Where the columns are that have one place each, in px.
#[derive(Clone, Copy)]
pub struct Columns {
    /// The right end of the numbers.
    pub numbers: u64,
    /// Where the lanes begin.
    pub lanes: u64,
    /// Where the names of the movers begin.
    pub movers: u64,
    /// The right end of the lines' numbers.
    pub lines: u64,
    /// Where the words begin.
    pub words: u64,
    /// Where the groups begin.
    pub groups: u64,
}

/// The columns before the groups.
pub fn columns_of(story: &Story<'_, '_>) -> Columns {
    // How many bytes are longest in each.
    let (mut number, mut name, mut line, mut span) = (1, 0, 0, 0);
    for row in &story.rows {
        number = length_of(&row.number).max(number);
        name = (row.name.len() as u64).max(name);
        line = length_of(&[row.line]).max(line);
        span = row.span().max(span);
    }
    let numbers = plus(14, times(6, number));
    let lanes = plus(numbers, 6);
    let movers = sum(&[lanes, times(20, u64::from(story.run.kernel()) + 1), 8]);
    let lines = sum(&[movers, times(7, name), 8, times(7, line)]);
    let words = plus(lines, 8);
    Columns {
        numbers,
        lanes,
        movers,
        lines,
        words,
        groups: sum(&[words, times(7, span), 18]),
    }
}
