//! The head of a picture: how the trace ends, why, and the titles of the columns.

use crate::canvas::{Anchor, Canvas, plus, sum, times};
use crate::groups::title_of;
use crate::layers::Layer;
use crate::picture::Picture;
use rc_story::pen::Piece::{self, Number, Word};
use rc_story::pen::length_of;
use rc_story::story::Story;
use std::alloc::{AllocError, Global};

/// A line of a sentence: where it begins, and where it ends.
#[derive(Clone, Copy)]
pub struct Span {
    pub start: usize,
    pub end: usize,
}

/// The lines of a sentence in a picture that is so wide.
pub fn spans_of(alloc: Global, text: &[u8], width: u64) -> Result<Vec<Span>, AllocError> {
    let room = width.saturating_sub(28) / 7;
    let mut spans = Vec::new(alloc);
    let mut start: usize = 0;
    for _ in 0..text.len() {
        if start < text.len() {
            let end = line_end(text, start, room);
            spans.push(Span { start, end })?;
            start = end.saturating_add(1);
        }
    }
    Ok(spans)
}

/// Where the line that begins at `start` ends: at the end of the text if at most `room` bytes are left, else at the last
/// blank within `room`, else at the first blank.
fn line_end(text: &[u8], start: usize, room: u64) -> usize {
    let mut end = start;
    for place in start..text.len().saturating_add(1) {
        let may_end = end <= start || place.saturating_sub(start) as u64 <= room;
        if may_end && *text.get(place).unwrap_or(&b' ') == b' ' {
            end = place;
        }
    }
    end
}

/// The bytes of the longest name of an item of a pool.
pub fn longest_item(story: &Story<'_, '_>) -> u64 {
    let mut most = 0;
    for stock in &story.stocks {
        most = length_of(&stock.name).max(most);
    }
    most
}

/// Where the head ends, if the sentence has so many lines: there is room for the turned names.
pub fn head_of(story: &Story<'_, '_>, lines: usize) -> u64 {
    let mut lane: u64 = 6;
    for thread in story.run.program.threads() {
        lane = lane.max(thread.name.len() as u64);
    }
    let mut high = plus(times(5, lane), 16);
    if !story.stocks.is_empty() {
        high = high.max(plus(times(5, longest_item(story)), 34));
    }
    sum(&[28, times(18, lines as u64), high])
}

/// Draws the head, with these words on how the trace ends.
pub fn draw_head(canvas: &mut Canvas, picture: &Picture<'_, '_>, ending: &[u8]) {
    let layer = match picture.story.run.fault {
        Some(_) => Layer::Red,
        None => Layer::Bold,
    };
    canvas.text(layer, 14, 28, Anchor::Start, &[Word(ending)]);
    for (place, span) in picture.spans.iter().enumerate() {
        let y = plus(28, times(18, place as u64 + 1));
        if let Some(line) = picture.story.why.words.get(span.start..span.end) {
            canvas.text(Layer::Text, 14, y, Anchor::Start, &[Word(line)]);
        }
    }
    for lane in 0..picture.story.run.kernel().saturating_add(1) {
        let name = Word(picture.story.run.lane_name(lane));
        draw_turned(canvas, picture, picture.lane(lane), &[name]);
    }
    draw_titles(canvas, picture);
}

/// A name over a column, turned.
fn draw_turned(canvas: &mut Canvas, picture: &Picture<'_, '_>, middle: u64, name: &[Piece<'_>]) {
    let (x, y) = (plus(middle, 3), picture.head.saturating_sub(4));
    canvas.text(Layer::Bold, x, y, Anchor::Turned, name);
}

/// The titles over the groups and the rings, the names over the strips, and over the first strip of each pool its title.
fn draw_titles(canvas: &mut Canvas, picture: &Picture<'_, '_>) {
    let y = picture.head.saturating_sub(6);
    for (place, group) in picture.groups.all.iter().enumerate() {
        let layer = if group.has_buffer {
            Layer::Bold
        } else {
            Layer::Dim
        };
        if group.is_drawn {
            let title = Word(title_of(&picture.story, place));
            canvas.text(layer, group.start, y, Anchor::Start, &[title]);
        }
    }
    for ring in picture.rings() {
        let title = [Word(ring.title()), Number(ring.entries)];
        canvas.text(Layer::Bold, ring.x, y, Anchor::Start, &title);
    }
    let names = sum(&[times(5, longest_item(&picture.story)), 14]);
    for (stock, strip) in picture.story.stocks.iter().zip(&picture.strips) {
        draw_turned(canvas, picture, strip.middle, &stock.name);
        if strip.is_first {
            let (x, y) = (
                strip.middle.saturating_sub(8),
                picture.head.saturating_sub(names),
            );
            canvas.text(Layer::Dim, x, y, Anchor::Start, &[Word(stock.title)]);
        }
    }
}
