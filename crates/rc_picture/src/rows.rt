//! The rows of a picture: numbers, movers, lines, words, and the marks of what moves.

use crate::canvas::{Anchor, Canvas, plus};
use crate::gauges::{Gauge, begins};
use crate::layers::Layer;
use crate::picture::Picture;
use rc_story::pen::Piece::{self, Markup, Word};
use rc_story::pen::length_of;
use rc_story::rows::Row;
use rc_story::run::Verb;
use rc_story::stretches::Stretch;

/// Draws the rows.
pub fn draw_rows(canvas: &mut Canvas, picture: &Picture<'_, '_>) {
    for (place, row) in picture.story.rows.iter().enumerate() {
        draw_words(canvas, picture, place, row);
        draw_marks(canvas, picture, place, row);
    }
}

/// The texts of a row: red in the rows of a fault, and the number too where the sentence names the event; the mover where
/// it isn't that of the row above, of a fault always.
fn draw_words<'r>(canvas: &mut Canvas, picture: &Picture<'_, '_>, place: usize, row: &'r Row<'_>) {
    let (y, columns) = (picture.base(place), picture.columns);
    let is_fault = row.stretch.is_fault();
    let (bold, dim, text, small) = match row.stretch {
        Stretch::Fault | Stretch::Rival => (Layer::Red, Layer::Red, Layer::Red, Layer::Smallred),
        Stretch::Event(number) if picture.story.why.events.contains(&number) => {
            (Layer::Bold, Layer::Dim, Layer::Text, Layer::Smallred)
        }
        Stretch::Event(_) => (Layer::Bold, Layer::Dim, Layer::Text, Layer::Small),
        _ => (Layer::Bold, Layer::Dim, Layer::Dim, Layer::Small),
    };
    canvas.text(small, columns.numbers, y, Anchor::End, &row.number);
    if is_fault || begins(&picture.story, Gauge::Mover, place) {
        canvas.text(bold, columns.movers, y, Anchor::Start, &[Word(row.name)]);
    }
    canvas.text(dim, columns.lines, y, Anchor::End, &[row.line]);
    let words: Piece<'r> = Word(&row.words);
    let x = columns.words;
    if length_of(&row.result) == 0 {
        canvas.text(text, x, y, Anchor::Start, &[words]);
    } else {
        let [a, b, c]: [Piece<'r>; 3] = row.result;
        let arrow: Piece<'r> = Markup(b" &#8594; <tspan font-weight=\"bold\">");
        let end: Piece<'r> = Markup(b"</tspan>");
        canvas.text(text, x, y, Anchor::Start, &[words, arrow, a, b, c, end]);
    }
}

/// The dot in the mover's lane, and the mark at the line of the buffer that an event touches.
fn draw_marks(canvas: &mut Canvas, picture: &Picture<'_, '_>, place: usize, row: &Row<'_>) {
    let y = picture.mid(place);
    let is_fault = row.stretch.is_fault();
    let (dot, radius) = if is_fault {
        (Layer::Hit, 5)
    } else {
        (Layer::Dot, 4)
    };
    if let Some(lane) = row.mover {
        canvas.circle(dot, picture.lane(lane), y, radius);
    }
    match row.touch {
        Some(touch) if !is_fault => draw_verb(canvas, touch.verb, picture.buffer(touch.buffer), y),
        _ => {}
    }
}

/// The mark of what is done with a buffer.
pub fn draw_verb(canvas: &mut Canvas, verb: Verb, x: u64, y: u64) {
    match verb {
        Verb::Load => canvas.circle(Layer::Load, x, y, 4),
        Verb::Store | Verb::Fill => draw_square(canvas, Layer::Touch, x, y),
    }
}

/// A square round a point.
pub fn draw_square(canvas: &mut Canvas, layer: Layer, x: u64, y: u64) {
    canvas.rect(
        layer,
        x.saturating_sub(5),
        10,
        y.saturating_sub(5),
        plus(y, 5),
    );
}
