//! The legend of a picture.

use crate::canvas::{Anchor, Canvas, plus, sum, times};
use crate::layers::Layer;
use crate::picture::Picture;
use crate::rows::draw_verb;
use rc_story::pen::Piece::Word;
use rc_story::run::Verb;

/// The mark of what a legend explains.
#[derive(Clone, Copy)]
enum Mark {
    Dot,
    Box(Layer),
    /// Both halves of a lock's box.
    Halves,
    Cap,
    Wall,
    Verb(Verb),
}

/// A mark, how wide it is, and the words that explain it.
type Key = (Mark, u64, &'static [u8]);

/// All keys, in order.
const KEYS: [Key; 12] = [
    (Mark::Dot, 8, b"moves"),
    (Mark::Box(Layer::Lock), 14, b"has the lock"),
    (Mark::Halves, 14, b"has the lock: sq left, cq right"),
    (Mark::Box(Layer::Open), 6, b"open entry"),
    (Mark::Box(Layer::Queued), 8, b"queued"),
    (
        Mark::Box(Layer::Pending),
        14,
        b"pending: the buffer is the kernel's",
    ),
    (Mark::Box(Layer::Tail), 4, b"completed"),
    (Mark::Cap, 12, b"reaped"),
    (Mark::Verb(Verb::Fill), 10, b"store, fill"),
    (Mark::Verb(Verb::Load), 10, b"load"),
    (Mark::Wall, 4, b"ring full"),
    (Mark::Box(Layer::Pool), 12, b"in the pool"),
];

/// Draws the legend. Answers how high the picture is.
pub fn draw_legend(canvas: &mut Canvas, picture: &Picture<'_, '_>) -> u64 {
    let (mut x, mut y) = (14, plus(picture.bottom, 22));
    for (mark, wide, words) in KEYS {
        if is_drawn(picture, mark) {
            let whole = sum(&[wide, times(6, words.len() as u64), 21]);
            // A new line, where it would pass the width.
            if plus(x, whole) > picture.width && x > 14 {
                x = 14;
                y = plus(y, 18);
            }
            draw_mark(canvas, mark, x, wide, y.saturating_sub(4));
            let after = sum(&[x, wide, 5]);
            canvas.text(Layer::Small, after, y, Anchor::Start, &[Word(words)]);
            x = plus(x, whole);
        }
    }
    plus(y, 14)
}

/// Whether a mark is explained: of the lock one of both, by whether the text has sides, and the pool only with strips.
fn is_drawn(picture: &Picture<'_, '_>, mark: Mark) -> bool {
    match mark {
        Mark::Box(Layer::Lock) => !picture.story.run.has_sides,
        Mark::Halves => picture.story.run.has_sides,
        Mark::Box(Layer::Pool) => !picture.strips.is_empty(),
        _ => true,
    }
}

/// Draws a mark whose left side has its middle here.
fn draw_mark(canvas: &mut Canvas, mark: Mark, x: u64, wide: u64, y: u64) {
    let middle = plus(x, wide / 2);
    let (top, bottom) = (y.saturating_sub(6), plus(y, 6));
    match mark {
        Mark::Dot => canvas.circle(Layer::Dot, middle, y, 4),
        Mark::Box(layer) => canvas.rect(layer, x, wide, top, bottom),
        Mark::Halves => {
            canvas.rect(Layer::Lock, x, 7, top, bottom);
            canvas.rect(Layer::Lock, middle, 7, top, bottom);
        }
        Mark::Cap => canvas.across(Layer::Cap, x, plus(x, wide), y),
        Mark::Wall => canvas.down(Layer::Full, middle, top, bottom),
        Mark::Verb(verb) => draw_verb(canvas, verb, middle, y),
    }
}
