//! The locks as boxes, the rings as tubes that fill, and the pools as strips.

use crate::canvas::{Anchor, Canvas, plus, sum, times};
use crate::gauges::{Gauge, Phase, phase_at, shown_at};
use crate::layers::Layer;
use crate::picture::Picture;
use rc_story::fault::Side;
use rc_story::pen::Piece::Number;
use rc_story::pen::length_of;
use rc_story::stocks::PoolItem;
use rc_story::story::Story;
use std::alloc::{AllocError, Global};

/// The tube of a ring, and the layer of what is in it.
#[derive(Clone, Copy)]
pub struct Ring {
    pub side: Side,
    layer: Layer,
    pub entries: u64,
    /// The left wall.
    pub x: u64,
    /// The right wall.
    pub right: u64,
    /// Where all that is said of it ends.
    pub end: u64,
}

/// The ring of a side, with so many entries, that begins here.
pub fn ring_of(side: Side, entries: u32, x: u64) -> Ring {
    let entries = u64::from(entries);
    let digits = length_of(&[Number(entries)]);
    let tube = if entries <= 4 { times(12, entries) } else { 48 };
    let wide = sum(&[tube, 8, times(6, digits)]).max(times(7, plus(3, digits)));
    let layer = match side {
        Side::Submission => Layer::Queued,
        Side::Completion => Layer::Completed,
    };
    Ring {
        side,
        layer,
        entries,
        x,
        right: plus(x, tube),
        end: sum(&[x, wide, 12]),
    }
}

impl Ring {
    /// What is over it, before the number of its entries.
    pub fn title(self) -> &'static [u8] {
        match self.side {
            Side::Submission => b"sq ",
            Side::Completion => b"cq ",
        }
    }

    /// How wide so many entries are.
    fn wide_for(self, entries: u64) -> u64 {
        if self.entries == 0 {
            return 0;
        }
        times(self.right.saturating_sub(self.x), entries) / self.entries
    }
}

/// The strip of an item of a pool.
#[derive(Clone, Copy)]
pub struct Strip {
    /// Its middle.
    pub middle: u64,
    /// Whether it is the first of its pool.
    pub is_first: bool,
}

/// The strips of all pools, one pool beside the other, from here on, and where the last ends: there is room for the strips
/// of a pool, for their names, and for its title.
pub fn strips_of(
    alloc: Global,
    story: &Story<'_, '_>,
    start: u64,
) -> Result<(Vec<Strip>, u64), AllocError> {
    let mut strips = Vec::new(alloc);
    let (mut at, mut end) = (start, start);
    let mut pool = None;
    for stock in &story.stocks {
        let is_first = pool != Some(stock.pool);
        if is_first {
            pool = Some(stock.pool);
            at = plus(end, 4);
            end = sum(&[at, times(7, stock.title.len() as u64), 6]);
        }
        let middle = plus(at, 8);
        strips.push(Strip { middle, is_first })?;
        at = plus(at, 16);
        end = sum(&[at, times(5, length_of(&stock.name)), 14]).max(end);
    }
    Ok((strips, end))
}

/// Draws the locks as boxes in the lanes of who has them: where a text has sides that of the submission side is the left
/// half of a box, and that of the completion side the right half; else both are one.
pub fn draw_locks(canvas: &mut Canvas, picture: &Picture<'_, '_>) {
    if picture.story.run.has_sides {
        draw_lock(canvas, picture, Side::Submission, 7, 7);
        draw_lock(canvas, picture, Side::Completion, 0, 7);
    } else {
        draw_lock(canvas, picture, Side::Submission, 7, 14);
    }
}

/// Draws the lock of a side: a box that begins so far left of the lane's middle, and reaches 7 px beyond its rows, but for
/// the picture's ends.
fn draw_lock(canvas: &mut Canvas, picture: &Picture<'_, '_>, side: Side, left: u64, wide: u64) {
    for row in 0..picture.story.rows.len() {
        if let Some(
            Phase {
                shown,
                top,
                bottom,
                ..
            },
        ) = phase_at(picture, Gauge::Lock(side), row)
            && let Some(holder) = shown.lane
        {
            let x = picture.lane(holder).saturating_sub(left);
            let over = if picture.top < top { 7 } else { 0 };
            let under = if bottom < picture.bottom { 7 } else { 0 };
            let (top, bottom) = (top.saturating_sub(over), plus(bottom, under));
            canvas.rect(Layer::Lock, x, wide, top, bottom);
        }
    }
}

/// Draws both rings.
pub fn draw_rings(canvas: &mut Canvas, picture: &Picture<'_, '_>) {
    for ring in picture.rings() {
        canvas.down(Layer::Axis, ring.x, picture.top, picture.bottom);
        canvas.down(Layer::Axis, ring.right, picture.top, picture.bottom);
        if ring.entries <= 8 {
            draw_grid(canvas, picture, ring);
        }
        for row in 0..picture.story.rows.len() {
            if let Some(phase) = phase_at(picture, Gauge::Ring(ring.side), row) {
                draw_fill(canvas, ring, phase);
                draw_count(canvas, picture, ring, row);
            }
        }
    }
}

/// The lines between the entries of a ring.
fn draw_grid(canvas: &mut Canvas, picture: &Picture<'_, '_>, ring: Ring) {
    for entries in 1..ring.entries {
        let x = plus(ring.x, ring.wide_for(entries));
        canvas.down(Layer::Grid, x, picture.top, picture.bottom);
    }
}

/// What is in a ring in a phase: its entries, or of a large ring how many are used.
fn draw_fill(canvas: &mut Canvas, ring: Ring, phase: Phase) {
    let Phase {
        shown,
        top,
        bottom,
        ..
    } = phase;
    let wide = ring.wide_for(shown.filled);
    if ring.entries > 8 {
        if shown.used() > 0 {
            let wide = ring.wide_for(shown.used()).max(2);
            canvas.rect(ring.layer, ring.x, wide, top, bottom);
        }
    } else {
        if shown.filled > 0 {
            canvas.rect(ring.layer, ring.x, wide, top, bottom);
        }
        if shown.opened > 0 {
            let x = plus(ring.x, wide);
            canvas.rect(Layer::Open, x, ring.wide_for(1), top, bottom);
        }
    }
    if shown.used() == ring.entries {
        canvas.down(Layer::Full, ring.right, top, bottom);
    }
}

/// How many entries are used, beside the tube, where they aren't as many as in the row above.
fn draw_count(canvas: &mut Canvas, picture: &Picture<'_, '_>, ring: Ring, row: usize) {
    let gauge = Gauge::Ring(ring.side);
    let used = shown_at(&picture.story, gauge, row).used();
    let above = match row.checked_sub(1) {
        Some(row) => shown_at(&picture.story, gauge, row).used(),
        None => 0,
    };
    if used == above {
        return;
    }
    let layer = if used == ring.entries {
        Layer::Smallbold
    } else {
        Layer::Small
    };
    let (x, y) = (plus(ring.right, 8), picture.base(row));
    canvas.text(layer, x, y, Anchor::Start, &[Number(used)]);
}

/// Draws the strips of the pools.
pub fn draw_strips(canvas: &mut Canvas, picture: &Picture<'_, '_>) {
    for (stock, strip) in picture.story.stocks.iter().zip(&picture.strips) {
        let x = strip.middle;
        canvas.down(Layer::Axis, x, picture.top, picture.bottom);
        for row in 0..picture.story.rows.len() {
            if let Some(phase) = phase_at(picture, Gauge::Levels(&stock.levels), row) {
                draw_level(canvas, x, phase, stock.item);
            }
        }
    }
}

/// How many of an item there are in a phase, if there are any.
fn draw_level(canvas: &mut Canvas, x: u64, phase: Phase, item: PoolItem) {
    let count = phase.shown.filled;
    if count == 0 {
        return;
    }
    canvas.rect(
        Layer::Pool,
        x.saturating_sub(6),
        12,
        phase.top,
        phase.bottom,
    );
    if count > 1 || item == PoolItem::Credits {
        let y = plus(phase.top, 13);
        canvas.text(Layer::Smallbold, x, y, Anchor::Middle, &[Number(count)]);
    }
}
