//! What is at fault, in red.

use crate::canvas::{Canvas, plus, sum, times};
use crate::gauges::{Gauge, phase_top, shown_at};
use crate::layers::Layer;
use crate::picture::Picture;
use crate::requests::look_of;
use crate::rings::Ring;
use crate::rows::draw_square;
use rc_story::rows::Row;
use rc_story::run::Verb;
use rc_story::stretches::Stretch;
use std::alloc::{AllocError, Global};

/// A request, a ring or a strip at fault: where its mark is, and an outline down to the bottom of the rows.
#[derive(Clone, Copy)]
pub struct Target {
    x: u64,
    outline: Option<Outline>,
}

/// The left end of what is in an outline, how wide it is, and its top.
#[derive(Clone, Copy)]
struct Outline {
    left: u64,
    wide: u64,
    top: u64,
}

/// The requests, rings and strips at fault.
pub fn targets_of(alloc: Global, picture: &Picture<'_, '_>) -> Result<Vec<Target>, AllocError> {
    let story = &picture.story;
    let mut targets = Vec::new(alloc);
    for (course, bar) in story.courses.iter().zip(&picture.groups.bars) {
        if course.is_at_fault {
            let (_, wide) = look_of(course.stage);
            let left = bar.x.saturating_sub(wide / 2);
            let top = picture.height(story.place_of(course.since(course.stage)));
            let outline = Some(Outline { left, wide, top });
            targets.push(Target { x: bar.x, outline })?;
        }
    }
    for ring in picture.rings() {
        if story.blame.ring == Some(ring.side) {
            let wide = ring.right.saturating_sub(ring.x);
            let (left, top) = (ring.x, full_top(picture, ring));
            let outline = Some(Outline { left, wide, top });
            targets.push(Target {
                x: ring.right,
                outline,
            })?;
        }
    }
    for (stock, strip) in story.stocks.iter().zip(&picture.strips) {
        if stock.is_at_fault(&story.over) {
            let (x, outline) = (strip.middle, None);
            targets.push(Target { x, outline })?;
        }
    }
    Ok(targets)
}

/// Where the last rows begin in which a ring is full; 5 px above the fault where it isn't.
fn full_top(picture: &Picture<'_, '_>, ring: Ring) -> u64 {
    let story = &picture.story;
    let mut first = 0;
    for row in 0..story.rows.len() {
        if shown_at(story, Gauge::Ring(ring.side), row).used() != ring.entries {
            first = row + 1;
        }
    }
    if first < story.rows.len() {
        phase_top(picture, first)
    } else {
        picture.mid(story.told()).saturating_sub(5)
    }
}

/// Draws what is at fault, with these requests, rings and strips.
pub fn draw_fault(canvas: &mut Canvas, picture: &Picture<'_, '_>, targets: &[Target]) {
    let story = &picture.story;
    for (place, row) in story.rows.iter().enumerate() {
        if row.stretch.is_fault() {
            draw_link(canvas, picture, targets, place, row);
        }
    }
    let y = picture.mid(story.told());
    for target in targets {
        if let Some(outline) = target.outline {
            draw_outline(canvas, outline, picture.bottom);
        }
        canvas.circle(Layer::Hit, target.x, y, 5);
    }
    for holder in [story.blame.holders.sq, story.blame.holders.cq] {
        if let Some(holder) = holder {
            let (from, to) = (picture.lane(story.run.fault_lane()), picture.lane(holder));
            canvas.across(Layer::Link, from, to, y);
            canvas.circle(Layer::Hitload, to, y, 6);
        }
    }
    // The line that joins both touches of a race.
    if let (Some(touch), Some(_)) = (story.run.fault_touch(), story.run.rival) {
        canvas.down(Layer::Link, picture.buffer(touch.buffer), y, plus(y, 18));
    }
}

/// A line from the words of a row to the rightmost of what is at fault there, and the mark of what is touched.
fn draw_link(
    canvas: &mut Canvas,
    picture: &Picture<'_, '_>,
    targets: &[Target],
    place: usize,
    row: &Row<'_>,
) {
    let y = picture.mid(place);
    let mut to = 0;
    if let Some(touch) = row.touch {
        to = picture.buffer(touch.buffer);
        match touch.verb {
            Verb::Load => canvas.circle(Layer::Hitload, to, y, 5),
            Verb::Store | Verb::Fill => draw_square(canvas, Layer::Hit, to, y),
        }
    }
    if matches!(row.stretch, Stretch::Fault) {
        for target in targets {
            to = target.x.max(to);
        }
    }
    if to > 0 {
        let from = sum(&[picture.columns.words, times(7, row.span()), 4]);
        canvas.across(Layer::Halo, from, to, y);
        canvas.across(Layer::Link, from, to, y);
    }
}

/// An outline 3 px off.
fn draw_outline(canvas: &mut Canvas, outline: Outline, bottom: u64) {
    let (left, wide) = (outline.left.saturating_sub(3), plus(outline.wide, 6));
    let (top, bottom) = (outline.top.saturating_sub(3), plus(bottom, 3));
    canvas.rect(Layer::Gap, left, wide, top, bottom);
    canvas.rect(Layer::Link, left, wide, top, bottom);
}
