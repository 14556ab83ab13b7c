//! The bars of the requests, whose width is their stage.

use crate::canvas::{Anchor, Canvas, plus};
use crate::layers::Layer;
use crate::picture::Picture;
use rc_story::courses::{Course, Stage};

/// The layer of a stage's bar, and how wide it is.
pub fn look_of(stage: Stage) -> (Layer, u64) {
    match stage {
        Stage::Opened | Stage::Prepared => (Layer::Open, 6),
        Stage::Queued => (Layer::Queued, 8),
        Stage::Pending => (Layer::Pending, 14),
        Stage::Completed => (Layer::Tail, 4),
        Stage::Reaped => (Layer::Cap, 12),
    }
}

/// Draws the requests, group by group.
pub fn draw_requests(canvas: &mut Canvas, picture: &Picture<'_, '_>) {
    for group in 0..picture.groups.all.len() {
        for (course, bar) in picture.story.courses.iter().zip(&picture.groups.bars) {
            if bar.group == group {
                draw_request(canvas, picture, course, bar.x);
            }
        }
    }
}

/// Draws a request: its stages, and its label where it was opened above.
fn draw_request(canvas: &mut Canvas, picture: &Picture<'_, '_>, course: &Course, x: u64) {
    for stage in Stage::ALL {
        if course.has(stage) {
            draw_bar(canvas, picture, course, x, stage);
            draw_label(canvas, picture, course, x, stage);
        }
    }
    let cut = picture.story.run.cut;
    if course.event(Stage::Opened) <= cut {
        let label = course.old_label(cut, picture.groups.is_narrow);
        let (x, y) = (plus(x, 14), picture.base(0));
        canvas.text(Layer::Smallbold, x, y, Anchor::Start, &label);
    }
}

/// The bar of a stage, or the cap of a reaped request.
fn draw_bar(canvas: &mut Canvas, picture: &Picture<'_, '_>, course: &Course, x: u64, stage: Stage) {
    let top = picture.height(picture.story.place_at(course, stage));
    let (layer, wide) = look_of(stage);
    let left = x.saturating_sub(wide / 2);
    let Some(next) = stage.next() else {
        canvas.across(layer, left, plus(x, wide / 2), top);
        return;
    };
    let end = picture.story.place_at(course, next);
    if end > 0 {
        canvas.rect(layer, left, wide, top, picture.height(end));
    }
}

/// The label of a stage that doesn't begin above the picture.
fn draw_label(
    canvas: &mut Canvas,
    picture: &Picture<'_, '_>,
    course: &Course,
    x: u64,
    stage: Stage,
) {
    let layer = match stage {
        Stage::Queued => Layer::Smallbold,
        _ => Layer::Small,
    };
    if let Some(row) = picture.story.place_at(course, stage).checked_sub(1) {
        let label = course.label(stage, picture.groups.is_narrow);
        canvas.text(layer, plus(x, 14), picture.base(row), Anchor::Start, &label);
    }
}
