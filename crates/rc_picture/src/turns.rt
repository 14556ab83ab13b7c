//! The ground of a picture: whose turn it is, and the lanes of threads and buffers.

use crate::canvas::{Canvas, plus};
use crate::gauges::{Gauge, phase_at};
use crate::layers::Layer;
use crate::picture::Picture;
use rc_story::courses::{Course, Stage};
use rc_story::pen::Piece::Number;
use rc_world::controls::Next;

/// Draws the turns: a band over every other, and one over the rows of a fault.
pub fn draw_turns(canvas: &mut Canvas, picture: &Picture<'_, '_>) {
    let told = picture.story.told();
    let mut has_band = true;
    for row in 0..told {
        if let Some(phase) = phase_at(picture, Gauge::Mover, row) {
            if has_band {
                draw_band(canvas, Layer::Band, picture, row, phase.end.min(told));
            }
            has_band = !has_band;
        }
    }
    if picture.story.run.fault.is_some() {
        let end = picture.story.rows.len();
        draw_band(canvas, Layer::Faultband, picture, told, end);
    }
    let right = picture.width.saturating_sub(10);
    canvas.across(Layer::Grid, 10, right, picture.top);
    canvas.across(Layer::Grid, 10, right, picture.bottom);
}

/// A band over some rows.
fn draw_band(canvas: &mut Canvas, layer: Layer, picture: &Picture<'_, '_>, from: usize, to: usize) {
    let wide = picture.width.saturating_sub(20);
    canvas.rect(layer, 10, wide, picture.row_top(from), picture.row_top(to));
}

/// Draws the lanes of the threads and of the kernel.
pub fn draw_lanes(canvas: &mut Canvas, picture: &Picture<'_, '_>) {
    let run = &picture.story.run;
    for lane in 0..run.kernel().saturating_add(1) {
        if lane < run.kernel() && matches!(run.world.next(lane), Next::Ended) {
            draw_ended(canvas, picture, lane);
        } else {
            let x = picture.lane(lane);
            canvas.down(Layer::Axis, x, picture.top, picture.bottom);
        }
    }
}

/// The lane of a thread that has ended: down to its last row, and a cap.
fn draw_ended(canvas: &mut Canvas, picture: &Picture<'_, '_>, lane: u32) {
    let mut last = None;
    for (place, row) in picture.story.rows.iter().enumerate() {
        if row.mover == Some(lane) {
            last = Some(place);
        }
    }
    if let Some(row) = last {
        let (x, y) = (picture.lane(lane), picture.mid(row));
        let cap = plus(y, 9);
        canvas.down(Layer::Axis, x, picture.top, y);
        canvas.across(Layer::Cap, x.saturating_sub(5), plus(x, 5), cap);
        canvas.down(Layer::Axis, x, y, cap);
    }
}

/// Draws the lines of the buffers, which are thick while the kernel has them.
pub fn draw_buffers(canvas: &mut Canvas, picture: &Picture<'_, '_>) {
    for (place, group) in picture.groups.all.iter().enumerate() {
        if group.has_buffer && group.is_drawn {
            draw_buffer(canvas, picture, place);
        }
    }
}

fn draw_buffer(canvas: &mut Canvas, picture: &Picture<'_, '_>, buffer: usize) {
    let x = picture.buffer(buffer);
    canvas.down(Layer::Axis, x, picture.top, picture.bottom);
    for (course, bar) in picture.story.courses.iter().zip(&picture.groups.bars) {
        if bar.group == buffer && course.has(Stage::Pending) {
            draw_taken(canvas, picture, course, x);
        }
    }
}

/// Draws the line of a buffer while the kernel has it for a request.
fn draw_taken(canvas: &mut Canvas, picture: &Picture<'_, '_>, course: &Course, x: u64) {
    let start = picture.story.place_at(course, Stage::Pending);
    let end = picture.story.place_at(course, Stage::Completed);
    if end > 0 {
        canvas.down(Layer::Taken, x, picture.height(start), picture.height(end));
    }
}

/// Draws the order of the moves, where there are two or more.
pub fn draw_order(canvas: &mut Canvas, picture: &Picture<'_, '_>) {
    let mut count: u64 = 0;
    for row in &picture.story.rows {
        if row.mover.is_some() && !row.stretch.is_fault() {
            count = count.saturating_add(1);
        }
    }
    if count < 2 {
        return;
    }
    let mut form: &[u8] = b"<path d=\"M{} {}";
    for (place, row) in picture.story.rows.iter().enumerate() {
        match row.mover {
            Some(lane) if !row.stretch.is_fault() => {
                let (x, y) = (picture.lane(lane), picture.mid(place));
                canvas.put(Layer::Order, form, &[Number(x), Number(y)]);
                form = b" {} {}";
            }
            _ => {}
        }
    }
    canvas.put(Layer::Order, b"\"/>\n", &[]);
}
