//! The file of a picture.

use crate::canvas::Canvas;
use crate::fault::{Target, draw_fault, targets_of};
use crate::head::draw_head;
use crate::layers::{Colour, Layer};
use crate::legend::draw_legend;
use crate::picture::Picture;
use crate::requests::draw_requests;
use crate::rings::{draw_locks, draw_rings, draw_strips};
use crate::rows::draw_rows;
use crate::turns::{draw_buffers, draw_lanes, draw_order, draw_turns};
use rc_story::pen::Pen;
use rc_story::pen::Piece::{Number, Word};
use rc_text::text::put_piece;
use std::alloc::{AllocError, Global};

/// The first tag, up to the title.
const START: &[u8] =
    b"<svg xmlns=\"http://www.w3.org/2000/svg\" width=\"{}\" height=\"{}\" viewBox=\"0 0 {} {}\" role=\"img\" font-family=\"Menlo,Consolas,'DejaVu Sans Mono','Liberation Mono',monospace\" font-size=\"11.5\">\n<title>";

/// Adds the file of a picture of a run with this trace.
pub fn put_file(
    text: &mut Vec<u8>,
    alloc: Global,
    picture: &Picture<'_, '_>,
    trace: &[u8],
) -> Result<(), AllocError> {
    let ending = last_line(trace);
    let mut canvas = Canvas::new(alloc)?;
    let targets = targets_of(alloc, picture)?;
    let high = draw(&mut canvas, picture, &targets, ending);
    let mut pen = Pen::new(alloc);
    let (width, height) = (Number(picture.width), Number(high));
    pen.write(START, &[width, height, width, height]);
    pen.put_escaped(&[Word(ending)]);
    pen.write(b"</title>\n<desc>", &[]);
    pen.put_escaped(&[Word(trace)]);
    put_dark(&mut pen);
    put_layers(&mut pen, canvas)?;
    put_piece(text, &pen.text()?)
}

/// The last line of a text that ends without a line feed.
fn last_line(text: &[u8]) -> &[u8] {
    let mut line = text;
    for (place, byte) in text.iter().enumerate() {
        if *byte == b'\n' {
            line = text.get(place + 1..).unwrap_or(line);
        }
    }
    line
}

/// Draws all that is in a picture. Answers how high it is.
fn draw(canvas: &mut Canvas, picture: &Picture<'_, '_>, targets: &[Target], ending: &[u8]) -> u64 {
    draw_head(canvas, picture, ending);
    draw_turns(canvas, picture);
    draw_lanes(canvas, picture);
    draw_buffers(canvas, picture);
    draw_locks(canvas, picture);
    draw_order(canvas, picture);
    draw_rows(canvas, picture);
    draw_requests(canvas, picture);
    draw_rings(canvas, picture);
    draw_strips(canvas, picture);
    draw_fault(canvas, picture, targets);
    let high = draw_legend(canvas, picture);
    canvas.rect(Layer::Bg, 0, picture.width, 0, high);
    high
}

/// Adds the colours of the layers on a dark ground.
fn put_dark(pen: &mut Pen) {
    pen.write(b"</desc>\n<style>@media(prefers-color-scheme:dark)", &[]);
    pen.put(Word(b"{"));
    for layer in Layer::ALL {
        let (name, fill, stroke, _, _) = layer.style();
        pen.write(b".rc-{}", &[Word(name)]);
        let mut before: &[u8] = b"{";
        if let Some(Colour(_, dark)) = fill {
            pen.write(b"{}fill:{}", &[Word(before), Word(dark)]);
            before = b";";
        }
        if let Some(Colour(_, dark)) = stroke {
            pen.write(b"{}stroke:{}", &[Word(before), Word(dark)]);
        }
        pen.put(Word(b"}"));
    }
    pen.write(b"{}</style>\n", &[Word(b"}")]);
}

/// Adds the layers in which something is drawn, with the colours on a light ground.
fn put_layers(pen: &mut Pen, canvas: Canvas) -> Result<(), AllocError> {
    let Canvas { pens } = canvas;
    for (layer, elements) in Layer::ALL.into_iter().zip(pens) {
        if !elements.is_empty() {
            put_layer(pen, layer, &elements.text()?);
        }
    }
    pen.write(b"</svg>\n", &[]);
    Ok(())
}

/// Adds the group of a layer with what is drawn there.
fn put_layer(pen: &mut Pen, layer: Layer, elements: &[u8]) {
    let (name, fill, stroke, breadth, more) = layer.style();
    let fill = match fill {
        Some(Colour(light, _)) => light,
        None => b"none",
    };
    pen.write(b"<g class=\"rc-{}\" fill=\"{}\"", &[Word(name), Word(fill)]);
    if let Some(Colour(light, _)) = stroke {
        let form = b" stroke=\"{}\" stroke-width=\"{}\"";
        pen.write(form, &[Word(light), Word(breadth)]);
    }
    pen.write(b"{}>\n", &[Word(more)]);
    pen.write(b"{}</g>\n", &[Word(elements)]);
}
