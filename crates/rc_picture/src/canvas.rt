//! Elements of SVG, each drawn in its layer, and lengths in px.

use crate::layers::Layer;
use rc_story::pen::Piece::{self, Number};
use rc_story::pen::{Pen, length_of};
use std::alloc::{AllocError, Global};

/// The sum of these lengths. What would pass 2^64 - 1 is that long.
pub fn sum(lengths: &[u64]) -> u64 {
    let mut length: u64 = 0;
    for part in lengths {
        length = length.saturating_add(*part);
    }
    length
}

/// The sum of two lengths.
pub fn plus(a: u64, b: u64) -> u64 {
    a.saturating_add(b)
}

/// So many times a length.
pub fn times(count: u64, length: u64) -> u64 {
    count.saturating_mul(length)
}

/// Where a text is.
#[derive(Clone, Copy)]
pub enum Anchor {
    /// It begins at its point.
    Start,
    /// It ends there.
    End,
    /// Its middle is there.
    Middle,
    /// It begins there, turned by 45 degrees.
    Turned,
}

/// What is drawn, layer by layer.
#[derive(Drop)]
pub struct Canvas {
    /// The elements of each layer.
    pub pens: Vec<Pen>,
}

impl Canvas {
    /// Nothing drawn yet.
    pub fn new(alloc: Global) -> Result<Canvas, AllocError> {
        let mut pens = Vec::new(alloc);
        for _ in Layer::ALL {
            pens.push(Pen::new(alloc))?;
        }
        Ok(Canvas { pens })
    }

    /// Adds a form to a layer, with a piece in place of each `{}`.
    pub fn put(&mut self, layer: Layer, form: &[u8], pieces: &[Piece<'_>]) {
        if let Some(pen) = self.pens.get_mut(layer as usize) {
            pen.write(form, pieces);
        }
    }

    /// A rectangle from one height to another; that of a lock has round corners.
    pub fn rect(&mut self, layer: Layer, x: u64, wide: u64, top: u64, bottom: u64) {
        let form: &[u8] = match layer {
            Layer::Lock => b"<rect x=\"{}\" y=\"{}\" width=\"{}\" height=\"{}\" rx=\"3\"/>\n",
            _ => b"<rect x=\"{}\" y=\"{}\" width=\"{}\" height=\"{}\"/>\n",
        };
        let high = bottom.saturating_sub(top);
        self.put(
            layer,
            form,
            &[Number(x), Number(top), Number(wide), Number(high)],
        );
    }

    /// A line from one point to another.
    fn line(&mut self, layer: Layer, from: (u64, u64), to: (u64, u64)) {
        let form = b"<path d=\"M{} {} {} {}\"/>\n";
        self.put(
            layer,
            form,
            &[Number(from.0), Number(from.1), Number(to.0), Number(to.1)],
        );
    }

    /// A line across, at a height.
    pub fn across(&mut self, layer: Layer, from: u64, to: u64, y: u64) {
        self.line(layer, (from, y), (to, y));
    }

    /// A line down, at a place from the left.
    pub fn down(&mut self, layer: Layer, x: u64, from: u64, to: u64) {
        self.line(layer, (x, from), (x, to));
    }

    pub fn circle(&mut self, layer: Layer, x: u64, y: u64, radius: u64) {
        let form = b"<circle cx=\"{}\" cy=\"{}\" r=\"{}\"/>\n";
        self.put(layer, form, &[Number(x), Number(y), Number(radius)]);
    }

    /// A text; no words are no element.
    pub fn text(&mut self, layer: Layer, x: u64, y: u64, anchor: Anchor, words: &[Piece<'_>]) {
        let Some(pen) = self.pens.get_mut(layer as usize) else {
            return;
        };
        if length_of(words) == 0 {
            return;
        }
        let (x, y) = (Number(x), Number(y));
        pen.write(b"<text x=\"{}\" y=\"{}\"", &[x, y]);
        match anchor {
            Anchor::Start => {}
            Anchor::End => pen.write(b" text-anchor=\"end\"", &[]),
            Anchor::Middle => pen.write(b" text-anchor=\"middle\"", &[]),
            Anchor::Turned => pen.write(b" transform=\"rotate(-45 {} {})\"", &[x, y]),
        }
        pen.write(b">", &[]);
        pen.put_escaped(words);
        pen.write(b"</text>\n", &[]);
    }
}
