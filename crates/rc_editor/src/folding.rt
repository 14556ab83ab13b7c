//! Lines that can be shown as one.

use crate::page::Page;
use crate::place::number_of;
use crate::words::has_words;
use std::alloc::{AllocError, Global};

/// The first and the last of such lines, from 0, and whether they are comments.
#[derive(Clone, Copy)]
pub struct Fold {
    pub first: u32,
    pub last: u32,
    pub is_comment: bool,
}

/// The blocks of a model, each without its closing brace, and its comments of several lines.
pub fn folding(alloc: Global, text: &[u8]) -> Result<Vec<Fold>, AllocError> {
    let page = Page::of(alloc, text)?;
    let mut folds = Vec::new(alloc);
    for block in &page.blocks {
        if let Some((end, _)) = block.close {
            push_fold(&mut folds, block.line, end.saturating_sub(1), false)?;
        }
    }
    push_comments(&mut folds, &page)?;
    Ok(folds)
}

/// Adds the lines from one to another, if they are several.
fn push_fold(
    folds: &mut Vec<Fold>,
    first: usize,
    last: usize,
    is_comment: bool,
) -> Result<(), AllocError> {
    if first < last {
        folds.push(Fold {
            first: number_of(first),
            last: number_of(last),
            is_comment,
        })?;
    }
    Ok(())
}

/// Whether a line has a comment alone.
fn is_comment(line: &[u8]) -> bool {
    !has_words(line) && line.contains(&b'#')
}

/// Adds the comments of several lines.
fn push_comments(folds: &mut Vec<Fold>, page: &Page) -> Result<(), AllocError> {
    let mut first = None;
    for (number, line) in page.lines.iter().enumerate() {
        match (is_comment(line), first) {
            (true, None) => first = Some(number),
            (true, Some(_)) | (false, None) => {}
            (false, Some(start)) => {
                push_fold(folds, start, number.saturating_sub(1), true)?;
                first = None;
            }
        }
    }
    match first {
        Some(start) => push_fold(folds, start, page.lines.len().saturating_sub(1), true),
        None => Ok(()),
    }
}
