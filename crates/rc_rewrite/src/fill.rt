//! The items that loops are filled with.

use std::alloc::{AllocError, Global};

/// Whether a loop's items may change again.
#[derive(Clone, Copy, PartialEq)]
pub enum Progress {
    /// They may become less.
    Open,
    /// They don't change any more.
    Settled,
    /// The loop stays as it is in the source, since it can't be helped.
    Left,
}

/// What a loop keeps while its flag is 0, and while it isn't, as rows, and that as its line has it.
#[derive(Drop)]
pub struct Listed {
    pub zero: Vec<u32>,
    pub other: Vec<u32>,
    pub text: Vec<u8>,
}

impl Listed {
    /// The same again.
    pub fn again(&self) -> Result<Listed, AllocError> {
        Ok(Listed {
            zero: self.zero.clone()?,
            other: self.other.clone()?,
            text: self.text.clone()?,
        })
    }
}

/// The items of a loop.
#[derive(Drop)]
pub struct Fill {
    /// The number of the loop's line, from 1.
    pub line: u32,
    /// The number of the line that ends the loop.
    pub end: u32,
    /// The items that it has in the source, spelt as the new ones are.
    pub own: Listed,
    /// Those that it is filled with.
    pub items: Listed,
    /// Those that it had before, if only its end was refused with them.
    pub earlier: Option<Listed>,
    pub progress: Progress,
}

impl Fill {
    /// A loop that was met for the first time.
    pub fn first(line: u32, end: u32, own: Listed, items: Listed) -> Fill {
        Fill {
            line,
            end,
            own,
            items,
            earlier: None,
            progress: Progress::Open,
        }
    }

    /// Whether the loop's line is another than in the source.
    pub fn is_change(&self) -> bool {
        self.progress != Progress::Left && self.items.text.as_slice() != self.own.text.as_slice()
    }

    /// What it keeps.
    pub fn kept(&self) -> &Listed {
        if self.progress == Progress::Left {
            &self.own
        } else {
            &self.items
        }
    }

    /// Whether the line is in the loop, and the loop has earlier items.
    fn can_go_back(&self, line: u32) -> bool {
        self.line < line && line < self.end && self.earlier.is_some()
    }

    /// The loop with less. If only its end was refused, it may go back to what it has.
    pub fn lesser(&self, items: Listed, is_end: bool) -> Result<Fill, AllocError> {
        Ok(Fill {
            line: self.line,
            end: self.end,
            own: self.own.again()?,
            items,
            earlier: if is_end {
                Some(self.items.again()?)
            } else {
                None
            },
            progress: Progress::Open,
        })
    }

    /// The loop with its earlier items, which stay.
    fn gone_back(&self) -> Result<Option<Fill>, AllocError> {
        let Some(earlier) = &self.earlier else {
            return Ok(None);
        };
        Ok(Some(Fill {
            line: self.line,
            end: self.end,
            own: self.own.again()?,
            items: earlier.again()?,
            earlier: None,
            progress: Progress::Settled,
        }))
    }
}

/// The items of the loops that were met so far, each in the place of its line's number.
#[derive(Drop)]
pub struct Fills {
    lines: Vec<Option<Fill>>,
}

impl Fills {
    /// No loop was met.
    pub fn new(alloc: Global) -> Fills {
        Fills {
            lines: Vec::new(alloc),
        }
    }

    /// The items of the loop on this line, if it was met before.
    pub fn on(&self, line: u32) -> Option<&Fill> {
        match self.lines.get(line as usize) {
            Some(Some(fill)) => Some(fill),
            _ => None,
        }
    }

    /// The innermost loop around this line that can go back to earlier items.
    fn around(&self, line: u32) -> Option<&Fill> {
        let mut innermost = None;
        for place in &self.lines {
            match place {
                Some(fill) if fill.can_go_back(line) => innermost = Some(fill),
                _ => {}
            }
        }
        innermost
    }

    /// Puts the items of a loop in the place of those that it had.
    pub fn put(&mut self, fill: Fill) -> Result<(), AllocError> {
        let place = fill.line as usize;
        for _ in self.lines.len()..place + 1 {
            self.lines.push(None)?;
        }
        if let Some(old) = self.lines.get_mut(place) {
            *old = Some(fill);
        }
        Ok(())
    }

    /// The innermost loop around this line that can go back to earlier items does so, and the loops in it are met
    /// again. Answers the number of its line.
    pub fn go_back(&mut self, line: u32) -> Result<Option<u32>, AllocError> {
        let Some(old) = self.around(line) else {
            return Ok(None);
        };
        let Some(fill) = old.gone_back()? else {
            return Ok(None);
        };
        let top = fill.line;
        self.forget(top, fill.end);
        self.put(fill)?;
        Ok(Some(top))
    }

    /// Forgets the loops from one line up to another.
    fn forget(&mut self, from: u32, to: u32) {
        for line in from..to {
            if let Some(old) = self.lines.get_mut(line as usize) {
                *old = None;
            }
        }
    }

    /// Leaves the loop on this line as it is in the source.
    pub fn leave(&mut self, line: u32) {
        if let Some(Some(fill)) = self.lines.get_mut(line as usize) {
            fill.progress = Progress::Left;
        }
    }
}
