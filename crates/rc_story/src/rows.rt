//! The rows of a picture, and what they say.

use crate::frames::{Frame, Moment, START};
use crate::pen::Piece::{self, Number, Signed, Word};
use crate::pen::{NOTHING, Pen, length_of};
use crate::run::{Run, Touch, touch_of};
use crate::stretches::Stretch;
use rc_lang::lines::{Locks, Stmt};
use rc_read::source::{Lines, put_line_words};
use rc_text::names::side_of;
use rc_text::text::{put_piece, put_pieces};
use rc_world::event::{Action, Event};
use rc_world::fault::{Fault, FaultKind};
use std::alloc::{AllocError, Global};

/// A row and what it says.
#[derive(Drop)]
pub struct Row<'a> {
    pub stretch: Stretch,
    /// The lane of who moves.
    pub mover: Option<u32>,
    /// Their name.
    pub name: &'a [u8],
    /// The number of the first event, or the fault's code.
    pub number: [Piece<'static>; 2],
    /// The number of the line in the text.
    pub line: Piece<'static>,
    pub words: Vec<u8>,
    pub result: [Piece<'static>; 3],
    /// What is done with a buffer.
    pub touch: Option<Touch>,
    /// The world after it.
    pub after: Moment,
}

impl Row<'_> {
    /// How many bytes the words take, with the result and the arrow before it.
    pub fn span(&self) -> u64 {
        let words = self.words.len() as u64;
        match length_of(&self.result) {
            0 => words,
            result => words.saturating_add(result).saturating_add(3),
        }
    }
}

/// What a row says of an event or of a fault.
#[derive(Clone, Copy)]
struct Said {
    mover: Option<u32>,
    number: [Piece<'static>; 2],
    result: [Piece<'static>; 3],
    touch: Option<Touch>,
    words: Words,
}

/// The words of a row.
#[derive(Clone, Copy)]
enum Words {
    /// Those of the line with this number. A closing brace is a release of these locks.
    Line(u32, Locks),
    /// A form, and what is in place of its `{}`.
    Form(&'static [u8], Piece<'static>, Piece<'static>),
}

const SILENT: Said = Said {
    mover: None,
    number: [NOTHING; 2],
    result: [NOTHING; 3],
    touch: None,
    words: Words::Form(b"", NOTHING, NOTHING),
};

/// No lock.
const NO_LOCK: Locks = Locks {
    sq: false,
    cq: false,
};

/// The rows and what they say.
pub fn rows_of<'a>(
    alloc: Global,
    run: &Run<'_, 'a>,
    stretches: &[Stretch],
) -> Result<Vec<Row<'a>>, AllocError> {
    let mut rows = Vec::new(alloc);
    for stretch in stretches {
        rows.push(row_of(alloc, run, *stretch)?)?;
    }
    Ok(rows)
}

fn row_of<'a>(alloc: Global, run: &Run<'_, 'a>, stretch: Stretch) -> Result<Row<'a>, AllocError> {
    let said = said_by(run, stretch).unwrap_or(SILENT);
    let last = stretch.last(run.frames.len() as u64);
    Ok(Row {
        stretch,
        mover: said.mover,
        name: match said.mover {
            Some(lane) => run.lane_name(lane),
            None => b"",
        },
        number: said.number,
        line: match said.words {
            Words::Line(line, _) => Number(u64::from(line)),
            Words::Form(_, _, _) => NOTHING,
        },
        words: words_of(alloc, run.lines, said.words)?,
        result: said.result,
        touch: said.touch,
        after: match run.frame(last) {
            Some(frame) => frame.after,
            None => START,
        },
    })
}

/// What a row says, if anything.
fn said_by(run: &Run<'_, '_>, stretch: Stretch) -> Option<Said> {
    let said = match stretch {
        Stretch::Before(1) => Said {
            words: Words::Form(b".. event 1", NOTHING, NOTHING),
            ..SILENT
        },
        Stretch::Before(last) => Said {
            words: Words::Form(b".. events 1 to {}", Number(last), NOTHING),
            ..SILENT
        },
        Stretch::Event(number) => said_of(run, number, run.frame(number)?),
        Stretch::Again {
            thread,
            count,
            first,
            last,
        } => Said {
            mover: Some(thread),
            number: [Number(first), NOTHING],
            words: Words::Form(
                b".. {} times more, to event {}",
                Number(count),
                Number(last),
            ),
            ..SILENT
        },
        Stretch::Fault => said_at(run, run.fault?),
        Stretch::Rival => {
            let rival = run.rival?;
            Said {
                mover: Some(rival.thread),
                touch: touch_of(rival.stmt),
                words: Words::Line(rival.line, NO_LOCK),
                ..SILENT
            }
        }
        Stretch::Empty => SILENT,
    };
    Some(said)
}

/// What is said of an event.
fn said_of(run: &Run<'_, '_>, number: u64, frame: Frame) -> Said {
    let number = [Number(number), NOTHING];
    match frame.event {
        Event::ByThread {
            thread,
            line,
            action,
        } => Said {
            mover: Some(thread),
            number,
            result: result_of(action),
            touch: match frame.line {
                Some(line) => touch_of(line.stmt),
                None => None,
            },
            words: match action {
                Action::Released(locks) => Words::Line(line, locks),
                _ => Words::Line(line, NO_LOCK),
            },
        },
        Event::ByKernel(completion) => Said {
            mover: Some(run.kernel()),
            number,
            result: [Signed(i64::from(completion.res)), NOTHING, NOTHING],
            words: Words::Form(
                b"request {} completes",
                Number(completion.user_data),
                NOTHING,
            ),
            ..SILENT
        },
    }
}

/// What is said of a fault.
fn said_at(run: &Run<'_, '_>, fault: Fault) -> Said {
    let words = match (fault.kind, run.culprit) {
        (FaultKind::KernelClash, _) => Words::Form(b"two requests, one buffer", NOTHING, NOTHING),
        (FaultKind::Overflow, _) => Words::Form(b"no room for a completion", NOTHING, NOTHING),
        (_, Some(culprit)) => match culprit.stmt {
            Stmt::EndLock(_, locks) => Words::Line(culprit.line, locks),
            _ => Words::Line(culprit.line, NO_LOCK),
        },
        (_, None) => SILENT.words,
    };
    Said {
        mover: Some(run.fault_lane()),
        number: [Word(b"F"), Number(u64::from(fault.kind.number()))],
        result: SILENT.result,
        touch: run.fault_touch(),
        words,
    }
}

/// The result of a step.
fn result_of(action: Action) -> [Piece<'static>; 3] {
    match action {
        Action::VariableSet(value) => one(Signed(value)),
        Action::Printed(value) => one(Signed(value)),
        Action::Loaded(byte) => one(Number(u64::from(byte))),
        Action::Stored(byte) => one(Number(u64::from(byte))),
        Action::Filled(byte) => one(Number(u64::from(byte))),
        Action::Submitted(answer) => one(Signed(i64::from(answer))),
        Action::Branched(true) => one(Word(b"yes")),
        Action::Branched(false) => one(Word(b"no")),
        Action::Peeked(completion) => [
            Number(completion.user_data),
            Word(b" "),
            Signed(i64::from(completion.res)),
        ],
        Action::PeekedNone => one(Word(b"none")),
        Action::DataGot(user_data) => one(Number(user_data)),
        _ => [NOTHING; 3],
    }
}

fn one(piece: Piece<'static>) -> [Piece<'static>; 3] {
    [piece, NOTHING, NOTHING]
}

/// The words of a row. What comes after 36 bytes is cut.
fn words_of(alloc: Global, lines: &Lines<'_>, words: Words) -> Result<Vec<u8>, AllocError> {
    let mut text = match words {
        Words::Line(line, locks) => line_words(alloc, lines, line, locks)?,
        Words::Form(form, first, second) => {
            let mut pen = Pen::new(alloc);
            pen.write(form, &[first, second]);
            pen.text()?
        }
    };
    if text.len() > 36 {
        text.truncate(34);
        put_piece(&mut text, b"..")?;
    }
    Ok(text)
}

/// The words of a line, without its opening brace. A closing brace is a release of these locks.
fn line_words(
    alloc: Global,
    lines: &Lines<'_>,
    line: u32,
    locks: Locks,
) -> Result<Vec<u8>, AllocError> {
    let mut words = Vec::new(alloc);
    put_line_words(&mut words, lines, line)?;
    if words.len() == 1 && words[0] == b'}' {
        words.truncate(0);
        put_pieces(&mut words, &[b"release", side_of(locks).as_bytes()])?;
    } else if words.ends_with(b" {") {
        words.truncate(words.len() - 2);
    }
    Ok(words)
}
