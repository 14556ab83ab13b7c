//! A sentence on a fault, and the events that it names.

use crate::courses::{Course, Stage};
use crate::pen::Piece::{Number, Word};
use crate::pen::{Pen, split_form};
use crate::stocks::{Over, PoolItem};
use rc_lang::program::Program;
use rc_text::names::buffer_name;
use std::alloc::{AllocError, Global};

/// Why there is a fault; nothing without one.
#[derive(Drop)]
pub struct Why {
    pub words: Vec<u8>,
    /// The numbers of the events that the sentence names.
    pub events: Vec<u64>,
}

/// What can be in place of a `{}` in a sentence.
#[derive(Clone, Copy)]
pub enum Part<'a> {
    Word(&'a [u8]),
    Number(u64),
    /// The name of a request.
    Name(&'a Course),
    /// Since when a request has been in its stage.
    Since(&'a Course),
    /// Requests as a list.
    Requests(&'a [Course], Naming),
    /// Items that are put, and how many where they may be there more than once.
    Put(&'a [Over]),
    /// How many of these items are there already.
    There(&'a [Over]),
}

/// How a request is named in a list.
#[derive(Clone, Copy)]
pub enum Naming {
    /// By its name and since when.
    Long,
    /// The same, or as an open entry.
    Entry,
    /// By its user data and since when; the first with a capital.
    First,
    /// By its user data and since when.
    Short,
}

/// A sentence that is being written.
#[derive(Drop)]
pub struct Sentence<'a> {
    program: &'a Program,
    pen: Pen,
    events: Vec<u64>,
    is_out: bool,
}

impl<'a> Sentence<'a> {
    /// An empty sentence on a run of this program.
    pub fn new(alloc: Global, program: &'a Program) -> Sentence<'a> {
        Sentence {
            program,
            pen: Pen::new(alloc),
            events: Vec::new(alloc),
            is_out: false,
        }
    }

    /// Adds a form, with a part in place of each `{}`.
    pub fn say(&mut self, form: &[u8], parts: &[Part<'_>]) {
        let mut rest = form;
        for part in parts {
            let (before, after) = split_form(rest);
            self.pen.put(Word(before));
            self.say_part(*part);
            rest = after;
        }
        self.pen.put(Word(rest));
    }

    fn say_part(&mut self, part: Part<'_>) {
        match part {
            Part::Word(word) => self.pen.put(Word(word)),
            Part::Number(number) => self.pen.put(Number(number)),
            Part::Name(course) => self.say_name(course),
            Part::Since(course) => self.say_since(course),
            Part::Requests(courses, naming) => {
                for (place, course) in courses.iter().enumerate() {
                    if self.goes_on(place, courses.len()) {
                        self.say_request(course, naming, place);
                    }
                }
            }
            Part::Put(over) => {
                for (place, one) in over.iter().enumerate() {
                    if self.goes_on(place, over.len()) {
                        self.say_put(one);
                    }
                }
            }
            Part::There(over) => {
                for (place, one) in over.iter().enumerate() {
                    if self.goes_on(place, over.len()) {
                        self.say_there(one);
                    }
                }
            }
        }
    }

    /// Adds what is before the part at a place of a list. Of more than three parts the first two are said, and how many
    /// there are more. Answers whether this one is.
    fn goes_on(&mut self, place: usize, count: usize) -> bool {
        match place {
            1 if count == 2 => self.pen.put(Word(b" and ")),
            1 => self.pen.put(Word(b", ")),
            2 if count == 3 => self.pen.put(Word(b" and ")),
            2 => {
                let more = count.saturating_sub(2) as u64;
                self.pen.write(b" and {} more", &[Number(more)]);
            }
            _ => {}
        }
        place < 2 || place == 2 && count == 3
    }

    /// Adds what a request asks for, with the buffer and the length where it has them.
    fn say_name(&mut self, course: &Course) {
        self.pen.put(Word(course.kind_name()));
        if let (Some(buffer), Some(request)) = (course.buffer(), course.request) {
            let name = Word(buffer_name(self.program, buffer));
            let len = Number(u64::from(request.len));
            self.pen.write(b" {} {}", &[name, len]);
        }
    }

    /// Adds since when a request has been in its stage, and names that event.
    fn say_since(&mut self, course: &Course) {
        let event = course.since(course.stage);
        let pushed = self.events.push(event);
        self.is_out = self.is_out || pushed.is_err();
        let (name, event) = (Word(course.stage.name()), Number(event));
        match course.stage {
            Stage::Completed => self
                .pen
                .write(b"{} at event {} and not reaped", &[name, event]),
            _ => self.pen.write(b"{} since event {}", &[name, event]),
        }
    }

    /// Adds the request at a place of a list.
    fn say_request(&mut self, course: &Course, naming: Naming, place: usize) {
        let user_data = Number(course.user_data);
        match naming {
            Naming::Entry if !course.has(Stage::Queued) => self.pen.write(b"an entry is ", &[]),
            Naming::Long | Naming::Entry => {
                self.pen.write(b"request {}, ", &[user_data]);
                self.say_name(course);
                self.pen.write(b", is ", &[]);
            }
            Naming::First if place == 0 => self.pen.write(b"Request {} is ", &[user_data]),
            Naming::First | Naming::Short => self.pen.write(b"request {} is ", &[user_data]),
        }
        self.say_since(course);
    }

    fn say_put(&mut self, over: &Over) {
        self.pen.write(b"{}{}", &over.item.name(self.program));
        if !matches!(over.item, PoolItem::Token(_)) {
            self.pen.write(b":{}", &[Number(over.put)]);
        }
    }

    fn say_there(&mut self, over: &Over) {
        let (there, bound) = (Number(over.there), Number(over.bound));
        match over.item {
            PoolItem::Token(_) => self.pen.write(b"it already", &[]),
            _ => self.pen.write(b"{} of {} already", &[there, bound]),
        }
    }

    /// The sentence, or an error where memory ran out.
    pub fn why(self) -> Result<Why, AllocError> {
        let Sentence {
            program: _,
            pen,
            events,
            is_out,
        } = self;
        let words = pen.text()?;
        if is_out {
            return Err(AllocError);
        }
        Ok(Why { words, events })
    }
}
