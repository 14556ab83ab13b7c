//! What is known before each line of a thread.

ghost use Rattle.std.specs.Prelude.{◌≡◌, ◌<◌, length, Some, slice_get};
ghost use Rattle.rc_lang.specs.Parts.{view_thread};
ghost use Rattle.rc_verify.specs.Labels as spec;
ghost use Rattle.rc_verify.specs.Walk.{IsOf};

use crate::walk::{Walk, pass};
use rc_lang::program::{Program, Thread};
use rc_lang::view::View;
use rc_rules::cause::Cause;
use rc_rules::state::State;
use std::marker::Model;

/// Is at a line of a thread, and goes on line by line until the line that is refused, or the thread's end. It takes
/// no memory.
#[derive(Drop)]
pub struct Labels<'a> {
    walk: Walk<'a>,
    view: View<'a>,
    part: &'a Thread,
    place: usize,
    /// Why the line is refused, where that was found.
    refused: Option<Cause>,
}

impl<'a> Model for Labels<'a> {
    ghost use Rattle.rc_verify.specs.Labels as spec;

    ghost Value = { spec.Labels };

    ghost use Rattle.rc_lang.specs.Parts.{view_thread};
    ghost use Rattle.rc_lang.specs.Views.{seen};

    ghost view = { λ l. record {
      program = l.view.program.now;
      number = l.view.thread;
      thread = view_thread l.part.now;
      place = l.place;
      state = l.walk.state;
    } };

    ghost invariant = { λ l. spec.IsAtLine (seen l.view) (view_thread l.part.now) l.place l.walk l.refused };
}

impl<'a> Labels<'a> {
    /// Is before the first line of a thread. Inlined, so that the walk is made where it stays, with no copy: it has 46 KB.
    #[inline(always)]
    pub fn new(program: &'a Program, thread: u32) -> Labels<'a>
        requires { thread < length program.now.threads }
        ensures of { result.program ≡ program.now }
        ensures number { result.number ≡ thread }
        ensures thread { slice_get program.now.threads thread ≡ Some result.thread }
        ensures place { result.place ≡ 0 }
    {
        let part = &program.threads()[thread as usize];
        Labels {
            walk: Walk::new(program, thread),
            view: program.view(thread as usize),
            part,
            place: 0,
            refused: None,
        }
    }

    /// Is before the first line of a thread of the program, wherever it was before. As it is large, all threads are
    /// walked over with one.
    pub fn begin(&mut self, thread: u32)
        requires { thread < length self.old.program.threads }
        ensures of { self.new.program ≡ self.old.program }
        ensures number { self.new.number ≡ thread }
        ensures thread { slice_get self.old.program.threads thread ≡ Some self.new.thread }
        ensures place { self.new.place ≡ 0 }
    {
        let program = self.view.program;
        let part = &program.threads()[thread as usize];
        self.walk.begin(program, thread);
        self.view = program.view(thread as usize);
        self.part = part;
        self.place = 0;
        self.refused = None;
    }

    /// What is known before the line: of all labellings that are good at the lines before it, the strongest labels there.
    pub fn state(&self) -> &State<'a>
        ensures value { result.now ≡ self.now.state }
        ensures of { IsOf (spec.named_in self.now) self.now.thread self.now.state }
        ensures strongest { spec.HasStrongest self.now }
    {
        &self.walk.state
    }

    /// The place of the line, or after the last line their count.
    pub fn place(&self) -> usize
        ensures { result ≡ self.now.place }
    {
        self.place
    }

    /// The program.
    pub fn program(&self) -> &'a Program
        ensures { result.now ≡ self.now.program }
    {
        self.view.program
    }

    /// The thread whose lines these are.
    pub fn thread(&self) -> &'a Thread
        ensures { view_thread result.now ≡ self.now.thread }
    {
        self.part
    }

    /// Goes on to the next line, and whether there was one to go over; or the cause for which the line is refused, as
    /// often as it is called.
    pub fn next(&mut self) -> Result<bool, Cause>
        ensures of { self.new.program ≡ self.old.program }
        ensures number { self.new.number ≡ self.old.number }
        ensures thread { self.new.thread ≡ self.old.thread }
        ensures goes { spec.Goes self.old self.new result }
    {
        if let Some(cause) = self.refused {
            return Err(cause);
        }
        if self.place >= self.part.lines.len() {
            return Ok(false);
        }
        let stmt = self.part.lines[self.place].stmt;
        if let Err(cause) = pass(&mut self.walk, self.part, self.place, stmt) {
            self.refused = Some(cause);
            return Err(cause);
        }
        self.place += 1;
        Ok(true)
    }
}
