//! Whether a world may have a fault at all: one pass over the threads, before the least fault is looked for.

ghost use Rattle.std.specs.Prelude.{◌≡◌, ◌≤◌, ℕ, None, option_map};
ghost use Rattle.std.specs.Bool.{OnFalse};
ghost use Rattle.rc_lang.specs.Program.{lines_of};
ghost use Rattle.rc_world.specs.Faults as spec;
ghost use Rattle.rc_world.specs.Harm as harm;
ghost use Rattle.rc_world.specs.WorldParts.{view_access};

use super::statements::{Access, access_of, is_cq_call, is_out_at, is_raw_at, is_sq_call};
use crate::event::Item;
use crate::world::World;
use rc_lang::lines::{Line, Op, Stmt};

impl<'a> World<'a> {
    // Whether there may be a fault at all, by one pass over the threads.
    pub(super) fn has_harm(&self) -> bool
        ensures { OnFalse result (spec.fault_of self.now ≡ None) }
    {
        self.has_clash || self.overflows() || self.has_harmful_thread()
    }

    // Whether the step that the item names does harm itself.
    pub(in crate::world) fn does_harm(&self, item: &Item) -> bool
        ensures { result ≡ harm.does_harm self.now item.now }
    {
        match *item {
            Item::Thread { thread, .. } => self.is_harmful_next(thread),
            Item::Kernel { .. } => self.has_clash,
        }
    }

    // Whether the next statement of a thread is harmful.
    fn is_harmful_next(&self, thread: u32) -> bool
        ensures { result ≡ harm.harms_at self.now thread (harm.line_of self.now thread) }
    {
        match self.program.threads().get(thread as usize) {
            Some(part) => self.harms_next(thread, &part.lines),
            None => false,
        }
    }

    // A thread that the program hasn't got has no next statement.
    fn has_harmful_thread(&self) -> bool
        ensures { OnFalse result ((thread : ℕ) → harm.IsHarmless self.now thread) }
    {
        for (thread, part) in self.program.threads().iter().enumerate() {
            if self.harms_next(thread as u32, &part.lines) {
                return true;
            }
        }
        false
    }

    // Whether the next statement of a thread, which has these lines, is harmful.
    fn harms_next(&self, thread: u32, lines: &[Line]) -> bool
        requires few { thread ≤ 64 }
        requires lines { lines.now ≡ lines_of self.now.program thread }
        ensures { result ≡ harm.harms_at self.now thread (harm.line_of self.now thread) }
    {
        let Some(place) = self.controls.place(thread) else {
            return false;
        };
        match lines.get(place) {
            Some(line) => self.is_harmful(thread, &line.stmt),
            None => false,
        }
    }

    // Most statements can do no harm: their kind says so, and they aren't copied.
    fn is_harmful(&self, thread: u32, stmt: &Stmt) -> bool
        requires { thread ≤ 64 }
        ensures { result ≡ harm.is_harmful self.now thread stmt.now }
    {
        match *stmt {
            Stmt::Do(Op::Set(_, _)) => false,
            Stmt::Do(Op::Assign(_, _)) => false,
            Stmt::Do(Op::Add(_, _, _)) => false,
            Stmt::Do(Op::Subtract(_, _, _)) => false,
            Stmt::Do(Op::Print(_)) => false,
            Stmt::Do(_) => self.harms(thread, stmt),
            Stmt::Put(_, _) | Stmt::EndLock(_, _) | Stmt::If(_) => self.harms(thread, stmt),
            Stmt::Peek(_) | Stmt::Break(_, _, _) => self.harms(thread, stmt),
            _ => false,
        }
    }

    // Not inlined, so that nothing is made ready for it where a statement can do no harm.
    #[inline(never)]
    fn harms(&self, thread: u32, stmt: &Stmt) -> bool
        requires { thread ≤ 64 }
        ensures { result ≡ harm.is_harmful self.now thread stmt.now }
    {
        self.harms_buffer(thread, access_of(*stmt))
            || is_out_at(self.program, *stmt)
            || self.harms_sq(thread, *stmt)
            || self.harms_cq(thread, *stmt)
            || self.is_double_at(thread, *stmt)
    }

    // Whether it is harmful what the next statement of a thread does with a buffer.
    fn harms_buffer(&self, thread: u32, access: Option<Access>) -> bool
        requires { thread ≤ 64 }
        ensures { result ≡ harm.harms_buffer self.now thread (option_map view_access access) }
    {
        match access {
            Some(_) => {
                self.writes_pending(access)
                    || self.reads_filling(access)
                    || self.races(thread, access)
            }
            None => false,
        }
    }

    // Whether it is harmful what the next statement of a thread does on the submission side.
    fn harms_sq(&self, thread: u32, stmt: Stmt) -> bool
        ensures { result ≡ harm.harms_sq self.now thread stmt }
    {
        if self.controls.has_sq(thread) {
            self.is_full_at(stmt) || self.is_ambiguous_at(stmt) || is_raw_at(self.slot, stmt)
        } else {
            is_sq_call(stmt)
        }
    }

    // Whether it is harmful what the next statement of a thread does on the completion side.
    fn harms_cq(&self, thread: u32, stmt: Stmt) -> bool
        ensures { result ≡ harm.harms_cq self.now thread stmt }
    {
        if self.controls.has_cq(thread) {
            self.is_unknown_at(stmt)
        } else {
            is_cq_call(stmt)
        }
    }
}
