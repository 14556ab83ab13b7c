//! A reader of a model that comes in pieces.

ghost use Rattle.std.specs.Prelude.{◌≡◌, ◌+◌, ◌++◌, ◌∷◌, ◌↔◌, [], List, ℕ, None, Some, Err, IsSome, length};
ghost use Rattle.memchr.specs.Find.{Nowhere, Passes, is_byte};
ghost use Rattle.rc_lang.specs.Kept.{IsProgram};
ghost use Rattle.rc_read.specs.Answer.{program_in as read_in};
ghost use Rattle.rc_read.specs.Pieces.{IsSoundBy, without_parts};
ghost use Rattle.rc_read.specs.Steps.{ReadsLine, ReadsPiece};
ghost use Rattle.rc_read.specs.Stream.{JudgesAll, JudgesEnd, Ends, IsAnswer, IsReached, IsReadAs};
ghost use Rattle.rc_read.specs.View.{view_sheet};
ghost use Rattle.rc_read.specs.Words.{last_line};

use crate::fault::{ReadCause, ReadFault};
use crate::judge::{Scratch, judge};
use crate::parts::{Parts, Region, Unread};
use memchr::memchr;
use rc_lang::program::{Declarations, Program};
use std::alloc::Global;
use std::marker::Model;

/// Reads a model that comes in pieces.
#[derive(Drop)]
pub struct Reader {
    alloc: Global,
    parts: Parts,
    pending: Vec<u8>,
    fault: Option<ReadFault>,
}

impl Model for Reader {
    ghost use Rattle.rc_read.specs.Stream as spec;

    ghost Value = { spec.Reading };

    ghost use Rattle.rc_read.specs.Stream.{IsReachedOrFaulty};
    ghost use Rattle.rc_read.specs.View.{view_sheet};

    ghost view = { λ r. record {
      fault = r.fault;
      sheet = view_sheet r.parts;
      pending = r.pending.items;
    } };

    ghost invariant = { λ r. IsReachedOrFaulty r.fault (view_sheet r.parts) };
}

// Judges a line that a line feed ends: the pending bytes and these after them.
fn end_line<'a>(
    alloc: Global,
    parts: &mut Parts,
    pending: &mut Vec<u8>,
    scratch: &mut Scratch<'a>,
    front: &'a [u8],
) -> Result<(), ReadFault>
    requires { Nowhere (Passes (is_byte 10) front.now) 0 (length front.now) }
    ensures reads { ReadsLine parts.old pending.old front.now parts.new pending.new result }
    ensures sound { IsReached (view_sheet parts.old) → IsSoundBy result (view_sheet parts.new) }
{
    if pending.is_empty() {
        return judge(alloc, parts, scratch, front);
    }
    pending.extend_from_slice(front)?;
    let judged = judge(alloc, parts, &mut Scratch::new(alloc), pending);
    pending.clear();
    judged
}

// Takes a piece, up to the first line that can't be read.
fn take(
    alloc: Global,
    parts: &mut Parts,
    pending: &mut Vec<u8>,
    piece: &[u8],
) -> Result<(), ReadFault>
    ensures reads { ReadsPiece parts.old pending.old piece.now parts.new pending.new result }
    ensures sound { IsReached (view_sheet parts.old) → IsSoundBy result (view_sheet parts.new) }
{
    let mut scratch = Scratch::new(alloc);
    let mut at = 0;
    while let Some(i) = memchr(b'\n', &piece[at..]) {
        end_line(alloc, parts, pending, &mut scratch, &piece[at..at + i])?;
        at = at + i + 1;
    }
    pending.extend_from_slice(&piece[at..])?;
    Ok(())
}

// Judges what comes after the last line feed, unless it is empty.
fn judge_rest(alloc: Global, parts: &mut Parts, rest: &[u8]) -> Result<(), ReadFault>
    ensures { JudgesAll (view_sheet parts.old) (last_line rest.now) (view_sheet parts.new) result }
{
    if rest.is_empty() {
        Ok(())
    } else {
        judge(alloc, parts, &mut Scratch::new(alloc), rest)
    }
}

// The program that was read.
fn program_in(parts: Parts) -> Program
    requires { IsProgram (read_in (view_sheet parts)) }
    ensures { result ≡ read_in (view_sheet parts) }
{
    let declarations = Declarations {
        files: parts.files,
        buffers: parts.buffers,
        tokens: parts.tokens,
        pools: parts.pools,
        stock: parts.stock,
    };
    Program::new(parts.head, declarations, parts.threads)
}

// Judges the end of the model.
fn judge_end(parts: &Parts) -> Result<(), ReadFault>
    ensures { JudgesEnd (view_sheet parts.now) result }
{
    let line = parts.count;
    match parts.region {
        Region::Start | Region::Second => Err(ReadFault::Text {
            line: line.max(1),
            cause: ReadCause::BadHead,
        }),
        Region::InThread => Err(ReadFault::Text {
            line,
            cause: ReadCause::Braces,
        }),
        Region::Declarations | Region::Between => Ok(()),
    }
}

// The answer of the model's end.
fn end_of(parts: Parts) -> Result<Program, Unread>
    requires { IsReached (view_sheet parts) }
    ensures { Ends (view_sheet parts) result }
{
    match judge_end(&parts) {
        Ok(()) => Ok(program_in(parts)),
        Err(fault) => Err(Unread { fault, parts }),
    }
}

// The answer without what was read.
fn fault_alone(read: Result<Program, Unread>) -> Result<Program, ReadFault>
    ensures { result ≡ without_parts read }
{
    match read {
        Ok(program) => Ok(program),
        Err(unread) => Err(unread.fault),
    }
}

impl Reader {
    ghost use Rattle.std.specs.Prelude.{◌≡◌, ◌++◌, ◌∷◌, ◌↔◌, [], List, ℕ, None, Some, Err, IsSome};
    ghost use Rattle.rc_read.specs.Pieces.{fault_of};
    ghost use Rattle.rc_read.specs.Stream.{HasRead, IsAnswer, IsAnswerSoFar, IsReadAs};
    ghost use Rattle.rc_read.specs.declared.fault.ReadFault.{ReadFault};

    /// A reader that has been fed nothing.
    pub fn new(alloc: Global) -> Reader
        ensures reads { HasRead result [] }
        ensures no_fault { result.fault ≡ None }
    {
        Reader {
            alloc,
            parts: Parts::new(alloc),
            pending: Vec::new(alloc),
            fault: None,
        }
    }

    /// Takes the next piece of the model. The answer is an error where a line that a line feed has ended so far can't
    /// be read, or a growth was refused; after an error each call answers it again.
    pub fn feed(&mut self, piece: &[u8]) -> Result<(), ReadFault>
        ensures reads { (text : List ℕ) → HasRead self.old text
            → HasRead self.new (text ++ piece.now) }
        ensures so_far { (bytes : List ℕ) → HasRead self.old bytes
            → IsAnswerSoFar (bytes ++ piece.now) result }
        ensures kept { (fault : ReadFault) → (result ≡ Err fault) ↔ (self.new.fault ≡ Some fault) }
        ensures stays { IsSome self.old.fault → self.new ≡ self.old }
    {
        if let Some(fault) = self.fault {
            return Err(fault);
        }
        match take(self.alloc, &mut self.parts, &mut self.pending, piece) {
            Ok(()) => Ok(()),
            Err(fault) => {
                self.fault = Some(fault);
                Err(fault)
            }
        }
    }

    /// The bytes of the line that hasn't ended: before an error, those that were fed since the last line feed.
    pub fn pending(&self) -> &[u8]
        ensures { result.now ≡ self.now.pending }
    {
        self.pending.as_slice()
    }

    /// What was read so far: what is above the line that hasn't ended, or above the first that can't be read.
    pub fn parts(&self) -> &Parts
        ensures { view_sheet result.now ≡ self.now.sheet }
    {
        &self.parts
    }

    // What the model is that was fed: a program, or the first line that can't be read, and what is above it.
    fn end(self) -> Result<Program, Unread>
        ensures reads { (bytes : List ℕ) → HasRead self bytes → IsReadAs bytes result }
        ensures stays { IsSome self.fault → fault_of result ≡ self.fault }
    {
        let Reader {
            alloc,
            mut parts,
            pending,
            fault,
        } = self;
        if let Some(fault) = fault {
            return Err(Unread { fault, parts });
        }
        match judge_rest(alloc, &mut parts, &pending) {
            Ok(()) => end_of(parts),
            Err(fault) => Err(Unread { fault, parts }),
        }
    }

    /// What the model is that was fed: a program, or the first line that can't be read.
    pub fn finish(self) -> Result<Program, ReadFault>
        ensures reads { (bytes : List ℕ) → HasRead self bytes → IsAnswer bytes result }
        ensures stays { (fault : ReadFault) → self.fault ≡ Some fault → result ≡ Err fault }
    {
        fault_alone(self.end())
    }
}

/// What a model is: a program, or the first line that can't be read, and what was read above it.
pub fn read_parts(alloc: Global, bytes: &[u8]) -> Result<Program, Unread>
    ensures { IsReadAs bytes.now result }
{
    let mut reader = Reader::new(alloc);
    let _ = reader.feed(bytes);
    reader.end()
}

/// What a model is: a program, or the first line that can't be read.
pub fn read_program(alloc: Global, bytes: &[u8]) -> Result<Program, ReadFault>
    ensures { IsAnswer bytes.now result }
{
    fault_alone(read_parts(alloc, bytes))
}
