//! What a line adds to what was read so far.

ghost use Rattle.std.specs.Prelude.{◌≡◌, ◌<◌, [], None, OnOk};
ghost use Rattle.rc_read.specs.Adds as spec;
ghost use Rattle.rc_read.specs.Steps.{AddsLine, AddsStock, Becomes, CountsLine, OpensThread};
ghost use Rattle.rc_read.specs.Texts.{texts_of};
ghost use Rattle.rc_read.specs.View.{view_sheet};

use crate::blocks::innermost;
use crate::copies::push_threads;
use crate::draft::held;
use crate::parts::{Draft, Parts, Region};
use crate::says::{Rings, Says};
use crate::values::Item;
use rc_lang::names::cut_at_bracket;
use rc_lang::program::{Buffer, Head, Stock};
use std::alloc::{AllocError, Global};
use std::mem;

// The name that a line declares.
fn second_of<'a>(words: &[&'a [u8]]) -> &'a [u8]
    ensures { result.now ≡ spec.second_of (texts_of words.now) }
{
    match words.get(1) {
        Some(word) => word,
        None => &[],
    }
}

// The head with the rings that a line asks for.
fn head_with_rings(version: u32, rings: Rings) -> Head
    ensures { result ≡ spec.head_with_rings version rings }
{
    Head {
        version,
        entries: rings.entries,
        completion_entries: rings.completion_entries,
        left: rings.left,
    }
}

// The name of the threads that this word declares, where it says how many.
fn thread_name(copies: Option<u32>, word: &[u8]) -> &[u8]
    ensures { result.now ≡ spec.thread_name copies word.now }
{
    match copies {
        None => word,
        Some(_) => cut_at_bracket(word).0,
    }
}

// A thread, or so many copies of one, whose header has these words and items and is on this line.
fn open_thread(
    alloc: Global,
    words: &[&[u8]],
    copies: Option<u32>,
    items: &[Item],
    line: u32,
) -> Result<Draft, AllocError>
    ensures { OpensThread result words.now copies line items.now }
{
    Ok(Draft {
        name: Vec::from_slice(alloc, thread_name(copies, second_of(words)))?,
        copies,
        line,
        items: held(alloc, items)?,
        ..Draft::new(alloc)
    })
}

impl Parts {
    // Adds a line of the open thread.
    fn say(&mut self, alloc: Global, items: &[Item], says: &Says) -> Result<(), AllocError>
        requires { self.old.count < 4096 }
        ensures ok { Becomes result self.new (spec.said (view_sheet self.old) items.now says.now) }
        ensures count { self.new.count ≡ self.old.count }
    {
        let stmt = self.draft.stmt_in(*says);
        self.draft.put(alloc, self.count + 1, items, stmt)
    }

    // Closes the thread, and with it the copies of its line.
    fn end_thread(&mut self, alloc: Global) -> Result<(), AllocError>
        ensures ok { OnOk result (view_sheet self.new ≡ spec.closed (view_sheet self.old) None) }
        ensures count { self.new.count ≡ self.old.count }
    {
        let draft = mem::replace(&mut self.draft, Draft::new(alloc));
        let copies = draft.copies;
        let thread = draft.into_thread(alloc)?;
        push_threads(alloc, &mut self.threads, thread, copies)?;
        self.region = Region::Between;
        Ok(())
    }

    // Closes the innermost block, and without one the thread.
    fn close(&mut self, alloc: Global) -> Result<(), AllocError>
        requires { self.old.count < 4096 }
        ensures ok { AddsLine result self.old [] [] Says.Close self.new }
        ensures count { self.new.count ≡ self.old.count }
    {
        match innermost(&self.draft.blocks) {
            Some(_) => self.say(alloc, &[], &Says::Close),
            None => self.end_thread(alloc),
        }
    }

    // Opens a thread, or so many copies of one.
    fn open(
        &mut self,
        alloc: Global,
        words: &[&[u8]],
        copies: Option<u32>,
        items: &[Item],
    ) -> Result<(), AllocError>
        requires { self.old.count < 4096 }
        ensures ok { AddsLine result self.old words.now items.now (Says.Thread copies) self.new }
        ensures count { self.new.count ≡ self.old.count }
    {
        self.draft = open_thread(alloc, words, copies, items, self.count + 1)?;
        self.region = Region::InThread;
        Ok(())
    }

    // Declares a buffer.
    fn put_buffer(
        &mut self,
        alloc: Global,
        words: &[&[u8]],
        bytes: u32,
        shares: u32,
    ) -> Result<(), AllocError>
        ensures ok { AddsLine result self.old words.now [] (Says.Buffer bytes shares) self.new }
        ensures count { self.new.count ≡ self.old.count }
    {
        let name = Vec::from_slice(alloc, second_of(words))?;
        self.buffers.push(Buffer {
            name,
            bytes,
            shares,
        })?;
        Ok(())
    }

    // Declares a pool.
    fn put_pool(&mut self, alloc: Global, words: &[&[u8]]) -> Result<(), AllocError>
        ensures ok { AddsLine result self.old words.now [] Says.Pool self.new }
        ensures count { self.new.count ≡ self.old.count }
    {
        self.pools.push(Vec::from_slice(alloc, second_of(words))?)?;
        Ok(())
    }

    // Adds what a pool has at the start: the one with this number, or the one without a name.
    fn stock(
        &mut self,
        alloc: Global,
        pool: Option<usize>,
        items: &[Item],
    ) -> Result<(), AllocError>
        requires { self.old.count < 4096 }
        ensures ok { AddsStock result self.old pool items.now self.new }
        ensures count { self.new.count ≡ self.old.count }
    {
        let items = held(alloc, items)?;
        let line = self.count + 1;
        self.stock.push(Stock { pool, line, items })?;
        Ok(())
    }

    // Declares a pool, and what it has at the start.
    fn put_stocked(
        &mut self,
        alloc: Global,
        words: &[&[u8]],
        items: &[Item],
    ) -> Result<(), AllocError>
        requires { self.old.count < 4096 }
        ensures ok { AddsLine result self.old words.now items.now Says.PoolStock self.new }
        ensures count { self.new.count ≡ self.old.count }
    {
        let pool = self.pools.len();
        self.stock(alloc, Some(pool), items)?;
        self.put_pool(alloc, words)
    }

    fn put(
        &mut self,
        alloc: Global,
        words: &[&[u8]],
        items: &[Item],
        says: &Says,
    ) -> Result<(), AllocError>
        requires { self.old.count < 4096 }
        ensures ok { AddsLine result self.old words.now items.now says.now self.new }
        ensures count { self.new.count ≡ self.old.count }
    {
        match *says {
            Says::Version(version) => {
                self.region = Region::Second;
                self.head.version = version;
                Ok(())
            }
            Says::Ring(rings) => {
                self.region = Region::Declarations;
                self.head = head_with_rings(self.head.version, rings);
                Ok(())
            }
            Says::File(file) => Ok(self.files.push(file)?),
            Says::Buffer(bytes, shares) => self.put_buffer(alloc, words, bytes, shares),
            Says::Token(token) => Ok(self.tokens.push(token)?),
            Says::Pool => self.put_pool(alloc, words),
            Says::PoolStock => self.put_stocked(alloc, words, items),
            Says::UnnamedStock => self.stock(alloc, None, items),
            Says::Thread(copies) => self.open(alloc, words, copies, items),
            Says::Close => self.close(alloc),
            Says::Op(_) | Says::Put(_) | Says::Lock(_) => self.say(alloc, items, says),
            Says::If(_) | Says::Take(_) => self.say(alloc, items, says),
            Says::Else | Says::Peek(_) | Says::Case(_) => self.say(alloc, items, says),
            Says::Other | Says::Nothing => self.say(alloc, items, says),
            Says::Loop | Says::Break => self.say(alloc, items, says),
        }
    }

    /// Adds a line with these words and items that says this, of which no sentence is true. The variables of the line
    /// have their numbers already. Without memory the parts may hold a part of the line.
    pub fn add(
        &mut self,
        alloc: Global,
        words: &[&[u8]],
        items: &[Item],
        says: &Says,
    ) -> Result<(), AllocError>
        requires { self.old.count < 4096 }
        ensures { CountsLine result self.old words.now items.now says.now self.new }
    {
        self.put(alloc, words, items, says)?;
        self.count_line();
        Ok(())
    }

    /// Counts a line without words.
    pub fn count_line(&mut self)
        requires { self.old.count < 4096 }
        ensures { view_sheet self.new ≡ spec.counted (view_sheet self.old) }
    {
        self.count += 1;
    }
}
