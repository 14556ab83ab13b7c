//! How many shares buffers have.

use crate::names::{at, set};
use crate::parts::Parts;
use crate::replayed::{Kind, Sent};
use crate::shapes::{Deed, requests_of};
use std::alloc::{AllocError, Global};

/// The writes that are out, and who reads buffers.
#[derive(Drop)]
pub struct Writes {
    /// Of each buffer: the most writes and readers of it at a time.
    shares: Vec<u32>,
    /// Of each buffer how many writes are out.
    counts: Vec<u32>,
    /// Of each token: the buffer, if a write with it is out.
    out: Vec<Option<u32>>,
    /// Of each buffer: who has read it since it was changed last, and how often each had put something before.
    readers: Vec<Vec<Reader>>,
    /// Of each thread: how often it put something.
    puts: Vec<u32>,
}

/// A thread that reads a buffer, until it puts something.
#[derive(Clone, Copy)]
struct Reader {
    thread: u32,
    puts: u32,
}

impl Writes {
    /// No log has begun: so many buffers.
    pub fn new(alloc: Global, buffers: usize) -> Result<Writes, AllocError> {
        Ok(Writes {
            shares: vec![in alloc; 1; buffers]?,
            counts: Vec::new(alloc),
            out: Vec::new(alloc),
            readers: Vec::new(alloc),
            puts: Vec::new(alloc),
        })
    }

    /// Of each buffer: the most writes and readers of it at a time.
    pub fn into_shares(self) -> Vec<u32> {
        let Writes {
            shares,
            counts: _,
            out: _,
            readers: _,
            puts: _,
        } = self;
        shares
    }

    /// A log begins.
    pub fn begin_log(
        &mut self,
        alloc: Global,
        buffers: usize,
        tokens: usize,
        threads: usize,
    ) -> Result<(), AllocError> {
        self.counts = vec![in alloc; 0; buffers]?;
        self.out = vec![in alloc; None; tokens]?;
        self.puts = vec![in alloc; 0; threads]?;
        self.readers = Vec::new(alloc);
        for _ in 0..buffers {
            self.readers.push(Vec::new(alloc))?;
        }
        Ok(())
    }

    /// A thread does something.
    pub fn step(&mut self, parts: &Parts, thread: u32, deed: &Deed) -> Result<(), AllocError> {
        match deed {
            Deed::Reap {
                token,
                class: _,
                is_early: _,
            } => self.end(*token),
            Deed::Put { pool: _, buffer: _ } => {
                let puts = at(&self.puts, thread, 0);
                set(&mut self.puts, thread, puts.saturating_add(1));
            }
            Deed::Fill(buffer) => {
                if let Some(readers) = self.readers.get_mut(*buffer as usize) {
                    readers.clear();
                }
            }
            Deed::Load(buffer) => self.read(thread, *buffer)?,
            deed => {
                for sent in requests_of(deed) {
                    self.begin(parts, thread, *sent);
                }
            }
        }
        Ok(())
    }

    /// A buffer has at least so many shares.
    fn raise(&mut self, buffer: u32, least: u32) {
        let shares = at(&self.shares, buffer, 0);
        set(&mut self.shares, buffer, shares.max(least));
    }

    /// How many threads other than this one read a buffer.
    fn readers_beside(&self, thread: u32, buffer: u32) -> u32 {
        let Some(readers) = self.readers.get(buffer as usize) else {
            return 0;
        };
        let mut count: u32 = 0;
        for reader in readers {
            let is_on = at(&self.puts, reader.thread, 0) == reader.puts;
            if is_on && reader.thread != thread {
                count = count.saturating_add(1);
            }
        }
        count
    }

    /// A thread reads a buffer.
    fn read(&mut self, thread: u32, buffer: u32) -> Result<(), AllocError> {
        let count = self.readers_beside(thread, buffer).saturating_add(1);
        let out = at(&self.counts, buffer, 0);
        self.raise(buffer, out.saturating_add(count));
        let reader = Reader {
            thread,
            puts: at(&self.puts, thread, 0),
        };
        match self.readers.get_mut(buffer as usize) {
            Some(readers) => add_reader(readers, reader),
            None => Ok(()),
        }
    }

    /// A thread makes a request.
    fn begin(&mut self, parts: &Parts, thread: u32, sent: Sent) {
        let Some(buffer) = written(parts, sent) else {
            return;
        };
        self.end(sent.token);
        let out = at(&self.counts, buffer, 0).saturating_add(1);
        set(&mut self.counts, buffer, out);
        set(&mut self.out, sent.token, Some(buffer));
        let readers = self.readers_beside(thread, buffer);
        self.raise(buffer, out.saturating_add(readers));
    }

    /// A request has ended.
    fn end(&mut self, token: u32) {
        if let Some(buffer) = at(&self.out, token, None) {
            let out = at(&self.counts, buffer, 0);
            set(&mut self.counts, buffer, out.saturating_sub(1));
            set(&mut self.out, token, None);
        }
    }
}

/// Adds a reader to those of a buffer.
fn add_reader(readers: &mut Vec<Reader>, reader: Reader) -> Result<(), AllocError> {
    for place in 0..readers.len() {
        if let Some(other) = readers.get_mut(place)
            && other.thread == reader.thread
        {
            other.puts = reader.puts;
            return Ok(());
        }
    }
    readers.push(reader)?;
    Ok(())
}

/// The buffer of a request that is a write.
fn written(parts: &Parts, sent: Sent) -> Option<u32> {
    let request = parts.request(sent.token, sent.request)?;
    match request.kind {
        Kind::Write => request.buffer,
        _ => None,
    }
}
