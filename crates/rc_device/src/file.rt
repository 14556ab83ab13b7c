//! A file in memory.

ghost use Rattle.std.specs.Prelude.{◌≡◌, ◌+◌, ◌≤◌, ◌++◌, length, drop, replicate, IfOk};
ghost use Rattle.rc_device.specs.Files.{read_from, written_to};

use std::alloc::{AllocError, Global};
use std::marker::Model;

/// How many bytes a file can have.
pub const ROOM: usize = 65536;

/// A file of at most `ROOM` bytes, for which it has the memory.
#[derive(Drop)]
pub struct StoredFile {
    fd: i32,
    content: Vec<u8>,
}

// Clauses see its number and its bytes.
impl Model for StoredFile {
    ghost use Rattle.rc_device.specs.Files.{DiskFile};
    ghost use Rattle.std.specs.Prelude.{vec_len, vec_capacity};
    ghost use Rattle.rc_device.specs.Rooms.{IsRoomy};

    ghost Value = { DiskFile };

    ghost view = { λ f. record { fd = f.fd; content = f.content.items } };

    ghost invariant = { λ f. IsRoomy (vec_len f.content) (vec_capacity f.content) };
}

impl StoredFile {
    /// A file of `len` zero bytes, at most `ROOM`.
    pub fn new(alloc: Global, fd: i32, len: usize) -> Result<StoredFile, AllocError>
        requires { len ≤ ROOM }
        ensures { IfOk result (λ f. f ≡ record { fd = fd; content = replicate len 0 }) }
    {
        let mut content = Vec::with_capacity(alloc, ROOM)?;
        content.resize(len, 0)?;
        Ok(StoredFile { fd, content })
    }

    /// Its number.
    pub fn fd(&self) -> i32
        ensures { result ≡ self.now.fd }
    {
        self.fd
    }

    /// Its bytes, at most `ROOM`.
    pub fn content(&self) -> &[u8]
        ensures value { result.now ≡ self.now.content }
        ensures within { length result.now ≤ ROOM }
    {
        &self.content
    }

    /// Reads at most `count` bytes from `off` on into the front of `into`, and answers how many that are: none from the
    /// file's end on (`pread(2)`). The others stay.
    pub fn read_at(&self, off: u64, count: usize, into: &mut [u8]) -> usize
        requires { count ≤ length into.old }
        ensures count { result ≡ length (read_from self.now.content off count) }
        ensures into { into.new ≡ read_from self.now.content off count ++ drop result into.old }
    {
        let start = self.content.len().min(off as usize);
        let rest = &self.content[start..];
        let count = rest.len().min(count);
        into[..count].copy_from_slice(&rest[..count]);
        count
    }

    /// Writes bytes from `off` on, within `ROOM`. Where the file ended before that, zeros fill the gap (`pwrite(2)`).
    pub fn write_at(&mut self, off: usize, bytes: &[u8])
        requires { off + length bytes.now ≤ ROOM }
        ensures { self.new ≡ record self.old {
          content = written_to self.old.content off bytes.now;
        } }
    {
        if bytes.is_empty() {
            return;
        }
        let end = off + bytes.len();
        let len = self.content.len().max(end);
        self.content.resize(len, 0).unwrap();
        self.content[off..end].copy_from_slice(bytes);
    }
}
