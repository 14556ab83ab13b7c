//! The disk: the declared files of a program, in memory.

ghost use Rattle.std.specs.Prelude.{◌≡◌, ◌≤◌, ◌<◌, pos, negsuc, ◌≤ℤ◌, true, [], length, drop, IfOk, IfSome};
ghost use Rattle.rc_lang.specs.Requests.{may_complete};
ghost use Rattle.rc_device.specs.Files.{blank_files, place_of, content_of, served_fsync, granted, served};
ghost use Rattle.rc_lang.specs.declared.request.Kind.TheVariants.{Read, Write};

use crate::device::Device;
use crate::file::{ROOM, StoredFile};
use rc_lang::program::Program;
use rc_lang::request::{Kind, Request};
use std::alloc::{AllocError, Global};
use std::marker::Model;

// Errors of the kernel (errno(3)).
const EBADF: i32 = 9;

const ENOSPC: i32 = 28;

/// The files of a program, each with memory for 65,536 bytes.
#[derive(Drop)]
pub struct Disk {
    files: Vec<StoredFile>,
}

// Clauses see the files.
impl Model for Disk {
    ghost use Rattle.std.specs.Prelude.{List};
    ghost use Rattle.rc_device.specs.Files.{DiskFile};

    ghost Value = { List DiskFile };

    ghost view = { λ d. d.files.items };
}

impl Disk {
    /// The declared files, each of its declared length of zero bytes. Fails where memory runs out.
    pub fn new(alloc: Global, program: &Program) -> Result<Disk, AllocError>
        ensures { IfOk result (λ d. d ≡ blank_files program.now.files) }
    {
        let mut files = Vec::with_capacity(alloc, program.files().len())?;
        for file in program.files() {
            files.push_reserved(StoredFile::new(alloc, file.number as i32, file.len as usize)?);
        }
        Ok(Disk { files })
    }

    /// The bytes of a file, at most 65,536; none where it isn't declared.
    pub fn contents(&self, fd: i32) -> &[u8]
        ensures value { result.now ≡ content_of self.now fd }
        ensures within { length result.now ≤ 65536 }
    {
        match self.place_of(fd) {
            Some(place) => self.files[place].content(),
            None => &[],
        }
    }

    /// Serves a request, whose bytes are the first `len` of `bytes`, and answers its result: how many bytes it moved, what
    /// another request without a buffer gives, or a negative errno.
    ///
    /// A `grant` from -4095 to -1 is the answer. Else a request for a file that isn't declared is answered with -9
    /// (`EBADF`). A read moves up to `grant` bytes, and none from the file's end on (`pread(2)`). A write moves up to
    /// `grant` bytes within the first 65,536 of the file, after zeros where the file ended before `off`
    /// (`pwrite(2)`), and is answered with -28 (`ENOSPC`) where it has bytes and `off` is 65,536 or more. An fsync and a
    /// nop are answered with 0, and any other request without a buffer with the grant. Takes no memory.
    pub fn serve(&mut self, request: &Request, bytes: &mut [u8], grant: i32) -> i32
        requires len { request.now.len ≤ length bytes.old }
        requires grant { (negsuc 4094 ≤ℤ grant) × (grant ≤ℤ pos 4096) }
        ensures answer { result ≡ (served self.old request.now bytes.old grant).answer }
        ensures files { self.new ≡ (served self.old request.now bytes.old grant).files }
        ensures bytes { bytes.new ≡ (served self.old request.now bytes.old grant).bytes }
        ensures allowed { may_complete request.now result ≡ true }
        ensures rest { drop request.now.len bytes.new ≡ drop request.now.len bytes.old }
        ensures within { (negsuc 4094 ≤ℤ result) × (result ≤ℤ pos 4096) }
    {
        if grant < 0 {
            return grant;
        }
        self.serve_granted(request, bytes, grant as u32)
    }

    // Serves a request that is granted so many bytes.
    fn serve_granted(&mut self, request: &Request, bytes: &mut [u8], grant: u32) -> i32
        requires len { request.now.len ≤ length bytes.old }
        requires grant { grant ≤ 4096 }
        ensures answer { result ≡ (served self.old request.now bytes.old (pos grant)).answer }
        ensures files { self.new ≡ (served self.old request.now bytes.old (pos grant)).files }
        ensures bytes { bytes.new ≡ (served self.old request.now bytes.old (pos grant)).bytes }
        ensures allowed { may_complete request.now result ≡ true }
        ensures rest { drop request.now.len bytes.new ≡ drop request.now.len bytes.old }
        ensures within { (negsuc 4094 ≤ℤ result) × (result ≤ℤ pos 4096) }
    {
        match request.kind {
            Kind::Nop => 0,
            Kind::Fsync => self.fsync(request.fd),
            Kind::Read => self.read(request, bytes, grant),
            Kind::Write => self.write(request, bytes, grant),
            Kind::Other => grant as i32,
        }
    }

    fn fsync(&self, fd: i32) -> i32
        ensures { result ≡ (served_fsync self.now [] (place_of self.now fd)).answer }
    {
        match self.place_of(fd) {
            Some(_) => 0,
            None => -EBADF,
        }
    }

    fn read(&self, request: &Request, bytes: &mut [u8], grant: u32) -> i32
        requires len { request.now.len ≤ length bytes.old }
        requires grant { grant ≤ 4096 }
        ensures answer { result ≡ (granted self.now request.now bytes.old grant Read).answer }
        ensures bytes { bytes.new ≡ (granted self.now request.now bytes.old grant Read).bytes }
    {
        let count = request.len.min(grant) as usize;
        match self.place_of(request.fd) {
            Some(place) => self.files[place].read_at(request.off, count, bytes) as i32,
            None => -EBADF,
        }
    }

    fn write(&mut self, request: &Request, bytes: &[u8], grant: u32) -> i32
        requires len { request.now.len ≤ length bytes.now }
        requires grant { grant ≤ 4096 }
        ensures answer { result ≡ (granted self.old request.now bytes.now grant Write).answer }
        ensures files { self.new ≡ (granted self.old request.now bytes.now grant Write).files }
    {
        let Some(place) = self.place_of(request.fd) else {
            return -EBADF;
        };
        if request.len == 0 {
            return 0;
        }
        if request.off >= ROOM as u64 {
            return -ENOSPC;
        }
        let off = request.off as usize;
        let count = (request.len.min(grant) as usize).min(ROOM - off);
        self.files[place].write_at(off, &bytes[..count]);
        count as i32
    }

    // The place of a file among the files.
    #[tactic(auto, unfolding(crate::specs::Files::place_of))]
    fn place_of(&self, fd: i32) -> Option<usize>
        ensures value { result ≡ place_of self.now fd }
        ensures within { IfSome result (λ k. k < length self.now) }
    {
        self.files.iter().position(|file| file.fd() == fd)
    }
}

impl Device for Disk {
    ghost gives = { λ _ res. (negsuc 4094 ≤ℤ res) × (res ≤ℤ pos 4096) };

    /// As the disk serves by itself.
    fn serve(&mut self, request: &Request, bytes: &mut [u8], grant: i32) -> i32
        requires len { request.now.len ≤ length bytes.old }
        requires grant { (negsuc 4094 ≤ℤ grant) × (grant ≤ℤ pos 4096) }
        ensures answer { result ≡ (served self.old request.now bytes.old grant).answer }
        ensures files { self.new ≡ (served self.old request.now bytes.old grant).files }
        ensures bytes { bytes.new ≡ (served self.old request.now bytes.old grant).bytes }
        ensures allowed { may_complete request.now result ≡ true }
        ensures rest { drop request.now.len bytes.new ≡ drop request.now.len bytes.old }
        ensures gives { (negsuc 4094 ≤ℤ result) × (result ≤ℤ pos 4096) }
    {
        Disk::serve(self, request, bytes, grant)
    }
}
