//! Submission entries as bytes.

ghost use Rattle.std.specs.Prelude.{◌≡◌, ◌↔◌, negsuc, IsTrue};
ghost use Rattle.rc_entry.specs.Fields.{HasZeroUnused, SpellsFields};
ghost use Rattle.rc_entry.specs.Spelling.{sqe_opcode, sqe_fd, sqe_off, sqe_addr, sqe_len, sqe_flags, sqe_user_data, sync_flags, IsKnown, AreOthersZero, SpellsEntry, IsFaultOfEntry, IsLeastFault};
ghost use Rattle.rc_entry.specs.declared.Entry.{Entry};
ghost use Rattle.rc_entry.specs.declared.EntryFault.{EntryFault};

use crate::numbers::{read_i32, read_u32, read_u64, write_i32, write_u32, write_u64};
use crate::{
    Entry, EntryFault, IORING_FSYNC_DATASYNC, IORING_OP_FSYNC, IORING_OP_NOP, IORING_OP_READ,
    IORING_OP_WRITE,
};

// The fields of `struct io_uring_sqe` that entries differ in, by their names there.
#[derive(Clone, Copy)]
struct Fields {
    opcode: u8,
    fd: i32,
    off: u64,
    addr: u64,
    len: u32,
    // `rw_flags`, and of an fsync `fsync_flags`
    flags: u32,
    user_data: u64,
}

impl Fields {
    // The fields of a nop, which has no file.
    fn nop(user_data: u64) -> Fields
        ensures { result ≡ record {
          opcode = IORING_OP_NOP;
          fd = negsuc 0;
          off = 0;
          addr = 0;
          len = 0;
          flags = 0;
          user_data = user_data;
        } }
    {
        Fields {
            opcode: IORING_OP_NOP,
            fd: -1,
            off: 0,
            addr: 0,
            len: 0,
            flags: 0,
            user_data,
        }
    }

    // The fields of an fsync.
    fn fsync(fd: i32, datasync: bool, user_data: u64) -> Fields
        ensures { result ≡ record {
          opcode = IORING_OP_FSYNC;
          fd = fd;
          off = 0;
          addr = 0;
          len = 0;
          flags = sync_flags datasync;
          user_data = user_data;
        } }
    {
        let flags = if datasync { IORING_FSYNC_DATASYNC } else { 0 };
        Fields {
            opcode: IORING_OP_FSYNC,
            fd,
            off: 0,
            addr: 0,
            len: 0,
            flags,
            user_data,
        }
    }

    // The fields of a read or a write, by its opcode.
    fn transfer(opcode: u8, fd: i32, addr: u64, len: u32, off: u64, user_data: u64) -> Fields
        ensures { result ≡ record {
          opcode = opcode;
          fd = fd;
          off = off;
          addr = addr;
          len = len;
          flags = 0;
          user_data = user_data;
        } }
    {
        Fields {
            opcode,
            fd,
            off,
            addr,
            len,
            flags: 0,
            user_data,
        }
    }

    // The 64 bytes with these fields, and all others 0.
    fn to_bytes(self) -> [u8; 64]
        ensures { SpellsFields self result }
    {
        let mut bytes = [0; 64];
        bytes[0] = self.opcode;
        write_i32(&mut bytes, 4, self.fd);
        write_u64(&mut bytes, 8, self.off);
        write_u64(&mut bytes, 16, self.addr);
        write_u32(&mut bytes, 24, self.len);
        write_u32(&mut bytes, 28, self.flags);
        write_u64(&mut bytes, 32, self.user_data);
        bytes
    }

    // The fields as they are in the bytes.
    fn read(bytes: &[u8; 64]) -> Fields
        ensures opcode { result.opcode ≡ sqe_opcode bytes.now }
        ensures fd { result.fd ≡ sqe_fd bytes.now }
        ensures off { result.off ≡ sqe_off bytes.now }
        ensures addr { result.addr ≡ sqe_addr bytes.now }
        ensures len { result.len ≡ sqe_len bytes.now }
        ensures flags { result.flags ≡ sqe_flags bytes.now }
        ensures user_data { result.user_data ≡ sqe_user_data bytes.now }
    {
        Fields {
            opcode: bytes[0],
            fd: read_i32(bytes, 4),
            off: read_u64(bytes, 8),
            addr: read_u64(bytes, 16),
            len: read_u32(bytes, 24),
            flags: read_u32(bytes, 28),
            user_data: read_u64(bytes, 32),
        }
    }

    // The fsync of these fields.
    fn to_fsync(self, datasync: bool) -> Entry
        ensures { result ≡ Entry.Fsync self.fd datasync self.user_data }
    {
        Entry::Fsync {
            fd: self.fd,
            datasync,
            user_data: self.user_data,
        }
    }

    // The read of these fields.
    fn to_read(self) -> Entry
        ensures { result ≡ Entry.Read self.fd self.addr self.len self.off self.user_data }
    {
        let Fields {
            fd,
            addr,
            len,
            off,
            user_data,
            ..
        } = self;
        Entry::Read {
            fd,
            addr,
            len,
            off,
            user_data,
        }
    }

    // The write of these fields.
    fn to_write(self) -> Entry
        ensures { result ≡ Entry.Write self.fd self.addr self.len self.off self.user_data }
    {
        let Fields {
            fd,
            addr,
            len,
            off,
            user_data,
            ..
        } = self;
        Entry::Write {
            fd,
            addr,
            len,
            off,
            user_data,
        }
    }

    // Whether every field is 0 that the opcode doesn't use.
    fn unused_are_zero(&self) -> bool
        ensures { IsTrue result ↔ HasZeroUnused self.now }
    {
        let no_range = self.off == 0 && self.addr == 0 && self.len == 0;
        match self.opcode {
            IORING_OP_NOP => no_range && self.flags == 0,
            IORING_OP_FSYNC => no_range,
            _ => self.flags == 0,
        }
    }
}

// Whether the opcode is one of the four.
fn is_known(opcode: u8) -> bool
    ensures { IsTrue result ↔ IsKnown opcode }
{
    matches!(
        opcode,
        IORING_OP_NOP | IORING_OP_FSYNC | IORING_OP_READ | IORING_OP_WRITE
    )
}

// Whether every byte of the fields that no entry uses is 0.
fn others_are_zero(bytes: &[u8; 64]) -> bool
    ensures { IsTrue result ↔ AreOthersZero bytes.now }
{
    bytes[1..4].iter().all(|byte| *byte == 0) && bytes[40..64].iter().all(|byte| *byte == 0)
}

/// The 64 bytes of an entry (io_uring_enter(2)).
pub fn encode_sqe(entry: &Entry) -> [u8; 64]
    ensures { SpellsEntry entry.now result }
{
    match *entry {
        Entry::Nop { user_data } => Fields::nop(user_data).to_bytes(),
        Entry::Fsync {
            fd,
            datasync,
            user_data,
        } => Fields::fsync(fd, datasync, user_data).to_bytes(),
        Entry::Read {
            fd,
            addr,
            len,
            off,
            user_data,
        } => { Fields::transfer(IORING_OP_READ, fd, addr, len, off, user_data).to_bytes() }
        Entry::Write {
            fd,
            addr,
            len,
            off,
            user_data,
        } => { Fields::transfer(IORING_OP_WRITE, fd, addr, len, off, user_data).to_bytes() }
    }
}

/// The entry that the bytes spell.
///
/// # Errors
///
/// Where the bytes spell no entry, the first of these that holds: [`EntryFault::UnknownOpcode`],
/// [`EntryFault::NonZeroField`], [`EntryFault::NopFd`], [`EntryFault::FsyncFlags`].
pub fn decode_sqe(bytes: &[u8; 64]) -> Result<Entry, EntryFault>
    ensures value { (entry : Entry) → (result ≡ Ok entry) ↔ SpellsEntry entry bytes.now }
    ensures fault { (f : EntryFault) → (result ≡ Err f) ↔ IsLeastFault IsFaultOfEntry bytes.now f }
{
    let fields = Fields::read(bytes);
    if !is_known(fields.opcode) {
        return Err(EntryFault::UnknownOpcode);
    }
    if !others_are_zero(bytes) {
        return Err(EntryFault::NonZeroField);
    }
    if !fields.unused_are_zero() {
        return Err(EntryFault::NonZeroField);
    }
    match fields.opcode {
        IORING_OP_NOP if fields.fd != -1 => Err(EntryFault::NopFd),
        IORING_OP_NOP => Ok(Entry::Nop {
            user_data: fields.user_data,
        }),
        IORING_OP_FSYNC => match fields.flags {
            0 => Ok(fields.to_fsync(false)),
            IORING_FSYNC_DATASYNC => Ok(fields.to_fsync(true)),
            _ => Err(EntryFault::FsyncFlags),
        },
        IORING_OP_READ => Ok(fields.to_read()),
        _ => Ok(fields.to_write()),
    }
}
