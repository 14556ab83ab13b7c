//! Submission and completion entries of io_uring as bytes, with exactly one spelling a value.
//!
//! An [`Entry`] stands for 64 bytes of `struct io_uring_sqe`, a [`Cqe`] for 16 bytes of
//! `struct io_uring_cqe` (io_uring_enter(2)), both in little endian order. What is no spelling of a
//! value is refused with the least [`EntryFault`] that holds of it. Nothing here takes memory.
#![tactic(auto)]

use thiserror::Error;

mod completion;
pub mod laws;
mod numbers;
mod submission;

pub use crate::completion::{decode_cqe, encode_cqe};
pub use crate::submission::{decode_sqe, encode_sqe};

/// The opcode of a request that does nothing (io_uring_enter(2)).
pub const IORING_OP_NOP: u8 = 0;
/// The opcode of a request to bring a file's data to its device, as fsync(2).
pub const IORING_OP_FSYNC: u8 = 3;
/// The opcode of a read at an offset, as pread(2).
pub const IORING_OP_READ: u8 = 22;
/// The opcode of a write at an offset, as pwrite(2).
pub const IORING_OP_WRITE: u8 = 23;
/// The bit of `fsync_flags` that asks for fdatasync(2).
pub const IORING_FSYNC_DATASYNC: u32 = 1;

/// A submission entry, as a prep call and `io_uring_sqe_set_data64` leave it.
///
/// `user_data` comes back in the completion (io_uring_enter(2)).
#[derive(Clone, Copy, PartialEq, Eq, Debug)]
pub enum Entry {
    /// A request that does nothing (io_uring_prep_nop(3)).
    Nop {
        /// What the completion hands back.
        user_data: u64,
    },
    /// A request to bring a file's data to its device (io_uring_prep_fsync(3)).
    Fsync {
        /// The file's descriptor.
        fd: i32,
        /// Whether it is fdatasync(2) that is asked for.
        datasync: bool,
        /// What the completion hands back.
        user_data: u64,
    },
    /// A request to read (io_uring_prep_read(3)).
    Read {
        /// The file's descriptor.
        fd: i32,
        /// The address of the buffer that is filled.
        addr: u64,
        /// At most how many bytes are read.
        len: u32,
        /// The place in the file, in bytes from its start.
        off: u64,
        /// What the completion hands back.
        user_data: u64,
    },
    /// A request to write (io_uring_prep_write(3)).
    Write {
        /// The file's descriptor.
        fd: i32,
        /// The address of the buffer that is written out.
        addr: u64,
        /// At most how many bytes are written.
        len: u32,
        /// The place in the file, in bytes from its start.
        off: u64,
        /// What the completion hands back.
        user_data: u64,
    },
}

/// A completion entry (io_uring_enter(2)).
#[derive(Clone, Copy, PartialEq, Eq, Debug)]
pub struct Cqe {
    /// The `user_data` of the submission entry that completed.
    pub user_data: u64,
    /// The result: a count, or a negative errno.
    pub res: i32,
}

/// Why bytes are no entry, in the order of the codes.
#[derive(Clone, Copy, PartialEq, Eq, Debug, Error)]
pub enum EntryFault {
    /// The opcode isn't one of the four.
    #[error("E1 UnknownOpcode")]
    UnknownOpcode,
    /// A field that must be zero isn't.
    #[error("E2 NonZeroField")]
    NonZeroField,
    /// The descriptor of a nop isn't -1.
    #[error("E3 NopFd")]
    NopFd,
    /// The flags of an fsync are neither 0 nor [`IORING_FSYNC_DATASYNC`].
    #[error("E4 FsyncFlags")]
    FsyncFlags,
    /// The flags of a completion aren't 0.
    #[error("E5 CompletionFlags")]
    CompletionFlags,
}
