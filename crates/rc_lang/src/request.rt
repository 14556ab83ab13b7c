//! What a program asks of the kernel.

/// What a request asks for (`io_uring_enter(2)`, the operation codes).
#[derive(Clone, Copy, PartialEq)]
pub enum Kind {
    /// Nothing at all: `IORING_OP_NOP`.
    Nop,
    /// That what was written to a file is kept: `IORING_OP_FSYNC`.
    Fsync,
    /// Bytes of a file into a buffer: `IORING_OP_READ`.
    Read,
    /// Bytes of a buffer into a file: `IORING_OP_WRITE`.
    Write,
    /// Anything else that has no buffer, as `IORING_OP_POLL_ADD`, `IORING_OP_TIMEOUT`, `IORING_OP_ASYNC_CANCEL` or
    /// `IORING_OP_ACCEPT`.
    Other,
}

/// A request, from `io_uring_sqe_set_data64(3)` until its completion is reaped.
///
/// What a kind doesn't use is 0, and the file number of a nop and of another request without a buffer is -1
/// (`io_uring_prep_nop(3)`).
#[derive(Clone, Copy, PartialEq)]
pub struct Request {
    /// The number of the request among all that the program made, from 1.
    pub serial: u64,
    /// What is asked for.
    pub kind: Kind,
    /// The file number.
    pub fd: i32,
    /// The number of the buffer.
    pub buffer: u32,
    /// How many bytes are moved at most, 0 to 4096.
    pub len: u32,
    /// Where in the file, in bytes.
    pub off: u64,
    /// What its completion carries too.
    pub user_data: u64,
}
