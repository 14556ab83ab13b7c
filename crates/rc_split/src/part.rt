//! What is given to a holding and taken from it.

/// Part of what a thread may hold.
#[derive(Clone, Copy)]
pub enum Part {
    /// So many shares of the buffer with this number. All shares of a buffer allow to write it, each of them to read
    /// it.
    Shares(usize, u32),
    /// The token with this user data, which allows to queue a request under it (`io_uring_sqe_set_data64(3)`). There is
    /// one of each.
    Token(u64),
    /// So many credits. Each allows to cause one completion, so that the completion ring never overflows
    /// (`io_uring_setup(2)`).
    Credits(u32),
}
