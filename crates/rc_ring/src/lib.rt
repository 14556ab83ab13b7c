//! The submission and the completion ring of an io_uring (io_uring(7)) over masked wrapping counters.
//!
//! [`Ring::get_sqe`] hands out a [`Slot`], whose stage is its type: a `Slot<Vacant>` goes through a prep into a
//! `Slot<Prepared>`, and only that one has `set_data64`, which queues the entry. A slot is never dropped: it is
//! spent by `set_data64`, `abandon` or `park`.
#![tactic(auto)]

pub mod laws;
mod rings;
mod slots;

pub use crate::rings::{Overflow, Ring};
pub use crate::slots::{Prepared, Slot, SlotStage, Vacant};
