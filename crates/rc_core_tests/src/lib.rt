//! The tests of entries and rings (`rc_entry`, `rc_ring`): bytes from outside, and counters that wrap. They are above those
//! crates, since a crate with tests is proved twice. They name no other crate, since a crate with tests is linked with all that
//! it reaches, and all of that is loaded before it is proved.
#![tactic(auto)]

#[cfg(test)]
mod entry;
#[cfg(test)]
mod ring;
