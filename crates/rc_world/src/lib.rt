//! The interleaving machine: what each thread of a program and the kernel may do next, and which worlds have a fault.
#![tactic(auto)]

pub mod controls;
pub mod event;
pub mod fault;
pub mod laws;
pub mod schedule;
pub mod world;
