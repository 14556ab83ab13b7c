//! Logs of what a program called on its ring: their lines, and what each line says in the terms of a text.
#![tactic(auto)]

pub mod arguments;
pub mod call;
pub mod declared;
pub mod head;
pub mod line;
pub mod marks;
pub mod parts;
pub mod pending;
pub mod reader;
pub mod words;
