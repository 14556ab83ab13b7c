//! Runs of a program that its user names or looks for: moves, which are schedules that people can write; the world in which a
//! trace ends, and what may come next there; random walks of a refused program that come to a fault; and those of any
//! program that come to a world in which nothing goes on.
#![tactic(auto)]

pub mod choices;
pub mod find;
pub mod found;
mod harm;
pub mod laws;
pub mod moves;
mod moves_text;
pub mod notes;
mod numbers;
mod pool;
mod random;
mod replay;
mod requests;
mod search;
mod shorten;
pub mod spelling;
mod state;
mod step;
pub mod stepping;
pub mod steps;
pub mod stuck;
pub mod stuck_text;
mod threads;
mod walk;
pub mod why;
