//! The rules of lines: what a thread must hold for each, and what it holds after it.
//!
//! Each call of a [`State`](state::State) is one rule. A state has two sides: what holds while the thread's flag is 0,
//! and while it isn't; without a flag the second is dead. A call answers Ok with the strongest state that the rule
//! allows, or the least premise that fails on a side that something reaches, and then nothing changes. A dead side meets
//! every premise and stays dead. Nothing here takes memory.
#![tactic(auto)]

pub mod asks;
mod blocks;
pub mod cause;
mod flag;
pub mod kinds;
pub mod laws;
pub mod mode;
pub mod needs;
mod ops;
mod pool;
mod premises;
mod rule;
pub mod side;
pub mod state;
