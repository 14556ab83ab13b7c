//! Holdings: which shares of buffers, tokens and credits a thread holds at some point.
//!
//! A holding is a bag: how many of each part there are. It is a fixed row of counts and marks, which takes no memory of
//! its own. A pool is lists, as long as its program needs.
#![tactic(auto)]

mod begun;
pub mod holding;
mod lists;
pub mod part;
pub mod pool;
pub mod pools;
mod rows;
