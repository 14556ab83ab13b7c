//! Logs of real programs, held to a text.
#![tactic(auto)]

mod alike;
mod covered;
pub mod follower;
mod hidden;
mod kept;
pub mod laws;
mod live;
mod loops;
mod node;
mod noted;
mod onward;
mod passing;
pub mod places;
mod reach;
mod reads;
mod rights;
mod room;
mod search;
mod spent;
mod step;
mod visible;
