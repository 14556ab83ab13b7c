//! What writes a model anew: with the items that its loops can keep, or laid out.
#![tactic(auto)]

mod around;
mod change;
mod fill;
mod filling;
mod flag;
pub mod format;
mod held;
pub mod keeps;
mod kept;
mod parted;
mod refill;
mod row;
mod source;
mod stretch;
