//! Logs, held to a program from their first line to their last, and what is printed of them.

pub mod answer;
pub mod answers;
pub mod ending;
pub mod following;
pub mod logs;
pub mod object;
mod places_text;
pub mod printed;
mod stuck;
pub mod telling;
mod unmade;
mod why;
