//! What an editor asks of a model: what a word means, where it is named, what could be written there, and how it is
//! laid out.
//!
//! Each answer is one of the model's bytes alone, and each function answers any bytes, also those that can't be read: it
//! goes by lines and words, and takes the program where there is one. Of a model with more lines than a program may have
//! those after are not looked at, but for its layout. A line ends with a line feed, also after a carriage return.
#![tactic(auto)]

pub mod actions;
pub mod completion;
mod fixes;
pub mod folding;
pub mod format;
mod forms;
pub mod hover;
mod known;
mod marks;
pub mod names;
mod page;
pub mod place;
pub mod rename;
pub mod symbols;
mod words;
