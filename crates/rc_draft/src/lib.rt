//! Models that are drafted from replayed logs: text, and notes on what it lacks.
//!
//! No contract says what a draft is: each function is safe, and ends. What is drafted is checked.
#![tactic(auto)]

mod acts;
mod arms;
mod chains;
mod choices;
mod code;
mod comments;
mod component;
mod doings;
pub mod draft;
mod exits;
mod graph;
mod guards;
mod head;
mod items;
mod joins;
mod limits;
mod lines;
mod loop_form;
mod loop_peek;
mod marks;
mod names;
mod piece;
mod results;
mod scopes;
mod source;
mod steps;
mod stretches;
mod structure;
mod tasks;
mod threads;
mod turns;
mod walks;
mod work;
