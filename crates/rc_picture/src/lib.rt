//! The picture of a run, as SVG: where things are, what is drawn of them in which layer, and the file.
#![tactic(auto)]

mod canvas;
mod columns;
pub mod drawing;
mod fault;
mod file;
mod gauges;
mod groups;
mod head;
mod layers;
mod legend;
mod picture;
mod requests;
mod rings;
mod rows;
mod turns;
