//! Runs of small programs on threads.

mod examples;
mod runner;
