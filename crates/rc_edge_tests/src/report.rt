//! Sources and sinks at their limits.

mod engines;
mod readers;
mod writers;
