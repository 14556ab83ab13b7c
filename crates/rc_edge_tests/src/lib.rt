//! Tests of what no command shows: memory that is refused, readers and writers that fail, a program without its model,
//! requests that a disk answers, devices, choosers and gates of other kinds, and what faults say. What the program does is held
//! by `ci/rows.py` and `ci/program.py`. They are above the crates that they test, since a crate with tests is
//! proved twice.
#![tactic(auto)]

#[cfg(test)]
mod admit;
#[cfg(test)]
mod device;
#[cfg(test)]
mod faults;
#[cfg(test)]
mod programs;
#[cfg(test)]
mod refused;
#[cfg(test)]
mod report;
#[cfg(test)]
mod run;
