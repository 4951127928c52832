//! Tests of the engines of `sfctl` over streams that fail, and of what the engines stand on (`parts`). What the engines print of an input
//! is tested by `.ci/cases`, and verdicts on events with times by `.ci/orders`: these start the program, and cost no proof.
//!
//! They stand apart from the crates that they test, since a crate with tests is proved twice.
#![tactic(auto)]

#[cfg(test)]
mod failing_streams;
#[cfg(test)]
mod parts;
