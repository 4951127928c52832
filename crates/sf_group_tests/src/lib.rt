//! Tests of the group, whose words lie in one table, by scripts; of the forms that wait (`wait`); and of hashed keys (`keys`).
//!
//! They stand apart from the crates that they test, since a crate with tests is proved twice.
#![tactic(auto)]

#[cfg(test)]
mod busy;
#[cfg(test)]
mod commands;
#[cfg(test)]
mod keys;
#[cfg(test)]
mod notes;
#[cfg(test)]
mod player;
#[cfg(test)]
mod questions;
#[cfg(test)]
mod random;
#[cfg(test)]
mod replies;
#[cfg(test)]
mod rows;
#[cfg(test)]
mod rows_over_words;
#[cfg(test)]
mod seats;
#[cfg(test)]
mod sharing;
#[cfg(test)]
mod two_threads;
#[cfg(test)]
mod value;
#[cfg(test)]
mod wait;
