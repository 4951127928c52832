//! The words of a keyed group: the steps on its table.
#![tactic(auto)]

pub mod moving;
pub mod opening;
mod rule;
pub mod steps;

pub use rule::{KeyedSizes, Law, Name, View};
