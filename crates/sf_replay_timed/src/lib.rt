//! Whether the events of a recording have an order that is legal and respects their times.
#![tactic(auto)]

mod bounds;
mod judging;
mod misses;
mod ordering;
mod ranks;
mod respecting;
mod spans;
mod stages;
mod witness;
mod zones;

pub use judging::{InTime, judge_in_time};
pub use witness::Witness;
