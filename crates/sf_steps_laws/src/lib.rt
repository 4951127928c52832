//! Schedules: worlds of words and cells, the turns by which callers ask, settle, forget, poll and question in them, the
//! events that the turns add, and the laws that hold in every schedule.
//!
//! The definitions stand in `specs`. The types are the values that a running world and a running group remember.
#![tactic(auto)]

pub mod laws;
mod letter;
mod operation;
mod turn;

pub use letter::Letter;
pub use operation::{AskStep, CurrentStep, ForgetStep, Op, SettleStep, Stage};
pub use turn::Turn;
