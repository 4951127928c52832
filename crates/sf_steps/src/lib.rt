//! The step core: the machine of words and cells on which callers ask, settle, forget, poll and question by single
//! atomic steps.
#![tactic(auto)]

mod allowed;
mod asking;
mod caller_row;
mod delivering;
mod events;
mod forgetting;
mod joining;
mod questions;
mod settling;
mod stepping;
mod trace;
mod world;

pub use sf_steps_laws::{
    AskStep, CurrentStep, ForgetStep, Letter, Op, SettleStep, Stage, Turn, laws,
};
pub use trace::{Act, Step};
pub use world::World;
