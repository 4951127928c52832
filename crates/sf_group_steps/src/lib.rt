//! The words of a group of callers, and the steps on them.
//!
//! Key, call and next words lie in one table. Its rule, which each step keeps, says that some schedule of turns shows the
//! words, and that each seat knows a beginning of that schedule which has all turns of its own callers (`specs/Shows`).
//! So what a step finds, and what it may do, follows from the laws of schedules.
//!
//! The kinds of step are the functions of `leading`, `joining`, `forgetting`, `settling`, `counting`, `delivering`, `polling` and
//! `questions`, and what they make up is public, as are the loads of `hearing`, by which a seat knows what another knows:
//! they serve the crate of the group alone, whose tokens carry the seats. The plain steps are public for askings with a
//! second caller.
#![tactic(auto)]

mod actor;
mod asking;
mod counting;
mod delivering;
mod forgetting;
mod hands;
mod hearing;
mod joining;
mod leading;
mod numbering;
mod plays;
mod polling;
mod questions;
mod resting;
mod rule;
mod settling;
mod steps;
mod still_current;
mod view;

pub use actor::Actor;
pub use asking::{AskAttempt, ask_often, current_before, is_forgot, opened};
pub use counting::{Tally, settle_and_count};
pub use delivering::Delivery;
pub use forgetting::{ForgetAttempt, forget_often};
pub use hands::hand_out;
pub use hearing::{hear_note, take_in};
pub use numbering::{call_index, key_index, next_index, word_count};
pub use plays::Plan;
pub use polling::collect;
pub use questions::{ask_current, ask_named};
pub use resting::{Resting, Unrested, Wakes};
pub use rule::{Deals, Law, Tells, WordSeat, Words};
pub use steps::{exchange_turns, load_turns, store_turns};
pub use still_current::is_still_current;
pub use view::{Claim, View};
