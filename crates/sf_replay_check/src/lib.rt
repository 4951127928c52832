//! The checker of histories: whether a history is legal, and where it is not, its first fault.
#![tactic(auto)]

mod cause;
mod checking;
mod faults;
mod index;
mod past;
mod row;
mod walk;

pub use cause::Cause;
pub use checking::{
    Verdict, check, check_indexed, histories_have_one_verdict, no_cause_may_follow, verdict_on,
};
