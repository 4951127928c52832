//! The table of calls: how each call of a group of callers ends, over what its tokens have seen.
//!
//! A group offers calls over tokens of its own. Their results are the enums here, generic in the tokens, and their
//! contracts are the rows in `specs/`, one record a case, over what contracts see of tokens (`specs/Tokens`). So what stands
//! above the group does not see how that is made, and the forms that wait have the very same rows.
//!
//! A token has *seen* a list of events, which is a beginning of the group's history. A call adds to it: `Adds` in
//! `specs/Seen` says what.
#![tactic(auto)]

mod fit;
mod limits;
mod outcomes;
mod sizes;

pub use fit::Fit;
pub use limits::{GREATEST_GENERATION, MOST_CALLERS, MOST_PLACES};
pub use outcomes::{Begun, Busy, ChanBegun, Finished, NotBegun, Polled, Spent};
pub use sizes::Sizes;
