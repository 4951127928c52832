//! The keyed group: singleflight with Forget whose calls belong to keys.
//!
//! A key is known by its name. A call of a name is led by one caller, joined by others, and settled once; a Forget of the name closes its open call. Hash slot,
//! cell, top and side are words of the group's table. A *cell* has the words of one open call. Each name has a *hash slot*, whose *top* names the call that was
//! led there last. Calls of other names that were led there before and are open still are *aside*, in the slot's *side words*.
#![tactic(auto)]

mod group;
pub mod laws;
pub mod names;

pub use group::{
    Asked, Audience, Claim, Ended, Flight, Forgotten, Front, KeyedGroup, Note, Passed, Refusal,
    Settled, Swept, Ticket,
};
pub use names::Names;
pub use sf_keyed_words::{KeyedSizes, Name};
