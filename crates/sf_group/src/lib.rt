//! A group of callers that ask for places, over words and without a lock: singleflight with Forget for callers on their
//! own threads.
//!
//! A caller asks for a place and leads a new call, or joins the place's open one and waits for its letter. No call waits:
//! `begin`, `forget` and `forget_call` try as often as they are told and else answer that the group is busy, and `finish`
//! settles within one try more than there are callers. Letters lie in cells of the group's table, one a caller: the
//! leader writes its members' cells, and each takes its letter by `poll`. What a caller has seen is a beginning of one
//! legal history of the group, and the contract of each call says what it adds to it, by the table of calls in
//! `sf_group_rows`.
//!
//! # The tokens
//!
//! `Group::new` makes the callers, all of them `Caller`. Each call takes a token and gives the one that stands for what
//! its caller is then:
//!
//! | Call | Takes | Gives |
//! | --- | --- | --- |
//! | `begin` | `Caller` | `Flight` where it leads a new call, `Ticket` where it joins the open one |
//! | `begin_chan` | two `Caller`s | `Flight` and the second's `Ticket`; or the second's `Ticket`, and the first is free |
//! | `forget` | `&mut Caller` | the call that it closed, or `Idle` |
//! | `forget_call` | `&mut Caller` and a call | whether it closed the call, cleared it or missed it |
//! | `finish` | `Flight` and the value | `Caller` and the leader's `Letter`; or `Settled` |
//! | `go_on` | `Settled` | `Caller` and the leader's `Letter`; or `Settled` again |
//! | `poll` | `Ticket` | `Caller` and its `Letter`; or the `Ticket` again |
//! | `rest` | `&Ticket` | nothing; it alone may wait |
//! | `settle` | as `finish` | the same; `Settled` wherever another is owed a letter |
//! | `go_on_unrested` | as `go_on` | the same, and wakes nobody who rests |
//! | `is_current` | `&mut Caller` and `&mut Letter` | whether the letter's call is its place's current one |
//! | `is_still_current` | any of the tokens, a place and a call | whether that call is the place's current one |
//! | `named` | `&mut Caller` | the call that the place names, to forget that alone |
//!
//! `finish` answers `Done` where nobody is owed a letter, or all letters could be copied, and `Held` where memory for a
//! copy was refused: the call is settled then, and `go_on` delivers the rest. The first two calls refuse a caller that
//! has used its last generation as `Spent`, and the first four answer `Busy` after the tries that they are told; what
//! was handed over comes back.
//!
//! A `Flight`, a `Settled` and a `Ticket` have to be spent: by a call of the table, or by `abandon`, after which their
//! caller does not come back. Notes carry what one has seen to another: `tell` makes one, `learn` takes it in, `again`
//! makes another of it, and each letter has one. A value may carry a fact (`Fit`), which each letter brings.
#![tactic(auto)]

mod asking;
mod forgetting;
mod group;
mod notes;
mod outcomes;
mod polling;
mod questions;
mod settling;
mod tokens;

pub use group::{Group, MOST_TRIES};
pub use outcomes::{Begun, ChanBegun, Finished, Polled};
pub use sf_group_rows::{Busy, Fit, MOST_CALLERS, MOST_PLACES, NotBegun, Sizes, Spent};
pub use sf_history::{CallId, Event, Forgotten, Hit, Memory, Share};
pub use tokens::{Caller, Flight, Letter, Note, Settled, Ticket};
