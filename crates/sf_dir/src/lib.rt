//! A directory of keys without lock: each key gets a place of its own, for good, and each desk resolves keys with
//! neither waiting nor memory.
//!
//! One table of words holds it all: a word for each place, rows that hold keys, and a counter that draws rows. A desk
//! that meets an empty place on the walk of its key publishes a row there by one exchange; whoever comes later finds
//! it. What desks have published is one list of names, in which no place and no key stands twice, and each desk has
//! seen a beginning of it.
#![tactic(auto)]

mod desk;
mod directory;
mod key_hash;
mod key_row;
mod place;
mod refusal;
mod rule;
mod steps;
mod walk;
mod word_index;

pub use desk::Desk;
pub use directory::{Directory, MOST_DESKS, MOST_KEYS};
pub use place::Place;
pub use refusal::Refusal;
pub use sf_words::LONGEST_KEY;
pub use std::alloc::AllocError as Memory;
