//! Places of keys without a directory: a key's place is a seeded hash of its bytes.
//!
//! Any number of keys come and go, and nothing is kept of one that nobody asks for; but two keys may have one place. So a
//! value that calls are settled with knows its key (`OfKey`), and a caller that joins a call compares the value's key with
//! its own.
#![tactic(auto)]

mod hashing;
mod of_key;
mod places;

pub use of_key::OfKey;
pub use places::Places;
