//! Place numbers, and the words of the lock-free group: what a `u64` of the shared table says of a caller's call, of a
//! key's last call, and of the next member of a joiner list.
#![tactic(auto)]

mod call_word;
mod key_word;
mod limits;
mod next_word;
mod place_no;

pub use call_word::{CallState, CallWord, LeaderState, call_codes_differ, pack_call, unpack_call};
pub use key_word::{KeyState, KeyWord, key_codes_differ, pack_key, unpack_key};
pub use limits::{LARGEST_CALLER, LARGEST_GENERATION, LARGEST_PLACE, LONGEST_KEY};
pub use next_word::{NextWord, next_codes_differ, pack_next, unpack_next};
pub use place_no::PlaceNo;
