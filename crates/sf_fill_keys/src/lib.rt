//! How a fill's keys get their places: by a directory, which gives each key one for good; or by a seeded hash, where any
//! number of keys share the places, and a key is told from another by its bytes.
#![tactic(auto)]

mod key_place;
mod key_space;
mod opening;
mod spot;

pub use key_place::KeyPlace;
pub use key_space::{KeyDesk, KeySpace};
pub use opening::{hash_desks, open_directory};
pub use spot::{HashedKey, Spot};
