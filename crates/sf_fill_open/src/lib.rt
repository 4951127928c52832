//! One call that makes a fill, for who has loaders and something to do with getters.
//!
//! Implement [`Body`] for a struct of your own, and hand it to [`with_fill`] with a set of loaders for each getter. The names
//! under which contracts speak of the fill's key space, its group and its ledgers are picked inside, and last as long as
//! the body runs. A body that wants threads is a [`Team`]: [`with_team`] gives each getter a thread of its own.
#![tactic(auto)]

mod body;
mod door;
mod sizes;
mod team;

pub use body::Body;
pub use door::with_fill;
pub use sf_fill::Keeps;
pub use sf_keys_places::Places;
pub use sizes::{DirectoryKeys, FillSizes, Keys, NEAR, NEAR_BYTES};
pub use team::{Team, with_team};
