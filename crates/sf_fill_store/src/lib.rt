//! What the getters of a fill share: the group that they ask, the letters that two caches keep, and what all have counted.
//!
//! `sf_fill` is the fill over it: it finds the place of a key, looks at what a getter keeps near, and else looks and asks here.
#![tactic(auto)]

mod ask;
mod forget;
mod load;
mod log;
mod look;
mod standing;
mod store;

pub use ask::FillAsked;
pub use forget::Forgot;
pub use log::Log;
pub use standing::Standing;
pub use store::Store;
