//! Letters that a getter keeps near: it looks at them before it takes the lock that the caches lie under.
//!
//! `sf_fill` is the fill over them: each getter has a `Near`, and puts there what a cache has answered.
#![tactic(auto)]

mod near;
mod view;

pub use near::Near;
pub use view::NearView;
