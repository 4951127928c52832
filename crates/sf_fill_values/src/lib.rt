//! The letters of a fill: what its calls are settled with, what a get answers of a letter, and what two caches keep of them.
//!
//! `sf_fill` is the fill over them: it holds the lock under which a `CachedLetters` lies, and names `FillValue`, `View` and `LoadFault` too.
#![tactic(auto)]

mod cached;
mod fault;
mod second;
mod value;
mod view;

pub use cached::CachedLetters;
pub use fault::{GetRefusal, LoadFault, of_key};
pub use second::{InCache, Missed};
pub use value::FillValue;
pub use view::{View, show};
