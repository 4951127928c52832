//! The load path of a cache fill: which loaders are asked for a value that no cache has, in which order, and what is
//! counted of it.
//!
//! The path is groupcache's: the peer that the picker names is asked first, and where there is none, or it fails, the
//! local getter. [`load_once`] runs it once, over four loaders that its caller hands in as [`Loaders`]; a fill takes any
//! [`LoadPath`].
#![tactic(auto)]

mod counts;
mod faults;
mod given;
mod load_path;
pub mod scripted;
mod traits;

pub use counts::{Counts, Source};
pub use faults::{LocalFault, PeerFault};
pub use given::Given;
pub use load_path::{LoadPath, Loaders, load_once};
pub use traits::{Chance, Local, Origin, Peer, Picker};
