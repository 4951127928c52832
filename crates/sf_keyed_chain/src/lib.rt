//! A keyed group that grows: a chain of tables, each larger than the one before. A call is led in the last table that its caller knows, once the
//! name is gone from each older one: its slot there is sealed, and it has no open call there, and never has one again. No call waits while the
//! chain grows, and none is given up.
#![tactic(auto)]

mod chain;
mod front;
pub mod laws;
mod level;
mod sizes;

pub use chain::{Flight, Forgotten, KeyedChain, LEVELS, Reply, Settled, Stamp, Ticket};
pub use front::{ChainFront, ChainNote, Part, Told};
pub use level::Level;
pub use sizes::{larger, sizes_of};
