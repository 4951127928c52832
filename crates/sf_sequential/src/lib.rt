//! The sequential group: the one-thread singleflight with Forget that every other layer is compared with; and what a history
//! says, found by walking its events.
#![tactic(auto)]

mod command;
mod index;
mod indexed;
mod refusal;
mod rows;
mod seq_group;
mod ticket;
pub mod walk;

pub use command::{Asked, ChanAsked, Command, Taken};
pub use index::Index;
pub use refusal::ModelRefusal;
pub use seq_group::SeqGroup;
pub use ticket::Ticket;
