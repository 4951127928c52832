//! What a program in another language holds of a keyed group that grows: handles, of which each thread has its own, and calls, each of which asks for
//! one key at a time. What a call did is a row of `specs/Rows`.
#![tactic(auto)]

mod asking;
mod session;
mod shared;

pub use asking::{Asking, Token};
pub use session::{Answered, Id, Leaving, Looking, Session, Settling, Size, id_of};
pub use shared::Shared;
