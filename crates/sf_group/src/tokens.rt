//! The tokens of the calls, and what they are made of.

mod caller;
mod flight;
mod letter;
mod note;
mod seated;
mod settled;
mod ticket;
mod wide;

pub use caller::Caller;
pub use flight::Flight;
pub use letter::Letter;
pub use note::Note;
pub(crate) use seated::{Leader, Seated};
pub use settled::Settled;
pub use ticket::Ticket;
pub(crate) use wide::MaybeNumber;
