//! What an index keeps of a caller and of a call.

use crate::ticket::Ticket;
use sf_history::CallId;

/// What is known of a caller.
#[derive(Clone, Copy)]
pub(crate) struct CallerRow {
    /// The call that it leads.
    pub led: Option<CallId>,
    /// The ticket that it holds.
    pub held: Option<Ticket>,
    /// How many generations it has used.
    pub used: u64,
}

/// What is known of a call.
#[derive(Clone, Copy)]
pub(crate) struct CallRow {
    /// How many entered it.
    pub joiners: u32,
    /// The place of its Settle in the history.
    pub settled: Option<usize>,
}
