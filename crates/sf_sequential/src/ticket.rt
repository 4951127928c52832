//! What a caller waits for.

use sf_history::CallId;

/// What a caller waits for: the call, and the member that the caller is of it.
#[derive(Clone, Copy)]
pub struct Ticket {
    pub call: CallId,
    pub member: CallId,
}
