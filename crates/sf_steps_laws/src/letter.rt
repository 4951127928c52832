//! Letters.

use sf_history::CallId;

/// What a leader puts into a member's cell.
#[derive(Drop)]
pub struct Letter<V> {
    /// The number of the place on which the call was led, from 1.
    pub place: u32,
    /// The call that the letter answers.
    pub call: CallId,
    /// What the call was settled with.
    pub value: V,
    /// How many joined the call.
    pub joiners: u32,
}
