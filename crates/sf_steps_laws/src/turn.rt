//! Turns.

use crate::operation::Op;

/// What a schedule is a list of: an operation is started, makes its next step, or is left.
#[derive(Drop)]
pub enum Turn<V> {
    /// The caller starts the operation.
    Start { caller: u32, op: Op<V> },
    /// The caller's operation makes its next step.
    Step { caller: u32 },
    /// The caller leaves its operation, right after a failed exchange.
    Leave { caller: u32 },
}
