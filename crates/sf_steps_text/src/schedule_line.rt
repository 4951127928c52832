//! The lines of schedules.

use sf_steps_laws::Op;
use sf_text::Outcome;

/// What a line of a schedule says.
#[derive(Drop)]
pub enum ScheduleLine {
    /// The caller starts the operation.
    Do { caller: u32, op: Op<Outcome> },
    /// The caller's operation makes so many steps, 1 to 1,000.
    Steps { caller: u32, count: u32 },
    /// The caller leaves its operation.
    Drop { caller: u32 },
}
