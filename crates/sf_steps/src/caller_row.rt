//! The row of a caller in the running world.

ghost use Rattle.std.specs.Prelude.{◌≡◌, IfOk, replicate};
ghost use Rattle.sf_steps.specs.Rows.{first_row};

use sf_history::Memory;
use sf_steps_laws::{Letter, Stage};
use sf_words::CallState;
use std::alloc::Global;

/// The words of a caller, what is in its cell, its next generation, and what it is about.
#[derive(Drop)]
pub(crate) struct CallerRow<V> {
    pub(crate) call: CallState,
    pub(crate) next: Option<u32>,
    pub(crate) cell: Option<Letter<V>>,
    pub(crate) generation: u64,
    pub(crate) stage: Stage<V>,
}

// The row of a caller that has done nothing yet.
fn first_row<V: Drop>() -> CallerRow<V>
    ensures { result ≡ first_row }
{
    CallerRow {
        call: CallState::Free,
        next: None,
        cell: None,
        generation: 1,
        stage: Stage::Free,
    }
}

/// The rows of callers that have done nothing yet.
pub(crate) fn first_rows<V: Drop>(alloc: Global, len: usize) -> Result<Vec<CallerRow<V>>, Memory>
    ensures { IfOk result (λ rows. rows.items ≡ replicate len first_row) }
{
    let mut rows = Vec::new(alloc);
    for _i in 0..len {
        rows.push(first_row())?;
    }
    Ok(rows)
}
