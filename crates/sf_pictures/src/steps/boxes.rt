//! The box of a step.

use crate::svg::{path, rect, text};
use sf_history::Memory;
use std::alloc::Global;

/// What a box shows of its step.
#[derive(Clone, Copy, PartialEq, Eq)]
pub(crate) enum Kind {
    /// A load.
    Load,
    /// A store.
    Store,
    /// An exchange that is done.
    Exchange,
    /// An exchange that failed.
    Failed,
}

/// A box with its text. A load is round, a store plain, an exchange thick; one that failed is dashed, and crossed.
pub(crate) fn step_box(
    alloc: Global,
    svg: &mut String,
    kind: Kind,
    left: usize,
    width: usize,
    middle: usize,
    says: &str,
) -> Result<(), Memory> {
    let (class, round) = match kind {
        Kind::Load => ("load", 13),
        Kind::Store => ("store", 0),
        Kind::Exchange => ("exchange", 0),
        Kind::Failed => ("failed", 0),
    };
    let top = middle.saturating_sub(13);
    rect(svg, class, (left, top), (width, 26), round)?;
    if kind == Kind::Failed {
        let from = left.saturating_add(width).saturating_sub(18);
        let high = middle.saturating_sub(5);
        let cross = format!(in alloc; "M{from} {high}l10 10m0 -10l-10 10")?;
        path(svg, "cross", cross.as_str())?;
    }
    text(
        svg,
        "middle",
        left.saturating_add(width / 2),
        middle.saturating_add(5),
        says,
    )
}
