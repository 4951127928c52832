//! Which exchange made another fail.

use sf_history::Memory;
use sf_steps::{Act, Step};
use sf_text::Outcome;
use std::alloc::Global;

// A word that callers exchange.
#[derive(Clone, Copy, PartialEq, Eq)]
enum Word {
    /// The key word of a place.
    Key(u32),
    /// The call word of a caller.
    Call(u32),
}

// An exchange that was done, at this row.
#[derive(Clone, Copy)]
struct Done {
    word: Word,
    row: usize,
}

/// From the exchange at one row to the one at another that it made fail.
#[derive(Clone, Copy)]
pub(crate) struct Arrow {
    pub(crate) from: usize,
    pub(crate) to: usize,
}

// The word that an act exchanges, and whether the exchange is done.
fn exchanged(act: Act) -> Option<(Word, bool)> {
    match act {
        Act::Lead { place, done, .. } | Act::Clear { place, done, .. } => Some((
            Word::Key(place),
            done,
        )),
        Act::Enter { call, done } | Act::Close { call, done, .. } => Some((
            Word::Call(call.caller),
            done,
        )),
        _ => None,
    }
}

/// Whether the act is an exchange, and then whether it is done.
pub(crate) fn exchange(act: Act) -> Option<bool> {
    match exchanged(act) {
        Some((_, done)) => Some(done),
        None => None,
    }
}

// The last exchange of each word is kept.
fn note(last: &mut Vec<Done>, done: Done) -> Result<(), Memory> {
    for before in last.iter_mut() {
        if before.word == done.word {
            before.row = done.row;
            return Ok(());
        }
    }
    last.push(done)?;
    Ok(())
}

/// An arrow to each exchange that failed, from the last one of its word that was done. A word that a caller has loaded is first
/// changed by an exchange, so since that one it is not what the failing caller had loaded.
pub(crate) fn arrows(alloc: Global, steps: &[Step<Outcome>]) -> Result<Vec<Arrow>, Memory> {
    let mut last: Vec<Done> = Vec::new(alloc);
    let mut arrows = Vec::new(alloc);
    for (row, step) in steps.iter().enumerate() {
        match exchanged(step.act) {
            Some((word, true)) => note(&mut last, Done { word, row })?,
            Some((word, false)) => {
                if let Some(done) = last.iter().find(|done| done.word == word) {
                    arrows.push(Arrow {
                        from: done.row,
                        to: row,
                    })?;
                }
            }
            None => {}
        }
    }
    Ok(arrows)
}
