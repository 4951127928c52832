//! The calls of a witness that keep others of their key out, and for how long.

use crate::races::axis::{Axis, LEFT};
use sf_history::{CallId, Memory};
use sf_replay::{Interval, TextEvent};
use sf_replay_timed::Witness;
use sf_verdicts::{call_of, place, time_at};
use std::alloc::Global;

/// A call that has to be there from one moment to another.
#[derive(Drop)]
pub(crate) struct Stay {
    /// What is said of it.
    pub(crate) says: String,
    /// Where its line begins.
    pub(crate) left: usize,
    /// Where its line ends.
    pub(crate) right: usize,
    /// Whether it has to be there all the time, and not only at one moment of it.
    pub(crate) lasts: bool,
    /// Whether nothing ended it.
    pub(crate) is_endless: bool,
}

// An event of a call that it begins before, and one that it ends after, if anything ended it.
#[derive(Clone, Copy)]
struct Bounds {
    early: u64,
    late: Option<u64>,
}

// The bounds of the calls that a witness speaks of.
fn bounds_of(witness: Witness) -> [Option<Bounds>; 2] {
    match witness {
        Witness::Wrong { .. } | Witness::Reversed { .. } => [None, None],
        Witness::Crossed {
            early,
            late,
            sooner,
            last,
        } => [
            Some(Bounds {
                early,
                late: Some(last),
            }),
            Some(Bounds {
                early: sooner,
                late: Some(late),
            }),
        ],
        Witness::Within { early, late, .. } | Witness::Missed { early, late, .. } => [
            Some(Bounds {
                early,
                late: Some(late),
            }),
            None,
        ],
        Witness::Unclosed { early, .. } | Witness::StillCurrent { early, .. } => [
            Some(Bounds { early, late: None }),
            None,
        ],
        Witness::BothUnclosed { first, second } => [
            Some(Bounds {
                early: first,
                late: None,
            }),
            Some(Bounds {
                early: second,
                late: None,
            }),
        ],
    }
}

// What is said of the call.
fn stay_text(alloc: Global, witness: Witness, call: CallId) -> Result<String, Memory> {
    Ok(match witness {
        Witness::Missed { .. } | Witness::StillCurrent { .. } => {
            format!(in alloc; "call {call} is current")?
        }
        _ => format!(in alloc; "call {call} keeps other calls out")?,
    })
}

// Where a call has to be there: from the end of an early event of it to the beginning of a late one.
fn stay_between(
    axis: &Axis,
    says: String,
    early: Option<Interval>,
    late: Option<Interval>,
    is_endless: bool,
) -> Stay {
    let from = match early {
        Some(time) => axis.at(time.to),
        None => axis.right(),
    };
    let to = match late {
        _ if is_endless => axis.right(),
        Some(time) => axis.at(time.from),
        None => LEFT,
    };
    Stay {
        says,
        left: from.min(to),
        right: from.max(to),
        lasts: from < to || is_endless,
        is_endless,
    }
}

/// The stays of a witness.
pub(crate) fn stays(
    alloc: Global,
    witness: Witness,
    axis: &Axis,
    events: &[TextEvent],
    times: &[Option<Interval>],
) -> Result<Vec<Stay>, Memory> {
    let mut stays = Vec::new(alloc);
    for bounds in bounds_of(witness) {
        if let Some(bounds) = bounds {
            let early = place(bounds.early);
            if let Some(call) = events.get(early).and_then(|event| call_of(event)) {
                let says = stay_text(alloc, witness, call)?;
                let late = bounds.late.and_then(|late| time_at(times, place(late)));
                let is_endless = bounds.late.is_none();
                let early = time_at(times, early);
                stays.push(stay_between(axis, says, early, late, is_endless))?;
            }
        }
    }
    Ok(stays)
}
