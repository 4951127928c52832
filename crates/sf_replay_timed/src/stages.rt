//! The stages of a call: its Lead, its Enters, what closed it, its Settle, its Handed and what cleared it.

use crate::bounds::{Bound, end_of, later, may_follow, sooner, start_of};
use crate::spans::Span;
use crate::witness::{Stop, wrong};
use sf_replay::Interval;
use sf_replay_check::Cause;

/// The bounds of the time in which a call keeps others of its key out: it begins at `opens` or sooner, and ends at `closes` or
/// later. What nothing closed never ends.
#[derive(Clone, Copy)]
pub(crate) struct Stay {
    pub opens: Bound,
    pub closes: Option<Bound>,
}

// An event that follows all that began at `low` or sooner, and narrows both bounds.
fn follow(
    times: &[Option<Interval>],
    place: usize,
    low: Bound,
    high: Bound,
) -> Result<(Bound, Bound), Stop> {
    let end = end_of(times, place);
    may_follow(low, end)?;
    Ok((later(low, start_of(times, place)), sooner(high, end)))
}

// The event is there where another is, or is wrong for this cause.
fn needs(place: Option<usize>, other: Option<usize>, cause: Cause) -> Result<(), Stop> {
    match (place, other) {
        (Some(place), None) => wrong(place, cause),
        _ => Ok(()),
    }
}

// What has to hold of the events of a call beside their times.
fn fits(span: &Span) -> Result<(), Stop> {
    needs(span.handed, span.settle, Cause::CallIsNotSettled)?;
    needs(span.cleared, span.settle, Cause::HitIsWrong)?;
    if span.forgot.is_some() {
        if let Some(place) = span.cleared {
            return wrong(place, Cause::HitIsWrong);
        }
    }
    if span.said != span.joiners {
        if let Some(place) = span.settle {
            return wrong(place, Cause::NumberOfJoinersIsWrong);
        }
    }
    Ok(())
}

/// The stay of a call whose events have an order of their own.
pub(crate) fn stay_of(times: &[Option<Interval>], span: &Span) -> Result<Stay, Stop> {
    fits(span)?;
    let low = start_of(times, span.lead);
    may_follow(low, span.enters_to)?;
    let mut low = later(low, span.enters_from);
    let mut high = sooner(end_of(times, span.lead), span.enters_to);
    let mut closes = None;
    if let Some(forgot) = span.forgot {
        (low, high) = follow(times, forgot, low, high)?;
        closes = Some(low);
    }
    if let Some(settle) = span.settle {
        (low, high) = follow(times, settle, low, high)?;
        if span.forgot.is_none() {
            closes = Some(low);
        }
    }
    if let Some(handed) = span.handed {
        let (_, narrowed) = follow(times, handed, low, high)?;
        high = narrowed;
    }
    if let Some(cleared) = span.cleared {
        (low, high) = follow(times, cleared, low, high)?;
        closes = Some(low);
    }
    Ok(Stay {
        opens: high,
        closes,
    })
}
