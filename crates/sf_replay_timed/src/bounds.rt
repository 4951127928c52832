//! Bounds of moments, each with the event that makes it.

use crate::witness::{Stop, Witness, number};
use sf_replay::Interval;

/// The time of an event; one without a time can be at any moment.
pub(crate) fn time_of(times: &[Option<Interval>], place: usize) -> Interval {
    match times.get(place) {
        Some(Some(time)) => *time,
        _ => Interval {
            from: 0,
            to: u64::MAX,
        },
    }
}

/// A bound of a moment, and the place of the event that makes it.
#[derive(Clone, Copy)]
pub(crate) struct Bound {
    pub at: u64,
    pub by: usize,
}

/// When the event began: it took effect then or later.
pub(crate) fn start_of(times: &[Option<Interval>], place: usize) -> Bound {
    Bound {
        at: time_of(times, place).from,
        by: place,
    }
}

/// When the event ended: it took effect then or sooner.
pub(crate) fn end_of(times: &[Option<Interval>], place: usize) -> Bound {
    Bound {
        at: time_of(times, place).to,
        by: place,
    }
}

/// The later one.
pub(crate) fn later(bound: Bound, other: Bound) -> Bound {
    if bound.at < other.at { other } else { bound }
}

/// The sooner one.
pub(crate) fn sooner(bound: Bound, other: Bound) -> Bound {
    if other.at < bound.at { other } else { bound }
}

/// What ended at `end` can follow what began at `start`, or the two have no order.
pub(crate) fn may_follow(start: Bound, end: Bound) -> Result<(), Stop> {
    if end.at < start.at {
        return Err(Stop::No(Witness::Reversed {
            first: number(start.by),
            second: number(end.by),
        }));
    }
    Ok(())
}
