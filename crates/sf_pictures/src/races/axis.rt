//! Where moments lie: each one that an event begins or ends at is right of those before it. Long times take little more room than
//! short ones, time in which nothing happens is folded, and all fits a page.

use sf_history::Memory;
use sf_replay::Interval;
use sf_verdicts::{Unit, time_at, unit_of};
use std::alloc::Global;

/// The left edge of the first moment: the callers stand left of it.
pub(crate) const LEFT: usize = 140;
// The right edge of the last moment, at most.
const RIGHT: usize = 868;
// The least width between two moments, where all have room.
const STEP: usize = 20;
// What each doubling of the time between them adds.
const DOUBLING: usize = 3;
// The width of time that is folded.
const FOLD: usize = 32;
// The width of a picture without moments.
const EMPTY: usize = 360;

/// The moments of a picture.
#[derive(Drop)]
pub(crate) struct Axis {
    /// The moments, the first one first, each once.
    moments: Vec<u64>,
    /// Where each lies.
    places: Vec<usize>,
    /// The middles of the times that are folded.
    pub(crate) folds: Vec<usize>,
}

// The time between two moments.
#[derive(Clone, Copy)]
struct Gap {
    width: usize,
    is_folded: bool,
}

// The times of the events at these places that have one.
fn intervals(
    alloc: Global,
    places: &[usize],
    times: &[Option<Interval>],
) -> Result<Vec<Interval>, Memory> {
    let mut intervals = Vec::new(alloc);
    for place in places {
        if let Some(time) = time_at(times, *place) {
            intervals.push(time)?;
        }
    }
    Ok(intervals)
}

// The moments at which these begin or end, each once.
fn moments(alloc: Global, intervals: &[Interval]) -> Result<Vec<u64>, Memory> {
    let mut moments = Vec::new(alloc);
    for time in intervals {
        moments.push(time.from)?;
        moments.push(time.to)?;
    }
    moments.sort()?;
    moments.dedup();
    Ok(moments)
}

// The width of this time.
fn width_of(time: u64) -> usize {
    let doublings = 64u32.saturating_sub(time.leading_zeros()) as usize;
    doublings.saturating_mul(DOUBLING).saturating_add(STEP)
}

// Whether something lasts from one moment to the other.
fn is_busy(intervals: &[Interval], from: u64, to: u64) -> bool {
    for time in intervals {
        if time.from <= from && to <= time.to {
            return true;
        }
    }
    false
}

// The gap between two moments.
fn gap_between(intervals: &[Interval], from: u64, to: u64) -> Gap {
    let width = width_of(to.saturating_sub(from));
    if is_busy(intervals, from, to) || width <= FOLD {
        return Gap {
            width,
            is_folded: false,
        };
    }
    Gap {
        width: FOLD,
        is_folded: true,
    }
}

// The gaps between the moments.
fn gaps(alloc: Global, intervals: &[Interval], moments: &[u64]) -> Result<Vec<Gap>, Memory> {
    let mut gaps = Vec::new(alloc);
    let mut before: Option<u64> = None;
    for moment in moments {
        if let Some(before) = before {
            gaps.push(gap_between(intervals, before, *moment))?;
        }
        before = Some(*moment);
    }
    Ok(gaps)
}

// The width of all gaps.
fn whole(gaps: &[Gap]) -> usize {
    let mut whole: usize = 0;
    for gap in gaps {
        whole = whole.saturating_add(gap.width);
    }
    whole
}

// The width of a gap where all together have this one: what fits a page.
fn fitted(width: usize, whole: usize) -> usize {
    let room = RIGHT - LEFT;
    if whole <= room {
        return width;
    }
    width
        .saturating_mul(room)
        .checked_div(whole)
        .unwrap_or(width)
        .max(3)
}

impl Axis {
    /// The moments of the events at these places.
    pub(crate) fn new(
        alloc: Global,
        places: &[usize],
        times: &[Option<Interval>],
    ) -> Result<Axis, Memory> {
        let intervals = intervals(alloc, places, times)?;
        let moments = moments(alloc, intervals.as_slice())?;
        let gaps = gaps(alloc, intervals.as_slice(), moments.as_slice())?;
        let whole = whole(gaps.as_slice());
        let mut axis = Axis {
            moments,
            places: Vec::new(alloc),
            folds: Vec::new(alloc),
        };
        axis.places.push(LEFT)?;
        for gap in gaps.iter() {
            axis.place(*gap, whole)?;
        }
        Ok(axis)
    }

    // Lays the moment after a gap.
    fn place(&mut self, gap: Gap, whole: usize) -> Result<(), Memory> {
        let left = self.places.last().copied().unwrap_or(LEFT);
        let width = fitted(gap.width, whole);
        if gap.is_folded {
            self.folds.push(left.saturating_add(width / 2))?;
        }
        self.places.push(left.saturating_add(width))?;
        Ok(())
    }

    /// The first moment, if there is one.
    pub(crate) fn first(&self) -> Option<u64> {
        self.moments.first().copied()
    }

    /// The unit of the times, which are counted from the first moment.
    pub(crate) fn unit(&self) -> Unit {
        let first = self.first().unwrap_or(0);
        let last = self.moments.last().copied().unwrap_or(first);
        unit_of(last.saturating_sub(first))
    }

    /// Where the last moment lies.
    pub(crate) fn right(&self) -> usize {
        match self.places.last() {
            Some(last) if self.places.len() > 1 => *last,
            _ => LEFT + EMPTY,
        }
    }

    /// Where a moment of the axis lies.
    pub(crate) fn at(&self, moment: u64) -> usize {
        let found = self.moments.iter().position(|one| *one == moment);
        match found.and_then(|place| self.places.get(place).copied()) {
            Some(x) => x,
            None => LEFT,
        }
    }
}
