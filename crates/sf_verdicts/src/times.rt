//! Times as people read them.

use sf_history::Memory;
use sf_replay::Interval;
use std::alloc::Global;

/// The unit in which times are written.
#[derive(Clone, Copy, PartialEq, Eq)]
pub enum Unit {
    /// Microseconds.
    Micro,
    /// Milliseconds.
    Milli,
}

// Ten milliseconds: what is longer is written in them.
const LONG: u64 = 10_000_000;

/// The unit for times that are at most this many nanoseconds.
pub fn unit_of(span: u64) -> Unit {
    if span < LONG {
        Unit::Micro
    } else {
        Unit::Milli
    }
}

/// The time of the event at this place.
pub fn time_at(times: &[Option<Interval>], place: usize) -> Option<Interval> {
    *times.get(place)?
}

impl Unit {
    /// Its name.
    pub fn name(self) -> &'static str {
        match self {
            Unit::Micro => "us",
            Unit::Milli => "ms",
        }
    }

    // How many nanoseconds it has.
    fn nanoseconds(self) -> u64 {
        match self {
            Unit::Micro => 1_000,
            Unit::Milli => 1_000_000,
        }
    }

    /// So many nanoseconds in this unit, exactly and with no zeros at the end.
    pub fn text(self, alloc: Global, time: u64) -> Result<String, Memory> {
        let unit = self.nanoseconds();
        let whole = time.checked_div(unit).unwrap_or(0);
        let rest = time.saturating_sub(whole.saturating_mul(unit));
        let mut text = format!(in alloc; "{whole}")?;
        if rest > 0 {
            text.push('.')?;
            push_rest(&mut text, rest, unit)?;
        }
        Ok(text)
    }
}

// Adds the digits behind the point.
fn push_rest(text: &mut String, rest: u64, unit: u64) -> Result<(), Memory> {
    let (mut rest, mut unit) = (rest, unit);
    for _ in 0..6 {
        if rest == 0 {
            return Ok(());
        }
        unit = unit.checked_div(10).unwrap_or(1);
        let digit = rest.checked_div(unit).unwrap_or(0);
        rest = rest.saturating_sub(digit.saturating_mul(unit));
        write!(text, "{digit}")?;
    }
    Ok(())
}
