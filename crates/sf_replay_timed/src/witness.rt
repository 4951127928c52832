//! Events that no order explains.

use sf_history::Memory;
use sf_replay_check::Cause;
use std::alloc::AllocFailed;
use std::fmt;

/// Why no order of the events is legal and respects their times. Events are named by their numbers, counted from 1.
#[derive(Clone, Copy, PartialEq, Eq)]
pub enum Witness {
    /// The event may follow no order of the others, for this cause.
    Wrong {
        /// The event.
        event: u64,
        /// Why.
        cause: Cause,
    },
    /// Legality asks that `second` follows `first`, and `second` ended before `first` began.
    Reversed {
        /// The event that has to come first.
        first: u64,
        /// The event that has to follow it.
        second: u64,
    },
    /// Two calls of a key were open at once: neither can come before the other as a whole.
    Crossed {
        /// An event of the first call, which ended before `late` began.
        early: u64,
        /// An event of the second call.
        late: u64,
        /// An event of the second call, which ended before `last` began.
        sooner: u64,
        /// An event of the first call.
        last: u64,
    },
    /// A Forget found no open call, between two events of a call of its key.
    Within {
        /// The Forget.
        forget: u64,
        /// An event of the call, which ended before the Forget began.
        early: u64,
        /// An event of the call, which began after the Forget ended.
        late: u64,
    },
    /// A call that nothing closed, and an event of its key that has to come before the call.
    Unclosed {
        /// An event of the call, which ended before `late` began.
        early: u64,
        /// The event that has to come before the call.
        late: u64,
    },
    /// Two calls of a key that nothing closed.
    BothUnclosed {
        /// An event of one.
        first: u64,
        /// An event of the other.
        second: u64,
    },
    /// A Forget of one call missed it, between two events of the call while it was current.
    Missed {
        /// The Forget.
        forget: u64,
        /// An event of the call, which ended before the Forget began.
        early: u64,
        /// An event of the call, which began after the Forget ended.
        late: u64,
    },
    /// A Forget of one call missed it, though the call was current from before the Forget to after it.
    StillCurrent {
        /// The Forget.
        forget: u64,
        /// An event of the call, which ended before the Forget began.
        early: u64,
    },
}

impl fmt::Display for Witness {
    ghost use Rattle.std.specs.Prelude.{Some};
    ghost use Rattle.sf_replay_timed.specs.Witnesses.{witness_text};

    ghost output = { λ w. Some (witness_text w) };

    fn fmt<W: fmt::Write>(&self, f: &mut fmt::Formatter<W>) -> fmt::Result {
        match self {
            Witness::Wrong { event, cause } => write!(f, "event {event}: {cause}"),
            Witness::Reversed { first, second } => write!(
                f,
                "event {second} has to follow event {first}, and ended before it began"
            ),
            Witness::Crossed {
                early,
                late,
                sooner,
                last,
            } => write!(
                f,
                "two calls were open at once: event {early} ended before event {late} began, and event {sooner} before event {last}"
            ),
            Witness::Within {
                forget,
                early,
                late,
            } => write!(
                f,
                "event {forget} found no open call, between events {early} and {late} of one"
            ),
            Witness::Unclosed { early, late } => write!(
                f,
                "the call of event {early} was not closed, and event {early} ended before event {late} began"
            ),
            Witness::BothUnclosed { first, second } => write!(
                f,
                "the calls of events {first} and {second} were not closed"
            ),
            Witness::Missed {
                forget,
                early,
                late,
            } => write!(
                f,
                "event {forget} missed its call, between events {early} and {late} of it"
            ),
            Witness::StillCurrent { forget, early } => write!(
                f,
                "event {forget} missed its call, which was current since event {early}"
            ),
        }
    }
}

/// Why the search for an order stops.
#[derive(Drop)]
pub(crate) enum Stop {
    /// There is none.
    No(Witness),
    /// The event of this number, counted from 1, found no place, and may have one.
    Undecided(u64),
    /// Memory was refused.
    Memory,
}

impl From<Memory> for Stop {
    fn from(_refused: Memory) -> Stop {
        Stop::Memory
    }
}

impl<T: Drop> From<AllocFailed<T>> for Stop {
    fn from(_refused: AllocFailed<T>) -> Stop {
        Stop::Memory
    }
}

/// The number of an event, counted from 1, of its place, counted from 0.
pub(crate) fn number(place: usize) -> u64 {
    (place as u64).saturating_add(1)
}

/// The search stops at this event, which is wrong for this cause whatever the order is.
pub(crate) fn wrong<T>(place: usize, cause: Cause) -> Result<T, Stop> {
    Err(Stop::No(Witness::Wrong {
        event: number(place),
        cause,
    }))
}
