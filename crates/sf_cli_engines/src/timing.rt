//! What `sfctl check --timed` says of a history that is written as records.

ghost use Rattle.std.specs.Prelude.{◌≡◌};
ghost use Rattle.sf_cli_engines.specs.Timing.{IsTimedCheckOf, timed_ending_of};

use crate::ending::Ending;
use sf_replay::{RecordRefusal, Recording, read_recording};
use sf_replay_timed::{InTime, Witness, judge_in_time};
use std::alloc::Global;
use std::fmt;

/// What is said of the events of a history, by their times.
#[derive(Clone, Copy, PartialEq, Eq)]
pub enum Found {
    /// They have an order that is legal and respects their times, and are this many.
    Legal(u64),
    /// They have no such order.
    NoOrder(Witness),
    /// No such order was found, since the event of this number, from 1, found no place in it.
    Unplaced(u64),
    /// No such order was found.
    Undecided,
}

impl fmt::Display for Found {
    ghost use Rattle.std.specs.Prelude.{Some};
    ghost use Rattle.sf_cli_engines.specs.Timing.{found_text};

    ghost output = { λ found. Some (found_text found) };

    fn fmt<W: fmt::Write>(&self, f: &mut fmt::Formatter<W>) -> fmt::Result {
        match self {
            Found::Legal(events) => write!(f, "legal in time: {events} events"),
            Found::NoOrder(witness) => write!(f, "no order: {witness}"),
            Found::Unplaced(event) => write!(f, "not decided: event {event} found no place"),
            Found::Undecided => write!(f, "not decided"),
        }
    }
}

/// What is said of an input, by the times of its events.
#[derive(Clone, Copy, PartialEq, Eq)]
pub enum TimedChecked {
    /// This is said of all its events.
    Whole(Found),
    /// This many events were lost, and this is said of the others.
    Incomplete(u64, Found),
    /// The line of this number, from 1, is the first that is not a record.
    BadRecord(u64),
    /// Memory was refused.
    OutOfMemory,
}

impl fmt::Display for TimedChecked {
    ghost use Rattle.std.specs.Prelude.{Some};
    ghost use Rattle.sf_cli_engines.specs.Timing.{timed_text};

    ghost output = { λ checked. Some (timed_text checked) };

    fn fmt<W: fmt::Write>(&self, f: &mut fmt::Formatter<W>) -> fmt::Result {
        match self {
            TimedChecked::Whole(found) => write!(f, "{found}"),
            TimedChecked::Incomplete(lost, found) => write!(f, "incomplete: {lost} lost; {found}"),
            TimedChecked::BadRecord(line) => write!(f, "line {line}: not a record"),
            TimedChecked::OutOfMemory => write!(f, "out of memory"),
        }
    }
}

/// Reads records, and looks for an order of their events by their times. One of which events were lost is never called legal.
pub(crate) fn judge_times(alloc: Global, input: &[u8]) -> TimedChecked
    ensures { IsTimedCheckOf input.now result }
{
    let Recording {
        history,
        times,
        lost,
    } = match read_recording(alloc, input) {
        Ok(recording) => recording,
        Err(RecordRefusal::BadRecord(line)) => return TimedChecked::BadRecord(line),
        Err(RecordRefusal::Memory) => return TimedChecked::OutOfMemory,
    };
    let events = history.len() as u64;
    let found = match judge_in_time(alloc, history, times.as_slice()) {
        Ok(InTime::Legal { .. }) => Found::Legal(events),
        Ok(InTime::NoOrder(witness)) => Found::NoOrder(witness),
        Ok(InTime::Undecided(Some(event))) => Found::Unplaced(event),
        Ok(InTime::Undecided(None)) => Found::Undecided,
        Err(_) => return TimedChecked::OutOfMemory,
    };
    match lost {
        0 => TimedChecked::Whole(found),
        lost => TimedChecked::Incomplete(lost, found),
    }
}

/// How the program ends after saying it.
pub(crate) fn ending_in_time(checked: TimedChecked) -> Ending
    ensures { result ≡ timed_ending_of checked }
{
    match checked {
        TimedChecked::Whole(Found::Legal(_)) => Ending::Answered,
        TimedChecked::Whole(Found::NoOrder(_)) => Ending::Illegal,
        TimedChecked::Whole(_) | TimedChecked::Incomplete(..) => Ending::Incomplete,
        TimedChecked::BadRecord(_) | TimedChecked::OutOfMemory => Ending::Refused,
    }
}
