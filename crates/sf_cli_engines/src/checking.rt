//! What `sfctl check` says of a history that is written as records.

ghost use Rattle.std.specs.Prelude.{◌≡◌};
ghost use Rattle.sf_cli_engines.specs.Checking.{IsCheckOf, ending_of};

use crate::ending::Ending;
use sf_replay::{RecordRefusal, Recording, read_recording};
use sf_replay_check::{Cause, Verdict, verdict_on};
use std::alloc::Global;
use std::fmt;

/// What is said of an input.
#[derive(Clone, Copy, PartialEq, Eq)]
pub enum Checked {
    /// Its history is legal and has this many events.
    Legal(u64),
    /// The event of this number, from 1, is the first that may not follow those before it, with its first cause.
    Illegal(u64, Cause),
    /// This many events were lost. The others are a legal history, and this many.
    IncompleteLegal(u64, u64),
    /// This many events were lost. Of the others the event of this number is the first that may not follow, with its cause.
    IncompleteIllegal(u64, u64, Cause),
    /// The line of this number, from 1, is the first that is not a record.
    BadRecord(u64),
    /// Memory was refused.
    OutOfMemory,
}

impl fmt::Display for Checked {
    ghost use Rattle.std.specs.Prelude.{Some};
    ghost use Rattle.sf_cli_engines.specs.Checking.{checked_text};

    ghost output = { λ checked. Some (checked_text checked) };

    fn fmt<W: fmt::Write>(&self, f: &mut fmt::Formatter<W>) -> fmt::Result {
        match self {
            Checked::Legal(events) => write!(f, "legal: {events} events"),
            Checked::Illegal(index, cause) => write!(f, "event {index}: {cause}"),
            Checked::IncompleteLegal(lost, events) => {
                write!(f, "incomplete: {lost} lost; legal: {events} events")
            }
            Checked::IncompleteIllegal(lost, index, cause) => {
                write!(f, "incomplete: {lost} lost; event {index}: {cause}")
            }
            Checked::BadRecord(line) => write!(f, "line {line}: not a record"),
            Checked::OutOfMemory => write!(f, "out of memory"),
        }
    }
}

/// Reads records, and judges the history that they are. One of which events were lost is never called legal.
pub(crate) fn judge(alloc: Global, input: &[u8]) -> Checked
    ensures { IsCheckOf input.now result }
{
    let Recording { history, lost, .. } = match read_recording(alloc, input) {
        Ok(recording) => recording,
        Err(RecordRefusal::BadRecord(line)) => return Checked::BadRecord(line),
        Err(RecordRefusal::Memory) => return Checked::OutOfMemory,
    };
    match (verdict_on(alloc, &history), lost) {
        (Verdict::Legal, 0) => Checked::Legal(history.len() as u64),
        (Verdict::Legal, lost) => Checked::IncompleteLegal(lost, history.len() as u64),
        (Verdict::Illegal { index, cause }, 0) => Checked::Illegal(index, cause),
        (Verdict::Illegal { index, cause }, lost) => Checked::IncompleteIllegal(lost, index, cause),
    }
}

/// How the program ends after saying it.
pub(crate) fn ending(checked: Checked) -> Ending
    ensures { result ≡ ending_of checked }
{
    match checked {
        Checked::Legal(_) => Ending::Answered,
        Checked::Illegal(..) => Ending::Illegal,
        Checked::IncompleteLegal(..) | Checked::IncompleteIllegal(..) => Ending::Incomplete,
        Checked::BadRecord(_) | Checked::OutOfMemory => Ending::Refused,
    }
}
