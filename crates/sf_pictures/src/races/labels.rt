//! What stands at the bar of an event.

use crate::races::axis::Axis;
use crate::svg::cut;
use sf_history::{CallId, Event, Memory};
use sf_replay::{Interval, TextEvent};
use sf_text::{Outcome, Text};
use std::alloc::Global;

// How many characters of a value are drawn.
const VALUE: usize = 16;
// How many characters of a key are drawn.
const KEY: usize = 48;

/// A key with how many bytes it has, where it is cut.
pub(crate) fn key_text(alloc: Global, key: &Text) -> Result<String, Memory> {
    let cut = cut(alloc, key.as_str(), KEY)?;
    if cut.as_str() == key.as_str() {
        return Ok(cut);
    }
    let bytes = key.as_str().len();
    Ok(format!(in alloc; "{cut} ({bytes} bytes)")?)
}

// What a call is settled with.
fn outcome_text(alloc: Global, outcome: &Outcome) -> Result<String, Memory> {
    match outcome {
        Ok(value) => cut(alloc, value.as_str(), VALUE),
        Err(error) => {
            let error = cut(alloc, error.as_str(), VALUE)?;
            Ok(format!(in alloc; "error {error}")?)
        }
    }
}

// What a Lead says.
fn lead_text(alloc: Global, call: CallId, own: Option<CallId>) -> Result<String, Memory> {
    Ok(match own {
        Some(own) => format!(in alloc; "lead {call} own={own}")?,
        None => format!(in alloc; "lead {call}")?,
    })
}

// What an event says, but for its key.
fn event_text(alloc: Global, event: &TextEvent) -> Result<String, Memory> {
    Ok(match event {
        Event::Lead { call, own, .. } => lead_text(alloc, *call, *own)?,
        Event::Enter { call, member, .. } => format!(in alloc; "enter {call} {member}")?,
        Event::Forget { closed, .. } => match closed {
            Some(call) => format!(in alloc; "forget closed {call}")?,
            None => format!(in alloc; "forget idle")?,
        },
        Event::ForgetCall { call, hit, .. } => format!(in alloc; "forgetcall {call} {hit}")?,
        Event::Settle {
            call,
            result,
            joiners,
            ..
        } => {
            let outcome = outcome_text(alloc, result)?;
            format!(in alloc; "settle {call} {outcome} joiners={joiners}")?
        }
        Event::Handed { call, .. } => format!(in alloc; "handed {call}")?,
    })
}

/// The number of the event, counted from 1, and what it says; its key too, where that is another one than the witness's.
pub(crate) fn label(
    alloc: Global,
    place: usize,
    event: &TextEvent,
    other_key: Option<&Text>,
) -> Result<String, Memory> {
    let number = place.saturating_add(1);
    let says = event_text(alloc, event)?;
    Ok(match other_key {
        Some(key) => {
            let key = cut(alloc, key.as_str(), VALUE)?;
            format!(in alloc; "{number}: {says} of key {key}")?
        }
        None => format!(in alloc; "{number}: {says}")?,
    })
}

/// The time of an event, counted from the first moment of the picture, in its unit.
pub(crate) fn time_text(
    alloc: Global,
    time: Option<Interval>,
    axis: &Axis,
) -> Result<String, Memory> {
    let Some(time) = time else {
        return Ok(format!(in alloc; "at any moment")?);
    };
    let first = axis.first().unwrap_or(0);
    let unit = axis.unit();
    let from = unit.text(alloc, time.from.saturating_sub(first))?;
    let to = unit.text(alloc, time.to.saturating_sub(first))?;
    Ok(format!(in alloc; "{from} to {to}")?)
}
