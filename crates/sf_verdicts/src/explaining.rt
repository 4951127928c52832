//! The events that explain a verdict.

ghost use Rattle.std.specs.Prelude.{◌≡◌, [], ◌∷◌, IfOk};
ghost use Rattle.sf_verdicts.specs.Numbers.{numbers_in, places_of};

use crate::events::call_of;
use crate::numbers::{named, place};
use crate::subject::{Kin, Subject};
use crate::times::time_at;
use sf_history::{CallId, Event, Memory};
use sf_replay::{Interval, TextEvent};
use sf_replay_timed::Witness;
use sf_text::Text;
use std::alloc::Global;

// How many events explain a verdict at most, beside those that it names.
const MOST: usize = 8;
// How many of them are of other calls of the key at most.
const NEIGHBOURS: usize = 2;

/// The events that explain a verdict.
#[derive(Drop)]
pub struct Explained<'a> {
    /// The key, if an event says it.
    pub key: Option<&'a Text>,
    /// The places of the events that the verdict names, in the order in which it names them.
    pub named: Vec<usize>,
    /// The places of others: of the calls that it rests on, and their nearest neighbours of the key. They are in the order of the
    /// record.
    pub others: Vec<usize>,
    /// How many more events of the key there are.
    pub left_out: u64,
}

// An event that may explain a verdict: the least ones do.
#[derive(Clone, Copy, PartialEq, Eq, PartialOrd, Ord)]
struct Candidate {
    kin: Kin,
    /// How long before the nearest named event it ended, or after it began.
    distance: u64,
    /// How many events stand between it and the first one that is named.
    away: usize,
    place: usize,
}

// The events that may explain a verdict, beside those that it names.
fn candidates(
    alloc: Global,
    subject: &Subject<'_>,
    named: &[usize],
    events: &[TextEvent],
    times: &[Option<Interval>],
) -> Result<Vec<Candidate>, Memory> {
    let first = named.first().copied().unwrap_or(0);
    let mut candidates = Vec::new(alloc);
    for (place, event) in events.iter().enumerate() {
        if named.contains(&place) {
            continue;
        }
        if let Some(kin) = subject.kin(event) {
            candidates.push(Candidate {
                kin,
                distance: subject.distance(time_at(times, place)),
                away: place.abs_diff(first),
                place,
            })?;
        }
    }
    candidates.sort()?;
    Ok(candidates)
}

// The places of the first of these, in the order of the record.
fn nearest(alloc: Global, candidates: &[Candidate]) -> Result<Vec<usize>, Memory> {
    let mut places = Vec::new(alloc);
    let mut neighbours: usize = 0;
    for candidate in candidates.iter() {
        if candidate.kin == Kin::OfItsKey {
            if neighbours == NEIGHBOURS {
                break;
            }
            neighbours = neighbours.saturating_add(1);
        }
        if places.len() == MOST {
            break;
        }
        places.push(candidate.place)?;
    }
    places.sort()?;
    Ok(places)
}

// What explains a verdict that names these events.
fn with_others<'a>(
    alloc: Global,
    subject: Subject<'a>,
    named: Vec<usize>,
    events: &'a [TextEvent],
    times: &[Option<Interval>],
) -> Result<Explained<'a>, Memory>
    ensures { IfOk result (λ explained. explained.named ≡ named) }
{
    let candidates = candidates(alloc, &subject, named.as_slice(), events, times)?;
    let others = nearest(alloc, candidates.as_slice())?;
    let left_out = candidates.len().saturating_sub(others.len()) as u64;
    Ok(Explained {
        key: subject.key,
        named,
        others,
        left_out,
    })
}

/// What explains that events have no order: those that the witness names, the others of their calls, and the nearest ones of the
/// key. At most eight stand beside those that are named.
pub fn explain_witness<'a>(
    alloc: Global,
    witness: Witness,
    events: &'a [TextEvent],
    times: &[Option<Interval>],
) -> Result<Explained<'a>, Memory>
    ensures { IfOk result (λ explained. explained.named.items ≡ places_of (numbers_in witness)) }
{
    let named = named(alloc, witness)?;
    let subject = Subject::new(alloc, named.as_slice(), events, times)?;
    with_others(alloc, subject, named, events, times)
}

// The call that was led last on the key.
fn last_led(events: &[TextEvent], wanted: &Text) -> Option<CallId> {
    let mut last = None;
    for event in events {
        if let Event::Lead { key, call, .. } = event {
            if key == wanted {
                last = Some(*call);
            }
        }
    }
    last
}

// The call, member or own channel that an event names as a new one, beside the call that it is of.
fn new_name(event: &TextEvent) -> Option<CallId> {
    match event {
        Event::Lead { own, .. } => *own,
        Event::Enter { member, .. } => Some(*member),
        _ => None,
    }
}

// Whether the event names this as a call, a member or an own channel.
fn names(event: &TextEvent, wanted: CallId) -> bool {
    new_name(event) == Some(wanted) || call_of(event) == Some(wanted)
}

// The call of the first of these events that names this.
fn first_of(events: &[TextEvent], wanted: CallId) -> Option<CallId> {
    for event in events {
        if names(event, wanted) {
            return call_of(event);
        }
    }
    None
}

// Adds the calls that the first fault of a history can rest on beside its own: that which was led last on its key, and those that
// had its names before it.
fn rest(subject: &mut Subject<'_>, before: &[TextEvent], event: &TextEvent) -> Result<(), Memory> {
    let last = match subject.key {
        Some(key) => last_led(before, key),
        None => None,
    };
    let called = call_of(event).and_then(|call| first_of(before, call));
    let named = new_name(event).and_then(|name| first_of(before, name));
    for call in [last, called, named] {
        if let Some(call) = call {
            subject.rest_on(call)?;
        }
    }
    Ok(())
}

/// What explains that the event of this number, counted from 1, may not follow those before it: that event, and before it those of
/// its call, those of the call that was led last on its key, and the nearest ones of the key. At most eight stand beside it.
pub fn explain_fault(
    alloc: Global,
    index: u64,
    events: &[TextEvent],
) -> Result<Explained<'_>, Memory>
    ensures { IfOk result (λ explained. explained.named.items ≡ places_of (index ∷ [])) }
{
    let at = place(index);
    let named: Vec<usize> = vec![in alloc; at]?;
    let until = events.get(..at.saturating_add(1)).unwrap_or(events);
    let mut subject = Subject::new(alloc, named.as_slice(), until, &[])?;
    if let (Some(before), Some(event)) = (events.get(..at), events.get(at)) {
        rest(&mut subject, before, event)?;
    }
    with_others(alloc, subject, named, until, &[])
}
