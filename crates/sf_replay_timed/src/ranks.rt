//! The rank of each event in an order that is legal and respects the times, if one is found.

use crate::bounds::time_of;
use crate::misses::Map;
use crate::spans::{Span, Spans, spans_of};
use crate::witness::Stop;
use crate::zones::{Owner, Zone, zones};
use sf_history::{CallId, Event, Hit};
use sf_replay::Interval;
use std::alloc::Global;

/// What an event is in its zone, in the order in which they stand at one moment.
#[derive(Clone, Copy, PartialEq, Eq, PartialOrd, Ord)]
pub(crate) enum Part {
    Before,
    Begin,
    Enter,
    Close,
    Settle,
    After,
}

/// Where an event stands: its fields are compared in their order.
#[derive(Clone, Copy, PartialEq, Eq, PartialOrd, Ord)]
pub(crate) struct Rank {
    pub moment: u64,
    pub key: usize,
    /// The place of its zone.
    pub zone: usize,
    pub part: Part,
}

// The moment of a call's Settle.
fn settled_at(times: &[Option<Interval>], span: &Span, zone: &Zone) -> u64 {
    let from = match span.settle {
        Some(settle) => time_of(times, settle).from,
        None => 0,
    };
    if span.forgot.is_some() {
        return from.max(zone.ends);
    }
    if span.cleared.is_some() {
        return from.max(zone.begins).max(span.enters_from.at);
    }
    zone.ends
}

// The rank of an event of the call.
fn rank_of_call<K, V>(
    times: &[Option<Interval>],
    span: &Span,
    place: usize,
    zone: &Zone,
    event: (usize, &Event<K, V>),
) -> Rank {
    let from = time_of(times, event.0).from;
    let (moment, part) = match event.1 {
        Event::Lead { .. } => (zone.begins, Part::Begin),
        Event::Enter { .. } => (zone.begins.max(from), Part::Enter),
        Event::Settle { .. } => (settled_at(times, span, zone), Part::Settle),
        Event::Handed { .. } => (settled_at(times, span, zone).max(from), Part::After),
        Event::ForgetCall {
            hit: Hit::Cleared,
            ..
        } => (zone.ends, Part::After),
        _ => (zone.ends, Part::Close),
    };
    Rank {
        moment,
        key: zone.key,
        zone: place,
        part,
    }
}

// The call that an event is of, but for a Forget that missed it.
fn call_of<K, V>(event: &Event<K, V>) -> Option<CallId> {
    match event {
        Event::Forget { closed, .. } => *closed,
        Event::ForgetCall {
            hit: Hit::Missed,
            ..
        } => None,
        Event::Lead { call, .. }
        | Event::Enter { call, .. }
        | Event::ForgetCall { call, .. }
        | Event::Settle { call, .. }
        | Event::Handed { call, .. } => Some(*call),
    }
}

// The rank of an event that is of no call: of an idle Forget that of its zone, which is set later.
fn rank_alone<'a, K: Ord, V>(
    spans: &Spans<'a, K>,
    times: &[Option<Interval>],
    map: &Map,
    place: usize,
    event: &'a Event<K, V>,
) -> Result<Rank, Stop> {
    let from = time_of(times, place).from;
    let alone = Rank {
        moment: from,
        key: 0,
        zone: 0,
        part: Part::Before,
    };
    match map.stand_of(spans, times, place, event)? {
        Some(stand) => {
            let key = match map.zones.get(stand.zone) {
                Some(zone) => zone.key,
                None => 0,
            };
            Ok(Rank {
                moment: stand.moment,
                key,
                zone: stand.zone,
                part: if stand.is_behind {
                    Part::After
                } else {
                    Part::Before
                },
            })
        }
        None => Ok(alone),
    }
}

// The rank of an event; of an idle Forget it is set later.
fn rank_of<'a, K: Ord, V>(
    spans: &Spans<'a, K>,
    times: &[Option<Interval>],
    map: &Map,
    place: usize,
    event: &'a Event<K, V>,
) -> Result<Rank, Stop> {
    if let Some(call) = call_of(event) {
        if let Some(found) = spans.place(call) {
            if let (Some(span), Some((at, zone))) = (spans.all().get(found), map.zone_of(found)) {
                return Ok(rank_of_call(times, span, at, &zone, (place, event)));
            }
        }
    }
    rank_alone(spans, times, map, place, event)
}

// Gives each idle Forget the rank of its zone.
fn rank_idle(ranks: &mut [Rank], zones: &[Zone]) {
    for (place, zone) in zones.iter().enumerate() {
        if let Owner::Idle(event) = zone.owner {
            if let Some(rank) = ranks.get_mut(event) {
                *rank = Rank {
                    moment: zone.begins,
                    key: zone.key,
                    zone: place,
                    part: Part::Begin,
                };
            }
        }
    }
}

/// A rank for each event.
pub(crate) fn ranks<K: Ord, V>(
    alloc: Global,
    events: &[Event<K, V>],
    times: &[Option<Interval>],
) -> Result<Vec<Rank>, Stop> {
    let spans = spans_of(alloc, events, times)?;
    let zones = zones(alloc, events, times, &spans)?;
    let map = Map::new(alloc, zones, spans.all().len())?;
    let mut map = map.with_waits(alloc, &spans, times, events)?;
    map.make_place(&spans, times, events);
    let mut ranks = Vec::with_capacity(alloc, events.len())?;
    for (place, event) in events.iter().enumerate() {
        ranks.push(rank_of(&spans, times, &map, place, event)?)?;
    }
    rank_idle(ranks.as_mut_slice(), map.zones.as_slice());
    Ok(ranks)
}
