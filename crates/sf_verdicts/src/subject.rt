//! What is known of the events that a verdict names, and what another event is to them.

use crate::events::{call_of, key_of};
use crate::times::time_at;
use sf_history::{CallId, Event, Memory};
use sf_replay::{Interval, TextEvent};
use sf_text::Text;
use std::alloc::Global;
use std::collections::BTreeMap;

/// What an event is to those that are named, the nearest first.
#[derive(Clone, Copy, PartialEq, Eq, PartialOrd, Ord)]
pub(crate) enum Kin {
    /// It is of a call of a named event, and no Enter.
    OfItsCall,
    /// It is an Enter of such a call.
    EntersItsCall,
    /// It is of the key alone.
    OfItsKey,
}

/// What is known of the events that are named.
#[derive(Drop)]
pub(crate) struct Subject<'a> {
    pub(crate) key: Option<&'a Text>,
    /// The calls of the events that are named, and others that the verdict rests on.
    calls: Vec<CallId>,
    /// The calls that were led on the key.
    led: BTreeMap<(u32, u32), ()>,
    /// The times of the events that are named.
    times: Vec<Interval>,
}

// How much time lies between two intervals.
fn between(first: Interval, second: Interval) -> u64 {
    let before = second.from.saturating_sub(first.to);
    first.from.saturating_sub(second.to).max(before)
}

// The key that the call was led on.
fn key_of_call<'a>(events: &'a [TextEvent], wanted: CallId) -> Option<&'a Text> {
    for event in events {
        if let Event::Lead { key, call, .. } = event {
            if *call == wanted {
                return Some(key);
            }
        }
    }
    None
}

// The key of the first of these events that has one, itself or by the Lead of its call.
fn key_of_named<'a>(events: &'a [TextEvent], named: &[usize]) -> Option<&'a Text> {
    for place in named {
        if let Some(event) = events.get(*place) {
            let key = key_of(event);
            if key.is_some() {
                return key;
            }
            if let Some(call) = call_of(event) {
                let key = key_of_call(events, call);
                if key.is_some() {
                    return key;
                }
            }
        }
    }
    None
}

// The calls that were led on the key.
fn led_on(
    alloc: Global,
    events: &[TextEvent],
    wanted: &Text,
) -> Result<BTreeMap<(u32, u32), ()>, Memory> {
    let mut led = BTreeMap::new(alloc);
    for event in events {
        if let Event::Lead { key, call, .. } = event {
            if key == wanted {
                led.insert((call.caller, call.generation), ())?;
            }
        }
    }
    Ok(led)
}

impl<'a> Subject<'a> {
    /// What is known of the events at these places.
    pub(crate) fn new(
        alloc: Global,
        named: &[usize],
        events: &'a [TextEvent],
        times: &[Option<Interval>],
    ) -> Result<Subject<'a>, Memory> {
        let key = key_of_named(events, named);
        let led = match key {
            Some(key) => led_on(alloc, events, key)?,
            None => BTreeMap::new(alloc),
        };
        let mut calls = Vec::new(alloc);
        let mut named_times = Vec::new(alloc);
        for place in named {
            if let Some(time) = time_at(times, *place) {
                named_times.push(time)?;
            }
            if let Some(call) = events.get(*place).and_then(|event| call_of(event)) {
                calls.push(call)?;
            }
        }
        Ok(Subject {
            key,
            calls,
            led,
            times: named_times,
        })
    }

    /// The verdict rests on this call too.
    pub(crate) fn rest_on(&mut self, call: CallId) -> Result<(), Memory> {
        self.calls.push(call)?;
        Ok(())
    }

    // Whether the event is of the key.
    fn is_of_key(&self, event: &TextEvent) -> bool {
        match (key_of(event), self.key, call_of(event)) {
            (Some(key), Some(wanted), _) => key == wanted,
            (None, _, Some(call)) => self.led.contains_key(&(call.caller, call.generation)),
            _ => false,
        }
    }

    /// How much time lies between the event of this time and the nearest named one; none where that is not known.
    pub(crate) fn distance(&self, time: Option<Interval>) -> u64 {
        let Some(time) = time else {
            return 0;
        };
        let mut least: Option<u64> = None;
        for named in self.times.iter() {
            let distance = between(time, *named);
            least = Some(least.unwrap_or(distance).min(distance));
        }
        least.unwrap_or(0)
    }

    /// What an event that is not named is to those that are, if it is of their key or of a call that the verdict rests on.
    pub(crate) fn kin(&self, event: &TextEvent) -> Option<Kin> {
        if let Some(call) = call_of(event) {
            if self.calls.contains(&call) {
                return Some(match event {
                    Event::Enter { .. } => Kin::EntersItsCall,
                    _ => Kin::OfItsCall,
                });
            }
        }
        if self.is_of_key(event) {
            Some(Kin::OfItsKey)
        } else {
            None
        }
    }
}
