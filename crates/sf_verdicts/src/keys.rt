//! The keys that have a fault: each is judged by its own events. What is found is tested, and no clause speaks of it.

ghost use Rattle.std.specs.Prelude.{◌≡◌, IfOk, vec_len};

use crate::events::{call_of, key_of};
use crate::numbers::place;
use crate::times::time_at;
use sf_history::{CallId, Event, History, Memory};
use sf_replay::{Interval, TextEvent};
use sf_replay_check::{Cause, Verdict, verdict_on};
use sf_replay_timed::{InTime, Witness, judge_in_time};
use sf_text::Text;
use std::alloc::Global;
use std::collections::BTreeMap;
use std::fmt;

/// What is wrong with the events of a key. Events are named by their numbers in the whole history, counted from 1.
#[derive(Clone, Copy)]
pub enum Fault {
    /// The event may not follow those before it, and this is the first one that may not.
    First {
        /// The event.
        event: u64,
        /// Why.
        cause: Cause,
    },
    /// They have no order that is legal and respects their times.
    NoOrder(Witness),
    /// No such order was found, since this event found no place, if one did not.
    Undecided(Option<u64>),
}

impl fmt::Display for Fault {
    fn fmt<W: fmt::Write>(&self, f: &mut fmt::Formatter<W>) -> fmt::Result {
        match self {
            Fault::First { event, cause } => write!(f, "event {event}: {cause}"),
            Fault::NoOrder(witness) => write!(f, "no order: {witness}"),
            Fault::Undecided(Some(event)) => {
                write!(f, "not decided: event {event} found no place")
            }
            Fault::Undecided(None) => f.write_str("not decided"),
        }
    }
}

/// A key with a fault.
#[derive(Drop)]
pub struct KeyFault<'a> {
    /// The key; none for events of calls that nobody led.
    pub key: Option<&'a Text>,
    /// Its fault.
    pub fault: Fault,
}

/// The keys that have a fault, in the order in which they come up.
#[derive(Drop)]
pub struct KeyFaults<'a> {
    /// A fault of each.
    pub faults: Vec<KeyFault<'a>>,
    /// How many keys there are.
    pub keys: u64,
}

// The events of one key.
#[derive(Drop)]
struct Group<'a> {
    key: Option<&'a Text>,
    places: Vec<usize>,
}

// The events by their keys.
#[derive(Drop)]
struct Groups<'a> {
    groups: Vec<Group<'a>>,
    /// For each key its group.
    of_keys: BTreeMap<&'a Text, usize>,
    /// For each call that was led the group of its key.
    of_calls: BTreeMap<(u32, u32), usize>,
    /// The group of calls that nobody led, if there is one.
    without: Option<usize>,
}

impl<'a> Groups<'a> {
    // A new group.
    fn add(&mut self, alloc: Global, key: Option<&'a Text>) -> Result<usize, Memory> {
        let group = self.groups.len();
        self.groups.push(Group {
            key,
            places: Vec::new(alloc),
        })?;
        Ok(group)
    }

    // The group of a key.
    fn of_key(&mut self, alloc: Global, key: &'a Text) -> Result<usize, Memory> {
        if let Some(group) = self.of_keys.get(&key) {
            return Ok(*group);
        }
        let group = self.add(alloc, Some(key))?;
        self.of_keys.insert(key, group)?;
        Ok(group)
    }

    // The group of an event that says no key.
    fn of_call(&mut self, alloc: Global, call: Option<CallId>) -> Result<usize, Memory> {
        if let Some(call) = call {
            if let Some(group) = self.of_calls.get(&(call.caller, call.generation)) {
                return Ok(*group);
            }
        }
        if let Some(group) = self.without {
            return Ok(group);
        }
        let group = self.add(alloc, None)?;
        self.without = Some(group);
        Ok(group)
    }

    // Notes the key of the call that an event leads.
    fn note_lead(&mut self, alloc: Global, event: &'a TextEvent) -> Result<(), Memory> {
        if let Event::Lead { key, call, .. } = event {
            let group = self.of_key(alloc, key)?;
            if self.of_calls.get(&(call.caller, call.generation)).is_none() {
                self.of_calls.insert((call.caller, call.generation), group)?;
            }
        }
        Ok(())
    }

    // Adds the event at this place to the group of its key.
    fn note(&mut self, alloc: Global, place: usize, event: &'a TextEvent) -> Result<(), Memory> {
        let group = match key_of(event) {
            Some(key) => self.of_key(alloc, key)?,
            None => self.of_call(alloc, call_of(event))?,
        };
        if let Some(group) = self.groups.get_mut(group) {
            group.places.push(place)?;
        }
        Ok(())
    }

    // The events by their keys. That a Settle stands before its Lead changes nothing.
    fn new(alloc: Global, events: &'a [TextEvent]) -> Result<Groups<'a>, Memory> {
        let mut groups = Groups {
            groups: Vec::new(alloc),
            of_keys: BTreeMap::new(alloc),
            of_calls: BTreeMap::new(alloc),
            without: None,
        };
        for event in events {
            groups.note_lead(alloc, event)?;
        }
        for (place, event) in events.iter().enumerate() {
            groups.note(alloc, place, event)?;
        }
        Ok(groups)
    }
}

// The event without its key, which all of its group have, and without its value.
fn bare(event: &TextEvent) -> Event<usize, ()> {
    match event {
        Event::Lead { by, call, own, .. } => Event::Lead {
            by: *by,
            key: 0,
            call: *call,
            own: *own,
        },
        Event::Enter {
            by,
            call,
            member,
            ..
        } => Event::Enter {
            by: *by,
            key: 0,
            call: *call,
            member: *member,
        },
        Event::Forget { by, closed, .. } => Event::Forget {
            by: *by,
            key: 0,
            closed: *closed,
        },
        Event::ForgetCall { by, call, hit, .. } => Event::ForgetCall {
            by: *by,
            key: 0,
            call: *call,
            hit: *hit,
        },
        Event::Settle {
            by,
            call,
            joiners,
            ..
        } => Event::Settle {
            by: *by,
            call: *call,
            result: (),
            joiners: *joiners,
        },
        Event::Handed { by, call } => Event::Handed {
            by: *by,
            call: *call,
        },
    }
}

// The events at these places, bare, and the time of each.
fn part(
    alloc: Global,
    places: &[usize],
    events: &[TextEvent],
    times: &[Option<Interval>],
) -> Result<(Vec<Event<usize, ()>>, Vec<Option<Interval>>), Memory>
    ensures { IfOk result (λ part. vec_len part.1 ≡ vec_len part.0) }
{
    let mut own = Vec::new(alloc);
    let mut own_times = Vec::new(alloc);
    for place in places {
        if let Some(event) = events.get(*place) {
            own.push(bare(event))?;
            own_times.push(time_at(times, *place))?;
        }
    }
    Ok((own, own_times))
}

// The number in the whole history of the event that has this number among those at the places.
fn number_of(places: &[usize], index: u64) -> u64 {
    match places.get(place(index)) {
        Some(found) => (*found as u64).saturating_add(1),
        None => index,
    }
}

// The witness with the numbers of the whole history.
fn renumbered(places: &[usize], witness: Witness) -> Witness {
    match witness {
        Witness::Wrong { event, cause } => Witness::Wrong {
            event: number_of(places, event),
            cause,
        },
        Witness::Reversed { first, second } => Witness::Reversed {
            first: number_of(places, first),
            second: number_of(places, second),
        },
        Witness::Crossed {
            early,
            late,
            sooner,
            last,
        } => Witness::Crossed {
            early: number_of(places, early),
            late: number_of(places, late),
            sooner: number_of(places, sooner),
            last: number_of(places, last),
        },
        Witness::Within {
            forget,
            early,
            late,
        } => Witness::Within {
            forget: number_of(places, forget),
            early: number_of(places, early),
            late: number_of(places, late),
        },
        Witness::Unclosed { early, late } => Witness::Unclosed {
            early: number_of(places, early),
            late: number_of(places, late),
        },
        Witness::BothUnclosed { first, second } => Witness::BothUnclosed {
            first: number_of(places, first),
            second: number_of(places, second),
        },
        Witness::Missed {
            forget,
            early,
            late,
        } => Witness::Missed {
            forget: number_of(places, forget),
            early: number_of(places, early),
            late: number_of(places, late),
        },
        Witness::StillCurrent { forget, early } => Witness::StillCurrent {
            forget: number_of(places, forget),
            early: number_of(places, early),
        },
    }
}

// The first fault of the events at these places, as they stand.
fn fault_as_it_stands(
    alloc: Global,
    places: &[usize],
    events: &[TextEvent],
) -> Result<Option<Fault>, Memory> {
    let (own, _times) = part(alloc, places, events, &[])?;
    Ok(match verdict_on(alloc, &History::from_vec(own)) {
        Verdict::Legal => None,
        Verdict::Illegal { index, cause } => Some(Fault::First {
            event: number_of(places, index),
            cause,
        }),
    })
}

// Why the events at these places have no order, by their times.
fn fault_in_time(
    alloc: Global,
    places: &[usize],
    events: &[TextEvent],
    times: &[Option<Interval>],
) -> Result<Option<Fault>, Memory> {
    let (own, own_times) = part(alloc, places, events, times)?;
    let found = judge_in_time(alloc, History::from_vec(own), own_times.as_slice())?;
    Ok(match found {
        InTime::Legal { .. } => None,
        InTime::NoOrder(witness) => Some(Fault::NoOrder(renumbered(places, witness))),
        InTime::Undecided(Some(event)) => Some(Fault::Undecided(Some(number_of(places, event)))),
        InTime::Undecided(None) => Some(Fault::Undecided(None)),
    })
}

/// The keys whose events, as they stand, have a fault. A call that is led on two keys is a fault of neither.
pub fn faults_of_keys<'a>(alloc: Global, events: &'a [TextEvent]) -> Result<KeyFaults<'a>, Memory> {
    let Groups { groups, .. } = Groups::new(alloc, events)?;
    let mut faults = Vec::new(alloc);
    for group in groups.iter() {
        if let Some(fault) = fault_as_it_stands(alloc, group.places.as_slice(), events)? {
            faults.push(KeyFault {
                key: group.key,
                fault,
            })?;
        }
    }
    Ok(KeyFaults {
        faults,
        keys: groups.len() as u64,
    })
}

/// The keys whose events have no order that is legal and respects their times, or none that was found.
pub fn faults_in_time<'a>(
    alloc: Global,
    events: &'a [TextEvent],
    times: &[Option<Interval>],
) -> Result<KeyFaults<'a>, Memory> {
    let Groups { groups, .. } = Groups::new(alloc, events)?;
    let mut faults = Vec::new(alloc);
    for group in groups.iter() {
        if let Some(fault) = fault_in_time(alloc, group.places.as_slice(), events, times)? {
            faults.push(KeyFault {
                key: group.key,
                fault,
            })?;
        }
    }
    Ok(KeyFaults {
        faults,
        keys: groups.len() as u64,
    })
}
