//! Where the calls of a key and its idle Forgets stand in time, one after another.

use crate::bounds::{Bound, end_of, start_of};
use crate::spans::Spans;
use crate::stages::stay_of;
use crate::witness::{Stop, Witness, number};
use sf_history::Event;
use sf_replay::Interval;
use std::alloc::Global;

/// What stands in a zone.
#[derive(Clone, Copy)]
pub(crate) enum Owner {
    /// The call at this place among the spans.
    Call(usize),
    /// The Forget at this place, which found no open call.
    Idle(usize),
}

/// A call or an idle Forget of a key. It begins at `opens` or sooner and ends at `closes` or later; what nothing closed has no
/// such end.
#[derive(Clone, Copy)]
pub(crate) struct Zone {
    pub key: usize,
    pub owner: Owner,
    pub opens: Bound,
    pub closes: Option<Bound>,
    /// Where it begins, once that is known.
    pub begins: u64,
    /// Where it ends, once that is known.
    pub ends: u64,
}

// What zones are sorted by: key, beginning, and one of a single moment before one that lasts.
#[derive(Clone, Copy, PartialEq, Eq, PartialOrd, Ord)]
struct Order {
    key: usize,
    begins: u64,
    lasts: bool,
}

impl Zone {
    // Whether it has to be there for a while: an event of it ended before another of it began.
    fn lasts(&self) -> bool {
        match self.closes {
            Some(closes) => self.opens.at < closes.at,
            None => true,
        }
    }

    fn order(&self) -> Order {
        Order {
            key: self.key,
            begins: self.begins,
            lasts: self.lasts(),
        }
    }

    /// Lets what is at one moment be there not before this one, if it can be there then, and says whether it can.
    pub fn wait(&mut self, moment: u64) -> bool {
        if self.lasts() || self.opens.at < moment {
            return false;
        }
        self.begins = self.begins.max(moment);
        self.ends = self.begins;
        true
    }

    // The zone at the first moment that it can have: that of its last beginning, or its least stay.
    fn first(self) -> Zone {
        match self.closes {
            Some(closes) if closes.at <= self.opens.at => Zone {
                begins: closes.at,
                ends: closes.at,
                ..self
            },
            Some(closes) => Zone {
                begins: self.opens.at,
                ends: closes.at,
                ..self
            },
            None => Zone {
                begins: self.opens.at,
                ends: u64::MAX,
                ..self
            },
        }
    }
}

// The zones of all calls and idle Forgets, each at its first moment.
fn first_zones<'a, K: Ord, V>(
    alloc: Global,
    events: &'a [Event<K, V>],
    times: &[Option<Interval>],
    spans: &Spans<'a, K>,
) -> Result<Vec<Zone>, Stop> {
    let mut zones = Vec::new(alloc);
    for (place, span) in spans.all().iter().enumerate() {
        let stay = stay_of(times, span)?;
        let zone = Zone {
            key: span.key,
            owner: Owner::Call(place),
            opens: stay.opens,
            closes: stay.closes,
            begins: 0,
            ends: 0,
        };
        zones.push(zone.first())?;
    }
    for (place, event) in events.iter().enumerate() {
        if let Event::Forget {
            key,
            closed: None,
            ..
        } = event
        {
            let zone = Zone {
                key: spans.key(key).unwrap_or(0),
                owner: Owner::Idle(place),
                opens: end_of(times, place),
                closes: Some(start_of(times, place)),
                begins: 0,
                ends: 0,
            };
            zones.push(zone.first())?;
        }
    }
    Ok(zones)
}

// Two zones of which neither can come before the other; the first lasts.
fn crossed(first: &Zone, second: &Zone) -> Witness {
    match (first.closes, second.closes, second.owner) {
        (Some(last), Some(_), Owner::Idle(forget)) => Witness::Within {
            forget: number(forget),
            early: number(first.opens.by),
            late: number(last.by),
        },
        (Some(last), Some(late), Owner::Call(_)) => Witness::Crossed {
            early: number(first.opens.by),
            late: number(late.by),
            sooner: number(second.opens.by),
            last: number(last.by),
        },
        (Some(last), None, _) => Witness::Unclosed {
            early: number(second.opens.by),
            late: number(last.by),
        },
        (None, Some(late), _) => Witness::Unclosed {
            early: number(first.opens.by),
            late: number(late.by),
        },
        (None, None, _) => Witness::BothUnclosed {
            first: number(first.opens.by),
            second: number(second.opens.by),
        },
    }
}

// The zone, put behind the one of its key that lasts and begins before it; or both, which have no order.
fn put_behind(last: &Zone, zone: &Zone) -> Result<Zone, Stop> {
    let Some(closes) = last.closes else {
        return Err(Stop::No(crossed(last, zone)));
    };
    if zone.opens.at < closes.at {
        return Err(Stop::No(crossed(last, zone)));
    }
    if zone.lasts() || closes.at <= zone.begins {
        return Ok(*zone);
    }
    Ok(Zone {
        begins: closes.at,
        ends: closes.at,
        ..*zone
    })
}

// The zones, of which each lies behind those of its key that last and begin before it. They are sorted by their first moments.
fn apart(alloc: Global, zones: &[Zone]) -> Result<Vec<Zone>, Stop> {
    let mut apart = Vec::new(alloc);
    let mut lasting: Option<Zone> = None;
    for zone in zones {
        let placed = match &lasting {
            Some(last) if last.key == zone.key && last.begins < zone.begins => {
                put_behind(last, zone)?
            }
            Some(last) if last.key == zone.key && zone.lasts() => put_behind(last, zone)?,
            _ => *zone,
        };
        if placed.lasts() {
            lasting = Some(placed);
        }
        apart.push(placed)?;
    }
    Ok(apart)
}

/// The zones in the order of time, by keys: none of a key begins before those before it have ended.
pub(crate) fn zones<'a, K: Ord, V>(
    alloc: Global,
    events: &'a [Event<K, V>],
    times: &[Option<Interval>],
    spans: &Spans<'a, K>,
) -> Result<Vec<Zone>, Stop> {
    in_time(alloc, first_zones(alloc, events, times, spans)?)
}

/// The zones in the order of time, by keys, each where it begins now or behind what lasts there.
pub(crate) fn in_time(alloc: Global, zones: Vec<Zone>) -> Result<Vec<Zone>, Stop> {
    let mut zones = zones;
    zones.sort_by_key(|zone| zone.order())?;
    let mut apart = apart(alloc, zones.as_slice())?;
    apart.sort_by_key(|zone| zone.order())?;
    Ok(apart)
}
