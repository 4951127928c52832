//! Where a Forget of one call that missed it stands: before the call is current, or after it.

use crate::bounds::time_of;
use crate::spans::{Span, Spans};
use crate::witness::{Stop, Witness, number};
use crate::zones::{Owner, Zone, in_time};
use sf_history::{Event, Hit, Memory};
use sf_replay::Interval;
use std::alloc::Global;

/// The zones, and where each call's zone is.
#[derive(Drop)]
pub(crate) struct Map {
    /// The zones in the order of time, by keys.
    pub zones: Vec<Zone>,
    /// For each span the place of its zone.
    pub places: Vec<usize>,
}

// A Forget that missed a call of its key: the place of the call's zone, and the time of the Forget.
#[derive(Clone, Copy)]
struct Miss {
    zone: usize,
    time: Interval,
}

/// Where a Forget stands that missed its call.
#[derive(Clone, Copy)]
pub(crate) struct Stand {
    pub moment: u64,
    /// The place of the zone that it stands at.
    pub zone: usize,
    /// Whether it stands behind the beginning of that zone.
    pub is_behind: bool,
}

impl Map {
    /// The map of these zones, over so many spans.
    pub fn new(alloc: Global, zones: Vec<Zone>, spans: usize) -> Result<Map, Memory> {
        let mut places = Vec::new(alloc);
        for _ in 0..spans {
            places.push(0)?;
        }
        for (place, zone) in zones.iter().enumerate() {
            if let Owner::Call(span) = zone.owner {
                if let Some(found) = places.get_mut(span) {
                    *found = place;
                }
            }
        }
        Ok(Map { zones, places })
    }

    /// The zone of the span at this place, and its own place.
    pub fn zone_of(&self, span: usize) -> Option<(usize, Zone)> {
        let place = *self.places.get(span)?;
        let zone = *self.zones.get(place)?;
        Some((place, zone))
    }

    // The zone after the one at this place, if it is of the same key.
    fn next(&self, place: usize) -> Option<(usize, Zone)> {
        let zone = self.zones.get(place)?;
        let after = place.checked_add(1)?;
        let next = *self.zones.get(after)?;
        if next.key == zone.key {
            Some((after, next))
        } else {
            None
        }
    }

    // The miss that this event is, if it is one of a call that was led on its key.
    fn miss<'a, K: Ord, V>(
        &self,
        spans: &Spans<'a, K>,
        times: &[Option<Interval>],
        place: usize,
        event: &'a Event<K, V>,
    ) -> Option<(Miss, Span)> {
        let Event::ForgetCall {
            key,
            call,
            hit: Hit::Missed,
            ..
        } = event
        else {
            return None;
        };
        let found = spans.place_on(key, *call)?;
        let span = *spans.all().get(found)?;
        let zone = *self.places.get(found)?;
        let time = time_of(times, place);
        Some((Miss { zone, time }, span))
    }

    // Where the miss can stand, as the zones are.
    fn stand(&self, miss: Miss, span: &Span) -> Option<Stand> {
        let zone = self.zones.get(miss.zone)?;
        if miss.time.from <= zone.begins {
            return Some(Stand {
                moment: miss.time.from,
                zone: miss.zone,
                is_behind: false,
            });
        }
        if span.forgot.is_some() || span.cleared.is_some() {
            return behind(miss.zone, zone.ends, miss.time);
        }
        let (after, next) = self.next(miss.zone)?;
        behind(after, next.begins, miss.time)
    }

    // Lets the call after a missed one begin sooner, where that gives the miss a place.
    fn begin_sooner(&mut self, spans: &[Span], times: &[Option<Interval>], miss: Miss) {
        let Some(missed) = self.zones.get(miss.zone) else {
            return;
        };
        let ends = missed.ends;
        let Some((after, next)) = self.next(miss.zone) else {
            return;
        };
        let Owner::Call(owner) = next.owner else {
            return;
        };
        let Some(span) = spans.get(owner) else {
            return;
        };
        let least = ends.max(time_of(times, span.lead).from);
        let begins = next.begins.min(miss.time.to);
        if begins < least || next.begins == next.ends {
            return;
        }
        if let Some(zone) = self.zones.get_mut(after) {
            zone.begins = begins;
        }
    }

    // Whether some zone of the key may begin between the missed call and the end of the Forget. `moment` is that end.
    fn may_begin_between(
        &self,
        spans: &[Span],
        times: &[Option<Interval>],
        missed: &Zone,
        moment: u64,
    ) -> bool {
        let Some(closes) = missed.closes else {
            return false;
        };
        for zone in self.zones.iter() {
            let from = match zone.owner {
                Owner::Call(owner) => match spans.get(owner) {
                    Some(span) => time_of(times, span.lead).from,
                    None => 0,
                },
                Owner::Idle(place) => time_of(times, place).from,
            };
            let is_other = zone.opens.by != missed.opens.by;
            if zone.key == missed.key && is_other && from <= moment && closes.at <= zone.opens.at {
                return true;
            }
        }
        false
    }

    // What is said of a miss that can stand nowhere: its witness, or that it is not decided.
    fn unplaced(
        &self,
        spans: &[Span],
        times: &[Option<Interval>],
        place: usize,
        miss: Miss,
        span: &Span,
    ) -> Stop {
        let Some(zone) = self.zones.get(miss.zone) else {
            return Stop::Undecided(number(place));
        };
        if miss.time.from <= zone.opens.at {
            return Stop::Undecided(number(place));
        }
        let forget = number(place);
        let early = number(zone.opens.by);
        match zone.closes {
            Some(late) if span.forgot.is_some() || span.cleared.is_some() => {
                if late.at <= miss.time.to {
                    return Stop::Undecided(forget);
                }
                Stop::No(Witness::Missed {
                    forget,
                    early,
                    late: number(late.by),
                })
            }
            _ => {
                if self.may_begin_between(spans, times, zone, miss.time.to) {
                    return Stop::Undecided(forget);
                }
                Stop::No(Witness::StillCurrent { forget, early })
            }
        }
    }

    /// The map where the calls that were missed wait for their misses, as far as that can be.
    pub fn with_waits<'a, K: Ord, V>(
        self,
        alloc: Global,
        spans: &Spans<'a, K>,
        times: &[Option<Interval>],
        events: &'a [Event<K, V>],
    ) -> Result<Map, Stop> {
        let mut zones = Vec::new(alloc);
        for zone in self.zones.iter() {
            zones.push(*zone)?;
        }
        let mut is_other = false;
        for (place, event) in events.iter().enumerate() {
            if let Some((miss, span)) = self.miss(spans, times, place, event) {
                if self.stand(miss, &span).is_none() {
                    if let Some(zone) = zones.get_mut(miss.zone) {
                        is_other = zone.wait(miss.time.from) || is_other;
                    }
                }
            }
        }
        if !is_other {
            return Ok(self);
        }
        // What waits can come into the way of what lasts, and that is no witness: then none waits.
        match in_time(alloc, zones) {
            Ok(zones) => Ok(Map::new(alloc, zones, spans.all().len())?),
            Err(Stop::No(_)) => Ok(self),
            Err(stop) => Err(stop),
        }
    }

    /// Makes place for each miss, as far as that can be.
    pub fn make_place<'a, K: Ord, V>(
        &mut self,
        spans: &Spans<'a, K>,
        times: &[Option<Interval>],
        events: &'a [Event<K, V>],
    ) {
        for (place, event) in events.iter().enumerate() {
            if let Some((miss, span)) = self.miss(spans, times, place, event) {
                if self.stand(miss, &span).is_none() {
                    self.begin_sooner(spans.all(), times, miss);
                }
            }
        }
    }

    /// Where the event at this place stands, if it missed a call of its key; nothing where it is no such Forget.
    pub fn stand_of<'a, K: Ord, V>(
        &self,
        spans: &Spans<'a, K>,
        times: &[Option<Interval>],
        place: usize,
        event: &'a Event<K, V>,
    ) -> Result<Option<Stand>, Stop> {
        let Some((miss, span)) = self.miss(spans, times, place, event) else {
            return Ok(None);
        };
        match self.stand(miss, &span) {
            Some(stand) => Ok(Some(stand)),
            None => Err(self.unplaced(spans.all(), times, place, miss, &span)),
        }
    }
}

// Behind what begins or ends at this moment, where the time of the miss allows it.
fn behind(zone: usize, moment: u64, time: Interval) -> Option<Stand> {
    if time.to < moment {
        return None;
    }
    Some(Stand {
        moment: moment.max(time.from),
        zone,
        is_behind: true,
    })
}
