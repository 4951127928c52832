//! What the events say of each call, whatever their order is.

use crate::bounds::{Bound, end_of, later, sooner, start_of};
use crate::witness::{Stop, wrong};
use sf_history::{CallId, Event, Hit};
use sf_replay::Interval;
use sf_replay_check::Cause;
use std::alloc::Global;
use std::collections::BTreeMap;

/// What is known of a call that was led. Events are named by their places, counted from 0.
#[derive(Clone, Copy)]
pub(crate) struct Span {
    /// The number of its key.
    pub key: usize,
    pub lead: usize,
    /// How many entered it.
    pub joiners: u64,
    /// The last beginning of an Enter.
    pub enters_from: Bound,
    /// The first end of an Enter.
    pub enters_to: Bound,
    /// The Forget that closed it.
    pub forgot: Option<usize>,
    pub settle: Option<usize>,
    /// How many joiners its Settle has.
    pub said: u64,
    pub handed: Option<usize>,
    /// The Forget that cleared it.
    pub cleared: Option<usize>,
}

/// What the events say: of names, keys and calls.
#[derive(Drop)]
pub(crate) struct Spans<'a, K: Ord> {
    /// Each call, member and own channel that was named.
    names: BTreeMap<(u32, u32), ()>,
    /// The numbers of the keys, counted from 0.
    keys: BTreeMap<&'a K, usize>,
    /// The place of each call among the spans.
    calls: BTreeMap<(u32, u32), usize>,
    spans: Vec<Span>,
}

impl<'a, K: Ord> Spans<'a, K> {
    fn new(alloc: Global) -> Self {
        Spans {
            names: BTreeMap::new(alloc),
            keys: BTreeMap::new(alloc),
            calls: BTreeMap::new(alloc),
            spans: Vec::new(alloc),
        }
    }

    /// The spans, in the order of the Leads.
    pub fn all(&self) -> &[Span] {
        self.spans.as_slice()
    }

    /// The number of the key, if a Lead or an idle Forget named it.
    pub fn key(&self, key: &'a K) -> Option<usize> {
        self.keys.get(&key).copied()
    }

    /// The place of the call among the spans, if it was led.
    pub fn place(&self, call: CallId) -> Option<usize> {
        self.calls.get(&(call.caller, call.generation)).copied()
    }

    /// The place of the call among the spans, if it was led on the key.
    pub fn place_on(&self, key: &'a K, call: CallId) -> Option<usize> {
        let place = self.place(call)?;
        let span = self.spans.get(place)?;
        if Some(span.key) == self.key(key) {
            Some(place)
        } else {
            None
        }
    }

    // The number of the key, which is a new one if the key was not named before.
    fn number_key(&mut self, key: &'a K) -> Result<usize, Stop> {
        if let Some(number) = self.key(key) {
            return Ok(number);
        }
        let number = self.keys.len();
        self.keys.insert(key, number)?;
        Ok(number)
    }

    // Notes a name; the event is wrong for this cause where it was there before.
    fn note_name(&mut self, place: usize, id: CallId, cause: Cause) -> Result<(), Stop> {
        let name = (id.caller, id.generation);
        if self.names.contains_key(&name) {
            return wrong(place, cause);
        }
        self.names.insert(name, ())?;
        Ok(())
    }

    // Notes a Lead.
    fn note_lead(
        &mut self,
        times: &[Option<Interval>],
        place: usize,
        key: &'a K,
        call: CallId,
        own: Option<CallId>,
    ) -> Result<(), Stop> {
        self.note_name(place, call, Cause::CallIsNotNew)?;
        if let Some(own) = own {
            self.note_name(place, own, Cause::OwnChannelIsNotNew)?;
        }
        let key = self.number_key(key)?;
        self.calls
            .insert((call.caller, call.generation), self.spans.len())?;
        self.spans.push(Span {
            key,
            lead: place,
            joiners: 0,
            enters_from: start_of(times, place),
            enters_to: end_of(times, place),
            forgot: None,
            settle: None,
            said: 0,
            handed: None,
            cleared: None,
        })?;
        Ok(())
    }

    // Notes an event's names and keys.
    fn note_names<V>(
        &mut self,
        times: &[Option<Interval>],
        place: usize,
        event: &'a Event<K, V>,
    ) -> Result<(), Stop> {
        match event {
            Event::Lead { by, call, .. } if *by != call.caller => {
                wrong(place, Cause::LedByAnotherCaller)
            }
            Event::Lead { key, call, own, .. } => self.note_lead(times, place, key, *call, *own),
            Event::Enter { by, member, .. } if *by != member.caller => {
                wrong(place, Cause::EnteredByAnotherCaller)
            }
            Event::Enter { member, .. } => self.note_name(place, *member, Cause::MemberIsNotNew),
            Event::Forget {
                key,
                closed: None,
                ..
            } => {
                let _number = self.number_key(key)?;
                Ok(())
            }
            _ => Ok(()),
        }
    }

    // Notes the Forget that closed a call of the key.
    fn note_close(
        &mut self,
        place: usize,
        key: &'a K,
        call: CallId,
        cause: Cause,
    ) -> Result<(), Stop> {
        let Some(found) = self.place_on(key, call) else {
            return wrong(place, cause);
        };
        let Some(span) = self.spans.get_mut(found) else {
            return wrong(place, cause);
        };
        if span.forgot.is_some() {
            return wrong(place, cause);
        }
        span.forgot = Some(place);
        Ok(())
    }

    // Notes the Forget that cleared a call of the key.
    fn note_clear(&mut self, place: usize, key: &'a K, call: CallId) -> Result<(), Stop> {
        let Some(found) = self.place_on(key, call) else {
            return wrong(place, Cause::HitIsWrong);
        };
        let Some(span) = self.spans.get_mut(found) else {
            return wrong(place, Cause::HitIsWrong);
        };
        if span.cleared.is_some() {
            return wrong(place, Cause::HitIsWrong);
        }
        span.cleared = Some(place);
        Ok(())
    }

    // Notes an Enter.
    fn note_enter(
        &mut self,
        times: &[Option<Interval>],
        place: usize,
        key: &'a K,
        call: CallId,
    ) -> Result<(), Stop> {
        let Some(found) = self.place_on(key, call) else {
            return wrong(place, Cause::CallIsNotTheOpenOne);
        };
        let Some(span) = self.spans.get_mut(found) else {
            return wrong(place, Cause::CallIsNotTheOpenOne);
        };
        span.joiners = span.joiners.saturating_add(1);
        span.enters_from = later(span.enters_from, start_of(times, place));
        span.enters_to = sooner(span.enters_to, end_of(times, place));
        Ok(())
    }

    // Notes a Settle.
    fn note_settle(
        &mut self,
        place: usize,
        by: u32,
        call: CallId,
        joiners: u32,
    ) -> Result<(), Stop> {
        let Some(found) = self.place(call) else {
            return wrong(place, Cause::CallWasNotLed);
        };
        let Some(span) = self.spans.get_mut(found) else {
            return wrong(place, Cause::CallWasNotLed);
        };
        if by != call.caller {
            return wrong(place, Cause::SettledByACallerThatDidNotLead);
        }
        if span.settle.is_some() {
            return wrong(place, Cause::CallIsSettledAlready);
        }
        span.settle = Some(place);
        span.said = u64::from(joiners);
        Ok(())
    }

    // Notes a Handed.
    fn note_handed(&mut self, place: usize, by: u32, call: CallId) -> Result<(), Stop> {
        let Some(found) = self.place(call) else {
            return wrong(place, Cause::CallWasNotLed);
        };
        let Some(span) = self.spans.get_mut(found) else {
            return wrong(place, Cause::CallWasNotLed);
        };
        if by != call.caller {
            return wrong(place, Cause::HandedByACallerThatDidNotLead);
        }
        if span.handed.is_some() {
            return wrong(place, Cause::CallIsHandedAlready);
        }
        span.handed = Some(place);
        Ok(())
    }

    // Notes what an event says of its call. The names are noted before.
    fn note<V>(
        &mut self,
        times: &[Option<Interval>],
        place: usize,
        event: &'a Event<K, V>,
    ) -> Result<(), Stop> {
        match event {
            Event::Enter { key, call, .. } => self.note_enter(times, place, key, *call),
            Event::Forget {
                key,
                closed: Some(call),
                ..
            } => self.note_close(place, key, *call, Cause::ForgetNamesAnotherCall),
            Event::ForgetCall { key, call, hit, .. } => match hit {
                Hit::Closed => self.note_close(place, key, *call, Cause::HitIsWrong),
                Hit::Cleared => self.note_clear(place, key, *call),
                Hit::Missed => Ok(()),
            },
            Event::Settle {
                by,
                call,
                joiners,
                ..
            } => self.note_settle(place, *by, *call, *joiners),
            Event::Handed { by, call } => self.note_handed(place, *by, *call),
            _ => Ok(()),
        }
    }
}

/// What these events say.
pub(crate) fn spans_of<'a, K: Ord, V>(
    alloc: Global,
    events: &'a [Event<K, V>],
    times: &[Option<Interval>],
) -> Result<Spans<'a, K>, Stop> {
    let mut spans = Spans::new(alloc);
    for (place, event) in events.iter().enumerate() {
        spans.note_names(times, place, event)?;
    }
    for (place, event) in events.iter().enumerate() {
        spans.note(times, place, event)?;
    }
    Ok(spans)
}
