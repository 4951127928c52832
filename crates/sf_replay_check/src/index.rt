//! Events that are asked through ordered maps.

ghost use Rattle.std.specs.Prelude.{◌≡◌, ◌+◌, ◌^◌, ◌<◌, IfOk, OnOk, if◌then◌else◌, true, false, Some, None, option_map};
ghost use Rattle.sf_history.specs.Calls.{same_call};
ghost use Rattle.sf_history.specs.History.{holds_call, keeps_current};
ghost use Rattle.sf_replay_check.specs.Index.{new_row, marked, row_after, joiners_in, was_settled};
ghost use Rattle.sf_sequential.specs.Noted.{without};
ghost use Rattle.sf_replay_check.specs.IndexMaps.{noted_in};

use crate::past::Past;
use crate::row::{Mark, Row, marked};
use sf_history::{CallId, Event, Hit, Memory};
use std::alloc::Global;
use std::collections::BTreeMap;

/// What is known of the events that were noted: a row for each call, member and own channel that they name, and the
/// current call of each key.
#[derive(Drop)]
pub(crate) struct Index<'a, K: Ord> {
    rows: BTreeMap<(u32, u32), Row>,
    current: BTreeMap<&'a K, CallId>,
}

impl<'a, K: Ord> Index<'a, K> {
    /// An index of no events; it allocates nothing.
    pub fn new(alloc: Global) -> Self
        ensures row { (c : CallId) → (noted_in K.cmp result).row c ≡ None }
        ensures current { (k : K) → (noted_in K.cmp result).current k ≡ None }
    {
        Index {
            rows: BTreeMap::new(alloc),
            current: BTreeMap::new(alloc),
        }
    }

    fn row(&self, id: CallId) -> Option<Row>
        ensures { result ≡ (noted_in K.cmp self.now).row id }
    {
        self.rows.get(&(id.caller, id.generation)).copied()
    }

    // Notes a name that is new, with whether it is a call that is led.
    fn note_name(&mut self, id: CallId, led: bool) -> Result<(), Memory>
        ensures row { OnOk result ((c : CallId)
            → (noted_in K.cmp self.new).row c
            ≡ (if same_call id c then Some (new_row led) else (noted_in K.cmp self.old).row
            c)) }
        ensures current { OnOk result ((k : K)
            → (noted_in K.cmp self.new).current k ≡ (noted_in K.cmp self.old).current k) }
    {
        let row = Row {
            led,
            joiners: 0,
            settled: false,
            handed: false,
        };
        self.rows.insert((id.caller, id.generation), row)?;
        Ok(())
    }

    // Marks a call's row.
    fn mark(&mut self, call: CallId, mark: Mark)
        requires room { joiners_in ((noted_in K.cmp self.now).row call) + 1 < 2 ^ 64 }
        ensures row { (c : CallId)
            → (noted_in K.cmp self.new).row c
            ≡ (if same_call call c then option_map (marked mark) ((noted_in K.cmp self.old).row c)
            else (noted_in K.cmp self.old).row c) }
        ensures current { (k : K)
            → (noted_in K.cmp self.new).current k ≡ (noted_in K.cmp self.old).current k }
    {
        if let Some(row) = self.rows.get_mut(&(call.caller, call.generation)) {
            *row = marked(mark, *row);
        }
    }

    // The key has a new current call.
    fn lead_key(&mut self, key: &'a K, call: CallId) -> Result<(), Memory>
        ensures row { OnOk result ((c : CallId)
            → (noted_in K.cmp self.new).row c ≡ (noted_in K.cmp self.old).row c) }
        ensures current { OnOk result ((k : K)
            → (noted_in K.cmp self.new).current k
            ≡ (if K.eq key.now k then Some call else (noted_in K.cmp self.old).current k)) }
    {
        self.current.insert(key, call)?;
        Ok(())
    }

    // The key has no current call any more.
    fn forget_key(&mut self, key: &'a K)
        ensures row { (c : CallId)
            → (noted_in K.cmp self.new).row c ≡ (noted_in K.cmp self.old).row c }
        ensures current { (k : K)
            → (noted_in K.cmp self.new).current k
            ≡ (if K.eq key.now k then None else (noted_in K.cmp self.old).current k) }
    {
        self.current.remove(&key);
    }

    // Notes a lead.
    fn note_lead(&mut self, key: &'a K, call: CallId, own: Option<CallId>) -> Result<(), Memory>
        ensures row { OnOk result ((c : CallId)
            → (noted_in K.cmp self.new).row c
            ≡ (if same_call call c then Some (new_row true) else
            (if holds_call own c then Some (new_row false) else
            (noted_in K.cmp self.old).row c))) }
        ensures current { OnOk result ((k : K)
            → (noted_in K.cmp self.new).current k
            ≡ (if K.eq key.now k then Some call else (noted_in K.cmp self.old).current k)) }
    {
        if let Some(own) = own {
            self.note_name(own, false)?;
        }
        self.note_name(call, true)?;
        self.lead_key(key, call)
    }

    /// Notes the event after those that were noted before.
    pub fn note<V>(&mut self, event: &'a Event<K, V>) -> Result<(), Memory>
        requires room { (c : CallId) → joiners_in ((noted_in K.cmp self.now).row c) + 1 < 2 ^ 64 }
        ensures row { OnOk result ((c : CallId)
            → (noted_in K.cmp self.new).row c
            ≡ row_after c ((noted_in K.cmp self.old).row c) event.now) }
        ensures current { OnOk result ((k : K)
            → (noted_in K.cmp self.new).current k
            ≡ keeps_current K.eq k ((noted_in K.cmp self.old).current k) event.now) }
    {
        match event {
            Event::Lead { key, call, own, .. } => self.note_lead(key, *call, *own),
            Event::Enter { call, member, .. } => {
                self.mark(*call, Mark::Joined);
                self.note_name(*member, false)
            }
            Event::Forget { key, .. } => {
                self.forget_key(key);
                Ok(())
            }
            Event::ForgetCall {
                hit: Hit::Missed,
                ..
            } => Ok(()),
            Event::ForgetCall { key, .. } => {
                self.forget_key(key);
                Ok(())
            }
            Event::Settle { call, .. } => {
                self.mark(*call, Mark::Settled);
                Ok(())
            }
            Event::Handed { call, .. } => {
                self.mark(*call, Mark::Handing);
                Ok(())
            }
        }
    }
}

impl<'a, K: Ord> Past<'a, K> for Index<'a, K> {
    ghost use Rattle.sf_replay_check.specs.Index.{known_of};
    ghost use Rattle.sf_replay_check.specs.IndexMaps.{noted_in};

    ghost known = { λ i. known_of (noted_in K.cmp i) };

    fn is_named(&self, id: CallId) -> bool {
        self.row(id).is_some()
    }

    fn has_begun(&self, call: CallId) -> bool {
        match self.row(call) {
            Some(row) => row.led,
            None => false,
        }
    }

    fn was_led(&self, caller: u32, call: CallId) -> bool {
        call.caller == caller && self.has_begun(call)
    }

    fn is_settled(&self, call: CallId) -> bool {
        match self.row(call) {
            Some(row) => row.settled,
            None => false,
        }
    }

    fn joined(&self, call: CallId) -> usize {
        match self.row(call) {
            Some(row) => row.joiners,
            None => 0,
        }
    }

    fn is_handed(&self, call: CallId) -> bool {
        match self.row(call) {
            Some(row) => row.handed,
            None => false,
        }
    }

    fn current_call(&self, key: &'a K) -> Option<CallId> {
        self.current.get(&key).copied()
    }

    fn open_call(&self, key: &'a K) -> Option<CallId> {
        match self.current.get(&key) {
            Some(call) if !self.is_settled(*call) => Some(*call),
            _ => None,
        }
    }
}
