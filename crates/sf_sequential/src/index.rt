//! What a sequential group's history says of keys, callers and calls, kept in ordered maps beside it.

ghost use Rattle.std.specs.Prelude.{◌≡◌, ℕ, ◌+◌, ◌≤◌, ◌^◌, OnOk, None, Some, is_some};
ghost use Rattle.sf_history.specs.declared.call.CallId.{CallId};
ghost use Rattle.sf_sequential.specs.Noted.{IsCallerSet, IsCallSet, IsKeySet, caller_row, call_row, holding, without};
ghost use Rattle.sf_sequential.specs.Noted.{IsOwnNoted, IsLeadNoted, IsEnterNoted, IsSettleNoted, IsTakeNoted};
ghost use Rattle.sf_words.specs.declared.limits.TheConstants.{LARGEST_CALLER};
ghost use Rattle.sf_sequential.specs.NotedMaps.{noted_in};

use crate::rows::{CallRow, CallerRow};
use crate::ticket::Ticket;
use sf_history::{CallId, Memory};
use std::alloc::Global;
use std::collections::BTreeMap;

/// The maps of an index. A caller or a call that has no row did nothing yet.
#[derive(Drop)]
pub(crate) struct Maps<'a, K: Ord> {
    current: BTreeMap<&'a K, CallId>,
    callers: BTreeMap<u32, CallerRow>,
    calls: BTreeMap<(u32, u32), CallRow>,
}

impl<'a, K: Ord> Maps<'a, K> {
    /// Maps of a group in which nothing happened; they allocate nothing.
    pub fn new(alloc: Global) -> Self
        ensures current { (k : K) → (noted_in K.cmp result).current k ≡ None }
        ensures caller { (a : ℕ) → (noted_in K.cmp result).caller a ≡ caller_row None }
        ensures call { (c : CallId) → (noted_in K.cmp result).call c ≡ call_row None }
    {
        Maps {
            current: BTreeMap::new(alloc),
            callers: BTreeMap::new(alloc),
            calls: BTreeMap::new(alloc),
        }
    }

    pub fn caller(&self, caller: u32) -> CallerRow
        ensures { result ≡ (noted_in K.cmp self.now).caller caller }
    {
        match self.callers.get(&caller) {
            Some(row) => *row,
            None => CallerRow {
                led: None,
                held: None,
                used: 0,
            },
        }
    }

    pub fn call(&self, call: CallId) -> CallRow
        ensures { result ≡ (noted_in K.cmp self.now).call call }
    {
        match self.calls.get(&(call.caller, call.generation)) {
            Some(row) => *row,
            None => CallRow {
                joiners: 0,
                settled: None,
            },
        }
    }

    /// The key's current call.
    pub fn current(&self, key: &'a K) -> Option<CallId>
        ensures { result ≡ (noted_in K.cmp self.now).current key.now }
    {
        self.current.get(&key).copied()
    }

    /// The key's open call, which is its current one unless that is settled.
    pub fn open(&self, key: &'a K) -> Option<CallId>
        ensures { result ≡ without (λ c. is_some ((noted_in K.cmp self.now).call c).settled)
            ((noted_in K.cmp self.now).current key.now) }
    {
        let call = self.current(key)?;
        if self.call(call).settled.is_some() {
            None
        } else {
            Some(call)
        }
    }

    // The caller has another row.
    fn set_caller(&mut self, caller: u32, row: CallerRow) -> Result<(), Memory>
        ensures { OnOk result (IsCallerSet (noted_in K.cmp self.old) (noted_in K.cmp self.new) caller row) }
    {
        self.callers.insert(caller, row)?;
        Ok(())
    }

    // The call has another row.
    fn set_call(&mut self, call: CallId, row: CallRow) -> Result<(), Memory>
        ensures { OnOk result (IsCallSet (noted_in K.cmp self.old) (noted_in K.cmp self.new) call row) }
    {
        self.calls.insert((call.caller, call.generation), row)?;
        Ok(())
    }

    // The key has this current call.
    fn lead_key(&mut self, key: &'a K, call: CallId) -> Result<(), Memory>
        ensures { OnOk result (IsKeySet K.eq (noted_in K.cmp self.old) (noted_in K.cmp self.new) key.now (Some call)) }
    {
        self.current.insert(key, call)?;
        Ok(())
    }

    /// Notes a new call that its caller leads, perhaps with an own channel of another caller.
    pub fn note_lead(&mut self, key: &'a K, call: CallId, own: Option<CallId>) -> Result<(), Memory>
        requires room { (a : ℕ) → ((noted_in K.cmp self.now).caller a).used ≤ 2 ^ 32 }
        ensures { OnOk result (IsLeadNoted K.eq (noted_in K.cmp self.old) (noted_in K.cmp self.new) key.now
            call own) }
    {
        let row = self.caller(call.caller);
        self.set_caller(
            call.caller,
            CallerRow {
                led: Some(call),
                used: row.used + 1,
                ..row
            },
        )?;
        self.hold_own(call, own)?;
        self.lead_key(key, call)?;
        Ok(())
    }

    // The call's own channel, if it has one, is held by its member.
    fn hold_own(&mut self, call: CallId, own: Option<CallId>) -> Result<(), Memory>
        requires room { (a : ℕ) → ((noted_in K.cmp self.now).caller a).used ≤ 2 ^ 32 + 1 }
        ensures { OnOk result (IsOwnNoted (noted_in K.cmp self.old) (noted_in K.cmp self.new) call own) }
    {
        match own {
            Some(member) => {
                self.hold(Ticket { call, member })?;
                Ok(())
            }
            None => Ok(()),
        }
    }

    // The ticket's member is a new generation of its caller, which holds it.
    fn hold(&mut self, ticket: Ticket) -> Result<(), Memory>
        requires room { ((noted_in K.cmp self.now).caller ticket.member.caller).used ≤ 2 ^ 32 + 1 }
        ensures { OnOk result (IsCallerSet (noted_in K.cmp self.old) (noted_in K.cmp self.new)
            ticket.member.caller
            (holding ticket ((noted_in K.cmp self.old).caller ticket.member.caller))) }
    {
        let row = self.caller(ticket.member.caller);
        self.set_caller(
            ticket.member.caller,
            CallerRow {
                held: Some(ticket),
                used: row.used + 1,
                ..row
            },
        )
    }

    /// Notes a member that enters a call.
    pub fn note_enter(&mut self, call: CallId, member: CallId) -> Result<(), Memory>
        requires room { (a : ℕ) → ((noted_in K.cmp self.now).caller a).used ≤ 2 ^ 32 }
        requires joiners { (c : CallId) → ((noted_in K.cmp self.now).call c).joiners ≤ LARGEST_CALLER }
        ensures { OnOk result (IsEnterNoted (noted_in K.cmp self.old) (noted_in K.cmp self.new) call member) }
    {
        self.hold(Ticket { call, member })?;
        let row = self.call(call);
        self.set_call(
            call,
            CallRow {
                joiners: row.joiners + 1,
                ..row
            },
        )?;
        Ok(())
    }

    /// Notes that the key has no current call any more.
    pub fn note_end(&mut self, key: &'a K)
        ensures { IsKeySet K.eq (noted_in K.cmp self.old) (noted_in K.cmp self.new) key.now None }
    {
        self.current.remove(&key);
    }

    /// Notes that the caller settled the call, at a place of the history.
    pub fn note_settle(&mut self, caller: u32, call: CallId, place: usize) -> Result<(), Memory>
        ensures { OnOk result (IsSettleNoted (noted_in K.cmp self.old) (noted_in K.cmp self.new) caller call
            place) }
    {
        let row = self.caller(caller);
        self.set_caller(caller, CallerRow { led: None, ..row })?;
        let row = self.call(call);
        self.set_call(
            call,
            CallRow {
                settled: Some(place),
                ..row
            },
        )?;
        Ok(())
    }

    /// Notes that the caller took the letter that it held a ticket for.
    pub fn note_take(&mut self, caller: u32) -> Result<(), Memory>
        ensures { OnOk result (IsTakeNoted (noted_in K.cmp self.old) (noted_in K.cmp self.new) caller) }
    {
        let row = self.caller(caller);
        self.set_caller(caller, CallerRow { held: None, ..row })
    }
}

/// An index of a sequential group: what its history says, in ordered maps. Where memory for them was refused it has none, and
/// then the group walks its history.
#[derive(Drop)]
pub struct Index<'a, K: Ord> {
    pub(crate) maps: Option<Maps<'a, K>>,
}

impl<'a, K: Ord> Index<'a, K> {
    /// Lets the maps go.
    pub(crate) fn clear(&mut self)
        ensures { self.new.maps ≡ None }
    {
        self.maps = None;
    }
}
