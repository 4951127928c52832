//! The calls of the sequential group with an index beside its history, which find in it what the history says.
//!
//! Each of them replies and adds what the call of its name does that walks. Its time grows with the logarithm of what was done
//! before. Where memory for the index is refused, the index is let go, and the calls walk from then on.

ghost use Rattle.std.specs.Prelude.{◌≡◌, ◌<◌, true, false, Ok, Err, Some, None, IfOk, IfErr, IfSome, OnErr, MatchResult, [], ◌∷◌, length, get_or};
ghost use Rattle.sf_history.specs.declared.event.Event.{Event};
ghost use Rattle.sf_history.specs.declared.event.Event.TheVariants.{Lead, Enter, Settle, Handed, Forget, ForgetCall};
ghost use Rattle.sf_history.specs.History.{joined, open_call, current_call, next_generation, result_in, result_of, answer_of};
ghost use Rattle.sf_sequential.specs.NotedMaps.{IsTold};
ghost use Rattle.sf_sequential.specs.State.{IsCaller, led_call, held_ticket, is_free, is_spent, next_id, with_events, with_taken};
ghost use Rattle.sf_sequential.specs.Sequential.{ask_of, ask_chan_of, settle_of, forget_of, forget_call_of, take_of, is_current_of, hit_of, letter_of, IsRefusal, MayAskChan};

use crate::command::{Asked, ChanAsked, Taken};
use crate::index::{Index, Maps};
use crate::refusal::ModelRefusal;
use crate::seq_group::SeqGroup;
use crate::ticket::Ticket;
use crate::walk;
use sf_history::{CallId, Forgotten, Hit, Memory, Share};
use std::alloc::Global;

impl<K: Ord, V> SeqGroup<K, V> {
    /// An index of this group, in which nothing may have happened yet: of another one it has no maps, and the group walks.
    pub fn index<'a>(&self, alloc: Global) -> Index<'a, K>
        ensures { IsTold K.cmp K.eq self.now result }
    {
        if self.history().is_empty() {
            Index {
                maps: Some(Maps::new(alloc)),
            }
        } else {
            Index { maps: None }
        }
    }

    // The call that the caller leads.
    fn led_by<'a>(&self, index: &Index<'a, K>, caller: u32) -> Option<CallId>
        requires { IsTold K.cmp K.eq self.now index.now }
        ensures { result ≡ led_call self.now.history caller }
    {
        match &index.maps {
            Some(maps) => maps.caller(caller).led,
            None => walk::led_call(self.history().events(), caller),
        }
    }

    // The ticket that the caller holds.
    fn held_by<'a>(&self, index: &Index<'a, K>, caller: u32) -> Option<Ticket>
        requires { IsTold K.cmp K.eq self.now index.now }
        ensures { result ≡ held_ticket self.now caller }
    {
        match &index.maps {
            Some(maps) => maps.caller(caller).held,
            None => self.held_ticket(caller),
        }
    }

    // The key's current call.
    fn current_by<'a>(&self, index: &Index<'a, K>, key: &'a K) -> Option<CallId>
        requires { IsTold K.cmp K.eq self.now index.now }
        ensures { result ≡ current_call K.eq self.now.history key.now }
    {
        match &index.maps {
            Some(maps) => maps.current(key),
            None => walk::current_call(self.history().events(), key),
        }
    }

    // The key's open call.
    fn open_by<'a>(&self, index: &Index<'a, K>, key: &'a K) -> Option<CallId>
        requires { IsTold K.cmp K.eq self.now index.now }
        ensures { result ≡ open_call K.eq self.now.history key.now }
    {
        self.kept();
        match &index.maps {
            Some(maps) => maps.open(key),
            None => walk::open_call(self.history().events(), key),
        }
    }

    // How many joined the call.
    fn joined_by<'a>(&self, index: &Index<'a, K>, call: CallId) -> u32
        requires { IsTold K.cmp K.eq self.now index.now }
        ensures { result ≡ joined self.now.history call }
    {
        match &index.maps {
            Some(maps) => maps.call(call).joiners,
            None => self.joined(call),
        }
    }

    // The generation that the caller uses next.
    fn next_by<'a>(&self, index: &Index<'a, K>, caller: u32) -> u64
        requires { IsTold K.cmp K.eq self.now index.now }
        ensures { result ≡ next_generation self.now.first self.now.history caller }
    {
        self.kept();
        match &index.maps {
            Some(maps) => u64::from(self.first_generation()) + maps.caller(caller).used,
            None => self.next_generation(caller),
        }
    }

    // Refuses a caller that leads or holds a ticket.
    fn free_by<'a>(&self, index: &Index<'a, K>, caller: u32) -> Result<(), ModelRefusal>
        requires { IsTold K.cmp K.eq self.now index.now }
        ensures { MatchResult result (λ _. is_free self.now caller ≡ true) (λ e.
            (is_free self.now caller ≡ false) × (e ≡ ModelRefusal.NotFree caller)) }
    {
        if self.led_by(index, caller).is_some() || self.held_by(index, caller).is_some() {
            return Err(ModelRefusal::NotFree(caller));
        }
        Ok(())
    }

    // The caller's next call or member. Refuses a caller that is spent.
    fn next_id_by<'a>(&self, index: &Index<'a, K>, caller: u32) -> Result<CallId, ModelRefusal>
        requires { IsTold K.cmp K.eq self.now index.now }
        ensures { MatchResult result (λ id. (is_spent self.now caller ≡ false)
            × (id ≡ next_id self.now caller)) (λ e. (is_spent self.now caller ≡ true)
            × (e ≡ ModelRefusal.Spent caller)) }
    {
        match u32::try_from(self.next_by(index, caller)) {
            Ok(generation) => Ok(CallId { caller, generation }),
            Err(_) => Err(ModelRefusal::Spent(caller)),
        }
    }

    // The next call of the caller and the next member of its second. Refuses as an asking with a channel does.
    fn next_ids_by<'a>(
        &self,
        index: &Index<'a, K>,
        caller: u32,
        second: u32,
    ) -> Result<(CallId, CallId), ModelRefusal>
        requires { IsTold K.cmp K.eq self.now index.now }
        ensures ok { IfOk result (λ ids. MayAskChan self.now caller second
            × (ids ≡ (next_id self.now caller, next_id self.now second))) }
        ensures refused { IfErr result (λ e.
            (key : K) → ask_chan_of K.eq self.now caller second key ≡ Err e) }
    {
        self.free_by(index, caller)?;
        if second == caller {
            return Err(ModelRefusal::NotFree(second));
        }
        self.free_by(index, second)?;
        let id = self.next_id_by(index, caller)?;
        let member = self.next_id_by(index, second)?;
        Ok((id, member))
    }

    // What a Forget of the call finds.
    fn hit_by<'a>(&self, index: &Index<'a, K>, key: &'a K, call: CallId) -> Hit
        requires { IsTold K.cmp K.eq self.now index.now }
        ensures { result ≡ hit_of (open_call K.eq self.now.history key.now)
            (current_call K.eq self.now.history key.now) call }
    {
        if walk::is_call(self.open_by(index, key), call) {
            Hit::Closed
        } else if walk::is_call(self.current_by(index, key), call) {
            Hit::Cleared
        } else {
            Hit::Missed
        }
    }

    // Notes a new call, before it is added.
    fn note_lead<'a>(
        &self,
        index: &mut Index<'a, K>,
        caller: u32,
        key: &'a K,
        call: CallId,
        own: Option<CallId>,
    )
        requires told { IsTold K.cmp K.eq self.now index.old }
        requires call { call ≡ next_id self.now caller }
        requires own { IfSome own (λ m. m ≡ next_id self.now m.caller) }
        ensures { IsTold K.cmp K.eq
            (with_events self.now (Lead caller key.now call own ∷ [])) index.new }
    {
        self.kept();
        let Some(maps) = &mut index.maps else {
            return;
        };
        match maps.note_lead(key, call, own) {
            Ok(()) => {}
            Err(_) => index.maps = None,
        }
    }

    // Notes a member that enters a call, before it is added.
    fn note_enter<'a>(
        &self,
        index: &mut Index<'a, K>,
        by: u32,
        key: &'a K,
        call: CallId,
        member: CallId,
    )
        requires told { IsTold K.cmp K.eq self.now index.old }
        requires member { member ≡ next_id self.now member.caller }
        ensures { IsTold K.cmp K.eq
            (with_events self.now (Enter by key.now call member ∷ [])) index.new }
    {
        self.kept();
        let Some(maps) = &mut index.maps else {
            return;
        };
        match maps.note_enter(call, member) {
            Ok(()) => {}
            Err(_) => index.maps = None,
        }
    }

    /// `ask`, by an index of the group that goes on with it; `owned` is the key.
    pub fn ask_by<'a>(
        &mut self,
        index: &mut Index<'a, K>,
        caller: u32,
        key: &'a K,
        owned: K,
    ) -> Result<Asked, ModelRefusal>
    where
        K: Drop,
        V: Drop,
        requires caller { IsCaller self.old caller }
        requires owned { owned ≡ key.now }
        requires told { IsTold K.cmp K.eq self.old index.old }
        ensures callers { self.new.callers ≡ self.old.callers }
        ensures ok { IfOk result (λ asked.
            ask_of K.eq self.old caller key.now ≡ Ok (asked, self.new)) }
        ensures refused { IfErr result (IsRefusal (ask_of K.eq self.old caller key.now)) }
        ensures unchanged { OnErr result (self.new ≡ self.old) }
        ensures told { IsTold K.cmp K.eq self.new index.new }
    {
        self.free_by(index, caller)?;
        let id = self.next_id_by(index, caller)?;
        let opened = self.open_by(index, key);
        match opened {
            None => self.note_lead(index, caller, key, id, None),
            Some(call) => self.note_enter(index, caller, key, call, id),
        }
        match self.asks(caller, owned, id, opened) {
            Ok(asked) => Ok(asked),
            Err(refusal) => {
                index.clear();
                Err(refusal)
            }
        }
    }

    /// `ask_chan`, by an index of the group that goes on with it; `owned` is the key.
    pub fn ask_chan_by<'a>(
        &mut self,
        index: &mut Index<'a, K>,
        caller: u32,
        second: u32,
        key: &'a K,
        owned: K,
    ) -> Result<ChanAsked, ModelRefusal>
    where
        K: Drop,
        V: Drop,
        requires caller { IsCaller self.old caller }
        requires second { IsCaller self.old second }
        requires owned { owned ≡ key.now }
        requires told { IsTold K.cmp K.eq self.old index.old }
        ensures callers { self.new.callers ≡ self.old.callers }
        ensures ok { IfOk result (λ asked.
            ask_chan_of K.eq self.old caller second key.now ≡ Ok (asked, self.new)) }
        ensures refused { IfErr result
            (IsRefusal (ask_chan_of K.eq self.old caller second key.now)) }
        ensures unchanged { OnErr result (self.new ≡ self.old) }
        ensures told { IsTold K.cmp K.eq self.new index.new }
    {
        let (id, member) = self.next_ids_by(index, caller, second)?;
        let opened = self.open_by(index, key);
        match opened {
            None => self.note_lead(index, caller, key, id, Some(member)),
            Some(call) => self.note_enter(index, second, key, call, member),
        }
        match self.asks_chan(caller, second, owned, id, member, opened) {
            Ok(asked) => Ok(asked),
            Err(refusal) => {
                index.clear();
                Err(refusal)
            }
        }
    }

    // Notes a settle, before it is added.
    fn note_settle<'a>(
        &self,
        index: &mut Index<'a, K>,
        caller: u32,
        call: CallId,
        value: &V,
        joiners: u32,
    )
        requires told { IsTold K.cmp K.eq self.now index.old }
        requires led { led_call self.now.history caller ≡ Some call }
        ensures { IsTold K.cmp K.eq
            (with_events self.now
            (Settle caller call value.now joiners ∷ Handed caller call ∷ [])) index.new }
    {
        self.kept();
        let Some(maps) = &mut index.maps else {
            return;
        };
        match maps.note_settle(caller, call, self.history().len()) {
            Ok(()) => {}
            Err(_) => index.maps = None,
        }
    }

    /// `settle`, by an index of the group that goes on with it.
    pub fn settle_by<'a>(
        &mut self,
        index: &mut Index<'a, K>,
        caller: u32,
        value: V,
    ) -> Result<(CallId, u32), (ModelRefusal, V)>
        requires caller { IsCaller self.old caller }
        requires told { IsTold K.cmp K.eq self.old index.old }
        ensures callers { self.new.callers ≡ self.old.callers }
        ensures ok { IfOk result (λ settled.
            settle_of self.old caller value ≡ Ok (settled, self.new)) }
        ensures refused { IfErr result (λ refused.
            IsRefusal (settle_of self.old caller value) refused.0) }
        ensures unchanged { IfErr result (λ refused. (refused.1 ≡ value) × (self.new ≡ self.old)) }
        ensures told { IsTold K.cmp K.eq self.new index.new }
    {
        let Some(call) = self.led_by(index, caller) else {
            return Err((ModelRefusal::NotLeading(caller), value));
        };
        let joiners = self.joined_by(index, call);
        self.note_settle(index, caller, call, &value, joiners);
        match self.settles(caller, call, joiners, value) {
            Ok(()) => Ok((call, joiners)),
            Err(value) => {
                index.clear();
                Err((ModelRefusal::Memory, value))
            }
        }
    }

    // Notes a Forget, before it is added.
    fn note_forget<'a>(
        &self,
        index: &mut Index<'a, K>,
        caller: u32,
        key: &'a K,
        closed: Option<CallId>,
    )
        requires { IsTold K.cmp K.eq self.now index.old }
        ensures { IsTold K.cmp K.eq
            (with_events self.now (Forget caller key.now closed ∷ [])) index.new }
    {
        if let Some(maps) = &mut index.maps {
            maps.note_end(key);
        }
    }

    /// `forget`, by an index of the group that goes on with it; `owned` is the key.
    pub fn forget_by<'a>(
        &mut self,
        index: &mut Index<'a, K>,
        caller: u32,
        key: &'a K,
        owned: K,
    ) -> Result<Forgotten, ModelRefusal>
    where
        K: Drop,
        V: Drop,
        requires caller { IsCaller self.old caller }
        requires owned { owned ≡ key.now }
        requires told { IsTold K.cmp K.eq self.old index.old }
        ensures callers { self.new.callers ≡ self.old.callers }
        ensures ok { IfOk result (λ forgotten.
            forget_of K.eq self.old caller key.now ≡ Ok (forgotten, self.new)) }
        ensures refused { IfErr result (IsRefusal (forget_of K.eq self.old caller key.now)) }
        ensures unchanged { OnErr result (self.new ≡ self.old) }
        ensures told { IsTold K.cmp K.eq self.new index.new }
    {
        self.free_by(index, caller)?;
        let closed = self.open_by(index, key);
        self.note_forget(index, caller, key, closed);
        match self.forgets(caller, owned, closed) {
            Ok(forgotten) => Ok(forgotten),
            Err(refusal) => {
                index.clear();
                Err(refusal)
            }
        }
    }

    // Notes a Forget of one call, before it is added.
    fn note_forget_call<'a>(
        &self,
        index: &mut Index<'a, K>,
        caller: u32,
        key: &'a K,
        call: CallId,
        hit: Hit,
    )
        requires { IsTold K.cmp K.eq self.now index.old }
        ensures { IsTold K.cmp K.eq
            (with_events self.now (ForgetCall caller key.now call hit ∷ [])) index.new }
    {
        let Some(maps) = &mut index.maps else {
            return;
        };
        match hit {
            Hit::Closed => maps.note_end(key),
            Hit::Cleared => maps.note_end(key),
            Hit::Missed => {}
        }
    }

    /// `forget_call`, by an index of the group that goes on with it; `owned` is the key.
    pub fn forget_call_by<'a>(
        &mut self,
        index: &mut Index<'a, K>,
        caller: u32,
        key: &'a K,
        owned: K,
        call: CallId,
    ) -> Result<Hit, ModelRefusal>
    where
        K: Drop,
        V: Drop,
        requires caller { IsCaller self.old caller }
        requires owned { owned ≡ key.now }
        requires told { IsTold K.cmp K.eq self.old index.old }
        ensures callers { self.new.callers ≡ self.old.callers }
        ensures ok { IfOk result (λ hit.
            forget_call_of K.eq self.old caller key.now call ≡ Ok (hit, self.new)) }
        ensures refused { IfErr result
            (IsRefusal (forget_call_of K.eq self.old caller key.now call)) }
        ensures unchanged { OnErr result (self.new ≡ self.old) }
        ensures told { IsTold K.cmp K.eq self.new index.new }
    {
        self.free_by(index, caller)?;
        let hit = self.hit_by(index, key, call);
        self.note_forget_call(index, caller, key, call, hit);
        match self.forgets_call(caller, owned, call, hit) {
            Ok(()) => Ok(hit),
            Err(refusal) => {
                index.clear();
                Err(refusal)
            }
        }
    }

    // Notes that the caller took its letter, before it is noted of the group.
    fn note_take<'a>(&self, index: &mut Index<'a, K>, caller: u32, ticket: Ticket)
        requires told { IsTold K.cmp K.eq self.now index.old }
        requires held { held_ticket self.now caller ≡ Some ticket }
        ensures { IsTold K.cmp K.eq (with_taken self.now ticket.member) index.new }
    {
        let Some(maps) = &mut index.maps else {
            return;
        };
        match maps.note_take(caller) {
            Ok(()) => {}
            Err(_) => index.maps = None,
        }
    }

    // The letter of a call whose Settle stands at this place, which so many joined.
    fn letter_at(
        &mut self,
        alloc: Global,
        call: CallId,
        place: usize,
        joiners: u32,
    ) -> Result<Taken<V>, Memory>
    where
        K: Drop,
        V: Share,
        requires place { place < length self.old.history }
        requires settled { (e : Event K V)
            → result_in (get_or self.old.history place e) ≡ result_of self.old.history call }
        requires joiners { joiners ≡ joined self.old.history call }
        ensures letter { IfOk result (λ letter.
            letter ≡ letter_of call (answer_of self.old.history call)) }
        ensures same { self.new ≡ self.old }
    {
        match self.share_at(alloc, place)? {
            Some(value) => Ok(Taken::Got(call, value, joiners)),
            None => Ok(Taken::Pending(call)),
        }
    }

    /// `take`, by an index of the group that goes on with it.
    pub fn take_by<'a>(
        &mut self,
        alloc: Global,
        index: &mut Index<'a, K>,
        caller: u32,
    ) -> Result<Taken<V>, ModelRefusal>
    where
        K: Drop,
        V: Share,
        requires caller { IsCaller self.old caller }
        requires told { IsTold K.cmp K.eq self.old index.old }
        ensures callers { self.new.callers ≡ self.old.callers }
        ensures ok { IfOk result (λ taken. take_of self.old caller ≡ Ok (taken, self.new)) }
        ensures refused { IfErr result (IsRefusal (take_of self.old caller)) }
        ensures unchanged { OnErr result (self.new ≡ self.old) }
        ensures told { IsTold K.cmp K.eq self.new index.new }
    {
        let Some(maps) = &index.maps else {
            return self.take(caller);
        };
        let Some(ticket) = maps.caller(caller).held else {
            return Err(ModelRefusal::NothingAsked(caller));
        };
        let row = maps.call(ticket.call);
        let Some(place) = row.settled else {
            return Ok(Taken::Pending(ticket.call));
        };
        let letter = self.letter_at(alloc, ticket.call, place, row.joiners)?;
        self.note_take(index, caller, ticket);
        match self.takes(caller, ticket) {
            Ok(()) => Ok(letter),
            Err(refusal) => {
                index.clear();
                Err(refusal)
            }
        }
    }

    /// `is_current`, by an index of the group.
    pub fn is_current_by<'a>(&self, index: &Index<'a, K>, key: &'a K, call: CallId) -> bool
        requires { IsTold K.cmp K.eq self.now index.now }
        ensures { result ≡ is_current_of K.eq self.now key.now call }
    {
        walk::is_call(self.current_by(index, key), call)
    }
}
